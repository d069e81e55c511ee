// The examples of document 003 in kW, one a line: of appendix 1 headroom and footroom at each time, of appendix 2 room and
// capability. Then the contracted quantities of 02, No. 6, four for a direction.
#![tactic(auto)]

use capability::{Energies, Limits, Point};
use std::io;

// The answer in nine columns.
fn write_answer<R: Copy>(rt: &impl Print, answer: Result<u64, R>) -> io::Result<()> {
    match answer {
        Ok(kw) => print!(rt; "{kw:>9}"),
        Err(_) => print!(rt; "{:>9}", "refused"),
    }
}

fn limits(mil: i64, sil: i64, sel: i64, mel: i64, ol: i64) -> Limits {
    Limits {
        mil,
        sil,
        sel,
        mel,
        ol,
    }
}

fn point(room: u32, capability: u32) -> Point {
    Point { room, capability }
}

// With a limit that no capability of the examples reaches.
fn write_quantity(
    rt: &impl Print,
    direction: u32,
    available: u32,
    energies: Energies,
    l: Limits,
    points: &[Point],
) -> io::Result<()> {
    let answer = capability::quantity(direction, available, energies, l, points, 4_000_000);
    write_answer(rt, answer)
}

fn energies(offer: u32, bid: u32) -> Energies {
    Energies { offer, bid }
}

// With energy for offers and for bids, with none for offers, with none for bids, and of a unit that is not available.
fn write_quantities(
    rt: &impl Print,
    direction: u32,
    l: Limits,
    points: &[Point],
) -> io::Result<()> {
    write_quantity(rt, direction, 1, energies(1, 1), l, points)?;
    write_quantity(rt, direction, 1, energies(0, 1), l, points)?;
    write_quantity(rt, direction, 1, energies(1, 0), l, points)?;
    write_quantity(rt, direction, 0, energies(1, 1), l, points)
}

// Both rooms, and the quantities low and high of a unit whose capability is its room.
fn write_rooms(rt: &impl Print, l: Limits) -> io::Result<()> {
    let equal = [point(0, 0), point(4_000_000, 4_000_000)];
    write_answer(rt, capability::room(1, l))?;
    write_answer(rt, capability::room(2, l))?;
    write_quantities(rt, 1, l, &equal)?;
    write_quantities(rt, 2, l, &equal)?;
    println!(rt;)
}

// The capability at a room, which is 4,000,000 at most.
fn write_capability(
    rt: &impl Print,
    direction: u32,
    l: Limits,
    points: &[Point],
) -> io::Result<()> {
    let room = capability::room(direction, l);
    write_answer(rt, room)?;
    if let Ok(kw) = room {
        if let Ok(kw) = u32::try_from(kw) {
            write_answer(rt, capability::capability(points, kw))?;
        }
    }
    write_quantities(rt, direction, l, points)?;
    println!(rt;)
}

// The text gives the rooms, and that the unit is at SEL in the second line and at SIL in the last. Its figures are not
// reproduced: the other levels are chosen so that the rooms come out. MIL is higher in the third line, since its rooms of 20
// and around 50 MW do not fit the limits of the first two.
fn appendix_1(rt: &impl Print) -> io::Result<()> {
    write_rooms(rt, limits(-50_000, 0, 0, 50_000, -20_000))?;
    write_rooms(rt, limits(-50_000, 0, 0, 50_000, 0))?;
    write_rooms(rt, limits(-20_000, 0, 0, 50_000, 30_000))?;
    write_rooms(rt, limits(-50_000, -20_000, 10_000, 50_000, 30_000))?;
    write_rooms(rt, limits(-50_000, -20_000, 10_000, 50_000, -20_000))
}

// MIL and SIL are 0 where the text gives none.
fn low_frequency(rt: &impl Print) -> io::Result<()> {
    let curve = [
        point(0, 0),
        point(10_000, 9_000),
        point(50_000, 25_000),
        point(100_000, 40_000),
    ];
    write_capability(rt, 1, limits(0, 0, 0, 100_000, 50_000), &curve)?;
    write_capability(rt, 1, limits(0, 0, 0, 100_000, 70_000), &curve)?;
    write_capability(
        rt,
        1,
        limits(-100_000, -10_000, 10_000, 100_000, -50_000),
        &curve,
    )?;
    write_capability(rt, 1, limits(-100_000, 0, 0, 100_000, -50_000), &curve)
}

// The last line has the 100 MW of the rule; 003 prints 80.
fn high_frequency(rt: &impl Print) -> io::Result<()> {
    let curve = [point(0, 0), point(30_000, 20_000), point(100_000, 60_000)];
    write_capability(rt, 2, limits(0, 0, 10_000, 100_000, 40_000), &curve)?;
    write_capability(rt, 2, limits(-50_000, 0, 0, 50_000, 15_000), &curve)?;
    write_capability(
        rt,
        2,
        limits(-50_000, -10_000, 10_000, 50_000, -26_000),
        &curve,
    )?;
    write_capability(rt, 2, limits(-100_000, 0, 0, 100_000, 70_000), &curve)
}

fn main(rt: HostRuntime) -> io::Result<()> {
    appendix_1(&rt)?;
    low_frequency(&rt)?;
    high_frequency(&rt)
}
