// Prints bounds, block checks and parts, one number a line in nine columns. At two readings a second: the bounds of a period at
// 49,984 and of one at 50,000 under 100 MW of regulation each way; what the check names in a block with a bad reading, and for
// another count; the first reading and the length of the part of period 2. At twenty: the bounds of a period at 49,984, and
// the check and the part of such a block.
#![tactic(auto)]

use common::{Directions, Refusal};
use energy::block::{check_block, part};
use energy::curve::{Curves, containment_curve, regulation_curve};
use energy::period::{BySteps, period_energy};
use energy::rate::{BLOCK_AT_TWENTY, BLOCK_AT_TWO, PERIOD_AT_TWENTY, PERIOD_AT_TWO};
use std::io;
use terms::Quantities;

fn write_number(rt: &impl Print, n: u64) -> io::Result<()> {
    rt.write_all(&columns::number_line(n))
}

// Both bounds, or a refusal's number.
fn write_bounds(rt: &impl Print, readings: &[u16]) -> io::Result<()> {
    let q = Quantities {
        dc: 0,
        dm: 0,
        dr: 100,
    };
    let curves = Curves {
        dc: containment_curve(),
        dm: regulation_curve(),
        dr: regulation_curve(),
    };
    match period_energy::<BySteps>(Directions { low: q, high: q }, curves, readings) {
        Ok(bounds) => {
            write_number(rt, u64::from(bounds.low))?;
            write_number(rt, u64::from(bounds.high))
        }
        Err(refusal) => write_number(rt, u64::from(refusal.number())),
    }
}

// Period and place, or nothing for a good block.
fn write_check(rt: &impl Print, block: &[u16]) -> io::Result<()> {
    if let Err(bad) = check_block(block) {
        write_number(rt, u64::from(bad.period))?;
        write_number(rt, u64::from(bad.place))?;
    }
    Ok(())
}

fn write_part(rt: &impl Print, block: &[u16], period: u32) -> io::Result<()> {
    let readings = part(block, period);
    if let Some(first) = readings.first() {
        write_number(rt, u64::from(*first))?;
    }
    write_number(rt, readings.len() as u64)
}

// The first reading of period 2 differs from the others, and the one at place 13 is bad.
fn at_two(rt: &impl Print) -> io::Result<()> {
    let readings = [49984u16; PERIOD_AT_TWO];
    write_bounds(rt, &readings)?;
    let readings = [50000u16; PERIOD_AT_TWO];
    write_bounds(rt, &readings)?;
    let mut block = [50000u16; BLOCK_AT_TWO];
    block[PERIOD_AT_TWO] = 49984;
    block[PERIOD_AT_TWO + 12] = 46999;
    write_check(rt, &block)?;
    write_check(rt, &readings)?;
    write_part(rt, &block, 2)
}

// The same block at twenty readings a second.
fn at_twenty(rt: &impl Print) -> io::Result<()> {
    let readings = [49984u16; PERIOD_AT_TWENTY];
    write_bounds(rt, &readings)?;
    let mut block = [50000u16; BLOCK_AT_TWENTY];
    block[PERIOD_AT_TWENTY] = 49984;
    block[PERIOD_AT_TWENTY + 12] = 46999;
    write_check(rt, &block)?;
    write_part(rt, &block, 2)
}

fn main(rt: HostRuntime) -> io::Result<()> {
    at_two(&rt)?;
    at_twenty(&rt)
}
