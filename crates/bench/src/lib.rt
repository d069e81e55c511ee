// What the timing program in bench/ links: period energy over numbers, by steps and by table, with curves chosen at run time; the
// response by table; and closings.
#![tactic(auto)]

ghost use Rattle.std.specs.Prelude.{◌≡◌, ◌+◌, ◌*◌};
ghost use Rattle.ledger.specs.Calls.{closing_with};
ghost use Rattle.energy.specs.Containment.{response_by_table};
ghost use Rattle.energy.specs.Curve.{containment_curve, response};
ghost use Rattle.bench.specs.Bench.{quantities, curve_of, curves_of, period_number, opened_record, closings, record_number};

use common::{Directions, Refusal};
use energy::containment::{response_by_table, response_from};
use energy::curve::{Curve, Curves, Point, containment_curve, regulation_curve};
use energy::period::{BySteps, ByTable, Way, period_energy};
use ledger::Closing;
use ledger_record::Record;
use terms::{Quantities, Terms};

// Still rising at 3,000 mHz.
const RISING: Curve = Curve {
    count: 5,
    points: [
        Point {
            deviation: 15,
            share: 0,
        },
        Point {
            deviation: 200,
            share: 50,
        },
        Point {
            deviation: 500,
            share: 400,
        },
        Point {
            deviation: 1500,
            share: 700,
        },
        Point {
            deviation: 3000,
            share: 1000,
        },
    ],
};

fn curve_of(n: u32) -> Curve
    ensures { result ≡ curve_of n }
{
    match n {
        1 => containment_curve(),
        3 => RISING,
        _ => regulation_curve(),
    }
}

fn curves_of(dc: u32, dm: u32, dr: u32) -> Curves
    ensures { result ≡ curves_of dc dm dr }
{
    Curves {
        dc: curve_of(dc),
        dm: curve_of(dm),
        dr: curve_of(dr),
    }
}

// Two numbers as one.
fn one_number(a: u32, b: u32) -> u64
    ensures { result ≡ a * 4294967296 + b }
{
    a as u64 * 4294967296 + b as u64
}

// Both bounds in one number, the low one times 2^32, or a refusal's number, for the same quantities in both directions.
fn period_number<W: Way>(q: Quantities, curves: Curves, readings: &[u16]) -> u64
    ensures { result ≡ period_number q curves readings.now }
{
    let quantities = Directions { low: q, high: q };
    match period_energy::<W>(quantities, curves, readings) {
        Ok(bounds) => one_number(bounds.low, bounds.high),
        Err(refusal) => refusal.number() as u64,
    }
}

#[unsafe(no_mangle)]
pub extern "C" fn bench_period(
    dc: u32,
    dm: u32,
    dr: u32,
    dc_curve: u32,
    dm_curve: u32,
    dr_curve: u32,
    readings: &[u16],
) -> u64
    ensures { result ≡ period_number (quantities dc dm dr) (curves_of dc_curve dm_curve dr_curve) readings.now }
{
    let q = Quantities { dc, dm, dr };
    let curves = curves_of(dc_curve, dm_curve, dr_curve);
    period_number::<BySteps>(q, curves, readings)
}

#[unsafe(no_mangle)]
pub extern "C" fn bench_period_by_table(
    dc: u32,
    dm: u32,
    dr: u32,
    dc_curve: u32,
    dm_curve: u32,
    dr_curve: u32,
    readings: &[u16],
) -> u64
    ensures { result ≡ period_number (quantities dc dm dr) (curves_of dc_curve dm_curve dr_curve) readings.now }
{
    let q = Quantities { dc, dm, dr };
    let curves = curves_of(dc_curve, dm_curve, dr_curve);
    period_number::<ByTable>(q, curves, readings)
}

#[unsafe(no_mangle)]
pub extern "C" fn bench_response_by_table(mw: u32, deviation: u16) -> u64
    ensures { result ≡ response mw containment_curve deviation }
{
    response_by_table(mw, deviation)
}

#[unsafe(no_mangle)]
pub extern "C" fn bench_response_from(table: &[u32; 501], mw: u32, deviation: u16) -> u64
    ensures { result ≡ response_by_table table.now mw deviation }
{
    response_from(table, mw, deviation)
}

// A record just opened, for regulation alone; a blank one where opening refuses.
fn opened_record(mw: u32, size: u32, first: u32) -> Record
    ensures { result ≡ opened_record mw size first }
{
    let q = Quantities {
        dc: 0,
        dm: 0,
        dr: mw,
    };
    let t = Terms {
        low: q,
        high: q,
        export_limit: 2_000_000,
        import_limit: 2_000_000,
    };
    match ledger_record::open_record(t, curves_of(2, 2, 2), size, first) {
        Ok(opened) => opened,
        Err(_) => ledger_record::blank_record(),
    }
}

// Opens a record and closes as many periods with the same arguments: the periods closed times 2^32, and the state.
#[unsafe(no_mangle)]
pub extern "C" fn bench_closings(
    mw: u32,
    size: u32,
    first: u32,
    count: u32,
    purchase: i64,
    readings: &[u16],
    delivered: i64,
    taken: i64,
    trader: u32,
) -> u64
    ensures { result ≡ record_number (closings count (opened_record mw size first) (closing_with purchase readings.now delivered taken trader)) }
{
    let asked = Closing {
        purchase,
        delivered,
        taken,
        trader,
    };
    let mut after = opened_record(mw, size, first);
    for _i in 0..count {
        // a refused closing counts too
        let _ = ledger::close_period(&mut after, asked, readings);
    }
    one_number(after.closed, after.state)
}
