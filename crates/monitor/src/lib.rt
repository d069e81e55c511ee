// The monitor: eight bounds and eight reported energies of one direction give eight rows with a verdict each.
#![tactic(auto)]

ghost use Rattle.std.specs.Prelude.{◌≡◌, ltb};
ghost use Rattle.common.specs.Lists.{some_entry};
ghost use Rattle.monitor.specs.Monitor.{judged, rows_of, refusal_number, answer_of, monitoring};

use common::Refusal;
use std::array;
use terms::{DirectionTerms, Quantities};

// The report's fields of a period; flag: unavailability is allowed; verdict: the period passes.
#[derive(Clone, Copy)]
pub struct Row {
    pub period: u32,
    pub bound: u32,
    pub start: i64,
    pub end: i64,
    pub sched: u64,
    pub back: u64,
    pub left: u64,
    pub flag: bool,
    pub verdict: bool,
}

#[derive(Clone, Copy, Debug, PartialEq, Eq)]
pub enum MonitorRefusal {
    // The direction is above 1,000 MW, or its quantity is 0.
    Quantity,
    // A bound is above 500 times the quantity.
    Bound,
    // A reported energy is above 10,000,000.
    Reported,
}

// Whether some entry is above the limit.
fn some_above(limit: u64, entries: [u32; 8]) -> bool
    ensures { result ≡ some_entry (ltb limit) entries }
{
    entries.iter().any(|entry| limit < *entry as u64)
}

fn judge(period: u32, bound: u32, r: requirement::Row, reported: u32) -> Row
    ensures { result ≡ judged period bound r reported }
{
    Row {
        period,
        bound,
        start: r.start,
        end: r.end,
        sched: r.sched,
        back: r.back,
        left: r.left,
        flag: r.flag,
        verdict: r.start <= reported as i64,
    }
}

fn rows_of(rev: u32, er: u32, bounds: [u32; 8], reported: [u32; 8]) -> [Row; 8]
    ensures { result ≡ rows_of rev er bounds reported }
{
    let requirements = requirement::table_of(rev, er, bounds).rows;
    array::from_fn(|i| judge(i as u32 + 1, bounds[i], requirements[i], reported[i]))
}

// Refusals 1, 7, 11, each over all eight periods.
#[tactic(auto, unfolding(crate::specs::Monitor::monitoring))]
pub fn monitor(
    q: Quantities,
    bounds: [u32; 8],
    reported: [u32; 8],
) -> Result<[Row; 8], MonitorRefusal>
    ensures { answer_of result ≡ monitoring q bounds reported }
{
    let t = DirectionTerms::of(q);
    let quantity_out = terms::above_1000_mw(q) | (t.quantity == 0);
    let bound_out = some_above(500 * t.quantity, bounds);
    let reported_out = some_above(10_000_000, reported);
    if quantity_out {
        return Err(MonitorRefusal::Quantity);
    }
    if bound_out {
        return Err(MonitorRefusal::Bound);
    }
    if reported_out {
        return Err(MonitorRefusal::Reported);
    }
    Ok(rows_of(t.rev as u32, t.er as u32, bounds, reported))
}

impl Refusal for MonitorRefusal {
    ghost refusal = { refusal_number };

    fn number(self) -> u32 {
        match self {
            MonitorRefusal::Quantity => 1,
            MonitorRefusal::Bound => 7,
            MonitorRefusal::Reported => 11,
        }
    }
}
