// The ledger: checking, proposing and closing, over the record of ledger_record.
#![tactic(auto)]

ghost use Rattle.std.specs.Prelude.{◌≡◌, ◌+◌, ◌≤◌, ◌<◌, ◌^◌, pos, ◌+ℤ◌, ◌-ℤ◌};
ghost use Rattle.common.specs.Answer.{or_blank};
ghost use Rattle.signed.specs.Sign.{within};
ghost use Rattle.ledger_record.specs.Rule.{next_at};
ghost use Rattle.ledger.specs.Calls.{usable_standing, need_of, NeedFits, toward, moved, settling, closed_entries, is_trader, TotalFits, added_to, TotalsFit, totals_with, CanClose, record_with, checking, check_number, check_answer_of, proposing, propose_number, propose_answer_of, closing_of, closing, close_number, close_answer_of};

use common::{Directions, Refusal};
use energy::period::{BySteps, period_energy};
use ledger_record::{Entries, Record, Standing, Totals};
use requirement::Next;
use terms::{DirectionTerms, Quantities};

#[derive(Clone, Copy, Debug, PartialEq, Eq)]
pub enum CheckRefusal {
    // Eight periods are closed, or the record rule is broken.
    Unusable,
    // The purchase is not accepted.
    Purchase,
}

#[derive(Clone, Copy, Debug, PartialEq, Eq)]
pub enum ProposeRefusal {
    // Eight periods are closed, or the record rule is broken.
    Unusable,
}

#[derive(Clone, Copy, Debug, PartialEq, Eq)]
pub enum CloseRefusal {
    // Eight periods are closed, or the record rule is broken.
    Unusable,
    // The trader is not 1 to 4.
    Trader,
    // The purchase is not accepted.
    Purchase,
    // The count is that of neither rate, or a reading is bad.
    Readings,
    // Delivered or taken is below 0 or above its bound, or the new state is outside 0..size.
    Energy,
}

// What a closing is asked with beside its readings: a purchase, energy delivered low and energy taken high, and the trader.
#[derive(Clone, Copy)]
pub struct Closing {
    pub purchase: i64,
    pub delivered: i64,
    pub taken: i64,
    pub trader: u32,
}

// The standing of a record that refusal 10 lets through.
fn usable_standing(given: &Record) -> Option<Standing>
    ensures { result ≡ usable_standing given.now }
{
    let standing = ledger_record::standing_of(given);
    let unusable = (given.closed == 8) | !standing.holds;
    if unusable {
        return None;
    }
    Some(standing)
}

// ---- what the next period needs

// The greater of 0 and start + back of the period that begins so.
fn need_of(next: Next) -> u64
    requires { NeedFits next }
    ensures { (pos result ≡ need_of next.start next.back) × (result ≤ 2 ^ 45) }
{
    let start = next.start;
    let up = signed::above_zero(start) + next.back;
    let down = signed::below_zero(start);
    if up < down {
        return 0;
    }
    up - down
}

// What each direction needs of the state: the low one below it, the high one between it and the size.
#[derive(Clone, Copy)]
struct Needs {
    low: u64,
    high: u64,
    ghost low_most: { low ≤ 2 ^ 45 },
    ghost high_most: { high ≤ 2 ^ 45 },
}

impl Needs {
    fn of(standing: Standing) -> Needs
        requires { NeedFits standing.low × NeedFits standing.high }
        ensures { (pos result.low ≡ need_of standing.low.start standing.low.back) × (pos result.high ≡ need_of standing.high.start standing.high.back) }
    {
        Needs {
            low: need_of(standing.low),
            high: need_of(standing.high),
        }
    }

    // Whether state + purchase lies from low to size less high.
    fn accept(self, given: &Record, purchase: i64) -> bool
        ensures { result ≡ within (pos self.low) (pos given.now.state +ℤ purchase) (pos given.now.size -ℤ pos self.high) }
    {
        let size = given.size as u64;
        let up = given.state as u64 + signed::above_zero(purchase);
        let down = signed::below_zero(purchase);
        (self.low + down <= up) & (up + self.high <= size + down)
    }

    // What brings the state to low or more and to size less high or less.
    fn proposal(self, given: &Record) -> i64
        ensures { result ≡ toward (pos self.low) (pos given.now.state) (pos given.now.size -ℤ pos self.high) }
    {
        let low = self.low;
        let high = self.high;
        let state = given.state as u64;
        let size = given.size as u64;
        if state < low {
            return signed::difference(low, state);
        }
        if size < state + high {
            return signed::difference(size, state + high);
        }
        0
    }
}

// ---- checking

// Checks a purchase, of which a negative one is a sale: refusals 10, 8.
pub fn check_purchase(given: &Record, purchase: i64) -> Result<(), CheckRefusal>
    ensures { check_answer_of result ≡ checking given.now purchase }
{
    let Some(standing) = usable_standing(given) else {
        return Err(CheckRefusal::Unusable);
    };
    if !Needs::of(standing).accept(given, purchase) {
        return Err(CheckRefusal::Purchase);
    }
    Ok(())
}

impl Refusal for CheckRefusal {
    ghost refusal = { check_number };

    fn number(self) -> u32 {
        match self {
            CheckRefusal::Unusable => 10,
            CheckRefusal::Purchase => 8,
        }
    }
}

// ---- proposing

// Proposes the accepted purchase nearest 0: refusal 10.
pub fn propose_purchase(given: &Record) -> Result<i64, ProposeRefusal>
    ensures { propose_answer_of result ≡ proposing given.now }
{
    let Some(standing) = usable_standing(given) else {
        return Err(ProposeRefusal::Unusable);
    };
    Ok(Needs::of(standing).proposal(given))
}

impl Refusal for ProposeRefusal {
    ghost refusal = { propose_number };

    fn number(self) -> u32 {
        match self {
            ProposeRefusal::Unusable => 10,
        }
    }
}

// ---- closing

fn within_bound(energy: i64, bound: u32) -> bool
    ensures { result ≡ within (pos 0) energy (pos bound) }
{
    (0 <= energy) & (energy <= bound as i64)
}

// The new state, where a closing settles.
fn settle(given: &Record, bounds: Directions<u32>, asked: Closing) -> Option<u32>
    ensures { result ≡ settling bounds.low bounds.high given.now.size asked.delivered asked.taken (moved (pos given.now.state) asked.purchase asked.delivered asked.taken) }
{
    if !(within_bound(asked.delivered, bounds.low) & within_bound(asked.taken, bounds.high)) {
        return None;
    }
    let state = given.state as u64;
    let size = given.size as u64;
    let comes = state + signed::above_zero(asked.purchase) + signed::above_zero(asked.taken);
    let goes = signed::below_zero(asked.purchase) + signed::above_zero(asked.delivered);
    if comes < goes {
        return None;
    }
    let new = comes - goes;
    if size < new {
        return None;
    }
    Some(new as u32)
}

// Closes one period more in a direction's entries, which begins so.
fn close_entries(entries: &mut Entries, q: Quantities, closed: u32, bound: u32, next: Next)
    requires { (closed < 8) × (next ≡ next_at q closed entries.old) }
    ensures { entries.new ≡ closed_entries q entries.old closed bound }
{
    let at = closed as usize;
    entries.bounds[at] = bound;
    entries.starts[at] = next.start;
    entries.scheds[at] = (bound as u64 + next.left).min(DirectionTerms::of(q).er);
}

// A total with what a closing adds to it.
fn total_with(total: u32, more: u64) -> u32
    requires { total + more < 2 ^ 32 }
    ensures { result ≡ total + more }
{
    total + more as u32
}

// Adds to the traders' totals what a closing adds to that of its trader.
fn add_to(each: &mut [u32; 4], trader: u32, more: u64)
    requires { TotalFits trader each.old more }
    ensures { each.new ≡ added_to trader each.old more }
{
    let at = (trader - 1) as usize;
    each[at] = total_with(each[at], more);
}

// Adds a closing to the totals.
fn add_closing(totals: &mut Totals, asked: Closing)
    requires { TotalsFit totals.old asked }
    ensures { totals.new ≡ totals_with totals.old asked }
{
    let bought = signed::above_zero(asked.purchase);
    let sold = signed::below_zero(asked.purchase);
    add_to(&mut totals.bought, asked.trader, bought);
    add_to(&mut totals.sold, asked.trader, sold);
    totals.delivered = total_with(totals.delivered, signed::above_zero(asked.delivered));
    totals.taken = total_with(totals.taken, signed::above_zero(asked.taken));
}

// Closes one period more in a record, by its standing before.
fn carry_out(
    given: &mut Record,
    standing: Standing,
    bounds: Directions<u32>,
    new: u32,
    asked: Closing,
)
    requires { CanClose given.old standing bounds.low bounds.high asked }
    ensures { given.new ≡ record_with given.old bounds.low bounds.high new asked }
{
    let closed = given.closed;
    let t = given.terms;
    given.state = new;
    given.closed = closed + 1;
    close_entries(&mut given.low, t.low, closed, bounds.low, standing.low);
    close_entries(&mut given.high, t.high, closed, bounds.high, standing.high);
    add_closing(&mut given.totals, asked);
}

// Whether a trader is 1 to 4; refusal 19 where not.
fn is_trader(trader: u32) -> bool
    ensures { result ≡ is_trader trader }
{
    (1 <= trader) & (trader <= 4)
}

// Closes a period: refusals 10, 19, 8, 6, 9; a record whose closing is refused stays as it was.
pub fn close_period(
    given: &mut Record,
    asked: Closing,
    readings: &[u16],
) -> Result<(), CloseRefusal>
    ensures answer { close_answer_of result given.new ≡ closing given.old (closing_of asked readings.now) }
    ensures kept { given.new ≡ or_blank given.old (closing given.old (closing_of asked readings.now)) }
{
    let Some(standing) = usable_standing(given) else {
        return Err(CloseRefusal::Unusable);
    };
    if !is_trader(asked.trader) {
        return Err(CloseRefusal::Trader);
    }
    if !Needs::of(standing).accept(given, asked.purchase) {
        return Err(CloseRefusal::Purchase);
    }
    let quantities = Directions {
        low: given.terms.low,
        high: given.terms.high,
    };
    let Ok(bounds) = period_energy::<BySteps>(quantities, given.curves, readings) else {
        return Err(CloseRefusal::Readings);
    };
    let Some(new) = settle(given, bounds, asked) else {
        return Err(CloseRefusal::Energy);
    };
    carry_out(given, standing, bounds, new, asked);
    Ok(())
}

impl Refusal for CloseRefusal {
    ghost refusal = { close_number };

    fn number(self) -> u32 {
        match self {
            CloseRefusal::Unusable => 10,
            CloseRefusal::Trader => 19,
            CloseRefusal::Purchase => 8,
            CloseRefusal::Readings => 6,
            CloseRefusal::Energy => 9,
        }
    }
}
