// The ledger's record, its rule and opening.
#![tactic(auto)]

ghost use Rattle.std.specs.Prelude.{◌≡◌, cond, ◌&&◌, ◌+◌, ◌*◌, ◌≤◌, ◌^◌, length, leb, eqb, pos};
ghost use Rattle.common.specs.Answer.{checked};
ghost use Rattle.common.specs.Lists.{sum};
ghost use Rattle.requirement.specs.Requirement.{noted};
ghost use Rattle.ledger_record.specs.Opening.{quantity_out, size_out, first_out, opening_causes, first_record, blank_record, opening, refusal_number, answer_of};
ghost use Rattle.ledger_record.specs.Rule.{within_rule, direction_of, next_start, totals_rule, passes_both, record_rule, standing_of};

use common::Refusal;
use energy::curve::{Curves, curves_hold};
use requirement::Next;
use terms::{DirectionTerms, Quantities, Terms};

// A direction's bound, requirement (its start) and schedule of each closed period. The papers' definitions read each as a list of its
// own.
#[derive(Clone, Copy, Default)]
pub struct Entries {
    pub bounds: [u32; 8],
    pub starts: [i64; 8],
    pub scheds: [u64; 8],
}

// What each of the traders 1 to 4 bought and sold, and what was delivered and taken, in the closed periods.
#[derive(Clone, Copy, Default)]
pub struct Totals {
    pub bought: [u32; 4],
    pub sold: [u32; 4],
    pub delivered: u32,
    pub taken: u32,
}

// Nothing in it is trusted: each call answers for any bits.
#[derive(Clone, Copy)]
pub struct Record {
    pub terms: Terms,
    pub curves: Curves,
    pub size: u32,
    pub first: u32,
    pub state: u32,
    pub closed: u32,
    pub low: Entries,
    pub high: Entries,
    pub totals: Totals,
}

#[derive(Clone, Copy, Debug, PartialEq, Eq)]
pub enum OpenRefusal {
    // A direction is above 1,000 MW, or both are 0.
    Quantity,
    // A power limit is outside its range, or overbid.
    Power,
    // A curve breaks its rule.
    Curve,
    // The size is above 10,000,000 or below both REVs together.
    Size,
    // The first state is below the low REV or above the size less the high REV.
    State,
}

// ---- opening

// Refusal 1.
fn quantity_out(t: Terms) -> bool
    ensures { result ≡ quantity_out t }
{
    let low = t.low;
    let high = t.high;
    let none = (DirectionTerms::of(low).quantity == 0) & (DirectionTerms::of(high).quantity == 0);
    terms::above_1000_mw(low) | terms::above_1000_mw(high) | none
}

// Refusal 3.
fn size_out(t: Terms, size: u32) -> bool
    ensures { result ≡ size_out t size }
{
    let size = size as u64;
    let both = DirectionTerms::of(t.low).rev + DirectionTerms::of(t.high).rev;
    (10_000_000 < size) | (size < both)
}

// Refusal 4.
fn first_out(t: Terms, size: u32, first: u32) -> bool
    ensures { result ≡ first_out t size first }
{
    let size = size as u64;
    let first = first as u64;
    (first < DirectionTerms::of(t.low).rev) | (size < first + DirectionTerms::of(t.high).rev)
}

// The first of the causes 1, 2, 5, 3, 4 that holds.
fn check_opening(t: Terms, curves: Curves, size: u32, first: u32) -> Result<(), OpenRefusal>
    ensures { answer_of result ≡ checked (opening_causes t curves size first) tt }
{
    if quantity_out(t) {
        return Err(OpenRefusal::Quantity);
    }
    if terms::limits_broken(t) {
        return Err(OpenRefusal::Power);
    }
    if !curves_hold(curves) {
        return Err(OpenRefusal::Curve);
    }
    if size_out(t, size) {
        return Err(OpenRefusal::Size);
    }
    if first_out(t, size, first) {
        return Err(OpenRefusal::State);
    }
    Ok(())
}

// No period closed.
fn first_record(terms: Terms, curves: Curves, size: u32, first: u32) -> Record
    ensures { result ≡ first_record terms curves size first }
{
    Record {
        terms,
        curves,
        size,
        first,
        state: first,
        closed: 0,
        low: Entries::default(),
        high: Entries::default(),
        totals: Totals::default(),
    }
}

// All zero: what a caller may show in place of a record that is refused.
pub fn blank_record() -> Record
    ensures { result ≡ blank_record }
{
    first_record(Terms::default(), Curves::default(), 0, 0)
}

// Opens a record: refusals 1, 2, 5, 3, 4.
pub fn open_record(t: Terms, curves: Curves, size: u32, first: u32) -> Result<Record, OpenRefusal>
    ensures { answer_of result ≡ opening t curves size first }
{
    check_opening(t, curves, size, first)?;
    Ok(first_record(t, curves, size, first))
}

impl Refusal for OpenRefusal {
    ghost refusal = { refusal_number };

    fn number(self) -> u32 {
        match self {
            OpenRefusal::Quantity => 1,
            OpenRefusal::Power => 2,
            OpenRefusal::Curve => 5,
            OpenRefusal::Size => 3,
            OpenRefusal::State => 4,
        }
    }
}

// ---- the record rule

// One direction: whether its entries keep the rule, and what the period after the closed ones begins with, which `next_start` and
// `standing_of` promise where the rule is broken too.
#[derive(Clone, Copy)]
struct Direction {
    holds: bool,
    next: Next,
}

// The entries of one period, closed (done) or not, but for what a closed one's bounds make of them.
fn entry_within(done: bool, most: u64, bound: u32, requirement: i64, schedule: u64) -> bool
    ensures { result ≡ cond done (leb bound most) (eqb bound 0 && noted requirement schedule (pos 0) 0) }
{
    if done {
        return bound as u64 <= most;
    }
    (bound == 0) & ((requirement == 0) & (schedule == 0))
}

fn entries_within(most: u64, closed: u32, entries: &Entries) -> bool
    ensures { result ≡ within_rule most closed entries.now }
{
    let mut holds = true;
    for i in 0..8 {
        let done = i < closed as usize;
        let bound = entries.bounds[i];
        holds &= entry_within(done, most, bound, entries.starts[i], entries.scheds[i]);
    }
    holds
}

fn direction_of(q: Quantities, closed: u32, entries: &Entries) -> Direction
    ensures { result ≡ direction_of q closed entries.now }
{
    let most = 500 * DirectionTerms::of(q).quantity;
    let matched = requirement::match_entries(
        q,
        closed,
        entries.bounds,
        entries.starts,
        entries.scheds,
    );
    Direction {
        holds: matched.same & entries_within(most, closed, entries),
        next: matched.next,
    }
}

// The sum of what eight periods or four traders have; numbers of any bits may pass 32 bits.
fn sum_of(numbers: &[u32]) -> u64
    requires { length numbers.now ≤ 8 }
    ensures { (result ≡ sum numbers.now) × (result ≤ 2 ^ 32 * length numbers.now) }
{
    let mut total: u64 = 0;
    for n in numbers {
        total += *n as u64;
    }
    total
}

impl Record {
    // Bought and sold against the most, delivered and taken against the sums of the low and the high bounds.
    fn totals_hold(&self) -> bool
        ensures { result ≡ totals_rule self.now }
    {
        let most = 10_000_000 * self.closed as u64;
        (sum_of(&self.totals.bought) <= most)
            & (sum_of(&self.totals.sold) <= most)
            & (self.totals.delivered as u64 <= sum_of(&self.low.bounds))
            & (self.totals.taken as u64 <= sum_of(&self.high.bounds))
    }

    // The state against the size, and against the start of each direction.
    fn state_passes(&self, low_start: i64, high_start: i64) -> bool
        ensures { result ≡ passes_both self.now.state self.now.size low_start high_start }
    {
        let state = self.state;
        let size = self.size;
        if size < state {
            return false;
        }
        (low_start <= state as i64) & (high_start <= (size - state) as i64)
    }

    // state = first + bought − sold − delivered + taken
    fn balances(&self) -> bool
        ensures { result ≡ eqb (self.now.state + (sum self.now.totals.sold + self.now.totals.delivered)) (self.now.first + sum self.now.totals.bought + self.now.totals.taken) }
    {
        let lost = sum_of(&self.totals.sold) + self.totals.delivered as u64;
        let gained = sum_of(&self.totals.bought) + self.totals.taken as u64;
        self.state as u64 + lost == self.first as u64 + gained
    }
}

// The start after the closed periods, 0 where more than eight are closed.
pub fn next_start(q: Quantities, closed: u32, entries: &Entries) -> i64
    ensures { result ≡ next_start q closed entries.now }
{
    if 8 < closed {
        return 0;
    }
    direction_of(q, closed, entries).next.start
}

// Whether a record keeps its rule, and what the period after the closed ones begins with in each direction, whether it does or not.
#[derive(Clone, Copy)]
pub struct Standing {
    pub holds: bool,
    pub low: Next,
    pub high: Next,
}

// The record rule, whatever a record's bits. Each direction's periods are passed once.
pub fn standing_of(given: &Record) -> Standing
    ensures { result ≡ standing_of given.now }
{
    let closed = given.closed;
    let t = given.terms;
    let low_direction = direction_of(t.low, closed, &given.low);
    let high_direction = direction_of(t.high, closed, &given.high);
    let low = low_direction.next;
    let high = high_direction.next;
    let holds = (closed <= 8)
        & check_opening(t, given.curves, given.size, given.first).is_ok()
        & low_direction.holds
        & high_direction.holds
        & given.totals_hold()
        & (given.state_passes(low.start, high.start) & given.balances());
    Standing { holds, low, high }
}

// Whether a record keeps the record rule, whatever its bits.
pub fn record_holds(given: &Record) -> bool
    ensures { result ≡ record_rule given.now }
{
    standing_of(given).holds
}
