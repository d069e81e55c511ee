// The requirement of one direction over the eight periods of a block.
#![tactic(auto)]

ghost use Rattle.std.specs.Prelude.{◌≡◌, ◌≤◌, ◌+◌, ◌-◌, ◌^◌, min, pos, ◌-ℤ◌, replicate, slice_index, slice_set};
ghost use Rattle.terms.specs.Terms.{REV, ER};
ghost use Rattle.requirement.specs.Requirement.{RowFits, row_from, table_of, noted, matched_to};

use terms::{DirectionTerms, Quantities};

// A period's requirement at its start and end, in kWh; flag: unavailability is allowed.
#[derive(Clone, Copy, Default)]
pub struct Row {
    pub left: u64,
    pub sched: u64,
    pub back: u64,
    pub start: i64,
    pub end: i64,
    pub flag: bool,
}

// Periods 1 to 8, and the next start after them.
#[derive(Clone, Copy)]
pub struct Table {
    pub rows: [Row; 8],
    pub start9: i64,
}

// What a period begins with.
#[derive(Clone, Copy)]
pub struct Next {
    pub left: u64,
    pub back: u64,
    pub start: i64,
}

// Whether the entries of some periods are those of their bounds, and what the next period begins with.
#[derive(Clone, Copy)]
pub struct Matched {
    pub same: bool,
    pub next: Next,
}

// A direction's response energy volume REV and recovery volume ER, in kWh. REV less any shortfall of a block then fits an i64.
#[derive(Clone, Copy)]
struct Volumes {
    rev: u64,
    er: u64,
    ghost in_range: { rev ≤ 2 ^ 44 },
}

impl Volumes {
    // The volumes of a direction's quantities.
    fn of(q: Quantities) -> Volumes
        ensures { (result.rev ≡ REV q) × (result.er ≡ ER q) }
    {
        let t = DirectionTerms::of(q);
        Volumes {
            rev: t.rev,
            er: t.er,
        }
    }

    // REV less a shortfall.
    fn less(self, shortfall: u64) -> i64
        requires { shortfall ≤ 2 ^ 36 }
        ensures { result ≡ pos self.rev -ℤ pos shortfall }
    {
        signed::difference(self.rev, shortfall)
    }
}

// The periods passed one by one: what is left and what is short of REV at the start of the next one, and in `backs` what comes back
// in each period, four periods ahead.
#[derive(Clone, Copy)]
struct Sums {
    volumes: Volumes,
    passed: usize,
    left: u64,
    shortfall: u64,
    backs: [u64; 12],
}

impl Sums {
    // Before period 1.
    fn of(volumes: Volumes) -> Sums
        ensures volumes { result.volumes ≡ volumes }
        ensures sums { (result.passed ≡ 0) × (result.left ≡ 0) × (result.shortfall ≡ 0) × (result.backs ≡ replicate 12 0) }
    {
        Sums {
            volumes,
            passed: 0,
            left: 0,
            shortfall: 0,
            backs: [0; 12],
        }
    }

    // Passes the next period, of this bound, and gives its row.
    fn pass(&mut self, bound: u32) -> Row
        requires { RowFits self.old.passed self.old.left (slice_index self.old.backs self.old.passed) self.old.shortfall }
        ensures row { result ≡ row_from self.old.volumes.er bound self.old.left (slice_index self.old.backs self.old.passed) (pos self.old.volumes.rev -ℤ pos self.old.shortfall) }
        ensures volumes { self.new.volumes ≡ self.old.volumes }
        ensures passed { self.new.passed ≡ self.old.passed + 1 }
        ensures left { self.new.left ≡ self.old.left + bound - result.sched }
        ensures shortfall { self.new.shortfall ≡ self.old.shortfall + bound - slice_index self.old.backs self.old.passed }
        ensures backs { self.new.backs ≡ slice_set self.old.backs (self.old.passed + 4) result.sched }
    {
        let Sums {
            volumes,
            passed: i,
            left,
            shortfall,
            ..
        } = *self;
        let rev = volumes.rev;
        let back = self.backs[i];
        let due = bound as u64 + left;
        let sched = due.min(volumes.er);
        let next = shortfall + bound as u64 - back;
        self.backs[i + 4] = sched;
        self.left = due - sched;
        self.shortfall = next;
        self.passed = i + 1;
        Row {
            left,
            sched,
            back,
            start: volumes.less(shortfall),
            end: volumes.less(next),
            flag: (rev <= shortfall) | (rev <= next),
        }
    }

    // What the next period begins with.
    fn next(&self) -> Next
        requires { (self.now.passed ≤ 8) × (self.now.shortfall ≤ 2 ^ 36) }
        ensures { result ≡ record { left = self.now.left; back = slice_index self.now.backs self.now.passed; start = pos self.now.volumes.rev -ℤ pos self.now.shortfall } }
    {
        Next {
            left: self.left,
            back: self.backs[self.passed],
            start: self.volumes.less(self.shortfall),
        }
    }
}

// The rows of the eight periods, and the next start after them.
fn fill(volumes: Volumes, bounds: [u32; 8]) -> Table
    ensures { result ≡ table_of volumes.rev volumes.er bounds }
{
    let mut sums = Sums::of(volumes);
    let mut rows = [Row::default(); 8];
    for i in 0..8 {
        rows[i] = sums.pass(bounds[i]);
    }
    Table {
        rows,
        start9: volumes.less(sums.shortfall),
    }
}

// Whether a period's entries are this start and this schedule.
fn is_noted(requirement: i64, schedule: u64, start: i64, sched: u64) -> bool
    ensures { result ≡ noted requirement schedule start sched }
{
    (requirement == start) & (schedule == sched)
}

// The table of given volumes.
pub fn table_of(rev: u32, er: u32, bounds: [u32; 8]) -> Table
    ensures { result ≡ table_of rev er bounds }
{
    let volumes = Volumes {
        rev: rev as u64,
        er: er as u64,
    };
    fill(volumes, bounds)
}

// The table of a direction, whatever its quantities.
pub fn direction_table(q: Quantities, bounds: [u32; 8]) -> Table
    ensures { result ≡ table_of (REV q) (ER q) bounds }
{
    fill(Volumes::of(q), bounds)
}

// Compares the entries of a direction's closed periods, of eight at most, with the rows of their bounds.
pub fn match_entries(
    q: Quantities,
    closed: u32,
    bounds: [u32; 8],
    requirements: [i64; 8],
    schedules: [u64; 8],
) -> Matched
    ensures { result ≡ matched_to (REV q) (ER q) bounds requirements schedules (min closed 8) }
{
    let mut sums = Sums::of(Volumes::of(q));
    let count = (closed as usize).min(8);
    let mut same = true;
    for i in 0..count {
        let made = sums.pass(bounds[i]);
        same &= is_noted(requirements[i], schedules[i], made.start, made.sched);
    }
    Matched {
        same,
        next: sums.next(),
    }
}
