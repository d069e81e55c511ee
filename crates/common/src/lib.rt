// What every crate uses: a refusal's number, a value for each direction, and the test of a chain of points; in specs/ a call's
// answer, the periods of a block, sums and tests over lists.
#![tactic(auto)]

ghost use Rattle.std.specs.Prelude.{◌≡◌, Bool, ℕ};
ghost use Rattle.common.specs.Answer.{number_of, answered};
ghost use Rattle.common.specs.Lists.{chain};

// Why a call declines: each cause has its number in the papers' list.
pub trait Refusal {
    ghost refusal: { Self → ℕ };

    fn number(self) -> u32
        ensures { result ≡ refusal self };
}

// The number of an answer, 0 where nothing is refused.
pub fn number<T: Copy, R: Refusal + Copy>(answer: Result<T, R>) -> u32
    ensures { result ≡ number_of (answered R.refusal answer) }
{
    match answer {
        Ok(_) => 0,
        Err(refusal) => refusal.number(),
    }
}

// A value for each direction.
#[derive(Clone, Copy)]
pub struct Directions<T> {
    pub low: T,
    pub high: T,
}

// A point of a line: whether its numbers are in range, and whether the line may go on to the next point.
pub trait LinePoint {
    ghost in_range: { Self → Bool };

    ghost rises: { Self → Self → Bool };

    fn is_in_range(self) -> bool
        ensures { result ≡ in_range self };

    fn rises_to(self, next: Self) -> bool
        ensures { result ≡ rises self next };
}

// Whether each point is in range and the line may go on from each to the next.
pub fn is_line<P: LinePoint + Copy>(first: P, others: &[P]) -> bool
    ensures { result ≡ chain P.in_range P.rises first others.now }
{
    let mut last = first;
    for next in others {
        if !(last.is_in_range() & last.rises_to(*next)) {
            return false;
        }
        last = *next;
    }
    last.is_in_range()
}
