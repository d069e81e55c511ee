// Start and cease instructions of one direction: the machine that follows them.
#![tactic(auto)]

ghost use Rattle.std.specs.Prelude.{◌≡◌};
ghost use Rattle.instructions.specs.Instructions.{fresh, issued, acceptance, accepted, rejected, effective, late, pending_by, due_by, soon, too_soon, unanswered, conditions_met, suits, acted, refusal_number, answer_of, following};

use common::Refusal;

// An instruction that is pending: its issue, its start or cease time, and whether it was accepted.
#[derive(Clone, Copy)]
pub struct Pending {
    pub issue: u64,
    pub at: u64,
    pub accepted: bool,
}

#[derive(Clone, Copy)]
pub enum State {
    Idle,
    StartPending(Pending),
    Delivering,
    CeasePending(Pending),
}

// The state, and the time of the last event.
#[derive(Clone, Copy)]
pub struct Machine {
    pub state: State,
    pub last: u64,
}

// What a start says of the unit: its submitted limit, whether it is available and armed, and its energy for this direction in
// kWh, for offers in the low one and for bids in the high one.
#[derive(Clone, Copy)]
pub struct Conditions {
    pub limit: u32,
    pub available: bool,
    pub armed: bool,
    pub energy: u32,
}

#[derive(Clone, Copy)]
pub enum Action {
    Start { at: u64, conditions: Conditions },
    Cease { at: u64 },
    Accept,
    Reject,
    Tick,
}

// What happens, and its time in whole seconds, which for a start or cease is its issue.
#[derive(Clone, Copy)]
pub struct Event {
    pub time: u64,
    pub action: Action,
}

#[derive(Clone, Copy, Debug, PartialEq, Eq)]
pub enum FollowRefusal {
    // The event is earlier than the last one.
    Earlier,
    // The start or cease time is under 120 after its issue.
    TooSoon,
    // A start condition is unmet, or the event does not suit the state.
    Unsuited,
}

impl Refusal for FollowRefusal {
    ghost refusal = { refusal_number };

    fn number(self) -> u32 {
        match self {
            FollowRefusal::Earlier => 15,
            FollowRefusal::TooSoon => 16,
            FollowRefusal::Unsuited => 17,
        }
    }
}

pub fn fresh_machine() -> Machine
    ensures { result ≡ fresh }
{
    Machine {
        state: State::Idle,
        last: 0,
    }
}

impl Pending {
    fn issued(issue: u64, at: u64) -> Pending
        ensures { result ≡ issued issue at }
    {
        Pending {
            issue,
            at,
            accepted: false,
        }
    }

    fn with_acceptance(self) -> Pending
        ensures { result ≡ acceptance self }
    {
        Pending {
            accepted: true,
            ..self
        }
    }

    // More than 120 after issue; the sum of issue and 120 might not fit.
    fn is_late(self, time: u64) -> bool
        ensures { result ≡ late self.issue time }
    {
        120 < time.saturating_sub(self.issue)
    }
}

impl State {
    // ---- what becomes of a pending instruction

    fn accepted(self) -> State
        ensures { result ≡ accepted self }
    {
        match self {
            State::StartPending(p) => State::StartPending(p.with_acceptance()),
            State::CeasePending(p) => State::CeasePending(p.with_acceptance()),
            State::Idle | State::Delivering => self,
        }
    }

    fn rejected(self) -> State
        ensures { result ≡ rejected self }
    {
        match self {
            State::StartPending(_) => State::Idle,
            State::CeasePending(_) => State::Delivering,
            State::Idle | State::Delivering => self,
        }
    }

    fn effective(self) -> State
        ensures { result ≡ effective self }
    {
        match self {
            State::StartPending(_) => State::Delivering,
            State::CeasePending(_) => State::Idle,
            State::Idle | State::Delivering => self,
        }
    }

    // ---- what is due by a time

    // Where p is the pending instruction.
    #[tactic(auto, unfolding(crate::specs::Instructions::pending_by))]
    fn pending_by(self, time: u64, p: Pending) -> State
        ensures { result ≡ pending_by time p self }
    {
        if p.accepted {
            if p.at <= time {
                return self.effective();
            }
            return self;
        }
        if p.is_late(time) {
            return self.rejected();
        }
        self
    }

    #[tactic(auto, unfolding(crate::specs::Instructions::due_by))]
    fn due_by(self, time: u64) -> State
        ensures { result ≡ due_by time self }
    {
        match self {
            State::StartPending(p) | State::CeasePending(p) => self.pending_by(time, p),
            State::Idle | State::Delivering => self,
        }
    }

    // ---- what suits an answer

    fn is_unanswered(self) -> bool
        ensures { result ≡ unanswered self }
    {
        match self {
            State::StartPending(p) | State::CeasePending(p) => !p.accepted,
            State::Idle | State::Delivering => false,
        }
    }
}

// ---- following an event

// Under 120 after issue.
fn is_soon(issue: u64, at: u64) -> bool
    ensures { result ≡ soon issue at }
{
    at.saturating_sub(issue) < 120
}

impl Conditions {
    fn met(self) -> bool
        ensures { result ≡ conditions_met self }
    {
        (0 < self.limit)
            & self.available
            & self.armed
            & (1 <= self.energy)
            & (self.energy <= 10_000_000)
    }
}

impl Action {
    fn is_too_soon(self, time: u64) -> bool
        ensures { result ≡ too_soon time self }
    {
        match self {
            Action::Start { at, .. } | Action::Cease { at } => is_soon(time, at),
            Action::Accept | Action::Reject | Action::Tick => false,
        }
    }

    fn suits(self, s: State) -> bool
        ensures { result ≡ suits self s }
    {
        match self {
            Action::Start { conditions, .. } => conditions.met() & matches!(s, State::Idle),
            Action::Cease { .. } => matches!(s, State::Delivering),
            Action::Accept | Action::Reject => s.is_unanswered(),
            Action::Tick => true,
        }
    }

    // What the event does to a state that it suits.
    fn acted(self, time: u64, s: State) -> State
        ensures { result ≡ acted time self s }
    {
        match self {
            Action::Start { at, .. } => State::StartPending(Pending::issued(time, at)),
            Action::Cease { at } => State::CeasePending(Pending::issued(time, at)),
            Action::Accept => s.accepted(),
            Action::Reject => s.rejected(),
            Action::Tick => s,
        }
    }
}

// Follows an event: refusals 15, 16, 17.
#[tactic(auto, unfolding(crate::specs::Instructions::following))]
pub fn follow(m: Machine, e: Event) -> Result<Machine, FollowRefusal>
    ensures { answer_of result ≡ following m e }
{
    let Machine { state, last } = m;
    let Event { time, action } = e;
    if time < last {
        return Err(FollowRefusal::Earlier);
    }
    if action.is_too_soon(time) {
        return Err(FollowRefusal::TooSoon);
    }
    let before = state.due_by(time);
    if !action.suits(before) {
        return Err(FollowRefusal::Unsuited);
    }
    let after = action.acted(time, before);
    Ok(Machine {
        state: after.due_by(time),
        last: time,
    })
}
