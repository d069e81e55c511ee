// The machine of `instructions` as a C host keeps it: five numbers in 32 bytes.
#![tactic(auto)]

ghost use Rattle.std.specs.Prelude.{◌≡◌, true, false, length, MatchResult};
ghost use Rattle.host.specs.MachineBytes.{field_bytes, fields_in, pending_fields, other_fields, fields_of, fields_rule, pending_of, state_of, machine_of};

use crate::Malformed;
use instructions::{Machine, Pending, State};

// State is 0 idle, 1 start pending, 2 delivering, 3 cease pending; accepted is 0 or 1; `at` is the start or cease time.
#[derive(Clone, Copy)]
pub(crate) struct Fields {
    state: u32,
    accepted: u32,
    last: u64,
    issue: u64,
    at: u64,
}

impl Fields {
    // ---- bytes

    #[tactic(auto, unfolding(crate::specs::MachineBytes::fields_in))]
    pub(crate) fn read(bytes: &[u8]) -> Fields
        ensures { result ≡ fields_in bytes.now }
    {
        Fields {
            state: bytes_at::u32_at(bytes, 0),
            accepted: bytes_at::u32_at(bytes, 4),
            last: bytes_at::u64_at(bytes, 8),
            issue: bytes_at::u64_at(bytes, 16),
            at: bytes_at::u64_at(bytes, 24),
        }
    }

    pub(crate) fn write(self, bytes: &mut [u8])
        requires { length bytes.old ≡ 32 }
        ensures { bytes.new ≡ field_bytes self }
    {
        bytes_at::put_u32(bytes, 0, self.state);
        bytes_at::put_u32(bytes, 4, self.accepted);
        bytes_at::put_u64(bytes, 8, self.last);
        bytes_at::put_u64(bytes, 16, self.issue);
        bytes_at::put_u64(bytes, 24, self.at);
    }

    // ---- numbers

    #[tactic(auto, unfolding(crate::specs::MachineBytes::fields_rule))]
    fn hold(self) -> bool
        ensures { result ≡ fields_rule self }
    {
        let pending = (self.state == 1) | (self.state == 3);
        let blank = (self.accepted == 0) & (self.issue == 0) & (self.at == 0);
        (self.state <= 3) & (self.accepted <= 1) & (pending | blank)
    }

    fn pending(self) -> Pending
        ensures { result ≡ pending_of self }
    {
        Pending {
            issue: self.issue,
            at: self.at,
            accepted: self.accepted == 1,
        }
    }

    #[tactic(auto, unfolding(crate::specs::MachineBytes::state_of))]
    fn state(self) -> State
        ensures { result ≡ state_of self }
    {
        match self.state {
            0 => State::Idle,
            1 => State::StartPending(self.pending()),
            2 => State::Delivering,
            _ => State::CeasePending(self.pending()),
        }
    }

    fn of_pending(state: u32, p: Pending, last: u64) -> Fields
        ensures { result ≡ pending_fields state p last }
    {
        Fields {
            state,
            accepted: u32::from(p.accepted),
            last,
            issue: p.issue,
            at: p.at,
        }
    }

    fn of_other(state: u32, last: u64) -> Fields
        ensures { result ≡ other_fields state last }
    {
        Fields {
            state,
            accepted: 0,
            last,
            issue: 0,
            at: 0,
        }
    }
}

impl TryFrom<Fields> for Machine {
    type Error = Malformed;

    ghost try_from_gives = { λ f answer. MatchResult answer (λ m. (fields_rule f ≡ true) × (m ≡ machine_of f)) (λ _. fields_rule f ≡ false) };

    fn try_from(f: Fields) -> Result<Machine, Malformed> {
        if !f.hold() {
            return Err(Malformed);
        }
        Ok(Machine {
            state: f.state(),
            last: f.last,
        })
    }
}

impl From<Machine> for Fields {
    ghost from_gives = { λ m f. f ≡ fields_of m };

    fn from(m: Machine) -> Fields {
        match m.state {
            State::Idle => Fields::of_other(0, m.last),
            State::StartPending(p) => Fields::of_pending(1, p, m.last),
            State::Delivering => Fields::of_other(2, m.last),
            State::CeasePending(p) => Fields::of_pending(3, p, m.last),
        }
    }
}
