// The readings that the lines have named, until a call uses them up.
ghost use Rattle.std.specs.Prelude.{◌≤◌};
ghost use Rattle.ledger_trace.specs.declared.readings.TheConstants.{MOST};

use energy::rate::BLOCK_AT_TWENTY;

// One more than the longest block has.
const MOST: usize = BLOCK_AT_TWENTY + 1;

// The first of the room, so many as the count says.
#[derive(Drop)]
pub struct Readings {
    room: [u16; MOST],
    count: usize,
    ghost within: { count ≤ MOST },
}

impl Readings {
    pub fn new() -> Readings {
        Readings {
            room: [0; MOST],
            count: 0,
        }
    }

    pub fn as_slice(&self) -> &[u16] {
        &self.room[..self.count]
    }

    pub fn clear(&mut self) {
        self.count = 0;
    }

    // So many more of a reading; none where there is no room for them.
    pub fn extend(&mut self, reading: u16, times: usize) -> Option<()> {
        let end = self.count.checked_add(times)?;
        self.room.get_mut(self.count..end)?.fill(reading);
        self.count = end;
        Some(())
    }
}
