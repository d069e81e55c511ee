// The two rates at which plants file readings: every count of readings comes from here.
ghost use Rattle.std.specs.Prelude.{◌≡◌};
ghost use Rattle.energy.specs.Rate.{is_period_count, is_block_count, part_length};

// A period is half an hour, 1,800 seconds, with two readings in each or twenty.
pub const PERIOD_AT_TWO: usize = 1800 * 2;

pub const PERIOD_AT_TWENTY: usize = 1800 * 20;

// A block has eight periods, all at one rate.
pub const BLOCK_AT_TWO: usize = 8 * PERIOD_AT_TWO;

pub const BLOCK_AT_TWENTY: usize = 8 * PERIOD_AT_TWENTY;

// Whether a period has so many readings.
pub(crate) fn is_period_count(count: usize) -> bool
    ensures { result ≡ is_period_count count }
{
    (count == PERIOD_AT_TWO) | (count == PERIOD_AT_TWENTY)
}

// Whether a block has so many.
pub(crate) fn is_block_count(count: usize) -> bool
    ensures { result ≡ is_block_count count }
{
    (count == BLOCK_AT_TWO) | (count == BLOCK_AT_TWENTY)
}

// How many of a block's readings each of its periods has.
pub(crate) fn part_length(count: usize) -> usize
    ensures { result ≡ part_length count }
{
    count / 8
}
