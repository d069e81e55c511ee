// The few functions that cross between i64 and unsigned numbers. The crates above compare signed numbers and leave all else to them.
#![tactic(auto)]

ghost use Rattle.std.specs.Prelude.{◌≡◌, pos, ◌-ℤ◌};
ghost use Rattle.signed.specs.Sign.{above, below, nearest};

const MOST: u64 = i64::MAX as u64;

// The part of z above 0.
pub fn above_zero(z: i64) -> u64
    ensures { result ≡ above z }
{
    if z < 0 {
        return 0;
    }
    z as u64
}

// The part of z below 0, its sign dropped.
pub fn below_zero(z: i64) -> u64
    ensures { result ≡ below z }
{
    if z < 0 {
        return z.unsigned_abs();
    }
    0
}

// By how much a is above b; 0 where it is not.
pub fn excess(a: i64, b: i64) -> u64
    ensures { result ≡ above (a -ℤ b) }
{
    if b < a {
        return a.abs_diff(b);
    }
    0
}

// a - b, which may be negative; where no i64 is that number, the nearest one.
pub fn difference(a: u64, b: u64) -> i64
    ensures { result ≡ nearest (pos a -ℤ pos b) }
{
    if a < b {
        return -1 - (b - a - 1).min(MOST) as i64;
    }
    (a - b).min(MOST) as i64
}
