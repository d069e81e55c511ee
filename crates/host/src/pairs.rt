// Pairs of numbers as a C host hands them over: two little-endian u32 each.
#![tactic(auto)]

ghost use Rattle.std.specs.Prelude.{◌≡◌, ℕ, ◌/◌, ◌<◌, min, take, length};
ghost use Rattle.host.specs.Pairs.{pair_at, first_pairs};
ghost use Rattle.host.specs.Points.{point};
ghost use Rattle.host.specs.Pieces.{piece};

use capability::Point;
use payment::Piece;

// What two numbers make.
pub(crate) trait Pair {
    ghost pair: { ℕ → ℕ → Self };

    fn pair(first: u32, second: u32) -> Self
        ensures { result ≡ pair first second };
}

impl Pair for Point {
    ghost pair = { point };

    fn pair(room: u32, capability: u32) -> Point {
        Point { room, capability }
    }
}

impl Pair for Piece {
    ghost pair = { piece };

    fn pair(quantity: u32, duration: u32) -> Piece {
        Piece { quantity, duration }
    }
}

fn pair_at<P: Pair>(bytes: &[u8], i: usize) -> P
    requires { i < length bytes.now / 8 }
    ensures { result ≡ pair_at P.pair bytes.now i }
{
    P::pair(
        bytes_at::u32_at(bytes, 8 * i),
        bytes_at::u32_at(bytes, 8 * i + 4),
    )
}

// The pairs in the bytes, MOST at most, and blank ones after them.
pub(crate) fn pairs_in<P: Pair + Copy, const MOST: usize>(bytes: &[u8]) -> [P; MOST]
    ensures { take (min (length bytes.now / 8) MOST) result ≡ first_pairs P.pair (min (length bytes.now / 8) MOST) bytes.now }
{
    let mut pairs = [P::pair(0, 0); MOST];
    for i in 0..(bytes.len() / 8).min(MOST) {
        pairs[i] = pair_at(bytes, i);
    }
    pairs
}
