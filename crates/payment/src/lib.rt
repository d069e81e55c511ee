// Real-time payment: what a period's pieces of quantity and time pay, in pence.
#![tactic(auto)]

ghost use Rattle.std.specs.Prelude.{◌≡◌, ◌*◌, ◌≤◌, max};
ghost use Rattle.payment.specs.Exact.{rounded};
ghost use Rattle.payment.specs.Payment.{measured_of, parts_less, refusal_number, answer_of, cause_of, first_from, payment_causes, paying};

use common::Refusal;

// kW, for a number of seconds.
#[derive(Clone, Copy)]
pub struct Piece {
    pub quantity: u32,
    pub duration: u32,
}

// Refusal 20, and what is over its limit.
#[derive(Clone, Copy, Debug, PartialEq, Eq)]
pub enum PaymentRefusal {
    // A price above 10,000.
    Price,
    // The adjustment price above 10,000.
    AdjustmentPrice,
    // K above 1.
    K,
    // F above 1.
    F,
    // More than 64 pieces, one above 1,000,000 kW, or more than 1,800 seconds together.
    Pieces,
}

// 1, where K times F is counted.
const MILLION: u64 = 1_000_000;

// A penny in parts: 1,000 kW times 3,600 seconds times a million.
const PENNY: u64 = 3_600_000_000_000;

const HALF: u64 = 1_800_000_000_000;

// A part less than half a penny.
const UNDER_HALF: u64 = 1_799_999_999_999;

// The kW times seconds of all pieces; none where the pieces break their rule.
fn measure(pieces: &[Piece]) -> Option<u64>
    ensures { result ≡ measured_of pieces.now }
{
    let count = pieces.len();
    if 64 < count {
        return None;
    }
    let mut seconds: u64 = 0;
    let mut work: u64 = 0;
    for p in pieces {
        if 1_000_000 < p.quantity {
            return None;
        }
        seconds += p.duration as u64;
        work += p.quantity as u64 * p.duration as u64;
    }
    if 1_800 < seconds {
        return None;
    }
    Some(work)
}

fn greater(a: u32, b: u32) -> u32
    ensures { result ≡ max a b }
{
    a.max(b)
}

// What a kW and second earns less what goes from it, in parts of a penny, times kW and seconds: in whole pence, a half upward. One
// of gain and loss is 0, and then so is its quotient.
fn pence(earned: u64, lost: u64, work: u64) -> i64
    requires { (earned ≤ 10000000000) × (lost ≤ 10000000000) × (work ≤ 1800000000) }
    ensures { result ≡ rounded (parts_less (earned * work) (lost * work)) }
{
    let both = earned.min(lost);
    let gain = (earned - both) * work;
    let loss = (lost - both) * work;
    signed::difference((gain + HALF) / PENNY, (loss + UNDER_HALF) / PENNY)
}

// The payment of a period in whole pence; below 0 the provider pays. Refusal 20 in the order price, adjustment price, K, F, pieces.
#[tactic(auto, unfolding(crate::specs::Payment::paying, crate::specs::Payment::payment_causes, crate::specs::Payment::first_from))]
pub fn payment(
    price: u32,
    adjustment: u32,
    k: u32,
    f: u32,
    pieces: &[Piece],
) -> Result<i64, PaymentRefusal>
    ensures answer { answer_of result ≡ paying price adjustment k f pieces.now }
    ensures cause { cause_of result ≡ first_from 1 (payment_causes price adjustment k f pieces.now) }
{
    if 10_000 < price {
        return Err(PaymentRefusal::Price);
    }
    if 10_000 < adjustment {
        return Err(PaymentRefusal::AdjustmentPrice);
    }
    if 1_000 < k {
        return Err(PaymentRefusal::K);
    }
    if 1_000 < f {
        return Err(PaymentRefusal::F);
    }
    let Some(work) = measure(pieces) else {
        return Err(PaymentRefusal::Pieces);
    };
    let short = MILLION - k as u64 * f as u64;
    let most = greater(price, adjustment) as u64;
    Ok(pence(price as u64 * MILLION, most * short, work))
}

impl Refusal for PaymentRefusal {
    ghost refusal = { refusal_number };

    fn number(self) -> u32 {
        20
    }
}
