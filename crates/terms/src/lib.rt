// The services of Dynamic Response with their constants, the terms of a direction, and the terms check.
#![tactic(auto)]

ghost use Rattle.std.specs.Prelude.{◌≡◌, ◌<◌, ◌^◌};
ghost use Rattle.terms.specs.Terms.{direction_terms, above1000, power, limit_broken, limits_broken, refusal_number, answer_of, terms_check};

use common::Refusal;

// A service of Dynamic Response, to which its constants belong. Per MW: response energy volume and recovery volume in kWh, reserved
// power in kW.
pub trait Service {
    const REV: u64;

    const ER: u64;

    const RESERVED: u64;
}

#[derive(Clone, Copy)]
pub struct Containment;

#[derive(Clone, Copy)]
pub struct Moderation;

#[derive(Clone, Copy)]
pub struct Regulation;

impl Service for Containment {
    const REV: u64 = 250;

    const ER: u64 = 50;

    const RESERVED: u64 = 100;
}

impl Service for Moderation {
    const REV: u64 = 500;

    const ER: u64 = 100;

    const RESERVED: u64 = 200;
}

impl Service for Regulation {
    const REV: u64 = 1000;

    const ER: u64 = 200;

    const RESERVED: u64 = 400;
}

// One value for each service.
#[derive(Clone, Copy, Default)]
pub struct Services<T> {
    pub dc: T,
    pub dm: T,
    pub dr: T,
}

// A direction's quantity for each service, in MW.
pub type Quantities = Services<u32>;

// The sums over a direction's services: MW, kWh, kWh, kW.
#[derive(Clone, Copy)]
pub struct DirectionTerms {
    pub quantity: u64,
    pub rev: u64,
    pub er: u64,
    pub reserved: u64,
}

impl DirectionTerms {
    pub fn of(q: Quantities) -> DirectionTerms
        ensures { result ≡ direction_terms q }
    {
        let dc = q.dc as u64;
        let dm = q.dm as u64;
        let dr = q.dr as u64;
        DirectionTerms {
            quantity: dc + dm + dr,
            rev: Containment::REV * dc + Moderation::REV * dm + Regulation::REV * dr,
            er: Containment::ER * dc + Moderation::ER * dm + Regulation::ER * dr,
            reserved: Containment::RESERVED * dc
                + Moderation::RESERVED * dm
                + Regulation::RESERVED * dr,
        }
    }
}

// Both directions, and the power limits in kW.
#[derive(Clone, Copy, Default)]
pub struct Terms {
    pub low: Quantities,
    pub high: Quantities,
    pub export_limit: i64,
    pub import_limit: i64,
}

#[derive(Clone, Copy, Debug, PartialEq, Eq)]
pub enum TermsRefusal {
    // A direction is above 1,000 MW.
    Quantity,
    // A power limit is outside its range, or overbid.
    Power,
}

pub fn above_1000_mw(q: Quantities) -> bool
    ensures { result ≡ above1000 q }
{
    1000 < DirectionTerms::of(q).quantity
}

// What a direction's power limit has to hold, in kW.
fn power_of(own: Quantities, other: Quantities) -> u64
    ensures { result ≡ power own other }
{
    1000 * DirectionTerms::of(own).quantity + DirectionTerms::of(other).reserved
}

fn limit_broken(limit: i64, power: u64) -> bool
    requires { power < 2 ^ 63 }
    ensures { result ≡ limit_broken limit power }
{
    !((0 <= limit) & (limit <= 2_000_000)) | (limit < power as i64)
}

#[tactic(auto, unfolding(crate::specs::Terms::limits_broken))]
pub fn limits_broken(t: Terms) -> bool
    ensures { result ≡ limits_broken t }
{
    let low = t.low;
    let high = t.high;
    let export = power_of(low, high);
    let import = power_of(high, low);
    limit_broken(t.export_limit, export) | limit_broken(t.import_limit, import)
}

// The terms check: refusal 1, then 2.
#[tactic(auto, unfolding(crate::specs::Terms::terms_check))]
pub fn check(t: Terms) -> Result<(), TermsRefusal>
    ensures { answer_of result ≡ terms_check t }
{
    let quantity = above_1000_mw(t.low) | above_1000_mw(t.high);
    let power = limits_broken(t);
    if quantity {
        return Err(TermsRefusal::Quantity);
    }
    if power {
        return Err(TermsRefusal::Power);
    }
    Ok(())
}

impl Refusal for TermsRefusal {
    ghost refusal = { refusal_number };

    fn number(self) -> u32 {
        match self {
            TermsRefusal::Quantity => 1,
            TermsRefusal::Power => 2,
        }
    }
}
