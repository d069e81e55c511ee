// Period energy: the bounds of both directions, from a period's readings.
ghost use Rattle.std.specs.Prelude.{◌≡◌, Bool, ◌*◌, ◌≤◌, true, false, is_some};
ghost use Rattle.common.specs.Fraction.{rounded_up};
ghost use Rattle.energy.specs.Containment.{is_containment, Offered};
ghost use Rattle.energy.specs.declared.curve.Curve.{Curve};
ghost use Rattle.energy.specs.Period.{BeforeReadings, from_readings, period_energy, refusal_number, answer_of};
ghost use Rattle.energy.specs.Rate.{is_period_count, divisor};

use crate::containment::is_containment;
use crate::containment_table::stored_table;
use crate::curve::{Curve, Curves, curves_hold};
use crate::rate::is_period_count;
use crate::table::{largest_deviations, sum_responses};
use common::{Directions, Refusal};
use terms::Quantities;

#[derive(Clone, Copy, Debug, PartialEq, Eq)]
pub enum EnergyRefusal {
    // A direction is above 1,000 MW.
    Quantity,
    // A curve breaks its rule.
    Curve,
    // The count is that of neither rate, or a reading is bad.
    Readings,
}

impl Refusal for EnergyRefusal {
    ghost refusal = { refusal_number };

    fn number(self) -> u32 {
        match self {
            EnergyRefusal::Quantity => 1,
            EnergyRefusal::Curve => 5,
            EnergyRefusal::Readings => 6,
        }
    }
}

// How responses are worked out. It decides how long they take, and nothing else.
pub trait Way {
    // The curves that it has a table for.
    ghost has_table: { Curve → Bool };

    // A table by which the responses are those of the curve. Where there is none, steps from point to point serve.
    fn table_for(curve: Curve) -> Option<[u32; 501]>
        ensures has { is_some result ≡ has_table curve }
        ensures offered { Offered curve result };
}

// By steps for every curve.
#[derive(Clone, Copy)]
pub struct BySteps;

// By table for the stock containment curve (paper 02, No. 4), which takes longer.
#[derive(Clone, Copy)]
pub struct ByTable;

impl Way for BySteps {
    ghost has_table = { λ _. false };

    fn table_for(_curve: Curve) -> Option<[u32; 501]> {
        None
    }
}

impl Way for ByTable {
    ghost has_table = { is_containment };

    fn table_for(curve: Curve) -> Option<[u32; 501]> {
        if is_containment(curve) {
            Some(stored_table())
        } else {
            None
        }
    }
}

// The energy of a period, from the sum of a direction's responses, at most 1,000,000,000 W to a reading, and the count of readings.
fn period_kwh(sum: u64, count: usize) -> u32
    requires { is_period_count count ≡ true × sum ≤ 1000000000 * count }
    ensures { result ≡ rounded_up sum (divisor count) }
{
    let divisor = 2000 * count as u64;
    sum.div_ceil(divisor) as u32
}

// What refusals 1 and 5 let through.
#[derive(Clone, Copy)]
pub(crate) struct Accepted {
    pub(crate) quantities: Directions<Quantities>,
    pub(crate) curves: Curves,
    ghost let_through: { BeforeReadings quantities.low quantities.high curves },
}

impl Accepted {
    // Refusal 6 or both bounds.
    fn from_readings<W: Way>(self, readings: &[u16]) -> Result<Directions<u32>, EnergyRefusal>
        ensures { answer_of result ≡ from_readings self.quantities.low self.quantities.high self.curves readings.now }
    {
        let count = readings.len();
        if !is_period_count(count) {
            return Err(EnergyRefusal::Readings);
        }
        // a reading is 47,000 to 53,000: within 3,000 of 50,000
        let most = largest_deviations(readings);
        if (3000 < most.low) | (3000 < most.high) {
            return Err(EnergyRefusal::Readings);
        }
        let sums = sum_responses::<W>(self, most, readings);
        Ok(Directions {
            low: period_kwh(sums.low, count),
            high: period_kwh(sums.high, count),
        })
    }
}

// Both directions' bounds of a period.
pub fn period_energy<W: Way>(
    quantities: Directions<Quantities>,
    curves: Curves,
    readings: &[u16],
) -> Result<Directions<u32>, EnergyRefusal>
    ensures { answer_of result ≡ period_energy quantities.low quantities.high curves readings.now }
{
    let quantity = terms::above_1000_mw(quantities.low) | terms::above_1000_mw(quantities.high);
    let curve = !curves_hold(curves);
    if quantity {
        return Err(EnergyRefusal::Quantity);
    }
    if curve {
        return Err(EnergyRefusal::Curve);
    }
    let accepted = Accepted { quantities, curves };
    accepted.from_readings::<W>(readings)
}
