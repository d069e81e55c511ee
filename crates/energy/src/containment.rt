// Paper 02, No. 4: responses of the stock containment curve by its table, in watts.
ghost use Rattle.std.specs.Prelude.{◌≡◌, true, ◌*◌};
ghost use Rattle.common.specs.Fraction.{rounded_up};
ghost use Rattle.energy.specs.Curve.{containment_curve, response};
ghost use Rattle.energy.specs.Containment.{table_rule, response_by_table, is_containment};

use crate::containment_table::stored_table;
use crate::curve::{Curve, containment_curve};
use crate::table::fill_by_steps;

// A factor times an entry, divided by 11,100, rounded up. `div_ceil` takes longer here, since it works out the remainder as well.
pub(crate) fn response_by_entry(factor: u32, entry: u32) -> u64
    ensures { result ≡ rounded_up (factor * entry) 11100 }
{
    (u64::from(factor) * u64::from(entry) + 11099) / 11100
}

// The same for 1,000 times a quantity. A u64 has no room for 1,000 times the product of any two u32, so the product's quotient by
// 11,100 and what is left over are multiplied apart.
fn watts_by_entry(mw: u32, entry: u32) -> u64
    ensures { result ≡ rounded_up (1000 * mw * entry) 11100 }
{
    let product = u64::from(mw) * u64::from(entry);
    product / 11100 * 1000 + response_by_entry(1000, (product % 11100) as u32)
}

// The response by a table that the caller lends, once for many responses: a constant is copied where it is used. Entry 500 serves
// for larger deviations.
pub fn response_from(table: &[u32; 501], mw: u32, deviation: u16) -> u64
    ensures { result ≡ response_by_table table.now mw deviation }
{
    let place = usize::from(deviation).min(500);
    watts_by_entry(mw, table[place])
}

// What a service with the stock containment curve responds.
pub fn response_by_table(mw: u32, deviation: u16) -> u64
    ensures { result ≡ response mw containment_curve deviation }
{
    let table = stored_table();
    response_from(&table, mw, deviation)
}

// Whether a curve is the stock containment curve.
pub(crate) fn is_containment(curve: Curve) -> bool
    ensures { result ≡ is_containment curve }
{
    curve.points() == containment_curve().points()
}

// The table worked out by interpolation: 11,100 times the share at each deviation from 0 to 500 mHz.
pub fn interpolated_table() -> [u32; 501]
    ensures { table_rule result ≡ true }
{
    let mut table = [0u32; 501];
    fill_by_steps(11100, containment_curve(), &mut table);
    table
}
