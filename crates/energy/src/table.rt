// Period energy in three passes: the largest deviations, a table of each direction's responses by deviation, and the sums.
ghost use Rattle.std.specs.Prelude.{◌≡◌, ℕ, ◌+◌, ◌-◌, ◌*◌, ◌^◌, min, length};
ghost use Rattle.energy.specs.Curve.{points_of, between, share_at, response_to, response};
ghost use Rattle.energy.specs.Containment.{response_by_table};
ghost use Rattle.energy.specs.Period.{responses};
ghost use Rattle.energy.specs.Table.{largest_deviations, Added, wholes, FillFits, SegmentFits, ServiceFits, TableFits, DirectionFits, table_sums, Covered, response_sums, WithinRange};

use crate::containment::response_by_entry;
use crate::curve::{Curve, Curves, Point};
use crate::period::{Accepted, Way};
use common::Directions;
use terms::Quantities;

// ---- the largest deviations

// The largest deviation of each direction, by the least and the largest of 50,000 and the readings.
pub(crate) fn largest_deviations(readings: &[u16]) -> Directions<u16>
    ensures { result ≡ largest_deviations readings.now }
{
    let mut least: u16 = 50000;
    let mut most: u16 = 50000;
    for reading in readings {
        least = least.min(*reading);
        most = most.max(*reading);
    }
    Directions {
        low: 50000 - least,
        high: most - 50000,
    }
}

// ---- a table of responses: its entries are those to the deviations from 0 on

// Adds to the entries from one up to another, as far as the table goes, the whole ones of some parts, which rise by a step from entry
// to entry.
fn fill(first: u64, step: u64, from: usize, to: usize, table: &mut [u32])
    requires { FillFits first step from to table.old }
    ensures { Added from (min (length table.old) to) (λ (d : ℕ). wholes first step (d - from)) table.old table.new }
{
    let end = table.len();
    let mut parts = first;
    for entry in &mut table[end.min(from)..end.min(to)] {
        *entry += (parts / 4294967296) as u32;
        parts += step;
    }
}

// A response in parts, all but one of a whole added, so that what is cut off rounds up.
fn parts_of(response: u32) -> u64
    ensures { result ≡ response * 2 ^ 32 + (2 ^ 32 - 1) }
{
    u64::from(response) * 4294967296 + 4294967295
}

// Adds a factor times the share between two points of a curve. The one division is that of the step:
// the parts that it cuts off are too few, over 3,000 deviations, to change what is added.
fn fill_segment(factor: u32, p: Point, q: Point, table: &mut [u32])
    requires { SegmentFits factor p q table.old }
    ensures { Added p.deviation (min (length table.old) q.deviation) (λ (d : ℕ). response_to factor (between p q d)) table.old table.new }
{
    let width = u64::from(q.deviation - p.deviation);
    let rise = u64::from(factor) * u64::from(q.share - p.share);
    fill(
        parts_of(factor * u32::from(p.share)),
        rise * 4294967296 / width,
        usize::from(p.deviation),
        usize::from(q.deviation),
        table,
    );
}

// Adds a factor times a curve's share, by steps from point to point.
pub(crate) fn fill_by_steps(factor: u32, curve: Curve, table: &mut [u32])
    requires { ServiceFits factor curve table.old }
    ensures { Added 0 (length table.old) (λ (d : ℕ). response_to factor (share_at (points_of curve) d)) table.old table.new }
{
    let points = curve.points();
    let others = &points[1..];
    let mut last = points[0];
    for next in others {
        fill_segment(factor, last, *next, table);
        last = *next;
    }
    let end = table.len();
    fill(
        parts_of(factor * u32::from(last.share)),
        0,
        usize::from(last.deviation),
        end,
        table,
    );
}

// Adds the responses by a table: entry 500 serves for larger deviations.
fn fill_by_table(mw: u32, entries: &[u32; 501], table: &mut [u32])
    requires { TableFits mw entries.now table.old }
    ensures { Added 0 (length table.old) (response_by_table entries.now mw) table.old table.new }
{
    let factor = 1000 * mw;
    let end = table.len();
    for (d, entry) in table[..end.min(501)].iter_mut().enumerate() {
        *entry += response_by_entry(factor, entries[d]) as u32;
    }
    let last = response_by_entry(factor, entries[500]) as u32;
    fill(parts_of(last), 0, 501, end, table);
}

// Adds the responses of a service, in watts.
fn fill_service<W: Way>(mw: u32, curve: Curve, table: &mut [u32])
    requires { ServiceFits (1000 * mw) curve table.old }
    ensures { Added 0 (length table.old) (response mw curve) table.old table.new }
{
    if mw == 0 {
        return;
    }
    match W::table_for(curve) {
        Some(entries) => fill_by_table(mw, &entries, table),
        None => fill_by_steps(1000 * mw, curve, table),
    }
}

// Adds the responses of a direction's services to each deviation up to most.
fn fill_direction<W: Way>(q: Quantities, curves: Curves, most: u16, table: &mut [u32])
    requires { DirectionFits q curves most table.old }
    ensures { Added 0 (most + 1) (responses q curves) table.old table.new }
{
    let entries = &mut table[..=usize::from(most)];
    fill_service::<W>(q.dc, curves.dc, entries);
    fill_service::<W>(q.dm, curves.dm, entries);
    fill_service::<W>(q.dr, curves.dr, entries);
}

// ---- the sums

// What the tables have for the readings, from the last reading back (paper 02, No. 3). One deviation is tested for and the other is
// what is left: two tests of a u16 become 16-bit code, which took three times as long.
fn sum_table(lows: &[u32], highs: &[u32], readings: &[u16]) -> Directions<u64>
    requires { Covered lows.now highs.now readings.now }
    ensures { result ≡ table_sums lows.now highs.now readings.now }
{
    let mut low: u64 = 0;
    let mut high: u64 = 0;
    // `low` and `high` are the sums from place i on, `sums_from i` (specs/Table): the invariant `Running` (proofs/Backward)
    for i in (0..readings.len()).rev() {
        let reading = u32::from(readings[i]);
        let above = reading.saturating_sub(50000);
        let below = 50000 + above - reading;
        low += u64::from(lows[below as usize]);
        high += u64::from(highs[above as usize]);
    }
    Directions { low, high }
}

// The sums of both directions' responses, by a table of each up to its largest deviation.
pub(crate) fn sum_responses<W: Way>(
    accepted: Accepted,
    most: Directions<u16>,
    readings: &[u16],
) -> Directions<u64>
    requires { WithinRange most readings.now }
    ensures { result ≡ response_sums accepted.quantities.low accepted.quantities.high accepted.curves readings.now }
{
    let quantities = accepted.quantities;
    let curves = accepted.curves;
    let mut lows = [0u32; 3001];
    let mut highs = [0u32; 3001];
    fill_direction::<W>(quantities.low, curves, most.low, &mut lows);
    fill_direction::<W>(quantities.high, curves, most.high, &mut highs);
    sum_table(&lows, &highs, readings)
}
