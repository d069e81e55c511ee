// The record of the ledger: a number put in it, and the line that shows it.
use ledger_record::{Record, next_start};
use std::io;

// Sets the number of a key to a value; none where the record has no number of that key, or not of that value. Places and traders are
// counted from 1.
pub fn put(record: &mut Record, key: usize, value: i64) -> Option<()> {
    let small = u32::try_from(value).ok();
    match key {
        0 => record.size = small?,
        1 => record.first = small?,
        2 => record.state = small?,
        3 => record.closed = small?,
        6 => record.totals.delivered = small?,
        7 => record.totals.taken = small?,
        11..=18 => record.low.bounds[key - 11] = small?,
        21..=28 => record.low.starts[key - 21] = value,
        31..=38 => record.low.scheds[key - 31] = u64::try_from(value).ok()?,
        41..=48 => record.high.bounds[key - 41] = small?,
        51..=58 => record.high.starts[key - 51] = value,
        61..=68 => record.high.scheds[key - 61] = u64::try_from(value).ok()?,
        71..=74 => record.totals.bought[key - 71] = small?,
        81..=84 => record.totals.sold[key - 81] = small?,
        _ => return None,
    }
    Some(())
}

// Periods closed, state, both starts of the next period, what each trader bought, what each sold, delivered, taken.
pub fn print(rt: &impl Print, record: &Record) -> io::Result<()> {
    let low = next_start(record.terms.low, record.closed, &record.low);
    let high = next_start(record.terms.high, record.closed, &record.high);
    print!(rt; "record {} {} {low} {high}", record.closed, record.state)?;
    let totals = &record.totals;
    for total in totals.bought.iter().chain(&totals.sold) {
        print!(rt; " {total}")?;
    }
    println!(rt; " {} {}", totals.delivered, totals.taken)
}
