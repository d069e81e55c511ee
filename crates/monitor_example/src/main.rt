// Prints the low and the high table of document 000 in the report's columns: paper 01's reported energies for the low one,
// 0 in each period for the high one.
#![tactic(auto)]

use common::Refusal;
use monitor::{MonitorRefusal, Row};
use std::io;
use terms::Quantities;

// The table; of a refusal its number in nine columns.
fn show(rt: &impl Print, answer: Result<[Row; 8], MonitorRefusal>) -> io::Result<()> {
    match answer {
        Ok(rows) => rt.write_all(&report::table_of(rows)),
        Err(refusal) => println!(rt; "{:>9}", refusal.number()),
    }
}

fn main(rt: HostRuntime) -> io::Result<()> {
    let low = monitor::monitor(
        Quantities {
            dc: 0,
            dm: 0,
            dr: 100,
        },
        [15000, 12000, 20000, 40000, 30000, 4000, 5000, 1000],
        [100000, 85000, 72999, 53000, 20000, 0, 6000, 21000],
    );
    show(&rt, low)?;
    let high = monitor::monitor(
        Quantities {
            dc: 40,
            dm: 0,
            dr: 0,
        },
        [0, 1000, 8000, 2000, 0, 0, 0, 0],
        [0; 8],
    );
    show(&rt, high)
}
