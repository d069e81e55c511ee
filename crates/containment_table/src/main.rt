// Prints the table for the containment curve, worked out by interpolation: one number a line, in nine columns.
#![tactic(auto)]

use energy::containment::interpolated_table;
use std::io;

fn main(rt: HostRuntime) -> io::Result<()> {
    let table = interpolated_table();
    for entry in &table {
        rt.write_all(&columns::number_line(u64::from(*entry)))?;
    }
    Ok(())
}
