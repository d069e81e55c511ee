// A period of test readings for the seed on standard input, one byte past 11 being enough to see that its line is too long.
#![tactic(auto)]

use std::io;

fn main(rt: HostRuntime) -> io::Result<()> {
    let mut input = [0u8; 12];
    let n = streams::read_full(&mut rt.stdin(), &mut input)?;
    let mut page = [0u8; 36000];
    let count = test_day::print_period(&input[..n], &mut page);
    rt.write_all(&page[..count])
}
