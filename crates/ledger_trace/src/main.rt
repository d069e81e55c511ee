// Makes the calls that standard input names, one to a line, and prints each answer: a trace to compare with another program.
#![tactic(auto)]

ghost use Rattle.std.specs.Prelude.{◌≡◌, length};

mod call;
mod readings;
mod record;
mod state;

use state::{State, Stop};
use std::io;

// Carries out the lines up to the first malformed one, whose number is printed. One without a line feed is malformed too.
fn carry_out_lines(rt: &impl Print, input: &[u8]) -> io::Result<()> {
    let mut state = State::new();
    for (i, line) in input.split_inclusive(|b| *b == b'\n').enumerate() {
        let done = match line.strip_suffix(b"\n") {
            Some(line) => state.carry_out(rt, line),
            None => Err(Stop::Malformed),
        };
        match done {
            Ok(()) => (),
            Err(Stop::Malformed) => return println!(rt; "malformed {}", i + 1),
            Err(Stop::Io(error)) => return Err(error),
        }
    }
    Ok(())
}

// Room for the most bytes and one more; by its contract the check of `main` computes no list of that length.
fn room() -> [u8; 1_000_001]
    ensures { 1000001 ≡ length result }
{
    [0; 1_000_001]
}

fn main(rt: HostRuntime) -> io::Result<()> {
    let mut input = room();
    let n = streams::read_full(&mut rt.stdin(), &mut input)?;
    if 1_000_000 < n {
        return println!(rt; "malformed 0");
    }
    carry_out_lines(&rt, &input[..n])
}
