// Reading until a buffer is full or the input ends.
#![tactic(auto)]

ghost use Rattle.std.specs.Prelude.{◌<◌, ◌≤◌, length, take, IfOk};
ghost use Rattle.std.specs.Io.KnownBytes.{Consumes, IsAtEnd};

use std::io;
use std::io::Read;

// How many bytes were read, from the buffer's start on. Fewer than it has come only where the input is at its end.
pub fn read_full<R: Read>(input: &mut R, buffer: &mut [u8]) -> io::Result<usize>
    ensures within { IfOk result (λ n. n ≤ length buffer.new) }
    ensures bytes { IfOk result (λ n. Consumes (R.remaining input.old) (R.remaining input.new) (take n buffer.new)) }
    ensures short { IfOk result (λ n. n < length buffer.new → IsAtEnd (R.remaining input.new)) }
{
    let mut count: usize = 0;
    while count < buffer.len() {
        let n = input.read(&mut buffer[count..])?;
        if n == 0 {
            return Ok(count);
        }
        count += n;
    }
    Ok(count)
}
