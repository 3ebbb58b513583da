// Standard input, read as far as there is room.

ghost use Rattle.std.specs.Prelude.{◌≤◌, length, IfOk};

use std::io;
use std::io::{Read, Stdin};

// Reads until the buffer is full or the input ends, in as many reads as it takes, and gives back how many bytes now stand at the
// start of the buffer. A read that fails ends it with that error.
pub fn read_full(mut from: Stdin, buffer: &mut [u8]) -> io::Result<usize>
    ensures { IfOk result (λ n. n ≤ length buffer.new) }
{
    let mut done = 0;
    while done < buffer.len() {
        let n = from.read(&mut buffer[done..])?;
        if n == 0 {
            break;
        }
        done += n;
    }
    Ok(done)
}
