// Reading all of an input, as far as a lent buffer takes it: the programs need no heap.
#![tactic(auto)]

ghost use Rattle.std.specs.Prelude.{◌≤◌, length, IfOk};

use std::io;
use std::io::Read;

// Reads until the buffer is full or the input has ended: so many bytes stand at its start.
// Kept: each program calls it by itself: no clause of the library says which bytes an input has, so a function that hands them on to a closure could promise nothing of them.
// Kept: a loop of its own: of the library's methods `read_exact` fails where the input ends, and `read_to_end` needs a Vec (no heap).
pub fn read_full<R: Read>(input: &mut R, buffer: &mut [u8]) -> io::Result<usize>
    ensures { IfOk result (λ n. n ≤ length buffer.new) }
{
    let mut done = 0;
    while done < buffer.len() {
        let n = input.read(&mut buffer[done..])?;
        if n == 0 {
            break;
        }
        done += n;
    }
    Ok(done)
}
