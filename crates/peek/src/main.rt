// Reads one bundle from standard input and writes one line for its control frame.
#![tactic(auto)]

ghost use Rattle.std.specs.Prelude.{◌≡◌, ◌<◌, ◌≤◌, length, take, IfOk};
ghost use Rattle.std.specs.Io.KnownBytes.{Consumes, IsAtEnd};

use std::io;
use std::io::{Read, Write};

fn main(rt: HostRuntime) -> io::Result<()> {
    // One byte more than the longest bundle, so that a longer input is known as such.
    // Its memory is fixed, so that no run can be out of it.
    let mut input = [0u8; 65537];
    let count = read_full(&mut rt.stdin(), &mut input)?;
    let mut text = [0u8; 96];
    let length = line::fill(&input[..count], &mut text);
    rt.stdout().write_all(&text[..length])
}

// Fills a buffer from its start until it is full or the input ends, and answers how many bytes came. Std's `read_exact` refuses a shorter input,
// and its `read_to_end` needs a heap.
fn read_full<R: Read>(from: &mut R, into: &mut [u8]) -> io::Result<usize>
    ensures held { IfOk result (λ count. count ≤ length into.new) }
    ensures bytes { IfOk result (λ count. Consumes (R.remaining from.old) (R.remaining from.new) (take count into.new)) }
    ensures whole { IfOk result (λ count. count < length into.new → IsAtEnd (R.remaining from.new)) }
{
    let mut done = 0;
    while done < into.len() {
        let count = from.read(&mut into[done..])?;
        if count == 0 {
            break;
        }
        done += count;
    }
    Ok(done)
}
