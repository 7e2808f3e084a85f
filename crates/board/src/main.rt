// The text of the script on standard input, on standard output.
#![tactic(auto)]

ghost use Rattle.std.specs.Io.{ReadsAtMost};

use std::io;
use std::io::Read;

// A script, and one byte more, by which a longer one is known.
const MOST: usize = script::SCRIPT_BYTES + 1;

fn main(rt: HostRuntime) -> io::Result<()> {
    let mut input = [0u8; MOST];
    let n = read_full(&mut rt.reader(), &mut input)?;
    let mut text = script::blank();
    if let Ok(length) = script::print(&input[..n], &mut text) {
        rt.write_all(&text[..length])?;
    }
    Ok(())
}

// Reads until buffer is full or the input ends, and answers how many bytes were put at its start.
fn read_full(input: &mut impl Read, buffer: &mut [u8]) -> io::Result<usize>
    ensures { ReadsAtMost result buffer.new }
{
    let mut done = 0;
    // By hand: the library's `read_to_end` would put the input on the heap, and `.ci/stack` says how much memory the program needs.
    while done < buffer.len() {
        let n = input.read(&mut buffer[done..])?;
        if n == 0 {
            break;
        }
        done += n;
    }
    Ok(done)
}
