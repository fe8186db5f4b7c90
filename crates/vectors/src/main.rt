// Runs the examples of documents 01 and 02 and prints a line for each: the case, and what the operation answers. The cases are the lines
// of the file stdin (src/cases.rt says how they are written). The lines of a document begin with its number; beside them stand further
// cases of the same kinds.
#![tactic(auto)]

ghost use Rattle.std.specs.Prelude.{◌≤◌, length, IfOk};

use std::io;
use std::io::Read;

mod cases;
mod codec;
mod held;
mod operations;
mod show;

// Reads until the input ends or the buffer is full, and answers how many octets now stand at the start of the buffer. A loop of its own: one
// read may give fewer octets than there are, and Read::read_exact fails where the input ends first.
fn read_full<R: Read>(reader: &mut R, buffer: &mut [u8]) -> io::Result<usize>
    ensures { IfOk result (λ n. n ≤ length buffer.new) }
{
    let mut done = 0;
    // A while: it moves by what was read, not by one.
    while done < buffer.len() {
        let n = reader.read(&mut buffer[done..])?;
        if n == 0 {
            return Ok(done);
        }
        done += n;
    }
    Ok(done)
}

fn main(rt: HostRuntime) -> io::Result<()> {
    let mut text = [0u8; 65536];
    let length = read_full(&mut rt.stdin(), &mut text)?;
    cases::run_all(&rt, &text[..length])
}
