// Reads an input and prints the text that a function makes of it, as a listing or a campaign sheet. No contract can say what standard input
// gives or standard output takes. The texts are listing::list's and sheet_text::sheet's, by their equations; what is proved here is only
// that octets read stay within their buffer and that the part handed to the output lies in the text's. That it is the whole input and the
// whole text, the stored runs of `list`, `sheet` and `listings` and tests from outside show.
#![tactic(auto)]

ghost use Rattle.std.specs.Prelude.{◌≡◌, ◌≤◌, length, take};

use std::fmt::Display;
use std::io;
use std::io::{Eprint, Error, Read, Write};
use texts::{Short, TEXT_MOST};

// What reading answers: by what it failed, if it did, and how many octets now stand at the start of the buffer. No Result: `read` is public,
// and promises a count where it fails, too, since octets that were read before stand there.
#[derive(Clone, Copy)]
pub struct Got {
    pub failed: Option<Error>,
    pub count: usize,
}

// Reads the input until it ends, a read fails or the buffer is full. A loop of its own: one read may give fewer octets than there are, and
// Read::read_exact fails where the input ends first.
pub fn read<R: Read>(reader: &mut R, buffer: &mut [u8]) -> Got
    ensures within { result.count ≤ length buffer.new }
    ensures front { result.count ≡ length (take result.count buffer.new) }
{
    let mut done = 0;
    // A while: `done` moves by what was read, not by one.
    while done < buffer.len() {
        match reader.read(&mut buffer[done..]) {
            Ok(0) => break,
            Ok(count) => done += count,
            Err(error) => {
                return Got {
                    failed: Some(error),
                    count: done,
                };
            }
        }
    }
    Got {
        failed: None,
        count: done,
    }
}

// Prints the text that `put` makes of an input, and fails where not all of it was taken.
pub fn print<W: Write, F: FnOnce(&[u8], &mut [u8]) -> Result<usize, Short>>(
    out: &mut W,
    input: &[u8],
    put: F,
) -> io::Result<()>
    requires { F.IsAlwaysCallable put }
{
    let mut text = [0u8; TEXT_MOST];
    match put(input, &mut text) {
        Ok(size) if size <= TEXT_MOST => out.write_all(&text[..size]),
        _ => Err(Error::other("no room for the text")),
    }
}

// An error's words, without the number that follows them.
fn words(text: &str) -> &str {
    match text.split_once(" (os error ") {
        Some((words, _)) => words,
        None => text,
    }
}

// Tells on standard error what failed, and why; where that fails too, nothing is told.
pub fn tell_failure<R: Eprint + Alloc, D: Display + Drop>(rt: &R, what: D, error: Error) {
    let _ = match format!(in rt.alloc(); "{error}") {
        Ok(text) => {
            let why = words(text.as_str());
            eprintln!(rt; "{what}: {why}")
        }
        Err(_) => eprintln!(rt; "{what}: {error}"),
    };
}

// As `tell_failure`, with the program named before what failed.
pub fn tell<R: Eprint + Alloc>(rt: &R, program: &str, what: &str, error: Error) {
    tell_failure(rt, format_args!("{program}: {what}"), error);
}

// A text program: prints the text that `put` makes of the input. Reads at most 65,536 octets, as many as the buffer has. An input that cannot
// be read and output that is lost are told on standard error.
pub fn run<
    R: Eprint + Alloc,
    I: Read,
    O: Write,
    F: FnOnce(&[u8], &mut [u8]) -> Result<usize, Short>,
>(rt: &R, program: &str, input: &mut I, out: &mut O, put: F)
    requires { F.IsAlwaysCallable put }
{
    let mut octets = [0u8; 65536];
    let got = read(input, &mut octets);
    if let Some(error) = got.failed {
        tell(rt, program, "standard input", error);
        return;
    }
    let size = got.count;
    if let Err(error) = print(out, &octets[..size], put) {
        tell(rt, program, "standard output", error);
    }
}
