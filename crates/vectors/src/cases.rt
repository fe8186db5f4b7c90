// A case is a line of standard input: a letter that says what is run, the octets or numbers that it is given, a bar, and the label that is
// printed. Octets are two hexadecimal digits each and numbers are decimal, with a space before each.
//
//   #  a remark
//   =  the record of the network that the lines after it are about
//   n  a number written and read back: the number
//   r  reading the record
//   w  writing its network: the buffer's size up to 26, and a change (`codec::changed`)
//   m  mosts: the first horizon, the one after the last, how many numbers are lent for the cut, up to 5
//   p  plans: the first amount, the one after the last, how many octets are lent for the plan, up to 38,912
//   x  examining: the plan's record
ghost use Rattle.std.specs.Prelude.{◌<◌};

use crate::{codec, operations};
use std::io;

// The value of a hexadecimal digit. No to_digit and no parse here and below: they refuse octets that are no digits and numbers past u64, and
// what such a line prints is to stay.
fn digit(c: u8) -> u8
    ensures { result < 16 }
{
    if c < 64 {
        return c % 16;
    }
    (9 + c % 16) % 16
}

// The two parts of a line: up to its first bar, or all, and behind it.
#[derive(Clone, Copy)]
pub struct Case<'a> {
    given: &'a [u8],
    pub label: &'a [u8],
}

impl<'a> Case<'a> {
    fn of(line: &'a [u8]) -> Case<'a> {
        match line.iter().position(|c| *c == b'|') {
            Some(bar) => Case {
                given: &line[..bar],
                label: &line[bar + 1..],
            },
            None => Case {
                given: line,
                label: &[],
            },
        }
    }

    // The number that stands behind so many spaces, or 0.
    pub fn number(&self, spaces: usize) -> u64 {
        let digits = self.given.split(|c| *c == b' ').nth(spaces).unwrap_or(&[]);
        digits.iter().fold(0, |value, c| value % 1000000000000 * 10 + u64::from(c % 16))
    }

    // The octets given, put to the front of a buffer; none where they do not fit.
    pub fn octets<'b>(&self, buffer: &'b mut [u8]) -> &'b [u8] {
        let words = self.given.get(1..).unwrap_or(&[]);
        let count = words.len() / 3;
        if buffer.len() < count {
            return &[];
        }
        for (octet, word) in buffer.iter_mut().zip(words.chunks_exact(3)) {
            if let [_, high, low] = word {
                *octet = digit(*high) * 16 + digit(*low);
            }
        }
        &buffer[..count]
    }
}

// Runs a case about the network of a record.
fn run(rt: &impl Print, kind: u8, case: Case<'_>, record: &[u8]) -> io::Result<()> {
    match kind {
        b'n' => codec::show_number(rt, case),
        b'r' => codec::show_read(rt, case, record),
        b'w' => codec::show_changed(rt, case, record),
        b'm' => operations::show_mosts(rt, case, record),
        b'p' => operations::show_plans(rt, case, record),
        _ => operations::show_examined(rt, case, record),
    }
}

// Runs the first thousand lines.
pub fn run_all(rt: &impl Print, text: &[u8]) -> io::Result<()> {
    let mut network = Case::of(&[]);
    for line in text.split(|c| *c == b'\n').take(1000) {
        let case = Case::of(line);
        match line.first() {
            None | Some(b'#') => {}
            Some(b'=') => network = case,
            Some(kind) => run(rt, *kind, case, network.octets(&mut [0; 4096]))?,
        }
    }
    Ok(())
}
