// Lines on standard output: a label, then numbers or octets, each with a space before it. A line of document 01 begins with 01, any
// other line with two dots.
use refusals::Refusal;
use std::io;

pub fn refusal(rt: &impl Print, refusal: Refusal) -> io::Result<()> {
    print!(rt; ": refusal {}", refusal.number())
}

// Each octet as two hexadecimal digits.
pub fn octets(rt: &impl Print, s: &[u8]) -> io::Result<()> {
    for octet in s {
        print!(rt; " {octet:02x}")?;
    }
    Ok(())
}

// A line's end with one of two words: whether something holds.
pub fn end(rt: &impl Print, holds: bool, so: &str, not: &str) -> io::Result<()> {
    println!(rt; ", {}", if holds { so } else { not })
}
