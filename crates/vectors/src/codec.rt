// Numbers and networks read and written: each case run, and its answer shown.
ghost use Rattle.std.specs.Prelude.{◌^◌, ◌<◌, ◌≤◌, length};
ghost use Rattle.numbers.specs.Leb128.{groups};

use crate::cases::Case;
use crate::{held, show};
use flows::Link;
use network::Network;
use std::io;

// Writes a number's shortest form to the buffer's front, and answers how many octets it has.
fn write_number(buffer: &mut [u8], n: u32) -> usize
    requires { (n < 128 ^ groups) × (groups ≤ length buffer.old) }
{
    number_writer::write_at(buffer, 0, n)
}

// A number's shortest form, and what reading it answers: the number, and how many octets it took. `as` fits: below 2^28.
pub fn show_number(rt: &impl Print, case: Case<'_>) -> io::Result<()> {
    let n = (case.number(1) % 268435456) as u32;
    let mut buffer = [0; 4];
    let length = write_number(&mut buffer, n);
    rt.write_all(case.label)?;
    print!(rt; " {n} is")?;
    show::octets(rt, held::front(&buffer, length))?;
    match numbers::read_number(&buffer, 0) {
        Ok(read) => println!(rt; ", read back {} {}", read.value, read.next),
        Err(_) => println!(rt; ", not read"),
    }
}

// Written out: a link has no Default, since one of zeros ends where it starts.
const NO_LINK: Link = Link {
    start: 0,
    end: 0,
    capacity: 0,
    transit: 0,
};

// The network of a record; one of zeros where it is refused.
fn network_of(record: &[u8]) -> Network {
    network_reader::read(record).unwrap_or(Network {
        places: 0,
        origin: 0,
        destination: 0,
        count: 0,
        links: [NO_LINK; 256],
    })
}

// What reading a record answers: the refusal, or 0, and the network's first numbers.
pub fn show_read(rt: &impl Print, case: Case<'_>, record: &[u8]) -> io::Result<()> {
    let refusal = match network_reader::read(record) {
        Ok(_) => 0,
        Err(refusal) => refusal.number(),
    };
    let net = network_of(record);
    rt.write_all(case.label)?;
    println!(rt;
        ": refusal {refusal}, network {} {} {} {}",
        net.places, net.origin, net.destination, net.count
    )
}

// What writing a network answers, and the buffer after it.
fn show_write(rt: &impl Print, case: Case<'_>, net: Network, buffer: &mut [u8]) -> io::Result<()> {
    let written = network_writer::write(net, buffer);
    rt.write_all(case.label)?;
    match written {
        Ok(length) => print!(rt; ": length {length}")?,
        Err(refusal) => show::refusal(rt, refusal)?,
    }
    print!(rt; ", buffer")?;
    show::octets(rt, buffer)?;
    println!(rt;)
}

// The network with one of its numbers changed: 1 the first link's transit, 2 the destination, 3 the first link's end, another none.
// `which` is the number of the case's line.
fn changed(net: Network, which: u64, number: u32) -> Network {
    let mut other = net;
    match which {
        1 => other.links[0].transit = number,
        2 => other.destination = number,
        3 => other.links[0].end = number,
        _ => {}
    }
    other
}

// Writes a record's network, with a number changed, into a buffer of up to 26 octets: the numbers given are the buffer's size, which
// number is changed, and what it is changed to. `as`: a number below 65,536 fits u32, and usize has no From<u64>.
pub fn show_changed(rt: &impl Print, case: Case<'_>, record: &[u8]) -> io::Result<()> {
    let other = changed(
        network_of(record),
        case.number(2),
        (case.number(3) % 65536) as u32,
    );
    let mut buffer = [255; 26];
    let lent = held::lent(&mut buffer, case.number(1) as usize);
    show_write(rt, case, other, lent)
}
