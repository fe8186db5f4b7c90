// A number and a link of a network's record, read at a position.
#![tactic(auto)]

ghost use Rattle.std.specs.Prelude.{◌≡◌, ◌≤◌, length, drop};
ghost use Rattle.numbers.specs.Position.{field_answer};
ghost use Rattle.network.specs.Record.{number as readNumber, read_link};
ghost use Rattle.link_reader.specs.LinkAnswer.{link_answer};

use flows::Link;
use limits::{MOST_CAPACITY, MOST_TRANSIT};
use numbers::{Part, Refusals};
use refusals::Refusal;

// A network record's refusals of a number.
pub const REFUSALS: Refusals<Refusal> = Refusals {
    endless: Refusal::NetworkContinues,
    ended: Refusal::NetworkEnds,
    padded: Refusal::NetworkNotShortest,
    outside: Refusal::NetworkLimits,
};

// The number at a position, with a network record's refusals. The limits are two numbers, as in the definitions, and no RangeInclusive,
// which would be taken apart again.
pub fn number(octets: &[u8], at: usize, low: u32, high: u32) -> Result<Part<u32>, Refusal>
    ensures { result ≡ field_answer (length octets.now) (readNumber low high (drop at octets.now)) }
{
    field_reader::read_field(octets, at, low, high, REFUSALS)
}

// The link at a position: start, end, capacity, transit.
pub fn read_link(octets: &[u8], at: usize, places: u32) -> Result<Part<Link>, Refusal>
    requires { 1 ≤ places }
    ensures { result ≡ link_answer (length octets.now) (read_link places (drop at octets.now)) }
{
    let start = number(octets, at, 0, places - 1)?;
    let end = number(octets, start.next, 0, places - 1)?;
    if start.value == end.value {
        return Err(Refusal::LinkLoop);
    }
    let capacity = number(octets, end.next, 0, MOST_CAPACITY)?;
    let transit = number(octets, capacity.next, 0, MOST_TRANSIT)?;
    let link = Link {
        start: start.value,
        end: end.value,
        capacity: capacity.value,
        transit: transit.value,
    };
    Ok(Part {
        value: link,
        next: transit.next,
    })
}
