// A network read from its record.
#![tactic(auto)]

ghost use Rattle.std.specs.Prelude.{◌≡◌};
ghost use Rattle.network.specs.Record.{read_network};
ghost use Rattle.network.specs.Held.{read_answer};

use limits::{FEWEST_LINKS, FEWEST_PLACES, MOST_LINKS, MOST_PLACES};
use network::Network;
use refusals::Refusal;

// Reads a network's record, number by number in record order. Of one number a fourth octet that asks for another is told first, then a
// record that ends, then a form that is not the shortest, then one outside the limits. The destination is compared with the origin as
// soon as it is read, each link's end with its start, and octets that remain come last.
pub fn read(octets: &[u8]) -> Result<Network, Refusal>
    ensures { result ≡ read_answer (read_network octets.now) }
{
    let places = link_reader::number(octets, 0, FEWEST_PLACES, MOST_PLACES)?;
    let origin = link_reader::number(octets, places.next, 0, places.value - 1)?;
    let destination = link_reader::number(octets, origin.next, 0, places.value - 1)?;
    if destination.value == origin.value {
        return Err(Refusal::SameEnds);
    }
    let links = link_reader::number(octets, destination.next, FEWEST_LINKS, MOST_LINKS)?;
    rest_reader::read_rest(
        octets,
        links.next,
        places.value,
        origin.value,
        destination.value,
        links.value,
    )
}
