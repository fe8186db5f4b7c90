// The rest of a network's record after its first numbers: the links, and the record's end.
#![tactic(auto)]

ghost use Rattle.std.specs.Prelude.{◌≡◌, [], ◌≤◌, length, drop};
ghost use Rattle.limits.specs.Limits.{most_links};
ghost use Rattle.network.specs.Record.{read_rest};
ghost use Rattle.network.specs.Held.{with_links, read_answer};

use flows::Link;
use network::Network;
use refusals::Refusal;

// A network whose links are all zeros: what reading the links begins with.
fn without_links(places: u32, origin: u32, destination: u32, count: u32) -> Network
    ensures { result ≡ with_links places origin destination count [] }
{
    // Spelled out, as in `table_reader`: a Link has no Default, since no link has one place at both ends.
    let none = Link {
        start: 0,
        end: 0,
        capacity: 0,
        transit: 0,
    };
    Network {
        places,
        origin,
        destination,
        count,
        links: [none; 256],
    }
}

// The links from a position on, and the record's end after them. `as`: usize has no From<u32>.
pub fn read_rest(
    octets: &[u8],
    first: usize,
    places: u32,
    origin: u32,
    destination: u32,
    count: u32,
) -> Result<Network, Refusal>
    requires { (1 ≤ places) × (count ≤ most_links) × (first ≤ length octets.now) }
    ensures { result ≡ read_answer (read_rest places origin destination count (drop first octets.now)) }
{
    let mut network = without_links(places, origin, destination, count);
    let mut at = first;
    for i in 0..count as usize {
        let read = link_reader::read_link(octets, at, places)?;
        network.links[i] = read.value;
        at = read.next;
    }
    if at < octets.len() {
        return Err(Refusal::NetworkRemains);
    }
    Ok(network)
}
