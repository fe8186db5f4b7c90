// The table of numbers that stands for a network in the C interface, written from the network's struct.
#![tactic(auto)]

ghost use Rattle.std.specs.Prelude.{◌≡◌, replicate};
ghost use Rattle.limits.specs.Limits.{most_links};
ghost use Rattle.numbers.specs.Leb128.{over};
ghost use Rattle.table_writer.specs.Front.{front};

use network::Network;

// The table of a struct, its links still to come.
fn table_begun(network: Network) -> [u32; 1028]
    ensures { result ≡ over (front network 0) (replicate 1028 0) }
{
    let mut numbers = [0; 1028];
    numbers[0] = network.places;
    numbers[1] = network.origin;
    numbers[2] = network.destination;
    numbers[3] = network.count;
    numbers
}

// The table of a struct.
pub fn table_of(network: Network) -> [u32; 1028]
    ensures { result ≡ front network most_links }
{
    let mut numbers = table_begun(network);
    for (e, link) in network.links.iter().enumerate() {
        let at = 4 * e + 4;
        numbers[at] = link.start;
        numbers[at + 1] = link.end;
        numbers[at + 2] = link.capacity;
        numbers[at + 3] = link.transit;
    }
    numbers
}
