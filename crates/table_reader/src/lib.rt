// A network's struct, read from the table of numbers that stands for the network in the C interface.
#![tactic(auto)]

ghost use Rattle.std.specs.Prelude.{◌≡◌, ◌<◌, ℕ, get_or, length};
ghost use Rattle.limits.specs.Limits.{most_links};
ghost use Rattle.flows.specs.Network.{no_link};
ghost use Rattle.network.specs.Record.{network_of};
ghost use Rattle.network.specs.Held.{model_of};
ghost use Rattle.tables.specs.Table.{table_size};
ghost use Rattle.table_reader.specs.Links.{link_in};

use flows::Link;
use network::Network;

// The links of a table, by their positions in it. An array is filled before links are stored in it; a link has no Default, since one of zeros
// ends where it starts.
fn links_of(numbers: &[u32; 1028]) -> [Link; 256]
    ensures { (e : ℕ) → e < most_links → get_or result e no_link ≡ link_in numbers.now e }
{
    let none = Link {
        start: 0,
        end: 0,
        capacity: 0,
        transit: 0,
    };
    let mut links = [none; 256];
    for e in 0..256 {
        let at = 4 * e + 4;
        links[e] = Link {
            start: numbers[at],
            end: numbers[at + 1],
            capacity: numbers[at + 2],
            transit: numbers[at + 3],
        };
    }
    links
}

// A struct that holds the network of a table.
pub fn network_of(numbers: &[u32; 1028]) -> Network
    ensures { model_of result ≡ network_of numbers.now }
{
    Network {
        places: numbers[0],
        origin: numbers[1],
        destination: numbers[2],
        count: numbers[3],
        links: links_of(numbers),
    }
}

// As `network_of`, of a table that is lent as a slice.
pub fn network_of_slice(numbers: &[u32]) -> Network
    requires { length numbers.now ≡ table_size }
    ensures { model_of result ≡ network_of numbers.now }
{
    network_of(numbers.as_array().unwrap())
}
