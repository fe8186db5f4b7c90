// A network with its links at each place, as chains.
#![tactic(auto)]

ghost use Rattle.std.specs.Prelude.{◌≡◌, ◌≤◌, length, map, take};
ghost use Rattle.limits.specs.Limits.{most_links};
ghost use Rattle.flows.specs.Network.{WellFormed};
ghost use Rattle.network.specs.Held.{model_of};
ghost use Rattle.residual.specs.Relax.{tail_of};
ghost use Rattle.residual.specs.Index.{Indexed};
ghost use Rattle.adjacency.specs.Chains.{Chainable, ByTail};

use flows::Link;
use network::Network;
use residual::{Chains, Direction, Index};

// A network within the limits, and the index of its links.
#[derive(Clone, Copy)]
pub struct Graph {
    pub network: Network,
    pub index: Index,
    pub ghost formed: { WellFormed (model_of network) },
    pub ghost indexed: { Indexed (model_of network) index },
}

impl Graph {
    // A network with its index.
    pub fn new(network: &Network) -> Graph
        requires { WellFormed (model_of network.now) }
        ensures { result.network ≡ network.now }
    {
        let links = network.links();
        let out = chain_links(links, Direction::Along);
        let into = chain_links(links, Direction::Against);
        Graph {
            network: *network,
            index: Index { out, into },
        }
    }
}

// The places that the links' arcs in a direction leave, in link order; zeros are behind them.
fn tails(links: &[Link], direction: Direction) -> [u32; 256]
    requires { length links.now ≤ most_links }
    ensures { take (length links.now) result ≡ map (tail_of direction) links.now }
{
    let mut places = [0; 256];
    for (e, link) in links.iter().enumerate() {
        places[e] = direction.tail(link);
    }
    places
}

// For each place the chain of the links whose arcs in a direction leave it.
fn chain_links(links: &[Link], direction: Direction) -> Chains
    requires { Chainable direction links.now }
    ensures { ByTail direction links.now result }
{
    let mut first = [0; 64];
    let mut next = [0; 256];
    buckets::distribute(
        &tails(links, direction)[..links.len()],
        &mut first,
        &mut next,
    );
    Chains { first, next }
}
