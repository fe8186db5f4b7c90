// How a route is found: the path of a search tree, or none.

ghost use Rattle.std.specs.Prelude.{◌≡◌, ◌-◌, ◌≤◌, length, take, drop};
ghost use Rattle.network.specs.Held.{model_of};
ghost use Rattle.routes.specs.Route.{IsTrail, Traceable, FoundRoute, without_transits};

use super::Route;
use adjacency::Graph;
use network::Network;
use residual::{Residual, Tree};

// A path filled in from the destination back: its links stand from `first` on, in an array with a count, since nothing allocates.
#[derive(Clone, Copy)]
struct Trail {
    links: [u8; 63],
    first: usize,
}

// The path of a search tree, from the destination back to the origin. `as`: usize has no From<u32>, and as u8 a link's number fits, below 256.
fn trace(network: &Network, tree: &Tree) -> Trail
    requires { Traceable (model_of network.now) tree.now }
    ensures { IsTrail (model_of network.now) result }
{
    let origin = network.origin as usize;
    let mut links = [0; 63];
    let mut first: usize = 63;
    let mut place = network.destination as usize;
    while place != origin {
        let e = (tree.arc[place] / 2) as usize;
        first -= 1;
        links[first] = e as u8;
        place = network.links[e].start as usize;
    }
    Trail { links, first }
}

// The same path with its links from the array's first place on. `as u32` fits: at most 63.
fn aligned(trail: Trail) -> Route
    requires { (length trail.links ≡ 63) × (trail.first ≤ 63) }
    ensures { (length result.links ≡ 63) × (result.count ≡ 63 - trail.first) × (take result.count result.links ≡ drop trail.first trail.links) }
{
    let count = 63 - trail.first;
    let mut links = [0; 63];
    links[..count].copy_from_slice(&trail.links[trail.first..]);
    Route {
        links,
        count: count as u32,
    }
}

// The network with every transit 0. By the links' numbers: over `iter_mut` the proof of a write to one field didn't close.
fn without_transits(network: Network) -> Network
    ensures { result ≡ without_transits network }
{
    let mut still = network;
    for e in 0..256 {
        still.links[e].transit = 0;
    }
    still
}

// The same with its index, in which transits do not matter.
fn stilled(graph: &Graph) -> Graph
    ensures { result.network ≡ without_transits graph.now.network }
{
    Graph {
        network: without_transits(graph.network),
        index: graph.index,
    }
}

// A route over links with capacity, if there is one: a search of the residual network of no flow, under no potentials. How long a route
// takes does not matter here, and with every transit 0 the search settles each place as soon as it is reached.
pub fn find(graph: &Graph) -> Option<Route>
    ensures { FoundRoute (model_of graph.now.network) result }
{
    let still = stilled(graph);
    let tree = search::search(Residual {
        network: &still.network,
        index: &still.index,
        flow: &[0; 256],
        potential: &[0; 64],
    });
    if tree.found {
        Some(aligned(trace(&still.network, &tree)))
    } else {
        None
    }
}
