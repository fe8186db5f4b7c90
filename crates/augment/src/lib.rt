// The static flow of a state augmented along a search's tree.
#![tactic(auto)]

ghost use Rattle.std.specs.Prelude.{◌≡◌, cond, ◌-◌, ◌≤◌};
ghost use Rattle.network.specs.Held.{model_of};
ghost use Rattle.residual.specs.Residual.{along};
ghost use Rattle.states.specs.Steps.{narrowest, pushed, Pushable, Augmentable, Augmented};

use flows::Link;
use limits::MOST_CAPACITY;
use network::Network;
use residual::Tree;
use states::State;

// The end of a link at which an arc over it begins. Here and in the two functions below by whether the arc's number is even, and not by a
// `Direction`: an arc's number is what the search's tree keeps.
fn tail_of(arc: u32, link: &Link) -> u32
    ensures { result ≡ cond (along arc) link.now.start link.now.end }
{
    if arc % 2 == 0 { link.start } else { link.end }
}

// How much more an arc can carry.
fn room_of(arc: u32, capacity: u32, blocks: u32) -> u32
    requires { blocks ≤ capacity }
    ensures { result ≡ cond (along arc) (capacity - blocks) blocks }
{
    if arc % 2 == 0 {
        capacity - blocks
    } else {
        blocks
    }
}

// What is on a link after a push over an arc of it: more along the link, less against it.
fn push(arc: u32, blocks: u32, by: u32) -> u32
    requires { Pushable arc blocks by }
    ensures { result ≡ pushed arc blocks by }
{
    if arc % 2 == 0 {
        blocks + by
    } else {
        blocks - by
    }
}

// The least room of the arcs from the destination back to the origin. `as`: usize has no From<u32>.
fn bottleneck(network: &Network, state: &State, tree: &Tree) -> u32
    requires { Augmentable (model_of network.now) state.now tree.now }
    ensures { result ≡ narrowest (model_of network.now) state.now.flow tree.now }
{
    let origin = network.origin;
    let mut least = MOST_CAPACITY;
    let mut at = network.destination;
    while at != origin {
        let arc = tree.arc[at as usize];
        let e = (arc / 2) as usize;
        let link = &network.links[e];
        least = least.min(room_of(arc, link.capacity, state.flow[e]));
        at = tail_of(arc, link);
    }
    least
}

// One augmentation: as many blocks as the bottleneck lets through, pushed over the tree's arcs from the destination back to the
// origin. `as`: usize has no From<u32>.
pub fn augment(network: &Network, state: &State, tree: &Tree) -> State
    requires { Augmentable (model_of network.now) state.now tree.now }
    ensures { Augmented (model_of network.now) state.now result }
{
    let by = bottleneck(network, state, tree);
    let origin = network.origin;
    let mut next = *state;
    let mut at = network.destination;
    while at != origin {
        let arc = tree.arc[at as usize];
        let e = (arc / 2) as usize;
        next.flow[e] = push(arc, next.flow[e], by);
        at = tail_of(arc, &network.links[e]);
    }
    next.value = state.value + u64::from(by);
    next
}
