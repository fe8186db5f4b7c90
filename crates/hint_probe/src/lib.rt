// What planning and the most do with the simplex's proposal, and planning with the walk's chains, told to the benchmark, which counts how
// often a test turns one down. No part of the library; nothing is promised.
#![tactic(auto)]

ghost use Rattle.std.specs.Prelude.{IfSome};
ghost use Rattle.network.specs.Held.{model_of};
ghost use Rattle.quickest.specs.Quickest.{FirstSearched, Plannable};

use adjacency::Graph;
use limits::{LEAST_AMOUNT, MOST_AMOUNT, MOST_RATE};
use quickest_flow::FEW_SLOTS;
use residual::{Residual, Tree};
use routes::Route;

// What becomes of a hint: none is asked for, what it proposes is taken, or a test turns it down. Told as its number, by `as`: an enum has no
// From to it.
#[derive(Clone, Copy)]
enum Outcome {
    NotAsked = 0,
    Taken = 1,
    TurnedDown = 2,
}

// A network that was read, the links at its places, and its first search.
#[derive(Clone, Copy)]
struct Begun {
    graph: Graph,
    tree: Tree,
}

fn begin(octets: &[u8]) -> Option<Begun>
    ensures { IfSome result (λ s. FirstSearched (model_of s.graph.network) s.tree) }
{
    let Ok(network) = network_reader::read(octets) else {
        return None;
    };
    let graph = Graph::new(&network);
    let start = states::begin();
    let tree = search::search(Residual {
        network: &graph.network,
        index: &graph.index,
        flow: &start.flow,
        potential: &start.potential,
    });
    Some(Begun { graph, tree })
}

// The same, where planning takes the network and the amount.
fn begin_planning(octets: &[u8], amount: u32) -> Option<Begun>
    ensures { IfSome result (λ s. Plannable (model_of s.graph.network) amount × FirstSearched (model_of s.graph.network) s.tree) }
{
    let begun = begin(octets)?;
    if begun.tree.found && LEAST_AMOUNT <= amount && amount <= MOST_AMOUNT {
        Some(begun)
    } else {
        None
    }
}

// As `quickest_flow` begins: a copy, since the library's function doesn't tell what became of the hint; so are the two below.
fn of_plan(graph: &Graph, tree: &Tree, amount: u32) -> Outcome
    requires { Plannable (model_of graph.now.network) amount × FirstSearched (model_of graph.now.network) tree.now }
{
    let network = &graph.network;
    let raised = states::raise(&states::begin(), tree, tree.reach);
    let augmented = augment::augment(network, &raised, tree);
    let value = augmented.value;
    if u64::from(amount) / FEW_SLOTS <= value {
        return Outcome::NotAsked;
    }
    let slots = simplex::enough(tree.reach, value, amount);
    let proposed = simplex::propose(network, &graph.index, tree, slots, Some(amount));
    if soundness::accepts(network, &proposed)
        && cuts::bound(network, &proposed.potential) < u64::from(amount)
    {
        Outcome::Taken
    } else {
        Outcome::TurnedDown
    }
}

// As `primal_dual` begins; no hint is asked for where the first step comes to as many slots. `as`: usize has no From<u32>.
fn of_most(graph: &Graph, tree: &Tree, slots: u32) -> Outcome {
    if slots <= tree.reach {
        return Outcome::NotAsked;
    }
    let proposed = simplex::propose(&graph.network, &graph.index, tree, slots, None);
    let destination = graph.network.destination as usize;
    if soundness::accepts(&graph.network, &proposed) && proposed.potential[destination] <= slots {
        Outcome::Taken
    } else {
        Outcome::TurnedDown
    }
}

// Takes a rate off the links of a route.
fn lessen(left: &mut [u32; 256], route: &Route, rate: u32) {
    for link in route.links() {
        let e = usize::from(*link);
        left[e] = left[e].wrapping_sub(rate);
    }
}

// As `decompose` takes the quickest flow apart, to its end: is every chain of the walk a route?
fn of_rows(graph: &Graph, tree: &Tree, amount: u32) -> Outcome
    requires { Plannable (model_of graph.now.network) amount × FirstSearched (model_of graph.now.network) tree.now }
{
    let quickest = quickest_flow::find(graph, amount, tree);
    let mut left = quickest.state.flow;
    let mut current = graph.index.out.first;
    let mut carried = quickest.state.value;
    for _ in 0..257 {
        let Some(route) = hinted_route::hinted(
            &graph.network,
            &graph.index.out.next,
            &left,
            &mut current,
        ) else {
            return Outcome::TurnedDown;
        };
        let rate = turns::least(&left, &route, MOST_RATE);
        lessen(&mut left, &route, rate);
        if carried <= u64::from(rate) {
            break;
        }
        carried -= u64::from(rate);
    }
    Outcome::Taken
}

// What becomes of the simplex's hint where an amount is planned for a network's record; 0 where planning refuses.
#[unsafe(no_mangle)]
pub extern "C" fn pudeyan_hint_of_plan(octets: &[u8], amount: u32) -> u32 {
    let outcome = match begin_planning(octets, amount) {
        Some(begun) => of_plan(&begun.graph, &begun.tree, amount),
        None => Outcome::NotAsked,
    };
    outcome as u32
}

// The same of the walk's hints for the rows.
#[unsafe(no_mangle)]
pub extern "C" fn pudeyan_hint_of_rows(octets: &[u8], amount: u32) -> u32 {
    let outcome = match begin_planning(octets, amount) {
        Some(begun) => of_rows(&begun.graph, &begun.tree, amount),
        None => Outcome::NotAsked,
    };
    outcome as u32
}

// The same of the simplex's hint where the most is asked for by a horizon.
#[unsafe(no_mangle)]
pub extern "C" fn pudeyan_hint_of_most(octets: &[u8], horizon: u32) -> u32 {
    let outcome = match begin(octets) {
        Some(begun) => {
            let slots = clock::counting(horizon);
            of_most(&begun.graph, &begun.tree, slots)
        }
        None => Outcome::NotAsked,
    };
    outcome as u32
}
