// The primal_dual method: steps to a static flow and potentials that are optimal for a number of slots.
#![tactic(auto)]

ghost use Rattle.std.specs.Prelude.{◌≤◌};
ghost use Rattle.limits.specs.Limits.{most_cut_number};
ghost use Rattle.network.specs.Held.{model_of};
ghost use Rattle.states.specs.Steps.{Steppable};
ghost use Rattle.primal_dual.specs.Steps.{Advanceable, Stepped, Begun, Optimizable, Optimal};

use adjacency::Graph;
use network::Network;
use residual::{Residual, Tree};
use states::State;

// One step to a limit, after a search: the potentials are raised by the whole reach and the flow is augmented, or raised as far as
// the limit lets. `as`: usize has no From<u32>.
fn advance(graph: &Graph, state: &State, tree: &Tree, limit: u32) -> State
    requires { Advanceable (model_of graph.now.network) state.now tree.now limit }
    ensures { Stepped (model_of graph.now.network) state.now limit result }
{
    let destination = graph.network.destination as usize;
    let room = limit - state.potential[destination];
    let reach = tree.reach;
    if reach <= room {
        let next = states::raise(state, tree, reach);
        return augment::augment(&graph.network, &next, tree);
    }
    states::raise(state, tree, room)
}

// One step to a limit: a search of the residual network, and the advance that it allows.
fn step(graph: &Graph, state: &State, limit: u32) -> State
    requires { Steppable (model_of graph.now.network) state.now limit }
    ensures { Stepped (model_of graph.now.network) state.now limit result }
{
    let tree = search::search(Residual {
        network: &graph.network,
        index: &graph.index,
        flow: &state.flow,
        potential: &state.potential,
    });
    advance(graph, state, &tree, limit)
}

// The state that the steps begin with: the first step, if it comes to as many slots; else what the simplex proposes, if it passes the
// test and its level is within the slots; else the first step again. `as`: usize has no From<u32>.
// Not one function with quickest_flow's `begin`: the first state, the test of it, the question to the simplex and the test of its answer
// all differ, and what would be left is one `if`.
fn begin(graph: &Graph, slots: u32) -> State
    requires { slots ≤ most_cut_number }
    ensures { Begun (model_of graph.now.network) slots result }
{
    let zero = states::begin();
    let tree = search::search(Residual {
        network: &graph.network,
        index: &graph.index,
        flow: &zero.flow,
        potential: &zero.potential,
    });
    let first = advance(graph, &zero, &tree, slots);
    if slots <= tree.reach {
        return first;
    }
    let proposed = simplex::propose(&graph.network, &graph.index, &tree, slots, None);
    let destination = graph.network.destination as usize;
    if soundness::accepts(&graph.network, &proposed) && proposed.potential[destination] <= slots {
        return proposed;
    }
    first
}

// A static flow and potentials that are optimal where as many slots count: steps until the destination's potential is that. `as`: usize
// has no From<u32>.
pub fn optimum(network: &Network, slots: u32) -> State
    requires { Optimizable (model_of network.now) slots }
    ensures { Optimal (model_of network.now) slots result }
{
    let graph = Graph::new(network);
    let destination = graph.network.destination as usize;
    let mut state = begin(&graph, slots);
    while state.potential[destination] < slots {
        state = step(&graph, &state, slots);
    }
    state
}
