// One turn towards the quickest static flow for an amount, and what that flow is.
#![tactic(auto)]

ghost use Rattle.network.specs.Held.{model_of};
ghost use Rattle.quickest.specs.Quickest.{Plannable, TooShort, Turned};

use adjacency::Graph;
use limits::MOST_CUT_NUMBER;
use residual::Residual;
use states::State;
use std::ops::ControlFlow;

// The quickest static flow for an amount: how many slots must count for it, and a state whose potentials are one slot less.
#[derive(Clone, Copy)]
pub struct Quickest {
    pub slots: u32,
    pub state: State,
}

// One turn: if the flow brings the amount before potentials are as high as the next augmenting path asks, the least horizon is a
// quotient, and potentials are raised to one slot less: the search is over. Otherwise they are raised all the way, the flow is
// augmented, and the search goes on from there. `as`: usize has no From<u32>; a quotient fits, since it is below the longest horizon.
pub fn turn(graph: &Graph, state: &State, amount: u32) -> ControlFlow<Quickest, State>
    requires { Plannable (model_of graph.now.network) amount × TooShort (model_of graph.now.network) amount state.now }
    ensures { Turned (model_of graph.now.network) amount state.now result }
{
    let network = &graph.network;
    let destination = network.destination as usize;
    let level = state.potential[destination];
    let value = state.value;
    let needed = u64::from(amount) + costs::cost(network, state);
    let at_once = u64::from(level + 1) * value;
    if needed <= at_once {
        return ControlFlow::Break(Quickest {
            slots: level + 1,
            state: *state,
        });
    }
    let tree = search::search(Residual {
        network,
        index: &graph.index,
        flow: &state.flow,
        potential: &state.potential,
    });
    let room = tree.reach.min(MOST_CUT_NUMBER - level);
    let at_most = u64::from(level + room) * value;
    if needed <= at_most {
        let short = ((needed - 1) / value) as u32;
        return ControlFlow::Break(Quickest {
            slots: short + 1,
            state: states::raise(state, &tree, short - level),
        });
    }
    let raised = states::raise(state, &tree, room);
    ControlFlow::Continue(augment::augment(network, &raised, &tree))
}
