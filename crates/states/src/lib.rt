// The primal_dual method's state, a static flow with potentials: its start, and its potentials raised by a search's distances.
#![tactic(auto)]

ghost use Rattle.std.specs.Prelude.{◌≡◌};
ghost use Rattle.states.specs.Steps.{zero_state, Raisable, raised_by};

use residual::Tree;

// A static flow (blocks that enter each link in every slot) with its value, and the potentials that prove it optimal. Two arrays: a flow
// has a number for each link, potentials have one for each place.
#[derive(Clone, Copy)]
pub struct State {
    pub flow: [u32; 256],
    pub value: u64,
    pub potential: [u32; 64],
}

// The start: no flow, all potentials 0.
pub fn begin() -> State
    ensures { result ≡ zero_state }
{
    State {
        flow: [0; 256],
        value: 0,
        potential: [0; 64],
    }
}

// The state with its potentials raised by a tree's distances, each as far as `by`.
pub fn raise(state: &State, tree: &Tree, by: u32) -> State
    requires { Raisable state.now tree.now by }
    ensures { result ≡ raised_by by state.now tree.now }
{
    let mut next = *state;
    for v in 0..64 {
        next.potential[v] = state.potential[v] + tree.distance[v].min(by);
    }
    next
}
