// The quickest static flow for an amount: augmentations, from a state that a hint proposed and a test accepted or from the first
// augmentation on.
#![tactic(auto)]

ghost use Rattle.network.specs.Held.{model_of};
ghost use Rattle.quickest.specs.Quickest.{FirstSearched, IsQuickest, Plannable, TooShort};

use adjacency::Graph;
use quickest::Quickest;
use residual::Tree;
use states::State;
use std::ops::ControlFlow;

// Where the first path brings the amount in so many slots more than it lasts, few augmentations follow, and cost less than a hint.
pub const FEW_SLOTS: u64 = 16;

// The state that the turns begin with: the first augmentation, along the path in `tree`, if it brings the amount in a few slots more than
// the path lasts; else what the simplex proposes, if it passes the test and is too short for the amount; else the first augmentation
// again.
fn begin(graph: &Graph, tree: &Tree, amount: u32) -> State
    requires { Plannable (model_of graph.now.network) amount × FirstSearched (model_of graph.now.network) tree.now }
    ensures { TooShort (model_of graph.now.network) amount result }
{
    let network = &graph.network;
    let raised = states::raise(&states::begin(), tree, tree.reach);
    let augmented = augment::augment(network, &raised, tree);
    let value = augmented.value;
    let wanted = u64::from(amount);
    if wanted / FEW_SLOTS <= value {
        return augmented;
    }
    let slots = simplex::enough(tree.reach, value, amount);
    let proposed = simplex::propose(network, &graph.index, tree, slots, Some(amount));
    if soundness::accepts(network, &proposed)
        && cuts::bound(network, &proposed.potential) < wanted
    {
        return proposed;
    }
    augmented
}

// The quickest static flow for the amount: turns from the state that they begin with until the amount can be brought. The first search
// was made already: `tree` is what it found, and no flow brings nothing, so the first augmentation needs no test.
pub fn find(graph: &Graph, amount: u32, tree: &Tree) -> Quickest
    requires { Plannable (model_of graph.now.network) amount × FirstSearched (model_of graph.now.network) tree.now }
    ensures { IsQuickest (model_of graph.now.network) amount result }
{
    let mut state = begin(graph, tree, amount);
    loop {
        match quickest::turn(graph, &state, amount) {
            ControlFlow::Break(quickest) => return quickest,
            ControlFlow::Continue(next) => state = next,
        }
    }
}
