// A plan that is its own certificate: rows that deliver the amount, and a cut that proves that no shorter horizon will do.
#![tactic(auto)]

ghost use Rattle.network.specs.Held.{model_of};
ghost use Rattle.quickest.specs.Quickest.{FirstSearched, Plannable};
ghost use Rattle.certificate.specs.Made.{MadeOf};

use adjacency::Graph;
use plans::Plan;
use quickest::Quickest;
use residual::Tree;

// Makes the plan for an amount that some route can bring, whatever stood in the struct before: the quickest static flow, taken apart into
// rows, with its potentials as the cut. `tree` is what the first search found. Graph, amount and tree go side by side, here and in
// quickest_flow: whoever is handed a struct of the three would take it apart at once.
pub fn make(graph: &Graph, amount: u32, tree: &Tree, plan: &mut Plan)
    requires { Plannable (model_of graph.now.network) amount × FirstSearched (model_of graph.now.network) tree.now }
    ensures { MadeOf (model_of graph.now.network) graph.now.network.places amount plan.new }
{
    let Quickest { slots, state } = quickest_flow::find(graph, amount, tree);
    plan.amount = amount;
    plan.horizon = clock::spanning(slots);
    plan.cut = state.potential;
    plan.count = decompose::fill(graph, &state, amount, slots, &mut plan.rows);
}
