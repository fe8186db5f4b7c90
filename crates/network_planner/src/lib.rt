// Planning on a network's struct: a plan for an amount, with the cut that proves its horizon least.
#![tactic(auto)]

ghost use Rattle.std.specs.Prelude.{◌≡◌};
ghost use Rattle.network.specs.Record.{record_of};
ghost use Rattle.network.specs.Held.{model_of};
ghost use Rattle.planner.specs.Askable.{Askable};
ghost use Rattle.planner.specs.Promise.{PlannedFor};

use adjacency::Graph;
use network::Network;
use planner::Written;
use plans::Plan;
use refusals::Refusal;
use residual::Residual;

// Plans the least horizon for an amount on a network that was read from these octets, and writes the plan, which carries them, from the
// buffer's first octet on; refused where no chain of links with capacity leads from origin to archive. The first search, under no flow and no
// potentials, tells which, and the plan is made from its tree on.
pub fn plan_network(
    octets: &[u8],
    network: Network,
    amount: u32,
    buffer: &mut [u8],
) -> Result<Written, Refusal>
    requires { Askable (model_of network) amount buffer.old × (octets.now ≡ record_of (model_of network)) }
    ensures { PlannedFor (model_of network) amount buffer.old buffer.new result }
{
    let graph = Graph::new(&network);
    let idle = states::begin();
    let tree = search::search(Residual {
        network: &graph.network,
        index: &graph.index,
        flow: &idle.flow,
        potential: &idle.potential,
    });
    if tree.found {
        // The rows are made in place: a function that answers them, 21,588 octets, would have them copied.
        let none = plans::no_row();
        let mut plan = Plan {
            amount,
            horizon: 0,
            cut: [0; 64],
            count: 0,
            rows: [none; 257],
        };
        certificate::make(&graph, amount, &tree, &mut plan);
        let body = plan_carrier::write_copy(octets, buffer);
        let length = plan_writer::write(&plan, graph.network.places, buffer, body);
        return Ok(Written {
            horizon: plan.horizon,
            length,
        });
    }
    Err(Refusal::NoChain)
}
