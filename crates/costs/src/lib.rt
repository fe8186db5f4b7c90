// The cost of a static flow: the blocks that are under way in it.
#![tactic(auto)]

ghost use Rattle.std.specs.Prelude.{◌≡◌};
ghost use Rattle.statics.specs.Static as static;
ghost use Rattle.network.specs.Held.{model_of};
ghost use Rattle.costs.specs.Weighable.{Weighable};

use network::Network;
use states::State;

// The blocks under way in a static flow: the sum over links of transit × blocks.
pub fn cost(network: &Network, state: &State) -> u64
    requires { Weighable (model_of network.now) state.now.flow }
    ensures { result ≡ static.cost (model_of network.now) state.now.flow }
{
    let mut sum: u64 = 0;
    for (e, link) in network.links().iter().enumerate() {
        sum += u64::from(link.transit) * u64::from(state.flow[e]);
    }
    sum
}
