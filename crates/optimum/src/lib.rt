// The most blocks by a horizon, from a state that is optimal for it.
#![tactic(auto)]

ghost use Rattle.std.specs.Prelude.{Ok};
ghost use Rattle.network.specs.Held.{model_of};
ghost use Rattle.optimum.specs.Answering.{Answerable, AnsweredFor};

use network::Network;
use states::State;

// The answer that a state gives for a horizon of which as many slots count: what its flow brings in them, and its potentials for the cut.
// `as`: usize has no From<u32>.
pub fn answer(network: &Network, state: &State, slots: u64, cut: &mut [u32]) -> u64
    requires { Answerable (model_of network.now) state.now slots cut.old }
    ensures { AnsweredFor (model_of network.now) slots cut.old cut.new (Ok result) }
{
    let value = state.value;
    let sent = slots * value;
    let most = sent - costs::cost(network, state);
    let places = network.places as usize;
    cut[..places].copy_from_slice(&state.potential[..places]);
    most
}
