// The bound of a cut.
#![tactic(auto)]

ghost use Rattle.std.specs.Prelude.{◌≡◌, take};
ghost use Rattle.flows.specs.Network.{WellFormed};
ghost use Rattle.flows.specs.Cut as model;
ghost use Rattle.network.specs.Held.{model_of};

use network::Network;

// The bound of the numbers in `cut`, one for each place, whether they are a cut or not. The whole array: numbers are looked up by place, and it has
// one for each. No type for a well-formed network: its callers hold the fact inside Given or Plannable, and would wrap the network for one call.
// `as`: usize has no From<u32>.
pub fn bound(network: &Network, cut: &[u32; 64]) -> u64
    requires { WellFormed (model_of network.now) }
    ensures { result ≡ model.bound (model_of network.now) (take network.now.places cut.now) }
{
    let mut sum: u64 = 0;
    for link in network.links() {
        let a = link.start as usize;
        let b = link.end as usize;
        sum += slacks::addend(cut[b], cut[a], link);
    }
    sum
}
