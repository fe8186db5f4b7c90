// A test of a static flow against potentials, link by link: within the capacities, and slackness between the two.
#![tactic(auto)]

ghost use Rattle.std.specs.Prelude.{◌≡◌, true};
ghost use Rattle.flows.specs.Network.{WellFormed};
ghost use Rattle.network.specs.Held.{model_of};
ghost use Rattle.slackness.specs.Fits.{Fits, AllFit};

use flows::Link;
use network::Network;
use states::State;
use std::cmp::Ordering;

// One link, under the potentials at its start and its end: empty where its reduced cost is above zero, full where it is below, and
// within its capacity.
fn fits(link: &Link, blocks: u32, start: u32, end: u32) -> bool
    ensures { result ≡ true → Fits link.now.capacity blocks link.now.transit start end }
{
    let end = u64::from(end);
    let along = u64::from(start) + u64::from(link.transit);
    match end.cmp(&along) {
        Ordering::Less => blocks == 0,
        Ordering::Equal => blocks <= link.capacity,
        Ordering::Greater => blocks == link.capacity,
    }
}

// All links. No type for a network that is well formed: who calls holds the fact within Plannable or Optimizable, and would wrap the
// network for this one call. `as`: usize has no From<u32>.
pub fn links_fit(network: &Network, state: &State) -> bool
    requires { WellFormed (model_of network.now) }
    ensures { result ≡ true → AllFit (model_of network.now) state.now.flow state.now.potential }
{
    for (e, link) in network.links().iter().enumerate() {
        let start = state.potential[link.start as usize];
        let end = state.potential[link.end as usize];
        if !fits(link, state.flow[e], start, end) {
            return false;
        }
    }
    true
}
