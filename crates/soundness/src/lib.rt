// A test of a proposed state: does it hold what the primal_dual method keeps of its states (a static flow within capacities and balanced,
// slackness between it and the potentials)? The method may then go on from it, whoever proposed it.
#![tactic(auto)]

ghost use Rattle.std.specs.Prelude.{◌≡◌, true, ◌≤◌, ◌<◌};
ghost use Rattle.limits.specs.Limits.{most_places};
ghost use Rattle.flows.specs.Sums.{only};
ghost use Rattle.flows.specs.Network.{WellFormed};
ghost use Rattle.network.specs.Held.{model_of};
ghost use Rattle.statics.specs.Static.{Balanced};
ghost use Rattle.states.specs.State.{Sound};
ghost use Rattle.slackness.specs.Fits.{AllFit};
ghost use Rattle.soundness.specs.Tests.{most_value, Rises, Gatherable, Gathered, Even};

use flows::Link;
use limits::MOST_CUT_NUMBER;
use network::Network;
use states::State;

// All links full: no static flow brings more.
const MOST_VALUE: u64 = 2560000;

// The potentials: 0 at the origin, none above the destination's. `as`: usize has no From<u32>.
fn rises(potential: &[u32; 64], origin: u32, destination: u32) -> bool
    requires { (origin < most_places) × (destination < most_places) }
    ensures { result ≡ true → Rises origin destination potential.now }
{
    let level = potential[destination as usize];
    if potential[origin as usize] != 0 || MOST_CUT_NUMBER < level {
        return false;
    }
    potential.iter().all(|number| *number <= level)
}

// What leaves each place, and what arrives there: two arrays, since one law (Gathered) holds of each, by one end of the links.
#[derive(Clone, Copy)]
struct Sums {
    out: [u32; 64],
    into: [u32; 64],
}

// The blocks of the links added up at both ends of each. `as`: usize has no From<u32>.
fn gathered(links: &[Link], blocks: &[u32; 256]) -> Sums
    requires starts { Gatherable (λ l. l.start) links.now blocks.now }
    requires ends { Gatherable (λ l. l.end) links.now blocks.now }
    ensures out { Gathered (λ l. l.start) links.now blocks.now result.out }
    ensures into { Gathered (λ l. l.end) links.now blocks.now result.into }
{
    let mut out = [0; 64];
    let mut into = [0; 64];
    for (e, link) in links.iter().enumerate() {
        out[link.start as usize] += blocks[e];
        into[link.end as usize] += blocks[e];
    }
    Sums { out, into }
}

// A value at one place, and 0 at all others. `log_balances::only_at` is its twin over u32 amounts: one generic for both is no plainer.
// `as`: usize has no From<u32>.
fn at(here: u32, place: usize, value: u64) -> u64
    ensures { result ≡ only here place value }
{
    if (here as usize) == place {
        return value;
    }
    0
}

// What leaves each place against what arrives, with the value back from the destination to the origin.
fn even(out: &[u32; 64], into: &[u32; 64], origin: u32, destination: u32, value: u64) -> bool
    requires { value ≤ most_value }
    ensures { result ≡ true → Even out.now into.now origin destination value }
{
    for u in 0..64 {
        let leaves = u64::from(out[u]) + at(destination, u, value);
        let arrives = u64::from(into[u]) + at(origin, u, value);
        if leaves != arrives {
            return false;
        }
    }
    true
}

// Whether the flow is balanced at each place.
fn balances(network: &Network, state: &State) -> bool
    requires formed { WellFormed (model_of network.now) }
    requires fit { AllFit (model_of network.now) state.now.flow state.now.potential }
    requires value { state.now.value ≤ most_value }
    ensures { result ≡ true → Balanced (model_of network.now) state.now.flow state.now.value (model_of network.now).origin 0 }
{
    let sums = gathered(network.links(), &state.flow);
    even(
        &sums.out,
        &sums.into,
        network.origin,
        network.destination,
        state.value,
    )
}

// Whether the primal_dual method may go on from a state: its value, its potentials, its links, then the balance at each place. No type for
// a network that is well formed: who calls holds the fact within Plannable or Optimizable, and would wrap the network for this one call.
pub fn accepts(network: &Network, state: &State) -> bool
    requires { WellFormed (model_of network.now) }
    ensures { result ≡ true → Sound (model_of network.now) state.now }
{
    state.value <= MOST_VALUE
        && rises(&state.potential, network.origin, network.destination)
        && slackness::links_fit(network, state)
        && balances(network, state)
}
