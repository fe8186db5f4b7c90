// The most blocks by a horizon: the operation on a network's record.
#![tactic(auto)]

ghost use Rattle.optimum.specs.Promise.{Promised};

use refusals::Refusal;

// The most blocks that any flow delivers by the horizon, with a cut for it whose bound equals it in the first `places` numbers lent.
// Turned down, in this order: what reading the network turns down, a horizon above the longest, fewer numbers lent than there are
// places. The promise stands in optimum/specs/Promise.antt.
// `as`: the horizon fits, since it is no longer than the longest.
pub fn most(octets: &[u8], horizon: u64, cut: &mut [u32]) -> Result<u64, Refusal>
    ensures { Promised octets.now horizon cut.old cut.new result }
{
    let network = network_reader::read(octets)?;
    most_refusals::refusal(network.places, horizon, cut.len())?;
    let slots = clock::counting(horizon as u32);
    let state = primal_dual::optimum(&network, slots);
    Ok(optimum::answer(&network, &state, u64::from(slots), cut))
}
