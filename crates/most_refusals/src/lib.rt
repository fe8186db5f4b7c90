// What the most by a horizon refuses of a horizon and of the numbers lent, once the network is read.
#![tactic(auto)]

ghost use Rattle.std.specs.Prelude.{◌≡◌};
ghost use Rattle.flows.specs.Network.{Network};
ghost use Rattle.optimum.specs.Promise.{refusal_after};

use limits::LONGEST_HORIZON;
use refusals::Refusal;

// The first that holds is refused: a horizon above the longest, or fewer numbers lent than there are places.
// `as`: usize has no From<u32>.
pub fn refusal(places: u32, horizon: u64, lent: usize) -> Result<(), Refusal>
    ensures { (N : Network) → N.places ≡ places → result ≡ refusal_after N horizon lent }
{
    if u64::from(LONGEST_HORIZON) < horizon {
        return Err(Refusal::HorizonLimits);
    }
    if lent < places as usize {
        return Err(Refusal::CutShort);
    }
    Ok(())
}
