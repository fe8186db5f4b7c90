// What planning refuses of an amount and of the octets lent, once the network is read.
#![tactic(auto)]

ghost use Rattle.std.specs.Prelude.{◌≡◌};
ghost use Rattle.planner.specs.Promise.{refusal_after};

use limits::{LEAST_AMOUNT, MOST_AMOUNT, PLAN_BUFFER};
use refusals::Refusal;

// The first that holds is refused: an amount outside its limits, or fewer than 38,912 octets.
pub fn refusal(amount: u64, lent: usize) -> Result<(), Refusal>
    ensures { result ≡ refusal_after amount lent }
{
    if amount < u64::from(LEAST_AMOUNT) || u64::from(MOST_AMOUNT) < amount {
        return Err(Refusal::AmountLimits);
    }
    if lent < PLAN_BUFFER {
        return Err(Refusal::PlanBufferShort);
    }
    Ok(())
}
