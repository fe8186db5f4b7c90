// Examining a plan's record for a network's.
#![tactic(auto)]

ghost use Rattle.std.specs.Prelude.{◌≡◌};
ghost use Rattle.network.specs.Record.{read_network};
ghost use Rattle.examiner.specs.Examine.{examined};
ghost use Rattle.examiner.specs.Answer.{answer_of};
ghost use Rattle.examiner.specs.Told.{NumbersFor};

use judge::Judged;
use refusals::Refusal;

// Examines a plan for a network, each given by its record. Refused are 1 to 7 for the network, then 14 to 18 and 23 for the plan; otherwise
// the answer is the verdict, 0 to 7, and the bound of the cut over the numbers as written. specs/Examine.antt has the promise, and
// proofs/Demand2.antt what the verdict 0 means.
pub fn examine<'a>(octets: &'a [u8], plan: &'a [u8]) -> Result<Judged, Refusal>
    ensures { (answer_of result ≡ examined octets.now plan.now)
        × NumbersFor octets.now (read_network octets.now) plan.now (answer_of result) }
{
    let network = network_reader::read(octets)?;
    let plan = plan_reader::read(octets, plan, network.places, network.count)?;
    Ok(judge::judge(&network, &plan))
}
