// Plan the least horizon: the operation that gives a plan for an amount on a network's record.
#![tactic(auto)]

ghost use Rattle.planner.specs.Promise.{Promised};

use planner::Written;
use refusals::Refusal;

// Plans the least horizon for an amount and writes the plan, which carries the record, from the buffer's first octet on. Refused is the
// first that holds: what reading the network refuses; an amount outside its limits; a buffer under 38,912 octets; no chain of links with
// capacity that leads from origin to archive. The promise is `Promised` of planner/specs/Promise.antt.
// The amount fits: it is within its limits there.
pub fn plan(record: &[u8], amount: u64, buffer: &mut [u8]) -> Result<Written, Refusal>
    ensures { Promised «record».now amount buffer.old buffer.new result }
{
    let network = network_reader::read(record)?;
    plan_refusals::refusal(amount, buffer.len())?;
    network_planner::plan_network(record, network, amount as u32, buffer)
}
