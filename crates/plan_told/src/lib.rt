// The least horizon for an amount as the C interface tells it.
#![tactic(auto)]

ghost use Rattle.plan_told.specs.PlanTold.{PlanTold};

// `as`: u64 has no From<usize>.
pub fn tell(
    octets: &[u8],
    amount: u64,
    buffer: &mut [u8],
    horizon: &mut u64,
    length: &mut u64,
) -> u32
    ensures { PlanTold octets.now amount buffer.old buffer.new horizon.new length.new result }
{
    match record_planner::plan(octets, amount, buffer) {
        Err(refusal) => {
            *horizon = 0;
            *length = 0;
            refusal.number()
        }
        Ok(written) => {
            *horizon = u64::from(written.horizon);
            *length = written.length as u64;
            0
        }
    }
}
