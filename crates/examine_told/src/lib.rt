// What examining answers, as the C interface tells it.
#![tactic(auto)]

ghost use Rattle.std.specs.Prelude.{◌≡◌};
ghost use Rattle.examiner.specs.Examine.{examined, examine_refusal_of, verdict_of, bound_of};

pub fn tell<'a>(octets: &'a [u8], plan: &'a [u8], verdict: &mut u32, bound: &mut u64) -> u32
    ensures { (result ≡ examine_refusal_of (examined octets.now plan.now))
        × (verdict.new ≡ verdict_of (examined octets.now plan.now))
        × (bound.new ≡ bound_of (examined octets.now plan.now)) }
{
    match examiner::examine(octets, plan) {
        Err(refusal) => {
            *verdict = 0;
            *bound = 0;
            refusal.number()
        }
        Ok(found) => {
            *verdict = found.verdict.number();
            *bound = found.bound;
            0
        }
    }
}
