// A plan's text in the listing: its verdict, its amount and horizon, then its rows and its cut. It goes to the front of a lent part, and the
// answer is its length; octets after it stay.
// Each part is lent from where it is written on: its clause names the text that has to fit.
#![tactic(auto)]

ghost use Rattle.std.specs.Prelude.{◌≤◌, length};
ghost use Rattle.limits.specs.Limits.{most_places};
ghost use Rattle.plans.specs.Held.{model_of};
ghost use Rattle.plans.specs.WritablePlan.{Countable};
ghost use Rattle.texts.specs.Put.{Put};
ghost use Rattle.plan_lines.specs.PlanText.{plan_text};

use plans::Plan;

// A plan's lines under its verdict: any number is printed, and a narrower type would ask more. Its places stand beside the plan, which does
// not hold how many its cut is of.
pub fn put_plan(part: &mut [u8], verdict: u32, bound: u64, places: u32, plan: Plan) -> usize
    requires places { places ≤ most_places }
    requires counted { Countable plan }
    requires room { length (plan_text verdict bound (model_of places plan)) ≤ length part.old }
    ensures { Put (plan_text verdict bound (model_of places plan)) part.old part.new result }
{
    let mut at = lines::put_line(part, b"verdict ", u64::from(verdict));
    at += decimals::put_named(&mut part[at..], b"amount ", u64::from(plan.amount));
    at += lines::put_line(&mut part[at..], b" horizon ", u64::from(plan.horizon));
    at + plan_lines::put_tail(&mut part[at..], bound, places, plan)
}
