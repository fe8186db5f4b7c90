// Judging a plan: the rows' tests, then the cut's, and the first that finds a fault decides.
#![tactic(auto)]

ghost use Rattle.std.specs.Prelude.{◌≡◌, ◌-◌, ◌≤◌, take, ltb};
ghost use Rattle.std.specs.List.{list_any};
ghost use Rattle.flows.specs.Network.{WellFormed};
ghost use Rattle.flows.specs.Cut as cuts_model;
ghost use Rattle.flows.specs.Plan as model;
ghost use Rattle.network.specs.Held as network_model;
ghost use Rattle.plans.specs.Held as plan_model;
ghost use Rattle.row_uses.specs.Given.{Given};
ghost use Rattle.first_fault.specs.Verdicts.{number_of};
ghost use Rattle.judge.specs.Judge.{cut_fault};

use first_fault::Verdict;
use network::Network;
use plans::Plan;
use row_faults::NetworkPlan;

// What judging answers: the verdict and the bound of the cut.
#[derive(Clone, Copy)]
pub struct Judged {
    pub verdict: Verdict,
    pub bound: u64,
}

// Some number is above a limit.
fn above(numbers: &[u32], limit: u32) -> bool
    ensures { result ≡ list_any (λ x. ltb limit x) numbers.now }
{
    numbers.iter().any(|number| limit < *number)
}

// The cut's numbers at origin or destination are wrong for the horizon less one slot, or one is above that. The whole array: numbers are looked up
// by place, and it has one for each. No type for a well-formed network: its callers hold the fact inside Given or Plannable, and would wrap the
// network for one call. `as`: usize has no From<u32>.
fn miscut(network: &Network, horizon: u32, cut: &[u32; 64]) -> bool
    requires { WellFormed (network_model.model_of network.now) × (1 ≤ horizon) }
    ensures { result ≡ model.miscut (network_model.model_of network.now) (horizon - 1) (take network.now.places cut.now) }
{
    let last = clock::counting(horizon - 1);
    let a = network.origin as usize;
    let b = network.destination as usize;
    cut[a] != 0 || cut[b] != last || above(&cut[..network.places as usize], last)
}

// The first of the cut's faults: its numbers are no cut for the horizon less one slot, or its bound is not below the amount.
// The whole array and no type for a well-formed network, as above.
fn cut_fault(network: &Network, amount: u32, horizon: u32, cut: &[u32; 64], bound: u64) -> Verdict
    requires well_formed { WellFormed (network_model.model_of network.now) × (1 ≤ horizon) }
    requires bound_of_cut { bound ≡ cuts_model.bound (network_model.model_of network.now) (take network.now.places cut.now) }
    ensures { number_of result ≡ cut_fault (network_model.model_of network.now) amount horizon (take network.now.places cut.now) }
{
    if miscut(network, horizon, cut) {
        return Verdict::Miscut;
    }
    if u64::from(amount) <= bound {
        return Verdict::Unproven;
    }
    Verdict::Passes
}

// Judges a plan for a network, both held in structs: the verdict, the first that applies, and under every verdict the bound of the cut.
pub fn judge(network: &Network, plan: &Plan) -> Judged
    requires { Given network.now plan.now }
    ensures verdict { number_of result.verdict ≡ model.verdict (network_model.model_of network.now) (plan_model.model_of network.now.places plan.now) }
    ensures bound { result.bound ≡ cuts_model.bound (network_model.model_of network.now) (plan_model.model_of network.now.places plan.now).cut }
{
    let given = NetworkPlan {
        network: network,
        plan: plan,
    };
    let fault = row_faults::rows_fault(given);
    let bound = cuts::bound(network, &plan.cut);
    match fault {
        Verdict::Passes => Judged {
            verdict: cut_fault(network, plan.amount, plan.horizon, &plan.cut, bound),
            bound: bound,
        },
        fault => Judged {
            verdict: fault,
            bound: bound,
        },
    }
}
