// The tests of a plan's rows, all together: the first that finds a fault decides.
#![tactic(auto)]

ghost use Rattle.std.specs.Prelude.{◌≡◌, [], ◌*◌, ◌≤◌};
ghost use Rattle.limits.specs.Limits.{most_rows, most_row_links};
ghost use Rattle.flows.specs.Rows as rows_model;
ghost use Rattle.network.specs.Held as network_model;
ghost use Rattle.plans.specs.Held as plan_model;
ghost use Rattle.row_uses.specs.Given.{Given};
ghost use Rattle.row_uses.specs.Files.{columns_of};
ghost use Rattle.row_uses.specs.Uses.{Filed};
ghost use Rattle.row_tests.specs.Seen.{seen_of};
ghost use Rattle.first_fault.specs.Faults.{rows_fault};
ghost use Rattle.first_fault.specs.Verdicts.{number_of};

use first_fault::Verdict;
use network::Network;
use plans::Plan;
use row_tests::Seen;
use row_uses::UseFile;

// A plan of up to as many rows is tested in small arrays. A row has up to 63 uses.
const FEW_ROWS: usize = 8;

const FEW_USES: usize = 504;

const ALL_ROWS: usize = 257;

const ALL_USES: usize = 16191;

// A network and a plan for it within the limits, both lent: what the tests of a plan look at.
#[derive(Clone, Copy)]
pub struct NetworkPlan<'a> {
    pub network: &'a Network,
    pub plan: &'a Plan,
    pub ghost given: { Given network.now plan.now },
}

// Looks at each row and files its uses. `as`: usize has no From<u32>.
fn look<const ROWS: usize, const USES: usize>(
    given: NetworkPlan,
    file: &mut UseFile<ROWS, USES>,
) -> Seen
    requires few { given.plan.now.count ≤ ROWS }
    requires filed { Filed (columns_of file.old) file.old.head 0 [] }
    ensures { let N = network_model.model_of given.entry.network.now in
        let rows = (plan_model.model_of given.entry.network.now.places given.entry.plan.now).rows in
        (result ≡ seen_of N given.entry.plan.now.horizon rows)
        × Filed (columns_of file.new) file.new.head (most_row_links * given.entry.plan.now.count) (rows_model.all_uses N rows) }
{
    let NetworkPlan { network, plan } = given;
    let mut seen = Seen {
        unchained: false,
        mismeasured: false,
        late: false,
        total: 0,
    };
    for (i, row) in plan.rows[..plan.count as usize].iter().enumerate() {
        row_filing::file_row_in(&network.links, row, i, file);
        seen = row_tests::with_row(network, plan.horizon, row, seen);
    }
    seen
}

// As `rows_fault`, in arrays that have room for so many rows.
fn fault_in<const ROWS: usize, const USES: usize>(given: NetworkPlan) -> Verdict
    requires few { given.plan.now.count ≤ ROWS }
    requires room { (ROWS ≤ most_rows) × (USES ≡ most_row_links * ROWS) }
    ensures { number_of result
        ≡ rows_fault (network_model.model_of given.entry.network.now) (plan_model.model_of given.entry.network.now.places given.entry.plan.now) }
{
    let mut file = UseFile::<ROWS, USES>::new();
    let seen = look(given, &mut file);
    first_fault::decide(given.network, given.plan.amount, seen, file.uses())
}

// The first of the rows' faults, as `first_fault::decide` tells them. Few rows do not pay for the room that many need.
// `as`: usize has no From<u32>.
pub fn rows_fault(given: NetworkPlan) -> Verdict
    ensures { number_of result
        ≡ rows_fault (network_model.model_of given.entry.network.now) (plan_model.model_of given.entry.network.now.places given.entry.plan.now) }
{
    if given.plan.count as usize <= FEW_ROWS {
        return fault_in::<FEW_ROWS, FEW_USES>(given);
    }
    fault_in::<ALL_ROWS, ALL_USES>(given)
}
