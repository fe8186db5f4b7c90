// The first fault of a plan's rows, by what they showed and by the load that they put on links.
#![tactic(auto)]

ghost use Rattle.std.specs.Prelude.{◌≡◌, ◌≤◌};
ghost use Rattle.limits.specs.Limits.{most_links};
ghost use Rattle.network.specs.Held as network_model;
ghost use Rattle.row_uses.specs.Files.{lent_of};
ghost use Rattle.first_fault.specs.Faults.{TellsFault};
ghost use Rattle.first_fault.specs.Verdicts.{number_of};

use network::Network;
use row_tests::Seen;
use row_uses::FiledUses;

// The verdict on a plan: it passes, or the first of its faults. A row is no chain from origin to destination, some link takes in more than its capacity
// in some slot, a row has not arrived with the horizon, the rows' rate × departures don't sum to the amount, the cut's numbers are no cut for the
// horizon less one slot, its bound is not below the amount, a row is not as long as it says. Passes is a verdict like the others, C's 0, and stands in `Judged`: a
// Result would only be turned into one.
#[derive(Clone, Copy, Debug, PartialEq, Eq)]
pub enum Verdict {
    Passes,
    Unchained,
    Overloaded,
    Late,
    Missummed,
    Miscut,
    Unproven,
    Mismeasured,
}

impl Verdict {
    // The number by which a verdict is told.
    pub fn number(self) -> u32
        ensures { result ≡ number_of self }
    {
        match self {
            Verdict::Passes => 0,
            Verdict::Unchained => 1,
            Verdict::Overloaded => 2,
            Verdict::Late => 3,
            Verdict::Missummed => 4,
            Verdict::Miscut => 5,
            Verdict::Unproven => 6,
            Verdict::Mismeasured => 7,
        }
    }
}

// The first of the rows' faults. `seen` is what the rows show, and `filed` are their uses.
pub fn decide(network: &Network, amount: u32, seen: Seen, filed: FiledUses) -> Verdict
    requires { network.now.count ≤ most_links }
    ensures { TellsFault (network_model.model_of network.now) amount seen (lent_of filed.entry.uses) filed.entry.head.now (number_of result) }
{
    let missummed = seen.total != u64::from(amount);
    if seen.unchained {
        return Verdict::Unchained;
    }
    if seen.mismeasured {
        return Verdict::Mismeasured;
    }
    if loads::overloaded(network, filed) {
        return Verdict::Overloaded;
    }
    if seen.late {
        return Verdict::Late;
    }
    if missummed {
        return Verdict::Missummed;
    }
    Verdict::Passes
}
