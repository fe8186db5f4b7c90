// The test of a row's links: are they a chain from the origin to the destination?
#![tactic(auto)]

ghost use Rattle.std.specs.Prelude.{ℕ, ◌<◌, get_or};
ghost use Rattle.limits.specs.Limits.{most_links};
ghost use Rattle.row_uses.specs.Given.{Stands};
ghost use Rattle.row_chains.specs.Chains.{LeadsBy, StraysBy};

use network::Network;
use plans::Row;

// A row's links lead from the origin to the destination. `as`: usize has no From<u32>.
fn leads(network: &Network, row: &Row) -> bool
    requires { Stands row.now × ((j : ℕ) → j < row.now.count → get_or row.now.links j 0 < most_links) }
    ensures { LeadsBy network.now.origin network.now.destination network.now.links row.now result }
{
    let mut at = network.origin;
    for number in &row.links[..row.count as usize] {
        let link = &network.links[usize::from(*number)];
        if link.start != at {
            return false;
        }
        at = link.end;
    }
    at == network.destination
}

// A row is no chain from origin to destination.
pub fn strays(network: &Network, row: &Row) -> bool
    requires { Stands row.now × ((j : ℕ) → j < row.now.count → get_or row.now.links j 0 < most_links) }
    ensures { StraysBy network.now.origin network.now.destination network.now.links row.now result }
{
    !leads(network, row)
}
