// The tests of one row of a plan, and what rows show one after another.
#![tactic(auto)]

ghost use Rattle.std.specs.Prelude.{◌≡◌, ◌+◌, ◌*◌, ◌≤◌, ltb};
ghost use Rattle.limits.specs.Limits.{most_rows, longest_length, most_rate, latest_first, most_departures};
ghost use Rattle.flows.specs.Clock as clock_model;
ghost use Rattle.row_uses.specs.Given.{Lookable};
ghost use Rattle.row_tests.specs.Lent.{SeenBy};

use network::Network;
use plans::Row;

// What rows show: one is no chain from origin to destination, one is not as long as it says, one has not arrived with the horizon, and the
// blocks that they deliver.
#[derive(Clone, Copy)]
pub struct Seen {
    pub unchained: bool,
    pub mismeasured: bool,
    pub late: bool,
    pub total: u64,
}

// A row of this length has not arrived with the horizon.
fn comes_late(horizon: u32, first: u32, departures: u32, length: u32) -> bool
    requires { (first ≤ latest_first) × (departures ≤ most_departures) × (length ≤ longest_length) }
    ensures { result ≡ ltb (clock_model.counting horizon) (first + departures + length) }
{
    let slots = clock::counting(horizon);
    slots < first + departures + length
}

// What rows show, with one row more, by the links of a network. `as`: usize has no From<u32>.
pub fn with_row(network: &Network, horizon: u32, row: &Row, seen: Seen) -> Seen
    requires { Lookable network.now.links row.now × (seen.total ≤ most_rows * (most_rate * most_departures)) }
    ensures { SeenBy network.now.origin network.now.destination network.now.links horizon seen row.now result
        × (result.total ≤ seen.total + most_rate * most_departures) }
{
    let stray = row_chains::strays(network, row);
    let length = durations::duration(&network.links, &row.links[..row.count as usize]);
    let tardy = comes_late(horizon, row.first, row.departures, length);
    Seen {
        unchained: seen.unchained || stray,
        mismeasured: seen.mismeasured || row.length != length,
        late: seen.late || tardy,
        total: seen.total + row_blocks::blocks(row.rate, row.departures),
    }
}
