// A network with other capacities or other transits, from a lent list.
#![tactic(auto)]

ghost use Rattle.std.specs.Prelude.{◌≡◌, ◌≤◌, length};
ghost use Rattle.limits.specs.Limits.{most_links};
ghost use Rattle.network.specs.Held.{model_of};
ghost use Rattle.network_columns.specs.Columns.{with_capacities, with_transits};

use network::Network;

// The network with these capacities: link e has the e-th number of the list, and keeps its start, end and transit. `as`: usize has no
// From<u32>.
pub fn with_capacities(network: Network, numbers: &[u32]) -> Network
    requires { (network.count ≤ most_links) × (network.count ≤ length numbers.now) }
    ensures { model_of result ≡ with_capacities (model_of network) numbers.now }
{
    let mut changed = network;
    for i in 0..network.count as usize {
        changed.links[i].capacity = numbers[i];
    }
    changed
}

// Beside the one above, since a field of a struct is no parameter: what they share is the loop's one line.
// The network with these transits: link e has the e-th number of the list, and keeps its start, end and capacity. `as`: usize has no
// From<u32>.
pub fn with_transits(network: Network, numbers: &[u32]) -> Network
    requires { (network.count ≤ most_links) × (network.count ≤ length numbers.now) }
    ensures { model_of result ≡ with_transits (model_of network) numbers.now }
{
    let mut changed = network;
    for i in 0..network.count as usize {
        changed.links[i].transit = numbers[i];
    }
    changed
}
