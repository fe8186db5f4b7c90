// The load that all rows of a plan together put on each link, tested against the capacities.
#![tactic(auto)]

ghost use Rattle.std.specs.Prelude.{◌≡◌, ◌≤◌, ◌<◌, length};
ghost use Rattle.limits.specs.Limits.{most_links};
ghost use Rattle.network.specs.Held as network_model;
ghost use Rattle.row_uses.specs.Files.{lent_of};
ghost use Rattle.row_uses.specs.Uses.{most_uses, uses_room, over_on, TellsOverload};
ghost use Rattle.use_lists.specs.Lists.{Falling};
ghost use Rattle.sweeps.specs.Sweeps.{LastsOf};
ghost use Rattle.loads.specs.Passed.{NoneBelow};

use network::Network;
use row_uses::{FiledUses, Uses};
use sort_keys::Keys;

// Up to so many uses of a link, each of them against all costs less than sorting them.
const FEW_USES: u32 = 16;

// Whether the chain that begins at `start` is so long that sorting it pays.
fn long(start: usize, prev: &[u16]) -> bool
    requires { (start ≤ length prev.now) × Falling prev.now }
{
    let mut k = start;
    for _ in 0..FEW_USES {
        if k == 0 {
            return false;
        }
        k = usize::from(prev[k - 1]);
    }
    0 < k
}

// The slot after each row's last departure. An array for the most rows, since nothing allocates; zeros behind.
fn lasts_of(uses: Uses) -> [u32; 257]
    ensures { LastsOf uses.entry.firsts.now uses.entry.departures.now result }
{
    let mut lasts = [0; 257];
    for i in 0..uses.firsts.len() {
        lasts[i] = uses.firsts[i] + uses.departures[i];
    }
    lasts
}

// As `link_loads::link_over`, by a sweep over the link's uses in the order of their slots; a chain longer than the room, which rows that are chains
// don't have, is tested use by use.
fn swept_over(
    capacity: u32,
    start: usize,
    uses: Uses,
    stops: Keys,
    starts: &mut [u16],
    ends: &mut [u16],
) -> bool
    requires start_in_room { start ≤ uses_room uses.firsts.now }
    requires lasts_of { LastsOf uses.firsts.now uses.departures.now stops.terms.now × (stops.lags.now ≡ uses.lags.now) }
    requires room_for_both { (length starts.old ≤ most_uses) × (length starts.old ≤ length ends.old) }
    ensures { result ≡ over_on (lent_of uses.entry) capacity start }
{
    let Some(count) = use_lists::list_chain(start, uses.prev, starts) else {
        return link_loads::link_over(capacity, start, uses);
    };
    let begins = Keys {
        terms: uses.firsts,
        lags: uses.lags,
    };
    let starts = &mut starts[..count];
    let ends = &mut ends[..count];
    sorting::sort(starts, begins);
    use_lists::copy(starts, ends);
    sorting::sort(ends, stops);
    sweeps::sweep(capacity, starts, ends, begins, stops, uses.rates)
}

// As `overloaded`, where no link below `from` takes in more than its capacity, by sweeps. There is room for the uses of one link. Rows that are chains use
// a link at most 257 * 32 times: no link ends where it starts. By index: under `enumerate().skip(from)` the proof's state is an
// iterator, and not the link's number. `as`: usize has no From<u32>.
fn swept_from(network: &Network, from: usize, filed: FiledUses) -> bool
    requires links_few { network.now.count ≤ most_links }
    requires none_below { NoneBelow (lent_of filed.uses) network.now.links filed.head.now from }
    ensures { TellsOverload (network_model.model_of network.now) (lent_of filed.entry.uses) filed.entry.head.now result }
{
    let lasts = lasts_of(filed.uses);
    let stops = Keys {
        terms: &lasts,
        lags: filed.uses.lags,
    };
    let mut starts = [0; 8224];
    let mut ends = [0; 8224];
    for e in from..network.count as usize {
        let start = usize::from(filed.head[e]);
        let capacity = network.links[e].capacity;
        if swept_over(capacity, start, filed.uses, stops, &mut starts, &mut ends) {
            return true;
        }
    }
    false
}

// Some link takes in more than its capacity in some slot, all rows together that are filed. From the first link on that has many uses, the uses of links
// are sorted.
pub fn overloaded(network: &Network, filed: FiledUses) -> bool
    requires { network.now.count ≤ most_links }
    ensures { TellsOverload (network_model.model_of network.now) (lent_of filed.entry.uses) filed.entry.head.now result }
{
    for (e, link) in network.links().iter().enumerate() {
        let start = usize::from(filed.head[e]);
        if long(start, filed.uses.prev) {
            return swept_from(network, e, filed);
        }
        if link_loads::link_over(link.capacity, start, filed.uses) {
            return true;
        }
    }
    false
}
