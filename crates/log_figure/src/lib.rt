// The figure of a log: arrivals less departures at the archive up to the last slot logged.
#![tactic(auto)]

ghost use Rattle.std.specs.Prelude.{◌≡◌, suc};
ghost use Rattle.flows.specs.Sums.{only};
ghost use Rattle.flows.specs.Flow as flow_model;
ghost use Rattle.network.specs.Held.{model_of};
ghost use Rattle.logs.specs.Log.{logged, last_slot};
ghost use Rattle.logs.specs.Columns.{earlier};

use logs::{Entry, NetworkLog};

// The slot of the last entry, whatever its blocks; 0 where there is none.
fn last_slot(entries: &[Entry]) -> u32
    ensures { result ≡ last_slot entries.now }
{
    match entries.last() {
        Some(entry) => entry.slot,
        None => 0,
    }
}

// Blocks at the place v in a slot before slot k, else nothing.
fn counted(at: u32, v: u32, slot: u32, k: u32, blocks: u32) -> u32
    ensures { result ≡ only at v (earlier slot k blocks) }
{
    if at == v && slot < k { blocks } else { 0 }
}

// Arrivals less departures at the archive up to and with the last slot logged; 0 where more has left it than arrived.
// `as`: usize has no From<u32>.
pub fn delivered(log: NetworkLog) -> u32
    ensures { result ≡ flow_model.delivered (model_of log.entry.network.now) (suc (last_slot log.entry.entries.now)) (logged log.entry.entries.now) }
{
    let NetworkLog { network, entries } = log;
    let k = clock::counting(last_slot(entries) + 1);
    let v = network.destination;
    let mut arrived: u32 = 0;
    let mut left: u32 = 0;
    for entry in entries {
        let link = &network.links[entry.link as usize];
        arrived += counted(link.end, v, entry.slot + link.transit, k, entry.blocks);
        left += counted(link.start, v, entry.slot, k, entry.blocks);
    }
    arrived.saturating_sub(left)
}
