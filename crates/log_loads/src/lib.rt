// The capacity test of a log: does any link take more than its capacity in any slot, its entries added up.
#![tactic(auto)]

ghost use Rattle.std.specs.Prelude.{◌≡◌, cond, replicate, eqb};
ghost use Rattle.limits.specs.Limits.{most_links};
ghost use Rattle.network.specs.Held.{model_of};
ghost use Rattle.logs.specs.Finding as model;

use logs::NetworkLog;

// What each link has taken in a slot: what it had taken in the slot looked at before, if it is the same slot, else nothing yet.
fn take_up(taken: &mut [u32; 256], before: u32, slot: u32)
    ensures { taken.new ≡ cond (eqb before slot) taken.old (replicate most_links 0) }
{
    if before != slot {
        *taken = [0; 256];
    }
}

// Some link took more than its capacity in some slot. Entries stand in the order of their slots, so one pass with what each link has
// taken in the entry's slot is enough. `as`: usize has no From<u32>.
pub fn overfull(log: NetworkLog) -> bool
    ensures { result ≡ model.overfull (model_of log.entry.network.now) log.entry.entries.now }
{
    let NetworkLog { network, entries } = log;
    let mut taken = [0; 256];
    let mut slot = 0;
    for entry in entries {
        take_up(&mut taken, slot, entry.slot);
        let link = entry.link as usize;
        taken[link] += entry.blocks;
        if network.links[link].capacity < taken[link] {
            return true;
        }
        slot = entry.slot;
    }
    false
}
