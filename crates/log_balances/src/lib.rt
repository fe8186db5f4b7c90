// What places send and what reaches them, by a log: does any place but the origin send more by some slot than has reached it by then.
#![tactic(auto)]

ghost use Rattle.std.specs.Prelude.{◌≡◌, ℕ, ◌≤◌, ◌<◌, length};
ghost use Rattle.flows.specs.Sums.{only};
ghost use Rattle.network.specs.Held.{model_of};
ghost use Rattle.logs.specs.Columns.{nth};
ghost use Rattle.logs.specs.Finding as model;
ghost use Rattle.log_balances.specs.Balances.{Numbered, due_at, sends_more, place_fails};

use logs::NetworkLog;

// x at the place v, else nothing. Beside soundness's `at`, which is over u64: as one generic it would ask each type for its zero.
fn only_at(a: u32, v: u32, x: u32) -> u32
    ensures { result ≡ only a v x }
{
    if a == v { x } else { 0 }
}

// For each entry the blocks that arrive at the place v in its slot, or since the slot of the entry before it.
// An array for the most entries, since nothing allocates. `as`: usize has no From<u32>.
fn due(v: u32, log: NetworkLog, firsts: &[u32; 4096]) -> [u32; 4097]
    requires { Numbered log.entries.now firsts.now }
    ensures { (x : ℕ) → x ≤ length log.entry.entries.now → nth result x ≡ due_at v log.entry.network.now log.entry.entries.now firsts.now x }
{
    let NetworkLog { network, entries } = log;
    let mut due = [0; 4097];
    for (i, entry) in entries.iter().enumerate() {
        due[firsts[i] as usize] += only_at(network.links[entry.link as usize].end, v, entry.blocks);
    }
    due
}

// By some entry's slot the place v has sent more than had reached it, if this much is due at each.
// `as`: usize has no From<u32>.
fn sends_more(v: u32, log: NetworkLog, due: &[u32; 4097]) -> bool
    ensures { result ≡ sends_more v log.entry.network.now log.entry.entries.now (nth due.now) }
{
    let NetworkLog { network, entries } = log;
    let mut arrived: u64 = 0;
    let mut left: u64 = 0;
    for (i, entry) in entries.iter().enumerate() {
        arrived += u64::from(due[i]);
        left += u64::from(only_at(network.links[entry.link as usize].start, v, entry.blocks));
        if arrived < left {
            return true;
        }
    }
    false
}

// The place v is another than the origin and has sent more by some entry's slot than had reached it.
fn place_fails(log: NetworkLog, firsts: &[u32; 4096], v: u32) -> bool
    requires { Numbered log.entries.now firsts.now }
    ensures { result ≡ place_fails v log.entry.network.now log.entry.entries.now firsts.now }
{
    if v == log.network.origin {
        return false;
    }
    let due = due(v, log, firsts);
    sends_more(v, log, &due)
}

// Some place but the origin sent more by some slot than had reached it by then. Between two entries' slots nothing is sent, so each place is
// tested at the entries alone.
pub fn oversent(log: NetworkLog) -> bool
    ensures { result ≡ model.oversent (model_of log.entry.network.now) log.entry.entries.now }
{
    let firsts = log_arrivals::firsts(log.entries, &log.network.links);
    for v in 0..log.network.places {
        if place_fails(log, &firsts, v) {
            return true;
        }
    }
    false
}
