// When the blocks of a log's entries have arrived: for each entry the first entry by whose slot they have.
#![tactic(auto)]

ghost use Rattle.log_arrivals.specs.Arrivals.{Ordered, From, Sized, Firsts};

use flows::Link;
use logs::Entry;

// The number of the first entry in a slot from this one on, or the number of entries.
fn first_from(entries: &[Entry], slot: u32) -> usize
    requires { Ordered entries.now }
    ensures { From entries.now slot result }
{
    entries.partition_point(|entry| entry.slot < slot)
}

// For each entry the number of the first entry by whose slot its blocks have arrived, or the number of entries.
// An array for the most entries, since nothing allocates. `as`: usize has no From<u32>; u32 fits: at most 4,096.
pub fn firsts(entries: &[Entry], links: &[Link; 256]) -> [u32; 4096]
    requires { Sized entries.now links.now }
    ensures { Firsts entries.now links.now result }
{
    let mut first = [0; 4096];
    for (i, entry) in entries.iter().enumerate() {
        let arrival = entry.slot + links[entry.link as usize].transit;
        first[i] = first_from(entries, arrival) as u32;
    }
    first
}
