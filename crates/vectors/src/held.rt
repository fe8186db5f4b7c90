// What holds of the answers that document 01 leaves to the program: the cut for a most, and a plan's record.
use first_fault::Verdict;
use flows::Link;
use network::Network;
use planner::Written;

// What stands in the numbers lent for a cut, and in the octets lent for a plan, before the call.
pub const STALE: u32 = 9;

pub const STALE_OCTET: u8 = 9;

// A cut's number at a place; 0 past the list's end. `as`: usize has no From<u32>.
fn at(cut: &[u32], place: u32) -> u32 {
    cut.get(place as usize).copied().unwrap_or(0)
}

// What a link adds to a cut's bound: capacity × slack, where a slack below zero counts as 0. An oracle of its own, that shares no code with
// the library.
fn addend(cut: &[u32], link: &Link) -> u64 {
    let between = at(cut, link.end).saturating_sub(at(cut, link.start));
    let slack = between.saturating_sub(link.transit);
    u64::from(link.capacity) * u64::from(slack)
}

// The sum over all links, far below 2^64. No net.links(), which is the library's and asks for a count that fits. `as`: usize has no
// From<u32>.
fn bound(net: &Network, cut: &[u32]) -> u64 {
    let mut sum = 0u64;
    for link in net.links.iter().take(net.count as usize) {
        sum = sum.wrapping_add(addend(cut, link));
    }
    sum
}

// Up to the horizon at each place, and as before in each number past the last place. `as`: usize has no From<u32>.
pub fn within(cut: &[u32], places: u32, horizon: u64) -> bool {
    let (own, further) = cut.split_at(cut.len().min(places as usize));
    own.iter().all(|slot| u64::from(*slot) <= horizon) && further.iter().all(|x| *x == STALE)
}

// A cut for the horizon, whose bound equals the most, in the first numbers of the list; the further numbers are as before.
pub fn cut(octets: &[u8], horizon: u64, most: u64, cut: &[u32]) -> bool {
    let Ok(net) = network_reader::read(octets) else {
        return false;
    };
    at(cut, net.origin) == 0
        && u64::from(at(cut, net.destination)) == horizon
        && within(cut, net.places, horizon)
        && bound(&net, cut) == most
}

// The first n octets, or all where there are fewer.
pub fn front(s: &[u8], n: usize) -> &[u8] {
    &s[..n.min(s.len())]
}

// The first n of what may be lent, or all where there are fewer.
pub fn lent<T>(list: &mut [T], n: usize) -> &mut [T] {
    let count = n.min(list.len());
    &mut list[..count]
}

// The octets from n on are as before.
pub fn rest(buffer: &[u8], n: usize) -> bool {
    buffer.iter().skip(n).all(|octet| *octet == STALE_OCTET)
}

// The number at the front, and what stands behind it.
fn number(octets: &[u8]) -> Option<(u32, &[u8])> {
    let read = numbers::read_number(octets, 0).ok()?;
    Some((read.value, octets.get(read.next..)?))
}

// The amount and T of a plan's record, if it opens with the length of the network's record and that record. `as`: usize has
// no From<u32>.
fn asked(network: &[u8], plan: &[u8]) -> Option<(u32, u32)> {
    let (length, copy) = number(plan)?;
    if length as usize != network.len() {
        return None;
    }
    let (amount, behind) = number(copy.strip_prefix(network)?)?;
    let (horizon, _) = number(behind)?;
    Some((amount, horizon))
}

// The examiner passes the plan.
fn passes<'a>(octets: &'a [u8], plan: &'a [u8]) -> bool {
    match examiner::examine(octets, plan) {
        Ok(judged) => judged.verdict == Verdict::Passes,
        Err(_) => false,
    }
}

// The buffer's first octets, as many as the length, are a plan record that carries the network's, with the amount and T, and that the
// examiner passes; the further octets are as before.
pub fn plan<'a>(octets: &'a [u8], amount: u64, written: Written, buffer: &'a [u8]) -> bool {
    let plan = front(buffer, written.length);
    match asked(octets, plan) {
        Some((n, t)) => {
            u64::from(n) == amount
                && t == written.horizon
                && passes(octets, plan)
                && rest(buffer, written.length)
        }
        None => false,
    }
}
