// The load on one link, tested use by use.
#![tactic(auto)]

ghost use Rattle.std.specs.Prelude.{◌≡◌, cond, ◌≤◌, ◌<◌, leb};
ghost use Rattle.row_uses.specs.Files.{lent_of};
ghost use Rattle.row_uses.specs.Uses.{uses_room, load_on, over_on};

use row_uses::Uses;
use sort_keys::Keys;

// The rate from the slot `begin` on, before it nothing.
fn since(begin: u32, rate: u32, slot: u32) -> u64
    ensures { (result ≡ cond (leb begin slot) rate 0) × (result < 4294967296) }
{
    if slot < begin {
        return 0;
    }
    u64::from(rate)
}

// What enters in a slot the link whose chain begins at `start`: the rates of the uses that have begun, less those of the uses that have
// ended. Two sums and no branch on what is added: which uses are under way is nothing that a processor could guess. Not by
// `Keys::of`: that the end fits u32 needs a lag to be a u16, which its promise does not say.
fn load_at(start: usize, slot: u32, uses: Uses) -> u64
    requires { start ≤ uses_room uses.firsts.now }
    ensures { result ≡ load_on (lent_of uses.entry) start slot }
{
    let mut begun: u64 = 0;
    let mut ended: u64 = 0;
    let mut k = start;
    while 0 < k {
        let at = k - 1;
        let i = sort_keys::row_of(at);
        let entry = uses.firsts[i] + u32::from(uses.lags[at]);
        let rate = uses.rates[i];
        begun += since(entry, rate, slot);
        ended += since(entry + uses.departures[i], rate, slot);
        k = usize::from(uses.prev[at]);
    }
    begun - ended
}

// Some use of the link whose chain begins at `start` begins in a slot in which more than the capacity enters the link. `as`: a
// number fits, it is below 16,191.
pub fn link_over(capacity: u32, start: usize, uses: Uses) -> bool
    requires { start ≤ uses_room uses.firsts.now }
    ensures { result ≡ over_on (lent_of uses.entry) capacity start }
{
    let begins = Keys {
        terms: uses.firsts,
        lags: uses.lags,
    };
    let mut k = start;
    while 0 < k {
        let at = k - 1;
        let slot = begins.of(at as u16);
        let load = load_at(start, slot, uses);
        if u64::from(capacity) < load {
            return true;
        }
        k = usize::from(uses.prev[at]);
    }
    false
}
