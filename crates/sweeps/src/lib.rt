// A sweep over the listed uses of one link in the order of their slots.
#![tactic(auto)]

ghost use Rattle.std.specs.Prelude.{◌≡◌, ◌*◌, ◌/◌, ◌≤◌, ◌<◌, length};
ghost use Rattle.limits.specs.Limits.{most_row_links};
ghost use Rattle.row_uses.specs.Uses.{most_uses};
ghost use Rattle.sort_keys.specs.Keys.{key_in};
ghost use Rattle.sorting.specs.Sorted.{Numbers, Sorted};
ghost use Rattle.sweeps.specs.Sweeps.{rate_of, Ending, EndedAt, TellsOver};

use sort_keys::{Keys, row_of};

// The uses passed in the order of their ends, and the sum of their rates.
#[derive(Clone, Copy)]
struct Ended {
    passed: usize,
    rates: u64,
}

// The rate of a use.
fn rate_of(number: u16, rates: &[u32]) -> u64
    requires { number / most_row_links < length rates.now }
    ensures { (result ≡ rate_of rates.now number) × (result < 4294967296) }
{
    u64::from(rates[row_of(usize::from(number))])
}

// The uses that have ended by a slot, from those on that had ended before.
fn ended_by(slot: u32, ends: &[u16], stops: Keys, rates: &[u32], before: Ended) -> Ended
    requires rated { length stops.lags.now ≤ most_row_links * length rates.now }
    requires ends_are_uses { (length ends.now ≤ most_uses) × Numbers ends.now (length ends.now) (length stops.lags.now) }
    requires ending { Ending (key_in stops.terms.now stops.lags.now) rates.now ends.now (length ends.now) slot before }
    ensures { EndedAt (key_in stops.entry.terms.now stops.entry.lags.now) rates.now ends.now (length ends.now) slot result }
{
    let mut sum = before.rates;
    for passed in before.passed..ends.len() {
        let number = ends[passed];
        if slot < stops.of(number) {
            return Ended {
                passed: passed,
                rates: sum,
            };
        }
        sum += rate_of(number, rates);
    }
    Ended {
        passed: ends.len(),
        rates: sum,
    }
}

// Some use begins in a slot in which more than the capacity enters the link: what has begun, less what has ended. In a slot in which several uses begin
// the last of them decides; the sums before it are smaller. `starts` are the uses in the order in which they begin, `ends` in that in which they stop.
pub fn sweep(
    capacity: u32,
    starts: &[u16],
    ends: &[u16],
    begins: Keys,
    stops: Keys,
    rates: &[u32],
) -> bool
    requires rated { (stops.lags.now ≡ begins.lags.now) × (length begins.lags.now ≤ most_row_links * length rates.now) }
    requires starts_are_uses { (length starts.now ≤ most_uses) × Numbers starts.now (length starts.now) (length begins.lags.now) }
    requires as_many_ends { (length ends.now ≡ length starts.now) × Numbers ends.now (length ends.now) (length begins.lags.now) }
    requires sorted { Sorted (key_in begins.terms.now begins.lags.now) starts.now (length starts.now)
        × Sorted (key_in stops.terms.now begins.lags.now) ends.now (length starts.now) }
    ensures { TellsOver capacity (length starts.now) starts.now ends.now begins.entry.lags.now
        begins.entry.terms.now stops.entry.terms.now rates.now result }
{
    let mut begun: u64 = 0;
    let mut ended = Ended {
        passed: 0,
        rates: 0,
    };
    for number in starts {
        let slot = begins.of(*number);
        begun += rate_of(*number, rates);
        ended = ended_by(slot, ends, stops, rates, ended);
        if u64::from(capacity) + ended.rates < begun {
            return true;
        }
    }
    false
}
