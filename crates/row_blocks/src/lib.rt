// The blocks of a row of a plan.
#![tactic(auto)]

ghost use Rattle.std.specs.Prelude.{◌≡◌, ◌*◌, ◌≤◌};
ghost use Rattle.limits.specs.Limits.{most_rate, most_departures};

// The blocks that a row delivers.
pub fn blocks(rate: u32, departures: u32) -> u64
    requires { (rate ≤ most_rate) × (departures ≤ most_departures) }
    ensures { (result ≡ rate * departures) × (result ≤ most_rate * most_departures) }
{
    u64::from(rate) * u64::from(departures)
}
