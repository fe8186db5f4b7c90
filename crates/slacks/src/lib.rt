// The slack of a link under the numbers of a cut, what counts of it, and what the link adds to the bound.
#![tactic(auto)]

ghost use Rattle.std.specs.Prelude.{◌≡◌, ◌≤◌};
ghost use Rattle.limits.specs.Limits.{most_capacity};
ghost use Rattle.flows.specs.Cut as model;
ghost use Rattle.slacks.specs.Addend.{IsAddend};

use flows::Link;

// The number at a link's end less the number at its start less its transit; it may be below zero.
fn slack(end: u32, start: u32, transit: u32) -> i64
    ensures { result ≡ model.slack_of end start transit }
{
    i64::from(end) - i64::from(start) - i64::from(transit)
}

// What counts of a slack: below zero it counts as 0.
fn counted(s: i64) -> u64
    ensures { result ≡ model.counted s }
{
    u64::try_from(s).unwrap_or(0)
}

// What a link adds to a bound, by the numbers at its end and at its start.
pub fn addend(end: u32, start: u32, link: &Link) -> u64
    requires { link.now.capacity ≤ most_capacity }
    ensures { IsAddend end start link.now.capacity link.now.transit result }
{
    u64::from(link.capacity) * counted(slack(end, start, link.transit))
}
