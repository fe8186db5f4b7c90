// How long a block takes over links one after another: the length of a row, and of a route.
#![tactic(auto)]

ghost use Rattle.std.specs.Prelude.{◌≡◌, ◌≤◌, length};
ghost use Rattle.limits.specs.Limits.{longest_length};
ghost use Rattle.durations.specs.Lasting.{lasting, Timed};

use flows::Link;

// The sum of the transits of these links of a table.
pub fn duration(table: &[Link; 256], links: &[u8]) -> u32
    requires { Timed table.now links.now (length links.now) }
    ensures { (result ≡ lasting table.now links.now) × (result ≤ longest_length) }
{
    let mut length = 0;
    for link in links {
        let e = usize::from(*link);
        length += table[e].transit;
    }
    length
}
