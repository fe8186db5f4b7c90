// The cut of a plan's record, read at a position.
#![tactic(auto)]

ghost use Rattle.std.specs.Prelude.{◌≡◌, [], ◌≤◌, length, drop};
ghost use Rattle.limits.specs.Limits.{most_places, most_cut_number};
ghost use Rattle.plans.specs.Record.{read_numbers};
ghost use Rattle.plan_parts.specs.Cursor.{cut_answer};

use numbers::Part;
use refusals::Refusal;

// The cut at a position: one number for each place. Beside `row_reader::read_chain`, not one with it: 64 u32 and 63 octets, so one function
// would take a closure that narrows a number, and a clause on it, which is no plainer. Their laws are one (`plan_parts/proofs/Cursor`).
// The number of places is a network's, just read: in a type of its own it would be unwrapped at each use. `as`: usize has no From<u32>.
pub fn read_cut(s: &[u8], start: usize, places: u32) -> Result<Part<[u32; 64]>, Refusal>
    requires { (start ≤ length s.now) × (places ≤ most_places) }
    ensures { result ≡ cut_answer (length s.now) (read_numbers places 0 most_cut_number (drop start s.now) []) }
{
    let mut cut = [0u32; 64];
    let mut at = start;
    for i in 0..places as usize {
        let n = plan_parts::read_number(s, at, 0, limits::MOST_CUT_NUMBER)?;
        cut[i] = n.value;
        at = n.next;
    }
    Ok(Part {
        value: cut,
        next: at,
    })
}
