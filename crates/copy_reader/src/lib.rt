// The copy of the network's record that a plan's record opens with, read at a position.
#![tactic(auto)]

ghost use Rattle.std.specs.Prelude.{◌≡◌, length, drop};
ghost use Rattle.numbers.specs.Position.{field_answer};
ghost use Rattle.plans.specs.Carried.{read_copy};

use numbers::Part;
use refusals::Refusal;

// The copy of the network's record at a position: its length, and that many octets, which are compared with the record. The answer is that
// length, and the position after the copy. `as`: usize has no From<u32>.
pub fn read_copy(s: &[u8], start: usize, network: &[u8]) -> Result<Part<u32>, Refusal>
    ensures { result ≡ field_answer (length s.now) (read_copy network.now (drop start s.now)) }
{
    let n = plan_parts::read_number(s, start, 0, limits::MOST_NETWORK_OCTETS)?;
    let size = n.value as usize;
    if s.len() - n.next < size {
        return Err(Refusal::PlanEnds);
    }
    let next = n.next + size;
    if &s[n.next..next] != network {
        return Err(Refusal::AnotherNetwork);
    }
    Ok(Part {
        value: n.value,
        next,
    })
}
