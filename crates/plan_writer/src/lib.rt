// A plan's numbers, from the amount on, written row by row.
#![tactic(auto)]

ghost use Rattle.std.specs.Prelude.{◌≡◌, ◌+◌, length};
ghost use Rattle.numbers.specs.Leb128.{encode, over_at};
ghost use Rattle.numbers.specs.Writing.{Writable};
ghost use Rattle.plans.specs.Record.{record_of};
ghost use Rattle.plans.specs.Held.{model_of};
ghost use Rattle.plans.specs.WritablePlan.{WritablePlan};

use plans::Plan;

// Writes the cut's numbers, one for each place, from a position on. Beside `row_writer::write_chain`, which says why they are two.
fn write_cut(octets: &mut [u8], start: usize, cut: &[u32]) -> usize
    requires { Writable cut.now octets.old start }
    ensures { (result ≡ start + length (encode cut.now)) × (octets.new ≡ over_at start (encode cut.now) octets.old) }
{
    let mut at = start;
    for number in cut {
        at = number_writer::write_at(octets, at, *number);
    }
    at
}

// Writes a plan's numbers, from the amount on, from a position of a buffer on, for a network with this number of places; the answer is the
// position after them. Octets past them keep their content. `as`: usize has no From<u32>.
pub fn write(plan: &Plan, places: u32, buffer: &mut [u8], start: usize) -> usize
    requires { WritablePlan places plan.now buffer.old start }
    ensures { (result ≡ start + length (record_of (model_of places plan.now))) × (buffer.new ≡ over_at start (record_of (model_of places plan.now)) buffer.old) }
{
    let second = number_writer::write_at(buffer, start, plan.amount);
    let third = number_writer::write_at(buffer, second, plan.horizon);
    let fourth = write_cut(buffer, third, &plan.cut[..places as usize]);
    let mut at = number_writer::write_at(buffer, fourth, plan.count);
    for row in &plan.rows[..plan.count as usize] {
        at = row_writer::write_row_at(buffer, at, row);
    }
    at
}
