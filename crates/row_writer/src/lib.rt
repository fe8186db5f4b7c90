// A row of a plan, written at a position of a buffer.
#![tactic(auto)]

ghost use Rattle.std.specs.Prelude.{◌≡◌, ◌+◌, ◌≤◌, length};
ghost use Rattle.limits.specs.Limits.{most_row_links};
ghost use Rattle.numbers.specs.Leb128.{encode, over, over_at};
ghost use Rattle.numbers.specs.Writing.{Writable};
ghost use Rattle.plans.specs.Record.{row_numbers};
ghost use Rattle.plans.specs.Held.{row_of};

use plans::Row;

// Writes a row's link numbers from a position on. Beside `plan_writer::write_cut`, not one with it: one loop over octets, one over u32. A trait
// of what is written, as `lines::Number` is of what is printed, is longer than the loop that it saves.
fn write_chain(octets: &mut [u8], start: usize, links: &[u8]) -> usize
    requires { Writable links.now octets.old start }
    ensures { (result ≡ start + length (encode links.now)) × (octets.new ≡ over_at start (encode links.now) octets.old) }
{
    let mut at = start;
    for link in links {
        at = number_writer::write_at(octets, at, u32::from(*link));
    }
    at
}

// Writes a row to the front of a lent part; the answer is how many octets it has. `as`: usize has no From<u32>.
fn write_row(part: &mut [u8], row: &Row) -> usize
    requires { (row.now.count ≤ most_row_links) × Writable (row_numbers (row_of row.now)) part.old 0 }
    ensures { (result ≡ length (encode (row_numbers (row_of row.now)))) × (part.new ≡ over (encode (row_numbers (row_of row.now))) part.old) }
{
    let chain = number_writer::write_at(part, 0, row.count);
    let length = write_chain(part, chain, &row.links[..row.count as usize]);
    let rate = number_writer::write_at(part, length, row.length);
    let first = number_writer::write_at(part, rate, row.rate);
    let departures = number_writer::write_at(part, first, row.first);
    number_writer::write_at(part, departures, row.departures)
}

// Writes a row to the part of a buffer that starts at a position; the answer is the position after it.
pub fn write_row_at(buffer: &mut [u8], at: usize, row: &Row) -> usize
    requires { (row.now.count ≤ most_row_links) × Writable (row_numbers (row_of row.now)) buffer.old at }
    ensures { (result ≡ at + length (encode (row_numbers (row_of row.now)))) × (buffer.new ≡ over_at at (encode (row_numbers (row_of row.now))) buffer.old) }
{
    at + write_row(&mut buffer[at..], row)
}
