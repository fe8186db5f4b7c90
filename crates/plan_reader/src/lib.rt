// A plan, read from its record part by part.
#![tactic(auto)]

ghost use Rattle.std.specs.Prelude.{◌≡◌, [], ◌≤◌, length, drop};
ghost use Rattle.limits.specs.Limits.{most_places, most_links, most_rows, most_cut_number};
ghost use Rattle.numbers.specs.Position.{field_answer};
ghost use Rattle.plans.specs.Record.{number, read_numbers, read_row, read_rows};
ghost use Rattle.plans.specs.Carried.{read_copy, read_carrying};
ghost use Rattle.plans.specs.Held.{held_rows, read_answer};
ghost use Rattle.plan_parts.specs.Cursor.{cut_answer, row_answer};
ghost use Rattle.plan_reader.specs.Rows.{part_told, rows_told, rows_answer};

use plans::{Plan, Row};
use refusals::Refusal;

// A plan's record and a position in it: what is read next is read from the octets that remain there.
#[derive(Drop)]
struct PlanReader<'a> {
    octets: &'a [u8],
    at: usize,
}

// These are thin: they leave the numbers of a part to a function of `plan_parts`, `copy_reader`, `cut_reader` or `row_reader`, which takes the
// slice and the position, and move on to the position after the part. A refusal leaves the reader where it is.
impl<'a> PlanReader<'a> {
    // A reader at the first octet of a record.
    fn new(octets: &'a [u8]) -> PlanReader<'a>
        ensures { result ≡ record { octets = octets.entry; at = 0 } }
    {
        PlanReader { octets, at: 0 }
    }

    // The copy of the network's record: its length.
    fn next_copy(&mut self, network: &[u8]) -> Result<u32, Refusal>
        ensures told { part_told result self.new.at ≡ field_answer (length self.old.octets.now) (read_copy network.now (drop self.old.at self.old.octets.now)) }
        ensures octets { self.new.octets ≡ self.old.octets }
    {
        let copy = copy_reader::read_copy(self.octets, self.at, network)?;
        self.at = copy.next;
        Ok(copy.value)
    }

    // The next number, from low to high.
    fn next_number(&mut self, low: u32, high: u32) -> Result<u32, Refusal>
        ensures told { part_told result self.new.at ≡ field_answer (length self.old.octets.now) (number low high (drop self.old.at self.old.octets.now)) }
        ensures octets { self.new.octets ≡ self.old.octets }
    {
        let number = plan_parts::read_number(self.octets, self.at, low, high)?;
        self.at = number.next;
        Ok(number.value)
    }

    // The cut, one number for each place.
    fn next_cut(&mut self, places: u32) -> Result<[u32; 64], Refusal>
        requires { (self.old.at ≤ length self.old.octets.now) × (places ≤ most_places) }
        ensures told { part_told result self.new.at ≡ cut_answer (length self.old.octets.now) (read_numbers places 0 most_cut_number (drop self.old.at self.old.octets.now) []) }
        ensures octets { self.new.octets ≡ self.old.octets }
    {
        let cut = cut_reader::read_cut(self.octets, self.at, places)?;
        self.at = cut.next;
        Ok(cut.value)
    }

    // The next row.
    fn next_row(&mut self, links: u32) -> Result<Row, Refusal>
        requires { (self.old.at ≤ length self.old.octets.now) × (1 ≤ links) × (links ≤ most_links) }
        ensures told { part_told result self.new.at ≡ row_answer (length self.old.octets.now) (read_row links (drop self.old.at self.old.octets.now)) }
        ensures octets { self.new.octets ≡ self.old.octets }
    {
        let row = row_reader::read_row(self.octets, self.at, links)?;
        self.at = row.next;
        Ok(row.value)
    }

    // Rows, as many as count, one after another from the octets that remain, into an array of rows of zeros. The array is lent,
    // since nothing allocates: an answer with it, 21,588 octets, would be copied. `as`: usize has no From<u32>.
    fn next_rows(&mut self, count: u32, links: u32, rows: &mut [Row; 257]) -> Result<(), Refusal>
        requires { (self.old.at ≤ length self.old.octets.now) × (count ≤ most_rows) × (1 ≤ links) × (links ≤ most_links) × (rows.old ≡ held_rows []) }
        ensures told { rows_told result self.new.at rows.new ≡ rows_answer (length self.old.octets.now) (read_rows count links (drop self.old.at self.old.octets.now) []) }
        ensures octets { self.new.octets ≡ self.old.octets }
    {
        for i in 0..count as usize {
            rows[i] = self.next_row(links)?;
        }
        Ok(())
    }

    // How many octets remain.
    fn left(&self) -> usize
        ensures { result ≡ length (drop self.now.at self.now.octets.now) }
    {
        plan_parts::count_left(self.octets, self.at)
    }
}

// Reads a plan's record, for the network of this record, with these numbers of places and links: the copy of the network's record, then
// number by number, and the first that fails decides. Places and links are numbers of a record just read: in types of their own they would be
// unwrapped at each use.
pub fn read(network: &[u8], plan: &[u8], places: u32, links: u32) -> Result<Plan, Refusal>
    requires { (places ≤ most_places) × (1 ≤ links) × (links ≤ most_links) }
    ensures { result ≡ read_answer (read_carrying network.now places links plan.now) }
{
    let mut reader = PlanReader::new(plan);
    reader.next_copy(network)?;
    let amount = reader.next_number(limits::LEAST_AMOUNT, limits::MOST_AMOUNT)?;
    let horizon = reader.next_number(limits::LEAST_PLAN_HORIZON, limits::LONGEST_PLAN_HORIZON)?;
    let cut = reader.next_cut(places)?;
    let count = reader.next_number(limits::FEWEST_ROWS, limits::MOST_ROWS)?;
    let none = plans::no_row();
    let mut rows = [none; 257];
    reader.next_rows(count, links, &mut rows)?;
    if 0 < reader.left() {
        return Err(Refusal::PlanRemains);
    }
    Ok(Plan {
        amount,
        horizon,
        cut,
        count,
        rows,
    })
}
