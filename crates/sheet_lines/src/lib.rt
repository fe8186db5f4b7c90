// The campaign sheet's lines. Each function that puts a text puts it to the front of a lent part and answers its length; octets after it
// stay. Each part is lent from where it is written on: its clause names the text that has to fit.
#![tactic(auto)]

ghost use Rattle.std.specs.Prelude.{◌≡◌, ◌≤◌, length};
ghost use Rattle.limits.specs.Limits.{most_rate, most_departures};
ghost use Rattle.flows.specs.Rows as rows_model;
ghost use Rattle.plans.specs.Held.{rows_below};
ghost use Rattle.texts.specs.Put.{Put};
ghost use Rattle.sheet_lines.specs.SheetText.{row_blocks, sheet_text};
ghost use Rattle.sheet_lines.specs.Summable.{Summable};

use plans::{Plan, Row};
use row_lines::Line;

// The sheet's lines of rows: the blocks that each brings.
struct Brought;

impl Line for Brought {
    ghost line = { row_blocks };

    ghost is_printable = { λ row. (row.rate ≤ most_rate) × (row.departures ≤ most_departures) };

    fn put(part: &mut [u8], number: u64, row: Row) -> usize {
        let blocks = row_blocks::blocks(row.rate, row.departures);
        let at = decimals::put_named(part, b"row ", number);
        at + lines::put_line(&mut part[at..], b" blocks ", blocks)
    }
}

// The sum of the rows' blocks. `as`: usize has no From<u32>.
fn total(plan: Plan) -> u64
    requires { Summable plan }
    ensures { result ≡ rows_model.total (rows_below plan plan.count) }
{
    let count = plan.count as usize;
    let mut sum = 0;
    for row in &plan.rows[..count] {
        let brought = row_blocks::blocks(row.rate, row.departures);
        sum += brought;
    }
    sum
}

// The rows' lines, then their total.
pub fn put_sheet(part: &mut [u8], plan: Plan) -> usize
    requires summable { Summable plan }
    requires room { length (sheet_text (rows_below plan plan.count)) ≤ length part.old }
    ensures { Put (sheet_text (rows_below plan plan.count)) part.old part.new result }
{
    let sum = total(plan);
    let at = row_lines::put_rows::<Brought>(part, plan);
    at + lines::put_line(&mut part[at..], b"total ", sum)
}
