// A row's line in the listing, and lines for all rows of a plan. Each function puts a text to the front of a lent part and answers its
// length; octets after it stay.
// Each part is lent from where it is written on: its clause names the text that has to fit.
#![tactic(auto)]

ghost use Rattle.std.specs.Prelude.{◌≤◌, ◌<◌, ℕ, List, length, get_or};
ghost use Rattle.flows.specs.Rows as rows_model;
ghost use Rattle.plans.specs.declared.Row as plans_declared;
ghost use Rattle.limits.specs.Limits.{most_rows, most_row_links};
ghost use Rattle.plans.specs.Held.{row_of, past, rows_below};
ghost use Rattle.texts.specs.Lines.{numbered};
ghost use Rattle.texts.specs.Put.{Put};
ghost use Rattle.row_lines.specs.RowLine.{row_line};

use plans::{Plan, Row};

// A row's line in the listing. A row's type holds nothing, since files are read into it: so that its count is in bounds is asked.
// `as`: usize has no From<u32>.
pub fn put_row(part: &mut [u8], number: u64, row: Row) -> usize
    requires links { row.count ≤ most_row_links }
    requires room { length (row_line number (row_of row)) ≤ length part.old }
    ensures { Put (row_line number (row_of row)) part.old part.new result }
{
    let links = row.links;
    let count = row.count as usize;
    let mut at = decimals::put_named(part, b"row ", number);
    at += words::put_word(&mut part[at..], b" links");
    at += lines::put_numbers(&mut part[at..], &links[..count]);
    at += decimals::put_named(&mut part[at..], b" rate ", u64::from(row.rate));
    at += decimals::put_named(&mut part[at..], b" first ", u64::from(row.first));
    at + lines::put_line(&mut part[at..], b" departures ", u64::from(row.departures))
}

// A kind of lines, one for each row of a plan.
pub trait Line {
    ghost line: { ℕ → rows_model.Row → List ℕ };

    ghost is_printable: { plans_declared.Row → Type 0 };

    fn put(part: &mut [u8], number: u64, row: Row) -> usize
        requires row { is_printable row }
        requires room { length (line number (row_of row)) ≤ length part.old }
        ensures { Put (line number (row_of row)) part.old part.new result };
}

// The lines of a plan's rows, numbered from 0. `as`: usize has no From<u32>, and u64 no From<usize>.
pub fn put_rows<L: Line>(part: &mut [u8], plan: Plan) -> usize
    requires count { plan.count ≤ most_rows }
    requires rows { (i : ℕ) → i < plan.count → L.is_printable (get_or plan.rows i past) }
    requires room { length (numbered L.line 0 (rows_below plan plan.count)) ≤ length part.old }
    ensures { Put (numbered L.line 0 (rows_below plan plan.count)) part.old part.new result }
{
    let count = plan.count as usize;
    let mut at = 0;
    for (i, row) in plan.rows[..count].iter().enumerate() {
        at += L::put(&mut part[at..], i as u64, *row);
    }
    at
}
