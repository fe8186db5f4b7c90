// A plan's lines in the listing, from its rows on. Each function puts a text to the front of a lent part and answers its length; octets
// after it stay.
// Each part is lent from where it is written on: its clause names the text that has to fit.
#![tactic(auto)]

ghost use Rattle.std.specs.Prelude.{◌≤◌, length};
ghost use Rattle.limits.specs.Limits.{most_places, most_row_links};
ghost use Rattle.plans.specs.Held.{model_of};
ghost use Rattle.plans.specs.WritablePlan.{Countable};
ghost use Rattle.texts.specs.Put.{Put};
ghost use Rattle.row_lines.specs.RowLine.{row_line};
ghost use Rattle.plan_lines.specs.PlanText.{cut_line, plan_tail};

use plans::{Plan, Row};
use row_lines::Line;

// The listing's lines of rows.
struct Listed;

impl Line for Listed {
    ghost line = { row_line };

    ghost is_printable = { λ row. row.count ≤ most_row_links };

    fn put(part: &mut [u8], number: u64, row: Row) -> usize {
        row_lines::put_row(part, number, row)
    }
}

// The cut's line.
fn put_cut_line(part: &mut [u8], cut: &[u32], bound: u64) -> usize
    requires { length (cut_line cut.now bound) ≤ length part.old }
    ensures { Put (cut_line cut.now bound) part.old part.new result }
{
    let mut at = words::put_word(part, b"cut");
    at += lines::put_numbers(&mut part[at..], cut);
    at + lines::put_line(&mut part[at..], b" bound ", bound)
}

// A plan's lines from its rows on. Its places stand beside the plan, which does not hold how many its cut is of.
// `as`: usize has no From<u32>.
pub fn put_tail(part: &mut [u8], bound: u64, places: u32, plan: Plan) -> usize
    requires places { places ≤ most_places }
    requires counted { Countable plan }
    requires room { length (plan_tail bound (model_of places plan)) ≤ length part.old }
    ensures { Put (plan_tail bound (model_of places plan)) part.old part.new result }
{
    let cut = plan.cut;
    let count = places as usize;
    let at = row_lines::put_rows::<Listed>(part, plan);
    at + put_cut_line(&mut part[at..], &cut[..count], bound)
}
