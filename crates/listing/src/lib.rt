// The listing: what the examiner says of a plan, and the plan's numbers, as text.
#![tactic(auto)]

ghost use Rattle.std.specs.Prelude.{◌≡◌, ◌≤◌, length};
ghost use Rattle.texts.specs.Put.{Put};
ghost use Rattle.texts.specs.Page.{text_most, paged_answer, paged_buffer};
ghost use Rattle.listing.specs.Text.{listed};

use texts::Short;

// The text for an input. It and `list` are written as in sheet_text but for one call: a generic over a trait would need an impl and a wrapper
// in each of the two crates, which are as long.
// Room for any text is asked, as texts::room has tested it.
fn put_listing(text: &mut [u8], input: &[u8]) -> usize
    requires { text_most ≤ length text.old }
    ensures { Put (listed input.now) text.old text.new result }
{
    match input_reader::take(input) {
        Ok(read) => {
            let found = judge::judge(&read.network, &read.plan);
            let verdict = found.verdict.number();
            plan_text::put_plan(text, verdict, found.bound, read.network.places, read.plan)
        }
        Err(refusal) => refusal_line::put_refused(text, refusal.number()),
    }
}

// Lists the input: a network record's length as a number, that record, a plan record. The text goes to the front of the buffer, and
// the answer is its length; octets past it stay. A buffer of fewer than TEXT_MOST octets is refused as Short and left as it was.
pub fn list(input: &[u8], text: &mut [u8]) -> Result<usize, Short>
    ensures answer { result ≡ paged_answer (listed input.now) (length text.old) }
    ensures text_after { text.new ≡ paged_buffer (listed input.now) text.old }
{
    texts::room(text)?;
    Ok(put_listing(text, input))
}
