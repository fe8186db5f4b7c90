// The campaign sheet: the blocks of a plan's rows and their total, as text.
#![tactic(auto)]

ghost use Rattle.std.specs.Prelude.{◌≡◌, ◌≤◌, length};
ghost use Rattle.texts.specs.Put.{Put};
ghost use Rattle.texts.specs.Page.{text_most, paged_answer, paged_buffer};
ghost use Rattle.sheet_text.specs.Text.{sheeted};

use texts::Short;

// The text for an input. It and `sheet` are written as in listing but for one call: a generic over a trait would need an impl and a wrapper
// in each of the two crates, which are as long.
// Room for any text is asked, as texts::room has tested it.
fn put_sheet(text: &mut [u8], input: &[u8]) -> usize
    requires { text_most ≤ length text.old }
    ensures { Put (sheeted input.now) text.old text.new result }
{
    match input_reader::take(input) {
        Ok(read) => {
            let plan = read.plan;
            sheet_lines::put_sheet(text, plan)
        }
        Err(refusal) => refusal_line::put_refused(text, refusal.number()),
    }
}

// The campaign sheet of the listing's input: a network record's length as a number, that record, a plan record. The text goes to the front
// of the buffer, and the answer is its length; octets past it stay. A buffer of fewer than TEXT_MOST octets is refused as Short and left
// as it was.
pub fn sheet(input: &[u8], text: &mut [u8]) -> Result<usize, Short>
    ensures answer { result ≡ paged_answer (sheeted input.now) (length text.old) }
    ensures text_after { text.new ≡ paged_buffer (sheeted input.now) text.old }
{
    texts::room(text)?;
    Ok(put_sheet(text, input))
}
