// The one line of what is turned down.
#![tactic(auto)]

ghost use Rattle.std.specs.Prelude.{◌≤◌, length};
ghost use Rattle.texts.specs.Lines.{refused_text};
ghost use Rattle.texts.specs.Put.{Put};
ghost use Rattle.texts.specs.Page.{text_most};

// Puts it to the front of a text; octets after it stay. Room for any text is asked, as texts::room tests it.
// A number, and no Refusal: it has put any number, and a narrower type would ask more.
pub fn put_refused(text: &mut [u8], number: u32) -> usize
    requires { text_most ≤ length text.old }
    ensures { Put (refused_text number) text.old text.new result }
{
    lines::put_line(text, b"refused ", u64::from(number))
}
