// What texts are made of: words, numbers and lines, and what is answered for a text in a lent buffer. Definitions and laws; the functions
// that put words, numbers and lines stand in `words`, `decimals` and `lines`.
#![tactic(auto)]

ghost use Rattle.texts.specs.Page.{room_for};
ghost use Rattle.std.specs.Prelude.{◌≡◌, length};

// The octets asked of a buffer for a text: every text fits.
pub const TEXT_MOST: usize = 131072;

// What is answered where a buffer has fewer octets than a text may need.
#[derive(Debug, Clone, Copy, PartialEq, Eq)]
pub struct Short;

// Whether a lent buffer has room for every text.
pub fn room(buffer: &[u8]) -> Result<(), Short>
    ensures { result ≡ room_for (length buffer.now) }
{
    if buffer.len() < TEXT_MOST {
        return Err(Short);
    }
    Ok(())
}
