// A word, or the octets of a record, put to the front of a lent part; octets after it stay.
// Each part is lent from where it is written on: its clause names the text that has to fit.
#![tactic(auto)]

ghost use Rattle.std.specs.Prelude.{◌≤◌, length};
ghost use Rattle.texts.specs.Put.{Put};

// A loop: of a `copy_from_slice` the compiler makes a call of `memmove`, which the C library of a small system need not have.
pub fn put_word(part: &mut [u8], word: &[u8]) -> usize
    requires { length word.now ≤ length part.old }
    ensures { Put word.now part.old part.new result }
{
    for (i, &octet) in word.iter().enumerate() {
        part[i] = octet;
    }
    word.len()
}
