// Unsigned LEB128 numbers in shortest form, written to a lent part.
#![tactic(auto)]

ghost use Rattle.std.specs.Prelude.{◌≡◌, [], ◌∷◌, ◌+◌, ◌≤◌, ◌<◌, ◌^◌, length};
ghost use Rattle.numbers.specs.Leb128.{groups, shortest, encode, over, over_at};
ghost use Rattle.numbers.specs.Writing.{Writable};

// Writes a number's shortest form to the front of a lent part; the answer is how many octets it has. Octets after it stay. Both `as u8` fit: below
// 128, and below 256.
fn write_number(part: &mut [u8], n: u32) -> usize
    requires { (n < 128 ^ groups) × (length (shortest groups n) ≤ length part.old) }
    ensures { (result ≡ length (shortest groups n)) × (part.new ≡ over (shortest groups n) part.old) }
{
    if n < 128 {
        part[0] = n as u8;
        return 1;
    }
    part[0] = (128 + n % 128) as u8;
    1 + write_number(&mut part[1..], n / 128)
}

// Writes a number's shortest form to the part of a buffer that starts at a position; the answer is the position after it.
pub fn write_at(buffer: &mut [u8], at: usize, n: u32) -> usize
    requires { Writable (n ∷ []) buffer.old at }
    ensures { (result ≡ at + length (encode (n ∷ []))) × (buffer.new ≡ over_at at (encode (n ∷ [])) buffer.old) }
{
    at + write_number(&mut buffer[at..], n)
}

// How many octets a number's shortest form has.
pub fn number_length(n: u32) -> usize
    requires { n < 128 ^ groups }
    ensures { (result ≡ length (shortest groups n)) × (result ≤ groups) }
{
    if n < 128 {
        return 1;
    }
    1 + number_length(n / 128)
}
