// A number of a record, read at a position within its limits.
#![tactic(auto)]

ghost use Rattle.std.specs.Prelude.{◌≡◌, length, drop};
ghost use Rattle.numbers.specs.Field.{field};
ghost use Rattle.numbers.specs.Position.{field_answer};

use numbers::{Part, Refusals};

// The number at a position, from low to high: two numbers, as in the definitions, and no RangeInclusive, which would be taken apart again.
pub fn read_field<R: Copy>(
    s: &[u8],
    at: usize,
    low: u32,
    high: u32,
    refusals: Refusals<R>,
) -> Result<Part<u32>, R>
    ensures { result ≡ field_answer (length s.now) (field refusals low high (drop at s.now)) }
{
    match numbers::read_number(s, at) {
        Err(misspelling) => Err(refusals.of(misspelling)),
        Ok(number) => {
            if number.value < low || high < number.value {
                return Err(refusals.outside);
            }
            Ok(number)
        }
    }
}
