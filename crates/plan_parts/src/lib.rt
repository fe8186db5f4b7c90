// The parts of a plan's record, each read at a position of its slice: the reader of a number, and how many octets remain. The network's copy
// is read by `copy_reader`, the cut by `cut_reader`, a row by `row_reader`.
#![tactic(auto)]

ghost use Rattle.std.specs.Prelude.{◌≡◌, length, drop};
ghost use Rattle.numbers.specs.Position.{field_answer};
ghost use Rattle.plans.specs.Record.{number};

use numbers::{Part, Refusals};
use refusals::Refusal;

// The number at a position, from low to high, with a plan record's refusals. The limits are two numbers, as in the definitions, and no
// RangeInclusive, which would be taken apart again.
pub fn read_number(s: &[u8], at: usize, low: u32, high: u32) -> Result<Part<u32>, Refusal>
    ensures { result ≡ field_answer (length s.now) (number low high (drop at s.now)) }
{
    field_reader::read_field(
        s,
        at,
        low,
        high,
        Refusals {
            endless: Refusal::PlanContinues,
            ended: Refusal::PlanEnds,
            padded: Refusal::PlanNotShortest,
            outside: Refusal::PlanLimits,
        },
    )
}

// How many octets remain at a position.
pub fn count_left(s: &[u8], at: usize) -> usize
    ensures { result ≡ length (drop at s.now) }
{
    s.len().saturating_sub(at)
}
