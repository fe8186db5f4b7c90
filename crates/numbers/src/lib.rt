// Unsigned LEB128 numbers in shortest form: one read at a position of a slice, and what reading a part of a record answers.
#![tactic(auto)]

ghost use Rattle.std.specs.Prelude.{◌≡◌};
ghost use Rattle.numbers.specs.Field.{refusal_of};
ghost use Rattle.numbers.specs.Position.{number_at};

// The most groups of a number: its one place in the code.
const GROUPS: u32 = 4;

// Why no number stands at a position.
#[derive(Clone, Copy, Debug, PartialEq, Eq)]
pub enum Misspelling {
    // The last octet allowed asks for another.
    Endless,
    // The record ends before the number's last octet.
    Ended,
    // The last group is 0, after others.
    Padded,
}

// The refusals of a record's reader, of a type of its own: one for each misspelling of a number, and one for a number outside its limits.
#[derive(Clone, Copy, Debug, PartialEq, Eq)]
pub struct Refusals<R> {
    pub endless: R,
    pub ended: R,
    pub padded: R,
    pub outside: R,
}

impl<R: Copy> Refusals<R> {
    // The refusal for a misspelling.
    pub fn of(self, misspelling: Misspelling) -> R
        ensures { result ≡ refusal_of self misspelling }
    {
        match misspelling {
            Misspelling::Endless => self.endless,
            Misspelling::Ended => self.ended,
            Misspelling::Padded => self.padded,
        }
    }
}

// What the reader of a part of a record answers where it does not refuse: the part, and the position after it.
#[derive(Clone, Copy, Debug, PartialEq, Eq)]
pub struct Part<T> {
    pub value: T,
    pub next: usize,
}

// The number at a position. Groups stand least first: the first weighs 1, each other one 128 times the one before it. A loop, and no
// recursion, as the compiler unrolls it into its callers: most of a record's reading is this.
pub fn read_number(s: &[u8], at: usize) -> Result<Part<u32>, Misspelling>
    ensures { result ≡ number_at s.now at }
{
    let mut value: u32 = 0;
    let mut weight: u32 = 1;
    let mut next = at;
    for _ in 0..GROUPS {
        if s.len() <= next {
            return Err(Misspelling::Ended);
        }
        let a = u32::from(s[next]);
        next += 1;
        if a < 128 {
            // A last group of 0 pads the groups before it; the only group is the number 0.
            if a == 0 && 1 < weight {
                return Err(Misspelling::Padded);
            }
            return Ok(Part {
                value: value + weight * a,
                next,
            });
        }
        value += weight * (a % 128);
        weight *= 128;
    }
    Err(Misspelling::Endless)
}
