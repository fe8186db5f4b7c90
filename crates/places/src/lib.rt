// Sets of places, as the bits of a number.
#![tactic(auto)]

ghost use Rattle.std.specs.Prelude.{◌≡◌, ◌^◌, ◌%◌, bit_and, bit_or, bit_xor};
ghost use Rattle.std.specs.Bool.{FalseIff};
ghost use Rattle.std.specs.Iterator.{at_most};

// A set of places: those whose bits are 1. Any number is taken for a place's, as its rest by 64.
#[derive(Clone, Copy, PartialEq, Eq)]
pub struct Places {
    pub bits: u64,
}

impl Places {
    // No place.
    pub const NONE: Places = Places { bits: 0 };

    // The set of one place.
    pub fn only(v: u32) -> Places
        ensures { result.bits ≡ 2 ^ (v % 64) }
    {
        Places {
            bits: 1 << (v % 64),
        }
    }

    pub fn has(self, v: u32) -> bool
        ensures { FalseIff result (bit_and self.bits (2 ^ (v % 64)) ≡ 0) }
    {
        self.bits & Places::only(v).bits != 0
    }

    pub fn union(self, other: Places) -> Places
        ensures { result.bits ≡ bit_or self.bits other.bits }
    {
        Places {
            bits: self.bits | other.bits,
        }
    }

    // The places of one of two sets, and not of both.
    pub fn either(self, other: Places) -> Places
        ensures { result.bits ≡ bit_xor self.bits other.bits }
    {
        Places {
            bits: self.bits ^ other.bits,
        }
    }
}

// The places of a set, in turn.
impl Iterator for Places {
    type Item = u32;

    ghost remaining = { λ s. at_most s.bits };

    fn next(&mut self) -> Option<u32> {
        if self.bits == 0 {
            return None;
        }
        let first = self.bits.trailing_zeros();
        self.bits &= self.bits - 1;
        Some(first)
    }
}
