// What was compared, counted, and the sums of the figures.
use crate::least::Least;
use std::fmt;

// Mosts compared and their blocks; least horizons compared: `unreachable` refused with 12, `longer` above 8, and the slots of the rest.
// Then mosts by long horizons; least horizons for large amounts, and their slots.
#[derive(Clone, Copy, Default)]
pub struct Tally {
    mosts: u64,
    blocks: u64,
    leasts: u64,
    unreachable: u64,
    longer: u64,
    slots: u64,
    long_mosts: u64,
    large_leasts: u64,
    large_slots: u64,
    mismatches: u64,
}

impl Tally {
    fn add_comparison(&mut self, agrees: bool) {
        if !agrees {
            self.mismatches = self.mismatches.wrapping_add(1);
        }
    }

    // One most more.
    pub fn add_most(&mut self, blocks: u64, agrees: bool) {
        self.mosts = self.mosts.wrapping_add(1);
        self.blocks = self.blocks.wrapping_add(blocks);
        self.add_comparison(agrees);
    }

    // One least horizon more.
    pub fn add_least(&mut self, expected: Least, agrees: bool) {
        self.leasts = self.leasts.wrapping_add(1);
        self.add_comparison(agrees);
        match expected {
            Least::Unreachable => self.unreachable = self.unreachable.wrapping_add(1),
            Least::Longer => self.longer = self.longer.wrapping_add(1),
            Least::Horizon(horizon) => self.slots = self.slots.wrapping_add(horizon),
        }
    }

    // One most by a long horizon more.
    pub fn add_long_most(&mut self, agrees: bool) {
        self.long_mosts = self.long_mosts.wrapping_add(1);
        self.add_comparison(agrees);
    }

    // One least horizon for a large amount more.
    pub fn add_large_least(&mut self, expected: Least, agrees: bool) {
        self.large_leasts = self.large_leasts.wrapping_add(1);
        self.add_comparison(agrees);
        if let Least::Horizon(horizon) = expected {
            self.large_slots = self.large_slots.wrapping_add(horizon);
        }
    }
}

// A line for each figure; the last has no line end.
impl fmt::Display for Tally {
    fn fmt<W: fmt::Write>(&self, f: &mut fmt::Formatter<W>) -> fmt::Result {
        writeln!(f, "mosts {}", self.mosts)?;
        writeln!(f, "blocks {}", self.blocks)?;
        writeln!(f, "least horizons {}", self.leasts)?;
        writeln!(f, "refused with 12 {}", self.unreachable)?;
        writeln!(f, "longer than 8 slots {}", self.longer)?;
        writeln!(f, "slots {}", self.slots)?;
        writeln!(f, "mosts by long horizons {}", self.long_mosts)?;
        writeln!(f, "least horizons for large amounts {}", self.large_leasts)?;
        writeln!(f, "slots {}", self.large_slots)?;
        write!(f, "mismatches {}", self.mismatches)
    }
}
