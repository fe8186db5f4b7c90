// Horizons and amounts far past the 8 slots that are expanded. Where no chain that visits no place twice takes more than 7 slots, every
// path of a maximum flow brings blocks in the eighth slot, so that each slot after it brings as many as that one did.
use crate::least::Least;
use crate::samples::Sample;

// The longest transit. A link past the last has none.
fn longest(sample: &Sample) -> u8 {
    let mut most = 0u8;
    for link in &sample.links() {
        most = most.max(link.transit);
    }
    most
}

// Whether no chain that visits no place twice takes more than 7 slots.
pub fn steady(sample: &Sample) -> bool {
    let transit = usize::from(longest(sample));
    transit == 0 || sample.places() <= (7 + transit) / transit
}

// The blocks that one slot more brings.
fn gain(maxima: &[u64; 9]) -> u64 {
    maxima[8].wrapping_sub(maxima[7])
}

// Whether these blocks are the most by a horizon above 8.
pub fn is_most(maxima: &[u64; 9], horizon: u64, blocks: u64) -> bool {
    let each = gain(maxima);
    let more = blocks.wrapping_sub(maxima[8]);
    if each == 0 {
        return more == 0;
    }
    more / each == horizon.wrapping_sub(8) && more % each == 0
}

// The least horizon for an amount above the most by 8: the last slot need not bring all that it could.
pub fn least(maxima: &[u64; 9], amount: u64) -> Least {
    let each = gain(maxima);
    if each == 0 {
        return Least::Unreachable;
    }
    let more = amount.wrapping_sub(maxima[8]);
    let slots = more.wrapping_sub(1) / each;
    Least::Horizon(slots.wrapping_add(9))
}
