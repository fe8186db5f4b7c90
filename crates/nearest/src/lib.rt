// The nearest place that waits in a search.
#![tactic(auto)]

ghost use Rattle.std.specs.Prelude.{◌≡◌, ℕ, ◌+◌, ◌%◌, ◌≤◌, ◌<◌, cond, get_or, max, replicate, set};
ghost use Rattle.limits.specs.Limits.{most_places};
ghost use Rattle.nearest.specs.Lowest.{Lowest};

// The least waiting distance. How many places there are goes beside the column: a search keeps it whole, with room for 64.
fn least_of(waiting: &[u32; 64], places: usize) -> u32
    requires { (0 < places) × (places ≤ most_places) }
    ensures { Lowest waiting.now places result }
{
    let mut least = waiting[0];
    for w in &waiting[1..places] {
        least = least.min(*w);
    }
    least
}

// The place of the least waiting distance: two passes, of which the first keeps no place, are faster than one that does.
fn pick(waiting: &[u32; 64], places: usize) -> usize
    requires { (0 < places) × (places ≤ most_places) }
    ensures { (result < places) × ((v : ℕ) → v < places → get_or waiting.now result 0 ≤ get_or waiting.now v 0) }
{
    let least = least_of(waiting, places);
    waiting[..places]
        .iter()
        .position(|w| *w == least)
        .unwrap_or(0)
}

// Places that a search noted as near, one after another round a ring, to be tried first.
#[derive(Clone, Copy)]
pub struct Ring {
    places: [u32; 64],
    entry: usize,
    ghost in_ring: { entry < most_places },
}

impl Ring {
    // Nothing noted.
    pub fn new() -> Ring
        ensures { (result.places ≡ replicate 64 0) × (result.entry ≡ 0) }
    {
        Ring {
            places: [0; 64],
            entry: 0,
        }
    }

    // Writes a place at the next entry; it stays there if it is kept, and else the next place is written over it.
    pub fn note(&mut self, place: u32, kept: bool)
        ensures written { self.new.places ≡ set self.old.places self.old.entry place }
        ensures next { self.new.entry ≡ cond kept ((self.old.entry + 1) % 64) self.old.entry }
    {
        self.places[self.entry] = place;
        if kept {
            self.entry = (self.entry + 1) % 64;
        }
    }

    // The next entry to write is no entry before `front`, the one that is tried next.
    pub fn advance(&mut self, front: usize)
        requires { front < most_places }
        ensures { (self.new.places ≡ self.old.places) × (self.new.entry ≡ max self.old.entry front) }
    {
        self.entry = self.entry.max(front);
    }

    // The place at an entry.
    pub fn place_at(&self, entry: usize) -> u32
        requires { entry < most_places }
        ensures { result ≡ get_or self.now.places entry 0 }
    {
        self.places[entry]
    }
}

// The nearest waiting place: `guess` if it is as near as `base`, since none is nearer, and otherwise by looking at all. Most places are
// as near as the one settled last, and guessed. `as`: usize has no From<u32>.
pub fn nearest(waiting: &[u32; 64], places: usize, guess: u32, base: u32) -> usize
    requires { (0 < places) × (places ≤ most_places) × ((v : ℕ) → v < places → base ≤ get_or waiting.now v 0) }
    ensures { (result < places) × ((v : ℕ) → v < places → get_or waiting.now result 0 ≤ get_or waiting.now v 0) }
{
    let v = guess as usize;
    if v < places && waiting[v] == base {
        return v;
    }
    pick(waiting, places)
}
