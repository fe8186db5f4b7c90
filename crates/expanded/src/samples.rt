// Small networks as records: pseudo-random ones, and those that vectors prints the figures of, with transit 0, worked out by hand.
ghost use Rattle.std.specs.Prelude.{◌<◌, ◌≤◌, length};

// A stream of pseudo-random numbers, by its last state.
#[derive(Clone, Copy)]
pub struct Draws {
    pub seed: u64,
}

impl Draws {
    // The next number, below a bound: so it fits u8.
    fn below(&mut self, bound: u8) -> u8
        requires { 0 < bound }
        ensures { result < bound }
    {
        self.seed = (self.seed % 2147483648 * 1103515245 + 12345) % 2147483648;
        (self.seed / 65536 % u64::from(bound)) as u8
    }

    // A place other than this one.
    fn other(&mut self, place: u8, places: u8) -> u8
        requires { (place < places) × (2 ≤ places) × (places ≤ 5) }
        ensures { result < places }
    {
        (place + 1 + self.below(places - 1)) % places
    }
}

// A link of a sample: its ends, below 8, the blocks that it takes in a slot, and its slots of transit.
#[derive(Clone, Copy)]
pub struct Link {
    start: u8,
    end: u8,
    pub capacity: u8,
    pub transit: u8,
}

impl Link {
    pub fn start(&self) -> usize
        ensures { result < 8 }
    {
        usize::from(self.start) % 8
    }

    pub fn end(&self) -> usize
        ensures { result < 8 }
    {
        usize::from(self.end) % 8
    }
}

// Every number of a sample's record is below 128: one octet each. At most 8 links.
#[derive(Clone, Copy)]
pub struct Sample {
    octets: [u8; 36],
}

impl Sample {
    // The sample with a record.
    fn of(record: &[u8]) -> Sample
        requires { length «record».now ≤ 36 }
    {
        let mut octets = [0; 36];
        octets[..record.len()].copy_from_slice(record);
        Sample { octets }
    }

    pub fn record(&self) -> &[u8] {
        &self.octets[..4 + 4 * (usize::from(self.octets[3]) % 9)]
    }

    pub fn places(&self) -> usize {
        usize::from(self.octets[0])
    }

    pub fn origin(&self) -> usize
        ensures { result < 8 }
    {
        usize::from(self.octets[1]) % 8
    }

    pub fn destination(&self) -> usize
        ensures { result < 8 }
    {
        usize::from(self.octets[2]) % 8
    }

    // The link of a number. One past the last has no capacity and no transit.
    pub fn link(&self, index: usize) -> Link
        requires { index < 8 }
    {
        let at = 4 + 4 * index;
        Link {
            start: self.octets[at],
            end: self.octets[at + 1],
            capacity: self.octets[at + 2],
            transit: self.octets[at + 3],
        }
    }

    pub fn links(&self) -> [Link; 8] {
        std::array::from_fn(|index| self.link(index))
    }

    // Draws a link: ends that differ, capacity 0 to 3, a transit below `transits`.
    fn draw_link(&mut self, draws: &mut Draws, places: u8, transits: u8, index: usize)
        requires { (2 ≤ places) × (places ≤ 5) × (0 < transits) × (index < 8) }
    {
        let start = draws.below(places);
        let end = draws.other(start, places);
        let capacity = draws.below(4);
        let transit = draws.below(transits);
        let at = 4 + 4 * index;
        self.octets[at..at + 4].copy_from_slice(&[start, end, capacity, transit]);
    }

    // A drawn network: 2 to 5 places, 1 to 8 links, transits of at most 0, 1, 2 or 3: one network in four has hops of transit 0 only.
    pub fn drawn(draws: &mut Draws) -> Sample {
        let places = 2 + draws.below(4);
        let origin = draws.below(places);
        let destination = draws.other(origin, places);
        let links = 1 + draws.below(8);
        let transits = 1 + draws.below(4);
        let mut sample = Sample::of(&[places, origin, destination, links]);
        for index in 0..usize::from(links) {
            sample.draw_link(draws, places, transits, index);
        }
        sample
    }
}

// Three hops of transit 0 in a row, the middle one of capacity 1: as many blocks as slots, and one block is there in the slot in which it
// leaves.
pub fn hall() -> Sample {
    Sample::of(b"\x04\x00\x03\x03\x00\x01\x02\x00\x01\x02\x01\x00\x02\x03\x02\x00")
}

// A hop of transit 0 and one of transit 1 to the archive, and between the two a loop of hops of transit 0 and capacity 2, which adds
// nothing: one block less than slots.
pub fn loop_beside() -> Sample {
    Sample::of(b"\x04\x00\x03\x04\x00\x01\x01\x00\x01\x03\x01\x01\x01\x02\x02\x00\x02\x01\x02\x00")
}

// Two parallel hops of capacity 1, of transit 0 and 1: twice the slots, less one.
pub fn parallel() -> Sample {
    Sample::of(b"\x02\x00\x01\x02\x00\x01\x01\x00\x00\x01\x01\x01")
}

// A hop of transit 0 and capacity 2 to the archive, and loops of transit 0 through the origin and through the archive, which bring no
// more than they take: twice the slots.
pub fn loops_at_ends() -> Sample {
    Sample::of(
        b"\x04\x00\x03\x05\x00\x03\x02\x00\x03\x01\x07\x00\x01\x03\x07\x00\x00\x02\x07\x00\x02\x00\x07\x00",
    )
}
