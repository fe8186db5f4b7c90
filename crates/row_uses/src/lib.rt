// The uses that a plan's rows make of links, filed under the links' numbers.
#![tactic(auto)]

ghost use Rattle.std.specs.Prelude.{◌≡◌, ℕ, ◌*◌, ◌≤◌, get_or, length, replicate};
ghost use Rattle.limits.specs.Limits.{most_links, most_rows, most_row_links};
ghost use Rattle.row_uses.specs.Uses.{columns, uses_room, Room, Orderly};

// Uses that are filed. Use j of row i has the number 63 * i + j: its first slot, departures and rate are its row's, and `lags` has how many slots after
// the row's first slot it begins. `prev` goes on from each number of a link's chain, each written as one more, and 0 ends a chain.
// Numbers with 0 for none, and no Option<u16>, which takes twice the room; nothing allocates.
// Columns, and no array of structs: sorting is lent the first slots, or the last ones, and the lags, and nothing else.
#[derive(Clone, Copy)]
pub struct Uses<'a> {
    pub prev: &'a [u16],
    pub lags: &'a [u16],
    pub firsts: &'a [u32],
    pub departures: &'a [u32],
    pub rates: &'a [u32],
    pub ghost room: { Room (columns prev.now lags.now firsts.now departures.now rates.now) },
    pub ghost orderly: { Orderly (columns prev.now lags.now firsts.now departures.now rates.now) },
}

// Such uses with `head`, which begins the chain of each link as `prev` goes on. Apart from them: a test of one link is told where its chain begins.
#[derive(Clone, Copy)]
pub struct FiledUses<'a> {
    pub head: &'a [u16],
    pub uses: Uses<'a>,
    pub ghost long: { most_links ≤ length head.now },
    pub ghost heads: { (e : ℕ) → get_or head.now e 0 ≤ uses_room uses.firsts.now },
}

// Where uses are filed: a chain for each link, a number for each use, a number for each row. `FiledUses` lends a file of any
// room, so that what reads it is not generic over the room.
#[derive(Clone, Copy)]
pub struct UseFile<const ROWS: usize, const USES: usize> {
    pub head: [u16; 256],
    pub prev: [u16; USES],
    pub lags: [u16; USES],
    pub firsts: [u32; ROWS],
    pub departures: [u32; ROWS],
    pub rates: [u32; ROWS],
    pub ghost few: { ROWS ≤ most_rows },
    pub ghost all: { USES ≡ most_row_links * ROWS },
}

impl<const ROWS: usize, const USES: usize> UseFile<ROWS, USES> {
    ghost use Rattle.row_uses.specs.Files.{columns_of, lent_of};

    // Nothing is filed yet.
    pub fn new() -> Self
        requires few { ROWS ≤ most_rows }
        requires all { USES ≡ most_row_links * ROWS }
        ensures head { result.head ≡ replicate most_links 0 }
        ensures prev { result.prev ≡ replicate USES 0 }
        ensures lags { result.lags ≡ replicate USES 0 }
        ensures firsts { result.firsts ≡ replicate ROWS 0 }
        ensures departures { result.departures ≡ replicate ROWS 0 }
        ensures rates { result.rates ≡ replicate ROWS 0 }
    {
        UseFile {
            head: [0; 256],
            prev: [0; USES],
            lags: [0; USES],
            firsts: [0; ROWS],
            departures: [0; ROWS],
            rates: [0; ROWS],
        }
    }

    // The uses, for reading.
    pub fn uses<'a>(&'a self) -> FiledUses<'a>
        requires orderly { Orderly (columns_of self.now) }
        requires heads { (e : ℕ) → get_or self.now.head e 0 ≤ USES }
        ensures head { result.head.now ≡ self.now.head }
        ensures columns { lent_of result.uses ≡ columns_of self.now }
    {
        FiledUses {
            head: &self.head,
            uses: Uses {
                prev: &self.prev,
                lags: &self.lags,
                firsts: &self.firsts,
                departures: &self.departures,
                rates: &self.rates,
            },
        }
    }
}
