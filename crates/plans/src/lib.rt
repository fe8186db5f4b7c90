// A plan as a struct.
#![tactic(auto)]

ghost use Rattle.std.specs.Prelude.{◌≡◌, []};
ghost use Rattle.plans.specs.Held.{no_row, held_rows};

// A chain by its link numbers, the length that its record writes, and when how many blocks enter it. An array with a count, since nothing allocates.
// A row that was read need not be a route, and a file's count need not fit: so no Route in it.
#[derive(Clone, Copy)]
pub struct Row {
    pub links: [u8; 63],
    pub count: u32,
    pub length: u32,
    pub rate: u32,
    pub first: u32,
    pub departures: u32,
}

// A plan as its record has it; the cut has a number for each place of the network. An array with a count, since nothing allocates.
#[derive(Clone, Copy)]
pub struct Plan {
    pub amount: u32,
    pub horizon: u32,
    pub cut: [u32; 64],
    pub count: u32,
    pub rows: [Row; 257],
}

// The row of all zeros.
pub fn no_row() -> Row
    ensures { result ≡ no_row }
{
    Row {
        links: [0u8; 63],
        count: 0,
        length: 0,
        rate: 0,
        first: 0,
        departures: 0,
    }
}

// No rows. Readers and planners make them in place, which saves a copy; this stays for the edits one_row_fewer and rows_of_a_chain, which
// are refused at its promise.
pub fn no_rows() -> [Row; 257]
    ensures { result ≡ held_rows [] }
{
    let row = no_row();
    [row; 257]
}
