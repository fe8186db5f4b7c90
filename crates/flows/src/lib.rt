// The model of flows over time and its theory: definitions in specs/, theorems in proofs/. No code but the type of a link.
#![tactic(auto)]

// A link from one place to another: `capacity` whole blocks may enter it in one slot, and `transit` slots pass from entry to arrival.
#[derive(Clone, Copy, Debug, PartialEq, Eq)]
pub struct Link {
    pub start: u32,
    pub end: u32,
    pub capacity: u32,
    pub transit: u32,
}
