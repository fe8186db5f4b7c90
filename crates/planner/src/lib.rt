// What planning answers and promises. Definitions and laws; no function.
#![tactic(auto)]

// A plan that was written: its horizon T, and the length of its record.
#[derive(Clone, Copy)]
pub struct Written {
    pub horizon: u32,
    pub length: usize,
}
