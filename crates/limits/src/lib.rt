// The limits of networks and plans: their one home in the code. specs/Limits.antt has the same numbers for the definitions;
// every contract is an equation between the two, so a difference fails the proofs.
#![tactic(auto)]

pub const FEWEST_PLACES: u32 = 2;

pub const MOST_PLACES: u32 = 64;

pub const FEWEST_LINKS: u32 = 1;

pub const MOST_LINKS: u32 = 256;

pub const MOST_CAPACITY: u32 = 10000;

pub const MOST_TRANSIT: u32 = 1000;

pub const LEAST_AMOUNT: u32 = 1;

pub const MOST_AMOUNT: u32 = 100000000;

// The horizon to be tried. The longest: the largest amount through the longest chain, one block a slot.
pub const LONGEST_HORIZON: u32 = 100063000;

// The horizon of a plan.
pub const LEAST_PLAN_HORIZON: u32 = 1;

pub const LONGEST_PLAN_HORIZON: u32 = 100063000;

pub const MOST_CUT_NUMBER: u32 = 100063000;

pub const LATEST_FIRST: u32 = 100063000;

pub const MOST_DEPARTURES: u32 = 100063000;

pub const FEWEST_ROWS: u32 = 1;

pub const MOST_ROWS: u32 = 257;

pub const FEWEST_ROW_LINKS: u32 = 1;

pub const MOST_ROW_LINKS: u32 = 63;

// The length of a row: as many links as it may have, each with the longest transit.
pub const LONGEST_LENGTH: u32 = MOST_ROW_LINKS * MOST_TRANSIT;

pub const LEAST_RATE: u32 = 1;

pub const MOST_RATE: u32 = 10000;

pub const LEAST_DEPARTURES: u32 = 1;

// The octets of the network record that a plan carries.
pub const MOST_NETWORK_OCTETS: u32 = 1541;

// What planning asks of its buffer, in octets.
pub const PLAN_BUFFER: usize = 38912;

// A log's entries.
pub const MOST_LOG_ENTRIES: u32 = 4096;

// The blocks of one entry.
pub const MOST_LOG_BLOCKS: u32 = 10000;

// The distance between two stamps from which on an entry is refused.
pub const FAR_STAMP: u32 = 2147483648;

pub const LATEST_LOGGED_SLOT: u32 = 100063000;
