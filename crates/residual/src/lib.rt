// The residual network of a static flow: its arcs, what a search of it finds, and the links at each place. Definitions and laws.
#![tactic(auto)]

ghost use Rattle.std.specs.Prelude.{◌≡◌};
ghost use Rattle.residual.specs.Relax.{direction_of, head_of, tail_of};

use flows::Link;
use network::Network;

// What a search from the origin finds, place by place: distance by reduced costs, the arc by which the place was reached, and its
// turn (0: not settled). `reach` is the destination's distance; not `found`: no augmenting path. No Option: where nothing was found
// `reach` is `FAR`, and bounds how far potentials are raised as well. Columns, since the search's labels are columns, which it keeps whole.
#[derive(Clone, Copy)]
pub struct Tree {
    pub distance: [u32; 64],
    pub arc: [u32; 64],
    pub rank: [u32; 64],
    pub reach: u32,
    pub found: bool,
}

// A chain of links for each place: `first` begins it and `next` goes on from each link. Each number is one more than a link's, and 0 ends
// a chain. Chains, and no slices of links sorted by place: a row's hint goes on along a chain from where it stopped, by one number.
#[derive(Clone, Copy)]
pub struct Chains {
    pub first: [u32; 64],
    pub next: [u32; 256],
}

// The links at each place: those that start there, and those that end there.
#[derive(Clone, Copy)]
pub struct Index {
    pub out: Chains,
    pub into: Chains,
}

// The numbers of places that a search lowers: distances, the same again of places that wait to be settled (`FAR` at those that don't),
// and the arcs by which places were reached. Columns, and no array of structs: the nearest place is found by passes over one of them, and
// with structs a search of a full network took 22 to 35 % longer.
#[derive(Clone, Copy)]
pub struct Labels {
    pub distance: [u32; 64],
    pub waiting: [u32; 64],
    pub arc: [u32; 64],
}

// Which way an arc goes over its link: link e has arc 2 e along it, and arc 2 e + 1 against it.
#[derive(Clone, Copy)]
pub enum Direction {
    Along,
    Against,
}

impl Direction {
    // The direction that a number names: along a link for 0, against it for every other.
    pub fn of(against: u32) -> Direction
        ensures { result ≡ direction_of against }
    {
        match against {
            0 => Direction::Along,
            _ => Direction::Against,
        }
    }

    // The place that a link's arc leaves.
    pub fn tail(self, link: &Link) -> u32
        ensures { result ≡ tail_of self link.now }
    {
        match self {
            Direction::Along => link.start,
            Direction::Against => link.end,
        }
    }

    // The place that a link's arc leads to.
    pub fn head(self, link: &Link) -> u32
        ensures { result ≡ head_of self link.now }
    {
        match self {
            Direction::Along => link.end,
            Direction::Against => link.start,
        }
    }
}

// One side of the residual network at a place: the arcs over the links of the place's chain, all in one direction.
#[derive(Clone, Copy)]
pub struct Side<'a> {
    pub chains: &'a Chains,
    pub links: &'a [Link; 256],
    pub flow: &'a [u32; 256],
    pub potential: &'a [u32; 64],
    pub place: usize,
    pub direction: Direction,
}

// The residual network of a static flow under potentials, as it is lent to a search.
#[derive(Clone, Copy)]
pub struct Residual<'a> {
    pub network: &'a Network,
    pub index: &'a Index,
    pub flow: &'a [u32; 256],
    pub potential: &'a [u32; 64],
}

// The distance of a place that was not reached: a number, so that distances compare by `<` alone.
pub const FAR: u32 = 1000000000;
