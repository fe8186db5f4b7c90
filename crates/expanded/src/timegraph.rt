// An ordinary maximum flow in the time-expanded network, by horizons up to 8, with holding at middle places or without: without, only the
// origin and the destination have arcs from a slot to the next. It shares no code with the optimizer.
ghost use Rattle.std.specs.Prelude.{◌<◌, ◌≤◌};

use crate::samples::{Link, Sample};

// An arc of the time-expanded network between two of its 64 nodes, with the blocks that more may flow along it and the blocks that do.
#[derive(Clone, Copy, Default)]
struct Arc {
    tail: u8,
    head: u8,
    ahead: u32,
    back: u32,
}

impl Arc {
    fn tail(&self) -> usize
        ensures { result < 64 }
    {
        usize::from(self.tail) % 64
    }

    fn head(&self) -> usize
        ensures { result < 64 }
    {
        usize::from(self.head) % 64
    }
}

// How a node is reached: it is the source, or by an arc of which more may flow ahead, or back.
#[derive(Clone, Copy)]
enum Step {
    Source,
    Ahead(usize),
    Back(usize),
}

// How each node is reached, if it is.
type Reached = [Option<Step>; 64];

// Place v in slot s is node 8 v + s: below 64, so it fits u8.
fn node(place: usize, slot: usize) -> u8
    requires { (place < 8) × (slot < 8) }
    ensures { result < 64 }
{
    (place * 8 + slot) as u8
}

// What is expanded: a network, by a horizon of up to 8 slots.
#[derive(Clone, Copy)]
struct Expansion<'a> {
    sample: &'a Sample,
    horizon: usize,
    holding: bool,
}

impl<'a> Expansion<'a> {
    // Whether blocks may wait at a place.
    fn waits(&self, place: usize) -> bool {
        self.holding || place == self.sample.origin() || place == self.sample.destination()
    }

    // Waiting at a place from a slot to the next.
    fn waiting(&self, place: usize, slot: usize) -> Arc
        requires { (place < 8) × (slot < 8) }
    {
        if self.horizon <= slot + 1 || slot == 7 || !self.waits(place) {
            return Arc::default();
        }
        Arc {
            tail: node(place, slot),
            head: node(place, slot + 1),
            ahead: 1000,
            back: 0,
        }
    }

    // A link entered in a slot. A link of transit 0 joins two nodes of one slot, and such arcs may go round.
    fn crossing(&self, link: Link, slot: usize) -> Arc
        requires { slot < 8 }
    {
        let arrival = slot + usize::from(link.transit);
        if self.horizon <= arrival {
            return Arc::default();
        }
        Arc {
            tail: node(link.start(), slot),
            head: node(link.end(), arrival % 8),
            ahead: u32::from(link.capacity),
            back: 0,
        }
    }

    // Arc 8 r + s: link r entered in slot s, or waiting from slot s to the next at place r - 8.
    fn arc(&self, index: usize) -> Arc
        requires { index < 128 }
    {
        let slot = index % 8;
        let row = index / 8;
        if row < 8 {
            return self.crossing(self.sample.link(row), slot);
        }
        self.waiting(row - 8, slot)
    }

    fn graph(&self) -> Graph {
        Graph {
            arcs: std::array::from_fn(|index| self.arc(index)),
        }
    }
}

// The arcs of the time-expanded network, with what flows along them.
#[derive(Clone, Copy)]
struct Graph {
    arcs: [Arc; 128],
}

impl Graph {
    // One pass over the arcs; answers whether it reached another node.
    fn pass(&self, reached: &mut Reached) -> bool {
        let mut grown = false;
        for (index, arc) in self.arcs.iter().enumerate() {
            let tail = arc.tail();
            let head = arc.head();
            if 0 < arc.ahead && reached[tail].is_some() && reached[head].is_none() {
                reached[head] = Some(Step::Ahead(index));
                grown = true;
            }
            if 0 < arc.back && reached[head].is_some() && reached[tail].is_none() {
                reached[tail] = Some(Step::Back(index));
                grown = true;
            }
        }
        grown
    }

    // Passes until the sink is reached or nothing more is.
    fn reach(&self, source: usize, sink: usize) -> Reached
        requires { (source < 64) × (sink < 64) }
    {
        let mut reached: Reached = [None; 64];
        reached[source] = Some(Step::Source);
        for _ in 0..64 {
            let grown = self.pass(&mut reached);
            if reached[sink].is_some() || !grown {
                return reached;
            }
        }
        reached
    }

    // One block more along the last arc of a path; answers the node before it.
    fn push(&mut self, step: Step) -> Option<usize> {
        match step {
            Step::Source => None,
            Step::Ahead(index) => {
                let arc = self.arcs.get_mut(index)?;
                arc.ahead = arc.ahead.wrapping_sub(1);
                arc.back = arc.back.wrapping_add(1);
                Some(arc.tail())
            }
            Step::Back(index) => {
                let arc = self.arcs.get_mut(index)?;
                arc.back = arc.back.wrapping_sub(1);
                arc.ahead = arc.ahead.wrapping_add(1);
                Some(arc.head())
            }
        }
    }

    // One block more along the path that leads to the sink.
    fn augment(&mut self, reached: &Reached, sink: usize)
        requires { sink < 64 }
    {
        let mut at = sink;
        for _ in 0..64 {
            let Some(step) = reached[at % 64] else {
                return;
            };
            let Some(before) = self.push(step) else {
                return;
            };
            at = before;
        }
    }
}

// The maximum flow from the origin in slot 0 to the destination in the last slot, block by block.
pub fn maximum(sample: &Sample, horizon: usize, holding: bool) -> u64
    requires { horizon ≤ 8 }
{
    if horizon == 0 {
        return 0;
    }
    let source = usize::from(node(sample.origin(), 0));
    let sink = usize::from(node(sample.destination(), horizon - 1));
    let expansion = Expansion {
        sample,
        horizon,
        holding,
    };
    let mut graph = expansion.graph();
    for blocks in 0..1000 {
        let reached = graph.reach(source, sink);
        if reached[sink].is_none() {
            return blocks;
        }
        graph.augment(&reached, sink);
    }
    1000
}
