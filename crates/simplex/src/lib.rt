// A hint: a network simplex that proposes a static flow with potentials. It is proved safe and ending, and nothing else is promised of
// what it proposes: whoever uses it tests it (crate soundness), and goes on without it where the test fails.
//
// The arcs are the links and the return arc, from the destination to the origin, whose number is the links' count. Costs are twice the
// transits; the return arc's cost is twice the horizon below zero, or one above that: a flow that is optimal half a slot before a horizon
// is optimal for the horizon and for one slot less, and its potentials, halved and rounded down, are a cut for one slot less. A flow
// that brings more than an amount by the horizon shows at once by how many slots it is too long (Newton's method).
#![tactic(auto)]

ghost use Rattle.std.specs.Prelude.{◌<◌};

use network::Network;
use pivots::{Arc, Basis};
use residual::{Index, Tree};
use spanning_tree::SpanningTree;
use states::State;

// How many pivots are made at most.
const BUDGET: usize = 20000;

// Above every value of a static flow and every potential: the return arc's capacity, and the cost of a link that can't be used.
const MANY: u32 = 1610612736;

// A simplex at work, for an amount or (none) for as much as the slots take: where it looks for the next arc that may enter, the horizon
// in slots, and by how much its pivots have lowered the flow's cost.
#[derive(Drop)]
struct Simplex<'a> {
    basis: &'a mut Basis,
    links: usize,
    next: usize,
    destination: u32,
    amount: Option<u32>,
    horizon: u32,
    saved: u64,
    ghost return_arc: { links < 257 },
    ghost next_arc: { next < 257 },
}

// An arc that may enter the tree, and how far its reduced cost is below zero.
#[derive(Clone, Copy)]
struct Entry {
    arc: u32,
    saving: u32,
}

// The product, which u64 holds: u32 has no product that widens.
fn times(a: u32, b: u32) -> u64 {
    u64::from(a) * u64::from(b)
}

// Half of a potential, from 0 to the level.
fn half(potential: u32, level: u32) -> u32 {
    if 2147483648 <= potential {
        0
    } else {
        level.min(potential / 2)
    }
}

impl Simplex<'_> {
    // The slots that a flow for an amount is optimal before the horizon, twice.
    fn before(&self) -> u32 {
        u32::from(self.amount.is_some())
    }

    // The links as arcs; one without capacity, or from a place outside the tree, costs so much that it never enters.
    fn load(&mut self, network: &Network) {
        for e in 0..self.links {
            let link = network.links[e];
            let open = 0 < link.capacity && self.basis.tree.places.has(link.start);
            self.basis.arcs[e] = Arc {
                tail: link.start,
                head: link.end,
                cost: if open {
                    link.transit.wrapping_add(link.transit)
                } else {
                    MANY
                },
                flow: 0,
                capacity: if open { link.capacity } else { 0 },
            };
        }
    }

    // The return arc.
    fn close(&mut self, origin: u32) {
        let twice = self.horizon.wrapping_add(self.horizon);
        self.basis.arcs[self.links] = Arc {
            tail: self.destination,
            head: origin,
            cost: self.before().wrapping_sub(twice),
            flow: 0,
            capacity: MANY,
        };
    }

    // How far an arc's reduced cost is below zero, 0 where it is not.
    fn saving(&self, a: usize) -> u32
        requires { a < 257 }
    {
        let arc = self.basis.at(a);
        let at_tail = self.basis.tree.potential(arc.tail);
        let at_head = self.basis.tree.potential(arc.head);
        let below = at_head.wrapping_sub(at_tail).wrapping_sub(arc.cost);
        if below < 2147483648 { below } else { 0 }
    }

    // Of as many arcs, from the next on in turn, the one that saves the most. The next is counted by hand, since the arcs after these go on
    // from where it comes to. `as` fits: below 257.
    fn best_of(&mut self, count: usize) -> Option<Entry> {
        let mut best = Entry { arc: 0, saving: 0 };
        let mut a = self.next;
        for _ in 0..count {
            let saving = self.saving(a);
            if best.saving < saving {
                best = Entry {
                    arc: a as u32,
                    saving,
                };
            }
            a = if a < self.links { a + 1 } else { 0 };
        }
        self.next = a;
        (0 < best.saving).then_some(best)
    }

    // The arc that saves the most in the first block of eight arcs, from the next on, that has one.
    fn enter(&mut self) -> Option<Entry> {
        let arcs = self.links + 1;
        for block in 0..arcs.div_ceil(8) {
            let entry = self.best_of((arcs - 8 * block).min(8));
            if entry.is_some() {
                return entry;
            }
        }
        None
    }

    // What the flow brings in each slot.
    fn value(&self) -> u32 {
        self.basis.at(self.links).flow
    }

    // By how many slots the horizon is too long for the amount, where the flow brings `saved` / 2 half a slot before it. `as` fits: a remainder
    // by 2^32.
    fn surplus(&self) -> u32 {
        let value = u64::from(self.value());
        match self.amount {
            Some(amount) if 0 < value => {
                let brought = self.saved.wrapping_add(value);
                let spare = brought.wrapping_sub(2 * u64::from(amount));
                (spare / (2 * value) % 4294967296) as u32
            }
            _ => 0,
        }
    }

    // Lowers the horizon: the return arc costs so much more, and the potentials of the destination's subtree fall.
    fn shorten(&mut self, slots: u32) {
        let twice = slots.wrapping_add(slots);
        self.horizon = self.horizon.wrapping_sub(slots);
        self.saved = self.saved.wrapping_sub(times(twice, self.value()));
        let back = &mut self.basis.arcs[self.links];
        back.cost = back.cost.wrapping_add(twice);
        let below = self.basis.tree.node(self.destination).subtree;
        self.basis.tree.shift(below, twice.wrapping_neg());
    }

    // Pivots until no arc may enter, at most BUDGET of them; a horizon too long for the amount is shortened on the way.
    fn improve(&mut self) {
        for _ in 0..BUDGET {
            let entry = self.enter();
            if let Some(Entry { arc, saving }) = entry {
                let blocks = self.basis.pivot(arc, saving);
                self.saved = self.saved.wrapping_add(times(blocks, saving));
            }
            let surplus = self.surplus();
            if 0 < surplus {
                self.shorten(surplus);
            } else if entry.is_none() {
                return;
            }
        }
    }

    // What is on each link.
    fn flow(&self, network: &Network) -> [u32; 256] {
        let mut flow = [0; 256];
        for e in 0..self.links {
            let arc = self.basis.at(e);
            flow[e] = if arc.tail == network.links[e].start {
                arc.flow
            } else {
                arc.capacity.wrapping_sub(arc.flow)
            };
        }
        flow
    }

    // Half of each potential; the level for places outside the tree.
    fn potential(&self) -> [u32; 64] {
        let level = self.horizon.wrapping_sub(self.before());
        let mut halves = [level; 64];
        for v in self.basis.tree.places {
            halves[guarded::place(v)] = half(self.basis.tree.potential(v), level);
        }
        halves
    }
}

// Slots that are enough for an amount: those that a path lasts, and those that the amount takes at a rate. `as` fits: a remainder by 2^32.
pub fn enough(lasts: u32, rate: u64, amount: u32) -> u32 {
    if rate == 0 {
        return lasts;
    }
    let whole = (u64::from(amount) / rate % 4294967296) as u32;
    lasts.wrapping_add(whole.wrapping_add(1))
}

// Proposes a state, from what the first search found and the links at each place. For an amount, and slots that are enough for it: one that
// is optimal for the least such number of slots, and whose potentials are one slot less. For no amount: one that is optimal for as many
// slots. Not over a `Graph`, which is proved of a network that is well formed: a hint asks for nothing.
pub fn propose(
    network: &Network,
    index: &Index,
    search: &Tree,
    slots: u32,
    amount: Option<u32>,
) -> State {
    let mut basis = Basis {
        arcs: [Arc::NONE; 257],
        tree: SpanningTree::span(search, index, network),
    };
    let links = guarded::arc(network.count);
    let mut simplex = Simplex {
        basis: &mut basis,
        links,
        next: links,
        destination: network.destination,
        amount,
        horizon: slots,
        saved: 0,
    };
    simplex.load(network);
    simplex.close(network.origin);
    simplex.improve();
    State {
        flow: simplex.flow(network),
        value: u64::from(simplex.value()),
        potential: simplex.potential(),
    }
}
