// Pivots of a network simplex. An arc stands in the direction in which it carries `flow` of `capacity`: one that leaves the tree full
// is turned round, so every arc outside the tree carries nothing, and it may enter where its reduced cost (its cost, and the potential
// at its tail less that at its head) is below zero. A part of the simplex's hint: safe and ending, and nothing else is promised. Places'
// and arcs' numbers are brought into range where they are used, and sums wrap.
#![tactic(auto)]

ghost use Rattle.std.specs.Prelude.{◌<◌};

use spanning_tree::{Hanging, SpanningTree};

#[derive(Clone, Copy)]
pub struct Arc {
    pub tail: u32,
    pub head: u32,
    pub cost: u32,
    pub flow: u32,
    pub capacity: u32,
}

// The arcs, and the spanning tree of some of them.
#[derive(Clone, Copy)]
pub struct Basis {
    pub arcs: [Arc; 257],
    pub tree: SpanningTree,
}

// The cycle that an arc closes with the tree has two sides, from its tail and from its head up to the join, the place where they meet.
// What goes round comes down from the join to the tail, and goes up from the head to the join.
#[derive(Clone, Copy, PartialEq, Eq)]
enum Side {
    Tail,
    Head,
}

// An arc of the tree on a cycle: the place whose predecessor arc it is, and on which side that is.
#[derive(Clone, Copy)]
struct TreeArc {
    place: u32,
    side: Side,
}

// By how many blocks the flow round a cycle can rise, what stops it then (none: the arc that closes the cycle), and the join.
#[derive(Clone, Copy)]
struct Leaving {
    room: u32,
    cut: Option<TreeArc>,
    join: u32,
}

impl Arc {
    // An arc that carries nothing and has room for nothing.
    pub const NONE: Arc = Arc {
        tail: 0,
        head: 0,
        cost: 0,
        flow: 0,
        capacity: 0,
    };

    // Does what goes round the cycle go along the arc, which stands at `at` there, or against it?
    fn goes_round(&self, at: TreeArc) -> bool {
        (self.tail == at.place) == (at.side == Side::Head)
    }

    // How much more can go round over the arc.
    fn room(&self, at: TreeArc) -> u32 {
        if self.goes_round(at) {
            self.capacity.wrapping_sub(self.flow)
        } else {
            self.flow
        }
    }

    fn push(&mut self, at: TreeArc, blocks: u32) {
        self.flow = if self.goes_round(at) {
            self.flow.wrapping_add(blocks)
        } else {
            self.flow.wrapping_sub(blocks)
        };
    }

    // The arc turned round: it carries what it lacked.
    fn reversed(self) -> Arc {
        Arc {
            tail: self.head,
            head: self.tail,
            cost: self.cost.wrapping_neg(),
            flow: self.capacity.wrapping_sub(self.flow),
            capacity: self.capacity,
        }
    }
}

impl Basis {
    // The arc at an index.
    pub fn at(&self, a: usize) -> Arc
        requires { a < 257 }
    {
        self.arcs[a]
    }

    fn arc(&self, number: u32) -> Arc {
        self.at(guarded::arc(number))
    }

    fn reverse(&mut self, number: u32) {
        let a = guarded::arc(number);
        self.arcs[a] = self.arcs[a].reversed();
    }

    // What stops the flow on one side of a cycle, from `lower` up to the first place whose subtree has `other`, if it stops it no later
    // than what was found before: of equally narrow arcs that next to the join on the tail's side, then that next to the head.
    fn narrow(&self, side: Side, lower: u32, other: u32, before: Leaving) -> Leaving {
        let mut leaving = before;
        let mut w = lower;
        for _ in 0..64 {
            let node = self.tree.node(w);
            if node.subtree.has(other) {
                break;
            }
            let at = TreeArc { place: w, side };
            let room = self.arc(node.predecessor).room(at);
            if room < leaving.room || room == leaving.room && side == Side::Tail {
                leaving.room = room;
                leaving.cut = Some(at);
            }
            w = node.parent;
        }
        leaving.join = w;
        leaving
    }

    // Pushes blocks along one side of a cycle, between `lower` and the join.
    fn push(&mut self, side: Side, lower: u32, join: u32, blocks: u32) {
        let mut w = lower;
        for _ in 0..64 {
            if w == join {
                return;
            }
            let node = self.tree.node(w);
            self.arcs[guarded::arc(node.predecessor)].push(TreeArc { place: w, side }, blocks);
            w = node.parent;
        }
    }

    // Pushes as many blocks round the cycle that the arc `entering` closes as it takes, and answers what stopped them.
    fn circulate(&mut self, entering: u32) -> Leaving {
        let arc = self.arc(entering);
        let alone = Leaving {
            room: arc.capacity,
            cut: None,
            join: arc.tail,
        };
        let down = self.narrow(Side::Tail, arc.tail, arc.head, alone);
        let leaving = self.narrow(Side::Head, arc.head, arc.tail, down);
        let blocks = leaving.room;
        if 0 < blocks {
            let entered = &mut self.arcs[guarded::arc(entering)];
            entered.flow = entered.flow.wrapping_add(blocks);
            self.push(Side::Tail, arc.tail, leaving.join, blocks);
            self.push(Side::Head, arc.head, leaving.join, blocks);
        }
        leaving
    }

    // The arc `entering` takes the place of the predecessor arc that was cut, which leaves the tree: the subtree below that hangs by the end
    // of `entering` on whose side the cut is, and the potentials there change by what the arc saves. The answer is nothing.
    fn exchange(&mut self, entering: u32, saving: u32, cut: TreeArc, join: u32) {
        let leaving = self.tree.node(cut.place).predecessor;
        if 0 < self.arc(leaving).flow {
            self.reverse(leaving);
        }
        let Arc { tail, head, .. } = self.arc(entering);
        let (inner, above, gain) = match cut.side {
            Side::Tail => (tail, head, saving),
            Side::Head => (head, tail, saving.wrapping_neg()),
        };
        let hanging = Hanging {
            inner,
            arc: entering,
            above,
        };
        let moved = self.tree.rehang(cut.place, join, hanging);
        self.tree.shift(moved, gain);
    }

    // A pivot: the arc `entering`, whose reduced cost is `saving` below zero, enters the tree, and what stops the flow round the cycle that
    // it closes leaves; where that is the arc itself, it turns round. The answer is how many blocks went round.
    pub fn pivot(&mut self, entering: u32, saving: u32) -> u32 {
        let leaving = self.circulate(entering);
        match leaving.cut {
            Some(cut) => self.exchange(entering, saving, cut, leaving.join),
            None => self.reverse(entering),
        }
        leaving.room
    }
}
