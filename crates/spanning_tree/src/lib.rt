// The spanning tree of the simplex. It begins as the tree of the first search, carried on to all places that links with capacity reach, and
// the potential of a place is twice the transits of the tree's path to it. A part of the simplex's hint: safe and ending, and nothing else
// is promised. Places' numbers are brought into range where they are used.
#![tactic(auto)]

use flows::Link;
use network::Network;
use places::Places;
use residual::{FAR, Index, Tree};

// How a place stands in the tree: its parent, the arc between the two, and the set of the places in its subtree.
#[derive(Clone, Copy)]
pub struct Node {
    pub parent: u32,
    pub predecessor: u32,
    pub subtree: Places,
}

// A tree of the places in a set, and each place's potential. A potential is no part of a node: a subtree that is hung anew gives its places
// other nodes and leaves their potentials, which `shift` changes alone. Any arrays will do: what is done with them is safe and ends.
#[derive(Clone, Copy)]
pub struct SpanningTree {
    pub nodes: [Node; 64],
    pub potential: [u32; 64],
    pub places: Places,
}

// How a subtree is to hang: by which of its places and which arc, below which place outside it.
#[derive(Clone, Copy)]
pub struct Hanging {
    pub inner: u32,
    pub arc: u32,
    pub above: u32,
}

// A tree that grows, and its places as a queue in which each stands after its parent: an array with a count, since nothing allocates.
#[derive(Clone, Copy)]
struct Growth {
    tree: SpanningTree,
    queue: [u32; 64],
    count: u32,
}

impl Growth {
    fn begin() -> Growth {
        let node = Node {
            parent: 0,
            predecessor: 0,
            subtree: Places::NONE,
        };
        Growth {
            tree: SpanningTree {
                nodes: [node; 64],
                potential: [0; 64],
                places: Places::NONE,
            },
            queue: [0; 64],
            count: 0,
        }
    }

    fn push(&mut self, v: u32) {
        self.queue[guarded::place(self.count)] = v;
        self.count = self.count.wrapping_add(1);
    }

    // Puts the places of a search's tree into the queue: those settled, in turn, and those that still wait. `as` fits: below 64.
    fn enqueue(&mut self, search: &Tree, settled: u32) {
        self.count = settled;
        for v in 0..64 {
            let place = v as u32;
            if let Some(turn) = search.rank[v].checked_sub(1) {
                self.queue[guarded::place(turn)] = place;
            } else if search.distance[v] < FAR {
                self.push(place);
            }
        }
    }

    // Puts the places of the queue into the tree, by the arcs of the search.
    fn plant(&mut self, search: &Tree, network: &Network) {
        for i in 0..self.count.min(64) {
            let place = self.queue[guarded::place(i)];
            let v = guarded::place(place);
            let link = search.arc[v] / 2;
            let distance = search.distance[v];
            let start = network.links[guarded::link(link)].start;
            self.tree
                .join(place, start, link, distance.wrapping_add(distance));
        }
    }

    // Hangs below the place `u` the places outside the tree to which its links with capacity lead.
    fn grow_below(&mut self, u: u32, index: &Index, network: &Network) {
        let potential = self.tree.potential(u);
        let out = &index.out;
        let mut named = out.first[guarded::place(u)];
        for _ in 0..256 {
            let Some(link) = named.checked_sub(1) else {
                return;
            };
            let e = guarded::link(link);
            let Link {
                end,
                capacity,
                transit,
                ..
            } = network.links[e];
            if 0 < capacity && !self.tree.places.has(end) {
                let twice = transit.wrapping_add(transit);
                self.tree.join(end, u, link, potential.wrapping_add(twice));
                self.push(end);
            }
            named = out.next[e];
        }
    }

    // Grows the tree below the places of its queue in turn, from the place settled last on: those settled before it lead to the queue's
    // places only.
    fn grow(&mut self, settled: u32, index: &Index, network: &Network) {
        for i in settled.saturating_sub(1)..64 {
            if self.count <= i {
                return;
            }
            self.grow_below(self.queue[guarded::place(i)], index, network);
        }
    }

    // Adds each place's subtree to its parent's, from the queue's end on.
    fn gather(&mut self) {
        for i in (1..self.count.min(64)).rev() {
            let node = self.tree.node(self.queue[guarded::place(i)]);
            let above = &mut self.tree.nodes[guarded::place(node.parent)];
            above.subtree = above.subtree.union(node.subtree);
        }
    }
}

impl SpanningTree {
    // The spanning tree from a search's tree whose last place settled is the destination, over the network's links at each place. Not
    // over a `Graph`, which is proved of a network that is well formed: a hint asks for nothing.
    pub fn span(search: &Tree, index: &Index, network: &Network) -> SpanningTree {
        let settled = search.rank[guarded::place(network.destination)];
        let mut growth = Growth::begin();
        growth.enqueue(search, settled);
        growth.plant(search, network);
        growth.grow(settled, index, network);
        growth.gather();
        growth.tree
    }

    pub fn node(&self, v: u32) -> Node {
        self.nodes[guarded::place(v)]
    }

    pub fn potential(&self, v: u32) -> u32 {
        self.potential[guarded::place(v)]
    }

    // A place that is not in the tree joins it, with no place below it.
    fn join(&mut self, v: u32, parent: u32, predecessor: u32, potential: u32) {
        let alone = Places::only(v);
        self.nodes[guarded::place(v)] = Node {
            parent,
            predecessor,
            subtree: alone,
        };
        self.potential[guarded::place(v)] = potential;
        self.places = self.places.union(alone);
    }

    // Adds to the potentials of a set of places.
    pub fn shift(&mut self, places: Places, by: u32) {
        for v in places {
            let at = guarded::place(v);
            self.potential[at] = self.potential[at].wrapping_add(by);
        }
    }

    // The places from `lower` up to `join` lose a set of places, which their subtrees have, or gain one, which they have not.
    fn change(&mut self, lower: u32, join: u32, places: Places) {
        let mut w = lower;
        for _ in 0..64 {
            if w == join {
                return;
            }
            let node = &mut self.nodes[guarded::place(w)];
            node.subtree = node.subtree.either(places);
            w = node.parent;
        }
    }

    // From the place by which a subtree hangs up to the place `top`, by which it hung before, child and parent change places.
    fn turn_over(&mut self, top: u32, hanging: Hanging, places: Places) {
        let mut w = hanging.inner;
        let mut above = hanging.above;
        let mut arc = hanging.arc;
        let mut below = Places::NONE;
        for _ in 0..64 {
            let v = guarded::place(w);
            let before = self.nodes[v];
            self.nodes[v] = Node {
                parent: above,
                predecessor: arc,
                subtree: places.either(below),
            };
            if w == top {
                return;
            }
            below = before.subtree;
            above = w;
            arc = before.predecessor;
            w = before.parent;
        }
    }

    // Takes the subtree of `top` from its place, and hangs it where the old path and the new one meet in `join`. The answer is the set of
    // its places.
    pub fn rehang(&mut self, top: u32, join: u32, hanging: Hanging) -> Places {
        let node = self.node(top);
        self.change(node.parent, join, node.subtree);
        self.change(hanging.above, join, node.subtree);
        self.turn_over(top, hanging, node.subtree);
        node.subtree
    }
}
