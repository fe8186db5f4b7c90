// The distance that an arc of the residual network offers to its head.
#![tactic(auto)]

ghost use Rattle.std.specs.Prelude.{◌≡◌, ◌≤◌, ltb};
ghost use Rattle.std.specs.Int.Signed.{mag};
ghost use Rattle.residual.specs.Residual.{cost_of};
ghost use Rattle.residual.specs.Relax.{Offering, signed, room_of, offered};

use flows::Link;
use residual::{Direction, FAR};

// An arc's transit: a link's, negated against the link.
fn arc_transit(transit: u32, direction: Direction) -> i64
    ensures { result ≡ signed direction transit }
{
    match direction {
        Direction::Along => i64::from(transit),
        Direction::Against => -i64::from(transit),
    }
}

// An arc's reduced cost: its transit, and the potential of its tail less that of its head; it may be below zero.
fn reduced_cost(tail: u32, head: u32, transit: i64) -> i64
    requires { mag transit ≤ 4294967296 }
    ensures { result ≡ cost_of tail head transit }
{
    transit + (i64::from(tail) - i64::from(head))
}

// Whether an arc over a link has room: along the link while it is not full, against it while there are blocks on it.
fn has_room(capacity: u32, blocks: u32, direction: Direction) -> bool
    ensures { result ≡ ltb 0 (room_of capacity blocks direction) }
{
    match direction {
        Direction::Along => blocks < capacity,
        Direction::Against => 0 < blocks,
    }
}

// The distance that an arc over a link with so many blocks on it offers to its head, `FAR` where it has no room: `tail` and `head` are the
// potentials of its ends, `distance` is that of its tail.
pub fn offer(
    link: &Link,
    direction: Direction,
    blocks: u32,
    distance: u32,
    tail: u32,
    head: u32,
) -> u32
    requires { Offering (room_of link.now.capacity blocks direction) distance tail head link.now.transit direction }
    ensures { result ≡ offered (room_of link.now.capacity blocks direction) distance (cost_of tail head (signed direction link.now.transit)) }
{
    if has_room(link.capacity, blocks, direction) {
        let cost = reduced_cost(tail, head, arc_transit(link.transit, direction));
        distance + cost as u32 // fits: a sum of transits of a path
    } else {
        FAR
    }
}
