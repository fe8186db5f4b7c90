// Relaxing the arcs of one chain of links that leave a place in the residual network of a static flow.
#![tactic(auto)]

ghost use Rattle.std.specs.Prelude.{◌≡◌, ◌+◌, ◌*◌, ◌<◌};
ghost use Rattle.limits.specs.Limits.{most_links};
ghost use Rattle.residual.specs.Relax.{parity, side_of, first_of, Relaxing, Relaxed};

use nearest::Ring;
use residual::{Direction, Labels, Side};

// The number of a link's arc.
fn arc_of(link: u32, direction: Direction) -> u32
    requires { link < most_links }
    ensures { result ≡ 2 * link + parity direction }
{
    match direction {
        Direction::Along => 2 * link,
        Direction::Against => 2 * link + 1,
    }
}

// Relaxes the arcs of a side, which leave its place: where an arc offers its head less than it has, the head's labels are lowered.
// Heads that come to be as near as the place are kept in the ring. `as`: usize has no From<u32>, and a link's number is below 256.
pub fn relax_side(labels: &mut Labels, ring: &mut Ring, side: Side<'_>)
    requires { Relaxing (side_of side) (first_of side) labels.old }
    ensures { Relaxed (side_of side.entry) (first_of side.entry) labels.old labels.new }
{
    let base = labels.distance[side.place];
    let tail = side.potential[side.place];
    let mut at = side.chains.first[side.place] as usize;
    while 0 < at {
        let e = at - 1;
        let link = &side.links[e];
        let head = side.direction.head(link);
        let w = head as usize;
        let least = arcs::offer(
            link,
            side.direction,
            side.flow[e],
            base,
            tail,
            side.potential[w],
        );
        if least < labels.distance[w] {
            labels.distance[w] = least;
            labels.waiting[w] = least;
            labels.arc[w] = arc_of(e as u32, side.direction);
            ring.note(head, least == base);
        }
        at = side.chains.next[e] as usize;
    }
}
