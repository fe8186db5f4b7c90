// Relaxing the arcs that leave a place in the residual network of a static flow.
#![tactic(auto)]

ghost use Rattle.std.specs.Prelude.{get_or};
ghost use Rattle.residual.specs.declared.Direction.TheVariants.{Along, Against};
ghost use Rattle.residual.specs.Relax.{side, Relaxing, BothRelaxed};

use nearest::Ring;
use residual::{Direction, Labels, Residual, Side};

// Relaxes the arcs that leave `place`: along the links that start there, and against the links that end there. Places that come to be as
// near as `place` are kept in the ring, for `nearest::nearest` to try. What the ring holds decides between places that are equally near,
// and so which of several plans is made; no promise depends on it.
pub fn relax_place(labels: &mut Labels, ring: &mut Ring, place: usize, residual: Residual<'_>)
    requires along { Relaxing
        (side residual.index.now.out.next residual.network.now.links residual.flow.now residual.potential.now place Along)
        (get_or residual.index.now.out.first place 0) labels.old }
    requires against { Relaxing
        (side residual.index.now.into.next residual.network.now.links residual.flow.now residual.potential.now place Against)
        (get_or residual.index.now.into.first place 0) labels.old }
    ensures { BothRelaxed
        (side residual.entry.index.now.out.next residual.entry.network.now.links residual.entry.flow.now residual.entry.potential.now place Along)
        (get_or residual.entry.index.now.out.first place 0)
        (side residual.entry.index.now.into.next residual.entry.network.now.links residual.entry.flow.now residual.entry.potential.now place Against)
        (get_or residual.entry.index.now.into.first place 0) labels.old
        labels.new }
{
    let along = Side {
        chains: &residual.index.out,
        links: &residual.network.links,
        flow: residual.flow,
        potential: residual.potential,
        place,
        direction: Direction::Along,
    };
    relax_side::relax_side(labels, ring, along);
    let against = Side {
        chains: &residual.index.into,
        direction: Direction::Against,
        ..along
    };
    relax_side::relax_side(labels, ring, against);
}
