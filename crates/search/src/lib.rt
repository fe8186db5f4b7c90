// The search for an augmenting path in the residual network of a static flow.
#![tactic(auto)]

ghost use Rattle.std.specs.Prelude.{◌≡◌};
ghost use Rattle.network.specs.Held.{model_of};
ghost use Rattle.residual.specs.Index.{Indexed};
ghost use Rattle.residual.specs.Tree.{Searchable, Searched};

use nearest::Ring;
use residual::{FAR, Labels, Residual, Tree};

// What a search ends with: `reach` is the destination's distance, `FAR` where it was not found.
fn ended(labels: &Labels, rank: [u32; 64], reach: u32, found: bool) -> Tree
    ensures { result ≡ record { distance = labels.now.distance; arc = labels.now.arc; rank = rank; reach = reach; found = found } }
{
    let Labels { distance, arc, .. } = *labels;
    Tree {
        distance,
        arc,
        rank,
        reach,
        found,
    }
}

// Searches the residual network of `flow` from the origin, by reduced costs, until the destination is settled or nothing waits
// (Dijkstra): relaxes the arcs that leave the place settled last, and settles the nearest place that waits. Of places that are equally
// near the one noted first comes first, so that a path of the fewest arcs is found. `as`: usize has no From<u32>.
pub fn search(residual: Residual<'_>) -> Tree
    requires { Searchable (model_of residual.network.now) residual.flow.now residual.potential.now × Indexed (model_of residual.network.now) residual.index.now }
    ensures { Searched (model_of residual.entry.network.now) residual.entry.flow.now residual.entry.potential.now result }
{
    let places = residual.network.places as usize;
    let destination = residual.network.destination as usize;
    let mut u = residual.network.origin as usize;
    let mut labels = Labels {
        distance: [FAR; 64],
        waiting: [FAR; 64],
        arc: [0; 64],
    };
    labels.distance[u] = 0;
    let mut rank = [0; 64];
    rank[u] = 1;
    let mut settled: u32 = 1;
    let mut ring = Ring::new();
    while u != destination {
        let front = (settled % 64) as usize;
        ring.advance(front);
        relax::relax_place(&mut labels, &mut ring, u, residual);
        u = nearest::nearest(
            &labels.waiting,
            places,
            ring.place_at(front),
            labels.distance[u],
        );
        if labels.waiting[u] == FAR {
            return ended(&labels, rank, FAR, false);
        }
        settled += 1;
        rank[u] = settled;
        labels.waiting[u] = FAR;
    }
    let reach = labels.distance[u];
    ended(&labels, rank, reach, true)
}
