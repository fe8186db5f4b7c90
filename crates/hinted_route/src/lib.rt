// A route by a hint that passed its test.
#![tactic(auto)]

ghost use Rattle.std.specs.Prelude.{◌≡◌, true, ◌≤◌, take};
ghost use Rattle.limits.specs.Limits.{most_row_links};
ghost use Rattle.hinted_route.specs.Remaining.{IsRouteOver, HintedRoute};

use limits::{MOST_PLACES, MOST_ROW_LINKS};
use network::Network;
use route_hint::Proposal;
use routes::Route;

// Do the links proposed lead from the origin to the destination, each with blocks left, and visit no place twice? They are looked at from
// the destination back, and the places met so far are marked. What is no link or no place is turned down, so nothing is asked of the
// numbers. `as`: usize has no From<u32>.
fn carries(network: &Network, left: &[u32; 256], proposal: &Proposal) -> bool
    ensures { result ≡ true → (proposal.now.count ≤ most_row_links) × IsRouteOver network.now left.now (take proposal.now.count proposal.now.links) }
{
    let count = proposal.count;
    if MOST_ROW_LINKS < count {
        return false;
    }
    let destination = network.destination;
    if MOST_PLACES <= destination {
        return false;
    }
    let mut seen = [false; 64];
    seen[destination as usize] = true;
    let mut place = destination;
    for i in (0..count as usize).rev() {
        let e = usize::from(proposal.links[i]);
        if network.count as usize <= e {
            return false;
        }
        let link = network.links[e];
        if link.end != place {
            return false;
        }
        if left[e] == 0 {
            return false;
        }
        let from = link.start;
        if MOST_PLACES <= from {
            return false;
        }
        let at = from as usize;
        if seen[at] {
            return false;
        }
        seen[at] = true;
        place = from;
    }
    place == network.origin
}

// The route that a hint proposes, if it is one over the network's links with what is `left` for capacities. `next` goes on from each link
// to the next that starts at the same place, and `current` has for each place the link from which on some may have blocks left.
pub fn hinted(
    network: &Network,
    next: &[u32; 256],
    left: &[u32; 256],
    current: &mut [u32; 64],
) -> Option<Route>
    ensures { HintedRoute network.now left.now result }
{
    let proposal = route_hint::propose(network, next, left, current);
    if carries(network, left, &proposal) {
        let Proposal { links, count } = proposal;
        Some(Route { links, count })
    } else {
        None
    }
}
