// A route over the flow that is left, proposed by a walk. Nothing is promised of it but safety and its end, and no answer depends on it: whoever uses it
// tests it.
// Every number of a place or a link is brought into range where it is used.
#![tactic(auto)]

ghost use Rattle.std.specs.Prelude.{IfSome, ◌<◌};

use network::Network;

// The links of a walk, in order from the origin: an array with a count, since nothing allocates; no answer rests on either. No Route,
// whose type holds that its links stand in its array: of a hint nothing is known.
#[derive(Clone, Copy)]
pub struct Proposal {
    pub links: [u8; 63],
    pub count: u32,
}

// The first link of a chain with flow left, from the one named on. A chain names a link by one more than its number, and ends at 0.
fn with_flow(from: u32, next: &[u32; 256], left: &[u32; 256]) -> Option<usize>
    ensures { IfSome result (λ e. e < 256) }
{
    let mut named = from;
    for _ in 0..256 {
        let e = guarded::link(named.checked_sub(1)?);
        if 0 < left[e] {
            return Some(e);
        }
        named = next[e];
    }
    None
}

// Walks from the origin over links with flow left until it stands at the destination. Each place keeps the link by which it was last left
// (`current`): flow only falls, so that links before it have none left. A walk that meets itself or finds no way on is proposed too, as
// far as it went. Conversions by `as` fit: numbers of links below 256, and how many below 64.
pub fn propose(
    network: &Network,
    next: &[u32; 256],
    left: &[u32; 256],
    current: &mut [u32; 64],
) -> Proposal {
    let mut links = [0; 63];
    let mut count = 0;
    let mut place = network.origin;
    for (i, link) in links.iter_mut().enumerate() {
        if place == network.destination {
            break;
        }
        let at = guarded::place(place);
        let Some(e) = with_flow(current[at], next, left) else {
            current[at] = 0;
            break;
        };
        current[at] = e as u32 + 1;
        *link = e as u8;
        count = i as u32 + 1;
        place = network.links[e].end;
    }
    Proposal { links, count }
}
