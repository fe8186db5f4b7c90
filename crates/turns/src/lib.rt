// One turn of taking a static flow apart: the bottleneck of a route, and its rate taken off each of its links.
#![tactic(auto)]

ghost use Rattle.std.specs.Prelude.{◌≡◌};
ghost use Rattle.routes.specs.Route.{links_of};
ghost use Rattle.turns.specs.Turn.{least_on, lessened, Takeable};

use routes::Route;

// The most that can go over a route in each slot, up to `most`: its bottleneck.
pub fn least(flow: &[u32; 256], route: &Route, most: u32) -> u32
    ensures { result ≡ least_on flow.now most (links_of route.now) }
{
    let links = route.links();
    let mut rate = most;
    for link in links {
        rate = rate.min(flow[usize::from(*link)]);
    }
    rate
}

// Takes a route's rate off the blocks that are left.
pub fn take_off(left: &mut [u32; 256], route: &Route, rate: u32)
    requires { Takeable left.old route.now rate }
    ensures { left.new ≡ lessened left.old rate (links_of route.now) }
{
    let links = route.links();
    for link in links {
        left[usize::from(*link)] -= rate;
    }
}
