// A static flow taken apart into the rows of a plan.
#![tactic(auto)]

ghost use Rattle.network.specs.Held.{model_of};
ghost use Rattle.routes.specs.Route.{links_of};
ghost use Rattle.decompose.specs.Found.{Flowing, Carries};
ghost use Rattle.decompose.specs.Fills.{Fillable, Filled};

use adjacency::Graph;
use plans::Row;
use routes::Route;
use states::State;

// A route over the blocks that are left, by a search: there is one while the flow has a value. It goes where blocks are left: they stand
// for capacities, and the chains of the links at each place stay.
fn searched(graph: &Graph, left: &[u32; 256]) -> Route
    requires { Flowing (model_of graph.now.network) left.now }
    ensures { Carries (model_of graph.now.network) left.now (links_of result) }
{
    let rest = Graph {
        network: network_columns::with_capacities(graph.network, left),
        index: graph.index,
    };
    match routes::find(&rest) {
        Some(route) => route,
        None => unreachable!(),
    }
}

// A route over the blocks that are left: a hint proposes it, and where what it proposes is none a search finds one.
fn next_route(graph: &Graph, left: &[u32; 256], current: &mut [u32; 64]) -> Route
    requires { Flowing (model_of graph.now.network) left.now }
    ensures { Carries (model_of graph.now.network) left.now (links_of result) }
{
    match hinted_route::hinted(&graph.network, &graph.index.out.next, left, current) {
        Some(route) => route,
        None => searched(graph, left),
    }
}

// The rows of a plan that brings the amount within the slots that count, stored from the first on, and how many: a route over the flow that is
// left, at the most that it has on each of its links, for as long as it arrives in time; then a route over what that leaves. `as u32` fits:
// the value is within all capacities together, and there are at most 257 rows.
pub fn fill(graph: &Graph, state: &State, amount: u32, slots: u32, rows: &mut [Row; 257]) -> u32
    requires { Fillable (model_of graph.now.network) state.now.flow state.now.value amount slots }
    ensures { Filled (model_of graph.now.network) graph.now.network.places state.now.flow amount slots rows.new result }
{
    let mut count: usize = 0;
    let mut left = state.flow;
    let mut current = graph.index.out.first;
    let mut carried = state.value as u32;
    let mut owed = amount;
    while 0 < owed {
        let route = next_route(graph, &left, &mut current);
        let rate = turns::least(&left, &route, carried);
        let length = durations::duration(&graph.network.links, route.links());
        let portion = portions::apportion(slots, length, rate, owed);
        count = turn_rows::store(rows, count, route, length, rate, portion);
        turns::take_off(&mut left, &route, rate);
        carried -= rate;
        owed = portion.owed;
    }
    count as u32
}
