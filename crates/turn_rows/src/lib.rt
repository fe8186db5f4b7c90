// The rows of one turn of taking a static flow apart, stored: one for the departures at the whole rate, one for the last blocks.
#![tactic(auto)]

ghost use Rattle.std.specs.Prelude.{◌≡◌, ◌+◌, ◌<◌};
ghost use Rattle.limits.specs.Limits.{most_rows};
ghost use Rattle.turn_rows.specs.Stored.{row_along, TurnStored};

use plans::Row;
use portions::Portion;
use routes::Route;

// A row over a route.
fn row_along(route: Route, length: u32, rate: u32, first: u32, departures: u32) -> Row
    ensures { result ≡ row_along route length rate first departures }
{
    let links = route.links;
    Row {
        links,
        count: route.count,
        length,
        rate,
        first,
        departures,
    }
}

// Stores the rows of a turn from row `count` on, with blocks or without, and answers how many rows count now: a row without blocks is
// written over by the next. The rows are an array that is lent, with a count beside it, since nothing allocates.
pub fn store(
    rows: &mut [Row; 257],
    count: usize,
    route: Route,
    length: u32,
    rate: u32,
    portion: Portion,
) -> usize
    requires { count + 1 < most_rows }
    ensures { TurnStored rows.old count route length rate portion rows.new result }
{
    rows[count] = row_along(route, length, rate, 0, portion.departures);
    let next = count + usize::from(0 < portion.departures);
    rows[next] = row_along(route, length, portion.last, portion.departures, 1);
    next + usize::from(0 < portion.last)
}
