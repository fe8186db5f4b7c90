// A row of a plan's record, read at a position of its slice.
#![tactic(auto)]

ghost use Rattle.std.specs.Prelude.{◌≡◌, [], ◌-◌, ◌≤◌, length, take, drop};
ghost use Rattle.limits.specs.Limits.{most_links, most_row_links};
ghost use Rattle.plans.specs.Record.{read_numbers, read_tail, read_row};
ghost use Rattle.plans.specs.Held.{padded};
ghost use Rattle.plan_parts.specs.Cursor.{chain_answer, row_answer};

use numbers::Part;
use plans::Row;
use refusals::Refusal;

// A row's link numbers at a position, as many as count: an array with a count, since nothing allocates. `as usize`: usize has no From<u32>; `as u8` fits: a link number is below 256.
fn read_chain(s: &[u8], start: usize, count: u32, links: u32) -> Result<Part<[u8; 63]>, Refusal>
    requires { (start ≤ length s.now) × (count ≤ most_row_links) × (1 ≤ links) × (links ≤ most_links) }
    ensures { result ≡ chain_answer (length s.now) (read_numbers count 0 (links - 1) (drop start s.now) []) }
{
    let mut chain = [0u8; 63];
    let mut at = start;
    for i in 0..count as usize {
        let n = plan_parts::read_number(s, at, 0, links - 1)?;
        chain[i] = n.value as u8;
        at = n.next;
    }
    Ok(Part {
        value: chain,
        next: at,
    })
}

// A row's numbers after its links, at a position: its length, rate, first slot, departures. The row has these links, so many of them.
fn read_tail(s: &[u8], at: usize, links: [u8; 63], count: u32) -> Result<Part<Row>, Refusal>
    requires { (links ≡ padded most_row_links (take count links)) × (count ≡ length (take count links)) }
    ensures { result ≡ row_answer (length s.now) (read_tail (take count links) (drop at s.now)) }
{
    let length = plan_parts::read_number(s, at, 0, limits::LONGEST_LENGTH)?;
    let rate = plan_parts::read_number(s, length.next, limits::LEAST_RATE, limits::MOST_RATE)?;
    let first = plan_parts::read_number(s, rate.next, 0, limits::LATEST_FIRST)?;
    let departures = plan_parts::read_number(
        s,
        first.next,
        limits::LEAST_DEPARTURES,
        limits::MOST_DEPARTURES,
    )?;
    let row = Row {
        links,
        count,
        length: length.value,
        rate: rate.value,
        first: first.value,
        departures: departures.value,
    };
    Ok(Part {
        value: row,
        next: departures.next,
    })
}

// The row at a position: the number of links, the link numbers, then the numbers after them. The network's number of links was just read: in a
// type of its own it would be unwrapped at each use.
pub fn read_row(s: &[u8], start: usize, links: u32) -> Result<Part<Row>, Refusal>
    requires { (start ≤ length s.now) × (1 ≤ links) × (links ≤ most_links) }
    ensures { result ≡ row_answer (length s.now) (read_row links (drop start s.now)) }
{
    let count = plan_parts::read_number(
        s,
        start,
        limits::FEWEST_ROW_LINKS,
        limits::MOST_ROW_LINKS,
    )?;
    let Part { value: chain, next } = read_chain(s, count.next, count.value, links)?;
    read_tail(s, next, chain, count.value)
}
