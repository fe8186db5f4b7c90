// An entry of a link log, read at a position of the log's record.
#![tactic(auto)]

ghost use Rattle.std.specs.Prelude.{◌≡◌, ◌≤◌, length, drop};
ghost use Rattle.limits.specs.Limits.{latest_logged_slot};
ghost use Rattle.numbers.specs.Position.{field_answer};
ghost use Rattle.logs.specs.Record.{number as readNumber, read_stamp, distance as distanceOf, grows as growsBy, read_entry};
ghost use Rattle.entry_reader.specs.Entry.{entry_answer, before_of, was_of};

use limits::{FAR_STAMP, LATEST_LOGGED_SLOT, MOST_LOG_BLOCKS};
use logs::{Entry, Stamped};
use numbers::{Part, Refusals};
use refusals::Refusal;

// The stamp at a position: four octets, least first.
fn read_stamp(octets: &[u8], at: usize) -> Result<Part<u32>, Refusal>
    requires { at ≤ length octets.now }
    ensures { result ≡ field_answer (length octets.now) (read_stamp (drop at octets.now)) }
{
    match octets[at..].first_chunk::<4>() {
        Some(stamp) => Ok(Part {
            value: u32::from_le_bytes(*stamp),
            next: at + 4,
        }),
        None => Err(Refusal::LogEntry),
    }
}

// The number at a position, with an entry's one refusal.
fn number(octets: &[u8], at: usize, high: u32) -> Result<Part<u32>, Refusal>
    ensures { result ≡ field_answer (length octets.now) (readNumber 0 high (drop at octets.now)) }
{
    field_reader::read_field(
        octets,
        at,
        0,
        high,
        Refusals {
            endless: Refusal::LogEntry,
            ended: Refusal::LogEntry,
            padded: Refusal::LogEntry,
            outside: Refusal::LogEntry,
        },
    )
}

// From one stamp to the next, across the counter's rollover.
fn distance(was: u32, stamp: u32) -> u32
    ensures { result ≡ distanceOf was stamp }
{
    stamp.wrapping_sub(was)
}

// By how much an entry's slot is later than that of the entry before it, if there is one: the distance of their stamps.
fn grows(was: Option<u32>, stamp: u32) -> u32
    ensures { result ≡ growsBy (before_of was) (was_of was) stamp }
{
    match was {
        Some(was) => distance(was, stamp),
        None => 0,
    }
}

// The entry at a position, behind an entry with this stamp, if there is one, and this slot. The slot stands beside the stamp, and not in
// one type with it: any slot up to the latest has been taken, before the first entry, too.
pub fn read_entry(
    octets: &[u8],
    at: usize,
    links: u32,
    was: Option<u32>,
    slot: u32,
) -> Result<Part<Stamped>, Refusal>
    requires { (at ≤ length octets.now) × (1 ≤ links) × (slot ≤ latest_logged_slot) }
    ensures { result ≡ entry_answer (length octets.now) (read_entry links (before_of was) (was_of was) slot (drop at octets.now)) }
{
    let stamp = read_stamp(octets, at)?;
    let link = number(octets, stamp.next, links - 1)?;
    let blocks = number(octets, link.next, MOST_LOG_BLOCKS)?;
    let later = grows(was, stamp.value);
    if FAR_STAMP <= later {
        return Err(Refusal::LogDistance);
    }
    if LATEST_LOGGED_SLOT < slot + later {
        return Err(Refusal::LogSlot);
    }
    let entry = Entry {
        link: link.value,
        slot: slot + later,
        blocks: blocks.value,
    };
    Ok(Part {
        value: Stamped {
            stamp: stamp.value,
            entry,
        },
        next: blocks.next,
    })
}
