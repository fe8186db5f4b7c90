// A link log as a struct, read from its record.
#![tactic(auto)]

ghost use Rattle.std.specs.Prelude.{◌≡◌, ◌≤◌};
ghost use Rattle.limits.specs.Limits.{most_links, most_log_entries};
ghost use Rattle.logs.specs.Record.{read_log};
ghost use Rattle.log_reader.specs.Held.{log_answer, model_of};

use limits::MOST_LOG_ENTRIES;
use logs::Entry;
use refusals::Refusal;

// The entries in the log's order; those past the count are zeros. An array with a count, since nothing allocates.
#[derive(Clone, Copy)]
pub struct Log {
    pub count: usize,
    pub entries: [Entry; 4096],
}

impl Log {
    // The entries of the log alone.
    pub fn entries(&self) -> &[Entry]
        requires { self.now.count ≤ most_log_entries }
        ensures { result.now ≡ model_of self.now }
    {
        &self.entries[..self.count]
    }
}

// Reads the log of a network with so many links. Turns down, entry by entry: 20 an entry that is cut short, misspelled or out of
// limits, or that 4,096 entries stand before; 21 a distance of 2,147,483,648 or more; 22 a slot above 100,063,000.
// `as`: usize has no From<u32>.
pub fn read(octets: &[u8], links: u32) -> Result<Log, Refusal>
    requires { (1 ≤ links) × (links ≤ most_links) }
    ensures { result ≡ log_answer (read_log links octets.now) }
{
    let none = Entry {
        link: 0,
        slot: 0,
        blocks: 0,
    };
    let mut entries = [none; 4096];
    let mut count = 0;
    let mut at = 0;
    let mut was = None;
    let mut slot = 0;
    // A while: the position moves by what was read, not by one; `count` is how many entries that made.
    while at < octets.len() {
        if MOST_LOG_ENTRIES as usize <= count {
            return Err(Refusal::LogEntry);
        }
        let read = entry_reader::read_entry(octets, at, links, was, slot)?;
        entries[count] = read.value.entry;
        at = read.next;
        was = Some(read.value.stamp);
        slot = read.value.entry.slot;
        count += 1;
    }
    Ok(Log { count, entries })
}
