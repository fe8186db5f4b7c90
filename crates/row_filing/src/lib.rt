// A plan's row filed: the uses that it makes of links, under the links' numbers.
#![tactic(auto)]

ghost use Rattle.std.specs.Prelude.{◌≤◌, ◌<◌, length};
ghost use Rattle.limits.specs.Limits.{most_links};
ghost use Rattle.row_uses.specs.Files.{columns_of};
ghost use Rattle.row_uses.specs.Given.{Lookable};
ghost use Rattle.row_uses.specs.Uses.{columns, Room, FilesRowBy};

use flows::Link;
use limits::MOST_ROW_LINKS;
use plans::Row;
use row_uses::UseFile;

// Files row i by the network's links: its terms, and a use for each of its links under the next number, which begins the link's chain.
// `as`: usize has no From<u32>; a lag fits, it is at most 62,000, and so does a number, at most 16,191.
pub fn file_row(
    links: &[Link; 256],
    row: &Row,
    i: usize,
    head: &mut [u16],
    prev: &mut [u16],
    lags: &mut [u16],
    firsts: &mut [u32],
    departures: &mut [u32],
    rates: &mut [u32],
)
    requires lookable { Lookable links.now row.now × (i < length firsts.old) }
    requires most_links_in_bounds { (most_links ≤ length head.old) × Room (columns prev.old lags.old firsts.old departures.old rates.old) }
    ensures { FilesRowBy links.now row.now i
        (columns prev.old lags.old firsts.old departures.old rates.old) head.old
        (columns prev.new lags.new firsts.new departures.new rates.new) head.new }
{
    firsts[i] = row.first;
    departures[i] = row.departures;
    rates[i] = row.rate;
    let mut lag: u32 = 0;
    for (j, number) in row.links[..row.count as usize].iter().enumerate() {
        let at = (MOST_ROW_LINKS as usize) * i + j;
        let e = usize::from(*number);
        lags[at] = lag as u16;
        prev[at] = head[e];
        head[e] = (at + 1) as u16;
        lag += links[e].transit;
    }
}

// As `file_row`, in a file.
pub fn file_row_in<const ROWS: usize, const USES: usize>(
    links: &[Link; 256],
    row: &Row,
    i: usize,
    file: &mut UseFile<ROWS, USES>,
)
    requires { Lookable links.now row.now × (i < ROWS) }
    ensures { FilesRowBy links.now row.now i
        (columns_of file.old) file.old.head
        (columns_of file.new) file.new.head }
{
    file_row(
        links,
        row,
        i,
        &mut file.head,
        &mut file.prev,
        &mut file.lags,
        &mut file.firsts,
        &mut file.departures,
        &mut file.rates,
    );
}
