// Replaying the link log of a network: does it keep capacities, does no place send what has not reached it, and what reached the archive.
#![tactic(auto)]

ghost use Rattle.std.specs.Prelude.{◌≡◌};
ghost use Rattle.network.specs.Record.{read_network};
ghost use Rattle.replay.specs.Replay.{number_of_finding, figure_of_finding, replayed};
ghost use Rattle.replay.specs.Told.{NumbersFor};

use logs::NetworkLog;
use refusals::Refusal;

// What replaying finds.
#[derive(Clone, Copy, Debug, PartialEq, Eq)]
pub enum Finding {
    // No fault, and so many blocks delivered: arrivals less departures at the archive up to the last slot logged.
    Kept(u64),
    // Some link took more than its capacity in some slot.
    Overfull,
    // None did, and some place but the origin sent more by some slot than had reached it by then.
    Oversent,
}

impl Finding {
    // The number that C has for it. A method, and no From: the promise is an equation with the table that C's promises cite.
    pub fn number(self) -> u32
        ensures { result ≡ number_of_finding self }
    {
        match self {
            Finding::Kept(_) => 0,
            Finding::Overfull => 1,
            Finding::Oversent => 2,
        }
    }

    // The blocks delivered; 0 beside a fault.
    pub fn delivered(self) -> u64
        ensures { result ≡ figure_of_finding self }
    {
        match self {
            Finding::Kept(blocks) => blocks,
            Finding::Overfull => 0,
            Finding::Oversent => 0,
        }
    }
}

// Replays a log for a network, each given by its record. Refused are 1 to 7 for the network, then entry by entry 20, 21, 22 for the log;
// otherwise a link above its capacity is found first, then a place that sent too much. specs/Replay.antt has the promise, and
// proofs/Exact.antt what the findings mean.
pub fn replay(octets: &[u8], log: &[u8]) -> Result<Finding, Refusal>
    ensures answer { result ≡ replayed octets.now log.now }
    ensures numbers { NumbersFor (read_network octets.now) log.now result }
{
    let network = network_reader::read(octets)?;
    let taken = log_reader::read(log, network.count)?;
    let logged = NetworkLog {
        network: &network,
        entries: taken.entries(),
    };
    if log_loads::overfull(logged) {
        return Ok(Finding::Overfull);
    }
    if log_balances::oversent(logged) {
        return Ok(Finding::Oversent);
    }
    let delivered = log_figure::delivered(logged);
    Ok(Finding::Kept(u64::from(delivered)))
}
