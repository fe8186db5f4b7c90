// The most by every small horizon and the least horizon for small amounts, on small pseudo-random networks and on the worked examples with
// transit 0, against an ordinary maximum flow in the time-expanded network that shares no code with the optimizer: once with holding at
// middle places, once without. Where the maximum flows of 8 slots tell them, mosts by long horizons and least horizons for large amounts,
// too. Prints how many networks, comparisons and mismatches there are, and the sums of the figures compared.
#![tactic(auto)]

ghost use Rattle.std.specs.Prelude.{◌≤◌};

use least::Least;
use samples::{Draws, Sample};
use std::io;
use tally::Tally;

mod distant;
mod least;
mod samples;
mod tally;
mod timegraph;

const NETWORKS: u32 = 3000;

// The amounts that are planned.
const AMOUNTS: [u64; 4] = [1, 3, 5, 7];

// The longest horizon and the largest amount.
const LONGEST: u64 = 100063000;

const LARGEST: u64 = 100000000;

// The answer of `most`; a refusal, which no sample gets, is nothing.
fn answered(sample: &Sample, horizon: u64) -> Option<u64> {
    let mut cut = [0; 8];
    record_optimum::most(sample.record(), horizon, &mut cut).ok()
}

// A network with its maximum flows by the horizons 0 to 8.
#[derive(Clone, Copy)]
struct Case {
    sample: Sample,
    maxima: [u64; 9],
}

impl Case {
    fn new(sample: Sample, holding: bool) -> Case {
        let mut maxima = [0; 9];
        for horizon in 0..9 {
            maxima[horizon] = timegraph::maximum(&sample, horizon, holding);
        }
        Case { sample, maxima }
    }

    // The mosts by the horizons 0 to 8. `as`: u64 has no From<usize>.
    fn compare_mosts(&self, tally: &mut Tally) {
        for (horizon, blocks) in self.maxima.iter().enumerate() {
            let found = answered(&self.sample, horizon as u64);
            tally.add_most(*blocks, found == Some(*blocks));
        }
    }

    // The least horizons for small amounts.
    fn compare_leasts(&self, tally: &mut Tally) {
        let reachable = least::reachable(&self.sample);
        for amount in AMOUNTS {
            let expected = least::expected(&self.maxima, reachable, amount);
            let planned = least::planned(&self.sample, amount);
            tally.add_least(expected, least::agree(expected, planned));
        }
    }

    // A most by a long horizon.
    fn compare_long(&self, horizon: u64, tally: &mut Tally) {
        let found = answered(&self.sample, horizon);
        let agrees = match found {
            Some(blocks) => distant::is_most(&self.maxima, horizon, blocks),
            None => false,
        };
        tally.add_long_most(agrees);
    }

    // A least horizon for a large amount.
    fn compare_large(&self, amount: u64, tally: &mut Tally) {
        let expected = distant::least(&self.maxima, amount);
        let planned = least::planned(&self.sample, amount);
        tally.add_large_least(expected, planned == Some(expected));
    }

    // The longest horizon and a drawn one, the largest amount and a drawn one of more than a million blocks.
    fn compare_distant(&self, seed: u64, tally: &mut Tally) {
        if !distant::steady(&self.sample) {
            return;
        }
        let drawn = seed % 99000000;
        self.compare_long(LONGEST, tally);
        self.compare_long(LONGEST - drawn, tally);
        self.compare_large(LARGEST, tally);
        self.compare_large(LARGEST - drawn, tally);
    }

    // All that is compared, with numbers drawn by a seed.
    fn compare(&self, seed: u64, tally: &mut Tally) {
        self.compare_mosts(tally);
        self.compare_leasts(tally);
        self.compare_distant(seed, tally);
    }
}

// The worked examples with transit 0.
fn compare_halls(holding: bool) -> Tally {
    let mut tally = Tally::default();
    for sample in [
        samples::hall(),
        samples::loop_beside(),
        samples::parallel(),
        samples::loops_at_ends(),
    ] {
        Case::new(sample, holding).compare(1, &mut tally);
    }
    tally
}

// The comparison over pseudo-random networks, one after another from one seed.
fn compare_all(networks: u32, holding: bool) -> Tally {
    let mut tally = Tally::default();
    let mut draws = Draws { seed: 1 };
    for _ in 0..networks {
        let sample = Sample::drawn(&mut draws);
        Case::new(sample, holding).compare(draws.seed, &mut tally);
    }
    tally
}

fn main(rt: HostRuntime) -> io::Result<()> {
    println!(rt; "networks {NETWORKS}")?;
    println!(rt; "with holding\n{}", compare_all(NETWORKS, true))?;
    println!(rt; "without holding\n{}", compare_all(NETWORKS, false))?;
    println!(rt;
        "worked examples with transit 0, with holding\n{}",
        compare_halls(true)
    )?;
    println!(rt;
        "worked examples with transit 0, without holding\n{}",
        compare_halls(false)
    )
}
