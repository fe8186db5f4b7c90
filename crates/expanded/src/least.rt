// The least horizon for an amount, as the maximum flows say and as the planner does.
ghost use Rattle.std.specs.Prelude.{◌<◌};

use crate::samples::{Link, Sample};
use first_fault::Verdict;
use refusals::Refusal;

// A least horizon; of those above 8 the maximum flows say only that it is longer.
#[derive(Clone, Copy, PartialEq, Eq)]
pub enum Least {
    Unreachable,
    Horizon(u64),
    Longer,
}

// One pass over the links: the end of a link is reached if the link has capacity and starts at a place that is.
fn pass(links: &[Link; 8], reached: &mut [bool; 8]) {
    for link in links {
        if 0 < link.capacity && reached[link.start()] {
            reached[link.end()] = true;
        }
    }
}

// Whether links with capacity lead from origin to destination: a pass reaches the next place of a chain at least, and no chain need have
// 8 links.
pub fn reachable(sample: &Sample) -> bool {
    let links = sample.links();
    let mut reached = [false; 8];
    reached[sample.origin()] = true;
    for _ in 0..8 {
        pass(&links, &mut reached);
    }
    reached[sample.destination()]
}

// What the maximum flows by the horizons 0 to 8 say. `as`: u64 has no From<usize>.
pub fn expected(maxima: &[u64; 9], reachable: bool, amount: u64) -> Least {
    if !reachable {
        return Least::Unreachable;
    }
    match maxima.iter().position(|most| amount <= *most) {
        Some(horizon) => Least::Horizon(horizon as u64),
        None => Least::Longer,
    }
}

// What the planner says; nothing for another refusal than 12, or a plan that the examiner does not pass.
pub fn planned(sample: &Sample, amount: u64) -> Option<Least> {
    let record = sample.record();
    let mut buffer = [0; 38912];
    match record_planner::plan(record, amount, &mut buffer) {
        Ok(written) => {
            let judged = examiner::examine(record, buffer.get(..written.length)?).ok()?;
            (judged.verdict == Verdict::Passes).then_some(Least::Horizon(u64::from(
                written.horizon,
            )))
        }
        Err(Refusal::NoChain) => Some(Least::Unreachable),
        Err(_) => None,
    }
}

// Whether what the planner says is what the maximum flows say.
pub fn agree(expected: Least, planned: Option<Least>) -> bool {
    match (expected, planned) {
        (Least::Longer, Some(Least::Horizon(horizon))) => 9 <= horizon,
        (_, Some(least)) => least == expected,
        (_, None) => false,
    }
}
