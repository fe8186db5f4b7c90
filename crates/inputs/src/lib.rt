// What the text programs read: a network record's length as a number, that record, a plan record. Finds the two records.
#![tactic(auto)]

ghost use Rattle.std.specs.Prelude.{◌≡◌, length};
ghost use Rattle.inputs.specs.Frame.{framed};
ghost use Rattle.inputs.specs.Answer.{frame_answer};

use network::Network;
use plans::Plan;
use refusals::Refusal;

// Where the network's record starts in the input, and where it ends and the plan's begins.
#[derive(Clone, Copy)]
pub struct Frame {
    pub start: usize,
    pub end: usize,
}

// What an input holds.
#[derive(Clone, Copy)]
pub struct Input {
    pub network: Network,
    pub plan: Plan,
}

// Finds the two records of an input: a network record's length as a number, that record, a plan record. `as`: usize has no From<u32>.
pub fn find_records(input: &[u8]) -> Result<Frame, Refusal>
    ensures { result ≡ frame_answer (length input.now) (framed input.now) }
{
    match numbers::read_number(input, 0) {
        Err(misspelling) => Err(link_reader::REFUSALS.of(misspelling)),
        Ok(size) => {
            let start = size.next;
            let count = size.value as usize;
            if input.len() - start < count {
                return Err(Refusal::NetworkEnds);
            }
            Ok(Frame {
                start,
                end: start + count,
            })
        }
    }
}
