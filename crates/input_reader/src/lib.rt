// Reads the two records of an input of the text programs.
#![tactic(auto)]

ghost use Rattle.std.specs.Prelude.{◌≡◌};
ghost use Rattle.inputs.specs.Input.{read_records, read_input};
ghost use Rattle.inputs.specs.Answer.{input_answer};

use inputs::Input;
use refusals::Refusal;

// Reads a network's record and a plan's, each once.
fn read_records(octets: &[u8], written: &[u8]) -> Result<Input, Refusal>
    ensures { result ≡ input_answer (read_records octets.now written.now) }
{
    let network = network_reader::read(octets)?;
    let plan = plan_reader::read(octets, written, network.places, network.count)?;
    Ok(Input { network, plan })
}

// Reads an input. Refused are 1 to 3 for its length number and 1 for too few octets, then 1 to 7 for the network, then 14 to 18 and 23 for the plan.
pub fn take(input: &[u8]) -> Result<Input, Refusal>
    ensures { result ≡ input_answer (read_input input.now) }
{
    let found = inputs::find_records(input)?;
    read_records(&input[found.start..found.end], &input[found.end..])
}
