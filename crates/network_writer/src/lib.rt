// Writes a network's record.
#![tactic(auto)]

ghost use Rattle.std.specs.Prelude.{◌≡◌, [], ◌∷◌, ◌*◌, ◌≤◌, length};
ghost use Rattle.refusals.specs.Numbers.{told};
ghost use Rattle.numbers.specs.Leb128.{groups, encode};
ghost use Rattle.numbers.specs.Writing.{Fit};
ghost use Rattle.network.specs.Record.{record_of};
ghost use Rattle.network.specs.Held.{model_of};
ghost use Rattle.network_check.specs.Check.{fine, network_refusal};
ghost use Rattle.network_writer.specs.Write.{writing_refusal, length_after};
ghost use Rattle.network_writer.specs.Answer.{length_of, write_answer, write_buffer};

use network::Network;
use refusals::Refusal;

// How many octets four numbers have: a record is made of fours.
fn four_length(a: u32, b: u32, c: u32, d: u32) -> usize
    requires { Fit (a ∷ b ∷ c ∷ d ∷ []) }
    ensures { (result ≡ length (encode (a ∷ b ∷ c ∷ d ∷ []))) × (result ≤ 4 * groups) }
{
    number_writer::number_length(a)
        + number_writer::number_length(b)
        + number_writer::number_length(c)
        + number_writer::number_length(d)
}

// The length of a network's record.
fn record_length(network: &Network) -> usize
    requires { network_refusal (model_of network.now) ≡ fine }
    ensures { result ≡ length (record_of (model_of network.now)) }
{
    let mut size = four_length(
        network.places,
        network.origin,
        network.destination,
        network.count,
    );
    for link in network.links() {
        size += four_length(link.start, link.end, link.capacity, link.transit);
    }
    size
}

// Writes a network's record from the buffer's first octet on, and answers its length; octets past it keep their content. Turns down,
// number by number in record order, a number outside its limits, a destination that is the origin, a link to its own start; then a
// buffer shorter than the record. Links past the number of links are not looked at. A refusal leaves the buffer as it was.
pub fn write(network: Network, buffer: &mut [u8]) -> Result<usize, Refusal>
    ensures answer { result ≡ write_answer network (length buffer.old) }
    ensures refusal { told result ≡ writing_refusal (model_of network) (length buffer.old) }
    ensures size { length_of result ≡ length_after (writing_refusal (model_of network) (length buffer.old)) (record_of (model_of network)) }
    ensures buffer_after { buffer.new ≡ write_buffer network buffer.old }
{
    network_check::check(&network)?;
    if buffer.len() < record_length(&network) {
        return Err(Refusal::BufferShort);
    }
    Ok(record_writer::write_record(&network, buffer))
}
