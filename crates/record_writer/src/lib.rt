// A network's record, written to a buffer that has room for it.
#![tactic(auto)]

ghost use Rattle.std.specs.Prelude.{◌≡◌, [], ◌∷◌, ◌+◌, ◌≤◌, length};
ghost use Rattle.numbers.specs.Leb128.{encode, over, over_at};
ghost use Rattle.numbers.specs.Writing.{Writable};
ghost use Rattle.network.specs.Record.{link_numbers, record_of};
ghost use Rattle.network.specs.Held.{model_of};
ghost use Rattle.network_check.specs.Check.{fine, network_refusal};

use flows::Link;
use network::Network;

// Writes four numbers from a position of a buffer on; the answer is the position after them.
fn write_four(buffer: &mut [u8], at: usize, a: u32, b: u32, c: u32, d: u32) -> usize
    requires { Writable (a ∷ b ∷ c ∷ d ∷ []) buffer.old at }
    ensures { (result ≡ at + length (encode (a ∷ b ∷ c ∷ d ∷ []))) × (buffer.new ≡ over_at at (encode (a ∷ b ∷ c ∷ d ∷ [])) buffer.old) }
{
    let p = number_writer::write_at(buffer, at, a);
    let q = number_writer::write_at(buffer, p, b);
    let u = number_writer::write_at(buffer, q, c);
    number_writer::write_at(buffer, u, d)
}

// Writes the links' numbers from a position on; the answer is the position after them.
fn write_links(buffer: &mut [u8], start: usize, links: &[Link]) -> usize
    requires { Writable (link_numbers links.now) buffer.old start }
    ensures { (result ≡ start + length (encode (link_numbers links.now))) × (buffer.new ≡ over_at start (encode (link_numbers links.now)) buffer.old) }
{
    let mut at = start;
    for link in links {
        at = write_four(
            buffer,
            at,
            link.start,
            link.end,
            link.capacity,
            link.transit,
        );
    }
    at
}

// Writes a network's record to the front of a buffer that has room for it; the answer is its length. For those who write a copy: a
// network that was read, or made within the limits, is not refused.
pub fn write_record(network: &Network, buffer: &mut [u8]) -> usize
    requires unrefused { network_refusal (model_of network.now) ≡ fine }
    requires room { length (record_of (model_of network.now)) ≤ length buffer.old }
    ensures { (result ≡ length (record_of (model_of network.now))) × (buffer.new ≡ over (record_of (model_of network.now)) buffer.old) }
{
    let head = write_four(
        buffer,
        0,
        network.places,
        network.origin,
        network.destination,
        network.count,
    );
    write_links(buffer, head, network.links())
}
