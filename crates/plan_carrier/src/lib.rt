// Writes what a plan opens with: the length of its network's record, and that record.
#![tactic(auto)]

ghost use Rattle.std.specs.Prelude.{◌≡◌, ◌+◌, ◌≤◌, length};
ghost use Rattle.numbers.specs.Leb128.{over, over_at};
ghost use Rattle.plan_carrier.specs.Carriable.{opening, Carriable};

// Puts a network's record to the part of a buffer that starts at a position; the answer is the position after it.
fn write_copy_at(network: &[u8], buffer: &mut [u8], at: usize) -> usize
    requires { at + length network.now ≤ length buffer.old }
    ensures { (result ≡ at + length network.now) × (buffer.new ≡ over_at at network.now buffer.old) }
{
    at + words::put_word(&mut buffer[at..], network)
}

// Writes what a plan for the network with this record opens with from the buffer's first octet on; the answer is the position after it,
// from which on the plan's numbers are written. Octets past it keep their content. `as u32` fits: at most 1,541.
pub fn write_copy(network: &[u8], buffer: &mut [u8]) -> usize
    requires { Carriable network.now buffer.old }
    ensures { (result ≡ length (opening network.now)) × (buffer.new ≡ over (opening network.now) buffer.old) }
{
    let size = network.len();
    let copy = number_writer::write_at(buffer, 0, size as u32);
    write_copy_at(network, buffer, copy)
}
