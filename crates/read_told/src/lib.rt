// What reading a network into a table answers, as the C interface tells it.
#![tactic(auto)]

ghost use Rattle.std.specs.Prelude.{◌≡◌};
ghost use Rattle.network.specs.Record.{read_network};
ghost use Rattle.tables.specs.Table.{read_refusal, table_after};

pub fn tell(octets: &[u8], numbers: &mut [u32; 1028]) -> u32
    ensures { (result ≡ read_refusal (read_network octets.now))
        × (numbers.new ≡ table_after (read_network octets.now) numbers.old) }
{
    match network_reader::read(octets) {
        Err(refusal) => refusal.number(),
        Ok(network) => {
            *numbers = table_writer::table_of(network);
            0
        }
    }
}
