// What writing a table's network answers, as the C interface tells it.
#![tactic(auto)]

ghost use Rattle.std.specs.Prelude.{◌≡◌};
ghost use Rattle.network_writer.specs.Write.{length_after, buffer_after};
ghost use Rattle.tables.specs.Table.{table_record, table_refusal};

// `as`: u64 has no From<usize>.
pub fn tell(numbers: &[u32; 1028], buffer: &mut [u8], length: &mut u64) -> u32
    ensures { (result ≡ table_refusal numbers.now buffer.old)
        × (length.new ≡ length_after result (table_record numbers.now))
        × (buffer.new ≡ buffer_after result (table_record numbers.now) buffer.old) }
{
    let network = table_reader::network_of(numbers);
    match network_writer::write(network, buffer) {
        Err(refusal) => {
            *length = 0;
            refusal.number()
        }
        Ok(octets) => {
            *length = octets as u64;
            0
        }
    }
}
