// The C interface. Each function answers a refusal's number, or 0; a refused call leaves 0 in every number of the answer, and lists and
// buffers as they were. No function asks anything of its caller beyond what C asks of pointers and lengths. Each hands on to a function
// with the same promise, in a crate of its own.
#![tactic(auto)]

ghost use Rattle.std.specs.Prelude.{◌≡◌};
ghost use Rattle.network.specs.Record.{read_network};
ghost use Rattle.network_writer.specs.Write.{length_after, buffer_after};
ghost use Rattle.examiner.specs.Examine.{examined, examine_refusal_of, verdict_of, bound_of};
ghost use Rattle.replay.specs.Replay.{replayed, replay_refusal_of, finding_of, delivered_of};
ghost use Rattle.tables.specs.Table.{read_refusal, table_after, table_record, table_refusal};
ghost use Rattle.most_told.specs.MostTold.{MostTold};
ghost use Rattle.plan_told.specs.PlanTold.{PlanTold};

// The most blocks by a horizon, with a cut that proves it: `record_optimum::most`.
#[unsafe(no_mangle)]
pub extern "C" fn pudeyan_most(octets: &[u8], horizon: u64, cut: &mut [u32], most: &mut u64) -> u32
    ensures { MostTold octets.now horizon cut.old cut.new most.new result }
{
    most_told::tell(octets, horizon, cut, most)
}

// The least horizon for an amount, with a plan that does it: `record_planner::plan`.
#[unsafe(no_mangle)]
pub extern "C" fn pudeyan_plan(
    octets: &[u8],
    amount: u64,
    buffer: &mut [u8],
    horizon: &mut u64,
    length: &mut u64,
) -> u32
    ensures { PlanTold octets.now amount buffer.old buffer.new horizon.new length.new result }
{
    plan_told::tell(octets, amount, buffer, horizon, length)
}

// Examines a plan for a network: `examiner::examine`.
#[unsafe(no_mangle)]
pub extern "C" fn pudeyan_examine<'a>(
    octets: &'a [u8],
    plan: &'a [u8],
    verdict: &mut u32,
    bound: &mut u64,
) -> u32
    ensures { (result ≡ examine_refusal_of (examined octets.now plan.now))
        × (verdict.new ≡ verdict_of (examined octets.now plan.now))
        × (bound.new ≡ bound_of (examined octets.now plan.now)) }
{
    examine_told::tell(octets, plan, verdict, bound)
}

// Replays a link log for a network: `replay::replay`.
#[unsafe(no_mangle)]
pub extern "C" fn pudeyan_replay(
    octets: &[u8],
    log: &[u8],
    finding: &mut u32,
    delivered: &mut u64,
) -> u32
    ensures { (result ≡ replay_refusal_of (replayed octets.now log.now))
        × (finding.new ≡ finding_of (replayed octets.now log.now))
        × (delivered.new ≡ delivered_of (replayed octets.now log.now)) }
{
    replay_told::tell(octets, log, finding, delivered)
}

// Writes the record of a table's numbers, as many as its number of links says: `network_writer::write`. Numbers past them are not looked at.
#[unsafe(no_mangle)]
pub extern "C" fn pudeyan_write_network(
    numbers: &[u32; 1028],
    buffer: &mut [u8],
    length: &mut u64,
) -> u32
    ensures { (result ≡ table_refusal numbers.now buffer.old)
        × (length.new ≡ length_after result (table_record numbers.now))
        × (buffer.new ≡ buffer_after result (table_record numbers.now) buffer.old) }
{
    write_told::tell(numbers, buffer, length)
}

// Reads a network's record into a table, 0 after the last link: `network_reader::read`.
#[unsafe(no_mangle)]
pub extern "C" fn pudeyan_read_network(octets: &[u8], numbers: &mut [u32; 1028]) -> u32
    ensures { (result ≡ read_refusal (read_network octets.now))
        × (numbers.new ≡ table_after (read_network octets.now) numbers.old) }
{
    read_told::tell(octets, numbers)
}
