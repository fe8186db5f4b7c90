// The most by a horizon as the C interface tells it.
#![tactic(auto)]

ghost use Rattle.most_told.specs.MostTold.{MostTold};

pub fn tell(octets: &[u8], horizon: u64, cut: &mut [u32], most: &mut u64) -> u32
    ensures { MostTold octets.now horizon cut.old cut.new most.new result }
{
    match record_optimum::most(octets, horizon, cut) {
        Err(refusal) => {
            *most = 0;
            refusal.number()
        }
        Ok(blocks) => {
            *most = blocks;
            0
        }
    }
}
