// What replaying answers, as the C interface tells it.
#![tactic(auto)]

ghost use Rattle.std.specs.Prelude.{◌≡◌};
ghost use Rattle.replay.specs.Replay.{replayed, replay_refusal_of, finding_of, delivered_of};

pub fn tell(octets: &[u8], log: &[u8], finding: &mut u32, delivered: &mut u64) -> u32
    ensures { (result ≡ replay_refusal_of (replayed octets.now log.now))
        × (finding.new ≡ finding_of (replayed octets.now log.now))
        × (delivered.new ≡ delivered_of (replayed octets.now log.now)) }
{
    match replay::replay(octets, log) {
        Ok(found) => {
            *finding = found.number();
            *delivered = found.delivered();
            0
        }
        Err(refusal) => {
            *finding = 0;
            *delivered = 0;
            refusal.number()
        }
    }
}
