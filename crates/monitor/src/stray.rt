// Which of a set of processes strays first in a script.
ghost use Rattle.std.specs.Prelude.{◌≡◌};
ghost use Rattle.monitor.specs.Strays.{stray_of};

use crate::records::watch_records;
use script::head;
use space::within;
use tuple::Refusal;

// Runs a script under policy 2 or 3 and watches the processes of a set, process k being the bit worth 2 to the power k - 1. Refused, in this order: 9; 2 or 3 for a
// set-up that can't be read; 1 for one that is not sound, and for another policy; 6 for a set with a process above n.
#[tactic(auto, using(script::proofs::RecordLaws::bytes_of), unfolding(crate::specs::Strays::stray_of, crate::specs::Strays::stray_on))]
pub fn first_stray(script: &[u8], set: u64) -> Result<Option<u64>, Refusal>
    ensures { result ≡ stray_of script.now set }
{
    let (config, start) = head(script)?;
    if !config.has_proposals() {
        return Err(Refusal::Unsound);
    }
    if !within(config.n, set) {
        return Err(Refusal::Stranger);
    }
    Ok(watch_records(script, start, config, set))
}
