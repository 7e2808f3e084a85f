// What a policy says of a call.
ghost use Rattle.std.specs.Prelude.{◌≡◌, Ok};
ghost use Rattle.policy.specs.Verdicts.{demand};
ghost use Rattle.tuple.specs.Refusals.{refusal};

use tuple::{Refusal, Verdict};

// A call is permitted if a test holds, and refused 7 if not.
pub(crate) fn permitted_if(test: bool) -> Verdict
    ensures { result ≡ demand test (refusal 7) (Ok tt) }
{
    if test { Ok(()) } else { Err(Refusal::Denied) }
}
