// Policy 1, weak.
ghost use Rattle.std.specs.Prelude.{◌≡◌};
ghost use Rattle.policy.specs.Weak.{is_weak_call, weak as weak·};

use crate::shape::{is_weak_entry, is_weak_template, same_round};
use crate::verdicts::permitted_if;
use tuple::{BOTTOM, CAS, Call, Verdict};

// The verdict of the weak policy (Fig. 3).
#[tactic(auto, unfolding(crate::specs::Weak::weak))]
pub(crate) fn weak(call: Call) -> Verdict
    ensures { result ≡ weak· call }
{
    permitted_if(is_weak_call(call))
}

// Whether a call is a cas of the two shapes on one round, with an offset that is not bottom.
#[tactic(auto, unfolding(crate::specs::Weak::is_weak_call))]
fn is_weak_call(call: Call) -> bool
    ensures { result ≡ is_weak_call call }
{
    let template = call.template;
    let entry = call.entry;
    let third = entry.fields[2];
    call.code == CAS
        && is_weak_template(template)
        && is_weak_entry(entry)
        && same_round(template, entry)
        && third.value != BOTTOM
}
