// A call on a space: the refusals in their order, then what the call does.
ghost use Rattle.std.specs.Prelude.{◌≡◌};
ghost use Rattle.calls.specs.Turns.{behind_stranger, first_refusal, judged, applied};
ghost use Rattle.policy.specs.Policies.{list_verdict, verdict, lent_verdict};

use crate::change::{Change, carry_out_unchecked};
use crate::effect::{Effect, perform, refused};
use policy::{lent_verdict, list_verdict};
use space::{Config, PLACES, Space, is_bounded};
use tuple::{Call, Refusal, Reply, Verdict};

// What a call on a space answers, and the space afterwards.
#[derive(Clone, Copy)]
pub struct Applied {
    pub reply: Reply,
    pub space: Space,
}

// A call on a space: the reply, and the space afterwards.
pub fn apply(space: Space, call: Call) -> Applied
    ensures { result ≡ applied space call }
{
    let effect = if space.is_well_formed() {
        judge_unchecked(space, call)
    } else {
        refused(Refusal::Unsound)
    };
    let next = match effect.change {
        Change::Keep => space,
        change => carry_out_unchecked(space, call.entry, change),
    };
    Applied {
        reply: effect.reply,
        space: next,
    }
}

// What a call on a space is answered, and what becomes of the tuples, by its table. Of the space the configuration and the count are tested, and not its places
// or its table: who may hand in what, and what is promised of it, is in docs/DECISIONS.md, "Functions that leave a test out".
#[tactic(auto, unfolding(crate::specs::Turns::judged, space::specs::Spaces::bounded))]
pub fn judge_unchecked(space: Space, call: Call) -> Effect
    ensures { result ≡ judged space call }
{
    if !is_bounded(space.config, space.count) {
        return refused(Refusal::Unsound);
    }
    match first_refusal(space, call) {
        Err(refusal) => refused(refusal),
        Ok(()) => perform(space, call),
    }
}

// The first refusal that a call meets, of 3 to 7, 12 and 13.
#[tactic(auto, unfolding(crate::specs::Turns::first_refusal, policy::specs::Policies::verdict, policy::specs::Policies::lent_verdict))]
fn first_refusal(space: Space, call: Call) -> Verdict
    ensures { result ≡ first_refusal space.config call (verdict space call) }
{
    call.fault()?;
    if space.config.has_list() {
        return list_refusal(space, call);
    }
    lent_refusal(space.config, &space.table, call)
}

// The first refusal that a call without fault meets where the policy does not ask about the tuples: 6, or the policy's by the configuration and the table.
pub fn lent_refusal(config: Config, table: &[u64; PLACES], call: Call) -> Verdict
    ensures { result ≡ behind_stranger config call (lent_verdict config table.now call) }
{
    if !config.knows(u64::from(call.process)) {
        return Err(Refusal::Stranger);
    }
    lent_verdict(config, table, call)
}

// The same where it does, under policies 4 and 5.
pub fn list_refusal(space: Space, call: Call) -> Verdict
    ensures { result ≡ behind_stranger space.config call (list_verdict space call) }
{
    if !space.config.knows(u64::from(call.process)) {
        return Err(Refusal::Stranger);
    }
    list_verdict(space, call)
}
