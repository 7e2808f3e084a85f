// Policies 2 and 3: a decision is justified by a set of processes and what they have proposed. What may be proposed, and what may be decided, is the configuration's.
ghost use Rattle.std.specs.Prelude.{◌≡◌};
ghost use Rattle.policy.specs.Justified.{is_own_proposal, is_free, out_verdict, is_decision_call, bears_offset, bears as bears·, cas_verdict, justified as justified·};

use crate::default::bears_bottom;
use crate::shape::{is_decision, is_decision_template, same_round};
use space::{Config, Questions, ROUNDS, Sought, decidable, is_proposal, offered, within};
use tuple::{BOTTOM, CAS, Call, OUT, RDP, Refusal, Tuple, Verdict};

// The verdict of policies 2 (Fig. 5) and 3.
#[tactic(auto, unfolding(crate::specs::Justified::justified))]
pub(crate) fn justified<Q: Questions>(config: Config, asked: &Q, call: Call) -> Verdict
    ensures { result ≡ justified· config (Q.asked asked.now) call }
{
    match call.code {
        OUT => out_verdict(config, asked, call),
        RDP => Ok(()),
        CAS => cas_verdict(config, asked, call),
        _ => Err(Refusal::Denied),
    }
}

// ---- out

#[tactic(auto, unfolding(crate::specs::Justified::out_verdict))]
fn out_verdict<Q: Questions>(config: Config, asked: &Q, call: Call) -> Verdict
    ensures { result ≡ out_verdict config (Q.asked asked.now) call }
{
    let entry = call.entry;
    if !is_own_proposal(config, call) {
        return Err(Refusal::Denied);
    }
    if !is_free(asked, entry) {
        return Err(Refusal::SecondProposal);
    }
    Ok(())
}

// Whether an out is of the caller's own proposal, in a round, of an offset that may be proposed.
#[tactic(auto, unfolding(crate::specs::Justified::is_own_proposal))]
fn is_own_proposal(config: Config, call: Call) -> bool
    ensures { result ≡ is_own_proposal config call }
{
    let entry = call.entry;
    let second = entry.fields[1];
    let third = entry.fields[2];
    let fourth = entry.fields[3];
    let process = u64::from(call.process);
    is_proposal(entry)
        && second.value < ROUNDS
        && third.value == process
        && offered(config, fourth.value)
}

// Whether no proposal of that round and process stands in the space, of an offset or bottom.
#[tactic(auto, unfolding(crate::specs::Justified::is_free))]
fn is_free<Q: Questions>(asked: &Q, entry: Tuple) -> bool
    ensures { result ≡ is_free (Q.asked asked.now) entry }
{
    let second = entry.fields[1];
    let third = entry.fields[2];
    !asked.is_taken(second.value, third.value)
}

// ---- cas

#[tactic(auto, unfolding(crate::specs::Justified::cas_verdict))]
fn cas_verdict<Q: Questions>(config: Config, asked: &Q, call: Call) -> Verdict
    ensures { result ≡ cas_verdict config (Q.asked asked.now) call }
{
    let entry = call.entry;
    if !is_decision_call(config, call) {
        return Err(Refusal::Denied);
    }
    if !bears(config, asked, entry) {
        return Err(Refusal::Unborne);
    }
    Ok(())
}

// Whether a cas has the two shapes on one round, of what may be decided, with all of its set in 1 to n.
#[tactic(auto, unfolding(crate::specs::Justified::is_decision_call))]
fn is_decision_call(config: Config, call: Call) -> bool
    ensures { result ≡ is_decision_call config call }
{
    let template = call.template;
    let entry = call.entry;
    let third = entry.fields[2];
    let fourth = entry.fields[3];
    is_decision_template(template)
        && is_decision(entry)
        && same_round(template, entry)
        && within(config.n, fourth.value)
        && decidable(config, third.value)
}

// Whether the set of a decision bears its offset, or bottom.
#[tactic(auto, unfolding(crate::specs::Justified::bears))]
fn bears<Q: Questions>(config: Config, asked: &Q, entry: Tuple) -> bool
    ensures { result ≡ bears· config (Q.asked asked.now) entry }
{
    let second = entry.fields[1];
    let third = entry.fields[2];
    let fourth = entry.fields[3];
    if third.value == BOTTOM {
        bears_bottom(config, asked, second.value, fourth.value)
    } else {
        bears_offset(config, asked, second.value, fourth.value, third.value)
    }
}

// Whether a set bears an offset: t + 1 members that have all proposed it.
#[tactic(auto, unfolding(crate::specs::Justified::bears_offset))]
fn bears_offset<Q: Questions>(config: Config, asked: &Q, round: u64, set: u64, code: u64) -> bool
    ensures { result ≡ bears_offset config (Q.asked asked.now) round set code }
{
    config.t < u64::from(set.count_ones()) && asked.every_proposed(Sought::One(code), round, set)
}
