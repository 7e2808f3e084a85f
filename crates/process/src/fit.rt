// Which replies fit a process's state.
ghost use Rattle.std.specs.Prelude.{◌≡◌};
ghost use Rattle.process.specs.Fits.{is_asked_proposal, is_round_decision, fits_out, fits_rdp, fits_cas, fits as fits·};
ghost use Rattle.tuple.specs.Faults.{is_entry};

use crate::process::{Phase, Process};
use policy::is_decision;
use space::{Config, decidable, is_proposal, offered, within};
use tuple::{Call, OUT, Outcome, Reply, Tuple};

#[tactic(auto, unfolding(crate::specs::Fits::fits))]
pub(crate) fn fits(process: Process, reply: Reply) -> bool
    ensures { result ≡ fits· process reply }
{
    let config = process.config;
    match process.phase {
        Phase::Proposing => fits_out(reply),
        Phase::Reading(asked) => fits_rdp(config, process.round, asked, reply),
        Phase::Deciding => fits_cas(config, process.round, reply),
        Phase::Decided(_) => false,
    }
}

// Done after out.
fn fits_out(reply: Reply) -> bool
    ensures { result ≡ fits_out reply.tuple reply.outcome }
{
    matches!(reply.outcome, Outcome::Done) && reply.tuple.is_unused()
}

// None, or a proposal of the round and process asked, after rdp.
fn fits_rdp(config: Config, round: u64, asked: u64, reply: Reply) -> bool
    ensures { result ≡ fits_rdp config round asked reply.tuple reply.outcome }
{
    let tuple = reply.tuple;
    match reply.outcome {
        Outcome::None => tuple.is_unused(),
        Outcome::Found => is_asked_proposal(config, round, asked, tuple),
        _ => false,
    }
}

// Inserted, or held with a decision of the round, after cas.
fn fits_cas(config: Config, round: u64, reply: Reply) -> bool
    ensures { result ≡ fits_cas config round reply.tuple reply.outcome }
{
    let tuple = reply.tuple;
    match reply.outcome {
        Outcome::Inserted => tuple.is_unused(),
        Outcome::Held => is_round_decision(config, round, tuple),
        _ => false,
    }
}

// A proposal of the round and process asked, of an offset that may be proposed, which a well-formed space can hold.
#[tactic(auto, unfolding(crate::specs::Fits::is_asked_proposal))]
fn is_asked_proposal(config: Config, round: u64, asked: u64, tuple: Tuple) -> bool
    ensures { result ≡ is_asked_proposal config round asked tuple }
{
    let second = tuple.fields[1];
    let third = tuple.fields[2];
    let fourth = tuple.fields[3];
    is_entry(tuple)
        && is_proposal(tuple)
        && second.value == round
        && third.value == asked
        && offered(config, fourth.value)
}

// A decision of the round, of what may be decided, with processes in 1 to n, which a well-formed space can hold.
#[tactic(auto, unfolding(crate::specs::Fits::is_round_decision))]
fn is_round_decision(config: Config, round: u64, tuple: Tuple) -> bool
    ensures { result ≡ is_round_decision config round tuple }
{
    let second = tuple.fields[1];
    let third = tuple.fields[2];
    let fourth = tuple.fields[3];
    is_entry(tuple)
        && is_decision(tuple)
        && second.value == round
        && decidable(config, third.value)
        && within(config.n, fourth.value)
}

// Whether a well-formed space can hold a tuple: an out of it is without fault. The tuple's own test is left to the loop over a space's places, its one
// caller, so that the compiler puts it there.
#[tactic(auto, using(crate::proofs::FitSteps::out_faultless))]
fn is_entry(tuple: Tuple) -> bool
    ensures { result ≡ is_entry tuple }
{
    let call = Call {
        process: 0,
        code: OUT,
        template: Tuple::blank(),
        entry: tuple,
    };
    call.fault().is_ok()
}
