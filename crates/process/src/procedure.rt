// Starting a process, and handing it a reply.
ghost use Rattle.std.specs.Prelude.{◌≡◌, true, ◌||◌, ◌≤◌, Ok};
ghost use Rattle.process.specs.Fits.{fits as fits·};
ghost use Rattle.process.specs.Procedure.{started, turned as turned·, reads as reads·, casts as casts·, decides as decides·, noted as noted·, read_on, value_of, is_decided, advanced, resumed};
ghost use Rattle.process.specs.States.{well_formed};
ghost use Rattle.space.specs.Bounds.{processes};
ghost use Rattle.space.specs.Configs.{sound};
ghost use Rattle.space.specs.Proposals.{decidable};

use crate::call::{cas_call, out_call, rdp_call};
use crate::fit::fits;
use crate::process::{Next, Phase, Process, Step, startable};
use crate::tally::{backed, backing_set, next_after, settled};
use space::{Config, PROCESSES, ROUNDS, offered};
use tuple::{Offset, Outcome, Refusal, Reply};

// Starts a process in a round with its proposal: its state, and the out that is its first call.
#[tactic(auto, using(crate::proofs::OffsetSteps::coded_proposable, crate::proofs::OffsetSteps::coded_beyond), unfolding(crate::specs::Procedure::started))]
pub fn start(config: Config, process: u32, round: u64, offset: Offset) -> Result<Step, Refusal>
    ensures { result ≡ started config process round offset }
{
    if !startable(config) {
        return Err(Refusal::Unsound);
    }
    if !config.knows(u64::from(process)) {
        return Err(Refusal::Stranger);
    }
    if ROUNDS <= round {
        return Err(Refusal::Beyond);
    }
    let code = offset.encode()?;
    if !offered(config, code) {
        return Err(Refusal::Beyond);
    }
    Ok(Step {
        process: Process {
            config,
            process,
            round,
            phase: Phase::Proposing,
            found: [0; PROCESSES],
        },
        next: Next::Calls(out_call(process, round, code)),
    })
}

// Hands a process a reply: its next call, or its decision, and the state then. The state handed in stays as it was.
#[tactic(auto, unfolding(crate::specs::Procedure::resumed))]
pub fn resume(process: Process, reply: Reply) -> Result<Step, Refusal>
    ensures { result ≡ resumed process reply }
{
    if !process.is_well_formed() {
        return Err(Refusal::Unsound);
    }
    if !is_decided(process) && !fits(process, reply) {
        return Err(Refusal::Unfit);
    }
    advance(process, reply)
}

fn is_decided(process: Process) -> bool
    ensures { result ≡ is_decided process.phase }
{
    matches!(process.phase, Phase::Decided(_))
}

// What a reply that fits leads to.
#[tactic(auto, using(crate::proofs::StateSteps::formed_sound, crate::proofs::StateSteps::formed_asked, crate::proofs::StateSteps::formed_code, crate::proofs::StateSteps::formed_value, crate::proofs::StateSteps::sound_few))]
fn advance(process: Process, reply: Reply) -> Result<Step, Refusal>
    requires process_value { well_formed process ≡ true }
    requires reply_value { is_decided process.phase || fits· process reply ≡ true }
    ensures { result ≡ Ok (advanced process reply process.phase) }
{
    let found = process.found;
    match process.phase {
        Phase::Proposing => Ok(reads(process, found, 1)),
        Phase::Reading(asked) => Ok(read_on(process, noted(found, asked, reply), asked)),
        Phase::Deciding => decides(process, value_of(backed(found, process.config.t), reply)),
        Phase::Decided(code) => decides(process, code),
    }
}

// What is found after a reading.
fn noted(found: [u64; PROCESSES], asked: u64, reply: Reply) -> [u64; PROCESSES]
    requires le_asked { 1 ≤ asked }
    requires asked_le_processes { asked ≤ processes }
    ensures { result ≡ noted· found asked reply.tuple reply.outcome }
{
    let fourth = reply.tuple.fields[3];
    let mut next = found;
    if matches!(reply.outcome, Outcome::Found) {
        next[(asked - 1) as usize] = fourth.value;
    }
    next
}

// After a reading: the cas, or the next reading.
#[tactic(auto, using(crate::proofs::StateSteps::sound_few))]
fn read_on(process: Process, found: [u64; PROCESSES], asked: u64) -> Step
    requires config_value { sound process.config ≡ true }
    requires asked_le_n { asked ≤ process.config.n }
    ensures { result ≡ read_on process found asked }
{
    let config = process.config;
    if settled(config, found) {
        casts(process, found, backed(found, config.t))
    } else {
        reads(process, found, next_after(found, config.n, asked))
    }
}

// The value of its own cas, or that of the held tuple.
fn value_of(own: u64, reply: Reply) -> u64
    ensures { result ≡ value_of own reply.tuple reply.outcome }
{
    let third = reply.tuple.fields[2];
    match reply.outcome {
        Outcome::Held => third.value,
        _ => own,
    }
}

// It asks for the proposal of process q.
fn reads(process: Process, found: [u64; PROCESSES], q: u64) -> Step
    ensures { result ≡ reads· process found q }
{
    Step {
        process: turned(process, Phase::Reading(q), found),
        next: Next::Calls(rdp_call(process.process, process.round, q)),
    }
}

// It calls cas with a value and all found processes that back it.
fn casts(process: Process, found: [u64; PROCESSES], value: u64) -> Step
    ensures { result ≡ casts· process found value }
{
    let set = backing_set(found, value);
    Step {
        process: turned(process, Phase::Deciding, found),
        next: Next::Calls(cas_call(process.process, process.round, value, set)),
    }
}

// It has decided the offset of this code.
#[tactic(auto, using(crate::proofs::OffsetSteps::decoded_some, crate::proofs::OffsetSteps::decoded_none))]
fn decides(process: Process, code: u64) -> Result<Step, Refusal>
    requires { decidable process.config code ≡ true }
    ensures { result ≡ Ok (decides· process code) }
{
    let offset = Offset::decode(code)?;
    Ok(Step {
        process: turned(process, Phase::Decided(code), [0; PROCESSES]),
        next: Next::Decides(offset),
    })
}

// The state in another phase, with what is then found.
fn turned(process: Process, phase: Phase, found: [u64; PROCESSES]) -> Process
    ensures { result ≡ turned· process phase found }
{
    Process {
        phase,
        found,
        ..process
    }
}
