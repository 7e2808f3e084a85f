// The state of a process in one round, and what it answers.
ghost use Rattle.std.specs.Prelude.{◌≡◌, true};
ghost use Rattle.process.specs.States.{blank_process, startable as startable·, found_sound, code_sound, last_ends, phase_sound, reading_sound, deciding_sound, well_formed};
ghost use Rattle.space.specs.Configs.{sound};

use crate::tally::settled;
use space::{Config, PROCESSES, ROUNDS, decidable, offered};
use tuple::{Call, Offset};

// What the process waits for.
#[derive(Clone, Copy)]
pub enum Phase {
    // The reply to its out.
    Proposing,
    // The reply to its reading of this process's proposal.
    Reading(u64),
    // The reply to its cas.
    Deciding,
    // Nothing: it has decided the offset of this code.
    Decided(u64),
}

// A process's state (01's seat state). At place k - 1 of what it has found stands the code of the offset that process k was found
// to have proposed, 0 while it is not found. All places are 0 before it reads and after it has decided.
#[derive(Clone, Copy)]
pub struct Process {
    pub config: Config,
    pub process: u32,
    pub round: u64,
    pub phase: Phase,
    pub found: [u64; PROCESSES],
}

// What starting a process, or handing it a reply, gives.
#[derive(Clone, Copy)]
pub enum Next {
    Calls(Call),
    // The decision of its round.
    Decides(Offset),
}

// The state then, and what comes next.
#[derive(Clone, Copy)]
pub struct Step {
    pub process: Process,
    pub next: Next,
}

impl Process {
    // The state that stands where no process was started.
    pub fn blank() -> Self
        ensures { result ≡ blank_process }
    {
        Process {
            config: Config::blank(),
            process: 0,
            round: 0,
            phase: Phase::Proposing,
            found: [0; PROCESSES],
        }
    }

    // Whether a state is one that the procedure can reach by fitting replies.
    #[tactic(auto, using(crate::proofs::StateSteps::startable_sound), unfolding(crate::specs::States::well_formed))]
    pub fn is_well_formed(self) -> bool
        ensures { result ≡ well_formed self }
    {
        let config = self.config;
        startable(config)
            && config.knows(u64::from(self.process))
            && self.round < ROUNDS
            && phase_sound(config, self.found, self.phase)
    }
}

// Whether a process can start: a sound configuration under policy 2 or 3.
#[tactic(auto, unfolding(crate::specs::States::startable))]
pub(crate) fn startable(config: Config) -> bool
    ensures { result ≡ startable· config }
{
    config.is_sound() && config.has_proposals()
}

fn phase_sound(config: Config, found: [u64; PROCESSES], phase: Phase) -> bool
    requires { sound config ≡ true }
    ensures { result ≡ phase_sound config found phase }
{
    match phase {
        Phase::Proposing => found_sound(config, found, 0),
        Phase::Reading(asked) => reading_sound(config, found, asked),
        Phase::Deciding => deciding_sound(config, found),
        Phase::Decided(code) => found_sound(config, found, 0) && decidable(config, code),
    }
}

// Reading: the process asked is not found, and what is found does not end the reading.
#[tactic(auto, using(crate::proofs::StateSteps::sound_few, crate::proofs::StateSteps::known_place), unfolding(crate::specs::States::reading_sound))]
fn reading_sound(config: Config, found: [u64; PROCESSES], asked: u64) -> bool
    requires { sound config ≡ true }
    ensures { result ≡ reading_sound config found asked }
{
    found_sound(config, found, config.n)
        && config.knows(asked)
        && found[(asked - 1) as usize] == 0
        && !settled(config, found)
}

// Deciding: what is found ended the reading, and only the last one found ended it.
#[tactic(auto, using(crate::proofs::StateSteps::sound_few), unfolding(crate::specs::States::deciding_sound))]
fn deciding_sound(config: Config, found: [u64; PROCESSES]) -> bool
    requires { sound config ≡ true }
    ensures { result ≡ deciding_sound config found }
{
    found_sound(config, found, config.n) && settled(config, found) && last_ends(config, found)
}

// Whether some one of the processes ended the reading: without it, it would go on.
#[tactic(auto, using(crate::proofs::StateSteps::sound_few, crate::proofs::StateSteps::last_here, crate::proofs::StateSteps::last_more, crate::proofs::StateSteps::last_none))]
fn last_ends(config: Config, found: [u64; PROCESSES]) -> bool
    requires { sound config ≡ true }
    ensures { result ≡ last_ends config found config.n }
{
    for k in (0..config.n as usize).rev() {
        let mut less = found;
        less[k] = 0;
        if !settled(config, less) {
            return true;
        }
    }
    false
}

// Whether the first n places hold nothing or codes of offsets that may be proposed, and the others nothing.
fn found_sound(config: Config, found: [u64; PROCESSES], n: u64) -> bool
    ensures { result ≡ found_sound config n found }
{
    found
        .iter()
        .enumerate()
        .all(|(i, code)| code_sound(config, *code, (i as u64) < n))
}

#[tactic(auto, unfolding(crate::specs::States::code_sound))]
fn code_sound(config: Config, code: u64, used: bool) -> bool
    ensures { result ≡ code_sound config code used }
{
    code == 0 || (used && offered(config, code))
}
