// A process's state, and what starting it and handing it a reply give, with numbers in place of enums.
ghost use Rattle.std.specs.Prelude.{◌≡◌, cond, Some, None};
ghost use Rattle.board_c.specs.Flat.{flat_process, flat_step, refused_step, is_phase, phase_of as phase_of·, process_of as process_of·, flagged_offset};
ghost use Rattle.tuple.specs.Refusals.{number_of};

use process::{Next, Phase, Process, Step};
use space::{Config, PROCESSES};
use tuple::{Call, Offset, Refusal};

// A process's state: the phase's number (0 proposing, 1 reading, 2 deciding, 3 decided), and beside it the process asked (1) or the
// code of the decision (3), 0 where there is none.
#[repr(C)]
#[derive(Clone, Copy)]
pub struct FlatProcess {
    pub config: Config,
    pub process: u32,
    pub phase: u32,
    pub round: u64,
    pub value: u64,
    pub found: [u64; PROCESSES],
}

// What comes next (0 calls, 1 decides, 2 refused), the refusal's number, the decision as a flag for bottom and hundredths, the state
// then, and the call. What there is none of is 0.
#[repr(C)]
#[derive(Clone, Copy)]
pub struct FlatStep {
    pub next: u32,
    pub refusal: u32,
    pub bottom: u32,
    pub hundredths: i32,
    pub process: FlatProcess,
    pub call: Call,
}

impl FlatStep {
    // What starting a process or handing it a reply gives; a refusal stands beside the state given.
    pub(crate) fn new(beside: FlatProcess, step: Result<Step, Refusal>) -> Self
        ensures { result ≡ flat_step beside step }
    {
        let step = match step {
            Ok(step) => step,
            Err(refusal) => return FlatStep::refused(beside, refusal),
        };
        let (next, bottom, hundredths, call) = match step.next {
            Next::Calls(call) => (0, 0, 0, call),
            Next::Decides(Offset::Bottom) => (1, 1, 0, Call::blank()),
            Next::Decides(Offset::Hundredths(z)) => (1, 0, z, Call::blank()),
        };
        FlatStep {
            next,
            refusal: 0,
            bottom,
            hundredths,
            process: FlatProcess::from(step.process),
            call,
        }
    }

    // A refusal, beside a state.
    pub(crate) fn refused(process: FlatProcess, refusal: Refusal) -> Self
        ensures { result ≡ refused_step process (number_of refusal) }
    {
        FlatStep {
            next: 2,
            refusal: refusal.number(),
            bottom: 0,
            hundredths: 0,
            process,
            call: Call::blank(),
        }
    }
}

impl From<Process> for FlatProcess {
    ghost from_gives = { λ process flat. flat ≡ flat_process process };

    fn from(process: Process) -> FlatProcess {
        let (phase, value) = match process.phase {
            Phase::Proposing => (0, 0),
            Phase::Reading(asked) => (1, asked),
            Phase::Deciding => (2, 0),
            Phase::Decided(code) => (3, code),
        };
        let found = process.found;
        FlatProcess {
            config: process.config,
            process: process.process,
            phase,
            round: process.round,
            value,
            found,
        }
    }
}

// ---- a state or an offset that is handed in

// The phase of a number and the value beside it, which is 0 where the phase has none.
#[tactic(auto, unfolding(crate::specs::Flat::is_phase, crate::specs::Flat::phase_of))]
fn phase_of(phase: u32, value: u64) -> Option<Phase>
    ensures { result ≡ cond (is_phase phase value) (Some (phase_of· phase value)) None }
{
    match (phase, value) {
        (0, 0) => Some(Phase::Proposing),
        (1, asked) => Some(Phase::Reading(asked)),
        (2, 0) => Some(Phase::Deciding),
        (3, code) => Some(Phase::Decided(code)),
        _ => None,
    }
}

pub(crate) fn process_of(flat: FlatProcess) -> Option<Process>
    ensures { result ≡ cond (is_phase flat.phase flat.value) (Some (process_of· flat)) None }
{
    let phase = phase_of(flat.phase, flat.value)?;
    let found = flat.found;
    Some(Process {
        config: flat.config,
        process: flat.process,
        round: flat.round,
        phase,
        found,
    })
}

#[tactic(auto, unfolding(crate::specs::Flat::flagged_offset))]
pub(crate) fn offset_of(bottom: u32, hundredths: i32) -> Offset
    ensures { result ≡ flagged_offset bottom hundredths }
{
    if bottom == 0 {
        Offset::Hundredths(hundredths)
    } else {
        Offset::Bottom
    }
}
