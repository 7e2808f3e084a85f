// What is kept of a process that is watched: the rounds that it has begun, and where it stands.
ghost use Rattle.std.specs.Prelude.{◌≡◌, true, false, cond, not, ◌&&◌, leb, get_or, set};
ghost use Rattle.monitor.specs.Private.{untracked, standing_of, begun_in, due_by, stands_after, took_by};
ghost use Rattle.runs.specs.Correct.{started_by, begins, begun as begun·, state_of};
ghost use Rattle.space.specs.Shapes.{round_of};
ghost use Rattle.tuple.specs.declared.offset.Offset.TheVariants.{Bottom};
ghost use Rattle.tuple.specs.Bounds.{largest_code};
ghost use Rattle.tuple.specs.Offsets.{offset_of};

use process::{Next, Process, Step, resume, start};
use space::{Config, ROUNDS};
use tuple::{Call, Offset, Refusal, Reply, Tuple, same_call};

// As many as there are rounds.
const BEGUN: usize = ROUNDS as usize;

// Where a process stands.
#[derive(Clone, Copy)]
pub(crate) enum Standing {
    // Between rounds.
    Idle,
    // In a round, with its state and the call that is due.
    Busy(Process, Call),
    // In a round, with the state that refused the reply, to which no run comes.
    Stuck(Process),
}

#[derive(Clone, Copy)]
pub(crate) struct Tracked {
    // Whether each round is begun.
    pub begun: [bool; BEGUN],
    pub standing: Standing,
}

impl Tracked {
    // Before any call.
    pub(crate) fn new() -> Self
        ensures { result ≡ untracked }
    {
        Tracked {
            begun: [false; BEGUN],
            standing: Standing::Idle,
        }
    }

    // Whether a call is one that the process may make.
    pub(crate) fn is_due(self, config: Config, process: u32, call: Call) -> bool
        ensures { result ≡ due_by config process (begun_in self (round_of call.entry)) (standing_of self.standing) call }
    {
        match self.standing {
            Standing::Idle => may_begin(config, process, self.begun, call),
            Standing::Busy(_, due) => same_call(due, call),
            Standing::Stuck(_) => false,
        }
    }

    // What is kept once the reply to a call that was due is handed to the state.
    pub(crate) fn took(self, config: Config, process: u32, call: Call, reply: Reply) -> Self
        ensures { result ≡ took_by config process self call reply }
    {
        let state = self.state(config, process, call);
        Tracked {
            begun: marked(self.begun, state.round),
            standing: stands_after(state, resume(state, reply)),
        }
    }

    // The state to which the reply to a call that is due is handed.
    fn state(self, config: Config, process: u32, call: Call) -> Process
        ensures { result ≡ state_of config process (standing_of self.standing) call }
    {
        match self.standing {
            Standing::Idle => begun(started_by(config, process, call.entry)),
            Standing::Busy(state, _) | Standing::Stuck(state) => state,
        }
    }
}

// Whether a call is the out that begins a round, and the round is not begun.
fn may_begin(config: Config, process: u32, begun: [bool; BEGUN], call: Call) -> bool
    ensures { result ≡ (begins (started_by config process call.entry) call && not (get_or begun (round_of call.entry) false)) }
{
    let entry = call.entry;
    let second = entry.fields[1];
    begins(started_by(config, process, entry), call) && !has_begun(begun, second.value)
}

// What starting the process with the round and the offset of a proposal gives.
#[tactic(auto, using(crate::proofs::TrackedLaws::started_meant))]
fn started_by(config: Config, process: u32, entry: Tuple) -> Result<Step, Refusal>
    ensures { result ≡ started_by config process entry }
{
    let second = entry.fields[1];
    let fourth = entry.fields[3];
    start(config, process, second.value, meant(fourth.value))
}

// The offset that a number stands for; one that stands for none is as little proposed as bottom.
#[tactic(auto, unfolding(tuple::specs::Offsets::decoded_of))]
fn meant(code: u64) -> Offset
    ensures { result ≡ cond (leb code largest_code) (offset_of code) Bottom }
{
    Offset::decode(code).unwrap_or(Offset::Bottom)
}

// Whether a start gives this call.
fn begins(started: Result<Step, Refusal>, call: Call) -> bool
    ensures { result ≡ begins started call }
{
    match started {
        Ok(step) => match step.next {
            Next::Calls(first) => same_call(first, call),
            Next::Decides(_) => false,
        },
        Err(_) => false,
    }
}

// The state that a start gives; a blank one stands beside a refusal.
fn begun(started: Result<Step, Refusal>) -> Process
    ensures { result ≡ begun· started }
{
    match started {
        Ok(step) => step.process,
        Err(_) => Process::blank(),
    }
}

// Where a process stands once a reply is handed to its state.
fn stands_after(state: Process, resumed: Result<Step, Refusal>) -> Standing
    ensures { result ≡ stands_after state resumed }
{
    match resumed {
        Ok(step) => match step.next {
            Next::Calls(due) => Standing::Busy(step.process, due),
            Next::Decides(_) => Standing::Idle,
        },
        Err(_) => Standing::Stuck(state),
    }
}

fn has_begun(begun: [bool; BEGUN], round: u64) -> bool
    ensures { result ≡ get_or begun round false }
{
    round < ROUNDS && begun[round as usize]
}

fn marked(mut begun: [bool; BEGUN], round: u64) -> [bool; BEGUN]
    ensures { result ≡ set begun round true }
{
    if round < ROUNDS {
        begun[round as usize] = true;
    }
    begun
}
