// The schedule of a round: passes over the processes in order, in which each makes at most one call.
use crate::lines::{call_line, decision_line};
use crate::stray::Stray;
use process::{Next, Step, resume};
use space::{PROCESSES, Space};
use std::io;
use tuple::{Call, Refusal, Reply};

// The most passes that a round takes in which all have proposed before any reads: an out, a reading of each process, and a cas.
pub(crate) const PASSES: usize = PROCESSES + 2;

// The space, and what each process last gave: its state with the call that it makes next or its decision, or a refusal.
#[derive(Drop)]
pub(crate) struct Round {
    pub space: Space,
    pub steps: [Result<Step, Refusal>; PROCESSES],
}

// Takes passes, at the end of which faulty processes make their calls, one in a pass.
pub(crate) fn take_passes(
    rt: &impl Print,
    round: &mut Round,
    passes: usize,
    strays: &[Stray],
) -> io::Result<()> {
    for pass in 0..passes {
        for step in &mut round.steps {
            take_turn(rt, &mut round.space, step)?;
        }
        if let Some(stray) = strays.get(pass) {
            make(rt, &mut round.space, stray.call())?;
        }
    }
    Ok(())
}

// A process makes the call that is due, if there is one, and is handed the reply.
fn take_turn(
    rt: &impl Print,
    space: &mut Space,
    last: &mut Result<Step, Refusal>,
) -> io::Result<()> {
    let Ok(step) = *last else { return Ok(()) };
    let Next::Calls(call) = step.next else {
        return Ok(());
    };
    let reply = make(rt, space, call)?;
    *last = resume(step.process, reply);
    match *last {
        Ok(step) => decision_line(rt, &step),
        Err(_) => Ok(()),
    }
}

// Makes a call on the space and prints its line.
fn make(rt: &impl Print, space: &mut Space, call: Call) -> io::Result<Reply> {
    let applied = calls::apply(*space, call);
    *space = applied.space;
    let reply = applied.reply;
    call_line(rt, call, reply)?;
    Ok(reply)
}
