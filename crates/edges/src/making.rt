// Opening spaces and making calls on them.
use crate::lines::{refusal_line, reply_line};
use crate::tuples::{asking, decision};
use space::{Config, Space};
use std::io;
use tuple::{Call, Tuple};

pub(crate) fn open(n: u64, t: u64, policy: u64) -> Space {
    Space::empty(Config { n, t, policy, k: 0 })
}

// Whether a space stands under policy 2, as a line.
pub(crate) fn set_up(rt: &impl Print, label: &str, n: u64, t: u64) -> io::Result<()> {
    let opened = space::fresh(Config {
        n,
        t,
        policy: 2,
        k: 0,
    });
    match opened {
        Ok(_) => println!(rt; "{label} stands"),
        Err(refusal) => refusal_line(rt, label, refusal),
    }
}

// Makes a call, prints its line and hands the space on.
pub(crate) fn make(rt: &impl Print, label: &str, space: Space, call: Call) -> io::Result<Space> {
    let applied = calls::apply(space, call);
    reply_line(rt, label, applied.reply)?;
    Ok(applied.space)
}

// The space after an out, with no line.
pub(crate) fn quiet_out(space: Space, process: u32, entry: Tuple) -> Space {
    calls::apply(space, Call::out(process, entry)).space
}

// A process's cas of a decision.
pub(crate) fn decide(process: u32, code: u64, set: u64) -> Call {
    Call::cas(process, asking(), decision(code, set))
}
