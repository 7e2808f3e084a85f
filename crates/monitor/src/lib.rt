// Which of a set of processes strays first from the procedure in a script: the monitor of the theorem over runs, run.
#![tactic(auto)]

mod member;
mod records;
mod stray;
mod tracked;

pub use stray::first_stray;
