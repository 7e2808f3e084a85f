// Rounds of correct processes over one space, faulty ones among them: each call, its reply and each decision on a line.
#![tactic(auto)]

mod cases;
mod lines;
mod schedule;
mod stray;

use cases::{CHOICES, DEFAULT, ONE, bottom, full, held, late, run};
use schedule::PASSES;
use std::io;

fn main(rt: HostRuntime) -> io::Result<()> {
    for case in &DEFAULT {
        run(&rt, case, PASSES)?;
    }
    late(&rt)?;
    held(&rt)?;
    bottom(&rt)?;
    run(&rt, &ONE, PASSES)?;
    full(&rt)?;
    for case in &CHOICES {
        run(&rt, case, PASSES)?;
    }
    Ok(())
}
