// The cases: who takes part in each round, and with what proposal.
ghost use Rattle.std.specs.Prelude.{◌<◌, length};

use crate::lines::title;
use crate::schedule::{PASSES, Round, take_passes};
use crate::stray::{CHOOSING, DECIDING, DENIED, Stray};
use process::{Step, start};
use space::{Config, PROCESSES, Space};
use std::{array, io};
use tuple::{LARGEST_OFFSET, Offset, Refusal};

// The proposal of a process that makes no calls: it is out of range, so that the process's start is refused.
const SILENT: i32 = LARGEST_OFFSET + 1;

// A round on a fresh space, under policy 3 if there are choices. Processes 1 to 8 propose the offsets in order, and those behind them
// go through the offsets again.
pub(crate) struct Case {
    name: &'static str,
    n: u64,
    t: u64,
    k: u64,
    round: u64,
    offsets: [i32; 8],
    strays: &'static [Stray],
}

// Cases of policy 2 in which all begin at once.
pub(crate) const DEFAULT: [Case; 3] = [
    // Process 4 is faulty.
    Case {
        name: "stray",
        n: 4,
        t: 1,
        k: 0,
        round: 0,
        offsets: [40, 40, -40, SILENT, 0, 0, 0, 0],
        strays: &DENIED,
    },
    // No offset is proposed twice.
    Case {
        name: "split",
        n: 4,
        t: 1,
        k: 0,
        round: 0,
        offsets: [-100_000, 0, 100_000, -1, 0, 0, 0, 0],
        strays: &[],
    },
    // Two offsets that differ in sign only.
    Case {
        name: "signs",
        n: 4,
        t: 1,
        k: 0,
        round: 0,
        offsets: [40, -40, 40, -40, 0, 0, 0, 0],
        strays: &[],
    },
];

// A process by itself.
pub(crate) const ONE: Case = Case {
    name: "one",
    n: 1,
    t: 0,
    k: 0,
    round: 7,
    offsets: [-40, 0, 0, 0, 0, 0, 0, 0],
    strays: &[],
};

// The cases of policy 3.
pub(crate) const CHOICES: [Case; 4] = [
    // Processes 1 and 9 are faulty, and split the vote.
    Case {
        name: "choices",
        n: 9,
        t: 2,
        k: 3,
        round: 0,
        offsets: [SILENT, 0, 1, 2, 0, 1, 2, 2],
        strays: &CHOOSING,
    },
    // They are silent, and only the seventh proposal that is found settles it.
    Case {
        name: "seventh",
        n: 9,
        t: 2,
        k: 3,
        round: 0,
        offsets: [SILENT, 0, 1, 2, 0, 1, 2, 2],
        strays: &[],
    },
    // Fifteen, and two choices.
    Case {
        name: "pair",
        n: 15,
        t: 4,
        k: 2,
        round: 0,
        offsets: [0, 1, 0, 1, 0, 1, 0, 1],
        strays: &[],
    },
    // Thirty-one, of which eight are silent, and two choices: only the twenty-first proposal that is found settles it.
    Case {
        name: "wide",
        n: 31,
        t: 10,
        k: 2,
        round: 0,
        offsets: [SILENT, 0, 1, 0, SILENT, 1, 0, 1],
        strays: &[],
    },
];

// The round after as many passes.
pub(crate) fn run(rt: &impl Print, case: &Case, passes: usize) -> io::Result<Round> {
    let space = begin(rt, case.name, case.n, case.t, case.k)?;
    let steps = started(space.config, case.round, &case.offsets);
    let mut round = Round { space, steps };
    take_passes(rt, &mut round, passes, case.strays)?;
    Ok(round)
}

// Process 4 is silent, so that processes 1 and 2 read on until process 3, which starts in the eighth pass, has proposed.
pub(crate) fn late(rt: &impl Print) -> io::Result<()> {
    let mut round = run(
        rt,
        &Case {
            name: "late",
            n: 4,
            t: 1,
            k: 0,
            round: 3,
            offsets: [5, -5, SILENT, SILENT, 0, 0, 0, 0],
            strays: &[],
        },
        7,
    )?;
    round.steps[2] = start(round.space.config, 3, 3, Offset::Hundredths(-5));
    take_passes(rt, &mut round, PASSES, &[])
}

// Processes 2 and 4 have decided -40 by the sixth pass. Processes 1 and 3 start in the seventh: their cas are for 40, and they are held -40.
pub(crate) fn held(rt: &impl Print) -> io::Result<()> {
    let mut round = run(
        rt,
        &Case {
            name: "held",
            n: 4,
            t: 1,
            k: 0,
            round: 0,
            offsets: [SILENT, -40, SILENT, -40, 0, 0, 0, 0],
            strays: &[],
        },
        6,
    )?;
    let config = round.space.config;
    round.steps[0] = start(config, 1, 0, Offset::Hundredths(40));
    round.steps[2] = start(config, 3, 0, Offset::Hundredths(40));
    take_passes(rt, &mut round, PASSES, &[])
}

// Process 4 is faulty, and in the third pass its cas decides bottom. Process 1 starts in the fourth: its cas is for -40, and it is held bottom.
pub(crate) fn bottom(rt: &impl Print) -> io::Result<()> {
    let mut round = run(
        rt,
        &Case {
            name: "bottom",
            n: 4,
            t: 1,
            k: 0,
            round: 0,
            offsets: [SILENT, -40, 0, SILENT, 0, 0, 0, 0],
            strays: &DECIDING,
        },
        3,
    )?;
    round.steps[0] = start(round.space.config, 1, 0, Offset::Hundredths(-40));
    take_passes(rt, &mut round, PASSES, &[])
}

// As many processes, faulty ones and rounds as there may be: at the end the space is full. All processes are correct, and in round r they
// propose the first r + 1 of the offsets.
pub(crate) fn full(rt: &impl Print) -> io::Result<()> {
    let offsets = [-100, -50, 0, 50, 100, 150, 200, 250];
    let mut space = begin(rt, "full", PROCESSES as u64, 10, 0)?;
    for last in 0..offsets.len() {
        let steps = started(space.config, last as u64, &offsets[..=last]);
        let mut round = Round { space, steps };
        take_passes(rt, &mut round, PASSES, &[])?;
        space = round.space;
    }
    Ok(())
}

// A fresh space, and the first line of a case.
fn begin(rt: &impl Print, name: &str, n: u64, t: u64, k: u64) -> io::Result<Space> {
    title(rt, name, n, t, k)?;
    let policy = if k == 0 { 2 } else { 3 };
    Ok(Space::empty(Config { n, t, policy, k }))
}

// All processes, started with the offsets, over and over. A process that is not one of the n is refused.
fn started(config: Config, round: u64, offsets: &[i32]) -> [Result<Step, Refusal>; PROCESSES]
    requires { 0 < length offsets.now }
{
    array::from_fn(|i| {
        let offset = offsets[i % offsets.len()];
        start(config, i as u32 + 1, round, Offset::Hundredths(offset))
    })
}
