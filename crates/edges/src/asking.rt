// What policies 2 and 3 ask of a space, answered by a search of the tuples and from the table, side by side.
use crate::making::{open, quiet_out};
use crate::tuples::proposal;
use space::{Questions, Sought, Tabled};
use std::io;

// Processes 1 to 3 have proposed in round 0, two of them -40 and one 40.
pub(crate) fn questions(rt: &impl Print) -> io::Result<()> {
    let mut board = quiet_out(open(4, 1, 2), 1, proposal(1, 80));
    board = quiet_out(board, 2, proposal(2, 81));
    board = quiet_out(board, 3, proposal(3, 80));
    let tabled = Tabled {
        config: board.config,
        table: &board.table,
    };
    for (label, process) in [("1 has proposed", 1), ("4 has proposed", 4)] {
        let searched = board.is_taken(0, process);
        both(rt, label, searched, tabled.is_taken(0, process))?;
    }
    for (label, sought, set) in [
        ("1 and 2 have proposed -40", Sought::One(80), 3),
        ("1 and 3 have proposed -40", Sought::One(80), 5),
        ("1, 2 and 3 have proposed", Sought::Some, 7),
        ("1 to 4 have proposed", Sought::Some, 15),
    ] {
        let searched = board.every_proposed(sought, 0, set);
        both(rt, label, searched, tabled.every_proposed(sought, 0, set))?;
    }
    for (label, set) in [
        ("more than one of 1 and 2 for one offset", 3),
        ("more than one of 1 and 3 for one offset", 5),
    ] {
        let searched = board.is_crowded(0, set);
        both(rt, label, searched, tabled.is_crowded(0, set))?;
    }
    Ok(())
}

// What is asked, and both answers.
fn both(rt: &impl Print, label: &str, searched: bool, tabled: bool) -> io::Result<()> {
    println!(rt; "asked, {label} {} {}", word(searched), word(tabled))
}

fn word(answer: bool) -> &'static str {
    if answer { "yes" } else { "no" }
}
