// The cases, each a short run of calls. An offset is named by its code: -40 has the code 80, 40 the code 81, and bottom the code 0.
ghost use Rattle.std.specs.Prelude.{◌<◌};

use crate::making::{decide, make, open, quiet_out, set_up};
use crate::tuples::{any_word, asking, asking_weak, late_proposal, pair, proposal, weak, words};
use space::Space;
use std::io;
use tuple::{Call, OFFSET, PROCESS_SET, Tuple, WORD};

// The seven calls of the worked script.
pub(crate) fn script(rt: &impl Print) -> io::Result<()> {
    let mut board = open(4, 1, 2);
    for (label, call) in [
        ("script 1", Call::out(1, proposal(1, 80))),
        ("script 2", Call::out(2, proposal(2, 81))),
        ("script 3", Call::out(3, proposal(3, 80))),
        ("script 4", decide(4, 81, 2)),
        ("script 5", decide(1, 80, 5)),
        ("script 6", Call::rdp(2, asking())),
        ("script 7", Call::rdp(5, any_word())),
    ] {
        board = make(rt, label, board, call)?;
    }
    println!(rt; "script tuples {}", board.count)
}

// Configurations, numbers of fields, and process sets.
pub(crate) fn limits(rt: &impl Print) -> io::Result<()> {
    set_up(rt, "set-up 4 1", 4, 1)?;
    set_up(rt, "set-up 3 1", 3, 1)?;
    set_up(rt, "set-up 1 0", 1, 0)?;
    let board = open(4, 1, 0);
    for (label, entry) in [
        ("field count 6", words(6)),
        ("field count 7", words(7)),
        ("seats 2147483647", pair(PROCESS_SET, 2_147_483_647)),
        ("seats 2147483648", pair(PROCESS_SET, 2_147_483_648)),
    ] {
        make(rt, label, board, Call::out(1, entry))?;
    }
    Ok(())
}

// A cas of bottom.
pub(crate) fn bottom(rt: &impl Print) -> io::Result<()> {
    // With t = 0 every proposal of a member is one by more than t members.
    let one = make(
        rt,
        "t 0 proposal",
        open(1, 0, 2),
        Call::out(1, proposal(1, 80)),
    )?;
    make(rt, "t 0 bottom", one, decide(1, 0, 1))?;
    // On proposals of three offsets by processes 1, 2 and 3.
    let asked = decide(1, 0, 7);
    let board = three_offsets();
    make(rt, "bottom of three offsets", board, asked)?;
    // Spaces handed in that are not well formed: one that holds a proposal of process 1 twice, and one in which process 3 has proposed nothing but bottom.
    let mut twice = board;
    twice.count = 4;
    twice.tuples[3] = proposal(1, 80);
    make(rt, "bottom with one proposal twice", twice, asked)?;
    let mut without = board;
    without.tuples[2] = proposal(3, 0);
    without.table[2] = 0;
    make(rt, "bottom with bottom proposed", without, asked)?;
    Ok(())
}

// A space handed in on which process 1 stands twice: it has proposed -40 and 40, process 2 has proposed 40 and process 3 -41. Such a space is not well formed.
pub(crate) fn two_offsets(rt: &impl Print) -> io::Result<()> {
    let mut board = three_offsets();
    board.count = 4;
    board.tuples[3] = proposal(1, 81);
    make(rt, "two offsets, bottom", board, decide(1, 0, 7))?;
    make(rt, "two offsets, 40 by both", board, decide(1, 81, 3))?;
    Ok(())
}

// A cas of bottom under policy 1: it is denied on a free and on a decided round. On a space handed in that holds a decided bottom, a good cas
// is held with it.
pub(crate) fn weak_bottom(rt: &impl Print) -> io::Result<()> {
    let asked = asking_weak();
    let bottom = weak(0);
    let offset = weak(80);
    let mut board = open(4, 1, 1);
    for (label, call) in [
        ("weak bottom, free", Call::cas(1, asked, bottom)),
        ("weak offset", Call::cas(1, asked, offset)),
        ("weak bottom, decided", Call::cas(2, asked, bottom)),
    ] {
        board = make(rt, label, board, call)?;
    }
    board.tuples[0] = bottom;
    make(
        rt,
        "weak offset, bottom decided",
        board,
        Call::cas(2, asked, offset),
    )?;
    Ok(())
}

// A space on which processes 1 and 2 have proposed -40 and 40.
fn two_proposals() -> Space {
    let board = quiet_out(open(4, 1, 2), 1, proposal(1, 80));
    quiet_out(board, 2, proposal(2, 81))
}

// And process 3 -41.
fn three_offsets() -> Space {
    quiet_out(two_proposals(), 3, proposal(3, 82))
}

pub(crate) fn capacity(rt: &impl Print) -> io::Result<()> {
    let six = words(6);
    let mut board = filled(open(1, 0, 0), six, 255);
    for (label, call) in [
        ("out 256", Call::out(1, six)),
        ("out 257", Call::out(1, six)),
        ("full cas that matches", Call::cas(1, six, six)),
        ("full cas without match", Call::cas(1, pair(WORD, 8), six)),
    ] {
        board = make(rt, label, board, call)?;
    }
    Ok(())
}

// The space after as many outs of a tuple.
fn filled(space: Space, entry: Tuple, times: u32) -> Space {
    let mut board = space;
    for _ in 0..times {
        board = quiet_out(board, 1, entry);
    }
    board
}

// Spaces handed in that are not well formed: whatever is called is refused 1. Such a call leaves a space as it was, so that one whose n is set
// right obeys the next.
pub(crate) fn not_well_formed(rt: &impl Print) -> io::Result<()> {
    let own = proposal(1, 80);
    let mut board = open(4, 1, 2);
    board.config.n = 3;
    board = make(rt, "not well formed, 3 1", board, Call::out(1, own))?;
    board = make(
        rt,
        "not well formed, 3 1 and seven fields",
        board,
        Call::out(1, words(7)),
    )?;
    board.config.n = 4;
    make(rt, "n set right", board, Call::out(1, own))?;
    let mut unknown = open(4, 1, 2);
    unknown.config.policy = 6;
    handed_in(rt, "not well formed, policy 6", unknown)?;
    let mut full = filled(open(1, 0, 0), own, 256);
    full.count = 257;
    handed_in(rt, "not well formed, 257 tuples", full)?;
    handed_in(rt, "not well formed, open field", holding(asking()))?;
    handed_in(
        rt,
        "not well formed, offset above 100000",
        holding(pair(OFFSET, 200_002)),
    )?;
    let mut dirty = open(4, 1, 2);
    dirty.tuples[255] = own;
    handed_in(rt, "not well formed, unused place", dirty)?;
    // The table of the space's proposals, of which the first is process 1's.
    let two = two_proposals();
    for (label, place, code) in [
        ("not well formed, wrong code in the table", 0, 81),
        ("not well formed, missing in the table", 0, 0),
        ("not well formed, too many in the table", 2, 80),
    ] {
        handed_in(rt, label, with_code(two, place, code))?;
    }
    let bare = open(1, 0, 0);
    handed_in(
        rt,
        "not well formed, a table under policy 0",
        with_code(bare, 0, 80),
    )?;
    // What has no place in it does not disturb.
    handed_in(rt, "a proposal by 5 of 4", holding(proposal(5, 80)))?;
    handed_in(rt, "a proposal of round 8", holding(late_proposal(1, 80)))
}

// Makes an rdp on a space handed in.
fn handed_in(rt: &impl Print, label: &str, space: Space) -> io::Result<()> {
    make(rt, label, space, Call::rdp(1, asking()))?;
    Ok(())
}

// The space with another code at a place of its table.
fn with_code(space: Space, place: usize, code: u64) -> Space
    requires { place < 248 }
{
    let mut board = space;
    board.table[place] = code;
    board
}

// A space that holds one tuple.
fn holding(tuple: Tuple) -> Space {
    let mut board = open(4, 1, 2);
    board.count = 1;
    board.tuples[0] = tuple;
    board
}

// What a slip would get wrong.
pub(crate) fn slips(rt: &impl Print) -> io::Result<()> {
    // 40 and -40 are two offsets.
    let signs = two_proposals();
    make(rt, "slip signs -40", signs, decide(1, 80, 3))?;
    make(rt, "slip signs 40", signs, decide(1, 81, 3))?;
    // Bottom is not offset 0.
    let bottom = pair(OFFSET, 0);
    let holds = quiet_out(open(1, 0, 0), 1, bottom);
    make(
        rt,
        "slip bottom for 0",
        holds,
        Call::rdp(1, pair(OFFSET, 1)),
    )?;
    make(rt, "slip bottom for bottom", holds, Call::rdp(1, bottom))?;
    // A process that proposes twice is one process.
    let own = proposal(1, 80);
    let mut board = quiet_out(open(4, 1, 2), 1, own);
    board = make(rt, "slip two proposals, again", board, Call::out(1, own))?;
    board = make(rt, "slip two proposals, set 1", board, decide(1, 80, 1))?;
    board = quiet_out(board, 2, proposal(2, 80));
    // 3t + 1 exceeds a u64.
    set_up(rt, "slip wrapping sum", 1, 0x5555_5555_5555_5555)?;
    // A good cas on a decided round is held; a bad one is denied.
    for (label, call) in [
        ("slip first cas", decide(1, 80, 3)),
        ("slip good cas again", decide(2, 80, 3)),
        ("slip bad cas again", decide(2, 80, 1)),
    ] {
        board = make(rt, label, board, call)?;
    }
    Ok(())
}
