// Scripts of the greatest lengths, made here: in the first three n is 1, t is 0, and the policy is bare.
use crate::show::{end, text};
use script::SCRIPT_BYTES;
use std::io;

const TOO_LONG: usize = SCRIPT_BYTES + 1;

// The first record is all zeros, and can't be read.
pub(crate) fn unread(rt: &impl Print) -> io::Result<()> {
    let mut script = [0; TOO_LONG];
    script[0] = 1;
    println!(rt; "65,536 bytes")?;
    text(rt, &script[..SCRIPT_BYTES])?;
    println!(rt; "65,537 bytes")?;
    text(rt, &script)
}

// n, t and the policy
const SET_UP: [u8; 3] = [1, 0, 0];

// seat 1, rdp, one field, any word
const RECORD: [u8; 4] = [1, 2, 1, 5];

// Records to the end of 65,536 bytes, the last of them cut: the last two lines.
pub(crate) fn full(rt: &impl Print) -> io::Result<()> {
    let mut script = [0; SCRIPT_BYTES];
    put_records(&mut script);
    println!(rt; "65,536 bytes of records")?;
    end(rt, &script, 25)
}

fn put_records(script: &mut [u8]) {
    let bytes = SET_UP.iter().chain(RECORD.iter().cycle());
    for (place, byte) in script.iter_mut().zip(bytes) {
        *place = *byte;
    }
}

// n is 31, t is 10, and the policy is bare; seat 1, out, six fields
const OPENING: [u8; 6] = [31, 10, 0, 1, 1, 6];

// a field: the largest count
const LARGEST_COUNT: [u8; 11] = [8, 255, 255, 255, 255, 255, 255, 255, 255, 255, 1];

// seat 1, rdp, six fields, any count in each
const ASKED: [u8; 9] = [1, 2, 6, 9, 9, 9, 9, 9, 9];

// seat 0, rdp, one field, any word; then seat 1, a code that is unknown, and a byte more
const CLOSING: [u8; 7] = [0, 2, 1, 5, 1, 9, 0];

// How many bytes the six counts have, and what asks for them, over and over.
const COUNTS_BYTES: usize = 6 * LARGEST_COUNT.len();

const ASKED_BYTES: usize = SCRIPT_BYTES - OPENING.len() - COUNTS_BYTES - CLOSING.len();

// The longest text that is known: a tuple of six counts of twenty digits, found 7,273 times. How long it is, and its last three lines.
pub(crate) fn longest(rt: &impl Print) -> io::Result<()> {
    let mut script = [0; SCRIPT_BYTES];
    put_counts(&mut script);
    println!(rt; "65,536 bytes of found counts")?;
    end(rt, &script, 39)
}

fn put_counts(script: &mut [u8]) {
    let counts = LARGEST_COUNT.iter().cycle().take(COUNTS_BYTES);
    let asked = ASKED.iter().cycle().take(ASKED_BYTES);
    let bytes = OPENING.iter().chain(counts).chain(asked).chain(&CLOSING);
    for (place, byte) in script.iter_mut().zip(bytes) {
        *place = *byte;
    }
}
