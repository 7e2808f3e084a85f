// A space written as a script: the set-up, and behind it a record for each tuple, whose run ends in that space.
#![tactic(auto)]

mod appending;
mod reaching;
mod tabling;
mod writing;

use tuple::TUPLES;
pub use writing::{blank, write};

// The most bytes of such a script: a set-up of three, and 69 for each tuple. Under policy 3 the set-up has four, but no record more than 63.
pub const DUMP_BYTES: usize = 3 + 69 * TUPLES;
