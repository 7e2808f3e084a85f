// A whole script into text: its set-up, its records to its end, and a line for each of them.
#![tactic(auto)]

mod line;
mod owned;
mod records;
mod run;
mod setup;
mod steps;

pub use run::{blank, print};
pub use setup::head;
pub use steps::{Stepped, step};

// The most bytes of a script, and of a text.
pub const SCRIPT_BYTES: usize = 65_536;

pub const TEXT_BYTES: usize = 16 * SCRIPT_BYTES + 64;
