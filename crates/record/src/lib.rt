// A call as bytes: the reader, which takes a record's only form, and the writer of that form.
#![tactic(auto)]

mod head;
mod reader;
mod writer;

pub use reader::{Cursor, ReadCall, Reading, read};
pub use writer::write;

// The most bytes of a record.
pub const RECORD_BYTES: usize = 140;
