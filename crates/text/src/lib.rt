// Numbers, fields, replies and refusals as text, put into a buffer one behind the other.
#![tactic(auto)]

mod bytes;
mod field;
mod number;
mod reply;

pub use bytes::Printer;
