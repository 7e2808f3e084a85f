// The procedure of a correct process (01's following seat): starting it, and handing it a reply.
#![tactic(auto)]

mod call;
mod fit;
mod procedure;
mod process;
mod tally;

pub use procedure::{resume, start};
pub use process::{Next, Phase, Process, Step};
