// What the space answers to a call.
use crate::field::Tuple;
use crate::refusal::Refusal;

// How a call ended, in 01's words.
#[derive(Clone, Copy)]
pub enum Outcome {
    Done,
    None,
    Found,
    Inserted,
    Held,
    Refused(Refusal),
}

// An outcome, and the tuple that was found or is held; it is blank where there is none.
#[derive(Clone, Copy)]
pub struct Reply {
    pub outcome: Outcome,
    pub tuple: Tuple,
}
