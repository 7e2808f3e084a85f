// Fields, tuples and calls as values: what they may hold, how offsets are coded, what is wrong with a call, and matching.
#![tactic(auto)]

mod bounds;
mod equality;
mod fault;
mod field;
mod forms;
mod matching;
mod offset;
mod refusal;
mod reply;
mod shape;

pub use bounds::{
    FIELDS, LARGEST_CODE, LARGEST_COUNT, LARGEST_OFFSET, LARGEST_PROCESS, LARGEST_SET,
    LARGEST_WORD, TUPLES,
};
pub use equality::same_call;
pub use fault::{uses_entry, uses_template};
pub use field::{
    ANNOUNCING, CAS, COUNT, Call, DECISION, DEFINED, FORMAL, Field, INP, LISTING, OFFSET, OUT,
    PROCESS_SET, PROPOSE, RDP, Tuple, WILDCARD, WORD, largest,
};
pub use forms::{
    ANNOUNCEMENT, ANNOUNCEMENT_TEMPLATE, DECISION_ENTRY, DECISION_TEMPLATE, LIST_TEMPLATE,
    LIST_TUPLE, PROPOSAL, PROPOSAL_TEMPLATE, WEAK_ENTRY, WEAK_TEMPLATE,
};
pub use matching::{field_matches, first, least, oldest};
pub use offset::{BOTTOM, Offset};
pub use refusal::{Refusal, Verdict};
pub use reply::{Outcome, Reply};
pub use shape::{Shape, has_shape, make};
