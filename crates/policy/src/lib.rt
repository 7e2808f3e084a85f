// The access policies: the shapes of decisions, what each policy says of a call, and the verdict by the policy's number.
#![tactic(auto)]

mod default;
mod justified;
mod listing;
mod policy;
mod shape;
mod verdicts;
mod weak;

pub use policy::{asks_tuples, lent_verdict, list_verdict, table_verdict};
pub use shape::is_decision;
