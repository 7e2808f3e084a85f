// Calls on a tuple space: what a call does, the refusals in their order, and the space afterwards.
#![tactic(auto)]

mod change;
mod effect;
mod turn;

pub use change::{Change, carry_out_unchecked};
pub use effect::{Effect, effect_at, effect_of, refused};
pub use turn::{Applied, apply, judge_unchecked, lent_refusal, list_refusal};
