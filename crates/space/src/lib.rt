// The tuple space: its bounds and configuration, sets of processes, what may be proposed and who has proposed what, what the shared list holds, who has
// announced what, and the record with its test and a fresh one.
#![tactic(auto)]

mod announcement;
mod bounds;
mod config;
mod list;
mod member;
mod proposal;
mod questions;
mod shape;
mod space;
mod table;

pub use announcement::{is_announcement, oldest_announced};
pub use bounds::{LAST_POLICY, PLACES, PROCESSES, ROUNDS};
pub use config::Config;
pub use list::{is_filled, is_list_tuple, is_listed};
pub use member::within;
pub use proposal::{Sought, decidable, offered};
pub use questions::Questions;
pub use shape::is_proposal;
pub use space::{Space, fresh, is_bounded};
pub use table::{Tabled, enter};
