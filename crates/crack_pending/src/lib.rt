//! The pending insertions and pending deletions of a partition: handles in order of arrival.
#![tactic(auto)]

mod ahead;
mod bits;
mod closing;
mod code_pass;
mod codes;
pub mod list;
mod noting;
mod pass;
mod removing;
mod room;
mod rows;
mod searching;
mod taking;

pub use list::{PendingIn, PendingList, PendingOut};
