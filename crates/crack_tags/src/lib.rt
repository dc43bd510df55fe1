//! Lists of handles, each with what is remembered of its row: as a cracker column stores them, and pending rows too.
#![tactic(auto)]

mod label;
mod list;

pub use label::Label;
pub use list::TagList;
