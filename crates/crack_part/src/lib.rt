//! A partition: the rows of a range of keys, which answer commands.
#![tactic(auto)]

mod changes;
mod coarsening;
mod known;
pub mod partition;
mod passes;
mod reads;
mod replies;
pub mod runs;
mod settling;
pub mod totals;

pub use partition::Partition;
pub use replies::Copies;
