//! The store of a partition: its cells, cracker column, index and pending rows.
//!
//! Rows are in the cells of an arena. A cell in use is at one place of the cracker column, a pending insertion, or
//! in hand, as at most one cell is. A doomed row is a row of the column that is also a pending deletion. Contracts
//! see a store as one record of plain lists.
#![tactic(auto)]

pub mod appending;
mod ascent;
mod blocks;
pub mod carrying;
mod closing;
pub mod coarsening;
mod cracking;
pub mod draining;
pub mod evicting;
pub mod filling;
mod found;
mod further;
mod inserting;
mod inside;
pub mod live;
mod notes;
pub mod onward;
mod opening;
pub mod points;
pub mod ranges;
pub mod reads;
pub mod runs;
mod search;
pub mod sifting;
mod steps;
pub mod store;
mod sweeping;
mod taking;
pub mod ways;

pub use carrying::Carrying;
pub use crack_state::MergeReport;
pub use store::Store;
pub use ways::CarryEnd;
