//! The cracker column of a partition ("Database Cracking", CIDR 2007): handles of rows in cracked order.
#![tactic(auto)]

pub mod column;
pub mod draining;
pub mod held;
mod tag;
mod tags;

pub use column::CrackerColumn;
pub use draining::Doomed;
pub use held::HeldColumn;

/// The greatest number of places in a column.
pub const MOST_PLACES: u64 = 4294967296;
