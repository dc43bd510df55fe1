//! The plain table: a slow table that is one list of rows, and the definition of what commands mean.
#![tactic(auto)]

mod list;
pub mod statistics;
pub mod table;

pub use statistics::Statistics;
pub use table::PlainTable;

/// The greatest number of commands that a plain table accepts.
pub const MOST_ACCEPTED: u64 = 4294967295;
