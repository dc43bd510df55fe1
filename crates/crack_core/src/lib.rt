//! Partitions by key range, asked by one thread.
#![tactic(auto)]

mod ahead;
pub mod asking;
pub mod bulk;
pub mod cores;
pub mod listing;
pub mod opening;
pub mod routes;
mod runs;
pub mod step;
pub mod turns;
pub mod upkeep;

pub use asking::Query;
pub use bulk::{BulkProgress, halves};
pub use cores::Core;
pub use opening::{limits_fault, open_partitions, splits_fault};
pub use routes::{keys_of_part, only_part, parts_of, route};
pub use step::{Done, Job, Step};
pub use turns::{AskPart, PartReply, ask_parts, total_rows, total_sum};
pub use upkeep::upkeep_is_checkpoints;

/// The greatest number of splits: one less than the greatest number of partitions.
pub const MOST_SPLITS: usize = 63;
