//! The workers of a table, each on a thread of its own: for the lines of a batch, and for connections over TCP.
#![tactic(auto)]

pub mod batch;
mod reporting;
pub mod service;
pub mod supervision;
mod totals;

pub use batch::run_batch;
pub use service::{run_service, run_supervised};
pub use supervision::serve_supervisor;

/// The least number of entries that are checkpointed between two notices of automatic checkpoints. If a history may
/// have this many, each checkpoint has its own notice; otherwise one notice covers several, so that not every
/// statement causes one.
pub const ENTRIES_PER_NOTICE: u64 = 1000;
