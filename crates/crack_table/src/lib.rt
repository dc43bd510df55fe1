//! A table of partitions, each in a lock with its history, which exists in proofs only; the gathering of its workers;
//! and the check that receipts cover lists of entries.
#![tactic(auto)]

mod asking;
mod auditing;
pub mod covering;
pub mod gate;
pub mod gathering;
mod locks;
pub mod opening;
mod order;
pub mod repeating;
mod states;
pub mod table;
mod totals;

pub use covering::cover;
pub use gate::{Gate, OpenGate};
pub use gathering::{GatherRefused, Gathered, gather};
pub use opening::UnnamedTable;
pub use repeating::one_thread_repeats;
pub use table::Table;

/// The greatest number of workers that a table may have.
pub const MOST_WORKERS: u64 = 64;

/// The greatest number of times that a gate is asked for one command.
pub const GATE_TURNS: u32 = 1000;
