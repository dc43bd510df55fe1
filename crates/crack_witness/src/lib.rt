//! A witness for each reply: one history of each partition, which all workers see and which exists only in proofs. A
//! lock holds a partition with its history writer, which adds each reply to the history.
#![tactic(auto)]

pub mod closing;
pub mod event;
pub mod history_writer;
mod listing;
pub mod opening;
pub mod receipt;
pub mod witnessed;
pub mod worker;

pub use closing::compare;
pub use history_writer::SeenEvents;
pub use opening::{Naming, Opened};
pub use receipt::Receipt;
pub use witnessed::Witnessed;
pub use worker::Worker;
