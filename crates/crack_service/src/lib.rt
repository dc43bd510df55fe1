//! The events that a server reports to the program that runs it, the lines of a batch, and why a run was refused.
#![tactic(auto)]

pub mod complaint;
pub mod host;
pub mod input;

pub use complaint::Complaint;
pub use host::{Alone, Cause, Host, Notice};
pub use input::{divide, read_input};

/// The greatest number of bytes in the input of a batch.
pub const MOST_INPUT_BYTES: u64 = 67108864;

/// How many bytes of a batch's output are collected before they are written.
pub const REPLY_BYTES: usize = 24576;
