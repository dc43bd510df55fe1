//! The connections of a server, any number of them on each of its threads.
#![tactic(auto)]

mod admission;
pub mod backlog;
mod client;
pub mod connection;
mod crowd;
mod pace;
mod served;
pub mod server;
pub mod terms;

pub use connection::{Connection, Next};
use crack_session::Output;
pub use server::serve_connections;
pub use terms::{ServerEnding, Terms};

/// The greatest number of bytes in one read.
pub const READ_BYTES: usize = 4096;

/// Buffers that all connections of a thread use in turn.
#[derive(Drop)]
pub(crate) struct Room {
    pub(crate) input: [u8; READ_BYTES],
    pub(crate) out: Output,
}
