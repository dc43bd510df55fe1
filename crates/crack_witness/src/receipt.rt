//! Receipts, which workers keep with an audit.

use crack_row::{Command, Reply};

/// A worker's command and the reply, with the position of their entry: the partition's number, and how many
/// commands the partition had accepted before.
#[derive(Drop, Debug)]
pub struct Receipt {
    pub part: u32,
    pub position: u64,
    pub worker: u32,
    pub command: Command,
    pub reply: Reply,
}
