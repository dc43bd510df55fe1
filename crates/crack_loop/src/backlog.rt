//! The waiting bytes of a busy connection.
ghost use Rattle.std.specs.Prelude.{◌≡◌, ◌==◌, [], length, drop, IsOk, OnOk, OnErr};

use std::alloc::{AllocError, Global};
use std::marker::Model;

/// A queue of bytes that wait to be answered or written. It holds memory only while it isn't empty.
#[derive(Drop)]
pub struct Backlog {
    bytes: Vec<u8>,
    passed: usize,
}

impl Model for Backlog {
    ghost use Rattle.std.specs.Prelude.{ℕ, List, drop, ◌≤◌, length};

    ghost Value = { List ℕ };

    ghost view = { λ b. drop b.passed b.bytes.items };

    ghost invariant = { λ b. b.passed ≤ length b.bytes.items };
}

impl Backlog {
    /// An empty queue. Takes no memory.
    pub fn new(alloc: Global) -> Backlog
        ensures { result ≡ [] }
    {
        Backlog {
            bytes: Vec::new(alloc),
            passed: 0,
        }
    }

    /// The bytes that wait, the oldest first. O(1).
    pub fn as_slice(&self) -> &[u8]
        ensures { result.now ≡ self.now }
    {
        &self.bytes[self.passed..]
    }

    /// Whether no byte waits. O(1).
    pub fn is_empty(&self) -> bool
        ensures { result ≡ (length self.now == 0) }
    {
        self.passed == self.bytes.len()
    }

    /// Replaces the bytes that wait by a copy of `bytes`. O(bytes). Refused if no memory is found; then nothing has
    /// changed.
    pub fn keep(&mut self, alloc: Global, bytes: &[u8]) -> Result<(), AllocError>
        ensures ok { OnOk result (self.new ≡ bytes.now) }
        ensures err { OnErr result (self.new ≡ self.old) }
        ensures none { length bytes.now ≡ 0 → IsOk result }
    {
        let mut kept = Vec::new(alloc);
        if !bytes.is_empty() {
            kept.extend_from_slice(bytes)?;
        }
        *self = Backlog {
            bytes: kept,
            passed: 0,
        };
        Ok(())
    }

    /// Removes the first `count` bytes, or all if there are fewer. Frees the memory if none is left. O(1).
    pub fn pass(&mut self, alloc: Global, count: usize)
        ensures { self.new ≡ drop count self.old }
    {
        if count < self.bytes.len() - self.passed {
            self.passed += count;
        } else {
            *self = Backlog::new(alloc);
        }
    }
}
