//! A gate that reports automatic checkpoints to the program that runs the server.
use crate::ENTRIES_PER_NOTICE;
use crack_service::{Host, Notice};
use crack_table::Gate;
use std::sync::atomic::{AtomicU64, Ordering};

/// The gate of all workers of a server: it consents if the program's own gate does, and reports automatic checkpoints
/// to the host.
#[derive(Drop)]
pub(crate) struct Reporting<'a, G: Gate, H: Host> {
    gate: &'a G,
    host: &'a H,
    /// How many checkpoints were made since the last notice.
    count: AtomicU64,
    /// How many entries must still be checkpointed before the next notice.
    entries_left: AtomicU64,
}

impl<'a, G: Gate, H: Host> Reporting<'a, G, H> {
    /// A gate that consents if `gate` does, and notifies this host.
    pub(crate) fn new(gate: &'a G, host: &'a H) -> Reporting<'a, G, H> {
        Reporting {
            gate,
            host,
            count: AtomicU64::new(0),
            entries_left: AtomicU64::new(0),
        }
    }

    /// Counts the entries of a checkpoint, and returns whether the host is to be notified: of the first checkpoint,
    /// and then of each one with which at least `ENTRIES_PER_NOTICE` entries were checkpointed since the last notice.
    fn is_notice_due(&self, entries: u64) -> bool {
        let left = self.entries_left.load(Ordering::SeqCst);
        let is_due = entries >= left;
        let next = if is_due {
            ENTRIES_PER_NOTICE
        } else {
            left - entries
        };
        self.entries_left.store(next, Ordering::SeqCst);
        is_due
    }
}

impl<'a, G: Gate, H: Host> Gate for Reporting<'a, G, H> {
    ghost may_refuse = { λ reporting part turn. G.may_refuse reporting.gate.now part turn };

    /// Whether the program's own gate consents.
    fn inside(&self, part: u32, turn: u32) -> bool {
        self.gate.inside(part, turn)
    }

    /// Notifies the program's own gate of a checkpoint of partition `part`, which covers `entries` commands, and
    /// counts it. Notifies the host of the first checkpoint, and then of each one with which at least
    /// `ENTRIES_PER_NOTICE` commands were checkpointed since the last notice. A notice has the number of checkpoints
    /// since the one before.
    fn note_checkpoint(&self, part: u32, entries: u64) {
        self.gate.note_checkpoint(part, entries);
        self.count.fetch_add(1, Ordering::SeqCst);
        if self.is_notice_due(entries) {
            let count = self.count.swap(0, Ordering::SeqCst);
            if count > 0 {
                self.host.note(Notice::Checkpoints {
                    count,
                    part,
                    entries,
                });
            }
        }
    }
}
