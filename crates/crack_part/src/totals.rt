//! The keys, the limits and the totals of a partition.
ghost use Rattle.std.specs.Prelude.{◌≡◌, ◌≤◌, length};
ghost use Rattle.crack_row.specs.Limits.{AreLimits};
ghost use Rattle.crack_plain.specs.Plain.{accepted_of};
ghost use Rattle.crack_state.specs.State.{live_rows};
ghost use Rattle.crack_part.specs.Parts.{state_of, table_of, statistics_of};

use crate::partition::Partition;
use crack_plain::Statistics;
use crack_row::{KeyRange, Limits};

impl Partition {
    /// The range of keys that the rows may have. O(1).
    pub fn keys(&self) -> KeyRange
        ensures { result ≡ self.now.keys }
    {
        self.keys
    }

    /// The limits of the partition. O(1).
    pub fn limits(&self) -> Limits
        ensures value { result ≡ self.now.limits }
        ensures limited { AreLimits self.now.limits }
    {
        self.limits
    }

    /// The number of commands accepted since the partition was opened. O(1).
    pub fn accepted(&self) -> u64
        ensures value { result ≡ accepted_of (table_of self.now) }
        ensures lived { result ≤ self.now.limits.life }
    {
        self.checkpointed + self.since
    }

    /// The number of commands accepted up to the last checkpoint; 0 if there was none. O(1).
    pub fn checkpointed(&self) -> u64
        ensures { result ≡ self.now.checkpointed }
    {
        self.checkpointed
    }

    /// The number of commands accepted since the last checkpoint, or since the opening if there was none. O(1).
    pub fn since(&self) -> u64
        ensures { result ≡ self.now.since }
    {
        self.since
    }

    /// The number of rows inserted since the partition was opened. O(1).
    pub fn insertions(&self) -> u64
        ensures { result ≡ self.now.next }
    {
        self.next
    }

    /// The number of rows: those of the column without the doomed ones, and the pending insertions. O(1).
    pub fn rows(&self) -> u64
        ensures live { result ≡ length (live_rows self.now.store) }
        ensures plain { result ≡ length (state_of self.now).rows }
    {
        self.store.recall_invariant();
        let column = self.store.column_len() as u64;
        let pending_in = self.store.pending_in() as u64;
        let pending_out = self.store.pending_out() as u64;
        column - pending_out + pending_in
    }

    /// The numbers of the partition, for monitoring. O(1). Cracks and merges nothing, and isn't counted as a
    /// command.
    pub fn statistics(&self) -> Statistics
        ensures { result ≡ statistics_of self.now }
    {
        Statistics {
            rows: self.rows(),
            pending_insertions: self.store.pending_in() as u64,
            pending_deletions: self.store.pending_out() as u64,
            pieces: (self.store.bounds() as u64).saturating_add(1),
            cells: self.store.cells() as u64,
            free_cells: self.store.free_cells() as u64,
            commands_accepted: self.accepted(),
            commands_since_checkpoint: self.since,
        }
    }
}
