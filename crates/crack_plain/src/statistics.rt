//! The statistics of a partition.
ghost use Rattle.std.specs.Prelude.{◌≡◌};
ghost use Rattle.crack_plain.specs.Watching.{no_statistics, together};

/// How many live rows, pending insertions, pending deletions, pieces, cells and free cells a partition has, and how
/// many commands it accepted since it was opened and since its last checkpoint.
#[derive(Clone, Copy, PartialEq, Eq, Debug)]
pub struct Statistics {
    pub rows: u64,
    pub pending_insertions: u64,
    pub pending_deletions: u64,
    pub pieces: u64,
    pub cells: u64,
    pub free_cells: u64,
    pub commands_accepted: u64,
    pub commands_since_checkpoint: u64,
}

impl Statistics {
    /// The statistics of no partition: each number is 0. O(1).
    pub fn none() -> Statistics
        ensures { result ≡ no_statistics }
    {
        Statistics {
            rows: 0,
            pending_insertions: 0,
            pending_deletions: 0,
            pieces: 0,
            cells: 0,
            free_cells: 0,
            commands_accepted: 0,
            commands_since_checkpoint: 0,
        }
    }

    /// Adds the statistics of two sets of partitions: each number is the sum of the two, or the greatest number of 64
    /// bits if the sum is above it. O(1).
    pub fn plus(self, other: Statistics) -> Statistics
        ensures { result ≡ together self other }
    {
        Statistics {
            rows: self.rows.saturating_add(other.rows),
            pending_insertions: self
                .pending_insertions
                .saturating_add(other.pending_insertions),
            pending_deletions: self
                .pending_deletions
                .saturating_add(other.pending_deletions),
            pieces: self.pieces.saturating_add(other.pieces),
            cells: self.cells.saturating_add(other.cells),
            free_cells: self.free_cells.saturating_add(other.free_cells),
            commands_accepted: self
                .commands_accepted
                .saturating_add(other.commands_accepted),
            commands_since_checkpoint: self
                .commands_since_checkpoint
                .saturating_add(other.commands_since_checkpoint),
        }
    }
}
