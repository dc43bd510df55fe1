//! The parts of a store, with or without a cell in hand.

use crate::notes::Notes;
use crack_arena::Arena;
use crack_column::CrackerColumn;
use crack_index::CrackerIndex;
use crack_pending::{PendingIn, PendingOut};
use crack_row::{KeyRange, Row};
use crack_serials::Serials;
use crack_state::MergeReport;

/// The parts of a store: the partition's keys, its cells, and the lists that the cells are in.
pub(crate) struct Inside {
    pub(crate) keys: KeyRange,
    pub(crate) arena: Arena<Row>,
    pub(crate) column: CrackerColumn,
    pub(crate) index: CrackerIndex,
    pub(crate) pending_in: PendingIn,
    pub(crate) pending_out: PendingOut,
    /// The number of pending insertions that can be added without memory.
    pub(crate) in_room: usize,
    /// Where doomed rows were last seen.
    pub(crate) notes: Notes,
    /// The handle of each live row, by its serial.
    pub(crate) serials: Serials,
    pub(crate) tally: MergeReport,
}

// Written out, so that code that drops a store calls this function, and proves nothing about the fields.
impl Drop for Inside {
    /// Drops every part that has memory.
    fn drop(self) {
        let Inside {
            keys: _,
            arena,
            column,
            index,
            pending_in,
            pending_out,
            in_room: _,
            notes,
            serials,
            tally: _,
        } = self;
        drop(arena);
        drop(column);
        drop(index);
        drop(pending_in);
        drop(pending_out);
        drop(notes);
        drop(serials);
    }
}
