//! Appends all pending insertions to the column, if there is no bound.
ghost use Rattle.std.specs.Prelude.{◌≡◌, ◌↔◌, ◌≤◌, ◌++◌, [], length, All, IsTrue, IfErr, OnOk, OnErr};
ghost use Rattle.crack_arena.specs.Memories.{Remembers};
ghost use Rattle.crack_state.specs.State.{Reads, live_rows};
ghost use Rattle.crack_state.specs.Steps.{SameButRoom, all_appended};

use crate::Store;
use crate::points::row_at;
use crack_arena::{Arena, Remembered};
use crack_column::CrackerColumn;
use crack_pending::PendingIn;
use crack_row::{Refusal, Row};

impl Store {
    /// Whether the index has no bound. O(1).
    pub fn is_uncracked(&self) -> bool
        ensures { IsTrue result ↔ (self.now.marks ≡ []) }
    {
        self.inside.index.is_empty()
    }

    /// Appends all pending insertions to the column, in order of arrival; there must be no bound. This has the result
    /// of carrying them one after the other. If the column is empty, it takes over the memory of their list: that
    /// takes O(1) for each 64 cells, O(pending insertions) if others were removed before, and no memory. Otherwise
    /// room is made for all of them at once, and they are appended in O(pending insertions). Refused with
    /// `OutOfMemory` if no memory is found; then nothing has changed.
    pub fn append_all(&mut self) -> Result<(), Refusal>
        requires { self.old.marks ≡ [] }
        ensures ok { OnOk result (SameButRoom (all_appended self.old) self.new) }
        ensures live { live_rows self.new ≡ live_rows self.old }
        ensures same { OnErr result (SameButRoom self.old self.new) }
        ensures err { IfErr result (λ e. e ≡ Refusal.OutOfMemory) }
    {
        if self.inside.column.is_empty() {
            self.adopt_all();
            return Ok(());
        }
        let count = self.inside.pending_in.len();
        self.inside.column.reserve(count)?;
        self.inside.pending_in.close_up();
        append_rows(
            &mut self.inside.column,
            &self.inside.pending_in,
            &self.inside.arena,
        );
        self.inside.pending_in.clear();
        self.inside.pending_in.shrink_if_empty(self.inside.in_room);
        self.inside.tally.insertions = self.inside.tally.insertions.saturating_add(count as u64);
        Ok(())
    }

    /// Makes the list of all pending insertions the column, which must be empty and without bounds. Takes no memory,
    /// and keeps no room for pending insertions. O(1) for each 64 cells, and O(pending insertions) if others were
    /// removed before.
    fn adopt_all(&mut self)
        requires uncracked { self.old.marks ≡ [] }
        requires empty { self.old.column ≡ [] }
        ensures after { SameButRoom (all_appended self.old) self.new }
        ensures live { live_rows self.new ≡ live_rows self.old }
    {
        let (rows, unread) = self.inside.pending_in.hand_over();
        let adopted = rows.len() as u64;
        self.inside.column.adopt(rows, unread);
        self.inside.in_room = 0;
        self.inside.pending_in.shrink_if_empty(0);
        self.inside.tally.insertions = self.inside.tally.insertions.saturating_add(adopted);
    }
}

/// Appends the rows of a list to the column, in order, with their keys and payloads. The column must have room.
/// O(rows) if the list has no holes; the cells are read in the order of the list.
fn append_rows(column: &mut CrackerColumn, rows: &PendingIn, arena: &Arena<Row>)
    requires room { length rows.now.handles ≤ column.old.room }
    requires reads { All (Reads arena.now.cells) rows.now.handles }
    requires remembered { Remembers arena.now.cells column.old.handles column.old.remembered }
    ensures handles { column.new.handles ≡ column.old.handles ++ rows.now.handles }
    ensures remembered { Remembers arena.now.cells column.new.handles column.new.remembered }
{
    'rows: for place in 0..rows.len() {
        let handle = rows.at(place);
        let row = row_at(arena, handle);
        column.append_remembered(handle, Remembered::of(row));
    }
}
