//! The live rows of a store: those that commands see.
ghost use Rattle.std.specs.Prelude.{◌≡◌, ◌+◌, ◌<◌, ◌≤◌, ◌++◌, [], length, take, drop, IfOk, IfErr, OnOk};
ghost use Rattle.std.specs.List.{cons_option, filter};
ghost use Rattle.std.specs.List.Sorted.{IsPermutation, IsNonDecreasingBy};
ghost use Rattle.crack_row.specs.Ranges.{in_range};
ghost use Rattle.crack_arena.specs.Arena.{slots};
ghost use Rattle.crack_state.specs.State.{live_at, live_rows};
ghost use Rattle.crack_state.specs.Stretch.{serial_of};
ghost use Rattle.crack_store.specs.Found.{KeepsOrder, all_of, live_below};

use crate::Store;
use crate::found::Found;
use crack_arena::CellRun;
use crack_row::{KeyRange, Refusal, Row};

impl Store {
    /// The live rows, by rising serial. Cracks and merges nothing. Finds the rows in the order of their cells'
    /// numbers. O(cells); and, if the serials of k of the n rows are out of that order, O(k log k) more to sort these,
    /// or O(n log n) more if k is above a quarter of n. An insert into a freed cell is out of order, and so is an
    /// updated row of the column, which takes another cell. Refused with `OutOfMemory` if no memory is found.
    pub fn live_rows(&self) -> Result<Vec<Row>, Refusal>
        ensures rows { IfOk result (λ rows. IsPermutation (live_rows self.now) rows.items) }
        ensures rising { IfOk result (λ rows. IsNonDecreasingBy serial_of rows.items) }
        ensures err { IfErr result (λ e. e ≡ Refusal.OutOfMemory) }
    {
        self.recall_invariant();
        self.live_rows_in(self.inside.keys, self.inside.serials.len())
    }

    /// The live rows whose keys are in a range, by rising serial. Cracks and merges nothing. The list is made with
    /// room for `expected` rows, or for all live rows if these are fewer, and grows if more are found. O(cells); and,
    /// if the serials of k of the m rows found are out of the order of their cells' numbers, O(k log k) more, or O(m
    /// log m) more if k is above a quarter of the room. Refused with `OutOfMemory` if no memory is found.
    pub fn live_rows_in(&self, range: KeyRange, expected: usize) -> Result<Vec<Row>, Refusal>
        ensures rows { IfOk result (λ rows. IsPermutation (filter (in_range range) (live_rows self.now)) rows.items) }
        ensures rising { IfOk result (λ rows. IsNonDecreasingBy serial_of rows.items) }
        ensures err { IfErr result (λ e. e ≡ Refusal.OutOfMemory) }
    {
        self.rows_by_cells(range, expected)?.into_rows()
    }

    /// The live rows whose keys are in a range, found in the order of their cells' numbers, in a list that is made
    /// with room for `expected` rows, or for all live rows if these are fewer. O(cells), amortised. Refused with
    /// `OutOfMemory` if no memory is found.
    fn rows_by_cells(&self, range: KeyRange, expected: usize) -> Result<Found, Refusal>
        ensures rows { IfOk result (λ found.
            IsPermutation (filter (in_range range) (live_rows self.now)) (all_of found)) }
        ensures order { IfOk result (λ found. KeepsOrder found) }
        ensures err { IfErr result (λ e. e ≡ Refusal.OutOfMemory) }
    {
        self.recall_invariant();
        let serials = &self.inside.serials;
        let room = expected.min(serials.len());
        let mut found = Found::with_room(*serials.allocator(), room)?;
        let mut slot = 0;
        'runs: while slot < self.inside.arena.cells() {
            let run = self.inside.arena.cells_from(slot as u32);
            self.add_live(&mut found, range, slot as u32, &run)?;
            slot += run.len();
        }
        Ok(found)
    }

    /// Adds to `found` the live rows in the run `cells` whose keys are in the range. The run begins with the cell
    /// `slot`, and `found` has those of the cells before it. O(cells of the run). Refused with `OutOfMemory` if no
    /// memory is found.
    fn add_live(
        &self,
        found: &mut Found,
        range: KeyRange,
        slot: u32,
        cells: &CellRun<'_, Row>,
    ) -> Result<(), Refusal>
        requires cells { cells.now ≡ take (length cells.now) (drop slot self.now.cells) }
        requires within { slot + length cells.now ≤ length self.now.cells }
        requires few { length self.now.cells < 4294967296 }
        requires rows { IsPermutation (live_below range slot self.now) (all_of found.old) }
        requires order { KeepsOrder found.old }
        ensures rows { OnOk result
            (IsPermutation (live_below range (slot + length cells.now) self.now) (all_of found.new)) }
        ensures order { OnOk result (KeepsOrder found.new) }
        ensures err { IfErr result (λ e. e ≡ Refusal.OutOfMemory) }
    {
        'cells: for place in 0..cells.len() {
            found.add(self.live_in(range, slot, cells, place))?;
        }
        Ok(())
    }

    /// The row in the cell at this place of the run `cells`, which begins with the cell `slot`; `None` if the cell has
    /// no row, the row is doomed, or its key isn't in the range. O(1).
    #[inline(always)]
    fn live_in(
        &self,
        range: KeyRange,
        slot: u32,
        cells: &CellRun<'_, Row>,
        place: usize,
    ) -> Option<Row>
        requires cells { cells.now ≡ take (length cells.now) (drop slot self.now.cells) }
        requires there { place < length cells.now }
        requires few { slot + place < 4294967296 }
        ensures { cons_option result [] ≡ filter (in_range range) (cons_option (live_at self.now.cells
            (slots self.now.pending_out) (slot + place)) []) }
    {
        let row = cells.value_at(place).copied()?;
        // The key is tested first, since whether a row is doomed is read from other memory.
        if range.contains(row.key) && !self.inside.pending_out.contains(slot + place as u32) {
            Some(row)
        } else {
            None
        }
    }
}
