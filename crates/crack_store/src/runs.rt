//! Inserts a run of rows.
ghost use Rattle.std.specs.Prelude.{◌≡◌, ◌+◌, ◌<◌, ◌≤◌, ◌^◌, ◌++◌, length, take};
ghost use Rattle.std.specs.List.Sorted.{IsPermutation};
ghost use Rattle.crack_state.specs.State.{live_rows};
ghost use Rattle.crack_state.specs.Steps.{SameButRoom};
ghost use Rattle.crack_store.specs.Runs.{run_rows, rows_inserted, AreInsertable};

use crate::Store;
use crate::inserting::{add_rows, make_room_for_run, row_at_index};
use crack_row::{KeyNumber, PayloadNumber, Serial};

/// From this many rows on, making room for all at once costs less than making it for one row after the other: room for
/// all at once is made in each map of serials.
const MANY_ROWS: usize = 16;

impl Store {
    /// Adds a row for each key and the payload at the same index, in order, as `insert` does, with serials that rise
    /// by one from `first`. Returns how many rows it added: fewer than all only if no memory was found for the next
    /// one.
    ///
    /// Room is made for all rows at once if there are at least 16, and otherwise, or if no memory is found for all,
    /// for each row before it is added. O(rows), except for growth.
    pub fn insert_run(
        &mut self,
        first: Serial,
        keys: &[KeyNumber],
        payloads: &[PayloadNumber],
    ) -> usize
        requires payloads { length payloads.now ≡ length keys.now }
        requires insertable { AreInsertable first.0 keys.now self.old }
        requires serials { first.0 + length keys.now < 2 ^ 64 }
        ensures few { result ≤ length keys.now }
        ensures after { SameButRoom (rows_inserted (take result (run_rows first.0 keys.now payloads.now)) self.old)
            self.new }
        ensures live { IsPermutation (take result (run_rows first.0 keys.now payloads.now) ++ live_rows self.old)
            (live_rows self.new) }
    {
        if keys.len() < MANY_ROWS {
            return self.insert_each(first, keys, payloads);
        }
        if make_room_for_run(&mut self.inside, first, keys.len()).is_err() {
            return self.insert_each(first, keys, payloads);
        }
        add_rows(&mut self.inside, first, keys, payloads);
        keys.len()
    }

    /// Does what `insert_run` does, but makes room for each row before it is added. O(rows), except for growth.
    #[inline(never)]
    fn insert_each(
        &mut self,
        first: Serial,
        keys: &[KeyNumber],
        payloads: &[PayloadNumber],
    ) -> usize
        requires payloads { length payloads.now ≡ length keys.now }
        requires insertable { AreInsertable first.0 keys.now self.old }
        requires serials { first.0 + length keys.now < 2 ^ 64 }
        ensures few { result ≤ length keys.now }
        ensures after { SameButRoom (rows_inserted (take result (run_rows first.0 keys.now payloads.now)) self.old)
            self.new }
        ensures live { IsPermutation (take result (run_rows first.0 keys.now payloads.now) ++ live_rows self.old)
            (live_rows self.new) }
    {
        'rows: for i in 0..keys.len() {
            let row = row_at_index(first, i, keys, payloads);
            match self.insert(row) {
                Ok(()) => {}
                Err(_) => return i,
            }
        }
        keys.len()
    }
}
