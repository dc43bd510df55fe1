//! Reads of the column between the ends of a range.
ghost use Rattle.std.specs.Prelude.{◌≡◌, ◌<◌, ◌≤◌, ◌≤ℤ◌, ◌^◌, ◌↔◌, neg_ℤ, pos, Some, length};
ghost use Rattle.std.specs.Prelude.{IfOk, IfErr, IsTrue, slice_index_or};
ghost use Rattle.std.specs.List.Sorted.{IsPermutation, IsNonDecreasingBy};
ghost use Rattle.crack_row.specs.Rows.{sum_of};
ghost use Rattle.crack_arena.specs.Arena.{read, no_handle};
ghost use Rattle.crack_state.specs.Merge.{IsCracked, edge};
ghost use Rattle.crack_state.specs.Stretch.{rows_within, stretch_rows, serial_of};

use crate::Store;
use crate::cracking::missing_ends;
use crate::points::row_at;
use crack_row::{KeyRange, Refusal, Row};

impl Store {
    /// Whether the column is cracked at both ends of a range: each end is in the index, or isn't strictly between the
    /// ends of the partition's keys. O(log bounds).
    pub fn is_cracked(&self, range: KeyRange) -> bool
        ensures { IsTrue result ↔ IsCracked self.now range }
    {
        missing_ends(&self.inside, range).bounds() == 0
    }

    /// The sum of the payloads of the column's rows between the ends of a range, including doomed ones. The column
    /// must be cracked at both ends. Takes no memory. O(rows there + log bounds); reads no cell of a row that the
    /// column remembers.
    pub fn sum_between(&self, range: KeyRange) -> i128
        requires { IsCracked self.now range }
        ensures is { result ≡ sum_of (stretch_rows self.now range) }
        ensures small { (neg_ℤ (pos (2 ^ 95)) ≤ℤ result) × (result ≤ℤ pos (2 ^ 95)) }
    {
        let (from, to) = self.places_of(range);
        self.inside.column.sum_between(from, to, &self.inside.arena)
    }

    /// The column's rows between the ends of a range, including doomed ones, by rising serial. The column must be
    /// cracked at both ends. O(m log m + log bounds) for m rows. Refused with `OutOfMemory` if no memory is found.
    pub fn rows_between(&self, range: KeyRange) -> Result<Vec<Row>, Refusal>
        requires { IsCracked self.now range }
        ensures rows { IfOk result (λ rows. IsPermutation (stretch_rows self.now range) rows.items) }
        ensures rising { IfOk result (λ rows. IsNonDecreasingBy serial_of rows.items) }
        ensures err { IfErr result (λ e. e ≡ Refusal.OutOfMemory) }
    {
        let (from, to) = self.places_of(range);
        let mut rows = self.rows_in_places(from, to)?;
        rows.sort_unstable_by_key(|row| row.serial.0);
        Ok(rows)
    }

    /// The place where the rows of a range begin in the column, and the place where they end. The column must be
    /// cracked at both ends of the range. O(log bounds).
    fn places_of(&self, range: KeyRange) -> (usize, usize)
        requires { IsCracked self.now range }
        ensures from { result.0 ≡ edge self.now range.low }
        ensures to { result.1 ≡ edge self.now range.high }
        ensures order { result.0 ≤ result.1 }
        ensures within { result.1 ≤ length self.now.column }
    {
        let _ = &self.inside;
        (self.edge(range.low()), self.edge(range.high()))
    }

    /// The row at a place of the column, which must exist. O(1).
    fn row_in_place(&self, place: usize) -> Row
        requires { place < length self.now.column }
        ensures { read self.now.cells (slice_index_or self.now.column place no_handle) ≡ Some result }
    {
        row_at(&self.inside.arena, self.inside.column.at(place))
    }

    /// The rows from the place `from` of the column up to the place `to`, in order. O(places). Refused with
    /// `OutOfMemory` if no memory is found.
    fn rows_in_places(&self, from: usize, to: usize) -> Result<Vec<Row>, Refusal>
        requires order { from ≤ to }
        requires within { to ≤ length self.now.column }
        ensures rows { IfOk result (λ rows. rows.items ≡ rows_within self.now from to) }
        ensures err { IfErr result (λ e. e ≡ Refusal.OutOfMemory) }
    {
        let mut rows = Vec::with_capacity(*self.inside.serials.allocator(), to - from)?;
        'places: for place in from..to {
            rows.push_reserved(self.row_in_place(place));
        }
        Ok(rows)
    }
}
