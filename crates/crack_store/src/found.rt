//! The rows that a pass over the cells finds, which are then put in the order of their serials.
ghost use Rattle.std.specs.Prelude.{◌≡◌, ◌≢◌, ◌++◌, ◌∷◌, ◌≤◌, [], length, IfOk, IfErr, OnOk, if◌then◌else◌};
ghost use Rattle.std.specs.List.{cons_option};
ghost use Rattle.std.specs.List.Sorted.{IsPermutation, IsNonDecreasingBy};
ghost use Rattle.crack_state.specs.Stretch.{serial_of};
ghost use Rattle.crack_store.specs.Found.{KeepsOrder, all_of};
ghost use Rattle.crack_store.specs.declared.found.Order.TheVariants.{Rising};

use crack_row::{Refusal, Row};
use std::alloc::Global;

/// If fewer of the last rows than this have a serial above that of the next row, they are put aside; otherwise the
/// next row is.
const MOST_ABOVE: usize = 8;

/// One row of this many may be put aside. If more are out of order, it is faster to sort all rows.
const ROWS_TO_ONE_ASIDE: usize = 4;

/// What is known of the order of the rows that were found.
#[derive(Clone, Copy)]
pub(crate) enum Order {
    /// The serials of all rows rise.
    Rising,
    /// Rows were put aside, and the serials of the others rise.
    Nearly,
    /// The serials are in any order, because too many rows would have been put aside.
    Mixed,
}

/// The live rows that a pass over the cells has found so far. Their serials rise with the numbers of the cells,
/// except those of rows that took a cell that had been freed: inserted rows, and updated rows of the column. Rows that
/// are out of order are put aside while they are few. In the end they are sorted, and merged with the others, as in
/// drop-merge sort (Emil Ernerfeldt, 2017).
#[derive(Drop)]
pub(crate) struct Found {
    rows: Vec<Row>,
    /// The rows that were put aside.
    aside: Vec<Row>,
    /// Once at least this many rows are aside, no more are put there.
    most_aside: usize,
    order: Order,
    /// The serial of the last of `rows`, or 0.
    last: u64,
}

impl Found {
    /// No rows found yet. There is room for `room` rows; a quarter as many may be put aside. O(1). Refused with
    /// `OutOfMemory` if no memory is found.
    pub(crate) fn with_room(alloc: Global, room: usize) -> Result<Found, Refusal>
        ensures rows { IfOk result (λ found. all_of found ≡ []) }
        ensures order { IfOk result (λ found. KeepsOrder found) }
        ensures err { IfErr result (λ e. e ≡ Refusal.OutOfMemory) }
    {
        Ok(Found {
            rows: Vec::with_capacity(alloc, room)?,
            aside: Vec::new(alloc),
            most_aside: room / ROWS_TO_ONE_ASIDE,
            order: Order::Rising,
            last: 0,
        })
    }

    /// Adds this row to those found; `None` adds nothing. If the row's serial is below that of the last of `rows`, the
    /// row or up to seven of the last ones may be put aside (`puts_aside`). O(1), amortised. Refused with
    /// `OutOfMemory` if no memory is found.
    #[inline(always)]
    pub(crate) fn add(&mut self, row: Option<Row>) -> Result<(), Refusal>
        requires order { KeepsOrder self.old }
        ensures rows { OnOk result (IsPermutation (all_of self.old ++ cons_option row []) (all_of self.new)) }
        ensures order { OnOk result (KeepsOrder self.new) }
        ensures err { IfErr result (λ e. e ≡ Refusal.OutOfMemory) }
    {
        let Some(row) = row else {
            return Ok(());
        };
        if row.serial.0 < self.last && self.puts_aside(row)? {
            return Ok(());
        }
        self.rows.push(row)?;
        self.last = row.serial.0;
        Ok(())
    }

    /// Makes way for `row`, whose serial is below that of the last of `rows`: puts aside `row` or some of the last
    /// rows. Returns whether `row` was put aside; if not, the caller adds it to `rows`.
    /// - If at least `most_aside` rows are aside, puts none aside, and sets the order to `Mixed`.
    /// - Otherwise sets the order to `Nearly`. If fewer than `MOST_ABOVE` of the last rows have a serial above that of
    ///   `row`, puts these aside; else puts `row` aside.
    ///
    /// O(1), amortised. Refused with `OutOfMemory` if no memory is found.
    #[inline(never)]
    fn puts_aside(&mut self, row: Row) -> Result<bool, Refusal>
        ensures rows { IfOk result (λ is_aside. IsPermutation (all_of self.old ++ (if is_aside then row ∷ [] else []))
            (all_of self.new)) }
        ensures order { OnOk result (self.new.order ≢ Rising) }
        ensures err { IfErr result (λ e. e ≡ Refusal.OutOfMemory) }
    {
        if self.aside.len() >= self.most_aside {
            self.order = Order::Mixed;
            return Ok(false);
        }
        self.order = Order::Nearly;
        let above = self.above(row.serial.0);
        if above == MOST_ABOVE {
            // A `push` here would keep the compiler from inlining the one in `add`, which runs for each row.
            self.aside.extend_from_slice(&[row])?;
            return Ok(true);
        }
        let kept = self.rows.len() - above;
        self.aside.extend_from_slice(&self.rows[kept..])?;
        self.rows.truncate(kept);
        Ok(false)
    }

    /// How many of the last rows have a serial above this one: counts back from the last row to the nearest one that
    /// doesn't, and at most `MOST_ABOVE` rows. O(1).
    fn above(&self, serial: u64) -> usize
        ensures { result ≤ length self.now.rows.items }
    {
        let rows = self.rows.as_slice();
        let most = rows.len().min(MOST_ABOVE);
        'above: for count in 0..most {
            if rows[rows.len() - 1 - count].serial.0 <= serial {
                return count;
            }
        }
        most
    }

    /// All n rows found, by rising serial. O(n + k log k) if k rows were put aside; O(n log n) if the order is
    /// `Mixed`, or if no memory is found to merge the k rows with the others. Refused with `OutOfMemory` if no memory
    /// is found to put all rows into one list.
    pub(crate) fn into_rows(self) -> Result<Vec<Row>, Refusal>
        requires order { KeepsOrder self }
        ensures rows { IfOk result (λ rows. IsPermutation (all_of self) rows.items) }
        ensures rising { IfOk result (λ rows. IsNonDecreasingBy serial_of rows.items) }
        ensures err { IfErr result (λ e. e ≡ Refusal.OutOfMemory) }
    {
        let Found {
            mut rows,
            mut aside,
            order,
            ..
        } = self;
        if let Order::Rising = order {
            return Ok(rows);
        }
        if let Order::Nearly = order {
            aside.sort_unstable_by_key(|row| row.serial.0);
        }
        rows.append(&mut aside)?;
        sort(&mut rows, order);
        Ok(rows)
    }
}

/// Sorts n rows by rising serial. If the order is `Nearly`, the rows are two runs, each of which rises: these are
/// merged, in O(n). That reserves memory for n rows, and uses it for those of the shorter run. If that memory isn't
/// found, or the order is `Mixed`, the rows are sorted in place, in O(n log n).
fn sort(rows: &mut Vec<Row>, order: Order)
    ensures rows { IsPermutation rows.old.items rows.new.items }
    ensures rising { IsNonDecreasingBy serial_of rows.new.items }
{
    if let Order::Nearly = order {
        if let Ok(()) = rows.sort_by_key(|row| row.serial.0) {
            return;
        }
    }
    rows.sort_unstable_by_key(|row| row.serial.0);
}
