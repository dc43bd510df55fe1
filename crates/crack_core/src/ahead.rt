//! Reading ahead: a list of deletes or updates reads the map entries and the cells of its next rows before it changes
//! them.
ghost use Rattle.std.specs.Prelude.{◌≡◌, ◌≤◌, length, option_and_then, slice_get};
ghost use Rattle.crack_state.specs.Points.{row_by};
ghost use Rattle.crack_part.specs.Parts.{Part};

use crate::Core;
use crack_row::{Row, RowNo, Serial};

/// How many rows are looked up at once: as many reads of memory as a processor makes at a time.
const ROWS_AHEAD: usize = 16;

impl Core {
    /// Reads ahead in a list of rows, whose row numbers are `parts` and `serials`: if `at` is a multiple of
    /// `ROWS_AHEAD`, looks up the rows from index `at` on, `ROWS_AHEAD` at most. These reads don't wait for one
    /// another, whereas the reads of a delete or an update wait for the one before it. Returns a number made of what
    /// was read, for `keep_reads`; 0 if nothing was read.
    #[inline(always)]
    pub(crate) fn look_ahead(&self, parts: &[u32], serials: &[u64], at: usize) -> u64
        requires within { at ≤ length parts.now }
        requires serials { length serials.now ≡ length parts.now }
    {
        if at % ROWS_AHEAD != 0 {
            return 0;
        }
        self.read_rows(parts, serials, at)
    }

    /// Looks up the rows with these row numbers from index `at` on, `ROWS_AHEAD` at most. Returns the bitwise
    /// exclusive or of their keys, where a row that doesn't exist counts as 0.
    #[inline(never)]
    fn read_rows(&self, parts: &[u32], serials: &[u64], at: usize) -> u64
        requires within { at ≤ length parts.now }
        requires serials { length serials.now ≡ length parts.now }
    {
        let end = at + ROWS_AHEAD.min(parts.len() - at);
        let mut seen = 0;
        'rows: for i in at..end {
            let row = RowNo {
                part: parts[i],
                serial: Serial(serials[i]),
            };
            seen ^= match self.row_of(row) {
                Some(row) => row.key.number(),
                None => 0,
            };
        }
        seen
    }

    /// The row with this number; `None` if there is none. Cracks and merges nothing, and isn't counted as a command.
    /// O(1).
    #[inline(always)]
    fn row_of(&self, row: RowNo) -> Option<Row>
        ensures { result ≡ option_and_then (λ (part : Part). row_by part.store row.serial.0)
            (slice_get self.now.parts row.part) }
    {
        match self.partitions.get(row.part as usize) {
            Some(partition) => partition.row_of(row.serial),
            None => None,
        }
    }

    /// Stores a number made of what was read ahead, so that the compiler doesn't leave the reads out. Contracts see no
    /// change.
    pub(crate) fn keep_reads(&mut self, seen: u64)
        ensures { self.new ≡ self.old }
    {
        self.reads = seen;
    }
}
