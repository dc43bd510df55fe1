//! Look-ups in a list of rows, and changes to it, row by row.
ghost use Rattle.std.specs.Prelude.{◌≡◌, ◌≤◌, ◌*◌, pos, neg_ℤ, ◌≤ℤ◌, length, map, filter, count_by, IfOk, IfErr};
ghost use Rattle.crack_row.specs.Ranges.{in_range};
ghost use Rattle.crack_row.specs.Rows.{is_other, replaced, sum_of, farthest_amount};
ghost use Rattle.crack_plain.specs.Plain.{row_in, rows_in};
ghost use Rattle.crack_plain.specs.Inside.{amount_in};

use crack_row::{KeyRange, Refusal, Row, Serial};
use std::alloc::Global;

/// The row with this serial, or `None` if there is none: O(rows).
pub(crate) fn row_in(rows: &[Row], serial: Serial) -> Option<Row>
    ensures { result ≡ row_in rows.now serial }
{
    'rows: for place in 0..rows.len() {
        if rows[place].serial == serial {
            return Some(rows[place]);
        }
    }
    None
}

/// Removes the row with this serial, if there is one: O(rows).
pub(crate) fn take_out(rows: &mut Vec<Row>, serial: Serial)
    ensures { rows.new.items ≡ filter (is_other serial.0) rows.old.items }
{
    rows.retain(|row| row.serial != serial);
}

/// Replaces the row that has the serial of `new`, if there is one, by `new`: O(rows).
pub(crate) fn replace(rows: &mut [Row], new: Row)
    ensures { rows.new ≡ map (replaced new) rows.old }
{
    'rows: for place in 0..rows.len() {
        rows[place] = replaced(new, rows[place]);
    }
}

/// `new` if both rows have the same serial, otherwise `row`.
fn replaced(new: Row, row: Row) -> Row
    ensures { result ≡ replaced new row }
{
    if row.serial == new.serial { new } else { row }
}

/// The number of rows whose key is in the range: O(rows).
pub(crate) fn count_in(rows: &[Row], range: KeyRange) -> u64
    ensures is { result ≡ count_by (in_range range) rows.now }
    ensures small { result ≤ length rows.now }
{
    rows.iter().filter(|row| range.contains(row.key)).count() as u64
}

/// The sum of the payloads of the rows whose key is in the range: O(rows).
pub(crate) fn sum_in(rows: &[Row], range: KeyRange) -> i128
    ensures is { result ≡ sum_of (rows_in range rows.now) }
    ensures least { neg_ℤ (pos (length rows.now * farthest_amount)) ≤ℤ result }
    ensures most { result ≤ℤ pos (length rows.now * farthest_amount) }
{
    let mut sum = 0;
    'rows: for place in 0..rows.len() {
        sum += amount_in(range, rows[place]);
    }
    sum
}

/// What a row adds to the sum of a range: its payload if its key is in the range, otherwise 0.
fn amount_in(range: KeyRange, row: Row) -> i128
    ensures value { result ≡ amount_in range row }
    ensures least { neg_ℤ (pos farthest_amount) ≤ℤ result }
    ensures most { result ≤ℤ pos farthest_amount }
{
    if range.contains(row.key) {
        row.payload.amount()
    } else {
        0
    }
}

/// The rows whose key is in the range, in the same order: O(rows). Refused with `OutOfMemory` if no memory is found.
pub(crate) fn rows_in(alloc: Global, rows: &[Row], range: KeyRange) -> Result<Vec<Row>, Refusal>
    ensures ok { IfOk result (λ listed. listed.items ≡ rows_in range rows.now) }
    ensures small { IfOk result (λ listed. length listed.items ≤ length rows.now) }
    ensures err { IfErr result (λ e. e ≡ Refusal.OutOfMemory) }
{
    rows.iter()
        .copied()
        .filter(|row| range.contains(row.key))
        .collect(alloc)
        .map_err(|_| Refusal::OutOfMemory)
}
