//! Reads of a range of a store that is settled for it: cracked at its ends, with no row in it pending.
ghost use Rattle.std.specs.Prelude.{◌≡◌, ◌<◌, ◌<ℤ◌, neg_ℤ, pos, ◌^◌, ◌↔◌, List, count_by, IfOk, IfErr, IfSome, IsTrue};
ghost use Rattle.std.specs.List.Sorted.{IsPermutation, IsNonDecreasingBy};
ghost use Rattle.crack_row.specs.Ranges.{Range, in_range};
ghost use Rattle.crack_row.specs.Rows.{sum_of};
ghost use Rattle.crack_plain.specs.Plain.{PlainState, IsNumbered, rows_in};
ghost use Rattle.crack_state.specs.State.{live_rows};
ghost use Rattle.crack_state.specs.Merge.{IsSettled};
ghost use Rattle.crack_state.specs.Stretch.{stretch_rows, serial_of};
ghost use Rattle.crack_part.specs.Inside.{IsCommon};
ghost use Rattle.crack_part.specs.KnownSums.{KnowsSums};
ghost use Rattle.crack_part.specs.Parts.{IsFaithful};

use crate::known::KnownSums;
use crack_row::{KeyRange, Refusal, Row};
use crack_store::Store;
use std::alloc::Global;

/// 2^96. Every sum of rows is nearer to 0.
const GREATEST_SUM: i128 = 79228162514264337593543950336;

/// How many cells are read in order in about the time in which one is read at random.
const CELLS_AHEAD: usize = 8;

/// How many rows have their key in a range: the difference of two places of the column. `common` is the intersection
/// of the range with the partition's keys, for which the store must be settled; `None` if it is empty, and the count
/// is then 0. O(log bounds).
#[inline(never)]
pub(crate) fn count(store: &Store, common: Option<KeyRange>) -> u64
    requires settled { IfSome common (λ r. IsSettled store.now r) }
    ensures { (range : Range) → IsCommon range store.now.keys common → (plain : List Row) →
        IsPermutation (live_rows store.now) plain → result ≡ count_by (in_range range) plain }
{
    store.recall_invariant();
    match common {
        Some(range) => store.count_between(range),
        None => 0,
    }
}

/// The sum of the payloads of the rows whose key is in a range. `common` is the intersection of the range with the
/// partition's keys, for which the store must be settled; `None` if it is empty, and the sum is then 0. Adds the known
/// sums of pieces, and reads the column for the other pieces. `next` is the serial of the next inserted row. O(log
/// pieces) once the sums of the pieces in the range are known.
#[inline(never)]
pub(crate) fn sum(store: &Store, known: &mut KnownSums, next: u64, common: Option<KeyRange>) -> i128
    requires filled { IfSome common (λ r. r.low < r.high) }
    requires settled { IfSome common (λ r. IsSettled store.now r) }
    ensures is { (range : Range) → IsCommon range store.now.keys common → (plain : PlainState) → IsNumbered plain →
        IsFaithful store.now next plain → KnowsSums known.old plain → (result ≡ sum_of (rows_in range plain.rows)) ×
        KnowsSums known.new plain }
    ensures small { (neg_ℤ (pos (2 ^ 96)) <ℤ result) × (result <ℤ pos (2 ^ 96)) }
{
    store.recall_invariant();
    let Some(range) = common else {
        return 0;
    };
    match known.sum(store, next, range) {
        Some(sum) if is_small(sum) => sum,
        _ => store.sum_between(range),
    }
}

/// Whether the rows of a partition can have this sum: it is above -2^96 and below 2^96.
fn is_small(sum: i128) -> bool
    ensures { IsTrue result ↔ (neg_ℤ (pos (2 ^ 96)) <ℤ sum) × (sum <ℤ pos (2 ^ 96)) }
{
    -GREATEST_SUM < sum && sum < GREATEST_SUM
}

/// The rows whose key is in a range, by rising serial. `common` is the intersection of the range with the partition's
/// keys, for which the store must be settled; `None` if it is empty, and the list is then empty. Refused with
/// `OutOfMemory` if no memory is found.
#[inline(never)]
pub(crate) fn select(
    store: &Store,
    alloc: Global,
    common: Option<KeyRange>,
) -> Result<Vec<Row>, Refusal>
    requires settled { IfSome common (λ r. IsSettled store.now r) }
    ensures rows { IfOk result (λ rows. (range : Range) → IsCommon range store.now.keys common → (plain : PlainState) →
        IsNumbered plain → IsPermutation (live_rows store.now) plain.rows → rows.items ≡ rows_in range plain.rows) }
    ensures err { IfErr result (λ e. e ≡ Refusal.OutOfMemory) }
{
    store.recall_invariant();
    match common {
        Some(range) => rows_of(store, range),
        None => Ok(Vec::new(alloc)),
    }
}

/// The rows whose key is in a range, for which the store is settled, by rising serial. If the range has at least one
/// row for every `CELLS_AHEAD` cells, they are found by a pass over all cells, otherwise between two places of the
/// column. Refused with `OutOfMemory` if no memory is found.
fn rows_of(store: &Store, range: KeyRange) -> Result<Vec<Row>, Refusal>
    requires settled { IsSettled store.now range }
    ensures rows { IfOk result (λ rows. IsPermutation (stretch_rows store.now range) rows.items) }
    ensures rising { IfOk result (λ rows. IsNonDecreasingBy serial_of rows.items) }
    ensures err { IfErr result (λ e. e ≡ Refusal.OutOfMemory) }
{
    let rows = store.count_between(range) as usize;
    if rows >= store.cells() / CELLS_AHEAD {
        store.live_rows_in(range, rows)
    } else {
        store.rows_between(range)
    }
}
