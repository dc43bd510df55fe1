//! The changes that commands make to a store, and their replies.
ghost use Rattle.std.specs.Prelude.{◌≡◌, ◌+◌, ◌<◌, ◌^◌, List, [], map, filter, IfOk, IfErr, OnErr, OnOk};
ghost use Rattle.std.specs.List.Sorted.{IsPermutation};
ghost use Rattle.crack_row.specs.Ranges.{IsIn};
ghost use Rattle.crack_row.specs.Replies.{IsFlat};
ghost use Rattle.crack_row.specs.Rows.{is_other, replaced};
ghost use Rattle.crack_plain.specs.Plain.{PlainState, IsNumbered, row_in, after, IsSmall};
ghost use Rattle.crack_plain.specs.Inside.{gone, rewritten};
ghost use Rattle.crack_state.specs.State.{IsIntact, live_rows};
ghost use Rattle.crack_state.specs.Steps.{SameButRoom, row_inserted, IsInsertable};
ghost use Rattle.crack_state.specs.Points.{pending_by, MayFree, IsRenewable, Removes, Rewrites};
ghost use Rattle.crack_part.specs.KnownSums.{KnowsSums};
ghost use Rattle.crack_part.specs.Parts.{IsFaithful};
ghost use Rattle.crack_part.specs.Inside.{inserted_row};

use crate::known::KnownSums;
use crate::replies::{gone, rewritten};
use crack_row::{Command, Key, Payload, Refusal, Reply, Row, Serial};
use crack_store::Store;

/// Inserts a row with the serial `next` and this key and payload, raises `next` by one, and returns the reply. O(1),
/// amortised. Refused with `OutOfMemory` if no memory is found; then nothing has changed.
#[inline(always)]
pub(crate) fn insert(
    store: &mut Store,
    next: &mut u64,
    key: Key,
    payload: Payload,
) -> Result<Reply, Refusal>
    requires intact { IsIntact store.old [] }
    requires insertable { IsInsertable (inserted_row next.old key payload) store.old }
    requires small { next.old + 1 < 2 ^ 64 }
    ensures reply { IfOk result (λ reply. reply ≡ Reply.Placed (record { 0 = next.old })) }
    ensures placed { OnOk result (SameButRoom (row_inserted (inserted_row next.old key payload) store.old) store.new) }
    ensures faithful { OnOk result ((plain : PlainState) → IsFaithful store.old next.old plain →
        IsFaithful store.new next.new (after plain (Command.Insert key payload))) }
    ensures intact { OnOk result (IsIntact store.new []) }
    ensures same { OnErr result (SameButRoom store.old store.new × (next.new ≡ next.old)) }
    ensures err { IfErr result (λ e. e ≡ Refusal.OutOfMemory) }
{
    let row = Row {
        serial: Serial(*next),
        key,
        payload,
    };
    store.insert(row)?;
    *next += 1;
    store.recall_invariant();
    Ok(Reply::Placed(row.serial))
}

/// Deletes the row with this serial, adjusts the known sums, and returns the reply; if there is no such row, nothing
/// changes, and the reply is `NoRow`. `next` is the serial of the next inserted row. O(log pieces), amortised. Refused
/// with `OutOfMemory` if no memory is found; then nothing has changed.
#[inline(never)]
pub(crate) fn remove(
    store: &mut Store,
    known: &mut KnownSums,
    next: u64,
    serial: Serial,
) -> Result<Reply, Refusal>
    requires few { MayFree store.old }
    ensures reply { IfOk result (λ reply. (plain : List Row) → IsPermutation (live_rows store.old) plain → reply ≡
        gone (row_in plain serial)) }
    ensures flat { IfOk result (λ reply. IsFlat reply) }
    ensures small { IfOk result (λ reply. IsSmall reply) }
    ensures removed { OnOk result (Removes (pending_by store.old serial.0) serial.0 store.old store.new) }
    ensures live { OnOk result ((plain : List Row) → IsPermutation (live_rows store.old) plain →
        IsPermutation (live_rows store.new) (filter (is_other serial.0) plain)) }
    ensures knows { OnOk result ((plain : PlainState) → IsNumbered plain → IsPermutation (live_rows store.old)
        plain.rows → KnowsSums known.old plain → KnowsSums known.new (after plain (Command.Delete serial))) }
    ensures intact { OnOk result (IsIntact store.new []) }
    ensures same { OnErr result (SameButRoom store.old store.new × (known.new ≡ known.old)) }
    ensures err { IfErr result (λ e. e ≡ Refusal.OutOfMemory) }
{
    store.recall_invariant();
    let row = store.remove(serial)?;
    store.recall_invariant();
    known.remove(serial, row, next);
    Ok(gone(row))
}

/// Replaces the row that has the serial of `row` with `row`, adjusts the known sums, and returns the reply; if there
/// is no such row, nothing changes, and the reply is `NoRow`. `next` is the serial of the next inserted row. O(log
/// pieces), amortised. Refused with `OutOfMemory` if no memory is found; then nothing has changed.
#[inline(never)]
pub(crate) fn rewrite(
    store: &mut Store,
    known: &mut KnownSums,
    next: u64,
    row: Row,
) -> Result<Reply, Refusal>
    requires within { IsIn store.old.keys row.key.0 }
    requires renewable { IsRenewable store.old }
    ensures reply { IfOk result (λ reply. (plain : List Row) → IsPermutation (live_rows store.old) plain → reply ≡
        rewritten (row_in plain row.serial)) }
    ensures flat { IfOk result (λ reply. IsFlat reply) }
    ensures small { IfOk result (λ reply. IsSmall reply) }
    ensures replaced { OnOk result (Rewrites (pending_by store.old row.serial.0) row store.old store.new) }
    ensures live { OnOk result ((plain : List Row) → IsPermutation (live_rows store.old) plain →
        IsPermutation (live_rows store.new) (map (replaced row) plain)) }
    ensures knows { OnOk result ((plain : PlainState) → IsNumbered plain → IsPermutation (live_rows store.old)
        plain.rows → KnowsSums known.old plain → KnowsSums known.new (after plain
        (Command.Update row.serial row.key row.payload))) }
    ensures intact { OnOk result (IsIntact store.new []) }
    ensures same { OnErr result (SameButRoom store.old store.new × (known.new ≡ known.old)) }
    ensures err { IfErr result (λ e. e ≡ Refusal.OutOfMemory) }
{
    store.recall_invariant();
    let before = store.replace(row)?;
    store.recall_invariant();
    known.replace(before, row, next);
    Ok(rewritten(before))
}
