//! The complete merge.
ghost use Rattle.std.specs.Prelude.{◌≡◌, ◌<◌, ◌≤◌, false, [], length, Ok, IsOk, IsTrue, IsFalse, IfOk, IfErr};
ghost use Rattle.crack_row.specs.Ranges.{Range};
ghost use Rattle.crack_row.specs.declared.command.Policy.TheVariants.{Complete};
ghost use Rattle.crack_state.specs.Steps.{SameButRoom};
ghost use Rattle.crack_state.specs.Merge.{IsCracked, Merges, Tallies, counted_between, is_touched};
ghost use Rattle.crack_merge.specs.Merges.{BuriesFew, Stops};
ghost use Rattle.crack_merge.specs.Loops.{PutsIn, TakesOut};

use crate::carries::{carry, carry_at_once, end, end_and_lift};
use crate::pulls::pull_range;
use crate::report::counted_between;
use crack_row::{KeyRange, Refusal};
use crack_store::{MergeReport, Store};

/// Merges all pending rows if at least one of them has its key in the range, otherwise none. The range must be
/// cracked, and not empty. Returns the store, and the counts of this merge. O(pending rows); if it merges them, also
/// O(pieces) for each, and one search for the place of each doomed row. Refused with `OutOfMemory` if no memory is
/// found for a pending insertion. The store is then given back: rows inserted until then stay in the column, doomed
/// rows that their carries met are buried, and no other row is deleted.
pub fn merge_complete(
    store: Store,
    range: KeyRange,
) -> Result<(Store, MergeReport), (Store, Refusal)>
    requires some { range.low < range.high }
    requires low { store.keys.low ≤ range.low }
    requires high { range.high ≤ store.keys.high }
    requires cracked { IsCracked store range }
    ensures merges { IfOk result (λ r. Merges Complete store r.0 range) }
    ensures tallies { IfOk result (λ r. Tallies Complete store r.0) }
    ensures report { IfOk result (λ r. r.1 ≡ counted_between store.tally r.0.tally) }
    ensures untouched { is_touched store range ≡ false → result ≡ Ok (store, counted_between store.tally store.tally) }
    ensures spare { store.pending_in ≡ [] → IsOk result }
    ensures stops { IfErr result (λ e. Stops Complete store e.0 range) }
    ensures few { IfErr result (λ e. BuriesFew store e.0) }
    ensures still_cracked { IfErr result (λ e. IsCracked e.0 range) }
    ensures err { IfErr result (λ e. e.1 ≡ Refusal.OutOfMemory) }
{
    let before = store.tally();
    store.recall_invariant();
    if !is_touched(&store, range) {
        return Ok((store, counted_between(before, before)));
    }
    match merge_insertions(store) {
        Ok(filled) => {
            let merged = merge_deletions(filled);
            merged.recall_invariant();
            let after = merged.tally();
            Ok((merged, counted_between(before, after)))
        }
        Err(stopped) => Err(stopped),
    }
}

/// Whether a pending row has its key in the range. O(pending rows).
fn is_touched(store: &Store, range: KeyRange) -> bool
    ensures { result ≡ is_touched store.now range }
{
    store.first_in(range).is_some() || store.first_out(range).is_some()
}

/// Inserts all pending insertions, in order of arrival, by carries. Refused with `OutOfMemory` if no memory is found
/// for one of them; rows inserted until then stay where they are.
fn merge_insertions(mut store: Store) -> Result<Store, (Store, Refusal)>
    ensures ok { IfOk result (λ t. PutsIn Complete store t) }
    ensures all { IfOk result (λ t. t.pending_in ≡ []) }
    ensures spare { store.pending_in ≡ [] → IsOk result }
    ensures stops { IfErr result (λ e. (range : Range) → Stops Complete store e.0 range) }
    ensures few { IfErr result (λ e. BuriesFew store e.0) }
    ensures err { IfErr result (λ e. e.1 ≡ Refusal.OutOfMemory) }
{
    store.recall_invariant();
    let count = store.pending_in();
    if merge_insertions_at_once(&mut store) {
        return Ok(store);
    }
    if let Err(refusal) = store.make_room() {
        store.recall_invariant();
        return Err((store, refusal));
    }
    let mut carrying = store.lift(0);
    'insertions: for taken in 1..count {
        let rule = carry(&mut carrying, None);
        carrying.recall_invariant();
        if let Err(refusal) = carrying.make_room() {
            let stopped = end(carrying, rule);
            stopped.recall_invariant();
            return Err((stopped, refusal));
        }
        end_and_lift(&mut carrying, rule, 0);
    }
    let rule = carry(&mut carrying, None);
    Ok(end(carrying, rule))
}

/// Inserts all pending insertions at once, if `carry_at_once` does so. Returns true if none is left, as when there
/// was none; if it returns false, none was inserted. O(pending insertions), and O(pieces) for each.
fn merge_insertions_at_once(store: &mut Store) -> bool
    ensures puts { IsTrue result → PutsIn Complete store.old store.new }
    ensures all { IsTrue result → store.new.pending_in ≡ [] }
    ensures some { IsFalse result → 0 < length store.old.pending_in }
    ensures same { IsFalse result → SameButRoom store.old store.new }
{
    store.recall_invariant();
    if store.pending_in() == 0 {
        return true;
    }
    let keys = store.keys();
    carry_at_once(store, keys, 0)
}

/// Deletes all rows with pending deletions, in order of arrival, each by a pull that begins with the column's last
/// row.
fn merge_deletions(store: Store) -> Store
    ensures takes { TakesOut Complete store result }
    ensures all { result.pending_out ≡ [] }
{
    store.recall_invariant();
    let keys = store.keys();
    let seen = store.pending_in();
    let emptied = pull_range(store, keys, KeyRange::default(), seen);
    emptied.recall_invariant();
    emptied
}
