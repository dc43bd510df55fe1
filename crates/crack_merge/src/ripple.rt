//! The ripple merge: merges the pending rows in a range. It makes room for insertions just above the range, by
//! evicting rows from there to the pending insertions, and fills the places of deleted rows with pending insertions
//! from there.
ghost use Rattle.std.specs.Prelude.{◌≡◌, ◌<◌, ◌≤◌, false, Ok, IsOk, IfOk, IfErr};
ghost use Rattle.std.specs.List.{All};
ghost use Rattle.crack_row.specs.declared.command.Policy.TheVariants.{Ripple};
ghost use Rattle.crack_state.specs.Merge.{IsCracked, ReadsOutside, Merges, Tallies, counted_between, is_touched};
ghost use Rattle.crack_state.specs.Steps.{SameButRoom};
ghost use Rattle.crack_merge.specs.Merges.{BuriesFew, EvictsFirst, Stops};
ghost use Rattle.crack_merge.specs.Near.{MergesNear, MovesNear, PutsInNear, TakesOutNear, fillers_of};

use crate::carries::carry_range;
use crate::pulls::pull_range;
use crate::report::counted_between;
use crack_row::{KeyRange, Refusal};
use crack_store::{MergeReport, Store};

/// Merges the pending rows in the range, which must be cracked and not empty. Rows just above the range may be
/// evicted: they become pending insertions. A pull may begin with a filler, a pending insertion from the range's high
/// end up to the next bound, which is inserted by it. A doomed row outside the range is also deleted if a carry meets
/// it. Other pending rows outside the range stay pending. An evicted row may become a filler in this call; otherwise
/// it stays pending.
///
/// Returns the store, and the counts of this merge. O(pending rows) to find those in the range. For each insertion,
/// and for each deletion with a filler, O(pieces of the range); for each other deletion O(pieces). One search for the
/// place of each doomed row. Refused with `OutOfMemory` if no memory is found for a pending insertion in the range or
/// for a filler. The store is then given back: rows inserted until then stay in the column, no filler is inserted,
/// doomed rows that carries met are buried, and no other row is deleted.
pub fn merge_ripple(store: Store, range: KeyRange) -> Result<(Store, MergeReport), (Store, Refusal)>
    requires some { range.low < range.high }
    requires low { store.keys.low ≤ range.low }
    requires high { range.high ≤ store.keys.high }
    requires cracked { IsCracked store range }
    ensures merges { IfOk result (λ r. Merges Ripple store r.0 range) }
    ensures near { IfOk result (λ r. MergesNear store r.0 range) }
    ensures tallies { IfOk result (λ r. Tallies Ripple store r.0) }
    ensures moves { IfOk result (λ r. MovesNear store r.0 range) }
    ensures report { IfOk result (λ r. r.1 ≡ counted_between store.tally r.0.tally) }
    ensures untouched { is_touched store range ≡ false → result ≡ Ok (store, counted_between store.tally store.tally) }
    ensures spare { All (ReadsOutside store.cells range) store.pending_in → fillers_of store range ≡ 0 → IsOk result }
    ensures stops { IfErr result (λ e. Stops Ripple store e.0 range) }
    ensures unfilled { IfErr result (λ e. EvictsFirst store range e.0.pending_in) }
    ensures few { IfErr result (λ e. BuriesFew store e.0) }
    ensures still_cracked { IfErr result (λ e. IsCracked e.0 range) }
    ensures err { IfErr result (λ e. e.1 ≡ Refusal.OutOfMemory) }
{
    let before = store.tally();
    store.recall_invariant();
    let filled = match ripple_in(store, range) {
        Ok(filled) => filled,
        Err(stopped) => return Err(stopped),
    };
    match ripple_out(filled, range) {
        Ok(merged) => {
            let after = merged.tally();
            Ok((merged, counted_between(before, after)))
        }
        Err(stopped) => Err(stopped),
    }
}

/// The first part of `merge_ripple`: inserts the pending insertions in the range, in order of arrival, by carries
/// under a ceiling at the range's high end. O(pending rows) to find them, and O(pieces of the range) for each. Refused
/// with `OutOfMemory` if no memory is found for one of them; rows inserted until then stay where they are.
pub fn ripple_in(store: Store, range: KeyRange) -> Result<Store, (Store, Refusal)>
    requires some { range.low < range.high }
    requires low { store.keys.low ≤ range.low }
    requires high { range.high ≤ store.keys.high }
    requires cracked { IsCracked store range }
    ensures near { IfOk result (λ t. PutsInNear store t range) }
    ensures tallies { IfOk result (λ t. Tallies Ripple store t) }
    ensures moves { IfOk result (λ t. MovesNear store t range) }
    ensures buries { IfOk result (λ t. BuriesFew store t) }
    ensures untouched { All (ReadsOutside store.cells range) store.pending_in → IfOk result (λ t. t ≡ store) }
    ensures spare { All (ReadsOutside store.cells range) store.pending_in → IsOk result }
    ensures stops { IfErr result (λ e. Stops Ripple store e.0 range) }
    ensures unfilled { IfErr result (λ e. EvictsFirst store range e.0.pending_in) }
    ensures few { IfErr result (λ e. BuriesFew store e.0) }
    ensures still_cracked { IfErr result (λ e. IsCracked e.0 range) }
    ensures err { IfErr result (λ e. e.1 ≡ Refusal.OutOfMemory) }
{
    store.recall_invariant();
    carry_range(store, range, Some(range.high()))
}

/// The second part of `merge_ripple`: deletes the rows with pending deletions in the range, in order of arrival, each
/// by a pull. The pull begins with a filler, the first pending insertion from the range's high end up to the next
/// bound, or with the column's last row if no filler is left. O(pending rows) to find the rows. For each, one search
/// for its place, and O(pieces of the range) if it has a filler, otherwise O(pieces). Refused with `OutOfMemory` if no
/// memory is found for a filler; then no row has moved.
pub fn ripple_out(mut store: Store, range: KeyRange) -> Result<Store, (Store, Refusal)>
    requires some { range.low < range.high }
    requires low { store.keys.low ≤ range.low }
    requires high { range.high ≤ store.keys.high }
    requires cracked { IsCracked store range }
    ensures near { IfOk result (λ t. TakesOutNear store t range) }
    ensures tallies { IfOk result (λ t. Tallies Ripple store t) }
    ensures moves { IfOk result (λ t. MovesNear store t range) }
    ensures untouched { All (ReadsOutside store.cells range) store.pending_out → IfOk result (λ t. t ≡ store) }
    ensures spare { fillers_of store range ≡ 0 → IsOk result }
    ensures same { IfErr result (λ e. SameButRoom store e.0) }
    ensures err { IfErr result (λ e. e.1 ≡ Refusal.OutOfMemory) }
{
    store.recall_invariant();
    let Some(_) = store.first_out(range) else {
        return Ok(store);
    };
    let fillers = store.keys_beyond(range);
    let Some(first) = store.next_in(fillers, 0) else {
        let behind = store.pending_in();
        return Ok(pull_range(store, range, fillers, behind));
    };
    if let Err(refusal) = store.make_room() {
        return Err((store, refusal));
    }
    // Room for one handle is enough for all fillers: each pull that begins with a filler gives the room back.
    Ok(pull_range(store, range, fillers, first))
}
