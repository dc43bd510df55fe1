//! The gradual merge.
ghost use Rattle.std.specs.Prelude.{◌≡◌, ◌<◌, ◌≤◌, false, Ok, IsOk, IfOk, IfErr};
ghost use Rattle.std.specs.List.{All};
ghost use Rattle.crack_row.specs.declared.command.Policy.TheVariants.{Gradual};
ghost use Rattle.crack_state.specs.Merge.{IsCracked, ReadsOutside, Merges, Tallies, counted_between, is_touched};
ghost use Rattle.crack_merge.specs.Merges.{BuriesFew, Stops};

use crate::carries::carry_range;
use crate::pulls::pull_range;
use crate::report::counted_between;
use crack_row::{KeyRange, Refusal};
use crack_store::{MergeReport, Store};

/// Merges the pending rows in the range, which must be cracked and not empty. A doomed row outside the range is also
/// deleted if a carry meets it; other pending rows outside the range stay pending. Returns the store, and the counts
/// of this merge. O(pending rows) to find those in the range, O(pieces) for each merged row, and one search for the
/// place of each doomed row. Refused with `OutOfMemory` if no memory is found for a pending insertion in the range.
/// The store is then given back: rows inserted until then stay in the column, doomed rows that their carries met are
/// buried, and no other row is deleted.
pub fn merge_gradual(
    store: Store,
    range: KeyRange,
) -> Result<(Store, MergeReport), (Store, Refusal)>
    requires some { range.low < range.high }
    requires low { store.keys.low ≤ range.low }
    requires high { range.high ≤ store.keys.high }
    requires cracked { IsCracked store range }
    ensures merges { IfOk result (λ r. Merges Gradual store r.0 range) }
    ensures tallies { IfOk result (λ r. Tallies Gradual store r.0) }
    ensures report { IfOk result (λ r. r.1 ≡ counted_between store.tally r.0.tally) }
    ensures untouched { is_touched store range ≡ false → result ≡ Ok (store, counted_between store.tally store.tally) }
    ensures spare { All (ReadsOutside store.cells range) store.pending_in → IsOk result }
    ensures stops { IfErr result (λ e. Stops Gradual store e.0 range) }
    ensures few { IfErr result (λ e. BuriesFew store e.0) }
    ensures still_cracked { IfErr result (λ e. IsCracked e.0 range) }
    ensures err { IfErr result (λ e. e.1 ≡ Refusal.OutOfMemory) }
{
    let before = store.tally();
    store.recall_invariant();
    match carry_range(store, range, None) {
        Ok(filled) => {
            let seen = filled.pending_in();
            let merged = pull_range(filled, range, KeyRange::default(), seen);
            merged.recall_invariant();
            let after = merged.tally();
            Ok((merged, counted_between(before, after)))
        }
        Err(stopped) => Err(stopped),
    }
}
