//! Settling the store before a range is read, by the policy.
ghost use Rattle.std.specs.Prelude.{◌≡◌, ◌+◌, ◌*◌, ◌<◌, ◌≤◌, nat_le, length, true, IfOk, IfErr, OnErr, OnOk};
ghost use Rattle.crack_plain.specs.Plain.{PlainState};
ghost use Rattle.crack_state.specs.Steps.{SameButRoom};
ghost use Rattle.crack_state.specs.Merge.{IsCracked, Merges, Tallies};
ghost use Rattle.crack_merge.specs.Merges.{Stops};
ghost use Rattle.crack_part.specs.Parts.{is_merged_first, read_by, CracksAndMerges};
ghost use Rattle.crack_part.specs.Forgetting.{SettlesBy, StopsReadBy};
ghost use Rattle.crack_part.specs.Inside.{Readies};
ghost use Rattle.crack_part.specs.KnownSums.{KnowsSums};
ghost use Rattle.crack_part.specs.Parts.{CracksBy, LeavesNear, StopsAt};

use crate::coarsening::coarsen;
use crate::known::KnownSums;
use crate::passes::Passes;
use crack_merge::{merge_complete, merge_gradual, merge_ripple};
use crack_row::{KeyRange, Policy, Refusal};
use crack_store::{MergeReport, Store};
use std::alloc::Global;
use std::mem;

/// Settles the store for a range: cracks the column at its ends, and merges until no row in it is pending. `keys` are
/// the partition's keys, and the range lies within them. Under `Policy::Auto`, four steps are made. First, if many
/// insertions are pending (`has_many_pending`), all pending rows are merged, as a count of all keys does under
/// `Policy::Complete`. Then bounds may be forgotten (`coarsen`). Then the column is cracked, perhaps also at further
/// bounds near the range's ends. Then rows are merged as under `Policy::Ripple`. Refused with `OutOfMemory` if no
/// memory is found; what was merged, forgotten and cracked before stays so.
#[inline(never)]
pub(crate) fn settle(
    store: &mut Store,
    passes: &mut Passes,
    known: &mut KnownSums,
    alloc: Global,
    keys: KeyRange,
    range: KeyRange,
    policy: Policy,
) -> Result<(), Refusal>
    requires ends { store.old.keys ≡ keys }
    requires filled { range.low < range.high }
    requires low { keys.low ≤ range.low }
    requires high { range.high ≤ keys.high }
    ensures settled { OnOk result (SettlesBy policy passes.old store.old passes.new store.new range) }
    ensures stopped { OnErr result (StopsReadBy policy passes.old store.old passes.new store.new range) }
    ensures knows { (plain : PlainState) → KnowsSums known.old plain → KnowsSums known.new plain }
    ensures err { IfErr result (λ e. e ≡ Refusal.OutOfMemory) }
{
    make_ready(store, alloc, keys, policy)?;
    coarsen(store, passes, known, policy);
    crack_and_merge(store, alloc, keys, range, policy)
}

/// Merges all pending rows if `is_merged_first` says so; otherwise does nothing. `keys` are the partition's keys.
/// Refused with `OutOfMemory` if no memory is found; the merge may then be made in part.
#[inline(always)]
fn make_ready(
    store: &mut Store,
    alloc: Global,
    keys: KeyRange,
    policy: Policy,
) -> Result<(), Refusal>
    requires ends { store.old.keys ≡ keys }
    requires filled { keys.low < keys.high }
    ensures ready { OnOk result (Readies (is_merged_first policy store.old) store.old store.new) }
    ensures stopped { OnErr result ((is_merged_first policy store.old ≡ true) × StopsAt Policy.Complete store.old
        store.new store.old.keys) }
    ensures err { IfErr result (λ e. e ≡ Refusal.OutOfMemory) }
{
    if is_merged_first(policy, store) {
        return crack_and_merge(store, alloc, keys, keys, Policy::Complete);
    }
    Ok(())
}

/// Whether all pending rows are merged before a range is read: under `Policy::Auto`, if many insertions are pending
/// (`has_many_pending`); under the other policies, never. O(1).
#[inline(always)]
fn is_merged_first(policy: Policy, store: &Store) -> bool
    ensures { result ≡ is_merged_first policy store.now }
{
    match policy {
        Policy::Auto => has_many_pending(store),
        _ => false,
    }
}

/// Cracks the store at the ends of a range, and merges by the policy until no row in the range is pending. `keys` are
/// the partition's keys. Refused with `OutOfMemory` if no memory is found; the store may then be cracked, and merged
/// in part.
#[inline(never)]
pub(crate) fn crack_and_merge(
    store: &mut Store,
    alloc: Global,
    keys: KeyRange,
    range: KeyRange,
    policy: Policy,
) -> Result<(), Refusal>
    requires filled { range.low < range.high }
    requires low { store.old.keys.low ≤ range.low }
    requires high { range.high ≤ store.old.keys.high }
    ensures settled { OnOk result (CracksAndMerges policy store.old store.new range) }
    ensures stopped { OnErr result (StopsAt policy store.old store.new range) }
    ensures err { IfErr result (λ e. e ≡ Refusal.OutOfMemory) }
{
    if let Err(refusal) = crack(store, range, policy) {
        return Err(refusal);
    }
    store.recall_invariant();
    if store.pending_in() == 0 && store.pending_out() == 0 {
        return Ok(());
    }
    merge_cracked(store, alloc, keys, range, policy)
}

/// Cracks the store at the ends of a range. Under `Policy::Auto`, it may first crack near each end at a further bound,
/// as `Store::crack_further` does. Refused with `OutOfMemory` if no memory is found; then nothing has changed.
#[inline(always)]
fn crack(store: &mut Store, range: KeyRange, policy: Policy) -> Result<(), Refusal>
    ensures cracked { OnOk result (CracksBy policy store.old store.new range) }
    ensures at_ends { OnOk result (IsCracked store.new range) }
    ensures same { OnErr result (SameButRoom store.old store.new) }
    ensures err { IfErr result (λ e. e ≡ Refusal.OutOfMemory) }
{
    match policy {
        Policy::Auto => store.crack_further(range),
        Policy::Complete => store.crack(range),
        Policy::Gradual => store.crack(range),
        Policy::Ripple => store.crack(range),
    }
}

/// Merges by the policy until no row in the range is pending. The store must be cracked at the range's ends. `keys`
/// are the partition's keys. Refused with `OutOfMemory` if no memory is found; the merge may then be made in part.
/// Never inlined: it takes stack for two stores by value, which a range without pending rows doesn't need.
#[inline(never)]
fn merge_cracked(
    store: &mut Store,
    alloc: Global,
    keys: KeyRange,
    range: KeyRange,
    policy: Policy,
) -> Result<(), Refusal>
    requires filled { range.low < range.high }
    requires low { store.old.keys.low ≤ range.low }
    requires high { range.high ≤ store.old.keys.high }
    requires cracked { IsCracked store.old range }
    ensures merged { OnOk result (Merges (read_by policy) store.old store.new range × LeavesNear (read_by policy)
        store.old store.new range × Tallies (read_by policy) store.old store.new) }
    ensures stopped { OnErr result (Stops (read_by policy) store.old store.new range) }
    ensures err { IfErr result (λ e. e ≡ Refusal.OutOfMemory) }
{
    let cracked = mem::replace(store, Store::new(alloc, keys));
    match merge(cracked, range, policy) {
        Ok((merged, _)) => {
            *store = merged;
            Ok(())
        }
        Err((left, refusal)) => {
            *store = left;
            Err(refusal)
        }
    }
}

/// Merges by the policy until no row in the range is pending, and returns the store and what the merge counted. The
/// store must be cracked at the range's ends. `Policy::Auto` merges as `Policy::Ripple` here. Refused with
/// `OutOfMemory` if no memory is found, with the store, merged in part.
fn merge(
    store: Store,
    range: KeyRange,
    policy: Policy,
) -> Result<(Store, MergeReport), (Store, Refusal)>
    requires filled { range.low < range.high }
    requires low { store.keys.low ≤ range.low }
    requires high { range.high ≤ store.keys.high }
    requires cracked { IsCracked store range }
    ensures merged { IfOk result (λ r. Merges (read_by policy) store r.0 range) }
    ensures near { IfOk result (λ r. LeavesNear (read_by policy) store r.0 range) }
    ensures tallied { IfOk result (λ r. Tallies (read_by policy) store r.0) }
    ensures stopped { IfErr result (λ e. Stops (read_by policy) store e.0 range) }
    ensures err { IfErr result (λ e. e.1 ≡ Refusal.OutOfMemory) }
{
    match policy {
        Policy::Complete => merge_complete(store, range),
        Policy::Gradual => merge_gradual(store, range),
        Policy::Ripple => merge_ripple(store, range),
        Policy::Auto => merge_ripple(store, range),
    }
}

/// Whether so many insertions are pending that merging all of them is expected to cost less than passing over them
/// repeatedly: 64 times their number is at least the column's rows times its pieces. O(1).
fn has_many_pending(store: &Store) -> bool
    ensures { result ≡ nat_le (length store.now.column * (length store.now.marks + 1))
        (64 * length store.now.pending_in) }
{
    let pieces = store.bounds() as u128 + 1;
    (store.column_len() as u128).saturating_mul(pieces) <= store.pending_in() as u128 * 64
}
