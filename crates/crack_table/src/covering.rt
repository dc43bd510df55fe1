//! Checks that receipts cover lists of entries.
ghost use Rattle.std.specs.Prelude.{◌≡◌, ◌≤◌, ◌^◌, ℕ, List, [], ◌∷◌, ◌++◌, map, length, IfOk, IfErr, IfSome, IfNone};
ghost use Rattle.std.specs.Prelude.{MatchOption, OnOk, Some, None, IsTrue, ◌↔◌, slice_get};
ghost use Rattle.std.specs.Bool.{Decides};
ghost use Rattle.std.specs.List.{flat_map};
ghost use Rattle.std.specs.Option.{option_map};
ghost use Rattle.crack_row.specs.declared.command.Entry.{Entry};
ghost use Rattle.crack_witness.specs.declared.receipt.Receipt.{Receipt};
ghost use Rattle.crack_witness.specs.Receipts.{entry_of};
ghost use Rattle.crack_table.specs.Cover.{at, first_stranger, CoveredBelow, Covers, IsFault, IsFirstGap, MayNotCover};
ghost use Rattle.crack_table.specs.Coverage.{named_place, IsCoverage};

use crate::order::first_late;
use crate::states::PlaceStates;
use crack_row::{Entry, Refusal};
use crack_witness::Receipt;
use std::alloc::{AllocError, Global};

/// Checks that the receipts, read as one list, cover the lists of entries, one for each partition. A place is an entry
/// of a list. Exactly one receipt must name each place, and it must hold the entry there. No receipt may name another
/// place. One worker's receipts in one partition must name rising places, in the order of the list.
///
/// Refused with `StrangeReceipt` at the first of these places that there is: the first gap, in the order of the
/// partitions and of their entries; the place that the first receipt without an existing place names; the place of the
/// first receipt whose place isn't above that of an earlier one of its worker in its partition. A gap is a place that
/// isn't named by exactly one receipt with the entry there. Refused with `OutOfMemory` if no memory is found.
///
/// Takes a byte for each place. O(places + receipts), up to a logarithm of the workers and partitions that the
/// receipts name. There are at most 2^32 partitions, because a refusal numbers them in 32 bits.
pub fn cover(alloc: Global, lists: &[&[Entry]], receipts: &[&[Receipt]]) -> Result<(), Refusal>
    requires few { length lists.now ≤ 2 ^ 32 }
    ensures covers { OnOk result (Covers (map (λ l. l.now) lists.now) (flat_map (λ r. r.now) receipts.now)) }
    ensures fault { IfErr result (MayNotCover (map (λ l. l.now) lists.now) (flat_map (λ r. r.now) receipts.now)) }
{
    let mut states = blank_states(alloc, lists)?;
    let stranger = add_lists(lists, &mut states, receipts);
    if let Some((part, position)) = first_gap(lists, &states) {
        return Err(Refusal::StrangeReceipt { part, position });
    }
    if let Some((part, position)) = stranger {
        return Err(Refusal::StrangeReceipt { part, position });
    }
    if let Some((part, position)) = first_late(alloc, receipts)? {
        return Err(Refusal::StrangeReceipt { part, position });
    }
    Ok(())
}

/// States that receipts with a fault don't cover the lists, so `cover` reports a fault only if they don't. Does
/// nothing.
pub fn a_fault_is_no_cover()
    ensures { (lists : List (List Entry)) (receipts : List Receipt) (part position : ℕ) → IsFault lists receipts part
        position → ¬ Covers lists receipts }
{}

/// For each list, the states of its places before the first receipt: no place is named. O(places). Refused if no
/// memory is found.
fn blank_states(alloc: Global, lists: &[&[Entry]]) -> Result<Vec<PlaceStates>, AllocError>
    ensures { IfOk result (λ v. IsCoverage (map (λ l. l.now) lists.now) v.items []) }
{
    let mut states = Vec::with_capacity(alloc, lists.len())?;
    'parts: for list in lists {
        states.push(PlaceStates::new(alloc, list.len())?)?;
    }
    Ok(states)
}

/// Records all receipts in the states of the places that they name. Returns the place that the first receipt
/// without an existing place names, or `None` if there is no such receipt. O(receipts).
fn add_lists(
    lists: &[&[Entry]],
    states: &mut Vec<PlaceStates>,
    receipts: &[&[Receipt]],
) -> Option<(u32, u64)>
    requires { IsCoverage (map (λ l. l.now) lists.now) states.old.items [] }
    ensures coverage { IsCoverage (map (λ l. l.now) lists.now) states.new.items (flat_map (λ r. r.now) receipts.now) }
    ensures stranger { result ≡ option_map named_place (first_stranger (map (λ l. l.now) lists.now)
        (flat_map (λ r. r.now) receipts.now)) }
{
    let mut stranger = None;
    'lists: for list in receipts {
        let found = add_all(lists, states, list);
        stranger = stranger.or(found);
    }
    stranger
}

/// Records the receipts of one list in the states of the places that they name, as `add_lists` does for all lists.
/// Returns the place that the list's first receipt without an existing place names, or `None` if there is no such
/// receipt. O(receipts).
fn add_all(
    lists: &[&[Entry]],
    states: &mut Vec<PlaceStates>,
    receipts: &[Receipt],
) -> Option<(u32, u64)>
    requires { (done : List Receipt) × IsCoverage (map (λ l. l.now) lists.now) states.old.items done }
    ensures coverage { (done : List Receipt) → IsCoverage (map (λ l. l.now) lists.now) states.old.items done →
        IsCoverage (map (λ l. l.now) lists.now) states.new.items (done ++ receipts.now) }
    ensures stranger { result ≡ option_map named_place (first_stranger (map (λ l. l.now) lists.now) receipts.now) }
{
    let mut stranger = None;
    'list: for receipt in receipts {
        let found = add(lists, states, receipt);
        stranger = stranger.or(found);
    }
    stranger
}

/// Records one receipt in the state of the place that it names. If that place doesn't exist, returns it, and
/// records nothing; else returns `None`. O(1).
fn add(lists: &[&[Entry]], states: &mut Vec<PlaceStates>, receipt: &Receipt) -> Option<(u32, u64)>
    requires { (done : List Receipt) × IsCoverage (map (λ l. l.now) lists.now) states.old.items done }
    ensures coverage { (done : List Receipt) → IsCoverage (map (λ l. l.now) lists.now) states.old.items done →
        IsCoverage (map (λ l. l.now) lists.now) states.new.items (done ++ receipt.now ∷ []) }
    ensures stranger { result ≡ option_map named_place (first_stranger (map (λ l. l.now) lists.now)
        (receipt.now ∷ [])) }
{
    let Some(right) = is_right(lists, receipt) else {
        return Some((receipt.part, receipt.position));
    };
    let row = &mut states[receipt.part as usize];
    row.update(receipt.position as usize, right);
    None
}

/// Whether a receipt holds the entry at its place. `None` if the place doesn't exist.
fn is_right(lists: &[&[Entry]], receipt: &Receipt) -> Option<bool>
    ensures { MatchOption result (at (map (λ l. l.now) lists.now) receipt.now.part receipt.now.position ≡ None)
        (λ right. (entry : Entry) × (at (map (λ l. l.now) lists.now) receipt.now.part receipt.now.position ≡
        Some entry) × Decides right (entry_of receipt.now ≡ entry)) }
{
    is_right_in(lists.get(receipt.part as usize)?, receipt)
}

/// Whether a receipt holds the entry at its position in this list. `None` if the list ends before that position.
fn is_right_in(list: &[Entry], receipt: &Receipt) -> Option<bool>
    ensures { MatchOption result (slice_get list.now receipt.now.position ≡ None) (λ right. (entry : Entry) ×
        (slice_get list.now receipt.now.position ≡ Some entry) × Decides right (entry_of receipt.now ≡ entry)) }
{
    let entry = list.get(receipt.position as usize)?;
    Some(is_entry(entry, receipt))
}

/// Whether a receipt has the worker, the command and the reply of this entry.
fn is_entry(entry: &Entry, receipt: &Receipt) -> bool
    ensures { IsTrue result ↔ (entry_of receipt.now ≡ entry.now) }
{
    entry.worker == receipt.worker
        && entry.command == receipt.command
        && entry.reply.is_same(&receipt.reply)
}

/// The first gap, as a partition and a position: the first place that isn't named by exactly one receipt with the
/// entry there. `None` if there is no gap. `states` are the states of all places after the last receipt. O(places).
fn first_gap(lists: &[&[Entry]], states: &Vec<PlaceStates>) -> Option<(u32, u64)>
    requires few { length lists.now ≤ 2 ^ 32 }
    requires coverage { (receipts : List Receipt) × IsCoverage (map (λ l. l.now) lists.now) states.now.items
        receipts }
    ensures none { IfNone result ((receipts : List Receipt) → IsCoverage (map (λ l. l.now) lists.now) states.now.items
        receipts → CoveredBelow (map (λ l. l.now) lists.now) receipts (length (map (λ l. l.now) lists.now))) }
    ensures some { IfSome result (λ place. (receipts : List Receipt) → IsCoverage (map (λ l. l.now) lists.now)
        states.now.items receipts → IsFirstGap (map (λ l. l.now) lists.now) receipts place.0 place.1) }
{
    'parts: for part in 0..lists.len() {
        if let Some(place) = states[part].first_open() {
            return Some((part as u32, place as u64));
        }
    }
    None
}
