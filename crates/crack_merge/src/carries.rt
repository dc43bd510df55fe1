//! Carries of pending insertions.
ghost use Rattle.std.specs.Prelude.{◌≡◌, ◌<◌, ◌≤◌, None, Some, [], length, IsTrue, IsFalse, IfSome, IfNone, IfOk};
ghost use Rattle.std.specs.Prelude.{IfErr};
ghost use Rattle.crack_arena.specs.Rows.{keys_at};
ghost use Rattle.crack_pending.specs.Pending.{Finds};
ghost use Rattle.crack_state.specs.State.{IsIntact};
ghost use Rattle.crack_state.specs.Merge.{outside_of};
ghost use Rattle.crack_state.specs.Steps.{hand_key, lifted, ceiling_of, all_appended, SameButRoom};
ghost use Rattle.crack_merge.specs.Merges.{Carries, CarriesAll, CarriesSome, IsCeiling};
ghost use Rattle.crack_merge.specs.Loops.{MayEnd, EvictsOver, ended_carry};

use crack_row::{Bound, KeyRange, Refusal};
use crack_store::{CarryEnd, Carrying, Store};

/// Carries the pending insertions in a range into the column, in order of arrival. A carried row takes the place
/// where its piece ends, and the row that was there, if any, is carried on. Of the rows carried on, a doomed one is
/// buried, and one at or above the ceiling is evicted: it becomes a pending insertion. The ceiling is at or above the
/// range's high end, so no evicted row is in the range.
///
/// Takes one pass over the pending insertions, and for each of those in the range O(log bounds + pieces on its way).
/// If there is no bound and the range has all keys, the rows are appended in one loop, with room made once for all.
/// Otherwise the rows are carried in bulk, in one pass over the pieces. If neither is possible, as when no memory is
/// found for all, or they are too few for bulk (`Store::carry_in_bulk` and, under a ceiling, `Store::carry_under` say
/// when), each is carried by itself. Refused with `OutOfMemory` if no memory is found for a row that is carried by
/// itself; rows carried before it stay where they are.
pub fn carry_range(
    mut store: Store,
    range: KeyRange,
    ceiling: Option<Bound>,
) -> Result<Store, (Store, Refusal)>
    requires { IsCeiling (ceiling_of ceiling) range }
    ensures ok { IfOk result (λ t. CarriesAll (ceiling_of ceiling) range store t) }
    ensures stops { IfErr result (λ e. CarriesSome (ceiling_of ceiling) range store e.0) }
    ensures err { IfErr result (λ e. e.1 ≡ Refusal.OutOfMemory) }
{
    let Some(first) = first_to_carry(&mut store, range, ceiling) else {
        return Ok(store);
    };
    if let Err(refusal) = store.make_room() {
        return Err((store, refusal));
    }
    let mut carrying = store.lift(first);
    let mut from = first;
    'insertions: loop {
        let rule = carry(&mut carrying, ceiling);
        carrying.recall_invariant();
        let Some(place) = carrying.seek_in(range, from) else {
            return Ok(end(carrying, rule));
        };
        if let Err(refusal) = carrying.make_room() {
            return Err((end(carrying, rule), refusal));
        }
        end_and_lift(&mut carrying, rule, place);
        from = place;
    }
}

/// Carries all pending insertions in a range at once, if `carry_all` does so, and returns `None`; also returns `None`
/// if there is none. Otherwise carries none, and returns the place of the first one; the caller is to carry them one
/// after another. O(pending insertions), and O(pieces) for each carried row.
fn first_to_carry(store: &mut Store, range: KeyRange, ceiling: Option<Bound>) -> Option<usize>
    requires { IsCeiling (ceiling_of ceiling) range }
    ensures carried { IfNone result (CarriesAll (ceiling_of ceiling) range store.old store.new) }
    ensures first { IfSome result (λ first. Finds range (keys_at store.old.cells store.old.pending_in) 0 (Some first)) }
    ensures same { IfSome result (λ _. SameButRoom store.old store.new) }
{
    let Some(first) = store.next_in(range, 0) else {
        return None;
    };
    if carry_all(store, range, first, ceiling) {
        return None;
    }
    Some(first)
}

/// Carries all pending insertions in a range at once: as `carry_under` does if there is a ceiling, otherwise as
/// `carry_at_once` does. `first` is the place of the first. Returns whether it did so; if not, none was carried.
/// O(pending insertions), and O(pieces) for each carried row.
fn carry_all(store: &mut Store, range: KeyRange, first: usize, ceiling: Option<Bound>) -> bool
    requires ceiling { IsCeiling (ceiling_of ceiling) range }
    requires first { Finds range (keys_at store.old.cells store.old.pending_in) 0 (Some first) }
    ensures all { IsTrue result → CarriesAll (ceiling_of ceiling) range store.old store.new }
    ensures same { IsFalse result → SameButRoom store.old store.new }
{
    match ceiling {
        Some(ceiling) => carry_under(store, range, first, ceiling),
        None => carry_at_once(store, range, first),
    }
}

/// Carries all pending insertions in a range at once. `first` is the place of the first. If there is no bound and the
/// range has all keys, they are appended to the column; otherwise they are carried in bulk. Returns true if it did so.
/// Carries none, and returns false, if no memory is found for all, or if `Store::carry_in_bulk` carries none.
/// O(pending insertions), and O(pieces) for each carried row.
pub(crate) fn carry_at_once(store: &mut Store, range: KeyRange, first: usize) -> bool
    requires { Finds range (keys_at store.old.cells store.old.pending_in) 0 (Some first) }
    ensures all { IsTrue result → CarriesAll None range store.old store.new }
    ensures left { IsTrue result → store.new.pending_in ≡ outside_of store.old.cells range store.old.pending_in }
    ensures same { IsFalse result → SameButRoom store.old store.new }
{
    if is_appendable(store, range) {
        return append_at_once(store);
    }
    store.carry_in_bulk(range, first)
}

/// Carries all pending insertions in a range at once, as `carry_at_once` does, but under a ceiling: a row at or above
/// the ceiling whose place another row takes is evicted. `first` is the place of the first pending insertion in the
/// range. Returns true if it did so. Carries none, and returns false, if no memory is found for all, or if
/// `Store::carry_under` carries none, as when a row is doomed or no bound is at the ceiling.
fn carry_under(store: &mut Store, range: KeyRange, first: usize, ceiling: Bound) -> bool
    requires ceiling { range.high ≤ ceiling.0 }
    requires first { Finds range (keys_at store.old.cells store.old.pending_in) 0 (Some first) }
    ensures all { IsTrue result → CarriesAll (Some ceiling.0) range store.old store.new }
    ensures same { IsFalse result → SameButRoom store.old store.new }
{
    if is_appendable(store, range) {
        return append_at_once(store);
    }
    store.carry_under(range, first, ceiling)
}

/// Whether there is no bound and the range has all keys. O(1).
fn is_appendable(store: &Store, range: KeyRange) -> bool
    ensures intact { IsIntact store.now [] }
    ensures uncracked { IsTrue result → store.now.marks ≡ [] }
    ensures low { IsTrue result → range.low ≤ store.now.keys.low }
    ensures high { IsTrue result → store.now.keys.high ≤ range.high }
{
    store.recall_invariant();
    let keys = store.keys();
    let has_all = range.low() <= keys.low() && keys.high() <= range.high();
    has_all && store.is_uncracked()
}

/// Appends all pending insertions to the column, which must have no bound, if memory is found for all of them. Returns
/// whether it did so; if not, none was appended.
fn append_at_once(store: &mut Store) -> bool
    requires { store.old.marks ≡ [] }
    ensures all { IsTrue result → SameButRoom (all_appended store.old) store.new }
    ensures same { IsFalse result → SameButRoom store.old store.new }
{
    store.append_all().is_ok()
}

/// Carries the row in hand up through the pieces until it is to be buried, evicted or appended, and returns which of
/// the three. In each step the row in hand takes the place where its own piece ends, and the row that was there comes
/// into the hand. A doomed row is to be buried; another row at or above the ceiling, if there is one, is to be
/// evicted; and a row whose piece ends at the column's end is to be appended. O(log bounds), and O(1) for each piece
/// and for each bound at its place. Takes no memory.
pub(crate) fn carry(carrying: &mut Carrying, ceiling: Option<Bound>) -> CarryEnd
    ensures ends { MayEnd result carrying.new }
    ensures evicts { EvictsOver (ceiling_of ceiling) result (hand_key carrying.new) }
    ensures carries { Carries (ceiling_of ceiling) carrying.old (ended_carry result carrying.new) }
    ensures column_room { carrying.new.store.column_room ≡ carrying.old.store.column_room }
    ensures in_room { carrying.new.store.in_room ≡ carrying.old.store.in_room }
    ensures pending_in { carrying.new.store.pending_in ≡ carrying.old.store.pending_in }
    ensures cells { carrying.new.store.cells ≡ carrying.old.store.cells }
{
    carrying.carry_up(ceiling)
}

/// Ends a carry as `rule` says: buries the row in hand, evicts it to the pending insertions, or appends it to the
/// column. There must be room for it.
pub(crate) fn end(carrying: Carrying, rule: CarryEnd) -> Store
    requires ends { MayEnd rule carrying }
    requires column_room { 0 < carrying.store.column_room }
    requires in_room { 0 < carrying.store.in_room }
    ensures { result ≡ ended_carry rule carrying }
{
    match rule {
        CarryEnd::Buries => carrying.bury(),
        CarryEnd::Evicts => carrying.put_back(),
        CarryEnd::Appends => carrying.append(),
    }
}

/// Ends a carry as `end` does, and then takes the pending insertion at this place into the hand.
pub(crate) fn end_and_lift(carrying: &mut Carrying, rule: CarryEnd, place: usize)
    requires ends { MayEnd rule carrying.old }
    requires column_room { 1 < carrying.old.store.column_room }
    requires in_room { 0 < carrying.old.store.in_room }
    requires there { place < length carrying.old.store.pending_in }
    ensures { carrying.new ≡ lifted place (ended_carry rule carrying.old) }
{
    match rule {
        CarryEnd::Buries => carrying.bury_and_lift(place),
        CarryEnd::Evicts => carrying.put_back_and_lift(place),
        CarryEnd::Appends => carrying.append_and_lift(place),
    }
}
