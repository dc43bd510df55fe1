//! Pulls, which delete the rows with pending deletions.
ghost use Rattle.std.specs.Prelude.{◌≡◌, ◌<◌, ◌≤◌, ◌⊎◌, ℕ, None, length, Contains};
ghost use Rattle.crack_arena.specs.Arena.{StandsAt};
ghost use Rattle.crack_arena.specs.Rows.{keys_at};
ghost use Rattle.crack_pending.specs.Pending.{Finds, NoneIn};
ghost use Rattle.crack_state.specs.Steps.{hand_key, piece_end, buried, IsDoomed};
ghost use Rattle.crack_merge.specs.Merges.{BeginsPull, Pulls, PullsAll};

use crack_arena::Handle;
use crack_row::{KeyRange, Row};
use crack_store::{Carrying, Store};

/// Deletes the rows with pending deletions in a range, in order of arrival, each by a pull. The pull begins with a
/// filler, the first pending insertion at or after the place `seen` whose key is in `fillers`, or with the column's
/// last row if no filler is left. No filler may be before `seen`. One pass over the pending deletions and one over the
/// pending insertions. For each deleted row O(log bounds + pieces on its way), and one search for its place.
///
/// The rows with fillers are pulled in bulk if `Store::fill_in_bulk` does so, and then those without, if any, if
/// `Store::pull_in_bulk` does so; both say when. Otherwise rows are pulled one after another. Takes memory only for
/// the list of rows of a bulk.
pub fn pull_range(mut store: Store, range: KeyRange, fillers: KeyRange, seen: usize) -> Store
    requires behind { fillers.low < fillers.high → range.high ≤ fillers.low }
    requires within { seen ≤ length store.pending_in }
    requires none { NoneIn fillers (keys_at store.cells store.pending_in) 0 seen }
    requires room { (length store.pending_in ≤ seen) ⊎ (0 < store.column_room) }
    ensures { PullsAll range fillers store result }
{
    store.recall_invariant();
    let Some(_) = store.next_out(range, 0) else {
        return store;
    };
    let Some(first) = store.next_in(fillers, seen) else {
        return pull_unfilled(store, range, fillers, seen);
    };
    if !store.fill_in_bulk(range, fillers, first) {
        return pull_each(store, range, fillers, seen);
    }
    pull_rest(store, range, fillers)
}

/// Deletes the doomed rows of the range as `pull_range` does, after a bulk with fillers took the first ones. A filler
/// is a pending insertion whose key is in `fillers`: a pull begins with the first one that is left, or with the
/// column's last row if none is. If there is none from the start, the rows are pulled in bulk if `Store::pull_in_bulk`
/// does so; otherwise one after another.
fn pull_rest(store: Store, range: KeyRange, fillers: KeyRange) -> Store
    requires behind { fillers.low < fillers.high → range.high ≤ fillers.low }
    requires room { 0 < store.column_room }
    ensures { PullsAll range fillers store result }
{
    match store.next_in(fillers, 0) {
        Some(_) => pull_each(store, range, fillers, 0),
        None => pull_unfilled(store, range, fillers, 0),
    }
}

/// Deletes the doomed rows of the range, by pulls that begin with the column's last row. There must be no filler,
/// neither before the place `seen` nor from there on. Pulls in bulk if `Store::pull_in_bulk` does so, otherwise one
/// after another.
fn pull_unfilled(mut store: Store, range: KeyRange, fillers: KeyRange, seen: usize) -> Store
    requires behind { fillers.low < fillers.high → range.high ≤ fillers.low }
    requires within { seen ≤ length store.pending_in }
    requires none { NoneIn fillers (keys_at store.cells store.pending_in) 0 seen }
    requires left { Finds fillers (keys_at store.cells store.pending_in) seen None }
    requires room { (length store.pending_in ≤ seen) ⊎ (0 < store.column_room) }
    ensures { PullsAll range fillers store result }
{
    store.recall_invariant();
    if store.pull_in_bulk(range) {
        return store;
    }
    pull_each(store, range, fillers, seen)
}

/// Deletes the doomed rows of the range one after another, each by a pull. The pull begins with the first filler at or
/// after the place `seen`, or with the column's last row if no filler is left, as `pull_range` describes.
fn pull_each(mut store: Store, range: KeyRange, fillers: KeyRange, seen: usize) -> Store
    requires behind { fillers.low < fillers.high → range.high ≤ fillers.low }
    requires within { seen ≤ length store.pending_in }
    requires none { NoneIn fillers (keys_at store.cells store.pending_in) 0 seen }
    requires room { (length store.pending_in ≤ seen) ⊎ (0 < store.column_room) }
    ensures { PullsAll range fillers store result }
{
    store.recall_invariant();
    let Some(first) = store.next_out(range, 0) else {
        return store;
    };
    store.seek_out(first);
    let (mut carrying, mut seen) = begin(store, fillers, seen);
    let mut from = first;
    'deletions: loop {
        let doomed = carrying.doomed(from);
        draw(&mut carrying, doomed);
        carrying.recall_invariant();
        let Some(place) = carrying.seek_out(range, from + 1) else {
            return carrying.bury();
        };
        seen = bury_and_begin(&mut carrying, fillers, seen);
        from = place - 1;
    }
}

/// Takes the first filler at or after the place `seen` into the hand, or the column's last row if there is none.
/// Returns the store with the row in hand, and the place where the search for the next filler begins. O(1) for each
/// pending insertion that it passes. Takes no memory.
fn begin(store: Store, fillers: KeyRange, seen: usize) -> (Carrying, usize)
    requires some { 0 < length store.column }
    requires room { (length store.pending_in ≤ seen) ⊎ (0 < store.column_room) }
    ensures { BeginsPull fillers store seen result.1 result.0 }
{
    match store.next_in(fillers, seen) {
        Some(place) => (store.lift(place), place),
        None => {
            let behind = store.pending_in();
            (store.lift_last(), behind)
        }
    }
}

/// Buries the row in hand, which must be doomed, and takes the next filler or the column's last row into the hand, as
/// `begin` does. Returns the place where the search for the next filler begins.
fn bury_and_begin(carrying: &mut Carrying, fillers: KeyRange, seen: usize) -> usize
    requires doomed { IsDoomed carrying.old }
    requires some { 0 < length carrying.old.store.column }
    ensures { BeginsPull fillers (buried carrying.old) seen result carrying.new }
{
    carrying.recall_invariant();
    match carrying.seek_in(fillers, seen) {
        Some(place) => {
            carrying.bury_and_lift(place);
            place
        }
        None => {
            let behind = carrying.pending_in();
            carrying.bury_and_lift_last();
            behind
        }
    }
}

/// Brings a doomed row into the hand. It must be in the own piece of the row in hand, or in a lower one. In each step
/// the row in hand takes the last place before its own piece, and the row that was there comes into the hand; in the
/// doomed row's piece the row in hand takes the doomed row's place. Another doomed row that comes into the hand moves
/// on like any other. In the end the doomed row is in hand, and is to be buried. O(log bounds), O(1) for each piece
/// and for each bound at its place, and one search for the doomed row's place. Takes no memory.
fn draw(carrying: &mut Carrying, doomed: Handle<Row>)
    requires pending { Contains carrying.old.store.pending_out doomed }
    requires ahead { (place : ℕ) → StandsAt carrying.old.store.column place doomed → place <
        piece_end carrying.old.store (hand_key carrying.old) }
    ensures pulls { Pulls doomed carrying.old (buried carrying.new) }
    ensures hand { carrying.new.hand ≡ doomed }
    ensures pending_out { carrying.new.store.pending_out ≡ carrying.old.store.pending_out }
{
    carrying.recall_invariant();
    // The row's place can't change before a step reaches it.
    let Some(place) = carrying.find(doomed) else {
        return;
    };
    carrying.pull_down(place);
    carrying.recall_invariant();
    if carrying.holds(doomed) {
        return;
    }
    carrying.exchange(place);
}
