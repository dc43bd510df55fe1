//! Carries in bulk have the result of carrying one row after the other, in random stores.
ghost use Rattle.std.specs.Prelude.{◌<◌, ◌≤◌};

use crate::carried::carries_in_bulk;
use crate::merge::{crack_between, merge_at, numbers_of};
use crate::script::{inserts, row};
use crack_row::{KeyNumber, KeyRange, PieceSize, Policy};
use crack_store::{Carrying, Store};
use std::alloc::Global;
use std::process::Abort;

/// Pseudo-random numbers.
#[derive(Drop)]
pub(crate) struct Numbers(pub(crate) u64);

impl Numbers {
    /// The next number, below `end`.
    pub(crate) fn below(&mut self, end: u64) -> u64
        requires { 0 < end }
        ensures { result < end }
    {
        self.0 = self
            .0
            .wrapping_mul(6_364_136_223_846_793_005)
            .wrapping_add(1_442_695_040_888_963_407);
        (self.0 >> 33) % end
    }
}

/// Inserts a row with this key, which becomes a pending insertion.
pub(crate) fn insert(rt: &impl Abort, store: &mut Store, key: KeyNumber) {
    let serial = store.cells() as u64;
    let is_in = inserts(rt, store, row((serial, key, 0)));
    assert!(rt; is_in);
}

/// A range of keys that isn't empty, whose ends are below twice `keys`.
pub(crate) fn some_range(rt: &impl Abort, numbers: &mut Numbers, keys: u64) -> KeyRange
    requires some { 0 < keys }
    requires few { keys ≤ 1000 }
    ensures some { result.low < result.high }
    ensures within { result.high ≤ 2000 }
{
    let low = numbers.below(keys);
    let more = numbers.below(keys);
    KeyRange::new(low as u128, (low + more + 1) as u128).expect(rt, "a range")
}

/// A store of all keys whose column has up to 39 rows with keys below `keys`, cracked by up to five ranges.
pub(crate) fn some_store(rt: &impl Abort, alloc: Global, numbers: &mut Numbers, keys: u64) -> Store
    requires some { 0 < keys }
    requires few { keys ≤ 1000 }
{
    let mut store = Store::new(alloc, KeyRange::all());
    let rows = numbers.below(40);
    'rows: for _ in 0..rows {
        let key = numbers.below(keys);
        insert(rt, &mut store, key);
    }
    let (mut store, _) = merge_at(rt, store, KeyRange::all(), Policy::Complete);
    let cracks = numbers.below(6);
    'cracks: for _ in 0..cracks {
        let range = some_range(rt, numbers, keys);
        crack_between(rt, &mut store, range);
    }
    store
}

/// The serial, slot and generation of the row in hand.
fn hand_of(carrying: &Carrying) -> [u64; 3] {
    let (handle, row) = carrying.hand();
    [row.serial.0, handle.slot() as u64, handle.generation()]
}

/// Removes the last row of the column, and returns it. The row is buried if it is doomed, else it becomes the last
/// pending insertion.
pub(crate) fn take_last(rt: &impl Abort, store: Store) -> (Store, [u64; 3]) {
    let mut store = store;
    let len = store.column_len();
    assert!(rt; len > 0);
    if let Err(_) = store.make_room() {
        panic!(rt; "no memory");
    }
    let carrying = store.lift_last();
    let row = hand_of(&carrying);
    if carrying.is_doomed() {
        (carrying.bury(), row)
    } else {
        (carrying.put_back(), row)
    }
}

/// Takes the first pending insertion out, puts it after the others, and returns it.
pub(crate) fn take_first(rt: &impl Abort, store: Store) -> (Store, [u64; 3]) {
    let mut store = store;
    let len = store.pending_in();
    assert!(rt; len > 0);
    if let Err(_) = store.make_room() {
        panic!(rt; "no memory");
    }
    let carrying = store.lift(0);
    let row = hand_of(&carrying);
    let doomed = carrying.is_doomed();
    assert!(rt; !doomed);
    (carrying.put_back(), row)
}

/// Appends the number of pieces and their sizes to `noted`.
fn note_sizes(rt: &impl Abort, pieces: &[PieceSize], noted: &mut Vec<u64>) {
    assert!(rt; noted.push(pieces.len() as u64).is_ok());
    for place in 0..pieces.len() {
        assert!(rt; noted.push(pieces[place].size).is_ok());
    }
}

/// Appends the number of pending insertions to `noted`, and the serial, slot and generation of each, in order.
fn note_pending(rt: &impl Abort, store: Store, noted: &mut Vec<u64>) -> Store {
    let mut store = store;
    let count = store.pending_in();
    assert!(rt; noted.push(count as u64).is_ok());
    for _ in 0..count {
        let (next, row) = take_first(rt, store);
        assert!(rt; noted.extend_from_slice(&row).is_ok());
        store = next;
    }
    store
}

/// Appends the contents of a store to `noted`: the sizes of its pieces, the pending insertions, and the serial,
/// slot and generation of each row of its column, from the last place down.
pub(crate) fn note_contents(rt: &impl Abort, store: Store, noted: &mut Vec<u64>) {
    let layout = store.layout().expect(rt, "a layout");
    note_sizes(rt, layout.pieces.as_slice(), noted);
    drop(layout);
    let mut store = note_pending(rt, store, noted);
    for _ in 0..store.column_len() {
        let (next, row) = take_last(rt, store);
        assert!(rt; noted.extend_from_slice(&row).is_ok());
        store = next;
    }
    drop(store);
}

/// Appends the merge counts of a store to `noted`.
pub(crate) fn note_counted(rt: &impl Abort, store: &Store, noted: &mut Vec<u64>) {
    assert!(rt; noted.extend_from_slice(&numbers_of(store.tally())).is_ok());
}

/// Whether up to eleven rows with random keys are carried in bulk into a store of random rows.
pub(crate) fn is_merged_in_bulk(rt: &impl Abort, alloc: Global, seed: u64) -> bool {
    let mut numbers = Numbers(seed);
    let keys = numbers.below(60) + 1;
    let mut store = some_store(rt, alloc, &mut numbers, keys);
    let part = some_range(rt, &mut numbers, keys);
    let whole = numbers.below(2) == 0;
    let range = if whole { KeyRange::all() } else { part };
    let rows = numbers.below(12);
    'rows: for _ in 0..rows {
        let key = numbers.below(keys);
        insert(rt, &mut store, key);
    }
    crack_between(rt, &mut store, range);
    let in_bulk = carries_in_bulk(rt, &mut store, range, None);
    drop(store);
    in_bulk
}

/// Merges the same rows into the same store, at once or one after the other. Returns the counts and the contents of
/// the store.
pub(crate) fn merged(rt: &impl Abort, alloc: Global, seed: u64, at_once: bool) -> Vec<u64> {
    let mut numbers = Numbers(seed);
    let keys = numbers.below(60) + 1;
    let mut store = some_store(rt, alloc, &mut numbers, keys);
    let part = some_range(rt, &mut numbers, keys);
    let whole = numbers.below(2) == 0;
    let (range, policy) = if whole {
        (KeyRange::all(), Policy::Complete)
    } else {
        (part, Policy::Gradual)
    };
    let rows = numbers.below(12);
    'rows: for i in 0..rows {
        let key = numbers.below(keys);
        insert(rt, &mut store, key);
        if !at_once || i + 1 == rows {
            store = merge_at(rt, store, range, policy).0;
        }
    }
    let mut noted = Vec::new(alloc);
    note_counted(rt, &store, &mut noted);
    note_contents(rt, store, &mut noted);
    noted
}
