//! Carries of a range have the result of carrying each of its rows, even if doomed rows are in the way: each row is
//! in the same cell, and the free cells are in the same order.
//!
//! The test `sweep_..` passes whichever single allocation is refused, so it may be run with each of its allocations
//! refused in turn. It is a list of work on stores.
ghost use Rattle.std.specs.Prelude.{◌<◌, ◌≤◌};
ghost use Rattle.crack_row.specs.declared.TheConstants.{GREATEST_BOUND};
ghost use Rattle.crack_state.specs.Merge.{IsCracked};

use crate::bulk::{
    Numbers, insert, note_contents, note_counted, some_range, some_store, take_first, take_last,
};
use crate::filled::pulled_at_last;
use crate::merge::{crack_between, numbers_of};
use crate::script::{assert_all_keys, assert_at, dooms, inserts, row};
use crack_merge::{carry_range, merge_complete};
use crack_row::{Bound, Key, KeyNumber, KeyRange, Serial};
use crack_store::Store;
use std::alloc::Global;
use std::process::Abort;

/// Dooms up to seven rows of the column.
pub(crate) fn doom_some(rt: &impl Abort, store: &mut Store, numbers: &mut Numbers) {
    let count = numbers.below(8);
    'rows: for _ in 0..count {
        let serial = Serial(numbers.below(40));
        if store.is_pending(serial) == Some(false) {
            let gone = store.row_of(serial).expect(rt, "a row");
            let is_gone = dooms(store, gone);
            assert!(rt; is_gone);
        }
    }
}

/// Inserts up to eleven rows with different keys, and returns the keys in order of arrival.
fn insert_some(
    rt: &impl Abort,
    alloc: Global,
    store: &mut Store,
    numbers: &mut Numbers,
    keys: u64,
) -> Vec<u64>
    requires { 0 < keys }
{
    let mut inserted = Vec::new(alloc);
    let count = numbers.below(12);
    'rows: for _ in 0..count {
        let key = numbers.below(keys);
        if !inserted.as_slice().contains(&key) {
            insert(rt, store, key);
            assert!(rt; inserted.push(key).is_ok());
        }
    }
    inserted
}

/// Carries the pending insertions of a range under a ceiling or none. Returns the store, and whether all were
/// carried.
fn carried_or_stopped(
    rt: &impl Abort,
    store: Store,
    range: KeyRange,
    ceiling: Option<Bound>,
) -> (Store, bool) {
    let done = match ceiling {
        Some(bound) => {
            assert!(rt; range.high() <= bound);
            carry_range(store, range, Some(bound))
        }
        None => carry_range(store, range, None),
    };
    match done {
        Ok(carried) => (carried, true),
        Err((stopped, _)) => (stopped, false),
    }
}

/// Carries the pending insertions of a range under a ceiling or none.
fn carried(rt: &impl Abort, store: Store, range: KeyRange, ceiling: Option<Bound>) -> Store {
    let (carried, all) = carried_or_stopped(rt, store, range, ceiling);
    assert!(rt; all);
    carried
}

/// Carries the rows with these keys that are in the range, one after the other.
fn carried_each(
    rt: &impl Abort,
    store: Store,
    range: KeyRange,
    ceiling: Option<Bound>,
    keys: &[u64],
) -> Store {
    let mut store = store;
    for i in 0..keys.len() {
        let key = keys[i];
        if range.contains(Key::from_number(key)) {
            let one = KeyRange::new(key as u128, key as u128 + 1).expect(rt, "a range");
            store = carried(rt, store, one, ceiling);
        }
    }
    store
}

/// Inserts rows with these keys, with serials from `first` on, each with one retry if memory is refused.
fn insert_all(rt: &impl Abort, store: &mut Store, first: u64, keys: &[KeyNumber]) {
    for place in 0..keys.len() {
        let new = row((first.wrapping_add(place as u64), keys[place], 0));
        let is_in = inserts(rt, store, new) || inserts(rt, store, new);
        assert!(rt; is_in);
    }
}

/// The merge counts of a store, and its contents after six more rows were inserted, which take free cells first.
pub(crate) fn noted_with_six_more(rt: &impl Abort, alloc: Global, store: Store) -> Vec<u64> {
    let mut store = store;
    let mut noted = Vec::new(alloc);
    note_counted(rt, &store, &mut noted);
    insert_all(rt, &mut store, 5000, &[1, 1, 1, 1, 1, 1]);
    note_contents(rt, store, &mut noted);
    noted
}

/// A store of random rows, of which some may be doomed, and with random pending insertions. Also returns a range
/// whose insertions are to be carried, the ceiling at its end or none, and the keys of the insertions in order.
fn with_some(
    rt: &impl Abort,
    alloc: Global,
    seed: u64,
    under: bool,
) -> (Store, KeyRange, Option<Bound>, Vec<u64>) {
    let mut numbers = Numbers(seed);
    let keys = numbers.below(60) + 1;
    let mut store = some_store(rt, alloc, &mut numbers, keys);
    if !under || numbers.below(2) == 0 {
        doom_some(rt, &mut store, &mut numbers);
    }
    let part = some_range(rt, &mut numbers, keys);
    let whole = numbers.below(2) == 0;
    let range = if whole && !under {
        KeyRange::all()
    } else {
        part
    };
    let ceiling = if under { Some(part.high()) } else { None };
    if under {
        crack_between(rt, &mut store, part);
    }
    let inserted = insert_some(rt, alloc, &mut store, &mut numbers, keys);
    (store, range, ceiling, inserted)
}

/// Whether the insertions of a store of `with_some` are carried in bulk.
pub(crate) fn is_carried_in_bulk(rt: &impl Abort, alloc: Global, seed: u64, under: bool) -> bool {
    let (mut store, range, ceiling, inserted) = with_some(rt, alloc, seed, under);
    drop(inserted);
    let in_bulk = carries_in_bulk(rt, &mut store, range, ceiling);
    drop(store);
    in_bulk
}

/// Carries the pending insertions of a range in bulk, under a ceiling or none. Returns whether there were some and
/// they were carried.
pub(crate) fn carries_in_bulk(
    rt: &impl Abort,
    store: &mut Store,
    range: KeyRange,
    ceiling: Option<Bound>,
) -> bool {
    let Some(first) = store.first_in(range) else {
        return false;
    };
    match ceiling {
        Some(bound) => {
            assert!(rt; range.high() <= bound);
            store.carry_under(range, first, bound)
        }
        None => store.carry_in_bulk(range, first),
    }
}

/// Carries the insertions of a store of `with_some`, at once or one after the other. Returns the counts, and the
/// contents of the store after six more rows were inserted.
pub(crate) fn carried_by(
    rt: &impl Abort,
    alloc: Global,
    seed: u64,
    at_once: bool,
    under: bool,
) -> Vec<u64> {
    let (store, range, ceiling, inserted) = with_some(rt, alloc, seed, under);
    let store = if at_once {
        carried(rt, store, range, ceiling)
    } else {
        carried_each(rt, store, range, ceiling, inserted.as_slice())
    };
    drop(inserted);
    noted_with_six_more(rt, alloc, store)
}

/// Cracks at the ends of a range, with one retry if memory is refused.
fn crack_at_last(rt: &impl Abort, store: &mut Store, range: KeyRange)
    ensures { IsCracked store.new range }
{
    if store.crack(range).is_ok() {
        return;
    }
    let again = store.crack(range);
    assert!(rt; again.is_ok());
}

/// Merges all rows, with one retry if memory is refused.
fn merge_at_last(rt: &impl Abort, store: Store) -> Store {
    let mut store = store;
    for _ in 0..2 {
        crack_at_last(rt, &mut store, KeyRange::all());
        assert_all_keys(rt, &store);
        match merge_complete(store, KeyRange::all()) {
            Ok((merged, _)) => return merged,
            Err((stopped, _)) => store = stopped,
        }
    }
    panic!(rt; "no memory");
}

/// Makes room, with one retry if memory is refused.
pub(crate) fn make_room_at_last(rt: &impl Abort, store: &mut Store)
    ensures room { 0 < store.new.column_room }
{
    if store.make_room().is_ok() {
        return;
    }
    let again = store.make_room();
    assert!(rt; again.is_ok());
}

/// Removes rows of the column, from its end on, or puts each pending insertion after the others, from the first on,
/// and asserts their serials.
fn assert_serials(rt: &impl Abort, store: Store, serials: &[u64], of_column: bool) -> Store {
    let mut store = store;
    for place in 0..serials.len() {
        make_room_at_last(rt, &mut store);
        let (next, row) = if of_column {
            take_last(rt, store)
        } else {
            take_first(rt, store)
        };
        assert_at(rt, row[0] == serials[place], "serials", place);
        store = next;
    }
    store
}

/// The keys from 15 up to 25.
fn middle(rt: &impl Abort) -> KeyRange
    ensures some { result.low < result.high }
    ensures within { result.high ≤ GREATEST_BOUND }
{
    KeyRange::new(15, 25).expect(rt, "a range")
}

/// A store whose column has rows with these keys, with serials from 0 on, and is cracked at 15 and 25.
fn merged_store(rt: &impl Abort, alloc: Global, keys: &[KeyNumber]) -> Store {
    let mut store = Store::new(alloc, KeyRange::all());
    insert_all(rt, &mut store, 0, keys);
    let mut store = merge_at_last(rt, store);
    crack_at_last(rt, &mut store, middle(rt));
    store
}

/// Dooms rows of the column, each with one retry if memory is refused.
fn doom_all(rt: &impl Abort, store: &mut Store, serials: &[u64]) {
    for place in 0..serials.len() {
        let gone = store.row_of(Serial(serials[place])).expect(rt, "a row");
        let is_gone = dooms(store, gone) || dooms(store, gone);
        assert!(rt; is_gone);
    }
}

/// Carries the pending insertions of a range under the ceiling at its end, with one retry if memory is refused.
fn carried_at_last(rt: &impl Abort, store: Store, range: KeyRange) -> Store {
    let (stopped, all) = carried_or_stopped(rt, store, range, Some(range.high()));
    if all {
        stopped
    } else {
        carried(rt, stopped, range, Some(range.high()))
    }
}

/// The work on a store that is cracked at 15 and 25.
#[derive(Clone, Copy)]
enum Work {
    /// All of its rows are merged.
    Merge,
    /// The rows from 15 up to 25 are carried under the ceiling 25.
    Carry,
    /// The doomed rows from 15 up to 25 are pulled, each by a filler.
    Pull,
}

/// Work on a store, which passes whichever single allocation is refused.
#[derive(Clone, Copy)]
struct Sweep {
    /// The keys of the rows in the column, whose serials begin at 0; the serials of the doomed rows; and the keys
    /// of the pending insertions.
    column: &'static [KeyNumber],
    doomed: &'static [u64],
    pending: &'static [KeyNumber],
    work: Work,
    /// The merge counts afterwards: rows put in, taken out, evicted, moved and pulled.
    counted: [u64; 5],
    /// The serials of the rows left afterwards: the pending insertions, and those of the column from its end on.
    left: &'static [u64],
    serials: &'static [u64],
}

const SWEEPS: &[Sweep] = &[
    // Three rows are carried into three pieces.
    Sweep {
        column: &[10, 20, 30],
        doomed: &[],
        pending: &[17, 12, 90],
        work: Work::Merge,
        counted: [6, 0, 0, 3, 0],
        left: &[],
        serials: &[5, 2, 1, 3, 4, 0],
    },
    // Three rows are carried into three pieces, and the second of them meets a doomed row.
    Sweep {
        column: &[10, 20, 30],
        doomed: &[1],
        pending: &[17, 12, 90],
        work: Work::Merge,
        counted: [6, 1, 0, 2, 0],
        left: &[],
        serials: &[5, 2, 3, 4, 0],
    },
    // Three rows are carried into a piece under a ceiling, beyond which there are two rows.
    Sweep {
        column: &[10, 20, 30, 40],
        doomed: &[],
        pending: &[17, 18, 16],
        work: Work::Carry,
        counted: [7, 0, 2, 2, 0],
        left: &[2, 3],
        serials: &[6, 5, 4, 1, 0],
    },
    // Two doomed rows of a piece are pulled, each by a filler.
    Sweep {
        column: &[10, 20, 22, 40],
        doomed: &[1, 2],
        pending: &[27, 26],
        work: Work::Pull,
        counted: [6, 2, 0, 0, 2],
        left: &[],
        serials: &[3, 4, 5, 0],
    },
];

/// Asserts the counts and the rows of a store after a sweep's work.
fn assert_sweep(rt: &impl Abort, alloc: Global, sweep: Sweep) {
    let mut store = merged_store(rt, alloc, sweep.column);
    doom_all(rt, &mut store, sweep.doomed);
    insert_all(rt, &mut store, sweep.column.len() as u64, sweep.pending);
    let store = match sweep.work {
        Work::Merge => merge_at_last(rt, store),
        Work::Carry => carried_at_last(rt, store, middle(rt)),
        Work::Pull => pulled_at_last(rt, store, middle(rt)),
    };
    assert!(rt; numbers_of(store.tally()) == sweep.counted);
    assert!(rt; store.pending_in() == sweep.left.len());
    let store = assert_serials(rt, store, sweep.left, false);
    drop(assert_serials(rt, store, sweep.serials, true));
}

#[test]
fn sweep_carries_and_pulls(rt: HostRuntime) {
    let sweeps = SWEEPS;
    'sweeps: for place in 0..sweeps.len() {
        assert_sweep(&rt, rt.alloc(), sweeps[place]);
    }
}
