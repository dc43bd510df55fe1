//! A run of rows leaves what its rows leave if they are inserted one after the other: each row is in the same cell,
//! and the free cells are in the same order.
//!
//! The test `sweep_..` passes whichever single allocation is refused, so it may be run with each of its allocations
//! refused in turn.
ghost use Rattle.std.specs.Prelude.{◌≡◌, ◌+◌, ◌<◌, ◌≤◌, ◌^◌, ℕ, length, None, IsTrue};
ghost use Rattle.crack_serials.specs.Serials.{handle_of};

use crate::bulk::{Numbers, some_store};
use crate::carried::noted_with_six_more;
use crate::script::{assert_all_keys, assert_at, inserts, row};
use crack_row::{KeyNumber, KeyRange, PayloadNumber, Serial};
use crack_store::Store;
use std::alloc::Global;
use std::process::Abort;

/// The first serial of a run.
const FIRST: u64 = 2000;

/// Whether no row has one of this many serials, from `first` on.
fn are_new(store: &Store, first: u64, count: usize) -> bool
    requires { first + count < 2 ^ 64 }
    ensures { IsTrue result → (serial : ℕ) → first ≤ serial → serial < first + count →
        handle_of store.now.serials serial ≡ None }
{
    'serials: for i in 0..count {
        match store.is_pending(Serial(first + i as u64)) {
            Some(_) => return false,
            None => {}
        }
    }
    true
}

/// Inserts a run of rows, and returns how many were inserted.
fn insert_run(
    rt: &impl Abort,
    store: &mut Store,
    first: u64,
    keys: &[KeyNumber],
    payloads: &[PayloadNumber],
) -> usize {
    assert_all_keys(rt, store);
    let cells = store.cells();
    assert!(rt; cells <= 1000);
    assert!(rt; keys.len() <= 1000);
    assert!(rt; payloads.len() == keys.len());
    assert!(rt; first <= 10000);
    let are_new = are_new(store, first, keys.len());
    assert!(rt; are_new);
    store.insert_run(Serial(first), keys, payloads)
}

/// Inserts the rows of a run one after the other.
fn insert_each(
    rt: &impl Abort,
    store: &mut Store,
    first: u64,
    keys: &[KeyNumber],
    payloads: &[PayloadNumber],
) {
    assert!(rt; payloads.len() == keys.len());
    'rows: for i in 0..keys.len() {
        let is_in = inserts(
            rt,
            store,
            row((first.wrapping_add(i as u64), keys[i], payloads[i])),
        );
        assert!(rt; is_in);
    }
}

/// Deletes up to eleven of the rows with serials from `first` on.
fn delete_some(rt: &impl Abort, store: &mut Store, numbers: &mut Numbers, first: u64) {
    let count = numbers.below(12);
    'rows: for _ in 0..count {
        let serial = Serial(first.wrapping_add(numbers.below(20)));
        let few = store.freed() < 1000 && store.pending_out() < 1000;
        assert!(rt; few);
        assert!(rt; store.remove(serial).is_ok());
    }
}

/// Inserts a run of random rows into a store of random rows, some of whose cells were freed, at once or one row after
/// the other, and deletes some of them. Returns the contents of the store after six more rows were inserted.
fn noted_by(rt: &impl Abort, alloc: Global, seed: u64, at_once: bool) -> Vec<u64> {
    let mut numbers = Numbers(seed);
    let mut store = some_store(rt, alloc, &mut numbers, 60);
    insert_each(rt, &mut store, 1000, &[5, 4, 3, 2, 1], &[1, 2, 3, 4, 5]);
    delete_some(rt, &mut store, &mut numbers, 1000);
    let mut keys = Vec::new(alloc);
    let mut payloads = Vec::new(alloc);
    let count = numbers.below(40);
    'rows: for i in 0..count {
        assert!(rt; keys.push(numbers.below(60)).is_ok());
        assert!(rt; payloads.push(i as i64).is_ok());
    }
    if at_once {
        let all = insert_run(rt, &mut store, FIRST, keys.as_slice(), payloads.as_slice());
        assert!(rt; all == keys.len());
    } else {
        insert_each(rt, &mut store, FIRST, keys.as_slice(), payloads.as_slice());
    }
    drop(keys);
    drop(payloads);
    delete_some(rt, &mut store, &mut numbers, FIRST);
    noted_with_six_more(rt, alloc, store)
}

#[test]
fn runs_leave_what_one_after_the_other_leaves(rt: HostRuntime) {
    'seeds: for seed in 0..500u64 {
        let at_once = noted_by(&rt, rt.alloc(), seed, true);
        let each = noted_by(&rt, rt.alloc(), seed, false);
        assert_at(
            &rt,
            at_once.as_slice() == each.as_slice(),
            "seeds",
            seed as usize,
        );
    }
}

#[test]
fn an_empty_run_adds_nothing(rt: HostRuntime) {
    let mut store = Store::new(rt.alloc(), KeyRange::all());
    let added = insert_run(&rt, &mut store, 0, &[], &[]);
    assert!(rt; added == 0 && store.cells() == 0 && store.pending_in() == 0);
    drop(store);
}

/// A run of many rows, for which room is made at once.
const KEYS: [KeyNumber; 20] = [
    30, 10, 20, 40, 60, 50, 20, 10, 90, 80, 70, 35, 15, 25, 45, 65, 55, 5, 0, 100,
];

const PAYLOADS: [PayloadNumber; 20] = [
    3, -1, 2, 4, 6, 5, 2, 1, 9, 8, 7, -3, -2, 0, 11, 12, 13, 14, 15, 16,
];

// If no memory is found for all rows at once, it is for one after the other.
#[test]
fn sweep_a_run_of_rows(rt: HostRuntime) {
    let (keys, payloads) = (KEYS, PAYLOADS);
    let mut store = Store::new(rt.alloc(), KeyRange::all());
    let added = insert_run(&rt, &mut store, 7, &keys, &payloads);
    assert!(rt; added == 20 && store.pending_in() == 20);
    'rows: for i in 0..20 {
        let serial = 7 + i as u64;
        let wanted = row((serial, keys[i], payloads[i]));
        assert!(rt; store.row_of(Serial(serial)) == Some(wanted));
    }
    drop(store);
}
