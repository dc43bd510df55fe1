//! Pulls by fillers in bulk have the result of pulling one after the other, in random stores.
ghost use Rattle.std.specs.Prelude.{◌≤◌};
ghost use Rattle.crack_row.specs.declared.TheConstants.{GREATEST_BOUND};

use crate::bulk::{Numbers, insert, some_range, some_store};
use crate::carried::{doom_some, make_room_at_last, noted_with_six_more};
use crate::merge::crack_between;
use crate::script::assert_all_keys;
use crack_merge::pull_range;
use crack_row::KeyRange;
use crack_store::Store;
use std::alloc::Global;
use std::process::Abort;

/// Inserts up to fifteen rows, none with the key `high`, and at least half of them with keys above it.
fn insert_apart(rt: &impl Abort, store: &mut Store, numbers: &mut Numbers, high: u64)
    requires { high ≤ 2000 }
{
    let count = numbers.below(16);
    'rows: for i in 0..count {
        let above = numbers.below(20);
        let any = numbers.below(60);
        let key = if i % 2 == 0 { high + 1 + above } else { any };
        if key != high {
            insert(rt, store, key);
        }
    }
}

/// The range without its first key, if it has others: no bound is at its low end then.
fn but_the_first(range: KeyRange) -> KeyRange {
    let low = range.low().number();
    let high = range.high().number();
    if high <= low + 1 {
        return range;
    }
    match KeyRange::new(low + 1, high) {
        Ok(rest) => rest,
        Err(_) => range,
    }
}

/// Makes room, and pulls the pending deletions of the range if there is a filler.
fn pulled_with(rt: &impl Abort, store: Store, range: KeyRange, fillers: KeyRange) -> Store {
    let mut store = store;
    make_room_at_last(rt, &mut store);
    let Some(first) = store.next_in(fillers, 0) else {
        return store;
    };
    assert!(rt; range.high() <= fillers.low());
    pull_range(store, range, fillers, first)
}

/// Pulls pending deletions of a random range in a store of random rows, as long as there are fillers: in bulk, or
/// one after the other, as happens if the fillers' keys don't begin at a bound. Returns the counts, and the
/// contents of the store after six more rows were inserted.
pub(crate) fn pulled_by(rt: &impl Abort, alloc: Global, seed: u64, in_bulk: bool) -> Vec<u64> {
    let mut numbers = Numbers(seed);
    let keys = numbers.below(60) + 1;
    let mut store = some_store(rt, alloc, &mut numbers, keys);
    let range = some_range(rt, &mut numbers, keys);
    crack_between(rt, &mut store, range);
    doom_some(rt, &mut store, &mut numbers);
    insert_apart(rt, &mut store, &mut numbers, range.high().number() as u64);
    assert_all_keys(rt, &store);
    let near = store.keys_beyond(range);
    let fillers = if in_bulk { near } else { but_the_first(near) };
    let store = pulled_with(rt, store, range, fillers);
    noted_with_six_more(rt, alloc, store)
}

/// Pulls the pending deletions of a range by the fillers with keys from its end up to the next bound.
pub(crate) fn pulled_at_last(rt: &impl Abort, store: Store, range: KeyRange) -> Store
    requires { range.high ≤ GREATEST_BOUND }
{
    assert_all_keys(rt, &store);
    let fillers = store.keys_beyond(range);
    pulled_with(rt, store, range, fillers)
}
