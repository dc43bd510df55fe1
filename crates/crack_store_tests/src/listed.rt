//! Live rows are listed by rising serial, whether none, a few or many of them are out of the order of their cells.
//!
//! The test `sweep_..` passes whichever single allocation is refused, so it may be run with each of its allocations
//! refused in turn.
use crate::script::{assert_at, inserts, row};
use crack_row::{KeyRange, Row};
use crack_store::Store;
use std::alloc::Global;
use std::process::Abort;

/// How many rows are inserted, each into the next cell.
const ROWS: u64 = 200;

/// Which rows have other serials than the next one.
#[derive(Clone, Copy)]
enum Others {
    /// One of so many has a serial above all next ones.
    Above(u64),
    /// One of so many has a serial below all before it.
    Below(u64),
    /// The first rows, this many, have serials above all others, which rise.
    FirstAbove(u64),
}

/// The serial of a row. No two rows have the same.
fn serial_of(others: Others, index: u64) -> u64 {
    match others {
        Others::Above(each) if index % each.max(1) == 0 => 3000u64.wrapping_add(index),
        Others::Below(each) if index % each.max(1) == 0 => 1000u64.wrapping_sub(index),
        Others::FirstAbove(count) if index < count => 3000u64.wrapping_add(index),
        _ => 2000u64.wrapping_add(index),
    }
}

/// A store of rows with these serials.
fn store_of(rt: &impl Abort, alloc: Global, others: Others) -> Store {
    let mut store = Store::new(alloc, KeyRange::all());
    'rows: for index in 0..ROWS {
        let new = row((serial_of(others, index), index % 7, index as i64));
        // (the second time memory is found, where one allocation is refused)
        let is_in = inserts(rt, &mut store, new) || inserts(rt, &mut store, new);
        assert!(rt; is_in);
    }
    store
}

/// Whether there are as many rows, and their serials rise.
fn are_rising(rows: &[Row], count: usize) -> bool {
    'rows: for place in 1..rows.len() {
        if rows[place].serial.0 <= rows[place - 1].serial.0 {
            return false;
        }
    }
    rows.len() == count
}

/// Asserts that all rows, and those with two of the seven keys, are listed by rising serial.
fn assert_listed(rt: &impl Abort, alloc: Global, others: Others, number: usize) {
    let store = store_of(rt, alloc, others);
    let is_listed = match store.live_rows() {
        Ok(rows) => are_rising(rows.as_slice(), ROWS as usize),
        Err(_) => false,
    };
    let are_some = match KeyRange::new(1, 3) {
        Ok(range) => match store.live_rows_in(range, ROWS as usize) {
            Ok(rows) => are_rising(rows.as_slice(), 58),
            Err(_) => false,
        },
        Err(_) => false,
    };
    drop(store);
    assert_at(rt, is_listed && are_some, "others", number);
}

/// None, few or many of the rows are out of order, by themselves or beside one another.
const ALL_OTHERS: [Others; 8] = [
    Others::Above(1),
    Others::Above(20),
    Others::Above(3),
    Others::Below(20),
    Others::Below(3),
    Others::FirstAbove(7),
    Others::FirstAbove(12),
    Others::FirstAbove(100),
];

#[test]
fn rows_out_of_order_are_listed_in_order(rt: HostRuntime) {
    'others: for number in 0..ALL_OTHERS.len() {
        assert_listed(&rt, rt.alloc(), ALL_OTHERS[number], number);
    }
}

// Without memory for a merge the rows are sorted in place.
#[test]
fn sweep_a_listing_of_rows_out_of_order(rt: HostRuntime) {
    let store = store_of(&rt, rt.alloc(), Others::Above(20));
    let first = store.live_rows();
    let second = store.live_rows();
    let is_one_listed = match (first, second) {
        (Ok(rows), _) => are_rising(rows.as_slice(), ROWS as usize),
        (Err(_), Ok(rows)) => are_rising(rows.as_slice(), ROWS as usize),
        (Err(_), Err(_)) => false,
    };
    drop(store);
    assert!(rt; is_one_listed);
}
