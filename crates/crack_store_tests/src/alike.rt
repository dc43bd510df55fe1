//! Random rows are inserted into a store of random rows, or deleted from it, in bulk or one after the other: the
//! result is the same.
use crate::bulk::{is_merged_in_bulk, merged};
use crate::carried::{carried_by, is_carried_in_bulk};
use crate::filled::pulled_by;
use crate::script::assert_at;
use std::alloc::Global;
use std::process::Abort;

/// How rows are inserted into a store, or deleted from it.
#[derive(Clone, Copy)]
enum Way {
    Merge,
    /// Doomed rows are in the way of the insertions.
    Carry,
    /// The end of the insertions' range is the ceiling.
    CarryUnder,
    /// Fillers take the places of doomed rows.
    Pull,
}

/// The counts and the contents of the store of a seed, after its rows were inserted or deleted, all at once or one
/// after the other.
fn noted_by(rt: &impl Abort, alloc: Global, way: Way, seed: u64, at_once: bool) -> Vec<u64> {
    match way {
        Way::Merge => merged(rt, alloc, seed, at_once),
        Way::Carry => carried_by(rt, alloc, seed, at_once, false),
        Way::CarryUnder => carried_by(rt, alloc, seed, at_once, true),
        Way::Pull => pulled_by(rt, alloc, seed, at_once),
    }
}

/// Whether the rows of a seed are carried in bulk, if they are inserted at once.
fn is_in_bulk(rt: &impl Abort, alloc: Global, way: Way, seed: u64) -> bool {
    match way {
        Way::Merge => is_merged_in_bulk(rt, alloc, seed),
        Way::Carry => is_carried_in_bulk(rt, alloc, seed, false),
        Way::CarryUnder => is_carried_in_bulk(rt, alloc, seed, true),
        Way::Pull => false,
    }
}

/// For how many of the seeds below this number rows are carried in bulk.
fn in_bulk(rt: &impl Abort, alloc: Global, way: Way, seeds: u64) -> u64 {
    let mut count = 0u64;
    for seed in 0..seeds {
        count = count.saturating_add(u64::from(is_in_bulk(rt, alloc, way, seed)));
    }
    count
}

/// The indices of the counts of rows put in, taken out and evicted.
const INSERTIONS: usize = 0;

const DELETIONS: usize = 1;

const EVICTED: usize = 2;

/// Asserts for each seed that all rows at once give the result of one after the other. Returns the sum of the
/// counts with this index.
fn assert_alike(rt: &impl Abort, alloc: Global, way: Way, seeds: u64, place: usize) -> u64 {
    let mut sum = 0u64;
    for seed in 0..seeds {
        let at_once = noted_by(rt, alloc, way, seed, true);
        let each = noted_by(rt, alloc, way, seed, false);
        assert_at(
            rt,
            at_once.as_slice() == each.as_slice(),
            "seeds",
            seed as usize,
        );
        sum = sum.saturating_add(at_once.get(place).copied().unwrap_or(0));
    }
    sum
}

#[test]
fn carries_in_bulk_leave_what_one_after_the_other_leaves(rt: HostRuntime) {
    let insertions = assert_alike(&rt, rt.alloc(), Way::Merge, 2000, INSERTIONS);
    assert!(rt; insertions > 1000 && in_bulk(&rt, rt.alloc(), Way::Merge, 2000) > 500);
}

#[test]
fn carries_past_doomed_rows_leave_what_one_after_the_other_leaves(rt: HostRuntime) {
    let insertions = assert_alike(&rt, rt.alloc(), Way::Carry, 2000, INSERTIONS);
    assert!(rt; insertions > 1000 && in_bulk(&rt, rt.alloc(), Way::Carry, 2000) > 500);
}

#[test]
fn carries_under_a_ceiling_leave_what_one_after_the_other_leaves(rt: HostRuntime) {
    let evicted = assert_alike(&rt, rt.alloc(), Way::CarryUnder, 2000, EVICTED);
    assert!(rt; evicted > 100 && in_bulk(&rt, rt.alloc(), Way::CarryUnder, 2000) > 100);
}

#[test]
fn pulls_by_fillers_in_bulk_leave_what_one_after_the_other_leaves(rt: HostRuntime) {
    let taken = assert_alike(&rt, rt.alloc(), Way::Pull, 3000, DELETIONS);
    assert!(rt; taken > 1000);
}
