//! The index compared with a sorted vector of bounds, over pseudo-random lists of calls.

ghost use Rattle.std.specs.Prelude.{◌<◌, All};

use crate::index::{Placed, bound_at, ending_at};
use crack_index::CrackerIndex;
use crack_row::{InnerBound, Key, KeyNumber};
use std::alloc::Global;
use std::process::Abort;

/// The place of the bound, if it is in the vector.
fn place_of(marks: &[Placed], number: KeyNumber) -> Option<usize> {
    'marks: for i in 0..marks.len() {
        if marks[i].0 == number {
            return Some(marks[i].1);
        }
    }
    None
}

/// Inserts a mark after those at or below its bound.
fn insert(rt: &impl Abort, marks: &mut Vec<Placed>, mark: Placed) {
    let mut at = 0;
    'marks: for i in 0..marks.len() {
        if marks[i].0 <= mark.0 {
            at = i + 1;
        }
    }
    assert!(rt; at <= marks.len());
    assert!(rt; marks.insert(at, mark).is_ok());
}

/// Adds the bound to both, at the place where its piece begins, if it isn't there.
fn add(rt: &impl Abort, index: &mut CrackerIndex, marks: &mut Vec<Placed>, bound: InnerBound) {
    let room = index.reserve(1);
    assert!(rt; room.is_ok());
    if index.position(bound).is_some() {
        return;
    }
    let piece = index.piece_of(bound.key(), 500);
    assert!(rt; piece.from <= piece.to);
    index.add(bound, piece.from);
    insert(rt, marks, (bound.number(), piece.from));
}

/// Moves the greatest bound at or below the key, and those above it at its place, up by one, in both.
fn raise(rt: &impl Abort, index: &mut CrackerIndex, marks: &mut [Placed], key: KeyNumber) {
    let Some(mark) = index.bound_below(Key::from_number(key)) else {
        return;
    };
    let (bound, place) = (mark.bound.number(), mark.position);
    assert!(rt; place < 100000);
    index.raise_past(mark);
    'marks: for i in 0..marks.len() {
        if marks[i].0 >= bound && marks[i].1 == place {
            marks[i].1 = place + 1;
        }
    }
}

/// Walks down from the key over this many places, in both.
fn descend(index: &mut CrackerIndex, marks: &mut [Placed], key: KeyNumber, places: u32) {
    let mut visitor = ending_at(places.saturating_add(1));
    index.descend(Key::from_number(key), &mut visitor);
    let mut left = places;
    let mut last = 0;
    let len = marks.len();
    'marks: for k in 0..len {
        let i = len - 1 - k;
        let (bound, place) = marks[i];
        if bound > key {
            continue;
        }
        if place != last {
            if left == 0 {
                return;
            }
            left -= 1;
            last = place;
        }
        if place == 0 {
            return;
        }
        marks[i].1 = place - 1;
    }
}

/// Asserts that the bounds up to 64 are at the same places in both.
fn assert_same(rt: &impl Abort, index: &CrackerIndex, marks: &[Placed]) {
    assert!(rt; index.len() == marks.len());
    'bounds: for number in 1..65 {
        let found = index.position(bound_at(number));
        assert!(rt; found == place_of(marks, number));
    }
}

/// The pseudo-random number after this one.
fn next(seed: u64) -> u64 {
    seed.wrapping_mul(6364136223846793005)
        .wrapping_add(1442695040888963407)
}

/// Makes a thousand calls from a seed, and asserts after each that both are the same.
fn call(rt: &impl Abort, alloc: Global, seed: u64) {
    let mut index = CrackerIndex::new(alloc);
    let mut marks: Vec<Placed> = Vec::new(alloc);
    let mut seed = seed;
    'calls: for _ in 0..1000 {
        seed = next(seed);
        let key = ((seed >> 33) % 64) as KeyNumber;
        match (seed >> 40) % 4 {
            0 => raise(rt, &mut index, &mut marks, key),
            1 => descend(&mut index, &mut marks, key, ((seed >> 50) % 4) as u32),
            _ => add(rt, &mut index, &mut marks, bound_at(key + 1)),
        }
        assert_same(rt, &index, &marks);
    }
    let height = index.height();
    drop(index);
    assert!(rt; height <= 8);
}

#[test]
fn the_index_stands_as_a_sorted_vector_does(rt: HostRuntime) {
    call(&rt, rt.alloc(), 1);
    call(&rt, rt.alloc(), 2);
}

/// Adds bounds in rising order: a tree that is never rotated would be seven high.
#[test]
fn seven_bounds_in_rising_order_stand_three_high(rt: HostRuntime) {
    let mut index = CrackerIndex::new(rt.alloc());
    let mut marks: Vec<Placed> = Vec::new(rt.alloc());
    'bounds: for number in 1..8 {
        add(&rt, &mut index, &mut marks, bound_at(number));
    }
    let found = [index.len(), index.height() as usize];
    drop(index);
    assert!(rt; found == [7, 3]);
}

/// Adds the bound to both, at a place that rises with it, if it isn't there.
fn add_rising(rt: &impl Abort, index: &mut CrackerIndex, marks: &mut Vec<Placed>, bound: InnerBound)
    requires { All (λ m. m.position < usize.MAX) index.old.marks }
    ensures { All (λ m. m.position < usize.MAX) index.new.marks }
{
    let room = index.reserve(1);
    assert!(rt; room.is_ok());
    if index.position(bound).is_some() {
        return;
    }
    let place = (bound.number() / 4) as usize;
    let piece = index.piece_of(bound.key(), 500);
    assert!(rt; piece.from <= place);
    assert!(rt; place <= piece.to);
    index.add(bound, place);
    insert(rt, marks, (bound.number(), place));
}

/// Walks up from the key over this many places, in both.
fn climb(index: &mut CrackerIndex, marks: &mut [Placed], key: KeyNumber, places: u32)
    requires { All (λ m. m.position < usize.MAX) index.old.marks }
{
    let mut visitor = ending_at(places.saturating_add(1));
    index.climb(Key::from_number(key), &mut visitor);
    let mut left = places;
    let mut last = None;
    'marks: for i in 0..marks.len() {
        let (bound, place) = marks[i];
        if bound <= key {
            continue;
        }
        if last != Some(place) {
            if left == 0 {
                return;
            }
            left -= 1;
            last = Some(place);
        }
        marks[i].1 = place.saturating_add(1);
    }
}

/// Walks up once over bounds from a seed, and asserts that both are then the same.
fn climb_once(rt: &impl Abort, alloc: Global, seed: u64) {
    let mut index = CrackerIndex::new(alloc);
    let mut marks: Vec<Placed> = Vec::new(alloc);
    let mut seed = seed;
    'bounds: for _ in 0..20 {
        seed = next(seed);
        let bound = bound_at(((seed >> 33) % 64) as KeyNumber + 1);
        add_rising(rt, &mut index, &mut marks, bound);
    }
    seed = next(seed);
    climb(
        &mut index,
        &mut marks,
        ((seed >> 33) % 64) as KeyNumber,
        ((seed >> 50) % 8) as u32,
    );
    assert_same(rt, &index, &marks);
    drop(index);
}

#[test]
fn walks_up_go_as_over_a_sorted_vector(rt: HostRuntime) {
    'seeds: for seed in 1..200 {
        climb_once(&rt, rt.alloc(), seed);
    }
}
