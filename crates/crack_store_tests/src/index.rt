//! The bounds of a cracked column and their places. The contents of an index are given as bounds' numbers with
//! places.

ghost use Rattle.std.specs.Prelude.{◌≡◌, ◌<◌, All};

use crate::script::assert_at;
use crack_index::{CrackerIndex, Mark, Piece, Visitor};
use crack_row::{
    Bound, BoundNumber, GREATEST_BOUND, GREATEST_KEY, InnerBound, Key, KeyNumber, KeyRange,
    PieceSize,
};
use std::alloc::Global;
use std::process::Abort;

/// A bound's number, and its place.
pub type Placed = (KeyNumber, usize);

/// The bound with this number, which is between two keys.
pub fn bound_at(number: KeyNumber) -> InnerBound
    requires { 0 < number }
    ensures { result.0 ≡ number }
{
    match Key::from_number(number).bound().inner() {
        Some(bound) => bound,
        None => unreachable!(),
    }
}

/// The bounds 10, 20 and 30 at the places 0, 1 and 1.
fn tens(rt: &impl Abort, alloc: Global) -> CrackerIndex
    ensures small { All (λ m. m.position < usize.MAX) result.marks }
{
    let mut index = CrackerIndex::new(alloc);
    let room = index.reserve(3);
    assert!(rt; room.is_ok());
    index.add(bound_at(10), 0);
    index.add(bound_at(30), 1);
    index.add(bound_at(20), 1);
    index
}

/// The places of the bounds 10, 20 and 30.
fn places(index: &CrackerIndex) -> [Option<usize>; 3] {
    [
        index.position(bound_at(10)),
        index.position(bound_at(20)),
        index.position(bound_at(30)),
    ]
}

/// Two bounds at the places 1 and 2; the higher one is added first.
fn two(rt: &impl Abort, alloc: Global, low: KeyNumber, high: KeyNumber) -> CrackerIndex
    requires some { 0 < low }
    requires order { low < high }
{
    let mut index = CrackerIndex::new(alloc);
    assert!(rt; index.is_empty());
    let room = index.reserve(2);
    assert!(rt; room.is_ok());
    index.add(bound_at(high), 2);
    index.add(bound_at(low), 1);
    index
}

/// The number and the place of a mark.
fn placed(mark: Option<Mark>) -> Option<Placed> {
    match mark {
        Some(mark) => Some((mark.bound.number(), mark.position)),
        None => None,
    }
}

fn key(number: KeyNumber) -> Key {
    Key::from_number(number)
}

/// Asserts the pieces of a column of four rows.
fn assert_pieces(rt: &impl Abort, index: &CrackerIndex, sizes: &[(BoundNumber, BoundNumber, u64)]) {
    let pieces = index.pieces(KeyRange::all(), 4).expect(rt, "the pieces");
    assert!(rt; pieces.len() == sizes.len());
    'pieces: for place in 0..sizes.len() {
        let (low, high, size) = sizes[place];
        let piece = PieceSize {
            low: Bound::from_number(low),
            high: Bound::from_number(high),
            size,
        };
        assert_at(rt, pieces.get(place) == Some(&piece), "pieces", place);
    }
}

/// Also the pieces, which adjoin and make up the column.
#[test]
fn neighbours_and_pieces_of_bounds(rt: HostRuntime) {
    const SIZES: &[(BoundNumber, BoundNumber, u64)] = &[
        (0, 15, 1),
        (15, 25, 1),
        (25, GREATEST_BOUND, 2),
    ];
    let index = two(&rt, rt.alloc(), 15, 25);
    assert_pieces(&rt, &index, SIZES);
    let places = [index.position(bound_at(25)), index.position(bound_at(20))];
    let between = Piece {
        low: Some(bound_at(15)),
        high: Some(bound_at(25)),
        from: 1,
        to: 2,
    };
    let piece = index.piece_of(key(15), 4);
    let len = index.len();
    drop(index);
    assert!(rt; places == [Some(2), None]);
    assert!(rt; piece == between && len == 2);
}

/// The bounds 4294967296 and 18446744073709551615, which is the greatest bound between two keys.
#[test]
fn bounds_are_as_wide_as_keys(rt: HostRuntime) {
    const SIZES: &[(BoundNumber, BoundNumber, u64)] = &[
        (0, 4294967296, 1),
        (4294967296, 18446744073709551615, 1),
        (18446744073709551615, 18446744073709551616, 2),
    ];
    let index = two(&rt, rt.alloc(), 4294967296, GREATEST_KEY);
    let above = [
        placed(index.bound_above(key(4294967295))),
        placed(index.bound_above(key(4294967296))),
        placed(index.bound_above(key(GREATEST_KEY))),
    ];
    assert_pieces(&rt, &index, SIZES);
    drop(index);
    assert!(rt; above == [Some((4294967296, 1)), Some((GREATEST_KEY, 2)), None]);
}

/// The places of the bounds 10, 20 and 30 after this one and those at its place above it moved up.
fn raised(rt: &impl Abort, alloc: Global, bound: KeyNumber) -> [Option<usize>; 3] {
    let mut index = tens(rt, alloc);
    let mark = index
        .bound_below(key(bound))
        .expect(rt, "the bound is there");
    assert!(rt; mark.position < 1000);
    index.raise_past(mark);
    let places = places(&index);
    drop(index);
    places
}

#[test]
fn bounds_at_one_place_move_together(rt: HostRuntime) {
    let one = raised(&rt, rt.alloc(), 30);
    let both = raised(&rt, rt.alloc(), 20);
    let mut index = tens(&rt, rt.alloc());
    index.lower_at(1);
    let at_one = places(&index);
    drop(index);
    assert!(rt; one == [Some(0), Some(1), Some(2)] && both == [Some(0), Some(2), Some(2)]);
    assert!(rt; at_one == [Some(0), Some(0), Some(0)]);
}

#[test]
fn bounds_next_to_a_key(rt: HostRuntime) {
    let index = tens(&rt, rt.alloc());
    let above = [
        placed(index.bound_above(key(10))),
        placed(index.bound_above(key(30))),
    ];
    let below = [
        placed(index.bound_below(key(29))),
        placed(index.bound_below(key(9))),
    ];
    drop(index);
    assert!(rt; above == [Some((20, 1)), None] && below == [Some((20, 1)), None]);
}

/// Two steps up: past the place of the bound 10, and past that of the other two.
#[test]
fn steps_up_go_from_place_to_place(rt: HostRuntime) {
    let mut index = tens(&rt, rt.alloc());
    let ten = index.bound_above(key(9)).expect(&rt, "a bound above 9");
    assert!(rt; ten.position == 0);
    let twenty = index.raise_past(ten).expect(&rt, "a bound after place 0");
    assert!(rt; twenty.position == 1);
    let none = index.raise_past(twenty);
    let places = places(&index);
    drop(index);
    assert!(rt; none.is_none() && places == [Some(1), Some(2), Some(2)]);
}

/// A visitor that adds up the places it visits, and ends the walk at place number `at_most`.
#[derive(Clone, Copy)]
pub struct Sums {
    visited: u32,
    at_most: u32,
    sum: usize,
}

impl Visitor for Sums {
    ghost use Rattle.std.specs.Prelude.{⊤};

    ghost is_ready = { λ _. ⊤ };

    ghost visits = { λ _ _ _ _. ⊤ };

    fn visit(&mut self, place: usize) -> bool {
        self.visited = self.visited.saturating_add(1);
        self.sum = self.sum.saturating_add(place);
        self.visited < self.at_most
    }
}

/// A visitor that ends the walk at the place with this number, counted from 1.
pub fn ending_at(at_most: u32) -> Sums {
    Sums {
        visited: 0,
        at_most,
        sum: 0,
    }
}

#[test]
fn a_walk_up_raises_what_it_passes(rt: HostRuntime) {
    let mut index = tens(&rt, rt.alloc());
    let mut visitor = ending_at(9);
    let end = index.climb(key(10), &mut visitor);
    let places = places(&index);
    drop(index);
    assert!(rt; end.is_none() && [visitor.visited as usize, visitor.sum] == [1, 1]);
    assert!(rt; places == [Some(0), Some(2), Some(2)]);
}

/// The bound 30 stays, and the walk ends at the bound 10, which has no place before it.
#[test]
fn a_walk_down_lowers_what_it_passes(rt: HostRuntime) {
    let mut index = tens(&rt, rt.alloc());
    let mut visitor = ending_at(9);
    let end = placed(index.descend(key(20), &mut visitor));
    let places = places(&index);
    drop(index);
    assert!(rt; end == Some((10, 0)) && [visitor.visited as usize, visitor.sum] == [1, 0]);
    assert!(rt; places == [Some(0), Some(0), Some(1)]);
}

#[test]
fn a_walk_down_ends_where_the_visitor_says(rt: HostRuntime) {
    let mut index = tens(&rt, rt.alloc());
    let mut visitor = ending_at(1);
    let end = placed(index.descend(key(30), &mut visitor));
    let places = places(&index);
    drop(index);
    assert!(rt; end == Some((30, 1)) && [visitor.visited as usize, visitor.sum] == [1, 0]);
    assert!(rt; places == [Some(0), Some(1), Some(1)]);
}
