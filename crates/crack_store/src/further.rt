//! Cracks at a further bound beside an end of a range that says little about its piece ("Stochastic Database
//! Cracking", PVLDB 2012): the piece is large, and neither end of the range divides a sample of its keys well.
ghost use Rattle.std.specs.Prelude.{◌≡◌, ◌⊎◌, ◌+◌, ◌-◌, ◌≤◌, ◌<◌, ◌↔◌, IsTrue, [], length, IfSome, IfNone, min, max};
ghost use Rattle.crack_store.specs.Keeps.{KeepsIntact};
ghost use Rattle.crack_store.specs.Inside.{lists_of};
ghost use Rattle.crack_store.specs.Further.{own_piece, sampled, samples, count_below, DividesWell};
ghost use Rattle.crack_store.specs.Further.{IsMiddle, FallsIntoLarge, EndsDivideWell, SaysLittle, IsFurther};
ghost use Rattle.crack_store.specs.Further.{CracksBeside, CracksFurther, bound_or_end};
ghost use Rattle.crack_store.specs.Gaps.{HasRoomBeside};

use crate::cracking::{crack_at_ends, gap_at, missing_ends};
use crate::inside::Inside;
use crack_index::Piece;
use crack_row::{Bound, BoundNumber, GREATEST_BOUND, Key, KeyNumber, KeyRange};

/// A piece with at most this many rows isn't cracked further.
const MOST_ROWS: usize = 2048;

/// How many keys of a piece are sampled.
const SAMPLES: usize = 9;

/// A bound divides the sampled keys well if at least this many are below it, and at least this many aren't.
const FEWEST: usize = 3;

/// The room for bounds that a range needs: two for each of its ends.
pub(crate) const BOUNDS_BESIDE: usize = 4;

/// Cracks beside each end of the range (`crack_beside`), the low one first, and then at both ends. The index must have
/// room for four bounds. Takes no memory. O(size of their pieces + bounds).
#[inline(never)]
pub(crate) fn crack_further(inside: &mut Inside, range: KeyRange)
    requires intact { KeepsIntact inside.old [] }
    requires room { BOUNDS_BESIDE ≤ inside.old.index.room }
    ensures intact { KeepsIntact inside.new [] }
    ensures further { CracksFurther (lists_of inside.old) (lists_of inside.new) range }
{
    crack_beside(inside, range, range.low());
    crack_beside(inside, range, range.high());
    let missing = missing_ends(inside, range);
    crack_at_ends(inside, range, missing);
}

/// Cracks at `end`, an end of the range, and at its further bound (`further_bound`), if the end says little about its
/// piece; otherwise changes nothing. Takes no memory. O(size of the piece + bounds).
fn crack_beside(inside: &mut Inside, range: KeyRange, end: Bound)
    requires intact { KeepsIntact inside.old [] }
    requires end { (end.0 ≡ range.low) ⊎ (end.0 ≡ range.high) }
    requires room { HasRoomBeside (lists_of inside.old) range inside.old.index.room }
    ensures intact { KeepsIntact inside.new [] }
    ensures beside { CracksBeside (lists_of inside.old) (lists_of inside.new) range end.0 }
    ensures room { HasRoomBeside (lists_of inside.new) range inside.new.index.room }
{
    let Some(further) = further_bound(inside, range, end) else {
        return;
    };
    let ends = range_between(inside.keys, end, further);
    let missing = missing_ends(inside, ends);
    crack_at_ends(inside, ends, missing);
}

/// The range between two bounds, given in either order. Neither may be above the high end of `keys`.
fn range_between(keys: KeyRange, one: Bound, other: Bound) -> KeyRange
    requires one { one.0 ≤ keys.high }
    requires other { other.0 ≤ keys.high }
    ensures { result ≡ record { low = min one.0 other.0; high = max one.0 other.0 } }
{
    let _ = keys.high();
    let (low, high) = if one < other {
        (one, other)
    } else {
        (other, one)
    };
    match KeyRange::between(low, high) {
        Ok(range) => range,
        Err(_) => unreachable!(),
    }
}

/// The further bound beside `end`, an end of the range: the median of the keys sampled in the end's piece, or that
/// piece's low end plus one if that is greater. `None` unless the end says little about its piece: the piece is a
/// `large_piece`, and neither end of the range divides the sampled keys well. O(log bounds).
fn further_bound(inside: &Inside, range: KeyRange, end: Bound) -> Option<Bound>
    requires intact { KeepsIntact inside.now [] }
    ensures little { IfSome result (λ further. SaysLittle (lists_of inside.now) range end.0) }
    ensures further { IfSome result (λ further. IsFurther (lists_of inside.now) end.0 further.0) }
    ensures none { IfNone result (SaysLittle (lists_of inside.now) range end.0 → ⊥) }
{
    let Some(piece) = large_piece(inside, end) else {
        return None;
    };
    let keys = samples(inside, piece);
    if ends_divide_well(range, &keys) {
        return None;
    }
    let middle = middle(keys);
    Some(bound_at(middle, low_of(piece, inside.keys)))
}

/// The piece into which a missing bound falls. `None` if the piece has at most 2,048 rows, if the bound isn't missing
/// (`gap_at`), or if the index has no bound. O(log bounds).
fn large_piece(inside: &Inside, bound: Bound) -> Option<Piece>
    requires intact { KeepsIntact inside.now [] }
    ensures own { IfSome result (λ piece. piece ≡ own_piece (lists_of inside.now) bound.0) }
    ensures falls { IfSome result (λ piece. FallsIntoLarge (lists_of inside.now) bound.0) }
    ensures within { IfSome result (λ piece. piece.to ≤ length inside.now.column.handles) }
    ensures none { IfNone result (FallsIntoLarge (lists_of inside.now) bound.0 → ⊥) }
{
    if inside.index.is_empty() {
        return None;
    }
    let Some(gap) = gap_at(inside, bound) else {
        return None;
    };
    let piece = gap.piece();
    if piece.to - piece.from <= MOST_ROWS {
        return None;
    }
    Some(piece)
}

/// The low end of a piece's keys: the bound below them, or the low end of the partition's keys.
fn low_of(piece: Piece, keys: KeyRange) -> BoundNumber
    ensures value { result ≡ bound_or_end keys.low piece.low }
    ensures small { result ≤ GREATEST_BOUND }
{
    let _ = keys.high();
    match piece.low {
        Some(bound) => bound.number() as BoundNumber,
        None => keys.low().number(),
    }
}

/// The bound with the number `key`, or with `low + 1` if that is greater.
fn bound_at(key: KeyNumber, low: BoundNumber) -> Bound
    requires { low ≤ GREATEST_BOUND }
    ensures { result.0 ≡ max key (low + 1) }
{
    Bound::from_number((key as BoundNumber).max(low + 1))
}

/// Whether one of the range's ends divides the sampled keys well, as `divides_well` says.
fn ends_divide_well(range: KeyRange, keys: &[KeyNumber; SAMPLES]) -> bool
    ensures { IsTrue result ↔ EndsDivideWell range keys.now }
{
    divides_well(range.low(), keys) || divides_well(range.high(), keys)
}

/// The keys of the rows at nine places that are spread evenly over a piece.
fn samples(inside: &Inside, piece: Piece) -> [KeyNumber; SAMPLES]
    requires intact { KeepsIntact inside.now [] }
    requires within { piece.to ≤ length inside.now.column.handles }
    requires large { MOST_ROWS < piece.to - piece.from }
    ensures { result ≡ samples (lists_of inside.now) piece }
{
    [
        sampled(inside, piece, 0),
        sampled(inside, piece, 1),
        sampled(inside, piece, 2),
        sampled(inside, piece, 3),
        sampled(inside, piece, 4),
        sampled(inside, piece, 5),
        sampled(inside, piece, 6),
        sampled(inside, piece, 7),
        sampled(inside, piece, 8),
    ]
}

/// The key of the row at the `n`-th, counted from 0, of nine places that are spread evenly over a piece. O(1).
fn sampled(inside: &Inside, piece: Piece, n: usize) -> KeyNumber
    requires intact { KeepsIntact inside.now [] }
    requires within { piece.to ≤ length inside.now.column.handles }
    requires large { MOST_ROWS < piece.to - piece.from }
    requires few { n < SAMPLES }
    ensures { result ≡ sampled (lists_of inside.now) piece n }
{
    let rows = piece.to - piece.from;
    let place = piece.from + (2 * n + 1) * rows / (2 * SAMPLES);
    inside.column.key_at(place, &inside.arena).number()
}

/// Whether at least three of the nine keys are below the bound, and at least three aren't.
fn divides_well(bound: Bound, keys: &[KeyNumber; SAMPLES]) -> bool
    ensures { IsTrue result ↔ DividesWell bound.0 keys.now }
{
    let below = count_below(bound, keys);
    FEWEST <= below && below <= SAMPLES - FEWEST
}

/// How many of the keys are below the bound.
fn count_below(bound: Bound, keys: &[KeyNumber; SAMPLES]) -> usize
    ensures { result ≡ count_below bound.0 keys.now }
{
    let mut below = 0;
    'keys: for i in 0..SAMPLES {
        if bound.is_above(Key::from_number(keys[i])) {
            below += 1;
        }
    }
    below
}

/// The median of the nine keys.
fn middle(keys: [KeyNumber; SAMPLES]) -> KeyNumber
    ensures { IsMiddle keys result }
{
    let mut rising = keys;
    rising.sort_unstable();
    rising[SAMPLES / 2]
}
