//! Cracks the column at both ends of a range. One look-up of each end finds the pieces to be cracked.
ghost use Rattle.std.specs.Prelude.{◌≡◌, ◌+◌, ◌≤◌, [], length, IfSome, IfNone};
ghost use Rattle.crack_index.specs.Marks.{with_mark, piece_at};
ghost use Rattle.crack_state.specs.Merge.{Refines, Stands};
ghost use Rattle.crack_state.specs.Inside.{RefinesAt};
ghost use Rattle.crack_store.specs.Keeps.{KeepsIntact};
ghost use Rattle.crack_store.specs.Inside.{lists_of};
ghost use Rattle.crack_store.specs.Gaps.{MissesIn, FallTogether, Misses, bounds_in};
ghost use Rattle.crack_store.specs.Further.{bound_or_end};

use crate::inside::Inside;
use crack_index::Piece;
use crack_row::{Bound, InnerBound, KeyRange};

/// A bound that isn't in the index, and the piece into which it falls.
#[derive(Clone, Copy)]
pub(crate) struct Gap {
    bound: InnerBound,
    piece: Piece,
}

/// Which ends of a range are missing from the index, and into which pieces they fall.
#[derive(Clone, Copy)]
pub(crate) enum Missing {
    /// Neither is missing.
    Neither,
    /// Only this one is missing; if the range is empty, it is both ends.
    One(Gap),
    /// Both are missing and fall into one piece: the low one with that piece, and the high one.
    Together(Gap, InnerBound),
    /// Both are missing, the low one and the high one, and fall into different pieces.
    Apart(Gap, Gap),
}

impl Gap {
    /// The piece into which the bound falls.
    pub(crate) fn piece(self) -> Piece
        ensures { result ≡ self.piece }
    {
        self.piece
    }
}

impl Missing {
    /// How many bounds are missing: 0 to 2. O(1).
    pub(crate) fn bounds(&self) -> usize
        ensures { result ≡ bounds_in self.now }
    {
        match self {
            Missing::Neither => 0,
            Missing::One(_) => 1,
            Missing::Together(_, _) | Missing::Apart(_, _) => 2,
        }
    }
}

/// The bound, with the piece into which it falls. `None` if the index has the bound, or if it isn't strictly
/// between the ends of the partition's keys. O(log bounds): the index has a bound exactly if the piece of its key
/// begins at it.
pub(crate) fn gap_at(inside: &Inside, bound: Bound) -> Option<Gap>
    ensures bound { IfSome result (λ gap. gap.bound.0 ≡ bound.0) }
    ensures missing { IfSome result (λ gap. MissesIn (lists_of inside.now) gap.bound.0 gap.piece) }
    ensures stands { IfNone result (Stands (lists_of inside.now) bound.0) }
{
    if bound <= inside.keys.low() || inside.keys.high() <= bound {
        return None;
    }
    let inner = bound.inner()?;
    let piece = inside.index.piece_of(inner.key(), inside.column.len());
    match piece.low {
        Some(low) if low.number() == inner.number() => None,
        _ => Some(Gap {
            bound: inner,
            piece,
        }),
    }
}

/// The high end of a piece's keys: the bound above them, or the high end of the partition's keys.
fn end_of(piece: Piece, keys: KeyRange) -> Bound
    ensures { result.0 ≡ bound_or_end keys.high piece.high }
{
    match piece.high {
        Some(bound) => bound.bound(),
        None => keys.high(),
    }
}

/// Makes the missing 16-bit codes of the keys of pending insertions if more than 64 are missing, and does the same for
/// pending deletions, so that later passes read codes instead of keys. Does nothing while there is no bound, since the
/// first read may merge all pending rows. Amortised O(1) for each pending row. Contracts see no change.
#[inline]
pub(crate) fn code_pending(inside: &mut Inside)
    ensures { inside.new ≡ inside.old }
{
    if inside.index.is_empty() {
        return;
    }
    inside.pending_in.code_keys();
    inside.pending_out.code_keys();
}

/// Which ends of the range are missing from the index: not in it, though strictly between the ends of the partition's
/// keys. O(log bounds): each end is looked up once, and the high one only if it isn't in the piece of the low one.
#[inline(always)]
pub(crate) fn missing_ends(inside: &Inside, range: KeyRange) -> Missing
    ensures { Misses (lists_of inside.now) range result }
{
    let (low, high) = (range.low(), range.high());
    let Some(first) = gap_at(inside, low) else {
        return match gap_at(inside, high) {
            Some(gap) => Missing::One(gap),
            None => Missing::Neither,
        };
    };
    if high <= low {
        return Missing::One(first);
    }
    match high.inner() {
        Some(bound) if high < end_of(first.piece, inside.keys) => Missing::Together(first, bound),
        _ => match gap_at(inside, high) {
            Some(second) => Missing::Apart(first, second),
            None => Missing::One(first),
        },
    }
}

/// Cracks the column at the missing ends of the range, and adds them to the index, which must have room for them.
/// `missing` is what `missing_ends` returns for the range. Takes no memory. O(size of their pieces + bounds).
pub(crate) fn crack_at_ends(inside: &mut Inside, range: KeyRange, missing: Missing)
    requires intact { KeepsIntact inside.old [] }
    requires missing { Misses (lists_of inside.old) range missing }
    requires room { bounds_in missing ≤ inside.old.index.room }
    ensures intact { KeepsIntact inside.new [] }
    ensures refined { Refines (lists_of inside.old) (lists_of inside.new) range }
    ensures room { inside.new.index.room + bounds_in missing ≡ inside.old.index.room }
{
    match missing {
        Missing::Neither => {}
        Missing::One(gap) => {
            crack_in(inside, gap);
        }
        Missing::Together(low, high) => crack_together(inside, low, high),
        Missing::Apart(low, high) => {
            crack_in(inside, high);
            crack_in(inside, low);
        }
    }
}

/// Cracks in two the piece into which a missing bound falls, adds the bound to the index, which must have room, and
/// returns the bound's place. Takes no memory. O(size of the piece + bounds).
fn crack_in(inside: &mut Inside, gap: Gap) -> usize
    requires intact { KeepsIntact inside.old [] }
    requires missing { MissesIn (lists_of inside.old) gap.bound.0 gap.piece }
    requires room { 1 ≤ inside.old.index.room }
    ensures intact { KeepsIntact inside.new [] }
    ensures refined { RefinesAt (lists_of inside.old) (lists_of inside.new) gap.bound.0 }
    ensures marks { inside.new.index.marks ≡ with_mark (record { bound = gap.bound; position = result })
        inside.old.index.marks }
    ensures room { inside.new.index.room + 1 ≡ inside.old.index.room }
{
    let Gap { bound, piece } = gap;
    let place = inside
        .column
        .crack_two(piece.from, piece.to, bound, &inside.arena);
    inside.index.add(bound, place);
    place
}

/// Cracks in three the piece into which the missing bounds `low` and `high` both fall, and adds them to the index,
/// which must have room. Takes no memory. O(size of the piece + bounds).
fn crack_together(inside: &mut Inside, low: Gap, high: InnerBound)
    requires intact { KeepsIntact inside.old [] }
    requires missing { FallTogether (lists_of inside.old) low high }
    requires room { 2 ≤ inside.old.index.room }
    ensures intact { KeepsIntact inside.new [] }
    ensures refined { Refines (lists_of inside.old) (lists_of inside.new) (record {
      low = low.bound.0;
      high = high.0;
    }) }
    ensures room { inside.new.index.room + 2 ≡ inside.old.index.room }
{
    let Gap { bound: low, piece } = low;
    let (middle, upper) = inside
        .column
        .crack_three(piece.from, piece.to, low, high, &inside.arena);
    inside.index.add(low, middle);
    inside.index.add(high, upper);
}
