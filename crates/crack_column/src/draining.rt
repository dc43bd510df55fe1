//! Pulls of doomed rows out of the column, done piece by piece.
ghost use Rattle.std.specs.Prelude.{◌≡◌, ◌-◌, ◌<◌, ◌≤◌, length, take, drop};
ghost use Rattle.crack_arena.specs.Arena.{no_handle};
ghost use Rattle.crack_arena.specs.Memories.{nothing};
ghost use Rattle.crack_column.specs.Column.{StillRemembers, swapped};
ghost use Rattle.crack_column.specs.Drains.{is_under, doomed_below, Drains};
ghost use Rattle.crack_column.specs.Inside.{DrainsOnce};

use crate::CrackerColumn;
use crack_arena::Handle;
use crack_row::{InnerBound, KeyNumber, Row};

/// A doomed row (one with a pending deletion) that is to be pulled out of a column.
#[derive(Clone, Copy, PartialEq, Eq, Debug)]
pub struct Doomed {
    pub key: KeyNumber,
    pub handle: Handle<Row>,
}

impl CrackerColumn {
    /// Does to the piece at the places `from..to` what the pulls of doomed rows do to it, in order. `low` is the
    /// piece's low bound, and `high` its high bound, or `None` for the last piece. The `gap` places before the piece
    /// have the rows that were pulled out of lower pieces: one for each doomed row below `low`. For a doomed row
    /// below `low`, the piece's last row is exchanged with the row before the piece, and so becomes the piece's
    /// first. A doomed row of the piece is exchanged with the piece's last row, and leaves the piece.
    ///
    /// Afterwards the piece begins where the gap began, and the places from its end up to `to` have the rows that
    /// were pulled out of it and of lower pieces. Returns the place of its end, and how often one of its rows moved.
    /// In place, without memory. O(doomed rows), and O(to - from) for each doomed row of the piece. Reads neither
    /// rows nor the arena.
    pub fn drain(
        &mut self,
        gap: usize,
        from: usize,
        to: usize,
        low: KeyNumber,
        high: Option<InnerBound>,
        doomed: &[Doomed],
    ) -> (usize, usize)
        requires gap { gap ≤ from }
        requires order { from ≤ to }
        requires within { to ≤ length self.old.handles }
        ensures drains { doomed_below low doomed.now ≡ gap → Drains low high doomed.now (from - gap) from to self.old
            self.new result.0 result.1 }
        ensures end { (from - gap ≤ result.0) × (result.0 ≤ to) }
        ensures few { result.1 ≤ length doomed.now }
        ensures length { length self.new.handles ≡ length self.old.handles }
        ensures room { self.new.room ≡ self.old.room }
        ensures aside { self.new.aside ≡ self.old.aside }
        ensures remembered { StillRemembers self.old self.new }
    {
        let first = from - gap;
        let (mut start, mut end, mut pulled) = (from, to, 0);
        'doomed: for i in 0..doomed.len() {
            let (from, to, more) = self.drain_once(first, start, end, low, high, doomed[i]);
            start = from;
            end = to;
            pulled += more;
        }
        (end, pulled)
    }

    /// Does what `drain` does for one doomed row, to the piece at the places `start..end` with the bounds `low` and
    /// `high`. The gap before the piece begins at `first`. Returns the places where the piece then begins and ends,
    /// and how many of its rows moved: 0 or 1. O(end - start).
    fn drain_once(
        &mut self,
        first: usize,
        start: usize,
        end: usize,
        low: KeyNumber,
        high: Option<InnerBound>,
        doomed: Doomed,
    ) -> (usize, usize, usize)
        requires gap { first ≤ start }
        requires order { start ≤ end }
        requires within { end ≤ length self.old.handles }
        ensures drains { (doomed.key < low → first < start) → DrainsOnce low high doomed start end self.old.handles
            self.new.handles result.0 result.1 result.2 }
        ensures gap { first ≤ result.0 }
        ensures order { result.0 ≤ result.1 }
        ensures end { result.1 ≤ end }
        ensures few { result.2 ≤ 1 }
        ensures front { take first self.new.handles ≡ take first self.old.handles }
        ensures behind { drop end self.new.handles ≡ drop end self.old.handles }
        ensures length { length self.new.handles ≡ length self.old.handles }
        ensures room { self.new.room ≡ self.old.room }
        ensures aside { self.new.aside ≡ self.old.aside }
        ensures remembered { StillRemembers self.old self.new }
    {
        if doomed.key < low {
            if first == start {
                return (start, end, 0);
            }
            self.swap(start - 1, end - 1);
            return (start - 1, end - 1, (start < end) as usize);
        }
        if start == end || !is_below(doomed.key, high) {
            return (start, end, 0);
        }
        match self.place_between(start, end - 1, doomed.handle) {
            Some(place) => {
                self.swap(place, end - 1);
                (start, end - 1, 1)
            }
            None => (start, end - 1, 0),
        }
    }

    /// Exchanges the handles at two places, each with what is remembered about its row. O(1). Reads no row.
    #[inline]
    pub fn swap(&mut self, one: usize, other: usize)
        requires one { one < length self.old.handles }
        requires other { other < length self.old.handles }
        ensures after { self.new ≡ record self.old {
          handles = swapped no_handle one other self.old.handles;
          remembered = swapped nothing one other self.old.remembered;
        } }
        ensures remembered { StillRemembers self.old self.new }
    {
        let here = self.tags.get(one);
        let there = self.tags.get(other);
        self.tags.set(one, there);
        self.tags.set(other, here);
    }
}

/// Whether the key is below the bound; true if there is no bound.
fn is_below(key: KeyNumber, bound: Option<InnerBound>) -> bool
    ensures { result ≡ is_under bound key }
{
    match bound {
        Some(bound) => key < bound.number(),
        None => true,
    }
}
