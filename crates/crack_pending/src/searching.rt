//! Searches for pending rows, by key in a range or by handle.
ghost use Rattle.std.specs.Prelude.{◌≡◌, MatchOption};
ghost use Rattle.crack_arena.specs.Rows.{keys_at};
ghost use Rattle.crack_arena.specs.Arena.{IsFirstAt, IsAbsent};
ghost use Rattle.crack_arena.specs.Memories.{Memory, Remembers};
ghost use Rattle.crack_pending.specs.Pending.{Finds};

use crate::list::PendingList;
use crate::noting::spot_sought;
use crate::pass::{first_hit, next_hit};
use crate::rows::{place_of_spot, rows_between, spot_before};
use crack_arena::{Arena, Handle};
use crack_row::{KeyRange, Row};

impl<Kind> PendingList<Kind> {
    /// The first place whose row has its key in the range, or `None` if there is none. O(len), without a branch
    /// for each key.
    pub fn first_in(&self, range: KeyRange, arena: &Arena<Row>) -> Option<usize>
        requires { Remembers arena.now.cells self.now.handles self.now.remembered }
        ensures { Finds range (keys_at arena.now.cells self.now.handles) 0 result }
    {
        self.next_in(range, 0, arena)
    }

    /// The first place at or after `from` whose row has its key in the range, or `None` if there is none. O(1) for
    /// each place that it passes, without a branch for each key. Looks at a handle only if a key may lie in the range,
    /// or isn't remembered. A command that takes rows continues the search where it took the last one, and so passes
    /// over the list once.
    pub fn next_in(&self, range: KeyRange, from: usize, arena: &Arena<Row>) -> Option<usize>
        requires { Remembers arena.now.cells self.now.handles self.now.remembered }
        ensures { Finds range (keys_at arena.now.cells self.now.handles) from result }
    {
        if self.rows <= from {
            return None;
        }
        let start = spot_before(
            &self.stands,
            self.rows,
            self.hint_place,
            self.hint_spot,
            from,
        );
        let some_unknown = self.unknowns > 0;
        match first_hit(
            &self.tags,
            &self.stands,
            &self.codes,
            start,
            range,
            arena,
            some_unknown,
        ) {
            Some(spot) => Some(from + rows_between(&self.stands, start, spot)),
            None => None,
        }
    }

    /// Does what `next_in` does, and also makes the next look-up of a place start from the place that it finds:
    /// finding a row and then taking it is one pass.
    pub fn seek_in(&mut self, range: KeyRange, from: usize, arena: &Arena<Row>) -> Option<usize>
        requires { Remembers arena.now.cells self.old.handles self.old.remembered }
        ensures finds { Finds range (keys_at arena.now.cells self.old.handles) from result }
        ensures same { self.new ≡ self.old }
    {
        if self.rows <= from {
            return None;
        }
        self.codes.catch_up_if_many(&self.tags, &self.stands);
        let start = spot_before(
            &self.stands,
            self.rows,
            self.hint_place,
            self.hint_spot,
            from,
        );
        let some_unknown = self.unknowns > 0;
        match next_hit(
            &self.tags,
            &self.stands,
            &mut self.codes,
            start,
            range,
            arena,
            some_unknown,
        ) {
            Some(spot) => {
                self.codes.warm(&self.tags, arena);
                self.hint_place = from + rows_between(&self.stands, start, spot);
                self.hint_spot = spot;
                Some(self.hint_place)
            }
            None => None,
        }
    }

    /// Makes the missing 16-bit codes of keys if many are missing, so that later passes read codes instead of
    /// keys. Amortised O(1) for each push. Can't fail: without memory for codes, passes read keys. Contracts see
    /// no change.
    #[inline]
    pub fn code_keys(&mut self)
        ensures { self.new ≡ self.old }
    {
        self.codes.catch_up_if_many(&self.tags, &self.stands);
    }

    /// The place of the handle, or `None` if it isn't in the list. O(1) if there are no holes and the spots are noted,
    /// otherwise O(len).
    pub fn place_of(&self, handle: Handle<Row>) -> Option<usize>
        ensures { MatchOption result (IsAbsent self.now.handles handle) (IsFirstAt self.now.handles handle) }
    {
        match spot_sought(
            &self.tags,
            &self.stands,
            &self.spots,
            self.noted,
            handle.slot(),
        ) {
            Some(spot) => {
                if self.tags.handle(spot).generation() != handle.generation() {
                    return None;
                }
                Some(place_of_spot(&self.stands, self.rows, spot))
            }
            None => None,
        }
    }
}
