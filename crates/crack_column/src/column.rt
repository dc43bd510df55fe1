//! The cracker column, and the cracks that divide a part of it.
ghost use Rattle.std.specs.Prelude.{◌≡◌, ◌+◌, ◌-◌, ◌<◌, ◌≤◌, ◌^◌, ◌↔◌, List, [], ◌∷◌, ◌++◌, Some, length};
ghost use Rattle.std.specs.Prelude.{slice_get, slice_index_or, slice_set, IsTrue, OnOk, OnErr, IfErr};
ghost use Rattle.std.specs.Prelude.{MatchOption, take, drop, pos, neg_ℤ, ◌≤ℤ◌, ◌*◌};
ghost use Rattle.std.specs.List.{between};
ghost use Rattle.crack_arena.specs.Arena.{Cell, StandsAt, IsFirstAt, IsAbsent, no_handle};
ghost use Rattle.crack_arena.specs.Rows.{amount_at, key_at};
ghost use Rattle.crack_row.specs.Rows.{total_by, farthest_amount};
ghost use Rattle.crack_arena.specs.Memories.{nothing, Remembers, Agrees};
ghost use Rattle.crack_tags.specs.Tags.{unknown_in};
ghost use Rattle.crack_column.specs.Column.{StillRemembers, StillRemembersWith, Cracks};
ghost use Rattle.crack_column.specs.Column.{first_aside, with_aside, exchanged_aside, appended_aside, popped_aside};
ghost use Rattle.crack_column.specs.Sifts.{AreRead, Sifts};

use crate::tag::Tag;
use crate::tags::Tags;
use crack_arena::{Arena, Handle, Remembered};
use crack_row::{InnerBound, Key, Refusal, Row};
use crack_tags::TagList;
use std::alloc::Global;
use std::marker::Model;
use std::mem;

/// Handles in cracked order. Each place has a tag: the row's handle, and its key and payload if the row is known.
/// Payloads are in a list of their own, so a sum of known rows reads nothing else. There are at most `MOST_PLACES`
/// places. A row is read from the arena at most once, unless it has the greatest key.
#[derive(Drop)]
pub struct CrackerColumn {
    /// In cracked order. Those from `len` on are aside.
    pub(crate) tags: Tags,
    pub(crate) len: usize,
    /// The number of tags before `len` whose rows are unknown.
    pub(crate) unread: usize,
}

impl Model for CrackerColumn {
    ghost use Rattle.std.specs.Prelude.{drop, length, map, take};
    ghost use Rattle.crack_column.specs.Column.{Column};
    ghost use Rattle.crack_column.specs.Keeps.{IsSoundColumn};
    ghost use Rattle.crack_column.specs.Places.{tag_handle, memory_of, room_after, aside_of};

    ghost Value = { Column };

    ghost view = { λ c. record {
      handles = map tag_handle (take c.len c.tags.items);
      remembered = map memory_of (take c.len c.tags.items);
      room = room_after (length c.tags.items) c.tags.capacity c.len;
      aside = map aside_of (drop c.len c.tags.items);
    } };

    ghost invariant = { λ c. IsSoundColumn c.tags.items c.len c.unread };
}

impl CrackerColumn {
    /// Makes a column without handles. O(1), takes no memory.
    pub fn new(alloc: Global) -> CrackerColumn
        ensures handles { result.handles ≡ [] }
        ensures remembered { result.remembered ≡ [] }
        ensures room { result.room ≡ 0 }
        ensures aside { result.aside ≡ [] }
        ensures right { (cells : List (Cell Row)) → Remembers cells result.handles result.remembered }
    {
        CrackerColumn {
            tags: Tags::new(alloc),
            len: 0,
            unread: 0,
        }
    }

    /// Takes the column, and leaves a column without handles in its place. O(1), takes no memory.
    pub fn take(&mut self) -> CrackerColumn
        ensures { result ≡ self.old }
    {
        let alloc = self.tags.allocator();
        mem::replace(self, CrackerColumn::new(alloc))
    }

    /// Takes over a list of at most `MOST_PLACES` rows with its memory, instead of the column's own. `unread` is how
    /// many of the rows are unknown. The column must have no handles; what is aside is dropped. O(1), takes no
    /// memory.
    pub fn adopt(&mut self, rows: TagList, unread: usize)
        requires empty { self.old.handles ≡ [] }
        requires few { length rows.handles ≤ 2 ^ 32 }
        requires unread { unknown_in rows.remembered ≡ unread }
        ensures handles { self.new.handles ≡ rows.handles }
        ensures remembered { self.new.remembered ≡ rows.remembered }
        ensures aside { self.new.aside ≡ [] }
    {
        self.len = rows.len();
        self.unread = unread;
        self.tags = Tags::of(rows);
    }

    /// The number of handles. O(1).
    pub fn len(&self) -> usize
        ensures value { result ≡ length self.now.handles }
        ensures beside { length self.now.remembered ≡ length self.now.handles }
    {
        self.len
    }

    /// Whether there are no handles. O(1).
    pub fn is_empty(&self) -> bool
        ensures { IsTrue result ↔ (self.now.handles ≡ []) }
    {
        self.len == 0
    }

    /// The handle at the place, counted from 0. O(1).
    pub fn at(&self, place: usize) -> Handle<Row>
        requires { place < length self.now.handles }
        ensures { StandsAt self.now.handles place result }
    {
        self.tags.label(place).handle
    }

    /// The slot, or cell number, of the handle at the place. O(1).
    pub fn slot_at(&self, place: usize) -> u32
        requires { place < length self.now.handles }
        ensures { result ≡ (slice_index_or self.now.handles place no_handle).slot }
    {
        self.at(place).slot()
    }

    /// The first place of the handle, counted from 0, or `None` if it isn't in the column. O(places).
    pub fn place_of(&self, handle: Handle<Row>) -> Option<usize>
        ensures { MatchOption result (IsAbsent self.now.handles handle) (IsFirstAt self.now.handles handle) }
    {
        self.tags.find_between(0, self.len, handle)
    }

    /// The first place of the handle at the places `from..to`, or `None` if it isn't there. The place is counted from
    /// the column's front. O(to - from).
    pub fn place_between(&self, from: usize, to: usize, handle: Handle<Row>) -> Option<usize>
        requires order { from ≤ to }
        requires within { to ≤ length self.now.handles }
        ensures { MatchOption result
            (IsAbsent (between from to self.now.handles) handle)
            (λ place. (from ≤ place) × IsFirstAt (between from to self.now.handles) handle (place - from)) }
    {
        match self.tags.find_between(from, to, handle) {
            Some(place) => Some(from + place),
            None => None,
        }
    }

    /// The sum of the payloads of the rows at the places `from..to`. O(to - from), takes no memory. The arena is
    /// read only for unknown rows.
    pub fn sum_between(&self, from: usize, to: usize, arena: &Arena<Row>) -> i128
        requires order { from ≤ to }
        requires within { to ≤ length self.now.handles }
        requires remembered { Remembers arena.now.cells self.now.handles self.now.remembered }
        ensures value { result ≡ total_by (amount_at arena.now.cells) (between from to self.now.handles) }
        ensures least { neg_ℤ (pos ((to - from) * farthest_amount)) ≤ℤ result }
        ensures most { result ≤ℤ pos ((to - from) * farthest_amount) }
        ensures small { (neg_ℤ (pos (2 ^ 95)) ≤ℤ result) × (result ≤ℤ pos (2 ^ 95)) }
    {
        self.tags.sum_between(from, to, self.unread, arena)
    }

    /// Makes room for this many more handles. There may be at most `MOST_PLACES` in total; the handles of all cells
    /// of an arena always fit. O(1), except for growth. Refused with `OutOfMemory` if no memory is found; then memory
    /// that this call took is freed.
    pub fn reserve(&mut self, additional: usize) -> Result<(), Refusal>
        requires { length self.old.handles + additional ≤ 2 ^ 32 }
        ensures same { self.new ≡ record self.old { room = self.new.room } }
        ensures ok { OnOk result (additional ≤ self.new.room) }
        ensures kept { self.old.room ≤ self.new.room }
        ensures full { OnErr result (self.old.room < additional) }
        ensures err { IfErr result (λ e. e ≡ Refusal.OutOfMemory) }
        ensures remembered { StillRemembers self.old self.new }
    {
        let more = additional.saturating_sub(self.tags.len() - self.len);
        self.tags.reserve(more)
    }

    /// Appends the handle, and remembers nothing about its row. A handle that was aside is dropped. There must be
    /// room. O(1).
    pub fn append(&mut self, handle: Handle<Row>)
        requires { 0 < self.old.room }
        ensures after { self.new ≡ record {
          handles = self.old.handles ++ handle ∷ [];
          remembered = self.old.remembered ++ nothing ∷ [];
          room = self.old.room - 1;
          aside = drop 1 self.old.aside;
        } }
        ensures remembered { StillRemembers self.old self.new }
    {
        self.append_remembered(handle, Remembered::nothing());
    }

    /// Appends the handle, with what is remembered about its row. A handle that was aside is dropped. There must be
    /// room. O(1).
    pub fn append_remembered(&mut self, handle: Handle<Row>, remembered: Remembered)
        requires { 0 < self.old.room }
        ensures after { self.new ≡ record {
          handles = self.old.handles ++ handle ∷ [];
          remembered = self.old.remembered ++ remembered ∷ [];
          room = self.old.room - 1;
          aside = drop 1 self.old.aside;
        } }
        ensures remembered { StillRemembersWith handle remembered self.old self.new }
    {
        self.set_aside(handle, remembered);
        self.append_aside();
    }

    /// Replaces the handle at the place, and what is remembered about its row, by `handle` and `remembered`. Returns
    /// the old handle and what was remembered about its row. O(1).
    pub fn swap_in_remembered(
        &mut self,
        place: usize,
        handle: Handle<Row>,
        remembered: Remembered,
    ) -> (Handle<Row>, Remembered)
        requires { place < length self.old.handles }
        ensures handle { slice_get self.old.handles place ≡ Some result.0 }
        ensures known { slice_get self.old.remembered place ≡ Some result.1 }
        ensures after { self.new ≡ record self.old {
          handles = slice_set self.old.handles place handle;
          remembered = slice_set self.old.remembered place remembered;
        } }
        ensures remembered { StillRemembersWith handle remembered self.old self.new }
    {
        let replaced = self.tags.get(place);
        self.tags.set(place, Tag::new(handle, remembered));
        self.unread += remembered.unread();
        self.unread -= replaced.unread();
        (replaced.handle, replaced.remembered())
    }

    /// Removes the last handle, and returns it; `None` if there is none. The handle is also set aside. O(1).
    pub fn pop(&mut self) -> Option<Handle<Row>>
        ensures handles { MatchOption result
            ((self.old.handles ≡ []) × (self.new ≡ self.old))
            (λ h. self.old.handles ≡ self.new.handles ++ h ∷ []) }
        ensures known { self.new.remembered ≡ take (length self.new.handles) self.old.remembered }
        ensures room { MatchOption result (self.new.room ≡ self.old.room) (λ _. self.new.room ≡ self.old.room + 1) }
        ensures aside { MatchOption result (self.new ≡ self.old) (λ _. self.new ≡ popped_aside self.old) }
        ensures remembered { StillRemembers self.old self.new }
    {
        match self.pop_remembered() {
            Some((handle, _)) => Some(handle),
            None => None,
        }
    }

    /// Removes the last handle, and returns it with what was remembered about its row; `None` if there is none. The
    /// handle is also set aside. O(1).
    pub fn pop_remembered(&mut self) -> Option<(Handle<Row>, Remembered)>
        ensures handles { MatchOption result
            ((self.old.handles ≡ []) × (self.new ≡ self.old))
            (λ r. self.old.handles ≡ self.new.handles ++ r.0 ∷ []) }
        ensures known { MatchOption result
            (self.old.remembered ≡ [])
            (λ r. self.old.remembered ≡ self.new.remembered ++ r.1 ∷ []) }
        ensures beside { length self.new.remembered ≡ length self.new.handles }
        ensures room { MatchOption result (self.new.room ≡ self.old.room) (λ _. self.new.room ≡ self.old.room + 1) }
        ensures aside { MatchOption result (self.new ≡ self.old) (λ _. self.new ≡ popped_aside self.old) }
        ensures remembered { StillRemembers self.old self.new }
    {
        if self.len == 0 {
            return None;
        }
        self.pop_aside();
        Some((self.aside(), self.aside_memory()))
    }

    /// Sets the handle aside, with what is remembered about its row: stores both after the last place, outside the
    /// column. There must be room. A handle that was aside is dropped. O(1).
    pub fn set_aside(&mut self, handle: Handle<Row>, remembered: Remembered)
        requires { 0 < self.old.room }
        ensures { self.new ≡ with_aside (record { handle = handle; memory = remembered }) self.old }
    {
        self.tags.put(self.len, Tag::new(handle, remembered));
    }

    /// Removes the last handle from the column, which must not be empty, and sets it aside. O(1). Reads no row.
    pub fn pop_aside(&mut self)
        requires { 0 < length self.old.handles }
        ensures { self.new ≡ popped_aside self.old }
    {
        self.len -= 1;
        self.unread -= self.tags.get(self.len).unread();
    }

    /// Appends the handle that is aside, with what is remembered about its row. There must be one. O(1). Reads no
    /// row.
    pub fn append_aside(&mut self)
        requires { 0 < length self.old.aside }
        ensures after { self.new ≡ appended_aside self.old }
        ensures remembered { StillRemembersWith (first_aside self.old).handle (first_aside self.old).memory
            self.old self.new }
    {
        self.unread += self.tags.get(self.len).unread();
        self.len += 1;
    }

    /// Exchanges the handle that is aside with the one at the place, each with what is remembered about its row. A
    /// handle must be aside. O(1). Reads no row.
    pub fn exchange(&mut self, place: usize)
        requires within { place < length self.old.handles }
        requires aside { 0 < length self.old.aside }
        ensures after { self.new ≡ exchanged_aside place self.old }
        ensures remembered { StillRemembersWith (first_aside self.old).handle (first_aside self.old).memory
            self.old self.new }
    {
        let aside = self.tags.get(self.len);
        let there = self.tags.get(place);
        self.tags.set(place, aside);
        self.tags.set(self.len, there);
        self.unread += aside.unread();
        self.unread -= there.unread();
    }

    /// The handle that is aside. There must be one. O(1).
    pub fn aside(&self) -> Handle<Row>
        requires { 0 < length self.now.aside }
        ensures { result ≡ (first_aside self.now).handle }
    {
        self.tags.label(self.len).handle
    }

    /// The slot, or cell number, of the handle that is aside. There must be one. O(1).
    pub fn aside_slot(&self) -> u32
        requires { 0 < length self.now.aside }
        ensures { result ≡ (first_aside self.now).handle.slot }
    {
        self.aside().slot()
    }

    /// What is remembered about the row of the handle that is aside. There must be one. O(1).
    pub fn aside_memory(&self) -> Remembered
        requires { 0 < length self.now.aside }
        ensures { result ≡ (first_aside self.now).memory }
    {
        self.tags.get(self.len).remembered()
    }

    /// The key of the row at the place. O(1). The arena is read only if the row is unknown.
    #[inline]
    pub fn key_at(&self, place: usize, arena: &Arena<Row>) -> Key
        requires within { place < length self.now.handles }
        requires remembered { Remembers arena.now.cells self.now.handles self.now.remembered }
        ensures { result.0 ≡ key_at arena.now.cells (slice_index_or self.now.handles place no_handle) }
    {
        self.tags.get(place).key(arena)
    }

    /// The key of the row of the handle that is aside. There must be one. O(1). The arena is read only if the row is
    /// unknown.
    pub fn aside_key(&self, arena: &Arena<Row>) -> Key
        requires some { 0 < length self.now.aside }
        requires known { Agrees arena.now.cells (first_aside self.now).handle (first_aside self.now).memory }
        ensures { result.0 ≡ key_at arena.now.cells (first_aside self.now).handle }
    {
        self.tags.get(self.len).key(arena)
    }

    /// Cracks in two: reorders the rows at the places `from..to` so that those below the bound come first. Returns
    /// the place of the first row that isn't below it, or `to` if there is none. In place, without memory. O(to -
    /// from). Reads each unknown row there from the arena, and remembers it.
    pub fn crack_two(
        &mut self,
        from: usize,
        to: usize,
        bound: InnerBound,
        arena: &Arena<Row>,
    ) -> usize
        requires order { from ≤ to }
        requires within { to ≤ length self.old.handles }
        requires remembered { Remembers arena.now.cells self.old.handles self.old.remembered }
        ensures cracked { Cracks arena.now.cells bound.0 from to
            self.old.handles self.old.remembered self.new.handles self.new.remembered result }
        ensures length { length self.new.handles ≡ length self.old.handles }
        ensures room { self.new.room ≡ self.old.room }
        ensures aside { self.new.aside ≡ self.old.aside }
        ensures remembered { Remembers arena.now.cells self.new.handles self.new.remembered }
    {
        let (place, learned) = self.tags.crack_between(from, to, self.unread, bound, arena);
        self.unread -= learned;
        place
    }

    /// Cracks in three: reorders the rows at the places `from..to` so that those below `low` come first, then those
    /// below `high`, and then the others. Returns the places where the second and the third part begin; a part
    /// without rows begins where it ends. In place, without memory, in one pass. O(to - from). Reads each unknown row
    /// there from the arena, and remembers it.
    pub fn crack_three(
        &mut self,
        from: usize,
        to: usize,
        low: InnerBound,
        high: InnerBound,
        arena: &Arena<Row>,
    ) -> (usize, usize)
        requires order { from ≤ to }
        requires within { to ≤ length self.old.handles }
        requires bounds { low.0 ≤ high.0 }
        requires remembered { Remembers arena.now.cells self.old.handles self.old.remembered }
        ensures low { Cracks arena.now.cells low.0 from to
            self.old.handles self.old.remembered self.new.handles self.new.remembered result.0 }
        ensures high { Cracks arena.now.cells high.0 from to
            self.old.handles self.old.remembered self.new.handles self.new.remembered result.1 }
        ensures order { result.0 ≤ result.1 }
        ensures length { length self.new.handles ≡ length self.old.handles }
        ensures room { self.new.room ≡ self.old.room }
        ensures aside { self.new.aside ≡ self.old.aside }
        ensures remembered { Remembers arena.now.cells self.new.handles self.new.remembered }
    {
        let (places, learned) = self
            .tags
            .crack_between_three(from, to, self.unread, low, high, arena);
        self.unread -= learned;
        places
    }

    /// Sifts the rows at the places `from..to`, in order, through the piece at the places `start..from`. If a row is
    /// below the bound, it is exchanged with the piece's first row: the piece then begins one place later, and its
    /// old first row is its last one. Any other row stays, and becomes the piece's last row. In the end the rows
    /// below the bound come first, from `start` on. Returns how many they are, and how often a row of the piece
    /// moved. The column must remember the key and payload of each sifted row. In place, without memory. O(to - from).
    /// Reads no other row, and not the arena.
    pub fn sift(
        &mut self,
        start: usize,
        from: usize,
        to: usize,
        bound: InnerBound,
    ) -> (usize, usize)
        requires order { start ≤ from }
        requires behind { from ≤ to }
        requires within { to ≤ length self.old.handles }
        ensures sifts { (cells : List (Cell Row)) → AreRead cells from to self.old → Sifts cells bound.0 start from to
            self.old self.new result.0 result.1 }
        ensures few { result.0 ≤ to - from }
        ensures length { length self.new.handles ≡ length self.old.handles }
        ensures room { self.new.room ≡ self.old.room }
        ensures aside { self.new.aside ≡ self.old.aside }
        ensures remembered { StillRemembers self.old self.new }
    {
        self.tags.sift_between(start, from, to, bound.number())
    }
}
