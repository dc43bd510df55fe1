//! Removal of pending rows.
ghost use Rattle.std.specs.Prelude.{◌≡◌, ◌+◌, ◌^◌, ◌<◌, ◌≤◌, ◌↔◌, [], ◌++◌, ℕ, length, drop, vec_len, vec_capacity};
ghost use Rattle.std.specs.List.{remove};
ghost use Rattle.crack_arena.specs.Arena.{StandsAt, times, slots, place_in};
ghost use Rattle.crack_arena.specs.Memories.{Memory, Remembers};
ghost use Rattle.crack_tags.specs.Tags.{unknown_in};
ghost use Rattle.crack_pending.specs.Keeps.{Has};
ghost use Rattle.crack_pending.specs.Pending.{StillRemembersRows, rows_inside, rows_outside};

use crate::bits::BitSet;
use crate::closing::close_up;
use crate::list::PendingList;
use crate::noting::spot_noted;
use crate::rows::{hint_without, spot_of, unknowns_without};
use crate::taking::take_hits;
use crack_arena::{Arena, Handle, Remembered};
use crack_row::{KeyRange, Row};
use crack_tags::TagList;

impl<Kind> PendingList<Kind> {
    /// Removes the handle at the place, which must exist, and returns it. Takes no memory, and keeps the room.
    /// Taking k of i rows at rising places takes O(i + k) in total, and taking the first row amortised O(1).
    pub fn take(&mut self, place: usize) -> Handle<Row>
        requires { place < length self.old.handles }
        ensures value { StandsAt self.old.handles place result }
        ensures handles { self.new.handles ≡ remove self.old.handles place }
        ensures keys { self.new.remembered ≡ remove self.old.remembered place }
        ensures room { self.old.room ≤ self.new.room }
        ensures covered { self.new.covered ≡ self.old.covered }
        ensures remembered { StillRemembersRows self.old self.new }
    {
        let spot = spot_of(
            &self.stands,
            self.rows,
            self.hint_place,
            self.hint_spot,
            place,
        );
        let handle = self.tags.handle(spot);
        self.members.strike(handle.slot());
        self.stands[spot] = false;
        self.codes.leave_hole(spot);
        self.rows -= 1;
        self.unknowns = unknowns_without(&self.tags, self.unknowns, spot);
        self.hint_place = place;
        self.hint_spot = spot;
        self.close_up_if_sparse();
        handle
    }

    /// Removes the handle that names the same cell as `handle`; it must be in the list, at any place. Takes no memory,
    /// and keeps the room. Amortised O(1), however many rows there are.
    pub fn strike(&mut self, handle: Handle<Row>)
        requires { 0 < times handle.slot (slots self.old.handles) }
        ensures handles { self.new.handles ≡ remove self.old.handles (place_in self.old.handles handle.slot) }
        ensures keys { self.new.remembered ≡ remove self.old.remembered (place_in self.old.handles handle.slot) }
        ensures room { self.old.room ≤ self.new.room }
        ensures covered { self.new.covered ≡ self.old.covered }
        ensures remembered { StillRemembersRows self.old self.new }
    {
        let slot = handle.slot();
        let Some(spot) = spot_noted(
            &mut self.spots,
            &mut self.noted,
            &self.tags,
            &self.stands,
            slot,
        ) else {
            return;
        };
        self.members.strike(slot);
        self.hint_place = hint_without(&self.stands, self.hint_place, self.hint_spot, spot);
        self.stands[spot] = false;
        self.codes.leave_hole(spot);
        self.rows -= 1;
        self.unknowns = unknowns_without(&self.tags, self.unknowns, spot);
        self.close_up_if_sparse();
    }

    /// Removes all rows whose keys are in a range, in order of arrival. Appends their handles to `taken`, and what is
    /// remembered of them to `known`; both must have room. Can't fail: takes memory only for codes and candidates, and
    /// does without them if there is none. Keeps the list's room. One pass over the codes or keys, and O(1) for each
    /// removed row: no row's place is counted.
    pub fn take_in(
        &mut self,
        range: KeyRange,
        arena: &Arena<Row>,
        taken: &mut Vec<Handle<Row>>,
        known: &mut Vec<Remembered>,
    )
        requires keys { Remembers arena.now.cells self.old.handles self.old.remembered }
        requires room { vec_len taken.old + length (rows_inside arena.now.cells range self.old.handles) ≤
            vec_capacity taken.old }
        requires known { Remembers arena.now.cells taken.old.items known.old.items }
        requires known_room { vec_len known.old + length (rows_inside arena.now.cells range self.old.handles) ≤
            vec_capacity known.old }
        ensures known { Remembers arena.now.cells taken.new.items known.new.items }
        ensures taken { taken.new.items ≡ taken.old.items ++ rows_inside arena.now.cells range self.old.handles }
        ensures left { self.new.handles ≡ rows_outside arena.now.cells range self.old.handles }
        ensures keys { Remembers arena.now.cells self.new.handles self.new.remembered }
        ensures room { self.old.room ≤ self.new.room }
        ensures covered { self.new.covered ≡ self.old.covered }
    {
        self.codes.catch_up_if_many(&self.tags, &self.stands);
        let from = taken.len();
        let left = take_hits(
            &self.tags,
            &mut self.stands,
            &mut self.codes,
            self.unknowns,
            range,
            arena,
            taken,
            known,
        );
        strike_from(&mut self.members, taken, from);
        self.rows -= left.taken;
        self.unknowns = left.unknowns;
        self.hint_place = 0;
        self.hint_spot = 0;
        self.close_up_if_sparse();
    }

    /// Removes all handles. Takes no memory, and keeps the room. O(rows + holes).
    pub fn clear(&mut self)
        ensures handles { self.new.handles ≡ [] }
        ensures keys { self.new.remembered ≡ [] }
        ensures room { self.old.room ≤ self.new.room }
        ensures covered { self.new.covered ≡ self.old.covered }
    {
        close_up(&mut self.tags, &mut self.stands, self.rows);
        strike_all(&mut self.members, &self.tags);
        self.tags.truncate(0);
        self.codes.clear();
        self.stands.clear();
        self.rows = 0;
        self.unknowns = 0;
        self.noted = 0;
        self.hint_place = 0;
        self.hint_spot = 0;
    }

    /// Hands all rows over, in order of arrival, and keeps none: the handles, each with what is remembered of its
    /// row, and the number of rows that are unknown. The memory of the rows goes with them, so no room is kept. Takes
    /// no memory. O(1) for each 64 cells that may have a handle in the list, and O(spots) if there are holes.
    pub fn hand_over(&mut self) -> (TagList, usize)
        ensures handles { result.0.handles ≡ self.old.handles }
        ensures remembered { result.0.remembered ≡ self.old.remembered }
        ensures unknowns { result.1 ≡ unknown_in self.old.remembered }
        ensures few { length self.old.handles ≤ 2 ^ 32 }
        ensures left { self.new.handles ≡ [] }
        ensures keys { self.new.remembered ≡ [] }
        ensures covered { self.new.covered ≡ self.old.covered }
    {
        close_up(&mut self.tags, &mut self.stands, self.rows);
        let rows = self.tags.take();
        let unknowns = self.unknowns;
        self.members.clear();
        self.codes.clear();
        self.stands.clear();
        self.rows = 0;
        self.unknowns = 0;
        self.noted = 0;
        self.hint_place = 0;
        self.hint_spot = 0;
        (rows, unknowns)
    }
}

/// Removes from the set the cells of the handles at the places from `from` on; all of them must be in the set. O(1)
/// for each.
fn strike_from(members: &mut BitSet, handles: &[Handle<Row>], from: usize)
    requires { (slot : ℕ) → 0 < times slot (slots (drop from handles.now)) → Has members.old slot }
    ensures struck { (slot : ℕ) → Has members.new slot ↔ (Has members.old slot ×
        (times slot (slots (drop from handles.now)) ≡ 0)) }
    ensures long { length members.new ≡ length members.old }
{
    'handles: for place in from..handles.len() {
        members.strike(handles[place].slot());
    }
}

/// Removes from the set the cells of all handles in `tags`; all of them must be in the set. O(1) for each.
fn strike_all(members: &mut BitSet, tags: &TagList)
    requires { (slot : ℕ) → 0 < times slot (slots tags.now.handles) → Has members.old slot }
    ensures struck { (slot : ℕ) → Has members.new slot ↔ (Has members.old slot ×
        (times slot (slots tags.now.handles) ≡ 0)) }
    ensures long { length members.new ≡ length members.old }
{
    'tags: for spot in 0..tags.len() {
        members.strike(tags.handle(spot).slot());
    }
}
