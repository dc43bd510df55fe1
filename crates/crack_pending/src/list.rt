//! The lists of pending rows.
ghost use Rattle.std.specs.Prelude.{◌≡◌, ◌+◌, ◌-◌, ◌<◌, ◌≤◌, ◌↔◌, ◌∷◌, [], ◌++◌, ℕ, length, All, IsTrue};
ghost use Rattle.std.specs.Prelude.{List, slice_set};
ghost use Rattle.crack_row.specs.declared.Row.{Row};
ghost use Rattle.crack_arena.specs.Arena.{Cell, StandsAt, times, slots, place_in};
ghost use Rattle.crack_arena.specs.Memories.{nothing, Memory, Remembers};
ghost use Rattle.crack_pending.specs.Pending.{StillRemembersRows, RemembersOneMore, RemembersAnew};

use crate::bits::BitSet;
use crate::codes::Codes;
use crate::noting::spot_noted;
use crate::rows::{spot_of, unknowns_without};
use crack_arena::{Handle, Remembered, UNKNOWN_KEY};
use crack_row::Row;
use crack_tags::TagList;
use std::alloc::Global;
use std::marker::{Model, PhantomData};

/// The kind of a list of pending insertions.
#[derive(Drop)]
pub struct Insertions;

/// The kind of a list of pending deletions.
#[derive(Drop)]
pub struct Deletions;

/// The pending insertions: rows that wait until a command merges them into the cracker column.
pub type PendingIn = PendingList<Insertions>;

/// The pending deletions: rows that wait until a command removes them from the cracker column.
pub type PendingOut = PendingList<Deletions>;

/// The handles of pending rows in order of arrival (the pending columns of "Updating a Cracked Database", SIGMOD
/// 2007), each with the key and the payload of its row if these are remembered. No cell has two handles in a list.
/// Each row has a spot, and a removed row leaves a hole there. Holes are closed up once there are as many as rows.
/// A place, unlike a spot, counts only rows, never holes.
#[derive(Drop)]
pub struct PendingList<Kind> {
    /// By spot. A hole keeps its handle and what was remembered of its row; neither is read.
    pub(crate) tags: TagList,
    pub(crate) codes: Codes,
    /// Whether there is a row, by spot.
    pub(crate) stands: Vec<bool>,
    /// The number of rows.
    pub(crate) rows: usize,
    /// The number of rows whose keys are unknown.
    pub(crate) unknowns: usize,
    /// The spot of a cell's handle, by cell number, if it was noted.
    pub(crate) spots: Vec<u32>,
    /// How many of the first spots are noted. A push notes none; a look-up of a cell's spot first notes all.
    pub(crate) noted: usize,
    /// The number of rows before `hint_spot`, where the next look-up of a place starts.
    pub(crate) hint_place: usize,
    pub(crate) hint_spot: usize,
    /// The numbers of the cells that have a handle in the list.
    pub(crate) members: BitSet,
    kind: PhantomData<Kind>,
}

impl<Kind> Model for PendingList<Kind> {
    ghost use Rattle.std.specs.Prelude.{◌≡◌, length, vec_len, vec_capacity};
    ghost use Rattle.crack_arena.specs.Arena.{times};
    ghost use Rattle.crack_arena.specs.Rows.{unknown};
    ghost use Rattle.crack_pending.specs.Pending.{Pending};
    ghost use Rattle.crack_pending.specs.Codes.{AreCoded};
    ghost use Rattle.crack_pending.specs.Keeps.{IsSoundList, AreMembers, keys_of};
    ghost use Rattle.crack_pending.specs.Spots.{kept, spot_room};

    ghost Value = { Pending };

    ghost view = { λ p. record {
      handles = kept p.stands.items p.tags.handles;
      remembered = kept p.stands.items p.tags.remembered;
      room = spot_room (length p.tags.handles) p.tags.capacity (vec_capacity p.stands);
      covered = length p.spots.items;
    } };

    ghost invariant = { λ p.
        IsSoundList p.tags.handles p.tags.remembered p.stands.items p.spots.items p.rows p.noted
        p.hint_place p.hint_spot
        × (p.unknowns ≡ times unknown (keys_of (kept p.stands.items p.tags.remembered)))
        × AreCoded p.tags.remembered p.stands.items p.codes
        × AreMembers p.members (kept p.stands.items p.tags.handles) (length p.spots.items) };
}

impl<Kind> PendingList<Kind> {
    /// Makes an empty list. Takes no memory. O(1).
    pub fn new(alloc: Global) -> Self
        ensures after { result ≡ record { handles = []; remembered = []; room = 0; covered = 0 } }
        ensures remembered { (cells : List (Cell Row)) → Remembers cells result.handles result.remembered }
    {
        PendingList {
            tags: TagList::new(alloc),
            codes: Codes::new(alloc),
            stands: Vec::new(alloc),
            rows: 0,
            unknowns: 0,
            spots: Vec::new(alloc),
            noted: 0,
            hint_place: 0,
            hint_spot: 0,
            members: BitSet::new(alloc),
            kind: PhantomData,
        }
    }

    /// States the invariants of every list. Does nothing at run time.
    pub fn recall_invariant(&self)
        ensures once { (slot : ℕ) → times slot (slots self.now.handles) ≤ 1 }
        ensures covered { All (λ h. h.slot < self.now.covered) self.now.handles }
        ensures beside { length self.now.remembered ≡ length self.now.handles }
    {
        let _ = &self.tags;
    }

    /// Appends the handle; nothing is remembered of its row. There must be room for it and its cell, and the list must
    /// have no handle of the cell. Takes no memory. O(1).
    pub fn push(&mut self, handle: Handle<Row>)
        requires room { 0 < self.old.room }
        requires covered { handle.slot < self.old.covered }
        requires absent { times handle.slot (slots self.old.handles) ≡ 0 }
        ensures after { self.new ≡ record self.old {
          handles = self.old.handles ++ handle ∷ [];
          remembered = self.old.remembered ++ nothing ∷ [];
          room = self.old.room - 1;
        } }
        ensures remembered { StillRemembersRows self.old self.new }
    {
        self.push_remembered(handle, Remembered::nothing());
    }

    /// Appends the handle, with what is remembered of its row. There must be room for it and its cell, and the
    /// list must have no handle of the cell. Takes no memory. O(1).
    #[inline(always)]
    pub fn push_remembered(&mut self, handle: Handle<Row>, remembered: Remembered)
        requires room { 0 < self.old.room }
        requires covered { handle.slot < self.old.covered }
        requires absent { times handle.slot (slots self.old.handles) ≡ 0 }
        ensures after { self.new ≡ record self.old {
          handles = self.old.handles ++ handle ∷ [];
          remembered = self.old.remembered ++ remembered ∷ [];
          room = self.old.room - 1;
        } }
        ensures remembered { RemembersOneMore handle remembered self.old self.new }
    {
        self.members.put(handle.slot());
        self.tags.push_reserved(handle, remembered);
        self.stands.push_reserved(true);
        self.rows += 1;
        self.unknowns += (remembered.key() == UNKNOWN_KEY) as usize;
    }

    /// The handle at the place, counted from 0 in order of arrival. The place must exist. O(1) if there are no holes,
    /// otherwise a pass over the spots: from the hint on, which `seek` sets, or from the first spot if the place is
    /// before the hint.
    pub fn at(&self, place: usize) -> Handle<Row>
        requires { place < length self.now.handles }
        ensures { StandsAt self.now.handles place result }
    {
        self.tags.handle(spot_of(
            &self.stands,
            self.rows,
            self.hint_place,
            self.hint_spot,
            place,
        ))
    }

    /// Makes the next look-up of a place start from this place, the hint, which must exist. So taking k of i rows at
    /// rising places takes O(i + k) in total. Costs as much as `at`. Contracts see no change.
    pub fn seek(&mut self, place: usize)
        requires { place < length self.old.handles }
        ensures { self.new ≡ self.old }
    {
        self.hint_spot = spot_of(
            &self.stands,
            self.rows,
            self.hint_place,
            self.hint_spot,
            place,
        );
        self.hint_place = place;
    }

    /// Replaces what is remembered of a row by `remembered`. The row is the one whose handle in the list names the
    /// same cell as this handle; there must be one. O(1), and O(1) for each spot that isn't noted yet.
    pub fn remember(&mut self, handle: Handle<Row>, remembered: Remembered)
        requires { 0 < times handle.slot (slots self.old.handles) }
        ensures after { self.new ≡ record self.old {
          remembered = slice_set self.old.remembered (place_in self.old.handles handle.slot) remembered;
        } }
        ensures remembered { RemembersAnew handle.slot remembered self.old self.new }
    {
        if let Some(spot) = spot_noted(
            &mut self.spots,
            &mut self.noted,
            &self.tags,
            &self.stands,
            handle.slot(),
        ) {
            self.unknowns = unknowns_without(&self.tags, self.unknowns, spot)
                + (remembered.key() == UNKNOWN_KEY) as usize;
            self.tags.remember(spot, remembered);
            self.codes.recode(spot, remembered.key());
        }
    }

    /// Whether the list has a handle of the cell with this number. O(1): reads only the cell's bit.
    #[inline]
    pub fn contains(&self, slot: u32) -> bool
        ensures { IsTrue result ↔ (0 < times slot (slots self.now.handles)) }
    {
        self.members.has(slot)
    }

    /// The number of handles. O(1).
    pub fn len(&self) -> usize
        ensures { result ≡ length self.now.handles }
    {
        self.rows
    }

    /// Whether there are no handles. O(1).
    pub fn is_empty(&self) -> bool
        ensures { IsTrue result ↔ (length self.now.handles ≡ 0) }
    {
        self.len() == 0
    }
}
