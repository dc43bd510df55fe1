//! A store with one cell in hand.
ghost use Rattle.std.specs.Prelude.{◌≡◌, ◌-◌, ◌<◌, ◌≤◌, ◌∷◌, [], length, All, Some, IsTrue, IsFalse, IfSome, Contains};
ghost use Rattle.std.specs.Prelude.{MatchOption};
ghost use Rattle.crack_arena.specs.Arena.{read, times, slots, IsFirstAt, IsAbsent, same_handle};
ghost use Rattle.crack_index.specs.Marks.{next_mark};
ghost use Rattle.crack_state.specs.State.{IsIntact, live_rows};
ghost use Rattle.crack_state.specs.Steps.{hand_key, piece_start, piece_end, IsDoomed, pushed_on};
ghost use Rattle.crack_state.specs.Steps.{exchanged, appended, buried, bounds_above, returned};

use crate::Store;
use crate::inside::Inside;
use crate::search::note_if_doomed;
use crate::steps::{free_hand, give_back, put_last};
use crack_arena::Handle;
use crack_index::Mark;
use crack_row::{Key, Row};
use crack_state::MergeReport;
use std::marker::Model;

/// The bound above the row in hand, kept from the last look-up: the next step up continues from it.
#[derive(Clone, Copy)]
pub(crate) enum Near {
    /// The bound isn't kept: the next step looks it up.
    Unsought,
    /// The least bound above the row's key; `None` if no bound is above it.
    Above(Option<Mark>),
}

/// A store while a merge moves a row. That row is in hand: its cell is in neither the column nor the pending
/// insertions, and the column keeps its tag aside, after the last place. So a step exchanges two of the column's tags
/// and reads no generation. A `Carrying` can't be dropped: the last step of a carry or a pull returns the store.
pub struct Carrying {
    pub(crate) inside: Inside,
    pub(crate) near: Near,
}

impl Model for Carrying {
    ghost use Rattle.crack_state.specs.State.{Carried};
    ghost use Rattle.crack_store.specs.Keeps.{KeepsHand};
    ghost use Rattle.crack_store.specs.Hand.{carried_of};

    ghost Value = { Carried };

    ghost view = { λ c. carried_of c.inside };

    ghost invariant = { λ c. KeepsHand c.inside c.near };
}

impl Carrying {
    /// States the invariant of every store with a cell in hand, and does nothing.
    pub fn recall_invariant(&self)
        ensures { IsIntact self.now.store (self.now.hand ∷ []) }
    {
        let _ = &self.inside;
    }

    /// The handle in hand, and the row that it reads. O(1).
    pub fn hand(&self) -> (Handle<Row>, Row)
        ensures handle { result.0 ≡ self.now.hand }
        ensures row { read self.now.store.cells self.now.hand ≡ Some result.1 }
    {
        let hand = self.inside.column.aside();
        match self.inside.arena.get(hand) {
            Some(row) => (hand, *row),
            None => unreachable!(),
        }
    }

    /// Whether this handle is in hand. O(1); reads no cell.
    pub fn holds(&self, handle: Handle<Row>) -> bool
        ensures { result ≡ same_handle self.now.hand handle }
    {
        self.inside.column.aside() == handle
    }

    /// The number of rows in the column, including doomed ones, without the row in hand. O(1).
    pub fn column_len(&self) -> usize
        ensures { result ≡ length self.now.store.column }
    {
        self.inside.column.len()
    }

    /// What merges have counted since the store was made. O(1).
    pub fn tally(&self) -> MergeReport
        ensures { result ≡ self.now.store.tally }
    {
        self.inside.tally
    }

    /// Whether the row in hand is doomed. O(1).
    pub fn is_doomed(&self) -> bool
        ensures doomed { IsTrue result → IsDoomed self.now }
        ensures kept { IsFalse result → times self.now.hand.slot (slots self.now.store.pending_out) ≡ 0 }
    {
        let slot = self.inside.column.aside_slot();
        self.inside.pending_out.contains(slot)
    }

    /// The place of the handle in the column; `None` if it isn't there. O(rows of the column).
    pub fn place_of(&self, handle: Handle<Row>) -> Option<usize>
        ensures { MatchOption result (IsAbsent self.now.store.column handle) (IsFirstAt self.now.store.column handle) }
    {
        self.inside.column.place_of(handle)
    }

    /// The key of the row in hand. O(1); reads no cell if the column remembers the row.
    pub fn hand_key(&self) -> Key
        ensures { result.0 ≡ hand_key self.now }
    {
        self.inside.column.aside_key(&self.inside.arena)
    }

    /// The least bound above the key of the row in hand; `None` if no bound is above it. O(1) after a step up
    /// (`push_on`), else O(log bounds).
    #[inline]
    pub(crate) fn bound_above(&self) -> Option<Mark>
        ensures { result ≡ next_mark (hand_key self.now) self.now.store.marks }
    {
        match self.near {
            Near::Above(mark) => mark,
            Near::Unsought => self.inside.index.bound_above(self.hand_key()),
        }
    }

    /// The place where the piece ends to which the key of the row in hand belongs (the hand's own piece). O(1) after a
    /// step up (`push_on`), else O(log bounds).
    pub fn piece_ends_at(&self) -> usize
        ensures value { result ≡ piece_end self.now.store (hand_key self.now) }
        ensures within { result ≤ length self.now.store.column }
    {
        let _ = &self.inside;
        match self.bound_above() {
            Some(mark) => mark.position,
            None => self.inside.column.len(),
        }
    }

    /// A step up: puts the row in hand at the place where its own piece ends, which must be in the column, and
    /// takes the row that was there into the hand. Each bound at that place above the key of the row put there
    /// moves up by one. O(1 + bounds at that place); the first step up O(log bounds) more.
    pub fn push_on(&mut self)
        requires { piece_end self.old.store (hand_key self.old) < length self.old.store.column }
        ensures after { self.new ≡ pushed_on self.old }
        ensures live { live_rows self.new.store ≡ live_rows self.old.store }
        ensures nearer { bounds_above (hand_key self.new) self.new.store.marks < bounds_above (hand_key self.old)
            self.old.store.marks }
    {
        let Some(mark) = self.bound_above() else {
            unreachable!();
        };
        let next = self.inside.index.raise_past(mark);
        self.inside.column.exchange(mark.position);
        self.near = Near::Above(next);
        self.inside.tally.moved = self.inside.tally.moved.saturating_add(1);
    }

    /// Puts the row in hand at a place of its own piece, and takes the row that was there into the hand. No bound
    /// moves. O(1); takes no memory.
    pub fn exchange(&mut self, place: usize)
        requires from { piece_start self.old.store (hand_key self.old) ≤ place }
        requires to { place < piece_end self.old.store (hand_key self.old) }
        ensures after { self.new ≡ exchanged place self.old }
        ensures live { live_rows self.new.store ≡ live_rows self.old.store }
    {
        note_if_doomed(
            &mut self.inside.notes,
            &self.inside.pending_out,
            self.inside.column.aside_slot(),
            place,
        );
        self.inside.column.exchange(place);
        self.inside.tally.pulled = self.inside.tally.pulled.saturating_add(1);
    }

    /// Buries the row in hand, which must be doomed: frees its cell, and removes it from the pending deletions.
    /// Returns the store, with no row in hand. Amortised O(1).
    pub fn bury(self) -> Store
        requires { IsDoomed self }
        ensures after { result ≡ buried self }
        ensures live { live_rows result ≡ live_rows self.store }
    {
        let Carrying {
            mut inside,
            near: _,
        } = self;
        free_hand(&mut inside);
        Store { inside }
    }

    /// Evicts the row in hand, which must not be doomed: it becomes the last pending insertion, for which there must
    /// be room (`make_room`). Returns the store, with no row in hand. Takes no memory. O(1).
    pub fn put_back(self) -> Store
        requires room { 0 < self.store.in_room }
        requires kept { times self.hand.slot (slots self.store.pending_out) ≡ 0 }
        ensures after { result ≡ returned self }
        ensures live { live_rows result ≡ live_rows self.store }
    {
        let Carrying {
            mut inside,
            near: _,
        } = self;
        give_back(&mut inside);
        Store { inside }
    }

    /// Appends the row in hand, which must not be doomed, to the column. Its own piece must end where the column does,
    /// and the column must have room (`make_room`). Each bound at the column's end that is above the row's key moves
    /// up by one. Returns the store, with no row in hand. O(1 + bounds at that place); without a step up before, O(log
    /// bounds) more.
    pub fn append(self) -> Store
        requires ends { piece_end self.store (hand_key self) ≡ length self.store.column }
        requires room { 0 < self.store.column_room }
        requires kept { times self.hand.slot (slots self.store.pending_out) ≡ 0 }
        ensures after { result ≡ appended self }
        ensures live { live_rows result ≡ live_rows self.store }
    {
        let above = self.bound_above();
        let Carrying {
            mut inside,
            near: _,
        } = self;
        put_last(&mut inside, above);
        Store { inside }
    }
}
