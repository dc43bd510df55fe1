//! Steps from one row in hand to the next, in one call: the one is appended, buried or put back, and the other is
//! taken into the hand. The store isn't moved in memory.
ghost use Rattle.std.specs.Prelude.{◌≡◌, ◌<◌, ◌≤◌, ◌↔◌, IsTrue, length, OnOk, IfErr};
ghost use Rattle.crack_arena.specs.Arena.{times, slots, StandsAt};
ghost use Rattle.crack_arena.specs.Rows.{keys_at};
ghost use Rattle.crack_pending.specs.Pending.{Finds};
ghost use Rattle.crack_state.specs.State.{live_rows};
ghost use Rattle.crack_state.specs.Steps.{hand_key, piece_end, IsDoomed, lifted, lifted_last, appended, buried};
ghost use Rattle.crack_state.specs.Steps.{SameButRoom, returned};

use crate::Carrying;
use crate::steps::{free_hand, give_back, put_last, take_in, take_last};
use crack_arena::Handle;
use crack_row::{KeyRange, Refusal, Row};

impl Carrying {
    /// Makes room for two more rows in the column and two more pending insertions: for the hand and one more row.
    /// O(1), except for growth. Refused with `OutOfMemory` if no memory is found; then nothing has changed.
    pub fn make_room(&mut self) -> Result<(), Refusal>
        ensures same { SameButRoom self.old.store self.new.store }
        ensures hand { self.new.hand ≡ self.old.hand }
        ensures column { OnOk result (1 < self.new.store.column_room) }
        ensures pending_in { OnOk result (1 < self.new.store.in_room) }
        ensures column_kept { self.old.store.column_room ≤ self.new.store.column_room }
        ensures pending_in_kept { self.old.store.in_room ≤ self.new.store.in_room }
        ensures err { IfErr result (λ e. e ≡ Refusal.OutOfMemory) }
    {
        self.inside.column.reserve(2)?;
        // Room that was made before stays until a row is evicted.
        if self.inside.in_room < 2 {
            self.inside.pending_in.reserve(2)?;
            self.inside.in_room = 2;
        }
        Ok(())
    }

    /// Appends the row in hand, as `append` does, and takes the pending insertion at this place into the hand, as
    /// `lift` does. The column must have room for both rows (`make_room`). Costs what the two cost together, and
    /// doesn't move the store in memory.
    pub fn append_and_lift(&mut self, place: usize)
        requires ends { piece_end self.old.store (hand_key self.old) ≡ length self.old.store.column }
        requires room { 1 < self.old.store.column_room }
        requires kept { times self.old.hand.slot (slots self.old.store.pending_out) ≡ 0 }
        requires there { place < length self.old.store.pending_in }
        ensures after { self.new ≡ lifted place (appended self.old) }
        ensures live { live_rows self.new.store ≡ live_rows self.old.store }
    {
        let above = self.bound_above();
        put_last(&mut self.inside, above);
        self.near = take_in(&mut self.inside, place);
    }

    /// Buries the row in hand, as `bury` does, and takes the pending insertion at this place into the hand, as `lift`
    /// does. Costs what the two cost together, and doesn't move the store in memory.
    pub fn bury_and_lift(&mut self, place: usize)
        requires doomed { IsDoomed self.old }
        requires there { place < length self.old.store.pending_in }
        ensures after { self.new ≡ lifted place (buried self.old) }
        ensures live { live_rows self.new.store ≡ live_rows self.old.store }
    {
        free_hand(&mut self.inside);
        self.near = take_in(&mut self.inside, place);
    }

    /// Buries the row in hand, as `bury` does, and takes the column's last row into the hand, as `lift_last` does.
    /// Costs what the two cost together, and doesn't move the store in memory.
    pub fn bury_and_lift_last(&mut self)
        requires doomed { IsDoomed self.old }
        requires some { 0 < length self.old.store.column }
        ensures after { self.new ≡ lifted_last (buried self.old) }
        ensures live { live_rows self.new.store ≡ live_rows self.old.store }
    {
        let inside = &mut self.inside;
        free_hand(inside);
        self.near = take_last(inside);
    }

    /// Evicts the row in hand, as `put_back` does, so that it is the last pending insertion; then takes the pending
    /// insertion at this place into the hand, as `lift` does. Costs what the two cost together, and doesn't move the
    /// store in memory.
    pub fn put_back_and_lift(&mut self, place: usize)
        requires room { 0 < self.old.store.in_room }
        requires kept { times self.old.hand.slot (slots self.old.store.pending_out) ≡ 0 }
        requires there { place ≤ length self.old.store.pending_in }
        ensures after { self.new ≡ lifted place (returned self.old) }
        ensures live { live_rows self.new.store ≡ live_rows self.old.store }
    {
        give_back(&mut self.inside);
        self.near = take_in(&mut self.inside, place);
    }

    /// The place of the first pending insertion at or after `from` whose key is in the range; `None` if there is none.
    /// If the range has all of the partition's keys, the place is `from` itself, if an insertion is there, and none is
    /// looked at. Otherwise O(1) for each that it passes, and the next lift starts from the place found, so that
    /// finding and lifting a row is one pass.
    pub fn seek_in(&mut self, range: KeyRange, from: usize) -> Option<usize>
        ensures finds { Finds range (keys_at self.old.store.cells self.old.store.pending_in) from result }
        ensures same { self.new ≡ self.old }
    {
        let inside = &mut self.inside;
        if holds_all(range, inside.keys) {
            if from < inside.pending_in.len() {
                return Some(from);
            }
            return None;
        }
        inside.pending_in.seek_in(range, from, &inside.arena)
    }

    /// The place of the first pending deletion at or after `from` whose key is in the range; `None` if there is none.
    /// O(1) for each that it passes. The next call of `doomed` starts from the place found, so that finding and
    /// reading a pending deletion is one pass.
    pub fn seek_out(&mut self, range: KeyRange, from: usize) -> Option<usize>
        ensures finds { Finds range (keys_at self.old.store.cells self.old.store.pending_out) from result }
        ensures same { self.new ≡ self.old }
    {
        let inside = &mut self.inside;
        inside.pending_out.seek_in(range, from, &inside.arena)
    }

    /// The pending deletion at this place, in order of arrival. O(1) if the list has no holes, or at the place that
    /// `seek_out` found last; else O(pending deletions and holes).
    pub fn doomed(&self, place: usize) -> Handle<Row>
        requires { place < length self.now.store.pending_out }
        ensures { StandsAt self.now.store.pending_out place result }
    {
        self.inside.pending_out.at(place)
    }

    /// The number of pending insertions. O(1).
    pub fn pending_in(&self) -> usize
        ensures { result ≡ length self.now.store.pending_in }
    {
        self.inside.pending_in.len()
    }
}

/// Whether all of `keys` are in the range.
fn holds_all(range: KeyRange, keys: KeyRange) -> bool
    ensures { IsTrue result ↔ ((range.low ≤ keys.low) × (keys.high ≤ range.high)) }
{
    range.low() <= keys.low() && keys.high() <= range.high()
}
