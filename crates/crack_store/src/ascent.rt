//! The visitors that move the hand up or down on a walk over the bounds. They hold the column meanwhile.
ghost use Rattle.std.specs.Prelude.{◌≤◌, IsTrue};
ghost use Rattle.crack_column.specs.Column.{first_aside};
ghost use Rattle.crack_state.specs.Steps.{ceiling_of, hand_key, piece_start, PushesOn, PullsBack};
ghost use Rattle.crack_store.specs.Inside.{lists_of};
ghost use Rattle.crack_store.specs.Keeps.{HasHand, KeepsHand};
ghost use Rattle.crack_store.specs.Hand.{carried_of};
ghost use Rattle.crack_store.specs.Ways.{IsKnownBelow};

use crate::carrying::Near;
use crate::inside::Inside;
use crate::notes::Notes;
use crate::search::note_if_doomed;
use crack_column::HeldColumn;
use crack_index::Visitor;
use crack_pending::PendingOut;
use crack_row::Bound;

/// The visitor that pushes the hand on from place to place, below a ceiling if there is one.
#[derive(Drop)]
pub(crate) struct Ascent<'a> {
    column: HeldColumn,
    pending_out: &'a PendingOut,
    ceiling: Option<Bound>,
    /// The number of rows moved, as in the store's tally.
    moved: u64,
}

impl Ascent<'_> {
    /// Whether the remembered key of the row in hand is below the ceiling: true if there is no ceiling, false if no
    /// key is remembered. O(1); reads no cell.
    #[inline(always)]
    fn is_below(&self) -> bool
        ensures { IsTrue result → IsKnownBelow self.now.ceiling (first_aside self.now.column).memory }
    {
        match self.ceiling {
            Some(bound) => self.column.memory().is_known_below(bound),
            None => true,
        }
    }
}

impl Visitor for Ascent<'_> {
    ghost use Rattle.std.specs.Prelude.{⊤};
    ghost use Rattle.crack_store.specs.Ways.{Ascends};

    ghost is_ready = { λ _. ⊤ };

    ghost visits = { Ascends };

    /// Pushes the hand on to the place, and returns true: the row that was there is then in hand. Returns false, and
    /// changes nothing, if the hand is doomed, if it isn't known to be below the ceiling, or if the place isn't in the
    /// column.
    #[inline(always)]
    fn visit(&mut self, place: usize) -> bool {
        if self.pending_out.contains(self.column.slot()) {
            return false;
        }
        if place >= self.column.len() {
            return false;
        }
        if !self.is_below() {
            return false;
        }
        self.column.exchange(place);
        self.moved = self.moved.saturating_add(1);
        true
    }
}

/// Pushes the hand on from place to place as long as it isn't doomed, is known to be below the ceiling, if any, and
/// its own piece ends before the column does. Returns the least bound above the key of the row then in hand. O(log
/// bounds + bounds at the places on its way); takes no memory.
#[inline(always)]
pub(crate) fn ascend(inside: &mut Inside, ceiling: Option<Bound>) -> Near
    requires { HasHand inside.old }
    ensures pushes { PushesOn (ceiling_of ceiling) (carried_of inside.old) (carried_of inside.new) }
    ensures kept { KeepsHand inside.new result }
{
    let key = inside.column.aside_key(&inside.arena);
    let mut ascent = Ascent {
        column: inside.column.hold(),
        pending_out: &inside.pending_out,
        ceiling,
        moved: inside.tally.moved,
    };
    let above = inside.index.climb(key, &mut ascent);
    let Ascent { column, moved, .. } = ascent;
    inside.column = column.release();
    inside.tally.moved = moved;
    Near::Above(above)
}

/// The visitor that pulls the hand back from place to place, but not below `place`.
#[derive(Drop)]
pub(crate) struct Descent<'a> {
    column: HeldColumn,
    notes: Notes,
    pending_out: &'a PendingOut,
    place: usize,
    /// The number of rows pulled, as in the store's tally.
    pulled: u64,
}

impl Visitor for Descent<'_> {
    ghost use Rattle.std.specs.Prelude.{⊤};
    ghost use Rattle.crack_store.specs.Ways.{Draws};

    ghost is_ready = { λ _. ⊤ };

    ghost visits = { Draws };

    /// Pulls the hand back to the place, and returns true: the row that was there is then in hand. If the row that was
    /// in hand is doomed, its new place is noted. Returns false, and changes nothing, if the place is before the field
    /// `place` or isn't in the column.
    #[inline(always)]
    fn visit(&mut self, place: usize) -> bool {
        if place < self.place {
            return false;
        }
        if place >= self.column.len() {
            return false;
        }
        note_if_doomed(&mut self.notes, self.pending_out, self.column.slot(), place);
        self.column.exchange(place);
        self.pulled = self.pulled.saturating_add(1);
        true
    }
}

/// Pulls the hand back from place to place as long as its own piece begins after `place`. Each row that was in hand
/// takes the last place before its own piece. O(log bounds + bounds at the places on its way); takes no memory.
#[inline(always)]
pub(crate) fn descend(inside: &mut Inside, place: usize)
    requires { HasHand inside.old }
    ensures pulls { PullsBack place (carried_of inside.old) (carried_of inside.new) }
    ensures ends { piece_start (lists_of inside.new) (hand_key (carried_of inside.new)) ≤ place }
    ensures kept { HasHand inside.new }
{
    let key = inside.column.aside_key(&inside.arena);
    let mut descent = Descent {
        column: inside.column.hold(),
        notes: inside.notes.take(),
        pending_out: &inside.pending_out,
        place,
        pulled: inside.tally.pulled,
    };
    inside.index.descend(key, &mut descent);
    let Descent {
        column,
        notes,
        pulled,
        ..
    } = descent;
    inside.column = column.release();
    inside.notes = notes;
    inside.tally.pulled = pulled;
}
