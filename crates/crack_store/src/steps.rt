//! The steps between the lists and the hand, inside a store. The public steps by value and those by reference share
//! them.
ghost use Rattle.std.specs.Prelude.{◌≡◌, ◌<◌, [], length, All, IfSome, Contains};
ghost use Rattle.crack_arena.specs.Arena.{times, slots};
ghost use Rattle.crack_index.specs.Marks.{next_mark};
ghost use Rattle.crack_state.specs.State.{live_rows};
ghost use Rattle.crack_state.specs.Steps.{hand_key, piece_end, IsDoomed, lifted, lifted_last, appended, buried};
ghost use Rattle.crack_state.specs.Steps.{raise_next as next_raised, returned};
ghost use Rattle.crack_store.specs.Keeps.{KeepsIntact, HasHand, KeepsHand};
ghost use Rattle.crack_store.specs.Inside.{lists_of};
ghost use Rattle.crack_store.specs.Hand.{hand_of, carried_of};

use crate::carrying::Near;
use crate::inside::Inside;
use crate::points::row_at;
use crack_arena::Remembered;
use crack_index::{CrackerIndex, Mark};

/// Takes the pending insertion at this place, in order of arrival, into the hand; the column must have room for its
/// row. The list frees its memory if it becomes empty. Returns `Near::Unsought`: the bound above the hand isn't looked
/// up. Amortised O(1) at the first place; k calls for rising places take O(pending insertions + k). Takes no memory.
pub(crate) fn take_in(inside: &mut Inside, place: usize) -> Near
    requires intact { KeepsIntact inside.old [] }
    requires there { place < length inside.old.pending_in.handles }
    requires room { 0 < inside.old.column.room }
    ensures after { carried_of inside.new ≡ lifted place (lists_of inside.old) }
    ensures kept { KeepsHand inside.new result }
{
    let hand = inside.pending_in.take(place);
    inside.pending_in.shrink_if_empty(inside.in_room);
    inside.tally.insertions = inside.tally.insertions.saturating_add(1);
    let row = row_at(&inside.arena, hand);
    inside.column.set_aside(hand, Remembered::of(row));
    Near::Unsought
}

/// Takes the column's last row into the hand, with what is remembered of it. Each bound after the row moves down by
/// one. Returns `Near::Unsought`: the bound above the hand isn't looked up. O(log bounds + bounds at that place);
/// takes no memory.
pub(crate) fn take_last(inside: &mut Inside) -> Near
    requires intact { KeepsIntact inside.old [] }
    requires some { 0 < length inside.old.column.handles }
    ensures after { carried_of inside.new ≡ lifted_last (lists_of inside.old) }
    ensures kept { KeepsHand inside.new result }
{
    let len = inside.column.len();
    inside.index.lower_at(len);
    inside.column.pop_aside();
    Near::Unsought
}

/// Buries the hand, which is doomed: frees its cell, and removes it from the pending deletions, whose list frees its
/// memory if it becomes empty. Amortised O(1).
pub(crate) fn free_hand(inside: &mut Inside)
    requires hand { HasHand inside.old }
    requires doomed { IsDoomed (carried_of inside.old) }
    ensures after { lists_of inside.new ≡ buried (carried_of inside.old) }
    ensures live { live_rows (lists_of inside.new) ≡ live_rows (lists_of inside.old) }
    ensures intact { KeepsIntact inside.new [] }
{
    let hand = inside.column.aside();
    inside.pending_out.strike(hand);
    inside.pending_out.shrink_if_empty(0);
    let _ = inside.arena.free(hand);
    inside.tally.deletions = inside.tally.deletions.saturating_add(1);
}

/// Appends the hand to the column; its own piece must end where the column does. `above` is the least bound above its
/// key; that bound and the higher ones at the same place move up by one. If it is `None`, no bound moves. O(1 + bounds
/// at that place); takes no memory.
pub(crate) fn put_last(inside: &mut Inside, above: Option<Mark>)
    requires hand { HasHand inside.old }
    requires above { above ≡ next_mark (hand_key (carried_of inside.old)) inside.old.index.marks }
    requires ends { piece_end (lists_of inside.old) (hand_key (carried_of inside.old)) ≡
        length inside.old.column.handles }
    ensures after { lists_of inside.new ≡ appended (carried_of inside.old) }
    ensures intact { KeepsIntact inside.new [] }
{
    raise_next(&mut inside.index, above);
    inside.column.append_aside();
}

/// Makes the hand, which isn't doomed, the last pending insertion, for which there must be room. O(1); takes no
/// memory.
pub(crate) fn give_back(inside: &mut Inside)
    requires hand { HasHand inside.old }
    requires room { 0 < inside.old.in_room }
    requires kept { times (hand_of inside.old).slot (slots inside.old.pending_out.handles) ≡ 0 }
    ensures after { lists_of inside.new ≡ returned (carried_of inside.old) }
    ensures intact { KeepsIntact inside.new [] }
{
    let hand = inside.column.aside();
    let known = inside.column.aside_memory().or_read(&inside.arena, hand);
    inside.pending_in.push_remembered(hand, known);
    inside.in_room -= 1;
    inside.tally.evicted = inside.tally.evicted.saturating_add(1);
}

/// Moves the bound of `above`, and each higher bound at the same place, up by one; `above` is the least bound above a
/// key. If it is `None`, no bound moves.
fn raise_next(index: &mut CrackerIndex, above: Option<Mark>)
    requires there { IfSome above (λ m. Contains index.old.marks m) }
    requires small { All (λ m. m.position < usize.MAX) index.old.marks }
    ensures marks { index.new.marks ≡ next_raised above index.old.marks }
    ensures room { index.new.room ≡ index.old.room }
{
    if let Some(mark) = above {
        let _ = index.raise_past(mark);
    }
}
