//! Moves the hand from place to place, in one walk over the bounds.
ghost use Rattle.std.specs.Prelude.{◌≡◌, ◌≤◌, IsTrue, IsFalse, IfSome, MatchOption};
ghost use Rattle.crack_state.specs.Steps.{hand_key, piece_start, ceiling_of, IsBelow, PushesOn, PullsBack};
ghost use Rattle.crack_store.specs.Ends.{EndsBy};
ghost use Rattle.crack_store.specs.Goings.{GoesOn};

use crate::Carrying;
use crate::ascent::{ascend, descend};
use crate::carrying::Near;
use crack_row::Bound;

/// The rule that ends a carry.
#[derive(Clone, Copy)]
pub enum CarryEnd {
    /// The hand is doomed: it is buried.
    Buries,
    /// The hand's key is at or above the ceiling: its row is evicted.
    Evicts,
    /// The hand's own piece ends where the column does: the hand becomes the column's last row.
    Appends,
}

impl Carrying {
    /// Pushes the hand on until one of the rules of `CarryEnd` applies, and returns the first that does. `ceiling` is
    /// `None` for a carry without a ceiling. Has the result of repeated `push_on`, in one walk over the bounds. O(log
    /// bounds + bounds at the places on its way); takes no memory.
    pub fn carry_up(&mut self, ceiling: Option<Bound>) -> CarryEnd
        ensures pushes { PushesOn (ceiling_of ceiling) self.old self.new }
        ensures ends { EndsBy (ceiling_of ceiling) result self.new }
    {
        if let Some(end) = self.end_at_once(ceiling) {
            return end;
        }
        'walks: loop {
            self.recall_invariant();
            self.ascend(ceiling);
            if let Some(end) = self.carry_end(ceiling) {
                return end;
            }
            // The column doesn't remember the row in hand, or the row has the greatest key.
            self.push_on();
        }
    }

    /// Pulls the row in hand back until its own piece begins at or before `place`: each time it takes the last place
    /// before its own piece, and the row that was there comes into the hand. The bound where its piece begins, and the
    /// lower bounds at the same place, move down by one. Takes one walk over the bounds: O(log bounds + bounds at the
    /// places on its way); takes no memory.
    pub fn pull_down(&mut self, place: usize)
        ensures pulls { PullsBack place self.old self.new }
        ensures ends { piece_start self.new.store (hand_key self.new) ≤ place }
    {
        descend(&mut self.inside, place);
        self.near = Near::Unsought;
    }

    /// If there is no bound, the rule that ends the carry at once, before a step; `None` if there are bounds. O(1).
    #[inline(always)]
    fn end_at_once(&mut self, ceiling: Option<Bound>) -> Option<CarryEnd>
        ensures ends { IfSome result (λ end. EndsBy (ceiling_of ceiling) end self.old) }
        ensures same { self.new ≡ self.old }
    {
        if !self.inside.index.is_empty() {
            return None;
        }
        self.near = Near::Above(None);
        self.carry_end(ceiling)
    }

    /// Pushes the hand on as long as what the column remembers of its row shows that no rule ends its carry.
    #[inline(always)]
    fn ascend(&mut self, ceiling: Option<Bound>)
        ensures { PushesOn (ceiling_of ceiling) self.old self.new }
    {
        self.near = ascend(&mut self.inside, ceiling);
    }

    /// The first rule that ends the carry of the row in hand under the ceiling, if any; `None` if no rule ends it yet.
    /// O(1) after a step up, else O(log bounds).
    #[inline(always)]
    fn carry_end(&self, ceiling: Option<Bound>) -> Option<CarryEnd>
        ensures { MatchOption result (GoesOn (ceiling_of ceiling) self.now) (λ end. EndsBy (ceiling_of ceiling)
            end self.now) }
    {
        if self.is_doomed() {
            return Some(CarryEnd::Buries);
        }
        if self.is_at_ceiling(ceiling) {
            return Some(CarryEnd::Evicts);
        }
        if self.piece_ends_at() == self.column_len() {
            return Some(CarryEnd::Appends);
        }
        None
    }

    /// Whether the key of the hand is at or above the ceiling; false if there is no ceiling.
    fn is_at_ceiling(&self, ceiling: Option<Bound>) -> bool
        ensures at { IsTrue result → ¬ IsBelow (ceiling_of ceiling) (hand_key self.now) }
        ensures below { IsFalse result → IsBelow (ceiling_of ceiling) (hand_key self.now) }
    {
        match ceiling {
            Some(bound) => !bound.is_above(self.hand_key()),
            None => false,
        }
    }
}
