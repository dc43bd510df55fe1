//! Passes over the bounds of an index, in search of bounds whose two pieces hold few rows together.
ghost use Rattle.std.specs.Prelude.{◌≡◌, ℕ, ◌<◌, ◌≤◌, ◌-◌, ◌↔◌, List, ◌∷◌, ◌++◌, All, IsTrue};
ghost use Rattle.std.specs.Option.{option_map};
ghost use Rattle.crack_row.specs.declared.Key.{Key};
ghost use Rattle.crack_index.specs.Finds.{AreAhead, found_from, found_or};
ghost use Rattle.crack_index.specs.Passes.{next_few, stopped_at};
ghost use Rattle.crack_index.specs.Trees.{marks_in_tree};
ghost use Rattle.crack_index.specs.declared.mark.Mark.{Mark};

use crate::Mark;
use crate::tree::{MarkNode, MarkTree};
use crack_row::{InnerBound, Key, KeyNumber};
use std::marker::Model;

/// A pass over the bounds of an index, the lowest first. It finds each bound whose two pieces, those below and above
/// it, hold few rows together.
#[derive(Drop)]
pub struct Pass {
    /// The pass has met the bounds up to this number.
    after: KeyNumber,
    /// The place where the piece below the next bound begins.
    from: usize,
    /// How many rows count as few.
    rows: usize,
    /// How many more bounds the pass may meet.
    bounds: usize,
}

impl Model for Pass {
    ghost use Rattle.crack_index.specs.Passes.{PassProgress};

    ghost Value = { PassProgress };

    ghost view = { λ p. record { after = p.after; from = p.from; rows = p.rows; bounds = p.bounds } };
}

impl Pass {
    /// Makes a pass over at most `bounds` bounds above the key `after`. At most `rows` rows count as few. The piece
    /// that contains the key `after` begins at the place `from`.
    pub(crate) fn new(after: Key, from: usize, rows: usize, bounds: usize) -> Pass
        ensures { result ≡ record { after = after.0; from = from; rows = rows; bounds = bounds } }
    {
        Pass {
            after: after.number(),
            from,
            rows,
            bounds,
        }
    }

    /// The key up to which the pass has met the bounds, if it may meet no more; a later pass can begin there. `None`
    /// if the pass may still meet bounds. O(1).
    pub fn stopped(&self) -> Option<Key>
        ensures { option_map (λ (k : Key). k.0) result ≡ stopped_at self.now }
    {
        if self.bounds == 0 {
            Some(Key::from_number(self.after))
        } else {
            None
        }
    }

    /// The next bound whose two pieces hold few rows together, in a column of `len` rows, or `None` if no bound is
    /// left or the pass may meet no more. The bounds are those of the tree `link`. To go on with the pass, the caller
    /// must remove the bound. O(log marks), and a step for each bound that the pass meets.
    pub(crate) fn next_few(&mut self, link: &MarkTree, len: usize) -> Option<InnerBound>
        ensures { (result, self.new) ≡ next_few len self.old (marks_in_tree link.now) }
    {
        let mut last = None;
        let has_halted = meet_all(link, self, &mut last);
        let Some(mark) = last else {
            return None;
        };
        if has_halted || self.are_few(len) {
            return Some(mark.bound);
        }
        self.from = mark.position;
        None
    }

    /// Whether at most as many rows as count as few lie from the start of the piece below the next bound up to the
    /// place `to`.
    fn are_few(&self, to: usize) -> bool
        ensures { IsTrue result ↔ (to - self.now.from ≤ self.now.rows) }
    {
        to.saturating_sub(self.from) <= self.rows
    }

    /// Whether the mark's bound is above the number up to which the pass has met the bounds.
    fn is_before(&self, mark: Mark) -> bool
        ensures { IsTrue result ↔ (self.now.after < mark.bound.0) }
    {
        self.after < mark.bound.number()
    }

    /// Goes on to `mark`, the next mark. `last` is the mark that was met before it, whose upper piece ends at `mark`.
    /// The pass halts, and `mark` isn't met, in two cases: the two pieces of the bound of `last` hold few rows
    /// together, so that it is found; or the pass may meet no more bounds, and then `last` becomes `None`. Otherwise
    /// `mark` is met, and `last` becomes `mark`. Returns whether the pass halts.
    fn meet(&mut self, last: &mut Option<Mark>, mark: Mark) -> bool
        requires { self.old.after < mark.bound.0 }
        ensures found { (len : ℕ) (ms : List Mark)
            → found_from len last.old self.old (mark ∷ ms) ≡ found_or result len last.new self.new ms }
        ensures after { self.new.after ≤ mark.bound.0 }
    {
        if let Some(before) = *last {
            if self.are_few(mark.position) {
                return true;
            }
            self.from = before.position;
        }
        if self.bounds == 0 {
            *last = None;
            return true;
        }
        self.after = mark.bound.number();
        self.bounds -= 1;
        *last = Some(mark);
        false
    }
}

/// Meets the marks of this tree that the pass hasn't met, the lowest first, each as `Pass::meet` does, until the pass
/// halts. `last` is the mark that the pass met last, if any, and changes as `Pass::meet` says. Returns whether the
/// pass halted. O(log marks), and a step for each mark that it meets.
fn meet_all(link: &MarkTree, pass: &mut Pass, last: &mut Option<Mark>) -> bool
    ensures found { (len : ℕ) (ms : List Mark) → AreAhead last.old pass.old (marks_in_tree link.now)
        → found_from len last.old pass.old (marks_in_tree link.now ++ ms) ≡ found_or result len last.new pass.new ms }
    ensures after { (bound : ℕ) → pass.old.after < bound → All (λ m. m.bound.0 < bound) (marks_in_tree link.now)
        → pass.new.after < bound }
{
    let Some(node) = link else {
        return false;
    };
    let MarkNode {
        mark,
        left,
        right,
        ..
    } = &**node;
    if pass.is_before(*mark) {
        if meet_all(left, pass, last) {
            return true;
        }
        if pass.meet(last, *mark) {
            return true;
        }
    }
    meet_all(right, pass, last)
}
