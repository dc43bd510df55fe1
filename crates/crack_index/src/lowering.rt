//! A walk over the marks of a tree, from the lowest up, that moves each mark to the place that a visitor returns.
ghost use Rattle.std.specs.Prelude.{◌≡◌, ◌∷◌, [], length};
ghost use Rattle.crack_index.specs.Marks.{Rising};
ghost use Rattle.crack_index.specs.Keeps.{height_of};
ghost use Rattle.crack_index.specs.Places.{Places};
ghost use Rattle.crack_index.specs.Trees.{marks_in_tree};

use crate::tree::{MarkNode, MarkTree};
use crate::{Mark, Placer};

/// Moves each mark of a tree, from the lowest up, to the place that the visitor returns for it. No mark is moved to
/// before `least`, or to before the new place of the mark below it: it gets that place instead. Returns the new place
/// of the highest mark, or `least` if the tree is empty. O(marks).
pub(crate) fn place_up<V: Placer>(link: &mut MarkTree, least: usize, visitor: &mut V) -> usize
    requires ready { V.is_ready visitor.old }
    ensures places { Places V.places least (marks_in_tree link.old) visitor.old (marks_in_tree link.new) visitor.new
        result }
    ensures rising { Rising (marks_in_tree link.old) → Rising (marks_in_tree link.new) }
    ensures length { length (marks_in_tree link.new) ≡ length (marks_in_tree link.old) }
    ensures height { height_of link.new ≡ height_of link.old }
    ensures ready { V.is_ready visitor.new }
{
    let Some(node) = link else {
        return least;
    };
    let MarkNode {
        mark,
        left,
        right,
        ..
    } = &mut **node;
    let below = place_up(left, least, visitor);
    let here = place_mark(mark, below, visitor);
    place_up(right, here, visitor)
}

/// Moves one mark to the place that the visitor returns, or to `least` if that place is before `least`. Returns the
/// mark's new place.
fn place_mark<V: Placer>(mark: &mut Mark, least: usize, visitor: &mut V) -> usize
    requires ready { V.is_ready visitor.old }
    ensures places { Places V.places least (mark.old ∷ []) visitor.old (mark.new ∷ []) visitor.new result }
    ensures ready { V.is_ready visitor.new }
{
    let here = visitor.place(*mark).max(least);
    mark.position = here;
    here
}
