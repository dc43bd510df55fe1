//! A walk over the marks of a tree, from the highest down, that raises each mark as far as a visitor returns.
ghost use Rattle.std.specs.Prelude.{◌≡◌, ◌+◌, ◌≤◌, ◌∷◌, [], reverse, length, All};
ghost use Rattle.crack_index.specs.Marks.{Rising};
ghost use Rattle.crack_index.specs.Keeps.{height_of};
ghost use Rattle.crack_index.specs.Raises.{Raises};
ghost use Rattle.crack_index.specs.Trees.{marks_in_tree};

use crate::tree::{MarkNode, MarkTree};
use crate::{Mark, Raiser};

/// Moves the marks of a tree up, from the highest mark down. Each mark rises by the number of places that the visitor
/// returns, but at most by `most`, and at most as far as the mark above it rose. Once a mark doesn't rise, the visitor
/// isn't called for the marks below it, and they stay where they are. Returns how far a mark below the whole tree may
/// rise: as far as the tree's lowest mark rose, or `most` if the tree is empty. O(marks that rise + log marks).
pub(crate) fn raise_down<V: Raiser>(link: &mut MarkTree, most: usize, visitor: &mut V) -> usize
    requires small { All (λ m. m.position + most ≤ usize.MAX) (marks_in_tree link.old) }
    requires ready { V.is_ready visitor.old }
    ensures raises { Raises V.rises most (reverse (marks_in_tree link.old)) visitor.old
        (reverse (marks_in_tree link.new)) visitor.new result }
    ensures rising { Rising (marks_in_tree link.old) → Rising (marks_in_tree link.new) }
    ensures length { length (marks_in_tree link.new) ≡ length (marks_in_tree link.old) }
    ensures height { height_of link.new ≡ height_of link.old }
    ensures ready { V.is_ready visitor.new }
    ensures most { result ≤ most }
{
    if most == 0 {
        return 0;
    }
    let Some(node) = link else {
        return most;
    };
    let MarkNode {
        mark,
        left,
        right,
        ..
    } = &mut **node;
    let above = raise_down(right, most, visitor);
    let here = raise_mark(mark, above, visitor);
    raise_down(left, here, visitor)
}

/// Moves one mark up by the number of places that the visitor returns, but at most by `most`. If `most` is 0, the
/// visitor isn't called. Returns how far the mark rose.
fn raise_mark<V: Raiser>(mark: &mut Mark, most: usize, visitor: &mut V) -> usize
    requires small { mark.old.position + most ≤ usize.MAX }
    requires ready { V.is_ready visitor.old }
    ensures raises { Raises V.rises most (mark.old ∷ []) visitor.old (mark.new ∷ []) visitor.new result }
    ensures ready { V.is_ready visitor.new }
    ensures most { result ≤ most }
{
    if most == 0 {
        return 0;
    }
    let rise = visitor.rise(*mark).min(most);
    mark.position += rise;
    rise
}
