//! An AVL tree of pieces in rising order. Each node also stores the total of its subtree, so the total of a range
//! takes one step per level. A total is `UNKNOWN` if one of its sums is, or if 128 bits aren't enough.
ghost use Rattle.std.specs.Prelude.{◌≡◌, ◌+◌, ◌^◌, ◌<◌, ◌≤◌, max, length, [], ◌∷◌, ◌++◌, ℕ};
ghost use Rattle.crack_row.specs.declared.TheConstants.{GREATEST_BOUND};
ghost use Rattle.crack_index.specs.Sums.{IsEnd};
ghost use Rattle.crack_index.specs.Cuts.{StartsRise, sum_piece_at, next_at, put, given, dropped, span};
ghost use Rattle.crack_index.specs.Keeps.{IsTall, DifferByAtMost};
ghost use Rattle.crack_index.specs.SumTrees.{Summed, entries_in_tree};
ghost use Rattle.crack_index.specs.SumKeeps.{IsTotal, IsSummed, levels_of, inside, unknown_from};
ghost use Rattle.crack_index.specs.Rotations.{IsHeightOver};

use crate::amounts;
use crate::sums::UNKNOWN;
use crack_row::{BoundNumber, GREATEST_BOUND, KeyNumber};
use std::marker::Model;
use std::mem;

/// The start of a piece, and its sum.
pub(crate) type PieceSum = (KeyNumber, i128);

/// A tree of pieces, or `None` if there are no pieces.
pub(crate) type PieceTree = Option<Box<PieceNode>>;

/// A piece, the trees of the pieces below and above it, and the total of all of them. Contracts see all pieces in
/// order, and the height.
#[derive(Drop)]
pub(crate) struct PieceNode {
    entry: PieceSum,
    total: i128,
    height: u32,
    left: PieceTree,
    right: PieceTree,
}

impl Model for PieceNode {
    ghost use Rattle.std.specs.Prelude.{◌∷◌, ◌++◌, length};
    ghost use Rattle.crack_index.specs.SumTrees.{Summed, entries_in_tree};
    ghost use Rattle.crack_index.specs.SumKeeps.{IsSummed};
    ghost use Rattle.std.proofs.Common.{arith, length-append};

    ghost Value = { Summed };

    ghost view = { λ n. record {
      entries = entries_in_tree n.left ++ n.entry ∷ entries_in_tree n.right;
      height = n.height;
    } };

    ghost invariant = { λ n. IsSummed n.left n.entry n.right n.total n.height };

    ghost size = { λ s. length s.entries };

    ghost size_decreases = { λ n h. Prim.grind (arith, length-append) };
}

/// The parts of a node: its piece, and the trees of the pieces below and above it.
#[derive(Drop)]
struct PieceNodeParts {
    left: PieceTree,
    entry: PieceSum,
    right: PieceTree,
}

impl PieceNode {
    /// Makes a tree of one piece.
    pub(crate) fn leaf(entry: PieceSum) -> PieceNode
        ensures entries { result.entries ≡ entry ∷ [] }
        ensures height { result.height ≡ 1 }
    {
        PieceNode {
            entry,
            total: entry.1,
            height: 1,
            left: None,
            right: None,
        }
    }

    /// Takes the trees out of the node, and returns them with its piece. The node is left without children.
    fn open(&mut self) -> PieceNodeParts
        ensures entries { self.old.entries ≡ entries_in_tree result.left ++ result.entry ∷ entries_in_tree
            result.right }
        ensures high { self.old.height ≡ max (levels_of result.left) (levels_of result.right) + 1 }
        ensures even { DifferByAtMost 1 (levels_of result.left) (levels_of result.right) }
        ensures tall { IsTall (length self.old.entries) self.old.height }
    {
        let kept = self.entry;
        let PieceNode {
            entry,
            left,
            right,
            ..
        } = mem::replace(self, PieceNode::leaf(kept));
        PieceNodeParts { left, entry, right }
    }
}

/// The height of a tree, 0 if it is empty. O(1).
fn height(link: &PieceTree) -> u32
    ensures value { result ≡ levels_of link.now }
    ensures tall { IsTall (length (entries_in_tree link.now)) (levels_of link.now) }
{
    match link {
        None => 0,
        Some(node) => node.height,
    }
}

/// The total of a tree's sums, or `UNKNOWN`; 0 if the tree is empty. O(1).
#[inline]
fn total(link: &PieceTree) -> i128
    ensures { IsTotal (entries_in_tree link.now) result }
{
    match link {
        None => 0,
        Some(node) => node.total,
    }
}

/// The total of the subtrees `left` and `right` and of the piece between them, whose sum is `sum`. It is `UNKNOWN` if
/// one of the three is, or if 128 bits aren't enough. O(1).
#[inline]
fn total_over(left: &PieceTree, sum: i128, right: &PieceTree) -> i128
    ensures { (start : ℕ) → IsTotal (entries_in_tree left.now ++ (start, sum) ∷ entries_in_tree right.now) result }
{
    amounts::whole(amounts::whole(total(left), sum), total(right))
}

/// The piece that contains the key, if there is one. O(log pieces), one comparison per level.
pub(crate) fn last_at(link: &PieceTree, key: KeyNumber) -> Option<PieceSum>
    requires { StartsRise (entries_in_tree link.now) }
    ensures { result ≡ sum_piece_at key (entries_in_tree link.now) }
{
    let mut found = None;
    let mut here = link;
    'down: while let Some(node) = here {
        let PieceNode {
            entry,
            left,
            right,
            ..
        } = &**node;
        if entry.0 <= key {
            found = Some(*entry);
            here = right;
        } else {
            here = left;
        }
    }
    found
}

/// The start of the first piece that begins above the key, or `GREATEST_BOUND` if there is none. O(log pieces), one
/// comparison per level.
pub(crate) fn next_above(link: &PieceTree, key: KeyNumber) -> BoundNumber
    requires { StartsRise (entries_in_tree link.now) }
    ensures { result ≡ next_at key (entries_in_tree link.now) }
{
    let mut found = GREATEST_BOUND;
    let mut here = link;
    'down: while let Some(node) = here {
        let PieceNode {
            entry,
            left,
            right,
            ..
        } = &**node;
        if entry.0 <= key {
            here = right;
        } else {
            found = entry.0 as BoundNumber;
            here = left;
        }
    }
    found
}

/// The total of the pieces that begin at keys from `first` to `last`, or `UNKNOWN`; 0 if there are none. O(log
/// pieces), one step per level.
pub(crate) fn total_between(link: &PieceTree, first: KeyNumber, last: KeyNumber) -> i128
    requires { StartsRise (entries_in_tree link.now) }
    ensures { IsTotal (inside (span first last) (entries_in_tree link.now)) result }
{
    let mut here = link;
    'down: while let Some(node) = here {
        let PieceNode {
            entry,
            left,
            right,
            ..
        } = &**node;
        if entry.0 < first {
            here = right;
        } else if last < entry.0 {
            here = left;
        } else {
            let lower = amounts::whole(total_from(left, first), entry.1);
            return amounts::whole(lower, total_to(right, last));
        }
    }
    0
}

/// The total of the pieces that begin at or above `first`, or `UNKNOWN`; 0 if there are none. O(log pieces), one step
/// per level.
fn total_from(link: &PieceTree, first: KeyNumber) -> i128
    requires { StartsRise (entries_in_tree link.now) }
    ensures { IsTotal (inside (record { low = first; high = GREATEST_BOUND }) (entries_in_tree link.now)) result }
{
    let mut sum = 0;
    let mut here = link;
    'down: while let Some(node) = here {
        let PieceNode {
            entry,
            left,
            right,
            ..
        } = &**node;
        if entry.0 < first {
            here = right;
        } else {
            sum = amounts::whole(amounts::whole(entry.1, total(right)), sum);
            here = left;
        }
    }
    sum
}

/// The total of the pieces that begin at or below `last`, or `UNKNOWN`; 0 if there are none. O(log pieces), one step
/// per level.
fn total_to(link: &PieceTree, last: KeyNumber) -> i128
    requires { StartsRise (entries_in_tree link.now) }
    ensures { IsTotal (inside (span 0 last) (entries_in_tree link.now)) result }
{
    let mut sum = 0;
    let mut here = link;
    'down: while let Some(node) = here {
        let PieceNode {
            entry,
            left,
            right,
            ..
        } = &**node;
        if last < entry.0 {
            here = left;
        } else {
            sum = amounts::whole(amounts::whole(sum, total(left)), entry.1);
            here = right;
        }
    }
    sum
}

/// The start of the first piece that begins at or above `first` and whose sum is unknown, if there is one. O(log
/// pieces), as subtrees with a known total aren't searched; O(pieces) if a total doesn't fit into 128 bits.
pub(crate) fn first_unknown(link: &PieceTree, first: KeyNumber) -> Option<KeyNumber>
    requires { StartsRise (entries_in_tree link.now) }
    ensures { result ≡ unknown_from first (entries_in_tree link.now) }
{
    let Some(node) = link else {
        return None;
    };
    let PieceNode {
        entry,
        total,
        left,
        right,
        ..
    } = &**node;
    if *total != UNKNOWN {
        return None;
    }
    if entry.0 < first {
        return first_unknown(right, first);
    }
    if let Some(start) = first_unknown(left, first) {
        return Some(start);
    }
    if entry.1 == UNKNOWN {
        return Some(entry.0);
    }
    first_unknown(right, first)
}

/// Inserts a piece into the tree, and returns the tree. No piece may begin at its key yet. `node` becomes a node of
/// the tree. O(log pieces), takes no memory.
pub(crate) fn insert(link: PieceTree, entry: PieceSum, mut node: Box<PieceNode>) -> Box<PieceNode>
    requires rises { StartsRise (entries_in_tree link) }
    requires apart { IsEnd entry.0 (entries_in_tree link) → ⊥ }
    requires few { length (entries_in_tree link) < 2 ^ 64 }
    ensures entries { result.value.entries ≡ put entry.0 entry.1 (entries_in_tree link) }
    ensures not_lower { levels_of link ≤ result.value.height }
    ensures one_higher { result.value.height ≤ levels_of link + 1 }
{
    let Some(mut here) = link else {
        *node = PieceNode::leaf(entry);
        return node;
    };
    let parts = here.open();
    if entry.0 < parts.entry.0 {
        let left = insert(parts.left, entry, node);
        join(Some(left), parts.entry, parts.right, here)
    } else {
        let right = insert(parts.right, entry, node);
        join(parts.left, parts.entry, Some(right), here)
    }
}

/// Sets the sum of the piece that begins at the key to `sum`, if there is such a piece. O(log pieces), takes no
/// memory.
pub(crate) fn give(link: &mut PieceTree, key: KeyNumber, sum: i128)
    requires { StartsRise (entries_in_tree link.old) }
    ensures entries { entries_in_tree link.new ≡ given key sum (entries_in_tree link.old) }
    ensures height { levels_of link.new ≡ levels_of link.old }
{
    let Some(node) = link else {
        return;
    };
    let PieceNode {
        entry,
        total,
        left,
        right,
        ..
    } = &mut **node;
    if key < entry.0 {
        give(left, key, sum);
    } else if entry.0 < key {
        give(right, key, sum);
    } else {
        entry.1 = sum;
    }
    *total = total_over(left, entry.1, right);
}

/// Makes a balanced tree of two subtrees and the piece between them; `node` becomes one of its nodes. One subtree may
/// be two levels higher than the other; then the tree is rotated. O(1).
fn join(left: PieceTree, entry: PieceSum, right: PieceTree, node: Box<PieceNode>) -> Box<PieceNode>
    requires near { DifferByAtMost 2 (levels_of left) (levels_of right) }
    requires fits { max (levels_of left) (levels_of right) ≤ 2 ^ 31 }
    ensures entries { result.value.entries ≡ entries_in_tree left ++ entry ∷ entries_in_tree right }
    ensures height { IsHeightOver (levels_of left) (levels_of right) result.value.height }
{
    let (high, low) = (height(&left), height(&right));
    match (left, right) {
        (Some(top), right) if high > low + 1 => lean_left(top, entry, right, node),
        (left, Some(top)) if low > high + 1 => lean_right(left, entry, top, node),
        (left, right) => with_children(left, entry, right, node),
    }
}

/// Makes a tree of two subtrees and the piece between them; `node` becomes its root. The subtrees' heights differ by
/// at most one. O(1).
fn with_children(
    left: PieceTree,
    entry: PieceSum,
    right: PieceTree,
    mut node: Box<PieceNode>,
) -> Box<PieceNode>
    requires even { DifferByAtMost 1 (levels_of left) (levels_of right) }
    requires fits { max (levels_of left) (levels_of right) + 1 < 2 ^ 32 }
    ensures entries { result.value.entries ≡ entries_in_tree left ++ entry ∷ entries_in_tree right }
    ensures height { result.value.height ≡ max (levels_of left) (levels_of right) + 1 }
{
    let height = height(&left).max(height(&right)) + 1;
    let total = total_over(&left, entry.1, &right);
    *node = PieceNode {
        entry,
        total,
        height,
        left,
        right,
    };
    node
}

/// Makes a balanced tree of the pieces of `top`, of `entry` and of the pieces of `right`, in this order, by a
/// rotation: `top` is two levels higher than `right`. `spare` becomes a node below the root. O(1).
fn lean_left(
    mut top: Box<PieceNode>,
    entry: PieceSum,
    right: PieceTree,
    spare: Box<PieceNode>,
) -> Box<PieceNode>
    requires two_higher { top.value.height ≡ levels_of right + 2 }
    requires fits { top.value.height ≤ 2 ^ 31 }
    ensures entries { result.value.entries ≡ top.value.entries ++ entry ∷ entries_in_tree right }
    ensures not_lower { top.value.height ≤ result.value.height }
    ensures one_higher { result.value.height ≤ top.value.height + 1 }
{
    let PieceNodeParts {
        left: outer,
        entry: between,
        right: inner,
    } = top.open();
    if height(&outer) >= height(&inner) {
        let behind = with_children(inner, entry, right, spare);
        return with_children(outer, between, Some(behind), top);
    }
    let Some(mut middle) = inner else {
        unreachable!()
    };
    let parts = middle.open();
    let before = with_children(outer, between, parts.left, top);
    let behind = with_children(parts.right, entry, right, spare);
    with_children(Some(before), parts.entry, Some(behind), middle)
}

/// Makes a balanced tree of the pieces of `left`, of `entry` and of the pieces of `top`, in this order, by a rotation:
/// `top` is two levels higher than `left`. `spare` becomes a node below the root. O(1).
fn lean_right(
    left: PieceTree,
    entry: PieceSum,
    mut top: Box<PieceNode>,
    spare: Box<PieceNode>,
) -> Box<PieceNode>
    requires two_higher { top.value.height ≡ levels_of left + 2 }
    requires fits { top.value.height ≤ 2 ^ 31 }
    ensures entries { result.value.entries ≡ entries_in_tree left ++ entry ∷ top.value.entries }
    ensures not_lower { top.value.height ≤ result.value.height }
    ensures one_higher { result.value.height ≤ top.value.height + 1 }
{
    let PieceNodeParts {
        left: inner,
        entry: between,
        right: outer,
    } = top.open();
    if height(&outer) >= height(&inner) {
        let before = with_children(left, entry, inner, spare);
        return with_children(Some(before), between, outer, top);
    }
    let Some(mut middle) = inner else {
        unreachable!()
    };
    let parts = middle.open();
    let before = with_children(left, entry, parts.left, spare);
    let behind = with_children(parts.right, between, outer, top);
    with_children(Some(before), parts.entry, Some(behind), middle)
}

/// The first piece of a tree, and the tree of the other pieces.
#[derive(Drop)]
struct FirstPiece {
    entry: PieceSum,
    rest: PieceTree,
}

/// Removes the first piece from a tree, and frees a node. Returns the piece and the tree of the others. O(log pieces),
/// takes no memory.
fn take_first(mut node: Box<PieceNode>) -> FirstPiece
    requires few { length node.value.entries ≤ 2 ^ 64 }
    ensures entries { node.value.entries ≡ result.entry ∷ entries_in_tree result.rest }
    ensures not_higher { levels_of result.rest ≤ node.value.height }
    ensures one_lower { node.value.height ≤ levels_of result.rest + 1 }
{
    let PieceNodeParts { left, entry, right } = node.open();
    let Some(left) = left else {
        return FirstPiece { entry, rest: right };
    };
    let first = take_first(left);
    let joined = join(first.rest, entry, right, node);
    FirstPiece {
        entry: first.entry,
        rest: Some(joined),
    }
}

/// Removes the piece that begins at the key, if there is one, and frees a node. Returns the tree. O(log pieces), takes
/// no memory.
pub(crate) fn remove(link: PieceTree, key: KeyNumber) -> PieceTree
    requires rises { StartsRise (entries_in_tree link) }
    requires few { length (entries_in_tree link) ≤ 2 ^ 64 }
    ensures entries { entries_in_tree result ≡ dropped key (entries_in_tree link) }
    ensures not_higher { levels_of result ≤ levels_of link }
    ensures one_lower { levels_of link ≤ levels_of result + 1 }
{
    let Some(mut here) = link else {
        return None;
    };
    let PieceNodeParts { left, entry, right } = here.open();
    if key < entry.0 {
        let rest = remove(left, key);
        return Some(join(rest, entry, right, here));
    }
    if entry.0 < key {
        let rest = remove(right, key);
        return Some(join(left, entry, rest, here));
    }
    let Some(right) = right else {
        return left;
    };
    let first = take_first(right);
    Some(join(left, first.entry, first.rest, here))
}
