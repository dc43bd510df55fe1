//! An AVL tree of marks in rising order ("An algorithm for the organization of information", 1962). The caller
//! passes its nodes in. Look-ups and moves of marks take no memory.
ghost use Rattle.std.specs.Prelude.{◌≡◌, ◌+◌, ◌-◌, ◌^◌, ◌<◌, ◌≤◌, max, length, [], ◌∷◌, ◌++◌, map, List, ℕ, vec_len};
ghost use Rattle.std.specs.Prelude.{vec_capacity, OnOk, IfOk, IfErr};
ghost use Rattle.crack_index.specs.Marks.{Rising, with_mark, last_mark, next_mark, first_after, raised};
ghost use Rattle.crack_index.specs.Marks.{lowered_at, removed, size_between, pieces_from};
ghost use Rattle.crack_index.specs.Keeps.{height_of, IsBalanced, IsTall, DifferByAtMost};
ghost use Rattle.crack_index.specs.Trees.{Grown, marks_in_tree};
ghost use Rattle.crack_index.specs.Rotations.{IsHeightOver};
ghost use Rattle.crack_index.specs.declared.mark.Mark.{Mark};
ghost use Rattle.crack_row.specs.declared.Bound.{Bound};

use crate::Mark;
use crack_row::{Bound, InnerBound, KeyNumber, KeyRange, PieceSize, Refusal};
use std::alloc::Global;
use std::marker::Model;
use std::mem;

/// A tree of marks, or `None` if there are no marks.
pub(crate) type MarkTree = Option<Box<MarkNode>>;

/// A mark, and the trees of the marks before and after it. Contracts see all marks in rising order, and the height.
#[derive(Drop)]
pub(crate) struct MarkNode {
    pub(crate) mark: Mark,
    height: u32,
    pub(crate) left: MarkTree,
    pub(crate) right: MarkTree,
}

impl Model for MarkNode {
    ghost use Rattle.std.specs.Prelude.{◌∷◌, ◌++◌, length};
    ghost use Rattle.crack_index.specs.Keeps.{IsBalanced};
    ghost use Rattle.crack_index.specs.Trees.{Grown, marks_in_tree};
    ghost use Rattle.std.proofs.Common.{arith, length-append};

    ghost Value = { Grown };

    ghost view = { λ n. record { marks = marks_in_tree n.left ++ n.mark ∷ marks_in_tree n.right; height = n.height } };

    ghost invariant = { λ n. IsBalanced n.left n.mark n.right n.height };

    ghost size = { λ g. length g.marks };

    ghost size_decreases = { λ n h. Prim.grind (arith, length-append) };
}

/// The parts of a node: its mark, and the trees of the marks before and after it.
#[derive(Drop)]
struct MarkNodeParts {
    left: MarkTree,
    mark: Mark,
    right: MarkTree,
}

impl MarkNode {
    /// Makes a tree of one mark.
    pub(crate) fn leaf(mark: Mark) -> MarkNode
        ensures marks { result.marks ≡ mark ∷ [] }
        ensures height { result.height ≡ 1 }
    {
        MarkNode {
            mark,
            height: 1,
            left: None,
            right: None,
        }
    }

    /// Takes the trees out of the node, and returns them with its mark. The node is left without children.
    fn open(&mut self) -> MarkNodeParts
        ensures marks { self.old.marks ≡ marks_in_tree result.left ++ result.mark ∷ marks_in_tree result.right }
        ensures balanced { IsBalanced result.left result.mark result.right self.old.height }
    {
        let kept = self.mark;
        let MarkNode {
            mark,
            left,
            right,
            ..
        } = mem::replace(self, MarkNode::leaf(kept));
        MarkNodeParts { left, mark, right }
    }
}

/// The height of a tree, 0 if it is empty. O(1).
pub(crate) fn height(link: &MarkTree) -> u32
    ensures value { result ≡ height_of link.now }
    ensures tall { IsTall (length (marks_in_tree link.now)) (height_of link.now) }
{
    match link {
        None => 0,
        Some(node) => node.height,
    }
}

/// The last mark whose bound is at or below the number, if there is one. O(log marks), one comparison per level.
pub(crate) fn last_at(link: &MarkTree, number: KeyNumber) -> Option<Mark>
    ensures { result ≡ last_mark number (marks_in_tree link.now) }
{
    let mut found = None;
    let mut here = link;
    'down: while let Some(node) = here {
        let MarkNode {
            mark,
            left,
            right,
            ..
        } = &**node;
        if mark.bound.number() <= number {
            found = Some(*mark);
            here = right;
        } else {
            here = left;
        }
    }
    found
}

/// The first mark whose bound is above the number, if there is one. O(log marks), one comparison per level.
pub(crate) fn next_above(link: &MarkTree, number: KeyNumber) -> Option<Mark>
    ensures { result ≡ next_mark number (marks_in_tree link.now) }
{
    let mut found = None;
    let mut here = link;
    'down: while let Some(node) = here {
        let MarkNode {
            mark,
            left,
            right,
            ..
        } = &**node;
        if mark.bound.number() <= number {
            here = right;
        } else {
            found = Some(*mark);
            here = left;
        }
    }
    found
}

/// The last mark whose bound is at or below the number, and the first one above it, if they exist. O(log marks),
/// one comparison per level.
pub(crate) fn neighbours(link: &MarkTree, number: KeyNumber) -> (Option<Mark>, Option<Mark>)
    ensures below { result.0 ≡ last_mark number (marks_in_tree link.now) }
    ensures above { result.1 ≡ next_mark number (marks_in_tree link.now) }
{
    let mut below = None;
    let mut above = None;
    let mut here = link;
    'down: while let Some(node) = here {
        let MarkNode {
            mark,
            left,
            right,
            ..
        } = &**node;
        if mark.bound.number() <= number {
            below = Some(*mark);
            here = right;
        } else {
            above = Some(*mark);
            here = left;
        }
    }
    (below, above)
}

/// The first mark that is at a place after `place`, if there is one. O(log marks), one comparison per level.
pub(crate) fn first_after(link: &MarkTree, place: usize) -> Option<Mark>
    ensures { result ≡ first_after place (marks_in_tree link.now) }
{
    let mut found = None;
    let mut here = link;
    'down: while let Some(node) = here {
        let MarkNode {
            mark,
            left,
            right,
            ..
        } = &**node;
        if mark.position <= place {
            here = right;
        } else {
            found = Some(*mark);
            here = left;
        }
    }
    found
}

/// Inserts a mark into the tree, and returns the tree. The tree must not have its bound yet, and its place must be
/// between those of the marks below and above it. `node` becomes a node of the tree. O(log marks), takes no memory.
pub(crate) fn insert(link: MarkTree, mark: Mark, mut node: Box<MarkNode>) -> Box<MarkNode>
    requires rising { Rising (with_mark mark (marks_in_tree link)) }
    requires few { length (marks_in_tree link) < 2 ^ 64 }
    ensures marks { result.value.marks ≡ with_mark mark (marks_in_tree link) }
    ensures not_lower { height_of link ≤ result.value.height }
    ensures one_higher { result.value.height ≤ height_of link + 1 }
{
    let Some(mut here) = link else {
        *node = MarkNode::leaf(mark);
        return node;
    };
    let parts = here.open();
    if mark.bound.number() < parts.mark.bound.number() {
        let left = insert(parts.left, mark, node);
        join(Some(left), parts.mark, parts.right, here)
    } else {
        let right = insert(parts.right, mark, node);
        join(parts.left, parts.mark, Some(right), here)
    }
}

/// Makes a balanced tree of two subtrees and the mark between them; `node` becomes one of its nodes. One subtree may
/// be two levels higher than the other; then the tree is rotated. O(1).
fn join(left: MarkTree, mark: Mark, right: MarkTree, node: Box<MarkNode>) -> Box<MarkNode>
    requires rising { Rising (marks_in_tree left ++ mark ∷ marks_in_tree right) }
    requires near { DifferByAtMost 2 (height_of left) (height_of right) }
    requires fits { max (height_of left) (height_of right) ≤ 2 ^ 31 }
    ensures marks { result.value.marks ≡ marks_in_tree left ++ mark ∷ marks_in_tree right }
    ensures height { IsHeightOver (height_of left) (height_of right) result.value.height }
{
    let (high, low) = (height(&left), height(&right));
    match (left, right) {
        (Some(top), right) if high > low + 1 => lean_left(top, mark, right, node),
        (left, Some(top)) if low > high + 1 => lean_right(left, mark, top, node),
        (left, right) => with_children(left, mark, right, node),
    }
}

/// Makes a tree of two subtrees and the mark between them; `node` becomes its root. The subtrees' heights differ by at
/// most one. O(1).
fn with_children(
    left: MarkTree,
    mark: Mark,
    right: MarkTree,
    mut node: Box<MarkNode>,
) -> Box<MarkNode>
    requires rising { Rising (marks_in_tree left ++ mark ∷ marks_in_tree right) }
    requires even { DifferByAtMost 1 (height_of left) (height_of right) }
    requires fits { max (height_of left) (height_of right) + 1 < 2 ^ 32 }
    ensures marks { result.value.marks ≡ marks_in_tree left ++ mark ∷ marks_in_tree right }
    ensures height { result.value.height ≡ max (height_of left) (height_of right) + 1 }
{
    let height = height(&left).max(height(&right)) + 1;
    *node = MarkNode {
        mark,
        height,
        left,
        right,
    };
    node
}

/// Makes a balanced tree of the marks of `top`, of `mark` and of the marks of `right`, in this order, by a rotation:
/// `top` is two levels higher than `right`. `spare` becomes a node below the root. O(1).
fn lean_left(
    mut top: Box<MarkNode>,
    mark: Mark,
    right: MarkTree,
    spare: Box<MarkNode>,
) -> Box<MarkNode>
    requires rising { Rising (top.value.marks ++ mark ∷ marks_in_tree right) }
    requires two_higher { top.value.height ≡ height_of right + 2 }
    requires fits { top.value.height ≤ 2 ^ 31 }
    ensures marks { result.value.marks ≡ top.value.marks ++ mark ∷ marks_in_tree right }
    ensures not_lower { top.value.height ≤ result.value.height }
    ensures one_higher { result.value.height ≤ top.value.height + 1 }
{
    let MarkNodeParts {
        left: outer,
        mark: between,
        right: inner,
    } = top.open();
    if height(&outer) >= height(&inner) {
        let behind = with_children(inner, mark, right, spare);
        return with_children(outer, between, Some(behind), top);
    }
    let Some(mut middle) = inner else {
        unreachable!()
    };
    let parts = middle.open();
    let before = with_children(outer, between, parts.left, top);
    let behind = with_children(parts.right, mark, right, spare);
    with_children(Some(before), parts.mark, Some(behind), middle)
}

/// Makes a balanced tree of the marks of `left`, of `mark` and of the marks of `top`, in this order, by a rotation:
/// `top` is two levels higher than `left`. `spare` becomes a node below the root. O(1).
fn lean_right(
    left: MarkTree,
    mark: Mark,
    mut top: Box<MarkNode>,
    spare: Box<MarkNode>,
) -> Box<MarkNode>
    requires rising { Rising (marks_in_tree left ++ mark ∷ top.value.marks) }
    requires two_higher { top.value.height ≡ height_of left + 2 }
    requires fits { top.value.height ≤ 2 ^ 31 }
    ensures marks { result.value.marks ≡ marks_in_tree left ++ mark ∷ top.value.marks }
    ensures not_lower { top.value.height ≤ result.value.height }
    ensures one_higher { result.value.height ≤ top.value.height + 1 }
{
    let MarkNodeParts {
        left: inner,
        mark: between,
        right: outer,
    } = top.open();
    if height(&outer) >= height(&inner) {
        let before = with_children(left, mark, inner, spare);
        return with_children(Some(before), between, outer, top);
    }
    let Some(mut middle) = inner else {
        unreachable!()
    };
    let parts = middle.open();
    let before = with_children(left, mark, parts.left, spare);
    let behind = with_children(parts.right, between, outer, top);
    with_children(Some(before), parts.mark, Some(behind), middle)
}

/// The first mark of a tree, and the tree of the other marks.
#[derive(Drop)]
struct FirstMark {
    mark: Mark,
    rest: MarkTree,
}

/// Removes the first mark from a tree, and frees a node. Returns the mark and the tree of the others. O(log marks),
/// takes no memory.
fn take_first(mut node: Box<MarkNode>) -> FirstMark
    requires few { length node.value.marks < 2 ^ 64 }
    ensures marks { node.value.marks ≡ result.mark ∷ marks_in_tree result.rest }
    ensures not_higher { height_of result.rest ≤ node.value.height }
    ensures one_lower { node.value.height ≤ height_of result.rest + 1 }
{
    let MarkNodeParts { left, mark, right } = node.open();
    let Some(left) = left else {
        return FirstMark { mark, rest: right };
    };
    let first = take_first(left);
    let joined = join(first.rest, mark, right, node);
    FirstMark {
        mark: first.mark,
        rest: Some(joined),
    }
}

/// Removes the mark of this bound, if the tree has it, and frees a node. Returns the tree. O(log marks), takes no
/// memory.
pub(crate) fn remove(link: MarkTree, bound: KeyNumber) -> MarkTree
    requires few { length (marks_in_tree link) < 2 ^ 64 }
    ensures marks { marks_in_tree result ≡ removed bound (marks_in_tree link) }
    ensures not_higher { height_of result ≤ height_of link }
    ensures one_lower { height_of link ≤ height_of result + 1 }
{
    let Some(mut here) = link else {
        return None;
    };
    let MarkNodeParts { left, mark, right } = here.open();
    if bound < mark.bound.number() {
        let rest = remove(left, bound);
        return Some(join(rest, mark, right, here));
    }
    if mark.bound.number() < bound {
        let rest = remove(right, bound);
        return Some(join(left, mark, rest, here));
    }
    let Some(right) = right else {
        return left;
    };
    let first = take_first(right);
    Some(join(left, first.mark, first.rest, here))
}

/// Moves each bound at or above `low` that is at the place `place` up by one place. O(log marks + marks at the place).
pub(crate) fn raise(link: &mut MarkTree, low: KeyNumber, place: usize)
    requires { place < usize.MAX }
    ensures marks { marks_in_tree link.new ≡ map (raised low place) (marks_in_tree link.old) }
    ensures height { height_of link.new ≡ height_of link.old }
{
    let Some(node) = link else {
        return;
    };
    let MarkNode {
        mark,
        left,
        right,
        ..
    } = &mut **node;
    if mark.bound.number() < low || mark.position < place {
        raise(right, low, place);
    } else if place < mark.position {
        raise(left, low, place);
    } else {
        mark.position += 1;
        raise(left, low, place);
        raise(right, low, place);
    }
}

/// Moves each bound that is at the place `place`, which isn't 0, down by one place. O(log marks + marks at the place).
pub(crate) fn lower_at(link: &mut MarkTree, place: usize)
    requires { 0 < place }
    ensures marks { marks_in_tree link.new ≡ map (lowered_at place) (marks_in_tree link.old) }
    ensures height { height_of link.new ≡ height_of link.old }
{
    let Some(node) = link else {
        return;
    };
    let MarkNode {
        mark,
        left,
        right,
        ..
    } = &mut **node;
    if place < mark.position {
        lower_at(left, place);
    } else if mark.position < place {
        lower_at(right, place);
    } else {
        mark.position -= 1;
        lower_at(left, place);
        lower_at(right, place);
    }
}

/// An end of a piece, with its place: a bound, or an end of the keys.
#[derive(Clone, Copy)]
struct Edge {
    bound: Bound,
    position: usize,
}

/// Appends to `pieces` the sizes of the pieces that end at the tree's marks, in order. The first piece begins at
/// `last`, which becomes the edge at the last mark. There must be room. O(marks), takes no memory.
fn append_pieces(link: &MarkTree, last: &mut Edge, pieces: &mut Vec<PieceSize>)
    requires room { vec_len pieces.old + length (marks_in_tree link.now) ≤ vec_capacity pieces.old }
    ensures made { (rest : List Mark) (high : Bound) (to : ℕ)
        → pieces.old.items ++ pieces_from last.old.bound last.old.position (marks_in_tree link.now ++ rest) high to
        ≡ pieces.new.items ++ pieces_from last.new.bound last.new.position rest high to }
    ensures len { vec_len pieces.new ≡ vec_len pieces.old + length (marks_in_tree link.now) }
    ensures capacity { vec_capacity pieces.new ≡ vec_capacity pieces.old }
{
    let Some(node) = link else {
        return;
    };
    let MarkNode {
        mark,
        left,
        right,
        ..
    } = &**node;
    append_pieces(left, last, pieces);
    let edge = edge_at(*mark);
    pieces.push_reserved(piece_between(*last, edge));
    *last = edge;
    append_pieces(right, last, pieces);
}

/// The sizes of the pieces into which the marks of a tree divide a column of `len` rows whose keys lie in `keys`.
/// `marks` is the number of marks. O(marks). Refused with `OutOfMemory` if no memory is found.
pub(crate) fn piece_sizes(
    alloc: Global,
    link: &MarkTree,
    marks: usize,
    keys: KeyRange,
    len: usize,
) -> Result<Vec<PieceSize>, Refusal>
    requires counted { length (marks_in_tree link.now) ≡ marks }
    requires few { marks < usize.MAX }
    ensures ok { IfOk result (λ v. v.items ≡ pieces_from (record { 0 = keys.low }) 0 (marks_in_tree link.now)
        (record { 0 = keys.high }) len) }
    ensures err { IfErr result (λ e. e ≡ Refusal.OutOfMemory) }
{
    let mut pieces = Vec::with_capacity(alloc, marks + 1)?;
    let mut last = Edge {
        bound: keys.low(),
        position: 0,
    };
    append_pieces(link, &mut last, &mut pieces);
    let end = Edge {
        bound: keys.high(),
        position: len,
    };
    pieces.push_reserved(piece_between(last, end));
    Ok(pieces)
}

/// The edge at a mark, where the piece below it ends.
fn edge_at(mark: Mark) -> Edge
    ensures { result ≡ record { bound = record { 0 = mark.bound.0 }; position = mark.position } }
{
    Edge {
        bound: mark.bound.bound(),
        position: mark.position,
    }
}

/// The piece between the edges `low` and `high`, with its size: 0 if the place of `high` is before that of `low`.
fn piece_between(low: Edge, high: Edge) -> PieceSize
    ensures { result ≡ size_between low.bound low.position high.bound high.position }
{
    PieceSize {
        low: low.bound,
        high: high.bound,
        size: high.position.saturating_sub(low.position) as u64,
    }
}

/// Fills the stock up to `nodes` spare nodes. O(nodes). Refused with `OutOfMemory` if no memory is found; nodes made
/// until then stay in the stock.
pub(crate) fn fill(spare: &mut Vec<Box<MarkNode>>, nodes: usize) -> Result<(), Refusal>
    requires { vec_len spare.old ≤ nodes }
    ensures ok { OnOk result (nodes ≤ vec_len spare.new) }
    ensures kept { vec_len spare.old ≤ vec_len spare.new }
    ensures most { vec_len spare.new ≤ nodes }
    ensures err { IfErr result (λ e. e ≡ Refusal.OutOfMemory) }
{
    spare.reserve(nodes - spare.len())?;
    let alloc = *spare.allocator();
    'nodes: while spare.len() < nodes {
        let empty = Mark {
            bound: InnerBound::least(),
            position: 0,
        };
        let node = Box::new(alloc, MarkNode::leaf(empty))?;
        spare.push_reserved(node);
    }
    Ok(())
}
