//! Walks over the marks of a tree in order, from place to place. Each walk is one recursion over the tree. A bound
//! at the place of the last visit moves without a visit; at a bound after it the visitor is given the next place.
ghost use Rattle.std.specs.Prelude.{ℕ, ◌≡◌, ◌<◌, ◌≤◌, reverse, length, All, Contains, IfSome, None, is_some};
ghost use Rattle.crack_index.specs.Marks.{Rising, next_mark, last_mark};
ghost use Rattle.crack_index.specs.Steps.{Goes, StepsUp, StepsDown};
ghost use Rattle.crack_index.specs.Trees.{marks_in_tree};
ghost use Rattle.crack_index.specs.Walks.{Climbs, Descends};

use crate::tree::{MarkNode, MarkTree};
use crate::{Mark, Visitor};
use crack_row::KeyNumber;

/// How far a walk over the marks has come.
#[derive(Clone, Copy)]
struct Way {
    /// The place of the last visit, whose bounds move; at first a place from which none can move.
    last: usize,
    /// The bound at which the walk ended, if it has ended.
    ended: Option<Mark>,
}

/// Walks up from the first mark above the number, as `CrackerIndex::climb` does. Returns the mark at which the
/// visitor ended the walk, or `None` if no mark was left. O(log marks), and one step for each mark at the visited
/// places.
#[inline(always)]
pub(crate) fn climb<V: Visitor>(
    link: &mut MarkTree,
    number: KeyNumber,
    visitor: &mut V,
) -> Option<Mark>
    requires rising { Rising (marks_in_tree link.old) }
    requires small { All (λ m. m.position < usize.MAX) (marks_in_tree link.old) }
    requires ready { V.is_ready visitor.old }
    ensures climbs { Climbs V.visits (next_mark number (marks_in_tree link.old)) (marks_in_tree link.old) visitor.old
        result (marks_in_tree link.new) visitor.new }
    ensures ready { V.is_ready visitor.new }
    ensures there { IfSome result (λ m. Contains (marks_in_tree link.new) m) }
    ensures rising { Rising (marks_in_tree link.new) }
    ensures long { length (marks_in_tree link.new) ≡ length (marks_in_tree link.old) }
{
    let mut way = Way {
        last: usize::MAX,
        ended: None,
    };
    if let Some(node) = link {
        raise_along(&mut **node, number, &mut way, visitor);
    }
    way.ended
}

/// Walks down from the last mark at or below the number, as `CrackerIndex::descend` does. Returns the mark at
/// which the walk ended, or `None` if no mark was left. O(log marks), and one step for each mark at the visited
/// places.
#[inline(always)]
pub(crate) fn descend<V: Visitor>(
    link: &mut MarkTree,
    number: KeyNumber,
    visitor: &mut V,
) -> Option<Mark>
    requires rising { Rising (marks_in_tree link.old) }
    requires ready { V.is_ready visitor.old }
    ensures descends { Descends V.visits (last_mark number (marks_in_tree link.old)) (marks_in_tree link.old)
        visitor.old result (marks_in_tree link.new) visitor.new }
    ensures ready { V.is_ready visitor.new }
    ensures there { IfSome result (λ m. Contains (marks_in_tree link.new) m) }
    ensures rising { Rising (marks_in_tree link.new) }
    ensures long { length (marks_in_tree link.new) ≡ length (marks_in_tree link.old) }
{
    let mut way = Way {
        last: 0,
        ended: None,
    };
    if let Some(node) = link {
        lower_along(&mut **node, number, &mut way, visitor);
    }
    way.ended
}

/// Does the part of a walk up that lies in the tree of this node: walks over its marks above `number`, from the lowest
/// up. `way` is how far the walk has come. Returns whether the walk has ended.
fn raise_along<V: Visitor>(
    node: &mut MarkNode,
    number: KeyNumber,
    way: &mut Way,
    visitor: &mut V,
) -> bool
    requires going { way.old.ended ≡ None }
    requires small { All (λ m. m.position < usize.MAX) node.old.marks }
    requires ready { V.is_ready visitor.old }
    ensures goes { Goes (StepsUp V.visits number) node.old.marks way.old visitor.old node.new.marks
        way.new visitor.new }
    ensures height { node.new.height ≡ node.old.height }
    ensures ended { result ≡ is_some way.new.ended }
    ensures ready { V.is_ready visitor.new }
{
    let MarkNode {
        mark,
        left,
        right,
        ..
    } = node;
    if mark.bound.number() <= number {
        return match right {
            Some(right) => raise_along(&mut **right, number, way, visitor),
            None => false,
        };
    }
    if let Some(left) = left {
        if raise_along(&mut **left, number, way, visitor) {
            return true;
        }
    }
    if step_up(mark, way, visitor) {
        return true;
    }
    match right {
        Some(right) => raise_all(&mut **right, way, visitor),
        None => false,
    }
}

/// Does what `raise_along` does for a tree whose bounds are all above the number from which the walk began, so that
/// none is compared with it. Returns whether the walk has ended.
fn raise_all<V: Visitor>(node: &mut MarkNode, way: &mut Way, visitor: &mut V) -> bool
    requires going { way.old.ended ≡ None }
    requires above { (number : ℕ) × All (λ m. number < m.bound.0) node.old.marks }
    requires small { All (λ m. m.position < usize.MAX) node.old.marks }
    requires ready { V.is_ready visitor.old }
    ensures goes { (number : ℕ) → All (λ m. number < m.bound.0) node.old.marks
        → Goes (StepsUp V.visits number) node.old.marks way.old visitor.old node.new.marks way.new visitor.new }
    ensures height { node.new.height ≡ node.old.height }
    ensures ended { result ≡ is_some way.new.ended }
    ensures ready { V.is_ready visitor.new }
{
    let MarkNode {
        mark,
        left,
        right,
        ..
    } = node;
    if let Some(left) = left {
        if raise_all(&mut **left, way, visitor) {
            return true;
        }
    }
    if step_up(mark, way, visitor) {
        return true;
    }
    match right {
        Some(right) => raise_all(&mut **right, way, visitor),
        None => false,
    }
}

/// Does the part of a walk down that lies in the tree of this node: walks over its marks at or below `number`, from
/// the highest down. `way` is how far the walk has come. Returns whether the walk has ended.
fn lower_along<V: Visitor>(
    node: &mut MarkNode,
    number: KeyNumber,
    way: &mut Way,
    visitor: &mut V,
) -> bool
    requires going { way.old.ended ≡ None }
    requires ready { V.is_ready visitor.old }
    ensures goes { Goes (StepsDown V.visits number) (reverse node.old.marks) way.old visitor.old
        (reverse node.new.marks) way.new visitor.new }
    ensures height { node.new.height ≡ node.old.height }
    ensures ended { result ≡ is_some way.new.ended }
    ensures ready { V.is_ready visitor.new }
{
    let MarkNode {
        mark,
        left,
        right,
        ..
    } = node;
    if mark.bound.number() > number {
        return match left {
            Some(left) => lower_along(&mut **left, number, way, visitor),
            None => false,
        };
    }
    if let Some(right) = right {
        if lower_along(&mut **right, number, way, visitor) {
            return true;
        }
    }
    if step_down(mark, way, visitor) {
        return true;
    }
    match left {
        Some(left) => lower_all(&mut **left, way, visitor),
        None => false,
    }
}

/// Does what `lower_along` does for a tree of which no bound is above the number from which the walk began, so that
/// none is compared with it. Returns whether the walk has ended.
fn lower_all<V: Visitor>(node: &mut MarkNode, way: &mut Way, visitor: &mut V) -> bool
    requires going { way.old.ended ≡ None }
    requires below { (number : ℕ) × All (λ m. m.bound.0 ≤ number) node.old.marks }
    requires ready { V.is_ready visitor.old }
    ensures goes { (number : ℕ) → All (λ m. m.bound.0 ≤ number) node.old.marks
        → Goes (StepsDown V.visits number) (reverse node.old.marks) way.old visitor.old (reverse node.new.marks)
        way.new visitor.new }
    ensures height { node.new.height ≡ node.old.height }
    ensures ended { result ≡ is_some way.new.ended }
    ensures ready { V.is_ready visitor.new }
{
    let MarkNode {
        mark,
        left,
        right,
        ..
    } = node;
    if let Some(right) = right {
        if lower_all(&mut **right, way, visitor) {
            return true;
        }
    }
    if step_down(mark, way, visitor) {
        return true;
    }
    match left {
        Some(left) => lower_all(&mut **left, way, visitor),
        None => false,
    }
}

/// Does one step of a walk up, at a bound above the number from which the walk began. A bound at the place of the last
/// visit moves up by one. At another place the visitor is called: if it returns true, the bound moves up by one,
/// otherwise the walk ends at this bound. Returns whether the walk has ended.
#[inline(always)]
fn step_up<V: Visitor>(mark: &mut Mark, way: &mut Way, visitor: &mut V) -> bool
    requires going { way.old.ended ≡ None }
    requires small { mark.old.position < usize.MAX }
    requires ready { V.is_ready visitor.old }
    ensures steps { (number : ℕ) → number < mark.old.bound.0 → StepsUp V.visits number mark.old way.old visitor.old
        mark.new way.new visitor.new }
    ensures ended { result ≡ is_some way.new.ended }
    ensures ready { V.is_ready visitor.new }
{
    let position = mark.position;
    if position == way.last {
        mark.position = position + 1;
        false
    } else if visitor.visit(position) {
        way.last = position;
        mark.position = position + 1;
        false
    } else {
        way.ended = Some(*mark);
        true
    }
}

/// Does one step of a walk down, at a bound at or below the number from which the walk began. At the place 0 the walk
/// ends. A bound at the place of the last visit moves down by one. At another place the visitor is called with the
/// place before it: if it returns true, the bound moves down by one, otherwise the walk ends at this bound. Returns
/// whether the walk has ended.
#[inline(always)]
fn step_down<V: Visitor>(mark: &mut Mark, way: &mut Way, visitor: &mut V) -> bool
    requires going { way.old.ended ≡ None }
    requires ready { V.is_ready visitor.old }
    ensures steps { (number : ℕ) → mark.old.bound.0 ≤ number → StepsDown V.visits number mark.old way.old visitor.old
        mark.new way.new visitor.new }
    ensures ended { result ≡ is_some way.new.ended }
    ensures ready { V.is_ready visitor.new }
{
    let position = mark.position;
    if position == 0 {
        way.ended = Some(*mark);
        true
    } else if position == way.last {
        mark.position = position - 1;
        false
    } else if visitor.visit(position - 1) {
        way.last = position;
        mark.position = position - 1;
        false
    } else {
        way.ended = Some(*mark);
        true
    }
}
