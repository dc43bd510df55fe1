//! The cracker index: the bounds that divide a cracked column, each with its place.
ghost use Rattle.std.specs.Prelude.{◌≡◌, ℕ, ◌+◌, ◌-◌, ◌<◌, ◌≤◌, ◌==◌, ◌↔◌, [], map, length, reverse, All, Contains};
ghost use Rattle.std.specs.Prelude.{sum_by, IsOk, IfNone, IsSome, IfSome, IfOk, IfErr, OnOk, IsTrue};
ghost use Rattle.crack_row.specs.Layouts.{AreJoined};
ghost use Rattle.crack_index.specs.Heights.{least, most};
ghost use Rattle.crack_index.specs.Walks.{Climbs, Descends};
ghost use Rattle.crack_index.specs.Raises.{Raises};
ghost use Rattle.crack_index.specs.Places.{Places};
ghost use Rattle.crack_index.specs.Marks.{Rising, Fits, HasBound, position_of, next_mark, last_mark, first_after};
ghost use Rattle.crack_index.specs.Marks.{with_mark, removed, raised, lowered_at, piece_at, pieces_from};
ghost use Rattle.crack_index.specs.Passes.{pass_above, next_few};

use crate::tree::{self, MarkNode, MarkTree};
use crate::{Mark, Pass, Placer, Raiser, Visitor, lowering, raising, walk};
use crack_row::{InnerBound, Key, KeyRange, PieceSize, Refusal};
use std::alloc::Global;
use std::marker::Model;

/// A piece of the column, between neighbouring bounds.
#[derive(Clone, Copy, PartialEq, Eq, Debug)]
pub struct Piece {
    /// The greatest bound at or below the piece's keys, or `None` at the partition's low end.
    pub low: Option<InnerBound>,
    /// The least bound above the piece's keys, or `None` at the partition's high end.
    pub high: Option<InnerBound>,
    /// The place of the first row.
    pub from: usize,
    /// The place after the last row.
    pub to: usize,
}

/// The bounds that divide a cracked column, in rising order ("Database Cracking", CIDR 2007). They are in a
/// balanced tree, whose nodes come from a stock of spare nodes. Contracts see the list of marks, and for how many
/// more there is room.
#[derive(Drop)]
pub struct CrackerIndex {
    root: MarkTree,
    spare: Vec<Box<MarkNode>>,
    len: usize,
}

impl Model for CrackerIndex {
    ghost use Rattle.std.specs.Prelude.{vec_len};
    ghost use Rattle.crack_index.specs.Marks.{Index};
    ghost use Rattle.crack_index.specs.Keeps.{IsSoundIndex};
    ghost use Rattle.crack_index.specs.Trees.{marks_in_tree};

    ghost Value = { Index };

    ghost view = { λ i. record { marks = marks_in_tree i.root; room = vec_len i.spare } };

    ghost invariant = { λ i. IsSoundIndex (marks_in_tree i.root) (vec_len i.spare) i.len };
}

impl CrackerIndex {
    /// Makes an index without bounds. Takes no memory. O(1).
    pub fn new(alloc: Global) -> CrackerIndex
        ensures marks { result.marks ≡ [] }
        ensures room { result.room ≡ 0 }
    {
        CrackerIndex {
            root: None,
            spare: Vec::new(alloc),
            len: 0,
        }
    }

    /// Makes room for at least `n` more bounds. O(1) if there is room, otherwise O(n). Refused with `OutOfMemory` if
    /// no memory is found; room made until then stays.
    pub fn reserve(&mut self, n: usize) -> Result<(), Refusal>
        ensures marks { self.new.marks ≡ self.old.marks }
        ensures ok { OnOk result (n ≤ self.new.room) }
        ensures room { self.old.room ≤ self.new.room }
        ensures succeeds { n ≤ self.old.room → IsOk result }
        ensures err { IfErr result (λ e. e ≡ Refusal.OutOfMemory) }
    {
        if n <= self.spare.len() {
            return Ok(());
        }
        if n >= usize::MAX - self.len {
            return Err(Refusal::OutOfMemory);
        }
        tree::fill(&mut self.spare, n)
    }

    /// The number of bounds. O(1).
    pub fn len(&self) -> usize
        ensures value { result ≡ length self.now.marks }
        ensures rising { Rising self.now.marks }
    {
        self.len
    }

    /// Whether there are no bounds. O(1).
    pub fn is_empty(&self) -> bool
        ensures { IsTrue result ↔ (self.now.marks ≡ []) }
    {
        self.len == 0
    }

    /// The height of the tree of bounds, 0 if there are none. O(1).
    pub fn height(&self) -> u32
        ensures least { least result ≤ length self.now.marks }
        ensures most { length self.now.marks < most result }
    {
        tree::height(&self.root)
    }

    /// Adds a bound at the place `position`. The bound must not be in the index yet, its place must be between those
    /// of the bounds below and above it, and there must be room. Takes no memory. O(log bounds).
    pub fn add(&mut self, bound: InnerBound, position: usize)
        requires room { 0 < self.old.room }
        requires absent { HasBound self.old.marks bound.0 → ⊥ }
        requires order { Fits (record { bound = bound; position = position }) self.old.marks }
        ensures marks { self.new.marks ≡ with_mark (record { bound = bound; position = position }) self.old.marks }
        ensures room { self.new.room + 1 ≡ self.old.room }
        ensures rising { Rising self.new.marks }
    {
        let Some(node) = self.spare.pop() else {
            unreachable!()
        };
        let root = self.root.take();
        self.root = Some(tree::insert(root, Mark { bound, position }, node));
        self.len += 1;
    }

    /// Removes a bound, which must be in the index, and frees a node. Takes no memory. O(log bounds).
    pub fn remove(&mut self, bound: InnerBound)
        requires { HasBound self.old.marks bound.0 }
        ensures marks { self.new.marks ≡ removed bound.0 self.old.marks }
        ensures room { self.new.room ≡ self.old.room }
        ensures rising { Rising self.new.marks }
    {
        let root = self.root.take();
        self.root = tree::remove(root, bound.number());
        self.len -= 1;
    }

    /// Makes a pass over at most `bounds` of the bounds above `key`, the lowest first. The pass finds each bound for
    /// which the pieces below and above it hold at most `rows` rows together. O(log bounds).
    pub fn pass_after(&self, key: Key, rows: usize, bounds: usize) -> Pass
        ensures { result ≡ pass_above key.0 rows bounds self.now.marks }
    {
        let from = self.bound_below(key).map_or(0, |mark| mark.position);
        Pass::new(key, from, rows, bounds)
    }

    /// Moves the pass on to the next bound that it finds, in a column of `len` rows, removes the bound and returns it.
    /// Removes none and returns `None` if the pass finds no further one: no bound is left, or it may meet no more.
    /// Takes no memory. O(log bounds), and a step for each bound that the pass meets.
    pub fn remove_few(&mut self, pass: &mut Pass, len: usize) -> Option<InnerBound>
        ensures found { (result, pass.new) ≡ next_few len pass.old self.old.marks }
        ensures there { IfSome result (λ b. HasBound self.old.marks b.0) }
        ensures marks { IfSome result (λ b. self.new.marks ≡ removed b.0 self.old.marks) }
        ensures none { IfNone result (self.new.marks ≡ self.old.marks) }
        ensures room { self.new.room ≡ self.old.room }
        ensures rising { Rising self.new.marks }
    {
        let found = self.find_few(pass, len);
        if let Some(bound) = found {
            self.remove(bound);
        }
        found
    }

    /// Moves the pass on to the next bound that it finds, in a column of `len` rows, and returns the bound, which
    /// stays in the index. Returns `None` if no bound is left, or if the pass may meet no more.
    fn find_few(&self, pass: &mut Pass, len: usize) -> Option<InnerBound>
        ensures found { (result, pass.new) ≡ next_few len pass.old self.now.marks }
        ensures there { IfSome result (λ b. HasBound self.now.marks b.0) }
        ensures rising { Rising self.now.marks }
    {
        pass.next_few(&self.root, len)
    }

    /// The place of the bound, or `None` if it isn't in the index. O(log bounds).
    pub fn position(&self, bound: InnerBound) -> Option<usize>
        ensures found { IsSome result ↔ HasBound self.now.marks bound.0 }
        ensures place { IfSome result (λ place. place ≡ position_of bound.0 self.now.marks) }
        ensures rising { Rising self.now.marks }
    {
        match tree::last_at(&self.root, bound.number()) {
            Some(mark) if mark.bound == bound => Some(mark.position),
            _ => None,
        }
    }

    /// The least bound above this key, with its place, or `None` if there is none. O(log bounds).
    pub fn bound_above(&self, key: Key) -> Option<Mark>
        ensures value { result ≡ next_mark key.0 self.now.marks }
        ensures there { IfSome result (λ m. Contains self.now.marks m) }
        ensures rising { Rising self.now.marks }
    {
        tree::next_above(&self.root, key.number())
    }

    /// The greatest bound at or below this key, with its place, or `None` if there is none. O(log bounds).
    pub fn bound_below(&self, key: Key) -> Option<Mark>
        ensures value { result ≡ last_mark key.0 self.now.marks }
        ensures there { IfSome result (λ m. Contains self.now.marks m) }
        ensures rising { Rising self.now.marks }
    {
        tree::last_at(&self.root, key.number())
    }

    /// The piece that contains this key, in a column of `len` rows. O(log bounds).
    pub fn piece_of(&self, key: Key, len: usize) -> Piece
        ensures value { result ≡ piece_at key.0 len self.now.marks }
        ensures order { All (λ m. m.position ≤ len) self.now.marks → result.from ≤ result.to }
        ensures fits { (p : ℕ) → result.from ≤ p → p ≤ result.to → Fits (record {
          bound = record { 0 = key.0 };
          position = p;
        }) self.now.marks }
        ensures rising { Rising self.now.marks }
    {
        let (below, above) = tree::neighbours(&self.root, key.number());
        Piece {
            low: below.map(|mark| mark.bound),
            high: above.map(|mark| mark.bound),
            from: below.map_or(0, |mark| mark.position),
            to: above.map_or(len, |mark| mark.position),
        }
    }

    /// The sizes of the pieces, in rising order, in a column of `len` rows whose keys lie in the range `keys`.
    /// O(bounds). Refused with `OutOfMemory` if no memory is found.
    pub fn pieces(&self, keys: KeyRange, len: usize) -> Result<Vec<PieceSize>, Refusal>
        ensures ok { IfOk result (λ v. v.items ≡ pieces_from (record { 0 = keys.low }) 0 self.now.marks
            (record { 0 = keys.high }) len) }
        ensures joined { All (λ m. (keys.low ≤ m.bound.0) × (m.bound.0 ≤ keys.high)) self.now.marks → IfOk result (λ v.
            AreJoined keys.low keys.high v.items) }
        ensures sizes { All (λ m. m.position ≤ len) self.now.marks → IfOk result (λ v. sum_by (λ (p : PieceSize).
            p.size) v.items ≡ len) }
        ensures err { IfErr result (λ e. e ≡ Refusal.OutOfMemory) }
    {
        tree::piece_sizes(*self.spare.allocator(), &self.root, self.len, keys, len)
    }

    /// Moves each bound at the place `position` down by one place. No bound may be there if `position` is 0. Takes no
    /// memory. O(log bounds + bounds at that place).
    pub fn lower_at(&mut self, position: usize)
        requires { All (λ m. m.position ≡ position → 0 < position) self.old.marks }
        ensures marks { self.new.marks ≡ map (lowered_at position) self.old.marks }
        ensures room { self.new.room ≡ self.old.room }
        ensures rising { Rising self.new.marks }
    {
        if position > 0 {
            tree::lower_at(&mut self.root, position);
        }
    }

    /// Moves the bound of `mark`, which must be in the index, and each higher bound at the same place, up by one
    /// place. Returns the first bound above those that moved, or `None` if there is none. Takes no memory. O(log
    /// bounds + bounds at that place).
    pub fn raise_past(&mut self, mark: Mark) -> Option<Mark>
        requires there { Contains self.old.marks mark }
        requires small { mark.position < usize.MAX }
        ensures marks { self.new.marks ≡ map (raised mark.bound.0 mark.position) self.old.marks }
        ensures next { result ≡ first_after mark.position self.old.marks }
        ensures there { IfSome result (λ m. Contains self.new.marks m) }
        ensures room { self.new.room ≡ self.old.room }
        ensures rising { Rising self.new.marks }
    {
        let Mark { bound, position } = mark;
        let next = tree::first_after(&self.root, position);
        tree::raise(&mut self.root, bound.number(), position);
        next
    }

    /// Walks up from the least bound above the key. The visitor is given the place of the bound. If it returns true,
    /// that bound and the higher bounds at the same place move up by one, and the walk goes on at the first bound
    /// above them. If it returns false, the walk ends. Returns the bound at which the visitor ended the walk, or
    /// `None` if no bound was left. O(log bounds + bounds at the visited places). Takes no memory.
    #[inline(always)]
    pub fn climb<V: Visitor>(&mut self, key: Key, visitor: &mut V) -> Option<Mark>
        requires small { All (λ m. m.position < usize.MAX) self.old.marks }
        requires ready { V.is_ready visitor.old }
        ensures climbs { Climbs V.visits (next_mark key.0 self.old.marks) self.old.marks visitor.old result
            self.new.marks visitor.new }
        ensures ready { V.is_ready visitor.new }
        ensures there { IfSome result (λ m. Contains self.new.marks m) }
        ensures room { self.new.room ≡ self.old.room }
        ensures rising { Rising self.new.marks }
    {
        walk::climb(&mut self.root, key.number(), visitor)
    }

    /// Walks down from the greatest bound at or below the key. The visitor is given the last place before the bound.
    /// If it returns true, that bound and the lower bounds at the same place move down by one, and the walk goes on at
    /// the first bound below them. If it returns false, the walk ends. A bound at the place 0 has no place before it,
    /// and ends the walk too. Returns the bound at which the walk ended, or `None` if no bound was left.
    /// O(log bounds + bounds at the visited places). Takes no memory.
    #[inline(always)]
    pub fn descend<V: Visitor>(&mut self, key: Key, visitor: &mut V) -> Option<Mark>
        requires ready { V.is_ready visitor.old }
        ensures descends { Descends V.visits (last_mark key.0 self.old.marks) self.old.marks visitor.old result
            self.new.marks visitor.new }
        ensures ready { V.is_ready visitor.new }
        ensures there { IfSome result (λ m. Contains self.new.marks m) }
        ensures room { self.new.room ≡ self.old.room }
        ensures rising { Rising self.new.marks }
    {
        walk::descend(&mut self.root, key.number(), visitor)
    }

    /// Walks over the bounds from the highest down. The visitor is given each bound, and returns by how many places it
    /// is to move up. No bound rises farther than `most`, or farther than the bound above it rose. A bound that
    /// doesn't rise ends the walk: the bounds below it stay where they are. Returns how far the lowest bound rose, or
    /// `most` if there are no bounds. O(bounds that rise + log bounds). Takes no memory.
    pub fn raise_each<V: Raiser>(&mut self, most: usize, visitor: &mut V) -> usize
        requires small { All (λ m. m.position + most ≤ usize.MAX) self.old.marks }
        requires ready { V.is_ready visitor.old }
        ensures raises { Raises V.rises most (reverse self.old.marks) visitor.old (reverse self.new.marks)
            visitor.new result }
        ensures ready { V.is_ready visitor.new }
        ensures room { self.new.room ≡ self.old.room }
        ensures rising { Rising self.new.marks }
    {
        raising::raise_down(&mut self.root, most, visitor)
    }
    /// Walks over the bounds from the lowest up. The visitor is given each bound, and returns the bound's new place.
    /// If that is before the new place of the bound below it, the bound gets the place of the bound below instead.
    /// Returns the new place of the highest bound, or 0 if there are no bounds. O(bounds). Takes no memory.
    pub fn place_each<V: Placer>(&mut self, visitor: &mut V) -> usize
        requires { V.is_ready visitor.old }
        ensures places { Places V.places 0 self.old.marks visitor.old self.new.marks visitor.new result }
        ensures ready { V.is_ready visitor.new }
        ensures room { self.new.room ≡ self.old.room }
        ensures rising { Rising self.new.marks }
    {
        lowering::place_up(&mut self.root, 0, visitor)
    }
}
