//! The sums of the pieces into which bounds divide the keys of a partition.
ghost use Rattle.std.specs.Prelude.{◌≡◌, ℕ, ℤ, ◌+◌, ◌<◌, ◌≤◌, ◌^◌, ◌↔◌, [], length, IsTrue, IsSome, IfSome, OnSome};
ghost use Rattle.std.specs.Map.{keys_of};
ghost use Rattle.crack_row.specs.declared.TheConstants.{GREATEST_BOUND};
ghost use Rattle.crack_index.specs.Sums.{AreRight, SumsAreKnown, AreTrue, IsAdditive, IsEnd, Changes, Extends};
ghost use Rattle.crack_index.specs.Sums.{adjusted, joined_below, total_in, distance_in};
ghost use Rattle.crack_index.specs.Cuts.{StartsRise, Walks, sum_piece_at, next_at, put, given, dropped, span};

use crate::amounts;
use crate::source::SumSource;
use crate::sum_tree::{self, PieceNode, PieceSum, PieceTree};
use crack_row::{BoundNumber, GREATEST_KEY, Key, KeyNumber, KeyRange};
use std::alloc::Global;
use std::marker::Model;

/// The value that stands for an unknown sum. No sum of rows is that low.
pub const UNKNOWN: i128 = -170141183460469231731687303715884105728;

/// The sums of pieces, if known. A piece has the keys from its start up to the next piece; the last piece has all keys
/// from its start on. No piece has the keys below the first piece. Contracts see the list of pieces, each with its
/// start, and its sum or `UNKNOWN`.
#[derive(Drop)]
pub struct PieceSums {
    root: PieceTree,
    len: usize,
    alloc: Global,
}

impl Model for PieceSums {
    ghost use Rattle.std.specs.Prelude.{List, ℕ, ℤ};
    ghost use Rattle.crack_index.specs.SumTrees.{entries_in_tree};
    ghost use Rattle.crack_index.specs.SumKeeps.{AreCountedPieces};

    ghost Value = { List (ℕ × ℤ) };

    ghost view = { λ s. entries_in_tree s.root };

    ghost invariant = { λ s. AreCountedPieces (entries_in_tree s.root) s.len };
}

/// The result of a walk over pieces.
#[derive(Clone, Copy, Debug)]
pub(crate) enum Walked {
    /// All sums are known, and this is their total.
    Whole(i128),
    /// The first piece whose sum is unknown begins here.
    Unknown(KeyNumber),
    /// 128 bits aren't enough for the total.
    TooFar,
}

impl PieceSums {
    /// Makes a list without pieces. Takes no memory. O(1).
    pub fn new(alloc: Global) -> PieceSums
        ensures { result ≡ [] }
    {
        PieceSums {
            root: None,
            len: 0,
            alloc,
        }
    }

    /// The number of pieces. O(1).
    pub fn len(&self) -> usize
        ensures { result ≡ length self.now }
    {
        self.len
    }

    /// Whether there are no pieces. O(1).
    pub fn is_empty(&self) -> bool
        ensures { IsTrue result ↔ (self.now ≡ []) }
    {
        self.len == 0
    }

    /// Removes all pieces, and frees their memory. O(pieces).
    pub fn clear(&mut self)
        ensures { self.new ≡ [] }
    {
        self.root = None;
        self.len = 0;
    }

    /// Adds `change` to the sum of the piece that contains the key, if there is one and its sum is known. The sum
    /// becomes unknown if the result doesn't fit into 128 bits. Takes no memory. O(log pieces).
    pub fn adjust(&mut self, key: Key, change: i128)
        ensures value { self.new ≡ adjusted key.0 change self.old }
        ensures keys { keys_of self.new ≡ keys_of self.old }
        ensures right { (m m' : ℕ → ℕ → ℤ) → Changes key.0 change m m' → AreRight m self.old → AreRight m' self.new }
    {
        let Some((start, sum)) = self.piece_at(key.number()) else {
            return;
        };
        self.give(start, amounts::later(sum, change));
    }

    /// Joins the piece that begins at the key to the piece below it; does nothing if one of them doesn't exist. The
    /// joint sum is known if both sums are known and their total fits into 128 bits. Takes no memory. O(log pieces).
    pub fn join(&mut self, key: Key)
        ensures value { self.new ≡ joined_below key.0 self.old }
        ensures right { (m : ℕ → ℕ → ℤ) → IsAdditive m → AreRight m self.old → AreRight m self.new }
    {
        let key = key.number();
        let Some((start, upper)) = self.piece_at(key) else {
            return;
        };
        if start != key {
            return;
        }
        if key == 0 {
            return;
        }
        let Some((low, lower)) = self.piece_at(key - 1) else {
            return;
        };
        self.drop_at(key);
        self.give(low, amounts::whole(lower, upper));
    }

    /// Removes the piece that begins at the key, which must exist. Its keys become keys of the piece below it, whose
    /// sum isn't changed here.
    fn drop_at(&mut self, key: KeyNumber)
        requires { IsEnd key self.old }
        ensures value { self.new ≡ dropped key self.old }
        ensures rises { StartsRise self.old }
    {
        let root = self.root.take();
        self.root = sum_tree::remove(root, key);
        self.len -= 1;
    }

    /// The sum of a range that isn't empty: the total of the pieces in it. A piece that contains an end of the range
    /// is first cut there: the source is asked for the part in the range or, if it prefers that and the piece's sum
    /// is known, for the other part, which is then subtracted. It is also asked for each other unknown sum in the
    /// range. `None` if no memory is found, the source has no sum, or 128 bits aren't enough; known sums stay right.
    /// O(log pieces), and as much again for each sum that the source is asked for, besides the source's work.
    pub fn sum<S: SumSource>(&mut self, range: KeyRange, source: &S) -> Option<i128>
        requires { range.low < range.high }
        ensures right { (m : ℕ → ℕ → ℤ) → IsAdditive m → AreTrue (S.says source.now) m → AreRight m self.old
            → IfSome result (λ sum. sum ≡ m range.low range.high) × AreRight m self.new }
        ensures value { IfSome result (λ sum. sum ≡ total_in range self.new) }
        ensures known { OnSome result (SumsAreKnown range self.new) }
        ensures ends { OnSome result (IsEnd range.low self.new × IsEnd range.high self.new) }
        ensures more { Extends (S.says source.now) self.old self.new }
        ensures same { IsEnd range.low self.old → IsEnd range.high self.old → SumsAreKnown range self.old
            → self.new ≡ self.old }
        ensures found { IsEnd range.low self.old → IsEnd range.high self.old → SumsAreKnown range self.old
            → distance_in range self.old < 2 ^ 127 → IsSome result }
    {
        let Some((first, last)) = range.first_and_last() else {
            return None;
        };
        let (first, last) = (first.number(), last.number());
        if !self.cut_low(first, last, source) || !self.cut_high(last, source) {
            return None;
        }
        match self.walk(first, last) {
            Walked::Whole(total) => Some(total),
            Walked::Unknown(start) => self.learned(first, start, last, source),
            Walked::TooFar => None,
        }
    }

    /// Makes a piece begin at the key `first`, if none does: cuts the piece that contains the key, or adds a piece if
    /// none contains it. `last` is the last key of the range that is summed. If the piece that is cut has a known sum,
    /// the source is asked for the sum of one part: of the lower one if it prefers that, otherwise of the upper one.
    /// It isn't asked for the upper one if the piece goes on beyond `last`: then both sums become unknown. Returns
    /// false if no memory is found.
    fn cut_low<S: SumSource>(&mut self, first: KeyNumber, last: KeyNumber, source: &S) -> bool
        ensures more { Extends (S.says source.now) self.old self.new }
        ensures cut { IsTrue result → IsEnd first self.new }
        ensures same { IsEnd first self.old → self.new ≡ self.old }
        ensures done { IsEnd first self.old → IsTrue result }
    {
        let Some((start, sum)) = self.piece_at(first) else {
            return self.put(first, UNKNOWN);
        };
        if start == first {
            return true;
        }
        if sum == UNKNOWN {
            return self.split(start, first, UNKNOWN, UNKNOWN);
        }
        let next = self.next_at(first);
        let past = last as BoundNumber + 1;
        if amounts::prefers_rest(source, first as BoundNumber, next.min(past), start, next) {
            return self.split_below(start, first, sum, source);
        }
        if past < next {
            return self.split(start, first, UNKNOWN, UNKNOWN);
        }
        self.split_above(start, first, sum, source)
    }

    /// Makes a piece begin at the key after `last`, if none does and `last` isn't the greatest key: cuts the piece
    /// that contains that key, or adds a piece if none contains it. If the piece that is cut has a known sum, the
    /// source is asked for the sum of one part. Returns false if no memory is found.
    fn cut_high<S: SumSource>(&mut self, last: KeyNumber, source: &S) -> bool
        ensures more { Extends (S.says source.now) self.old self.new }
        ensures cut { IsTrue result → IsEnd (last + 1) self.new }
        ensures same { IsEnd (last + 1) self.old → self.new ≡ self.old }
        ensures done { IsEnd (last + 1) self.old → IsTrue result }
    {
        if last == GREATEST_KEY {
            return true;
        }
        let high = last + 1;
        let Some((start, sum)) = self.piece_at(high) else {
            return self.put(high, UNKNOWN);
        };
        if start == high {
            return true;
        }
        if sum == UNKNOWN {
            return self.split(start, high, UNKNOWN, UNKNOWN);
        }
        let next = self.next_at(high);
        if amounts::prefers_rest(
            source,
            start as BoundNumber,
            high as BoundNumber,
            start,
            next,
        ) {
            return self.split_above(start, high, sum, source);
        }
        self.split_below(start, high, sum, source)
    }

    /// Cuts the piece that begins at `start` at the key `at`, where none begins. Asks the source for the sum of
    /// the lower part; the upper part gets the rest of `sum`, the piece's sum. Returns false if no memory is
    /// found.
    fn split_below<S: SumSource>(
        &mut self,
        start: KeyNumber,
        at: KeyNumber,
        sum: i128,
        source: &S,
    ) -> bool
        requires found { sum_piece_at at self.old ≡ Some (start, sum) }
        requires apart { IsEnd at self.old → ⊥ }
        ensures more { Extends (S.says source.now) self.old self.new }
        ensures cut { IsTrue result → IsEnd at self.new }
    {
        let lower = amounts::asked(source, start as BoundNumber, at as BoundNumber);
        self.split(start, at, lower, amounts::rest(sum, lower))
    }

    /// Cuts the piece that begins at `start` at the key `at`, where none begins. Asks the source for the sum of the
    /// upper part; the lower part gets the rest of `sum`, the piece's sum. Returns false if no memory is found.
    fn split_above<S: SumSource>(
        &mut self,
        start: KeyNumber,
        at: KeyNumber,
        sum: i128,
        source: &S,
    ) -> bool
        requires found { sum_piece_at at self.old ≡ Some (start, sum) }
        requires apart { IsEnd at self.old → ⊥ }
        ensures more { Extends (S.says source.now) self.old self.new }
        ensures cut { IsTrue result → IsEnd at self.new }
    {
        let upper = amounts::asked(source, at as BoundNumber, self.next_at(at));
        self.split(start, at, amounts::rest(sum, upper), upper)
    }

    /// The total of the pieces that begin at keys from `first` to `last`. The source is first asked for the unknown
    /// sums of those that begin at `start` or above; the sums of those below `start` are known. `None` if the source
    /// doesn't have one of the sums, or 128 bits aren't enough.
    fn learned<S: SumSource>(
        &mut self,
        first: KeyNumber,
        start: KeyNumber,
        last: KeyNumber,
        source: &S,
    ) -> Option<i128>
        requires { (first ≤ start) × (start ≤ last) }
        ensures more { Extends (S.says source.now) self.old self.new }
        ensures value { IfSome result (λ sum. sum ≡ total_in (span first last) self.new) }
        ensures known { OnSome result (SumsAreKnown (span first last) self.new) }
        ensures rises { OnSome result (StartsRise self.new) }
    {
        if !self.learn(start, last, source) {
            return None;
        }
        match self.walk(first, last) {
            Walked::Whole(total) => Some(total),
            _ => None,
        }
    }

    /// Asks the source for each unknown sum of the pieces that begin at keys from `first` to `last`, and sets it.
    /// Returns false, and asks for no more, if the source doesn't have one of the sums.
    fn learn<S: SumSource>(&mut self, first: KeyNumber, last: KeyNumber, source: &S) -> bool
        requires { first ≤ last }
        ensures { Extends (S.says source.now) self.old self.new }
    {
        let mut from = first;
        'pieces: while let Walked::Unknown(start) = self.walk(from, last) {
            let sum = amounts::asked(source, start as BoundNumber, self.next_at(start));
            if sum == UNKNOWN {
                return false;
            }
            self.give(start, sum);
            if start == last {
                return true;
            }
            from = start + 1;
        }
        true
    }

    /// The total of the pieces that begin at keys from `first` to `last`, or the start of the first of them whose sum
    /// is unknown, or `TooFar` if all are known but 128 bits aren't enough for the total.
    fn walk(&self, first: KeyNumber, last: KeyNumber) -> Walked
        requires { first ≤ last }
        ensures { Walks (span first last) self.now result }
    {
        let total = sum_tree::total_between(&self.root, first, last);
        if total != UNKNOWN {
            return Walked::Whole(total);
        }
        let Some(start) = sum_tree::first_unknown(&self.root, first) else {
            return Walked::TooFar;
        };
        if last < start {
            return Walked::TooFar;
        }
        Walked::Unknown(start)
    }

    /// The piece that contains the key, if there is one: its start and its sum. O(log pieces).
    fn piece_at(&self, key: KeyNumber) -> Option<PieceSum>
        ensures value { result ≡ sum_piece_at key self.now }
        ensures rises { StartsRise self.now }
    {
        sum_tree::last_at(&self.root, key)
    }

    /// The start of the first piece that begins above the key, or `GREATEST_BOUND` if there is none.
    /// O(log pieces).
    fn next_at(&self, key: KeyNumber) -> BoundNumber
        ensures value { result ≡ next_at key self.now }
        ensures rises { StartsRise self.now }
    {
        sum_tree::next_above(&self.root, key)
    }

    /// Cuts the piece that begins at `start` at the key `at`, where none begins. The lower part gets the sum `lower`,
    /// and the upper part the sum `upper`. Returns false, and changes nothing, if no memory is found.
    fn split(&mut self, start: KeyNumber, at: KeyNumber, lower: i128, upper: i128) -> bool
        requires { IsEnd at self.old → ⊥ }
        ensures ok { IsTrue result → self.new ≡ given start lower (put at upper self.old) }
        ensures err { (IsTrue result → ⊥) → self.new ≡ self.old }
        ensures rises { StartsRise self.old }
    {
        if !self.put(at, upper) {
            return false;
        }
        self.give(start, lower);
        true
    }

    /// Adds a piece with this sum that begins at the key, where none begins. The sums of the other pieces stay.
    /// Returns false, and changes nothing, if no memory is found.
    fn put(&mut self, key: KeyNumber, sum: i128) -> bool
        requires { IsEnd key self.old → ⊥ }
        ensures ok { IsTrue result → self.new ≡ put key sum self.old }
        ensures err { (IsTrue result → ⊥) → self.new ≡ self.old }
        ensures rises { StartsRise self.old }
    {
        if self.len == usize::MAX {
            return false;
        }
        let entry = (key, sum);
        let Ok(node) = Box::new(self.alloc, PieceNode::leaf(entry)) else {
            return false;
        };
        let root = self.root.take();
        self.root = Some(sum_tree::insert(root, entry, node));
        self.len += 1;
        true
    }

    /// Sets the sum of the piece that begins at the key to `sum`, if there is such a piece. O(log pieces).
    fn give(&mut self, key: KeyNumber, sum: i128)
        ensures value { self.new ≡ given key sum self.old }
        ensures rises { StartsRise self.old }
    {
        sum_tree::give(&mut self.root, key, sum);
    }
}
