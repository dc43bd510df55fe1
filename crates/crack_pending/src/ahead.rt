//! Candidates: spots whose codes lie in the searched range. A spot is an index into a list's vectors; its code is
//! a 16-bit number that never falls as its row's key rises. A pass over codes finds many candidates ahead of time,
//! so that the next search finds them ready.
ghost use Rattle.std.specs.Prelude.{◌≡◌, ◌+◌, ◌-◌, ◌<◌, ◌≤◌, ℕ, length, List, [], slice_index};
ghost use Rattle.std.specs.Prelude.{vec_len, vec_capacity};
ghost use Rattle.crack_pending.specs.Inside.{Lies};
ghost use Rattle.crack_pending.specs.Ahead.{AreCandidates, IsAhead, IsNext};

use crate::code_pass::any_lies;
use crack_arena::Arena;
use crack_row::Row;
use crack_tags::TagList;
use std::alloc::Global;

/// How many codes are read at once, without a branch for each.
const BLOCK: usize = 32;

/// The greatest number of candidates in the list.
pub(crate) const MOST_AHEAD: usize = 1024;

/// The candidates at the spots `from..to`: the spots whose codes are from `first` to `last`. The candidates before the
/// position `next` in the list were passed. If a candidate's row is removed, its spot stays in the list.
#[derive(Drop)]
pub(crate) struct Ahead {
    first: u16,
    last: u16,
    from: usize,
    to: usize,
    candidates: Vec<usize>,
    next: usize,
    /// Whether the cells of the candidates were read, and the number of candidates whose cells have a row. The
    /// number isn't used: all cells are read together, so that taking the rows doesn't wait for the memory of one
    /// cell after another.
    is_warm: bool,
    live: usize,
}

impl Ahead {
    /// Makes an empty list. Takes no memory.
    pub(crate) fn new(alloc: Global) -> Ahead
        ensures { (codes : List ℕ) → IsAhead codes result }
    {
        Ahead {
            first: 0,
            last: 0,
            from: 0,
            to: 0,
            candidates: Vec::new(alloc),
            next: 0,
            is_warm: true,
            live: 0,
        }
    }

    /// Drops all candidates, and keeps their memory.
    pub(crate) fn forget(&mut self)
        ensures { (codes : List ℕ) → IsAhead codes self.new }
    {
        self.first = 0;
        self.last = 0;
        self.from = 0;
        self.to = 0;
        self.candidates.clear();
        self.next = 0;
    }

    /// Drops all candidates, and frees their memory.
    pub(crate) fn give_back(&mut self)
        ensures { (codes : List ℕ) → IsAhead codes self.new }
    {
        self.first = 0;
        self.last = 0;
        self.from = 0;
        self.to = 0;
        self.candidates.clear();
        self.next = 0;
        self.candidates.shrink_to(0);
    }

    /// The next candidate at or after `start`: the first spot whose code is from `first` to `last`, or a spot before
    /// it that had such a code until its row was removed. If there is none, the spot where the search ended: the end
    /// of the codes, or an earlier spot if no memory is found for candidates.
    pub(crate) fn seek(&mut self, codes: &[u16], first: u16, last: u16, start: usize) -> usize
        requires order { first ≤ last }
        requires low { last < 65535 }
        requires within { start ≤ length codes.now }
        requires ahead { IsAhead codes.now self.old }
        ensures ahead { IsAhead codes.now self.new }
        ensures next { IsNext codes.now first last start result }
    {
        self.turn_to(first, last, start);
        self.pass(start);
        self.look_on(codes);
        self.near()
    }

    /// Makes this a list of candidates for the codes from `first` to `last`. Drops the candidates, and starts again at
    /// `start`, if they are of other codes or `start` lies outside the searched spots. Otherwise nothing changes.
    fn turn_to(&mut self, first: u16, last: u16, start: usize)
        requires order { first ≤ last }
        requires low { last < 65535 }
        ensures ahead { (codes : List ℕ) → start ≤ length codes → IsAhead codes self.old → IsAhead codes self.new }
        ensures first { self.new.first ≡ first }
        ensures last { self.new.last ≡ last }
        ensures from { self.new.from ≤ start }
        ensures to { start ≤ self.new.to }
    {
        if self.first == first && self.last == last && self.from <= start && start <= self.to {
            return;
        }
        self.first = first;
        self.last = last;
        self.from = start;
        self.to = start;
        self.candidates.clear();
        self.next = 0;
    }

    /// Moves past the candidates before `start`: `near` returns none of them afterwards.
    fn pass(&mut self, start: usize)
        requires from { self.old.from ≤ start }
        requires to { start ≤ self.old.to }
        ensures ahead { (codes : List ℕ) → IsAhead codes self.old → IsAhead codes self.new }
        ensures first { self.new.first ≡ self.old.first }
        ensures last { self.new.last ≡ self.old.last }
        ensures from { self.new.from ≡ start }
    {
        self.from = start;
        self.next = first_after(&self.candidates, self.next, start);
    }

    /// If all candidates were passed, drops them, and searches the codes from where the search ended for further ones;
    /// it finds none if there is no memory for them. If a candidate is left, does nothing. O(spots that are searched).
    fn look_on(&mut self, codes: &[u16])
        requires ahead { IsAhead codes.now self.old }
        ensures ahead { IsAhead codes.now self.new }
        ensures first { self.new.first ≡ self.old.first }
        ensures last { self.new.last ≡ self.old.last }
        ensures from { self.old.from ≤ self.new.from }
        ensures passed { (spot : ℕ) → self.old.from ≤ spot → spot < self.new.from → ¬ Lies self.old.first self.old.last
            (slice_index codes.now spot) }
    {
        if self.next < self.candidates.len() {
            return;
        }
        self.candidates.clear();
        self.next = 0;
        self.from = self.to;
        self.is_warm = false;
        if self.candidates.reserve(MOST_AHEAD).is_err() {
            return;
        }
        self.to = gather(
            &mut self.candidates,
            codes,
            self.first,
            self.last,
            self.from,
        );
    }

    /// Reads the cells of all candidates, if they weren't read yet, so that they are in the cache.
    #[inline]
    pub(crate) fn warm(&mut self, tags: &TagList, arena: &Arena<Row>)
        ensures { (codes : List ℕ) → IsAhead codes self.old → IsAhead codes self.new }
    {
        if self.is_warm {
            return;
        }
        self.live = live_cells(&self.candidates, tags, arena);
        self.is_warm = true;
    }

    /// The next candidate, or the spot where the search ended if there is none.
    fn near(&self) -> usize
        ensures { (codes : List ℕ) → IsAhead codes self.now → IsNext codes self.now.first self.now.last
            self.now.from result }
    {
        if self.next < self.candidates.len() {
            return self.candidates[self.next];
        }
        self.to
    }
}

/// The position in the list, from `next` on, of the first candidate at or after `start`, or the list's end if there is
/// none.
fn first_after(candidates: &[usize], next: usize, start: usize) -> usize
    ensures after { next ≤ result }
    ensures passed { (k : ℕ) → next ≤ k → k < result → slice_index candidates.now k < start }
    ensures reached { result < length candidates.now → start ≤ slice_index candidates.now result }
{
    let mut place = next;
    'passed: while place < candidates.len() && candidates[place] < start {
        place += 1;
    }
    place
}

/// The number of candidates whose cells have a row. Reads the cells of all candidates.
#[inline(never)]
fn live_cells(candidates: &[usize], tags: &TagList, arena: &Arena<Row>) -> usize {
    let mut live = 0;
    'candidates: for place in 0..candidates.len() {
        let spot = candidates[place];
        if spot < tags.len() && arena.get(tags.handle(spot)).is_some() {
            live += 1;
        }
    }
    live
}

/// Appends to `candidates` the spots in `from..to` whose codes are from `first` to `last`. There must be room.
fn gather_between(
    candidates: &mut Vec<usize>,
    codes: &[u16],
    first: u16,
    last: u16,
    from: usize,
    to: usize,
)
    requires order { first ≤ last }
    requires span { from ≤ to }
    requires within { to ≤ length codes.now }
    requires room { vec_len candidates.old + (to - from) ≤ vec_capacity candidates.old }
    ensures gathered { (begin : ℕ) → AreCandidates codes.now first last begin from candidates.old.items 0
        → AreCandidates codes.now first last begin to candidates.new.items 0 }
    ensures length { vec_len candidates.new ≤ vec_len candidates.old + (to - from) }
    ensures capacity { vec_capacity candidates.new ≡ vec_capacity candidates.old }
{
    let width = last - first;
    'spots: for spot in from..to {
        if codes[spot].wrapping_sub(first) <= width {
            candidates.push_reserved(spot);
        }
    }
}

/// Fills the empty list with the spots from `from` on whose codes are from `first` to `last`, at most `MOST_AHEAD` of
/// them. Returns the spot up to which it found all.
pub(crate) fn gather(
    candidates: &mut Vec<usize>,
    codes: &[u16],
    first: u16,
    last: u16,
    from: usize,
) -> usize
    requires order { first ≤ last }
    requires low { last < 65535 }
    requires within { from ≤ length codes.now }
    requires empty { candidates.old.items ≡ [] }
    requires room { 1024 ≤ vec_capacity candidates.old }
    ensures ahead { AreCandidates codes.now first last from result candidates.new.items 0 }
    ensures capacity { vec_capacity candidates.new ≡ vec_capacity candidates.old }
{
    let mut spot = from;
    'far: while BLOCK <= codes.len() - spot && candidates.len() <= MOST_AHEAD - BLOCK {
        if any_lies(&codes[spot..spot + BLOCK], first, last) {
            gather_between(candidates, codes, first, last, spot, spot + BLOCK);
        }
        spot += BLOCK;
    }
    if BLOCK <= codes.len() - spot || MOST_AHEAD - BLOCK < candidates.len() {
        return spot;
    }
    let end = codes.len();
    gather_between(candidates, codes, first, last, spot, end);
    end
}
