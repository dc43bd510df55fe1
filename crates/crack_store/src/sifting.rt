//! Carries all pending insertions of a range in bulk: appends their rows to the column, and sifts them through its
//! pieces, from the highest down.
ghost use Rattle.std.specs.Prelude.{◌≡◌, ◌≤◌, ◌^◌, [], None, Some, length, vec_capacity, IsTrue, IsFalse};
ghost use Rattle.crack_arena.specs.Rows.{keys_at};
ghost use Rattle.crack_arena.specs.Memories.{Remembers};
ghost use Rattle.crack_state.specs.Carried.{carried_in_bulk, inside_of};
ghost use Rattle.crack_pending.specs.Pending.{Finds};
ghost use Rattle.crack_state.specs.Merge.{outside_of};
ghost use Rattle.crack_state.specs.State.{live_rows};
ghost use Rattle.crack_state.specs.Steps.{SameButRoom};
ghost use Rattle.crack_store.specs.Inside.{lists_of};
ghost use Rattle.crack_store.specs.Keeps.{KeepsIntact};
ghost use Rattle.crack_store.specs.Sieves.{AreClear, IsClear};

use crate::Store;
use crate::inside::Inside;
use crate::sweeping::carry_by_sweeping;
use crate::taking::take_rows;
use crack_arena::{Arena, Handle, Remembered, key_of};
use crack_column::CrackerColumn;
use crack_index::{Mark, Piece, Raiser};
use crack_pending::PendingIn;
use crack_row::{KeyRange, Row};

/// The fewest rows that are carried in bulk: one row isn't worth the walk over all bounds.
pub(crate) const FEWEST: usize = 2;

/// With more bounds than this, fewer than `FEWEST_OVER_MANY` rows aren't worth the walk over all bounds.
const MANY_BOUNDS: usize = 64;

/// The fewest rows that are carried in bulk if there are many bounds.
const FEWEST_OVER_MANY: usize = 8;

/// If more insertions than this are pending, those of a range are counted as they are taken.
pub(crate) const MANY_PENDING: usize = 4096;

/// The most doomed rows for which it is tested whether carries could meet them: of more, one is likely to be met.
const MOST_DOOMED: usize = 64;

impl Store {
    /// Carries all pending insertions of a range in bulk, with the result of carrying them one after the other, and
    /// returns `true`. `first` is the place of the range's first one among all pending insertions. Returns `false`,
    /// and changes nothing, if
    /// - the range has all of the partition's keys, and more insertions are pending than the column has rows;
    /// - fewer than two are in the range, or fewer than eight while there are more than 64 bounds (not tested if no
    ///   row is doomed and more than 4,096 insertions are pending in total);
    /// - no memory is found at once for all rows of the range, or, if their number wasn't tested, for as many rows as
    ///   insertions are pending in total.
    ///
    /// Makes two passes over the pending insertions, the first to count those in the range; only one if their number
    /// isn't tested. After that O(bounds), O(pieces) for each row carried, and, if at most 64 rows are doomed, O(rows
    /// carried + log bounds) for each of these.
    pub fn carry_in_bulk(&mut self, range: KeyRange, first: usize) -> bool
        requires { Finds range (keys_at self.old.cells self.old.pending_in) 0 (Some first) }
        ensures carried { IsTrue result → SameButRoom (carried_in_bulk None range self.old) self.new }
        ensures left { IsTrue result → self.new.pending_in ≡ outside_of self.old.cells range self.old.pending_in }
        ensures live { live_rows self.new ≡ live_rows self.old }
        ensures same { IsFalse result → SameButRoom self.old self.new }
    {
        if !is_worth_a_pass(&self.inside, range) {
            return false;
        }
        if is_counted_late(&self.inside) {
            let most = self.inside.pending_in.len();
            return carry_at_most(&mut self.inside, range, first, most);
        }
        let count = count_in(
            &mut self.inside.pending_in,
            range,
            first,
            &self.inside.arena,
        );
        if is_few(&self.inside, count) {
            return false;
        }
        if !is_clear(&self.inside, count) {
            return carry_by_sweeping(&mut self.inside, range, first, count);
        }
        carry_at_most(&mut self.inside, range, first, count)
    }
}

/// Whether a pass over the pending insertions of a range is worth it. It isn't if the range has all of the partition's
/// keys, and more insertions are pending than the column has rows. O(1).
fn is_worth_a_pass(inside: &Inside, range: KeyRange) -> bool {
    let keys = inside.keys;
    let is_whole = range.low() <= keys.low() && keys.high() <= range.high();
    let fits = inside.pending_in.len() <= inside.column.len();
    fits || !is_whole
}

/// Whether the pending insertions of a range are counted only as they are taken: no row is doomed, and more than 4,096
/// insertions are pending, so that counting those of a range first costs more than a walk over all bounds. O(1).
fn is_counted_late(inside: &Inside) -> bool
    ensures { IsTrue result → inside.now.pending_out.handles ≡ [] }
{
    inside.pending_out.is_empty() && MANY_PENDING < inside.pending_in.len()
}

/// Carries the pending insertions of a range, which are at most `most`; `first` is the place of the range's first one
/// among all pending insertions. If k rows are carried, no doomed row may be among the first k rows of its piece.
/// Returns `true`, or `false` if no memory was found for `most` rows; then nothing has changed.
fn carry_at_most(inside: &mut Inside, range: KeyRange, first: usize, most: usize) -> bool
    requires intact { KeepsIntact inside.old [] }
    requires clear { AreClear (length (inside_of inside.old.arena.cells range inside.old.pending_in.handles))
        (lists_of inside.old) }
    requires first { Finds range (keys_at inside.old.arena.cells inside.old.pending_in.handles) 0 (Some first) }
    requires most { length (inside_of inside.old.arena.cells range inside.old.pending_in.handles) ≤ most }
    requires few { most ≤ length inside.old.pending_in.handles }
    ensures carried { IsTrue result → SameButRoom (carried_in_bulk None range (lists_of inside.old))
        (lists_of inside.new) }
    ensures left { IsTrue result → inside.new.pending_in.handles ≡ outside_of inside.old.arena.cells range
        inside.old.pending_in.handles }
    ensures live { live_rows (lists_of inside.new) ≡ live_rows (lists_of inside.old) }
    ensures same { IsFalse result → SameButRoom (lists_of inside.old) (lists_of inside.new) }
    ensures intact { KeepsIntact inside.new [] }
{
    let alloc = *inside.serials.allocator();
    let Ok(taken) = Vec::with_capacity(alloc, most) else {
        return false;
    };
    let Ok(known) = Vec::with_capacity(alloc, most) else {
        return false;
    };
    if let Err(_) = inside.column.reserve(most) {
        return false;
    }
    carry_rows(inside, range, first, taken, known);
    true
}

/// How many pending insertions have their key in the range; `first` is the place of the first one that does. O(pending
/// insertions).
pub(crate) fn count_in(
    rows: &mut PendingIn,
    range: KeyRange,
    first: usize,
    arena: &Arena<Row>,
) -> usize
    requires few { length rows.old.handles ≤ 2 ^ 32 }
    requires keys { Remembers arena.now.cells rows.old.handles rows.old.remembered }
    requires first { Finds range (keys_at arena.now.cells rows.old.handles) 0 (Some first) }
    ensures counts { result ≡ length (inside_of arena.now.cells range rows.old.handles) }
    ensures same { rows.new ≡ rows.old }
{
    let (mut count, mut from) = (0, first);
    'rows: while let Some(place) = rows.seek_in(range, from, arena) {
        count += 1;
        from = place + 1;
    }
    count
}

/// Whether this many rows are too few for a walk over all bounds: fewer than two, or fewer than eight if there are
/// more than 64 bounds. O(1).
fn is_few(inside: &Inside, count: usize) -> bool {
    let fewest = if MANY_BOUNDS < inside.index.len() {
        FEWEST_OVER_MANY
    } else {
        FEWEST
    };
    count < fewest
}

/// Whether no doomed row is where carries of `count` rows could meet it: among the first `count` rows of its piece.
/// Also false if more than 64 rows are doomed. O(count + log bounds) for each doomed row.
fn is_clear(inside: &Inside, count: usize) -> bool
    requires intact { KeepsIntact inside.now [] }
    requires few { count ≤ 2 ^ 32 }
    ensures { IsTrue result → AreClear count (lists_of inside.now) }
{
    if MOST_DOOMED < inside.pending_out.len() {
        return false;
    }
    'doomed: for place in 0..inside.pending_out.len() {
        let handle = inside.pending_out.at(place);
        if is_in_way(inside, handle, count) {
            return false;
        }
    }
    true
}

/// Whether a row is among the first `count` rows of its piece. O(count + log bounds).
fn is_in_way(inside: &Inside, handle: Handle<Row>, count: usize) -> bool
    requires intact { KeepsIntact inside.now [] }
    requires few { count ≤ 2 ^ 32 }
    ensures { IsFalse result → IsClear count (lists_of inside.now) handle }
{
    let key = key_of(&inside.arena, handle);
    let Piece { from, to, .. } = inside.index.piece_of(key, inside.column.len());
    let met = to.min(from + count);
    inside.column.place_between(from, met, handle).is_some()
}

/// Carries the pending insertions of a range; `first` is the place of the range's first one among all pending
/// insertions. If k rows are carried, no doomed row may be among the first k rows of its piece. There must be room for
/// the rows in the column, for their handles in `taken`, and for what is remembered of them in `known`; both lists
/// must be empty.
fn carry_rows(
    inside: &mut Inside,
    range: KeyRange,
    first: usize,
    taken: Vec<Handle<Row>>,
    known: Vec<Remembered>,
)
    requires intact { KeepsIntact inside.old [] }
    requires clear { AreClear (length (inside_of inside.old.arena.cells range inside.old.pending_in.handles))
        (lists_of inside.old) }
    requires first { Finds range (keys_at inside.old.arena.cells inside.old.pending_in.handles) 0 (Some first) }
    requires room { length (inside_of inside.old.arena.cells range inside.old.pending_in.handles) ≤
        inside.old.column.room }
    requires empty { taken.items ≡ [] }
    requires list { length (inside_of inside.old.arena.cells range inside.old.pending_in.handles) ≤
        vec_capacity taken }
    requires none_known { known.items ≡ [] }
    requires known_list { length (inside_of inside.old.arena.cells range inside.old.pending_in.handles) ≤
        vec_capacity known }
    ensures carried { SameButRoom (carried_in_bulk None range (lists_of inside.old)) (lists_of inside.new) }
    ensures left { inside.new.pending_in.handles ≡ outside_of inside.old.arena.cells range
        inside.old.pending_in.handles }
    ensures live { live_rows (lists_of inside.new) ≡ live_rows (lists_of inside.old) }
    ensures intact { KeepsIntact inside.new [] }
{
    let from = inside.column.len();
    take_rows(
        &mut inside.pending_in,
        &mut inside.column,
        range,
        taken,
        known,
        &inside.arena,
    );
    inside.pending_in.shrink_if_empty(inside.in_room);
    let to = inside.column.len();
    let count = to - from;
    let mut sieve = Sieve {
        column: inside.column.take(),
        from,
        to,
        moved: inside.tally.moved,
    };
    inside.index.raise_each(count, &mut sieve);
    let Sieve { column, moved, .. } = sieve;
    inside.column = column;
    inside.tally.moved = moved;
    inside.tally.insertions = inside.tally.insertions.saturating_add(count as u64);
}

/// A visitor of a walk over the bounds from the highest down, which sifts rows through the column. The rows at the
/// places `from..to` came in, and belong to pieces below the bounds that were passed.
#[derive(Drop)]
pub(crate) struct Sieve {
    pub(crate) column: CrackerColumn,
    pub(crate) from: usize,
    pub(crate) to: usize,
    /// The number of rows moved, as in the store's tally.
    pub(crate) moved: u64,
}

impl Raiser for Sieve {
    ghost use Rattle.crack_store.specs.Sieves.{IsSieveReady, SieveRises};

    ghost is_ready = { IsSieveReady };

    ghost rises = { SieveRises };

    /// Sifts the incoming rows through the piece above the bound. Returns how far the bound rises: the number of these
    /// rows that are below it. If the bound's place is after that of the first incoming row, returns 0, and nothing
    /// changes.
    fn rise(&mut self, mark: Mark) -> usize {
        let Mark { bound, position } = mark;
        if self.from < position {
            return 0;
        }
        let (below, moved) = self.column.sift(position, self.from, self.to, bound);
        self.from = position;
        self.to = position + below;
        self.moved = self.moved.saturating_add(moved as u64);
        below
    }
}
