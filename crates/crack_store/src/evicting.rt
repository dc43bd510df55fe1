//! Carries all pending insertions of a range in bulk under a ceiling. Their rows take the places of the first rows
//! beyond the ceiling, which are evicted. Then they are sifted through the pieces below the ceiling, from the highest
//! down: a row that belongs to a lower piece is exchanged with the first row of the piece, and so moves past it.
ghost use Rattle.std.specs.Prelude.{◌≡◌, ◌+◌, ◌-◌, ◌<◌, ◌≤◌, ◌^◌, [], Some, length, min, drop, vec_capacity};
ghost use Rattle.std.specs.Prelude.{All, Contains, IsTrue, IsFalse, IfSome};
ghost use Rattle.crack_arena.specs.Rows.{keys_at};
ghost use Rattle.crack_state.specs.Carried.{carried_in_bulk, inside_of};
ghost use Rattle.crack_arena.specs.Memories.{Agrees, Remembers};
ghost use Rattle.crack_index.specs.Marks.{Rising};
ghost use Rattle.crack_pending.specs.Pending.{Finds};
ghost use Rattle.crack_state.specs.State.{live_rows};
ghost use Rattle.crack_state.specs.Steps.{SameButRoom};
ghost use Rattle.crack_store.specs.Evictions.{AreApart, ArePut, IsExchanged, IsPut, IsSiftedBelow};
ghost use Rattle.crack_store.specs.Inside.{lists_of};
ghost use Rattle.crack_store.specs.Keeps.{KeepsIntact};
ghost use Rattle.crack_store.specs.Sieves.{IsSieveReady};

use crate::Store;
use crate::inside::Inside;
use crate::sifting::{FEWEST, MANY_PENDING, Sieve, count_in};
use crack_arena::{Arena, Handle, Remembered};
use crack_column::CrackerColumn;
use crack_index::{CrackerIndex, Mark, Placer, Raiser};
use crack_pending::PendingIn;
use crack_row::{Bound, KeyNumber, KeyRange, Row};

/// A walk passes this many bounds in about the time in which one row is carried by itself.
const BOUNDS_A_ROW: usize = 8;

/// A pass looks at this many pending insertions in about the time in which a walk passes one bound.
const ROWS_A_BOUND: usize = 256;

impl Store {
    /// Carries all pending insertions of a range in bulk under a ceiling, with the result of carrying them one after
    /// the other, and returns `true`. `first` is the place of the range's first one among all pending insertions.
    /// Returns `false`, and changes nothing, if
    /// - any row is doomed, or the ceiling isn't a bound of the index;
    /// - fewer than two are in the range, or fewer than one for every eight bounds (not tested if more than 4,096
    ///   insertions are pending in total, and at least 256 for each bound);
    /// - no memory is found at once for all rows of the range and the rows that they evict, or, if the number of rows
    ///   of the range wasn't tested, for as many rows as insertions are pending in total.
    ///
    /// Makes two passes over the pending insertions, the first to count those in the range; only one if their number
    /// isn't tested. After that two walks over the bounds, and O(pieces below the ceiling) for each row carried.
    pub fn carry_under(&mut self, range: KeyRange, first: usize, ceiling: Bound) -> bool
        requires high { range.high ≤ ceiling.0 }
        requires first { Finds range (keys_at self.old.cells self.old.pending_in) 0 (Some first) }
        ensures carried { IsTrue result → SameButRoom (carried_in_bulk (Some ceiling.0) range self.old) self.new }
        ensures live { live_rows self.new ≡ live_rows self.old }
        ensures same { IsFalse result → SameButRoom self.old self.new }
    {
        if !self.inside.pending_out.is_empty() {
            return false;
        }
        let Some(edge) = mark_of(&self.inside, ceiling) else {
            return false;
        };
        let most = most_in(&mut self.inside, range, first);
        if is_few(&self.inside, most) {
            return false;
        }
        let alloc = *self.inside.serials.allocator();
        let Ok(taken) = Vec::with_capacity(alloc, most) else {
            return false;
        };
        let Ok(known) = Vec::with_capacity(alloc, most) else {
            return false;
        };
        let evicted = most.min(self.inside.column.len() - edge.position);
        if self.inside.column.reserve(most - evicted).is_err() {
            return false;
        }
        if self.inside.pending_in.reserve(evicted).is_err() {
            return false;
        }
        carry_rows(&mut self.inside, range, first, taken, known, edge);
        true
    }
}

/// The bound whose number is the ceiling's, with its place; `None` if the index has no such bound. O(log bounds).
fn mark_of(inside: &Inside, ceiling: Bound) -> Option<Mark>
    ensures there { IfSome result (λ m. Contains inside.now.index.marks m) }
    ensures same { IfSome result (λ m. m.bound.0 ≡ ceiling.0) }
{
    let key = ceiling.least_key()?;
    let mark = inside.index.bound_below(key)?;
    if mark.bound.number() != key.number() {
        return None;
    }
    Some(mark)
}

/// Whether the pending insertions of a range are counted only as they are taken: more than 4,096 are pending, and at
/// least 256 for each bound, so that counting those of a range first costs more than a walk over all bounds. O(1).
fn is_counted_late(inside: &Inside) -> bool {
    let pending = inside.pending_in.len();
    MANY_PENDING < pending && inside.index.len() <= pending / ROWS_A_BOUND
}

/// A number that is at least that of the pending insertions of a range: that number itself, or the number of all
/// pending insertions if `is_counted_late`. `first` is the place of the range's first one among all pending
/// insertions. O(pending insertions), or O(1) if they aren't counted.
fn most_in(inside: &mut Inside, range: KeyRange, first: usize) -> usize
    requires intact { KeepsIntact inside.old [] }
    requires first { Finds range (keys_at inside.old.arena.cells inside.old.pending_in.handles) 0 (Some first) }
    ensures most { length (inside_of inside.old.arena.cells range inside.old.pending_in.handles) ≤ result }
    ensures few { result ≤ length inside.old.pending_in.handles }
    ensures same { inside.new ≡ inside.old }
{
    if is_counted_late(inside) {
        return inside.pending_in.len();
    }
    count_in(&mut inside.pending_in, range, first, &inside.arena)
}

/// Whether this many rows are too few for walks over all bounds: fewer than two, or than one for every eight bounds.
/// O(1).
fn is_few(inside: &Inside, count: usize) -> bool {
    count < FEWEST || count < inside.index.len() / BOUNDS_A_ROW
}

/// Carries the pending insertions of a range under the ceiling at the bound `edge`; `first` is the place of the
/// range's first one among all pending insertions. No row may be doomed. There must be room for these rows and for
/// those that they evict, and, in the empty lists `taken` and `known`, for the handles of these rows and what is
/// remembered of them.
fn carry_rows(
    inside: &mut Inside,
    range: KeyRange,
    first: usize,
    taken: Vec<Handle<Row>>,
    known: Vec<Remembered>,
    edge: Mark,
)
    requires intact { KeepsIntact inside.old [] }
    requires none { inside.old.pending_out.handles ≡ [] }
    requires there { Contains inside.old.index.marks edge }
    requires high { range.high ≤ edge.bound.0 }
    requires first { Finds range (keys_at inside.old.arena.cells inside.old.pending_in.handles) 0 (Some first) }
    requires column_room { length (inside_of inside.old.arena.cells range inside.old.pending_in.handles) -
        (length inside.old.column.handles - edge.position) ≤ inside.old.column.room }
    requires in_room { min (length (inside_of inside.old.arena.cells range inside.old.pending_in.handles))
        (length inside.old.column.handles - edge.position) ≤ inside.old.pending_in.room }
    requires empty { taken.items ≡ [] }
    requires list { length (inside_of inside.old.arena.cells range inside.old.pending_in.handles) ≤
        vec_capacity taken }
    requires none_known { known.items ≡ [] }
    requires known_list { length (inside_of inside.old.arena.cells range inside.old.pending_in.handles) ≤
        vec_capacity known }
    ensures carried { SameButRoom (carried_in_bulk (Some edge.bound.0) range (lists_of inside.old))
        (lists_of inside.new) }
    ensures live { live_rows (lists_of inside.new) ≡ live_rows (lists_of inside.old) }
    ensures intact { KeepsIntact inside.new [] }
{
    let from = edge.position;
    let beyond = inside.column.len() - from;
    let count = exchange_rows(
        &mut inside.pending_in,
        &mut inside.column,
        range,
        taken,
        known,
        from,
        &inside.arena,
    );
    let evicted = count.min(beyond);
    inside.in_room = inside.in_room.saturating_sub(evicted);
    inside.pending_in.shrink_if_empty(inside.in_room);
    let sieve = Sieve {
        column: inside.column.take(),
        from,
        to: from + count,
        moved: inside.tally.moved,
    };
    let Sieve { column, moved, .. } = sift_below(&mut inside.index, sieve, edge, count);
    inside.column = column;
    inside.tally.moved = moved.saturating_add(evicted as u64);
    inside.tally.evicted = inside.tally.evicted.saturating_add(evicted as u64);
    inside.tally.insertions = inside.tally.insertions.saturating_add(count as u64);
}

/// Takes the rows of a range out of the pending insertions `rows`, and stores them, in order, in the column from the
/// place `from` on. Appends the rows that they replace to `rows`. The handles of the rows taken go to `taken`, and
/// what is remembered of them to `known`, which must both be empty. All four lists must have room. Returns how many
/// rows were taken. One pass over `rows`.
fn exchange_rows(
    rows: &mut PendingIn,
    column: &mut CrackerColumn,
    range: KeyRange,
    mut taken: Vec<Handle<Row>>,
    mut known: Vec<Remembered>,
    from: usize,
    arena: &Arena<Row>,
) -> usize
    requires within { from ≤ length column.old.handles }
    requires few { length column.old.handles + length rows.old.handles ≤ 2 ^ 32 }
    requires column_room { length (inside_of arena.now.cells range rows.old.handles) - (length column.old.handles -
        from) ≤ column.old.room }
    requires in_room { min (length (inside_of arena.now.cells range rows.old.handles)) (length column.old.handles -
        from) ≤ rows.old.room }
    requires empty { taken.items ≡ [] }
    requires list { length (inside_of arena.now.cells range rows.old.handles) ≤ vec_capacity taken }
    requires none_known { known.items ≡ [] }
    requires known_list { length (inside_of arena.now.cells range rows.old.handles) ≤ vec_capacity known }
    requires keys { Remembers arena.now.cells rows.old.handles rows.old.remembered }
    requires remembered { Remembers arena.now.cells column.old.handles column.old.remembered }
    requires apart { AreApart rows.old.covered (drop from column.old.handles) rows.old.handles }
    ensures exchanged { IsExchanged arena.now.cells range from column.old rows.old column.new rows.new }
    ensures count { result ≡ length (inside_of arena.now.cells range rows.old.handles) }
{
    rows.take_in(range, arena, &mut taken, &mut known);
    put_rows(rows, column, &taken, &known, from, arena);
    taken.len()
}

/// Stores these handles in the column from the place `from` on, in order, each with what `known` remembers of its row.
/// Appends the rows that they replace to the pending insertions `rows`. Both lists must have room. O(1) for each
/// handle.
fn put_rows(
    rows: &mut PendingIn,
    column: &mut CrackerColumn,
    handles: &[Handle<Row>],
    known: &[Remembered],
    from: usize,
    arena: &Arena<Row>,
)
    requires within { from ≤ length column.old.handles }
    requires few { length column.old.handles + length handles.now ≤ 2 ^ 32 }
    requires column_room { length handles.now - (length column.old.handles - from) ≤ column.old.room }
    requires in_room { min (length handles.now) (length column.old.handles - from) ≤ rows.old.room }
    requires known { Remembers arena.now.cells handles.now known.now }
    requires remembered { Remembers arena.now.cells column.old.handles column.old.remembered }
    requires keys { Remembers arena.now.cells rows.old.handles rows.old.remembered }
    requires apart { AreApart rows.old.covered (drop from column.old.handles) rows.old.handles }
    ensures { ArePut arena.now.cells from handles.now column.old rows.old column.new rows.new }
{
    'handles: for i in 0..handles.len() {
        put_at(rows, column, from + i, handles[i], known[i], arena);
    }
}

/// Stores a handle at a place of the column, with what is remembered of its row; if nothing is, the row is read.
/// Appends the row that was there to the pending insertions `rows`. If the place is the column's end, no row was
/// there, and the handle is appended to the column. O(1).
fn put_at(
    rows: &mut PendingIn,
    column: &mut CrackerColumn,
    place: usize,
    handle: Handle<Row>,
    known: Remembered,
    arena: &Arena<Row>,
)
    requires within { place ≤ length column.old.handles }
    requires column_room { place ≡ length column.old.handles → 0 < column.old.room }
    requires in_room { place < length column.old.handles → 0 < rows.old.room }
    requires known { Agrees arena.now.cells handle known }
    requires remembered { Remembers arena.now.cells column.old.handles column.old.remembered }
    requires keys { Remembers arena.now.cells rows.old.handles rows.old.remembered }
    requires apart { AreApart rows.old.covered (drop place column.old.handles) rows.old.handles }
    ensures { IsPut arena.now.cells place handle column.old rows.old column.new rows.new }
{
    let known = known.or_read(arena, handle);
    if place < column.len() {
        let (evicted, memory) = column.swap_in_remembered(place, handle, known);
        rows.push_remembered(evicted, memory.or_read(arena, evicted));
    } else {
        column.append_remembered(handle, known);
    }
}

/// Sifts the `count` rows of a sieve, which begin at the place of the bound `edge`, through the pieces below `edge`.
/// Each lower bound moves up by the number of these rows that are below it. `edge` and the bounds above it move up
/// only if their places are among these rows: to the place after them. Returns the sieve. O(bounds).
fn sift_below(index: &mut CrackerIndex, sieve: Sieve, edge: Mark, count: usize) -> Sieve
    requires ready { IsSieveReady sieve }
    requires some { 0 < count }
    requires rising { Rising index.old.marks }
    requires there { Contains index.old.marks edge }
    requires small { All (λ m. m.position + count ≤ usize.MAX) index.old.marks }
    ensures sifts { IsSiftedBelow edge count index.old.marks sieve index.new.marks result }
    ensures room { index.new.room ≡ index.old.room }
    ensures rising { Rising index.new.marks }
{
    let ceiling = edge.bound.number();
    let mut under = CeilingSieve {
        sieve,
        ceiling,
        count,
    };
    index.raise_each(count, &mut under);
    let mut stop = CeilingStop {
        ceiling,
        count,
        least: edge.position + count,
    };
    index.place_each(&mut stop);
    under.sieve
}

/// On a walk over the bounds from the highest down, sifts rows at the bounds below a ceiling, and raises the others
/// by the number of rows that come in.
#[derive(Drop)]
pub(crate) struct CeilingSieve {
    sieve: Sieve,
    ceiling: KeyNumber,
    count: usize,
}

impl Raiser for CeilingSieve {
    ghost use Rattle.crack_store.specs.Sieves.{IsSieveReady};
    ghost use Rattle.crack_store.specs.Evictions.{RisesUnder};

    ghost is_ready = { λ v. IsSieveReady v.sieve };

    ghost rises = { RisesUnder };

    /// How far the bound rises. If the bound is below the ceiling, sifts the rows through the piece above it, and
    /// returns how many of them are below the bound; otherwise returns `count`, and changes nothing.
    fn rise(&mut self, mark: Mark) -> usize {
        if self.ceiling <= mark.bound.number() {
            return self.count;
        }
        self.sieve.rise(mark)
    }
}

/// On a walk over the bounds from the lowest up, moves the bounds from a ceiling on, which rose by the number of
/// rows that came in, back to their places, but not before the place `least`.
#[derive(Drop)]
pub(crate) struct CeilingStop {
    ceiling: KeyNumber,
    count: usize,
    least: usize,
}

impl Placer for CeilingStop {
    ghost use Rattle.std.specs.Prelude.{⊤};
    ghost use Rattle.crack_store.specs.Evictions.{StandsUnder};

    ghost is_ready = { λ _. ⊤ };

    ghost places = { StandsUnder };

    /// The place for a bound: its present one if the bound is below the ceiling; otherwise the one that it had before
    /// it rose by `count`, or `least` if that is greater.
    fn place(&mut self, mark: Mark) -> usize {
        if mark.bound.number() < self.ceiling {
            return mark.position;
        }
        mark.position.saturating_sub(self.count).max(self.least)
    }
}
