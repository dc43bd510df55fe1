//! Carries in bulk that meet doomed rows. The rows that come in are appended to the column, and pass its pieces from
//! the lowest up. A row turns a piece if it is below the piece's low bound and isn't doomed: it is exchanged with the
//! piece's next row, which is then carried on instead of it. A row goes on from a piece if it is below the piece's
//! high bound and isn't doomed: it turns the next piece.
ghost use Rattle.std.specs.Prelude.{◌≡◌, ◌+◌, ◌-◌, ◌<◌, ◌≤◌, ◌++◌, ◌↔◌, ℕ, not, true, false, [], Some, None, map};
ghost use Rattle.std.specs.Prelude.{length, take, drop, filter, vec_capacity, slice_index_or, IsTrue, IsFalse, IfSome};
ghost use Rattle.crack_arena.specs.Arena.{no_handle};
ghost use Rattle.crack_arena.specs.Rows.{key_at, keys_at};
ghost use Rattle.crack_state.specs.Carried.{carried_in_bulk, inside_of};
ghost use Rattle.crack_state.specs.Sweeps.{goes_on, is_lower};
ghost use Rattle.crack_arena.specs.Memories.{Remembers};
ghost use Rattle.crack_column.specs.Drains.{doomed_handle};
ghost use Rattle.crack_pending.specs.Pending.{Finds};
ghost use Rattle.crack_state.specs.Merge.{outside_of};
ghost use Rattle.crack_state.specs.State.{live_rows};
ghost use Rattle.crack_state.specs.Steps.{SameButRoom};
ghost use Rattle.crack_store.specs.Inside.{lists_of};
ghost use Rattle.crack_store.specs.Keeps.{KeepsIntact};
ghost use Rattle.crack_store.specs.Sweepings.{ends_in, up_to, going_on, leaving, IsSweepReady, IsSweptTo, Sweeps};

use crate::draining::{bury_all, shorten};
use crate::inside::Inside;
use crate::taking::take_rows;
use crack_arena::{Arena, Handle, Remembered};
use crack_column::{CrackerColumn, Doomed};
use crack_index::{Mark, Placer};
use crack_pending::PendingOut;
use crack_row::{Bound, InnerBound, KeyNumber, KeyRange, Row};

/// Carries the `count` pending insertions of a range. `first` is the place of the range's first one among all pending
/// insertions. Doomed rows may be anywhere. Returns whether memory was found for the carried rows; if not, nothing has
/// changed. O(bounds), and O(pieces) for each carried row.
pub(crate) fn carry_by_sweeping(
    inside: &mut Inside,
    range: KeyRange,
    first: usize,
    count: usize,
) -> bool
    requires intact { KeepsIntact inside.old [] }
    requires first { Finds range (keys_at inside.old.arena.cells inside.old.pending_in.handles) 0 (Some first) }
    requires count { count ≡ length (inside_of inside.old.arena.cells range inside.old.pending_in.handles) }
    ensures carried { IsTrue result → SameButRoom (carried_in_bulk None range (lists_of inside.old))
        (lists_of inside.new) }
    ensures left { IsTrue result → inside.new.pending_in.handles ≡ outside_of inside.old.arena.cells range
        inside.old.pending_in.handles }
    ensures live { live_rows (lists_of inside.new) ≡ live_rows (lists_of inside.old) }
    ensures same { IsFalse result → SameButRoom (lists_of inside.old) (lists_of inside.new) }
    ensures intact { KeepsIntact inside.new [] }
{
    let alloc = *inside.serials.allocator();
    let Ok(taken) = Vec::with_capacity(alloc, count) else {
        return false;
    };
    let Ok(known) = Vec::with_capacity(alloc, count) else {
        return false;
    };
    let Ok(doomed) = Vec::with_capacity(alloc, count) else {
        return false;
    };
    if let Err(_) = inside.column.reserve(count) {
        return false;
    }
    sweep_rows(inside, range, first, taken, known, doomed);
    true
}

/// Carries the pending insertions of a range; `first` is the place of the range's first one among all pending
/// insertions. There must be room for the rows in the column, for their handles in `taken`, for what is remembered of
/// them in `known`, and for as many doomed rows in `doomed`; the three lists must be empty.
fn sweep_rows(
    inside: &mut Inside,
    range: KeyRange,
    first: usize,
    taken: Vec<Handle<Row>>,
    known: Vec<Remembered>,
    mut doomed: Vec<Doomed>,
)
    requires intact { KeepsIntact inside.old [] }
    requires first { Finds range (keys_at inside.old.arena.cells inside.old.pending_in.handles) 0 (Some first) }
    requires room { length (inside_of inside.old.arena.cells range inside.old.pending_in.handles) ≤
        inside.old.column.room }
    requires empty { taken.items ≡ [] }
    requires list { length (inside_of inside.old.arena.cells range inside.old.pending_in.handles) ≤
        vec_capacity taken }
    requires none_known { known.items ≡ [] }
    requires known_list { length (inside_of inside.old.arena.cells range inside.old.pending_in.handles) ≤
        vec_capacity known }
    requires none { doomed.items ≡ [] }
    requires doomed_room { length (inside_of inside.old.arena.cells range inside.old.pending_in.handles) ≤
        vec_capacity doomed }
    ensures carried { SameButRoom (carried_in_bulk None range (lists_of inside.old)) (lists_of inside.new) }
    ensures left { inside.new.pending_in.handles ≡ outside_of inside.old.arena.cells range
        inside.old.pending_in.handles }
    ensures live { live_rows (lists_of inside.new) ≡ live_rows (lists_of inside.old) }
    ensures intact { KeepsIntact inside.new [] }
{
    let from = inside.column.len();
    take_rows(
        &mut inside.pending_in,
        &mut inside.column,
        range,
        taken,
        known,
        &inside.arena,
    );
    inside.pending_in.shrink_if_empty(inside.in_room);
    let count = inside.column.len() - from;
    let mut sweep = Sweep {
        column: inside.column.take(),
        pending_out: &inside.pending_out,
        arena: &inside.arena,
        from,
        floor: range.low(),
        low: 0,
        start: 0,
        count: 0,
        moved: inside.tally.moved,
    };
    inside.index.place_each(&mut sweep);
    sweep_last(&mut sweep);
    let Sweep {
        mut column,
        moved,
        ..
    } = sweep;
    take_doomed(
        &mut column,
        &inside.pending_out,
        &inside.arena,
        from,
        &mut doomed,
    );
    inside.column = column;
    inside.tally.moved = moved;
    inside.tally.insertions = inside.tally.insertions.saturating_add(count as u64);
    bury_all(inside, &doomed);
}

/// Moves the incoming rows past the last piece; no bound moves.
fn sweep_last(sweep: &mut Sweep)
    requires { IsSweepReady sweep.old }
    ensures { IsSweptTo sweep.old sweep.new }
{
    let (made, _) = sweep_turned(
        &mut sweep.column,
        sweep.count,
        (sweep.low, None),
        (sweep.start, sweep.from),
        sweep.from,
        sweep.pending_out,
        sweep.arena,
    );
    sweep.moved = sweep.moved.saturating_add(made as u64);
}

/// Removes the doomed rows among the column's rows from the place `from` on, and appends them to `doomed`, in order.
/// `doomed` must be empty and have room. The other rows stay, in order.
fn take_doomed(
    column: &mut CrackerColumn,
    pending_out: &PendingOut,
    arena: &Arena<Row>,
    from: usize,
    doomed: &mut Vec<Doomed>,
)
    requires within { from ≤ length column.old.handles }
    requires remembers { Remembers arena.now.cells column.old.handles column.old.remembered }
    requires none { doomed.old.items ≡ [] }
    requires room { length column.old.handles - from ≤ vec_capacity doomed.old }
    ensures handles { column.new.handles ≡ take from column.old.handles ++
        filter (λ h. not (ends_in pending_out.now.handles h)) (drop from column.old.handles) }
    ensures doomed { map doomed_handle doomed.new.items ≡ filter (ends_in pending_out.now.handles)
        (drop from column.old.handles) }
    ensures remembers { Remembers arena.now.cells column.new.handles column.new.remembered }
{
    let mut low = from;
    'rows: for place in from..column.len() {
        if pending_out.contains(column.slot_at(place)) {
            let key = column.key_at(place, arena).number();
            let handle = column.at(place);
            doomed.push_reserved(Doomed { key, handle });
        } else {
            column.swap(low, place);
            low += 1;
        }
    }
    shorten(column, low);
}

/// Turns the column's pieces on a walk over the bounds from the lowest up. The rows from the place `from` on came
/// in, none below the bound `floor`. The piece that begins at the bound `low` and the place `start` is next, and
/// `count` of the rows turn it.
#[derive(Drop)]
pub(crate) struct Sweep<'a> {
    pub(crate) column: CrackerColumn,
    pub(crate) pending_out: &'a PendingOut,
    pub(crate) arena: &'a Arena<Row>,
    pub(crate) from: usize,
    pub(crate) floor: Bound,
    pub(crate) low: KeyNumber,
    pub(crate) start: usize,
    pub(crate) count: usize,
    /// The number of rows moved, as in the store's tally.
    pub(crate) moved: u64,
}

impl<'a> Placer for Sweep<'a> {
    ghost use Rattle.crack_store.specs.Sweepings.{IsSweepReady, SweepTurns};

    ghost is_ready = { IsSweepReady };

    ghost places = { SweepTurns };

    /// Moves the incoming rows past the piece below the bound, and returns the bound's new place: it rises by the
    /// number of rows that go on from the piece. If the bound is at or below the floor, no row turns its piece, and it
    /// keeps its place. It also keeps it, and nothing changes, if its place is before `start` or after `from`, or if
    /// the bound is below `low`.
    fn place(&mut self, mark: Mark) -> usize {
        let Mark { bound, position } = mark;
        if position < self.start || self.from < position || bound.number() < self.low {
            return position;
        }
        if is_up_to(bound, self.floor) {
            self.low = bound.number();
            self.start = position;
            self.count = 0;
            return position;
        }
        let (made, going) = sweep_turned(
            &mut self.column,
            self.count,
            (self.low, Some(bound)),
            (self.start, position),
            self.from,
            self.pending_out,
            self.arena,
        );
        self.moved = self.moved.saturating_add(made as u64);
        self.low = bound.number();
        self.start = position;
        self.count = going;
        position + going
    }
}

/// Whether the bound is at or below the floor.
fn is_up_to(bound: InnerBound, floor: Bound) -> bool
    ensures { IsTrue result ↔ (bound.0 ≤ floor.0) }
{
    bound.bound() <= floor
}

/// Does what `sweep_piece` does. `count` must be the number of rows from the place `from` on that turn the piece; if
/// it is 0, no row is moved.
fn sweep_turned(
    column: &mut CrackerColumn,
    count: usize,
    bounds: (KeyNumber, Option<InnerBound>),
    places: (usize, usize),
    from: usize,
    pending_out: &PendingOut,
    arena: &Arena<Row>,
) -> (usize, usize)
    requires counted { count ≡ going_on arena.now.cells pending_out.now.handles bounds.0
        (drop from column.old.handles) }
    requires keys { IfSome bounds.1 (λ high. bounds.0 ≤ high.0) }
    requires order { places.0 ≤ places.1 }
    requires before { places.1 ≤ from }
    requires within { from ≤ length column.old.handles }
    requires remembers { Remembers arena.now.cells column.old.handles column.old.remembered }
    ensures sweeps { Sweeps arena.now.cells pending_out.now.handles bounds.0 bounds.1 places.0 places.1 from
        column.old.handles column.new.handles result.0 }
    ensures counts { result.1 ≡ leaving arena.now.cells pending_out.now.handles bounds.1 (drop from
        column.new.handles) }
    ensures few { result.0 ≤ length column.old.handles - from }
    ensures small { places.1 + result.1 ≤ usize.MAX }
    ensures remembers { Remembers arena.now.cells column.new.handles column.new.remembered }
    ensures length { length column.new.handles ≡ length column.old.handles }
{
    if count == 0 {
        return (0, count_going(column, from, bounds.1, pending_out, arena));
    }
    sweep_piece(column, bounds, places, from, pending_out, arena)
}

/// Moves the rows from the place `from` on past a piece. `bounds` are the piece's low and high bound, `None` being the
/// high bound of the last piece, and `places` are the places where it begins and ends. Returns how often rows were
/// moved, and how many of the rows then from `from` on go on from the piece.
fn sweep_piece(
    column: &mut CrackerColumn,
    bounds: (KeyNumber, Option<InnerBound>),
    places: (usize, usize),
    from: usize,
    pending_out: &PendingOut,
    arena: &Arena<Row>,
) -> (usize, usize)
    requires keys { IfSome bounds.1 (λ high. bounds.0 ≤ high.0) }
    requires order { places.0 ≤ places.1 }
    requires before { places.1 ≤ from }
    requires within { from ≤ length column.old.handles }
    requires remembers { Remembers arena.now.cells column.old.handles column.old.remembered }
    ensures sweeps { Sweeps arena.now.cells pending_out.now.handles bounds.0 bounds.1 places.0 places.1 from
        column.old.handles column.new.handles result.0 }
    ensures counts { result.1 ≡ leaving arena.now.cells pending_out.now.handles bounds.1 (drop from
        column.new.handles) }
    ensures few { result.0 ≤ length column.old.handles - from }
    ensures small { places.1 + result.1 ≤ usize.MAX }
    ensures remembers { Remembers arena.now.cells column.new.handles column.new.remembered }
    ensures length { length column.new.handles ≡ length column.old.handles }
{
    let (low, high) = bounds;
    let (mut front, end) = places;
    let (mut used, mut made, mut going) = (from, 0, 0);
    'rows: for place in from..column.len() {
        if !turns(column, place, low, pending_out, arena) {
            going += leaves(column, place, high, pending_out, arena) as usize;
        } else if front < end {
            column.swap(front, place);
            going += leaves(column, place, high, pending_out, arena) as usize;
            front += 1;
            made += 1;
        } else {
            used = next_going(column, used, place, high, pending_out, arena);
            column.swap(used, place);
            going += 1;
            made += (used < place) as usize;
            used += 1;
        }
    }
    (made, going)
}

/// The first place from `used` on, and before `place`, whose row goes on (`leaves`) from a piece that ends at the
/// bound `high`; `place` if there is none.
fn next_going(
    column: &CrackerColumn,
    used: usize,
    place: usize,
    high: Option<InnerBound>,
    pending_out: &PendingOut,
    arena: &Arena<Row>,
) -> usize
    requires order { used ≤ place }
    requires within { place < length column.now.handles }
    requires remembers { Remembers arena.now.cells column.now.handles column.now.remembered }
    ensures low { used ≤ result }
    ensures high { result ≤ place }
    ensures before { (k : ℕ) → used ≤ k → k < result → goes_on (ends_in pending_out.now.handles)
        (up_to arena.now.cells pending_out.now.handles high)
        (slice_index_or column.now.handles k no_handle) ≡ false }
    ensures here { result < place → goes_on (ends_in pending_out.now.handles)
        (up_to arena.now.cells pending_out.now.handles high)
        (slice_index_or column.now.handles result no_handle) ≡ true }
{
    let mut next = used;
    'used: while next < place {
        if leaves(column, next, high, pending_out, arena) {
            return next;
        }
        next += 1;
    }
    next
}

/// How many of the rows from the place `from` on go on (`leaves`) from a piece that ends at the bound `high`. O(rows).
fn count_going(
    column: &CrackerColumn,
    from: usize,
    high: Option<InnerBound>,
    pending_out: &PendingOut,
    arena: &Arena<Row>,
) -> usize
    requires within { from ≤ length column.now.handles }
    requires remembers { Remembers arena.now.cells column.now.handles column.now.remembered }
    ensures counts { result ≡ leaving arena.now.cells pending_out.now.handles high (drop from column.now.handles) }
    ensures few { result ≤ length column.now.handles - from }
    ensures small { from + result ≤ usize.MAX }
{
    let mut count = 0;
    'rows: for place in from..column.len() {
        count += leaves(column, place, high, pending_out, arena) as usize;
    }
    count
}

/// Whether the row at the place goes on from a piece that ends at the bound `high` (`None` for the last piece): its
/// key is below that bound, if there is one, and it isn't doomed.
#[inline(always)]
fn leaves(
    column: &CrackerColumn,
    place: usize,
    high: Option<InnerBound>,
    pending_out: &PendingOut,
    arena: &Arena<Row>,
) -> bool
    requires within { place < length column.now.handles }
    requires remembers { Remembers arena.now.cells column.now.handles column.now.remembered }
    ensures { result ≡ goes_on (ends_in pending_out.now.handles)
        (up_to arena.now.cells pending_out.now.handles high)
        (slice_index_or column.now.handles place no_handle) }
{
    match high {
        Some(bound) => turns(column, place, bound.number(), pending_out, arena),
        None => !pending_out.contains(column.slot_at(place)),
    }
}

/// Whether the row at the place turns a piece that begins at the bound `low`: the row's key is below that bound, and
/// the row isn't doomed.
#[inline(always)]
fn turns(
    column: &CrackerColumn,
    place: usize,
    low: KeyNumber,
    pending_out: &PendingOut,
    arena: &Arena<Row>,
) -> bool
    requires within { place < length column.now.handles }
    requires remembers { Remembers arena.now.cells column.now.handles column.now.remembered }
    ensures { result ≡ goes_on (ends_in pending_out.now.handles)
        (is_lower (key_at arena.now.cells) (ends_in pending_out.now.handles) low)
        (slice_index_or column.now.handles place no_handle) }
{
    column.key_at(place, arena).number() < low && !pending_out.contains(column.slot_at(place))
}
