//! Pulls all pending deletions of a range in bulk: takes the doomed rows out of the column's pieces, from the
//! lowest up, and then buries them in order of arrival.
ghost use Rattle.std.specs.Prelude.{◌≡◌, ◌<◌, ◌≤◌, [], length, map, All, IfSome, IsTrue, IsFalse};
ghost use Rattle.crack_arena.specs.Rows.{key_at};
ghost use Rattle.crack_arena.specs.Memories.{Remembers};
ghost use Rattle.crack_state.specs.Carried.{inside_of};
ghost use Rattle.crack_state.specs.Pulled.{buried_all, pulled_from, pulled_in_bulk};
ghost use Rattle.crack_column.specs.Drains.{doomed_handle};
ghost use Rattle.crack_state.specs.Merge.{outside_of};
ghost use Rattle.crack_state.specs.State.{live_rows};
ghost use Rattle.crack_store.specs.Drainings.{AreBuried, CanBePulled, IsDrainedTo, IsDrainReady};
ghost use Rattle.crack_store.specs.Drainings.{IsShortened, KeepsKeys};
ghost use Rattle.crack_store.specs.Drainings.{doomed_of};
ghost use Rattle.crack_store.specs.Inside.{lists_of};
ghost use Rattle.crack_store.specs.Keeps.{KeepsIntact};

use crate::Store;
use crate::inside::Inside;
use crack_arena::{Arena, key_of};
use crack_column::{CrackerColumn, Doomed};
use crack_index::{Mark, Piece, Placer};
use crack_pending::PendingOut;
use crack_row::{KeyNumber, KeyRange, Row};
use std::alloc::Global;

/// If there are many bounds, fewer rows than this are pulled one at a time: they aren't worth a walk over all
/// bounds.
const FEWEST: usize = 16;

/// There are many bounds if there are more than this.
pub(crate) const FEW_BOUNDS: usize = 64;

/// In a piece with more rows than this, one pass that finds all doomed rows is faster than a search for each.
const SHORT: usize = 4096;

impl Store {
    /// Pulls all pending deletions of a range in bulk, with the result of pulling them one after the other, each with
    /// the column's last row, and returns `true`. Returns `false`, and changes nothing, if
    /// - no pending deletion is in the range, or fewer than 16 are while there are more than 64 bounds;
    /// - one of those in the range is in a piece of more than 4,096 rows;
    /// - no memory is found to list those in the range.
    ///
    /// O(pending deletions and holes + bounds), and for each row pulled O(bounds) and one search of its piece, which
    /// is short.
    pub fn pull_in_bulk(&mut self, range: KeyRange) -> bool
        ensures pulled { IsTrue result → self.new ≡ pulled_in_bulk range self.old }
        ensures left { IsTrue result → self.new.pending_out ≡ outside_of self.old.cells range self.old.pending_out }
        ensures live { live_rows self.new ≡ live_rows self.old }
        ensures same { IsFalse result → self.new ≡ self.old }
    {
        self.inside.pending_out.close_up();
        let alloc = *self.inside.serials.allocator();
        let Some(doomed) = doomed_in(&self.inside.pending_out, range, &self.inside.arena, alloc)
        else {
            return false;
        };
        if doomed.is_empty() || !is_worth_bulk(&self.inside, &doomed) {
            return false;
        }
        pull_rows(&mut self.inside, doomed);
        true
    }
}

/// The pending deletions whose keys are in the range, in order of arrival; `None` if no memory is found to list
/// them. O(pending deletions).
pub(crate) fn doomed_in(
    rows: &PendingOut,
    range: KeyRange,
    arena: &Arena<Row>,
    alloc: Global,
) -> Option<Vec<Doomed>>
    requires keys { Remembers arena.now.cells rows.now.handles rows.now.remembered }
    requires few { length rows.now.handles < usize.MAX }
    ensures { IfSome result (λ doomed. doomed.items ≡ map (doomed_of arena.now.cells) (inside_of arena.now.cells range
        rows.now.handles)) }
{
    let mut doomed = Vec::new(alloc);
    let mut from = 0;
    'rows: while let Some(place) = rows.next_in(range, from, arena) {
        let handle = rows.at(place);
        let key = key_of(arena, handle).number();
        if doomed.push(Doomed { key, handle }).is_err() {
            return None;
        }
        from = place + 1;
    }
    Some(doomed)
}

/// Whether pulling these pending deletions is worth a walk over all bounds. It isn't if there are fewer than 16 of
/// them and more than 64 bounds, or if one of them is in a piece of more than 4,096 rows. O(rows · log bounds).
pub(crate) fn is_worth_bulk(inside: &Inside, doomed: &[Doomed]) -> bool {
    if doomed.len() < FEWEST && FEW_BOUNDS < inside.index.len() {
        return false;
    }
    'rows: for i in 0..doomed.len() {
        let key = key_of(&inside.arena, doomed[i].handle);
        let Piece { from, to, .. } = inside.index.piece_of(key, inside.column.len());
        if SHORT < to.saturating_sub(from) {
            return false;
        }
    }
    true
}

/// Pulls these pending deletions out of the column, in order, each with the column's last row, and then buries them in
/// the same order.
fn pull_rows(inside: &mut Inside, doomed: Vec<Doomed>)
    requires intact { KeepsIntact inside.old [] }
    requires doomed { CanBePulled doomed.items (lists_of inside.old) }
    ensures pulled { lists_of inside.new ≡ pulled_from (map doomed_handle doomed.items) (lists_of inside.old) }
    ensures intact { KeepsIntact inside.new [] }
{
    let mut drain = Drain {
        column: inside.column.take(),
        doomed,
        low: 0,
        from: 0,
        gap: 0,
        pulled: inside.tally.pulled,
    };
    inside.index.place_each(&mut drain);
    drain_last(&mut drain);
    let Drain {
        column,
        doomed,
        pulled,
        ..
    } = drain;
    inside.column = column;
    inside.tally.pulled = pulled;
    bury_all(inside, &doomed);
}

/// Pulls the doomed rows out of the last piece. The rows pulled out of all pieces are then the column's last ones, and
/// are removed from it.
fn drain_last(drain: &mut Drain)
    requires { IsDrainReady drain.old }
    ensures { IsDrainedTo drain.old drain.new }
{
    let len = drain.column.len();
    let (end, more) = drain
        .column
        .drain(drain.gap, drain.from, len, drain.low, None, &drain.doomed);
    shorten(&mut drain.column, end);
    drain.pulled = drain.pulled.saturating_add(more as u64);
}

/// Removes the last rows of a column, down to `len` rows. O(rows removed); reads none.
pub(crate) fn shorten(column: &mut CrackerColumn, len: usize)
    requires { len ≤ length column.old.handles }
    ensures { IsShortened len column.old column.new }
{
    let mut rows = column.len();
    'rows: while len < rows {
        column.pop_aside();
        rows -= 1;
    }
}

/// Removes these rows from the pending deletions, and frees their cells, in order. The list of pending deletions frees
/// its memory if it becomes empty. Amortised O(1) for each row.
pub(crate) fn bury_all(inside: &mut Inside, doomed: &[Doomed])
    requires { AreBuried (map doomed_handle doomed.now) inside.old.arena.cells inside.old.pending_out.handles }
    ensures buried { lists_of inside.new ≡ buried_all (map doomed_handle doomed.now) (lists_of inside.old) }
    ensures keys { KeepsKeys inside.old inside.new }
{
    'rows: for i in 0..doomed.len() {
        let handle = doomed[i].handle;
        inside.pending_out.strike(handle);
        let _ = inside.arena.free(handle);
        inside.tally.deletions = inside.tally.deletions.saturating_add(1);
    }
    inside.pending_out.shrink_if_empty(0);
}

/// A visitor of a walk over the bounds from the lowest up, which pulls doomed rows out of the column. The next
/// piece begins at the bound `low` and the place `from`. The rows pulled out of the pieces below it are in the
/// `gap` places before it.
#[derive(Drop)]
pub(crate) struct Drain {
    pub(crate) column: CrackerColumn,
    pub(crate) doomed: Vec<Doomed>,
    pub(crate) low: KeyNumber,
    pub(crate) from: usize,
    pub(crate) gap: usize,
    /// The number of rows pulled, as in the store's tally.
    pub(crate) pulled: u64,
}

impl Placer for Drain {
    ghost use Rattle.crack_store.specs.Drainings.{IsDrainReady, Empties};

    ghost is_ready = { IsDrainReady };

    ghost places = { Empties };

    /// Pulls the doomed rows out of the piece below the bound, and returns where that piece then ends: the bound's new
    /// place. If the bound's place is before the next piece or past the column's end, returns that place, and changes
    /// nothing.
    fn place(&mut self, mark: Mark) -> usize {
        let Mark { bound, position } = mark;
        if position < self.from || self.column.len() < position {
            return position;
        }
        let (end, more) = self.column.drain(
            self.gap,
            self.from,
            position,
            self.low,
            Some(bound),
            &self.doomed,
        );
        self.low = bound.number();
        self.from = position;
        self.gap = position - end;
        self.pulled = self.pulled.saturating_add(more as u64);
        end
    }
}
