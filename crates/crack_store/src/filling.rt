//! Pulls the first pending deletions of a range in bulk, each with a filler. The doomed rows are taken out of the
//! column's pieces, from the lowest up to a bound; the fillers, pending insertions with keys from that bound up to the
//! next one, take the places before the bound; and the doomed rows are buried in order of arrival.
ghost use Rattle.std.specs.Prelude.{◌≡◌, ◌<◌, ◌≤◌, [], Some, length, All, Contains, IfSome, IsTrue, IsFalse};
ghost use Rattle.crack_arena.specs.Rows.{keys_at};
ghost use Rattle.crack_state.specs.Carried.{inside_of};
ghost use Rattle.crack_state.specs.Filled.{IsFilled};
ghost use Rattle.crack_arena.specs.Memories.{Remembers};
ghost use Rattle.crack_pending.specs.Pending.{Finds};
ghost use Rattle.crack_state.specs.State.{Reads, live_rows};
ghost use Rattle.crack_store.specs.Fillings.{CanBeFilled, FillsAs, IsNextTo, IsStocked};
ghost use Rattle.crack_store.specs.Inside.{lists_of};
ghost use Rattle.crack_store.specs.Keeps.{KeepsIntact};

use crate::Store;
use crate::draining::{Drain, FEW_BOUNDS, bury_all, doomed_in, is_worth_bulk};
use crate::inside::Inside;
use crate::points::row_at;
use crate::sifting::count_in;
use crack_arena::{Arena, Remembered};
use crack_column::{CrackerColumn, Doomed};
use crack_index::{CrackerIndex, Mark, Placer};
use crack_pending::PendingIn;
use crack_row::{KeyNumber, KeyRange, Row};

impl Store {
    /// Pulls pending deletions of a range in bulk, each with a filler, with the result of pulling them one after the
    /// other, and returns `true`. A filler is a pending insertion whose key is in `fillers`, and `first` is the place
    /// of the first filler among all pending insertions. Takes the deletions and the fillers in order of arrival,
    /// until one kind is used up. Returns `false`, and changes nothing, if
    /// - there are more than 64 bounds;
    /// - no pending deletion is in the range, or one of those in the range is in a piece of more than 4,096 rows;
    /// - the index has no bound at the low end of `fillers`, or has another bound among its keys;
    /// - no memory is found to list the pending deletions of the range.
    ///
    /// O(pending rows and holes + bounds), and for each row pulled O(bounds) and one search of its piece, which is
    /// short.
    pub fn fill_in_bulk(&mut self, range: KeyRange, fillers: KeyRange, first: usize) -> bool
        requires behind { range.high ≤ fillers.low }
        requires first { Finds fillers (keys_at self.old.cells self.old.pending_in) 0 (Some first) }
        ensures filled { IsTrue result → IsFilled range fillers self.old self.new }
        ensures live { live_rows self.new ≡ live_rows self.old }
        ensures same { IsFalse result → self.new ≡ self.old }
    {
        if FEW_BOUNDS < self.inside.index.len() {
            return false;
        }
        self.inside.pending_out.close_up();
        let Some(edge) = edge_of(&self.inside.index, fillers) else {
            return false;
        };
        let alloc = *self.inside.serials.allocator();
        let Some(mut doomed) = doomed_in(&self.inside.pending_out, range, &self.inside.arena, alloc)
        else {
            return false;
        };
        if doomed.is_empty() || !is_worth_bulk(&self.inside, &doomed) {
            return false;
        }
        let count = count_in(
            &mut self.inside.pending_in,
            fillers,
            first,
            &self.inside.arena,
        );
        doomed.truncate(count);
        fill_rows(&mut self.inside, doomed, fillers, first, edge);
        true
    }
}

/// The bound at which the range `fillers` begins, with its place. `None` if the index has no such bound, or if another
/// bound is among the keys of the range. O(log bounds).
fn edge_of(index: &CrackerIndex, fillers: KeyRange) -> Option<Mark>
    ensures { IfSome result (IsNextTo fillers index.now.marks) }
{
    let key = fillers.low().least_key()?;
    let mark = index.bound_below(key)?;
    if mark.bound.number() != key.number() {
        return None;
    }
    if let Some(next) = index.bound_above(key) {
        if fillers.high().is_above(next.bound.key()) {
            return None;
        }
    }
    Some(mark)
}

/// Pulls these pending deletions out of the pieces below the bound `edge`, stores as many fillers right before it, and
/// buries the pending deletions. A filler is a pending insertion whose key is in `fillers`, and `first` is the place
/// of the first one among all pending insertions.
fn fill_rows(inside: &mut Inside, doomed: Vec<Doomed>, fillers: KeyRange, first: usize, edge: Mark)
    requires intact { KeepsIntact inside.old [] }
    requires first { Finds fillers (keys_at inside.old.arena.cells inside.old.pending_in.handles) 0 (Some first) }
    requires can { CanBeFilled doomed.items fillers edge (lists_of inside.old) }
    ensures filled { FillsAs doomed.items fillers edge (lists_of inside.old) (lists_of inside.new) }
    ensures intact { KeepsIntact inside.new [] }
{
    let count = doomed.len();
    let drain = Drain {
        column: inside.column.take(),
        doomed,
        low: 0,
        from: 0,
        gap: 0,
        pulled: inside.tally.pulled,
    };
    let edge_number = edge.bound.number();
    let mut below = DrainBelow {
        drain,
        edge: edge_number,
    };
    inside.index.place_each(&mut below);
    let DrainBelow { drain, .. } = below;
    let Drain {
        column,
        doomed,
        pulled,
        ..
    } = drain;
    inside.column = column;
    inside.tally.pulled = pulled.saturating_add(count as u64);
    put_fillers(
        &mut inside.pending_in,
        &mut inside.column,
        fillers,
        first,
        edge.position,
        count,
        &inside.arena,
    );
    inside.pending_in.shrink_if_empty(inside.in_room);
    inside.tally.insertions = inside.tally.insertions.saturating_add(count as u64);
    bury_all(inside, &doomed);
}

/// Takes the first `count` rows in the range `fillers` out of the pending insertions `rows`, and stores them in the
/// column at the places right before `place`, in reverse order; the handles there are replaced. `first` is the place
/// of the first such row in `rows`.
fn put_fillers(
    rows: &mut PendingIn,
    column: &mut CrackerColumn,
    fillers: KeyRange,
    first: usize,
    place: usize,
    count: usize,
    arena: &Arena<Row>,
)
    requires within { place ≤ length column.old.handles }
    requires fits { count ≤ place }
    requires enough { count ≤ length (inside_of arena.now.cells fillers rows.old.handles) }
    requires reads { All (Reads arena.now.cells) rows.old.handles }
    requires keys { Remembers arena.now.cells rows.old.handles rows.old.remembered }
    requires first { Finds fillers (keys_at arena.now.cells rows.old.handles) 0 (Some first) }
    requires remembered { Remembers arena.now.cells column.old.handles column.old.remembered }
    ensures { IsStocked arena.now.cells fillers place count column.old rows.old column.new rows.new }
{
    let mut at = first;
    'fillers: for i in 0..count {
        let Some(found) = rows.seek_in(fillers, at, arena) else {
            return;
        };
        let handle = rows.take(found);
        let known = Remembered::of(row_at(arena, handle));
        let _ = column.swap_in_remembered(place - 1 - i, handle, known);
        at = found;
    }
}

/// A `Drain` that stops at a bound: the bounds above it stay where they are.
#[derive(Drop)]
pub(crate) struct DrainBelow {
    drain: Drain,
    edge: KeyNumber,
}

impl Placer for DrainBelow {
    ghost use Rattle.crack_store.specs.Drainings.{IsDrainReady};
    ghost use Rattle.crack_store.specs.Fillings.{EmptiesBelow};

    ghost is_ready = { λ v. IsDrainReady v.drain };

    ghost places = { EmptiesBelow };

    /// Pulls the doomed rows out of the piece below the bound, and returns where that piece then ends: the bound's new
    /// place. For a bound above `edge`, returns the bound's place, and changes nothing.
    fn place(&mut self, mark: Mark) -> usize {
        if self.edge < mark.bound.number() {
            return mark.position;
        }
        self.drain.place(mark)
    }
}
