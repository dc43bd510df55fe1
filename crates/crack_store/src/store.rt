//! The store of a partition's rows.
ghost use Rattle.std.specs.Prelude.{◌≡◌, ◌+◌, ◌-◌, ◌<◌, ◌≤◌, ◌∷◌, [], length, IfOk, IfErr, OnOk, OnErr, IsOk, IfNone};
ghost use Rattle.std.specs.Prelude.{None};
ghost use Rattle.std.specs.List.Sorted.{IsPermutation};
ghost use Rattle.crack_row.specs.Layouts.{IsLayout};
ghost use Rattle.crack_arena.specs.Rows.{keys_at};
ghost use Rattle.crack_arena.specs.Arena.{StandsAt};
ghost use Rattle.crack_pending.specs.Pending.{Finds};
ghost use Rattle.crack_serials.specs.Serials.{handle_of};
ghost use Rattle.crack_state.specs.State.{State, IsIntact, live_rows};
ghost use Rattle.crack_state.specs.Steps.{lifted, lifted_last, row_inserted, IsInsertable, SameButRoom};
ghost use Rattle.crack_state.specs.Merge.{Refines, Stands, IsCracked, edge, bound_above};
ghost use Rattle.crack_state.specs.Points.{pending_by};
ghost use Rattle.crack_store.specs.Inside.{no_cells, IsLayoutOf};
ghost use Rattle.crack_store.specs.Further.{CracksFurther};

use crate::Carrying;
use crate::cracking::{code_pending, crack_at_ends, missing_ends};
use crate::further::{BOUNDS_BESIDE, crack_further};
use crate::inserting::{add_row, make_room_for_one};
use crate::inside::Inside;
use crate::notes::Notes;
use crate::steps::{take_in, take_last};
use crack_arena::{Arena, Handle};
use crack_column::CrackerColumn;
use crack_index::CrackerIndex;
use crack_pending::{PendingIn, PendingOut};
use crack_row::{Bound, KeyRange, Layout, PieceList, Refusal, Row, Serial};
use crack_serials::Serials;
use crack_state::MergeReport;
use std::alloc::Global;
use std::marker::Model;

/// The rows of a partition in cracked order, with the pending rows that no command has needed yet
/// ("Database Cracking", CIDR 2007; "Updating a Cracked Database", SIGMOD 2007).
#[derive(Drop)]
pub struct Store {
    pub(crate) inside: Inside,
}

impl Model for Store {
    ghost use Rattle.std.specs.Prelude.{[]};
    ghost use Rattle.crack_state.specs.State.{State};
    ghost use Rattle.crack_store.specs.Keeps.{KeepsIntact};
    ghost use Rattle.crack_store.specs.Inside.{lists_of};

    ghost Value = { State };

    ghost view = { λ s. lists_of s.inside };

    ghost invariant = { λ s. KeepsIntact s.inside [] };
}

impl Store {
    /// A store without rows, for these keys. O(1); takes no memory.
    pub fn new(alloc: Global, keys: KeyRange) -> Store
        ensures { result ≡ no_cells keys result.column_room result.in_room }
    {
        Store {
            inside: Inside {
                keys,
                arena: Arena::new(alloc),
                column: CrackerColumn::new(alloc),
                index: CrackerIndex::new(alloc),
                pending_in: PendingIn::new(alloc),
                pending_out: PendingOut::new(alloc),
                in_room: 0,
                notes: Notes::new(alloc),
                serials: Serials::new(alloc),
                tally: MergeReport {
                    insertions: 0,
                    deletions: 0,
                    evicted: 0,
                    moved: 0,
                    pulled: 0,
                },
            },
        }
    }

    /// States the invariant of every store, and does nothing.
    pub fn recall_invariant(&self)
        ensures { IsIntact self.now [] }
    {
        let _ = &self.inside;
    }

    /// Adds a row, in a free cell or a new one, as the last pending insertion. Its key must be one of the partition's,
    /// no row may have its serial, and a cell must be free or may be made. O(1), except for growth. Refused with
    /// `OutOfMemory` if no memory is found; then nothing has changed.
    pub fn insert(&mut self, row: Row) -> Result<(), Refusal>
        requires { IsInsertable row self.old }
        ensures ok { OnOk result (SameButRoom (row_inserted row self.old) self.new) }
        ensures live { OnOk result (IsPermutation (row ∷ live_rows self.old) (live_rows self.new)) }
        ensures same { OnErr result (SameButRoom self.old self.new) }
        ensures err { IfErr result (λ e. e ≡ Refusal.OutOfMemory) }
    {
        make_room_for_one(&mut self.inside, row.serial)?;
        add_row(&mut self.inside, row);
        Ok(())
    }

    /// Whether the row with this serial is a pending insertion (`true`) or in the column (`false`); `None` if there is
    /// no such row. O(1).
    pub fn is_pending(&self, serial: Serial) -> Option<bool>
        ensures value { result ≡ pending_by self.now serial.0 }
        ensures none { IfNone result (handle_of self.now.serials serial.0 ≡ None) }
    {
        match self.inside.serials.get(serial) {
            Some(handle) => Some(self.inside.pending_in.contains(handle.slot())),
            None => None,
        }
    }

    /// Cracks the column at both ends of the range: each end that is strictly between the ends of the partition's keys
    /// is then a bound of the index. O(size of the pieces cracked + bounds); if no bound is missing, O(log bounds),
    /// and never refused. Refused with `OutOfMemory` if no memory is found; then nothing has changed. If there are
    /// bounds, takes amortised O(1) more for each pending row, whose key is prepared for fast passes.
    pub fn crack(&mut self, range: KeyRange) -> Result<(), Refusal>
        ensures ok { OnOk result (Refines self.old self.new range) }
        ensures cracked { OnOk result (IsCracked self.new range) }
        ensures live { live_rows self.new ≡ live_rows self.old }
        ensures same { OnErr result (SameButRoom self.old self.new) }
        ensures spare { IsCracked self.old range → IsOk result }
        ensures err { IfErr result (λ e. e ≡ Refusal.OutOfMemory) }
    {
        code_pending(&mut self.inside);
        let missing = missing_ends(&self.inside, range);
        self.inside.index.reserve(missing.bounds())?;
        crack_at_ends(&mut self.inside, range, missing);
        Ok(())
    }

    /// Cracks the column at both ends of the range, as `crack` does, but before that beside each end, the low one
    /// first, if the end says little about its piece. It does if all of this holds: the index has bounds, and the end
    /// is missing from it, so that `crack` would add it; the end's piece has more than 2,048 rows; of nine keys
    /// sampled in that piece, neither end of the range has at least three below it and at least three not below it.
    /// The column is then cracked at this end and at a further bound: the median of the nine keys, or the low end of
    /// the piece plus one if that is greater.
    ///
    /// O(size of the pieces cracked + bounds); if no end is missing, O(log bounds), and never refused. Refused with
    /// `OutOfMemory` if no memory is found; then nothing has changed. Prepares pending rows' keys as `crack` does.
    pub fn crack_further(&mut self, range: KeyRange) -> Result<(), Refusal>
        ensures ok { OnOk result (CracksFurther self.old self.new range) }
        ensures cracked { OnOk result (IsCracked self.new range) }
        ensures live { live_rows self.new ≡ live_rows self.old }
        ensures same { OnErr result (SameButRoom self.old self.new) }
        ensures spare { IsCracked self.old range → IsOk result }
        ensures err { IfErr result (λ e. e ≡ Refusal.OutOfMemory) }
    {
        code_pending(&mut self.inside);
        if missing_ends(&self.inside, range).bounds() == 0 {
            return Ok(());
        }
        self.inside.index.reserve(BOUNDS_BESIDE)?;
        crack_further(&mut self.inside, range);
        Ok(())
    }

    /// Makes room for one more row in the column and one more pending insertion. O(1), except for growth. Refused with
    /// `OutOfMemory` if no memory is found; then nothing has changed.
    // If inlined, it makes the compiler copy whole stores in a merge.
    #[inline(never)]
    pub fn make_room(&mut self) -> Result<(), Refusal>
        ensures same { SameButRoom self.old self.new }
        ensures column { OnOk result (0 < self.new.column_room) }
        ensures pending_in { OnOk result (0 < self.new.in_room) }
        ensures err { IfErr result (λ e. e ≡ Refusal.OutOfMemory) }
    {
        self.inside.column.reserve(1)?;
        self.inside.pending_in.reserve(1)?;
        self.inside.in_room = 1;
        Ok(())
    }

    /// Takes the pending insertion at this place, in order of arrival, into the hand: its row is then in no list,
    /// until a step of the `Carrying` stores it in the column or evicts it. The column must have room for one more row
    /// (`make_room`). Amortised O(1) at the first place; k lifts at rising places take O(pending insertions + k).
    /// Takes no memory.
    pub fn lift(self, place: usize) -> Carrying
        requires there { place < length self.pending_in }
        requires room { 0 < self.column_room }
        ensures after { result ≡ lifted place self }
        ensures live { live_rows result.store ≡ live_rows self }
    {
        let Store { mut inside } = self;
        let near = take_in(&mut inside, place);
        Carrying { inside, near }
    }

    /// Takes the column's last row into the hand; the column must have one. Each bound after the row moves down by
    /// one. O(log bounds + bounds at that place); takes no memory.
    pub fn lift_last(self) -> Carrying
        requires { 0 < length self.column }
        ensures after { result ≡ lifted_last self }
        ensures live { live_rows result.store ≡ live_rows self }
    {
        let Store { mut inside } = self;
        let near = take_last(&mut inside);
        Carrying { inside, near }
    }

    /// The number of the column's rows between the ends of a range, including doomed ones. The column must be cracked
    /// at both ends. O(log bounds).
    pub fn count_between(&self, range: KeyRange) -> u64
        requires { IsCracked self.now range }
        ensures value { result ≡ edge self.now range.high - edge self.now range.low }
        ensures order { edge self.now range.low ≤ edge self.now range.high }
    {
        let _ = &self.inside;
        (self.edge(range.high()) - self.edge(range.low())) as u64
    }

    /// The place of the column where the rows at or above the bound begin. The bound must be in the index, or not
    /// strictly between the ends of the partition's keys. O(log bounds).
    pub(crate) fn edge(&self, bound: Bound) -> usize
        requires { Stands self.now bound.0 }
        ensures { result ≡ edge self.now bound.0 }
    {
        if bound <= self.inside.keys.low() {
            return 0;
        }
        if self.inside.keys.high() <= bound {
            return self.inside.column.len();
        }
        let Some(inner) = bound.inner() else {
            unreachable!()
        };
        match self.inside.index.position(inner) {
            Some(place) => place,
            None => unreachable!(),
        }
    }

    /// The next bound of the index above this one, or the partition's high end if there is none. O(log bounds).
    pub fn next_bound(&self, bound: Bound) -> Bound
        ensures { result.0 ≡ bound_above self.now bound.0 }
    {
        let Some(key) = bound.least_key() else {
            return self.inside.keys.high();
        };
        match self.inside.index.bound_above(key) {
            Some(mark) => mark.bound.bound(),
            None => self.inside.keys.high(),
        }
    }

    /// The layout of the store: the numbers of rows, cells and pending rows, and the pieces with their sizes. Cracks
    /// and merges nothing. O(bounds). Refused with `OutOfMemory` if no memory is found.
    pub fn layout(&self) -> Result<Layout, Refusal>
        ensures ok { IfOk result (λ layout. IsLayoutOf self.now layout) }
        ensures equations { IfOk result (λ layout. IsLayout self.now.keys layout) }
        ensures live { IfOk result (λ layout. layout.rows ≡ length (live_rows self.now)) }
        ensures err { IfErr result (λ e. e ≡ Refusal.OutOfMemory) }
    {
        let column = self.column_len() as u64;
        let pending_in = self.pending_in() as u64;
        let pending_out = self.pending_out() as u64;
        let pieces = self
            .inside
            .index
            .pieces(self.inside.keys, self.column_len())?;
        Ok(Layout {
            rows: column - pending_out + pending_in,
            column,
            pending_out,
            pending_in,
            cells: self.cells() as u64,
            free: self.free_cells() as u64,
            pieces: PieceList::from_vec(pieces),
        })
    }

    /// Frees the memory of the pending lists that holds no row, except room for some more rows: half as many as there
    /// are, and at least 8,192. Contracts see no change. O(1) if the lists have no holes, else O(pending rows); takes
    /// no memory and can't fail.
    pub fn shrink_pending(&mut self)
        ensures { self.new ≡ self.old }
    {
        self.inside.pending_in.shrink(self.inside.in_room);
        self.inside.pending_out.shrink(0);
    }

    /// The number of pending insertions. O(1).
    pub fn pending_in(&self) -> usize
        ensures { result ≡ length self.now.pending_in }
    {
        self.inside.pending_in.len()
    }

    /// The number of pending deletions. O(1).
    pub fn pending_out(&self) -> usize
        ensures { result ≡ length self.now.pending_out }
    {
        self.inside.pending_out.len()
    }

    /// The number of rows in the column, including doomed ones. O(1).
    pub fn column_len(&self) -> usize
        ensures { result ≡ length self.now.column }
    {
        self.inside.column.len()
    }

    /// The number of bounds in the index; the column has one more piece than that. O(1).
    pub fn bounds(&self) -> usize
        ensures { result ≡ length self.now.marks }
    {
        self.inside.index.len()
    }

    /// The number of cells, including free ones. O(1).
    pub fn cells(&self) -> usize
        ensures { result ≡ length self.now.cells }
    {
        self.inside.arena.cells()
    }

    /// The number of free cells. O(1).
    pub fn free_cells(&self) -> usize
        ensures { result ≡ length self.now.free }
    {
        self.inside.arena.free_cells()
    }

    /// What merges have counted since the store was made. O(1).
    pub fn tally(&self) -> MergeReport
        ensures { result ≡ self.now.tally }
    {
        self.inside.tally
    }

    /// The place of the first pending insertion whose key is in the range; `None` if there is none. O(pending
    /// insertions).
    pub fn first_in(&self, range: KeyRange) -> Option<usize>
        ensures { Finds range (keys_at self.now.cells self.now.pending_in) 0 result }
    {
        self.inside.pending_in.first_in(range, &self.inside.arena)
    }

    /// The place of the first pending deletion whose key is in the range; `None` if there is none. O(pending
    /// deletions).
    pub fn first_out(&self, range: KeyRange) -> Option<usize>
        ensures { Finds range (keys_at self.now.cells self.now.pending_out) 0 result }
    {
        self.inside.pending_out.first_in(range, &self.inside.arena)
    }

    /// The place of the first pending insertion at or after `from` whose key is in the range; `None` if there is
    /// none. O(1) for each that it passes.
    pub fn next_in(&self, range: KeyRange, from: usize) -> Option<usize>
        ensures { Finds range (keys_at self.now.cells self.now.pending_in) from result }
    {
        let arena = &self.inside.arena;
        self.inside.pending_in.next_in(range, from, arena)
    }

    /// The place of the first pending deletion at or after `from` whose key is in the range; `None` if there is
    /// none. O(1) for each that it passes.
    pub fn next_out(&self, range: KeyRange, from: usize) -> Option<usize>
        ensures { Finds range (keys_at self.now.cells self.now.pending_out) from result }
    {
        let arena = &self.inside.arena;
        self.inside.pending_out.next_in(range, from, arena)
    }

    /// Makes the next call of `doomed` start from this place, so that calls for rising places take one pass in total.
    /// Contracts see no change. O(1) for each pending deletion and hole that it passes.
    pub fn seek_out(&mut self, place: usize)
        requires { place < length self.old.pending_out }
        ensures { self.new ≡ self.old }
    {
        self.inside.pending_out.seek(place);
    }

    /// The pending deletion at this place, in order of arrival. O(1) if the list has no holes, or at the place that
    /// was last given to `seek_out`; else O(pending deletions and holes).
    pub fn doomed(&self, place: usize) -> Handle<Row>
        requires { place < length self.now.pending_out }
        ensures { StandsAt self.now.pending_out place result }
    {
        self.inside.pending_out.at(place)
    }
}
