//! The arena: cells and their free list.
ghost use Rattle.std.specs.Prelude.{◌≡◌, ◌≢◌, ◌+◌, ◌%◌, ◌<◌, ◌≤◌, List, [], length, take, drop, option_copied};
ghost use Rattle.std.specs.Prelude.{MatchOption, MatchResult, IfOk, IfErr, OnOk, OnErr, OnSome, is_some, None, Some};
ghost use Rattle.crack_row.specs.declared.refusal.Refusal.TheVariants.{OutOfMemory};
ghost use Rattle.crack_arena.specs.Arena.{read, freed, CanPut, handle_for, value_put, set_at, freed_at};
ghost use Rattle.crack_arena.specs.Arena.{cell_at, IsWholeArena};
ghost use Rattle.crack_arena.specs.Arena.{IsSpent, KeepsSpent, ArenaCall, after_calls};
ghost use Rattle.crack_arena.specs.declared.TheConstants.{MOST_FREED};

use crate::cell_list::CellList;
use crate::cell_run::CellRun;
use crate::cells::Cell;
use crate::handles::Handle;
use crate::words::{FULL, NUMBERS, Word};
use crack_row::Refusal;
use std::alloc::Global;
use std::marker::Model;

/// A value that wasn't stored because no memory was found.
#[derive(Drop, Debug)]
pub struct PutRefused<T> {
    pub value: T,
}

impl<T: Drop> From<PutRefused<T>> for Refusal {
    ghost from_gives = { λ _ e. e ≡ OutOfMemory };

    /// Always `OutOfMemory`. The value that wasn't stored is dropped.
    fn from(_refused: PutRefused<T>) -> Refusal {
        Refusal::OutOfMemory
    }
}

/// Cells that store values of one type, numbered from 0. There are at most `MOST_CELLS`.
#[derive(Drop)]
pub struct Arena<T> {
    cells: CellList<Cell<T>>,
    // The number of the free cell that is used next, if there is one.
    head: u32,
    // The number of free cells.
    free: usize,
    // The sum of the cells' generations.
    freed: u64,
}

impl<T> Model for Arena<T> {
    ghost use Rattle.std.specs.Prelude.{◌+◌};
    ghost use Rattle.crack_arena.specs.Arena.{Arena as Cells, arena_code};

    ghost Value = { Cells T };

    ghost coded = { arena_code T.code };

    ghost use Rattle.crack_arena.specs.Links.{cells_of, words_of, chain};

    ghost view = { λ a. record {
      cells = cells_of a.cells.items;
      free = chain (words_of a.cells.items) a.head a.free;
      room = a.free + a.cells.room;
    } };

    ghost use Rattle.crack_arena.specs.Keeps.{IsLinked};

    ghost invariant = { λ a. IsLinked (words_of a.cells.items) a.head a.free a.freed };
}

impl<T: Copy> Arena<T> {
    /// Makes an empty arena. O(1), takes no memory.
    pub fn new(alloc: Global) -> Arena<T>
        ensures cells { result.cells ≡ [] }
        ensures free { result.free ≡ [] }
        ensures room { result.room ≡ 0 }
    {
        Arena {
            cells: CellList::new(alloc),
            head: 0,
            free: 0,
            freed: 0,
        }
    }

    /// The number of cells, including free ones. O(1).
    pub fn cells(&self) -> usize
        ensures { result ≡ length self.now.cells }
    {
        self.cells.len()
    }

    /// The number of free cells. O(1).
    pub fn free_cells(&self) -> usize
        ensures { result ≡ length self.now.free }
    {
        self.free
    }

    /// How often cells of the arena were freed, in total. O(1).
    pub fn freed(&self) -> u64
        ensures { result ≡ freed self.now }
    {
        self.freed
    }

    /// States, for proofs, what holds of every arena. Does nothing at run time.
    pub fn recall_invariant(&self)
        ensures { IsWholeArena self.now }
    {
        let _ = &self.cells;
    }

    /// States, for proofs, that a spent handle reads nothing after any further calls. A handle is spent if its cell
    /// was freed after the handle was made. Does nothing at run time.
    pub fn stays_spent(&self, handle: Handle<T>)
        requires { IsSpent self.now.cells handle }
        ensures { (calls : List (ArenaCall T)) → read (after_calls calls self.now).cells handle ≡ None }
    {
        let _ = &self.cells;
    }

    /// The value of the handle's cell. `None` if the cell is free, its generation isn't the handle's, or there is no
    /// such cell. O(1), takes no memory.
    pub fn get(&self, handle: Handle<T>) -> Option<&T>
        ensures { option_copied result ≡ read self.now.cells handle }
    {
        match self.cells.get(handle.slot() as usize) {
            Some(cell) => {
                if cell.word.generation() != handle.generation() {
                    return None;
                }
                cell.value()
            }
            None => None,
        }
    }

    /// The adjacent cells from the one with the number `slot` to the last one of its page: at most 256, and none if
    /// the number is `cells()` or more. O(1).
    pub fn cells_from(&self, slot: u32) -> CellRun<'_, T>
        ensures cells { result ≡ take (length result) (drop slot self.now.cells) }
        ensures some { slot < length self.now.cells → 0 < length result }
    {
        CellRun::of(self.cells.side_by_side(slot as usize))
    }

    /// Makes room for this many puts, which then take no memory. O(1), except for growth. Refused with
    /// `OutOfMemory` if no memory is found; then nothing has changed.
    pub fn reserve(&mut self, additional: usize) -> Result<(), Refusal>
        ensures same { self.new ≡ record self.old { room = self.new.room } }
        ensures room { OnOk result (additional ≤ self.new.room) }
        ensures kept { self.old.room ≤ self.new.room }
        ensures refused { IfErr result (λ e. e ≡ OutOfMemory) }
        ensures full { OnErr result (self.old.room < additional) }
        ensures unchanged { OnErr result (self.new ≡ self.old) }
    {
        if additional > self.free {
            self.cells.reserve(additional - self.free)?;
        }
        Ok(())
    }

    /// Stores the value in the first free cell, or in a new cell if none is free, and returns the cell's handle.
    /// There must be a free cell, or fewer than `MOST_CELLS` cells. O(1), except for growth. Takes no memory if there
    /// is room. If no memory is found, the error returns the value, and nothing has changed.
    #[inline(always)]
    pub fn put(&mut self, value: T) -> Result<Handle<T>, PutRefused<T>>
        requires { CanPut self.old }
        ensures handle { IfOk result (λ handle. handle ≡ handle_for self.old.cells self.old.free) }
        ensures after { OnOk result (self.new ≡ record (value_put value self.old) { room = self.new.room }) }
        ensures room { OnOk result (self.old.room ≤ self.new.room + 1) }
        ensures back { IfErr result (λ refused. refused.value ≡ value) }
        ensures full { OnErr result (self.old.room ≡ 0) }
        ensures unchanged { OnErr result (self.new ≡ self.old) }
        ensures keeps_spent { KeepsSpent self.old.cells self.new.cells }
    {
        if self.reserve_one().is_err() {
            return Err(PutRefused { value });
        }
        Ok(self.put_reserved(value))
    }

    /// Makes room for one put. O(1), except for growth. Refused if no memory is found; then nothing has changed.
    #[inline(always)]
    fn reserve_one(&mut self) -> Result<(), Refusal>
        ensures same { self.new ≡ record self.old { room = self.new.room } }
        ensures room { OnOk result (1 ≤ self.new.room) }
        ensures kept { self.old.room ≤ self.new.room }
        ensures full { OnErr result (self.old.room ≡ 0) }
        ensures unchanged { OnErr result (self.new ≡ self.old) }
    {
        if self.free == 0 {
            self.cells.reserve(1)?;
        }
        Ok(())
    }

    /// Stores the value in the first free cell, or in a new cell if none is free, and returns the cell's handle.
    /// There must be a free cell, or fewer than `MOST_CELLS` cells; and there must be room. O(1), takes no memory.
    #[inline(always)]
    pub fn put_reserved(&mut self, value: T) -> Handle<T>
        requires room { 0 < self.old.room }
        requires cells { CanPut self.old }
        ensures handle { result ≡ handle_for self.old.cells self.old.free }
        ensures vacant { (cell_at self.old.cells result.slot).value ≡ None }
        ensures after { self.new ≡ value_put value self.old }
        ensures keeps_spent { KeepsSpent self.old.cells self.new.cells }
    {
        if self.free == 0 {
            let slot = self.cells.len() as u32;
            let word = Word::new(FULL, 0);
            self.cells.push_reserved(Cell { word, value });
            return Handle::of(word.with_number(slot));
        }
        let slot = self.head;
        let word = self.cells.at(slot as usize).word;
        let full = Cell {
            word: word.with_number(FULL),
            value,
        };
        let Cell { .. } = self.cells.replace(slot as usize, full);
        self.free -= 1;
        self.head = (slot + 1 + word.number()) % NUMBERS;
        Handle::of(word.with_number(slot))
    }

    /// Replaces the value that the handle reads, and returns the old one. If the handle reads nothing, returns the
    /// new value as an error, and changes nothing. O(1), takes no memory.
    pub fn set(&mut self, handle: Handle<T>, value: T) -> Result<T, T>
        ensures value { MatchResult result (λ old. read self.old.cells handle ≡ Some old) (λ back. back ≡ value) }
        ensures spent { OnErr result (read self.old.cells handle ≡ None) }
        ensures after { MatchResult result (λ _. self.new ≡ set_at value handle self.old) (λ _. self.new ≡ self.old) }
        ensures keeps_spent { KeepsSpent self.old.cells self.new.cells }
    {
        let slot = handle.slot() as usize;
        if !self.reads(slot, handle.generation()) {
            return Err(value);
        }
        let full = Cell {
            word: handle.word.with_number(FULL),
            value,
        };
        let Cell { value: old, .. } = self.cells.replace(slot, full);
        Ok(old)
    }

    /// Frees the handle's cell, which becomes the first free one, and returns its value. The handle never reads
    /// anything again. Returns `None`, and changes nothing, if the handle reads nothing. `freed()` must be below
    /// `MOST_FREED`. O(1), takes no memory.
    pub fn free(&mut self, handle: Handle<T>) -> Option<T>
        requires { freed self.old < MOST_FREED }
        ensures value { result ≡ read self.old.cells handle }
        ensures after { MatchOption result (self.new ≡ self.old) (λ _. self.new ≡ freed_at handle self.old) }
        ensures keeps_spent { KeepsSpent self.old.cells self.new.cells }
        ensures spent { OnSome result (IsSpent self.new.cells handle) }
        ensures ever_after { OnSome result ((calls : List (ArenaCall T)) →
            read (after_calls calls self.new).cells handle ≡ None) }
    {
        let slot = handle.slot() as usize;
        let generation = handle.generation();
        if !self.reads(slot, generation) {
            return None;
        }
        let next = numbers_between(slot as u32, self.head, self.free);
        let value = self.cells.at(slot).value;
        let vacant = Cell {
            word: Word::new(next, generation + 1),
            value,
        };
        let Cell { .. } = self.cells.replace(slot, vacant);
        self.head = slot as u32;
        self.free += 1;
        self.freed += 1;
        Some(value)
    }

    /// Whether there is a cell with the number `slot`, and it has a value and this generation. O(1).
    fn reads(&self, slot: usize, generation: u64) -> bool
        ensures { result ≡ is_some (read self.now.cells (record { slot = slot; generation = generation })) }
    {
        match self.cells.get(slot) {
            Some(cell) => cell.word.generation() == generation && cell.word.number() == FULL,
            None => false,
        }
    }
}

/// How many cell numbers lie between `from` and `head`, counted upwards, where 0 follows the greatest 24-bit
/// number; 0 if `free`, the number of free cells, is 0.
fn numbers_between(from: u32, head: u32, free: usize) -> u32
    requires from { from < 16777216 }
    requires head { 0 < free → (head < 16777216) × (head ≢ from) }
    ensures few { result < 16777215 }
    ensures next { 0 < free → (from + 1 + result) % 16777216 ≡ head }
{
    if free == 0 {
        return 0;
    }
    (head + FULL - from) % NUMBERS
}
