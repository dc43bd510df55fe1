//! A list of cells in pages. A page is allocated whole, and its cells never move: growth allocates more pages, may
//! extend the list of pages, and copies no cell.
ghost use Rattle.crack_arena.specs.declared.TheConstants.{MOST_CELLS};
ghost use Rattle.std.specs.Prelude.{◌≡◌, ◌+◌, ◌-◌, ◌*◌, ◌<◌, ◌≤◌, [], ◌∷◌, ◌++◌, length, is_ok, if◌then◌else◌};
ghost use Rattle.std.specs.Prelude.{replicate, slice_index_or, slice_set, take, drop, vec_len, vec_capacity, OnOk};
ghost use Rattle.std.specs.Prelude.{OnErr};
ghost use Rattle.std.specs.Slice.{IsItemAt};

use crate::page::{CELLS, Page};
use std::alloc::{AllocError, Global};
use std::marker::Model;

/// How many times its own length is added to a full list of pages: it becomes four times as long, so that growth
/// copies little.
const GROWTH: usize = 3;

/// Cells numbered from 0, with room for more. Cell n is cell n mod 256 of page n / 256.
#[derive(Drop)]
pub(crate) struct CellList<C> {
    pages: Vec<Page<C>>,
    len: usize,
}

impl<C> Model for CellList<C> {
    ghost use Rattle.std.specs.Prelude.{◌-◌, ◌*◌, length};
    ghost use Rattle.crack_arena.specs.Listed.{Listed};
    ghost use Rattle.crack_arena.specs.Codes.{listed_code};
    ghost use Rattle.crack_arena.specs.Keeps.{IsPaged};
    ghost use Rattle.crack_arena.specs.Pages.{joined_pages};

    ghost Value = { Listed C };

    ghost coded = { listed_code C.code };

    ghost view = { λ l. record { items = joined_pages l.pages.items; room = 256 * length l.pages.items - l.len } };

    ghost invariant = { λ l. IsPaged l.pages.items l.len };
}

impl<C> CellList<C> {
    /// Makes an empty list. Takes no memory.
    pub(crate) fn new(alloc: Global) -> CellList<C>
        ensures items { result.items ≡ [] }
        ensures room { result.room ≡ 0 }
    {
        CellList {
            pages: Vec::new(alloc),
            len: 0,
        }
    }

    /// The number of cells.
    #[inline(always)]
    pub(crate) fn len(&self) -> usize
        ensures { result ≡ length self.now.items }
    {
        self.len
    }

    /// The cell with this number, or `None` if there is none. O(1).
    #[inline(always)]
    pub(crate) fn get(&self, number: usize) -> Option<&C>
        ensures { IsItemAt self.now.items number result }
    {
        if number < self.len() {
            Some(self.at(number))
        } else {
            None
        }
    }

    /// The adjacent cells from the one with this number to the last one of its page; none if the number is `len()` or
    /// more. O(1).
    pub(crate) fn side_by_side(&self, number: usize) -> &[C]
        ensures cells { result.now ≡ take (length result.now) (drop number self.now.items) }
        ensures some { number < length self.now.items → 0 < length result.now }
    {
        if number >= self.len() {
            return &[];
        }
        self.pages[number / CELLS].cells_from(number % CELLS)
    }

    /// The cell with this number. O(1).
    #[inline(always)]
    pub(crate) fn at(&self, number: usize) -> &C
        requires { number < length self.now.items }
        ensures { result.now ≡ slice_index_or self.now.items number result.now }
    {
        self.pages[number / CELLS].at(number % CELLS)
    }

    /// Replaces the cell with this number, and returns the old one. O(1).
    #[inline(always)]
    pub(crate) fn replace(&mut self, number: usize, cell: C) -> C
        requires { number < length self.old.items }
        ensures value { result ≡ slice_index_or self.old.items number result }
        ensures after { self.new ≡ record self.old { items = slice_set self.old.items number cell } }
    {
        let page = &mut self.pages[number / CELLS];
        page.replace(number % CELLS, cell)
    }

    /// Makes room for this many more cells. O(1), except for growth. Refused if no memory is found; then nothing
    /// has changed.
    #[inline(always)]
    pub(crate) fn reserve(&mut self, additional: usize) -> Result<(), AllocError>
        ensures items { self.new.items ≡ self.old.items }
        ensures room { OnOk result (additional ≤ self.new.room) }
        ensures kept { self.old.room ≤ self.new.room }
        ensures full { OnErr result (self.old.room < additional) }
        ensures unchanged { OnErr result (self.new ≡ self.old) }
    {
        let needed = pages_for(self.len % CELLS, additional);
        let left = self.pages.len() - self.len / CELLS;
        if needed <= left {
            return Ok(());
        }
        take_pages(&mut self.pages, needed - left)
    }

    /// Appends a cell. There must be room, and fewer than `MOST_CELLS` cells. O(1), takes no memory.
    #[inline(always)]
    pub(crate) fn push_reserved(&mut self, cell: C)
        requires room { 0 < self.old.room }
        requires few { length self.old.items < MOST_CELLS }
        ensures items { self.new.items ≡ self.old.items ++ cell ∷ [] }
        ensures room { self.new.room + 1 ≡ self.old.room }
    {
        let page = &mut self.pages[self.len / CELLS];
        page.push(cell);
        self.len += 1;
    }
}

/// How many pages it takes to store `used` cells, fewer than `CELLS`, and `additional` more. The sum of the two isn't
/// computed, since it may overflow.
fn pages_for(used: usize, additional: usize) -> usize
    requires { used < 256 }
    ensures enough { used + additional ≤ 256 * result }
    ensures least { 256 * result < used + additional + 256 }
{
    additional / CELLS + (additional % CELLS + used + (CELLS - 1)) / CELLS
}

/// Appends `more` new pages without cells: O(more), except for the growth of the list of pages. Refused if no memory
/// is found; then the pages that this call allocated are freed.
#[cold]
#[inline(never)]
fn take_pages<C>(pages: &mut Vec<Page<C>>, more: usize) -> Result<(), AllocError>
    ensures { pages.new.items ≡ (if is_ok result then pages.old.items ++ replicate more [] else pages.old.items) }
{
    if more > pages.capacity() - pages.len() {
        let wanted = more.max(pages.len().saturating_mul(GROWTH));
        pages.reserve(wanted)?;
    }
    push_pages(pages, more)
}

/// Appends `more` new pages without cells. The list of pages must have room for them. O(more). Refused if no memory
/// is found; then the pages that this call allocated are freed.
fn push_pages<C>(pages: &mut Vec<Page<C>>, more: usize) -> Result<(), AllocError>
    requires { vec_len pages.old + more ≤ vec_capacity pages.old }
    ensures { pages.new.items ≡ (if is_ok result then pages.old.items ++ replicate more [] else pages.old.items) }
{
    let before = pages.len();
    let alloc = *pages.allocator();
    'pages: for _ in 0..more {
        match Page::take(alloc) {
            Ok(page) => pages.push_reserved(page),
            Err(refused) => {
                give_back(pages, before);
                return Err(refused);
            }
        }
    }
    Ok(())
}

/// Frees all pages after the first `kept`. They must have no cells. O(freed pages).
fn give_back<C>(pages: &mut Vec<Page<C>>, kept: usize)
    requires within { kept ≤ length pages.old.items }
    requires empty { drop kept pages.old.items ≡ replicate (length pages.old.items - kept) [] }
    ensures { pages.new.items ≡ take kept pages.old.items }
{
    'pages: while pages.len() > kept {
        pages.take_last().give_back();
    }
}
