//! A page of cells.
ghost use Rattle.std.specs.Prelude.{◌≡◌, ◌<◌, ◌≤◌, [], ◌∷◌, ◌++◌, length, slice_index_or, slice_set, drop, IfOk};

use std::alloc::{AllocError, Global};
use std::marker::Model;
use std::mem;

/// The number of cells that a page has room for.
pub(crate) const CELLS: usize = 256;

/// Cells numbered from 0, in one block of memory for `CELLS` cells. The block is allocated whole, so cells never
/// move.
#[derive(Drop)]
pub(crate) struct Page<C> {
    cells: Vec<C>,
}

impl<C> Model for Page<C> {
    ghost use Rattle.std.specs.Prelude.{◌≡◌, List, vec_capacity};
    ghost use Rattle.std.specs.Coded.{coded_list};

    ghost Value = { List C };

    ghost coded = { coded_list C.code };

    ghost view = { λ p. p.cells.items };

    ghost invariant = { λ p. vec_capacity p.cells ≡ 256 };
}

impl<C> Page<C> {
    /// Allocates a page without cells. Refused if no memory is found.
    pub(crate) fn take(alloc: Global) -> Result<Page<C>, AllocError>
        ensures { IfOk result (λ page. page ≡ []) }
    {
        let cells = Vec::with_capacity(alloc, CELLS)?;
        Ok(Page { cells })
    }

    /// The cell at this place in the page, counted from 0. O(1).
    pub(crate) fn at(&self, place: usize) -> &C
        requires { place < length self.now }
        ensures { result.now ≡ slice_index_or self.now place result.now }
    {
        &self.cells[place]
    }

    /// The cells from this place on, counted from 0; none if the place is the number of cells. O(1).
    pub(crate) fn cells_from(&self, place: usize) -> &[C]
        requires { place ≤ length self.now }
        ensures { result.now ≡ drop place self.now }
    {
        &self.cells[place..]
    }

    /// Replaces the cell at this place, counted from 0, and returns the old one. O(1).
    pub(crate) fn replace(&mut self, place: usize, cell: C) -> C
        requires { place < length self.old }
        ensures value { result ≡ slice_index_or self.old place result }
        ensures after { self.new ≡ slice_set self.old place cell }
    {
        mem::replace(&mut self.cells[place], cell)
    }

    /// Appends a cell to a page with fewer than `CELLS` cells. O(1), takes no memory.
    pub(crate) fn push(&mut self, cell: C)
        requires { length self.old < 256 }
        ensures { self.new ≡ self.old ++ cell ∷ [] }
    {
        self.cells.push_reserved(cell);
    }

    /// Frees the memory of a page without cells.
    pub(crate) fn give_back(self)
        requires { self ≡ [] }
    {
        let Page { cells } = self;
        cells.destroy_empty();
    }
}
