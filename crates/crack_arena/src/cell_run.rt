//! Adjacent cells of an arena.
ghost use Rattle.std.specs.Prelude.{◌≡◌, length, option_copied};
ghost use Rattle.crack_arena.specs.Arena.{cell_at};
ghost use Rattle.crack_arena.specs.Links.{cells_of};

use crate::cells::Cell;
use std::marker::Model;

/// Adjacent cells of an arena, to be read in order. Contracts see a list of cells.
#[derive(Drop)]
pub struct CellRun<'a, T> {
    cells: &'a [Cell<T>],
}

impl<'a, T> Model for CellRun<'a, T> {
    ghost use Rattle.std.specs.Prelude.{List};
    ghost use Rattle.std.specs.Coded.{coded_list};
    ghost use Rattle.crack_arena.specs.Arena.{Cell as Seen, cell_code};
    ghost use Rattle.crack_arena.specs.Links.{cells_of};

    ghost Value = { List (Seen T) };

    ghost coded = { coded_list (cell_code T.code) };

    ghost view = { λ s. cells_of s.cells.now };
}

impl<'a, T> CellRun<'a, T> {
    /// A run of these cells.
    pub(crate) fn of(cells: &'a [Cell<T>]) -> CellRun<'a, T>
        ensures { result ≡ cells_of cells.now }
    {
        CellRun { cells }
    }

    /// The number of cells. O(1).
    pub fn len(&self) -> usize
        ensures { result ≡ length self.now }
    {
        self.cells.len()
    }

    /// The value of the cell at this place in the run, counted from 0. `None` if the cell is free, or the place is
    /// `len()` or more. O(1), takes no memory.
    pub fn value_at(&self, place: usize) -> Option<&'a T>
        ensures { option_copied result ≡ (cell_at self.now place).value }
    {
        match self.cells.get(place) {
            Some(cell) => cell.value(),
            None => None,
        }
    }
}
