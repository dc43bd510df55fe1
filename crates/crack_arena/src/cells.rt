//! Cells: a word and a value each.
ghost use Rattle.std.specs.Prelude.{◌≡◌, option_copied};
ghost use Rattle.crack_arena.specs.Links.{cell_of};

use crate::words::{FULL, Word};

/// A cell: a word and a value. A free cell still contains its last value.
#[derive(Drop)]
pub(crate) struct Cell<T> {
    /// The cell's generation, and a number: `FULL` if the cell has a value, otherwise how many numbers lie between
    /// this cell's and the next free cell's.
    pub(crate) word: Word,
    pub(crate) value: T,
}

impl<T> Cell<T> {
    /// The value, or `None` if the cell is free.
    #[inline(always)]
    pub(crate) fn value(&self) -> Option<&T>
        ensures { option_copied result ≡ (cell_of self.now).value }
    {
        if self.word.number() == FULL {
            Some(&self.value)
        } else {
            None
        }
    }
}
