//! Where doomed rows were seen in the column.
ghost use Rattle.std.specs.Prelude.{◌≡◌, ◌≤◌, vec_capacity, IfErr};

use crack_row::Refusal;
use std::alloc::Global;
use std::mem;

/// For each cell, the place of the column where its row was last seen while doomed. Rows move, so a note is checked
/// before it is used: only speed depends on it.
#[derive(Drop)]
pub(crate) struct Notes {
    places: Vec<u32>,
}

impl Notes {
    /// Notes without a place for any cell. Takes no memory.
    pub(crate) fn new(alloc: Global) -> Notes {
        Notes {
            places: Vec::new(alloc),
        }
    }

    /// Returns the notes, and leaves empty ones in their place. Takes no memory.
    pub(crate) fn take(&mut self) -> Notes
        ensures { result ≡ self.old }
    {
        let alloc = *self.places.allocator();
        mem::replace(self, Notes::new(alloc))
    }

    /// Makes room for a note for each of the first `cells` cells. Amortised O(1) for each cell that has none.
    /// Refused with `OutOfMemory` if no memory is found; then the notes are unchanged.
    pub(crate) fn make_places(&mut self, cells: usize) -> Result<(), Refusal>
        ensures err { IfErr result (λ e. e ≡ Refusal.OutOfMemory) }
    {
        let missing = cells.saturating_sub(self.places.len());
        self.places.reserve(missing)?;
        fill_up_to(&mut self.places, cells);
        Ok(())
    }

    /// Notes that the row of the cell `slot` is at this place of the column, if there is room for a note of the cell.
    /// O(1).
    pub(crate) fn put(&mut self, slot: u32, place: usize) {
        if let Some(note) = self.places.get_mut(slot as usize) {
            *note = place.min(u32::MAX as usize) as u32;
        }
    }

    /// The place noted for the row of the cell `slot`; if none was noted, a number that is no place of the column.
    /// O(1).
    pub(crate) fn get(&self, slot: u32) -> usize {
        match self.places.get(slot as usize) {
            Some(place) => *place as usize,
            None => usize::MAX,
        }
    }
}

/// Adds notes that name no place of the column until there are `cells` notes. There must be room for them.
fn fill_up_to(places: &mut Vec<u32>, cells: usize)
    requires { cells ≤ vec_capacity places.old }
{
    'cells: while places.len() < cells {
        places.push_reserved(u32::MAX);
    }
}
