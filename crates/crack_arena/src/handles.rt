//! Handles, each of which names a cell at a generation. Each function takes O(1).
ghost use Rattle.std.specs.Prelude.{◌≡◌, ⊤};
ghost use Rattle.std.proofs.Common.{rules};
ghost use Rattle.std.specs.Cmp.Rules.{comparing};
ghost use Rattle.crack_arena.specs.Arena.{same_handle};

use crate::parts::{Generation, Slot};
use crate::words::Word;
use std::alloc::AllocError;
use std::fmt;
use std::marker::{Model, PhantomData};

/// Names one cell at one generation, but not the arena that made the handle. Takes 8 bytes: 24 bits for the cell,
/// 40 for the generation.
pub struct Handle<T> {
    pub(crate) word: Word,
    of: PhantomData<T>,
}

impl<T> Model for Handle<T> {
    ghost use Rattle.crack_arena.specs.Arena.{Handle as Name, handle_code};

    ghost Value = { Name };

    ghost coded = { handle_code };

    ghost view = { λ h. h.word };

    ghost inverse = { λ n. record { word = n; of = record {} } };
}

impl<T> Copy for Handle<T> {}

impl<T> Clone for Handle<T> {
    ghost is_clone = { λ handle copy. copy ≡ handle };

    ghost is_infallible = { λ _. ⊤ };

    /// The same handle. Never fails.
    fn clone(&self) -> Result<Self, AllocError> {
        Ok(Handle {
            word: self.word,
            of: PhantomData,
        })
    }
}

impl<T> PartialEq for Handle<T> {
    ghost eq = { same_handle };

    ghost laws = { Prim.search (comparing, rules) };

    /// Whether both handles name the same cell at the same generation.
    fn eq(&self, other: &Self) -> bool {
        self.word == other.word
    }
}

impl<T> Eq for Handle<T> {
    ghost laws = { Prim.search rules };
}

impl<T> fmt::Debug for Handle<T> {
    /// Writes the cell's number and the generation. Fails if the writer fails.
    fn fmt<W: fmt::Write>(&self, f: &mut fmt::Formatter<W>) -> fmt::Result {
        f.debug_struct("Handle")
            .field("slot", &self.slot())
            .field("generation", &self.generation())
            .finish()
    }
}

impl<T> Handle<T> {
    /// The handle of this cell at this generation, for code that stores the two separately. It isn't checked that an
    /// arena made such a handle.
    #[inline(always)]
    pub fn new(slot: Slot, generation: Generation) -> Handle<T>
        ensures { result ≡ record { slot = slot; generation = generation } }
    {
        Handle::of(Word::new(slot.number(), generation.number()))
    }

    /// The handle with the cell number and the generation in this word.
    #[inline(always)]
    pub(crate) fn of(word: Word) -> Handle<T>
        ensures { result ≡ word }
    {
        Handle {
            word,
            of: PhantomData,
        }
    }

    /// The cell's number, counted from 0.
    #[inline(always)]
    pub fn slot(&self) -> u32
        ensures { result ≡ self.now.slot }
    {
        self.word.number()
    }

    /// How often the cell had been freed when the handle was made.
    #[inline(always)]
    pub fn generation(&self) -> u64
        ensures { result ≡ self.now.generation }
    {
        self.word.generation()
    }

    /// The cell's number as a `Slot`.
    #[inline(always)]
    pub fn slot_part(&self) -> Slot
        ensures { result ≡ self.now.slot }
    {
        Slot::of(self.word)
    }

    /// The generation as a `Generation`.
    #[inline(always)]
    pub fn generation_part(&self) -> Generation
        ensures { result ≡ self.now.generation }
    {
        Generation::of(self.word)
    }
}
