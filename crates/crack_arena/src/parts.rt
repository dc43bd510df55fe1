//! The two numbers of a handle, for code that stores them separately. Each function takes O(1).
ghost use Rattle.std.specs.Prelude.{◌≡◌, ◌%◌, ◌<◌, ◌^◌, ⊤};

use crate::words::{NUMBERS, Word};
use std::alloc::AllocError;
use std::marker::Model;

/// The number of a cell, below 2^24.
pub struct Slot {
    number: u32,
}

impl Model for Slot {
    ghost use Rattle.std.specs.Prelude.{ℕ, ◌<◌};
    ghost use Rattle.std.specs.Coded.{coded_ℕ};

    ghost Value = { ℕ };

    ghost coded = { coded_ℕ };

    ghost view = { λ s. s.number };

    ghost invariant = { λ s. s.number < 16777216 };

    ghost inverse = { λ n. record { number = n } };
}

impl Copy for Slot {}

impl Clone for Slot {
    ghost is_clone = { λ slot copy. copy ≡ slot };

    ghost is_infallible = { λ _. ⊤ };

    /// The same slot. Never fails.
    fn clone(&self) -> Result<Self, AllocError> {
        Ok(*self)
    }
}

impl Slot {
    /// The slot with the lowest 24 bits of this number.
    #[inline(always)]
    pub fn lowest(number: u32) -> Slot
        ensures { result ≡ number % 16777216 }
    {
        Slot {
            number: number % NUMBERS,
        }
    }

    /// The cell number in this word, as a slot.
    #[inline(always)]
    pub(crate) fn of(word: Word) -> Slot
        ensures { result ≡ word.slot }
    {
        let number = word.number();
        Slot { number }
    }

    /// The slot's number.
    #[inline(always)]
    pub fn number(&self) -> u32
        ensures value { result ≡ self.now }
        ensures few { result < 2 ^ 24 }
    {
        self.number
    }
}

/// The generation of a cell, below 2^40.
pub struct Generation {
    number: u64,
}

impl Model for Generation {
    ghost use Rattle.std.specs.Prelude.{ℕ, ◌<◌, ◌^◌};
    ghost use Rattle.std.specs.Coded.{coded_ℕ};

    ghost Value = { ℕ };

    ghost coded = { coded_ℕ };

    ghost view = { λ g. g.number };

    ghost invariant = { λ g. g.number < 2 ^ 40 };

    ghost inverse = { λ n. record { number = n } };
}

impl Copy for Generation {}

impl Clone for Generation {
    ghost is_clone = { λ generation copy. copy ≡ generation };

    ghost is_infallible = { λ _. ⊤ };

    /// The same generation. Never fails.
    fn clone(&self) -> Result<Self, AllocError> {
        Ok(*self)
    }
}

impl Generation {
    /// The generation in this word.
    #[inline(always)]
    pub(crate) fn of(word: Word) -> Generation
        ensures { result ≡ word.generation }
    {
        let number = word.generation();
        Generation { number }
    }

    /// The generation's number.
    #[inline(always)]
    pub fn number(&self) -> u64
        ensures value { result ≡ self.now }
        ensures few { result < 2 ^ 40 }
    {
        self.number
    }
}
