//! Words of 64 bits, each a number of 24 bits and a generation of 40.
ghost use Rattle.std.specs.Prelude.{◌≡◌, ⊤, ◌<◌, ◌^◌};
ghost use Rattle.std.proofs.Common.{rules};
ghost use Rattle.std.specs.Cmp.Rules.{comparing};
ghost use Rattle.crack_arena.specs.Arena.{same_handle};

use std::alloc::AllocError;
use std::marker::Model;

/// The number of 24-bit numbers. Its product with any generation fits into 64 bits.
pub(crate) const NUMBERS: u32 = 16777216;

/// The greatest 24-bit number. In a cell's word it marks a cell that has a value.
pub(crate) const FULL: u32 = NUMBERS - 1;

/// A number below `NUMBERS` in the low 24 bits, and a generation in the upper 40.
pub(crate) struct Word {
    bits: u64,
}

impl Model for Word {
    ghost use Rattle.std.specs.Prelude.{◌≡◌, ◌+◌, ◌*◌, ◌/◌, ◌%◌};
    ghost use Rattle.std.proofs.Common.{arith};
    ghost use Rattle.crack_arena.specs.Arena.{Handle, handle_code};

    ghost Value = { Handle };

    ghost coded = { handle_code };

    ghost view = { λ w. record { slot = w.bits % 16777216; generation = w.bits / 16777216 } };

    ghost inverse = { λ h. record { bits = h.generation * 16777216 + h.slot } };

    ghost inverse_ok = { λ w h i. record {
      bits = let joined : w.bits / 16777216 * 16777216 + w.bits % 16777216 ≡ w.bits = omega arith in joined i;
    } };
}

impl Copy for Word {}

impl Clone for Word {
    ghost is_clone = { λ word copy. copy ≡ word };

    ghost is_infallible = { λ _. ⊤ };

    /// The same word. Never fails.
    fn clone(&self) -> Result<Self, AllocError> {
        Ok(Word { bits: self.bits })
    }
}

impl PartialEq for Word {
    ghost eq = { same_handle };

    ghost laws = { Prim.search (comparing, rules) };

    /// Whether both words have the same number and the same generation.
    fn eq(&self, other: &Self) -> bool {
        self.bits == other.bits
    }
}

impl Eq for Word {
    ghost laws = { Prim.search rules };
}

impl Word {
    /// The word of this number and this generation.
    #[inline(always)]
    pub(crate) fn new(number: u32, generation: u64) -> Word
        requires number { number < 16777216 }
        requires generation { generation < 2 ^ 40 }
        ensures { result ≡ record { slot = number; generation = generation } }
    {
        Word {
            bits: generation * NUMBERS as u64 + number as u64,
        }
    }

    /// The number in the low 24 bits.
    #[inline(always)]
    pub(crate) fn number(&self) -> u32
        ensures value { result ≡ self.now.slot }
        ensures few { result < 16777216 }
    {
        (self.bits % NUMBERS as u64) as u32
    }

    /// The generation, in the upper 40 bits.
    #[inline(always)]
    pub(crate) fn generation(&self) -> u64
        ensures value { result ≡ self.now.generation }
        ensures few { result < 2 ^ 40 }
    {
        self.bits / NUMBERS as u64
    }

    /// The word of another number and the same generation.
    #[inline(always)]
    pub(crate) fn with_number(&self, number: u32) -> Word
        requires { number < 16777216 }
        ensures { result ≡ record { slot = number; generation = self.now.generation } }
    {
        Word {
            bits: self.bits - self.bits % NUMBERS as u64 + number as u64,
        }
    }
}
