//! A set of numbers with one bit for each. The set of half a million cells fits into the first caches.
ghost use Rattle.std.specs.Prelude.{◌≡◌, ◌≢◌, ◌*◌, ◌<◌, ◌≤◌, ◌↔◌, [], ℕ, length, vec_len, slice_index, IsTrue, IfErr};
ghost use Rattle.std.specs.Prelude.{OnOk};
ghost use Rattle.crack_pending.specs.Keeps.{Has};

use crack_row::Refusal;
use std::alloc::Global;
use std::marker::Model;

/// The number of bits in a word.
const WORD: usize = 64;

/// The least number of words by which a set grows.
const MORE_WORDS: usize = 32;

/// A set of numbers. Each number below an end, which `make_places` moves up, has a bit; only these can be added.
#[derive(Drop)]
pub(crate) struct BitSet {
    words: Vec<u64>,
}

impl Model for BitSet {
    ghost use Rattle.std.specs.Prelude.{List, ℕ};

    ghost Value = { List ℕ };

    ghost view = { λ s. s.words.items };
}

impl BitSet {
    /// Makes an empty set without bits. Takes no memory.
    pub(crate) fn new(alloc: Global) -> BitSet
        ensures { result ≡ [] }
    {
        BitSet {
            words: Vec::new(alloc),
        }
    }

    /// Makes room for the bits of the numbers below `numbers`. Amortised O(1) for each 64 new numbers. Refused with
    /// `OutOfMemory` if no memory is found.
    pub(crate) fn make_places(&mut self, numbers: usize) -> Result<(), Refusal>
        ensures same { (number : ℕ) → Has self.new number ↔ Has self.old number }
        ensures covered { OnOk result (numbers ≤ 64 * length self.new) }
        ensures kept { length self.old ≤ length self.new }
        ensures err { IfErr result (λ e. e ≡ Refusal.OutOfMemory) }
    {
        let words = numbers / WORD + 1;
        if words <= self.words.len() {
            return Ok(());
        }
        lengthen_words(&mut self.words, words)
    }

    /// Removes all numbers from the set. O(1) for each 64 numbers that have a bit.
    pub(crate) fn clear(&mut self)
        ensures none { (number : ℕ) → ¬ Has self.new number }
        ensures long { length self.new ≡ length self.old }
    {
        self.words.fill(0);
    }

    /// Whether the number is in the set; false if there is no bit for it. O(1).
    #[inline]
    pub(crate) fn has(&self, number: u32) -> bool
        ensures { IsTrue result ↔ Has self.now number }
    {
        let place = number as usize / WORD;
        if place >= self.words.len() {
            return false;
        }
        (self.words[place] >> (number as usize % WORD)) & 1 == 1
    }

    /// Adds the number, for which there must be a bit, to the set. O(1).
    #[inline]
    pub(crate) fn put(&mut self, number: u32)
        requires { number < 64 * length self.old }
        ensures long { length self.new ≡ length self.old }
        ensures there { Has self.new number }
        ensures others { (other : ℕ) → other ≢ number → Has self.new other ↔ Has self.old other }
    {
        self.words[number as usize / WORD] |= 1u64 << (number as usize % WORD);
    }

    /// Removes the number, for which there must be a bit, from the set. O(1).
    #[inline]
    pub(crate) fn strike(&mut self, number: u32)
        requires { number < 64 * length self.old }
        ensures long { length self.new ≡ length self.old }
        ensures gone { ¬ Has self.new number }
        ensures others { (other : ℕ) → other ≢ number → Has self.new other ↔ Has self.old other }
    {
        self.words[number as usize / WORD] &= !(1u64 << (number as usize % WORD));
    }
}

/// Appends zero words until there are at least `wanted` and the vector's memory is full. Refused with
/// `OutOfMemory` if no memory is found.
#[inline(never)]
fn lengthen_words(words: &mut Vec<u64>, wanted: usize) -> Result<(), Refusal>
    requires { vec_len words.old < wanted }
    ensures same { (k : ℕ) → slice_index words.new.items k ≡ slice_index words.old.items k }
    ensures long { OnOk result (wanted ≤ vec_len words.new) }
    ensures kept { vec_len words.old ≤ vec_len words.new }
    ensures err { IfErr result (λ e. e ≡ Refusal.OutOfMemory) }
{
    words.reserve((wanted - words.len()).max(MORE_WORDS))?;
    'words: while words.len() < words.capacity() {
        words.push_reserved(0);
    }
    Ok(())
}
