//! The widths of keys, payloads and bounds, defined only here, and the comparisons between them. Each function takes
//! O(1).
ghost use Rattle.std.specs.Prelude.{pos, neg_ℤ, ◌≤ℤ◌, ◌≡◌, ◌<◌, ◌≤◌, ◌+◌, ◌↔◌, IsTrue, IsSome, IfSome, MatchOption};
ghost use Rattle.crack_row.specs.Rows.{amount, farthest_amount};
ghost use Rattle.crack_row.specs.declared.TheConstants.{GREATEST_KEY};

use crate::{Bound, GREATEST_KEY, InnerBound, Key, Payload};

/// A key as a number.
pub type KeyNumber = u64;

/// A payload as a number.
pub type PayloadNumber = i64;

/// A bound as a number. There is one more bound than there are keys.
pub type BoundNumber = u128;

impl Key {
    /// The key with this number.
    #[inline]
    pub fn from_number(number: KeyNumber) -> Key
        ensures { result.0 ≡ number }
    {
        Key(number)
    }

    /// The key's number.
    #[inline]
    pub fn number(self) -> KeyNumber
        ensures { result ≡ self.0 }
    {
        self.0
    }

    /// The bound with the key's number: lesser keys are below it, and the key itself isn't.
    #[inline]
    pub fn bound(self) -> Bound
        ensures { result.0 ≡ self.0 }
    {
        Bound(self.0 as BoundNumber)
    }
}

impl Payload {
    /// The payload with this number.
    #[inline]
    pub fn from_number(number: PayloadNumber) -> Payload
        ensures { result.0 ≡ number }
    {
        Payload(number)
    }

    /// The payload's number.
    #[inline]
    pub fn number(self) -> PayloadNumber
        ensures { result ≡ self.0 }
    {
        self.0
    }

    /// The amount that the payload adds to a sum: its number, in 128 bits.
    #[inline]
    pub fn amount(self) -> i128
        ensures value { result ≡ amount self }
        ensures least { neg_ℤ (pos farthest_amount) ≤ℤ result }
        ensures most { result ≤ℤ pos farthest_amount }
    {
        i128::from(self.0)
    }
}

impl Bound {
    /// The bound with this number.
    #[inline]
    pub fn from_number(number: BoundNumber) -> Bound
        ensures { result.0 ≡ number }
    {
        Bound(number)
    }

    /// The bound's number.
    #[inline]
    pub fn number(self) -> BoundNumber
        ensures { result ≡ self.0 }
    {
        self.0
    }

    /// Whether the key is below the bound.
    #[inline]
    pub fn is_above(self, key: Key) -> bool
        ensures { IsTrue result ↔ (key.0 < self.0) }
    {
        (key.0 as BoundNumber) < self.0
    }

    /// The least key that isn't below the bound, or `None` if all keys are below it.
    #[inline]
    pub fn least_key(self) -> Option<Key>
        ensures { MatchOption result (GREATEST_KEY < self.0) (λ key. key.0 ≡ self.0) }
    {
        if self.0 > GREATEST_KEY as BoundNumber {
            return None;
        }
        Some(Key(self.0 as KeyNumber))
    }

    /// The bound as an inner bound, or `None` if it doesn't lie between two keys: if it is 0 or above `GREATEST_KEY`.
    #[inline]
    pub fn inner(self) -> Option<InnerBound>
        ensures value { IfSome result (λ inner. inner.0 ≡ self.0) }
        ensures between { IsSome result ↔ ((0 < self.0) × (self.0 ≤ GREATEST_KEY)) }
    {
        if self.0 == 0 || self.0 > GREATEST_KEY as BoundNumber {
            return None;
        }
        Some(InnerBound(self.0 as KeyNumber))
    }
}

impl InnerBound {
    /// The least inner bound, 1: only the key 0 is below it.
    pub fn least() -> InnerBound
        ensures { result.0 ≡ 1 }
    {
        InnerBound(1)
    }

    /// The bound's number.
    #[inline]
    pub fn number(self) -> KeyNumber
        ensures { result ≡ self.0 }
    {
        self.0
    }

    /// The `Bound` with the same number.
    #[inline]
    pub fn bound(self) -> Bound
        ensures { result.0 ≡ self.0 }
    {
        Bound(self.0 as BoundNumber)
    }

    /// The least key that isn't below the bound.
    #[inline]
    pub fn key(self) -> Key
        ensures { result.0 ≡ self.0 }
    {
        Key(self.0)
    }

    /// Whether the key is below the bound.
    #[inline]
    pub fn is_above(self, key: Key) -> bool
        ensures { IsTrue result ↔ (key.0 < self.0) }
    {
        key.0 < self.0
    }
}
