//! Ranges of keys.
ghost use Rattle.std.specs.Prelude.{◌≡◌, ◌+◌, MatchOption, IfSome, ℕ, nat_eq, ◌<◌, ◌≤◌, ◌↔◌, IsTrue, IfOk, IfErr};
ghost use Rattle.std.specs.Cmp.Rules.{comparing};
ghost use Rattle.std.proofs.Common.{rules};
ghost use Rattle.crack_row.specs.Ranges.{IsIn, clipped};

use crate::{Bound, BoundNumber, GREATEST_BOUND, GREATEST_KEY, Key, KeyNumber, Refusal};
use std::marker::Model;

/// A half-open range of keys, from its low end up to but not including its high end. Its ends are in order and at
/// most `GREATEST_BOUND`.
#[derive(Clone, Copy, PartialEq, Eq, Debug)]
pub struct KeyRange {
    low: RangeEnd,
    high: RangeEnd,
}

impl Model for KeyRange {
    ghost use Rattle.std.specs.Prelude.{◌≤◌};
    ghost use Rattle.crack_row.specs.Ranges.{Range};
    ghost use Rattle.crack_row.specs.declared.TheConstants.{GREATEST_BOUND};

    ghost Value = { Range };

    ghost view = { λ r. record { low = r.low; high = r.high } };

    ghost invariant = { λ r. (r.low ≤ r.high) × (r.high ≤ GREATEST_BOUND) };

    ghost inverse = { λ v. record { low = v.low; high = v.high } };
}

impl Default for KeyRange {
    ghost use Rattle.std.specs.Prelude.{◌≡◌};

    ghost is_default = { λ r. (r.low ≡ 0) × (r.high ≡ 0) };

    /// The empty range whose ends are both 0.
    fn default() -> KeyRange {
        let least = RangeEnd::of(Bound(0));
        KeyRange {
            low: least,
            high: least,
        }
    }
}

impl KeyRange {
    /// The range from `low` up to but not including `high`. Refused with `BadRange` if `low` is above `high`, or if
    /// `high` is above `GREATEST_BOUND`. O(1).
    pub fn new(low: BoundNumber, high: BoundNumber) -> Result<KeyRange, Refusal>
        ensures ok { IfOk result (λ r. (r.low ≡ low) × (r.high ≡ high) × (low ≤ high) × (high ≤ GREATEST_BOUND)) }
        ensures err { IfErr result (λ e. (e ≡ Refusal.BadRange) × ((low ≤ high) × (high ≤ GREATEST_BOUND) → ⊥)) }
    {
        if low <= high && high <= GREATEST_BOUND {
            Ok(KeyRange::of(Bound(low), Bound(high)))
        } else {
            Err(Refusal::BadRange)
        }
    }

    /// The range from `low` up to but not including `high`. Refused with `BadRange` if `low` is above `high`, or if
    /// `high` is above `GREATEST_BOUND`. O(1).
    pub fn between(low: Bound, high: Bound) -> Result<KeyRange, Refusal>
        ensures ok { IfOk result (λ r. (r.low ≡ low.0) × (r.high ≡ high.0) × (low.0 ≤ high.0) ×
            (high.0 ≤ GREATEST_BOUND)) }
        ensures err { IfErr result (λ e. (e ≡ Refusal.BadRange) × ((low.0 ≤ high.0) × (high.0 ≤ GREATEST_BOUND) → ⊥)) }
    {
        KeyRange::new(low.0, high.0)
    }

    /// The range of all keys. O(1).
    pub fn all() -> KeyRange
        ensures low { result.low ≡ 0 }
        ensures high { result.high ≡ GREATEST_BOUND }
    {
        KeyRange::of(Bound(0), Bound(GREATEST_BOUND))
    }

    /// The low end.
    pub fn low(&self) -> Bound
        ensures value { result.0 ≡ self.now.low }
        ensures ordered { self.now.low ≤ self.now.high }
    {
        self.low.bound()
    }

    /// The high end.
    pub fn high(&self) -> Bound
        ensures value { result.0 ≡ self.now.high }
        ensures bounded { self.now.high ≤ GREATEST_BOUND }
    {
        self.high.bound()
    }

    /// Whether no key is in the range. O(1).
    pub fn is_empty(&self) -> bool
        ensures { IsTrue result ↔ (self.now.high ≤ self.now.low) }
    {
        self.high() <= self.low()
    }

    /// The least and the greatest key in the range, or `None` if the range is empty. O(1).
    #[inline]
    pub fn first_and_last(&self) -> Option<(Key, Key)>
        ensures value { MatchOption result (self.now.high ≤ self.now.low) (λ ends. (ends.0.0 ≡ self.now.low) ×
            (ends.1.0 + 1 ≡ self.now.high)) }
        ensures order { IfSome result (λ ends. ends.0.0 ≤ ends.1.0) }
    {
        if self.is_empty() {
            return None;
        }
        Some((Key(self.low.number), Key(self.high.number_below())))
    }

    /// Whether the key is in the range. O(1).
    pub fn contains(&self, key: Key) -> bool
        ensures { IsTrue result ↔ IsIn self.now key.0 }
    {
        !self.low().is_above(key) && self.high().is_above(key)
    }

    /// The range of the keys that are in both ranges. If there are none, the empty range whose ends are both the low
    /// end of `other`. O(1).
    pub fn clip(&self, other: KeyRange) -> KeyRange
        ensures value { result ≡ clipped self.now other }
        ensures keys { (k : ℕ) → IsIn result k ↔ (IsIn self.now k × IsIn other k) }
        ensures none { result.high ≤ result.low → (result.low ≡ other.low) × (result.high ≡ other.low) }
    {
        let low = self.low().max(other.low());
        let high = self.high().min(other.high());
        if low < high {
            KeyRange::of(low, high)
        } else {
            KeyRange::of(other.low(), other.low())
        }
    }

    /// The range from `low` up to but not including `high`. The bounds must be in order and at most `GREATEST_BOUND`.
    fn of(low: Bound, high: Bound) -> KeyRange
        requires ordered { low.0 ≤ high.0 }
        requires bounded { high.0 ≤ GREATEST_BOUND }
        ensures { result ≡ record { low = low.0; high = high.0 } }
    {
        KeyRange {
            low: RangeEnd::of(low),
            high: RangeEnd::of(high),
        }
    }
}

/// An end of a range: its number and `false`, or 0 and `true` for the end above all keys. Its alignment is that of
/// a 64-bit number, so values that contain ranges are smaller than with 128-bit ends.
#[derive(Clone, Copy, Debug)]
struct RangeEnd {
    number: KeyNumber,
    is_past: bool,
}

impl Model for RangeEnd {
    ghost use Rattle.std.specs.Prelude.{ℕ, ◌≡◌, ◌<◌, cond};
    ghost use Rattle.crack_row.specs.Ends.{end_number, number_back, past_all, past_back};
    ghost use Rattle.crack_row.specs.declared.TheConstants.{GREATEST_BOUND};

    ghost Value = { ℕ };

    ghost view = { λ e. cond e.is_past GREATEST_BOUND e.number };

    ghost invariant = { λ e. cond e.is_past (e.number ≡ 0) (e.number < GREATEST_BOUND) };

    ghost inverse = { λ end. record { number = end_number end; is_past = past_all end } };

    ghost inverse_ok = { λ e is i.
        record { number = number_back e.is_past e.number is i; is_past = past_back e.is_past e.number is i } };
}

impl PartialEq for RangeEnd {
    ghost eq = { nat_eq };

    ghost laws = { Prim.search (comparing, rules) };

    /// Whether both ends are the same bound. O(1).
    fn eq(&self, other: &RangeEnd) -> bool {
        self.bound() == other.bound()
    }
}

impl Eq for RangeEnd {
    ghost laws = { Prim.search (comparing, rules) };
}

impl RangeEnd {
    /// The end at this bound, which must be at most `GREATEST_BOUND`.
    #[inline]
    fn of(bound: Bound) -> RangeEnd
        requires { bound.0 ≤ GREATEST_BOUND }
        ensures { result ≡ bound.0 }
    {
        match bound.least_key() {
            Some(key) => RangeEnd {
                number: key.number(),
                is_past: false,
            },
            None => RangeEnd {
                number: 0,
                is_past: true,
            },
        }
    }

    /// The end as a bound.
    #[inline]
    fn bound(self) -> Bound
        ensures value { result.0 ≡ self }
        ensures bounded { self ≤ GREATEST_BOUND }
    {
        if self.is_past {
            Bound(GREATEST_BOUND)
        } else {
            Bound(self.number as BoundNumber)
        }
    }

    /// The number of the greatest key below the end. The end must not be 0: no key is below 0.
    #[inline]
    fn number_below(self) -> KeyNumber
        requires { 0 < self }
        ensures { result + 1 ≡ self }
    {
        if self.is_past {
            GREATEST_KEY
        } else {
            self.number - 1
        }
    }
}
