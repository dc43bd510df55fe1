//! A source that is asked for unknown sums.
ghost use Rattle.std.specs.Prelude.{ℕ, ℤ, IfSome};

use crack_row::KeyRange;

/// A source of the sums of key ranges, such as a store, which adds up the payloads of the rows in a range. `PieceSums`
/// asks it for sums that it doesn't know. The source has no access to the pieces.
pub trait SumSource {
    /// What the source reports: the integer is the sum of the range of keys from the first number up to but not
    /// including the second.
    ghost says: { Self → ℕ → ℕ → ℤ → Type 0 };

    /// The sum of the range, or `None` if the source can't give it. The cost is the source's own.
    fn sum(&self, range: KeyRange) -> Option<i128>
        ensures { IfSome result (λ sum. says self.now range.low range.high sum) };

    /// Whether the source can sum the rest of `whole`, the keys that aren't in `part`, with less work than `part`
    /// itself.
    fn prefers_rest(&self, part: KeyRange, whole: KeyRange) -> bool;
}
