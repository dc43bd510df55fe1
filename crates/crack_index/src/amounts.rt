//! Arithmetic on sums. A result is `UNKNOWN` if an operand is, or if 128 bits aren't enough.
ghost use Rattle.std.specs.Prelude.{◌≡◌, ◌-◌, ◌*◌, ◌<◌, ◌≤◌, IsTrue};
ghost use Rattle.crack_row.specs.declared.TheConstants.{GREATEST_BOUND};
ghost use Rattle.crack_index.specs.Sums.{IsKnown, both, later};
ghost use Rattle.crack_index.specs.Cuts.{IsRest};

use crate::source::SumSource;
use crate::sums::UNKNOWN;
use crack_row::{BoundNumber, KeyNumber, KeyRange};

/// `sum` plus `change`, or `UNKNOWN`.
#[inline]
pub(crate) fn later(sum: i128, change: i128) -> i128
    ensures { result ≡ later change sum }
{
    if sum == UNKNOWN {
        return UNKNOWN;
    }
    match sum.checked_add(change) {
        Some(sum) => sum,
        None => UNKNOWN,
    }
}

/// The sum of one part of a piece, or `UNKNOWN`: `whole`, the piece's sum, minus `part`, the sum of the other part.
pub(crate) fn rest(whole: i128, part: i128) -> i128
    ensures { IsRest whole part result }
{
    if whole == UNKNOWN || part == UNKNOWN {
        return UNKNOWN;
    }
    match whole.checked_sub(part) {
        Some(rest) => rest,
        None => UNKNOWN,
    }
}

/// The sum of a piece, or `UNKNOWN`: `lower` plus `upper`, the sums of its two parts.
#[inline]
pub(crate) fn whole(lower: i128, upper: i128) -> i128
    ensures { result ≡ both lower upper }
{
    if lower == UNKNOWN || upper == UNKNOWN {
        return UNKNOWN;
    }
    match lower.checked_add(upper) {
        Some(whole) => whole,
        None => UNKNOWN,
    }
}

/// The sum that the source gives for the keys from `low` up to but not including `high`. `UNKNOWN` if it gives none,
/// or if `low` and `high` aren't the ends of a range.
pub(crate) fn asked<S: SumSource>(source: &S, low: BoundNumber, high: BoundNumber) -> i128
    ensures { IsKnown result → S.says source.now low high result }
{
    let Ok(range) = KeyRange::new(low, high) else {
        return UNKNOWN;
    };
    match source.sum(range) {
        Some(sum) => sum,
        None => UNKNOWN,
    }
}

/// Whether the keys from `low` up to but not including `high`, a part of a piece, are more than three quarters of the
/// piece's keys, and the source prefers to sum the rest of the piece. The piece has the keys from `start` up to but
/// not including `next`.
pub(crate) fn prefers_rest<S: SumSource>(
    source: &S,
    low: BoundNumber,
    high: BoundNumber,
    start: KeyNumber,
    next: BoundNumber,
) -> bool
    ensures { IsTrue result → 3 * (next - start) < 4 * (high - low) }
{
    let Ok(part) = KeyRange::new(low, high) else {
        return false;
    };
    let Ok(whole) = KeyRange::new(start as BoundNumber, next) else {
        return false;
    };
    if 3 * (next - start as BoundNumber) >= 4 * (high - low) {
        return false;
    }
    source.prefers_rest(part, whole)
}
