//! The opening of partitions.
ghost use Rattle.std.specs.Prelude.{◌≡◌, ◌≤◌, [], length, All, IfOk, IfErr};
ghost use Rattle.crack_row.specs.Limits.{AreLimits};
ghost use Rattle.crack_store.specs.Inside.{no_cells};
ghost use Rattle.crack_part.specs.Parts.{Part, table_of};
ghost use Rattle.crack_core.specs.Routes.{is_rising, AreSplits};
ghost use Rattle.crack_core.specs.Opening.{splits_fault, limits_fault, AreParts};
ghost use Rattle.crack_core.specs.Steps.{fresh_table};

use crate::MOST_SPLITS;
use crate::routes::keys_of_part;
use crack_part::Partition;
use crack_row::{Bound, KeyRange, Limits, Refusal};
use std::alloc::Global;

/// Why these splits are refused: `BadSplits` if they don't rise strictly, or one is 0 or above `GREATEST_KEY`; else
/// `TooManyPartitions` if there are more than `MOST_SPLITS`. `None` if they aren't refused. Takes no memory.
/// O(splits).
pub fn splits_fault(splits: &[Bound]) -> Option<Refusal>
    ensures value { result ≡ splits_fault splits.now }
    ensures good { result ≡ None → AreSplits splits.now }
{
    if !is_rising(splits) {
        return Some(Refusal::BadSplits);
    }
    if splits.len() > MOST_SPLITS {
        return Some(Refusal::TooManyPartitions);
    }
    None
}

/// Why these limits are refused: `BadLimit` if one of them is 0 or above the greatest of its kind. `None` if they
/// aren't refused. O(1).
pub fn limits_fault(limits: Limits) -> Option<Refusal>
    ensures value { result ≡ limits_fault limits }
    ensures good { result ≡ None → AreLimits limits }
{
    if limits.are_valid() {
        return None;
    }
    Some(Refusal::BadLimit)
}

/// Opens the partitions between these splits, without rows, each with these limits. `splits_fault` and `limits_fault`
/// must find no fault. Refused with `OutOfMemory` if no memory is found. O(splits).
pub fn open_partitions(
    alloc: Global,
    splits: &[Bound],
    limits: Limits,
) -> Result<Vec<Partition>, Refusal>
    requires splits { AreSplits splits.now }
    requires limited { AreLimits limits }
    ensures parts { IfOk result (λ parts. AreParts splits.now limits parts.items) }
    ensures fresh { IfOk result (λ parts. All (λ (part : Part). table_of part ≡ fresh_table) parts.items) }
    ensures empty { IfOk result (λ parts.
        All (λ (part : Part). part.store ≡ no_cells part.keys part.store.column_room part.store.in_room) parts.items) }
    ensures err { IfErr result (λ e. e ≡ Refusal.OutOfMemory) }
{
    let mut parts = Vec::with_capacity(alloc, splits.len() + 1)?;
    for part in 0..splits.len() + 1 {
        let partition = Partition::open_with(alloc, keys_of_part(splits, part), limits)?;
        partition.recall_invariant();
        parts.push(partition)?;
    }
    Ok(parts)
}

/// Whether splits rise strictly, each above 0 and below `GREATEST_BOUND`.
fn is_rising(splits: &[Bound]) -> bool
    ensures { result ≡ is_rising 0 splits.now }
{
    let all = KeyRange::all();
    let mut low = all.low();
    for split in splits {
        if *split <= low || all.high() <= *split {
            return false;
        }
        low = *split;
    }
    true
}
