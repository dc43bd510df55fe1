//! The partitions that have a key or a part of a range, for given splits.
ghost use Rattle.std.specs.Prelude.{◌≡◌, ◌+◌, ◌-◌, ◌<◌, ◌≤◌, [], ◌∷◌, length, IsOk, IfOk, IfErr, IfSome, IfNone};
ghost use Rattle.crack_row.specs.Ranges.{IsIn};
ghost use Rattle.crack_row.specs.declared.TheConstants.{GREATEST_BOUND};
ghost use Rattle.crack_core.specs.Routes.{AreSplits, keys_of_part, route, parts_of};
ghost use Rattle.smallvec.specs.SmallVec.{HasRoomFor};

use crack_row::{Bound, Key, KeyRange, Refusal};
use smallvec::SmallVec;
use std::alloc::Global;

/// The number of a key's partition: partition 0 has the keys below the first split, and each later partition has the
/// keys from the split before it up to the next split. O(log splits).
pub fn route(splits: &[Bound], key: Key) -> u32
    requires { AreSplits splits.now }
    ensures value { result ≡ route splits.now key.0 }
    ensures there { result ≤ length splits.now }
    ensures within { IsIn (keys_of_part splits.now result) key.0 }
{
    splits_up_to(splits, key.bound()) as u32
}

/// The partitions that have keys of a range, in rising order, each with its part of the range. An empty range goes
/// unchanged to the partition of its low end, or to the last one if that end is the greatest bound. O(log
/// splits + partitions met). Up to 8 partitions take no memory; refused with `OutOfMemory` if no memory is found for
/// more.
pub fn parts_of(
    alloc: Global,
    splits: &[Bound],
    range: KeyRange,
) -> Result<SmallVec<(u32, KeyRange), 8>, Refusal>
    requires { AreSplits splits.now }
    ensures ok { IfOk result (λ parts. parts.items ≡ parts_of splits.now range) }
    ensures few { IfOk result (λ parts. length parts.items ≤ length splits.now + 1) }
    ensures spare { length (parts_of splits.now range) ≤ 8 → IsOk result }
    ensures err { IfErr result (λ e. e ≡ Refusal.OutOfMemory) }
{
    let mut parts = SmallVec::new(alloc);
    if let Some(part) = only_part(splits, range) {
        parts.push_reserved((part, range));
        return Ok(parts);
    }
    let first = splits_up_to(splits, range.low());
    let last = splits_below(splits, range.high());
    parts.reserve(last + 1 - first)?;
    push_parts(&mut parts, splits, range, first, last);
    Ok(parts)
}

/// The only partition that has keys of a range; for an empty range, the partition in which its low end falls. `None`
/// if several partitions have keys of the range. Takes no memory. O(log splits).
pub fn only_part(splits: &[Bound], range: KeyRange) -> Option<u32>
    requires { AreSplits splits.now }
    ensures one { IfSome result (λ part. parts_of splits.now range ≡ (part, range) ∷ []) }
    ensures several { IfNone result (1 < length (parts_of splits.now range)) }
    ensures filled { IfNone result (range.low < range.high) }
{
    let first = splits_up_to(splits, range.low());
    if range.is_empty() {
        return Some(first as u32);
    }
    if high_end(splits, first) < range.high() {
        return None;
    }
    Some(first as u32)
}

/// The keys of the partition with this number: from the split before it up to, but not including, the split after it.
/// The first partition begins at key 0, and the last one ends at the greatest bound. O(1).
pub fn keys_of_part(splits: &[Bound], part: usize) -> KeyRange
    requires splits { AreSplits splits.now }
    requires there { part ≤ length splits.now }
    ensures { result ≡ keys_of_part splits.now part }
{
    let low = low_end(splits, part);
    let high = high_end(splits, part);
    match KeyRange::between(low, high) {
        Ok(keys) => keys,
        Err(_) => unreachable!(),
    }
}

/// Adds the partitions from `first` to `last`, both included, to `parts`, each with its part of the range. `parts`
/// must be empty and have room for them.
fn push_parts(
    parts: &mut SmallVec<(u32, KeyRange), 8>,
    splits: &[Bound],
    range: KeyRange,
    first: usize,
    last: usize,
)
    requires splits { AreSplits splits.now }
    requires filled { range.low < range.high }
    requires bounded { range.high ≤ GREATEST_BOUND }
    requires first { first ≡ route splits.now range.low }
    requires last { last ≡ route splits.now (range.high - 1) }
    requires empty { parts.old.items ≡ [] }
    requires room { HasRoomFor parts.old (last + 1 - first) }
    ensures { parts.new.items ≡ parts_of splits.now range }
{
    for part in first..last + 1 {
        parts.push_reserved((part as u32, range.clip(keys_of_part(splits, part))));
    }
}

/// How many splits are at or below a bound. O(log splits).
fn splits_up_to(splits: &[Bound], bound: Bound) -> usize
    requires { AreSplits splits.now }
    ensures value { result ≡ route splits.now bound.0 }
    ensures within { result ≤ length splits.now }
{
    splits.partition_point(|split| *split <= bound)
}

/// How many splits are below a bound. O(log splits).
fn splits_below(splits: &[Bound], bound: Bound) -> usize
    requires splits { AreSplits splits.now }
    requires above { 0 < bound.0 }
    ensures value { result ≡ route splits.now (bound.0 - 1) }
    ensures within { result ≤ length splits.now }
{
    splits.partition_point(|split| *split < bound)
}

/// The low end of a partition's keys: the split before it, or 0 if it is the first.
fn low_end(splits: &[Bound], part: usize) -> Bound
    requires { part ≤ length splits.now }
    ensures { result.0 ≡ (keys_of_part splits.now part).low }
{
    if part == 0 {
        KeyRange::all().low()
    } else {
        splits[part - 1]
    }
}

/// The high end of a partition's keys: the split after it, or the greatest bound if there is none.
fn high_end(splits: &[Bound], part: usize) -> Bound
    ensures { result.0 ≡ (keys_of_part splits.now part).high }
{
    match splits.get(part) {
        Some(split) => *split,
        None => KeyRange::all().high(),
    }
}
