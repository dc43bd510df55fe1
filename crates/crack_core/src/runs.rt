//! Runs of rows that are inserted into one partition by one call.
ghost use Rattle.std.specs.Prelude.{◌≡◌, ◌+◌, ◌<◌, ◌≤◌, ◌^◌, length, List, Err, IfOk, IfErr, slice_index_or};
ghost use Rattle.crack_row.specs.declared.Bound.{Bound};
ghost use Rattle.crack_row.specs.declared.limit.Limits.{Limits};
ghost use Rattle.crack_core.specs.Routes.{AreSplits, route};
ghost use Rattle.crack_core.specs.Opening.{AreParts};
ghost use Rattle.crack_core.specs.Asking.{Inserts};
ghost use Rattle.crack_core.specs.Bulk.{Answered, key_in, payload_in};
ghost use Rattle.crack_core.specs.Inside.{InsertsFrom};

use crate::Core;
use crack_part::Partition;
use crack_row::{Key, KeyNumber, PayloadNumber, Refusal};

/// Rows that were inserted into one partition one after the other.
#[derive(Clone, Copy)]
pub(crate) struct Run {
    /// The partition.
    pub(crate) part: u32,
    /// The serial of the first row.
    pub(crate) first: u64,
    /// How many rows there are.
    pub(crate) count: usize,
}

impl Core {
    /// Inserts the first rows of these lists of keys and payloads into the partition of the first key, as many as
    /// `Partition::insert_run` takes, which may be none, and returns them as a run. Refused with `OutOfMemory` if no
    /// memory is found for the first row.
    pub(crate) fn insert_run(
        &mut self,
        keys: &[KeyNumber],
        payloads: &[PayloadNumber],
    ) -> Result<Run, Refusal>
        requires some { 0 < length keys.now }
        requires payloads { length payloads.now ≡ length keys.now }
        ensures few { IfOk result (λ run. run.count ≤ length keys.now) }
        ensures last { IfOk result (λ run. run.first + run.count < 2 ^ 64) }
        ensures runs { IfOk result (λ run. Answered (InsertsFrom self.old.limits self.old.splits keys.now payloads.now
            run.part run.first) self.old.parts run.count self.new.parts) }
        ensures refused { IfErr result (λ e. Inserts self.old.limits self.old.splits (key_in keys.now 0)
            (payload_in payloads.now 0) (Err e) self.old.parts self.new.parts) }
        ensures opened { (self.new.splits ≡ self.old.splits) × (self.new.limits ≡ self.old.limits) }
    {
        let part = self.route(Key::from_number(keys[0]));
        run_at(&mut self.partitions, part, keys, payloads)
    }
}

/// Inserts the first rows of these lists into the partition with this number, as many as `Partition::insert_run`
/// takes, and returns them as a run. Refused as `Partition::insert_run` is.
fn run_at(
    partitions: &mut [Partition],
    part: u32,
    keys: &[KeyNumber],
    payloads: &[PayloadNumber],
) -> Result<Run, Refusal>
    requires there { part < length partitions.old }
    requires payloads { length payloads.now ≡ length keys.now }
    ensures few { IfOk result (λ run. run.count ≤ length keys.now) }
    ensures last { IfOk result (λ run. run.first + run.count < 2 ^ 64) }
    ensures runs { (splits : List Bound) (limits : Limits) → AreSplits splits → AreParts splits limits partitions.old →
        IfOk result (λ run. Answered (InsertsFrom limits splits keys.now payloads.now run.part run.first)
        partitions.old run.count partitions.new) }
    ensures refused { (splits : List Bound) (limits : Limits) → AreParts splits limits partitions.old →
        part ≡ route splits (slice_index_or keys.now 0 0) → IfErr result (λ e. Inserts limits splits
        (key_in keys.now 0) (payload_in payloads.now 0) (Err e) partitions.old partitions.new) }
    ensures parts { (splits : List Bound) (limits : Limits) → AreParts splits limits partitions.old →
        AreParts splits limits partitions.new }
{
    let partition = &mut partitions[part as usize];
    let first = partition.insertions();
    let inserted = partition.insert_run(keys, payloads);
    partition.recall_invariant();
    match inserted {
        Ok(count) => Ok(Run { part, first, count }),
        Err(refusal) => Err(refusal),
    }
}
