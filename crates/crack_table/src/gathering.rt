//! Closing a table: its workers are gathered, which means that all are handed back and compared with the partitions.
ghost use Rattle.std.specs.Prelude.{◌≡◌, ℕ, ◌+◌, ◌<◌, ◌≤◌, ◌==◌, length, All, IfOk, IfErr, IfNone, IfSome, IsTrue};
ghost use Rattle.std.specs.Prelude.{OnOk, OnErr, ◌↔◌, true, is_some, if◌then◌else◌, vec_len};
ghost use Rattle.std.specs.List.{list_any};
ghost use Rattle.crack_part.specs.Parts.{IsSound};
ghost use Rattle.crack_core.specs.Opening.{AreParts};
ghost use Rattle.crack_core.specs.Routes.{AreSplits};
ghost use Rattle.crack_witness.specs.Receipts.{AreShares};
ghost use Rattle.crack_witness.specs.Witnesses.{WorkerState, WitnessedState, IsWhole};
ghost use Rattle.crack_table.specs.Audits.{histories_of, receipts_of};
ghost use Rattle.crack_table.specs.Cover.{Covers};
ghost use Rattle.crack_table.specs.Gather.{missing_below, held_by, AreGathered, AreHistoryTotals, IsTables};
ghost use Rattle.crack_table.specs.Gather.{IsTablesAt, IsFirstStrange, MayNotMatch, MayNotGather};
ghost use Rattle.crack_table.specs.Keeps.{AreNumbered};

use crate::auditing::{audit, is_listed};
use crate::locks::{lock, unlock};
use crate::table::Table;
use crate::totals::{HistoryTotals, sums_of};
use crack_core::keys_of_part;
use crack_part::Partition;
use crack_row::{Bound, Limits, Refusal};
use crack_witness::{Naming, Witnessed, Worker, compare};
use std::alloc::Global;
use std::sync::Mutex;

/// The totals of all workers, and the partitions with their histories, which exist only in proofs.
///
/// An example, from a test:
///
/// ```
/// let gathered = gather(alloc, table, workers).ok().expect(rt, "gathered");
/// // ..
/// [
///     gathered.accepted,
///     gathered.inserted,
///     gathered.deleted,
///     gathered.held,
/// ]
/// ```
#[derive(Drop)]
pub struct Gathered<J: Naming> {
    /// How many commands were answered.
    pub accepted: u64,
    /// How many rows were inserted.
    pub inserted: u64,
    /// How many rows were deleted.
    pub deleted: u64,
    /// How many rows are live.
    pub held: u64,
    /// The partitions, by number.
    pub parts: Vec<Witnessed<J>>,
}

/// Why workers weren't gathered, with the table and the workers unchanged.
#[derive(Drop)]
pub struct GatherRefused<J: Naming> {
    pub refusal: Refusal,
    pub table: Table<J>,
    pub workers: Vec<Worker<J>>,
}

/// Closes a table when all its workers are handed back, and returns the totals and the partitions. Checks that each
/// partition's history since its opening begins with all that the workers saw of it, and has exactly those entries of
/// each worker for which the worker received replies, as both have counted. With an audit it also checks that the
/// receipts of all workers match these entries one to one; then the totals are those of the receipts.
///
/// Refused, in this order: with `WorkersMissing`, bit n for number n, if a worker of the table is missing; with
/// `OutOfMemory` if no memory is found; with `StrangeReceipt` at position 0 of the first partition that isn't the
/// table's; with an audit as `cover` is, and with `OutOfMemory` if no memory is found; then as `compare` of
/// crack_witness is. A refusal hands the table and the workers back. O(partitions × workers), however many entries
/// there are; an audit takes O(entries + receipts) more, up to a logarithm, and a byte for each entry.
pub fn gather<J: Naming>(
    alloc: Global,
    table: Table<J>,
    workers: Vec<Worker<J>>,
) -> Result<Gathered<J>, GatherRefused<J>>
    ensures all { OnOk result ((n : ℕ) → n < table.workers → list_any (λ (w : WorkerState). w.worker == n)
        workers.items ≡ true) }
    ensures gathered { IfOk result (λ s. AreGathered J.owner table.splits table.limits table.workers workers.items
        s.parts.items) }
    ensures totals { IfOk result (λ s. AreHistoryTotals J.owner s.parts.items s.accepted s.inserted s.deleted s.held) }
    ensures covered { IfOk result (λ s. table.audited ≡ true → Covers (histories_of J.owner s.parts.items)
        (receipts_of workers.items)) }
    ensures shares { IfOk result (λ s. table.audited ≡ true → AreShares (receipts_of workers.items) s.accepted
        s.inserted s.deleted) }

    ensures table { IfErr result (λ e. e.table ≡ table) }
    ensures workers { IfErr result (λ e. e.workers.items ≡ workers.items) }
    ensures causes { IfErr result (λ e. MayNotGather J.owner table workers.items e.refusal) }
{
    let missing = missing_workers(&workers, table.workers());
    if missing != 0 {
        return Err(GatherRefused {
            refusal: Refusal::WorkersMissing { missing },
            table,
            workers,
        });
    }
    let Table {
        mut locks,
        splits,
        limits,
        workers: count,
        is_audited,
    } = table;
    match close(
        alloc, &mut locks, &splits, limits, count, is_audited, &workers,
    ) {
        Ok(gathered) => Ok(gathered),
        Err(refusal) => Err(GatherRefused {
            refusal,
            table: Table {
                locks,
                splits,
                limits,
                workers: count,
                is_audited,
            },
            workers,
        }),
    }
}

/// Takes the partitions out of their locks, checks that they and the workers agree, and returns them with the totals.
/// `count` is the number of the table's workers. Refused with `OutOfMemory` if no memory is found, and as `match_all`
/// is; the partitions are then in locks again.
fn close<J: Naming>(
    alloc: Global,
    locks: &mut Vec<Mutex<Witnessed<J>>>,
    splits: &[Bound],
    limits: Limits,
    count: u64,
    is_audited: bool,
    workers: &Vec<Worker<J>>,
) -> Result<Gathered<J>, Refusal>
    requires all { vec_len locks.old ≡ length splits.now + 1 }
    requires rising { AreSplits splits.now }
    ensures gathered { IfOk result (λ s. AreGathered J.owner splits.now limits count workers.now.items
        s.parts.items) }
    ensures totals { IfOk result (λ s. AreHistoryTotals J.owner s.parts.items s.accepted s.inserted s.deleted s.held) }
    ensures covered { IfOk result (λ s. is_audited ≡ true → Covers (histories_of J.owner s.parts.items)
        (receipts_of workers.now.items)) }
    ensures shares { IfOk result (λ s. is_audited ≡ true → AreShares (receipts_of workers.now.items) s.accepted
        s.inserted s.deleted) }
    ensures locked { OnErr result (vec_len locks.new ≡ vec_len locks.old) }
    ensures causes { IfErr result (MayNotMatch J.owner splits.now limits count is_audited workers.now.items) }
{
    let mut parts = Vec::with_capacity(alloc, locks.len())?;
    unlock(locks, &mut parts);
    match match_all(
        alloc, splits, limits, count, is_audited, &mut parts, workers,
    ) {
        Ok(sums) => Ok(Gathered {
            accepted: sums.accepted,
            inserted: sums.inserted,
            deleted: sums.deleted,
            held: sums.held,
            parts,
        }),
        Err(refusal) => {
            lock(&mut parts, locks);
            Err(refusal)
        }
    }
}

/// Checks that the partitions are the table's, and that they and the workers agree. Returns the partitions' totals.
/// `count` is the number of the table's workers. Refused as `gather` is if no worker is missing.
fn match_all<J: Naming>(
    alloc: Global,
    splits: &[Bound],
    limits: Limits,
    count: u64,
    is_audited: bool,
    parts: &mut Vec<Witnessed<J>>,
    workers: &Vec<Worker<J>>,
) -> Result<HistoryTotals, Refusal>
    requires count { length parts.old.items ≡ length splits.now + 1 }
    requires rising { AreSplits splits.now }
    ensures same { parts.new.items ≡ parts.old.items }
    ensures gathered { OnOk result (AreGathered J.owner splits.now limits count workers.now.items
        parts.old.items) }
    ensures totals { IfOk result (λ s. AreHistoryTotals J.owner parts.old.items s.accepted s.inserted s.deleted
        s.held) }
    ensures covered { OnOk result (is_audited ≡ true → Covers (histories_of J.owner parts.old.items)
        (receipts_of workers.now.items)) }
    ensures shares { IfOk result (λ s. is_audited ≡ true → AreShares (receipts_of workers.now.items) s.accepted
        s.inserted s.deleted) }
    ensures causes { IfErr result (MayNotMatch J.owner splits.now limits count is_audited workers.now.items) }
{
    recall_invariant(parts);
    if let Some(part) = first_strange(splits, limits, count, is_audited, parts) {
        return Err(Refusal::StrangeReceipt { part, position: 0 });
    }
    audit(alloc, is_audited, parts, workers)?;
    compare(workers, parts)?;
    Ok(sums_of(parts))
}

/// States the invariants of every partition. Does nothing: O(partitions).
pub(crate) fn recall_invariant<J: Naming>(parts: &Vec<Witnessed<J>>)
    ensures whole { All (λ (w : WitnessedState). IsWhole J.owner w) parts.now.items }
    ensures sound { All (λ (w : WitnessedState). IsSound w.held) parts.now.items }
{
    'parts: for part in parts {
        part.recall_invariant();
    }
}

/// The place of the first partition that isn't the table's, or `None` if all are: its number isn't its place, or its
/// keys, limits, number of workers or audit aren't those with which the table was opened.
fn first_strange<J: Naming>(
    splits: &[Bound],
    limits: Limits,
    workers: u64,
    is_audited: bool,
    parts: &Vec<Witnessed<J>>,
) -> Option<u32>
    requires count { length parts.now.items ≡ length splits.now + 1 }
    requires rising { AreSplits splits.now }
    requires sound { All (λ (w : WitnessedState). IsSound w.held) parts.now.items }
    ensures none { IfNone result (AreParts splits.now limits (held_by parts.now.items) ×
        AreNumbered workers parts.now.items) }
    ensures listed { IfNone result (All (λ (w : WitnessedState). is_some w.entries ≡ is_audited) parts.now.items) }
    ensures some { IfSome result (IsFirstStrange splits.now limits workers is_audited parts.now.items) }
{
    'parts: for (place, part) in parts.iter().enumerate() {
        if !is_tables_at(splits, limits, workers, is_audited, place, part) {
            return Some(place as u32);
        }
    }
    None
}

/// Whether a partition is the table's at this place: its number is the place, it counts the entries of `workers`
/// workers, it lists its entries exactly if there is an audit, and it has the table's limits, and the keys that
/// `splits` give to the place.
fn is_tables_at<J: Naming>(
    splits: &[Bound],
    limits: Limits,
    workers: u64,
    is_audited: bool,
    place: usize,
    part: &Witnessed<J>,
) -> bool
    requires rising { AreSplits splits.now }
    requires there { place ≤ length splits.now }
    ensures { IsTrue result ↔ IsTablesAt splits.now limits workers is_audited place part.now }
{
    part.part() as usize == place
        && part.workers() as u64 == workers
        && is_listed(part) == is_audited
        && is_tables(splits, limits, place, part.partition())
}

/// Whether a partition has these limits, and the keys of the table's partition `part`, which `splits` give.
fn is_tables(splits: &[Bound], limits: Limits, part: usize, partition: &Partition) -> bool
    requires rising { AreSplits splits.now }
    requires there { part ≤ length splits.now }
    ensures { IsTrue result ↔ IsTables splits.now limits part partition.now }
{
    partition.keys() == keys_of_part(splits, part) && partition.limits() == limits
}

/// The numbers below `count` that no worker has: bit n is set for number n. 0 if none is missing.
fn missing_workers<J: Naming>(workers: &Vec<Worker<J>>, count: u64) -> u64
    requires { count ≤ 64 }
    ensures { result ≡ missing_below (λ (w : WorkerState). w.worker) workers.now.items count }
{
    let mut missing = 0u64;
    let mut bit = 1u128;
    'numbers: for number in 0..count {
        missing += bit_unless(has_worker(workers, number), bit as u64);
        bit *= 2;
    }
    missing
}

/// 0 if `is_there`, otherwise `bit`.
fn bit_unless(is_there: bool, bit: u64) -> u64
    ensures is { result ≡ (if is_there then 0 else bit) }
    ensures small { result ≤ bit }
{
    if is_there { 0 } else { bit }
}

/// Whether one of the workers has this number.
fn has_worker<J: Naming>(workers: &Vec<Worker<J>>, number: u64) -> bool
    ensures { result ≡ list_any (λ (w : WorkerState). w.worker == number) workers.now.items }
{
    workers
        .iter()
        .any(|worker| u64::from(worker.number()) == number)
}
