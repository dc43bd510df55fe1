//! Opening a table in two steps: first its book, which lists the entries of all partitions and exists only in proofs;
//! then, once a type `J` names this book, its partitions and its workers.
ghost use Rattle.std.specs.Prelude.{◌≡◌, ◌≢◌, ℕ, ◌+◌, ◌<◌, ◌≤◌, AllPairs, length, IfOk, IfErr, OnOk, None};
ghost use Rattle.crack_row.specs.Limits.{AreLimits};
ghost use Rattle.crack_core.specs.Opening.{MayFault};
ghost use Rattle.crack_core.specs.Routes.{AreSplits};
ghost use Rattle.crack_witness.specs.Histories.{AreEmpty};
ghost use Rattle.crack_witness.specs.Witnesses.{AreNames};
ghost use Rattle.crack_table.specs.Opening.{table_fault, opened_table, AreNewWorkers};

use crate::MOST_WORKERS;
use crate::locks::lock;
use crate::table::Table;
use crack_core::{limits_fault, open_partitions, splits_fault};
use crack_row::{Bound, Limits, Refusal};
use crack_witness::{Naming, Opened, SeenEvents, Worker};
use std::alloc::{AllocError, Global};
use std::marker::Model;

/// A table that is to be opened, and its book, which has no name yet. Contracts see what the table is opened with,
/// and the book, with the owner of each partition: its number in the book.
///
/// An example, from a test:
///
/// ```
/// UnnamedTable::open(alloc, &splits, limits, workers, is_audited)
/// // ..
/// let (table, workers) = table.named::<J>(alloc)?;
/// ```
#[derive(Drop)]
pub struct UnnamedTable {
    opened: Opened,
    splits: Vec<Bound>,
    limits: Limits,
    workers: u64,
    is_audited: bool,
}

impl Model for UnnamedTable {
    ghost use Rattle.crack_table.specs.Keeps.{IsUnnamed};
    ghost use Rattle.crack_table.specs.Opening.{opened_table, UnnamedState};

    ghost Value = { UnnamedState };

    ghost view = { λ t. record {
      opened = t.opened;
      table = opened_table t.splits.items t.limits t.workers t.is_audited;
    } };

    ghost invariant = { λ t. IsUnnamed t.opened.ids t.splits.items t.limits t.workers };
}

impl UnnamedTable {
    /// The first step: opens the book of a table. Each split ends one partition and begins the next, and each
    /// partition has these limits. With an audit each partition will list its entries, and each worker will keep its
    /// receipts. O(partitions).
    ///
    /// Refused, in this order: with `BadSplits` if the splits don't rise strictly, or one is 0 or above
    /// `GREATEST_KEY`; with `TooManyPartitions` if there are more than `MOST_SPLITS` of crack_core; with
    /// `BadWorkerCount` if there is no worker, or more than `MOST_WORKERS`; with `BadLimit` if a limit is 0 or above
    /// the greatest of its kind; with `OutOfMemory` if no memory is found.
    pub fn open(
        alloc: Global,
        splits: &[Bound],
        limits: Limits,
        workers: u64,
        is_audited: bool,
    ) -> Result<UnnamedTable, Refusal>
        ensures table { IfOk result (λ t. t.table ≡ opened_table splits.now limits workers is_audited) }
        ensures some { OnOk result (0 < workers) }
        ensures owners { IfOk result (λ t. length t.opened.ids ≡ length splits.now + 1) }
        ensures distinct { IfOk result (λ t. AllPairs (λ (one other : ℕ). one ≢ other) t.opened.ids) }
        ensures none { OnOk result (table_fault splits.now limits workers ≡ None) }
        ensures fault { IfErr result (MayFault (table_fault splits.now limits workers)) }
    {
        if let Some(refusal) = fault(splits, limits, workers) {
            return Err(refusal);
        }
        let opened = Opened::new(alloc, splits.len() as u32 + 1)?;
        let splits = Vec::from_slice(alloc, splits)?;
        Ok(UnnamedTable {
            opened,
            splits,
            limits,
            workers,
            is_audited,
        })
    }

    /// The second step, which names the book `J`: opens the table, without rows, and its workers, numbered from 0.
    /// Refused with `OutOfMemory` if no memory is found. O(partitions × workers).
    pub fn named<J: Naming>(self, alloc: Global) -> Result<(Table<J>, Vec<Worker<J>>), Refusal>
        requires names { AreNames J.book J.owner self.opened }
        ensures table { IfOk result (λ r. r.0 ≡ self.table) }
        ensures workers { IfOk result (λ r. AreNewWorkers self.table.workers self.table.locks self.table.audited
            r.1.items) }
        ensures apart { OnOk result ((one other : ℕ) → one < other → other < self.table.locks →
            J.owner one ≢ J.owner other) }
        ensures err { IfErr result (λ e. e ≡ Refusal.OutOfMemory) }
    {
        let UnnamedTable {
            opened,
            splits,
            limits,
            workers: count,
            is_audited,
        } = self;
        let parts = open_partitions(alloc, &splits, limits)?;
        let (seen_events, mut witnessed) = opened.witness::<J>(
            alloc,
            parts,
            count as u32,
            is_audited,
        )?;
        let mut locks = Vec::with_capacity(alloc, witnessed.len())?;
        let workers = make_workers(alloc, &seen_events, count, witnessed.len(), is_audited)?;
        lock(&mut witnessed, &mut locks);
        let table = Table {
            locks,
            splits,
            limits,
            workers: count,
            is_audited,
        };
        Ok((table, workers))
    }
}

/// Why an opening with these arguments is refused, apart from lack of memory: the first cause in the order of
/// `UnnamedTable::open`. `None` if there is none.
fn fault(splits: &[Bound], limits: Limits, workers: u64) -> Option<Refusal>
    ensures value { result ≡ table_fault splits.now limits workers }
    ensures good { result ≡ None → AreSplits splits.now × AreLimits limits × (0 < workers) × (workers ≤ 64) }
{
    if let Some(refusal) = splits_fault(splits) {
        return Some(refusal);
    }
    if workers == 0 || workers > MOST_WORKERS {
        return Some(Refusal::BadWorkerCount);
    }
    limits_fault(limits)
}

/// `count` workers, numbered from 0, for `parts` partitions, which have seen these events. They keep receipts if there
/// is an audit. Refused if no memory is found.
fn make_workers<J: Naming>(
    alloc: Global,
    seen_events: &SeenEvents<J>,
    count: u64,
    parts: usize,
    is_audited: bool,
) -> Result<Vec<Worker<J>>, AllocError>
    requires empty { AreEmpty seen_events.now }
    requires few { count ≤ 64 }
    requires parts { parts ≤ 64 }
    ensures { IfOk result (λ workers. AreNewWorkers count parts is_audited workers.items) }
{
    let mut workers = Vec::new(alloc);
    'numbers: for number in 0..count {
        workers.push(Worker::new(alloc, number as u32, seen_events.copy(), parts, is_audited)?)?;
    }
    Ok(workers)
}
