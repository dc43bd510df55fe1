//! Tables, which prove each reply when they give it. Without an audit they keep no commands.
ghost use Rattle.std.specs.Prelude.{◌≡◌, ◌+◌, ◌≤◌, length};
ghost use Rattle.crack_row.specs.Limits.{AreLimits};
ghost use Rattle.crack_core.specs.Routes.{AreSplits};
ghost use Rattle.crack_witness.specs.Witnesses.{OwnersDiffer};
ghost use Rattle.crack_table.specs.Asking.{AsksTable};
ghost use Rattle.crack_table.specs.Tables.{AnswersAt, LooksAt, MeasuresAt};

use crate::asking::{ask_gated, with_table_limit};
use crate::gate::{Gate, note_due_checkpoint};
use crack_plain::Statistics;
use crack_row::{Bound, Command, Layout, Limits, Policy, Refusal, Reply};
use crack_witness::{Naming, Witnessed, Worker};
use std::marker::Model;
use std::sync::{Mutex, Wait};

/// A table: partitions, each in a lock with its history, which exists only in proofs. Many threads may share a table;
/// each asks it through a worker of its own. With an audit each partition lists its entries, and each worker keeps
/// its receipts. Contracts see what the table was opened with; the workers' own state has the events that they have
/// seen.
///
/// An example, from a test:
///
/// ```
/// table.ask(rt, gate, worker, part, command, Policy::Complete)
/// // ..
/// let gathered = gather(alloc, table, workers).ok().expect(rt, "gathered");
/// ```
#[derive(Drop)]
pub struct Table<J: Naming> {
    pub(crate) locks: Vec<Mutex<Witnessed<J>>>,
    pub(crate) splits: Vec<Bound>,
    pub(crate) limits: Limits,
    pub(crate) workers: u64,
    pub(crate) is_audited: bool,
}

impl<J: Naming> Model for Table<J> {
    ghost use Rattle.std.specs.Prelude.{vec_len};
    ghost use Rattle.crack_table.specs.Keeps.{IsTable};
    ghost use Rattle.crack_table.specs.Tables.{TableState};

    ghost Value = { TableState };

    ghost view = { λ t. record {
      splits = t.splits.items;
      limits = t.limits;
      workers = t.workers;
      locks = vec_len t.locks;
      audited = t.is_audited;
    } };

    ghost invariant = { λ t. IsTable J.owner t.splits.items t.limits t.workers (vec_len t.locks) };
}

impl<J: Naming> Table<J> {
    /// States the invariants of every table, among them one lock for each partition, and no two partitions with the
    /// same history. Does nothing.
    pub fn recall_invariant(&self)
        ensures locks { self.now.locks ≡ length self.now.splits + 1 }
        ensures rising { AreSplits self.now.splits }
        ensures limited { AreLimits self.now.limits }
        ensures few { self.now.workers ≤ 64 }
        ensures apart { OwnersDiffer J.owner self.now.locks }
    {
        let _ = &self.locks;
    }

    /// The table's splits: where one partition ends and the next begins. Takes no lock and no memory. O(1).
    pub fn splits(&self) -> &[Bound]
        ensures value { result.now ≡ self.now.splits }
        ensures rising { AreSplits result.now }
    {
        self.splits.as_slice()
    }

    /// How many workers the table was opened with. Takes no lock.
    pub(crate) fn workers(&self) -> u64
        ensures value { result ≡ self.now.workers }
        ensures few { result ≤ 64 }
    {
        self.workers
    }

    /// Executes a worker's command on partition `part`, under the partition's lock, for which it may wait. The gate
    /// decides, under the lock, when the command is executed; it is notified if the partition first made a checkpoint,
    /// because its history was full.
    ///
    /// Refused, in this order: with `NoSuchPartition` if there is no such partition; under the lock with `GateGaveUp`
    /// if the gate refuses `GATE_TURNS` times; if the worker is another table's, with `NoSuchPartition` or with
    /// `StrangeReceipt`, which carries `part` and the number of its replies there; then as `Partition::apply` is, with
    /// `KeyOutside`, `HistoryFull`, `LifeOver`, `NoCell` and `OutOfMemory`. After a refusal the worker has seen no
    /// more events, and no entry and no receipt is added.
    ///
    /// Costs, beyond `Partition::apply`, O(1) and the calls of the gate, and no memory; with an audit O(1), amortised,
    /// the copies of a select's list, and the memory of an entry and a receipt.
    pub fn ask<R: Wait, G: Gate>(
        &self,
        rt: &R,
        gate: &G,
        worker: &mut Worker<J>,
        part: u32,
        command: Command,
        policy: Policy,
    ) -> Result<Reply, Refusal>
        ensures { AsksTable J.owner self.now (G.may_refuse gate.now part) part command result worker.old worker.new }
    {
        let Some(lock) = self.locks.get(part as usize) else {
            return Err(Refusal::NoSuchPartition);
        };
        let mut witnessed = lock.lock(rt);
        let mut checkpointed = 0;
        let answered = ask_gated(
            gate,
            worker,
            part,
            &mut witnessed,
            command,
            policy,
            &mut checkpointed,
        )?;
        drop(witnessed);
        note_due_checkpoint(gate, part, checkpointed);
        let reply = with_table_limit(answered, self.limits.history)?;
        Ok(reply)
    }

    /// Makes a checkpoint of partition `part` under its lock, for which it may wait. Returns how many commands the
    /// partition answered since the last one. No row changes, and the history keeps all its entries. Refused with
    /// `NoSuchPartition` if there is no such partition. Holds this one lock for the time that `Partition::checkpoint`
    /// takes.
    pub fn checkpoint<R: Wait>(&self, rt: &R, part: u32) -> Result<u64, Refusal>
        ensures { AnswersAt self.now part (λ e. ⊥) result }
    {
        let Some(lock) = self.locks.get(part as usize) else {
            return Err(Refusal::NoSuchPartition);
        };
        let mut witnessed = lock.lock(rt);
        Ok(witnessed.checkpoint())
    }

    /// The layout of partition `part`, read under its lock, for which it may wait. Cracks and merges nothing, and adds
    /// no entry to the history. Refused with `NoSuchPartition` if there is no such partition, and with `OutOfMemory`
    /// if no memory is found. O(pieces).
    pub fn layout<R: Wait>(&self, rt: &R, part: u32) -> Result<Layout, Refusal>
        ensures { LooksAt self.now part result }
    {
        let Some(lock) = self.locks.get(part as usize) else {
            return Err(Refusal::NoSuchPartition);
        };
        let witnessed = lock.lock(rt);
        witnessed.partition().layout()
    }

    /// The statistics of partition `part`, read under its lock, for which it may wait. Cracks and merges nothing, and
    /// adds no entry to the history. Refused with `NoSuchPartition` if there is no such partition. O(1).
    pub fn statistics<R: Wait>(&self, rt: &R, part: u32) -> Result<Statistics, Refusal>
        ensures { MeasuresAt self.now part result }
    {
        let Some(lock) = self.locks.get(part as usize) else {
            return Err(Refusal::NoSuchPartition);
        };
        let witnessed = lock.lock(rt);
        witnessed.recall_invariant();
        Ok(witnessed.partition().statistics())
    }
}
