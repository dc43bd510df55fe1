//! A worker of a table as a `Desk`.
ghost use Rattle.std.specs.Prelude.{◌≡◌, ◌+◌, is_ok, None, if◌then◌else◌};
ghost use Rattle.crack_witness.specs.Witnesses.{replies_to};
ghost use Rattle.crack_table.specs.Asking.{AsksTable};
ghost use Rattle.crack_table.specs.Tables.{AnswersAt, LooksAt, MeasuresAt};

use crack_commands::Traffic;
use crack_plain::Statistics;
use crack_row::{Bound, Command, Layout, Policy, Refusal, Reply};
use crack_session::Desk;
use crack_table::{Gate, Table};
use crack_witness::{Naming, Worker};
use std::sync::Wait;

/// The `Desk` of a worker: each command of a session is the worker's command to its table, once the gate consents.
/// Each call may wait for the lock of the partition that it asks.
///
/// An example, from a test:
///
/// ```
/// let mut desk = WorkerDesk::new(rt, table, gate, worker);
/// let one = desk.ask(0, insert(7), Policy::Complete);
/// let two = desk.ask(0, insert(8), Policy::Complete);
/// assert!(rt; one.is_ok() && two.is_ok());
/// desk.into_worker()
/// ```
#[derive(Drop)]
pub struct WorkerDesk<'a, R: Wait, G: Gate, J: Naming> {
    rt: &'a R,
    table: &'a Table<J>,
    gate: &'a G,
    worker: Worker<J>,
}

impl<'a, R: Wait, G: Gate, J: Naming> WorkerDesk<'a, R, G, J> {
    /// A desk at which this worker asks this table. The gate decides when a command is executed, and `rt` lets the
    /// desk wait for locks. Takes no lock and no memory. O(1).
    pub fn new(
        rt: &'a R,
        table: &'a Table<J>,
        gate: &'a G,
        worker: Worker<J>,
    ) -> WorkerDesk<'a, R, G, J>
        ensures worker { result.worker ≡ worker }
        ensures table { result.table.now ≡ table.now }
        ensures gate { result.gate.now ≡ gate.now }
    {
        WorkerDesk {
            rt,
            table,
            gate,
            worker,
        }
    }

    /// The desk's worker, with the events that it has seen, the number of its replies and, with an audit, its
    /// receipts. Takes no lock and no memory. O(1).
    pub fn into_worker(self) -> Worker<J>
        ensures { result ≡ self.entry.worker }
    {
        let WorkerDesk { worker, .. } = self;
        worker
    }
}

impl<'a, R: Wait, G: Gate, J: Naming> Desk for WorkerDesk<'a, R, G, J> {
    ghost use Rattle.std.specs.Prelude.{◌≡◌, None};
    ghost use Rattle.crack_core.specs.Steps.{bounds_from};
    ghost use Rattle.std.specs.List.{sum};
    ghost use Rattle.crack_table.specs.Asking.{AsksTable};
    ghost use Rattle.crack_worker_desk.specs.Leads.{table_leads};

    ghost tables = { λ d. None };

    ghost bounds = { λ d. bounds_from d.table.now.limits };

    ghost splits = { λ d. d.table.now.splits };

    ghost accepted = { λ d. sum d.worker.counts };

    ghost leads = { λ d call e. (e.table.now ≡ d.table.now) × (e.gate.now ≡ d.gate.now) × table_leads d.table.now
        (λ part. AsksTable J.owner d.table.now (G.may_refuse d.gate.now part) part) d.worker call e.worker };

    /// Asks partition `part` as `Table::ask` does, at the same cost and with the same refusals.
    fn ask(&mut self, part: u32, command: Command, policy: Policy) -> Result<Reply, Refusal>
        // The worker asks its table. The reply ends the partition's one history, as far as the worker now sees it.
        ensures asks { AsksTable J.owner self.old.table.now (G.may_refuse self.old.gate.now part) part command
            result self.old.worker self.new.worker }
        ensures replies { replies_to self.new.worker ≡ (if is_ok result then replies_to self.old.worker + 1 else
            replies_to self.old.worker) }
        ensures table { (self.new.table.now ≡ self.old.table.now) × (self.new.gate.now ≡ self.old.gate.now) }
    {
        self.table.ask(self.rt, self.gate, &mut self.worker, part, command, policy)
    }

    /// Makes a checkpoint of partition `part` as `Table::checkpoint` does, at the same cost and with the same
    /// refusals.
    fn checkpoint(&mut self, part: u32) -> Result<u64, Refusal>
        // Makes a checkpoint of a partition for all workers. Its history stays whole.
        ensures checkpoints { AnswersAt self.old.table.now part (λ e. ⊥) result }
        ensures worker { self.new.worker ≡ self.old.worker }
        ensures table { (self.new.table.now ≡ self.old.table.now) × (self.new.gate.now ≡ self.old.gate.now) }
    {
        self.table.checkpoint(self.rt, part)
    }

    /// The layout of partition `part`, as `Table::layout` reads it, at the same cost and with the same refusals.
    fn layout(&self, part: u32) -> Result<Layout, Refusal>
        ensures looks { LooksAt self.now.table.now part result }
    {
        self.table.layout(self.rt, part)
    }

    /// The statistics of partition `part`, as `Table::statistics` reads them, at the same cost and with the same
    /// refusals.
    fn statistics(&self, part: u32) -> Result<Statistics, Refusal>
        ensures measures { MeasuresAt self.now.table.now part result }
    {
        self.table.statistics(self.rt, part)
    }

    /// The traffic of the desk's server: `None`, because this desk belongs to no server. O(1).
    fn service(&self) -> Option<Traffic>
        ensures none { result ≡ None }
    {
        None
    }

    /// The table's splits. Takes no lock.
    fn splits(&self) -> &[Bound] {
        self.table.splits()
    }

    /// The number of the worker's replies. O(partitions).
    fn accepted(&self) -> u64 {
        self.worker.replies()
    }
}
