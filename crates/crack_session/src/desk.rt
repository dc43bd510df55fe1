//! Desks, which execute the commands of a session.
ghost use Rattle.std.specs.Prelude.{◌≡◌, ℕ, ◌+◌, List, length, All, is_ok, Some, IfOk, slice_get, if◌then◌else◌};
ghost use Rattle.crack_plain.specs.Plain.{PlainView, IsNumbered, IsSmall, checkpointed_table};
ghost use Rattle.crack_core.specs.Routes.{AreSplits, keys_of_part};
ghost use Rattle.crack_core.specs.Steps.{IsOutcomeAt, IsLayoutOutcome, IsCheckpointOutcome, tables_after, changed_at};
ghost use Rattle.crack_core.specs.Steps.{IsStatisticsOutcome};
ghost use Rattle.crack_session.specs.Calls.{Asked, Checkpointed, Looked, Measured, Surveyed};

use crack_commands::Traffic;
use crack_plain::Statistics;
use crack_row::{Bound, Command, Layout, Policy, Refusal, Reply};

/// A desk executes the commands of a session, one after another: it is a table of one thread (`Core`), or a worker of
/// a shared table (`WorkerDesk`). The keys of its table are divided into partitions, numbered from 0.
///
/// An example, from a test:
///
/// ```
/// let one = desk.ask(0, insert(7), Policy::Complete);
/// let two = desk.ask(0, insert(8), Policy::Complete);
/// assert!(rt; one.is_ok() && two.is_ok());
/// ```
pub trait Desk {
    ghost use Rattle.std.specs.Prelude.{ℕ, Option, List};
    ghost use Rattle.crack_row.specs.declared.Bound.{Bound};
    ghost use Rattle.crack_plain.specs.Plain.{PlainView};
    ghost use Rattle.crack_core.specs.Steps.{Bounds};
    ghost use Rattle.crack_session.specs.Calls.{Call};

    /// The plain rows of each partition, with the numbers of commands that it accepted up to its last checkpoint and
    /// since, or `None` if they aren't known.
    ghost tables: { Self → Option (List PlainView) };

    /// What the table's limits mean for a partition: why it accepts no more commands, how many cells its rows may
    /// take, how many are taken at most when none is free, and whether the next command makes a checkpoint first.
    ghost bounds: { Self → Bounds };

    /// The first key of each partition but the first, in rising order.
    ghost splits: { Self → List Bound };

    /// How many commands were accepted through this desk.
    ghost accepted: { Self → ℕ };

    /// The effect of a call with its outcome, as a relation between two states.
    ghost leads: { Self → Call → Self → Type 0 };

    /// Executes a command on partition `part`; a read merges pending rows as `policy` says. Refused with
    /// `NoSuchPartition` if there is no such partition, with `KeyOutside` if the command has a key of another
    /// partition, with `HistoryFull` if the history is full and upkeep is on request, with `LifeOver` if the partition
    /// accepts no more commands, and with `OutOfMemory` if no memory is found. Refused with `NoCell` if no cell is
    /// free for a row, upkeep frees none and the limit allows no more. A worker's desk may also refuse as `Table::ask`
    /// does. A refusal leaves rows and histories as they were. Costs what the command costs at the partition.
    fn ask(&mut self, part: u32, command: Command, policy: Policy) -> Result<Reply, Refusal>
        // The outcome is the reply of the plain rows, or the refusal that they require. Instead of a reply it may be
        // `OutOfMemory` or `NoCell`.
        ensures outcome { (known : List PlainView) → tables self.old ≡ Some known →
            IsOutcomeAt (bounds self.old) (splits self.old) known part command result }
        // The plain rows change as the reply says. A refusal leaves them as they were.
        ensures after { (known : List PlainView) → tables self.old ≡ Some known →
            tables self.new ≡ Some (tables_after (bounds self.old) known part command result) }

        ensures small { IfOk result IsSmall }
        ensures splits { splits self.new ≡ splits self.old }
        ensures bounds { bounds self.new ≡ bounds self.old }
        ensures accepted { accepted self.new ≡ (if is_ok result then accepted self.old + 1 else accepted self.old) }
        // A single call: this command on this partition under this policy, with this outcome.
        ensures leads { leads self.old (Asked part command policy result) self.new };

    /// Makes a checkpoint of partition `part`, and returns how many commands it had accepted since its previous
    /// checkpoint; that count restarts at 0. Its rows stay as they are. No history records the checkpoint. Refused
    /// with `NoSuchPartition` if there is no such partition, and with `OutOfMemory` if no memory is found. A refusal
    /// changes nothing.
    fn checkpoint(&mut self, part: u32) -> Result<u64, Refusal>
        ensures outcome { (known : List PlainView) → tables self.old ≡ Some known →
            IsCheckpointOutcome (slice_get known part) result }
        // The plain rows stay as they were. A refusal changes nothing.
        ensures after { (known : List PlainView) → tables self.old ≡ Some known →
            tables self.new ≡ Some (changed_at checkpointed_table known part result) }

        ensures splits { splits self.new ≡ splits self.old }
        ensures bounds { bounds self.new ≡ bounds self.old }
        ensures accepted { accepted self.new ≡ accepted self.old }
        ensures leads { leads self.old (Checkpointed part result) self.new };

    /// Returns the layout of partition `part`. Cracks and merges nothing, and adds nothing to the history. O(pieces).
    /// Refused with `NoSuchPartition` if there is no such partition, and with `OutOfMemory` if no memory is found.
    fn layout(&self, part: u32) -> Result<Layout, Refusal>
        // The pieces lead from one end of the partition to the other, the numbers fit, and there are as many rows as
        // plain rows.
        ensures outcome { (known : List PlainView) → tables self.now ≡ Some known →
            IsLayoutOutcome (keys_of_part (splits self.now) part) (slice_get known part) result }
        ensures leads { leads self.now (Looked part result) self.now };

    /// Returns the statistics of partition `part`, for monitoring. Cracks and merges nothing, and adds nothing to the
    /// history. Refused with `NoSuchPartition` if there is no such partition. Takes no memory.
    fn statistics(&self, part: u32) -> Result<Statistics, Refusal>
        // The numbers that follow from the plain rows and the counts of commands are right.
        ensures outcome { (known : List PlainView) → tables self.now ≡ Some known →
            IsStatisticsOutcome (slice_get known part) result }
        ensures leads { leads self.now (Measured part result) self.now };

    /// The traffic of the server that this desk belongs to, or `None` if there is no server. Takes no memory.
    fn service(&self) -> Option<Traffic>
        // Nothing is changed.
        ensures leads { leads self.now (Surveyed result) self.now };

    /// The first key of each partition but the first, in rising order. Takes no memory.
    fn splits(&self) -> &[Bound]
        ensures value { result.now ≡ splits self.now }
        ensures are { AreSplits (splits self.now) }
        ensures partitions { (known : List PlainView) → tables self.now ≡ Some known →
            length known ≡ length (splits self.now) + 1 }
        ensures numbered { (known : List PlainView) → tables self.now ≡ Some known →
            All (λ (table : PlainView). IsNumbered table.state) known };

    /// How many commands were accepted through this desk.
    fn accepted(&self) -> u64
        ensures { result ≡ accepted self.now };
}
