//! Partitions asked by one thread.
ghost use Rattle.std.specs.Prelude.{◌≡◌, ◌≢◌, ℕ, ◌+◌, ◌≤◌, vec_capacity, List, [], ◌∷◌, length, map, All, is_ok, IsOk};
ghost use Rattle.std.specs.Prelude.{None, Some, IfOk, IfErr, OnErr, OnOk, Ok, Err, slice_get, if◌then◌else◌};
ghost use Rattle.crack_row.specs.Limits.{of_history};
ghost use Rattle.crack_row.specs.declared.Bound.{Bound};
ghost use Rattle.crack_row.specs.declared.limit.Limits.{Limits};
ghost use Rattle.crack_plain.specs.Plain.{PlainView, IsNumbered, IsSmall, checkpointed_table};
ghost use Rattle.crack_part.specs.Parts.{Part, table_of, Serves, Spares};
ghost use Rattle.crack_core.specs.Routes.{AreSplits, keys_of_part, route, parts_of};
ghost use Rattle.crack_core.specs.Opening.{opening_fault, MayFault, AreParts};
ghost use Rattle.crack_core.specs.Steps.{bounds_from, IsOutcomeAt, IsLayoutOutcome, expected_checkpoint, tables_of};
ghost use Rattle.crack_core.specs.Steps.{IsStatisticsOutcome, expected_statistics};
ghost use Rattle.crack_core.specs.Steps.{mapped, fresh_table, tables_after, changed_at, accepted_by};
ghost use Rattle.crack_store.specs.Inside.{no_cells, IsLayoutOf};
ghost use Rattle.crack_core.specs.Cores.{IsCore};
ghost use Rattle.crack_core.specs.Jobs.{KeepsJobs, AtPart, AreExpectedOutcomes, IsJobOutcome};
ghost use Rattle.crack_core.specs.Jobs.{IsCheckpointedAt, Does, DoesAll};

use crate::opening::{limits_fault, open_partitions, splits_fault};
use crate::routes;
use crate::step::{Done, Job, Step};
use crack_part::Partition;
use crack_plain::Statistics;
use crack_row::{Bound, Key, KeyRange, Layout, Limits, Refusal, Reply};
use smallvec::SmallVec;
use std::alloc::Global;
use std::marker::Model;

/// Partitions by key range, asked by one thread. Contracts see the splits, the limits of each partition, and the
/// partitions.
///
/// An example, from a test:
///
/// ```
/// let insert = Command::Insert {
///     key: Key::from_number(7),
///     payload: Payload::from_number(70),
/// };
/// let count = Command::Count(KeyRange::all());
/// let steps = [step(0, insert), step(7, count), step(0, count)];
/// let results = core.run_steps(&steps).expect(rt, "memory");
/// assert!(rt; results.len() == 3);
/// assert!(rt; matches!(results[0], Ok(Reply::Placed(Serial(0)))));
/// assert!(rt; matches!(results[1], Err(Refusal::NoSuchPartition)));
/// assert!(rt; matches!(results[2], Ok(Reply::Counted(1))));
/// ```
#[derive(Drop)]
pub struct Core {
    splits: Vec<Bound>,
    limits: Limits,
    pub(crate) partitions: Vec<Partition>,
    /// What was read ahead. It is kept so that the compiler doesn't leave the reads out; nothing depends on it.
    pub(crate) reads: u64,
}

impl Model for Core {
    ghost use Rattle.crack_core.specs.Cores.{CoreState, IsCore};

    ghost Value = { CoreState };

    ghost view = { λ c. record { splits = c.splits.items; limits = c.limits; parts = c.partitions.items } };

    ghost invariant = { λ c. let core : CoreState = record {
      splits = c.splits.items;
      limits = c.limits;
      parts = c.partitions.items;
    } in IsCore core };
}

impl Core {
    /// Opens partitions without rows, one more than splits. Each accepts at most `limit` commands between two
    /// checkpoints, which are made only on request, and has the greatest of the other limits. Refused as `open_with`
    /// is. O(splits).
    pub fn open(alloc: Global, splits: &[Bound], limit: u64) -> Result<Core, Refusal>
        ensures opened { IfOk result (λ core. (core.splits ≡ splits.now) × (core.limits ≡ of_history limit)) }
        ensures fresh { IfOk result (λ core. All (λ (part : Part). table_of part ≡ fresh_table) core.parts) }
        ensures empty { IfOk result (λ core.
            All (λ (part : Part). part.store ≡
            no_cells part.keys part.store.column_room part.store.in_room) core.parts) }
        ensures none { OnOk result (opening_fault splits.now (of_history limit) ≡ None) }
        ensures fault { IfErr result (MayFault (opening_fault splits.now (of_history limit))) }
    {
        Core::open_with(alloc, splits, Limits::of_history(limit))
    }

    /// Opens partitions without rows, one more than splits, each with these limits. Refused, in this order: with
    /// `BadSplits` if the splits don't rise strictly, or one is 0 or above `GREATEST_KEY`; with `TooManyPartitions` if
    /// there are more than `MOST_SPLITS`; with `BadLimit` if a limit is 0 or above the greatest of its kind; with
    /// `OutOfMemory` if no memory is found. O(splits).
    pub fn open_with(alloc: Global, splits: &[Bound], limits: Limits) -> Result<Core, Refusal>
        ensures opened { IfOk result (λ core. (core.splits ≡ splits.now) × (core.limits ≡ limits)) }
        ensures fresh { IfOk result (λ core. All (λ (part : Part). table_of part ≡ fresh_table) core.parts) }
        ensures empty { IfOk result (λ core.
            All (λ (part : Part). part.store ≡
            no_cells part.keys part.store.column_room part.store.in_room) core.parts) }
        ensures none { OnOk result (opening_fault splits.now limits ≡ None) }
        ensures fault { IfErr result (MayFault (opening_fault splits.now limits)) }
    {
        if let Some(fault) = splits_fault(splits) {
            return Err(fault);
        }
        if let Some(fault) = limits_fault(limits) {
            return Err(fault);
        }
        let kept = Vec::from_slice(alloc, splits)?;
        let partitions = open_partitions(alloc, splits, limits)?;
        Ok(Core {
            splits: kept,
            limits,
            partitions,
            reads: 0,
        })
    }

    /// States the invariant of every core, and does nothing.
    pub fn recall_invariant(&self)
        ensures { IsCore self.now }
    {
        let _ = &self.partitions;
    }

    /// The splits: the bounds at which one partition ends and the next begins. Takes no memory. O(1).
    pub fn splits(&self) -> &[Bound]
        ensures value { result.now ≡ self.now.splits }
        ensures good { AreSplits self.now.splits }
        ensures partitions { length (tables_of self.now.parts) ≡ length self.now.splits + 1 }
        ensures numbered { All (λ (table : PlainView). IsNumbered table.state) (tables_of self.now.parts) }
    {
        self.splits.as_slice()
    }

    /// The number of the partition that has this key. O(log splits).
    pub fn route(&self, key: Key) -> u32
        ensures { result ≡ route self.now.splits key.0 }
    {
        routes::route(&self.splits, key)
    }

    /// The partitions that have keys of a range, in rising order, each with its part of the range, as the function
    /// `parts_of` gives them. Up to 8 partitions take no memory; refused with `OutOfMemory` if no memory is found for
    /// more. O(log splits + partitions met).
    pub fn parts_of(&self, range: KeyRange) -> Result<SmallVec<(u32, KeyRange), 8>, Refusal>
        ensures ok { IfOk result (λ parts. parts.items ≡ parts_of self.now.splits range) }
        ensures few { IfOk result (λ parts. length parts.items ≤ length self.now.splits + 1) }
        ensures spare { length (parts_of self.now.splits range) ≤ 8 → IsOk result }
        ensures err { IfErr result (λ e. e ≡ Refusal.OutOfMemory) }
    {
        routes::parts_of(*self.splits.allocator(), &self.splits, range)
    }

    /// The layout of one partition. Cracks and merges nothing, and isn't counted as a command. Refused with
    /// `NoSuchPartition` if there is no such partition, and with `OutOfMemory` if no memory is found. O(pieces).
    pub fn layout(&self, part: u32) -> Result<Layout, Refusal>
        ensures outcome { IsLayoutOutcome (keys_of_part self.now.splits part)
            (slice_get (tables_of self.now.parts) part) result }
        ensures store { IfOk result (λ layout. (p : Part) → slice_get self.now.parts part ≡ Some p →
            IsLayoutOf p.store layout) }
    {
        match self.partitions.get(part as usize) {
            Some(partition) => partition.layout(),
            None => Err(Refusal::NoSuchPartition),
        }
    }

    /// The statistics of one partition, for monitoring: how many rows, cells and commands it has. Cracks and merges
    /// nothing, and isn't counted as a command. Refused with `NoSuchPartition` if there is no such partition. O(1).
    pub fn statistics(&self, part: u32) -> Result<Statistics, Refusal>
        ensures outcome { IsStatisticsOutcome (slice_get (tables_of self.now.parts) part) result }
        ensures expected { result ≡ expected_statistics (slice_get self.now.parts part) }
    {
        match self.partitions.get(part as usize) {
            Some(partition) => Ok(partition.statistics()),
            None => Err(Refusal::NoSuchPartition),
        }
    }

    /// Performs a step: asks one partition, by one call of `Partition::apply`, and costs what that call does. Refused,
    /// in this order: with `NoSuchPartition` if there is no such partition; with `KeyOutside` if the command has a key
    /// of another partition; with `HistoryFull` if upkeep is on request and the partition has accepted as many
    /// commands since its last checkpoint as its limit `history`; with `LifeOver` if it has accepted as many since it
    /// was opened as its limit `life`; with `NoCell` if no cell is free for a row and upkeep frees none; with
    /// `OutOfMemory` if no memory is found. Only `OutOfMemory` may leave a change, which `Partition::apply` describes.
    #[inline(always)]
    pub fn step(&mut self, step: Step) -> Result<Reply, Refusal>
        // The outcome is the reply that the partition's plain rows give, or the refusal that they require. In place
        // of a reply it may be `OutOfMemory` or `NoCell`.
        ensures outcome { IsOutcomeAt (bounds_from self.old.limits) self.old.splits
            (tables_of self.old.parts) step.part step.command result }
        // The plain rows change as the reply says. A refusal leaves them unchanged.
        ensures after { tables_of self.new.parts ≡
            tables_after (bounds_from self.old.limits) (tables_of self.old.parts) step.part step.command result }
        ensures accepted { accepted_by self.new.parts ≡
            (if is_ok result then accepted_by self.old.parts + 1 else accepted_by self.old.parts) }
        ensures small { IfOk result IsSmall }
        ensures opened { (self.new.splits ≡ self.old.splits) × (self.new.limits ≡ self.old.limits) }

        ensures others { (k : ℕ) → k ≢ step.part → slice_get self.new.parts k ≡ slice_get self.old.parts k }
        ensures store { OnOk result (AtPart step.part (λ (p q : Part).
            Serves step.policy p step.command q.store) self.old.parts self.new.parts) }
        ensures spared { OnErr result (AtPart step.part (λ (p q : Part).
            Spares step.policy p step.command q.store) self.old.parts self.new.parts) }
        ensures same { IfErr result (λ e. e ≢ Refusal.OutOfMemory → self.new ≡ self.old) }
    {
        ask_at(&mut self.partitions, step)
    }

    /// Performs these steps in order, each as `step` does, and returns the outcome of each. If a step is refused, the
    /// next one is still performed. The call is refused with `OutOfMemory`, before the first step, if no memory is
    /// found for the list of the outcomes. Costs what its steps do.
    pub fn run_steps(&mut self, steps: &[Step]) -> Result<Vec<Result<Reply, Refusal>>, Refusal>
        ensures replies { IfOk result (λ results.
            AreExpectedOutcomes self.old.limits self.old.splits (tables_of self.old.parts) (map Job.Perform steps.now)
            (map (mapped Done.Replied) results.items)) }
        ensures kept { IfOk result (λ results.
            KeepsJobs self.old.limits (tables_of self.old.parts) (map Job.Perform steps.now)
            (map (mapped Done.Replied) results.items) (tables_of self.new.parts)) }
        // Each store changes only by its own steps, in their order, each by its policy.
        ensures stores { IfOk result (λ results.
            DoesAll self.old.splits self.old.limits (map Job.Perform steps.now)
            (map (mapped Done.Replied) results.items) self.old.parts self.new.parts) }
        ensures opened { (self.new.splits ≡ self.old.splits) × (self.new.limits ≡ self.old.limits) }
        ensures same { OnErr result (self.new ≡ self.old) }
        ensures err { IfErr result (λ e. e ≡ Refusal.OutOfMemory) }
    {
        let mut results = Vec::with_capacity(*self.partitions.allocator(), steps.len())?;
        run_all(&mut self.partitions, steps, &mut results);
        Ok(results)
    }

    /// Makes a checkpoint of one partition, and returns how many commands the partition had accepted since its
    /// previous one; that count restarts at 0. Cracks and merges nothing, takes no memory, and changes no later reply.
    /// Refused with `NoSuchPartition` if there is no such partition; then nothing has changed. Costs what
    /// `Partition::checkpoint` does.
    pub fn checkpoint(&mut self, part: u32) -> Result<u64, Refusal>
        ensures outcome { result ≡ expected_checkpoint (slice_get (tables_of self.old.parts) part) }
        ensures after { tables_of self.new.parts ≡ changed_at checkpointed_table (tables_of self.old.parts)
            part result }
        ensures checkpoints { OnOk result (IsCheckpointedAt part self.old.parts self.new.parts) }
        ensures accepted { accepted_by self.new.parts ≡ accepted_by self.old.parts }
        ensures opened { (self.new.splits ≡ self.old.splits) × (self.new.limits ≡ self.old.limits) }
        ensures same { OnErr result (self.new ≡ self.old) }
    {
        checkpoint_at(&mut self.partitions, part)
    }

    /// Does these jobs in order, and returns the outcome of each. If a job is refused, it changes no row, and the next
    /// job is still done. A step that is refused with `OutOfMemory` may have cracked or merged, as `Partition::apply`
    /// says. The call is refused with `OutOfMemory`, before the first job, if no memory is found for the list of the
    /// outcomes. Costs what its jobs do.
    pub fn run_jobs(&mut self, jobs: &[Job]) -> Result<Vec<Result<Done, Refusal>>, Refusal>
        ensures replies { IfOk result (λ results.
            AreExpectedOutcomes self.old.limits self.old.splits (tables_of self.old.parts) jobs.now results.items) }
        ensures kept { IfOk result (λ results.
            KeepsJobs self.old.limits (tables_of self.old.parts) jobs.now results.items (tables_of self.new.parts)) }
        // Each store changes only by its own steps, in their order, each by its policy. A checkpoint leaves it
        // unchanged.
        ensures stores { IfOk result (λ results.
            DoesAll self.old.splits self.old.limits jobs.now results.items self.old.parts self.new.parts) }
        ensures opened { (self.new.splits ≡ self.old.splits) × (self.new.limits ≡ self.old.limits) }
        ensures same { OnErr result (self.new ≡ self.old) }
        ensures err { IfErr result (λ e. e ≡ Refusal.OutOfMemory) }
    {
        let mut results = Vec::with_capacity(*self.partitions.allocator(), jobs.len())?;
        do_all(&mut self.partitions, jobs, &mut results);
        Ok(results)
    }

    /// The number of commands that the partitions have accepted since they were opened. O(partitions).
    pub fn accepted(&self) -> u64
        ensures { result ≡ accepted_by self.now.parts }
    {
        let mut accepted = 0;
        for partition in &self.partitions {
            partition.recall_invariant();
            accepted += partition.accepted();
        }
        accepted
    }
}

/// Performs a step on the partition with the step's number. Refused as `Core::step` is.
#[inline(always)]
fn ask_at(partitions: &mut [Partition], step: Step) -> Result<Reply, Refusal>
    ensures outcome { (splits : List Bound) (limits : Limits) → AreParts splits limits partitions.old →
        IsOutcomeAt (bounds_from limits) splits (tables_of partitions.old) step.part step.command result }
    ensures after { (splits : List Bound) (limits : Limits) → AreParts splits limits partitions.old →
        tables_of partitions.new ≡ tables_after (bounds_from limits)
        (tables_of partitions.old) step.part step.command result }
    ensures kept { (splits : List Bound) (limits : Limits) → AreParts splits limits partitions.old →
        KeepsJobs limits (tables_of partitions.old) (Job.Perform step ∷ []) (mapped Done.Replied result ∷ [])
        (tables_of partitions.new) }
    ensures accepted { accepted_by partitions.new ≡
        (if is_ok result then accepted_by partitions.old + 1 else accepted_by partitions.old) }
    ensures parts { (splits : List Bound) (limits : Limits) → AreParts splits limits partitions.old →
        AreParts splits limits partitions.new }
    ensures small { IfOk result IsSmall }
    ensures others { (k : ℕ) → k ≢ step.part → slice_get partitions.new k ≡ slice_get partitions.old k }
    ensures store { OnOk result (AtPart step.part (λ (p q : Part).
        Serves step.policy p step.command q.store) partitions.old partitions.new) }
    ensures spared { OnErr result (AtPart step.part (λ (p q : Part).
        Spares step.policy p step.command q.store) partitions.old partitions.new) }
    ensures same { IfErr result (λ e. e ≢ Refusal.OutOfMemory → partitions.new ≡ partitions.old) }
{
    let part = step.part as usize;
    if part >= partitions.len() {
        return Err(Refusal::NoSuchPartition);
    }
    let partition = &mut partitions[part];
    let answered = partition.apply(step.command, step.policy);
    partition.recall_invariant();
    answered
}

/// Performs steps in order, and adds the outcome of each to `results`, which must be empty and have room for all of
/// them.
fn run_all(partitions: &mut [Partition], steps: &[Step], results: &mut Vec<Result<Reply, Refusal>>)
    requires empty { results.old.items ≡ [] }
    requires room { length steps.now ≤ vec_capacity results.old }
    ensures replies { (splits : List Bound) (limits : Limits) → AreParts splits limits partitions.old →
        AreExpectedOutcomes limits splits (tables_of partitions.old) (map Job.Perform steps.now)
        (map (mapped Done.Replied) results.new.items) }
    ensures kept { (splits : List Bound) (limits : Limits) → AreParts splits limits partitions.old → KeepsJobs limits
        (tables_of partitions.old) (map Job.Perform steps.now) (map (mapped Done.Replied) results.new.items) (tables_of
        partitions.new) }
    ensures stores { (splits : List Bound) (limits : Limits) → AreParts splits limits partitions.old →
        DoesAll splits limits (map Job.Perform steps.now)
        (map (mapped Done.Replied) results.new.items) partitions.old partitions.new }
    ensures parts { (splits : List Bound) (limits : Limits) → AreParts splits limits partitions.old →
        AreParts splits limits partitions.new }
{
    'steps: for step in steps {
        let result = ask_at(partitions, *step);
        results.push_reserved(result);
    }
}

/// Makes a checkpoint of one partition, and returns how many commands it had accepted since its previous one.
/// Refused with `NoSuchPartition` if there is no such partition.
fn checkpoint_at(partitions: &mut [Partition], part: u32) -> Result<u64, Refusal>
    ensures outcome { result ≡ expected_checkpoint (slice_get (tables_of partitions.old) part) }
    ensures after { tables_of partitions.new ≡ changed_at checkpointed_table (tables_of partitions.old) part result }
    ensures checkpoints { OnOk result (IsCheckpointedAt part partitions.old partitions.new) }
    ensures kept { (limits : Limits) →
        KeepsJobs limits (tables_of partitions.old) (Job.Checkpoint part ∷ []) (mapped Done.CheckpointMade result ∷ [])
        (tables_of partitions.new) }
    ensures accepted { accepted_by partitions.new ≡ accepted_by partitions.old }
    ensures parts { (splits : List Bound) (limits : Limits) → AreParts splits limits partitions.old →
        AreParts splits limits partitions.new }
    ensures same { OnErr result (partitions.new ≡ partitions.old) }
{
    let number = part as usize;
    if number >= partitions.len() {
        return Err(Refusal::NoSuchPartition);
    }
    let partition = &mut partitions[number];
    let checkpointed = partition.checkpoint();
    partition.recall_invariant();
    Ok(checkpointed)
}

/// Does one job: performs a step, or makes a checkpoint. Refused as `Core::step` and `Core::checkpoint` are.
fn do_job(partitions: &mut [Partition], job: Job) -> Result<Done, Refusal>
    ensures outcome { (splits : List Bound) (limits : Limits) → AreParts splits limits partitions.old →
        IsJobOutcome (bounds_from limits) splits (slice_get (tables_of partitions.old)) job result }
    ensures kept { (splits : List Bound) (limits : Limits) → AreParts splits limits partitions.old →
        KeepsJobs limits (tables_of partitions.old) (job ∷ []) (result ∷ []) (tables_of partitions.new) }
    ensures does { (splits : List Bound) (limits : Limits) → AreParts splits limits partitions.old →
        Does splits limits job result partitions.old partitions.new }
    ensures parts { (splits : List Bound) (limits : Limits) → AreParts splits limits partitions.old →
        AreParts splits limits partitions.new }
{
    match job {
        Job::Perform(step) => performed(ask_at(partitions, step)),
        Job::Checkpoint(part) => checkpoint_done(checkpoint_at(partitions, part)),
    }
}

/// The outcome of a step, as the outcome of its job: a reply becomes `Done::Replied`, and a refusal stays as it is.
fn performed(answered: Result<Reply, Refusal>) -> Result<Done, Refusal>
    ensures { result ≡ mapped Done.Replied answered }
{
    match answered {
        Ok(reply) => Ok(Done::Replied(reply)),
        Err(refusal) => Err(refusal),
    }
}

/// The outcome of a checkpoint, as the outcome of its job: the number of commands becomes `Done::CheckpointMade`, and
/// a refusal stays as it is.
fn checkpoint_done(checkpointed: Result<u64, Refusal>) -> Result<Done, Refusal>
    ensures { result ≡ mapped Done.CheckpointMade checkpointed }
{
    match checkpointed {
        Ok(count) => Ok(Done::CheckpointMade(count)),
        Err(refusal) => Err(refusal),
    }
}

/// Does jobs in order, and adds the outcome of each to `results`, which must be empty and have room for all of them.
fn do_all(partitions: &mut [Partition], jobs: &[Job], results: &mut Vec<Result<Done, Refusal>>)
    requires empty { results.old.items ≡ [] }
    requires room { length jobs.now ≤ vec_capacity results.old }
    ensures replies { (splits : List Bound) (limits : Limits) → AreParts splits limits partitions.old →
        AreExpectedOutcomes limits splits (tables_of partitions.old) jobs.now results.new.items }
    ensures kept { (splits : List Bound) (limits : Limits) → AreParts splits limits partitions.old →
        KeepsJobs limits (tables_of partitions.old) jobs.now results.new.items (tables_of partitions.new) }
    ensures stores { (splits : List Bound) (limits : Limits) → AreParts splits limits partitions.old →
        DoesAll splits limits jobs.now results.new.items partitions.old partitions.new }
    ensures parts { (splits : List Bound) (limits : Limits) → AreParts splits limits partitions.old →
        AreParts splits limits partitions.new }
{
    'jobs: for job in jobs {
        let result = do_job(partitions, *job);
        results.push_reserved(result);
    }
}
