//! The measurements of a table's workers, and their times.

use crate::report::{BenchHost, BenchOutput, Outcome, report};
use crate::table_workers::{Hand, TableWorker, Works, leave, work_on_threads};
use crate::workers::mix::{Mix, PARTS_EACH, PartSpan, count_all};
use crack_row::{Policy, Refusal};
use crack_table::{OpenGate, Table, gather};
use crack_witness::{Naming, Worker};
use std::alloc::Global;
use std::io;
use std::time::Instant;

/// The distance between the first numbers of two workers' mixes.
const APART: u32 = 50000000;

/// The policy of each command.
pub const POLICY: Policy = Policy::Gradual;

/// Which partitions each worker sends commands to.
#[derive(Clone, Copy)]
pub enum Sharing {
    /// Partitions to which no other worker sends commands.
    Own,
    /// All partitions of the table.
    Shared,
}

/// What the workers of a table do after their rows are inserted.
#[derive(Clone, Copy)]
pub enum Work {
    /// Counts all rows, and then each worker takes steps on its own thread.
    Threads { steps: u32 },
    /// Counts all rows, and then the first worker alone takes steps.
    Alone { steps: u32 },
    /// A checkpoint of each partition.
    Checkpoint,
    Nothing,
}

/// What happens to the workers at the end of a run: they are gathered or dropped.
#[derive(Clone, Copy)]
pub enum RunEnd {
    Gather,
    Leave,
}

/// The parameters of a run over one table.
#[derive(Clone, Copy)]
pub struct MeasuredRun {
    pub workers: u32,
    pub sharing: Sharing,
    /// How many rows are inserted for each partition.
    pub rows: u32,
    pub work: Work,
    pub end: RunEnd,
}

impl MeasuredRun {
    /// How many partitions the table of the run has.
    pub fn parts(&self) -> u32 {
        self.workers.saturating_mul(PARTS_EACH)
    }

    /// The commands of the worker with this number, which has inserted no row yet.
    fn mix(&self, alloc: Global, worker: u32) -> Mix {
        let parts = match self.sharing {
            Sharing::Own => PartSpan {
                first: worker.wrapping_mul(PARTS_EACH),
                count: PARTS_EACH,
            },
            Sharing::Shared => PartSpan {
                first: 0,
                count: self.parts(),
            },
        };
        Mix::new(alloc, parts, worker.wrapping_mul(APART))
    }
}

/// Carries out a run over a table and its workers, and then gathers the workers or drops them, as `run.end` says.
pub fn run_over<J: Naming + Send + Sync, R: BenchHost>(
    rt: &R,
    table: Table<J>,
    workers: Vec<Worker<J>>,
    run: MeasuredRun,
) -> Outcome {
    let mut left = Vec::new(rt.alloc());
    match carry_out(rt, &table, workers, run, &mut left) {
        Ok(()) if matches!(run.end, RunEnd::Gather) => gather_all(rt, table, left),
        outcome => {
            drop(left);
            drop(table);
            outcome
        }
    }
}

/// Has the workers carry out a run, and then moves them to `left`. If the run fails, they are dropped.
fn carry_out<J: Naming + Send + Sync, R: BenchHost + Sync>(
    rt: &R,
    table: &Table<J>,
    workers: Vec<Worker<J>>,
    run: MeasuredRun,
    left: &mut Vec<Worker<J>>,
) -> Outcome {
    let gate = OpenGate;
    let mut hands = Vec::new(rt.alloc());
    let outcome = match add_workers(rt, &gate, table, workers, run, &mut hands) {
        Ok(()) => measure(rt, &mut hands, run),
        Err(refusal) => Err(refusal.into()),
    };
    match outcome {
        Ok(()) => Ok(leave(hands, left)?),
        outcome => {
            drop(hands);
            outcome
        }
    }
}

/// Adds each worker to `hands`, with the table, the gate and its commands.
fn add_workers<'a, J: Naming, R: BenchHost + Sync>(
    rt: &'a R,
    gate: &'a OpenGate,
    table: &'a Table<J>,
    workers: Vec<Worker<J>>,
    run: MeasuredRun,
    hands: &mut Vec<Hand<TableWorker<'a, R, OpenGate, J>, Mix>>,
) -> Result<(), Refusal> {
    'workers: for worker in workers {
        let questions = run.mix(rt.alloc(), worker.number());
        let worker = TableWorker {
            rt,
            gate,
            table,
            policy: POLICY,
            worker,
        };
        hands.push(Hand { worker, questions })?;
    }
    Ok(())
}

/// Inserts the rows, writes the time of that, and has the workers do the work of the run.
fn measure<R: BenchHost, A: Works + Send + Drop>(
    rt: &R,
    hands: &mut Vec<Hand<A, Mix>>,
    run: MeasuredRun,
) -> Outcome {
    let start = Instant::now(rt)?;
    load(hands, run.rows)?;
    report(rt, "load", start)?;
    match run.work {
        Work::Threads { steps } => measure_threads(rt, hands, run, steps),
        Work::Alone { steps } => measure_alone(rt, hands, steps),
        Work::Checkpoint => Ok(checkpoint_all(hands, run.parts())?),
        Work::Nothing => Ok(()),
    }
}

/// Inserts this many rows for each partition, one worker after another.
fn load<A: Works>(hands: &mut [Hand<A, Mix>], rows: u32) -> Result<(), Refusal> {
    'hands: for hand in hands.iter_mut() {
        hand.questions
            .load(&mut hand.worker, rows.saturating_mul(PARTS_EACH))?;
    }
    Ok(())
}

/// Counts all rows, has each worker take `steps` steps on a thread of its own, and writes the count, the time and the
/// total of the sums. If the workers share partitions, the sums depend on the order of their commands, so the total
/// isn't written.
fn measure_threads<R: BenchHost, A: Works + Send + Drop>(
    rt: &R,
    hands: &mut Vec<Hand<A, Mix>>,
    run: MeasuredRun,
    steps: u32,
) -> Outcome {
    let everything = match hands.first_mut() {
        Some(hand) => count_all(&mut hand.worker, run.parts())?,
        None => 0,
    };
    println!(rt; "rows {everything}")?;
    let start = Instant::now(rt)?;
    work_on_threads(rt, rt.alloc(), hands, u64::from(steps))?;
    report(rt, "work", start)?;
    let sums = sum_of(hands)?;
    if matches!(run.sharing, Sharing::Own) {
        println!(rt; "sums {sums}")?;
    }
    Ok(())
}

/// The total of the sums of the workers' steps, or the first refusal of a worker.
fn sum_of<A>(hands: &[Hand<A, Mix>]) -> Result<u64, Refusal> {
    let mut total = 0u64;
    'hands: for hand in hands {
        total = total.wrapping_add(hand.questions.sums?);
    }
    Ok(total)
}

/// Counts all rows, has the first worker take `steps` steps, and writes the count, the time and the total of the sums.
/// Does nothing if there is no worker.
fn measure_alone<R: BenchOutput, A: Works>(
    rt: &R,
    hands: &mut [Hand<A, Mix>],
    steps: u32,
) -> Outcome {
    let Some(hand) = hands.first_mut() else {
        return Ok(());
    };
    let everything = count_all(&mut hand.worker, PARTS_EACH)?;
    let start = Instant::now(rt)?;
    let sums = hand.questions.steps(&mut hand.worker, u64::from(steps));
    report(rt, "work", start)?;
    let sums = sums?;
    println!(rt; "rows {everything} sums {sums}")?;
    Ok(())
}

/// Makes a checkpoint of each of `parts` partitions, through the first worker. Does nothing if there is no worker.
fn checkpoint_all<A: Works>(hands: &mut [Hand<A, Mix>], parts: u32) -> Result<(), Refusal> {
    let Some(hand) = hands.first_mut() else {
        return Ok(());
    };
    'parts: for part in 0..parts {
        hand.worker.checkpoint(part)?;
    }
    Ok(())
}

/// Gathers the workers. Writes the time until they are gathered, the time until the partitions are dropped too, and the
/// totals. Refused as `gather` is.
fn gather_all<J: Naming, R: BenchOutput>(
    rt: &R,
    table: Table<J>,
    workers: Vec<Worker<J>>,
) -> Outcome {
    let start = Instant::now(rt)?;
    match gather(rt.alloc(), table, workers) {
        Ok(gathered) => {
            let reported = report(rt, "settle", start);
            let (accepted, inserted) = (gathered.accepted, gathered.inserted);
            let (deleted, held) = (gathered.deleted, gathered.held);
            drop(gathered);
            reported?;
            Ok(print_totals(rt, start, [accepted, inserted, deleted, held])?)
        }
        Err(refused) => {
            let refusal = refused.refusal;
            drop(refused);
            Err(refusal.into())
        }
    }
}

/// Writes the time since `start`, and the totals of gathered workers: accepted, inserted, deleted and held.
fn print_totals<R: BenchOutput>(rt: &R, start: Instant, totals: [u64; 4]) -> io::Result<()> {
    report(rt, "gather", start)?;
    let [accepted, inserted, deleted, held] = totals;
    print!(rt; "accepted {accepted} inserted {inserted} ")?;
    println!(rt; "deleted {deleted} held {held}")
}
