//! A table and its workers, each worker on its own thread.
ghost use Rattle.crack_witness.specs.Witnesses.{AreNames};

use crate::histories::draws::{DrawnQuestions, FIRST_KEYS};
use crate::histories::gate::Restless;
use crate::histories::recorder::Recorder;
use crate::histories::texts::{write_answer, write_part, written};
use crate::report::BenchHost;
use crate::table_workers::{Hand, TableWorker, leave, work_on_threads};
use crack_row::{Entry, Key, Limits, Policy, Refusal, Watched};
use crack_table::{Gathered, Table, UnnamedTable, gather};
use crack_witness::{Naming, Worker};
use std::alloc::Global;
use std::io::Write;
use std::marker::Brand;
use std::sync::atomic::AtomicU32;

/// The parameters of a run.
#[derive(Clone, Copy)]
pub struct Plan {
    pub seed: u64,
    pub workers: u64,
    /// How many commands and checkpoints each worker asks for.
    pub statements: u64,
    pub policy: Policy,
    /// The limits of each partition.
    pub limits: Limits,
}

/// A worker of the table, and its questions.
type Asking<'a, R, J> = Hand<TableWorker<'a, R, Restless, J>, Recorder<'a>>;

/// Opens a table with an audit, has its workers ask, and writes their questions and answers, and the histories.
/// Refused as `UnnamedTable::open` and `gather` are, with `OutOfMemory` if no memory is found, and with `WriteFault`
/// if the writer fails.
pub fn carry_out<R: BenchHost, W: Write>(
    rt: &R,
    plan: Plan,
    writer: &mut Watched<W>,
) -> Result<(), Refusal> {
    let [_, second, third] = FIRST_KEYS;
    let splits = [
        Key::from_number(second).bound(),
        Key::from_number(third).bound(),
    ];
    let table = UnnamedTable::open(rt.alloc(), &splits, plan.limits, plan.workers, true)?;
    carry_out_named::<Brand, R, W>(rt, plan, table, writer)
}

/// Opens the table under the name `J`, which matters only to proofs, and carries out the plan. Refused as
/// `carry_out` is.
fn carry_out_named<J: Naming + Send + Sync, R: BenchHost, W: Write>(
    rt: &R,
    plan: Plan,
    table: UnnamedTable,
    writer: &mut Watched<W>,
) -> Result<(), Refusal>
    requires { AreNames J.book J.owner table.opened }
{
    let (table, workers) = table.named::<J>(rt.alloc())?;
    let mut left = Vec::new(rt.alloc());
    match ask_and_write(rt, plan, &table, workers, &mut left, writer) {
        Ok(()) => gather_and_write(rt.alloc(), table, left, writer),
        Err(refusal) => {
            drop(left);
            drop(table);
            Err(refusal)
        }
    }
}

/// Has the workers ask, writes their questions and answers, and moves the workers to `left`. Refused with
/// `OutOfMemory` if no memory is found, and with `WriteFault` if the writer fails.
fn ask_and_write<J: Naming + Send + Sync, R: BenchHost + Sync, W: Write>(
    rt: &R,
    plan: Plan,
    table: &Table<J>,
    workers: Vec<Worker<J>>,
    left: &mut Vec<Worker<J>>,
    writer: &mut Watched<W>,
) -> Result<(), Refusal> {
    let gate = Restless {
        begun: AtomicU32::new(0),
        entered: [AtomicU32::new(0), AtomicU32::new(0), AtomicU32::new(0)],
    };
    let mut hands = Vec::new(rt.alloc());
    match work(rt, &gate, plan, table, workers, &mut hands, writer) {
        Ok(()) => leave(hands, left),
        Err(refusal) => {
            drop(hands);
            Err(refusal)
        }
    }
}

/// Adds each worker with its questions to `hands`, has the workers ask, each on a thread of its own, and writes their
/// questions and answers. Refused as `ask_and_write` is.
fn work<'a, J: Naming + Send + Sync, R: BenchHost + Sync, W: Write>(
    rt: &'a R,
    gate: &'a Restless,
    plan: Plan,
    table: &'a Table<J>,
    workers: Vec<Worker<J>>,
    hands: &mut Vec<Asking<'a, R, J>>,
    writer: &mut Watched<W>,
) -> Result<(), Refusal> {
    'workers: for worker in workers {
        let questions = Recorder {
            draws: DrawnQuestions::new(plan.seed, worker.number()),
            gate,
            workers: plan.workers,
            text: Vec::new(rt.alloc()),
            cut: false,
        };
        let worker = TableWorker {
            rt,
            gate,
            table,
            policy: plan.policy,
            worker,
        };
        hands.push(Hand { worker, questions })?;
    }
    work_on_threads(rt, rt.alloc(), hands, plan.statements)?;
    write_hands(hands, writer)
}

/// Writes the questions, answers and receipts of the workers, one worker after another.
fn write_hands<J: Naming, R: BenchHost, W: Write>(
    hands: &[Asking<'_, R, J>],
    writer: &mut Watched<W>,
) -> Result<(), Refusal> {
    'hands: for hand in hands {
        hand.questions.write(&hand.worker.worker, writer)?;
    }
    Ok(())
}

/// Gathers the workers, and writes the histories and the totals. Refused as `gather` is, and with `WriteFault` if the
/// writer fails.
fn gather_and_write<J: Naming, W: Write>(
    alloc: Global,
    table: Table<J>,
    workers: Vec<Worker<J>>,
    writer: &mut Watched<W>,
) -> Result<(), Refusal> {
    match gather(alloc, table, workers) {
        Ok(gathered) => {
            let written = write_gathered(&gathered, writer);
            drop(gathered);
            written
        }
        Err(refused) => {
            let refusal = refused.refusal;
            drop(refused);
            Err(refusal)
        }
    }
}

/// Writes the histories, one partition after another, and the totals.
fn write_gathered<J: Naming, W: Write>(
    gathered: &Gathered<J>,
    writer: &mut Watched<W>,
) -> Result<(), Refusal> {
    'parts: for part in gathered.parts.iter() {
        write_part(part.part(), part.partition(), writer)?;
        write_entries(part.part(), part.entries().unwrap_or(&[]), writer)?;
    }
    let (accepted, inserted) = (gathered.accepted, gathered.inserted);
    let (deleted, held) = (gathered.deleted, gathered.held);
    written(write!(writer, "accepted {accepted} inserted {inserted} "))?;
    written(writeln!(writer, "deleted {deleted} held {held}"))?;
    written(writer.flush())
}

/// Writes the entries of partition `part`: a line with the worker and the command of each, and the lines of its reply.
fn write_entries<W: Write>(
    part: u32,
    entries: &[Entry],
    writer: &mut Watched<W>,
) -> Result<(), Refusal> {
    'entries: for entry in entries {
        write_answer(entry.worker, part, &entry.command, Ok(&entry.reply), writer)?;
    }
    Ok(())
}
