//! Workers of a table, each with its commands, on threads of their own.

use crack_row::{Command, Policy, Refusal, Reply};
use crack_table::{Gate, Table};
use crack_witness::{Naming, Worker};
use std::alloc::Global;
use std::sync::Wait;
use std::thread::Threads;
use std::{mem, thread};

/// What answers commands: a worker of a table, or partitions that are asked directly.
pub trait AnswersCommands {
    /// Executes a command on partition `part`. Refused with `NoSuchPartition` if there is no such partition, and
    /// otherwise as the partition or the table refuses the command.
    fn ask(&mut self, part: u32, command: Command) -> Result<Reply, Refusal>;
}

/// The serial, count or sum of a reply, or 0 if it has none; `u64::MAX` for a sum that isn't a `u64`.
pub fn number_of(reply: &Reply) -> u64 {
    match reply {
        Reply::Placed(serial) => serial.0,
        Reply::Counted(count) => *count,
        Reply::Summed(sum) => u64::try_from(*sum).unwrap_or(u64::MAX),
        _ => 0,
    }
}

/// A worker of a table.
pub trait Works: AnswersCommands {
    /// Makes a checkpoint of partition `part`. Returns how many commands the partition had accepted since its previous
    /// checkpoint. Refused as `Table::checkpoint` is.
    fn checkpoint(&mut self, part: u32) -> Result<u64, Refusal>;
}

/// Where the questions of a worker come from.
pub trait Questions {
    /// Has the worker ask the next `count` questions, or take the next `count` steps if a step has several questions.
    fn ask_next<A: Works>(&mut self, worker: &mut A, count: u64);
}

/// A worker with its table, and the gate and the policy of its commands.
#[derive(Drop)]
pub struct TableWorker<'a, R: Wait, G: Gate, J: Naming> {
    pub rt: &'a R,
    pub gate: &'a G,
    pub table: &'a Table<J>,
    pub policy: Policy,
    pub worker: Worker<J>,
}

impl<'a, R: Wait, G: Gate, J: Naming> AnswersCommands for TableWorker<'a, R, G, J> {
    /// Executes the command as `Table::ask` does.
    fn ask(&mut self, part: u32, command: Command) -> Result<Reply, Refusal> {
        let worker = &mut self.worker;
        self.table
            .ask(self.rt, self.gate, worker, part, command, self.policy)
    }
}

impl<'a, R: Wait, G: Gate, J: Naming> Works for TableWorker<'a, R, G, J> {
    /// Makes a checkpoint as `Table::checkpoint` does.
    fn checkpoint(&mut self, part: u32) -> Result<u64, Refusal> {
        self.table.checkpoint(self.rt, part)
    }
}

/// A worker, and where its questions come from.
#[derive(Drop)]
pub struct Hand<A, Q> {
    pub worker: A,
    pub questions: Q,
}

impl<A: Works, Q: Questions> Hand<A, Q> {
    /// Has the worker ask its next `count` questions. The hand is taken by value, so that only its own thread
    /// writes near it in memory.
    fn worked(mut self, count: u64) -> Hand<A, Q> {
        self.questions.ask_next(&mut self.worker, count);
        self
    }
}

/// Has each worker of `hands` ask its next `count` questions, on a thread of its own if one can be started. Refused
/// with `OutOfMemory` if no memory is found; then `hands` is left empty.
pub fn work_on_threads<
    R: Threads + Wait + Sync,
    A: Works + Send + Drop,
    Q: Questions + Send + Drop,
>(rt: &R, alloc: Global, hands: &mut Vec<Hand<A, Q>>, count: u64) -> Result<(), Refusal> {
    let idle = mem::replace(hands, Vec::new(alloc));
    *hands = thread::map_vec(rt, idle, &|hand| hand.worked(count))?;
    Ok(())
}

/// Moves the workers to `left`, and drops their questions. Refused with `OutOfMemory` if no memory is found for
/// `left`.
pub fn leave<R: Wait, G: Gate, J: Naming, Q: Drop>(
    hands: Vec<Hand<TableWorker<R, G, J>, Q>>,
    left: &mut Vec<Worker<J>>,
) -> Result<(), Refusal> {
    'hands: for hand in hands {
        left.push(hand.worker.worker)?;
    }
    Ok(())
}
