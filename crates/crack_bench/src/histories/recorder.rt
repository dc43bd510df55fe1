//! The questions of a worker, recorded with their answers.

use crate::histories::draws::{Asked, DrawnQuestions, Question};
use crate::histories::gate::Restless;
use crate::histories::texts::{write_answer, write_checkpoint, write_receipt, written};
use crate::table_workers::{Questions, Works};
use crack_commands::send;
use crack_row::{Command, Refusal, Watched};
use crack_witness::{Naming, Worker};
use std::io::Write;

/// Draws the questions of a worker, and records them with their answers.
#[derive(Drop)]
pub struct Recorder<'a> {
    pub draws: DrawnQuestions,
    pub gate: &'a Restless,
    /// How many workers begin together.
    pub workers: u64,
    pub text: Vec<u8>,
    /// Whether some of the text is missing because no memory was found for it.
    pub cut: bool,
}

impl Recorder<'_> {
    /// Has the worker ask partition `part` a command, and records the partition, the command and the answer, which may
    /// be a refusal. Refused with `WriteFault` if no memory is found for the text.
    fn ask<A: Works>(
        &mut self,
        worker: &mut A,
        part: u32,
        command: Command,
    ) -> Result<(), Refusal> {
        let answer = worker.ask(part, command);
        self.draws.learn(part, &answer);
        let mut text = Watched::new(&mut self.text);
        write_answer(part, part, &command, answer.as_ref(), &mut text)
    }

    /// Writes the line `worker W`, the questions and answers, the line `receipts W`, and the worker's receipts.
    /// Refused with `OutOfMemory` if some of the text is missing, and with `WriteFault` if the writer fails.
    pub fn write<J: Naming, W: Write>(
        &self,
        worker: &Worker<J>,
        writer: &mut Watched<W>,
    ) -> Result<(), Refusal> {
        if self.cut {
            return Err(Refusal::OutOfMemory);
        }
        let number = worker.number();
        written(writeln!(writer, "worker {number}"))?;
        send(writer, self.text.as_slice())?;
        written(writeln!(writer, "receipts {number}"))?;
        'receipts: for receipt in worker.receipts() {
            write_receipt(receipt, writer)?;
        }
        Ok(())
    }
}

impl Questions for Recorder<'_> {
    /// Waits until the other workers begin too, and then has the worker ask the next `count` questions, and records
    /// them.
    fn ask_next<A: Works>(&mut self, worker: &mut A, count: u64) {
        self.gate.begin_together(self.workers);
        'questions: for _ in 0..count {
            let Question { part, asked } = self.draws.next();
            let recorded = match asked {
                Asked::Command(command) => self.ask(worker, part, command),
                Asked::Checkpoint => {
                    let outcome = worker.checkpoint(part);
                    write_checkpoint(part, &outcome, &mut Watched::new(&mut self.text))
                }
            };
            self.cut = recorded.is_err() || self.cut;
        }
    }
}
