//! A worker that finds no memory for a command: nothing has changed.
//!
//! The tests `sweep_..` pass whichever one of their allocations is refused, so they can be run with each one refused
//! in turn.
use crate::script::command_of;
use crate::trials::{Opening, Trial, run_at};
use crate::values::{GREATEST, ONE, give_back};
use crack_commands::parse_statement;
use crack_plain::PlainTable;
use crack_row::{Command, Limits, Policy, Refusal, Upkeep};
use crack_table::{GatherRefused, Gathered, OpenGate, Table, gather};
use crack_witness::{Naming, Worker};
use std::alloc::Global;
use std::process::Abort;
use std::sync::Wait;

/// Inserts, changes and reads, some while rows are pending, each with its policy.
const ASKED: [(&str, Policy); 12] = [
    ("insert 10 1", Policy::Ripple),
    ("insert 20 1", Policy::Ripple),
    ("insert 30 1", Policy::Ripple),
    ("count 0 18446744073709551616", Policy::Complete),
    ("insert 15 1", Policy::Ripple),
    ("update 0.1 25 9", Policy::Ripple),
    ("sum 0 18446744073709551616", Policy::Ripple),
    ("delete 0.1", Policy::Ripple),
    ("insert 16 1", Policy::Gradual),
    ("count 0 18446744073709551616", Policy::Gradual),
    ("delete 0.1", Policy::Ripple),
    ("select 0 18446744073709551616", Policy::Ripple),
];

/// The numbers of a worker's replies and receipts.
fn counts<J: Naming>(worker: &Worker<J>) -> [u64; 2] {
    [worker.replies(), worker.receipts().len() as u64]
}

/// Asks a worker and, if it finds memory, a plain table, whose reply must be the same. The plain table finds memory
/// at the second try. Returns how many answers are refused.
fn ask_beside<J: Naming, R: Abort + Wait>(
    rt: &R,
    worker: &mut Worker<J>,
    table: &Table<J>,
    plain: &mut PlainTable,
    command: Command,
    policy: Policy,
) -> u64 {
    let before = counts(worker);
    match table.ask(rt, &OpenGate, worker, 0, command, policy) {
        Ok(reply) => {
            let plain_reply = match plain.apply(&command) {
                Ok(reply) => reply,
                Err(_) => plain.apply(&command).expect(rt, "a reply"),
            };
            assert!(rt; reply.is_same(&plain_reply) && worker.replies() == plain.accepted());
            0
        }
        Err(refusal) => {
            assert!(rt; refusal == Refusal::OutOfMemory && counts(worker) == before);
            1
        }
    }
}

/// Asks all commands, of which at most one is refused. Returns how many were answered, and how many rows are left.
fn ask_all<J: Naming, R: Abort + Wait>(
    rt: &R,
    alloc: Global,
    worker: &mut Worker<J>,
    table: &Table<J>,
) -> [u64; 2] {
    let mut plain = PlainTable::new(alloc);
    let mut refused = 0u64;
    'asked: for place in 0..ASKED.len() {
        let (line, policy) = ASKED[place];
        let statement = parse_statement(line.as_bytes()).expect(rt, "a statement");
        let command = command_of(statement).expect(rt, "a command");
        let now = ask_beside(rt, worker, table, &mut plain, command, policy);
        refused = refused.saturating_add(now);
    }
    let expected = [plain.accepted(), plain.rows().len() as u64];
    drop(plain);
    assert!(rt; refused <= 1);
    expected
}

/// Gathers the workers, at the second try at the latest.
fn gather_at_last<J: Naming>(
    rt: &impl Abort,
    alloc: Global,
    table: Table<J>,
    workers: Vec<Worker<J>>,
) -> Gathered<J> {
    match gather(alloc, table, workers) {
        Ok(gathered) => gathered,
        Err(refused) => {
            let GatherRefused {
                refusal,
                table,
                workers,
            } = refused;
            assert!(rt; refusal == Refusal::OutOfMemory);
            gather(alloc, table, workers).ok().expect(rt, "gathered")
        }
    }
}

/// The only worker of a table asks all commands, and is gathered.
#[derive(Clone, Copy)]
struct Short {
    is_audited: bool,
}

impl Trial for Short {
    fn run<J: Naming, R: Wait + Abort>(
        self,
        rt: &R,
        alloc: Global,
        table: Table<J>,
        workers: Vec<Worker<J>>,
    ) {
        let mut workers = workers;
        let mut worker = workers.pop().expect(rt, "a worker");
        let expected = ask_all(rt, alloc, &mut worker, &table);
        let receipts = if self.is_audited { expected[0] } else { 0 };
        assert!(rt; counts(&worker) == [expected[0], receipts]);
        give_back(rt, &mut workers, worker);
        let gathered = gather_at_last(rt, alloc, table, workers);
        let totals = [gathered.accepted, gathered.held];
        drop(gathered);
        assert_eq!(rt; totals, expected);
    }
}

/// Has the only worker of a table with these limits work, without an audit and with one.
fn work_within<R: Wait + Abort>(rt: &R, alloc: Global, limits: Limits) {
    let opening = Opening {
        splits: ONE,
        limits,
        workers: 1,
    };
    'audits: for is_audited in [false, true] {
        let ended = run_at(rt, alloc, opening, is_audited, Short { is_audited });
        assert!(rt; ended == Ok(()) || ended == Err(Refusal::OutOfMemory));
    }
}

#[test]
fn sweep_worker(rt: HostRuntime) {
    work_within(&rt, rt.alloc(), GREATEST);
}

#[test]
fn sweep_worker_whose_checkpoints_are_due(rt: HostRuntime) {
    let limits = Limits {
        history: 2,
        upkeep: Upkeep::Automatic,
        ..GREATEST
    };
    work_within(&rt, rt.alloc(), limits);
}
