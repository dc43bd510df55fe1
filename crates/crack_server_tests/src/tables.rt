//! Servers over new tables.
ghost use Rattle.std.specs.Prelude.{◌≡◌, ℕ, Some, slice_get};
ghost use Rattle.crack_witness.specs.Histories.{AreEmpty};
ghost use Rattle.crack_witness.specs.Witnesses.{WorkerState, AreNames};

use crack_loop::{ServerEnding, Terms};
use crack_row::{Command, Key, Limits, Payload, Policy, Refusal};
use crack_server::run_service;
use crack_service::Host;
use crack_table::{Gate, Table, UnnamedTable};
use crack_witness::{Naming, Worker};
use std::alloc::Global;
use std::io::{Read, Write};
use std::marker::Brand;
use std::net::{Net, TcpListener};
use std::sync::Wait;
use std::thread::Threads;

/// The options of a table without splits for a server.
#[derive(Clone, Copy)]
pub(crate) struct Opening {
    pub(crate) limits: Limits,
    pub(crate) workers: u64,
    pub(crate) is_audited: bool,
    /// Whether two workers insert before the server begins, and the second of them is replaced by another with its
    /// number.
    pub(crate) is_late: bool,
}

/// A table with this many workers, and at most ten commands in its history.
pub(crate) fn of_workers(workers: u64, is_audited: bool) -> Opening {
    Opening {
        limits: Limits::of_history(10),
        workers,
        is_audited,
        is_late: false,
    }
}

/// The options of a server that ends after this many sessions, and has no other limit.
pub(crate) fn terms_of(policy: Policy, sessions: u64) -> Terms {
    Terms {
        policy,
        ending: ServerEnding::AfterSessions(sessions),
        idle: None,
        clients: u64::MAX,
        drain: 0,
        notes_checkpoints: false,
    }
}

/// Runs a server over a new table.
pub(crate) fn serve<
    H: Threads + Wait + Net + Sync,
    G: Gate + Sync,
    N: Host + Sync,
    I: Read,
    W: Write,
>(
    rt: &H,
    alloc: Global,
    listener: &TcpListener,
    opening: Opening,
    terms: Terms,
    gate: &G,
    host: &N,
    input: &mut I,
    output: &mut W,
) -> Result<(), Refusal> {
    let Opening {
        limits,
        workers,
        is_audited,
        is_late,
    } = opening;
    let table = UnnamedTable::open(alloc, &[], limits, workers, is_audited)?;
    serve_named::<Brand, H, G, N, I, W>(
        rt, alloc, listener, table, is_late, terms, gate, host, input, output,
    )
}

/// Names the table's book `J`, opens the table, and runs a server over it.
fn serve_named<
    J: Naming + Send + Sync,
    H: Threads + Wait + Net + Sync,
    G: Gate + Sync,
    N: Host + Sync,
    I: Read,
    W: Write,
>(
    rt: &H,
    alloc: Global,
    listener: &TcpListener,
    table: UnnamedTable,
    is_late: bool,
    terms: Terms,
    gate: &G,
    host: &N,
    input: &mut I,
    output: &mut W,
) -> Result<(), Refusal>
    requires { AreNames J.book J.owner table.opened }
{
    let (table, mut workers) = table.named::<J>(alloc)?;
    if is_late {
        ask_early(rt, alloc, &table, gate, &mut workers)?;
    }
    run_service(
        rt, alloc, listener, table, workers, terms, gate, host, input, output,
    )
}

/// Inserts a row with the first worker, and a row with a new worker that has the second one's number.
fn ask_early<J: Naming, H: Wait, G: Gate>(
    rt: &H,
    alloc: Global,
    table: &Table<J>,
    gate: &G,
    workers: &mut Vec<Worker<J>>,
) -> Result<(), Refusal>
    requires { (place : ℕ) (a : WorkerState) → slice_get workers.old.items place ≡ Some a → AreEmpty a.seen }
{
    let Some(first) = workers.first_mut() else {
        return Err(Refusal::WorkersMissing { missing: 1 });
    };
    let mut second = Worker::new(alloc, 1, first.seen_events().copy(), 1, true)?;
    insert_row(rt, table, gate, first)?;
    insert_row(rt, table, gate, &mut second)
}

/// Inserts a row with a worker that has executed no command yet.
fn insert_row<J: Naming, H: Wait, G: Gate>(
    rt: &H,
    table: &Table<J>,
    gate: &G,
    worker: &mut Worker<J>,
) -> Result<(), Refusal>
    requires { AreEmpty worker.old.seen }
{
    let insert = Command::Insert {
        key: Key::from_number(10),
        payload: Payload::from_number(1),
    };
    match table.ask(rt, gate, worker, 0, insert, Policy::Gradual) {
        Ok(_) => Ok(()),
        Err(refusal) => Err(refusal),
    }
}
