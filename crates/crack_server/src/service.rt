//! A server over TCP: each worker serves connections on a thread of its own.
use crate::reporting::Reporting;
use crate::supervision::{Signal, announce_drained, serve_supervisor};
use crate::totals::totals_of;
use crack_loop::{Terms, serve_connections};
use crack_row::Refusal;
use crack_service::Host;
use crack_table::{Gate, Table};
use crack_witness::{Naming, Worker};
use crack_worker_desk::WorkerDesk;
use std::alloc::Global;
use std::io::{Read, Write};
use std::net::{Net, TcpListener};
use std::sync::Wait;
use std::thread::Threads;

/// Serves the connections of a listener as `serve_connections` does, with a desk for each worker; then gathers the
/// workers and writes the totals. An accept that fails counts as a session, and so does a session that is cut off.
/// The host is notified as by `serve_connections`, and of automatic checkpoints if `terms` says so. The workers are
/// gathered by counts, so neither the memory of a server nor the time that its end takes grows with the number of
/// commands; with an audit both do. Refused as `serve_connections` is, before a connection is accepted; then as
/// `gather` is; then with `WriteFault` if the writer fails.
pub fn run_service<
    Rt: Threads + Wait + Net + Sync,
    G: Gate + Sync,
    H: Host + Sync,
    I: Read,
    W: Write,
    J: Naming + Send + Sync,
>(
    rt: &Rt,
    alloc: Global,
    listener: &TcpListener,
    table: Table<J>,
    workers: Vec<Worker<J>>,
    terms: Terms,
    gate: &G,
    host: &H,
    input: &mut I,
    writer: &mut W,
) -> Result<(), Refusal> {
    match serve_table(
        rt, alloc, listener, &table, workers, terms, gate, host, input,
    ) {
        Ok(workers) => totals_of(alloc, table, workers)?.write(writer),
        Err(refusal) => {
            drop(table);
            Err(refusal)
        }
    }
}

/// Serves as `run_service` does, under a supervisor. The first bytes that `input` brings are the end of the input for
/// the server. Once all connections have ended it writes the line `drained`, answers the statements of `input` as
/// `serve_supervisor` does, and then writes the totals. Refused as `run_service` and that session are; before the
/// totals also with `WriteFault` if the writer fails.
pub fn run_supervised<
    Rt: Threads + Wait + Net + Sync,
    G: Gate + Sync,
    H: Host + Sync,
    I: Read,
    W: Write,
    J: Naming + Send + Sync,
>(
    rt: &Rt,
    alloc: Global,
    listener: &TcpListener,
    table: Table<J>,
    workers: Vec<Worker<J>>,
    terms: Terms,
    gate: &G,
    host: &H,
    input: &mut I,
    writer: &mut W,
) -> Result<(), Refusal> {
    match serve_and_attend(
        rt, alloc, listener, &table, workers, terms, gate, host, input, writer,
    ) {
        Ok(workers) => totals_of(alloc, table, workers)?.write(writer),
        Err(refusal) => {
            drop(table);
            Err(refusal)
        }
    }
}

/// Serves connections until the first bytes of `input`, writes the line `drained`, and serves the supervisor's last
/// session. Returns the workers. Refused as `run_supervised` is, up to the end of that session.
fn serve_and_attend<
    Rt: Threads + Wait + Net + Sync,
    G: Gate + Sync,
    H: Host + Sync,
    I: Read,
    W: Write,
    J: Naming + Send + Sync,
>(
    rt: &Rt,
    alloc: Global,
    listener: &TcpListener,
    table: &Table<J>,
    workers: Vec<Worker<J>>,
    terms: Terms,
    gate: &G,
    host: &H,
    input: &mut I,
    writer: &mut W,
) -> Result<Vec<Worker<J>>, Refusal> {
    let mut signal = Signal::new(input);
    let workers = serve_table(
        rt,
        alloc,
        listener,
        table,
        workers,
        terms,
        gate,
        host,
        &mut signal,
    )?;
    drop(signal);
    announce_drained(writer)?;
    serve_supervisor(rt, alloc, table, workers, terms.policy, gate, input, writer)
}

/// Serves the connections of a listener, with notices of automatic checkpoints if `terms` says so. Returns the
/// workers. Refused as `serve_workers` is.
fn serve_table<
    Rt: Threads + Wait + Net + Sync,
    G: Gate + Sync,
    H: Host + Sync,
    I: Read,
    J: Naming + Send + Sync,
>(
    rt: &Rt,
    alloc: Global,
    listener: &TcpListener,
    table: &Table<J>,
    workers: Vec<Worker<J>>,
    terms: Terms,
    gate: &G,
    host: &H,
    input: &mut I,
) -> Result<Vec<Worker<J>>, Refusal> {
    if terms.notes_checkpoints {
        let gate = Reporting::new(gate, host);
        serve_workers(
            rt, alloc, listener, table, workers, terms, &gate, host, input,
        )
    } else {
        serve_workers(
            rt, alloc, listener, table, workers, terms, gate, host, input,
        )
    }
}

/// Lets each worker serve connections at a desk of its own until the server ends, and returns the workers. Refused as
/// `serve_connections` is, or with `OutOfMemory` if no memory is found for the list of desks.
fn serve_workers<
    Rt: Threads + Wait + Net + Sync,
    G: Gate + Sync,
    H: Host + Sync,
    I: Read,
    J: Naming + Send + Sync,
>(
    rt: &Rt,
    alloc: Global,
    listener: &TcpListener,
    table: &Table<J>,
    workers: Vec<Worker<J>>,
    terms: Terms,
    gate: &G,
    host: &H,
    input: &mut I,
) -> Result<Vec<Worker<J>>, Refusal> {
    let mut back = Vec::with_capacity(alloc, workers.len())?;
    let mut desks = Vec::with_capacity(alloc, workers.len())?;
    'workers: for worker in workers {
        desks.push(WorkerDesk::new(rt, table, gate, worker))?;
    }
    let served = serve_connections(rt, alloc, listener, desks, terms, host, input)?;
    'desks: for desk in served {
        back.push(desk.into_worker())?;
    }
    Ok(back)
}
