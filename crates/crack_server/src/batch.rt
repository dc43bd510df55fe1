//! A batch: the lines of one input, divided among workers, each on a thread of its own.
ghost use Rattle.std.specs.Prelude.{◌≡◌, ◌<◌, List, IfNone, map, vec_len};
ghost use Rattle.std.specs.List.{concat};
ghost use Rattle.crack_session.specs.Answers.{answer_text};
ghost use Rattle.crack_session.specs.Calls.{AreAnswersOf};
ghost use Rattle.crack_session.specs.Readings.{statements};
ghost use Rattle.crack_session.specs.declared.answer.Answer.{Answer};
ghost use Rattle.crack_witness.specs.Witnesses.{AreNames};

use crate::totals::totals_of;
use crack_row::{Bound, Limits, Policy, Refusal, Watched};
use crack_service::{Complaint, divide, read_input};
use crack_session::{Desk, serve};
use crack_table::{Gate, Table, UnnamedTable};
use crack_witness::{Naming, Worker};
use crack_worker_desk::WorkerDesk;
use std::alloc::Global;
use std::io::{Read, Write};
use std::marker::Brand;
use std::sync::Wait;
use std::thread;
use std::thread::Threads;

/// A desk that has served a worker's lines, the output of this session, and the refusal with which it was cut off, or
/// `None`.
#[derive(Drop)]
struct EndedSession<D> {
    desk: D,
    output: Vec<u8>,
    fault: Option<Refusal>,
}

/// The workers after their sessions, and the outputs of the sessions.
#[derive(Drop)]
struct EndedBatch<J: Naming> {
    workers: Vec<Worker<J>>,
    outputs: Vec<Vec<u8>>,
}

/// Opens a table with these splits and limits, `workers` workers and, if `is_audited`, an audit, and answers the lines
/// of an input over it. Each line that isn't blank is a number, one space and a statement for the worker with that
/// number, modulo the number of workers. Each worker serves its lines as a session, in parallel with the others. Then
/// `writer` gets, for each worker `w`, the line `worker w` and the output of its session, and finally the totals. The
/// workers are gathered by counts, and with an audit also by receipts, which take memory for each command until the
/// workers are gathered. Refused, in this order: as `UnnamedTable::open` is; with `ReadFault` if the reader fails or
/// has more than `MOST_INPUT_BYTES`; with `BadLine` for the first line that has no number; as the first session that is
/// cut off, by worker number; as `gather` is; with `WriteFault` if the writer fails. Refused with `OutOfMemory` at any
/// point if no memory is found for the batch's own buffers or a thread can't be started. Nothing is written before the
/// workers are gathered.
pub fn run_batch<Rt: Threads + Wait + Sync, G: Gate + Sync, R: Read, W: Write>(
    rt: &Rt,
    alloc: Global,
    splits: &[Bound],
    limits: Limits,
    policy: Policy,
    workers: u64,
    is_audited: bool,
    gate: &G,
    reader: &mut R,
    writer: &mut W,
) -> Result<(), Complaint> {
    let table = UnnamedTable::open(alloc, splits, limits, workers, is_audited)?;
    run_named::<Rt, G, R, W, Brand>(rt, alloc, table, policy, gate, reader, writer)
}

/// Opens the table under the name `J`, which matters only to proofs, answers the lines of an input over it, and writes
/// the outputs and the totals. Refused as `run_batch` is, but not for the opening of the table.
fn run_named<Rt: Threads + Wait + Sync, G: Gate + Sync, R: Read, W: Write, J: Naming + Send + Sync>(
    rt: &Rt,
    alloc: Global,
    table: UnnamedTable,
    policy: Policy,
    gate: &G,
    reader: &mut R,
    writer: &mut W,
) -> Result<(), Complaint>
    requires names { AreNames J.book J.owner table.opened }
    requires some { 0 < table.table.workers }
{
    let (table, workers) = table.named::<J>(alloc)?;
    match serve_input(rt, alloc, &table, workers, policy, gate, reader) {
        Ok(ended) => Ok(report(alloc, table, ended, writer)?),
        Err(complaint) => {
            drop(table);
            Err(complaint)
        }
    }
}

/// Reads an input, divides its lines among the workers, and serves each worker's lines as a session on a thread of its
/// own. Refused as `run_batch` is, up to the first session that is cut off.
fn serve_input<Rt: Threads + Wait + Sync, G: Gate + Sync, R: Read, J: Naming + Send + Sync>(
    rt: &Rt,
    alloc: Global,
    table: &Table<J>,
    workers: Vec<Worker<J>>,
    policy: Policy,
    gate: &G,
    reader: &mut R,
) -> Result<EndedBatch<J>, Complaint>
    requires { 0 < vec_len workers }
{
    let input = read_input(alloc, reader)?;
    let shares = divide(alloc, input.as_slice(), workers.len())?;
    drop(input);
    let desks = desks_of(rt, alloc, table, gate, workers)?;
    let served = serve_all(rt, alloc, desks, shares, policy)?;
    Ok(ended_batch_of(alloc, served)?)
}

/// Makes a desk for each worker, which executes the commands of its session. Refused with `OutOfMemory` if no memory
/// is found.
fn desks_of<'a, Rt: Wait, G: Gate, J: Naming>(
    rt: &'a Rt,
    alloc: Global,
    table: &'a Table<J>,
    gate: &'a G,
    workers: Vec<Worker<J>>,
) -> Result<Vec<WorkerDesk<'a, Rt, G, J>>, Refusal> {
    let mut desks = Vec::with_capacity(alloc, workers.len())?;
    'workers: for worker in workers {
        desks.push(WorkerDesk::new(rt, table, gate, worker))?;
    }
    Ok(desks)
}

/// Serves each share of the lines as a session with this policy, at the desk with the same index and on a thread of
/// its own. Refused with `OutOfMemory`, once all threads have ended, if one couldn't be started or no memory is found.
fn serve_all<Rt: Threads + Wait, D: Desk + Send + Drop>(
    rt: &Rt,
    alloc: Global,
    desks: Vec<D>,
    shares: Vec<Vec<u8>>,
    policy: Policy,
) -> Result<Vec<EndedSession<D>>, Refusal> {
    let mut threads = Vec::with_capacity(alloc, desks.len())?;
    let mut served = Vec::with_capacity(alloc, desks.len())?;
    let all = thread::scope(thread::scope_env(), rt, move |scope| {
        let mut started = true;
        'starts: for (desk, share) in desks.into_iter().zip(shares) {
            match scope.spawn(move || serve_share(alloc, desk, share, policy)) {
                Ok(thread) => started = threads.push(thread).is_ok() && started,
                Err(_) => started = false,
            }
        }
        'ends: for thread in threads {
            started = served.push(thread.join(rt)).is_ok() && started;
        }
        if started { Some(served) } else { None }
    });
    all.ok_or(Refusal::OutOfMemory)
}

/// Serves the lines of one worker, `share`, at its desk, with this policy. The output is in memory, so a write fails
/// only if no memory is found, and then the fault is `OutOfMemory`.
fn serve_share<D: Desk + Drop>(
    alloc: Global,
    desk: D,
    share: Vec<u8>,
    policy: Policy,
) -> EndedSession<D>
    // If the session wasn't cut off, its output is the texts of the answers to all statements of its share, made of
    // exactly the calls that the statements require, under the policy then in force; the calls led the desk to its
    // present state. The calls of a `WorkerDesk` are its worker's, and each reply is in the history of its
    // partition.
    ensures { IfNone result.fault ((answers : List Answer) × AreAnswersOf D.leads (D.splits desk) policy desk
        result.desk (statements share.items) answers × (result.output.items ≡ concat (map answer_text answers))) }
{
    let mut desk = desk;
    let mut reader = Watched::new(share.as_slice());
    let mut writer = Watched::new(Vec::new(alloc));
    let fault = match serve(alloc, &mut desk, policy, &mut reader, &mut writer) {
        Ok(_) => None,
        Err(fault) => Some(match fault.refusal {
            Refusal::WriteFault => Refusal::OutOfMemory,
            other => other,
        }),
    };
    EndedSession {
        desk,
        output: writer.into_inner(),
        fault,
    }
}

/// Collects the workers and the outputs of their sessions, by worker number. Refused as the first session that was cut
/// off, and with `OutOfMemory` if no memory is found.
fn ended_batch_of<Rt: Wait, G: Gate, J: Naming>(
    alloc: Global,
    served: Vec<EndedSession<WorkerDesk<'_, Rt, G, J>>>,
) -> Result<EndedBatch<J>, Refusal> {
    let mut ended = EndedBatch {
        workers: Vec::new(alloc),
        outputs: Vec::new(alloc),
    };
    'served: for one in served {
        if let Some(refusal) = one.fault {
            return Err(refusal);
        }
        ended.workers.push(one.desk.into_worker())?;
        ended.outputs.push(one.output)?;
    }
    Ok(ended)
}

/// Gathers the workers, and writes their outputs and the totals. Refused as `gather` is, and with `WriteFault` if the
/// writer fails.
fn report<W: Write, J: Naming>(
    alloc: Global,
    table: Table<J>,
    ended: EndedBatch<J>,
    writer: &mut W,
) -> Result<(), Refusal> {
    let EndedBatch { workers, outputs } = ended;
    let totals = totals_of(alloc, table, workers)?;
    write_outputs(&outputs, writer)?;
    totals.write(writer)
}

/// Writes the output of each worker's session, after a line with the worker's number. Refused with `WriteFault` if
/// the writer fails.
fn write_outputs<W: Write>(outputs: &Vec<Vec<u8>>, writer: &mut W) -> Result<(), Refusal> {
    'workers: for (worker, output) in outputs.iter().enumerate() {
        let head = writeln!(writer, "worker {worker}");
        if head.is_err() || writer.write_all(output.as_slice()).is_err() {
            return Err(Refusal::WriteFault);
        }
    }
    Ok(())
}
