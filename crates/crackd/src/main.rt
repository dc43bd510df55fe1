//! The program `crackd`: parses its command line, and runs the request.
#![tactic(auto)]

mod readers;

ghost use Rattle.crack_witness.specs.Witnesses.{AreNames};

use crack_arguments::{ArgumentsError, BatchOptions, Request, ServeOptions, TableOptions};
use crack_core::Core;
use crack_csv::{export_csv, load_csv};
use crack_loop::{ServerEnding, Terms};
use crack_row::{Policy, Refusal, Upkeep, Watched};
use crack_server::{run_batch, run_service, run_supervised, serve_supervisor};
use crack_service::{Complaint, Host, Notice, REPLY_BYTES};
use crack_session::serve;
use crack_table::{MOST_WORKERS, OpenGate, Table, UnnamedTable};
use crack_witness::{Naming, Worker};
use jiff::Timestamp;
use libc::STDERR_FILENO;
use readers::{ImpatientOutput, LAST_MILLIS, takes_line};
use std::io::{BufWriter, ErrorKind, Write};
use std::marker::Brand;
use std::net::{Ipv4Addr, Net, TcpListener, TcpStream};
use std::process::ExitCode;
use std::sync::{Mutex, Wait};
use std::thread::Threads;
use std::time::{Clock, Duration};
use std::{env, io, thread};

/// The request of the command line, or why it has none.
fn request(rt: &HostRuntime) -> Result<Request, ArgumentsError> {
    match words(rt) {
        Ok(words) => crack_arguments::read(rt.alloc(), words.as_slice()),
        Err(error) if error.kind() == ErrorKind::OutOfMemory => {
            Err(ArgumentsError::Refused(Refusal::OutOfMemory))
        }
        Err(_) => Err(ArgumentsError::NotText),
    }
}

/// The words of the command line, starting with the program's name. An error if a word isn't text, or if no memory is
/// found.
fn words(rt: &HostRuntime) -> io::Result<Vec<String>> {
    let words: Vec<String> = env::args(rt)?.collect(rt.alloc())?;
    Ok(words)
}

/// Answers the statements of standard input over a new table, on standard output. Refused as `Core::open_with` is, and
/// if the session is cut off, with the cause.
fn script(rt: &HostRuntime, opening: &TableOptions) -> Result<(), Refusal> {
    let mut core = Core::open_with(rt.alloc(), opening.splits.as_slice(), opening.limits)?;
    let served = serve_input(rt, &mut core, opening.policy);
    drop(core);
    served
}

/// Answers the statements of standard input over a core, on standard output; `policy` is the one with which the
/// session begins. Refused if the session is cut off, with the cause.
fn serve_input(rt: &HostRuntime, core: &mut Core, policy: Policy) -> Result<(), Refusal> {
    let mut reader = Watched::new(rt.stdin());
    let mut writer = Watched::new(rt.stdout());
    match serve(rt.alloc(), core, policy, &mut reader, &mut writer) {
        Ok(_) => Ok(()),
        Err(fault) => Err(fault.refusal),
    }
}

/// Loads the CSV records of standard input into a new table, and then writes the table's rows to standard output as
/// CSV. Refused as `Core::open_with` and `copy_csv` are.
fn csv(rt: &HostRuntime, opening: &TableOptions) -> Result<(), Refusal> {
    let mut core = Core::open_with(rt.alloc(), opening.splits.as_slice(), opening.limits)?;
    let copied = copy_csv(rt, &mut core, opening.policy);
    drop(core);
    copied
}

/// Loads the CSV records of standard input into a core, and then writes the core's rows to standard output as CSV,
/// both under this policy. Refused as `load_csv` and `export_csv` are.
fn copy_csv(rt: &HostRuntime, core: &mut Core, policy: Policy) -> Result<(), Refusal> {
    let mut reader = Watched::new(rt.stdin());
    if let Err(fault) = load_csv(core, policy, &mut reader) {
        return Err(fault.refusal);
    }
    let mut writer = Watched::new(rt.stdout());
    match export_csv(core, policy, &mut writer) {
        Ok(_) => Ok(()),
        Err(refusal) => Err(refusal),
    }
}

/// Lets workers answer the lines of standard input, as `run_batch` does. They keep receipts if an audit is requested.
/// Refused as `run_batch` is, and with `OutOfMemory` if no memory is found for the output's buffer.
fn batch<H: Threads + Wait + Sync>(
    handle: &H,
    rt: &HostRuntime,
    batch_options: &BatchOptions,
) -> Result<(), Complaint> {
    let Ok(mut writer) = BufWriter::with_capacity(rt.alloc(), REPLY_BYTES, rt.stdout()) else {
        return Err(Complaint::Refused(Refusal::OutOfMemory));
    };
    let opening = &batch_options.opening;
    run_batch(
        handle,
        rt.alloc(),
        opening.splits.as_slice(),
        opening.limits,
        opening.policy,
        batch_options.workers,
        batch_options.is_audited,
        &OpenGate,
        &mut rt.stdin(),
        &mut writer,
    )
}

/// Lets workers serve connections to a port. They keep receipts if an audit is requested. Refused as
/// `UnnamedTable::open` is, and then as `serve_named` is.
fn serve_port<H: Threads + Wait + Net<Listener = TcpListener, Stream = TcpStream> + Sync>(
    handle: &H,
    rt: &HostRuntime,
    service: &ServeOptions,
) -> Result<(), Refusal> {
    let opening = &service.opening;
    let workers = workers_of(handle, service);
    let table = UnnamedTable::open(
        rt.alloc(),
        opening.splits.as_slice(),
        opening.limits,
        workers,
        service.is_audited,
    )?;
    serve_named::<Brand, H>(handle, rt, service, table)
}

/// Opens the table under the name `J`, which matters only to proofs, and lets its workers serve connections.
/// Refused if no memory is found, and as `listen` and `run_service` are.
fn serve_named<
    J: Naming + Send + Sync,
    H: Threads + Wait + Net<Listener = TcpListener, Stream = TcpStream> + Sync,
>(handle: &H, rt: &HostRuntime, service: &ServeOptions, table: UnnamedTable) -> Result<(), Refusal>
    requires { AreNames J.book J.owner table.opened }
{
    let (table, workers) = table.named::<J>(rt.alloc())?;
    if service.is_supervised {
        return serve_under_supervisor(handle, rt, service, table, workers);
    }
    let mut writer = ImpatientOutput::new(rt.stdout());
    let host = console_of(handle, rt, service);
    let served = match listen(handle, &host, service.port, &mut writer) {
        Ok(listener) => run_service(
            handle,
            rt.alloc(),
            &listener,
            table,
            workers,
            terms_of(service),
            &OpenGate,
            &host,
            &mut rt.stdin(),
            &mut writer,
        ),
        Err(refusal) => {
            drop(workers);
            drop(table);
            Err(refusal)
        }
    };
    host.report_dropped(LAST_MILLIS);
    served
}

/// Answers the statements of standard input on standard output, and only then listens, and serves as `run_supervised`
/// does. Refused as that first session, `listen` and `run_supervised` are.
fn serve_under_supervisor<
    J: Naming + Send + Sync,
    H: Threads + Wait + Net<Listener = TcpListener, Stream = TcpStream> + Sync,
>(
    handle: &H,
    rt: &HostRuntime,
    service: &ServeOptions,
    table: Table<J>,
    workers: Vec<Worker<J>>,
) -> Result<(), Refusal> {
    let mut writer = rt.stdout();
    let host = console_of(handle, rt, service);
    let served = match prepared(handle, rt, service, &table, workers, &host, &mut writer) {
        Ok((listener, workers)) => run_supervised(
            handle,
            rt.alloc(),
            &listener,
            table,
            workers,
            terms_of(service),
            &OpenGate,
            &host,
            &mut rt.stdin(),
            &mut writer,
        ),
        Err(refusal) => {
            drop(table);
            Err(refusal)
        }
    };
    host.report_dropped(LAST_MILLIS);
    served
}

/// Lets a worker answer the statements of standard input, and then listens. Returns the listener and the workers.
/// Refused as the session and `listen` are.
fn prepared<
    J: Naming + Send + Sync,
    H: Threads + Wait + Net<Listener = TcpListener, Stream = TcpStream> + Sync,
    W: Write,
>(
    handle: &H,
    rt: &HostRuntime,
    service: &ServeOptions,
    table: &Table<J>,
    workers: Vec<Worker<J>>,
    host: &Console<'_, H>,
    writer: &mut W,
) -> Result<(TcpListener, Vec<Worker<J>>), Refusal> {
    let workers = serve_supervisor(
        handle,
        rt.alloc(),
        table,
        workers,
        service.opening.policy,
        &OpenGate,
        &mut rt.stdin(),
        writer,
    )?;
    Ok((listen(handle, host, service.port, writer)?, workers))
}

/// The number of workers of a server. By default it is the number of processors, at most `MOST_WORKERS`, or 1 if the
/// number of processors isn't known.
fn workers_of<H: Threads>(handle: &H, service: &ServeOptions) -> u64 {
    match service.workers {
        Some(workers) => workers,
        None => match thread::available_parallelism(handle) {
            Ok(processors) => (processors.get() as u64).min(MOST_WORKERS),
            Err(_) => 1,
        },
    }
}

/// The server's options in the form that `run_service` takes. Notices of checkpoints are requested if upkeep is
/// automatic and the server isn't quiet.
fn terms_of(service: &ServeOptions) -> Terms {
    let opening = &service.opening;
    Terms {
        policy: opening.policy,
        ending: match service.sessions {
            Some(sessions) => ServerEnding::AfterSessions(sessions),
            None => ServerEnding::AtEndOfInput,
        },
        idle: service.idle,
        clients: service.clients,
        drain: service.drain,
        notes_checkpoints: !service.is_quiet && has_upkeep(opening),
    }
}

/// Whether upkeep is automatic: partitions make checkpoints by themselves.
fn has_upkeep(opening: &TableOptions) -> bool {
    matches!(opening.limits.upkeep, Upkeep::Automatic)
}

/// The host of a server: writes notices as lines to standard error, its log, unless it is quiet. A line for which the
/// log's reader has left no room is dropped, so that a reader that stops reading delays no client.
#[derive(Drop)]
struct Console<'a, R: Wait> {
    handle: &'a R,
    rt: &'a HostRuntime,
    is_quiet: bool,
    /// How many lines were dropped since the log last had their number. The lock is held while a line is written.
    dropped: Mutex<u64>,
}

/// The host of a server with these options.
fn console_of<'a, R: Wait>(
    handle: &'a R,
    rt: &'a HostRuntime,
    service: &ServeOptions,
) -> Console<'a, R> {
    Console {
        handle,
        rt,
        is_quiet: service.is_quiet,
        dropped: Mutex::new(0),
    }
}

impl<'a, R: Wait> Host for Console<'a, R> {
    /// Writes a line to standard error: the present date and time, the word `crackd`, and the notice. Before it writes
    /// the number of dropped lines, if there are any. Drops the line if it would have to wait for the reader. If the
    /// server is quiet, writes nothing. A failure to write is ignored.
    fn note(&self, notice: Notice) {
        if self.is_quiet {
            return;
        }
        let mut dropped = self.dropped.lock(self.handle);
        if self.has_reported(*dropped, 0) && takes_line(STDERR_FILENO, 0) {
            *dropped = 0;
            let _ = eprintln!(self.rt; "{} crackd: {notice}", self.time());
        } else {
            *dropped = dropped.saturating_add(1);
        }
    }

    /// Writes the number of dropped lines, if there are any, as soon as the reader has made room.
    fn catch_up(&self) {
        self.report_dropped(0);
    }

    /// Sleeps for 10 milliseconds.
    fn pause(&self) {
        thread::sleep(self.rt, Duration::from_millis(10));
    }

    /// The time of the monotonic clock in milliseconds, or 0 if it can't be read.
    fn millis(&self) -> u64 {
        match self.rt.monotonic() {
            Ok(time) => u64::try_from(time.as_millis()).unwrap_or(u64::MAX),
            Err(_) => 0,
        }
    }

    /// The time of the monotonic clock in microseconds, or 0 if it can't be read.
    fn micros(&self) -> u64 {
        match self.rt.monotonic() {
            Ok(time) => u64::try_from(time.as_micros()).unwrap_or(u64::MAX),
            Err(_) => 0,
        }
    }
}

impl<'a, R: Wait> Console<'a, R> {
    /// Writes the number of dropped lines, if there are any and the reader makes room within `millis` milliseconds.
    fn report_dropped(&self, millis: i32) {
        let mut dropped = self.dropped.lock(self.handle);
        if self.has_reported(*dropped, millis) {
            *dropped = 0;
        }
    }

    /// Writes a line with this number of dropped lines, if there are any and the reader makes room within `millis`
    /// milliseconds. Returns whether no line is left to be reported.
    fn has_reported(&self, dropped: u64, millis: i32) -> bool {
        if dropped == 0 {
            return true;
        }
        let takes = takes_line(STDERR_FILENO, millis);
        if takes {
            let time = self.time();
            let _ = eprintln!(self.rt;
                "{time} crackd: log lines that were dropped: {dropped}: the reader had stopped"
            );
        }
        takes
    }

    /// The present date and time, in whole seconds, or the first second of 1970 if the clock can't be read.
    fn time(&self) -> Timestamp {
        let seconds = match self.rt.since_1970() {
            Ok(time) => i64::try_from(time.as_secs()).unwrap_or(0),
            Err(_) => 0,
        };
        Timestamp::from_second(seconds).unwrap_or(Timestamp::UNIX_EPOCH)
    }
}

/// Listens on this port of 127.0.0.1, or on a free one if it is 0, and reports the port to the writer and the host.
/// Refused with `ReadFault` if the port can't be bound, and with `WriteFault` if the writer fails.
fn listen<H: Wait + Net<Listener = TcpListener, Stream = TcpStream>, W: Write>(
    handle: &H,
    host: &Console<'_, H>,
    port: u16,
    writer: &mut W,
) -> Result<TcpListener, Refusal> {
    let Ok(listener) = TcpListener::bind(handle, (Ipv4Addr::LOCALHOST, port)) else {
        return Err(Refusal::ReadFault);
    };
    let Ok(address) = listener.local_addr() else {
        return Err(Refusal::ReadFault);
    };
    let port = address.port();
    announce(port, writer)?;
    host.note(Notice::Listening { port });
    Ok(listener)
}

/// Writes the line `listening PORT`, where PORT is the port on which the server listens, and flushes the writer.
/// Refused with `WriteFault` if the writer fails.
fn announce<W: Write>(port: u16, writer: &mut W) -> Result<(), Refusal> {
    let line = writeln!(writer, "listening {port}");
    if line.is_err() || writer.flush().is_err() {
        return Err(Refusal::WriteFault);
    }
    Ok(())
}

/// Runs the request. `handle` provides threads, waiting and sockets. Refused as the request's own function is, and
/// with `WriteFault` if the text of a help can't be written.
fn run_request<H: Threads + Wait + Net<Listener = TcpListener, Stream = TcpStream> + Sync>(
    handle: &H,
    rt: &HostRuntime,
    request: &Request,
) -> Result<(), Complaint> {
    let done = match request {
        Request::Help(text) => print!(rt; "{text}").map_err(|_| Refusal::WriteFault),
        Request::Script(opening) => script(rt, opening),
        Request::Batch(batch_options) => return batch(handle, rt, batch_options),
        Request::Serve(service) => serve_port(handle, rt, service),
        Request::Csv(opening) => csv(rt, opening),
    };
    done.map_err(Complaint::from)
}

/// Writes to standard error why the run was refused, in words. Returns the exit status of a failure, 1.
fn complain(rt: &HostRuntime, complaint: Complaint) -> ExitCode {
    let _ = eprintln!(rt; "crackd: {complaint}");
    ExitCode::FAILURE
}

/// Runs the request of the command line. The exit status is 1 if it is refused, and 2 if there is no valid request. A
/// refused server waits at most `LAST_MILLIS` for the reader of its log.
fn main(rt: HostRuntime) -> ExitCode {
    match request(&rt) {
        Ok(request) => {
            let is_server = matches!(&request, Request::Serve(_));
            let done = run_request(&rt, &rt, &request);
            drop(request);
            match done {
                Ok(()) => ExitCode::SUCCESS,
                Err(_) if is_server && !takes_line(STDERR_FILENO, LAST_MILLIS) => ExitCode::FAILURE,
                Err(complaint) => complain(&rt, complaint),
            }
        }
        Err(ArgumentsError::Refused(refusal)) => complain(&rt, Complaint::Refused(refusal)),
        Err(error) => {
            let _ = eprintln!(rt; "crackd: {error}");
            ExitCode::from(2)
        }
    }
}
