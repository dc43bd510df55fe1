//! A supervised server: its standard input and output carry a session before the port is opened, and one after the last
//! connection.
use crack_row::{Policy, Refusal, Watched};
use crack_session::serve;
use crack_table::{Gate, Table};
use crack_witness::{Naming, Worker};
use crack_worker_desk::WorkerDesk;
use std::alloc::Global;
use std::io;
use std::io::{Read, Write};
use std::sync::Wait;

/// An input that ends at the first bytes that it brings, which are dropped, or where the input itself ends or fails.
#[derive(Drop)]
pub(crate) struct Signal<'a, I: Read> {
    input: &'a mut I,
}

impl<'a, I: Read> Signal<'a, I> {
    /// The input that ends at the first bytes of this one.
    pub(crate) fn new(input: &'a mut I) -> Signal<'a, I> {
        Signal { input }
    }
}

impl<'a, I: Read> Read for Signal<'a, I> {
    /// Reads from the input, and returns 0 whatever came. A failed read is returned as it is.
    fn read(&mut self, buf: &mut [u8]) -> io::Result<usize> {
        match self.input.read(buf) {
            Ok(_) => Ok(0),
            Err(error) => Err(error),
        }
    }
}

/// Lets the last of the workers serve one session over a reader and a writer, which begins with this policy, as
/// `crack_session::serve` does. Returns the workers in their order once the input ends or a line ends the session.
/// Refused as that session is when it is cut off, and with `OutOfMemory` if no memory is found for the list.
pub fn serve_supervisor<Rt: Wait, G: Gate, R: Read, W: Write, J: Naming>(
    rt: &Rt,
    alloc: Global,
    table: &Table<J>,
    workers: Vec<Worker<J>>,
    policy: Policy,
    gate: &G,
    reader: &mut R,
    writer: &mut W,
) -> Result<Vec<Worker<J>>, Refusal> {
    let mut workers = workers;
    let Some(worker) = workers.pop() else {
        return Ok(workers);
    };
    let mut desk = WorkerDesk::new(rt, table, gate, worker);
    let (mut reader, mut writer) = (Watched::new(reader), Watched::new(writer));
    let served = serve(alloc, &mut desk, policy, &mut reader, &mut writer);
    workers.push(desk.into_worker())?;
    match served {
        Ok(_) => Ok(workers),
        Err(fault) => Err(fault.refusal),
    }
}

/// Writes the line `drained`, which says that all connections have ended, and flushes the writer. Refused with
/// `WriteFault` if the writer fails.
pub(crate) fn announce_drained<W: Write>(writer: &mut W) -> Result<(), Refusal> {
    let line = writeln!(writer, "drained");
    if line.is_err() || writer.flush().is_err() {
        return Err(Refusal::WriteFault);
    }
    Ok(())
}
