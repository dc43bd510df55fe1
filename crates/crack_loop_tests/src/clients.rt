//! Servers over a core, and their clients.
use crack_core::Core;
use crack_loop::{ServerEnding, Terms, serve_connections};
use crack_row::{GREATEST_LIMIT, Policy, Refusal};
use crack_service::Alone;
use std::alloc::Global;
use std::io;
use std::io::{Read, Write};
use std::net::{Net, Shutdown, TcpListener, TcpStream};
use std::process::Abort;
use std::sync::Wait;
use std::thread::Threads;
use std::time::Duration;

/// The options of a server with this ending.
pub(crate) fn terms(ending: ServerEnding) -> Terms {
    Terms {
        policy: Policy::Ripple,
        ending,
        idle: None,
        clients: 10000,
        drain: 0,
        notes_checkpoints: false,
    }
}

/// Runs a server over a core with one partition, on one thread, and returns how many rows there are at the end.
pub(crate) fn rows_after<H: Threads + Wait + Net + Sync, I: Read>(
    rt: &H,
    alloc: Global,
    listener: &TcpListener,
    terms: Terms,
    input: &mut I,
) -> Result<u64, Refusal> {
    let mut desks = Vec::new(alloc);
    desks.push(Core::open(alloc, &[], GREATEST_LIMIT)?)?;
    let ended = serve_connections(rt, alloc, listener, desks, terms, &Alone, input)?;
    match ended.first() {
        Some(core) => Ok(core.statistics(0)?.rows),
        None => Ok(0),
    }
}

/// A listener on a free port, and the port.
pub(crate) fn listening<N: Net<Listener = TcpListener, Stream = TcpStream> + Abort>(
    rt: &N,
) -> (TcpListener, u16) {
    let bound = TcpListener::bind(rt, "127.0.0.1:0");
    let listener = bound.ok().expect(rt, "a listener");
    let address = listener.local_addr().ok().expect(rt, "an address");
    (listener, address.port())
}

/// A connection to this port, whose reads fail after twenty seconds without a byte.
pub(crate) fn connect<N: Net<Listener = TcpListener, Stream = TcpStream>>(
    rt: &N,
    port: u16,
) -> io::Result<TcpStream> {
    let stream = TcpStream::connect(rt, ("127.0.0.1", port))?;
    stream.set_read_timeout(Some(Duration::from_secs(20)))?;
    Ok(stream)
}

/// Reads until the server closes the connection.
pub(crate) fn rest_of(alloc: Global, stream: &TcpStream) -> io::Result<Vec<u8>> {
    let mut bytes = Vec::new(alloc);
    let mut stream = stream;
    stream.read_to_end(&mut bytes)?;
    Ok(bytes)
}

/// Sends bytes as a client, ends the sending, and returns all replies.
pub(crate) fn answers<N: Net<Listener = TcpListener, Stream = TcpStream>>(
    rt: &N,
    alloc: Global,
    port: u16,
    bytes: &[u8],
) -> io::Result<Vec<u8>> {
    let mut stream = connect(rt, port)?;
    stream.write_all(bytes)?;
    stream.shutdown(Shutdown::Write)?;
    rest_of(alloc, &stream)
}
