//! A server over loopback.
use crate::tables::{of_workers, serve, terms_of};
use crack_row::{Policy, Refusal};
use crack_service::Alone;
use crack_table::OpenGate;
use std::alloc::Global;
use std::io::{Read, Write};
use std::net::{Net, Shutdown, TcpListener, TcpStream};
use std::process::Abort;
use std::sync::Wait;
use std::thread::Threads;
use std::time::Duration;
use std::{io, thread};

/// The output of a server with this many workers and sessions.
fn server<H: Threads + Wait + Net + Sync>(
    rt: &H,
    alloc: Global,
    listener: &TcpListener,
    workers: u64,
    sessions: u64,
    is_audited: bool,
) -> Result<Vec<u8>, Refusal> {
    let mut input: &[u8] = b"";
    let mut output = Vec::new(alloc);
    match serve(
        rt,
        alloc,
        listener,
        of_workers(workers, is_audited),
        terms_of(Policy::Ripple, sessions),
        &OpenGate,
        &Alone,
        &mut input,
        &mut output,
    ) {
        Ok(()) => Ok(output),
        Err(refusal) => Err(refusal),
    }
}

/// The port of a listener.
pub(crate) fn port_of(rt: &impl Abort, listener: &TcpListener) -> u16 {
    let address = listener.local_addr().ok();
    address.expect(rt, "an address").port()
}

/// A client that has sent these bytes. Its reads fail after ten seconds without a byte, as from a server that
/// accepts no connection.
fn sender<N: Net<Listener = TcpListener, Stream = TcpStream>>(
    rt: &N,
    port: u16,
    bytes: &[u8],
) -> io::Result<TcpStream> {
    let mut stream = TcpStream::connect(rt, ("127.0.0.1", port))?;
    stream.set_read_timeout(Some(Duration::from_secs(10)))?;
    stream.write_all(bytes)?;
    Ok(stream)
}

/// Reads replies until the server ends the session.
fn answers_of(alloc: Global, mut stream: TcpStream) -> io::Result<Vec<u8>> {
    let mut answers = Vec::new(alloc);
    stream.read_to_end(&mut answers)?;
    Ok(answers)
}

/// Sends bytes as a client, and returns the replies.
pub(crate) fn client<N: Net<Listener = TcpListener, Stream = TcpStream>>(
    rt: &N,
    alloc: Global,
    port: u16,
    bytes: &[u8],
) -> io::Result<Vec<u8>> {
    answers_of(alloc, sender(rt, port, bytes)?)
}

/// The replies to two clients, one after the other.
fn two_clients<N: Net<Listener = TcpListener, Stream = TcpStream>>(
    rt: &N,
    alloc: Global,
    port: u16,
) -> io::Result<(Vec<u8>, Vec<u8>)> {
    let first = client(rt, alloc, port, b"insert 7 70\nquit\n")?;
    let second = client(rt, alloc, port, b"count 0 18446744073709551616\nquit\n")?;
    Ok((first, second))
}

/// A client that has sent these bytes and ended its sending.
fn ended<N: Net<Listener = TcpListener, Stream = TcpStream>>(
    rt: &N,
    port: u16,
    bytes: &[u8],
) -> io::Result<TcpStream> {
    let stream = sender(rt, port, bytes)?;
    stream.shutdown(Shutdown::Write)?;
    Ok(stream)
}

/// The replies to a client whose last line is cut short, and to one whose last line has only no line feed. Between them
/// a client connects, sends nothing and leaves.
fn clients_who_break_off<N: Net<Listener = TcpListener, Stream = TcpStream>>(
    rt: &N,
    alloc: Global,
    port: u16,
) -> io::Result<(Vec<u8>, Vec<u8>)> {
    let first = ended(rt, port, b"insert 1 1\ninsert 2")?;
    drop(sender(rt, port, b"")?);
    let last = ended(rt, port, b"count 0 5\ninsert 2 2")?;
    let first = answers_of(alloc, first)?;
    let last = answers_of(alloc, last)?;
    Ok((first, last))
}

/// The replies to a client after another one read a byte of its reply and left. The unread rest of the reply resets
/// the other's connection, which cuts its session off; its replies are empty here.
fn behind_one_cut_off<N: Net<Listener = TcpListener, Stream = TcpStream>>(
    rt: &N,
    alloc: Global,
    port: u16,
) -> io::Result<(Vec<u8>, Vec<u8>)> {
    let mut first = sender(rt, port, b"insert 7 70\n")?;
    first.read_exact(&mut [0u8; 1])?;
    drop(first);
    let last = client(rt, alloc, port, b"count 0 18446744073709551616\nquit\n")?;
    Ok((Vec::new(alloc), last))
}

/// How the clients of a server behave.
#[derive(Clone, Copy)]
enum Clients {
    /// Two have sessions, one after the other.
    TakeTurns,
    /// One cuts its last line short, one sends nothing, and one ends without a line feed.
    BreakOff,
    /// One leaves before it has read its reply, and then another has a session.
    CutOff,
}

/// A server with this many workers and sessions, its clients, and their replies.
#[derive(Clone, Copy)]
struct Case {
    workers: u64,
    sessions: u64,
    clients: Clients,
    /// The replies to the first client.
    first: &'static [u8],
    /// The replies to the last client, either of two.
    last: [&'static [u8]; 2],
}

const CASES: &[Case] = &[
    // one worker serves two sessions
    Case {
        workers: 1,
        sessions: 2,
        clients: Clients::TakeTurns,
        first: b"row 0.0\nbye\n",
        last: [b"count 1\nbye\n", b"count 1\nbye\n"],
    },
    // clients that break off don't affect others, and no line that breaks off is carried out
    Case {
        workers: 2,
        sessions: 3,
        clients: Clients::BreakOff,
        first: b"row 0.0\nrefused 1\n",
        last: [b"count 0\nrefused 1\n", b"count 1\nrefused 1\n"],
    },
    // a session that is cut off doesn't end others
    Case {
        workers: 1,
        sessions: 2,
        clients: Clients::CutOff,
        first: b"",
        last: [b"count 1\nbye\n", b"count 1\nbye\n"],
    },
];

/// The output of each of the servers.
const WRITTEN: &[u8] = b"accepted 2 inserted 1 deleted 0 held 1\n";

/// The replies to the first and the last of these clients.
fn answers<N: Net<Listener = TcpListener, Stream = TcpStream>>(
    rt: &N,
    alloc: Global,
    port: u16,
    clients: Clients,
) -> io::Result<(Vec<u8>, Vec<u8>)> {
    match clients {
        Clients::TakeTurns => two_clients(rt, alloc, port),
        Clients::BreakOff => clients_who_break_off(rt, alloc, port),
        Clients::CutOff => behind_one_cut_off(rt, alloc, port),
    }
}

/// Runs a server and its clients, and asserts the replies and the server's output.
fn assert_case<H: Threads + Wait + Net<Listener = TcpListener, Stream = TcpStream> + Sync + Abort>(
    rt: &H,
    alloc: Global,
    place: usize,
    is_audited: bool,
) {
    assert!(rt; place < CASES.len(), "case {place}");
    let case = CASES[place];
    let bound = TcpListener::bind(rt, "127.0.0.1:0");
    let listener = bound.ok().expect(rt, "a listener");
    let port = port_of(rt, &listener);
    let (written, answered) = thread::join(
        rt,
        || server(
            rt,
            alloc,
            &listener,
            case.workers,
            case.sessions,
            is_audited,
        ),
        || answers(rt, alloc, port, case.clients),
    );
    let written = written.expect(rt, "an output");
    let (first, last) = answered.ok().expect(rt, "answers");
    let [one, other] = case.last;
    let is_last = last.as_slice() == one || last.as_slice() == other;
    assert!(rt; is_last && first.as_slice() == case.first, "case {place}");
    assert!(rt; written.as_slice() == WRITTEN, "case {place}");
}

#[test]
fn servers_answer_whatever_other_clients_do(rt: HostRuntime) {
    'cases: for place in 0..CASES.len() {
        assert_case(&rt, rt.alloc(), place, false);
        assert_case(&rt, rt.alloc(), place, true);
    }
}
