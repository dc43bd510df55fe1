//! Clients that keep a server's thread busy or waiting, and honest clients at the same time.
use crate::clients::{answers, connect, listening, rest_of, rows_after, terms};
use crack_loop::{ServerEnding, Terms};
use std::alloc::Global;
use std::io::Write;
use std::net::{Net, TcpListener, TcpStream};
use std::{io, thread};

/// How many rows a deaf client inserts, and then lists at a time.
const ROWS: usize = 2000;

/// The length in bytes of the replies to these inserts, from `row 0.0` to `row 0.1999`.
const REPLY_BYTES: usize = 20890;

/// A client that inserts rows, requests all of them again and again, and reads none.
fn deaf<N: Net<Listener = TcpListener, Stream = TcpStream>>(
    rt: &N,
    port: u16,
) -> io::Result<TcpStream> {
    let mut stream = connect(rt, port)?;
    'inserts: for _ in 0..ROWS {
        stream.write_all(b"insert 5 5\n")?;
    }
    let mut replies = [0u8; REPLY_BYTES];
    io::Read::read_exact(&mut stream, &mut replies)?;
    'selects: for _ in 0..1000usize {
        stream.write_all(b"select 0 10\n")?;
    }
    Ok(stream)
}

/// The replies to an honest client while a deaf one is connected.
fn beside_a_deaf_one<N: Net<Listener = TcpListener, Stream = TcpStream>>(
    rt: &N,
    alloc: Global,
    port: u16,
) -> io::Result<Vec<u8>> {
    let stream = deaf(rt, port)?;
    let got = answers(rt, alloc, port, b"count 20 30\ncount 30 40\n");
    drop(stream);
    got
}

/// The replies to honest clients while a slow one sends its statements byte by byte, and then the slow one's.
fn beside_a_slow_one<N: Net<Listener = TcpListener, Stream = TcpStream>>(
    rt: &N,
    alloc: Global,
    port: u16,
) -> io::Result<Vec<u8>> {
    let mut slow = connect(rt, port)?;
    slow.set_nodelay(true)?;
    const SENT: &[u8] = b"insert 1 2\nquit\n";
    let mut got = Vec::new(alloc);
    'bytes: for place in 0..SENT.len() {
        slow.write_all(&SENT[place..place + 1])?;
        let one = answers(rt, alloc, port, b"count 20 30\n")?;
        got.extend_from_slice(one.as_slice())?;
    }
    got.extend_from_slice(rest_of(alloc, &slow)?.as_slice())?;
    Ok(got)
}

/// The replies to an honest client after one that closed its connection with unread replies, which resets it.
fn after_a_reset<N: Net<Listener = TcpListener, Stream = TcpStream>>(
    rt: &N,
    alloc: Global,
    port: u16,
) -> io::Result<Vec<u8>> {
    let mut first = connect(rt, port)?;
    first.write_all(b"insert 7 70\ninsert 7 70\n")?;
    let mut byte = [0u8; 1];
    io::Read::read_exact(&mut first, &mut byte)?;
    drop(first);
    answers(rt, alloc, port, b"count 0 10\n")
}

/// The replies to the third client if two may be connected, and to a fourth once the first has left.
fn one_too_many<N: Net<Listener = TcpListener, Stream = TcpStream>>(
    rt: &N,
    alloc: Global,
    port: u16,
) -> io::Result<Vec<u8>> {
    let mut first = connect(rt, port)?;
    let mut second = connect(rt, port)?;
    first.write_all(b"count 0 1\n")?;
    second.write_all(b"count 0 1\n")?;
    let mut reply = [0u8; 8];
    io::Read::read_exact(&mut first, &mut reply)?;
    io::Read::read_exact(&mut second, &mut reply)?;
    let third = connect(rt, port)?;
    let mut got = rest_of(alloc, &third)?;
    first.write_all(b"quit\n")?;
    rest_of(alloc, &first)?;
    got.extend_from_slice(answers(rt, alloc, port, b"count 0 1\n")?.as_slice())?;
    Ok(got)
}

/// How the hostile clients behave.
#[derive(Clone, Copy)]
enum Clients {
    Deaf,
    Slow,
    Reset,
    TooMany,
}

/// The replies that a case checks.
fn play<N: Net<Listener = TcpListener, Stream = TcpStream>>(
    rt: &N,
    alloc: Global,
    port: u16,
    clients: Clients,
) -> io::Result<Vec<u8>> {
    match clients {
        Clients::Deaf => beside_a_deaf_one(rt, alloc, port),
        Clients::Slow => beside_a_slow_one(rt, alloc, port),
        Clients::Reset => after_a_reset(rt, alloc, port),
        Clients::TooMany => one_too_many(rt, alloc, port),
    }
}

/// How clients behave, how many sessions there are, the expected replies, and how many rows there are at the end.
const CASES: [(Clients, u64, &[u8], usize); 4] = [
    (Clients::Deaf, 2, b"count 0\ncount 0\n", ROWS),
    (
        Clients::Slow,
        17,
        b"count 0\ncount 0\ncount 0\ncount 0\ncount 0\ncount 0\ncount 0\ncount 0\ncount 0\ncount 0\n\
          count 0\ncount 0\ncount 0\ncount 0\ncount 0\ncount 0\nrow 0.0\nbye\n",
        1,
    ),
    (Clients::Reset, 2, b"count 2\n", 2),
    (Clients::TooMany, 3, b"refused 20 2\ncount 0\n", 0),
];

#[test]
fn honest_clients_are_answered_beside_hostile_ones(rt: HostRuntime) {
    let alloc: Global = rt.alloc();
    'cases: for place in 0..CASES.len() {
        let (clients, sessions, wanted, rows) = CASES[place];
        let (listener, port) = listening(&rt);
        let terms = Terms {
            clients: 2,
            ..terms(ServerEnding::AfterSessions(sessions))
        };
        let mut input: &[u8] = b"";
        let (held, got) = thread::join(
            &rt,
            || rows_after(&rt, alloc, &listener, terms, &mut input),
            || play(&rt, alloc, port, clients),
        );
        let got = got.ok().expect(&rt, "answers");
        assert!(rt; got.as_slice() == wanted, "case {place}");
        assert!(rt; held == Ok(rows as u64), "case {place}");
    }
}
