//! Many clients of one thread.
use crate::clients::{answers, connect, listening, rest_of, rows_after, terms};
use crack_loop::ServerEnding;
use std::alloc::Global;
use std::io::Write;
use std::net::{Net, Shutdown, TcpListener, TcpStream};
use std::{io, thread};

/// How many clients are connected at the same time.
const CLIENTS: usize = 300;

/// Sends bytes over each of these connections.
fn send_all(clients: &Vec<TcpStream>, bytes: &[u8]) -> io::Result<()> {
    'clients: for stream in clients {
        let mut stream = stream;
        stream.write_all(bytes)?;
    }
    Ok(())
}

/// How many of these clients got row numbers for two inserts and a count before their connections were closed.
fn answered(alloc: Global, clients: &Vec<TcpStream>) -> io::Result<usize> {
    let mut count = 0usize;
    'clients: for stream in clients {
        let bytes = rest_of(alloc, stream)?;
        let lines = bytes
            .as_slice()
            .iter()
            .filter(|byte| **byte == b'\n')
            .count();
        let begins = bytes.as_slice().starts_with(b"row 0.");
        if lines == 3 && begins && bytes.as_slice().ends_with(b"count 0\n") {
            count = count.saturating_add(1);
        }
    }
    Ok(count)
}

/// Sends the statements of all clients in pieces, each piece for all clients before the next one, and returns how
/// many clients got the right replies.
fn interleaved<N: Net<Listener = TcpListener, Stream = TcpStream>>(
    rt: &N,
    alloc: Global,
    port: u16,
) -> io::Result<usize> {
    let mut clients = Vec::new(alloc);
    'clients: for _ in 0..CLIENTS {
        clients.push(connect(rt, port)?)?;
    }
    const PIECES: [&[u8]; 5] = [b"ins", b"ert 7 1\nin", b"sert 8 ", b"2\n", b"count 10 20\n"];
    'pieces: for place in 0..PIECES.len() {
        send_all(&clients, PIECES[place])?;
    }
    'ends: for stream in &clients {
        stream.shutdown(Shutdown::Write)?;
    }
    answered(alloc, &clients)
}

#[test]
fn three_hundred_clients_are_answered_by_one_thread(rt: HostRuntime) {
    let alloc: Global = rt.alloc();
    let (listener, port) = listening(&rt);
    let terms = terms(ServerEnding::AfterSessions(CLIENTS as u64));
    let mut input: &[u8] = b"";
    let (rows, right) = thread::join(
        &rt,
        || rows_after(&rt, alloc, &listener, terms, &mut input),
        || interleaved(&rt, alloc, port),
    );
    assert!(rt; right.ok() == Some(CLIENTS));
    assert!(rt; rows == Ok(2 * CLIENTS as u64));
}

/// What a client sends before it ends its sending, its replies, and how many rows there are then.
const ENDINGS: [(&[u8], &[u8], u64); 7] = [
    // a line without its line feed isn't carried out, even if it is a statement
    (b"insert 1 1\ninsert 2 2", b"row 0.0\nrefused 1\n", 1),
    (b"insert 1 1\ndelete 0.0", b"row 0.0\nrefused 1\n", 1),
    (b"quit", b"refused 1\n", 0),
    // a blank one has no reply
    (b"insert 1 1\n  \r", b"row 0.0\n", 1),
    (b"insert 1 1\n", b"row 0.0\n", 1),
    // nor has one after a line that ends the session
    (b"insert 1 1\nquit\ninsert 2 2", b"row 0.0\nbye\n", 1),
    (b"GET / HTTP/1.1\ninsert 2 2", b"refused 1\n", 0),
];

#[test]
fn an_unfinished_line_is_refused_at_the_end_of_input(rt: HostRuntime) {
    let alloc: Global = rt.alloc();
    'endings: for place in 0..ENDINGS.len() {
        let (sent, wanted, held) = ENDINGS[place];
        let (listener, port) = listening(&rt);
        let terms = terms(ServerEnding::AfterSessions(1));
        let mut input: &[u8] = b"";
        let (rows, got) = thread::join(
            &rt,
            || rows_after(&rt, alloc, &listener, terms, &mut input),
            || answers(&rt, alloc, port, sent),
        );
        let got = got.ok().expect(&rt, "answers");
        assert!(rt; got.as_slice() == wanted, "ending {place}");
        assert!(rt; rows == Ok(held), "ending {place}");
    }
}
