//! Servers that stop at the end of their input.
use crate::clients::{connect, listening, rest_of, rows_after, terms};
use crack_loop::ServerEnding;
use std::alloc::Global;
use std::io::{Read, Write};
use std::net::{Net, TcpListener, TcpStream};
use std::{io, thread};

/// A client that sends one statement and then nothing: returns what it gets once the server's input has ended.
fn silent<N: Net<Listener = TcpListener, Stream = TcpStream>>(
    rt: &N,
    alloc: Global,
    port: u16,
    input: TcpStream,
) -> io::Result<Vec<u8>> {
    let mut stream = connect(rt, port)?;
    stream.write_all(b"insert 1 1\n")?;
    let mut reply = [0u8; 8];
    stream.read_exact(&mut reply)?;
    drop(input);
    rest_of(alloc, &stream)
}

#[test]
fn a_silent_client_stops_no_server_from_ending(rt: HostRuntime) {
    let alloc: Global = rt.alloc();
    let (inputs, input_port) = listening(&rt);
    let sender = connect(&rt, input_port).ok().expect(&rt, "an input");
    let accepted = inputs.accept().ok();
    let (mut input, _) = accepted.expect(&rt, "an input");
    let (listener, port) = listening(&rt);
    let terms = terms(ServerEnding::AtEndOfInput);
    let (rows, got) = thread::join(
        &rt,
        || rows_after(&rt, alloc, &listener, terms, &mut input),
        || silent(&rt, alloc, port, sender),
    );
    let got = got.ok().expect(&rt, "an end");
    assert!(rt; got.is_empty());
    assert!(rt; rows == Ok(1));
}
