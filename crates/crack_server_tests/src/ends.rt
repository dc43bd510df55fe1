//! Servers whose input ends.
use crate::tables::{of_workers, serve};
use crack_loop::{ServerEnding, Terms};
use crack_row::{Policy, Refusal};
use crack_service::Alone;
use crack_table::OpenGate;
use std::alloc::Global;
use std::io;
use std::io::Read;
use std::net::{Net, TcpListener};
use std::sync::Wait;
use std::thread::Threads;

/// An input whose first read is interrupted.
#[derive(Drop)]
struct Interrupted<'a> {
    bytes: &'a [u8],
    was_read: bool,
}

impl<'a> Read for Interrupted<'a> {
    fn read(&mut self, buf: &mut [u8]) -> io::Result<usize> {
        if self.was_read {
            return self.bytes.read(buf);
        }
        self.was_read = true;
        Err(io::Error::from(io::ErrorKind::Interrupted))
    }
}

/// The output of a server with three workers, without clients, until its input ends.
fn output_at_end<H: Threads + Wait + Net + Sync, I: Read>(
    rt: &H,
    alloc: Global,
    listener: &TcpListener,
    input: &mut I,
) -> Result<Vec<u8>, Refusal> {
    let terms = Terms {
        policy: Policy::Ripple,
        ending: ServerEnding::AtEndOfInput,
        idle: Some(60),
        clients: 10,
        drain: 10,
        notes_checkpoints: false,
    };
    let mut output = Vec::new(alloc);
    match serve(
        rt,
        alloc,
        listener,
        of_workers(3, true),
        terms,
        &OpenGate,
        &Alone,
        input,
        &mut output,
    ) {
        Ok(()) => Ok(output),
        Err(refusal) => Err(refusal),
    }
}

#[test]
fn workers_that_wait_end_with_the_input(rt: HostRuntime) {
    let bound = TcpListener::bind(&rt, "127.0.0.1:0");
    let listener = bound.ok().expect(&rt, "a listener");
    let mut input = Interrupted {
        bytes: b"what is read is ignored",
        was_read: false,
    };
    let output = output_at_end(&rt, rt.alloc(), &listener, &mut input);
    let written = output.expect(&rt, "an output");
    assert!(rt; written.as_slice() == b"accepted 0 inserted 0 deleted 0 held 0\n".as_slice());
    assert!(rt; input.bytes.is_empty());
}
