//! Writing to readers that may have stopped reading.
use libc::net::{POLLOUT, poll};
use libc::types::pollfd;
use std::io;
use std::io::{ErrorKind, Write};

/// For how many milliseconds a server waits at its end for the reader of a line.
pub(crate) const LAST_MILLIS: i32 = 5000;

/// Whether a write of one line to this descriptor won't wait for a reader: at once, or within `millis` milliseconds.
/// Also true if the descriptor is closed or its reader has gone, since a write then fails at once.
pub(crate) fn takes_line(descriptor: i32, millis: i32) -> bool {
    let mut asked = [pollfd {
        fd: descriptor,
        events: POLLOUT,
        revents: 0,
    }];
    poll(&mut asked, millis) > 0
}

/// Standard output, to which a write fails if its reader takes nothing for `LAST_MILLIS`. `writer` writes to it.
#[derive(Drop)]
pub(crate) struct ImpatientOutput<W> {
    writer: W,
}

impl<W: Write> ImpatientOutput<W> {
    /// Standard output, to which `writer` writes.
    pub(crate) fn new(writer: W) -> ImpatientOutput<W> {
        ImpatientOutput { writer }
    }
}

impl<W: Write> Write for ImpatientOutput<W> {
    fn write(&mut self, bytes: &[u8]) -> io::Result<usize> {
        if !takes_line(libc::STDOUT_FILENO, LAST_MILLIS) {
            return Err(io::Error::from(ErrorKind::TimedOut));
        }
        self.writer.write(bytes)
    }

    fn flush(&mut self) -> io::Result<()> {
        self.writer.flush()
    }
}
