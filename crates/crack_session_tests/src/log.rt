//! Devices that log their calls.
use std::cell::Cell;
use std::io;
use std::io::{Read, Write};

/// The calls of a reader and a writer, in one log.
#[derive(Drop)]
pub struct Log {
    pub reads: Cell<u64>,
    pub writes: Cell<u64>,
    pub flushes: Cell<u64>,
    /// How many line feeds were read.
    pub asked: Cell<usize>,
    /// How many line feeds were written.
    pub answered: Cell<usize>,
    /// How many bytes were written after the last flush.
    pub left: Cell<usize>,
    /// Whether each read asked for 4,096 bytes, and came after each whole line was answered.
    pub is_orderly: Cell<bool>,
}

impl Log {
    /// A log of no calls.
    pub fn new() -> Log {
        Log {
            reads: Cell::new(0),
            writes: Cell::new(0),
            flushes: Cell::new(0),
            asked: Cell::new(0),
            answered: Cell::new(0),
            left: Cell::new(0),
            is_orderly: Cell::new(true),
        }
    }
}

/// The number of line feeds.
fn count_feeds(bytes: &[u8]) -> usize {
    let mut count = 0usize;
    for byte in bytes {
        if *byte == b'\n' {
            count = count.saturating_add(1);
        }
    }
    count
}

/// A device that records its calls in a log.
#[derive(Drop)]
pub struct Logged<'a, D> {
    pub device: D,
    pub log: &'a Log,
}

impl<R: Read> Read for Logged<'_, R> {
    fn read(&mut self, buf: &mut [u8]) -> io::Result<usize> {
        let log = self.log;
        log.reads.set(log.reads.get().saturating_add(1));
        if buf.len() != 4096 || log.asked.get() != log.answered.get() {
            log.is_orderly.set(false);
        }
        let count = self.device.read(buf)?;
        let feeds = count_feeds(&buf[..count]);
        log.asked.set(log.asked.get().saturating_add(feeds));
        Ok(count)
    }
}

impl<W: Write> Write for Logged<'_, W> {
    fn write(&mut self, buf: &[u8]) -> io::Result<usize> {
        let log = self.log;
        log.writes.set(log.writes.get().saturating_add(1));
        log.left.set(log.left.get().saturating_add(buf.len()));
        let feeds = count_feeds(buf);
        log.answered.set(log.answered.get().saturating_add(feeds));
        self.device.write(buf)
    }

    fn flush(&mut self) -> io::Result<()> {
        let log = self.log;
        log.flushes.set(log.flushes.get().saturating_add(1));
        log.left.set(0);
        self.device.flush()
    }
}
