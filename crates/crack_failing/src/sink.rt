//! A writer that keeps the bytes written to it, may accept few at a time, and fails at a chosen call.
ghost use Rattle.std.specs.Prelude.{◌≡◌, ◌+◌, ◌<◌, ◌≤◌, ◌^◌, ◌-◌, min, max, Some, is_ok, nat_le, nat_lt, IfOk, OnOk};
ghost use Rattle.std.specs.Io.{WritesAtMost};
ghost use Rattle.std.specs.Io.KnownBytes.{Keeps, WriteAppends};

use std::io;
use std::io::Write;

/// A writer that keeps the bytes that it accepts, and may fail from some call on. Writes and flushes count as
/// calls.
#[derive(Drop)]
pub struct Sink {
    bytes: Vec<u8>,
    most: usize,
    calls: u64,
    fails_at: u64,
}

impl Sink {
    /// Makes a writer that appends to `bytes` all bytes that are written to it, and fails only if no memory is found.
    pub fn new(bytes: Vec<u8>) -> Sink
        ensures bytes { result.bytes ≡ bytes }
        ensures whole { result.most ≡ 2 ^ 64 - 1 }
        ensures never { (result.calls ≡ 0) × (result.fails_at ≡ 2 ^ 64 - 1) }
    {
        Sink {
            bytes,
            most: usize::MAX,
            calls: 0,
            fails_at: u64::MAX,
        }
    }

    /// Limits each write to this many bytes, or to one byte if `most` is 0.
    pub fn taking(self, most: usize) -> Sink
        ensures { result ≡ record self { most = most } }
    {
        Sink { most, ..self }
    }

    /// Makes call number `k`, counted from 1, and every later call fail. A failed call accepts no bytes.
    pub fn failing_at(self, k: u64) -> Sink
        ensures { result ≡ record self { fails_at = k } }
    {
        Sink {
            fails_at: k,
            ..self
        }
    }

    /// The initial bytes, followed by the accepted ones.
    pub fn bytes(&self) -> &[u8]
        ensures { result.now ≡ self.now.bytes.items }
    {
        self.bytes.as_slice()
    }

    /// The initial bytes, followed by the accepted ones.
    pub fn into_bytes(self) -> Vec<u8>
        ensures { result ≡ self.bytes }
    {
        self.bytes
    }

    /// The number of calls, including failed ones. It stops at the greatest number of 64 bits.
    pub fn calls(&self) -> u64
        ensures { result ≡ self.now.calls }
    {
        self.calls
    }

    /// Counts a call, and returns whether the call is to fail: whether its number is at least that given to
    /// `failing_at`.
    fn fails(&mut self) -> bool
        ensures calls { self.new ≡ record self.old { calls = min (self.old.calls + 1) (2 ^ 64 - 1) } }
        ensures fails { result ≡ nat_le self.old.fails_at self.new.calls }
    {
        self.calls = self.calls.saturating_add(1);
        self.calls >= self.fails_at
    }
}

impl Write for Sink {
    ghost contents = { λ s. Some s.bytes.items };

    /// Counts a call, appends the first bytes of `buf`, as many as a write may accept (see `taking`), and returns how
    /// many. Fails with `BrokenPipe` from the call chosen by `failing_at` on, and with `OutOfMemory` if no memory is
    /// found; then no byte is appended. O(appended bytes), except for growth.
    fn write(&mut self, buf: &[u8]) -> io::Result<usize>
        ensures bound { WritesAtMost result buf.now }
        ensures bytes { WriteAppends (Some self.old.bytes.items) (Some self.new.bytes.items) result buf.now }
        ensures calls { self.new.calls ≡ min (self.old.calls + 1) (2 ^ 64 - 1) }
        ensures kept { (self.new.fails_at ≡ self.old.fails_at) × (self.new.most ≡ self.old.most) }
        ensures works { OnOk result (self.new.calls < self.old.fails_at) }
        ensures little { IfOk result (λ count. count ≤ max self.old.most 1) }
    {
        if self.fails() {
            return Err(io::Error::from(io::ErrorKind::BrokenPipe));
        }
        let count = buf.len().min(self.most.max(1));
        match self.bytes.extend_from_slice(&buf[..count]) {
            Ok(()) => Ok(count),
            Err(_) => Err(io::Error::from(io::ErrorKind::OutOfMemory)),
        }
    }

    /// Counts a call, and fails with `BrokenPipe` from the call chosen by `failing_at` on. Does nothing else.
    fn flush(&mut self) -> io::Result<()>
        ensures bytes { Keeps (Some self.old.bytes.items) (Some self.new.bytes.items) }
        ensures calls { self.new ≡ record self.old { calls = min (self.old.calls + 1) (2 ^ 64 - 1) } }
        ensures fails { is_ok result ≡ nat_lt self.new.calls self.old.fails_at }
    {
        if self.fails() {
            return Err(io::Error::from(io::ErrorKind::BrokenPipe));
        }
        Ok(())
    }
}
