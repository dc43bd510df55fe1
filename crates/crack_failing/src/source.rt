//! A reader of bytes in memory that returns them in pieces, and fails at a chosen read.
ghost use Rattle.std.specs.Prelude.{◌≡◌, ◌+◌, ◌<◌, ◌^◌, ◌-◌, [], min, length, drop, Some, is_ok, nat_lt, IfOk};
ghost use Rattle.std.specs.Io.{ReadsAtMost};
ghost use Rattle.crack_failing.specs.Sizes.{most_at};
ghost use Rattle.std.specs.Io.KnownBytes.{ReadConsumes};

use std::io;
use std::io::Read;

/// The sizes for a reader that returns one byte at a time.
pub const ONE_BYTE: &[usize] = &[1];

/// A reader that returns bytes of memory in pieces of given sizes, and may fail from some read on.
#[derive(Drop)]
pub struct Source<'a> {
    bytes: &'a [u8],
    sizes: &'a [usize],
    reads: u64,
    fails_at: u64,
}

impl<'a> Source<'a> {
    /// Makes a reader of these bytes, which never fails. Each read fills its buffer as far as bytes are left.
    pub fn new(bytes: &'a [u8]) -> Source<'a>
        ensures bytes { result.bytes.now ≡ bytes.now }
        ensures whole { result.sizes.now ≡ [] }
        ensures never { (result.reads ≡ 0) × (result.fails_at ≡ 2 ^ 64 - 1) }
    {
        Source {
            bytes,
            sizes: &[],
            reads: 0,
            fails_at: u64::MAX,
        }
    }

    /// Limits each read to one of these sizes: the first read to the first size, the next to the next, and after the
    /// last size again the first one. A size of 0 counts as 1. Without sizes a read is limited only by its buffer.
    pub fn cut(self, sizes: &'a [usize]) -> Source<'a>
        ensures sizes { result.sizes.now ≡ sizes.now }
        ensures bytes { result.bytes.now ≡ self.entry.bytes.now }
        ensures reads { (result.reads ≡ self.entry.reads) × (result.fails_at ≡ self.entry.fails_at) }
    {
        Source { sizes, ..self }
    }

    /// Makes read number `k`, counted from 1, and every later read fail. A failed read takes no bytes.
    pub fn failing_at(self, k: u64) -> Source<'a>
        ensures fails { result.fails_at ≡ k }
        ensures bytes { result.bytes.now ≡ self.entry.bytes.now }
        ensures reads { (result.reads ≡ self.entry.reads) × (result.sizes.now ≡ self.entry.sizes.now) }
    {
        Source {
            fails_at: k,
            ..self
        }
    }

    /// The bytes that weren't read yet.
    pub fn left(&self) -> &'a [u8]
        ensures { result.now ≡ self.now.bytes.now }
    {
        self.bytes
    }

    /// The greatest number of bytes that the next read may return.
    fn most(&self) -> usize
        ensures value { result ≡ most_at self.now.sizes.now self.now.reads }
        ensures some { 0 < result }
    {
        if self.sizes.is_empty() {
            return usize::MAX;
        }
        let turn = self.reads % self.sizes.len() as u64;
        self.sizes[turn as usize].max(1)
    }
}

impl Read for Source<'_> {
    ghost remaining = { λ s. Some s.bytes.now };

    /// Counts a read, moves the next bytes into `buf`, and returns how many: as many as the buffer, the size for this
    /// read and the bytes left allow. Fails with `BrokenPipe` from the read chosen by `failing_at` on; then no byte
    /// is taken. O(bytes that it returns).
    fn read(&mut self, buf: &mut [u8]) -> io::Result<usize>
        ensures bound { ReadsAtMost result buf.new }
        ensures bytes { ReadConsumes (Some self.old.bytes.now) (Some self.new.bytes.now) result buf.new }
        ensures fails { is_ok result ≡ nat_lt self.new.reads self.old.fails_at }
        ensures reads { self.new.reads ≡ min (self.old.reads + 1) (2 ^ 64 - 1) }
        ensures kept { (self.new.fails_at ≡ self.old.fails_at) × (self.new.sizes.now ≡ self.old.sizes.now) }
        ensures gives { IfOk result (λ n.
            n ≡ min (min (length buf.old) (most_at self.old.sizes.now self.old.reads)) (length self.old.bytes.now)) }
        ensures rest { IfOk result (λ n. self.new.bytes.now ≡ drop n self.old.bytes.now) }
    {
        let most = self.most();
        self.reads = self.reads.saturating_add(1);
        if self.reads >= self.fails_at {
            return Err(io::Error::from(io::ErrorKind::BrokenPipe));
        }
        let room = buf.len().min(most);
        self.bytes.read(&mut buf[..room])
    }
}
