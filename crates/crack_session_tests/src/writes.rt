//! How often a session reads, writes and flushes.
use crate::log::{Log, Logged};
use crate::session::{core, session};
use crack_failing::{Sink, Source};
use crack_row::{GREATEST_LIMIT, Policy, Watched};
use crack_session::{How, SessionEnd};
use std::alloc::Global;
use std::process::Abort;

/// A session whose calls are counted.
#[derive(Clone, Copy)]
struct Case {
    /// A line, how often it is read, and the bytes after that.
    line: &'static [u8],
    times: u64,
    last: &'static [u8],
    /// How many bytes a read returns at most, and which read fails, from 1.
    size: usize,
    fails_at: u64,
    how: How,
    statements: u64,
}

const CASES: &[Case] = &[
    Case {
        line: b"insert 1 1\n",
        times: 1000,
        last: b"count 0 9",
        size: 4096,
        fails_at: u64::MAX,
        how: How::InputEnded,
        statements: 1001,
    },
    // two bytes get ten, and the output has room for the replies to a whole read
    Case {
        line: b"x\n",
        times: 8192,
        last: b"",
        size: 4096,
        fails_at: u64::MAX,
        how: How::InputEnded,
        statements: 8192,
    },
    // reads end within lines
    Case {
        line: b"insert 1 1\n",
        times: 1000,
        last: b"count 0 9",
        size: 29,
        fails_at: u64::MAX,
        how: How::InputEnded,
        statements: 1001,
    },
    // nothing is read after `quit`, though the reader would fail
    Case {
        line: b"insert 1 1\n",
        times: 1,
        last: b"quit\n",
        size: 4096,
        fails_at: 2,
        how: How::Quit,
        statements: 2,
    },
];

/// A line, repeated, and other bytes after it.
fn repeated(rt: &impl Abort, alloc: Global, line: &[u8], times: u64, last: &[u8]) -> Vec<u8> {
    let mut input = Vec::new(alloc);
    for _ in 0..times {
        assert!(rt; input.extend_from_slice(line).is_ok());
    }
    assert!(rt; input.extend_from_slice(last).is_ok());
    input
}

/// Logs the calls of a session, and asserts how it ends, and that no read fails.
fn log_it(rt: &impl Abort, alloc: Global, case: Case, log: &Log) {
    let input = repeated(rt, alloc, case.line, case.times, case.last);
    let sizes = [case.size];
    let mut desk = core(rt, alloc, &[], GREATEST_LIMIT);
    let source = Source::new(&input).cut(&sizes);
    let device = source.failing_at(case.fails_at);
    let mut reader = Watched::new(Logged { device, log });
    let device = Sink::new(Vec::new(alloc));
    let mut writer = Watched::new(Logged { device, log });
    let result = session(alloc, &mut desk, Policy::Complete, &mut reader, &mut writer);
    drop(writer);
    drop(desk);
    let end = SessionEnd {
        how: case.how,
        statements: case.statements,
        first_short: None,
    };
    assert!(rt; result == Ok(end) && !reader.failed());
}

/// Each whole line is answered before the next read, wherever reads end, and each read asks for 4,096 bytes. There
/// is one write for each read that finishes lines, and none for others. The output is flushed before each read and
/// at the end.
#[test]
fn lines_are_answered_before_the_next_read(rt: HostRuntime) {
    'cases: for place in 0..CASES.len() {
        let case = CASES[place];
        let log = Log::new();
        log_it(&rt, rt.alloc(), case, &log);
        let most = log.reads.get().saturating_add(1);
        let logged = [
            log.answered.get() as u64,
            log.flushes.get(),
            log.left.get() as u64,
        ];
        assert_eq!(rt; logged, [case.statements, most, 0]);
        assert!(rt; log.is_orderly.get() && log.writes.get() < most);
    }
}
