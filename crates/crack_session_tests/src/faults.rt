//! Sessions whose reader or writer fails, at each of its calls.
use crate::session::{core, ended, joined, session};
use crack_failing::{ONE_BYTE, Sink, Source};
use crack_row::{GREATEST_LIMIT, Policy, Refusal, Watched};
use crack_session::{Fault, SessionEnd};
use std::alloc::Global;
use std::process::Abort;

/// Statements, one of them after a blank line.
static LINES: [&[u8]; 10] = [
    b"insert 7 70\n",
    b"\r\n  insert   009   90  \r\n",
    b"select 0 100\n",
    b"insert 1\n",
    b"count 5 1\n",
    b"policy ripple\n",
    b"layout 0\n",
    b"delete 0.0\n",
    b"delete 0.0\n",
    b"sum 0 10\n",
];

/// The replies to these statements.
static REPLIES: [&[u8]; 10] = [
    b"row 0.0\n",
    b"row 0.1\n",
    b"rows 2\n0.0 7 70\n0.1 9 90\n",
    b"refused 1\n",
    b"refused 2\n",
    b"policy ripple\n",
    b"layout 0 rows 2 column 2 out 0 in 0 cells 2 free 0 pieces 2\npiece 0 100 2\npiece 100 18446744073709551616 0\n",
    b"gone 7 70\n",
    b"none\n",
    b"sum 90\n",
];

/// How many of the first parts fit into this many bytes as a whole, and how many bytes they have.
fn whole_parts(parts: &[&[u8]], bytes: usize) -> (u64, usize) {
    let mut left = bytes;
    let mut count = 0u64;
    for part in parts {
        if part.len() > left {
            break;
        }
        left -= part.len();
        count = count.saturating_add(1);
    }
    (count, bytes.saturating_sub(left))
}

/// The devices of a session: the sizes of reads, the greatest size of a write, the read at which the reader fails,
/// from 1, and the call at which the writer fails.
#[derive(Clone, Copy)]
struct Devices {
    sizes: &'static [usize],
    most: usize,
    read: u64,
    call: u64,
}

/// The observed result of a session.
#[derive(Drop)]
struct Seen {
    result: Result<SessionEnd, Fault>,
    /// Whether the reader or the writer failed.
    failed: bool,
    /// How many bytes are left in the reader, and how often it was read.
    left: usize,
    reads: u64,
    /// The bytes that the writer took, and how often it was called.
    text: Vec<u8>,
    calls: u64,
}

/// Runs a session over a new core with this limit.
fn see(rt: &impl Abort, alloc: Global, limit: u64, input: &[u8], devices: Devices) -> Seen {
    let source = Source::new(input).cut(devices.sizes);
    let sink = Sink::new(Vec::new(alloc)).taking(devices.most);
    let mut desk = core(rt, alloc, &[], limit);
    let mut reader = Watched::new(source.failing_at(devices.read));
    let mut writer = Watched::new(sink.failing_at(devices.call));
    let result = session(alloc, &mut desk, Policy::Complete, &mut reader, &mut writer);
    drop(desk);
    let failed = reader.failed() || writer.failed();
    let reads = reader.reads();
    let left = reader.into_inner().left().len();
    let sink = writer.into_inner();
    let calls = sink.calls();
    Seen {
        result,
        failed,
        left,
        reads,
        text: sink.into_bytes(),
        calls,
    }
}

/// Asserts that the statements in the whole lines that were read are done, and that the output is a prefix of all
/// replies. If the reader fails, the replies to these statements are whole. If the writer fails, the replies to the
/// lines before the last read are, and the writer isn't called again.
fn fail(
    rt: &impl Abort,
    alloc: Global,
    input: &[u8],
    replies: &[u8],
    devices: Devices,
    refusal: Refusal,
) {
    let seen = see(rt, alloc, GREATEST_LIMIT, input, devices);
    let is_prefix = replies.starts_with(seen.text.as_slice());
    let read = input.len().saturating_sub(seen.left);
    let (done, _) = whole_parts(&LINES, read);
    let fault = Fault {
        refusal,
        done,
        first_short: None,
    };
    assert_eq!(rt; seen.result, Err(fault));
    let (replied, whole) = whole_parts(&REPLIES, seen.text.len());
    let is_as_wanted = if refusal == Refusal::ReadFault {
        seen.text.len() == whole && replied == done
    } else {
        let (before, _) = whole_parts(&LINES, read.saturating_sub(MOST_OF_A_READ));
        seen.calls == devices.call && before <= replied && replied <= done
    };
    assert!(rt; is_prefix && is_as_wanted);
    drop(seen);
}

/// Asserts sessions whose device fails at each of its calls in turn, and one without a fault.
fn fail_each(
    rt: &impl Abort,
    alloc: Global,
    input: &[u8],
    replies: &[u8],
    devices: Devices,
    refusal: Refusal,
) {
    let seen = see(rt, alloc, GREATEST_LIMIT, input, devices);
    assert_eq!(rt;
        (seen.result, seen.text.as_slice()),
        (Ok(ended(10, None)), replies)
    );
    let (reads, calls) = (seen.reads, seen.calls);
    drop(seen);
    let is_read = refusal == Refusal::ReadFault;
    let count = if is_read { reads } else { calls };
    for before in 0..count {
        let mut failing = devices;
        if is_read {
            failing.read = before + 1;
        } else {
            failing.call = before + 1;
        }
        fail(rt, alloc, input, replies, failing, refusal);
    }
}

#[test]
fn a_reader_fails_at_each_read(rt: HostRuntime) {
    let alloc: Global = rt.alloc();
    let input = joined(&rt, alloc, &LINES);
    let replies = joined(&rt, alloc, &REPLIES);
    let cuts: [&'static [usize]; 3] = [&[], ONE_BYTE, &[2, 30, 1, 5]];
    for sizes in cuts {
        let devices = Devices {
            sizes,
            most: usize::MAX,
            read: u64::MAX,
            call: u64::MAX,
        };
        fail_each(&rt, alloc, &input, &replies, devices, Refusal::ReadFault);
    }
}

/// The greatest number of bytes in a read in sessions whose writer fails.
const MOST_OF_A_READ: usize = 9;

#[test]
fn a_writer_fails_at_each_call(rt: HostRuntime) {
    let alloc: Global = rt.alloc();
    let input = joined(&rt, alloc, &LINES);
    let replies = joined(&rt, alloc, &REPLIES);
    for most in [usize::MAX, 1, 5] {
        let devices = Devices {
            sizes: &[MOST_OF_A_READ],
            most,
            read: u64::MAX,
            call: u64::MAX,
        };
        fail_each(&rt, alloc, &input, &replies, devices, Refusal::WriteFault);
    }
}

/// A session over a core with this limit that a device cuts short, and its text before that.
#[derive(Clone, Copy)]
struct Case {
    limit: u64,
    input: &'static [u8],
    devices: Devices,
    text: &'static [u8],
    fault: Fault,
}

const CASES: &[Case] = &[
    // the third reply is in the writer's third call, after a flush and a part of the text; all lines were answered
    Case {
        limit: GREATEST_LIMIT,
        input: b"insert 1 1\ninsert 2 2\nfoo\nquit\n",
        devices: Devices {
            sizes: &[],
            most: 16,
            read: u64::MAX,
            call: 3,
        },
        text: b"row 0.0\nrow 0.1\n",
        fault: Fault {
            refusal: Refusal::WriteFault,
            done: 4,
            first_short: None,
        },
    },
    // the writer fails after a refusal for lack of room
    Case {
        limit: 1,
        input: b"insert 1 1\ninsert 2 2\nfoo\nquit\n",
        devices: Devices {
            sizes: &[],
            most: 20,
            read: u64::MAX,
            call: 3,
        },
        text: b"row 0.0\nrefused 6 1\n",
        fault: Fault {
            refusal: Refusal::WriteFault,
            done: 4,
            first_short: Some(2),
        },
    },
    // the reader fails within a line
    Case {
        limit: GREATEST_LIMIT,
        input: b"insert 1 1\ncount 0 9",
        devices: Devices {
            sizes: &[16],
            most: usize::MAX,
            read: 3,
            call: u64::MAX,
        },
        text: b"row 0.0\n",
        fault: Fault {
            refusal: Refusal::ReadFault,
            done: 1,
            first_short: None,
        },
    },
];

#[test]
fn sessions_are_cut_short(rt: HostRuntime) {
    'cases: for place in 0..CASES.len() {
        let case = CASES[place];
        let seen = see(&rt, rt.alloc(), case.limit, case.input, case.devices);
        assert_eq!(rt;
            (seen.failed, seen.result, seen.text.as_slice()),
            (true, Err(case.fault), case.text)
        );
        drop(seen);
    }
}
