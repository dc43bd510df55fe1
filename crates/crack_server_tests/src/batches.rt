//! Batches over memory.
ghost use Rattle.std.specs.Prelude.{◌<◌};

use crack_row::{Bound, Limits, Policy, Refusal};
use crack_server::run_batch;
use crack_service::Complaint;
use crack_table::{Gate, OpenGate};
use std::alloc::Global;
use std::io::Write;
use std::process::Abort;
use std::sync::Wait;
use std::sync::atomic::{AtomicBool, Ordering};
use std::thread::Threads;
use std::{io, thread};

/// The input of a batch, its result, and its output.
#[derive(Clone, Copy)]
struct Case {
    input: &'static [u8],
    ended: Result<(), Complaint>,
    output: &'static [u8],
}

const CASES: &[Case] = &[
    // each line goes to the worker with its number
    Case {
        input: b"0 insert 50 5\n1 insert 150 6\n3 count 100 200\n",
        ended: Ok(()),
        output: b"worker 0\nrow 0.0\nworker 1\nrow 1.0\ncount 1\naccepted 3 inserted 2 deleted 0 held 2\n",
    },
    // a checkpoint leaves the totals as they are
    Case {
        input: b"0 insert 50 5\n0 checkpoint 0\n0 count 0 100\n1 insert 150 6\n",
        ended: Ok(()),
        output: b"worker 0\nrow 0.0\nfolded 1\ncount 1\nworker 1\nrow 1.0\naccepted 3 inserted 2 deleted 0 held 2\n",
    },
    // the first line without a number refuses the batch; blank lines are counted
    Case {
        input: b"0 insert 50 5\n\n \r\nx insert 1 1\ny\n",
        ended: Err(Complaint::BadLine { number: 4 }),
        output: b"",
    },
];

/// Runs a batch with two workers and a split at 100.
fn run_two<H: Threads + Wait + Sync, G: Gate + Sync, W: Write>(
    rt: &H,
    alloc: Global,
    gate: &G,
    is_audited: bool,
    input: &[u8],
    writer: &mut W,
) -> Result<(), Complaint> {
    let mut reader = input;
    let splits = [Bound::from_number(100)];
    let limits = Limits::of_history(10);
    run_batch(
        rt,
        alloc,
        &splits,
        limits,
        Policy::Ripple,
        2,
        is_audited,
        gate,
        &mut reader,
        writer,
    )
}

/// Asserts the result and the output of such a batch.
fn assert_batch<H: Threads + Wait + Sync + Abort, G: Gate + Sync>(
    rt: &H,
    alloc: Global,
    gate: &G,
    is_audited: bool,
    case: Case,
) {
    let mut output = Vec::new(alloc);
    let ended = run_two(rt, alloc, gate, is_audited, case.input, &mut output);
    assert!(rt; ended == case.ended && output.as_slice() == case.output);
}

#[test]
fn batches_end_and_write(rt: HostRuntime) {
    'cases: for place in 0..CASES.len() {
        assert_batch(&rt, rt.alloc(), &OpenGate, false, CASES[place]);
        assert_batch(&rt, rt.alloc(), &OpenGate, true, CASES[place]);
    }
}

/// A writer to memory, one of whose calls fails.
#[derive(Drop)]
struct FailsOnce {
    bytes: Vec<u8>,
    /// How many of the bytes were flushed.
    flushed: usize,
    /// How many calls succeed before the one that fails.
    before: u64,
}

impl FailsOnce {
    /// Counts a call, and fails if its turn has come.
    fn call(&mut self) -> io::Result<()> {
        let fails = self.before == 0;
        self.before = self.before.wrapping_sub(1);
        if fails {
            return Err(io::Error::from(io::ErrorKind::BrokenPipe));
        }
        Ok(())
    }
}

impl Write for FailsOnce {
    fn write(&mut self, buf: &[u8]) -> io::Result<usize> {
        self.call()?;
        self.bytes.write(buf)
    }

    fn flush(&mut self) -> io::Result<()> {
        self.call()?;
        self.flushed = self.bytes.len();
        Ok(())
    }
}

/// Whichever write or flush of a batch fails, the batch is refused, and writes nothing after that. The second
/// worker's session has no output.
#[test]
fn a_batch_is_refused_where_a_write_fails(rt: HostRuntime) {
    const OUTPUT: &[u8] = b"worker 0\nrow 0.0\nworker 1\naccepted 1 inserted 1 deleted 0 held 1\n";
    let mut whole = false;
    'writes: for before in 0..100u64 {
        let mut writer = FailsOnce {
            bytes: Vec::new(rt.alloc()),
            flushed: 0,
            before,
        };
        let input = b"0 insert 50 5\n";
        let ended = run_two(&rt, rt.alloc(), &OpenGate, true, input, &mut writer);
        whole = ended.is_ok();
        if whole {
            assert!(rt; writer.bytes.as_slice() == OUTPUT && writer.flushed == OUTPUT.len());
            break;
        }
        assert!(rt;
            ended == Err(Complaint::Refused(Refusal::WriteFault))
                && OUTPUT.starts_with(writer.bytes.as_slice())
        );
    }
    assert!(rt; whole);
}

/// A gate that refuses each of two partitions until the other one has been asked for. Before each refusal it yields
/// long enough for another thread to arrive.
#[derive(Drop)]
struct Meeting {
    arrived: [AtomicBool; 2],
}

impl Gate for Meeting {
    ghost may_refuse = { λ gate part turn. part < 2 };

    fn inside(&self, part: u32, _turn: u32) -> bool {
        if part > 1 {
            return true;
        }
        self.arrived[part as usize].store(true, Ordering::SeqCst);
        if self.arrived[1 - part as usize].load(Ordering::SeqCst) {
            return true;
        }
        'turns: for _ in 0..1000u32 {
            thread::yield_now();
        }
        false
    }
}

/// Workers that run one after the other, or under one lock, would be refused with `GateGaveUp`.
#[test]
fn two_workers_are_at_two_partitions_at_once(rt: HostRuntime) {
    const CASE: Case = Case {
        input: b"0 insert 50 1\n1 insert 150 1\n",
        ended: Ok(()),
        output: b"worker 0\nrow 0.0\nworker 1\nrow 1.0\naccepted 2 inserted 2 deleted 0 held 2\n",
    };
    let gate = Meeting {
        arrived: [AtomicBool::new(false), AtomicBool::new(false)],
    };
    assert_batch(&rt, rt.alloc(), &gate, true, CASE);
}
