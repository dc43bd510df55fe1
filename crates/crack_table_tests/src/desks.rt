//! Sessions over a worker's desk, and over a core.
use crate::gates::Shut;
use crate::trials::{Opening, Trial, run_both};
use crate::values::{GREATEST, HUNDRED, ONE, assert_totals, bounds, give_back};
use crack_commands::push_refusal;
use crack_core::Core;
use crack_row::{BoundNumber, GREATEST_LIMIT, Policy, Refusal, Watched};
use crack_session::{Desk, How, Output, SessionEnd, serve};
use crack_table::{Gate, OpenGate, Table};
use crack_witness::{Naming, Worker};
use crack_worker_desk::WorkerDesk;
use std::alloc::Global;
use std::process::Abort;
use std::sync::Wait;

/// Each kind of statement, at both partitions, and each refusal that needs no limit and no gate.
const SCRIPT: &[u8] = b"insert 50 5\ninsert 150 6\ninsert 99 7\ninsert 100 8\n\
count 50 151\nsum 0 18446744073709551616\nselect 60 160\nupdate 0.0 60 9\nupdate 0.0 100 9\n\
delete 1.0\ndelete 1.0\nlayout 2\nupdate 2.0 100 9\ncount 5 1\nx\npolicy complete\n\
select 0 18446744073709551616\nlayout 0\nlayout 1\n\
policy gradual\ninsert 10 1\ninsert 20 2\ncount 10 11\nlayout 0\nquit\ninsert 1 1\n";

/// The replies to `SCRIPT`.
const REPLIES: &[u8] = b"row 0.0\nrow 1.0\nrow 0.1\nrow 1.1\n\
count 4\nsum 26\nrows 3\n0.1 99 7\n1.0 150 6\n1.1 100 8\nchanged\nrefused 4\n\
gone 150 6\nnone\nrefused 5\nrefused 5\nrefused 2\nrefused 1\npolicy complete\n\
rows 3\n0.0 60 9\n0.1 99 7\n1.1 100 8\n\
layout 0 rows 2 column 2 out 0 in 0 cells 3 free 1 pieces 3\n\
piece 0 50 0\npiece 50 60 0\npiece 60 100 2\n\
layout 1 rows 1 column 1 out 0 in 0 cells 2 free 1 pieces 3\n\
piece 100 151 1\npiece 151 160 0\npiece 160 18446744073709551616 0\n\
policy gradual\nrow 0.2\nrow 0.3\ncount 1\n\
layout 0 rows 4 column 3 out 0 in 1 cells 4 free 0 pieces 5\n\
piece 0 10 0\npiece 10 11 1\npiece 11 50 0\npiece 50 60 0\npiece 60 100 2\nbye\n";

/// One pending row is in the range 10 to 20, and one is above the bounds 20 and 30, which are at one place. The
/// complete merge inserts both into the column.
const COMPLETE: &[u8] =
    b"policy complete\ninsert 10 1\ninsert 40 4\ncount 0 18446744073709551616\ncount 20 30\n\
insert 15 5\ninsert 50 6\ncount 10 20\nlayout 0\n";

const COMPLETED: &[u8] = b"policy complete\nrow 0.0\nrow 0.1\ncount 2\ncount 0\n\
row 0.2\nrow 0.3\ncount 2\nlayout 0 rows 4 column 4 out 0 in 0 cells 4 free 0 pieces 4\n\
piece 0 10 0\npiece 10 20 2\npiece 20 30 0\npiece 30 18446744073709551616 2\n";

/// The gradual merge inserts only the row of the range.
const GRADUAL: &[u8] =
    b"policy gradual\ninsert 10 1\ninsert 40 4\ncount 0 18446744073709551616\ncount 20 30\n\
insert 15 5\ninsert 50 6\ncount 10 20\nlayout 0\n";

const MERGED: &[u8] = b"policy gradual\nrow 0.0\nrow 0.1\ncount 2\ncount 0\n\
row 0.2\nrow 0.3\ncount 2\nlayout 0 rows 4 column 3 out 0 in 1 cells 4 free 0 pieces 4\n\
piece 0 10 0\npiece 10 20 2\npiece 20 30 0\npiece 30 18446744073709551616 1\n";

/// A sum and a select merge as a count does.
const GRADUAL_SUM: &[u8] =
    b"policy gradual\ninsert 10 1\ninsert 40 4\ncount 0 18446744073709551616\ncount 20 30\n\
insert 15 5\ninsert 50 6\nsum 10 20\nlayout 0\n";

const MERGED_BY_A_SUM: &[u8] = b"policy gradual\nrow 0.0\nrow 0.1\ncount 2\ncount 0\n\
row 0.2\nrow 0.3\nsum 6\nlayout 0 rows 4 column 3 out 0 in 1 cells 4 free 0 pieces 4\n\
piece 0 10 0\npiece 10 20 2\npiece 20 30 0\npiece 30 18446744073709551616 1\n";

const GRADUAL_SELECT: &[u8] =
    b"policy gradual\ninsert 10 1\ninsert 40 4\ncount 0 18446744073709551616\ncount 20 30\n\
insert 15 5\ninsert 50 6\nselect 10 20\nlayout 0\n";

const MERGED_BY_A_SELECT: &[u8] = b"policy gradual\nrow 0.0\nrow 0.1\ncount 2\ncount 0\n\
row 0.2\nrow 0.3\nrows 2\n0.0 10 1\n0.2 15 5\nlayout 0 rows 4 column 3 out 0 in 1 cells 4 free 0 pieces 4\n\
piece 0 10 0\npiece 10 20 2\npiece 20 30 0\npiece 30 18446744073709551616 1\n";

/// The ripple merge inserts the row of the range; the row above the range, which makes room for it, is pending
/// again.
const RIPPLE: &[u8] =
    b"policy ripple\ninsert 10 1\ninsert 40 4\ncount 0 18446744073709551616\ncount 20 30\n\
insert 15 5\ninsert 50 6\ncount 10 20\nlayout 0\n";

const RIPPLED: &[u8] = b"policy ripple\nrow 0.0\nrow 0.1\ncount 2\ncount 0\n\
row 0.2\nrow 0.3\ncount 2\nlayout 0 rows 4 column 2 out 0 in 2 cells 4 free 0 pieces 4\n\
piece 0 10 0\npiece 10 20 2\npiece 20 30 0\npiece 30 18446744073709551616 0\n";

/// Keys on both sides of 2^32 and the two greatest keys, with positive and negative payloads.
const WIDE: &[u8] =
    b"policy complete\ninsert 4294967296 -4\ninsert 18446744073709551615 -9223372036854775808\n\
sum 4294967296 18446744073709551616\ninsert 4294967295 5\ninsert 18446744073709551614 -1\n\
sum 0 4294967296\nsum 4294967297 18446744073709551616\nlayout 0\n";

const ADDED: &[u8] = b"policy complete\nrow 0.0\nrow 0.1\nsum -9223372036854775812\n\
row 0.2\nrow 0.3\nsum 5\nsum -9223372036854775809\n\
layout 0 rows 4 column 4 out 0 in 0 cells 4 free 0 pieces 3\n\
piece 0 4294967296 1\npiece 4294967296 4294967297 1\npiece 4294967297 18446744073709551616 2\n";

/// Serves a session over memory, and asserts its replies and its end. No statement is refused for lack of memory.
fn assert_session<D: Desk>(
    rt: &impl Abort,
    alloc: Global,
    desk: &mut D,
    input: &[u8],
    replies: &[u8],
    end: (How, u64),
) {
    let mut reader = Watched::new(input);
    let mut writer = Watched::new(Vec::new(alloc));
    let ended = serve(alloc, desk, Policy::Complete, &mut reader, &mut writer);
    let text = writer.into_inner();
    assert_eq!(rt; text.as_slice(), replies);
    drop(text);
    let (how, statements) = end;
    let expected = SessionEnd {
        how,
        statements,
        first_short: None,
    };
    assert_eq!(rt; ended, Ok(expected));
}

#[test]
fn a_core_answers_the_script(rt: HostRuntime) {
    let alloc: Global = rt.alloc();
    let splits = bounds(&rt, alloc, HUNDRED);
    let mut core = Core::open(alloc, &splits, GREATEST_LIMIT).expect(&rt, "a core");
    assert_session(&rt, alloc, &mut core, SCRIPT, REPLIES, (How::Quit, 25));
    let accepted = Desk::accepted(&core);
    drop(core);
    assert!(rt; accepted == 18);
}

/// A session at the desk of the only worker of a table, whose gate is open.
#[derive(Clone, Copy)]
struct Session {
    splits: &'static [BoundNumber],
    input: &'static [u8],
    replies: &'static [u8],
    /// How the session ends, and after how many statements.
    end: (How, u64),
    /// How many commands the desk has accepted at the end.
    accepted: u64,
    /// The totals of the table when the worker is gathered.
    totals: [u64; 4],
}

/// Asserts the replies to a session at the desk of the only worker of a table.
fn assert_desk<J: Naming, R: Abort + Wait, G: Gate>(
    rt: &R,
    alloc: Global,
    table: Table<J>,
    mut workers: Vec<Worker<J>>,
    gate: &G,
    session: Session,
) {
    let splits = bounds(rt, alloc, session.splits);
    let worker = workers.pop().expect(rt, "a worker");
    let mut desk = WorkerDesk::new(rt, &table, gate, worker);
    assert_session(
        rt,
        alloc,
        &mut desk,
        session.input,
        session.replies,
        session.end,
    );
    let accepted = desk.accepted();
    let has_splits = desk.splits() == splits.as_slice();
    give_back(rt, &mut workers, desk.into_worker());
    assert!(rt; accepted == session.accepted && has_splits);
    assert_totals(rt, alloc, table, workers, session.totals);
}

impl Trial for Session {
    fn run<J: Naming, R: Wait + Abort>(
        self,
        rt: &R,
        alloc: Global,
        table: Table<J>,
        workers: Vec<Worker<J>>,
    ) {
        assert_desk(rt, alloc, table, workers, &OpenGate, self);
    }
}

/// The opening of a table with one worker.
fn of_one_worker(splits: &'static [BoundNumber]) -> Opening {
    Opening {
        splits,
        limits: GREATEST,
        workers: 1,
    }
}

/// Sessions, and their replies.
const SESSIONS: &[Session] = &[
    // the same replies as from a core
    Session {
        splits: HUNDRED,
        input: SCRIPT,
        replies: REPLIES,
        end: (How::Quit, 25),
        accepted: 18,
        totals: [18, 6, 1, 5],
    },
    // the session's policy, whichever it is
    Session {
        splits: ONE,
        input: COMPLETE,
        replies: COMPLETED,
        end: (How::InputEnded, 9),
        accepted: 7,
        totals: [7, 4, 0, 4],
    },
    Session {
        splits: ONE,
        input: GRADUAL,
        replies: MERGED,
        end: (How::InputEnded, 9),
        accepted: 7,
        totals: [7, 4, 0, 4],
    },
    Session {
        splits: ONE,
        input: RIPPLE,
        replies: RIPPLED,
        end: (How::InputEnded, 9),
        accepted: 7,
        totals: [7, 4, 0, 4],
    },
    // a sum and a select, which merge as a count does
    Session {
        splits: ONE,
        input: GRADUAL_SUM,
        replies: MERGED_BY_A_SUM,
        end: (How::InputEnded, 9),
        accepted: 7,
        totals: [7, 4, 0, 4],
    },
    Session {
        splits: ONE,
        input: GRADUAL_SELECT,
        replies: MERGED_BY_A_SELECT,
        end: (How::InputEnded, 9),
        accepted: 7,
        totals: [7, 4, 0, 4],
    },
    Session {
        splits: ONE,
        input: WIDE,
        replies: ADDED,
        end: (How::InputEnded, 9),
        accepted: 7,
        totals: [7, 4, 0, 4],
    },
    // each checkpoint is only of the partition that it names
    Session {
        splits: HUNDRED,
        input: b"insert 50 5\ninsert 60 6\ninsert 150 7\ncheckpoint 1\ncheckpoint 0\ncheckpoint 0\ncheckpoint 2\n",
        replies: b"row 0.0\nrow 0.1\nrow 1.0\nfolded 1\nfolded 2\nfolded 0\nrefused 5\n",
        end: (How::InputEnded, 7),
        accepted: 3,
        totals: [3, 3, 0, 3],
    },
];

/// A worker's desk gives the replies of a core, asks each query by the session's policy, adds up negative payloads,
/// and makes checkpoints.
#[test]
fn a_worker_desk_serves_sessions(rt: HostRuntime) {
    'sessions: for place in 0..SESSIONS.len() {
        let session = SESSIONS[place];
        run_both(&rt, rt.alloc(), of_one_worker(session.splits), session);
    }
}

/// The same at a desk whose gate is shut.
#[derive(Clone, Copy)]
struct AtShut {
    session: Session,
}

impl Trial for AtShut {
    fn run<J: Naming, R: Wait + Abort>(
        self,
        rt: &R,
        alloc: Global,
        table: Table<J>,
        workers: Vec<Worker<J>>,
    ) {
        assert_desk(rt, alloc, table, workers, &Shut::new(None), self.session);
    }
}

/// A layout is asked without the gate.
#[test]
fn a_shut_gate_refuses_each_command_of_a_session(rt: HostRuntime) {
    const SESSION: Session = Session {
        splits: HUNDRED,
        input: b"insert 50 5\ncount 0 18446744073709551616\ndelete 1.0\nlayout 0\npolicy ripple\n",
        replies: b"refused 7\nrefused 7\nrefused 7\n\
layout 0 rows 0 column 0 out 0 in 0 cells 0 free 0 pieces 1\npiece 0 100 0\npolicy ripple\n",
        end: (How::InputEnded, 5),
        accepted: 0,
        totals: [0, 0, 0, 0],
    };
    let trial = AtShut { session: SESSION };
    run_both(&rt, rt.alloc(), of_one_worker(HUNDRED), trial);
}

/// Refusals of a gathering, each with its line.
const REFUSALS: &[(Refusal, &[u8])] = &[
    (
        Refusal::WorkersMissing {
            missing: 9223372036854775813,
        },
        b"refused 15 0 2 63\n",
    ),
    (
        Refusal::WorkersMissing { missing: u64::MAX },
        b"refused 15 0 1 2 3 4 5 6 7 8 9 10 11 12 13 14 15 16 17 18 19 20 21 22 23 24 25 26 27 28 29 30 31 \
32 33 34 35 36 37 38 39 40 41 42 43 44 45 46 47 48 49 50 51 52 53 54 55 56 57 58 59 60 61 62 63\n",
    ),
    (
        Refusal::StrangeReceipt {
            part: u32::MAX,
            position: u64::MAX,
        },
        b"refused 16 4294967295 18446744073709551615\n",
    ),
];

#[test]
fn refusals_of_a_gathering_are_written_with_their_numbers(rt: HostRuntime) {
    let alloc: Global = rt.alloc();
    'refusals: for place in 0..REFUSALS.len() {
        let (refusal, line) = REFUSALS[place];
        let mut text = Output::new();
        push_refusal(&mut text, &refusal);
        let printed = format!(in alloc; "{refusal}\n").expect(&rt, "memory");
        assert!(rt; text.as_slice() == line && printed.as_bytes() == line);
    }
}
