//! Servers whose gate refuses at first, and whose host is notified.
use crate::servers::{client, port_of};
use crate::tables::{Opening, serve, terms_of};
use crack_loop::{ServerEnding, Terms};
use crack_row::{GREATEST_CELLS, GREATEST_LIFE, Limits, Policy, Refusal, Upkeep};
use crack_service::{Alone, Host, Notice};
use crack_table::Gate;
use std::alloc::Global;
use std::net::{Net, TcpListener, TcpStream};
use std::process::Abort;
use std::sync::Wait;
use std::sync::atomic::{AtomicU64, Ordering};
use std::thread;
use std::thread::Threads;

/// A gate that consents when it is asked again. It counts its calls, and the entries that were checkpointed.
#[derive(Drop)]
struct Second {
    asked: AtomicU64,
    entries: AtomicU64,
}

impl Second {
    /// A gate with counts of 0.
    fn new() -> Second {
        Second {
            asked: AtomicU64::new(0),
            entries: AtomicU64::new(0),
        }
    }
}

impl Gate for Second {
    ghost may_refuse = { λ gate part turn. Unit {0} };

    fn inside(&self, _part: u32, turn: u32) -> bool {
        self.asked.fetch_add(1, Ordering::SeqCst);
        turn == 1
    }

    fn note_checkpoint(&self, _part: u32, entries: u64) {
        self.entries.fetch_add(entries, Ordering::SeqCst);
    }
}

/// A host that counts checkpoints, sessions, and sessions that were cut off, by its notices.
#[derive(Drop)]
struct Notes {
    checkpoints: AtomicU64,
    sessions: AtomicU64,
    cut_off: AtomicU64,
}

impl Notes {
    /// A host with counts of 0.
    fn new() -> Notes {
        Notes {
            checkpoints: AtomicU64::new(0),
            sessions: AtomicU64::new(0),
            cut_off: AtomicU64::new(0),
        }
    }
}

impl Host for Notes {
    fn note(&self, notice: Notice) {
        match notice {
            Notice::Checkpoints { count, .. } => {
                self.checkpoints.fetch_add(count, Ordering::SeqCst);
            }
            Notice::Ended { sessions, cut_off } => {
                self.sessions.fetch_add(sessions, Ordering::SeqCst);
                self.cut_off.fetch_add(cut_off, Ordering::SeqCst);
            }
            _ => {}
        }
    }

    fn pause(&self) {}
}

/// The options of a server with one session.
#[derive(Clone, Copy)]
enum Way {
    /// The host isn't notified, and sessions are the only limit.
    Alone,
    NotingCheckpoints,
    NotingNone,
    /// Two workers insert before, one of them isn't gathered, and there is no session.
    Late,
}

/// The options of a server with a host.
fn terms(way: Way) -> Terms {
    Terms {
        policy: Policy::Gradual,
        ending: ServerEnding::AfterSessions(u64::from(!matches!(way, Way::Late))),
        idle: Some(60),
        clients: 1,
        drain: 0,
        notes_checkpoints: matches!(way, Way::NotingCheckpoints),
    }
}

/// A history has at most four entries, and checkpoints are automatic.
const LIMITS: Limits = Limits {
    history: 4,
    cells: GREATEST_CELLS,
    life: GREATEST_LIFE,
    upkeep: Upkeep::Automatic,
};

/// The table of a server: with two workers for `Late`, and with one otherwise.
fn table_of(way: Way, is_audited: bool) -> Opening {
    let is_late = matches!(way, Way::Late);
    Opening {
        limits: LIMITS,
        workers: if is_late { 2 } else { 1 },
        is_audited,
        is_late,
    }
}

/// Seven commands, and a layout that shows their policy.
const ASKED: &[u8] = b"insert 10 1\ninsert 40 4\ncount 0 18446744073709551616\ncount 20 30\n\
    insert 15 5\ninsert 50 6\nsum 10 20\nlayout 0\nquit\n";

const ANSWERED: &[u8] = b"row 0.0\nrow 0.1\ncount 2\ncount 0\nrow 0.2\nrow 0.3\nsum 6\n\
    layout 0 rows 4 column 3 out 0 in 1 cells 4 free 0 pieces 4\n\
    piece 0 10 0\npiece 10 20 2\npiece 20 30 0\npiece 30 18446744073709551616 1\nbye\n";

/// How a server is run, and the expected counts: calls of its gate, checkpointed entries reported to the gate, and
/// checkpoints, sessions and sessions cut off reported to the host.
const WAYS: &[(Way, [u64; 5])] = &[
    (Way::NotingCheckpoints, [14, 4, 1, 1, 0]),
    (Way::NotingNone, [14, 4, 0, 1, 0]),
    (Way::Alone, [14, 4, 0, 0, 0]),
];

/// Runs a server, and returns its output and its result.
fn service<H: Threads + Wait + Net + Sync>(
    rt: &H,
    alloc: Global,
    listener: &TcpListener,
    way: Way,
    is_audited: bool,
    gate: &Second,
    host: &Notes,
) -> (Vec<u8>, Result<(), Refusal>) {
    let opening = table_of(way, is_audited);
    let mut input: &[u8] = b"";
    let mut output = Vec::new(alloc);
    let ended = if matches!(way, Way::Alone) {
        let terms = terms_of(Policy::Gradual, 1);
        serve(
            rt,
            alloc,
            listener,
            opening,
            terms,
            gate,
            &Alone,
            &mut input,
            &mut output,
        )
    } else {
        serve(
            rt,
            alloc,
            listener,
            opening,
            terms(way),
            gate,
            host,
            &mut input,
            &mut output,
        )
    };
    (output, ended)
}

/// Runs a server with one client, and asserts the replies, the output and the counts.
fn assert_way<H: Threads + Wait + Net<Listener = TcpListener, Stream = TcpStream> + Sync + Abort>(
    rt: &H,
    alloc: Global,
    way: Way,
    is_audited: bool,
    wanted: [u64; 5],
) {
    let (gate, host) = (Second::new(), Notes::new());
    let bound = TcpListener::bind(rt, "127.0.0.1:0");
    let listener = bound.ok().expect(rt, "a listener");
    let port = port_of(rt, &listener);
    let ((written, ended), answered) = thread::join(
        rt,
        || service(rt, alloc, &listener, way, is_audited, &gate, &host),
        || client(rt, alloc, port, ASKED),
    );
    let answered = answered.ok().expect(rt, "answers");
    assert!(rt; ended.is_ok() && answered.as_slice() == ANSWERED);
    assert!(rt; written.as_slice() == b"accepted 7 inserted 4 deleted 0 held 4\n".as_slice());
    let counts = [
        gate.asked.load(Ordering::SeqCst),
        gate.entries.load(Ordering::SeqCst),
        host.checkpoints.load(Ordering::SeqCst),
        host.sessions.load(Ordering::SeqCst),
        host.cut_off.load(Ordering::SeqCst),
    ];
    assert!(rt; counts == wanted);
}

/// With and without an audit, each command calls the server's own gate twice and uses the server's policy, and the
/// one automatic checkpoint is reported to the gate, and to a host that asks for it.
#[test]
fn a_server_asks_its_gate_and_notifies_its_host(rt: HostRuntime) {
    'ways: for place in 0..WAYS.len() {
        let (way, wanted) = WAYS[place];
        assert_way(&rt, rt.alloc(), way, false, wanted);
        assert_way(&rt, rt.alloc(), way, true, wanted);
    }
}

/// Asserts that a server is refused with `StrangeReceipt` at a position if a worker isn't gathered, and writes nothing.
fn assert_late<H: Threads + Wait + Net<Listener = TcpListener, Stream = TcpStream> + Sync + Abort>(
    rt: &H,
    alloc: Global,
    is_audited: bool,
    position: u64,
) {
    let (gate, host) = (Second::new(), Notes::new());
    let bound = TcpListener::bind(rt, "127.0.0.1:0");
    let listener = bound.ok().expect(rt, "a listener");
    let way = Way::Late;
    let (written, ended) = service(rt, alloc, &listener, way, is_audited, &gate, &host);
    let strange = Refusal::StrangeReceipt { part: 0, position };
    assert!(rt; ended == Err(strange) && written.is_empty());
}

/// The audit at a server's end finds the second of two entries, which no receipt names, and the totals aren't
/// written. Without an audit the comparison of counts finds a worker that counted none.
#[test]
fn an_entry_without_a_receipt_refuses_an_audited_server(rt: HostRuntime) {
    assert_late(&rt, rt.alloc(), true, 1);
    assert_late(&rt, rt.alloc(), false, 0);
}
