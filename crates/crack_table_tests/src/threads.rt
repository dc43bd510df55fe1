//! Workers on threads of their own.
ghost use Rattle.std.specs.Prelude.{◌≡◌};
ghost use Rattle.crack_witness.specs.Witnesses.{AreNames};

use crate::gates::{Alone, Listing, Meeting, Visitors};
use crate::trials::{Opening, opened};
use crate::values::{GREATEST, ONE, TWO, ask, assert_totals, give_back, insert};
use crack_row::{BoundNumber, Command, KeyRange, Layout, Limits, Refusal, Reply};
use crack_table::{Gate, OpenGate, Table, UnnamedTable};
use crack_witness::{Naming, Worker};
use std::alloc::Global;
use std::marker::Brand;
use std::process::Abort;
use std::sync::Wait;
use std::sync::atomic::Ordering;
use std::thread;
use std::thread::Threads;

/// How many rows each worker inserts whose gate lists it.
const ROWS: u32 = 2500;

/// What each worker of a table does.
#[derive(Clone, Copy)]
enum Work {
    /// One insert into the partition of the worker's number, with a gate that lets each partition's worker in once
    /// the other partition's is.
    Meet,
    /// One insert into partition 0, with a gate that records whether two workers are inside.
    Enter,
    /// `ROWS` inserts into partition 0, with a gate that lists the worker.
    BeListed,
    /// Ten counts of partition 0.
    Count,
    /// 1000 inserts and 250 deletes in two partitions, and a count, with a gate that lists the worker.
    Change { has_checkpoints: bool },
}

/// What the workers of a table do, each on its own thread, and the outcome.
#[derive(Clone, Copy)]
struct Case {
    name: &'static str,
    splits: &'static [BoundNumber],
    history: u64,
    workers: u64,
    work: Work,
    /// How many of all answers are as expected, counted in two ways that each kind of work defines.
    counted: [u32; 2],
    /// How often workers were let in by gates that list them.
    listed: u32,
    totals: [u64; 4],
}

const CASES: &[Case] = &[
    // If the partitions were asked one after the other, or under one lock, the threads would never both be inside,
    // and would be refused with `GateGaveUp`.
    Case {
        name: "two partitions at once",
        splits: TWO,
        history: 10,
        workers: 2,
        work: Work::Meet,
        counted: [2, 2],
        listed: 0,
        totals: [2, 2, 0, 2],
    },
    // If the gate were asked before the partition's lock is taken, both threads would be inside.
    Case {
        name: "one partition lets one inside",
        splits: ONE,
        history: 10,
        workers: 2,
        work: Work::Enter,
        counted: [2, 1],
        listed: 0,
        totals: [2, 2, 0, 2],
    },
    // If the lock were released between the gate's consent and the command, another worker would be listed at some
    // row's place. If the gate were asked twice for a command, there would be more visitors than rows.
    Case {
        name: "each command is let in once and follows at once",
        splits: ONE,
        history: 1000000,
        workers: 4,
        work: Work::BeListed,
        counted: [10000, 0],
        listed: 10000,
        totals: [10000, 10000, 0, 10000],
    },
    // If the history were checked for room before the lock is taken, more commands would be answered than it has
    // room for.
    Case {
        name: "four workers fill one history",
        splits: ONE,
        history: 10,
        workers: 4,
        work: Work::Count,
        counted: [10, 30],
        listed: 0,
        totals: [10, 0, 0, 0],
    },
    // The totals are the same if checkpoints are made during the work.
    Case {
        name: "four workers come to one account",
        splits: TWO,
        history: 1000000,
        workers: 4,
        work: Work::Change {
            has_checkpoints: false,
        },
        counted: [4, 0],
        listed: 5004,
        totals: [5004, 4000, 1000, 3000],
    },
    Case {
        name: "four workers come to one account over checkpoints",
        splits: TWO,
        history: 1000000,
        workers: 4,
        work: Work::Change {
            has_checkpoints: true,
        },
        counted: [4, 0],
        listed: 5004,
        totals: [5004, 4000, 1000, 3000],
    },
];

/// The gates of a table. Each kind of work uses one of them, or none.
#[derive(Drop)]
struct Gates {
    meeting: Meeting,
    alone: Alone,
    visitors: Visitors,
}

/// Inserts a key after asking a gate. Counts whether a row was inserted, and whether it was the first.
fn enter<J: Naming, R: Wait, G: Gate>(
    rt: &R,
    worker: &mut Worker<J>,
    table: &Table<J>,
    gate: &G,
    part: u32,
    key: u32,
) -> [u32; 2] {
    match ask(rt, worker, table, gate, part, insert(key)) {
        Ok(Reply::Placed(serial)) => [1, u32::from(serial.0 == 0)],
        _ => [0, 0],
    }
}

/// Inserts `ROWS` rows into partition 0, with a gate that lists the worker. Counts the rows for which this worker is
/// listed at the row's place in the history, which is its serial.
fn be_listed<J: Naming, R: Wait>(
    rt: &R,
    worker: &mut Worker<J>,
    table: &Table<J>,
    visitors: &Visitors,
) -> [u32; 2] {
    let own = worker.number();
    let gate = Listing {
        worker: own,
        visitors,
    };
    let mut placed = 0u32;
    'rows: for key in 0..ROWS {
        let reply = ask(rt, worker, table, &gate, 0, insert(key));
        let listed = matches!(reply, Ok(Reply::Placed(serial)) if visitors.has(serial.0, own));
        placed = placed.wrapping_add(u32::from(listed));
    }
    [placed, 0]
}

/// Asks for ten counts. Returns how many were answered, and how many were refused because the history has ten
/// entries.
fn count_ten_times<J: Naming, R: Wait>(
    rt: &R,
    worker: &mut Worker<J>,
    table: &Table<J>,
) -> [u32; 2] {
    let [mut answered, mut refused] = [0u32, 0u32];
    'counts: for _ in 0..10u32 {
        match ask(
            rt,
            worker,
            table,
            &OpenGate,
            0,
            Command::Count(KeyRange::all()),
        ) {
            Ok(Reply::Counted(0)) => answered = answered.wrapping_add(1),
            Err(Refusal::HistoryFull { length: 10 }) => refused = refused.wrapping_add(1),
            _ => {}
        }
    }
    [answered, refused]
}

/// Inserts the worker's key with this number, into the partitions in turn, and deletes each fourth row again.
fn insert_one<J: Naming, R: Wait, G: Gate>(
    rt: &R,
    worker: &mut Worker<J>,
    table: &Table<J>,
    gate: &G,
    own: u16,
    number: u16,
) -> bool {
    let part = u32::from(number % 2);
    let key = part * 1000000 + u32::from(own) + u32::from(number);
    let placed = ask(rt, worker, table, gate, part, insert(key));
    let Ok(Reply::Placed(serial)) = placed else {
        return false;
    };
    if number % 4 != 3 {
        return true;
    }
    let delete = Command::Delete { serial };
    let gone = ask(rt, worker, table, gate, part, delete);
    matches!(gone, Ok(Reply::Gone(_)))
}

/// Whether the layout is that of partition 0, and has at least as many rows as one worker has there.
fn shows_own_rows(layout: &Layout) -> bool {
    let pieces = layout.pieces.as_slice();
    match (pieces.first(), pieces.last()) {
        (Some(first), Some(last)) => {
            first.low.number() == 0 && last.high.number() == TWO[0] && layout.rows >= 500
        }
        _ => false,
    }
}

/// Whether the worker sees its own rows in partition 0: by a layout, and by a count of a key that only it inserted,
/// once.
fn sees_own_rows<J: Naming, R: Wait, G: Gate>(
    rt: &R,
    worker: &mut Worker<J>,
    table: &Table<J>,
    gate: &G,
    own: u16,
) -> bool {
    let shown = match table.layout(rt, 0) {
        Ok(layout) => shows_own_rows(&layout),
        Err(_) => false,
    };
    let low = BoundNumber::from(own);
    let Ok(range) = KeyRange::new(low, low + 1) else {
        return false;
    };
    let counted = ask(rt, worker, table, gate, 0, Command::Count(range));
    shown && matches!(counted, Ok(Reply::Counted(1)))
}

/// Makes 1000 inserts and 250 deletes of one worker. Counts whether each was answered, and whether the worker sees
/// its own rows then, and has a reply to each command. With checkpoints, worker 0 makes one of each partition in the
/// middle of each hundred of its rows.
fn change<J: Naming, R: Wait>(
    rt: &R,
    worker: &mut Worker<J>,
    table: &Table<J>,
    visitors: &Visitors,
    has_checkpoints: bool,
) -> [u32; 2] {
    let gate = Listing {
        worker: worker.number(),
        visitors,
    };
    let own = (worker.number() % 64) as u16 * 1000;
    let mut fine = true;
    'rows: for number in 0..1000u16 {
        if has_checkpoints && own == 0 && number % 100 == 50 {
            let first = table.checkpoint(rt, 0).is_ok();
            fine = table.checkpoint(rt, 1).is_ok() && first && fine;
        }
        fine = insert_one(rt, worker, table, &gate, own, number) && fine;
    }
    let seen = sees_own_rows(rt, worker, table, &gate, own);
    [u32::from(fine && seen && worker.replies() == 1251), 0]
}

/// Has a worker do its work. Returns the worker, and how many of its answers were as expected.
fn done_by<J: Naming, R: Wait>(
    rt: &R,
    mut worker: Worker<J>,
    table: &Table<J>,
    gates: &Gates,
    work: Work,
) -> (Worker<J>, [u32; 2]) {
    let own = worker.number() % 2;
    let counted = match work {
        Work::Meet => enter(
            rt,
            &mut worker,
            table,
            &gates.meeting,
            own,
            own * 1000000 + 50,
        ),
        Work::Enter => enter(rt, &mut worker, table, &gates.alone, 0, own * 10 + 50),
        Work::BeListed => be_listed(rt, &mut worker, table, &gates.visitors),
        Work::Count => count_ten_times(rt, &mut worker, table),
        Work::Change { has_checkpoints } => {
            change(rt, &mut worker, table, &gates.visitors, has_checkpoints)
        }
    };
    (worker, counted)
}

/// The workers that have finished, and the sums of their counts.
fn all_counted<J: Naming>(
    rt: &impl Abort,
    alloc: Global,
    done: Vec<(Worker<J>, [u32; 2])>,
) -> (Vec<Worker<J>>, [u32; 2]) {
    let mut workers = Vec::new(alloc);
    let [mut ones, mut twos] = [0u32, 0u32];
    'done: for (worker, [one, two]) in done {
        ones = ones.wrapping_add(one);
        twos = twos.wrapping_add(two);
        give_back(rt, &mut workers, worker);
    }
    (workers, [ones, twos])
}

/// Has the workers of a case do their work, each on its own thread, and gathers them.
fn assert_case<J: Naming + Send + Sync, R: Threads + Wait + Sync + Abort>(
    rt: &R,
    alloc: Global,
    case: Case,
    table: Table<J>,
    workers: Vec<Worker<J>>,
) {
    let gates = Gates {
        meeting: Meeting::new(),
        alone: Alone::new(),
        visitors: Visitors::new(alloc, 4 * ROWS).expect(rt, "memory"),
    };
    let (shared, passed) = (&table, &gates);
    let done = thread::map_vec(
        rt,
        workers,
        &|worker| { done_by(rt, worker, shared, passed, case.work) },
    );
    let (workers, counted) = all_counted(rt, alloc, done.expect(rt, "threads"));
    let has_met = gates.alone.met.load(Ordering::SeqCst);
    let listed = gates.visitors.entered.load(Ordering::SeqCst);
    drop(gates);
    assert!(rt;
        counted == case.counted && listed == case.listed && !has_met,
        "{}",
        case.name
    );
    assert_totals(rt, alloc, table, workers, case.totals);
}

/// Names the table's book `J`, opens the table, and asserts the same.
fn assert_named<J: Naming + Send + Sync, R: Threads + Wait + Sync + Abort>(
    rt: &R,
    alloc: Global,
    case: Case,
    table: UnnamedTable,
)
    requires { AreNames J.book J.owner table.opened }
{
    let (table, workers) = table.named::<J>(alloc).expect(rt, "names");
    assert_case(rt, alloc, case, table, workers);
}

/// The same at a new table, with an audit or without.
fn assert_opened<R: Threads + Wait + Sync + Abort>(
    rt: &R,
    alloc: Global,
    case: Case,
    is_audited: bool,
) {
    let limits = Limits {
        history: case.history,
        ..GREATEST
    };
    let opening = Opening {
        splits: case.splits,
        limits,
        workers: case.workers,
    };
    let table = opened(rt, alloc, opening, is_audited).expect(rt, "a table");
    assert_named::<Brand, R>(rt, alloc, case, table);
}

#[test]
fn workers_on_threads_come_to_one_account(rt: HostRuntime) {
    'cases: for place in 0..CASES.len() {
        assert_opened(&rt, rt.alloc(), CASES[place], false);
        assert_opened(&rt, rt.alloc(), CASES[place], true);
    }
}
