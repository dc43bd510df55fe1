//! The answers to workers under small limits, with checkpoints between their commands.
use crate::gates::Due;
use crate::script::{Script, assert_answers};
use crate::trials::{Opening, Trial, run_both};
use crate::values::{FOUR, GREATEST, ONE, TEN, TWO, assert_totals};
use crack_row::{BoundNumber, Limits, Upkeep};
use crack_table::{OpenGate, Table};
use crack_witness::{Naming, Worker};
use std::alloc::Global;
use std::process::Abort;
use std::sync::Wait;
use std::sync::atomic::Ordering;

/// The answers that the workers of a new table get, and the table's totals when they are gathered, the last worker
/// first.
#[derive(Clone, Copy)]
struct Case {
    name: &'static str,
    splits: &'static [BoundNumber],
    limits: Limits,
    workers: u64,
    script: Script,
    totals: [u64; 4],
}

/// Full histories, and what a layout leaves unchanged.
const FULL: &[Case] = &[
    Case {
        name: "a full history goes on after a checkpoint",
        splits: ONE,
        limits: Limits {
            history: 2,
            ..GREATEST
        },
        workers: 1,
        script: &[
            (0, 0, "insert 1 1", "row 0.0"),
            (0, 0, "insert 2 2", "row 0.1"),
            (0, 0, "count 0 18446744073709551616", "refused 6 2"),
            (0, 0, "checkpoint 0", "folded 2"),
            (0, 0, "count 0 18446744073709551616", "count 2"),
            (0, 0, "insert 3 3", "row 0.2"),
            (0, 0, "insert 4 4", "refused 6 2"),
            (0, 0, "checkpoint 0", "folded 2"),
            (0, 0, "checkpoint 0", "folded 0"),
            (0, 0, "delete 0.0", "gone 1 1"),
            (0, 1, "checkpoint 1", "refused 5"),
        ],
        totals: [5, 3, 1, 2],
    },
    // A layout makes no checkpoint: the first checkpoint after it counts all entries, and the second one none.
    Case {
        name: "a layout makes no checkpoint",
        splits: ONE,
        limits: GREATEST,
        workers: 1,
        script: &[
            (0, 0, "insert 1 1", "row 0.0"),
            (0, 0, "count 0 18446744073709551616", "count 1"),
            (
                0,
                0,
                "layout 0",
                "layout 0 rows 1 column 1 out 0 in 0 cells 1 free 0 pieces 1\npiece 0 18446744073709551616 1",
            ),
            (0, 0, "checkpoint 0", "folded 2"),
            (0, 0, "checkpoint 0", "folded 0"),
        ],
        totals: [2, 1, 0, 1],
    },
];

/// Refusals: no free cell, the end of a life, no such partition, another partition's key, a full history.
const REFUSED: &[Case] = &[
    Case {
        name: "a worker is refused where no cell is free",
        splits: ONE,
        limits: Limits {
            cells: 2,
            ..GREATEST
        },
        workers: 1,
        script: &[
            (0, 0, "insert 1 1", "row 0.0"),
            (0, 0, "insert 2 2", "row 0.1"),
            (0, 0, "insert 3 3", "refused 9"),
            (0, 0, "count 0 18446744073709551616", "count 2"),
            (0, 0, "delete 0.0", "gone 1 1"),
            (0, 0, "insert 3 3", "refused 9"),
            (0, 0, "count 0 18446744073709551616", "count 1"),
            (0, 0, "insert 3 3", "row 0.2"),
            (0, 0, "update 0.1 2 9", "refused 9"),
            (0, 0, "update 0.2 4 4", "changed"),
        ],
        totals: [7, 3, 1, 2],
    },
    // A checkpoint doesn't extend a partition's life.
    Case {
        name: "a worker is refused where the life is over",
        splits: ONE,
        limits: Limits {
            life: 3,
            ..GREATEST
        },
        workers: 1,
        script: &[
            (0, 0, "insert 1 1", "row 0.0"),
            (0, 0, "count 0 9", "count 1"),
            (0, 0, "checkpoint 0", "folded 2"),
            (0, 0, "count 0 9", "count 1"),
            (0, 0, "count 0 9", "refused 10"),
        ],
        totals: [3, 1, 0, 1],
    },
    // A layout isn't recorded, so a full history refuses none.
    Case {
        name: "a worker is refused as its partition is",
        splits: TWO,
        limits: Limits {
            history: 1,
            ..GREATEST
        },
        workers: 1,
        script: &[
            (0, 2, "insert 7 1", "refused 5"),
            (0, 1, "insert 7 1", "refused 4"),
            (0, 0, "insert 7 1", "row 0.0"),
            (0, 0, "insert 7 1", "refused 6 1"),
            (
                0,
                0,
                "layout 0",
                "layout 0 rows 1 column 0 out 0 in 1 cells 1 free 0 pieces 1\npiece 0 1000000 0",
            ),
        ],
        totals: [1, 1, 0, 1],
    },
];

/// Checkpoints by one of several workers, and of one of several partitions.
const CHECKPOINTS: &[Case] = &[
    // One of two workers makes a checkpoint of both workers' commands, and the other goes on: receipts keep their
    // positions.
    Case {
        name: "a checkpoint is made for all workers",
        splits: ONE,
        limits: TEN,
        workers: 2,
        script: &[
            (0, 0, "insert 1 1", "row 0.0"),
            (1, 0, "insert 2 1", "row 0.1"),
            (0, 0, "checkpoint 0", "folded 2"),
            (1, 0, "insert 3 1", "row 0.2"),
        ],
        totals: [3, 3, 0, 3],
    },
    Case {
        name: "layouts and checkpoints are of the partition that they name",
        splits: TWO,
        limits: TEN,
        workers: 1,
        script: &[
            (0, 0, "insert 7 1", "row 0.0"),
            (0, 1, "insert 1000007 1", "row 1.0"),
            (0, 1, "insert 1000008 1", "row 1.1"),
            (
                0,
                0,
                "layout 0",
                "layout 0 rows 1 column 0 out 0 in 1 cells 1 free 0 pieces 1\npiece 0 1000000 0",
            ),
            (
                0,
                0,
                "layout 1",
                "layout 1 rows 2 column 0 out 0 in 2 cells 2 free 0 pieces 1\npiece 1000000 18446744073709551616 0",
            ),
            (0, 0, "layout 2", "refused 5"),
            (0, 0, "checkpoint 1", "folded 2"),
            (0, 0, "checkpoint 1", "folded 0"),
            (0, 0, "checkpoint 0", "folded 1"),
            (0, 0, "checkpoint 2", "refused 5"),
        ],
        totals: [3, 3, 0, 3],
    },
    // A checkpoint is only of the partition that it names: each partition counts its own entries, in any order of
    // the checkpoints.
    Case {
        name: "a checkpoint is of its own partition alone",
        splits: FOUR,
        limits: TEN,
        workers: 1,
        script: &[
            (0, 0, "insert 0 1", "row 0.0"),
            (0, 1, "insert 100 1", "row 1.0"),
            (0, 1, "insert 101 1", "row 1.1"),
            (0, 2, "insert 200 1", "row 2.0"),
            (0, 2, "insert 201 1", "row 2.1"),
            (0, 2, "insert 202 1", "row 2.2"),
            (0, 3, "insert 300 1", "row 3.0"),
            (0, 3, "insert 301 1", "row 3.1"),
            (0, 3, "insert 302 1", "row 3.2"),
            (0, 3, "insert 303 1", "row 3.3"),
            (0, 2, "checkpoint 2", "folded 3"),
            (0, 0, "checkpoint 0", "folded 1"),
            (0, 3, "checkpoint 3", "folded 4"),
            (0, 1, "checkpoint 1", "folded 2"),
        ],
        totals: [10, 10, 0, 10],
    },
];

impl Trial for Case {
    fn run<J: Naming, R: Wait + Abort>(
        self,
        rt: &R,
        alloc: Global,
        table: Table<J>,
        workers: Vec<Worker<J>>,
    ) {
        let mut workers = workers;
        assert_answers(rt, &mut workers, &table, &OpenGate, self.name, self.script);
        workers.reverse();
        assert_totals(rt, alloc, table, workers, self.totals);
    }
}

/// Asserts the answers of a case.
fn assert_case<R: Wait + Abort>(rt: &R, alloc: Global, case: Case) {
    let opening = Opening {
        splits: case.splits,
        limits: case.limits,
        workers: case.workers,
    };
    run_both(rt, alloc, opening, case);
}

#[test]
fn a_history_is_full_until_a_checkpoint(rt: HostRuntime) {
    'cases: for place in 0..FULL.len() {
        assert_case(&rt, rt.alloc(), FULL[place]);
    }
}

#[test]
fn workers_are_refused_within_limits(rt: HostRuntime) {
    'cases: for place in 0..REFUSED.len() {
        assert_case(&rt, rt.alloc(), REFUSED[place]);
    }
}

#[test]
fn a_checkpoint_is_of_one_partition_for_all_workers(rt: HostRuntime) {
    'cases: for place in 0..CHECKPOINTS.len() {
        assert_case(&rt, rt.alloc(), CHECKPOINTS[place]);
    }
}

/// Commands that find checkpoints due, and a checkpoint on request. With each script, the number of checkpoints that
/// the gate has noted after it, and of their entries.
const NOTED: &[(Script, [u64; 2])] = &[
    (
        &[
            (0, 1, "insert 1000000 1", "row 1.0"),
            (0, 1, "insert 1000000 1", "row 1.1"),
            (0, 1, "insert 1000000 1", "row 1.2"),
        ],
        [0, 0],
    ),
    (
        &[
            (0, 1, "insert 1000000 1", "row 1.3"),
            (0, 1, "insert 1000000 1", "row 1.4"),
            (0, 1, "insert 1000000 1", "row 1.5"),
            (0, 1, "insert 1000000 1", "row 1.6"),
        ],
        [2, 6],
    ),
    (&[(0, 1, "checkpoint 1", "folded 1")], [2, 6]),
];

/// One worker, whose gate counts the checkpoints that were due.
#[derive(Clone, Copy)]
struct Noted;

impl Trial for Noted {
    fn run<J: Naming, R: Wait + Abort>(
        self,
        rt: &R,
        alloc: Global,
        table: Table<J>,
        workers: Vec<Worker<J>>,
    ) {
        let mut workers = workers;
        let gate = Due::new();
        'scripts: for place in 0..NOTED.len() {
            let (script, noted) = NOTED[place];
            assert_answers(rt, &mut workers, &table, &gate, "due", script);
            assert!(rt; gate.counts() == noted);
        }
        assert!(rt; gate.part.load(Ordering::SeqCst) == 1);
        assert_totals(rt, alloc, table, workers, [7, 7, 0, 7]);
    }
}

/// A checkpoint that is due is noted once, with its partition and the length of its history; one on request isn't.
#[test]
fn a_checkpoint_that_is_due_is_noted(rt: HostRuntime) {
    let limits = Limits {
        history: 3,
        upkeep: Upkeep::Automatic,
        ..GREATEST
    };
    let opening = Opening {
        splits: TWO,
        limits,
        workers: 1,
    };
    run_both(&rt, rt.alloc(), opening, Noted);
}
