//! Tables and workers on one thread: gates that refuse, and openings.
use crate::gates::Shut;
use crate::script::{Script, assert_answer, assert_answers};
use crate::trials::{Opening, Trial, run_both};
use crate::values::{FOUR, GREATEST, ONE, TEN, TWO, assert_totals, bounds, give_back};
use crack_row::{BoundNumber, Limits, Refusal};
use crack_table::{Table, UnnamedTable};
use crack_witness::{Naming, Worker};
use std::alloc::Global;
use std::process::Abort;
use std::sync::Wait;
use std::sync::atomic::Ordering;

/// A partition, and a statement to it that a shut gate refuses.
#[derive(Clone, Copy)]
struct AtShut {
    part: u32,
    script: Script,
}

/// The splits of a table, and what it is asked.
const SHUT: &[(&[BoundNumber], AtShut)] = &[
    (
        ONE,
        AtShut {
            part: 0,
            script: &[(0, 0, "count 7 8", "refused 7")],
        },
    ),
    (
        TWO,
        AtShut {
            part: 1,
            script: &[(0, 1, "insert 1000007 1", "refused 7")],
        },
    ),
];

impl Trial for AtShut {
    fn run<J: Naming, R: Wait + Abort>(
        self,
        rt: &R,
        alloc: Global,
        table: Table<J>,
        workers: Vec<Worker<J>>,
    ) {
        let mut workers = workers;
        let gate = Shut::new(Some(self.part));
        assert_answers(rt, &mut workers, &table, &gate, "shut", self.script);
        assert!(rt;
            gate.asked.load(Ordering::SeqCst) == 1000 && gate.is_orderly.load(Ordering::SeqCst)
        );
        assert_totals(rt, alloc, table, workers, [0, 0, 0, 0]);
    }
}

#[test]
fn a_shut_gate_is_asked_at_a_thousand_turns_in_order(rt: HostRuntime) {
    'cases: for place in 0..SHUT.len() {
        let (splits, trial) = SHUT[place];
        let opening = Opening {
            splits,
            limits: TEN,
            workers: 1,
        };
        run_both(&rt, rt.alloc(), opening, trial);
    }
}

/// A worker counts each of four partitions while the gate is shut at each of them in turn.
#[derive(Clone, Copy)]
struct InTurn;

impl Trial for InTurn {
    fn run<J: Naming, R: Wait + Abort>(
        self,
        rt: &R,
        alloc: Global,
        table: Table<J>,
        workers: Vec<Worker<J>>,
    ) {
        let mut workers = workers;
        let mut worker = workers.pop().expect(rt, "a worker");
        'turns: for turn in 0..16u32 {
            let (part, shut) = (turn % 4, turn / 4);
            let wanted = if part == shut { "refused 7" } else { "count 0" };
            let gate = Shut::new(Some(shut));
            let line = "count 0 18446744073709551616";
            assert_answer(rt, &mut worker, &table, &gate, part, "shut", line, wanted);
        }
        give_back(rt, &mut workers, worker);
        assert_totals(rt, alloc, table, workers, [12, 0, 0, 0]);
    }
}

/// A gate that refuses at one partition keeps no worker out of another.
#[test]
fn a_gate_shut_at_one_partition_refuses_it_alone(rt: HostRuntime) {
    let limits = Limits {
        history: 100,
        ..GREATEST
    };
    let opening = Opening {
        splits: FOUR,
        limits,
        workers: 1,
    };
    run_both(&rt, rt.alloc(), opening, InTurn);
}

/// Openings, and the first refusal of each.
const OPENINGS: &[(&[BoundNumber], u64, u64, Option<Refusal>)] = &[
    (&[5, 5], 0, 0, Some(Refusal::BadSplits)),
    (TWO, 0, 0, Some(Refusal::BadWorkerCount)),
    (TWO, 0, 65, Some(Refusal::BadWorkerCount)),
    (TWO, 0, 64, Some(Refusal::BadLimit)),
    (TWO, 1, 64, None),
];

/// Why the opening of a table is refused, if it is. It has no contract, so that no test carries that of `open`.
fn refused(
    rt: &impl Abort,
    alloc: Global,
    splits: &[BoundNumber],
    limit: u64,
    workers: u64,
    is_audited: bool,
) -> Option<Refusal> {
    let splits = bounds(rt, alloc, splits);
    let limits = Limits::of_history(limit);
    UnnamedTable::open(alloc, &splits, limits, workers, is_audited).err()
}

#[test]
fn openings_are_refused_in_order(rt: HostRuntime) {
    let alloc: Global = rt.alloc();
    'openings: for place in 0..OPENINGS.len() {
        let (splits, limit, workers, refusal) = OPENINGS[place];
        let refusals = [
            refused(&rt, alloc, splits, limit, workers, false),
            refused(&rt, alloc, splits, limit, workers, true),
        ];
        assert!(rt; refusals == [refusal, refusal]);
    }
}
