//! Gatherings that are refused, and those after them. A second worker with the number of one of the table's may have
//! asked, too.
ghost use Rattle.std.specs.Prelude.{◌≡◌, ℕ, Some, slice_get};
ghost use Rattle.crack_witness.specs.Histories.{AreEmpty};
ghost use Rattle.crack_witness.specs.Witnesses.{WorkerState};

use crate::script::{Script, assert_answers};
use crate::trials::{Opening, Trial, run_at};
use crate::values::{ONE, TEN, TWO, give_back, totals_in};
use crack_row::{BoundNumber, Refusal};
use crack_table::{GatherRefused, OpenGate, Table, gather};
use crack_witness::{Naming, Worker};
use std::alloc::Global;
use std::process::Abort;
use std::sync::Wait;

/// A refused gathering, and another one after it.
#[derive(Clone, Copy)]
struct Case {
    name: &'static str,
    splits: &'static [BoundNumber],
    /// How many workers the table has.
    workers: u64,
    /// The number of a second worker with this number, if there is one. It comes after the table's workers.
    twin: Option<u32>,
    /// The answers that the workers get before the first gathering.
    before: Script,
    /// The index of the worker that is missing from the first gathering, if one is. Later it comes last.
    first_lacks: Option<usize>,
    /// The refusals of the first gathering: without an audit, and with one.
    refusals: [Refusal; 2],
    /// The answers that the workers get before the second gathering.
    after: Script,
    /// The index of the worker that is missing from the second gathering, if one is.
    second_lacks: Option<usize>,
    /// The totals of the second gathering, or its refusal.
    end: Result<[u64; 4], Refusal>,
}

/// The refusals of a gathering from which worker 1 is missing.
const MISSING: [Refusal; 2] = [Refusal::WorkersMissing { missing: 2 }; 2];

/// The refusal at the first place of partition 0.
const FIRST: Refusal = Refusal::StrangeReceipt {
    part: 0,
    position: 0,
};

/// The refusal at the second place of partition 0.
const SECOND: Refusal = Refusal::StrangeReceipt {
    part: 0,
    position: 1,
};

/// The refusal at the first place of partition 1.
const ELSEWHERE: Refusal = Refusal::StrangeReceipt {
    part: 1,
    position: 0,
};

const CASES: &[Case] = &[
    Case {
        name: "a missing worker is reported and all are handed back",
        splits: TWO,
        workers: 2,
        twin: None,
        before: &[(1, 0, "insert 7 1", "row 0.0")],
        first_lacks: Some(1),
        refusals: MISSING,
        after: &[],
        second_lacks: None,
        end: Ok([1, 1, 0, 1]),
    },
    Case {
        name: "a stranger of the same number is found beside the table's worker",
        splits: ONE,
        workers: 1,
        twin: Some(0),
        before: &[(1, 0, "insert 7 1", "row 0.0")],
        first_lacks: None,
        refusals: [FIRST, FIRST],
        after: &[],
        second_lacks: Some(0),
        end: Ok([1, 1, 0, 1]),
    },
    // The partitions that were taken out are back in their locks, in order: the replies of the table's own worker
    // agree.
    Case {
        name: "a table that a stranger was refused is gathered by its own worker",
        splits: TWO,
        workers: 1,
        twin: Some(0),
        before: &[
            (0, 0, "insert 7 1", "row 0.0"),
            (0, 1, "insert 1000007 1", "row 1.0"),
        ],
        first_lacks: Some(0),
        refusals: [FIRST, FIRST],
        after: &[],
        second_lacks: Some(0),
        end: Ok([2, 2, 0, 2]),
    },
    // Each partition still has its entries, which a later checkpoint counts.
    Case {
        name: "a refused gathering makes no checkpoint",
        splits: TWO,
        workers: 1,
        twin: Some(0),
        before: &[
            (0, 0, "insert 7 1", "row 0.0"),
            (0, 0, "insert 8 1", "row 0.1"),
            (0, 1, "insert 1000007 1", "row 1.0"),
        ],
        first_lacks: Some(0),
        refusals: [FIRST, FIRST],
        after: &[
            (0, 0, "checkpoint 0", "folded 2"),
            (0, 1, "checkpoint 1", "folded 1"),
        ],
        second_lacks: Some(0),
        end: Ok([3, 3, 0, 3]),
    },
    // The table's own worker has asked nothing. The table is then gathered with the stranger.
    Case {
        name: "the entries of a stranger are found",
        splits: TWO,
        workers: 1,
        twin: Some(0),
        before: &[
            (1, 0, "insert 7 1", "row 0.0"),
            (1, 0, "insert 8 1", "row 0.1"),
        ],
        first_lacks: Some(1),
        refusals: [FIRST, FIRST],
        after: &[(0, 0, "checkpoint 0", "folded 2")],
        second_lacks: Some(0),
        end: Ok([2, 2, 0, 2]),
    },
    // Where one of two workers with the same number received a reply, the other is refused with its own count of
    // replies there, and nothing is applied. The table can't be gathered any more.
    Case {
        name: "two workers of one number don't ask one partition",
        splits: TWO,
        workers: 1,
        twin: Some(0),
        before: &[
            (0, 0, "insert 7 1", "row 0.0"),
            (1, 0, "insert 8 1", "refused 16 0 0"),
            (0, 0, "insert 9 1", "row 0.1"),
            (1, 1, "insert 1000007 1", "row 1.0"),
            (0, 1, "insert 1000008 1", "refused 16 1 0"),
        ],
        first_lacks: Some(1),
        refusals: [ELSEWHERE, ELSEWHERE],
        after: &[],
        second_lacks: None,
        end: Err(FIRST),
    },
    // An audit names the place of the entry without a receipt.
    Case {
        name: "an entry of a stranger beside others is found",
        splits: TWO,
        workers: 2,
        twin: Some(1),
        before: &[
            (0, 0, "insert 7 1", "row 0.0"),
            (2, 0, "insert 8 1", "row 0.1"),
        ],
        first_lacks: Some(2),
        refusals: [FIRST, SECOND],
        after: &[],
        second_lacks: Some(1),
        end: Ok([2, 2, 0, 2]),
    },
];

/// A case at a table with or without an audit.
#[derive(Clone, Copy)]
struct Gathering {
    case: Case,
    is_audited: bool,
}

/// A second worker with this number, for a table whose workers have asked nothing yet.
fn twin_of<J: Naming>(
    rt: &impl Abort,
    alloc: Global,
    workers: &Vec<Worker<J>>,
    number: u32,
    is_audited: bool,
) -> Worker<J>
    requires { (place : ℕ) (w : WorkerState) → slice_get workers.now.items place ≡ Some w → AreEmpty w.seen }
{
    let first = workers.first().expect(rt, "a worker");
    let made = Worker::new(alloc, number, first.seen_events().copy(), 2, is_audited);
    made.expect(rt, "a twin")
}

/// Takes a worker out of a list, if one is named by its index.
fn taken<J: Naming>(
    rt: &impl Abort,
    workers: &mut Vec<Worker<J>>,
    place: Option<usize>,
) -> Option<Worker<J>> {
    match place {
        Some(place) => {
            assert!(rt; place < workers.len());
            Some(workers.remove(place))
        }
        None => None,
    }
}

/// Makes a gathering that is refused. Returns the table and all workers.
fn refused<J: Naming>(
    rt: &impl Abort,
    alloc: Global,
    table: Table<J>,
    mut workers: Vec<Worker<J>>,
    lacking: Option<usize>,
    wanted: Refusal,
) -> (Table<J>, Vec<Worker<J>>) {
    let aside = taken(rt, &mut workers, lacking);
    let refused = gather(alloc, table, workers).err().expect(rt, "a refusal");
    let GatherRefused {
        refusal,
        table,
        mut workers,
    } = refused;
    if let Some(worker) = aside {
        give_back(rt, &mut workers, worker);
    }
    assert!(rt; refusal == wanted);
    (table, workers)
}

/// The totals of a gathering, or its refusal.
fn end_of<J: Naming>(
    alloc: Global,
    table: Table<J>,
    workers: Vec<Worker<J>>,
) -> Result<[u64; 4], Refusal> {
    match gather(alloc, table, workers) {
        Ok(gathered) => Ok(totals_in(&gathered)),
        Err(refused) => Err(refused.refusal),
    }
}

/// Makes both gatherings of a case.
fn assert_case<J: Naming, R: Wait + Abort>(
    rt: &R,
    alloc: Global,
    case: Case,
    refusal: Refusal,
    table: Table<J>,
    mut workers: Vec<Worker<J>>,
) {
    let name = case.name;
    assert_answers(rt, &mut workers, &table, &OpenGate, name, case.before);
    let (table, mut workers) = refused(rt, alloc, table, workers, case.first_lacks, refusal);
    assert_answers(rt, &mut workers, &table, &OpenGate, name, case.after);
    drop(taken(rt, &mut workers, case.second_lacks));
    let end = end_of(alloc, table, workers);
    assert!(rt; end == case.end, "{name}");
}

impl Trial for Gathering {
    fn run<J: Naming, R: Wait + Abort>(
        self,
        rt: &R,
        alloc: Global,
        table: Table<J>,
        workers: Vec<Worker<J>>,
    ) {
        let Gathering { case, is_audited } = self;
        let mut workers = workers;
        if let Some(number) = case.twin {
            let twin = twin_of(rt, alloc, &workers, number, is_audited);
            give_back(rt, &mut workers, twin);
        }
        let [without, with] = case.refusals;
        let refusal = if is_audited { with } else { without };
        assert_case(rt, alloc, case, refusal, table, workers);
    }
}

#[test]
fn a_refused_gathering_hands_all_back(rt: HostRuntime) {
    'cases: for place in 0..CASES.len() {
        let case = CASES[place];
        let opening = Opening {
            splits: case.splits,
            limits: TEN,
            workers: case.workers,
        };
        'audits: for is_audited in [false, true] {
            let trial = Gathering { case, is_audited };
            assert!(rt; run_at(&rt, rt.alloc(), opening, is_audited, trial).is_ok());
        }
    }
}
