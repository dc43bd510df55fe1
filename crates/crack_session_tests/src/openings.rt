//! Refused openings of partitions and of cores.
use crate::session::bounds_of;
use crack_core::Core;
use crack_part::Partition;
use crack_row::{
    Bound, BoundNumber, GREATEST_BOUND, GREATEST_CELLS, GREATEST_LIFE, GREATEST_LIMIT, KeyRange,
    Limits, Refusal, Upkeep,
};
use std::alloc::Global;
use std::process::Abort;

/// Splits, limits of the history, the cells and the life, and the expected refusals: of a core with all limits, of a
/// core with the history limit alone, and of a partition with the history limit.
#[derive(Clone, Copy)]
struct Case {
    splits: &'static [BoundNumber],
    limits: [u64; 3],
    wanted: [Option<Refusal>; 3],
}

const CASES: &[Case] = &[
    Case {
        splits: &[100, 100],
        limits: [0, GREATEST_CELLS, GREATEST_LIFE],
        wanted: [
            Some(Refusal::BadSplits),
            Some(Refusal::BadSplits),
            Some(Refusal::BadLimit),
        ],
    },
    Case {
        splits: &[0],
        limits: [1, GREATEST_CELLS, GREATEST_LIFE],
        wanted: [Some(Refusal::BadSplits), Some(Refusal::BadSplits), None],
    },
    Case {
        splits: &[GREATEST_BOUND],
        limits: [1, GREATEST_CELLS, GREATEST_LIFE],
        wanted: [Some(Refusal::BadSplits), Some(Refusal::BadSplits), None],
    },
    Case {
        splits: &[GREATEST_BOUND - 1],
        limits: [0, GREATEST_CELLS, GREATEST_LIFE],
        wanted: [
            Some(Refusal::BadLimit),
            Some(Refusal::BadLimit),
            Some(Refusal::BadLimit),
        ],
    },
    Case {
        splits: &[
            1, 2, 3, 4, 5, 6, 7, 8, 9, 10, 11, 12, 13, 14, 15, 16, 17, 18, 19, 20, 21, 22, 23, 24,
            25, 26, 27, 28, 29, 30, 31, 32, 33, 34, 35, 36, 37, 38, 39, 40, 41, 42, 43, 44, 45, 46,
            47, 48, 49, 50, 51, 52, 53, 54, 55, 56, 57, 58, 59, 60, 61, 62, 63, 64,
        ],
        limits: [0, GREATEST_CELLS, GREATEST_LIFE],
        wanted: [
            Some(Refusal::TooManyPartitions),
            Some(Refusal::TooManyPartitions),
            Some(Refusal::BadLimit),
        ],
    },
    Case {
        splits: &[],
        limits: [0, GREATEST_CELLS, GREATEST_LIFE],
        wanted: [
            Some(Refusal::BadLimit),
            Some(Refusal::BadLimit),
            Some(Refusal::BadLimit),
        ],
    },
    Case {
        splits: &[],
        limits: [GREATEST_LIMIT + 1, GREATEST_CELLS, GREATEST_LIFE],
        wanted: [
            Some(Refusal::BadLimit),
            Some(Refusal::BadLimit),
            Some(Refusal::BadLimit),
        ],
    },
    Case {
        splits: &[],
        limits: [GREATEST_LIMIT, 0, GREATEST_LIFE],
        wanted: [Some(Refusal::BadLimit), None, None],
    },
    Case {
        splits: &[],
        limits: [GREATEST_LIMIT, GREATEST_CELLS + 1, GREATEST_LIFE],
        wanted: [Some(Refusal::BadLimit), None, None],
    },
    Case {
        splits: &[],
        limits: [GREATEST_LIMIT, GREATEST_CELLS, 0],
        wanted: [Some(Refusal::BadLimit), None, None],
    },
    Case {
        splits: &[],
        limits: [GREATEST_LIMIT, GREATEST_CELLS, GREATEST_LIFE + 1],
        wanted: [Some(Refusal::BadLimit), None, None],
    },
];

/// The refusals of the three openings, if they are refused.
fn refused(alloc: Global, splits: &[Bound], limits: Limits) -> [Option<Refusal>; 3] {
    [
        Core::open_with(alloc, splits, limits).err(),
        Core::open(alloc, splits, limits.history).err(),
        Partition::open(alloc, KeyRange::all(), limits.history).err(),
    ]
}

/// Asserts the refusals of the three openings.
fn assert_refused(rt: &impl Abort, alloc: Global, case: Case) {
    let splits = bounds_of(rt, alloc, case.splits);
    let [history, cells, life] = case.limits;
    let limits = Limits {
        history,
        cells,
        life,
        upkeep: Upkeep::OnRequest,
    };
    assert_eq!(rt; refused(alloc, &splits, limits), case.wanted);
}

#[test]
fn openings_are_refused(rt: HostRuntime) {
    'cases: for place in 0..CASES.len() {
        assert_refused(&rt, rt.alloc(), CASES[place]);
    }
}
