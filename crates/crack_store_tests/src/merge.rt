//! A merge of pending rows counts them, and the rows that it moved for them.
ghost use Rattle.std.specs.Prelude.{◌<◌, ◌≤◌};
ghost use Rattle.crack_state.specs.Merge.{IsCracked};

use crate::script::{Script, Step, assert_all_keys, assert_script};
use crack_merge::{merge_complete, merge_gradual, merge_ripple};
use crack_row::{BoundNumber, GREATEST_BOUND, KeyRange, Policy};
use crack_store::{MergeReport, Store};
use std::process::Abort;

/// Cracks at the ends of a range.
pub(crate) fn crack_between(rt: &impl Abort, store: &mut Store, range: KeyRange)
    ensures { IsCracked store.new range }
{
    let cracked = store.crack(range);
    assert!(rt; cracked.is_ok());
}

/// Cracks a store of all keys at the ends of a range, and merges for the range by the policy.
pub(crate) fn merge_at(
    rt: &impl Abort,
    store: Store,
    range: KeyRange,
    policy: Policy,
) -> (Store, MergeReport)
    requires some { range.low < range.high }
    requires within { range.high ≤ GREATEST_BOUND }
    ensures cracked { IsCracked result.0 range }
{
    let mut store = store;
    crack_between(rt, &mut store, range);
    assert_all_keys(rt, &store);
    let merged = match policy {
        Policy::Complete => merge_complete(store, range),
        Policy::Gradual => merge_gradual(store, range),
        Policy::Ripple => merge_ripple(store, range),
        Policy::Auto => panic!(rt; "a merge is by one of the other three"),
    };
    match merged {
        Ok(merged) => merged,
        Err(_) => panic!(rt; "no memory"),
    }
}

/// The counts of a report: rows put in, taken out, evicted, moved and pulled.
pub(crate) fn numbers_of(report: MergeReport) -> [u64; 5] {
    [
        report.insertions,
        report.deletions,
        report.evicted,
        report.moved,
        report.pulled,
    ]
}

/// All keys.
const ALL: [BoundNumber; 2] = [0, GREATEST_BOUND];

/// The column has the keys 10, 20 and 30, and is cracked at 15 and 25.
const THREE: &[Step] = &[
    Step::Insert((0, 10, 0)),
    Step::Insert((1, 20, 0)),
    Step::Insert((2, 30, 0)),
    Step::Merge(Policy::Complete, ALL, [3, 0, 0, 0, 0], 3),
    Step::Crack(15, 25, 1),
];

/// The column has the keys 10, 20, 30 and 40, and is cracked at 15 and 25.
const FOUR: &[Step] = &[
    Step::Insert((0, 10, 0)),
    Step::Insert((1, 20, 0)),
    Step::Insert((2, 30, 0)),
    Step::Insert((3, 40, 0)),
    Step::Merge(Policy::Ripple, ALL, [4, 0, 0, 0, 0], 4),
    Step::Crack(15, 25, 1),
];

/// The column has the keys 10 and 40, and is cracked at 20 and 30.
const APART: &[Step] = &[
    Step::Insert((0, 10, 0)),
    Step::Insert((1, 40, 0)),
    Step::Merge(Policy::Ripple, ALL, [2, 0, 0, 0, 0], 2),
    Step::Crack(20, 30, 0),
];

const SCRIPTS: &[Script] = &[
    Script {
        name: "complete merges every pending row",
        first: THREE,
        steps: &[
            Step::Insert((3, 17, 0)),
            Step::Insert((4, 90, 0)),
            Step::Merge(Policy::Complete, [15, 25], [2, 0, 0, 1, 0], 2),
            Step::Look([5, 0, 0], &[1, 2, 2]),
        ],
    },
    Script {
        name: "complete leaves pending rows that none needs",
        first: THREE,
        steps: &[
            Step::Insert((3, 5, 0)),
            Step::Insert((4, 90, 0)),
            Step::Merge(Policy::Complete, [15, 25], [0, 0, 0, 0, 0], 1),
            Step::Look([3, 2, 0], &[1, 1, 1]),
        ],
    },
    Script {
        name: "gradual merges rows of the range alone",
        first: THREE,
        steps: &[
            Step::Insert((3, 90, 0)),
            Step::Insert((4, 17, 0)),
            Step::Merge(Policy::Gradual, [15, 25], [1, 0, 0, 1, 0], 2),
            Step::Look([4, 1, 0], &[1, 2, 1]),
        ],
    },
    Script {
        name: "a carry buries the doomed row that it meets",
        first: THREE,
        steps: &[
            Step::Doom((2, 30, 0)),
            Step::Insert((3, 17, 0)),
            Step::Insert((4, 90, 0)),
            Step::Merge(Policy::Gradual, [15, 25], [1, 1, 0, 1, 0], 2),
            Step::Look([3, 1, 0], &[1, 2, 0]),
        ],
    },
    Script {
        name: "a pull goes through two bounds",
        first: THREE,
        steps: &[
            Step::Doom((0, 10, 0)),
            Step::Merge(Policy::Gradual, [0, 15], [0, 1, 0, 0, 2], 0),
            Step::Look([2, 0, 0], &[0, 1, 1]),
        ],
    },
    Script {
        name: "a pull carries another doomed row on",
        first: THREE,
        steps: &[
            Step::Doom((0, 10, 0)),
            Step::Doom((2, 30, 0)),
            Step::Merge(Policy::Gradual, [0, 15], [0, 1, 0, 0, 2], 0),
            Step::Look([2, 0, 1], &[0, 1, 1]),
        ],
    },
    Script {
        name: "complete takes every doomed row out",
        first: THREE,
        steps: &[
            Step::Doom((0, 10, 0)),
            Step::Doom((2, 30, 0)),
            Step::Merge(Policy::Complete, [0, 15], [0, 2, 0, 0, 2], 0),
            Step::Look([1, 0, 0], &[0, 1, 0]),
        ],
    },
    Script {
        name: "ripple evicts the row in the way",
        first: APART,
        steps: &[
            Step::Insert((2, 15, 0)),
            Step::Merge(Policy::Ripple, [10, 20], [1, 0, 1, 1, 0], 2),
            Step::Look([2, 1, 0], &[0, 2, 0, 0]),
        ],
    },
    Script {
        name: "an empty piece at the end keeps its low bound",
        first: APART,
        steps: &[
            Step::Insert((2, 15, 0)),
            Step::Merge(Policy::Ripple, [10, 20], [1, 0, 1, 1, 0], 2),
            Step::Insert((3, 25, 0)),
            Step::Merge(Policy::Ripple, [20, 30], [1, 0, 0, 0, 0], 1),
            Step::Look([3, 1, 0], &[0, 2, 1, 0]),
        ],
    },
    Script {
        name: "ripple buries the doomed row in the way",
        first: THREE,
        steps: &[
            Step::Doom((2, 30, 0)),
            Step::Insert((3, 17, 0)),
            Step::Merge(Policy::Ripple, [15, 25], [1, 1, 0, 1, 0], 2),
            Step::Look([3, 0, 0], &[1, 2, 0]),
        ],
    },
    Script {
        name: "ripple fills the place of a doomed row",
        first: THREE,
        steps: &[
            Step::Doom((1, 20, 0)),
            Step::Insert((3, 27, 0)),
            Step::Merge(Policy::Ripple, [15, 25], [1, 1, 0, 0, 1], 0),
            Step::Look([3, 0, 0], &[1, 0, 2]),
        ],
    },
    // Both rows are inserted, and the row in the way moves.
    Script {
        name: "complete puts two more rows in",
        first: FOUR,
        steps: &[
            Step::Insert((4, 17, 0)),
            Step::Insert((5, 90, 0)),
            Step::Merge(Policy::Complete, [15, 25], [2, 0, 0, 1, 0], 2),
            Step::Look([6, 0, 0], &[1, 2, 3]),
        ],
    },
    // The row of the range is inserted, and the row in the way moves.
    Script {
        name: "gradual puts one of two rows in",
        first: FOUR,
        steps: &[
            Step::Insert((4, 17, 0)),
            Step::Insert((5, 90, 0)),
            Step::Merge(Policy::Gradual, [15, 25], [1, 0, 0, 1, 0], 2),
            Step::Look([5, 1, 0], &[1, 2, 2]),
        ],
    },
    // The row of the range is inserted, and the row in the way is evicted.
    Script {
        name: "ripple puts one of two rows in",
        first: FOUR,
        steps: &[
            Step::Insert((4, 17, 0)),
            Step::Insert((5, 90, 0)),
            Step::Merge(Policy::Ripple, [15, 25], [1, 0, 1, 1, 0], 2),
            Step::Look([4, 2, 0], &[1, 2, 1]),
        ],
    },
    Script {
        name: "a pull over four goes through two bounds",
        first: FOUR,
        steps: &[
            Step::Doom((0, 10, 0)),
            Step::Merge(Policy::Gradual, [0, 15], [0, 1, 0, 0, 2], 0),
            Step::Look([3, 0, 0], &[0, 1, 2]),
        ],
    },
];

#[test]
fn merges_count_the_rows_that_they_move(rt: HostRuntime) {
    let scripts = SCRIPTS;
    'scripts: for place in 0..scripts.len() {
        assert_script(&rt, rt.alloc(), scripts[place]);
    }
}
