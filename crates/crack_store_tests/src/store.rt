//! Calls of a store with ample memory, and which bounds move if several are at one place.
use crate::script::{Script, Step, assert_script};
use crack_row::{GREATEST_BOUND, Policy};

const SCRIPTS: &[Script] = &[
    Script {
        name: "a store reads what was inserted",
        first: &[],
        steps: &[
            Step::Row(0, None, None),
            Step::Insert((0, 10, 5)),
            Step::Insert((1, 40, 20)),
            Step::Insert((2, 15, 7)),
            Step::Count([3, 0, 3, 0]),
            Step::Column(0),
            Step::First(20, 50, Some(1), None),
            Step::Next(20, GREATEST_BOUND),
        ],
    },
    // Both bounds at a place move up together when a row with a key below them is put there.
    Script {
        name: "two bounds at one place move together",
        first: &[],
        steps: &[
            Step::Insert((0, 10, 5)),
            Step::Insert((1, 40, 20)),
            Step::Insert((2, 15, 7)),
            Step::Append,
            Step::Append,
            Step::Crack(20, 30, 0),
            Step::Crack(10, 20, 1),
            Step::PushOnce(40),
            Step::Rows(3),
            Step::Sizes(&[0, 2, 0, 1]),
        ],
    },
    // The low bound of an empty piece stays where it is, though the piece's high bound, which is at the same place,
    // moves up.
    Script {
        name: "the low bound of an empty piece stays",
        first: &[],
        steps: &[
            Step::Insert((0, 10, 5)),
            Step::Insert((1, 15, 7)),
            Step::Insert((2, 25, 12)),
            Step::Append,
            Step::Append,
            Step::Crack(20, 30, 0),
            Step::Append,
            Step::Rows(3),
            Step::Sizes(&[2, 1, 0]),
        ],
    },
    // A pending insertion is removed immediately.
    Script {
        name: "pending rows go at once",
        first: &[],
        steps: &[
            Step::Insert((0, 10, 5)),
            Step::Insert((1, 40, 20)),
            Step::Insert((2, 16, 8)),
            Step::Cancel((1, 40, 20)),
            Step::Count([2, 0, 3, 1]),
            Step::First(16, 17, Some(1), None),
        ],
    },
    Script {
        name: "pending rows change in place",
        first: &[],
        steps: &[
            Step::Insert((0, 10, 5)),
            Step::Insert((1, 40, 20)),
            Step::Insert((2, 16, 8)),
            Step::Rewrite((1, 20, 7)),
            Step::Count([3, 0, 3, 0]),
            Step::First(20, 21, Some(1), None),
        ],
    },
    // A row of the column stays there as a pending deletion, and a rewritten one is also a pending insertion in a
    // new cell.
    Script {
        name: "rows of the column are doomed",
        first: &[],
        steps: &[
            Step::Insert((0, 10, 5)),
            Step::Insert((1, 16, 8)),
            Step::Insert((2, 24, 12)),
            Step::Append,
            Step::Append,
            Step::Rewrite((1, 30, 9)),
            Step::Count([2, 1, 4, 0]),
            Step::Doom((0, 10, 5)),
            Step::Rows(2),
        ],
    },
    // A replaced row is returned as it was, whether it was pending or in the column; none is if there was none.
    Script {
        name: "a replaced row comes back",
        first: &[],
        steps: &[
            Step::Insert((0, 10, 5)),
            Step::Insert((1, 16, 8)),
            Step::Insert((2, 24, 12)),
            Step::Append,
            Step::Append,
            Step::Replace((2, 25, 1), Some((2, 24, 12))),
            Step::Replace((0, 11, 2), Some((0, 10, 5))),
            Step::Replace((7, 1, 1), None),
            Step::Count([2, 1, 4, 0]),
        ],
    },
    // A removed pending insertion frees its cell, and a removed row of the column stays there as a pending
    // deletion. A removed row isn't found again.
    Script {
        name: "a row is removed wherever it stands",
        first: &[],
        steps: &[
            Step::Insert((0, 10, 5)),
            Step::Insert((1, 16, 8)),
            Step::Insert((2, 24, 12)),
            Step::Append,
            Step::Append,
            Step::Remove(2, Some((2, 24, 12))),
            Step::Count([0, 0, 3, 1]),
            Step::Remove(2, None),
            Step::Remove(0, Some((0, 10, 5))),
            Step::Count([0, 1, 3, 1]),
            Step::Remove(0, None),
            Step::Remove(7, None),
            Step::Row(1, Some(false), Some((1, 16, 8))),
            Step::Rows(1),
        ],
    },
    Script {
        name: "rows are listed in rising serial",
        first: &[],
        steps: &[
            Step::Insert((0, 16, 8)),
            Step::Insert((1, 10, 5)),
            Step::Insert((2, 24, 12)),
            Step::Append,
            Step::Append,
            Step::Read(12, 5, &[(1, 10, 5)]),
            Step::Read(17, 13, &[(0, 16, 8), (1, 10, 5)]),
        ],
    },
    // A later row took the cell of a cancelled one, so serials don't rise with the cells. A doomed row isn't live,
    // though it stands in the column, and a pending insertion is.
    Script {
        name: "live rows of a range are listed in rising serial",
        first: &[
            Step::Live(0, GREATEST_BOUND, &[]),
            Step::Insert((0, 10, 5)),
            Step::Insert((1, 40, 20)),
            Step::Insert((2, 15, 7)),
            Step::Cancel((1, 40, 20)),
            Step::Insert((3, 12, 1)),
            Step::Append,
            Step::Append,
            Step::Doom((0, 10, 5)),
            Step::Insert((4, 50, 9)),
            Step::Insert((5, 14, 3)),
            Step::Cancel((5, 14, 3)),
            Step::Count([2, 1, 5, 1]),
        ],
        steps: &[
            Step::Live(0, GREATEST_BOUND, &[(2, 15, 7), (3, 12, 1), (4, 50, 9)]),
            Step::Live(12, 16, &[(2, 15, 7), (3, 12, 1)]),
            Step::Live(12, 15, &[(3, 12, 1)]),
            Step::Live(15, 51, &[(2, 15, 7), (4, 50, 9)]),
            Step::Live(10, 12, &[]),
            Step::Live(15, 15, &[]),
            Step::Live(51, GREATEST_BOUND, &[]),
        ],
    },
    // A complete merge frees the doomed row's cell, which the next row takes.
    Script {
        name: "live rows of a range are listed after a merge",
        first: &[
            Step::Insert((0, 10, 5)),
            Step::Insert((1, 16, 8)),
            Step::Insert((2, 24, 12)),
            Step::Append,
            Step::Append,
            Step::Append,
            Step::Doom((0, 10, 5)),
            Step::Merge(Policy::Complete, [0, 30], [0, 1, 0, 0, 0], 2),
            Step::Insert((3, 20, 6)),
            Step::Count([1, 0, 3, 0]),
        ],
        steps: &[
            Step::Live(0, 30, &[(1, 16, 8), (2, 24, 12), (3, 20, 6)]),
            Step::Live(16, 21, &[(1, 16, 8), (3, 20, 6)]),
            Step::Live(17, 24, &[(3, 20, 6)]),
        ],
    },
    // Rows with serials that are far apart are found by them, and no row is found between them.
    Script {
        name: "rows kept far apart are found",
        first: &[],
        steps: &[
            Step::Insert((0, 10, 5)),
            Step::Insert((8192, 20, 10)),
            Step::Insert((999424, 30, 15)),
            Step::Insert((u64::MAX, 40, 20)),
            Step::Row(0, Some(true), Some((0, 10, 5))),
            Step::Row(8192, Some(true), Some((8192, 20, 10))),
            Step::Row(999424, Some(true), Some((999424, 30, 15))),
            Step::Row(u64::MAX, Some(true), Some((u64::MAX, 40, 20))),
            Step::Row(4096, None, None),
        ],
    },
];

#[test]
fn stores_are_changed_and_read(rt: HostRuntime) {
    let scripts = SCRIPTS;
    'scripts: for place in 0..scripts.len() {
        assert_script(&rt, rt.alloc(), scripts[place]);
    }
}
