//! What partitions reply and count: refusals, deletes, updates, sums and lists, the layout after a merge, and cells
//! that run out, which automatic upkeep frees.
use crate::part::{ALL, Case, assert_case};
use crack_row::{GREATEST_CELLS, GREATEST_LIMIT, Upkeep};
use std::alloc::Global;
use std::process::Abort;

/// Replies that are counted, and refusals.
const ANSWERS: &[Case] = &[
    Case {
        name: "partition answers and counts",
        keys: ALL,
        limit: GREATEST_LIMIT,
        script: &[
            ("insert 7 70", "row 0.0"),
            ("count 0 18446744073709551616", "count 1"),
        ],
        accepted: 2,
    },
    // A read is counted, too, even if its range has no key.
    Case {
        name: "partition accepts a count of no key",
        keys: ALL,
        limit: 1,
        script: &[("count 5 5", "count 0")],
        accepted: 1,
    },
    Case {
        name: "partition refuses at its limit",
        keys: ALL,
        limit: 2,
        script: &[
            ("insert 1 10", "row 0.0"),
            ("insert 2 20", "row 0.1"),
            ("count 0 18446744073709551616", "refused 6 2"),
        ],
        accepted: 2,
    },
    Case {
        name: "partition refuses keys outside",
        keys: [100, 200],
        limit: 10,
        script: &[
            ("insert 50 500", "refused 4"),
            ("insert 200 2000", "refused 4"),
            ("insert 199 1990", "row 0.0"),
        ],
        accepted: 1,
    },
];

/// Deletes and updates of a row, and sums of payloads.
const CHANGES: &[Case] = &[
    // A pending insertion is deleted immediately. A delete that finds no row is counted.
    Case {
        name: "a row is deleted twice",
        keys: ALL,
        limit: 1000,
        script: &[
            ("policy gradual", "policy gradual"),
            ("insert 7 7", "row 0.0"),
            ("delete 0.0", "gone 7 7"),
            ("delete 0.0", "none"),
            (
                "layout 0",
                "layout 0 rows 0 column 0 out 0 in 0 cells 1 free 1 pieces 1\npiece 0 18446744073709551616 0",
            ),
        ],
        accepted: 3,
    },
    // An update changes a pending insertion in place, and makes a row of the column pending, with the same serial.
    Case {
        name: "a row is updated twice",
        keys: ALL,
        limit: 1000,
        script: &[
            ("policy gradual", "policy gradual"),
            ("insert 5 5", "row 0.0"),
            ("update 0.0 6 6", "changed"),
            (
                "layout 0",
                "layout 0 rows 1 column 0 out 0 in 1 cells 1 free 0 pieces 1\npiece 0 18446744073709551616 0",
            ),
            ("count 0 18446744073709551616", "count 1"),
            ("update 0.0 8 8", "changed"),
            (
                "layout 0",
                "layout 0 rows 1 column 1 out 1 in 1 cells 2 free 0 pieces 1\npiece 0 18446744073709551616 1",
            ),
            (
                "stats",
                concat!(
                    "stats 8\nrows 1\npending_insertions 1\npending_deletions 1\npieces 1\ncells 2\n",
                    "free_cells 0\ncommands_accepted 4\ncommands_since_checkpoint 4"
                ),
            ),
            ("select 0 18446744073709551616", "rows 1\n0.0 8 8"),
            (
                "layout 0",
                "layout 0 rows 1 column 1 out 0 in 0 cells 2 free 1 pieces 1\npiece 0 18446744073709551616 1",
            ),
        ],
        accepted: 5,
    },
    // An update's key is tested before its row is looked up. An update that finds no row is counted.
    Case {
        name: "an update of no row",
        keys: [0, 100],
        limit: 1000,
        script: &[
            ("policy gradual", "policy gradual"),
            ("update 0.0 100 100", "refused 4"),
            ("update 0.0 99 99", "none"),
        ],
        accepted: 1,
    },
    // The payloads of two rows of three, and of an empty range.
    Case {
        name: "payloads are added up",
        keys: ALL,
        limit: 1000,
        script: &[
            ("policy gradual", "policy gradual"),
            ("insert 10 10", "row 0.0"),
            ("insert 20 20", "row 0.1"),
            ("insert 30 30", "row 0.2"),
            ("policy complete", "policy complete"),
            ("sum 10 30", "sum 30"),
            ("sum 5 5", "sum 0"),
        ],
        accepted: 5,
    },
];

/// Pending deletions that are merged: rows are taken out of the column.
const PULLS: &[Case] = &[
    Case {
        name: "a pull through two bounds",
        keys: ALL,
        limit: 1000,
        script: &[
            ("policy gradual", "policy gradual"),
            ("insert 10 10", "row 0.0"),
            ("insert 20 20", "row 0.1"),
            ("insert 30 30", "row 0.2"),
            ("count 0 18446744073709551616", "count 3"),
            ("count 15 25", "count 1"),
            ("delete 0.0", "gone 10 10"),
            ("count 0 15", "count 0"),
            (
                "layout 0",
                "layout 0 rows 2 column 2 out 0 in 0 cells 3 free 1 pieces 3\n\
            piece 0 15 0\npiece 15 25 1\npiece 25 18446744073709551616 1",
            ),
        ],
        accepted: 7,
    },
    // A row with a pending deletion that is moved keeps the pending deletion.
    Case {
        name: "a gradual pull past a doomed row",
        keys: ALL,
        limit: 1000,
        script: &[
            ("policy gradual", "policy gradual"),
            ("insert 10 10", "row 0.0"),
            ("insert 20 20", "row 0.1"),
            ("insert 30 30", "row 0.2"),
            ("count 0 18446744073709551616", "count 3"),
            ("count 15 25", "count 1"),
            ("delete 0.0", "gone 10 10"),
            ("delete 0.2", "gone 30 30"),
            ("count 0 15", "count 0"),
            (
                "layout 0",
                "layout 0 rows 1 column 2 out 1 in 0 cells 3 free 1 pieces 3\n\
            piece 0 15 0\npiece 15 25 1\npiece 25 18446744073709551616 1",
            ),
        ],
        accepted: 8,
    },
    Case {
        name: "a complete merge takes all out",
        keys: ALL,
        limit: 1000,
        script: &[
            ("policy gradual", "policy gradual"),
            ("insert 10 10", "row 0.0"),
            ("insert 20 20", "row 0.1"),
            ("insert 30 30", "row 0.2"),
            ("count 0 18446744073709551616", "count 3"),
            ("count 15 25", "count 1"),
            ("delete 0.0", "gone 10 10"),
            ("delete 0.2", "gone 30 30"),
            ("policy complete", "policy complete"),
            ("count 0 15", "count 0"),
            (
                "layout 0",
                "layout 0 rows 1 column 1 out 0 in 0 cells 3 free 2 pieces 3\n\
            piece 0 15 0\npiece 15 25 1\npiece 25 18446744073709551616 0",
            ),
        ],
        accepted: 8,
    },
];

/// Pending insertions that a gradual merge inserts into the column.
const MERGES: &[Case] = &[
    // A row in the way that has a pending deletion is taken out, and its cell is used again.
    Case {
        name: "a doomed row in the way",
        keys: ALL,
        limit: 1000,
        script: &[
            ("policy gradual", "policy gradual"),
            ("insert 10 10", "row 0.0"),
            ("insert 20 20", "row 0.1"),
            ("insert 30 30", "row 0.2"),
            ("count 0 18446744073709551616", "count 3"),
            ("count 15 25", "count 1"),
            ("delete 0.2", "gone 30 30"),
            ("insert 17 17", "row 0.3"),
            ("count 15 25", "count 2"),
            (
                "layout 0",
                "layout 0 rows 3 column 3 out 0 in 0 cells 4 free 1 pieces 3\n\
            piece 0 15 1\npiece 15 25 2\npiece 25 18446744073709551616 0",
            ),
            ("insert 99 99", "row 0.4"),
            (
                "layout 0",
                "layout 0 rows 4 column 3 out 0 in 1 cells 4 free 0 pieces 3\n\
            piece 0 15 1\npiece 15 25 2\npiece 25 18446744073709551616 0",
            ),
        ],
        accepted: 9,
    },
    // Pending insertions outside the range stay pending.
    Case {
        name: "a gradual merge",
        keys: ALL,
        limit: 1000,
        script: &[
            ("policy gradual", "policy gradual"),
            ("insert 10 10", "row 0.0"),
            ("insert 20 20", "row 0.1"),
            ("insert 30 30", "row 0.2"),
            ("insert 40 40", "row 0.3"),
            ("count 0 18446744073709551616", "count 4"),
            ("insert 17 17", "row 0.4"),
            ("insert 90 90", "row 0.5"),
            ("count 15 25", "count 2"),
            (
                "layout 0",
                "layout 0 rows 6 column 5 out 0 in 1 cells 6 free 0 pieces 3\n\
            piece 0 15 1\npiece 15 25 2\npiece 25 18446744073709551616 2",
            ),
        ],
        accepted: 8,
    },
];

/// Rows are pending until a count needs one of them. Then all are merged, and none is missing in between.
const IN_TURN: &[Case] = &[Case {
    name: "partition cracks and merges",
    keys: ALL,
    limit: 1000,
    script: &[
        ("policy gradual", "policy gradual"),
        ("insert 10 10", "row 0.0"),
        ("insert 20 20", "row 0.1"),
        ("insert 30 30", "row 0.2"),
        ("insert 40 40", "row 0.3"),
        (
            "layout 0",
            "layout 0 rows 4 column 0 out 0 in 4 cells 4 free 0 pieces 1\npiece 0 18446744073709551616 0",
        ),
        ("policy complete", "policy complete"),
        ("count 0 18446744073709551616", "count 4"),
        ("count 15 25", "count 1"),
        ("policy gradual", "policy gradual"),
        ("insert 17 17", "row 0.4"),
        ("insert 90 90", "row 0.5"),
        (
            "layout 0",
            "layout 0 rows 6 column 4 out 0 in 2 cells 6 free 0 pieces 3\n\
            piece 0 15 1\npiece 15 25 1\npiece 25 18446744073709551616 2",
        ),
        ("policy complete", "policy complete"),
        ("count 15 25", "count 2"),
        (
            "layout 0",
            "layout 0 rows 6 column 6 out 0 in 0 cells 6 free 0 pieces 3\n\
            piece 0 15 1\npiece 15 25 2\npiece 25 18446744073709551616 3",
        ),
    ],
    accepted: 9,
}];

/// Two of three rows of the column have pending deletions, and no cell is free.
const DOOMED_ROWS_WAIT: Case = Case {
    name: "partition frees no cell unasked",
    keys: ALL,
    limit: GREATEST_LIMIT,
    script: &[
        ("policy ripple", "policy ripple"),
        ("insert 1 1", "row 0.0"),
        ("insert 2 2", "row 0.1"),
        ("insert 3 3", "row 0.2"),
        ("count 0 18446744073709551616", "count 3"),
        ("delete 0.0", "gone 1 1"),
        ("delete 0.2", "gone 3 3"),
        ("insert 4 4", "refused 9"),
        (
            "layout 0",
            "layout 0 rows 1 column 3 out 2 in 0 cells 3 free 0 pieces 1\npiece 0 18446744073709551616 3",
        ),
    ],
    accepted: 6,
};

/// Rows are inserted until no cell is left. Before the first insert, the rows with pending deletions are taken out.
const DOOMED_ROWS_GO: Case = Case {
    name: "partition that frees cells",
    keys: ALL,
    limit: GREATEST_LIMIT,
    script: &[
        ("policy ripple", "policy ripple"),
        ("insert 1 1", "row 0.0"),
        ("insert 2 2", "row 0.1"),
        ("insert 3 3", "row 0.2"),
        ("count 0 18446744073709551616", "count 3"),
        ("delete 0.0", "gone 1 1"),
        ("delete 0.2", "gone 3 3"),
        ("insert 4 4", "row 0.3"),
        (
            "layout 0",
            "layout 0 rows 2 column 1 out 0 in 1 cells 3 free 1 pieces 1\npiece 0 18446744073709551616 1",
        ),
        ("insert 5 5", "row 0.4"),
        ("insert 6 6", "refused 9"),
        ("count 0 18446744073709551616", "count 3"),
    ],
    accepted: 9,
};

/// Asserts the replies of partitions with the greatest number of cells, and upkeep on request.
fn assert_cases(rt: &impl Abort, alloc: Global, cases: &'static [Case]) {
    'cases: for place in 0..cases.len() {
        assert_case(rt, alloc, cases[place], GREATEST_CELLS, Upkeep::OnRequest);
    }
}

#[test]
fn partitions_answer_and_count(rt: HostRuntime) {
    assert_cases(&rt, rt.alloc(), ANSWERS);
}

#[test]
fn rows_are_changed_and_added_up(rt: HostRuntime) {
    assert_cases(&rt, rt.alloc(), CHANGES);
}

#[test]
fn rows_are_pulled_out(rt: HostRuntime) {
    assert_cases(&rt, rt.alloc(), PULLS);
}

#[test]
fn rows_are_merged_for_a_range(rt: HostRuntime) {
    assert_cases(&rt, rt.alloc(), MERGES);
}

#[test]
fn rows_are_merged_by_policies_in_turn(rt: HostRuntime) {
    assert_cases(&rt, rt.alloc(), IN_TURN);
}

/// Without automatic upkeep, pending deletions wait for a range.
#[test]
fn partition_frees_no_cell_unasked(rt: HostRuntime) {
    assert_case(&rt, rt.alloc(), DOOMED_ROWS_WAIT, 3, Upkeep::OnRequest);
}

/// Holds whichever of its allocations is refused, so it can be run with each of them refused in turn.
#[test]
fn sweep_partition_that_frees_cells(rt: HostRuntime) {
    assert_case(&rt, rt.alloc(), DOOMED_ROWS_GO, 3, Upkeep::Automatic);
}
