//! The plain table: each call once, with enough memory.
use crate::desks::Refusing;
use crate::scripts::{Lines, assert_answers};
use crate::texts::add_row;
use crack_plain::PlainTable;
use crack_row::Refusal;
use crack_session::Desk;
use std::alloc::Global;
use std::process::Abort;

/// The rows of a table, as a text without a line feed at its end.
fn rows_of(rt: &impl Abort, alloc: Global, table: &PlainTable) -> Vec<u8> {
    let mut text = Vec::new(alloc);
    'rows: for row in table.rows() {
        add_row(rt, &mut text, 0, row);
    }
    let last = text.pop();
    assert!(rt; last == Some(b'\n'));
    text
}

/// The replies of a new table, and then how many commands it accepted, and its rows.
#[derive(Clone, Copy)]
struct Case {
    name: &'static str,
    script: Lines,
    accepted: u64,
    rows: &'static str,
}

const CASES: &[Case] = &[
    // each command is accepted, also those that find no row
    Case {
        name: "a plain table answers",
        script: &[
            ("insert 7 70", "row 0.0"),
            ("insert 8 50", "row 0.1"),
            ("count 0 18446744073709551616", "count 2"),
            ("count 5 5", "count 0"),
            ("sum 0 18446744073709551616", "sum 120"),
            ("update 0.0 6 60", "changed"),
            ("delete 0.1", "gone 8 50"),
            ("delete 0.1", "none"),
            ("update 0.1 6 60", "none"),
            ("select 0 7", "rows 1\n0.0 6 60"),
        ],
        accepted: 10,
        rows: "0.0 6 60",
    },
    // a checkpoint reports the number of commands since the last one, and changes no row
    Case {
        name: "a plain table counts since its checkpoint",
        script: &[
            ("checkpoint 0", "folded 0"),
            ("insert 7 70", "row 0.0"),
            ("insert 8 50", "row 0.1"),
            ("checkpoint 0", "folded 2"),
            ("count 0 18446744073709551616", "count 2"),
            ("count 5 5", "count 0"),
            ("sum 0 18446744073709551616", "sum 120"),
            ("checkpoint 0", "folded 3"),
            ("checkpoint 0", "folded 0"),
            ("insert 9 90", "row 0.2"),
        ],
        accepted: 6,
        rows: "0.0 7 70\n0.1 8 50\n0.2 9 90",
    },
    // payloads of both signs, at keys on both sides of 2^32
    Case {
        name: "a plain table adds up below 0",
        script: &[
            (
                "insert 18446744073709551615 -9223372036854775808",
                "row 0.0",
            ),
            ("insert 4294967296 -1", "row 0.1"),
            ("insert 4294967295 5", "row 0.2"),
            ("sum 0 18446744073709551616", "sum -9223372036854775804"),
            (
                "sum 4294967296 18446744073709551616",
                "sum -9223372036854775809",
            ),
            ("sum 4294967296 18446744073709551615", "sum -1"),
        ],
        accepted: 6,
        rows: "0.0 18446744073709551615 -9223372036854775808\n0.1 4294967296 -1\n0.2 4294967295 5",
    },
    // the layout of a plain table is one piece
    Case {
        name: "a plain table is laid out",
        script: &[
            ("insert 7 70", "row 0.0"),
            ("insert 9 90", "row 0.1"),
            ("count 8 9", "count 0"),
            (
                "layout 0",
                "layout 0 rows 2 column 2 out 0 in 0 cells 2 free 0 pieces 1\npiece 0 18446744073709551616 2",
            ),
        ],
        accepted: 3,
        rows: "0.0 7 70\n0.1 9 90",
    },
];

/// Asserts the replies of a new table, which refuses nothing.
fn assert_case(rt: &impl Abort, alloc: Global, case: Case) {
    let mut desk = Refusing::new(alloc, Refusal::OutOfMemory, 1, 0);
    assert!(rt; desk.accepted() == 0 && desk.table.table.rows().is_empty());
    assert_answers(rt, alloc, &mut desk, case.name, case.script);
    let text = rows_of(rt, alloc, &desk.table.table);
    let accepted = desk.accepted();
    let is_right = desk.is_right;
    drop(desk);
    assert!(rt;
        is_right && accepted == case.accepted && text.as_slice() == case.rows.as_bytes(),
        "{}",
        case.name
    );
}

#[test]
fn plain_tables_answer(rt: HostRuntime) {
    'cases: for place in 0..CASES.len() {
        assert_case(&rt, rt.alloc(), CASES[place]);
    }
}
