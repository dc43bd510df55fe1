//! Single lines, each for a new core, read in pieces.
use crate::session::{assert_session, core, ended, joined};
use crack_failing::{ONE_BYTE, Source};
use crack_row::GREATEST_LIMIT;
use crack_session::LINE_BYTES;
use std::alloc::Global;
use std::process::Abort;

/// Asserts the reply to a line that is read in pieces of these sizes.
fn assert_line(rt: &impl Abort, alloc: Global, line: &[u8], text: &[u8], sizes: &[usize]) {
    let statements = if text.is_empty() { 0 } else { 1 };
    let end = ended(statements, None);
    let mut desk = core(rt, alloc, &[], GREATEST_LIMIT);
    let source = Source::new(line).cut(sizes);
    assert_session(rt, alloc, &mut desk, source, text, end);
    drop(desk);
}

/// Asserts the same reply to each of these lines.
fn assert_each(rt: &impl Abort, alloc: Global, lines: &[&[u8]], text: &[u8]) {
    for line in lines {
        assert_line(rt, alloc, line, text, &[]);
        assert_line(rt, alloc, line, text, ONE_BYTE);
        assert_line(rt, alloc, line, text, &[2, 9, 1]);
    }
}

#[test]
fn bad_lines_are_refused(rt: HostRuntime) {
    const LINES: [&[u8]; 28] = [
        b"insert",
        b"insert 1",
        b"insert 1 2 3",
        b"INSERT 1 2",
        b"insert 1 - 2",
        b"insert 1 --2",
        b"insert 1 +2",
        b"insert 1 -",
        b"insert -1 2",
        b"insert 1\t2",
        b"insert 18446744073709551616 1",
        b"insert 1 9223372036854775808",
        b"insert 1 -9223372036854775809",
        b"insert 1 -000000000000000000001",
        b"insert 1 1\r\r\n",
        b"inserts 1 1",
        b"quit now",
        b"delete",
        b"delete 0",
        b"delete 0.",
        b"delete .0",
        b"delete 0 .1",
        b"delete 0. 1",
        b"delete 0.0.0",
        b"delete 0.0 1",
        b"delete 4294967296.0",
        b"delete 0.18446744073709551616",
        b"delete 0.000000000000000000001",
    ];
    assert_each(&rt, rt.alloc(), &LINES, b"refused 1\n");
}

#[test]
fn other_bad_lines_are_refused(rt: HostRuntime) {
    const LINES: [&[u8]; 23] = [
        b"update 0.0 1",
        b"update 0.0 1 2 3",
        b"update 0 1 2",
        b"update 0.0 18446744073709551616 1",
        b"update 0.0 1 9223372036854775808",
        b"update 0.0 1 -9223372036854775809",
        b"count 1",
        b"count -1 1",
        b"count 000000000000000000000 1",
        b"sum 1",
        b"sum 1 2 3",
        b"select",
        b"select 1 x",
        b"layout",
        b"layout 0 0",
        b"layout 0.0",
        b"layout 4294967296",
        b"policy",
        b"policy ripples",
        b"policy Gradual",
        b"policy gradual complete",
        b"x",
        &[b' '; LINE_BYTES + 1],
    ];
    assert_each(&rt, rt.alloc(), &LINES, b"refused 1\n");
}

/// Replies, each with lines that get it.
const ANSWERS: &[(&[u8], &[&[u8]])] = &[
    (
        b"refused 2\n",
        &[
            b"count 18446744073709551616 0",
            b"count 0 99999999999999999999",
            b"sum 2 1",
            b"sum 0 18446744073709551617",
            b"select 6 5",
        ],
    ),
    // a minus sign is directly before a payload's digits, which may be as many as without it
    (
        b"row 0.0\n",
        &[
            b"insert 1 -2",
            b"insert 1 -0",
            b"insert 18446744073709551615 -9223372036854775808",
            b"insert 4294967296 9223372036854775807",
            b"insert 1 -09223372036854775808",
            b"  insert   007   -00000000000000000008  ",
        ],
    ),
    // there is no such row
    (
        b"none\n",
        &[
            b"update 0.0 18446744073709551615 -1",
            b"update 0.0 0 -0",
            b"delete 0.18446744073709551615",
        ],
    ),
    // there is no such partition
    (b"refused 5\n", &[b"delete 1.0", b"layout 4294967295"]),
    (b"", &[b"\r", b"\r\n", b"   \n"]),
];

#[test]
fn lines_are_answered(rt: HostRuntime) {
    'answers: for place in 0..ANSWERS.len() {
        let (text, lines) = ANSWERS[place];
        assert_each(&rt, rt.alloc(), lines, text);
    }
}

/// The line `insert 1 1`, padded with spaces to the greatest length, and then `more`.
fn filled(rt: &impl Abort, alloc: Global, more: &[u8]) -> Vec<u8> {
    let spaces = [b' '; LINE_BYTES - 10];
    joined(
        rt,
        alloc,
        &[b"insert 1 1".as_slice(), spaces.as_slice(), more],
    )
}

#[test]
fn lines_are_long_and_spaced(rt: HostRuntime) {
    let alloc: Global = rt.alloc();
    let bare = filled(&rt, alloc, b"");
    let ended = filled(&rt, alloc, b"\r\n");
    let inserts: [&[u8]; 3] = [b"  insert   007   08  ", bare.as_slice(), ended.as_slice()];
    assert_each(&rt, alloc, &inserts, b"row 0.0\n");
    let longer = filled(&rt, alloc, b" ");
    assert_each(&rt, alloc, &[longer.as_slice()], b"refused 1\n");
}
