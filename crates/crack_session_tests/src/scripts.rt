//! Sessions as texts: the statements, and the replies.
use crate::plain_desk::PlainDesk;
use crate::session::{assert_session, core, joined, room, tell};
use crack_failing::{ONE_BYTE, Source};
use crack_row::{BoundNumber, GREATEST_LIMIT, Policy};
use crack_session::{Desk, How, LINE_BYTES, SessionEnd};
use std::alloc::Global;
use std::process::Abort;

/// A session over a core with these splits and this limit: its input and its replies, in parts, and how it ends.
#[derive(Clone, Copy)]
pub struct Script {
    pub splits: &'static [BoundNumber],
    pub limit: u64,
    /// Whether a plain table has the same replies.
    pub is_plain: bool,
    pub input: &'static [&'static [u8]],
    pub replies: &'static [&'static [u8]],
    pub how: How,
    pub statements: u64,
    pub first_short: Option<u64>,
}

/// Asserts the replies of a session that reads its input at once, and of one that reads a byte at a time.
pub fn assert_script(rt: &impl Abort, alloc: Global, script: Script) {
    let input = joined(rt, alloc, script.input);
    let replies = joined(rt, alloc, script.replies);
    let end = SessionEnd {
        how: script.how,
        statements: script.statements,
        first_short: script.first_short,
    };
    let dripping = Source::new(&input).cut(ONE_BYTE);
    let mut desk = core(rt, alloc, script.splits, script.limit);
    assert_session(rt, alloc, &mut desk, Source::new(&input), &replies, end);
    drop(desk);
    let mut desk = core(rt, alloc, script.splits, script.limit);
    assert_session(rt, alloc, &mut desk, dripping, &replies, end);
    drop(desk);
    if script.is_plain {
        let mut desk = PlainDesk::new(alloc);
        assert_session(rt, alloc, &mut desk, Source::new(&input), &replies, end);
        drop(desk);
    }
}

/// Statements, each with its reply. Neither has a line feed at its end.
pub type Lines = &'static [(&'static str, &'static str)];

/// Appends a line and a line feed to a text.
fn add_line(rt: &impl Abort, text: &mut Vec<u8>, line: &str) {
    assert!(rt; text.extend_from_slice(line.as_bytes()).is_ok());
    assert!(rt; text.push(b'\n').is_ok());
}

/// The text of the statements, and the text of the replies.
pub fn texts_of(rt: &impl Abort, alloc: Global, script: Lines) -> (Vec<u8>, Vec<u8>) {
    let mut input = room(rt, alloc);
    let mut replies = room(rt, alloc);
    'script: for place in 0..script.len() {
        let (line, answer) = script[place];
        add_line(rt, &mut input, line);
        add_line(rt, &mut replies, answer);
    }
    (input, replies)
}

/// Asserts the replies of a desk to statements, under the complete policy until a statement sets another.
pub fn assert_answers<D: Desk>(
    rt: &impl Abort,
    alloc: Global,
    desk: &mut D,
    name: &str,
    script: Lines,
) {
    let (input, replies) = texts_of(rt, alloc, script);
    let (end, text) = tell(rt, alloc, desk, Policy::Complete, Source::new(&input));
    assert!(rt;
        end.is_ok() && text.as_slice() == replies.as_slice(),
        "{name}"
    );
}

/// Sessions over one partition.
const STATEMENTS: &[Script] = &[
    // an empty input has no reply
    Script {
        splits: &[],
        limit: GREATEST_LIMIT,
        is_plain: true,
        input: &[],
        replies: &[],
        how: How::InputEnded,
        statements: 0,
        first_short: None,
    },
    // `quit` ends a session
    Script {
        splits: &[],
        limit: GREATEST_LIMIT,
        is_plain: true,
        input: &[b"insert 7 70\ncount 0 9\nquit\ncount 0 1\n"],
        replies: &[b"row 0.0\ncount 1\nbye\n"],
        how: How::Quit,
        statements: 3,
        first_short: None,
    },
    // a line that is too long is no statement
    Script {
        splits: &[],
        limit: GREATEST_LIMIT,
        is_plain: true,
        input: &[b"insert 1 1\r\n", &[b'x'; LINE_BYTES + 1], b"\n\ncount 0 5"],
        replies: &[b"row 0.0\nrefused 1\ncount 1\n"],
        how: How::InputEnded,
        statements: 3,
        first_short: None,
    },
    // a line of an HTTP request is refused, and nothing after it is answered
    Script {
        splits: &[],
        limit: GREATEST_LIMIT,
        is_plain: true,
        input: &[
            b"insert 1 1\nPOST /",
            &[b'x'; LINE_BYTES],
            b" HTTP/1.1\r\nHost: 127.0.0.1\r\n\r\ninsert 2 2\ncount 0 5\nquit\n",
        ],
        replies: &[b"row 0.0\nrefused 1\n"],
        how: How::Quit,
        statements: 2,
        first_short: None,
    },
    // the greatest key, the greatest bound, and one more than that
    Script {
        splits: &[],
        limit: GREATEST_LIMIT,
        is_plain: true,
        input: &[
            b"insert 18446744073709551615 1\ncount 18446744073709551615 18446744073709551616\n\
insert 18446744073709551616 1\ncount 0 18446744073709551617\n",
        ],
        replies: &[b"row 0.0\ncount 1\nrefused 1\nrefused 2\n"],
        how: How::InputEnded,
        statements: 4,
        first_short: None,
    },
    // the greatest key with the least payload, a sum below every payload, and numbers just above the limits
    Script {
        splits: &[],
        limit: GREATEST_LIMIT,
        is_plain: true,
        input: &[
            b"insert 18446744073709551615 -9223372036854775808\ninsert 18446744073709551615 -1\n\
sum 18446744073709551615 18446744073709551616\ninsert 18446744073709551616 1\ncount 0 18446744073709551617\n\
insert 1 9223372036854775808\ninsert 1 - 2\ninsert 1 -0\nselect 0 2\ndelete 0.1\n",
        ],
        replies: &[
            b"row 0.0\nrow 0.1\nsum -9223372036854775809\nrefused 1\nrefused 2\nrefused 1\nrefused 1\nrow 0.2\n\
rows 1\n0.2 1 0\ngone 18446744073709551615 -1\n",
        ],
        how: How::InputEnded,
        statements: 10,
        first_short: None,
    },
    // keys on both sides of 2^32, with payloads of both signs
    Script {
        splits: &[],
        limit: GREATEST_LIMIT,
        is_plain: true,
        input: &[
            b"insert 4294967295 -7\ninsert 4294967296 5\ninsert 4294967297 -1\ninsert 1 9\n\
sum 0 4294967296\nsum 4294967295 4294967297\ncount 4294967296 18446744073709551616\nselect 4294967296 4294967298\n\
update 0.2 4294967295 -9223372036854775808\nsum 4294967295 4294967296\nselect 4294967295 4294967296\n",
        ],
        replies: &[
            b"row 0.0\nrow 0.1\nrow 0.2\nrow 0.3\nsum 2\nsum -2\ncount 2\nrows 2\n0.1 4294967296 5\n0.2 4294967297 -1\n\
changed\nsum -9223372036854775815\nrows 2\n0.0 4294967295 -7\n0.2 4294967295 -9223372036854775808\n",
        ],
        how: How::InputEnded,
        statements: 11,
        first_short: None,
    },
    // a full history is reported
    Script {
        splits: &[],
        limit: 2,
        is_plain: false,
        input: &[b"insert 1 1\ninsert 2 2\ncount 0 9\n"],
        replies: &[b"row 0.0\nrow 0.1\nrefused 6 2\n"],
        how: How::InputEnded,
        statements: 3,
        first_short: Some(3),
    },
    // statements after a refusal for lack of room are answered as usual
    Script {
        splits: &[],
        limit: 1,
        is_plain: false,
        input: &[b"insert 1 1\ninsert 2 2\nfoo\ninsert 3 3\nquit\n"],
        replies: &[b"row 0.0\nrefused 6 1\nrefused 1\nrefused 6 1\nbye\n"],
        how: How::Quit,
        statements: 5,
        first_short: Some(2),
    },
    // spaces and leading zeros are ignored
    Script {
        splits: &[],
        limit: GREATEST_LIMIT,
        is_plain: true,
        input: &[
            b"  insert   007   08  \r\n   \n\r\ncount 00000000000000000007 8\ncount 000000000000000000007 8\n\
count 6 5\nquit now\nInsert 1 1",
        ],
        replies: &[b"row 0.0\ncount 1\nrefused 1\nrefused 2\nrefused 1\nrefused 1\n"],
        how: How::InputEnded,
        statements: 6,
        first_short: None,
    },
    // each statement, with its texts; a statement with the number of another partition is refused
    Script {
        splits: &[],
        limit: GREATEST_LIMIT,
        is_plain: true,
        input: &[
            b"insert 7 70\ninsert 9 90\nupdate 0.0 8 80\nsum 0 100\nselect 0 100\nselect 9 9\ndelete 0.1\ndelete 0.1\n\
update 0.1 5 5\npolicy gradual\npolicy complete\ncount 0 9\ndelete 1.0\nupdate 1.0 1 1\nlayout 1\n\
layout 4294967295\ndelete 0.18446744073709551615\nselect 0 18446744073709551616\nquit\n",
        ],
        replies: &[
            b"row 0.0\nrow 0.1\nchanged\nsum 170\nrows 2\n0.0 8 80\n0.1 9 90\nrows 0\ngone 9 90\nnone\n\
none\npolicy gradual\npolicy complete\ncount 1\nrefused 5\nrefused 5\nrefused 5\nrefused 5\n\
none\nrows 1\n0.0 8 80\nbye\n",
        ],
        how: How::Quit,
        statements: 19,
        first_short: None,
    },
];

#[test]
fn statements_are_answered(rt: HostRuntime) {
    'scripts: for place in 0..STATEMENTS.len() {
        assert_script(&rt, rt.alloc(), STATEMENTS[place]);
    }
}

/// Statements after a policy, and the replies to all but the last of them.
const ROWS: &[u8] =
    b"insert 10 10\ninsert 20 20\ninsert 30 30\ninsert 40 40\ncount 0 18446744073709551616\ncount 15 25\n\
insert 17 0\ninsert 90 0\ncount 15 25\nlayout 0\n";

const REPLIES: &[u8] =
    b"row 0.0\nrow 0.1\nrow 0.2\nrow 0.3\ncount 4\ncount 1\nrow 0.4\nrow 0.5\ncount 2\n";

/// The layout if all pending rows are merged.
const ALL_MERGED: &[u8] =
    b"layout 0 rows 6 column 6 out 0 in 0 cells 6 free 0 pieces 3\npiece 0 15 1\npiece 15 25 2\n\
piece 25 18446744073709551616 3\n";

/// Sessions whose first line sets a policy for the rest: a merge takes all pending rows, or only those that its
/// range needs.
const POLICIES: &[Script] = &[
    Script {
        splits: &[],
        limit: GREATEST_LIMIT,
        is_plain: false,
        input: &[b"policy complete\n", ROWS],
        replies: &[b"policy complete\n", REPLIES, ALL_MERGED],
        how: How::InputEnded,
        statements: 11,
        first_short: None,
    },
    Script {
        splits: &[],
        limit: GREATEST_LIMIT,
        is_plain: false,
        input: &[b"policy gradual\n", ROWS],
        replies: &[
            b"policy gradual\n",
            REPLIES,
            b"layout 0 rows 6 column 5 out 0 in 1 cells 6 free 0 pieces 3\npiece 0 15 1\npiece 15 25 2\n\
piece 25 18446744073709551616 2\n",
        ],
        how: How::InputEnded,
        statements: 11,
        first_short: None,
    },
    Script {
        splits: &[],
        limit: GREATEST_LIMIT,
        is_plain: false,
        input: &[b"policy ripple\n", ROWS],
        replies: &[
            b"policy ripple\n",
            REPLIES,
            b"layout 0 rows 6 column 4 out 0 in 2 cells 6 free 0 pieces 3\npiece 0 15 1\npiece 15 25 2\n\
piece 25 18446744073709551616 1\n",
        ],
        how: How::InputEnded,
        statements: 11,
        first_short: None,
    },
    Script {
        splits: &[],
        limit: GREATEST_LIMIT,
        is_plain: false,
        input: &[b"policy auto\n", ROWS],
        replies: &[b"policy auto\n", REPLIES, ALL_MERGED],
        how: How::InputEnded,
        statements: 11,
        first_short: None,
    },
    // 22 rows, merged into three pieces. One pending insertion is few, and room for it is made near the range. Two
    // are many, and all pending rows are merged.
    Script {
        splits: &[],
        limit: GREATEST_LIMIT,
        is_plain: false,
        input: &[
            b"policy auto\n\
insert 10 1\ninsert 20 1\ninsert 30 1\ninsert 40 1\ninsert 50 1\ninsert 60 1\ninsert 70 1\ninsert 80 1\n\
insert 90 1\ninsert 100 1\ninsert 110 1\ninsert 120 1\ninsert 130 1\ninsert 140 1\ninsert 150 1\ninsert 160 1\n\
insert 170 1\ninsert 180 1\ninsert 190 1\ninsert 200 1\ninsert 210 1\ninsert 220 1\ncount 15 25\n",
            b"delete 0.10\ndelete 0.11\ninsert 17 2\nsum 15 25\nlayout 0\ninsert 16 3\nselect 15 25\nlayout 0\n",
        ],
        replies: &[
            b"policy auto\nrow 0.0\nrow 0.1\nrow 0.2\nrow 0.3\nrow 0.4\nrow 0.5\nrow 0.6\nrow 0.7\nrow 0.8\nrow 0.9\n\
row 0.10\nrow 0.11\nrow 0.12\nrow 0.13\nrow 0.14\nrow 0.15\nrow 0.16\nrow 0.17\nrow 0.18\nrow 0.19\nrow 0.20\n\
row 0.21\ncount 1\n",
            b"gone 110 1\ngone 120 1\nrow 0.22\nsum 3\n\
layout 0 rows 21 column 22 out 2 in 1 cells 23 free 0 pieces 3\npiece 0 15 1\npiece 15 25 2\n\
piece 25 18446744073709551616 19\n\
row 0.23\nrows 3\n0.1 20 1\n0.22 17 2\n0.23 16 3\n\
layout 0 rows 22 column 22 out 0 in 0 cells 24 free 2 pieces 3\npiece 0 15 1\npiece 15 25 3\n\
piece 25 18446744073709551616 18\n",
        ],
        how: How::InputEnded,
        statements: 32,
        first_short: None,
    },
];

#[test]
fn a_policy_holds_for_the_rest(rt: HostRuntime) {
    'scripts: for place in 0..POLICIES.len() {
        assert_script(&rt, rt.alloc(), POLICIES[place]);
    }
}
