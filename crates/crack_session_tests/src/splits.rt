//! Sessions over several partitions.
use crate::scripts::{Script, assert_script};
use crack_row::GREATEST_LIMIT;
use crack_session::How;

const SCRIPTS: &[Script] = &[
    // replies of two partitions are joined
    Script {
        splits: &[100],
        limit: GREATEST_LIMIT,
        is_plain: false,
        input: &[
            b"insert 50 5\ninsert 150 6\ncount 50 151\nsum 0 18446744073709551616\nupdate 0.0 100 9\nlayout 2\n\
select 0 18446744073709551616\nlayout 1\n",
        ],
        replies: &[
            b"row 0.0\nrow 1.0\ncount 2\nsum 11\nrefused 4\nrefused 5\nrows 2\n0.0 50 5\n1.0 150 6\n\
layout 1 rows 1 column 1 out 0 in 0 cells 1 free 0 pieces 2\npiece 100 151 1\npiece 151 18446744073709551616 0\n",
        ],
        how: How::InputEnded,
        statements: 8,
        first_short: None,
    },
    // a key of another partition is refused before the row is looked up
    Script {
        splits: &[100],
        limit: GREATEST_LIMIT,
        is_plain: false,
        input: &[b"update 0.7 100 9\nupdate 0.7 99 9\nupdate 2.0 100 9\ndelete 2.0\n"],
        replies: &[b"refused 4\nnone\nrefused 5\nrefused 5\n"],
        how: How::InputEnded,
        statements: 4,
        first_short: None,
    },
    // the first partition keeps its command, even if the second one refuses the statement
    Script {
        splits: &[100],
        limit: 1,
        is_plain: false,
        input: &[b"insert 150 1\ncount 0 200\ncount 0 50\n"],
        replies: &[b"row 1.0\nrefused 6 1\nrefused 6 1\n"],
        how: How::InputEnded,
        statements: 3,
        first_short: Some(2),
    },
    // ranges whose ends are at splits or next to them, and empty ranges
    Script {
        splits: &[100, 200],
        limit: GREATEST_LIMIT,
        is_plain: false,
        input: &[
            b"insert 99 1\ninsert 100 2\ninsert 199 3\ninsert 200 4\ncount 99 100\ncount 99 101\ncount 100 200\n\
sum 100 201\nsum 99 200\nselect 100 100\nselect 199 18446744073709551616\n\
select 18446744073709551616 18446744073709551616\ncount 200 200\n",
        ],
        replies: &[
            b"row 0.0\nrow 1.0\nrow 1.1\nrow 2.0\ncount 1\ncount 2\ncount 2\nsum 9\nsum 6\nrows 0\n\
rows 2\n1.1 199 3\n2.0 200 4\nrows 0\ncount 0\n",
        ],
        how: How::InputEnded,
        statements: 13,
        first_short: None,
    },
    // splits above 32 bits, up to the greatest, and sums of payloads of both signs
    Script {
        splits: &[4294967296, 18446744073709551615],
        limit: GREATEST_LIMIT,
        is_plain: false,
        input: &[
            b"insert 4294967295 -5\ninsert 4294967296 3\ninsert 18446744073709551615 -9223372036854775808\n\
sum 0 4294967296\nsum 0 4294967297\nsum 0 18446744073709551616\nselect 4294967295 18446744073709551616\nlayout 2\n",
        ],
        replies: &[
            b"row 0.0\nrow 1.0\nrow 2.0\nsum -5\nsum -2\nsum -9223372036854775810\n\
rows 3\n0.0 4294967295 -5\n1.0 4294967296 3\n2.0 18446744073709551615 -9223372036854775808\n\
layout 2 rows 1 column 1 out 0 in 0 cells 1 free 0 pieces 1\npiece 18446744073709551615 18446744073709551616 1\n",
        ],
        how: How::InputEnded,
        statements: 8,
        first_short: None,
    },
    // more partitions than a list holds without memory of its own
    Script {
        splits: &[1, 2, 3, 4, 5, 6, 7, 8, 9],
        limit: GREATEST_LIMIT,
        is_plain: false,
        input: &[
            b"insert 9 9\ninsert 0 1\ninsert 8 4\ninsert 0 2\ncount 0 10\nsum 0 9\nselect 0 10\n",
        ],
        replies: &[
            b"row 9.0\nrow 0.0\nrow 8.0\nrow 0.1\ncount 4\nsum 7\nrows 4\n0.0 0 1\n0.1 0 2\n8.0 8 4\n9.0 9 9\n",
        ],
        how: How::InputEnded,
        statements: 7,
        first_short: None,
    },
];

#[test]
fn partitions_are_asked_in_turn(rt: HostRuntime) {
    'scripts: for place in 0..SCRIPTS.len() {
        assert_script(&rt, rt.alloc(), SCRIPTS[place]);
    }
}

/// Statements for two partitions, each with one pending row that the last range needs and one that it doesn't, and
/// the replies to all but the layouts.
const TWO_PARTS: &[u8] =
    b"insert 10 1\ninsert 20 1\ninsert 110 1\ninsert 130 1\ncount 0 18446744073709551616\ncount 15 125\n\
insert 5 1\ninsert 17 1\ninsert 117 1\ninsert 190 1\ncount 15 125\nlayout 0\nlayout 1\n";

const REPLIES: &[u8] =
    b"row 0.0\nrow 0.1\nrow 1.0\nrow 1.1\ncount 4\ncount 2\nrow 0.2\nrow 0.3\nrow 1.2\nrow 1.3\ncount 4\n";

/// The layouts if all pending rows are merged.
const ALL_MERGED: &[u8] =
    b"layout 0 rows 4 column 4 out 0 in 0 cells 4 free 0 pieces 2\npiece 0 15 2\npiece 15 100 2\n\
layout 1 rows 4 column 4 out 0 in 0 cells 4 free 0 pieces 2\npiece 100 125 2\npiece 125 18446744073709551616 2\n";

/// Sessions over two partitions whose first line sets a policy.
const POLICIES: &[Script] = &[
    Script {
        splits: &[100],
        limit: GREATEST_LIMIT,
        is_plain: false,
        input: &[b"policy complete\n", TWO_PARTS],
        replies: &[b"policy complete\n", REPLIES, ALL_MERGED],
        how: How::InputEnded,
        statements: 14,
        first_short: None,
    },
    Script {
        splits: &[100],
        limit: GREATEST_LIMIT,
        is_plain: false,
        input: &[b"policy gradual\n", TWO_PARTS],
        replies: &[
            b"policy gradual\n",
            REPLIES,
            b"layout 0 rows 4 column 3 out 0 in 1 cells 4 free 0 pieces 2\npiece 0 15 1\npiece 15 100 2\n\
layout 1 rows 4 column 3 out 0 in 1 cells 4 free 0 pieces 2\npiece 100 125 2\npiece 125 18446744073709551616 1\n",
        ],
        how: How::InputEnded,
        statements: 14,
        first_short: None,
    },
    Script {
        splits: &[100],
        limit: GREATEST_LIMIT,
        is_plain: false,
        input: &[b"policy ripple\n", TWO_PARTS],
        replies: &[
            b"policy ripple\n",
            REPLIES,
            b"layout 0 rows 4 column 3 out 0 in 1 cells 4 free 0 pieces 2\npiece 0 15 1\npiece 15 100 2\n\
layout 1 rows 4 column 2 out 0 in 2 cells 4 free 0 pieces 2\npiece 100 125 2\npiece 125 18446744073709551616 0\n",
        ],
        how: How::InputEnded,
        statements: 14,
        first_short: None,
    },
    Script {
        splits: &[100],
        limit: GREATEST_LIMIT,
        is_plain: false,
        input: &[b"policy auto\n", TWO_PARTS],
        replies: &[b"policy auto\n", REPLIES, ALL_MERGED],
        how: How::InputEnded,
        statements: 14,
        first_short: None,
    },
];

/// A statement uses the session's policy at each of its partitions.
#[test]
fn each_partition_is_asked_by_the_policy(rt: HostRuntime) {
    'scripts: for place in 0..POLICIES.len() {
        assert_script(&rt, rt.alloc(), POLICIES[place]);
    }
}
