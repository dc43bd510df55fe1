//! Texts with the greatest and least numbers, also of a layout.
use crate::texts::{add, add_reply, add_row};
use crack_commands::{push_head, push_layout_head, push_piece};
use crack_row::{
    Bound, GREATEST_BOUND, GREATEST_KEY, GREATEST_PAYLOAD, Key, LEAST_PAYLOAD, Layout, Payload,
    PayloadNumber, PieceList, PieceSize, Reply, Row, Serial,
};
use crack_session::Output;
use std::alloc::Global;
use std::process::Abort;

/// A row with the greatest serial and key, and this payload.
fn greatest_row(payload: PayloadNumber) -> Row {
    Row {
        serial: Serial(u64::MAX),
        key: Key::from_number(GREATEST_KEY),
        payload: Payload::from_number(payload),
    }
}

/// A layout with the greatest numbers, and two pieces.
fn greatest_layout(rt: &impl Abort, alloc: Global) -> Layout {
    let piece = PieceSize {
        low: Bound::from_number(GREATEST_BOUND),
        high: Bound::from_number(GREATEST_BOUND),
        size: u64::MAX,
    };
    let mut pieces = Vec::new(alloc);
    assert!(rt; pieces.extend_from_slice(&[piece, piece]).is_ok());
    Layout {
        rows: u64::MAX,
        column: u64::MAX,
        pending_out: u64::MAX,
        pending_in: u64::MAX,
        cells: u64::MAX,
        free: u64::MAX,
        pieces: PieceList::from_vec(pieces),
    }
}

/// Adds replies with the greatest numbers.
fn add_greatest(rt: &impl Abort, text: &mut Vec<u8>) {
    add_reply(rt, text, u32::MAX, Reply::Placed(Serial(u64::MAX)));
    add_reply(rt, text, 0, Reply::Gone(greatest_row(GREATEST_PAYLOAD)));
    add_reply(rt, text, 0, Reply::Summed(i128::MAX));
    let mut out = Output::new();
    push_head(&mut out, u64::MAX);
    add(rt, text, &out);
    add_row(rt, text, u32::MAX, &greatest_row(GREATEST_PAYLOAD));
}

/// Adds replies with the least payload, the least sum, and sums next to 0.
fn add_least(rt: &impl Abort, text: &mut Vec<u8>) {
    add_reply(rt, text, 0, Reply::Gone(greatest_row(LEAST_PAYLOAD)));
    add_reply(rt, text, 0, Reply::Summed(i128::MIN));
    add_reply(rt, text, 0, Reply::Summed(-1));
    add_reply(rt, text, 0, Reply::Summed(0));
    add_row(rt, text, 0, &greatest_row(LEAST_PAYLOAD));
}

/// Adds the lines of a layout of partition 4294967295.
fn add_layout(rt: &impl Abort, text: &mut Vec<u8>, layout: &Layout) {
    let mut out = Output::new();
    push_layout_head(&mut out, u32::MAX, layout);
    add(rt, text, &out);
    'pieces: for piece in layout.pieces.as_slice() {
        let mut line = Output::new();
        push_piece(&mut line, piece);
        add(rt, text, &line);
    }
}

/// The texts of these replies.
const REPLIES: &[u8] =
    b"row 4294967295.18446744073709551615\ngone 18446744073709551615 9223372036854775807\n\
sum 170141183460469231731687303715884105727\n\
rows 18446744073709551615\n4294967295.18446744073709551615 18446744073709551615 9223372036854775807\n\
gone 18446744073709551615 -9223372036854775808\nsum -170141183460469231731687303715884105728\nsum -1\nsum 0\n\
0.18446744073709551615 18446744073709551615 -9223372036854775808\n";

#[test]
fn greatest_numbers_and_least_are_appended(rt: HostRuntime) {
    let mut text = Vec::new(rt.alloc());
    add_greatest(&rt, &mut text);
    add_least(&rt, &mut text);
    assert_eq!(rt; text.as_slice(), REPLIES);
}

/// The text of the layout of the greatest numbers.
const GREATEST_TEXT: &[u8] =
    b"layout 4294967295 rows 18446744073709551615 column 18446744073709551615 out 18446744073709551615 \
in 18446744073709551615 cells 18446744073709551615 free 18446744073709551615 pieces 2\n\
piece 18446744073709551616 18446744073709551616 18446744073709551615\n\
piece 18446744073709551616 18446744073709551616 18446744073709551615\n";

#[test]
fn a_layout_is_appended(rt: HostRuntime) {
    let layout = greatest_layout(&rt, rt.alloc());
    let mut text = Vec::new(rt.alloc());
    add_layout(&rt, &mut text, &layout);
    drop(layout);
    assert_eq!(rt; text.as_slice(), GREATEST_TEXT);
}
