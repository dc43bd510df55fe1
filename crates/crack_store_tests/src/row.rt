//! Copies of replies, the size of an entry, lists of pieces, intersections of ranges, and a writer that accepts
//! nothing.

use crack_row::{
    Bound, BoundNumber, Entry, GREATEST_BOUND, GREATEST_KEY, GREATEST_PAYLOAD, Key, KeyNumber,
    KeyRange, LEAST_PAYLOAD, Payload, PayloadNumber, PieceList, PieceSize, Refusal, Reply, Row,
    RowList, Serial, Watched,
};
use std::alloc::Global;
use std::io;
use std::io::Write;
use std::process::Abort;

/// A writer that accepts no bytes.
#[derive(Drop)]
struct Full;

impl Write for Full {
    fn write(&mut self, buf: &[u8]) -> io::Result<usize> {
        let _ = buf.len();
        Ok(0)
    }

    fn flush(&mut self) -> io::Result<()> {
        Ok(())
    }
}

/// A row of these numbers.
fn row(serial: u64, key: KeyNumber, payload: PayloadNumber) -> Row {
    Row {
        serial: Serial(serial),
        key: Key::from_number(key),
        payload: Payload::from_number(payload),
    }
}

/// A copy of a reply.
fn copy_of(rt: &impl Abort, alloc: Global, reply: &Reply) -> Reply {
    reply.copy(alloc).expect(rt, "a copy")
}

/// Asserts that a copy of the reply to a delete has this row, and differs from a reply with another payload.
fn assert_gone(rt: &impl Abort, alloc: Global, row: Row) {
    let gone = copy_of(rt, alloc, &Reply::Gone(row));
    let other = Row {
        payload: Payload::from_number(GREATEST_PAYLOAD),
        ..row
    };
    assert!(rt; !gone.is_same(&Reply::Gone(other)));
    assert!(rt; matches!(gone, Reply::Gone(gone) if gone == row));
}

/// Asserts that a copy of the reply to a sum has this sum.
fn assert_summed(rt: &impl Abort, alloc: Global, sum: i128) {
    let summed = copy_of(rt, alloc, &Reply::Summed(sum));
    assert!(rt; matches!(summed, Reply::Summed(summed) if summed == sum));
}

/// Also rows with the greatest key or the least payload, and the least sum.
#[test]
fn flat_replies_are_copied(rt: HostRuntime) {
    let placed = copy_of(&rt, rt.alloc(), &Reply::Placed(Serial(3)));
    assert!(rt; matches!(placed, Reply::Placed(Serial(3))));
    assert_gone(&rt, rt.alloc(), row(3, 7, 70));
    assert_gone(&rt, rt.alloc(), row(u64::MAX, GREATEST_KEY, LEAST_PAYLOAD));
    assert_summed(&rt, rt.alloc(), 79228162514264337593543950335);
    assert_summed(&rt, rt.alloc(), i128::MIN);
}

#[test]
fn listed_rows_are_copied(rt: HostRuntime) {
    let rows = [row(3, 7, 70), row(4, 6, 60)];
    let mut list = Vec::new(rt.alloc());
    assert!(rt; list.extend_from_slice(&rows).is_ok());
    let list = RowList::from_vec(list);
    let copied = list.copy(rt.alloc()).expect(&rt, "a copy");
    drop(list);
    assert!(rt; copied.as_slice() == rows.as_slice());
}

#[test]
fn pieces_are_listed(rt: HostRuntime) {
    let piece = PieceSize {
        low: Bound::from_number(0),
        high: Bound::from_number(15),
        size: 2,
    };
    let mut pieces = Vec::new(rt.alloc());
    assert!(rt; pieces.push(piece).is_ok());
    let list = PieceList::from_vec(pieces);
    assert!(rt; list.as_slice() == [piece].as_slice());
}

/// The range from a low end up to a high one.
fn range(rt: &impl Abort, low: BoundNumber, high: BoundNumber) -> KeyRange {
    KeyRange::new(low, high).expect(rt, "a range")
}

/// The intersection of two adjacent ranges is the empty range at the higher one's low end. The range of only the
/// greatest key ends at the greatest bound, which no range exceeds. Also the size of a history's entry, without the
/// rows of a select.
#[test]
fn ranges_and_entries_at_their_ends(rt: HostRuntime) {
    let common = range(&rt, 0, 50).clip(range(&rt, 50, 60));
    let ends = [common.low().number(), common.high().number()];
    assert!(rt; common.is_empty() && ends == [50, 50]);
    let greatest = range(&rt, 18446744073709551615, 18446744073709551616);
    let contained = [
        greatest.contains(Key::from_number(18446744073709551615)),
        greatest.contains(Key::from_number(18446744073709551614)),
        greatest.contains(Key::from_number(4294967295)),
    ];
    assert!(rt; contained == [true, false, false]);
    assert!(rt; greatest.high().number() == GREATEST_BOUND);
    let past = KeyRange::new(0, 18446744073709551617).err();
    assert!(rt; past == Some(Refusal::BadRange));
    assert!(rt; size_of::<Entry>() <= 96);
}

/// How many of these bytes a writer accepts.
fn taken(rt: &impl Abort, writer: &mut Watched<Full>, bytes: &[u8]) -> usize {
    writer.write(bytes).ok().expect(rt, "no failure")
}

#[test]
fn a_writer_that_takes_none(rt: HostRuntime) {
    let mut writer = Watched::new(Full);
    assert!(rt; taken(&rt, &mut writer, b"") == 0);
    assert!(rt; !writer.failed());
    assert!(rt; taken(&rt, &mut writer, b"bye") == 0);
    assert!(rt; writer.failed());
}
