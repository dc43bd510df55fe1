//! Sessions over memory, and desks without a session.
use crate::desks::Refusing;
use crate::plain_desk::PlainDesk;
use crack_core::Core;
use crack_failing::Source;
use crack_row::{
    Bound, BoundNumber, Command, GREATEST_LIMIT, Key, KeyRange, Payload, Policy, Refusal, Reply,
    Serial, Watched,
};
use crack_session::{Desk, Fault, How, SessionEnd, serve};
use std::alloc::Global;
use std::io::{Read, Write};
use std::process::Abort;

/// Runs a session. It has no contract, so that no test carries the contract of `serve`.
pub fn session<D: Desk, R: Read, W: Write>(
    alloc: Global,
    desk: &mut D,
    policy: Policy,
    reader: &mut Watched<R>,
    writer: &mut Watched<W>,
) -> Result<SessionEnd, Fault> {
    serve(alloc, desk, policy, reader, writer)
}

/// The expected result of a session whose input ends after this many statements.
pub fn ended(statements: u64, first_short: Option<u64>) -> SessionEnd {
    SessionEnd {
        how: How::InputEnded,
        statements,
        first_short,
    }
}

/// Joins the parts.
pub fn joined(rt: &impl Abort, alloc: Global, parts: &[&[u8]]) -> Vec<u8> {
    let mut all = Vec::new(alloc);
    for part in parts {
        assert!(rt; all.extend_from_slice(part).is_ok());
    }
    all
}

/// A buffer for a text. If memory is refused, it is requested once more.
pub fn room(rt: &impl Abort, alloc: Global) -> Vec<u8> {
    let mut room = Vec::with_capacity(alloc, 2048);
    if room.is_err() {
        room = Vec::with_capacity(alloc, 2048);
    }
    room.expect(rt, "room")
}

/// Runs a session over memory, and returns its result and its text.
pub fn tell<D: Desk>(
    rt: &impl Abort,
    alloc: Global,
    desk: &mut D,
    policy: Policy,
    source: Source<'_>,
) -> (Result<SessionEnd, Fault>, Vec<u8>) {
    let mut reader = Watched::new(source);
    let mut writer = Watched::new(room(rt, alloc));
    let end = session(alloc, desk, policy, &mut reader, &mut writer);
    drop(reader);
    (end, writer.into_inner())
}

/// Asserts the replies and the result of a session over memory.
pub fn assert_session<D: Desk>(
    rt: &impl Abort,
    alloc: Global,
    desk: &mut D,
    source: Source<'_>,
    replies: &[u8],
    end: SessionEnd,
) {
    let (found, text) = tell(rt, alloc, desk, Policy::Complete, source);
    assert_eq!(rt; (found, text.as_slice()), (Ok(end), replies));
}

/// The bounds with these numbers.
pub fn bounds_of(rt: &impl Abort, alloc: Global, numbers: &[BoundNumber]) -> Vec<Bound> {
    let mut bounds = Vec::new(alloc);
    for number in numbers {
        assert!(rt; bounds.push(Bound::from_number(*number)).is_ok());
    }
    bounds
}

/// A core with these splits and this history limit.
pub fn core(rt: &impl Abort, alloc: Global, splits: &[BoundNumber], limit: u64) -> Core {
    let bounds = bounds_of(rt, alloc, splits);
    Core::open(alloc, &bounds, limit).expect(rt, "a core")
}

/// Asserts that a refusal prints as its reply, and whether it is for lack of room.
fn assert_printed(rt: &impl Abort, alloc: Global, refusal: Refusal, first_short: Option<u64>) {
    let printed = format!(in alloc; "{refusal}\n").expect(rt, "memory");
    let mut desk = Refusing::new(alloc, refusal, 1, u64::MAX);
    let source = Source::new(b"count 0 1\n");
    let end = ended(1, first_short);
    assert_session(rt, alloc, &mut desk, source, printed.as_bytes(), end);
    drop(desk);
}

#[test]
fn refusals_are_printed_as_they_are_replied(rt: HostRuntime) {
    let full = Refusal::HistoryFull {
        length: GREATEST_LIMIT,
    };
    for refusal in [full, Refusal::OutOfMemory] {
        assert_printed(&rt, rt.alloc(), refusal, Some(1));
    }
    for refusal in [
        Refusal::BadStatement,
        Refusal::BadRange,
        Refusal::KeyOutside,
        Refusal::NoSuchPartition,
        Refusal::BadLimit,
        Refusal::ReadFault,
        Refusal::WriteFault,
    ] {
        assert_printed(&rt, rt.alloc(), refusal, None);
    }
}

/// A layout that finds no memory is a refusal for lack of room.
#[test]
fn a_layout_that_finds_no_memory(rt: HostRuntime) {
    let mut desk = Refusing::new(rt.alloc(), Refusal::OutOfMemory, 1, u64::MAX);
    let source = Source::new(b"policy gradual\nlayout 0");
    let replies = b"policy gradual\nrefused 8\n";
    assert_session(
        &rt,
        rt.alloc(),
        &mut desk,
        source,
        replies,
        ended(2, Some(2)),
    );
    drop(desk);
}

/// Executes a command at a desk. It has no contract, so that no test carries the contract of `ask`.
fn ask<D: Desk>(desk: &mut D, part: u32, command: Command) -> Result<Reply, Refusal> {
    desk.ask(part, command, Policy::Complete)
}

/// Asserts replies of a desk, how many commands it accepted, and that it has one partition.
fn ask_it<D: Desk>(rt: &impl Abort, desk: &mut D) {
    let insert = Command::Insert {
        key: Key::from_number(7),
        payload: Payload::from_number(70),
    };
    assert!(rt; matches!(ask(desk, 0, insert), Ok(Reply::Placed(Serial(0)))));
    let range = KeyRange::new(7, 8).expect(rt, "a range");
    assert!(rt; matches!(ask(desk, 0, Command::Count(range)), Ok(Reply::Counted(1))));
    let elsewhere = ask(desk, 1, insert);
    assert!(rt; matches!(elsewhere, Err(Refusal::NoSuchPartition)));
    assert!(rt; desk.accepted() == 2 && desk.splits().is_empty());
}

#[test]
fn desks(rt: HostRuntime) {
    let mut desk = core(&rt, rt.alloc(), &[], GREATEST_LIMIT);
    ask_it(&rt, &mut desk);
    drop(desk);
    let mut table = PlainDesk::new(rt.alloc());
    ask_it(&rt, &mut table);
    drop(table);
}
