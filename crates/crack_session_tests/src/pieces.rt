//! Random sessions that are fed in random pieces have the same replies as whole ones.
ghost use Rattle.std.specs.Prelude.{◌<◌, ◌≤◌, length};

use crate::session::{core, tell};
use crack_failing::Source;
use crack_row::{GREATEST_LIMIT, Policy};
use crack_session::{Desk, Fed, OUTPUT_BYTES, Output, Session, Why};
use std::alloc::Global;
use std::process::Abort;

/// Lines for random sessions: of most forms, refused, blank, or with a carriage return.
const LINES: [&[u8]; 20] = [
    b"insert 7 70",
    b"insert 107 -3",
    b"insert  12   5",
    b"insert 205 9\r",
    b"delete 0.0",
    b"delete 1.2",
    b"update 0.1 8 80",
    b"count 0 300",
    b"sum 0 150",
    b"select 0 300",
    b"select 100 200",
    b"layout 1",
    b"checkpoint 0",
    b"policy ripple",
    b"policy auto",
    b"",
    b"  ",
    b"count 5 1",
    b"insert 1",
    b"select",
];

/// The greatest number of bytes in a session.
const MOST_BYTES: usize = 100000;

/// The next pseudorandom number below `end`.
fn below(numbers: &mut u64, end: u64) -> u64
    requires { 0 < end }
    ensures { result < end }
{
    *numbers = numbers
        .wrapping_mul(6364136223846793005)
        .wrapping_add(1442695040888963407);
    (*numbers >> 33) % end
}

/// Random lines, of which one in a few hundred is too long, and the last may have no line feed.
fn random_lines(rt: &impl Abort, alloc: Global, numbers: &mut u64, count: u64) -> Vec<u8> {
    let mut text = Vec::new(alloc);
    'lines: for _line in 0..count {
        let place = below(numbers, 20) as usize;
        assert!(rt; text.extend_from_slice(LINES[place]).is_ok());
        if below(numbers, 300) == 0 {
            assert!(rt; text.extend_from_slice([b'x'; 300].as_slice()).is_ok());
        }
        assert!(rt; text.push(b'\n').is_ok());
    }
    assert!(rt;
        text.extend_from_slice(LINES[below(numbers, 20) as usize])
            .is_ok()
    );
    text
}

/// Feeds bytes. Its contract is only that no more are taken.
fn feed<D: Desk>(
    alloc: Global,
    desk: &mut D,
    session: &mut Session,
    bytes: &[u8],
    output: &mut Output,
) -> Fed
    ensures { result.taken ≤ length bytes.now }
{
    session.feed(alloc, desk, bytes, output)
}

/// Ends the input. It has no contract.
fn end<D: Desk>(alloc: Global, desk: &mut D, session: &mut Session, output: &mut Output) -> Fed {
    session.end(alloc, desk, output)
}

/// Appends the output to a text, and clears it.
fn take(rt: &impl Abort, text: &mut Vec<u8>, output: &mut Output) {
    assert!(rt; text.extend_from_slice(output.as_slice()).is_ok());
    output.clear();
}

/// Feeds random pieces of at most `most` bytes, clears the output at each stop, and returns why the session stopped.
fn feed_pieces<D: Desk>(
    rt: &impl Abort,
    alloc: Global,
    desk: &mut D,
    session: &mut Session,
    bytes: &[u8],
    most: u64,
    text: &mut Vec<u8>,
) -> Why
    requires { 0 < most }
{
    let mut output = Output::new();
    let mut numbers = most;
    let mut taken = 0;
    'pieces: for _piece in 0..MOST_BYTES {
        let piece = 1 + below(&mut numbers, most) as usize;
        let rest = &bytes[taken..];
        let fed = feed(
            alloc,
            desk,
            session,
            &rest[..piece.min(rest.len())],
            &mut output,
        );
        taken += fed.taken;
        take(rt, text, &mut output);
        if matches!(fed.why, Why::Quit | Why::Refused) {
            return fed.why;
        }
        if taken == bytes.len() && fed.why == Why::Wants {
            break;
        }
    }
    assert_eq!(rt; taken, bytes.len());
    let last = end(alloc, desk, session, &mut output);
    take(rt, text, &mut output);
    last.why
}

/// Asserts that a session that is fed in pieces has the same replies as one that reads all bytes at once.
fn assert_fed(rt: &impl Abort, alloc: Global, bytes: &[u8], most: u64, ends: Why)
    requires { 0 < most }
{
    let mut desk = core(rt, alloc, &[100, 200], GREATEST_LIMIT);
    let (found, whole) = tell(rt, alloc, &mut desk, Policy::Complete, Source::new(bytes));
    drop(desk);
    let mut session = Session::new(Policy::Complete);
    let mut text = Vec::new(alloc);
    let mut desk = core(rt, alloc, &[100, 200], GREATEST_LIMIT);
    let why = feed_pieces(rt, alloc, &mut desk, &mut session, bytes, most, &mut text);
    drop(desk);
    let counts = (session.statements(), session.first_short());
    assert_eq!(rt; (text.as_slice(), why), (whole.as_slice(), ends));
    assert_eq!(rt;
        found.ok().map(|end| (end.statements, end.first_short)),
        Some(counts)
    );
}

#[test]
fn random_sessions_in_pieces_are_answered_as_whole_ones(rt: HostRuntime) {
    'seeds: for seed in 0..30u64 {
        let mut numbers = seed;
        let bytes = random_lines(&rt, rt.alloc(), &mut numbers, 40);
        'sizes: for most in [1, 2, 9, 50, 5000] {
            assert_fed(&rt, rt.alloc(), &bytes, most, Why::Wants);
        }
    }
}

#[test]
fn a_session_that_is_fed_ends_where_a_whole_one_does(rt: HostRuntime) {
    'sizes: for most in [1, 3, 20, 100] {
        let quit = b"insert 1 2\nquit\ninsert 3 4\n";
        assert_fed(&rt, rt.alloc(), quit, most, Why::Quit);
        let request = b"count 0 9\nGET / HTTP/1.1\r\ninsert 3 4\n";
        assert_fed(&rt, rt.alloc(), request, most, Why::Refused);
    }
}

#[test]
fn a_list_that_is_longer_than_output_is_written_whole(rt: HostRuntime) {
    let mut bytes = Vec::new(rt.alloc());
    'rows: for _row in 0..2000u32 {
        assert!(rt; bytes.extend_from_slice(b"insert 150 1234567890\n").is_ok());
    }
    let list = b"select 0 200\nselect 0 300\nlayout 1\n";
    assert!(rt; bytes.extend_from_slice(list).is_ok());
    assert!(rt; OUTPUT_BYTES < 2000 * 20);
    assert_fed(&rt, rt.alloc(), &bytes, 5000, Why::Wants);
}
