//! A session over a reader and a writer: read, feed, write.
ghost use Rattle.std.specs.Prelude.{◌≡◌, ℕ, ◌+◌, ◌-◌, ◌^◌, ◌≤◌, min, true, [], take, OnOk, IfOk, IfErr};
ghost use Rattle.std.specs.Io.KnownBytes.{Keeps};
ghost use Rattle.crack_row.specs.Devices.{device, has_failed, reads_of};
ghost use Rattle.crack_session.specs.Feeding.{SessionState, StoppedFor};
ghost use Rattle.crack_session.specs.Rounds.{IsNewSession, IsRound, has_stopped};
ghost use Rattle.crack_session.specs.Serving.{IsServed, IsCutOff, IsCause};
ghost use Rattle.crack_session.specs.Turns.{Sends, ReadsOnce, IsTurn, StopsAs, fed_by};

use crate::MOST_READS;
use crate::desk::Desk;
use crate::feeding::{Fed, Session, Why};
use crate::input::READ_BYTES;
use crate::output::flush;
use crate::rest::Output;
use crate::session::{Fault, How, SessionEnd};
use crack_commands::send;
use crack_row::{Policy, Refusal, Watched};
use std::alloc::Global;
use std::io::{Read, Write};

/// Answers the statements that it reads from `reader`, each whole line before the next read. Ends when the input ends
/// or a line ends the session: the statement `quit`, or a line of an HTTP request, which is refused with
/// `BadStatement`. What was read after that line is dropped. Commands use `policy` until a statement sets another.
/// Texts are written when a read is answered or the output is full, and flushed before each read and at the end: if
/// the texts of one read fit into the output, there is one write for each read. Cut off with `WriteFault` if the
/// writer fails, and with `ReadFault` if the reader fails or after `MOST_READS` reads. Takes the memory that the desk
/// takes, and memory for the replies of several partitions to one statement, but none for a line, so it is never cut
/// off with `OutOfMemory`.
pub fn serve<D: Desk, R: Read, W: Write>(
    alloc: Global,
    desk: &mut D,
    policy: Policy,
    reader: &mut Watched<R>,
    writer: &mut Watched<W>,
) -> Result<SessionEnd, Fault>
    // Whatever the devices do, the desk executed exactly what the statements of some bytes require, and the texts of
    // the answers were written. If the reader's bytes are known, they are these bytes; if the writer's contents are
    // known, the texts follow them.
    ensures ends { IfOk result (λ end. IsServed D.bounds D.splits D.tables D.leads policy desk.old desk.new
        (R.remaining (device reader.old)) (W.contents (device writer.old)) (W.contents (device writer.new)) end) }
    // If the session is cut off, the first `done` statements were answered, and a prefix of their texts was written:
    // all if the reader failed, and otherwise all but what the output holds and the rest of one text.
    ensures cut_off { IfErr result (λ fault. IsCutOff D.bounds D.splits D.tables D.leads policy desk.old desk.new
        (R.remaining (device reader.old)) (R.remaining (device reader.new)) (W.contents (device writer.old))
        (W.contents (device writer.new)) fault) }
    // In any case the desk's bounds and splits are unchanged, so that another session or an export can continue with
    // it.
    ensures splits { D.splits desk.new ≡ D.splits desk.old }
    ensures bounds { D.bounds desk.new ≡ D.bounds desk.old }
    // If the session isn't cut off, no device has failed.
    ensures unfailed { OnOk result ((has_failed reader.new ≡ has_failed reader.old)
        × (has_failed writer.new ≡ has_failed writer.old)) }
    // The session is cut off only if a device failed, or after `MOST_READS` reads, each of which brought a byte.
    ensures causes { IfErr result (λ fault. IsCause fault.refusal (has_failed reader.new) (has_failed writer.new)
        (reads_of reader.old) (reads_of reader.new) (R.remaining (device reader.old))) }
{
    let mut session = Session::new(policy);
    match serve_reads(alloc, desk, &mut session, reader, writer) {
        Ok(how) => Ok(SessionEnd {
            how,
            statements: session.statements(),
            first_short: session.first_short(),
        }),
        Err(refusal) => Err(Fault {
            refusal,
            done: session.statements(),
            first_short: session.first_short(),
        }),
    }
}

/// Makes the reads of a new session, one after another, until it ends, and returns how it ended. Refused with
/// `ReadFault` or `WriteFault` if a device fails, and with `ReadFault` after `MOST_READS` reads.
fn serve_reads<D: Desk, R: Read, W: Write>(
    alloc: Global,
    desk: &mut D,
    session: &mut Session,
    reader: &mut Watched<R>,
    writer: &mut Watched<W>,
) -> Result<How, Refusal>
    requires begins { IsNewSession session.old }
    ensures ends { IfOk result (λ how. IsServed D.bounds D.splits D.tables D.leads session.old.progress.policy desk.old
        desk.new (R.remaining (device reader.old)) (W.contents (device writer.old)) (W.contents (device writer.new))
        (record {
          how = how;
          statements = session.new.progress.statements;
          first_short = session.new.progress.first_short;
        })) }
    ensures cut_off { IfErr result (λ refusal. IsCutOff D.bounds D.splits D.tables D.leads session.old.progress.policy
        desk.old desk.new (R.remaining (device reader.old)) (R.remaining (device reader.new))
        (W.contents (device writer.old)) (W.contents (device writer.new)) (record {
          refusal = refusal;
          done = session.new.progress.statements;
          first_short = session.new.progress.first_short;
        })) }
    ensures splits { D.splits desk.new ≡ D.splits desk.old }
    ensures bounds { D.bounds desk.new ≡ D.bounds desk.old }
    ensures unfailed { OnOk result ((has_failed reader.new ≡ has_failed reader.old)
        × (has_failed writer.new ≡ has_failed writer.old)) }
    ensures causes { IfErr result (λ refusal. IsCause refusal (has_failed reader.new) (has_failed writer.new)
        (reads_of reader.old) (reads_of reader.new) (R.remaining (device reader.old))) }
{
    let mut room = [0u8; READ_BYTES];
    let mut out = Output::new();
    if let Err(refusal) = flush(writer) {
        return Err(refusal);
    }
    let mut reads = 0;
    'reads: while reads < MOST_READS {
        reads += 1;
        match serve_read(alloc, desk, session, &mut room, &mut out, reader, writer) {
            Ok(None) => (),
            Ok(Some(how)) => return Ok(how),
            Err(refusal) => return Err(refusal),
        }
    }
    Err(Refusal::ReadFault)
}

/// Reads once into `room`, answers the bytes, writes the texts and flushes. At the end of the input an unfinished line
/// is answered. Returns how the session ended, or `None` if it goes on. Refused with `ReadFault` or `WriteFault` if a
/// device fails. The output `out` is empty before the call and after it. The session is fed the bytes that were read,
/// or a line feed at the end of the input. The texts that it appends are written; if the writer fails, only a prefix of
/// them is, and no more is lost than fits into the output. Takes no memory but the desk's, except for a query of
/// several partitions.
pub fn serve_read<D: Desk, R: Read, W: Write>(
    alloc: Global,
    desk: &mut D,
    session: &mut Session,
    room: &mut [u8; READ_BYTES],
    out: &mut Output,
    reader: &mut Watched<R>,
    writer: &mut Watched<W>,
) -> Result<Option<How>, Refusal>
    requires empty { out.old.items ≡ [] }
    requires written { session.old.unwritten ≡ [] }
    ensures turn { IsTurn D.bounds D.splits D.tables D.leads R.remaining W.contents session.old result desk.old desk.new
        reader.old reader.new writer.old writer.new session.new }
    ensures empty { out.new.items ≡ [] }
{
    match read_some(reader, room) {
        Ok(count) => serve_bytes(alloc, desk, session, &room[..count], out, writer),
        Err(refusal) => Err(refusal),
    }
}

/// Reads as many bytes as are available and fit into `room`, and returns how many. Returns 0 only at the end of the
/// input. Refused with `ReadFault` if the reader fails.
fn read_some<R: Read>(
    reader: &mut Watched<R>,
    room: &mut [u8; READ_BYTES],
) -> Result<usize, Refusal>
    ensures within { IfOk result (λ count. count ≤ READ_BYTES) }
    ensures once { IfOk result (λ count. ReadsOnce R.remaining reader.old reader.new (take count room.new)) }
    ensures counted { reads_of reader.new ≡ min (reads_of reader.old + 1) (2 ^ 64 - 1) }
    ensures err { IfErr result (λ e. (e ≡ Refusal.ReadFault) × (has_failed reader.new ≡ true)
        × Keeps (R.remaining (device reader.old)) (R.remaining (device reader.new))) }
{
    match reader.read(room) {
        Ok(count) => Ok(count),
        Err(_) => Err(Refusal::ReadFault),
    }
}

/// Answers the bytes of a read, or an unfinished line if there are no bytes because the input has ended. Writes the
/// texts and flushes. Returns how the session ended, or `None` if it goes on. Refused with `WriteFault` if the writer
/// fails.
fn serve_bytes<D: Desk, W: Write>(
    alloc: Global,
    desk: &mut D,
    session: &mut Session,
    bytes: &[u8],
    out: &mut Output,
    writer: &mut Watched<W>,
) -> Result<Option<How>, Refusal>
    requires empty { out.old.items ≡ [] }
    requires written { session.old.unwritten ≡ [] }
    ensures sends { Sends D.bounds D.splits D.tables D.leads W.contents (λ how left s. StopsAs how bytes.now left s)
        session.old (fed_by bytes.now) result desk.old desk.new writer.old writer.new session.new }
    ensures empty { out.new.items ≡ [] }
{
    match feed_all(alloc, desk, session, fed_by(bytes), out, writer) {
        Ok(why) => match flush(writer) {
            Ok(()) => Ok(how_after(why, bytes)),
            Err(refusal) => Err(refusal),
        },
        Err(refusal) => Err(refusal),
    }
}

/// The bytes that the session is fed for a read: the bytes that were read, or, if there are none because the input has
/// ended, a line feed.
#[inline(always)]
fn fed_by(bytes: &[u8]) -> &[u8]
    ensures { result.now ≡ fed_by bytes.now }
{
    if bytes.is_empty() { b"\n" } else { bytes }
}

/// How a session ended that stopped for the reason `why` after a read of `bytes`: `Quit` if a line ended it, else
/// `InputEnded` if `bytes` are empty, because the input has ended. `None` if the session goes on.
fn how_after(why: Why, bytes: &[u8]) -> Option<How>
    ensures { (left : ℕ) → (s : SessionState) → StoppedFor why left [] s → StopsAs result bytes.now left s }
{
    match why {
        Why::Quit | Why::Refused => Some(How::Quit),
        Why::Wants | Why::Full => {
            if bytes.is_empty() {
                Some(How::InputEnded)
            } else {
                None
            }
        }
    }
}

/// Feeds all bytes to a session, or those up to a line that ends it, and writes its texts whenever the output is full
/// and at the end. Returns why the session stopped: `Wants`, or, if a line has ended it, `Quit` or `Refused`. Refused
/// with `WriteFault` if the writer fails.
fn feed_all<D: Desk, W: Write>(
    alloc: Global,
    desk: &mut D,
    session: &mut Session,
    bytes: &[u8],
    out: &mut Output,
    writer: &mut Watched<W>,
) -> Result<Why, Refusal>
    requires empty { out.old.items ≡ [] }
    requires written { session.old.unwritten ≡ [] }
    ensures sends { Sends D.bounds D.splits D.tables D.leads W.contents (λ why left s. StoppedFor why left [] s)
        session.old bytes.now result desk.old desk.new writer.old writer.new session.new }
    ensures empty { out.new.items ≡ [] }
{
    let mut taken = 0;
    'pieces: loop {
        let (fed, sent) = feed_once(alloc, desk, session, &bytes[taken..], out, writer);
        taken += fed.taken;
        if let Err(refusal) = sent {
            return Err(refusal);
        }
        if has_stopped(fed.why) {
            return Ok(fed.why);
        }
        match feed_rest(alloc, desk, session, out, writer) {
            Ok(()) => (),
            Err(refusal) => return Err(refusal),
        }
    }
}

/// Whether a session stopped for another reason than a full output.
#[inline(always)]
fn has_stopped(why: Why) -> bool
    ensures { result ≡ has_stopped why }
{
    !matches!(why, Why::Full)
}

/// Writes the rest of a text that didn't fit into the output, in as many writes as it needs. Refused with
/// `WriteFault` if the writer fails.
#[inline(never)]
fn feed_rest<D: Desk, W: Write>(
    alloc: Global,
    desk: &mut D,
    session: &mut Session,
    out: &mut Output,
    writer: &mut Watched<W>,
) -> Result<(), Refusal>
    requires empty { out.old.items ≡ [] }
    ensures sends { Sends D.bounds D.splits D.tables D.leads W.contents (λ done left s. s.unwritten ≡ []) session.old []
        result desk.old desk.new writer.old writer.new session.new }
    ensures empty { out.new.items ≡ [] }
{
    'rest: loop {
        let (fed, sent) = feed_once(alloc, desk, session, &[], out, writer);
        if let Err(refusal) = sent {
            return Err(refusal);
        }
        if has_stopped(fed.why) {
            return Ok(());
        }
    }
}

/// Feeds bytes to a session once, until it stops because the output is full, it wants more, or a line has ended it.
/// Writes the texts and clears the output. Returns the result of the feed, and that of the write.
fn feed_once<D: Desk, W: Write>(
    alloc: Global,
    desk: &mut D,
    session: &mut Session,
    bytes: &[u8],
    out: &mut Output,
    writer: &mut Watched<W>,
) -> (Fed, Result<(), Refusal>)
    requires empty { out.old.items ≡ [] }
    ensures round { IsRound D.bounds D.splits D.tables D.leads W.contents session.old bytes.now result.0.taken
        result.0.why result.1 desk.old desk.new writer.old writer.new session.new }
    ensures empty { out.new.items ≡ [] }
{
    let fed = session.feed(alloc, desk, bytes, out);
    let sent = send(writer, out.as_slice());
    out.clear();
    (fed, sent)
}
