//! Sessions that are fed bytes, whatever the source of the bytes.
ghost use Rattle.std.specs.Prelude.{◌≡◌, ℕ, List, ◌+◌, ◌-◌, ◌<◌, ◌≤◌, ◌++◌, [], ◌∷◌, None, Some, Ok, IfSome, IfNone};
ghost use Rattle.std.specs.Prelude.{IsTrue, IsSome, ◌↔◌, false, length, take};
ghost use Rattle.crack_session.specs.Answers.{IsAnswer, answer_text};
ghost use Rattle.crack_session.specs.Calls.{IsReadingMadeOf};
ghost use Rattle.crack_session.specs.AskingDesks.{AsksDesk, of_option};
ghost use Rattle.crack_session.specs.Lines.{cut_line};
ghost use Rattle.crack_session.specs.Readings.{broken_off, reading_of, statements, until_last};
ghost use Rattle.crack_session.specs.Sessions.{statements_sent};
ghost use Rattle.crack_session.specs.Feeding.{AnswersAll, BreaksOff, Feeds, StoppedFor, ending_after, fed};
ghost use Rattle.crack_session.specs.Feeding.{progress_after, unfinished};
ghost use Rattle.crack_commands.specs.declared.statement.Statement.TheVariants.{Insert};
ghost use Rattle.crack_commands.specs.Texts.{reply_text};
ghost use Rattle.crack_session.specs.declared.answer.Answer.TheVariants.{Replied};

use crate::OUTPUT_BYTES;
use crate::answer::{Answer, answer_statement, part_with_key};
use crate::desk::Desk;
use crate::input::{KEPT_BYTES, feed_at};
use crate::line::read_line;
use crate::rest::{Output, Rest, append_answer, append_reply, has_room};
use crate::session::SessionProgress;
use arrayvec::ArrayVec;
use crack_commands::{ClosingLine, LONGEST_TEXT, Statement, leading_insert, push, push_refusal};
use crack_row::{Command, Key, Payload, Policy, Refusal, Reply};
use std::alloc::Global;
use std::marker::Model;
use std::mem;

/// The state of a session between two calls of `feed`: the unfinished line, the policy and counts, and the rest of a
/// text that didn't fit into the output. It takes no memory.
///
/// An example, from a test:
///
/// ```
/// let mut session = Session::new(Policy::Complete);
/// // ..
/// session.feed(alloc, desk, bytes, output)
/// // ..
/// taken += fed.taken;
/// take(rt, text, &mut output);
/// if matches!(fed.why, Why::Quit | Why::Refused) {
///     return fed.why;
/// }
/// // ..
/// session.end(alloc, desk, output)
/// ```
#[derive(Drop)]
pub struct Session {
    begun: ArrayVec<u8, KEPT_BYTES>,
    progress: SessionProgress,
    rest: Rest,
    ending: Option<ClosingLine>,
}

/// Why a session stopped taking bytes.
#[derive(Clone, Copy, PartialEq, Eq, Debug)]
pub enum Why {
    /// All bytes were taken and all texts appended. The session continues with more bytes.
    Wants,
    /// The output has too little room. The session continues once the output is cleared.
    Full,
    /// A line was `quit`. The session takes no more bytes.
    Quit,
    /// A line belonged to an HTTP request, and was refused with `BadStatement`. The session takes no more bytes.
    Refused,
}

/// The result of `feed`.
#[derive(Clone, Copy, PartialEq, Eq, Debug)]
pub struct Fed {
    /// How many of the bytes were taken.
    pub taken: usize,
    pub why: Why,
}

impl Model for Session {
    ghost use Rattle.crack_session.specs.Feeding.{SessionState, rest_text};

    ghost Value = { SessionState };

    ghost view = { λ s. record {
      begun = s.begun.items;
      progress = s.progress;
      unwritten = rest_text s.rest;
      ending = s.ending;
    } };
}

impl Session {
    /// A new session with this policy, which has answered nothing. Takes no memory.
    pub fn new(policy: Policy) -> Session
        ensures progress { result.progress ≡ record { statements = 0; first_short = None; policy = policy } }
        ensures begun { result.begun ≡ [] }
        ensures unwritten { result.unwritten ≡ [] }
        ensures ending { result.ending ≡ None }
    {
        Session {
            begun: ArrayVec::new(),
            progress: SessionProgress {
                statements: 0,
                first_short: None,
                policy,
            },
            rest: Rest::Nothing,
            ending: None,
        }
    }

    /// How many statements were answered. The count saturates at `u64::MAX`.
    pub fn statements(&self) -> u64
        ensures { result ≡ self.now.progress.statements }
    {
        self.progress.statements
    }

    /// The number, from 1, of the first statement that was refused with `HistoryFull`, `OutOfMemory`, `NoCell` or
    /// `LifeOver`; `None` if none was.
    pub fn first_short(&self) -> Option<u64>
        ensures { result ≡ self.now.progress.first_short }
    {
        self.progress.first_short
    }

    /// Takes the next bytes of the input, answers the statements in the lines that they finish, and appends the texts
    /// to the output. Stops when all bytes are taken, when the output has too little room for the next text or for the
    /// rest of one, or after a line that ends the session. Returns how many bytes were taken, and why the session
    /// stopped. Takes no memory but the desk's, except for a query of several partitions.
    pub fn feed<D: Desk>(
        &mut self,
        alloc: Global,
        desk: &mut D,
        bytes: &[u8],
        out: &mut Output,
    ) -> Fed
        // The session is fed the bytes that are taken, and no others.
        ensures feeds { Feeds D.bounds D.splits D.tables D.leads self.old (take result.taken bytes.now) desk.old
            desk.new out.old.items out.new.items self.new }
        ensures within { result.taken ≤ length bytes.now }
        ensures why { StoppedFor result.why (length bytes.now - result.taken) out.new.items self.new }
    {
        let mut taken = 0;
        'lines: loop {
            if let Some(why) = self.stops(bytes.len() - taken, out) {
                return Fed { taken, why };
            }
            taken += self.take_line(alloc, desk, &bytes[taken..], out);
        }
    }

    /// Takes the end of the input: an unfinished line is answered as if a line feed followed. Returns what `feed`
    /// returns for this line feed. If the session stopped because the output is full, the caller clears the output and
    /// calls `end` again. Costs what `feed` costs.
    pub fn end<D: Desk>(&mut self, alloc: Global, desk: &mut D, out: &mut Output) -> Fed
        ensures feeds { Feeds D.bounds D.splits D.tables D.leads self.old (take result.taken (10 ∷ [])) desk.old
            desk.new out.old.items out.new.items self.new }
        ensures within { result.taken ≤ 1 }
        ensures why { StoppedFor result.why (1 - result.taken) out.new.items self.new }
        // With the line that is answered now, the statements are those of all bytes that were fed.
        ensures whole { (bytes : List ℕ) → self.old.begun ≡ unfinished [] bytes →
            until_last (fed [] bytes ++ fed self.old.begun (10 ∷ [])) ≡ statements bytes }
    {
        self.feed(alloc, desk, b"\n", out)
    }

    /// Whether there is an unfinished line that isn't blank. O(1).
    pub fn has_unfinished(&self) -> bool
        ensures { IsTrue result ↔ IsSome (reading_of self.now.begun) }
    {
        read_line(self.begun.as_slice()).is_some()
    }

    /// Takes the end of an input whose sender is gone, as that of a socket. An unfinished line may be the beginning of
    /// a longer one, so it isn't carried out: unless it is blank, it is answered as a line that isn't a statement, with
    /// `BadStatement`. O(1), no memory.
    pub fn break_off(&mut self, out: &mut Output)
        requires written { self.old.unwritten ≡ [] }
        requires room { length out.old.items + LONGEST_TEXT ≤ OUTPUT_BYTES }
        ensures breaks { BreaksOff self.old out.old.items out.new.items self.new }
        // With the refusal, if there is one, the statements are those of all bytes that were fed.
        ensures whole { (bytes : List ℕ) → self.old.begun ≡ unfinished [] bytes →
            until_last (fed [] bytes ++ broken_off self.old.begun) ≡ statements_sent bytes }
    {
        if self.finish(&[]).is_none() {
            return;
        }
        note(&mut self.progress, &Answer::Refused(Refusal::BadStatement));
        push_refusal(out, &Refusal::BadStatement);
    }

    /// Appends as much of the rest of a text as there is room for. Returns `None` if the session takes some of the
    /// `left` bytes that are offered next, else why it takes none: `Full` if there is still a rest, or no room for the
    /// longest text; `Quit` or `Refused` if a line has ended it; `Wants` if `left` is 0.
    #[inline(always)]
    fn stops(&mut self, left: usize, out: &mut Output) -> Option<Why>
        ensures text { out.new.items ++ self.new.unwritten ≡ out.old.items ++ self.old.unwritten }
        ensures grows { length out.old.items ≤ length out.new.items }
        ensures same { self.new ≡ record self.old { unwritten = self.new.unwritten } }
        ensures stops { IfSome result (λ why. StoppedFor why left out.new.items self.new) }
        ensures room { IfNone result (length out.new.items + LONGEST_TEXT ≤ OUTPUT_BYTES) }
        ensures some { IfNone result (0 < left) }
        ensures written { IfNone result (self.new.unwritten ≡ []) }
        ensures goes_on { IfNone result (self.new.ending ≡ None) }
    {
        if self.rest.is_nothing() {
            self.stops_between(left, out)
        } else {
            self.stops_within(left, out)
        }
    }

    /// Implements `stops` if there is a rest of a text.
    #[inline(never)]
    fn stops_within(&mut self, left: usize, out: &mut Output) -> Option<Why>
        ensures text { out.new.items ++ self.new.unwritten ≡ out.old.items ++ self.old.unwritten }
        ensures grows { length out.old.items ≤ length out.new.items }
        ensures same { self.new ≡ record self.old { unwritten = self.new.unwritten } }
        ensures stops { IfSome result (λ why. StoppedFor why left out.new.items self.new) }
        ensures room { IfNone result (length out.new.items + LONGEST_TEXT ≤ OUTPUT_BYTES) }
        ensures some { IfNone result (0 < left) }
        ensures written { IfNone result (self.new.unwritten ≡ []) }
        ensures goes_on { IfNone result (self.new.ending ≡ None) }
    {
        if self.append_rest(out) {
            self.stops_between(left, out)
        } else {
            Some(Why::Full)
        }
    }

    /// Implements `stops` if there is no rest of a text.
    #[inline(always)]
    fn stops_between(&self, left: usize, out: &Output) -> Option<Why>
        requires { self.now.unwritten ≡ [] }
        ensures stops { IfSome result (λ why. StoppedFor why left out.now.items self.now) }
        ensures room { IfNone result (length out.now.items + LONGEST_TEXT ≤ OUTPUT_BYTES) }
        ensures some { IfNone result (0 < left) }
        ensures goes_on { IfNone result (self.now.ending ≡ None) }
    {
        match self.ending {
            Some(ClosingLine::Quit) => Some(Why::Quit),
            Some(ClosingLine::Http) => Some(Why::Refused),
            None => {
                if left == 0 {
                    Some(Why::Wants)
                } else if has_room(out, LONGEST_TEXT) {
                    None
                } else {
                    Some(Why::Full)
                }
            }
        }
    }

    /// Appends as much of the rest of a text as there is room for, and returns whether nothing of it is left.
    fn append_rest(&mut self, out: &mut Output) -> bool
        ensures text { out.new.items ++ self.new.unwritten ≡ out.old.items ++ self.old.unwritten }
        ensures grows { length out.old.items ≤ length out.new.items }
        ensures same { self.new ≡ record self.old { unwritten = self.new.unwritten } }
        ensures done { IsTrue result → self.new.unwritten ≡ [] }
        ensures full { result ≡ false → OUTPUT_BYTES < length out.new.items + LONGEST_TEXT }
    {
        let rest = mem::replace(&mut self.rest, Rest::Nothing);
        self.rest = rest.append(out);
        self.rest.is_nothing()
    }

    /// Takes the bytes of the next line through its line feed and answers it; if the bytes have no line feed, takes
    /// them all into the unfinished line. Returns how many bytes it took. An insert in the usual form is parsed before
    /// the end of its line is searched for.
    #[inline(always)]
    fn take_line<D: Desk>(
        &mut self,
        alloc: Global,
        desk: &mut D,
        bytes: &[u8],
        out: &mut Output,
    ) -> usize
        requires some { 0 < length bytes.now }
        requires written { self.old.unwritten ≡ [] }
        requires goes_on { self.old.ending ≡ None }
        requires room { length out.old.items + LONGEST_TEXT ≤ OUTPUT_BYTES }
        ensures few { (0 < result) × (result ≤ length bytes.now) }
        ensures feeds { Feeds D.bounds D.splits D.tables D.leads self.old (take result bytes.now) desk.old desk.new
            out.old.items out.new.items self.new }
    {
        if self.begun.is_empty() {
            if let Some(found) = leading_insert(bytes) {
                self.answer_insert(desk, found.key, found.payload, out);
                return found.len + 1;
            }
        }
        self.take_any_line(alloc, desk, bytes, out)
    }

    /// Implements `take_line` for a line of any form.
    #[inline(never)]
    fn take_any_line<D: Desk>(
        &mut self,
        alloc: Global,
        desk: &mut D,
        bytes: &[u8],
        out: &mut Output,
    ) -> usize
        requires some { 0 < length bytes.now }
        requires written { self.old.unwritten ≡ [] }
        requires goes_on { self.old.ending ≡ None }
        requires room { length out.old.items + LONGEST_TEXT ≤ OUTPUT_BYTES }
        ensures few { (0 < result) × (result ≤ length bytes.now) }
        ensures feeds { Feeds D.bounds D.splits D.tables D.leads self.old (take result bytes.now) desk.old desk.new
            out.old.items out.new.items self.new }
    {
        let place = feed_at(bytes);
        if place == bytes.len() {
            self.keep(bytes);
            return place;
        }
        let reading = self.finish(&bytes[..place]);
        self.respond(alloc, desk, reading, out);
        place + 1
    }

    /// Appends bytes to the unfinished line, up to `KEPT_BYTES` in total, and drops the others.
    fn keep(&mut self, bytes: &[u8])
        ensures few { length self.old.begun ≤ KEPT_BYTES }
        ensures kept { self.new ≡ record self.old { begun = cut_line (self.old.begun ++ bytes.now) } }
    {
        let room = KEPT_BYTES - self.begun.len();
        push(&mut self.begun, &bytes[..bytes.len().min(room)]);
    }

    /// Ends the unfinished line with the bytes `rest`, and parses it. Returns `None` if it is blank. Afterwards no line
    /// is unfinished.
    fn finish(&mut self, rest: &[u8]) -> Option<Result<Statement, Refusal>>
        ensures few { length self.old.begun ≤ KEPT_BYTES }
        ensures reading { result ≡ reading_of (self.old.begun ++ rest.now) }
        ensures same { self.new ≡ record self.old { begun = [] } }
    {
        if self.begun.is_empty() {
            return read_line(rest);
        }
        self.keep(rest);
        let reading = read_line(self.begun.as_slice());
        self.begun.clear();
        reading
    }

    /// Answers a parsed line, records the answer, and appends the beginning of its text. Does nothing if `reading` is
    /// `None`, which means a blank line.
    fn respond<D: Desk>(
        &mut self,
        alloc: Global,
        desk: &mut D,
        reading: Option<Result<Statement, Refusal>>,
        out: &mut Output,
    )
        requires written { self.old.unwritten ≡ [] }
        requires room { length out.old.items + LONGEST_TEXT ≤ OUTPUT_BYTES }
        ensures answers { AnswersAll D.bounds D.splits D.tables D.leads self.old (of_option reading) desk.old desk.new
            out.old.items out.new.items self.new }
        ensures same { self.new.begun ≡ self.old.begun }
    {
        match reading {
            Some(reading) => {
                let answer = answer_reading(alloc, desk, self.progress.policy, reading);
                self.ending = ended_by(self.ending, &reading);
                self.output_answer(answer, out);
            }
            None => (),
        }
    }

    /// Answers an insert of a row with this key and payload, the most frequent statement. The call of the desk is
    /// inlined with a command that is known to be an insert, and the reply is appended without becoming an `Answer`.
    #[inline(always)]
    fn answer_insert<D: Desk>(&mut self, desk: &mut D, key: Key, payload: Payload, out: &mut Output)
        requires written { self.old.unwritten ≡ [] }
        requires room { length out.old.items + LONGEST_TEXT ≤ OUTPUT_BYTES }
        ensures answers { AnswersAll D.bounds D.splits D.tables D.leads self.old (Ok (Insert key payload) ∷ [])
            desk.old desk.new out.old.items out.new.items self.new }
        ensures same { self.new.begun ≡ self.old.begun }
    {
        let part = part_with_key(desk, key);
        match desk.ask(part, Command::Insert { key, payload }, self.progress.policy) {
            Ok(reply) => self.output_reply(part, reply, out),
            Err(refusal) => self.output_refusal(refusal, out),
        }
    }

    /// Appends the beginning of the text of a reply of partition `part`, keeps the rest, and counts the statement.
    /// Records nothing else, because a reply sets no policy and isn't a refusal.
    #[inline(always)]
    fn output_reply(&mut self, part: u32, reply: Reply, out: &mut Output)
        requires { length out.old.items + LONGEST_TEXT ≤ OUTPUT_BYTES }
        ensures text { out.new.items ++ self.new.unwritten ≡ out.old.items ++ reply_text part reply }
        ensures grows { length out.old.items ≤ length out.new.items }
        ensures noted { self.new.progress ≡ progress_after self.old.progress (Replied part reply) }
        ensures same { (self.new.begun ≡ self.old.begun) × (self.new.ending ≡ self.old.ending) }
    {
        self.progress.statements = self.progress.statements.saturating_add(1);
        self.rest = append_reply(part, reply, out);
    }

    /// Counts a refusal, and appends its text. A separate function, so that no space for an `Answer` is cleared when
    /// a reply is appended.
    #[inline(never)]
    fn output_refusal(&mut self, refusal: Refusal, out: &mut Output)
        requires { length out.old.items + LONGEST_TEXT ≤ OUTPUT_BYTES }
        ensures text { out.new.items ++ self.new.unwritten ≡ out.old.items ++ answer_text (Answer.Refused refusal) }
        ensures grows { length out.old.items ≤ length out.new.items }
        ensures noted { self.new.progress ≡ progress_after self.old.progress (Answer.Refused refusal) }
        ensures same { (self.new.begun ≡ self.old.begun) × (self.new.ending ≡ self.old.ending) }
    {
        self.output_answer(Answer::Refused(refusal), out);
    }

    /// Records an answer in the session's progress, appends the beginning of its text, and keeps the rest.
    fn output_answer(&mut self, answer: Answer, out: &mut Output)
        requires { length out.old.items + LONGEST_TEXT ≤ OUTPUT_BYTES }
        ensures text { out.new.items ++ self.new.unwritten ≡ out.old.items ++ answer_text answer }
        ensures grows { length out.old.items ≤ length out.new.items }
        ensures noted { self.new.progress ≡ progress_after self.old.progress answer }
        ensures same { (self.new.begun ≡ self.old.begun) × (self.new.ending ≡ self.old.ending) }
    {
        note(&mut self.progress, &answer);
        self.rest = append_answer(answer, out);
    }
}

/// Counts an answer. Records the policy that the answer sets, if any. Records the answer's number if this is the first
/// refusal for lack of room.
fn note(progress: &mut SessionProgress, answer: &Answer)
    ensures { progress.new ≡ progress_after progress.old answer.now }
{
    progress.statements = progress.statements.saturating_add(1);
    if let Answer::Set(policy) = answer {
        progress.policy = *policy;
    }
    if progress.first_short.is_none() && answer.is_short() {
        progress.first_short = Some(progress.statements);
    }
}

/// The line that has ended the session: the parsed line if it ends the session, else `ending`, which is an earlier
/// line or `None`.
fn ended_by(
    ending: Option<ClosingLine>,
    reading: &Result<Statement, Refusal>,
) -> Option<ClosingLine>
    ensures { result ≡ ending_after ending reading.now }
{
    match reading {
        Ok(Statement::End(last)) => Some(*last),
        _ => ending,
    }
}

/// Answers a parsed line: executes its statement at the desk with this policy, or, if the line isn't a statement,
/// answers with the line's refusal.
fn answer_reading<D: Desk>(
    alloc: Global,
    desk: &mut D,
    policy: Policy,
    reading: Result<Statement, Refusal>,
) -> Answer
    ensures { AsksDesk D.bounds D.splits D.tables D.leads (λ bounds splits tables. IsAnswer bounds splits tables reading
        result) (λ splits calls. IsReadingMadeOf splits policy reading result calls) desk.old desk.new }
{
    match reading {
        Ok(statement) => answer_statement(alloc, desk, policy, statement),
        Err(refusal) => Answer::Refused(refusal),
    }
}
