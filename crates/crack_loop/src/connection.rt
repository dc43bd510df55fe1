//! A connection without its stream: a session, the bytes that it receives, and the texts that it sends.
ghost use Rattle.std.specs.Prelude.{◌≡◌, ◌≢◌, ◌≤◌, ◌+◌, ◌↔◌, [], ◌∷◌, false, true, length, drop};
ghost use Rattle.std.specs.Prelude.{is_ok, IsTrue, IsOk, OnOk, OnErr};
ghost use Rattle.crack_session.specs.declared.feeding.Why.TheVariants.{Wants};
ghost use Rattle.crack_loop.specs.Connections.{Answers, Ends, HasUnfinished, fault_of, new_session, next_of};

use crate::backlog::Backlog;
use crack_row::{Policy, Refusal};
use crack_session::{Desk, Fed, Output, Session, Why};
use std::alloc::{AllocError, Global};
use std::marker::Model;

/// A connection without its stream. An idle one holds no memory but its own. Feeding its session costs what
/// `Session::feed` costs, and a copy of the bytes or texts that are kept; everything else is O(1).
#[derive(Drop)]
pub struct Connection {
    session: Session,
    received: Backlog,
    unsent: Backlog,
    stopped: Why,
    has_ended: bool,
    broke_off: bool,
}

/// Whether at least `time` has passed from `since` to `now`, all in one unit. False if `now` is before `since`. O(1).
pub fn has_passed(time: u64, since: u64, now: u64) -> bool
    ensures { IsTrue result ↔ (since + time ≤ now) }
{
    now >= since && now - since >= time
}

/// What a connection does next.
#[derive(Clone, Copy, PartialEq, Eq, Debug)]
pub enum Next {
    /// It writes texts, once its stream takes some.
    Write,
    /// It answers what it has received, whether or not its stream is ready.
    Answer,
    /// It reads, once its stream has bytes.
    Read,
    /// It closes its stream.
    Close,
}

impl Model for Connection {
    ghost use Rattle.crack_loop.specs.Connections.{ConnectionState};
    ghost use Rattle.crack_loop.specs.Inside.{GoesOn};

    ghost Value = { ConnectionState };

    ghost view = { λ c. record {
      session = c.session;
      received = c.received;
      unsent = c.unsent;
      stopped = c.stopped;
      has_ended = c.has_ended;
      broke_off = c.broke_off;
    } };

    ghost invariant = { λ c. GoesOn c.stopped c.session };
}

impl Connection {
    /// A connection with a new session that has this policy.
    pub fn new(alloc: Global, policy: Policy) -> Connection
        ensures session { result.session ≡ new_session policy }
        ensures received { result.received ≡ [] }
        ensures unsent { result.unsent ≡ [] }
        ensures stopped { result.stopped ≡ Wants }
        ensures has_ended { result.has_ended ≡ false }
        ensures broke_off { result.broke_off ≡ false }
    {
        Connection {
            session: Session::new(policy),
            received: Backlog::new(alloc),
            unsent: Backlog::new(alloc),
            stopped: Why::Wants,
            has_ended: false,
            broke_off: false,
        }
    }

    /// What the connection does next. It writes all texts before it answers anything, and answers all that it
    /// received before it reads again, so a client that doesn't read its replies isn't read either.
    pub fn next(&self) -> Next
        ensures next { result ≡ next_of self.now }
        ensures written { result ≢ Next.Write → self.now.unsent ≡ [] }
        ensures answered { result ≡ Next.Read → self.now.received ≡ [] }
        ensures wants { result ≡ Next.Read → self.now.stopped ≡ Wants }
    {
        if !self.unsent.is_empty() {
            return Next::Write;
        }
        match self.stopped {
            Why::Full => Next::Answer,
            Why::Quit => Next::Close,
            Why::Refused => Next::Close,
            Why::Wants => {
                if !self.received.is_empty() {
                    Next::Answer
                } else if self.has_ended {
                    Next::Close
                } else {
                    Next::Read
                }
            }
        }
    }

    /// Feeds bytes that were just read to the session, which appends its texts to `out`. Keeps the bytes that the
    /// session doesn't take because `out` is full. Refused if no memory is found for them; then they are lost.
    pub fn receive<D: Desk>(
        &mut self,
        alloc: Global,
        desk: &mut D,
        bytes: &[u8],
        out: &mut Output,
    ) -> Result<(), AllocError>
        requires { self.old.received ≡ [] }
        ensures { Answers D.bounds D.splits D.tables D.leads self.old bytes.now desk.old desk.new out.old.items
            out.new.items (is_ok result) self.new }
    {
        let fed = self.session.feed(alloc, desk, bytes, out);
        self.stopped = fed.why;
        match fed.why {
            Why::Full => self.received.keep(alloc, &bytes[fed.taken..]),
            _ => Ok(()),
        }
    }

    /// Feeds the kept bytes to the session, which appends its texts to `out`. These are the bytes that it didn't take
    /// when the output was full, or none if only the rest of its last answer's text is left.
    pub fn resume<D: Desk>(&mut self, alloc: Global, desk: &mut D, out: &mut Output)
        ensures { Answers D.bounds D.splits D.tables D.leads self.old self.old.received desk.old desk.new
            out.old.items out.new.items true self.new }
    {
        let fed = self
            .session
            .feed(alloc, desk, self.received.as_slice(), out);
        self.stopped = fed.why;
        match fed.why {
            Why::Full => self.received.pass(alloc, fed.taken),
            _ => self.received = Backlog::new(alloc),
        }
    }

    /// Takes the end of the input, at which the client is gone. An unfinished line isn't carried out: unless it is
    /// blank, it is answered as a line that isn't a statement (`Session::break_off`). The connection closes once all
    /// texts are written. O(1), no memory.
    pub fn end(&mut self, out: &mut Output)
        requires wants { self.old.stopped ≡ Wants }
        requires empty { out.old.items ≡ [] }
        ensures { Ends self.old out.old.items out.new.items self.new }
    {
        self.has_ended = true;
        self.broke_off = self.session.has_unfinished();
        self.session.break_off(out);
    }

    /// Whether the client's last line wasn't carried out because it has no line feed: it was unfinished when the input
    /// ended, or all that was received is answered and written, and a line is unfinished. False if it is blank. O(1).
    pub fn has_unfinished(&self) -> bool
        ensures { IsTrue result ↔ HasUnfinished self.now }
    {
        self.broke_off || (matches!(self.next(), Next::Read) && self.session.has_unfinished())
    }

    /// The texts that aren't written yet.
    pub fn unsent(&self) -> &[u8]
        ensures { result.now ≡ self.now.unsent }
    {
        self.unsent.as_slice()
    }

    /// Keeps texts that the session appended and that aren't written yet. Refused if no memory is found; then
    /// nothing has changed.
    pub fn wait_with(&mut self, alloc: Global, texts: &[u8]) -> Result<(), AllocError>
        requires { self.old.unsent ≡ [] }
        ensures ok { OnOk result (self.new ≡ record self.old { unsent = texts.now }) }
        ensures err { OnErr result (self.new ≡ self.old) }
        ensures spares { length texts.now ≡ 0 → IsOk result }
    {
        self.unsent.keep(alloc, texts)
    }

    /// Records that the first `count` bytes of the unwritten texts were written, and drops them.
    pub fn sent(&mut self, alloc: Global, count: usize)
        ensures { self.new ≡ record self.old { unsent = drop count self.old.unsent } }
    {
        self.unsent.pass(alloc, count);
    }

    /// The refusal if the connection is cut off now: `WriteFault` if texts wait to be written, otherwise
    /// `ReadFault`.
    pub fn fault(&self) -> Refusal
        ensures { result ≡ fault_of (next_of self.now) }
    {
        match self.next() {
            Next::Write => Refusal::WriteFault,
            _ => Refusal::ReadFault,
        }
    }

    /// How many statements the session answered. The count saturates at `u64::MAX`.
    pub fn statements(&self) -> u64
        ensures { result ≡ self.now.session.progress.statements }
    {
        self.session.statements()
    }
}
