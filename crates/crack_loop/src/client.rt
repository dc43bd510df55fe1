//! A connection with its stream, and its turns.
ghost use Rattle.std.specs.Prelude.{◌≡◌, ◌≤◌, []};
ghost use Rattle.crack_session.specs.declared.feeding.Why.TheVariants.{Wants};

use crate::connection::{Connection, Next};
use crate::{READ_BYTES, Room};
use crack_row::Refusal;
use crack_session::Desk;
use mio::net::TcpStream;
use std::alloc::Global;
use std::io::{ErrorKind, Read, Write};
use std::net::SocketAddr;

/// A connection of a thread, with its stream.
#[derive(Drop)]
pub(crate) struct Client {
    pub(crate) stream: TcpStream,
    pub(crate) connection: Connection,
    pub(crate) address: SocketAddr,
    /// When the stream last delivered or accepted a byte, in milliseconds by the thread's own time (`Crowd`).
    pub(crate) heard: u64,
    /// Whether the connection is queued for a turn.
    pub(crate) is_queued: bool,
    /// Whether the client sends no more than what has arrived.
    pub(crate) is_half_closed: bool,
}

/// What a connection does after a turn.
#[derive(Clone, Copy, PartialEq, Eq, Debug)]
pub(crate) enum After {
    /// It takes another turn without waiting.
    Turn,
    /// It takes a turn once its stream is ready.
    Event,
    /// It ends.
    End,
    /// It is cut off before its session has ended.
    CutOff(Refusal),
}

impl Client {
    /// Takes the connection's next step, which `Connection::next` names: writes texts once, or answers and writes
    /// once, or reads, answers and writes once, or ends. So the connections of a thread share it fairly. If the server
    /// stops, a connection that has nothing to read ends. `now` is the thread's time in milliseconds. Returns what the
    /// connection does after the step.
    pub(crate) fn turn<D: Desk>(
        &mut self,
        alloc: Global,
        desk: &mut D,
        room: &mut Room,
        now: u64,
        is_stopping: bool,
    ) -> After {
        match self.connection.next() {
            Next::Write => self.write(alloc, now),
            Next::Answer => {
                room.out.clear();
                self.connection.resume(alloc, desk, &mut room.out);
                self.send(alloc, room, now)
            }
            Next::Read => self.read(alloc, desk, room, now, is_stopping),
            Next::Close => After::End,
        }
    }

    /// Marks the connection as queued, and returns whether it wasn't queued before. If `is_half_closed`, also records
    /// that its client has finished sending.
    pub(crate) fn is_due(&mut self, is_half_closed: bool) -> bool {
        self.is_half_closed = self.is_half_closed || is_half_closed;
        let is_new = !self.is_queued;
        self.is_queued = true;
        is_new
    }

    /// Writes texts that wait, once. Returns what the connection does next: it takes another turn if the stream took
    /// bytes or the write was interrupted, waits until the stream is ready if it isn't, and is cut off if the write
    /// fails or takes no byte. `now` is the thread's time in milliseconds, which becomes `heard` if the stream takes
    /// bytes.
    fn write(&mut self, alloc: Global, now: u64) -> After {
        match (&self.stream).write(self.connection.unsent()) {
            Ok(0) => After::CutOff(Refusal::WriteFault),
            Ok(count) => {
                self.heard = now;
                self.connection.sent(alloc, count);
                After::Turn
            }
            Err(error) => match error.kind() {
                ErrorKind::WouldBlock => After::Event,
                ErrorKind::Interrupted => After::Turn,
                _ => After::CutOff(Refusal::WriteFault),
            },
        }
    }

    /// Writes the texts that the session just appended to the output of `room`, once. What the stream doesn't take
    /// waits. Returns what the connection does next: it is cut off if the write fails, or if no memory is found for
    /// what waits; otherwise it takes another turn. `now` becomes `heard` if the stream takes bytes.
    fn send(&mut self, alloc: Global, room: &Room, now: u64) -> After
        requires { self.old.connection.unsent ≡ [] }
    {
        let texts = room.out.as_slice();
        if texts.is_empty() {
            return After::Turn;
        }
        let count = match (&self.stream).write(texts) {
            Ok(count) => {
                self.heard = now;
                count
            }
            Err(error) => match error.kind() {
                ErrorKind::WouldBlock | ErrorKind::Interrupted => 0,
                _ => return After::CutOff(Refusal::WriteFault),
            },
        };
        match self.connection.wait_with(alloc, &texts[count..]) {
            Ok(()) => After::Turn,
            Err(_) => After::CutOff(Refusal::OutOfMemory),
        }
    }

    /// Reads once, answers what was read, and writes. Returns what the connection does next. If there is nothing to
    /// read, it ends if the server stops, and otherwise waits until the stream is ready. It is cut off if the read or
    /// the write fails, or if no memory is found. Otherwise it takes another turn, or does what `after_all` says if
    /// the read took all that the stream had and the server doesn't stop.
    fn read<D: Desk>(
        &mut self,
        alloc: Global,
        desk: &mut D,
        room: &mut Room,
        now: u64,
        is_stopping: bool,
    ) -> After
        requires received { self.old.connection.received ≡ [] }
        requires unsent { self.old.connection.unsent ≡ [] }
        requires wants { self.old.connection.stopped ≡ Wants }
    {
        match (&self.stream).read(&mut room.input) {
            Ok(count) => {
                self.heard = now;
                let after = self.answer(alloc, desk, room, count, now);
                if after == After::Turn && count < READ_BYTES && !is_stopping {
                    self.after_all()
                } else {
                    after
                }
            }
            Err(error) => match error.kind() {
                ErrorKind::WouldBlock if is_stopping => After::End,
                ErrorKind::WouldBlock => After::Event,
                ErrorKind::Interrupted => After::Turn,
                _ => After::CutOff(Refusal::ReadFault),
            },
        }
    }

    /// Answers the first `count` bytes that were just read, or takes the end of the input if `count` is 0, and writes.
    /// Returns what the connection does next: it is cut off if the write fails, or if no memory is found; otherwise it
    /// takes another turn.
    fn answer<D: Desk>(
        &mut self,
        alloc: Global,
        desk: &mut D,
        room: &mut Room,
        count: usize,
        now: u64,
    ) -> After
        requires count { count ≤ READ_BYTES }
        requires received { self.old.connection.received ≡ [] }
        requires unsent { self.old.connection.unsent ≡ [] }
        requires wants { self.old.connection.stopped ≡ Wants }
    {
        room.out.clear();
        if count == 0 {
            self.connection.end(&mut room.out);
            return self.send(alloc, room, now);
        }
        let bytes = &room.input[..count];
        match self.connection.receive(alloc, desk, bytes, &mut room.out) {
            Ok(()) => self.send(alloc, room, now),
            Err(_) => After::CutOff(Refusal::OutOfMemory),
        }
    }

    /// What follows a read that took all bytes which the stream had: the connection waits until the stream is ready,
    /// if it is to read next and its client hasn't finished sending; otherwise it takes another turn at once.
    fn after_all(&self) -> After {
        match self.connection.next() {
            Next::Read if !self.is_half_closed => After::Event,
            _ => After::Turn,
        }
    }
}
