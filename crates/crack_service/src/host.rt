//! The events that a server reports, and the calls that it makes of the program that runs it.
use crack_row::Refusal;
use std::fmt;
use std::fmt::{Display, Formatter, Write};
use std::net::SocketAddr;

/// Why a session was cut off.
#[derive(Clone, Copy, PartialEq, Eq, Debug, Drop)]
pub enum Cause {
    /// A read or a write of its connection failed, or no memory was found.
    Fault,
    /// It waited too long for its client.
    Wait,
    /// The server stopped, and didn't wait any longer.
    Stop,
}

/// An event of a server. Its text is a line, without the line feed.
#[derive(Clone, Copy, Drop)]
pub enum Notice {
    /// The server listens on this port of 127.0.0.1.
    Listening {
        port: u16,
    },
    /// Automatic checkpoints were made because histories were full: how many since the last such notice, at least 1;
    /// the partition of the last one, and the number of entries in its history.
    Checkpoints {
        count: u64,
        part: u32,
        entries: u64,
    },
    /// The session of a client was cut off: with `WriteFault` if texts were to be written, with `OutOfMemory` if no
    /// memory was found, and with `ReadFault` otherwise. `has_unfinished` says that the client's last line wasn't
    /// carried out, because it has no line feed.
    CutOff {
        client: SocketAddr,
        refusal: Refusal,
        cause: Cause,
        has_unfinished: bool,
    },
    /// Clients were turned away because this many were connected: how many since the last such notice, at least 1,
    /// and the last of them.
    TurnedAway {
        count: u64,
        client: SocketAddr,
        clients: u64,
    },
    /// Accepts failed, for example because no descriptor was free: how many since the last such notice, at least 1.
    /// They are tried again.
    NotAccepted {
        count: u64,
    },
    /// The server has served its last session: how many sessions there were, and how many of them were cut off.
    Ended {
        sessions: u64,
        cut_off: u64,
    },
}

impl Display for Notice {
    /// Writes the event as a line, without the line feed. Fails if the writer fails.
    fn fmt<W: Write>(&self, f: &mut Formatter<W>) -> fmt::Result {
        match *self {
            Notice::Listening { port } => write!(f, "listening on 127.0.0.1:{port}"),
            Notice::Checkpoints {
                count: 1,
                part,
                entries,
            } => write!(f, "checkpoint of partition {part}: {entries} entries"),
            Notice::Checkpoints {
                count,
                part,
                entries,
            } => write!(
                f,
                "{count} checkpoints, the last of partition {part}: {entries} entries"
            ),
            Notice::CutOff {
                client,
                refusal,
                cause,
                has_unfinished,
            } => {
                let words = words_of(refusal, cause);
                let more = if has_unfinished { UNFINISHED } else { "" };
                write!(
                    f,
                    "client {client}: session cut off: {refusal}: {words}{more}"
                )
            }
            Notice::TurnedAway {
                count: 1,
                client,
                clients,
            } => write!(
                f,
                "client {client}: refused 20 {clients}: too many clients are connected"
            ),
            Notice::TurnedAway {
                count,
                client,
                clients,
            } => write!(
                f,
                "{count} clients, the last {client}: refused 20 {clients}: too many clients are connected"
            ),
            Notice::NotAccepted { count } => write!(
                f,
                "accepts that failed: {count}: descriptors may have run out"
            ),
            Notice::Ended { sessions, cut_off } => {
                write!(f, "ended: sessions {sessions}, cut off {cut_off}")
            }
        }
    }
}

/// What follows the cause if the client's last line wasn't carried out.
const UNFINISHED: &str = "; a line without a line feed was not carried out";

/// Why a session was cut off with this refusal and this cause, in words.
fn words_of(refusal: Refusal, cause: Cause) -> &'static str {
    match (refusal, cause) {
        (Refusal::ReadFault, Cause::Fault) => "the connection was closed or failed at a read",
        (Refusal::ReadFault, Cause::Wait) => "the client sent nothing for too long",
        (Refusal::ReadFault, Cause::Stop) => "the server stopped before it answered the rest",
        (Refusal::WriteFault, Cause::Fault) => "the connection was closed or failed at a write",
        (Refusal::WriteFault, Cause::Wait) => "the client took no replies for too long",
        (Refusal::WriteFault, Cause::Stop) => {
            "the server stopped before the client took its replies"
        }
        (other, _) => other.cause(),
    }
}

/// The calls that a server makes of the program that runs it, on any of its threads.
pub trait Host {
    /// Reports an event to the program. Called on any of the server's threads.
    fn note(&self, notice: Notice);

    /// Reports to the program what `note` couldn't report yet. Each of the server's threads calls this a few times a
    /// second.
    fn catch_up(&self) {}

    /// Waits for a moment, after a failed system call that is to be repeated.
    fn pause(&self);

    /// The time in milliseconds since a moment that is the same for all calls. A host without a clock always returns
    /// the same time, so nothing ever waits too long.
    fn millis(&self) -> u64 {
        0
    }

    /// The time in microseconds since the moment from which `millis` counts.
    fn micros(&self) -> u64 {
        self.millis().saturating_mul(1000)
    }
}

/// A host that reports nothing and never waits, for servers that end after a number of sessions.
#[derive(Clone, Copy, Drop)]
pub struct Alone;

impl Host for Alone {
    /// Does nothing.
    fn note(&self, _notice: Notice) {}

    /// Does nothing.
    fn pause(&self) {}
}
