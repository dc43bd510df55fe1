//! The options of a server, and the state that its threads share.
use crate::admission::Admission;
use crate::pace::{Pace, SECONDS};
use crack_commands::Traffic;
use crack_row::{Policy, Refusal};
use crack_service::{Cause, Host, Notice};
use mio::Waker;
use std::alloc::Global;
use std::net::SocketAddr;
use std::sync::{Mutex, Wait};

/// When a server ends.
#[derive(Clone, Copy, Drop)]
pub enum ServerEnding {
    /// Once this many connections were accepted and have ended. An accept that fails counts as a connection.
    AfterSessions(u64),
    /// When its input ends: then no more connections are accepted, and open ones end as soon as they have nothing to
    /// read.
    AtEndOfInput,
}

/// The options of a server.
#[derive(Clone, Copy, Drop)]
pub struct Terms {
    /// The policy with which each session begins.
    pub policy: Policy,
    /// When the server ends.
    pub ending: ServerEnding,
    /// How many seconds a connection may wait for its client, at least 1, or `None` if it may wait for ever.
    pub idle: Option<u32>,
    /// How many connections may be open at once.
    pub clients: u64,
    /// How many seconds a server that stops waits for busy connections before it cuts them off.
    pub drain: u32,
    /// Whether the host is notified of automatic checkpoints.
    pub notes_checkpoints: bool,
}

/// The state that the threads of a server share.
#[derive(Drop)]
pub(crate) struct ServerState<'a, Rt: Wait, H: Host> {
    pub(crate) rt: &'a Rt,
    pub(crate) alloc: Global,
    pub(crate) terms: Terms,
    pub(crate) host: &'a H,
    pub(crate) admission: Admission,
    pub(crate) pace: Mutex<Pace>,
    /// When the server started, in the host's milliseconds.
    pub(crate) begun: u64,
    /// A waker for each thread, which ends its wait for events.
    pub(crate) wakers: Vec<Waker>,
}

impl<'a, Rt: Wait, H: Host> ServerState<'a, Rt, H> {
    /// Ends each thread's wait for events. A thread that can't be woken ends its wait soon by itself.
    pub(crate) fn wake_all(&self) {
        'threads: for waker in &self.wakers {
            let _ = waker.wake();
        }
    }

    /// Whether a thread that has this many connections, `clients`, has more than its share: more than the number of
    /// open connections divided by the number of threads.
    pub(crate) fn is_above_share(&self, clients: usize) -> bool {
        let (open, _) = self.admission.counts(self.rt);
        (clients as u64).saturating_mul(self.wakers.len() as u64) > open
    }

    /// Records that a thread answered `answered` statements shortly before `now`, which is the host's time in
    /// milliseconds, and that the longest of their turns took `longest` microseconds.
    pub(crate) fn note_pace(&self, now: u64, answered: u64, longest: u64) {
        self.pace.lock(self.rt).note(now / 1000, answered, longest);
    }

    /// The server's traffic now; its number of statements a second and its longest time are those of the last minute.
    pub(crate) fn traffic(&self) -> Traffic {
        let now = self.host.millis();
        let uptime = now.saturating_sub(self.begun) / 1000;
        let (clients, sessions) = self.admission.counts(self.rt);
        let (answered, longest) = self.pace.lock(self.rt).last_minute(now / 1000);
        Traffic {
            clients,
            sessions,
            statements_per_second: answered / uptime.clamp(1, SECONDS),
            longest_microseconds: longest,
            uptime_seconds: uptime,
        }
    }

    /// Counts a connection of the client at this address that has ended. If it was cut off, `cut_off` has the refusal
    /// and the cause, and the host is notified; `has_unfinished` says that the client's last line wasn't carried out.
    pub(crate) fn end(
        &self,
        client: SocketAddr,
        cut_off: Option<(Refusal, Cause)>,
        has_unfinished: bool,
    ) {
        self.admission.end(self.rt, cut_off.is_some());
        if let Some((refusal, cause)) = cut_off {
            self.host.note(Notice::CutOff {
                client,
                refusal,
                cause,
                has_unfinished,
            });
        }
    }

    /// Notifies the host of the clients that were turned away, and of the accepts that failed, since the last notice
    /// of each. Sends each notice at most once a second, but always at the server's end (`is_end`) if there is
    /// something to report. `now` is the host's time in milliseconds.
    pub(crate) fn report_refused(&self, now: u64, is_end: bool) {
        if let Some((count, client)) = self.admission.take_turned_away(self.rt, now, is_end) {
            self.host.note(Notice::TurnedAway {
                count,
                client,
                clients: self.terms.clients,
            });
        }
        if let Some(count) = self.admission.take_failed(self.rt, now, is_end) {
            self.host.note(Notice::NotAccepted { count });
        }
    }
}
