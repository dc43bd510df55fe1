//! Accepting the connections of a server, for all its threads.
use crate::connection::has_passed;
use crate::terms::ServerEnding;
use mio::net::{TcpListener, TcpStream};
use std::io::ErrorKind;
use std::net::SocketAddr;
use std::sync::atomic::{AtomicBool, Ordering};
use std::sync::{Mutex, Wait};

/// The counts of a server's connections. `accepted` counts connections that were accepted and accepts that failed;
/// once it is `most`, no more are accepted. `open` connections are open now. `served` have ended, and `cut_off` of
/// these were cut off.
#[derive(Drop)]
pub(crate) struct ConnectionCounts {
    accepted: u64,
    pub(crate) most: u64,
    open: u64,
    served: u64,
    cut_off: u64,
    /// How many clients were turned away since this was last reported, and the address of the last client that was
    /// turned away.
    turned_away: u64,
    last_away: Option<SocketAddr>,
    /// How many accepts failed since this was last reported.
    failed: u64,
    /// When clients that were turned away were last reported, and when failed accepts were, in milliseconds. `None`
    /// means never.
    reported: Option<u64>,
    failed_reported: Option<u64>,
}

/// The least time between two reports of clients that were turned away, or of failed accepts, in milliseconds.
const REPORT_MILLIS: u64 = 1000;

/// Whether a report is due at the time `now`, in milliseconds: there was none yet (`reported` is `None`), the last one
/// was at least a second ago, or the server ends (`is_end`).
fn is_due(reported: Option<u64>, now: u64, is_end: bool) -> bool {
    match reported {
        Some(then) => is_end || has_passed(REPORT_MILLIS, then, now),
        None => true,
    }
}

/// What an accept has brought.
#[derive(Drop)]
pub(crate) enum Arrival {
    /// A connection was accepted.
    Accepted(TcpStream, SocketAddr),
    /// A connection was turned away, because the greatest number of connections is open.
    TurnedAway(TcpStream),
    /// No connection waits, or no more are accepted.
    Nobody,
    /// The accept failed.
    Failed,
}

/// The counts of a server's connections, and whether it accepts more.
#[derive(Drop)]
pub(crate) struct Admission {
    pub(crate) progress: Mutex<ConnectionCounts>,
    /// Whether no more connections are accepted.
    is_over: AtomicBool,
    /// Whether the server stops.
    is_stopping: AtomicBool,
}

impl Admission {
    /// The state of a new server with this ending.
    pub(crate) fn new(ending: ServerEnding) -> Admission {
        let most = match ending {
            ServerEnding::AfterSessions(sessions) => sessions,
            ServerEnding::AtEndOfInput => u64::MAX,
        };
        Admission {
            progress: Mutex::new(ConnectionCounts {
                accepted: 0,
                most,
                open: 0,
                served: 0,
                cut_off: 0,
                turned_away: 0,
                last_away: None,
                failed: 0,
                reported: None,
                failed_reported: None,
            }),
            is_over: AtomicBool::new(most == 0),
            is_stopping: AtomicBool::new(false),
        }
    }

    /// Accepts a connection of the listener if one waits, or turns it away if `clients` connections are open already.
    /// Returns `Nobody` if none waits, if the accept was interrupted, or if the server accepts no more, and `Failed`
    /// if the accept fails. A failed accept counts towards the most connections that the server accepts, but not as
    /// open; a client that is turned away counts as neither. The lock is held meanwhile, so that no thread accepts one
    /// too many.
    pub(crate) fn accept<Rt: Wait>(
        &self,
        rt: &Rt,
        listener: &TcpListener,
        clients: u64,
    ) -> Arrival {
        let mut progress = self.progress.lock(rt);
        if self.is_over() {
            return Arrival::Nobody;
        }
        let arrival = match listener.accept() {
            Ok((stream, client)) if progress.open >= clients => {
                progress.turned_away = progress.turned_away.saturating_add(1);
                progress.last_away = Some(client);
                Arrival::TurnedAway(stream)
            }
            Ok((stream, client)) => Arrival::Accepted(stream, client),
            Err(error) => match error.kind() {
                ErrorKind::WouldBlock | ErrorKind::Interrupted => return Arrival::Nobody,
                _ => {
                    progress.failed = progress.failed.saturating_add(1);
                    Arrival::Failed
                }
            },
        };
        if let Arrival::Accepted(..) = &arrival {
            progress.open = progress.open.saturating_add(1);
        }
        if !matches!(&arrival, Arrival::TurnedAway(_)) {
            progress.accepted = progress.accepted.saturating_add(1);
        }
        if progress.accepted >= progress.most {
            self.is_over.store(true, Ordering::SeqCst);
        }
        arrival
    }

    /// Waits until all threads of the server are started: the thread that starts them holds the lock until then.
    pub(crate) fn await_start<Rt: Wait>(&self, rt: &Rt) {
        drop(self.progress.lock(rt));
    }

    /// Whether no more connections are accepted.
    pub(crate) fn is_over(&self) -> bool {
        self.is_over.load(Ordering::SeqCst)
    }

    /// Whether the server stops: each connection ends as soon as it has nothing to read.
    pub(crate) fn is_stopping(&self) -> bool {
        self.is_stopping.load(Ordering::SeqCst)
    }

    /// Counts a connection that has ended: one fewer is open, one more was served, and one more was cut off if
    /// `is_cut_off`.
    pub(crate) fn end<Rt: Wait>(&self, rt: &Rt, is_cut_off: bool) {
        let mut progress = self.progress.lock(rt);
        progress.open = progress.open.saturating_sub(1);
        progress.served = progress.served.saturating_add(1);
        if is_cut_off {
            progress.cut_off = progress.cut_off.saturating_add(1);
        }
    }

    /// Returns how many clients were turned away since the last report, and the address of the last of them, and
    /// restarts the count. Returns `None`, and changes nothing, if none was turned away, or if no report is due at the
    /// time `now`: `is_due` says when, and `is_end` means that the server ends.
    pub(crate) fn take_turned_away<Rt: Wait>(
        &self,
        rt: &Rt,
        now: u64,
        is_end: bool,
    ) -> Option<(u64, SocketAddr)> {
        let mut progress = self.progress.lock(rt);
        let is_due = is_due(progress.reported, now, is_end);
        let count = progress.turned_away;
        match progress.last_away {
            Some(client) if is_due && count > 0 => {
                progress.turned_away = 0;
                progress.reported = Some(now);
                Some((count, client))
            }
            _ => None,
        }
    }

    /// Returns how many accepts failed since the last report, and restarts the count. Returns `None`, and changes
    /// nothing, if none failed, or if no report is due at the time `now`: `is_due` says when, and `is_end` means that
    /// the server ends.
    pub(crate) fn take_failed<Rt: Wait>(&self, rt: &Rt, now: u64, is_end: bool) -> Option<u64> {
        let mut progress = self.progress.lock(rt);
        let count = progress.failed;
        if count == 0 || !is_due(progress.failed_reported, now, is_end) {
            return None;
        }
        progress.failed = 0;
        progress.failed_reported = Some(now);
        Some(count)
    }

    /// Stops the server: no more connections are accepted, and each ends as soon as it has nothing to read.
    pub(crate) fn stop(&self) {
        self.is_over.store(true, Ordering::SeqCst);
        self.is_stopping.store(true, Ordering::SeqCst);
    }

    /// How many connections are open, and how many sessions have begun.
    pub(crate) fn counts<Rt: Wait>(&self, rt: &Rt) -> (u64, u64) {
        let progress = self.progress.lock(rt);
        (progress.open, progress.served.saturating_add(progress.open))
    }

    /// How many connections have ended, and how many of them were cut off.
    pub(crate) fn served<Rt: Wait>(&self, rt: &Rt) -> (u64, u64) {
        let progress = self.progress.lock(rt);
        (progress.served, progress.cut_off)
    }
}
