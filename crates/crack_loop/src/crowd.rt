//! The connections of one thread.
use crate::admission::Arrival;
use crate::client::{After, Client};
use crate::connection::{Connection, has_passed};
use crate::terms::ServerState;
use crate::{READ_BYTES, Room};
use arrayvec::ArrayString;
use crack_row::Refusal;
use crack_service::{Cause, Host};
use crack_session::{Desk, Output};
use mio::net::{TcpListener, TcpStream};
use mio::{Events, Interest, Poll, Token};
use slab::Slab;
use std::alloc::Global;
use std::collections::VecDeque;
use std::fmt::Write as _;
use std::io::{Read, Write};
use std::net::{Shutdown, SocketAddr};
use std::sync::Wait;
use std::time::Duration;

/// The token of the listener. The token of a connection is its key.
pub(crate) const LISTENER: usize = usize::MAX;

/// The token of a thread's waker.
pub(crate) const WAKER: usize = usize::MAX - 1;

/// The longest time that a thread waits for events, and the time between two searches for connections that have
/// waited too long, in milliseconds.
pub(crate) const LOOK_MILLIS: u64 = 250;

/// The most by which a thread's own time advances in one round, in milliseconds.
const MOST_ROUND_MILLIS: u64 = 2 * LOOK_MILLIS;

/// The number of rounds, of at most a millisecond each, for which a thread that has more than its share of the
/// connections leaves a new one to the other threads.
const MOST_LEFT: u32 = 4;

/// The connections of one thread, and the queue of those that take the next turns. `clients` has the connections by
/// their keys.
#[derive(Drop)]
pub(crate) struct Crowd {
    poll: Poll,
    listener: TcpListener,
    clients: Slab<Client>,
    /// The keys of the connections that take the next turns, each once.
    queue: VecDeque<usize>,
    room: Room,
    /// Whether a connection may wait at the listener.
    may_arrive: bool,
    /// For how many rounds in a row a connection that may wait was left to the other threads.
    left: u32,
    /// The host's time in milliseconds, and the thread's own time, which advances by at most `MOST_ROUND_MILLIS` in a
    /// round.
    now: u64,
    awake: u64,
    /// When the thread last searched for connections that have waited too long.
    looked: u64,
    /// When the server began to stop, if it did.
    stopping_since: Option<u64>,
    /// How many statements were answered since the last `look`, and the longest time of a turn, in microseconds.
    answered: u64,
    longest: u64,
}

impl Crowd {
    /// The state of a thread without connections, at the host's time `now` in milliseconds.
    pub(crate) fn new(alloc: Global, poll: Poll, listener: TcpListener, now: u64) -> Crowd {
        Crowd {
            poll,
            listener,
            clients: Slab::new(alloc),
            queue: VecDeque::new(alloc),
            room: Room {
                input: [0; READ_BYTES],
                out: Output::new(),
            },
            may_arrive: true,
            left: 0,
            now,
            awake: 0,
            looked: now,
            stopping_since: None,
            answered: 0,
            longest: 0,
        }
    }

    /// Waits for an event, and queues the connections that are ready. Doesn't wait if a connection is queued or an
    /// accept is next. Waits at most a millisecond if a connection that may wait was just left to the other threads,
    /// and otherwise at most `LOOK_MILLIS`.
    pub(crate) fn wait<Rt: Wait, H: Host>(
        &mut self,
        service: &ServerState<'_, Rt, H>,
        events: &mut Events,
    ) {
        let most = match (self.may_arrive, self.left) {
            _ if !self.queue.is_empty() => 0,
            (true, 0) => 0,
            (true, _) => 1,
            (false, _) => LOOK_MILLIS,
        };
        if self
            .poll
            .poll(events, Some(Duration::from_millis(most)))
            .is_err()
        {
            service.host.pause();
        }
        'events: for event in events.iter() {
            match event.token() {
                Token(LISTENER) => self.may_arrive = true,
                Token(WAKER) => {}
                Token(key) => self.enqueue(service, key, event.is_read_closed()),
            }
        }
    }

    /// Reads the clock. The thread's own time advances by the time that passed, at most by `MOST_ROUND_MILLIS`, so
    /// that no client is blamed for a pause of the process.
    pub(crate) fn read_clock<Rt: Wait, H: Host>(&mut self, service: &ServerState<'_, Rt, H>) {
        let now = service.host.millis();
        let passed = now.saturating_sub(self.now).min(MOST_ROUND_MILLIS);
        self.awake = self.awake.saturating_add(passed);
        self.now = now;
    }

    /// Accepts one connection, if one waits, or turns it away if `Terms::clients` connections are open already. A
    /// thread that has more than its share of the connections (`is_above_share`) first leaves a waiting one to the
    /// other threads, for at most `MOST_LEFT` rounds.
    pub(crate) fn accept<Rt: Wait, H: Host>(&mut self, service: &ServerState<'_, Rt, H>) {
        if !self.may_arrive {
            return;
        }
        if self.left < MOST_LEFT && service.is_above_share(self.clients.len()) {
            self.left += 1;
            return;
        }
        self.left = 0;
        let clients = service.terms.clients;
        let was_over = service.admission.is_over();
        match service
            .admission
            .accept(service.rt, &self.listener, clients)
        {
            Arrival::Accepted(stream, client) => self.admit(service, stream, client),
            Arrival::TurnedAway(stream) => {
                turn_away(&stream, clients, &mut self.room);
                service.report_refused(self.now, false);
            }
            Arrival::Nobody => self.may_arrive = false,
            Arrival::Failed => {
                self.may_arrive = false;
                service.report_refused(self.now, false);
            }
        }
        if !was_over && service.admission.is_over() {
            service.wake_all();
        }
    }

    /// Adds a connection with the client at this address, and queues it for a turn at once. The connection is cut off
    /// if its stream can't be watched or no memory is found.
    fn admit<Rt: Wait, H: Host>(
        &mut self,
        service: &ServerState<'_, Rt, H>,
        stream: TcpStream,
        address: SocketAddr,
    ) {
        let mut stream = stream;
        let _ = stream.set_nodelay(true);
        let key = self.clients.vacant_key();
        let watched = self.poll.registry().register(
            &mut stream,
            Token(key),
            Interest::READABLE | Interest::WRITABLE,
        );
        if watched.is_err() {
            service.end(address, Some((Refusal::ReadFault, Cause::Fault)), false);
            return;
        }
        let client = Client {
            stream,
            connection: Connection::new(service.alloc, service.terms.policy),
            address,
            heard: self.awake,
            is_queued: false,
            is_half_closed: false,
        };
        let most = self.clients.len().saturating_add(1);
        if self.queue.reserve(most).is_err() || self.clients.insert(client).is_err() {
            service.end(address, Some((Refusal::OutOfMemory, Cause::Fault)), false);
            return;
        }
        self.enqueue(service, key, false);
    }

    /// Queues the connection with this key for a turn, unless it is queued already. `is_half_closed` says that its
    /// client sends no more than what has arrived. Cuts the connection off if no memory is found for the queue.
    fn enqueue<Rt: Wait, H: Host>(
        &mut self,
        service: &ServerState<'_, Rt, H>,
        key: usize,
        is_half_closed: bool,
    ) {
        let is_new = match self.clients.get_mut(key) {
            Some(client) => client.is_due(is_half_closed),
            None => false,
        };
        if is_new && self.queue.push_back(key).is_err() {
            let cut_off = (Refusal::OutOfMemory, Cause::Fault);
            self.remove(service, key, Some(cut_off));
        }
    }

    /// Lets each queued connection take one turn. Afterwards queues it again if it doesn't have to wait for an event,
    /// and removes it if it ends.
    pub(crate) fn take_turns<Rt: Wait, D: Desk, H: Host>(
        &mut self,
        service: &ServerState<'_, Rt, H>,
        desk: &mut D,
    ) {
        let count = self.queue.len();
        'turns: for _ in 0..count {
            if let Some(key) = self.queue.pop_front() {
                let after = self.turn(service, desk, key);
                self.follow(service, key, after);
            }
        }
    }

    /// Lets the connection with this key take a turn, and records how many statements were answered and, if any were,
    /// how long that took. Returns what the connection does next, or `Event` if there is no connection with this key.
    fn turn<Rt: Wait, D: Desk, H: Host>(
        &mut self,
        service: &ServerState<'_, Rt, H>,
        desk: &mut D,
        key: usize,
    ) -> After {
        let is_stopping = self.stopping_since.is_some();
        let begun = service.host.micros();
        match self.clients.get_mut(key) {
            Some(client) => {
                client.is_queued = false;
                let before = client.connection.statements();
                let room = &mut self.room;
                let after = client.turn(service.alloc, desk, room, self.awake, is_stopping);
                let answered = client.connection.statements().saturating_sub(before);
                if answered > 0 {
                    let took = service.host.micros().saturating_sub(begun);
                    self.answered = self.answered.saturating_add(answered);
                    self.longest = self.longest.max(took);
                }
                after
            }
            None => After::Event,
        }
    }

    /// Does with the connection what its turn returned (`after`): queues it again, leaves it until an event, or
    /// removes it.
    fn follow<Rt: Wait, H: Host>(
        &mut self,
        service: &ServerState<'_, Rt, H>,
        key: usize,
        after: After,
    ) {
        match after {
            After::Turn => self.enqueue(service, key, false),
            After::Event => {}
            After::End => self.remove(service, key, None),
            After::CutOff(refusal) => self.remove(service, key, Some((refusal, Cause::Fault))),
        }
    }

    /// Closes the connection with this key and counts it as ended. If `cut_off` has a refusal and its cause, the
    /// connection was cut off, and the host is notified. Does nothing if there is no connection with this key.
    fn remove<Rt: Wait, H: Host>(
        &mut self,
        service: &ServerState<'_, Rt, H>,
        key: usize,
        cut_off: Option<(Refusal, Cause)>,
    ) {
        if let Some(client) = self.clients.try_remove(key) {
            self.may_arrive = true;
            service.end(client.address, cut_off, client.connection.has_unfinished());
            drop(client);
        }
    }

    /// Does nothing until `LOOK_MILLIS` have passed since the last call that did something. Then cuts off the
    /// connections that have waited for their clients for `Terms::idle` seconds, if that is set, reports clients that
    /// were turned away, failed accepts and the number of answered statements, lets the host catch up with its reports,
    /// and allows a failed accept to be tried again.
    pub(crate) fn look<Rt: Wait, H: Host>(&mut self, service: &ServerState<'_, Rt, H>) {
        if !has_passed(LOOK_MILLIS, self.looked, self.now) {
            return;
        }
        self.looked = self.now;
        self.may_arrive = true;
        service.host.catch_up();
        service.report_refused(self.now, false);
        self.report_pace(service);
        if let Some(idle) = service.terms.idle {
            let most = u64::from(idle) * 1000;
            'keys: for key in 0..self.clients.capacity() {
                if let Some(refusal) = self.overdue(key, most) {
                    self.remove(service, key, Some((refusal, Cause::Wait)));
                }
            }
        }
    }

    /// Reports to the server how many statements were answered since the last report, and the longest time of a turn.
    fn report_pace<Rt: Wait, H: Host>(&mut self, service: &ServerState<'_, Rt, H>) {
        if self.answered > 0 {
            service.note_pace(self.now, self.answered, self.longest);
            self.answered = 0;
            self.longest = 0;
        }
    }

    /// The refusal with which the connection with this key is cut off because it has waited for `most` milliseconds.
    /// `None` if it hasn't waited so long, if it is queued for a turn, or if there is no such connection.
    fn overdue(&self, key: usize, most: u64) -> Option<Refusal> {
        match self.clients.get(key) {
            Some(client) if !client.is_queued && has_passed(most, client.heard, self.awake) => {
                Some(client.connection.fault())
            }
            _ => None,
        }
    }

    /// If the server has begun to stop since the last call, queues each connection for a turn, in which it ends unless
    /// it has texts to write, or bytes to answer or to read.
    pub(crate) fn heed_stop<Rt: Wait, H: Host>(&mut self, service: &ServerState<'_, Rt, H>) {
        if self.stopping_since.is_none() && service.admission.is_stopping() {
            self.stopping_since = Some(self.now);
            'keys: for key in 0..self.clients.capacity() {
                self.enqueue(service, key, false);
            }
        }
    }

    /// Whether the thread ends: the server accepts no more connections, and either no connection of the thread is
    /// left, or the server has been stopping for `Terms::drain` seconds.
    pub(crate) fn is_done<Rt: Wait, H: Host>(&self, service: &ServerState<'_, Rt, H>) -> bool {
        let most = u64::from(service.terms.drain) * 1000;
        let waited = match self.stopping_since {
            Some(since) => has_passed(most, since, self.now),
            None => false,
        };
        service.admission.is_over() && (waited || self.clients.is_empty())
    }

    /// Cuts off the connections that are left when the thread ends, because the stop waits no longer for them.
    pub(crate) fn cut_off_all<Rt: Wait, H: Host>(&mut self, service: &ServerState<'_, Rt, H>) {
        'keys: for key in 0..self.clients.capacity() {
            if let Some(client) = self.clients.get(key) {
                let refusal = client.connection.fault();
                self.remove(service, key, Some((refusal, Cause::Stop)));
            }
        }
    }
}

/// Writes to a client that was turned away the line `refused 20 N`, in which N is `clients`, the greatest number of
/// connections. Then reads once what the client has sent, because closing a connection with unread bytes resets it,
/// and the client may not see the refusal.
fn turn_away(stream: &TcpStream, clients: u64, room: &mut Room) {
    let mut line: ArrayString<40> = ArrayString::new();
    let _ = writeln!(line, "refused 20 {clients}");
    let mut stream = stream;
    let _ = stream.write(line.as_bytes());
    let _ = stream.shutdown(Shutdown::Write);
    let _ = stream.read(&mut room.input);
}
