//! A server: one thread for each desk, which serves any number of connections.
use crate::admission::Admission;
use crate::crowd::{Crowd, LISTENER, WAKER};
use crate::pace::Pace;
use crate::served::ReportingDesk;
use crate::terms::{ServerEnding, ServerState, Terms};
use crack_row::Refusal;
use crack_service::{Host, Notice};
use crack_session::Desk;
use mio::net::TcpListener;
use mio::{Events, Interest, Poll, Token, Waker};
use std::alloc::Global;
use std::io::{ErrorKind, Read};
use std::net::Net;
use std::sync::{Mutex, Wait};
use std::thread::Threads;
use std::{io, net, thread};

/// The greatest number of events that a thread takes at once.
const EVENTS: usize = 1024;

/// What a thread waits with: the poll in which its sources are registered, its copy of the listener, and room for
/// events.
#[derive(Drop)]
struct Post {
    poll: Poll,
    listener: TcpListener,
    events: Events,
}

/// Serves the connections of a listener at desks. Each desk has a thread of its own, which serves any number of
/// connections. If `terms.ending` is `AfterSessions`, the server ends once that many connections were accepted and have
/// ended. If it is `AtEndOfInput`, the server stops once `input` ends or fails: no more connections are accepted, what
/// has arrived is answered, each connection ends once it has nothing more to read, and the others are cut off after
/// `terms.drain` seconds. Returns the desks. The host is notified of each session that was cut off, and of the end.
/// Refused with `ReadFault` if the listener can't be waited for, and with `OutOfMemory` if no memory is found for the
/// threads or one can't be started; then no connection is accepted.
pub fn serve_connections<
    Rt: Threads + Wait + Net + Sync,
    D: Desk + Send + Drop,
    H: Host + Sync,
    I: Read,
>(
    rt: &Rt,
    alloc: Global,
    listener: &net::TcpListener,
    desks: Vec<D>,
    terms: Terms,
    host: &H,
    input: &mut I,
) -> Result<Vec<D>, Refusal> {
    let (posts, wakers) = posts(rt, alloc, listener, desks.len())?;
    let begun = host.millis();
    let service = ServerState {
        rt,
        alloc,
        terms,
        host,
        admission: Admission::new(terms.ending),
        pace: Mutex::new(Pace::new(begun / 1000)),
        begun,
        wakers,
    };
    let ended = serve_posts(rt, alloc, &service, posts, desks, input)?;
    service.report_refused(host.millis(), true);
    let (sessions, cut_off) = service.admission.served(rt);
    host.note(Notice::Ended { sessions, cut_off });
    Ok(ended)
}

/// Starts a thread for each desk, which waits with the `Post` at the same index. Stops the server at the end of `input`
/// if it is to end then. Waits until all threads have ended, and returns the desks. Refused with `OutOfMemory` if no
/// memory is found or a thread can't be started; then no connection is accepted.
fn serve_posts<Rt: Threads + Wait + Net + Sync, D: Desk + Send + Drop, H: Host + Sync, I: Read>(
    rt: &Rt,
    alloc: Global,
    service: &ServerState<'_, Rt, H>,
    posts: Vec<Post>,
    desks: Vec<D>,
    input: &mut I,
) -> Result<Vec<D>, Refusal> {
    let mut threads = Vec::with_capacity(alloc, desks.len())?;
    let mut ended = Vec::with_capacity(alloc, desks.len())?;
    let all = thread::scope(thread::scope_env(), rt, move |scope| {
        let mut progress = service.admission.progress.lock(rt);
        let mut started = true;
        'starts: for (post, desk) in posts.into_iter().zip(desks) {
            match scope.spawn(move || serve_post(service, post, desk)) {
                Ok(thread) => started = threads.push(thread).is_ok() && started,
                Err(_) => started = false,
            }
        }
        if !started {
            progress.most = 0;
            service.admission.stop();
        }
        drop(progress);
        if started {
            await_end(service, input);
        }
        'ends: for thread in threads {
            started = ended.push(thread.join(rt)).is_ok() && started;
        }
        if started { Some(ended) } else { None }
    });
    all.ok_or(Refusal::OutOfMemory)
}

/// Makes a `Post` and a waker for each of `count` threads, and makes the listener non-blocking. Refused with
/// `ReadFault` if the system refuses one of these, and with `OutOfMemory` if no memory is found.
fn posts<N: Net>(
    net: &N,
    alloc: Global,
    listener: &net::TcpListener,
    count: usize,
) -> Result<(Vec<Post>, Vec<Waker>), Refusal> {
    let mut posts = Vec::with_capacity(alloc, count)?;
    let mut wakers = Vec::with_capacity(alloc, count)?;
    if listener.set_nonblocking(true).is_err() {
        return Err(Refusal::ReadFault);
    }
    'threads: for _ in 0..count {
        let events = Events::with_capacity(alloc, EVENTS)?;
        let Ok((poll, listener, waker)) = watch(net, listener) else {
            return Err(Refusal::ReadFault);
        };
        posts.push(Post {
            poll,
            listener,
            events,
        })?;
        wakers.push(waker)?;
    }
    Ok((posts, wakers))
}

/// Makes a poll in which a copy of the listener is registered, the copy, and a waker that ends a wait for the poll.
/// Fails if the system can't make one of them.
fn watch<N: Net>(net: &N, listener: &net::TcpListener) -> io::Result<(Poll, TcpListener, Waker)> {
    let poll = Poll::new(net)?;
    let mut listener = TcpListener::from_std(listener.try_clone()?);
    poll.registry()
        .register(&mut listener, Token(LISTENER), Interest::READABLE)?;
    let waker = Waker::new(poll.registry(), Token(WAKER))?;
    Ok((poll, listener, waker))
}

/// Serves connections at a desk until the server ends, cuts off the connections that are left, and returns the desk.
fn serve_post<Rt: Wait, D: Desk + Drop, H: Host>(
    service: &ServerState<'_, Rt, H>,
    post: Post,
    desk: D,
) -> D {
    let Post {
        poll,
        listener,
        events,
    } = post;
    let (mut served, mut events) = (ReportingDesk { desk, service }, events);
    let mut crowd = Crowd::new(service.alloc, poll, listener, service.host.millis());
    service.admission.await_start(service.rt);
    'rounds: for _ in 0..u64::MAX {
        crowd.wait(service, &mut events);
        crowd.read_clock(service);
        crowd.accept(service);
        crowd.heed_stop(service);
        crowd.take_turns(service, &mut served);
        crowd.look(service);
        if crowd.is_done(service) {
            break;
        }
    }
    crowd.cut_off_all(service);
    let ReportingDesk { desk, .. } = served;
    desk
}

/// If the server is to end at the end of `input`, waits for that, and then stops the server. Otherwise returns at
/// once.
fn await_end<Rt: Wait, H: Host, I: Read>(service: &ServerState<'_, Rt, H>, input: &mut I) {
    if let ServerEnding::AtEndOfInput = service.terms.ending {
        read_out(input);
        service.admission.stop();
        service.wake_all();
    }
}

/// Reads an input until it ends or fails, and drops the bytes.
fn read_out<I: Read>(input: &mut I) {
    let mut bytes = [0u8; 512];
    'reads: for _ in 0..u64::MAX {
        match input.read(&mut bytes) {
            Ok(0) => break,
            Ok(_) => {}
            Err(error) if error.kind() == ErrorKind::Interrupted => {}
            Err(_) => break,
        }
    }
}
