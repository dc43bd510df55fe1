//! Gates that refuse: always, at one partition, or until another worker is inside; and gates that consent, and list
//! the workers or count the checkpoints that were due.
ghost use Rattle.std.specs.Prelude.{◌≡◌, ◌<◌, not, false, nat_eq, MatchOption};

use crack_table::Gate;
use std::alloc::{AllocError, Global};
use std::sync::atomic::{AtomicBool, AtomicU32, AtomicU64, Ordering};
use std::thread;

/// A gate that refuses at one partition, or at all partitions. It counts how often any worker asked it, and records
/// whether it was asked at the turns of one call, in order.
#[derive(Drop)]
pub(crate) struct Shut {
    part: Option<u32>,
    /// How often the gate was asked.
    pub(crate) asked: AtomicU32,
    /// Whether the n-th question, from 0, was always at turn n.
    pub(crate) is_orderly: AtomicBool,
}

impl Shut {
    /// A gate that refuses at this partition, or at all partitions if `part` is `None`.
    pub(crate) fn new(part: Option<u32>) -> Shut {
        Shut {
            part,
            asked: AtomicU32::new(0),
            is_orderly: AtomicBool::new(true),
        }
    }
}

impl Gate for Shut {
    ghost may_refuse = { λ gate part turn. MatchOption gate.part (Unit {0}) (λ shut. part ≡ shut) };

    fn inside(&self, part: u32, turn: u32) -> bool
        ensures yes { MatchOption self.now.part (result ≡ false) (λ shut. result ≡ not (nat_eq part shut)) }
    {
        if self.asked.fetch_add(1, Ordering::SeqCst) != turn {
            self.is_orderly.store(false, Ordering::SeqCst);
        }
        match self.part {
            Some(shut) => part != shut,
            None => false,
        }
    }
}

/// Yields often enough for another thread to arrive.
fn give_way() {
    'turns: for _ in 0..1000u32 {
        thread::yield_now();
    }
}

/// A gate that refuses at each of partitions 0 and 1 until a worker has been inside at the other. It yields before
/// each refusal, and consents at other partitions.
#[derive(Drop)]
pub(crate) struct Meeting {
    arrived: [AtomicBool; 2],
}

impl Meeting {
    /// A gate at which no worker has arrived.
    pub(crate) fn new() -> Meeting {
        Meeting {
            arrived: [AtomicBool::new(false), AtomicBool::new(false)],
        }
    }
}

impl Gate for Meeting {
    ghost may_refuse = { λ gate part turn. part < 2 };

    fn inside(&self, part: u32, _turn: u32) -> bool {
        if part > 1 {
            return true;
        }
        self.arrived[part as usize].store(true, Ordering::SeqCst);
        if self.arrived[1 - part as usize].load(Ordering::SeqCst) {
            return true;
        }
        give_way();
        false
    }
}

/// A gate that records whether it is asked while another worker is inside. It refuses twenty times, and yields
/// before each answer.
#[derive(Drop)]
pub(crate) struct Alone {
    inside: AtomicBool,
    /// Whether two workers were inside at the same time.
    pub(crate) met: AtomicBool,
}

impl Alone {
    /// A gate with no worker inside.
    pub(crate) fn new() -> Alone {
        Alone {
            inside: AtomicBool::new(false),
            met: AtomicBool::new(false),
        }
    }
}

impl Gate for Alone {
    ghost may_refuse = { λ gate part turn. turn < 20 };

    fn inside(&self, _part: u32, turn: u32) -> bool {
        if self.inside.swap(true, Ordering::SeqCst) {
            self.met.store(true, Ordering::SeqCst);
        }
        give_way();
        self.inside.store(false, Ordering::SeqCst);
        turn >= 20
    }
}

/// The workers that were let in by the gates that share this list, in order.
#[derive(Drop)]
pub(crate) struct Visitors {
    /// How often a worker was let in.
    pub(crate) entered: AtomicU32,
    workers: Vec<AtomicU32>,
}

impl Visitors {
    /// An empty list with room for this many workers.
    pub(crate) fn new(alloc: Global, room: u32) -> Result<Visitors, AllocError> {
        let mut workers = Vec::new(alloc);
        'places: for _ in 0..room {
            workers.push(AtomicU32::new(u32::MAX))?;
        }
        Ok(Visitors {
            entered: AtomicU32::new(0),
            workers,
        })
    }

    /// Whether this worker is at this place of the list.
    pub(crate) fn has(&self, place: u64, worker: u32) -> bool {
        match self.workers.get(place as usize) {
            Some(listed) => listed.load(Ordering::SeqCst) == worker,
            None => false,
        }
    }
}

/// A gate that consents, and lists its worker each time; a worker for which there is no room is only counted. All
/// gates of one partition share a list. It is in the order of the partition's history if each command is let in
/// once, and no other command comes between a gate's consent and the command.
#[derive(Clone, Copy, Drop)]
pub(crate) struct Listing<'a> {
    pub(crate) worker: u32,
    pub(crate) visitors: &'a Visitors,
}

impl Gate for Listing<'_> {
    ghost may_refuse = { λ gate part turn. ⊥ };

    fn inside(&self, _part: u32, _turn: u32) -> bool {
        let place = self.visitors.entered.fetch_add(1, Ordering::SeqCst);
        if let Some(listed) = self.visitors.workers.get(place as usize) {
            listed.store(self.worker, Ordering::SeqCst);
        }
        true
    }
}

/// A gate that consents, and counts the checkpoints that were due and their entries.
#[derive(Drop)]
pub(crate) struct Due {
    count: AtomicU64,
    entries: AtomicU64,
    /// The partition of the last checkpoint.
    pub(crate) part: AtomicU32,
}

impl Due {
    /// A gate that has counted no checkpoint.
    pub(crate) fn new() -> Due {
        Due {
            count: AtomicU64::new(0),
            entries: AtomicU64::new(0),
            part: AtomicU32::new(u32::MAX),
        }
    }

    /// How many checkpoints there were, and how many entries they had.
    pub(crate) fn counts(&self) -> [u64; 2] {
        [
            self.count.load(Ordering::SeqCst),
            self.entries.load(Ordering::SeqCst),
        ]
    }
}

impl Gate for Due {
    ghost may_refuse = { λ gate part turn. ⊥ };

    fn inside(&self, _part: u32, _turn: u32) -> bool {
        true
    }

    fn note_checkpoint(&self, part: u32, entries: u64) {
        self.count.fetch_add(1, Ordering::SeqCst);
        self.entries.fetch_add(entries, Ordering::SeqCst);
        self.part.store(part, Ordering::SeqCst);
    }
}
