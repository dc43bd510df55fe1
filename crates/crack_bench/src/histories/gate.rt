//! A gate, which is called under the locks: it yields to other threads and refuses now and then. It also makes the
//! threads of a run begin together.

use crate::histories::draws::PARTS;
use crack_table::Gate;
use std::sync::atomic::{AtomicU32, Ordering};
use std::thread;

/// One in this many commands of each partition is refused.
const REFUSED: u32 = 50;

/// At one in this many commands of each partition the gate refuses its first call and yields to other threads, under
/// the partition's lock. The table then calls it again.
const GIVES_WAY: u32 = 3;

/// The most times that a thread yields while it waits for the others to begin.
const PATIENCE: u32 = 100000;

/// A gate that numbers the commands of each partition. By this number it consents at once, or yields to other threads
/// first (one in `GIVES_WAY`), or refuses at every call, so that the command is refused (one in `REFUSED`).
#[derive(Drop)]
pub struct Restless {
    /// How many threads have begun.
    pub begun: AtomicU32,
    /// How many commands of each partition the gate was called for.
    pub entered: [AtomicU32; PARTS],
}

impl Restless {
    /// Counts the calling thread. Waits until this many threads are counted, or until it has yielded `PATIENCE` times.
    pub fn begin_together(&self, threads: u64) {
        self.begun.fetch_add(1, Ordering::SeqCst);
        'others: for _ in 0..PATIENCE {
            if u64::from(self.begun.load(Ordering::SeqCst)) >= threads {
                break;
            }
            thread::yield_now();
        }
    }
}

impl Gate for Restless {
    ghost may_refuse = { λ gate part turn. Unit {0} };

    /// Whether the command may be executed. The first call for a command, with turn 0, gives it the next number of its
    /// partition. False at every call for the last of each `REFUSED` numbers, and at the first call for the first of
    /// each `GIVES_WAY` numbers, after a yield. Always true for a partition that doesn't exist.
    fn inside(&self, part: u32, turn: u32) -> bool {
        let Some(entered) = self.entered.get(part as usize) else {
            return true;
        };
        let number = match turn {
            0 => entered.fetch_add(1, Ordering::SeqCst),
            _ => entered.load(Ordering::SeqCst).wrapping_sub(1),
        };
        if turn == 0 && number % GIVES_WAY == 0 {
            thread::yield_now();
            return false;
        }
        number % REFUSED != REFUSED - 1
    }
}
