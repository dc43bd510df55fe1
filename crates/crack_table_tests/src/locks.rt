//! When a worker releases a partition's lock.
use crate::trials::{Opening, Trial, run_both};
use crate::values::{GREATEST, TWO, assert_totals, give_back, insert};
use crack_row::{Limits, Policy, Upkeep};
use crack_session::Desk;
use crack_table::{Gate, Table};
use crack_witness::{Naming, Worker};
use crack_worker_desk::WorkerDesk;
use std::alloc::Global;
use std::process::Abort;
use std::sync::Wait;
use std::sync::atomic::{AtomicU64, Ordering};

/// A gate that consents, and asks for a layout at each checkpoint that was due: if the lock were still held, it
/// would wait forever. It counts the rows that it sees.
#[derive(Drop)]
struct Looking<'a, R: Wait, J: Naming> {
    rt: &'a R,
    table: &'a Table<J>,
    rows: AtomicU64,
}

impl<R: Wait, J: Naming> Gate for Looking<'_, R, J> {
    ghost may_refuse = { λ gate part turn. ⊥ };

    fn inside(&self, _part: u32, _turn: u32) -> bool {
        true
    }

    fn note_checkpoint(&self, part: u32, _entries: u64) {
        if let Ok(layout) = self.table.layout(self.rt, part) {
            self.rows.fetch_add(layout.rows, Ordering::SeqCst);
        }
    }
}

/// Has a worker insert two rows into partition 0, and returns the worker. A checkpoint is due before each row but the
/// table's first.
fn insert_two<J: Naming, R: Wait + Abort>(
    rt: &R,
    table: &Table<J>,
    gate: &Looking<'_, R, J>,
    worker: Worker<J>,
) -> Worker<J> {
    let mut desk = WorkerDesk::new(rt, table, gate, worker);
    let one = desk.ask(0, insert(7), Policy::Complete);
    let two = desk.ask(0, insert(8), Policy::Complete);
    assert!(rt; one.is_ok() && two.is_ok());
    desk.into_worker()
}

/// Two workers ask a partition whose history may have one entry.
#[derive(Clone, Copy)]
struct Released;

impl Trial for Released {
    fn run<J: Naming, R: Wait + Abort>(
        self,
        rt: &R,
        alloc: Global,
        table: Table<J>,
        workers: Vec<Worker<J>>,
    ) {
        let mut workers = workers;
        let second = workers.pop().expect(rt, "the second");
        let first = workers.pop().expect(rt, "the first");
        let gate = Looking {
            rt,
            table: &table,
            rows: AtomicU64::new(0),
        };
        let first = insert_two(rt, &table, &gate, first);
        let second = insert_two(rt, &table, &gate, second);
        let rows = gate.rows.load(Ordering::SeqCst);
        drop(gate);
        give_back(rt, &mut workers, first);
        give_back(rt, &mut workers, second);
        assert!(rt; rows == 9);
        assert_totals(rt, alloc, table, workers, [4, 4, 0, 4]);
    }
}

/// A gate is notified of each checkpoint that was due, after the lock is released.
#[test]
fn a_worker_releases_its_lock_before_a_note(rt: HostRuntime) {
    let limits = Limits {
        history: 1,
        upkeep: Upkeep::Automatic,
        ..GREATEST
    };
    let opening = Opening {
        splits: TWO,
        limits,
        workers: 2,
    };
    run_both(&rt, rt.alloc(), opening, Released);
}
