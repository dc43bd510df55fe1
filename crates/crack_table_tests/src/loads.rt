//! Loads of CSV at a worker's desk.
use crate::trials::{Opening, Trial, run_both};
use crate::values::{ONE, TEN, assert_totals, give_back};
use crack_csv::{LoadFault, load_csv};
use crack_failing::{ONE_BYTE, Source};
use crack_row::{Policy, Refusal, Watched};
use crack_table::{OpenGate, Table};
use crack_witness::{Naming, Worker};
use crack_worker_desk::WorkerDesk;
use std::alloc::Global;
use std::process::Abort;
use std::sync::Wait;

/// A header and two records.
const RECORDS: &[u8] = b"key,payload\n150,6\n50,5\n";

/// How the load of each number of these bytes ends: the number of a bad record, or 0 if there is none, and how many
/// rows are loaded.
const ENDS: [(u64, u64); 24] = [
    (0, 0),
    (1, 0),
    (1, 0),
    (1, 0),
    (1, 0),
    (1, 0),
    (1, 0),
    (1, 0),
    (1, 0),
    (1, 0),
    (1, 0),
    (0, 0),
    (0, 0),
    (2, 0),
    (2, 0),
    (2, 0),
    (2, 0),
    (0, 1),
    (0, 1),
    (3, 1),
    (3, 1),
    (3, 1),
    (0, 2),
    (0, 2),
];

/// A load of the first bytes of `RECORDS`, one at a time, at the desk of the only worker of a table: how it ends, and
/// how many rows it loads.
#[derive(Clone, Copy)]
struct Load {
    length: usize,
    wanted: Result<u64, LoadFault>,
    loaded: u64,
}

impl Trial for Load {
    fn run<J: Naming, R: Wait + Abort>(
        self,
        rt: &R,
        alloc: Global,
        table: Table<J>,
        workers: Vec<Worker<J>>,
    ) {
        let mut workers = workers;
        let worker = workers.pop().expect(rt, "a worker");
        let mut desk = WorkerDesk::new(rt, &table, &OpenGate, worker);
        let bytes = &RECORDS[..self.length.min(RECORDS.len())];
        let source = Source::new(bytes).cut(ONE_BYTE);
        let ended = load_csv(&mut desk, Policy::Ripple, &mut Watched::new(source));
        give_back(rt, &mut workers, desk.into_worker());
        assert!(rt; ended == self.wanted, "{} bytes", self.length);
        let loaded = self.loaded;
        assert_totals(rt, alloc, table, workers, [loaded, loaded, 0, loaded]);
    }
}

#[test]
fn a_worker_loads_a_text_that_is_cut_off_anywhere(rt: HostRuntime) {
    let opening = Opening {
        splits: ONE,
        limits: TEN,
        workers: 1,
    };
    'ends: for length in 0..ENDS.len() {
        let (number, loaded) = ENDS[length];
        let refusal = Refusal::BadRecord { number };
        let wanted = match number {
            0 => Ok(loaded),
            _ => Err(LoadFault { refusal, loaded }),
        };
        let load = Load {
            length,
            wanted,
            loaded,
        };
        run_both(&rt, rt.alloc(), opening, load);
    }
}
