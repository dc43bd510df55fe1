//! Lists of rows that one call inserts, beside the same rows inserted one by one into a second core.
use crate::session::bounds_of;
use crack_core::{BulkProgress, Core};
use crack_part::Partition;
use crack_row::{
    GREATEST_CELLS, GREATEST_LIFE, Key, KeyRange, Limits, Payload, Refusal, RowNo, Upkeep,
};
use std::alloc::Global;
use std::process::Abort;

/// Rows for a core with these splits and limits.
#[derive(Clone, Copy)]
struct Case {
    name: &'static str,
    splits: &'static [u128],
    /// The limits of the history, the cells and the life.
    limits: [u64; 3],
    upkeep: Upkeep,
    keys: &'static [u64],
    /// How many rows are inserted.
    done: u64,
    /// Why the next one is refused, if it is.
    refusal: Option<Refusal>,
}

const CASES: &[Case] = &[
    Case {
        name: "no rows",
        splits: &[],
        limits: [8, GREATEST_CELLS, GREATEST_LIFE],
        upkeep: Upkeep::Automatic,
        keys: &[],
        done: 0,
        refusal: None,
    },
    Case {
        name: "checkpoints between the rows",
        splits: &[],
        limits: [8, GREATEST_CELLS, GREATEST_LIFE],
        upkeep: Upkeep::Automatic,
        keys: &[5, 3, 9, 1, 7, 2, 8, 6, 4, 0, 5, 3, 9, 1, 7, 2, 8, 6, 4, 0],
        done: 20,
        refusal: None,
    },
    Case {
        name: "a full history",
        splits: &[],
        limits: [8, GREATEST_CELLS, GREATEST_LIFE],
        upkeep: Upkeep::OnRequest,
        keys: &[5, 3, 9, 1, 7, 2, 8, 6, 4, 0],
        done: 8,
        refusal: Some(Refusal::HistoryFull { length: 8 }),
    },
    Case {
        name: "a missing cell",
        splits: &[],
        limits: [8, 5, GREATEST_LIFE],
        upkeep: Upkeep::Automatic,
        keys: &[5, 3, 9, 1, 7, 2, 8],
        done: 5,
        refusal: Some(Refusal::NoCell),
    },
    Case {
        name: "the end of a life",
        splits: &[],
        limits: [4, GREATEST_CELLS, 10],
        upkeep: Upkeep::Automatic,
        keys: &[5, 3, 9, 1, 7, 2, 8, 6, 4, 0, 5, 3],
        done: 10,
        refusal: Some(Refusal::LifeOver),
    },
    Case {
        name: "several partitions in order",
        splits: &[3, 6],
        limits: [3, GREATEST_CELLS, GREATEST_LIFE],
        upkeep: Upkeep::Automatic,
        keys: &[0, 1, 2, 2, 2, 3, 4, 5, 5, 5, 6, 7, 18446744073709551615],
        done: 13,
        refusal: None,
    },
    Case {
        name: "several partitions in turn",
        splits: &[3, 6],
        limits: [2, GREATEST_CELLS, GREATEST_LIFE],
        upkeep: Upkeep::Automatic,
        keys: &[0, 3, 6, 2, 5, 18446744073709551615, 1, 1, 4, 4, 7, 7, 0],
        done: 13,
        refusal: None,
    },
    Case {
        name: "a full history of one partition",
        splits: &[3],
        limits: [2, GREATEST_CELLS, GREATEST_LIFE],
        upkeep: Upkeep::OnRequest,
        keys: &[3, 3, 2, 2, 4, 1],
        done: 4,
        refusal: Some(Refusal::HistoryFull { length: 2 }),
    },
];

/// The most rows of a case.
const MOST: usize = 20;

/// The payloads of the rows of each case.
const PAYLOADS: [i64; MOST] = [
    0, -1, 2, -3, 4, -5, 6, -7, 8, -9, 10, -11, 12, -13, 14, -15, 16, -17, 18, -19,
];

/// A core for a case.
fn core_of(rt: &impl Abort, alloc: Global, case: Case) -> Core {
    let [history, cells, life] = case.limits;
    let limits = Limits {
        history,
        cells,
        life,
        upkeep: case.upkeep,
    };
    let splits = bounds_of(rt, alloc, case.splits);
    Core::open_with(alloc, &splits, limits).expect(rt, "a core")
}

/// Inserts a row. It has no contract, so that the test carries none.
fn insert(core: &mut Core, key: u64, payload: i64) -> Result<RowNo, Refusal> {
    core.insert(Key::from_number(key), Payload::from_number(payload))
}

/// Inserts rows. It has no contract, so that the test carries none.
fn insert_all(
    rt: &impl Abort,
    core: &mut Core,
    keys: &[u64],
    payloads: &[i64],
    parts: &mut [u32],
    serials: &mut [u64],
) -> BulkProgress {
    assert!(rt; payloads.len() == keys.len() && parts.len() == keys.len());
    assert!(rt; serials.len() == keys.len());
    core.insert_many(keys, payloads, parts, serials)
}

/// Asserts that a core inserts the rows of a case one by one with these row numbers.
fn assert_rows(rt: &impl Abort, core: &mut Core, case: Case, parts: &[u32], serials: &[u64]) {
    let count = case.keys.len();
    assert!(rt; count <= MOST && parts.len() == count && serials.len() == count);
    'rows: for place in 0..count {
        let row = insert(core, case.keys[place], PAYLOADS[place]);
        if place as u64 == case.done {
            assert!(rt; row.err() == case.refusal, "{}", case.name);
            return;
        }
        let row = row.expect(rt, "a row");
        assert!(rt;
            row.part == parts[place] && row.serial.0 == serials[place],
            "{}",
            case.name
        );
    }
}

/// Asserts what one call inserts of a case.
fn assert_case(rt: &impl Abort, alloc: Global, case: Case) {
    let mut core = core_of(rt, alloc, case);
    let mut single = core_of(rt, alloc, case);
    let mut parts = [99u32; MOST];
    let mut serials = [99u64; MOST];
    let count = case.keys.len();
    assert!(rt; count <= MOST);
    let progress = insert_all(
        rt,
        &mut core,
        case.keys,
        &PAYLOADS[..count],
        &mut parts[..count],
        &mut serials[..count],
    );
    assert!(rt;
        progress.done == case.done && progress.refusal == case.refusal,
        "{}",
        case.name
    );
    assert_rows(rt, &mut single, case, &parts[..count], &serials[..count]);
    drop(core);
    drop(single);
}

#[test]
fn many_rows_are_inserted_as_single_ones(rt: HostRuntime) {
    'cases: for place in 0..CASES.len() {
        assert_case(&rt, rt.alloc(), CASES[place]);
    }
}

/// Inserts the rows of a run. It has no contract, so that the test carries none.
fn run(rt: &impl Abort, part: &mut Partition, keys: &[u64]) -> Result<usize, Refusal> {
    assert!(rt; keys.len() <= MOST);
    part.insert_run(keys, &PAYLOADS[..keys.len()])
}

#[test]
fn a_run_takes_the_rows_that_it_may(rt: HostRuntime) {
    let keys = KeyRange::new(0, 100).expect(&rt, "a range");
    let mut part = Partition::open(rt.alloc(), keys, 8).expect(&rt, "a partition");
    assert!(rt; run(&rt, &mut part, &[5, 3, 9, 100, 1]) == Ok(3));
    assert!(rt; run(&rt, &mut part, &[100]) == Ok(0));
    assert!(rt; run(&rt, &mut part, &[1, 2, 3, 4, 5, 6, 7]) == Ok(5));
    assert!(rt; run(&rt, &mut part, &[1]) == Ok(0));
    drop(part);
}
