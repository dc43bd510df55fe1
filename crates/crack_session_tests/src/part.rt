//! A partition: each call once, with enough memory, and each refusal except `OutOfMemory`.
use crate::desks::{Asking, counts};
use crate::scripts::{Lines, assert_answers};
use crack_part::Partition;
use crack_row::{
    BoundNumber, GREATEST_BOUND, GREATEST_CELLS, GREATEST_LIFE, GREATEST_LIMIT, KeyRange, Limits,
    Upkeep,
};
use std::alloc::Global;
use std::process::Abort;

/// All keys.
pub const ALL: [BoundNumber; 2] = [0, GREATEST_BOUND];

/// The replies of a partition with these keys and this limit, under the complete policy until a statement sets
/// another, and how many commands it accepts. No checkpoint is made.
#[derive(Clone, Copy)]
pub struct Case {
    pub name: &'static str,
    pub keys: [BoundNumber; 2],
    pub limit: u64,
    pub script: Lines,
    pub accepted: u64,
}

/// Asserts the replies of a partition with at most this many cells, and this upkeep.
pub fn assert_case(rt: &impl Abort, alloc: Global, case: Case, cells: u64, upkeep: Upkeep) {
    let keys = KeyRange::new(case.keys[0], case.keys[1]).expect(rt, "keys");
    let limits = Limits {
        cells,
        upkeep,
        ..Limits::of_history(case.limit)
    };
    let opened = Partition::open_with(alloc, keys, limits);
    let mut asking = Asking::new(opened.expect(rt, "a partition"));
    assert_answers(rt, alloc, &mut asking, case.name, case.script);
    let found = counts(&asking.partition);
    let is_right = asking.is_right;
    drop(asking);
    assert!(rt;
        is_right && found == [case.accepted, case.accepted],
        "{}",
        case.name
    );
}

/// A new partition has all keys, the greatest limits and no command.
#[test]
fn partition_is_opened_empty(rt: HostRuntime) {
    let opened = Partition::open(rt.alloc(), KeyRange::all(), GREATEST_LIMIT);
    let partition = opened.expect(&rt, "a partition");
    let greatest = Limits {
        history: GREATEST_LIMIT,
        cells: GREATEST_CELLS,
        life: GREATEST_LIFE,
        upkeep: Upkeep::OnRequest,
    };
    assert!(rt; partition.limits() == greatest);
    let keys = partition.keys();
    assert_eq!(rt;
        [keys.low().number(), keys.high().number()],
        [0, GREATEST_BOUND]
    );
    assert!(rt; counts(&partition) == [0, 0]);
    drop(partition);
}
