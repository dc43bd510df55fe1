//! Partitions by key range in one thread: which of them hold a key or a part of a range, and the replies to steps.
use crate::session::core;
use crack_core::{Core, Step};
use crack_row::{
    Bound, BoundNumber, Command, GREATEST_BOUND, GREATEST_LIMIT, Key, KeyRange, Layout, Payload,
    Policy, Refusal, Reply, Serial,
};
use smallvec::SmallVec;
use std::process::Abort;

/// The parts of a range: the number of each partition, and its part.
fn parts(
    core: &Core,
    low: BoundNumber,
    high: BoundNumber,
) -> Result<SmallVec<(u32, KeyRange), 8>, Refusal> {
    let range = KeyRange::between(Bound::from_number(low), Bound::from_number(high))?;
    core.parts_of(range)
}

/// Asserts the parts of a range: the number of each partition, and the ends of its part.
fn assert_parts(
    rt: &impl Abort,
    core: &Core,
    low: BoundNumber,
    high: BoundNumber,
    wanted: &[[BoundNumber; 3]],
) {
    let parts = parts(core, low, high).expect(rt, "parts");
    assert!(rt; parts.len() == wanted.len());
    for place in 0..wanted.len() {
        let (number, range) = parts[place];
        let found = [
            BoundNumber::from(number),
            range.low().number(),
            range.high().number(),
        ];
        assert!(rt; found == wanted[place], "part {place}");
    }
}

/// A range over three partitions is cut at their splits. An empty range goes to the partition of its low end, or to
/// the last partition from the greatest bound on.
#[test]
fn ranges_are_cut_at_splits(rt: HostRuntime) {
    let core = core(&rt, rt.alloc(), &[100, 200], GREATEST_LIMIT);
    assert_parts(
        &rt,
        &core,
        50,
        201,
        &[[0, 50, 100], [1, 100, 200], [2, 200, 201]],
    );
    assert_parts(&rt, &core, 100, 100, &[[1, 100, 100]]);
    let end = GREATEST_BOUND;
    assert_parts(&rt, &core, end, end, &[[2, end, end]]);
    let places = [
        core.route(Key::from_number(99)),
        core.route(Key::from_number(100)),
        core.route(Key::from_number(200)),
    ];
    drop(core);
    assert_eq!(rt; places, [0, 1, 2]);
}

/// A step under the gradual policy.
fn step(part: u32, command: Command) -> Step {
    Step {
        part,
        command,
        policy: Policy::Gradual,
    }
}

/// Asserts that a step at a missing partition is refused, and the next step is made.
fn make_three(rt: &impl Abort, core: &mut Core) {
    let insert = Command::Insert {
        key: Key::from_number(7),
        payload: Payload::from_number(70),
    };
    let count = Command::Count(KeyRange::all());
    let steps = [step(0, insert), step(7, count), step(0, count)];
    let results = core.run_steps(&steps).expect(rt, "memory");
    assert!(rt; results.len() == 3);
    assert!(rt; matches!(results[0], Ok(Reply::Placed(Serial(0)))));
    assert!(rt; matches!(results[1], Err(Refusal::NoSuchPartition)));
    assert!(rt; matches!(results[2], Ok(Reply::Counted(1))));
}

#[test]
fn steps_are_made_one_after_the_other(rt: HostRuntime) {
    let mut core = core(&rt, rt.alloc(), &[], GREATEST_LIMIT);
    make_three(&rt, &mut core);
    assert!(rt; core.accepted() == 2);
    drop(core);
}

/// Why a count at a partition is refused, if it is.
fn count_refused(core: &mut Core, part: u32) -> Option<Refusal> {
    core.step(step(part, Command::Count(KeyRange::all()))).err()
}

/// The layout of a partition. It has no contract, so that no test carries the contract of `layout`.
fn layout_of(core: &Core, part: u32) -> Result<Layout, Refusal> {
    core.layout(part)
}

/// Each of two partitions has the limit for itself, and the second is one piece.
#[test]
fn each_partition_has_the_limit(rt: HostRuntime) {
    let mut core = core(&rt, rt.alloc(), &[100], 1);
    let refusals = [
        count_refused(&mut core, 0),
        count_refused(&mut core, 1),
        count_refused(&mut core, 1),
    ];
    let layout = layout_of(&core, 1).expect(&rt, "a layout");
    let elsewhere = layout_of(&core, 2).err();
    drop(core);
    let full = Refusal::HistoryFull { length: 1 };
    assert_eq!(rt; refusals, [None, None, Some(full)]);
    assert!(rt; layout.pieces.as_slice().len() == 1);
    assert!(rt; elsewhere == Some(Refusal::NoSuchPartition));
}
