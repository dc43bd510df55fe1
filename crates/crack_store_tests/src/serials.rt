//! Maps from serials to handles, compared with a tree: random calls, growth, refused memory.
//!
//! The test `sweep_..` passes whichever single allocation is refused, so it may be run with each of its allocations
//! refused in turn.
ghost use Rattle.std.specs.Prelude.{◌<◌};

use crate::bulk::Numbers;
use crack_arena::{Arena, Generation, Handle, Slot};
use crack_row::{Row, Serial};
use crack_serials::Serials;
use std::alloc::Global;
use std::collections::BTreeMap;
use std::process::Abort;

/// Random calls on maps.
#[derive(Clone, Copy)]
struct Calls {
    name: &'static str,
    calls: u32,
    /// The serials: this many, from the first on.
    first: u64,
    serials: u64,
}

const CALLS: &[Calls] = &[
    Calls {
        name: "few serials",
        calls: 500,
        first: 0,
        serials: 40,
    },
    Calls {
        name: "serials of all maps",
        calls: 20000,
        first: 1000,
        serials: 10000,
    },
    Calls {
        name: "serials far apart",
        calls: 5000,
        first: 0,
        serials: u64::MAX,
    },
    Calls {
        name: "the greatest serials",
        calls: 5000,
        first: u64::MAX - 2999,
        serials: 3000,
    },
];

/// The generation of cells that were never freed.
fn first_generation(rt: &impl Abort, alloc: Global) -> Generation {
    let mut arena = Arena::new(alloc);
    let has_room = arena.reserve(1).is_ok() || arena.reserve(1).is_ok();
    let cells = arena.cells();
    assert!(rt; has_room && cells < 1000);
    let put = arena.put('a').ok();
    drop(arena);
    put.expect(rt, "memory").generation_part()
}

/// The handle of a slot below 2^24, at this generation.
fn named(slot: u32, generation: Generation) -> Handle<Row> {
    Handle::new(Slot::lowest(slot), generation)
}

/// The slot of a handle, if there is one.
fn slot_of(handle: Option<Handle<Row>>) -> Option<u32> {
    match handle {
        Some(handle) => Some(handle.slot()),
        None => None,
    }
}

/// Sets the slot of a serial, and returns the one before.
fn insert(rt: &impl Abort, serials: &mut Serials, serial: u64, handle: Handle<Row>) -> Option<u32> {
    let before = serials.insert(Serial(serial), handle);
    slot_of(before.expect(rt, "memory"))
}

/// Removes a serial that is looked up first, and returns its slot.
fn forget(serials: &mut Serials, serial: u64) -> Option<u32> {
    let Some(lead) = serials.find(Serial(serial)) else {
        return None;
    };
    let slot = lead.handle.slot();
    serials.forget_at(lead);
    Some(slot)
}

/// Sets the slot of a serial that is looked up first, and returns the one before; `None` if it isn't there.
fn replace(serials: &mut Serials, serial: u64, handle: Handle<Row>) -> Option<u32> {
    let Some(lead) = serials.find(Serial(serial)) else {
        return None;
    };
    let before = lead.handle.slot();
    serials.lead_to(lead, handle);
    Some(before)
}

/// Sets the slot of a serial of a tree, and returns the one before.
fn insert_in(
    rt: &impl Abort,
    tree: &mut BTreeMap<u64, u32>,
    serial: u64,
    slot: u32,
) -> Option<u32> {
    let before: Result<_, _> = tree.insert(serial, slot);
    before.expect(rt, "memory")
}

/// Sets the slot of a serial of a tree, and returns the one before; `None` if it isn't there.
fn replace_in(
    rt: &impl Abort,
    tree: &mut BTreeMap<u64, u32>,
    serial: u64,
    slot: u32,
) -> Option<u32> {
    if tree.get(&serial).is_none() {
        return None;
    }
    insert_in(rt, tree, serial, slot)
}

/// Makes a random call on both. Returns whether they agree.
fn call(
    rt: &impl Abort,
    numbers: &mut Numbers,
    serials: &mut Serials,
    tree: &mut BTreeMap<u64, u32>,
    generation: Generation,
    serial: u64,
) -> bool {
    let slot = numbers.below(1_000_000) as u32;
    let handle = named(slot, generation);
    let (found, expected) = match numbers.below(6) {
        0 => (
            slot_of(serials.remove(Serial(serial))),
            tree.remove(&serial),
        ),
        1 => (forget(serials, serial), tree.remove(&serial)),
        2 => (
            replace(serials, serial, handle),
            replace_in(rt, tree, serial, slot),
        ),
        _ => (
            insert(rt, serials, serial, handle),
            insert_in(rt, tree, serial, slot),
        ),
    };
    found == expected && slot_of(serials.get(Serial(serial))) == tree.get(&serial).copied()
}

/// Asserts that each call has the same result on maps and on a tree.
fn assert_calls(rt: &impl Abort, alloc: Global, calls: Calls) {
    let mut serials = Serials::new(alloc);
    let mut tree = BTreeMap::new(alloc);
    let mut numbers = Numbers(calls.first);
    let generation = first_generation(rt, alloc);
    let mut agree = true;
    'calls: for _ in 0..calls.calls {
        let serial = calls
            .first
            .wrapping_add(numbers.below(calls.serials.max(1)));
        agree &= call(
            rt,
            &mut numbers,
            &mut serials,
            &mut tree,
            generation,
            serial,
        );
    }
    let counts = [serials.len(), tree.len()];
    drop(serials);
    drop(tree);
    assert!(rt; agree, "{}", calls.name);
    assert!(rt; counts[0] == counts[1] && counts[0] > 0, "{}", calls.name);
}

#[test]
fn maps_do_as_a_tree_does(rt: HostRuntime) {
    let lists = CALLS;
    'lists: for place in 0..lists.len() {
        assert_calls(&rt, rt.alloc(), lists[place]);
    }
}

/// Whether each serial below `end` leads to its own number.
fn lead_to_numbers(serials: &Serials, end: u32) -> bool {
    let mut all = true;
    'serials: for serial in 0..end {
        all &= slot_of(serials.get(Serial(u64::from(serial)))) == Some(serial);
    }
    all
}

/// Inserts the serials from `first` to `end` with their own numbers. Returns whether there was memory for each.
fn insert_numbers(serials: &mut Serials, generation: Generation, first: u32, end: u32) -> bool {
    let mut all = true;
    'serials: for serial in first..end {
        let handle = named(serial, generation);
        all &= serials.insert(Serial(u64::from(serial)), handle).is_ok();
    }
    all
}

/// Maps grow over 120,000 serials, and a reservation without memory leaves all as it was.
#[test]
fn maps_grow_and_refuse_what_no_memory_holds(rt: HostRuntime) {
    let mut serials = Serials::new(rt.alloc());
    let generation = first_generation(&rt, rt.alloc());
    let is_in = insert_numbers(&mut serials, generation, 0, 120_000);
    let refused = serials.reserve_many(Serial(120_000), usize::MAX);
    let is_refused = refused.is_err();
    let are_right = lead_to_numbers(&serials, 120_000);
    let count = serials.len();
    drop(serials);
    assert!(rt; is_in && is_refused && are_right && count == 120_000);
}

/// Passes whichever single allocation is refused: insertions for which there is room allocate nothing.
#[test]
fn sweep_insertions_of_serials(rt: HostRuntime) {
    let mut serials = Serials::new(rt.alloc());
    let generation = first_generation(&rt, rt.alloc());
    let mut has_room = serials.reserve_many(Serial(0), 5000).is_ok();
    if !has_room {
        has_room = serials.len() == 0 && serials.reserve_many(Serial(0), 5000).is_ok();
    }
    let is_in = insert_numbers(&mut serials, generation, 0, 5000);
    let mut has_place = serials.reserve(Serial(u64::MAX)).is_ok();
    if !has_place {
        has_place = serials.len() == 5000 && serials.reserve(Serial(u64::MAX)).is_ok();
    }
    let is_last_in = serials
        .insert(Serial(u64::MAX), named(7, generation))
        .is_ok();
    let are_right = lead_to_numbers(&serials, 5000);
    drop(serials);
    assert!(rt; has_room && is_in && has_place && is_last_in && are_right);
}
