//! Freed cells are used again, the last one freed first, and a handle of an earlier generation reads nothing. Tests
//! are lists of steps.

use crate::script::assert_at;
use crack_arena::{Arena, Handle};
use std::alloc::Global;
use std::process::Abort;

/// A step of a test on an arena of characters. A handle that a put returned is given by its slot and its generation.
#[derive(Clone, Copy)]
enum Step {
    /// Puts a value, gets this handle, and reads the value by it.
    Put(char, u32, u64),
    /// Puts a value into this many new cells, from this slot on, and reads each.
    Fill(char, u32, u32),
    /// Frees a handle, which returns this value.
    Free(u32, u64, Option<char>),
    /// Reads a handle, which returns this value.
    Read(u32, u64, Option<char>),
    /// Sets the value of a handle, which returns this.
    Set(u32, u64, char, Result<char, char>),
    /// Expects this many cells, free cells, and frees so far.
    Look(usize, usize, u64),
    /// Reserves room for this many puts.
    Reserve(usize),
    /// Reserves room for this many puts, with one retry if memory is refused.
    ReserveAtLast(usize),
    /// Tries to reserve room for more puts than there is memory for, which is refused.
    ReserveTooMany,
    /// Reserves room for three puts in a new arena, each of which then succeeds.
    PutReserved,
    /// Compares the adjacent cells from a slot on, this many and of generation 0, with what their handles read.
    CellsFrom(u32, u32),
}

/// Named steps, in a fresh arena.
#[derive(Clone, Copy)]
struct Script {
    name: &'static str,
    steps: &'static [Step],
}

const SCRIPTS: &[Script] = &[
    Script {
        name: "a freed cell is used again",
        steps: &[
            Step::Put('a', 0, 0),
            Step::Put('b', 1, 0),
            Step::Free(0, 0, Some('a')),
            Step::Read(0, 0, None),
            Step::Free(0, 0, None),
            Step::Put('c', 0, 1),
            Step::Read(0, 0, None),
            Step::Read(1, 0, Some('b')),
            Step::Read(0, 1, Some('c')),
            Step::Look(2, 0, 1),
        ],
    },
    Script {
        name: "the last freed is used first",
        steps: &[
            Step::Put('a', 0, 0),
            Step::Put('b', 1, 0),
            Step::Put('c', 2, 0),
            Step::Free(1, 0, Some('b')),
            Step::Free(0, 0, Some('a')),
            Step::Look(3, 2, 2),
            Step::Put('d', 0, 1),
            Step::Put('e', 1, 1),
            Step::Put('f', 3, 0),
        ],
    },
    Script {
        name: "a set on a spent handle changes nothing",
        steps: &[
            Step::Put('a', 0, 0),
            Step::Set(0, 0, 'x', Ok('a')),
            Step::Free(0, 0, Some('x')),
            Step::Set(0, 0, 'y', Err('y')),
            Step::Put('b', 0, 1),
            Step::Set(0, 0, 'z', Err('z')),
            Step::Read(0, 1, Some('b')),
            Step::Look(1, 0, 1),
        ],
    },
    Script {
        name: "cells of a second page",
        steps: &[
            Step::Fill('a', 0, 257),
            Step::Look(257, 0, 0),
            Step::Free(256, 0, Some('a')),
            Step::Free(3, 0, Some('a')),
            Step::Look(257, 2, 2),
            Step::Put('z', 3, 1),
            Step::Put('z', 256, 1),
            Step::Put('z', 257, 0),
            Step::Look(258, 0, 2),
        ],
    },
    Script {
        name: "cells end with their page",
        steps: &[
            Step::CellsFrom(0, 0),
            Step::Fill('a', 0, 300),
            Step::Free(3, 0, Some('a')),
            Step::CellsFrom(0, 256),
            Step::CellsFrom(255, 1),
            Step::CellsFrom(256, 44),
            Step::CellsFrom(300, 0),
            Step::CellsFrom(4294967295, 0),
        ],
    },
    Script {
        name: "a thousand reserved puts succeed",
        steps: &[
            Step::Reserve(1000),
            Step::Look(0, 0, 0),
            Step::Fill('a', 0, 1000),
            Step::Look(1000, 0, 0),
        ],
    },
    Script {
        name: "reserved puts succeed",
        steps: &[Step::PutReserved],
    },
    Script {
        name: "more is refused than there is memory",
        steps: &[
            Step::Fill('a', 0, 300),
            Step::ReserveTooMany,
            Step::Look(300, 0, 0),
            Step::Read(299, 0, Some('a')),
            Step::Put('z', 300, 0),
        ],
    },
];

/// The handle with these numbers, if a put returned it.
fn named(handles: &[Handle<char>], slot: u32, generation: u64) -> Option<Handle<char>> {
    'handles: for place in 0..handles.len() {
        let handle = handles[place];
        if handle.slot() == slot && handle.generation() == generation {
            return Some(handle);
        }
    }
    None
}

/// Whether a put returns this handle, which reads the value and differs from all earlier ones.
fn puts(
    arena: &mut Arena<char>,
    handles: &mut Vec<Handle<char>>,
    value: char,
    slot: u32,
    generation: u64,
) -> bool {
    if arena.cells() >= 2000 {
        return false;
    }
    let Ok(handle) = arena.put(value) else {
        return false;
    };
    let found = (
        handle.slot(),
        handle.generation(),
        arena.get(handle).copied(),
    );
    let is_new = !handles.contains(&handle) && handles.push(handle).is_ok();
    is_new && found == (slot, generation, Some(value))
}

/// Whether this many puts return the handles of new cells, from this slot on.
fn fills(
    arena: &mut Arena<char>,
    handles: &mut Vec<Handle<char>>,
    value: char,
    slot: u32,
    count: u32,
) -> bool {
    for more in 0..count {
        if !puts(arena, handles, value, slot.saturating_add(more), 0) {
            return false;
        }
    }
    true
}

/// Whether freeing the handle returns this value.
fn frees(arena: &mut Arena<char>, handle: Option<Handle<char>>, value: Option<char>) -> bool {
    let Some(handle) = handle else {
        return false;
    };
    arena.freed() < 1000 && arena.free(handle) == value
}

/// Whether the handle reads this value.
fn reads(arena: &Arena<char>, handle: Option<Handle<char>>, value: Option<char>) -> bool {
    match handle {
        Some(handle) => arena.get(handle).copied() == value,
        None => false,
    }
}

/// Whether setting the value of the handle returns this.
fn sets(
    arena: &mut Arena<char>,
    handle: Option<Handle<char>>,
    value: char,
    given: Result<char, char>,
) -> bool {
    match handle {
        Some(handle) => arena.set(handle, value) == given,
        None => false,
    }
}

/// The number of cells, of free cells, and of frees so far.
fn numbers(arena: &Arena<char>) -> (usize, usize, u64) {
    (arena.cells(), arena.free_cells(), arena.freed())
}

/// Whether room can be reserved, with one retry if memory is refused. Neither a refusal nor a success changes the
/// numbers of the arena.
fn reserves_at_last(arena: &mut Arena<char>, additional: usize) -> bool {
    let before = numbers(arena);
    if arena.reserve(additional).is_err() {
        return numbers(arena) == before && arena.reserve(additional).is_ok();
    }
    numbers(arena) == before
}

/// Whether this many adjacent cells of generation 0, from the slot on, have the values that their handles read.
fn lends(arena: &Arena<char>, handles: &[Handle<char>], slot: u32, len: u32) -> bool {
    let run = arena.cells_from(slot);
    let mut is_same = run.len() == len as usize && run.value_at(len as usize).is_none();
    for place in 0..len {
        let handle = named(handles, slot.saturating_add(place), 0);
        let value = run.value_at(place as usize).copied();
        is_same = is_same && reads(arena, handle, value);
    }
    is_same
}

/// Whether three puts after a reservation return the handles of the first three cells.
fn puts_reserved(arena: &mut Arena<char>) -> bool {
    if arena.cells() >= 2000 || arena.reserve(3).is_err() {
        return false;
    }
    let a = arena.put_reserved('a');
    let Ok(b) = arena.put('b') else {
        unreachable!()
    };
    let Ok(c) = arena.put('c') else {
        unreachable!()
    };
    let slots = [a.slot(), b.slot(), c.slot()];
    let generations = [a.generation(), b.generation(), c.generation()];
    slots == [0, 1, 2] && generations == [0, 0, 0] && arena.get(b).copied() == Some('b')
}

/// Makes a step, and returns whether it had the expected result.
fn make(arena: &mut Arena<char>, handles: &mut Vec<Handle<char>>, step: Step) -> bool {
    match step {
        Step::Put(value, slot, generation) => puts(arena, handles, value, slot, generation),
        Step::Fill(value, slot, count) => fills(arena, handles, value, slot, count),
        Step::Free(slot, generation, value) => {
            frees(arena, named(handles, slot, generation), value)
        }
        Step::Read(slot, generation, value) => {
            reads(arena, named(handles, slot, generation), value)
        }
        Step::Set(slot, generation, value, given) => {
            sets(arena, named(handles, slot, generation), value, given)
        }
        Step::Look(cells, free, freed) => numbers(arena) == (cells, free, freed),
        Step::Reserve(additional) => arena.reserve(additional).is_ok(),
        Step::ReserveAtLast(additional) => reserves_at_last(arena, additional),
        Step::ReserveTooMany => arena.reserve(usize::MAX).is_err(),
        Step::PutReserved => puts_reserved(arena),
        Step::CellsFrom(slot, len) => lends(arena, handles, slot, len),
    }
}

/// Asserts the result of each step in a fresh arena.
fn assert_script(rt: &impl Abort, alloc: Global, script: Script) {
    let Script { name, steps } = script;
    let mut arena = Arena::new(alloc);
    let mut handles = Vec::new(alloc);
    let has_room = handles.reserve(1000).is_ok() || handles.reserve(1000).is_ok();
    assert!(rt; has_room);
    'steps: for place in 0..steps.len() {
        let is_right = make(&mut arena, &mut handles, steps[place]);
        assert_at(rt, is_right, name, place);
    }
    drop(handles);
    drop(arena);
}

#[test]
fn cells_are_put_freed_and_used_again(rt: HostRuntime) {
    let scripts = SCRIPTS;
    'scripts: for place in 0..scripts.len() {
        assert_script(&rt, rt.alloc(), scripts[place]);
    }
}

/// Passes whichever single allocation is refused: puts for which there is room allocate nothing.
#[test]
fn sweep_reserve(rt: HostRuntime) {
    const SCRIPT: Script = Script {
        name: "reserved puts make no allocation",
        steps: &[
            Step::ReserveAtLast(300),
            Step::Fill('a', 0, 300),
            Step::Free(7, 0, Some('a')),
            Step::ReserveAtLast(600),
            Step::Put('z', 7, 1),
            Step::Fill('z', 300, 599),
            Step::Look(899, 0, 1),
        ],
    };
    assert_script(&rt, rt.alloc(), SCRIPT);
}
