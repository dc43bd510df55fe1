//! Insertions, reads and frees of the arena.

use crate::report::{BenchOutput, Outcome, report};
use crate::single::numbers::{Numbers, mixed};
use crack_arena::{Arena, Handle, MOST_CELLS, MOST_FREED};
use crack_row::{Key, KeyNumber, Payload, Refusal, Row, Serial};
use std::time::Instant;

/// Measures this many steps on an arena that has `rows` rows at first. Each step is an insertion, a read or a free at a
/// random handle. Writes the time of the steps, how many rows and cells the arena then has, how often cells were freed,
/// and a checksum.
pub fn measure<R: BenchOutput>(rt: &R, steps: u64, rows: u32) -> Outcome {
    let mut arena = Arena::new(rt.alloc());
    let mut handles = Vec::new(rt.alloc());
    let outcome = measure_steps(rt, &mut arena, &mut handles, steps, rows);
    drop(handles);
    drop(arena);
    outcome
}

/// Implements `measure` for an arena and a list of handles, both empty; `count` is the number of steps.
fn measure_steps<R: BenchOutput>(
    rt: &R,
    arena: &mut Arena<Row>,
    handles: &mut Vec<Handle<Row>>,
    count: u64,
    rows: u32,
) -> Outcome {
    let mut numbers = Numbers { state: 1 };
    fill(arena, handles, rows, &mut numbers)?;
    let start = Instant::now(rt)?;
    let sum = steps(arena, handles, count, &mut numbers)?;
    report(rt, "steps", start)?;
    let (left, cells, freed) = (handles.len(), arena.cells(), arena.freed());
    print!(rt; "arena {left} cells {cells} ")?;
    println!(rt; "freed {freed} sum {sum}")?;
    Ok(())
}

/// Inserts this many rows with random keys, and adds their handles to `handles` in order. Refused as `put` is.
pub fn fill(
    arena: &mut Arena<Row>,
    handles: &mut Vec<Handle<Row>>,
    rows: u32,
    numbers: &mut Numbers,
) -> Result<(), Refusal> {
    arena.reserve(rows as usize)?;
    handles.reserve(rows as usize)?;
    'rows: for serial in 0..rows {
        let key = numbers.below(1 << 31) as KeyNumber;
        let row = Row {
            serial: Serial(serial as u64),
            key: Key::from_number(key),
            payload: Payload::from_number(1),
        };
        put(arena, handles, row)?;
    }
    Ok(())
}

/// Inserts a row, and adds its handle to `handles`. Refused with `OutOfMemory` if no memory is found, or if there are
/// `MOST_CELLS` cells.
fn put(arena: &mut Arena<Row>, handles: &mut Vec<Handle<Row>>, row: Row) -> Result<(), Refusal> {
    if arena.cells() as u64 >= MOST_CELLS {
        return Err(Refusal::OutOfMemory);
    }
    handles.push(arena.put(row)?)?;
    Ok(())
}

/// Takes one step, at random with equal chances: inserts a row with the serial `number`, reads the row of a random
/// handle, or frees the row of a random handle. Returns the row that was read or freed, or `None`. If there is no
/// handle, inserts a row. Frees nothing after `MOST_FREED` frees. Refused as `put` is.
fn step(
    arena: &mut Arena<Row>,
    handles: &mut Vec<Handle<Row>>,
    number: u64,
    numbers: &mut Numbers,
) -> Result<Option<Row>, Refusal> {
    let which = numbers.below(3);
    let len = handles.len();
    if which == 0 || len == 0 {
        let row = Row {
            serial: Serial(number),
            key: Key::from_number(1),
            payload: Payload::from_number(2),
        };
        put(arena, handles, row)?;
        return Ok(None);
    }
    let at = numbers.below(len as u64) as usize;
    if which == 1 {
        return Ok(arena.get(handles[at]).copied());
    }
    if arena.freed() >= MOST_FREED {
        return Ok(None);
    }
    Ok(arena.free(handles.swap_remove(at)))
}

/// Takes `count` steps. Returns a checksum of the rows that they read or freed. Refused as `put` is.
fn steps(
    arena: &mut Arena<Row>,
    handles: &mut Vec<Handle<Row>>,
    count: u64,
    numbers: &mut Numbers,
) -> Result<u64, Refusal> {
    let mut sum = 0;
    for number in 0..count {
        if let Some(row) = step(arena, handles, number, numbers)? {
            sum = mixed(sum, row.serial.0);
        }
    }
    Ok(sum)
}
