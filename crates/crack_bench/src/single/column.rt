//! Cracks of a column whose handles are in random order.
ghost use Rattle.std.specs.Prelude.{◌≡◌, [], length, OnOk};
ghost use Rattle.crack_arena.specs.Memories.{Remembers};

use crate::report::{BenchOutput, Outcome, report};
use crate::single::arena::fill;
use crate::single::numbers::{Numbers, mixed};
use crack_arena::{Arena, Handle};
use crack_column::{CrackerColumn, MOST_PLACES};
use crack_row::{InnerBound, Key, KeyNumber, Refusal, Row};
use std::time::Instant;

/// The number of the first crack's bound. This crack reads each key through the arena.
const FIRST: u32 = 1073741824;

/// How many later cracks there are. Their rows are remembered.
const LATER_CRACKS: u32 = 16;

/// The distance between the later bounds.
const LATER_STEP: u32 = 134217728;

/// Measures cracks of a column of this many rows with random keys, whose handles are in random order. Writes what
/// `measure_cracks` writes.
pub fn measure<R: BenchOutput>(rt: &R, rows: u32) -> Outcome {
    let mut arena = Arena::new(rt.alloc());
    let mut handles = Vec::new(rt.alloc());
    let mut column = CrackerColumn::new(rt.alloc());
    let outcome = fill_and_crack(rt, &mut arena, &mut handles, &mut column, rows);
    drop(column);
    drop(handles);
    drop(arena);
    outcome
}

/// Implements `measure`: fills the arena, the list of handles and the column, which are empty, and measures the
/// cracks.
fn fill_and_crack<R: BenchOutput>(
    rt: &R,
    arena: &mut Arena<Row>,
    handles: &mut Vec<Handle<Row>>,
    column: &mut CrackerColumn,
    rows: u32,
) -> Outcome
    requires { (column.old.handles ≡ []) × (column.old.remembered ≡ []) }
{
    let mut numbers = Numbers { state: 7 };
    fill(arena, handles, rows, &mut numbers)?;
    shuffle(handles.as_mut_slice(), &mut numbers);
    append_all(column, handles.as_slice(), arena)?;
    measure_cracks(rt, column, arena)
}

/// Measures the first crack and the later ones. Writes the place of the first bound, a checksum of the places of the
/// later bounds, and a checksum of the handles.
fn measure_cracks<R: BenchOutput>(rt: &R, column: &mut CrackerColumn, arena: &Arena<Row>) -> Outcome
    requires { Remembers arena.now.cells column.old.handles column.old.remembered }
{
    let start = Instant::now(rt)?;
    let first = crack(column, FIRST, arena);
    let start = report(rt, "first", start)?;
    let later = crack_on(column, arena);
    report(rt, "later", start)?;
    let sum = sum(column);
    println!(rt; "column {first} {later} sum {sum}")?;
    Ok(())
}

/// Brings the handles into a random order.
fn shuffle(handles: &mut [Handle<Row>], numbers: &mut Numbers) {
    'places: for i in 1..handles.len() {
        let other = numbers.below(i as u64 + 1) as usize;
        handles.swap(i, other);
    }
}

/// Appends the handles in order, at most `MOST_PLACES` of them, to a column that is empty. Refused with `OutOfMemory`
/// if no memory is found.
fn append_all(
    column: &mut CrackerColumn,
    handles: &[Handle<Row>],
    arena: &Arena<Row>,
) -> Result<(), Refusal>
    requires { (column.old.handles ≡ []) × (column.old.remembered ≡ []) }
    ensures { OnOk result (Remembers arena.now.cells column.new.handles column.new.remembered) }
{
    let rows = handles.len().min(MOST_PLACES as usize);
    column.reserve(rows)?;
    'handles: for i in 0..rows {
        column.append(handles[i]);
    }
    Ok(())
}

/// Cracks the whole column at the bound with this number, or at the least inner bound if the number is 0. Returns
/// the place of the bound.
fn crack(column: &mut CrackerColumn, number: u32, arena: &Arena<Row>) -> usize
    requires { Remembers arena.now.cells column.old.handles column.old.remembered }
    ensures { Remembers arena.now.cells column.new.handles column.new.remembered }
{
    let bound = Key::from_number(KeyNumber::from(number)).bound().inner();
    let len = column.len();
    column.crack_two(0, len, bound.unwrap_or(InnerBound::least()), arena)
}

/// Cracks the whole column at `LATER_CRACKS` rising bounds. Returns a checksum of the places of the bounds.
fn crack_on(column: &mut CrackerColumn, arena: &Arena<Row>) -> u64
    requires { Remembers arena.now.cells column.old.handles column.old.remembered }
{
    let mut sum = 0;
    'cracks: for i in 0..LATER_CRACKS {
        let place = crack(column, i * LATER_STEP, arena);
        sum = mixed(sum, place as u64);
    }
    sum
}

/// A checksum of the handles in the order of the column.
fn sum(column: &CrackerColumn) -> u64 {
    let mut sum = 0;
    'places: for place in 0..column.len() {
        sum = mixed(sum, column.at(place).slot() as u64);
    }
    sum
}
