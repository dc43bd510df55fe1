//! A crack moves the rows below its bound to the front of the stretch, and nothing else moves. Tests are lists of
//! steps over rows.
ghost use Rattle.std.specs.Prelude.{◌<◌, length};
ghost use Rattle.crack_arena.specs.Memories.{Agrees, Remembers};
ghost use Rattle.crack_column.specs.Column.{StillRemembers, first_aside};

use crate::index::bound_at;
use crate::script::assert_at;
use crack_arena::{Arena, Handle, Remembered, Slot, key_of};
use crack_column::CrackerColumn;
use crack_row::{
    Bound, GREATEST_KEY, GREATEST_PAYLOAD, Key, KeyNumber, LEAST_PAYLOAD, Payload, PayloadNumber,
    Row, Serial,
};
use std::alloc::Global;
use std::process::Abort;

/// A step of a test on a column. A row is given by its index in the list of rows, which is also its cell.
#[derive(Clone, Copy)]
enum Step {
    /// Appends a row, which the column remembers or not.
    Append(u32, bool),
    /// Puts the second row at a place, in place of the third. The column remembers it or not.
    SwapIn(usize, u32, u32, bool),
    /// Removes the last row, which is this one.
    Pop(Option<u32>),
    /// Removes the last row, with what is remembered of it.
    PopRemembered,
    /// Cracks a stretch at a bound, whose place is then this.
    Crack([usize; 2], KeyNumber, usize),
    /// Cracks a stretch at two bounds, whose places are then these.
    CrackInThree([usize; 2], [KeyNumber; 2], (usize, usize)),
    /// Expects this many rows.
    Len(usize),
    /// Expects this row at a place.
    At(usize, u32),
    /// Expects a row at this place: in the whole column, or in a stretch.
    Place(u32, Option<usize>),
    PlaceBetween([usize; 2], u32, Option<usize>),
    /// Expects these keys at two places, in any order.
    Keys([usize; 2], [KeyNumber; 2]),
    /// Expects this sum of the payloads of a stretch.
    Sum([usize; 2], i128),
}

/// What follows the steps of a script.
#[derive(Clone, Copy)]
enum Last {
    Nothing,
    /// The third row is set aside.
    Aside,
    /// The third row is taken in hand.
    InHand,
}

/// Named steps over rows with these keys and payloads, and what follows them.
#[derive(Clone, Copy)]
struct Script {
    name: &'static str,
    rows: &'static [(KeyNumber, PayloadNumber)],
    steps: &'static [Step],
    last: Last,
}

const SCRIPTS: &[Script] = &[
    Script {
        name: "a crack puts rows below the bound first",
        rows: &[(40, 1), (10, 2), (30, 4), (20, 8)],
        steps: &[
            Step::Len(0),
            Step::Append(0, false),
            Step::Append(1, false),
            Step::Append(2, false),
            Step::Append(3, false),
            Step::Len(4),
            Step::Sum([1, 3], 6),
            Step::Crack([0, 4], 25, 2),
            Step::Sum([0, 2], 10),
            Step::Sum([2, 4], 5),
            Step::Keys([0, 1], [10, 20]),
            Step::Keys([2, 3], [30, 40]),
            Step::Crack([0, 2], 25, 2),
            Step::Crack([2, 4], 25, 2),
            Step::Crack([1, 1], 5, 1),
        ],
        last: Last::Nothing,
    },
    // Keys on both sides of 2^32 and the two greatest, with payloads whose sum is below every payload.
    Script {
        name: "keys and payloads are wide",
        rows: &[
            (GREATEST_KEY, LEAST_PAYLOAD),
            (4294967295, LEAST_PAYLOAD),
            (GREATEST_KEY - 1, 5),
            (4294967296, -1),
        ],
        steps: &[
            Step::Append(0, false),
            Step::Append(1, false),
            Step::Append(2, false),
            Step::Append(3, false),
            Step::Sum([0, 4], -18446744073709551612),
            Step::Crack([0, 4], 4294967296, 1),
            Step::Keys([0, 0], [4294967295, 4294967295]),
            Step::Crack([1, 4], GREATEST_KEY, 3),
            Step::Keys([1, 2], [4294967296, 18446744073709551614]),
            Step::Sum([0, 3], -9223372036854775804),
            Step::Sum([3, 4], -9223372036854775808),
            Step::Sum([0, 4], -18446744073709551612),
        ],
        last: Last::Nothing,
    },
    Script {
        name: "a crack in three puts rows between the bounds in the middle",
        rows: &[(40, 1), (10, 2), (20, 4), (30, 8), (15, 16)],
        steps: &[
            Step::Append(0, false),
            Step::Append(1, false),
            Step::Append(2, false),
            Step::Append(3, false),
            Step::Append(4, false),
            Step::CrackInThree([0, 5], [15, 25], (1, 3)),
            Step::Keys([0, 0], [10, 10]),
            Step::Keys([1, 2], [20, 15]),
            Step::Keys([3, 4], [40, 30]),
            Step::CrackInThree([3, 5], [35, 35], (4, 4)),
            Step::Keys([3, 3], [30, 30]),
            Step::CrackInThree([1, 1], [12, 14], (1, 1)),
        ],
        last: Last::Nothing,
    },
    Script {
        name: "handles go in and out",
        rows: &[(40, 1), (10, 2), (30, 4)],
        steps: &[
            Step::Pop(None),
            Step::Append(0, false),
            Step::Append(1, false),
            Step::Len(2),
            Step::SwapIn(0, 2, 0, false),
            Step::At(0, 2),
            Step::Crack([0, 2], 20, 1),
            Step::Place(2, Some(1)),
            Step::Place(1, Some(0)),
            Step::Place(0, None),
            Step::Pop(Some(2)),
            Step::Len(1),
        ],
        last: Last::Nothing,
    },
    Script {
        name: "sums are of remembered payloads",
        rows: &[(40, 1), (GREATEST_KEY, GREATEST_PAYLOAD), (30, 4)],
        steps: &[
            Step::Append(0, true),
            Step::Append(1, true),
            Step::SwapIn(0, 2, 0, true),
            Step::At(1, 1),
            Step::PlaceBetween([1, 2], 1, Some(1)),
            Step::PlaceBetween([1, 2], 2, None),
            Step::Sum([0, 2], 9223372036854775811),
            Step::Crack([0, 2], 31, 1),
            Step::PopRemembered,
            Step::Sum([0, 1], 4),
        ],
        last: Last::Nothing,
    },
    Script {
        name: "a row aside changes places",
        rows: &[(40, 1), (10, 2), (30, 4)],
        steps: &[Step::Len(0), Step::Append(0, true), Step::Append(1, true)],
        last: Last::Aside,
    },
    Script {
        name: "a row in hand changes places",
        rows: &[(40, 1), (10, 2), (GREATEST_KEY, 4)],
        steps: &[Step::Len(0), Step::Append(0, true), Step::Append(1, true)],
        last: Last::InHand,
    },
];

/// The handle of the row with this index in the list of rows, from that of the first row.
pub(crate) fn row(first: Handle<Row>, place: u32) -> Handle<Row> {
    Handle::new(Slot::lowest(place), first.generation_part())
}

/// Puts a row with this key and payload into an arena.
fn put(
    rt: &impl Abort,
    arena: &mut Arena<Row>,
    place: usize,
    (key, payload): (KeyNumber, PayloadNumber),
) -> Handle<Row> {
    let cells = arena.cells();
    assert!(rt; cells < 1000);
    let put = arena.put(Row {
        serial: Serial(place as u64),
        key: Key::from_number(key),
        payload: Payload::from_number(payload),
    });
    put.ok().expect(rt, "memory")
}

/// Puts rows with these keys and payloads into the first cells of an arena. There must be one. Returns the handle of
/// the first.
pub(crate) fn put_all(
    rt: &impl Abort,
    arena: &mut Arena<Row>,
    rows: &[(KeyNumber, PayloadNumber)],
) -> Handle<Row> {
    let numbers = rows.first().expect(rt, "a row");
    let first = put(rt, arena, 0, *numbers);
    for place in 1..rows.len() {
        let handle = put(rt, arena, place, rows[place]);
        assert!(rt; place < 1000);
        assert!(rt; handle == row(first, place as u32));
    }
    first
}

/// What is to be remembered of the row that the handle reads, or nothing.
fn memory(arena: &Arena<Row>, handle: Handle<Row>, knows: bool) -> Remembered
    ensures { Agrees arena.now.cells handle result }
{
    if !knows {
        return Remembered::nothing();
    }
    match arena.get(handle) {
        Some(row) => Remembered::of(*row),
        None => Remembered::nothing(),
    }
}

/// Appends a row, and returns whether there was room.
fn append(arena: &Arena<Row>, column: &mut CrackerColumn, handle: Handle<Row>, knows: bool) -> bool
    requires remembered { Remembers arena.now.cells column.old.handles column.old.remembered }
    ensures remembered { Remembers arena.now.cells column.new.handles column.new.remembered }
{
    if column.len() >= 1000 || column.reserve(1).is_err() {
        return false;
    }
    if knows {
        column.append_remembered(handle, memory(arena, handle, true));
    } else {
        column.append(handle);
    }
    true
}

/// Puts a row at a place, and returns whether `out` was there.
fn swaps(
    arena: &Arena<Row>,
    column: &mut CrackerColumn,
    place: usize,
    handle: Handle<Row>,
    out: Handle<Row>,
    knows: bool,
) -> bool
    requires remembered { Remembers arena.now.cells column.old.handles column.old.remembered }
    ensures remembered { Remembers arena.now.cells column.new.handles column.new.remembered }
{
    if place >= column.len() {
        return false;
    }
    let known = memory(arena, handle, knows);
    column.swap_in_remembered(place, handle, known).0 == out
}

/// Whether the bound is at this place after a crack of the stretch at it.
fn cracks(
    arena: &Arena<Row>,
    column: &mut CrackerColumn,
    stretch: [usize; 2],
    bound: KeyNumber,
    place: usize,
) -> bool
    requires remembered { Remembers arena.now.cells column.old.handles column.old.remembered }
    ensures remembered { Remembers arena.now.cells column.new.handles column.new.remembered }
{
    let [from, to] = stretch;
    if bound == 0 || from > to || to > column.len() {
        return false;
    }
    column.crack_two(from, to, bound_at(bound), arena) == place
}

/// Whether the bounds are at these places after a crack of the stretch in three.
fn cracks_in_three(
    arena: &Arena<Row>,
    column: &mut CrackerColumn,
    stretch: [usize; 2],
    bounds: [KeyNumber; 2],
    places: (usize, usize),
) -> bool
    requires remembered { Remembers arena.now.cells column.old.handles column.old.remembered }
    ensures remembered { Remembers arena.now.cells column.new.handles column.new.remembered }
{
    let ([from, to], [low, high]) = (stretch, bounds);
    if low == 0 || low > high || from > to || to > column.len() {
        return false;
    }
    column.crack_three(from, to, bound_at(low), bound_at(high), arena) == places
}

/// Whether the payloads of a stretch have this sum.
fn sums(arena: &Arena<Row>, column: &CrackerColumn, stretch: [usize; 2], sum: i128) -> bool
    requires remembered { Remembers arena.now.cells column.now.handles column.now.remembered }
{
    let [from, to] = stretch;
    from <= to && to <= column.len() && column.sum_between(from, to, arena) == sum
}

/// Whether the keys at two places are these, in any order.
fn has_keys(
    arena: &Arena<Row>,
    column: &CrackerColumn,
    places: [usize; 2],
    keys: [KeyNumber; 2],
) -> bool {
    let ([first, second], [low, high]) = (places, keys);
    if first >= column.len() || second >= column.len() {
        return false;
    }
    let found = [
        key_of(arena, column.at(first)).number(),
        key_of(arena, column.at(second)).number(),
    ];
    found == [low, high] || found == [high, low]
}

/// Whether the handle is found at this place of the stretch, or not at all for `None`.
fn is_between(
    column: &CrackerColumn,
    stretch: [usize; 2],
    handle: Handle<Row>,
    place: Option<usize>,
) -> bool {
    let [from, to] = stretch;
    from <= to && to <= column.len() && column.place_between(from, to, handle) == place
}

/// Whether a pop returns this row.
fn pops(column: &mut CrackerColumn, first: Handle<Row>, out: Option<u32>) -> bool
    ensures remembered { StillRemembers column.old column.new }
{
    let popped = column.pop();
    match out {
        Some(place) => popped == Some(row(first, place)),
        None => popped.is_none(),
    }
}

/// Whether a column is as the step expects.
fn looks(arena: &Arena<Row>, column: &CrackerColumn, first: Handle<Row>, step: Step) -> bool
    requires remembered { Remembers arena.now.cells column.now.handles column.now.remembered }
{
    let len = column.len();
    match step {
        Step::Len(count) => len == count && column.is_empty() == (count == 0),
        Step::At(place, at) => {
            place < len && column.at(place) == row(first, at) && column.slot_at(place) == at
        }
        Step::Place(of, place) => column.place_of(row(first, of)) == place,
        Step::PlaceBetween(stretch, of, place) => {
            is_between(column, stretch, row(first, of), place)
        }
        Step::Keys(places, keys) => has_keys(arena, column, places, keys),
        Step::Sum(stretch, sum) => sums(arena, column, stretch, sum),
        _ => false,
    }
}

/// Makes a step, and returns whether it had the expected result.
fn make(arena: &Arena<Row>, column: &mut CrackerColumn, first: Handle<Row>, step: Step) -> bool
    requires remembered { Remembers arena.now.cells column.old.handles column.old.remembered }
    ensures remembered { Remembers arena.now.cells column.new.handles column.new.remembered }
{
    match step {
        Step::Append(new, knows) => append(arena, column, row(first, new), knows),
        Step::SwapIn(place, new, out, knows) => {
            swaps(
                arena,
                column,
                place,
                row(first, new),
                row(first, out),
                knows,
            )
        }
        Step::Pop(out) => pops(column, first, out),
        Step::PopRemembered => column.pop_remembered().is_some(),
        Step::Crack(stretch, bound, place) => cracks(arena, column, stretch, bound, place),
        Step::CrackInThree(stretch, bounds, places) => {
            cracks_in_three(arena, column, stretch, bounds, places)
        }
        _ => looks(arena, column, first, step),
    }
}

/// Asserts the result of each step.
fn make_all(
    rt: &impl Abort,
    arena: &Arena<Row>,
    column: &mut CrackerColumn,
    first: Handle<Row>,
    script: Script,
)
    requires remembered { Remembers arena.now.cells column.old.handles column.old.remembered }
    ensures remembered { Remembers arena.now.cells column.new.handles column.new.remembered }
{
    let Script { name, steps, .. } = script;
    'steps: for place in 0..steps.len() {
        let is_right = make(arena, column, first, steps[place]);
        assert_at(rt, is_right, name, place);
    }
}

/// Sets a row aside, with what is remembered of it.
fn set_aside(rt: &impl Abort, arena: &Arena<Row>, column: &mut CrackerColumn, handle: Handle<Row>)
    requires remembered { Remembers arena.now.cells column.old.handles column.old.remembered }
    ensures remembered { Remembers arena.now.cells column.new.handles column.new.remembered }
    ensures some { 0 < length column.new.aside }
    ensures known { Agrees arena.now.cells (first_aside column.new).handle (first_aside column.new).memory }
{
    let len = column.len();
    assert!(rt; len < 1000 && column.reserve(1).is_ok());
    column.set_aside(handle, memory(arena, handle, true));
}

/// Sets the third of three rows aside, and exchanges it with the first, which is then appended and removed again.
fn go_aside(rt: &impl Abort, arena: &Arena<Row>, column: &mut CrackerColumn, first: Handle<Row>)
    requires remembered { Remembers arena.now.cells column.old.handles column.old.remembered }
{
    set_aside(rt, arena, column, row(first, 2));
    let len = column.len();
    assert!(rt; len == 2);
    assert!(rt; column.aside_slot() == 2 && column.aside_key(arena).number() == 30);
    column.exchange(0);
    assert!(rt; column.aside() == first && sums(arena, column, [0, 2], 6));
    column.append_aside();
    assert!(rt; sums(arena, column, [0, 3], 7));
    column.pop_aside();
    assert!(rt; column.aside() == first && column.len() == 2);
}

/// Takes the third of three rows in hand, exchanges it with both others, and releases the column.
fn go_in_hand(rt: &impl Abort, arena: &Arena<Row>, column: &mut CrackerColumn, first: Handle<Row>)
    requires remembered { Remembers arena.now.cells column.old.handles column.old.remembered }
{
    set_aside(rt, arena, column, row(first, 2));
    let len = column.len();
    assert!(rt; len == 2);
    let mut held = column.hold();
    let lens = [column.len(), held.len()];
    let slot_of_third = held.slot();
    held.exchange(1);
    let slot_of_second = held.slot();
    let is_below = held.memory().is_known_below(Bound::from_number(11));
    held.exchange(0);
    let slot_of_first = held.slot();
    *column = held.release();
    assert!(rt; lens == [0, 2] && is_below && column.aside() == first);
    let len = column.len();
    assert!(rt; len == 2 && column.slot_at(0) == 1 && column.slot_at(1) == 2);
    assert!(rt; [slot_of_third, slot_of_second, slot_of_first] == [2, 1, 0]);
}

/// Asserts the result of each step in a fresh column over the rows of a script, and then makes its last one.
fn assert_script(rt: &impl Abort, alloc: Global, script: Script) {
    let mut arena = Arena::new(alloc);
    let mut column = CrackerColumn::new(alloc);
    let first = put_all(rt, &mut arena, script.rows);
    make_all(rt, &arena, &mut column, first, script);
    match script.last {
        Last::Nothing => {}
        Last::Aside => go_aside(rt, &arena, &mut column, first),
        Last::InHand => go_in_hand(rt, &arena, &mut column, first),
    }
    drop(column);
    drop(arena);
}

#[test]
fn columns_are_cracked_and_changed(rt: HostRuntime) {
    let scripts = SCRIPTS;
    'scripts: for place in 0..scripts.len() {
        assert_script(&rt, rt.alloc(), scripts[place]);
    }
}
