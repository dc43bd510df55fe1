//! Pending rows stay in order of arrival, whatever holes removed rows leave. They are compared with a plain list of
//! keys. Tests are lists of steps.
ghost use Rattle.std.specs.Prelude.{List};
ghost use Rattle.crack_row.specs.declared.Row.{Row};
ghost use Rattle.crack_arena.specs.Arena.{Cell};
ghost use Rattle.crack_arena.specs.Memories.{Remembers};

use crate::column::{put_all, row};
use crate::script::assert_at;
use crack_arena::{Arena, Handle, Remembered, key_of};
use crack_column::CrackerColumn;
use crack_pending::{PendingIn, PendingList, PendingOut};
use crack_row::{
    Bound, BoundNumber, GREATEST_BOUND, GREATEST_KEY, Key, KeyNumber, KeyRange, PayloadNumber, Row,
};
use std::alloc::Global;
use std::process::Abort;

/// A step of a test on a pending list. A row is given by its cell.
#[derive(Clone, Copy)]
enum Step {
    /// Appends a row, whose key the list remembers or not.
    Push(u32, bool),
    /// Takes the row at a place out.
    Take(usize),
    /// Removes a row, if it is in the list.
    Strike(u32),
    /// Takes the rows of a range out, one after the other.
    TakeEach(KeyNumber, BoundNumber),
    /// Takes the rows of a range out at once.
    TakeAll(KeyNumber, BoundNumber),
    /// Hands all rows over to a column.
    HandOver,
    /// Makes codes of the keys.
    Code,
    /// Makes the step that follows the removal of a cell's row in this round.
    AfterStrike(usize, u32),
    /// Looks for the rows of a range, from each place on.
    Find(KeyNumber, BoundNumber),
    /// Expects these keys of the rows, in order.
    Keys(&'static [KeyNumber]),
}

/// The keys and payloads of four rows, and steps that add and remove them.
const FOUR: &[(KeyNumber, PayloadNumber)] = &[(40, 0), (10, -1), (GREATEST_KEY, -2), (20, -3)];

const GO_AND_COME: &[Step] = &[
    Step::Push(0, false),
    Step::Push(1, true),
    Step::Push(2, true),
    Step::Push(3, false),
    Step::Keys(&[40, 10, GREATEST_KEY, 20]),
    Step::Find(15, GREATEST_BOUND),
    Step::Take(2),
    Step::Keys(&[40, 10, 20]),
    Step::Take(0),
    Step::Push(2, true),
    Step::Keys(&[10, 20, GREATEST_KEY]),
    Step::Find(15, GREATEST_BOUND),
    Step::Find(0, 0),
    Step::Strike(3),
    Step::Keys(&[10, GREATEST_KEY]),
    Step::Strike(1),
    Step::Keys(&[GREATEST_KEY]),
    Step::Find(10, GREATEST_BOUND - 1),
    Step::Push(1, true),
    Step::Push(0, false),
    Step::Push(3, true),
    Step::Strike(1),
    Step::Keys(&[GREATEST_KEY, 40, 20]),
    Step::HandOver,
    Step::Keys(&[]),
    Step::Push(1, true),
    Step::Push(2, false),
    Step::Keys(&[10, GREATEST_KEY]),
];

/// The rows of ranges, some of which overlap, are taken out one after the other.
const EACH: &[Step] = &[
    Step::TakeEach(0, 15),
    Step::TakeEach(67, 82),
    Step::TakeEach(134, 149),
    Step::TakeEach(21, 36),
    Step::TakeEach(88, 103),
    Step::TakeEach(155, 170),
    Step::TakeEach(42, 57),
    Step::TakeEach(109, 124),
    Step::TakeEach(176, 191),
    Step::TakeEach(63, 78),
];

/// The rows of the same ranges are taken out at once, each time after another row.
const AT_ONCE: &[Step] = &[
    Step::Take(0),
    Step::TakeAll(0, 15),
    Step::Take(1),
    Step::TakeAll(67, 82),
    Step::Take(2),
    Step::TakeAll(134, 149),
    Step::Take(3),
    Step::TakeAll(21, 36),
    Step::Take(4),
    Step::TakeAll(88, 103),
    Step::Take(5),
    Step::TakeAll(155, 170),
    Step::Take(6),
    Step::TakeAll(42, 57),
    Step::Take(7),
    Step::TakeAll(109, 124),
    Step::Take(8),
    Step::TakeAll(176, 191),
    Step::Take(9),
    Step::TakeAll(63, 78),
];

/// Appends a row, and its key to the list of keys.
fn push<Kind>(
    rt: &impl Abort,
    arena: &Arena<Row>,
    pending: &mut PendingList<Kind>,
    keys: &mut Vec<KeyNumber>,
    handle: Handle<Row>,
    remembered: bool,
)
    requires { Remembers arena.now.cells pending.old.handles pending.old.remembered }
    ensures { Remembers arena.now.cells pending.new.handles pending.new.remembered }
{
    let length = pending.len();
    let there = pending.contains(handle.slot());
    assert!(rt; length < 2000);
    assert!(rt; !there);
    assert!(rt; keys.push(key_of(arena, handle).number()).is_ok());
    let room = pending.reserve(1);
    assert!(rt; room.is_ok());
    let places = pending.make_places(handle.slot() as usize + 1);
    assert!(rt; places.is_ok());
    if remembered {
        pending.push_remembered(handle, Remembered::nothing().or_read(arena, handle));
    } else {
        pending.push(handle);
    }
}

/// Asserts that the rows have these keys, in this order, and that each row is found again.
fn assert_keys<Kind>(
    rt: &impl Abort,
    arena: &Arena<Row>,
    pending: &PendingList<Kind>,
    keys: &[KeyNumber],
) {
    let length = pending.len();
    assert!(rt; length == keys.len());
    assert!(rt; pending.is_empty() == (length == 0));
    for place in 0..keys.len() {
        let handle = pending.at(place);
        let is_found = pending.place_of(handle) == Some(place) && pending.contains(handle.slot());
        let has_key = key_of(arena, handle).number() == keys[place];
        assert_at(rt, has_key && is_found, "keys", place);
    }
}

/// The index of the first key at or after `from` that lies in a range.
fn first_from(keys: &[KeyNumber], low: KeyNumber, high: BoundNumber, from: usize) -> Option<usize> {
    for place in from..keys.len() {
        if low <= keys[place] && Bound::from_number(high).is_above(Key::from_number(keys[place])) {
            return Some(place);
        }
    }
    None
}

/// The range from a key up to a bound.
fn range_from(rt: &impl Abort, low: KeyNumber, high: BoundNumber) -> KeyRange {
    let range = KeyRange::between(Key::from_number(low).bound(), Bound::from_number(high));
    range.expect(rt, "a range")
}

/// Asserts that the rows of a range are found, from each place on, as in the list of the keys.
fn assert_found<Kind>(
    rt: &impl Abort,
    arena: &Arena<Row>,
    pending: &PendingList<Kind>,
    keys: &[KeyNumber],
    low: KeyNumber,
    high: BoundNumber,
)
    requires { Remembers arena.now.cells pending.now.handles pending.now.remembered }
{
    let range = range_from(rt, low, high);
    assert!(rt; pending.first_in(range, arena) == first_from(keys, low, high, 0));
    for from in 0..keys.len() {
        let found = pending.next_in(range, from, arena);
        assert_at(
            rt,
            found == first_from(keys, low, high, from),
            "rows found",
            from,
        );
    }
}

/// Takes the row at a place out, and its key out of the list of keys.
fn take<Kind>(
    rt: &impl Abort,
    arena: &Arena<Row>,
    pending: &mut PendingList<Kind>,
    keys: &mut Vec<KeyNumber>,
    place: usize,
)
    requires { Remembers arena.now.cells pending.old.handles pending.old.remembered }
    ensures { Remembers arena.now.cells pending.new.handles pending.new.remembered }
{
    let length = pending.len();
    assert!(rt; place < length && place < keys.len());
    let handle = pending.take(place);
    let key = keys.remove(place);
    let is_out = key_of(arena, handle).number() == key && !pending.contains(handle.slot());
    assert_at(rt, is_out, "keys taken", place);
}

/// Removes the row, if it is in the list, and its key from the list of keys.
fn strike<Kind>(
    rt: &impl Abort,
    arena: &Arena<Row>,
    pending: &mut PendingList<Kind>,
    keys: &mut Vec<KeyNumber>,
    handle: Handle<Row>,
)
    requires { Remembers arena.now.cells pending.old.handles pending.old.remembered }
    ensures { Remembers arena.now.cells pending.new.handles pending.new.remembered }
{
    if !pending.contains(handle.slot()) {
        return;
    }
    pending.strike(handle);
    assert!(rt; !pending.contains(handle.slot()));
    assert!(rt; pending.place_of(handle).is_none());
    remove_key(keys, key_of(arena, handle).number());
}

fn remove_key(keys: &mut Vec<KeyNumber>, key: KeyNumber) {
    for place in 0..keys.len() {
        if keys[place] == key {
            keys.remove(place);
            return;
        }
    }
}

/// Takes the rows of a range out one after the other, and their keys out of the list of keys.
fn take_each<Kind>(
    rt: &impl Abort,
    arena: &Arena<Row>,
    pending: &mut PendingList<Kind>,
    keys: &mut Vec<KeyNumber>,
    low: KeyNumber,
    high: BoundNumber,
)
    requires { Remembers arena.now.cells pending.old.handles pending.old.remembered }
    ensures { Remembers arena.now.cells pending.new.handles pending.new.remembered }
{
    let range = range_from(rt, low, high);
    let mut from = 0;
    'rows: for _ in 0..200usize {
        let found = pending.seek_in(range, from, arena);
        assert!(rt; found == first_from(keys, low, high, from));
        if let Some(place) = found {
            take(rt, arena, pending, keys, place);
            from = place;
        }
    }
}

/// Takes the rows of a range out all at once, and their keys out of the list of keys.
fn take_all<Kind>(
    rt: &impl Abort,
    arena: &Arena<Row>,
    pending: &mut PendingList<Kind>,
    keys: &mut Vec<KeyNumber>,
    low: KeyNumber,
    high: BoundNumber,
)
    requires { Remembers arena.now.cells pending.old.handles pending.old.remembered }
    ensures { Remembers arena.now.cells pending.new.handles pending.new.remembered }
{
    let (alloc, len) = (*keys.allocator(), pending.len());
    let range = range_from(rt, low, high);
    let mut taken = Vec::with_capacity(alloc, len).expect(rt, "memory");
    let mut known = Vec::with_capacity(alloc, len).expect(rt, "memory");
    pending.take_in(range, arena, &mut taken, &mut known);
    assert!(rt; known.len() == taken.len());
    assert_taken(rt, arena, pending, &taken, keys, low, high);
    drop(known);
    drop(taken);
}

/// Asserts that these are all rows of a range, in order, and takes their keys out of the list of keys.
fn assert_taken<Kind>(
    rt: &impl Abort,
    arena: &Arena<Row>,
    pending: &PendingList<Kind>,
    taken: &[Handle<Row>],
    keys: &mut Vec<KeyNumber>,
    low: KeyNumber,
    high: BoundNumber,
) {
    'rows: for i in 0..taken.len() {
        let key = key_of(arena, taken[i]).number();
        let place = first_from(keys, low, high, 0);
        assert!(rt; place.is_some_and(|place| keys.get(place) == Some(&key)));
        assert!(rt; !pending.contains(taken[i].slot()));
        remove_key(keys, key);
    }
    assert!(rt; first_from(keys, low, high, 0).is_none());
}

/// Hands all rows over to a column, which then has the keys of the list, in order. None is pending any more.
fn hand_over<Kind>(
    rt: &impl Abort,
    arena: &Arena<Row>,
    pending: &mut PendingList<Kind>,
    keys: &mut Vec<KeyNumber>,
)
    requires { Remembers arena.now.cells pending.old.handles pending.old.remembered }
    ensures { Remembers arena.now.cells pending.new.handles pending.new.remembered }
{
    let mut column = CrackerColumn::new(*keys.allocator());
    let (rows, unread) = pending.hand_over();
    column.adopt(rows, unread);
    assert!(rt; column.len() == keys.len());
    'rows: for place in 0..keys.len() {
        assert!(rt; column.key_at(place, arena).number() == keys[place]);
    }
    assert!(rt; pending.is_empty());
    keys.clear();
    drop(column);
}

/// The step after a row was removed in this round, with this many rows left: now and then another row is taken, or
/// the removed row is added again.
fn after_strike(round: usize, cell: u32, rows: usize) -> Step {
    if round % 5 == 4 && rows > 0 {
        Step::Take(rows / 2)
    } else if round % 7 == 3 {
        Step::Push(cell, round % 2 == 0)
    } else {
        Step::Code
    }
}

/// Makes a step.
fn make<Kind>(
    rt: &impl Abort,
    arena: &Arena<Row>,
    pending: &mut PendingList<Kind>,
    keys: &mut Vec<KeyNumber>,
    first_row: Handle<Row>,
    step: Step,
)
    requires { Remembers arena.now.cells pending.old.handles pending.old.remembered }
    ensures { Remembers arena.now.cells pending.new.handles pending.new.remembered }
{
    match step {
        Step::Push(cell, remembered) => push(
            rt,
            arena,
            pending,
            keys,
            row(first_row, cell),
            remembered,
        ),
        Step::Take(place) => take(rt, arena, pending, keys, place),
        Step::Strike(cell) => strike(rt, arena, pending, keys, row(first_row, cell)),
        Step::TakeEach(low, high) => take_each(rt, arena, pending, keys, low, high),
        Step::TakeAll(low, high) => take_all(rt, arena, pending, keys, low, high),
        Step::HandOver => hand_over(rt, arena, pending, keys),
        Step::Find(low, high) => assert_found(rt, arena, pending, keys, low, high),
        Step::Keys(wanted) => assert!(rt; keys.as_slice() == wanted),
        _ => pending.code_keys(),
    }
}

/// Makes steps. After each of them the rows have the keys of the list.
fn make_all<Kind>(
    rt: &impl Abort,
    arena: &Arena<Row>,
    pending: &mut PendingList<Kind>,
    keys: &mut Vec<KeyNumber>,
    first_row: Handle<Row>,
    steps: &[Step],
)
    requires { Remembers arena.now.cells pending.old.handles pending.old.remembered }
    ensures { Remembers arena.now.cells pending.new.handles pending.new.remembered }
{
    'steps: for place in 0..steps.len() {
        let step = match steps[place] {
            Step::AfterStrike(round, cell) => after_strike(round, cell, keys.len()),
            step => step,
        };
        make(rt, arena, pending, keys, first_row, step);
        assert_keys(rt, arena, pending, keys);
    }
}

/// Makes steps in an empty list: those of `first`, and then the others.
fn assert_steps<Kind: Drop>(
    rt: &impl Abort,
    alloc: Global,
    mut pending: PendingList<Kind>,
    rows: &[(KeyNumber, PayloadNumber)],
    first: &[Step],
    steps: &[Step],
)
    requires { (cells : List (Cell Row)) → Remembers cells pending.handles pending.remembered }
{
    let mut arena = Arena::new(alloc);
    let mut keys = Vec::new(alloc);
    let first_row = put_all(rt, &mut arena, rows);
    make_all(rt, &arena, &mut pending, &mut keys, first_row, first);
    make_all(rt, &arena, &mut pending, &mut keys, first_row, steps);
    drop(pending);
    drop(arena);
}

#[test]
fn rows_go_and_come(rt: HostRuntime) {
    let (insertions, deletions) = (PendingIn::new(rt.alloc()), PendingOut::new(rt.alloc()));
    assert_steps(&rt, rt.alloc(), insertions, FOUR, &[], GO_AND_COME);
    assert_steps(&rt, rt.alloc(), deletions, FOUR, &[], GO_AND_COME);
}

/// Rows with the keys below 199, each once, in no particular order.
fn scattered(rt: &impl Abort, alloc: Global) -> Vec<(KeyNumber, PayloadNumber)> {
    let mut rows = Vec::new(alloc);
    for key in 0..199u64 {
        let row = (key * 37 % 199, -(key as i64));
        assert!(rt; rows.push(row).is_ok());
    }
    rows
}

/// Steps that append 199 rows. Of every three rows the key of the first isn't remembered, unless `all` are.
fn pushes(rt: &impl Abort, alloc: Global, all: bool) -> Vec<Step> {
    let mut steps = Vec::new(alloc);
    for cell in 0..199u32 {
        assert!(rt; steps.push(Step::Push(cell, all || cell % 3 != 0)).is_ok());
    }
    steps
}

/// Steps that remove each of 199 rows twice.
fn strikes(rt: &impl Abort, alloc: Global) -> Vec<Step> {
    let mut steps = Vec::new(alloc);
    for round in 0..398usize {
        let cell = ((round * 53 + 11) % 199) as u32;
        let four = [
            Step::Strike(cell),
            Step::AfterStrike(round, cell),
            Step::Code,
            Step::Find(60, 90),
        ];
        assert!(rt; steps.extend_from_slice(&four).is_ok());
    }
    steps
}

/// Removes 199 rows by their handles, in no particular order; in between, rows are taken out and added again, and
/// holes are closed up. Then takes the rows of ranges out of 199 rows, one after the other and at once: they come
/// in order of arrival, and the others are unchanged.
#[test]
fn rows_go_in_any_order_and_by_ranges(rt: HostRuntime) {
    let rows = scattered(&rt, rt.alloc());
    let (some, all) = (
        pushes(&rt, rt.alloc(), false),
        pushes(&rt, rt.alloc(), true),
    );
    let struck = strikes(&rt, rt.alloc());
    assert_steps(
        &rt,
        rt.alloc(),
        PendingIn::new(rt.alloc()),
        &rows,
        &some,
        &struck,
    );
    assert_steps(
        &rt,
        rt.alloc(),
        PendingIn::new(rt.alloc()),
        &rows,
        &all,
        EACH,
    );
    assert_steps(
        &rt,
        rt.alloc(),
        PendingIn::new(rt.alloc()),
        &rows,
        &all,
        AT_ONCE,
    );
    drop(struck);
    drop(all);
    drop(some);
    drop(rows);
}
