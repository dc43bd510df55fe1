//! Scripts: steps in a fresh store of all keys, each with its expected result.
ghost use Rattle.std.specs.Prelude.{◌≡◌, ◌<◌, length};

use crate::merge::{merge_at, numbers_of};
use crack_row::{
    Bound, BoundNumber, GREATEST_BOUND, Key, KeyNumber, KeyRange, Payload, PayloadNumber,
    PieceSize, Policy, Refusal, Row, Serial,
};
use crack_store::{Carrying, Store};
use std::alloc::Global;
use std::process::Abort;

/// A row's serial, key and payload.
pub(crate) type Numbers = (u64, KeyNumber, PayloadNumber);

/// A step of a test on a store of all keys.
#[derive(Clone, Copy)]
pub(crate) enum Step {
    /// Inserts a row, which becomes the last pending insertion.
    Insert(Numbers),
    /// Appends the first pending insertion to the column.
    Append,
    /// Pushes the first pending insertion on once, which takes a row with this key into the hand, and appends that
    /// row.
    PushOnce(KeyNumber),
    /// Cracks at the ends of a range, between which there are then this many rows.
    Crack(BoundNumber, BoundNumber, u64),
    /// Cancels a pending insertion, which is this row.
    Cancel(Numbers),
    /// Dooms a row of the column, which is this one.
    Doom(Numbers),
    /// Removes the row with a serial, which is this one.
    Remove(u64, Option<Numbers>),
    /// Replaces the row with the same serial by the first row. It was the second row, or there was none.
    Replace(Numbers, Option<Numbers>),
    /// Rewrites the row with this one's serial, which is then a pending insertion.
    Rewrite(Numbers),
    /// Cracks at the end of the range from 0, and expects this sum of its payloads and these rows.
    Read(BoundNumber, i128, &'static [Numbers]),
    /// Expects these live rows with keys between two ends, whatever is pending.
    Live(BoundNumber, BoundNumber, &'static [Numbers]),
    /// Expects this many pending insertions, pending deletions, cells and free cells.
    Count([usize; 4]),
    /// Expects this many rows in the column.
    Column(usize),
    /// Expects the first pending insertion of a range, and the first pending deletion of all keys, at these places.
    First(BoundNumber, BoundNumber, Option<usize>, Option<usize>),
    /// Expects the second bound as the next one above the first.
    Next(BoundNumber, BoundNumber),
    /// Expects whether the row with a serial is pending, and which row it is.
    Row(u64, Option<bool>, Option<Numbers>),
    /// Expects this many rows in the layout, or these sizes of the pieces.
    Rows(u64),
    Sizes(&'static [u64]),
    /// Merges for the range between two ends. Expects these counts of the merge (rows put in, taken out, evicted,
    /// moved and pulled), and then this many rows between the ends.
    Merge(Policy, [BoundNumber; 2], [u64; 5], u64),
    /// Expects in the layout this many rows of the column, pending insertions and pending deletions, and these
    /// sizes of the pieces, in rising order of keys.
    Look([u64; 3], &'static [u64]),
}

/// Named steps in a fresh store of all keys, after those of `first`.
#[derive(Clone, Copy)]
pub(crate) struct Script {
    pub(crate) name: &'static str,
    pub(crate) first: &'static [Step],
    pub(crate) steps: &'static [Step],
}

/// The row of these numbers.
pub(crate) fn row(numbers: Numbers) -> Row {
    let (serial, key, payload) = numbers;
    Row {
        serial: Serial(serial),
        key: Key::from_number(key),
        payload: Payload::from_number(payload),
    }
}

/// Makes room, and takes the first pending insertion into the hand.
fn lift_first(rt: &impl Abort, store: Store) -> Carrying
    ensures room { 0 < result.store.column_room }
    ensures doomed { length result.store.pending_out ≡ 0 }
{
    let mut store = store;
    let room = store.make_room();
    assert!(rt; room.is_ok());
    let pending_in = store.pending_in();
    let pending_out = store.pending_out();
    assert!(rt; pending_in > 0);
    assert!(rt; pending_out == 0);
    store.lift(0)
}

/// Pushes the hand on, if its piece ends before the column does.
fn push_on(rt: &impl Abort, carrying: Carrying) -> Carrying
    ensures room { result.store.column_room ≡ carrying.store.column_room }
    ensures doomed { result.store.pending_out ≡ carrying.store.pending_out }
{
    let mut carrying = carrying;
    let end = carrying.piece_ends_at();
    let len = carrying.column_len();
    assert!(rt; end < len);
    carrying.push_on();
    carrying
}

/// Ends a carry by appending the hand to the column.
fn append(rt: &impl Abort, carrying: Carrying) -> Store
    requires room { 0 < carrying.store.column_room }
    requires doomed { length carrying.store.pending_out ≡ 0 }
{
    let end = carrying.piece_ends_at();
    let len = carrying.column_len();
    assert!(rt; end == len);
    carrying.append()
}

/// Pushes the first pending insertion on once, and appends the row that is then in hand. That row has this key, and
/// is the only one that moved; three rows were put in.
fn push_once(rt: &impl Abort, store: Store, key: KeyNumber) -> Store {
    let carrying = push_on(rt, lift_first(rt, store));
    let (_, row) = carrying.hand();
    let tally = carrying.tally();
    assert!(rt; row.key.number() == key && tally.insertions == 3 && tally.moved == 1);
    append(rt, carrying)
}

/// Asserts that a store has all keys.
pub(crate) fn assert_all_keys(rt: &impl Abort, store: &Store)
    ensures low { store.now.keys.low ≡ 0 }
    ensures high { store.now.keys.high ≡ GREATEST_BOUND }
{
    let (keys, all) = (store.keys(), KeyRange::all());
    assert!(rt; keys.low() <= all.low());
    assert!(rt; keys.high() <= all.high());
    assert!(rt; all.high() <= keys.high());
}

/// Whether a row can be inserted, and is then a pending insertion.
pub(crate) fn inserts(rt: &impl Abort, store: &mut Store, new: Row) -> bool {
    assert_all_keys(rt, store);
    if store.is_pending(new.serial).is_some() || store.cells() >= 1000 {
        return false;
    }
    store.insert(new).is_ok() && store.is_pending(new.serial) == Some(true)
}

/// Whether a pending insertion that is this row can be cancelled, and is gone then.
fn cancels(store: &mut Store, gone: Row) -> bool {
    let freed = store.freed();
    let doomed = store.pending_out();
    if store.is_pending(gone.serial) != Some(true) || freed >= 1000 || doomed >= 1000 {
        return false;
    }
    store.cancel(gone.serial) == gone
        && store.row_of(gone.serial).is_none()
        && store.freed() == freed + 1
}

/// Whether this row, which is in the column, can be doomed, and is gone then.
pub(crate) fn dooms(store: &mut Store, gone: Row) -> bool {
    let freed = store.freed();
    let doomed = store.pending_out();
    if store.is_pending(gone.serial) != Some(false) || freed >= 1000 || doomed >= 1000 {
        return false;
    }
    store.doom(gone.serial) == Ok(gone)
        && store.row_of(gone.serial).is_none()
        && store.pending_out() == doomed + 1
}

/// Whether removing the row with a serial returns this row.
fn removes(store: &mut Store, serial: u64, gone: Option<Row>) -> bool {
    if store.freed() >= 1000 || store.pending_out() >= 1000 {
        return false;
    }
    store.remove(Serial(serial)) == Ok(gone)
}

/// Whether replacing a row by this one returns the old row.
fn replaces(rt: &impl Abort, store: &mut Store, new: Row, old: Option<Row>) -> bool {
    assert_all_keys(rt, store);
    if store.freed() >= 1000 || store.pending_out() >= 1000 || store.cells() >= 1000 {
        return false;
    }
    store.replace(new) == Ok(old)
}

/// Whether a row can be rewritten as this one, and is then a pending insertion.
fn rewrites(rt: &impl Abort, store: &mut Store, new: Row) -> bool {
    assert_all_keys(rt, store);
    if store.is_pending(new.serial).is_none() || store.cells() >= 1000 {
        return false;
    }
    if store.freed() >= 1000 || store.pending_out() >= 1000 {
        return false;
    }
    store.rewrite(new.serial, new.key, new.payload).is_ok()
        && store.row_of(new.serial) == Some(new)
        && store.is_pending(new.serial) == Some(true)
}

/// Whether there are this many rows between two ends after a crack at them.
fn cracks(store: &mut Store, low: BoundNumber, high: BoundNumber, rows: u64) -> bool {
    match KeyRange::new(low, high) {
        Ok(range) => store.crack(range).is_ok() && store.count_between(range) == rows,
        Err(_) => false,
    }
}

/// Whether these are the rows, in this order.
fn are_rows(rows: &[Row], numbers: &[Numbers]) -> bool {
    for place in 0..numbers.len() {
        if rows.get(place) != Some(&row(numbers[place])) {
            return false;
        }
    }
    rows.len() == numbers.len()
}

/// Whether these rows were found, in this order.
fn are_found(found: Result<Vec<Row>, Refusal>, numbers: &[Numbers]) -> bool {
    match found {
        Ok(rows) => are_rows(rows.as_slice(), numbers),
        Err(_) => false,
    }
}

/// Whether the rows of the range from 0 have this sum and are these, after a crack at its end.
fn reads(store: &mut Store, high: BoundNumber, sum: i128, rows: &[Numbers]) -> bool {
    let Ok(range) = KeyRange::new(0, high) else {
        return false;
    };
    if store.crack(range).is_err() || store.sum_between(range) != sum {
        return false;
    }
    are_found(store.rows_between(range), rows)
}

/// Whether the live rows with keys between two ends are these, in a list that is made with room for none, or for more
/// than there are.
fn lists(store: &Store, low: BoundNumber, high: BoundNumber, rows: &[Numbers]) -> bool {
    match KeyRange::new(low, high) {
        Ok(range) => {
            are_found(store.live_rows_in(range, 0), rows)
                && are_found(store.live_rows_in(range, 1000), rows)
        }
        Err(_) => false,
    }
}

/// Whether the pieces have these sizes.
fn are_sizes(pieces: &[PieceSize], sizes: &[u64]) -> bool {
    for place in 0..sizes.len() {
        if !pieces
            .get(place)
            .is_some_and(|piece| piece.size == sizes[place])
        {
            return false;
        }
    }
    pieces.len() == sizes.len()
}

/// Whether the layout is as the step expects.
fn is_laid_out(store: &Store, step: Step) -> bool {
    let Ok(layout) = store.layout() else {
        return false;
    };
    let pieces = layout.pieces.as_slice();
    match step {
        Step::Rows(rows) => layout.rows == rows,
        Step::Sizes(sizes) => are_sizes(pieces, sizes),
        Step::Look(rows, sizes) => {
            [layout.column, layout.pending_in, layout.pending_out] == rows
                && are_sizes(pieces, sizes)
        }
        _ => false,
    }
}

/// Whether the first pending insertion of the keys between two ends is at this place, and the first pending
/// deletion of all keys at the other.
fn finds(
    store: &Store,
    low: BoundNumber,
    high: BoundNumber,
    first_in: Option<usize>,
    first_out: Option<usize>,
) -> bool {
    match KeyRange::new(low, high) {
        Ok(range) => {
            store.first_in(range) == first_in && store.first_out(KeyRange::all()) == first_out
        }
        Err(_) => false,
    }
}

/// The number of pending insertions, pending deletions, cells and free cells.
fn numbers(store: &Store) -> [usize; 4] {
    [
        store.pending_in(),
        store.pending_out(),
        store.cells(),
        store.free_cells(),
    ]
}

/// Whether a store is as the step expects.
fn looks(store: &Store, step: Step) -> bool {
    match step {
        Step::Count(counted) => numbers(store) == counted,
        Step::Column(rows) => store.column_len() == rows,
        Step::First(low, high, first_in, first_out) => finds(store, low, high, first_in, first_out),
        Step::Next(bound, next) => {
            store.next_bound(Bound::from_number(bound)) == Bound::from_number(next)
        }
        Step::Live(low, high, rows) => lists(store, low, high, rows),
        Step::Row(serial, pending, found) => {
            store.is_pending(Serial(serial)) == pending
                && store.row_of(Serial(serial)) == found.map(row)
        }
        _ => is_laid_out(store, step),
    }
}

/// Makes a step in place, and returns whether it had the expected result.
fn change(rt: &impl Abort, store: &mut Store, step: Step) -> bool {
    match step {
        Step::Insert(new) => inserts(rt, store, row(new)),
        Step::Crack(low, high, rows) => cracks(store, low, high, rows),
        Step::Cancel(gone) => cancels(store, row(gone)),
        Step::Doom(gone) => dooms(store, row(gone)),
        Step::Remove(serial, gone) => removes(store, serial, gone.map(row)),
        Step::Replace(new, old) => replaces(rt, store, row(new), old.map(row)),
        Step::Rewrite(new) => rewrites(rt, store, row(new)),
        Step::Read(high, sum, rows) => reads(store, high, sum, rows),
        _ => looks(store, step),
    }
}

/// Merges for a range. Returns the store, and whether the merge has these counts and the range then has this many
/// rows.
fn merges(
    rt: &impl Abort,
    store: Store,
    policy: Policy,
    ends: [BoundNumber; 2],
    counted: [u64; 5],
    rows: u64,
) -> (Store, bool) {
    let [low, high] = ends;
    assert!(rt; low < high);
    let range = KeyRange::new(low, high).expect(rt, "a range");
    let (store, report) = merge_at(rt, store, range, policy);
    let count = store.count_between(range);
    (store, numbers_of(report) == counted && count == rows)
}

/// Makes a step. Returns the store, and whether the step had the expected result.
fn make(rt: &impl Abort, store: Store, step: Step) -> (Store, bool) {
    match step {
        Step::Append => (append(rt, lift_first(rt, store)), true),
        Step::PushOnce(key) => (push_once(rt, store, key), true),
        Step::Merge(policy, ends, counted, rows) => merges(rt, store, policy, ends, counted, rows),
        _ => {
            let mut store = store;
            let is_right = change(rt, &mut store, step);
            (store, is_right)
        }
    }
}

/// Asserts a condition for this index in a list with this name.
pub(crate) fn assert_at(rt: &impl Abort, holds: bool, name: &str, place: usize) {
    assert!(rt; holds, "{name}: at {place}");
}

/// Makes steps, and asserts the result of each.
fn make_all(rt: &impl Abort, store: Store, name: &str, steps: &[Step]) -> Store {
    let mut store = store;
    'steps: for place in 0..steps.len() {
        let (next, is_right) = make(rt, store, steps[place]);
        store = next;
        assert_at(rt, is_right, name, place);
    }
    store
}

/// Asserts the result of each step of a script.
pub(crate) fn assert_script(rt: &impl Abort, alloc: Global, script: Script) {
    let Script { name, first, steps } = script;
    let store = make_all(rt, Store::new(alloc, KeyRange::all()), name, first);
    drop(make_all(rt, store, name, steps));
}
