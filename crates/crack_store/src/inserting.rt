//! Adds rows inside a store: first room is made, for one row or for a run, and then each is added where there is room.
ghost use Rattle.std.specs.Prelude.{◌≡◌, ◌+◌, ◌<◌, ◌≤◌, ◌^◌, ◌∷◌, ◌++◌, [], ℕ, suc, length, take, IfErr, OnOk};
ghost use Rattle.std.specs.List.Sorted.{IsPermutation};
ghost use Rattle.crack_state.specs.State.{live_rows};
ghost use Rattle.crack_state.specs.Steps.{row_inserted, IsInsertable, SameButRoom};
ghost use Rattle.crack_store.specs.Inside.{lists_of};
ghost use Rattle.crack_store.specs.Keeps.{KeepsIntact};
ghost use Rattle.crack_store.specs.Rooms.{HasRooms, row_of_run};
ghost use Rattle.crack_store.specs.Runs.{run_rows, rows_inserted, AreInsertable};

use crate::inside::Inside;
use crack_arena::Remembered;
use crack_row::{Key, KeyNumber, Payload, PayloadNumber, Refusal, Row, Serial};

/// Makes room for one row with this serial: a pending insertion, a cell, and an entry of its serial. O(1), except for
/// growth. Refused with `OutOfMemory` if no memory is found; then no row has changed.
#[inline(always)]
pub(crate) fn make_room_for_one(inside: &mut Inside, serial: Serial) -> Result<(), Refusal>
    requires kept { KeepsIntact inside.old [] }
    ensures kept { KeepsIntact inside.new [] }
    ensures same { lists_of inside.new ≡ lists_of inside.old }
    ensures room { OnOk result (HasRooms serial.0 1 inside.new) }
    ensures err { IfErr result (λ e. e ≡ Refusal.OutOfMemory) }
{
    inside.pending_in.reserve(1)?;
    inside.arena.reserve(1)?;
    inside.serials.reserve(serial)?;
    let new_cells = (inside.arena.free_cells() == 0) as usize;
    inside
        .pending_in
        .make_places(inside.arena.cells() + new_cells)
}

/// Makes room for `rows` rows with consecutive serials, from `first` on: pending insertions, cells, and entries of
/// their serials. O(1), except for growth. Refused with `OutOfMemory` if no memory is found; then no row has changed.
pub(crate) fn make_room_for_run(
    inside: &mut Inside,
    first: Serial,
    rows: usize,
) -> Result<(), Refusal>
    requires kept { KeepsIntact inside.old [] }
    requires few { length inside.old.pending_in.handles + rows ≤ 2 ^ 32 }
    ensures kept { KeepsIntact inside.new [] }
    ensures same { lists_of inside.new ≡ lists_of inside.old }
    ensures room { OnOk result (HasRooms first.0 rows inside.new) }
    ensures err { IfErr result (λ e. e ≡ Refusal.OutOfMemory) }
{
    inside.pending_in.reserve(rows)?;
    inside.arena.reserve(rows)?;
    inside.serials.reserve_many(first, rows)?;
    let new_cells = rows.saturating_sub(inside.arena.free_cells());
    inside
        .pending_in
        .make_places(inside.arena.cells() + new_cells)
}

/// Adds a row, for which there is room, in a free cell or a new one, as the last pending insertion. O(1); takes no
/// memory.
// Inlined, so that a loop over rows calls nothing.
#[inline(always)]
pub(crate) fn add_row(inside: &mut Inside, row: Row)
    requires kept { KeepsIntact inside.old [] }
    requires insertable { IsInsertable row (lists_of inside.old) }
    requires room { HasRooms row.serial.0 1 inside.old }
    ensures kept { KeepsIntact inside.new [] }
    ensures after { SameButRoom (row_inserted row (lists_of inside.old)) (lists_of inside.new) }
    ensures live { IsPermutation (row ∷ live_rows (lists_of inside.old)) (live_rows (lists_of inside.new)) }
    ensures room { (count : ℕ) → HasRooms row.serial.0 (suc count) inside.old → HasRooms (suc row.serial.0) count
        inside.new }
{
    let handle = inside.arena.put_reserved(row);
    let _ = inside.serials.insert_reserved(row.serial, handle);
    inside
        .pending_in
        .push_remembered(handle, Remembered::of(row));
    inside.in_room = 0;
}

/// Adds the rows of a run, for which there must be room, in order. Each has the key and the payload at its index, and
/// the serials rise by one from `first`. O(rows); takes no memory.
pub(crate) fn add_rows(
    inside: &mut Inside,
    first: Serial,
    keys: &[KeyNumber],
    payloads: &[PayloadNumber],
)
    requires kept { KeepsIntact inside.old [] }
    requires payloads { length payloads.now ≡ length keys.now }
    requires insertable { AreInsertable first.0 keys.now (lists_of inside.old) }
    requires serials { first.0 + length keys.now < 2 ^ 64 }
    requires room { HasRooms first.0 (length keys.now) inside.old }
    ensures kept { KeepsIntact inside.new [] }
    ensures after { SameButRoom (rows_inserted (take (length keys.now) (run_rows first.0 keys.now payloads.now))
        (lists_of inside.old)) (lists_of inside.new) }
    ensures live { IsPermutation (take (length keys.now) (run_rows first.0 keys.now payloads.now) ++ live_rows
        (lists_of inside.old)) (live_rows (lists_of inside.new)) }
{
    'rows: for i in 0..keys.len() {
        add_row(inside, row_at_index(first, i, keys, payloads));
    }
}

/// The row at this index of a run: its key and payload are at the index, and its serial is `first` plus the index.
#[inline(always)]
pub(crate) fn row_at_index(
    first: Serial,
    index: usize,
    keys: &[KeyNumber],
    payloads: &[PayloadNumber],
) -> Row
    requires within { index < length keys.now }
    requires payloads { length payloads.now ≡ length keys.now }
    requires serials { first.0 + length keys.now < 2 ^ 64 }
    ensures { result ≡ row_of_run first.0 keys.now payloads.now index }
{
    let key = keys[index];
    let payload = payloads[index];
    Row {
        serial: Serial(first.0 + index as u64),
        key: Key::from_number(key),
        payload: Payload::from_number(payload),
    }
}
