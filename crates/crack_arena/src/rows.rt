//! Keys and payloads of rows in an arena.
ghost use Rattle.std.specs.Prelude.{◌≡◌, pos, neg_ℤ, ◌≤ℤ◌};
ghost use Rattle.crack_row.specs.Rows.{farthest_amount};
ghost use Rattle.crack_arena.specs.Rows.{amount_at, key_at};

use crate::{Arena, Handle};
use crack_row::{Key, Row};

/// The key of the row that the handle reads, or 0 if it reads none. O(1).
pub fn key_of(arena: &Arena<Row>, handle: Handle<Row>) -> Key
    ensures { result.0 ≡ key_at arena.now.cells handle }
{
    match arena.get(handle) {
        Some(row) => row.key,
        None => Key::from_number(0),
    }
}

/// What the row that the handle reads adds to a sum: its payload, or 0 if the handle reads none. O(1).
pub fn amount_of(arena: &Arena<Row>, handle: Handle<Row>) -> i128
    ensures value { result ≡ amount_at arena.now.cells handle }
    ensures least { neg_ℤ (pos farthest_amount) ≤ℤ result }
    ensures most { result ≤ℤ pos farthest_amount }
{
    match arena.get(handle) {
        Some(row) => row.payload.amount(),
        None => 0,
    }
}
