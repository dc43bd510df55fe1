//! The key and payload of a row, remembered beside its handle.
ghost use Rattle.std.specs.Prelude.{◌≡◌, ◌≢◌, ◌<◌, ◌↔◌, [], ◌∷◌, IsTrue};
ghost use Rattle.crack_arena.specs.Arena.{times};
ghost use Rattle.crack_arena.specs.Rows.{key_at, unknown};
ghost use Rattle.crack_arena.specs.Memories.{nothing, memory_at, Agrees};

use crate::{Arena, Handle, key_of};
use crack_row::{Bound, GREATEST_KEY, Key, KeyNumber, Payload, Row};
use std::marker::Model;

/// The number in place of a key that isn't remembered.
pub const UNKNOWN_KEY: KeyNumber = GREATEST_KEY;

/// The remembered key and payload of a row, or a mark that they aren't known.
#[derive(Clone, Copy)]
pub struct Remembered {
    key: KeyNumber,
    payload: Payload,
}

impl Model for Remembered {
    ghost use Rattle.crack_arena.specs.Memories.{Memory};

    ghost Value = { Memory };

    ghost view = { λ r. record { key = r.key; payload = r.payload } };

    ghost inverse = { λ m. record { key = m.key; payload = m.payload } };
}

impl Remembered {
    /// Remembers the row. A row with the greatest key counts as unknown. O(1).
    pub fn of(row: Row) -> Remembered
        ensures { result ≡ record { key = row.key.0; payload = row.payload } }
    {
        Remembered {
            key: row.key.number(),
            payload: row.payload,
        }
    }

    /// The value for an unknown row. O(1).
    pub fn nothing() -> Remembered
        ensures { result ≡ nothing }
    {
        Remembered {
            key: UNKNOWN_KEY,
            payload: Payload::from_number(0),
        }
    }

    /// The key of the row that the handle reads, or 0 if it reads none. `self` must be what is remembered of that
    /// row. The arena is read only if the row is unknown. O(1).
    pub fn key_of(&self, handle: Handle<Row>, arena: &Arena<Row>) -> Key
        requires { Agrees arena.now.cells handle self.now }
        ensures { result.0 ≡ key_at arena.now.cells handle }
    {
        if self.key == UNKNOWN_KEY {
            key_of(arena, handle)
        } else {
            Key::from_number(self.key)
        }
    }

    /// Whether the row is known and its key is below the bound. O(1).
    #[inline]
    pub fn is_known_below(&self, bound: Bound) -> bool
        ensures { IsTrue result ↔ ((self.now.key ≢ unknown) × (self.now.key < bound.0)) }
    {
        self.key != UNKNOWN_KEY && bound.is_above(Key::from_number(self.key))
    }

    /// Remembers the row that the handle reads, or the key 0 and the payload 0 if the handle reads none. O(1).
    #[inline]
    pub fn read(arena: &Arena<Row>, handle: Handle<Row>) -> Remembered
        ensures { result ≡ memory_at arena.now.cells handle }
    {
        match arena.get(handle) {
            Some(row) => Remembered::of(*row),
            None => Remembered::new(0, Payload::from_number(0)),
        }
    }

    /// The key and payload of the row that the handle reads, both 0 if it reads none. `self` must be what is
    /// remembered of that row. The arena is read only if the row is unknown. O(1).
    pub fn or_read(self, arena: &Arena<Row>, handle: Handle<Row>) -> Remembered
        requires { Agrees arena.now.cells handle self }
        ensures { result ≡ memory_at arena.now.cells handle }
    {
        if self.key == UNKNOWN_KEY {
            return Remembered::read(arena, handle);
        }
        self
    }

    /// Remembers this key and this payload. The row counts as unknown if the key is `UNKNOWN_KEY`. O(1).
    #[inline]
    pub fn new(key: KeyNumber, payload: Payload) -> Remembered
        ensures { result ≡ record { key = key; payload = payload } }
    {
        Remembered { key, payload }
    }

    /// The row's key as a number, or `UNKNOWN_KEY` if the row is unknown. O(1).
    #[inline]
    pub fn key(&self) -> KeyNumber
        ensures { result ≡ self.now.key }
    {
        self.key
    }

    /// The remembered payload. It has no meaning if the row is unknown. O(1).
    #[inline]
    pub fn payload(&self) -> Payload
        ensures { result ≡ self.now.payload }
    {
        self.payload
    }

    /// 1 if the row is unknown, otherwise 0. O(1).
    #[inline]
    pub fn unread(&self) -> usize
        ensures { result ≡ times unknown (self.now.key ∷ []) }
    {
        (self.key == UNKNOWN_KEY) as usize
    }
}
