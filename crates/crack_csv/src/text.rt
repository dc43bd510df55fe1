//! Writing rows as CSV records.
ghost use Rattle.std.specs.Prelude.{◌≡◌, ◌+◌, ◌≤◌, ◌++◌, decimal, length};
ghost use Rattle.std.specs.Fmt.{signed_decimal};
ghost use Rattle.crack_csv.specs.Exports.{record_text};

use arrayvec::ArrayVec;
use crack_commands::push;
use crack_row::{Key, Payload, Row};

/// The space for a record: two numbers of at most 20 bytes, and two bytes more.
pub const RECORD_BYTES: usize = 42;

/// The header: a record of the names of the two fields.
pub const HEADER: &[u8] = b"key,payload\n";

/// Adds the record of a row to a text, which must have room for `RECORD_BYTES` more. O(1).
pub fn push_record<const ROOM: usize>(text: &mut ArrayVec<u8, ROOM>, row: &Row)
    requires { length text.old.items + RECORD_BYTES ≤ ROOM }
    ensures { text.new.items ≡ text.old.items ++ record_text row.now }
{
    push_key(text, row.key);
    push(text, b",");
    push_payload(text, row.payload);
    push(text, b"\n");
}

/// Adds a key in decimal to a text, which must have room for 20 bytes more.
#[inline(always)]
fn push_key<const ROOM: usize>(text: &mut ArrayVec<u8, ROOM>, key: Key)
    requires { length text.old.items + 20 ≤ ROOM }
    ensures digits { text.new.items ≡ text.old.items ++ decimal key.0 }
    ensures few { length text.new.items ≤ length text.old.items + 20 }
{
    let mut digits = itoa::Buffer::new();
    push(text, digits.format(key.number()).as_bytes());
}

/// Adds a payload in decimal, at most 19 digits and a minus sign, to a text, which must have room for 20 bytes more.
#[inline(always)]
fn push_payload<const ROOM: usize>(text: &mut ArrayVec<u8, ROOM>, payload: Payload)
    requires { length text.old.items + 20 ≤ ROOM }
    ensures digits { text.new.items ≡ text.old.items ++ signed_decimal payload.0 }
    ensures few { length text.new.items ≤ length text.old.items + 20 }
{
    let mut digits = itoa::Buffer::new();
    push(text, digits.format(payload.number()).as_bytes());
}
