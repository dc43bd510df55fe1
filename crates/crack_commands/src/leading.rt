//! Parsing an insert at the beginning of bytes before the end of its line is found.
ghost use Rattle.std.specs.Prelude.{◌≡◌, ◌<◌, ◌≤◌, true, length, take, slice_index, IfSome};
ghost use Rattle.std.specs.List.{list_all};
ghost use Rattle.crack_commands.specs.Grammar.{is_digit};
ghost use Rattle.crack_commands.specs.Inside.{BeginsWithWhole, EndsLine, value_on};
ghost use Rattle.crack_commands.specs.LeadingInsert.{BeginsWithInsert};

use crate::words::{MOST_DIGITS, has_sign, leading_number, row_from, signed, unsigned};
use crack_row::{Key, Payload};

/// The statement's name and the space after it.
const NAME: &[u8] = b"insert ";

/// An insert that bytes begin with: its row, and the length of its line.
#[derive(Clone, Copy, Debug)]
pub struct LeadingInsert {
    pub key: Key,
    pub payload: Payload,
    /// The length of the line in bytes, including the carriage return at its end, if it has one, but not the line
    /// feed.
    pub len: usize,
}

/// Parses the insert with which the bytes begin, through the end of its line, if it is in the usual form: single
/// spaces, and numbers whose digits fit 64 bits. The end of the line isn't searched for first. `None` means that no
/// line in this form begins the bytes; the line may still be an insert. O(bytes of the line), no memory.
#[inline(always)]
pub fn leading_insert(bytes: &[u8]) -> Option<LeadingInsert>
    ensures { IfSome result (λ i. BeginsWithInsert bytes.now i.len i.key i.payload) }
{
    let rest = bytes.strip_prefix(NAME)?;
    let (key, first) = number_before(rest, b' ')?;
    let (payload, second) = last_number(&rest[first + 1..])?;
    let (key, payload) = row_from(key as u128, payload)?;
    Some(LeadingInsert {
        key,
        payload,
        len: NAME.len() + first + 1 + second,
    })
}

/// Parses the integer at the beginning of `bytes`, and returns it with the number of bytes before the line feed.
/// `None` unless its digits fit 64 bits and the line ends after it, with a line feed or with a carriage return and a
/// line feed.
#[inline(always)]
fn last_number(bytes: &[u8]) -> Option<(i128, usize)>
    ensures { IfSome result (λ n. EndsLine bytes.now n.0 n.1) }
{
    match whole_number_before(bytes, b'\n') {
        Some(found) => Some(found),
        None => number_before_return(bytes),
    }
}

/// Implements `last_number` for an integer that a carriage return and a line feed follow.
#[cold]
#[inline(never)]
fn number_before_return(bytes: &[u8]) -> Option<(i128, usize)>
    ensures { IfSome result (λ n. EndsLine bytes.now n.0 n.1) }
{
    let (number, count) = whole_number_before(bytes, b'\r')?;
    if count + 1 < bytes.len() && bytes[count + 1] == b'\n' {
        Some((number, count + 1))
    } else {
        None
    }
}

/// Parses the integer at the beginning of `bytes`, and returns it with its length in bytes. `None` unless its digits
/// fit 64 bits and the byte `stop` follows it.
#[inline(always)]
fn whole_number_before(bytes: &[u8], stop: u8) -> Option<(i128, usize)>
    ensures { IfSome result (λ n. BeginsWithWhole bytes.now stop n.0 n.1) }
{
    let digits = unsigned(bytes);
    let (value, count) = number_before(digits, stop)?;
    let number = signed(has_sign(bytes), value as u128);
    Some((number, bytes.len() - digits.len() + count))
}

/// Parses the number at the beginning of `bytes`, and returns it with the number of its digits. `None` unless there is
/// a digit, the number fits 64 bits, and the byte `stop` follows it.
#[inline(always)]
fn number_before(bytes: &[u8], stop: u8) -> Option<(u64, usize)>
    ensures within { IfSome result (λ n. (0 < n.1) × (n.1 ≤ MOST_DIGITS) × (n.1 < length bytes.now)) }
    ensures stop { IfSome result (λ n. slice_index bytes.now n.1 ≡ stop) }
    ensures digits { IfSome result (λ n. list_all is_digit (take n.1 bytes.now) ≡ true) }
    ensures value { IfSome result (λ n. n.0 ≡ value_on 0 (take n.1 bytes.now)) }
{
    let (value, end) = leading_number(bytes);
    if end > 0 && end < bytes.len() && bytes[end] == stop {
        Some((value, end))
    } else {
        None
    }
}
