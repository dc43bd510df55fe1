//! Parsing words, which spaces separate, and numbers. Each function takes O(bytes) and no memory.
ghost use Rattle.std.specs.Prelude.{pos, neg_ℤ, int_le, ◌&&◌, ◌≡◌, ◌+◌, ◌-◌, ◌*◌, ◌^◌, ◌<◌, ◌≤◌, ◌≢◌, ◌↔◌, true, false};
ghost use Rattle.std.specs.Prelude.{length, IsTrue, Some, take, drop, ◌==◌, if◌then◌else◌, IfSome, slice_index};
ghost use Rattle.std.specs.List.{list_all, position_or_len};
ghost use Rattle.crack_commands.specs.Grammar.{words, number_of, whole_number_of, number_up_to, two_of};
ghost use Rattle.crack_commands.specs.Grammar.{key_read, payload_read, only_word, row_number_of, is_digit};
ghost use Rattle.crack_commands.specs.Inside.{value_on, has_space, has_sign, row_from, IsFirstWord, IsFirstNumber};
ghost use Rattle.crack_commands.specs.Inside.{IsFirstWholeNumber, BeginsWithDigits};

use crack_row::{
    GREATEST_KEY, GREATEST_PAYLOAD, Key, KeyNumber, LEAST_PAYLOAD, Payload, PayloadNumber, RowNo,
    Serial,
};

/// The greatest number of digits of a number in a statement, including leading zeros.
pub const MOST_DIGITS: usize = 20;

/// Any number of this many digits fits 64 bits.
pub(crate) const SHORT_DIGITS: usize = 19;

/// How many digits are parsed at once, if the number has so many.
const BLOCK_DIGITS: usize = 8;

/// The greatest partition number in a statement.
pub const GREATEST_PART: u32 = 4294967295;

/// The greatest serial in a statement.
pub const GREATEST_SERIAL: u64 = 18446744073709551615;

/// Parses exactly two words as a key and a payload. `None` if they are anything else.
#[inline(always)]
pub fn key_and_payload(bytes: &[u8]) -> Option<(Key, Payload)>
    ensures { result ≡ two_of key_read payload_read (words bytes.now) }
{
    if let Some((key, payload)) = two_short_words(bytes) {
        if let Some(row) = row_from(key as u128, payload) {
            return Some(row);
        }
    }
    any_key_and_payload(bytes)
}

/// Parses exactly two words as a number and an integer. `None` for anything else, and also if the digits of one don't
/// fit 64 bits or a space follows the second word.
#[inline(always)]
fn two_short_words(bytes: &[u8]) -> Option<(u64, i128)>
    ensures { IfSome result (λ pair. two_of key_read payload_read (words bytes.now) ≡ row_from pair.0 pair.1) }
{
    let (key, rest) = short_number(bytes)?;
    let (payload, rest) = short_whole_number(rest)?;
    if rest.is_empty() {
        Some((key, payload))
    } else {
        None
    }
}

/// Implements `key_and_payload` for all numbers and any spaces.
#[cold]
#[inline(never)]
fn any_key_and_payload(bytes: &[u8]) -> Option<(Key, Payload)>
    ensures { result ≡ two_of key_read payload_read (words bytes.now) }
{
    let (key, rest) = next_word(bytes);
    let (payload, rest) = next_word(rest);
    let (more, _) = next_word(rest);
    if more.is_empty() {
        read_key(key).zip(read_payload(payload))
    } else {
        None
    }
}

/// The key and the payload with these numbers. `None` if one of the numbers is out of range. Both are tested in one
/// step, without a branch between them.
#[inline(always)]
pub(crate) fn row_from(key: u128, payload: i128) -> Option<(Key, Payload)>
    ensures { result ≡ row_from key payload }
{
    if is_key(key) & is_payload(payload) {
        Some((
            Key::from_number(key as KeyNumber),
            Payload::from_number(payload as PayloadNumber),
        ))
    } else {
        None
    }
}

/// Parses a word as a key. `None` if it isn't one.
pub fn read_key(word: &[u8]) -> Option<Key>
    ensures { result ≡ key_read word.now }
{
    match read_number(word) {
        Some(number) if is_key(number) => Some(Key::from_number(number as KeyNumber)),
        _ => None,
    }
}

/// Parses a word as a payload. `None` if it isn't one.
pub fn read_payload(word: &[u8]) -> Option<Payload>
    ensures { result ≡ payload_read word.now }
{
    match read_whole_number(word) {
        Some(number) if is_payload(number) => Some(Payload::from_number(number as PayloadNumber)),
        _ => None,
    }
}

/// Whether a number is in the range of keys.
fn is_key(number: u128) -> bool
    ensures { IsTrue result ↔ (number ≤ GREATEST_KEY) }
{
    number <= GREATEST_KEY as u128
}

/// Whether an integer is in the range of payloads.
fn is_payload(number: i128) -> bool
    ensures { result ≡ (int_le LEAST_PAYLOAD number && int_le number GREATEST_PAYLOAD) }
{
    LEAST_PAYLOAD as i128 <= number && number <= GREATEST_PAYLOAD as i128
}

/// Parses exactly two words as numbers. `None` if they are anything else.
#[inline(always)]
pub fn two_numbers(bytes: &[u8]) -> Option<(u128, u128)>
    ensures { result ≡ two_of number_of number_of (words bytes.now) }
{
    match two_short_numbers(bytes) {
        Some((first, second)) => Some((first as u128, second as u128)),
        None => any_two_numbers(bytes),
    }
}

/// Parses exactly two words as numbers. `None` for anything else, and also if one doesn't fit 64 bits or a space
/// follows the second word.
#[inline(always)]
fn two_short_numbers(bytes: &[u8]) -> Option<(u64, u64)>
    ensures { IfSome result (λ pair. two_of number_of number_of (words bytes.now) ≡ Some (pair.0, pair.1)) }
{
    let (first, rest) = short_number(bytes)?;
    let (second, rest) = short_number(rest)?;
    if rest.is_empty() {
        Some((first, second))
    } else {
        None
    }
}

/// Implements `two_numbers` for all numbers and any spaces.
#[cold]
#[inline(never)]
fn any_two_numbers(bytes: &[u8]) -> Option<(u128, u128)>
    ensures { result ≡ two_of number_of number_of (words bytes.now) }
{
    let (first, rest) = next_number(bytes);
    let (second, rest) = next_number(rest);
    let (more, _) = next_word(rest);
    match (first, second) {
        (Some(first), Some(second)) if more.is_empty() => Some((first, second)),
        _ => None,
    }
}

/// Returns the value of the first word as a number, `None` if it isn't one, and the bytes after the word.
fn next_number(bytes: &[u8]) -> (Option<u128>, &[u8])
    ensures { IsFirstNumber bytes.now result.0 result.1.now }
{
    let (word, rest) = next_word(bytes);
    (read_number(word), rest)
}

/// Parses a word as a row number: a partition number, a full stop and a serial. `None` if it isn't one.
pub fn read_row_number(word: &[u8]) -> Option<RowNo>
    ensures { result ≡ row_number_of word.now }
{
    let stop = place_of(b'.', word);
    if stop == word.len() {
        return None;
    }
    let part = read_part(&word[..stop]);
    let serial = read_serial(&word[stop + 1..]);
    match (part, serial) {
        (Some(part), Some(serial)) => Some(RowNo {
            part,
            serial: Serial(serial),
        }),
        _ => None,
    }
}

/// Parses a word as a partition number. `None` if it isn't one.
pub fn read_part(word: &[u8]) -> Option<u32>
    ensures { result ≡ number_up_to GREATEST_PART word.now }
{
    read_number_up_to(GREATEST_PART, word)
}

/// Parses a word as a number that is at most `greatest`. `None` if it isn't one.
pub fn read_number_up_to(greatest: u32, word: &[u8]) -> Option<u32>
    ensures { result ≡ number_up_to greatest word.now }
{
    match read_number(word) {
        Some(number) if number <= greatest as u128 => Some(number as u32),
        _ => None,
    }
}

/// Parses a word as a serial. `None` if it isn't one.
fn read_serial(word: &[u8]) -> Option<u64>
    ensures { result ≡ number_up_to GREATEST_SERIAL word.now }
{
    match read_number(word) {
        Some(number) if number <= GREATEST_SERIAL as u128 => Some(number as u64),
        _ => None,
    }
}

/// The index of the first byte that equals `byte`, or the length if there is none.
pub(crate) fn place_of(byte: u8, word: &[u8]) -> usize
    ensures { result ≡ position_or_len (λ b. b == byte) word.now }
{
    for (i, b) in word.iter().enumerate() {
        if *b == byte {
            return i;
        }
    }
    word.len()
}

/// Parses the first word as a number, and returns it with the bytes after the word. `None` if the word isn't a number
/// that fits 64 bits.
#[inline(always)]
fn short_number(bytes: &[u8]) -> Option<(u64, &[u8])>
    ensures { IfSome result (λ pair. IsFirstNumber bytes.now (Some pair.0) pair.1.now) }
{
    short_digits(without_spaces(bytes))
}

/// Parses the first word as an integer, and returns it with the bytes after the word. `None` if the word isn't an
/// integer, or its digits don't fit 64 bits.
#[inline(always)]
fn short_whole_number(bytes: &[u8]) -> Option<(i128, &[u8])>
    ensures { IfSome result (λ pair. IsFirstWholeNumber bytes.now (Some pair.0) pair.1.now) }
{
    let word = without_spaces(bytes);
    let (value, rest) = short_digits(unsigned(word))?;
    Some((signed(has_sign(word), value as u128), rest))
}

/// Parses the number at the beginning of `bytes`, and returns it with the bytes after it. `None` if no digit begins
/// them, if the number doesn't fit 64 bits, or if another byte than a space follows it.
#[inline(always)]
fn short_digits(bytes: &[u8]) -> Option<(u64, &[u8])>
    ensures { IfSome result (λ pair. BeginsWithDigits bytes.now pair.0 pair.1.now) }
{
    let (value, end) = leading_number(bytes);
    if end > 0 && ends_at(bytes, end) {
        Some((value, &bytes[end..]))
    } else {
        None
    }
}

/// Whether bytes begin with a minus sign.
#[inline(always)]
pub(crate) fn has_sign(bytes: &[u8]) -> bool
    ensures { result ≡ has_sign bytes.now }
{
    !bytes.is_empty() && bytes[0] == b'-'
}

/// The bytes without the minus sign at the beginning, if there is one.
#[inline(always)]
pub(crate) fn unsigned(bytes: &[u8]) -> &[u8]
    ensures { result.now ≡ (if has_sign bytes.now then drop 1 bytes.now else bytes.now) }
{
    if has_sign(bytes) { &bytes[1..] } else { bytes }
}

/// The number, negated if `is_negative`.
#[inline(always)]
pub(crate) fn signed(is_negative: bool, number: u128) -> i128
    requires { number < 2 ^ 127 }
    ensures { result ≡ (if is_negative then neg_ℤ (pos number) else pos number) }
{
    if is_negative {
        -(number as i128)
    } else {
        number as i128
    }
}

/// Whether a word ends directly before the index `end`: the byte at `end` is a space, or the bytes end there.
fn ends_at(bytes: &[u8], end: usize) -> bool
    requires { end ≤ length bytes.now }
    ensures { IsTrue result ↔ (end < length bytes.now → slice_index bytes.now end ≡ 32) }
{
    end == bytes.len() || bytes[end] == b' '
}

/// Parses the digits at the beginning of `bytes`, at most `MOST_DIGITS` and no more than fit 64 bits, and returns
/// their value and count: 0 and 0 if there is no digit. Digits beyond these are left.
#[inline(always)]
pub(crate) fn leading_number(bytes: &[u8]) -> (u64, usize)
    ensures within { (result.1 ≤ length bytes.now) × (result.1 ≤ MOST_DIGITS) }
    ensures digits { list_all is_digit (take result.1 bytes.now) ≡ true }
    ensures value { result.0 ≡ value_on 0 (take result.1 bytes.now) }
{
    let (value, end) = leading_digits(&bytes[..bytes.len().min(SHORT_DIGITS)]);
    if end < SHORT_DIGITS || end == bytes.len() {
        return (value, end);
    }
    match with_digit(value, bytes[SHORT_DIGITS]) {
        Some(value) => (value, MOST_DIGITS),
        None => (value, end),
    }
}

/// Appends the digit `byte` to the decimal number `value`. `None` if the byte isn't a digit or the result doesn't fit
/// 64 bits.
fn with_digit(value: u64, byte: u8) -> Option<u64>
    ensures { IfSome result (λ n. (is_digit byte ≡ true) × (n ≡ value * 10 + (byte - 48))) }
{
    if !is_digit(byte) {
        return None;
    }
    value.checked_mul(10)?.checked_add((byte - b'0') as u64)
}

/// Parses the digits at the beginning of `bytes`, which are at most `SHORT_DIGITS`, and returns their value and count:
/// 0 and 0 if there is no digit.
#[tactic(auto, using(crate::proofs::Numbers::digits_more, crate::proofs::Numbers::value_more, crate::proofs::Numbers::digit_bounds))]
#[inline(always)]
pub(crate) fn leading_digits(bytes: &[u8]) -> (u64, usize)
    requires { length bytes.now ≤ SHORT_DIGITS }
    ensures within { result.1 ≤ length bytes.now }
    ensures digits { list_all is_digit (take result.1 bytes.now) ≡ true }
    ensures value { result.0 ≡ value_on 0 (take result.1 bytes.now) }
{
    let (mut value, start) = leading_block(bytes);
    'digits: for i in start..bytes.len() {
        let digit = (bytes[i] as u64).wrapping_sub(b'0' as u64);
        if digit >= 10 {
            return (value, i);
        }
        value = value * 10 + digit;
    }
    (value, bytes.len())
}

/// Parses `BLOCK_DIGITS` digits at the beginning of `bytes`, and returns their value and count: 0 and 0 if there
/// aren't as many digits.
#[inline(always)]
fn leading_block(bytes: &[u8]) -> (u64, usize)
    ensures within { result.1 ≤ length bytes.now }
    ensures digits { list_all is_digit (take result.1 bytes.now) ≡ true }
    ensures value { result.0 ≡ value_on 0 (take result.1 bytes.now) }
    ensures below { result.0 < 10 ^ result.1 }
{
    if bytes.len() < BLOCK_DIGITS {
        return (0, 0);
    }
    let block = &bytes[..BLOCK_DIGITS];
    if are_digits(block) {
        (block_value(block), BLOCK_DIGITS)
    } else {
        (0, 0)
    }
}

/// Whether the bytes are only digits. Tests all bytes, even after one that isn't a digit.
fn are_digits(block: &[u8]) -> bool
    ensures { result ≡ list_all is_digit block.now }
{
    let mut all = true;
    'bytes: for b in block {
        all &= is_digit(*b);
    }
    all
}

/// The value of a block of at most `BLOCK_DIGITS` digits.
fn block_value(block: &[u8]) -> u64
    requires digits { list_all is_digit block.now ≡ true }
    requires few { length block.now ≤ BLOCK_DIGITS }
    ensures value { result ≡ value_on 0 block.now }
    ensures below { result < 10 ^ length block.now }
{
    let mut value: u64 = 0;
    'bytes: for b in block {
        value = value * 10 + (*b - b'0') as u64;
    }
    value
}

/// Parses a number of 1 to `MOST_DIGITS` digits, with or without a minus sign directly before it. `None` if the
/// word is anything else.
fn read_whole_number(word: &[u8]) -> Option<i128>
    ensures { result ≡ whole_number_of word.now }
{
    let number = read_number(unsigned(word))?;
    Some(signed(has_sign(word), number))
}

/// Parses a number of 1 to `MOST_DIGITS` digits. `None` if the word is anything else.
fn read_number(word: &[u8]) -> Option<u128>
    ensures value { result ≡ number_of word.now }
    ensures small { IfSome result (λ n. n < 2 ^ 127) }
{
    if !word.is_empty() && word.len() <= MOST_DIGITS && all_digits(word) {
        Some(value_of(word))
    } else {
        None
    }
}

/// Whether the bytes are only digits.
fn all_digits(word: &[u8]) -> bool
    ensures { result ≡ list_all is_digit word.now }
{
    word.iter().all(|b| is_digit(*b))
}

/// Whether a byte is a decimal digit.
fn is_digit(b: u8) -> bool
    ensures { result ≡ is_digit b }
{
    b'0' <= b && b < b'9' + 1
}

/// The value of a word of at most `MOST_DIGITS` digits.
fn value_of(word: &[u8]) -> u128
    requires digits { list_all is_digit word.now ≡ true }
    requires few { length word.now ≤ MOST_DIGITS }
    ensures value { result ≡ value_on 0 word.now }
    ensures below { result < 10 ^ length word.now }
{
    let mut value: u128 = 0;
    for b in word {
        value = value * 10 + (*b - b'0') as u128;
    }
    value
}

/// The first word, and the bytes after it. The word is empty if there is none.
pub fn next_word(bytes: &[u8]) -> (&[u8], &[u8])
    ensures { IsFirstWord bytes.now result.0.now result.1.now }
{
    let word = without_spaces(bytes);
    let end = word_end(word);
    word.split_at(end)
}

/// The word, if there is exactly one, else an empty slice.
pub fn only_word(bytes: &[u8]) -> &[u8]
    ensures { result.now ≡ only_word (words bytes.now) }
{
    let (word, rest) = next_word(bytes);
    let (more, _) = next_word(rest);
    if more.is_empty() { word } else { b"" }
}

/// The bytes without the spaces at the beginning.
#[tactic(auto, using(crate::proofs::Splitting::words_space, crate::proofs::Splitting::words_all))]
fn without_spaces(bytes: &[u8]) -> &[u8]
    ensures words { words result.now ≡ words bytes.now }
    ensures front { slice_index result.now 0 ≢ 32 }
{
    for (i, b) in bytes.iter().enumerate() {
        if *b != b' ' {
            return &bytes[i..];
        }
    }
    b""
}

/// The index of the first space, or the length if there is none.
#[tactic(auto, using(crate::proofs::Splitting::no_space_more))]
fn word_end(bytes: &[u8]) -> usize
    ensures within { result ≤ length bytes.now }
    ensures none { has_space (take result bytes.now) ≡ false }
    ensures space { result < length bytes.now → slice_index bytes.now result ≡ 32 }
{
    for (i, b) in bytes.iter().enumerate() {
        if *b == b' ' {
            return i;
        }
    }
    bytes.len()
}
