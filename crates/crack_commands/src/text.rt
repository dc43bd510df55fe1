//! Appending the texts of replies, layouts and refusals. Each function that adds to `text` needs room there, and takes
//! O(bytes added) and no memory.
ghost use Rattle.std.specs.Prelude.{◌≡◌, ◌+◌, ◌<◌, ◌≤◌, ◌++◌, length, decimal, codes};
ghost use Rattle.std.specs.List.{flat_map};
ghost use Rattle.std.specs.Fmt.{signed_decimal};
ghost use Rattle.crack_commands.specs.Texts.{line_text, row_text, piece_text, policy_text, refusal_text, field_text};
ghost use Rattle.crack_commands.specs.Texts.{bits_text, placed_text, gone_text, layout_head, two_fields};
ghost use Rattle.crack_commands.specs.Inside.{refused_text, has_bit, bit_text};

use arrayvec::ArrayVec;
use crack_row::{Bound, Key, Layout, Payload, PieceSize, Policy, Refusal, Row, Serial};

/// The space for a line of text, or a part of one. The longest is the line of a piece: a word, two bounds of up to
/// 40 digits, a size of 20, and four more bytes.
pub const TEXT_BYTES: usize = 112;

/// The space for any text without rows and pieces, even if a refusal names all workers or a layout has the greatest
/// numbers.
pub const LONGEST_TEXT: usize = 2048;

/// The space for the line of an inserted row, the most frequent one: a word, a partition number of 10 digits, a
/// serial of 20, and three more bytes.
const PLACED_BYTES: usize = 48;

/// Adds the line of a row that was inserted: `row P.S`, with the number of its partition and its serial.
#[inline(always)]
pub fn push_placed<const ROOM: usize>(text: &mut ArrayVec<u8, ROOM>, part: u32, serial: Serial)
    requires { length text.old.items + PLACED_BYTES ≤ ROOM }
    ensures { text.new.items ≡ text.old.items ++ placed_text part serial }
{
    push_part(text, part);
    push_number(text, serial.0);
    push(text, b"\n");
}

/// Adds the beginning of an inserted row's line, `row P.`, with the number `part`. If the number has one digit, all
/// bytes are added in one step.
#[inline(always)]
#[tactic(auto, using(std::proofs::lemmas::Fmt::decimal_digit))]
fn push_part<const ROOM: usize>(text: &mut ArrayVec<u8, ROOM>, part: u32)
    requires { length text.old.items + 25 ≤ ROOM }
    ensures begin { text.new.items ≡ text.old.items ++ codes "row " ++ decimal part ++ codes "." }
    ensures few { length text.new.items ≤ length text.old.items + 25 }
{
    if part < 10 {
        push(text, &[b'r', b'o', b'w', b' ', b'0' + part as u8, b'.']);
    } else {
        push(text, b"row ");
        push_number(text, part as u64);
        push(text, b".");
    }
}

/// Adds the line of a row that was deleted: `gone K V`, with its key and its payload.
pub fn push_gone<const ROOM: usize>(text: &mut ArrayVec<u8, ROOM>, row: &Row)
    requires { length text.old.items + TEXT_BYTES ≤ ROOM }
    ensures { text.new.items ≡ text.old.items ++ gone_text row.now }
{
    push(text, b"gone ");
    push_key(text, row.key);
    push(text, b" ");
    push_payload(text, row.payload);
    push(text, b"\n");
}

/// Adds the line of a count: `count N`.
pub fn push_count<const ROOM: usize>(text: &mut ArrayVec<u8, ROOM>, count: u64)
    requires { length text.old.items + TEXT_BYTES ≤ ROOM }
    ensures { text.new.items ≡ text.old.items ++ line_text (codes "count ") (decimal count) }
{
    push(text, b"count ");
    push_number(text, count);
    push(text, b"\n");
}

/// Adds the line of a sum: `sum N`.
pub fn push_sum<const ROOM: usize>(text: &mut ArrayVec<u8, ROOM>, sum: i128)
    requires { length text.old.items + TEXT_BYTES ≤ ROOM }
    ensures { text.new.items ≡ text.old.items ++ line_text (codes "sum ") (signed_decimal sum) }
{
    push(text, b"sum ");
    push_whole(text, sum);
    push(text, b"\n");
}

/// Adds the line of a checkpoint: `folded N`, with the number of commands accepted since the previous one.
pub fn push_checkpoint<const ROOM: usize>(text: &mut ArrayVec<u8, ROOM>, checkpointed: u64)
    requires { length text.old.items + TEXT_BYTES ≤ ROOM }
    ensures { text.new.items ≡ text.old.items ++ line_text (codes "folded ") (decimal checkpointed) }
{
    push(text, b"folded ");
    push_number(text, checkpointed);
    push(text, b"\n");
}

/// Adds the line before listed rows, with their number: `rows N`.
pub fn push_head<const ROOM: usize>(text: &mut ArrayVec<u8, ROOM>, total: u64)
    requires { length text.old.items + TEXT_BYTES ≤ ROOM }
    ensures { text.new.items ≡ text.old.items ++ line_text (codes "rows ") (decimal total) }
{
    push(text, b"rows ");
    push_number(text, total);
    push(text, b"\n");
}

/// Adds the line of a row of the partition `part`: `P.S K V`, with the partition's number, the serial, the key and the
/// payload.
pub fn push_row<const ROOM: usize>(text: &mut ArrayVec<u8, ROOM>, part: u32, row: &Row)
    requires { length text.old.items + TEXT_BYTES ≤ ROOM }
    ensures { text.new.items ≡ text.old.items ++ row_text part row.now }
{
    push_number(text, part as u64);
    push(text, b".");
    push_number(text, row.serial.0);
    push(text, b" ");
    push_key(text, row.key);
    push(text, b" ");
    push_payload(text, row.payload);
    push(text, b"\n");
}

/// Adds the name `first` and `number`, and then the name `second` and `other`. Each name has at most 10 bytes.
fn push_two_fields<const ROOM: usize>(
    text: &mut ArrayVec<u8, ROOM>,
    first: &[u8],
    number: u64,
    second: &[u8],
    other: u64,
)
    requires short { (length first.now ≤ 10) × (length second.now ≤ 10) }
    requires room { length text.old.items + 60 ≤ ROOM }
    ensures value { text.new.items ≡ text.old.items ++ two_fields first.now number second.now other }
    ensures few { length text.new.items ≤ length text.old.items + 60 }
{
    push(text, first);
    push_number(text, number);
    push(text, second);
    push_number(text, other);
}

/// Adds the first line of the layout of the partition `part`: its number, the sizes in `layout`, and the number of
/// pieces.
pub fn push_layout_head<const ROOM: usize>(
    text: &mut ArrayVec<u8, ROOM>,
    part: u32,
    layout: &Layout,
)
    requires { length text.old.items + LONGEST_TEXT ≤ ROOM }
    ensures { text.new.items ≡ text.old.items ++ layout_head part layout.now }
{
    push_two_fields(text, b"layout ", part as u64, b" rows ", layout.rows);
    push_two_fields(
        text,
        b" column ",
        layout.column,
        b" out ",
        layout.pending_out,
    );
    push_two_fields(text, b" in ", layout.pending_in, b" cells ", layout.cells);
    let pieces = layout.pieces.as_slice().len() as u64;
    push_two_fields(text, b" free ", layout.free, b" pieces ", pieces);
    push(text, b"\n");
}

/// Adds the line of a piece: `piece LOW HIGH SIZE`, with its two bounds and its number of rows.
pub fn push_piece<const ROOM: usize>(text: &mut ArrayVec<u8, ROOM>, piece: &PieceSize)
    requires { length text.old.items + TEXT_BYTES ≤ ROOM }
    ensures { text.new.items ≡ text.old.items ++ piece_text piece.now }
{
    push(text, b"piece ");
    push_bound(text, piece.low);
    push(text, b" ");
    push_bound(text, piece.high);
    push(text, b" ");
    push_number(text, piece.size);
    push(text, b"\n");
}

/// Adds the line of a refusal: `refused`, its code, and the numbers that it carries, each after a space.
pub fn push_refusal<const ROOM: usize>(text: &mut ArrayVec<u8, ROOM>, refusal: &Refusal)
    requires { length text.old.items + LONGEST_TEXT ≤ ROOM }
    ensures { text.new.items ≡ text.old.items ++ refusal_text refusal.now }
{
    let code = refusal.code();
    match refusal {
        Refusal::HistoryFull { length } => push_refused(text, code, &[*length]),
        Refusal::BadRecord { number } => push_refused(text, code, &[*number]),
        Refusal::WorkersMissing { missing } => push_missing(text, code, *missing),
        Refusal::StrangeReceipt { part, position } => {
            push_refused(text, code, &[*part as u64, *position])
        }
        _ => push_refused(text, code, &[]),
    }
}

/// Adds the line of a refusal: `refused`, this code, and the numbers in `numbers`, at most two, each after a space.
fn push_refused<const ROOM: usize>(text: &mut ArrayVec<u8, ROOM>, code: u32, numbers: &[u64])
    requires few { length numbers.now ≤ 2 }
    requires room { length text.old.items + LONGEST_TEXT ≤ ROOM }
    ensures { text.new.items ≡ text.old.items ++ refused_text code (flat_map field_text numbers.now) }
{
    push(text, b"refused ");
    push_number(text, code as u64);
    push_fields(text, numbers);
    push(text, b"\n");
}

/// Adds the line of a refusal with this code and the numbers of the missing workers, whose bits are set in `missing`.
fn push_missing<const ROOM: usize>(text: &mut ArrayVec<u8, ROOM>, code: u32, missing: u64)
    requires { length text.old.items + LONGEST_TEXT ≤ ROOM }
    ensures { text.new.items ≡ text.old.items ++ refused_text code (bits_text missing 64) }
{
    push(text, b"refused ");
    push_number(text, code as u64);
    push_bits(text, missing);
    push(text, b"\n");
}

/// Adds the numbers of the bits of `bits` that are set, from 0 up, each after a space.
fn push_bits<const ROOM: usize>(text: &mut ArrayVec<u8, ROOM>, bits: u64)
    requires { length text.old.items + 1344 ≤ ROOM }
    ensures value { text.new.items ≡ text.old.items ++ bits_text bits 64 }
    ensures few { length text.new.items ≤ length text.old.items + 1344 }
{
    'numbers: for number in 0..64u32 {
        push_bit(text, bits, number);
    }
}

/// Adds a space and this number, if the bit of `bits` with this number is set.
fn push_bit<const ROOM: usize>(text: &mut ArrayVec<u8, ROOM>, bits: u64, number: u32)
    requires known { number < 64 }
    requires room { length text.old.items + 21 ≤ ROOM }
    ensures value { text.new.items ≡ text.old.items ++ bit_text bits number }
    ensures few { length text.new.items ≤ length text.old.items + 21 }
{
    if has_bit(bits, number) {
        push_field(text, number as u64);
    }
}

/// Whether the bit of `bits` with this number, from 0, is set.
#[tactic(auto, using(std::proofs::lemmas::Nat::Bits::shr_and_one))]
fn has_bit(bits: u64, number: u32) -> bool
    requires { number < 64 }
    ensures { result ≡ has_bit bits number }
{
    (bits >> number) & 1 == 1
}

/// The answer to a statement `policy` that sets this policy, without its line feed.
pub fn policy_line(policy: Policy) -> &'static [u8]
    ensures { result.now ++ codes "\n" ≡ policy_text policy }
{
    match policy {
        Policy::Complete => b"policy complete",
        Policy::Gradual => b"policy gradual",
        Policy::Ripple => b"policy ripple",
        Policy::Auto => b"policy auto",
    }
}

/// Adds at most two numbers, each after a space.
fn push_fields<const ROOM: usize>(text: &mut ArrayVec<u8, ROOM>, numbers: &[u64])
    requires few { length numbers.now ≤ 2 }
    requires room { length text.old.items + 42 ≤ ROOM }
    ensures value { text.new.items ≡ text.old.items ++ flat_map field_text numbers.now }
    ensures within { length text.new.items ≤ length text.old.items + 42 }
{
    'numbers: for number in numbers {
        push_field(text, *number);
    }
}

/// Adds a space and a number in decimal.
fn push_field<const ROOM: usize>(text: &mut ArrayVec<u8, ROOM>, number: u64)
    requires { length text.old.items + 21 ≤ ROOM }
    ensures digits { text.new.items ≡ text.old.items ++ field_text number }
    ensures few { length text.new.items ≤ length text.old.items + 21 }
{
    push(text, b" ");
    push_number(text, number);
}

/// Adds a key in decimal: at most 20 digits.
#[inline(always)]
fn push_key<const ROOM: usize>(text: &mut ArrayVec<u8, ROOM>, key: Key)
    requires { length text.old.items + 20 ≤ ROOM }
    ensures digits { text.new.items ≡ text.old.items ++ decimal key.0 }
    ensures few { length text.new.items ≤ length text.old.items + 20 }
{
    push_number(text, key.number());
}

/// Adds a payload in decimal: at most 19 digits and a minus sign.
#[inline(always)]
fn push_payload<const ROOM: usize>(text: &mut ArrayVec<u8, ROOM>, payload: Payload)
    requires { length text.old.items + 20 ≤ ROOM }
    ensures digits { text.new.items ≡ text.old.items ++ signed_decimal payload.0 }
    ensures few { length text.new.items ≤ length text.old.items + 20 }
{
    let mut digits = itoa::Buffer::new();
    push(text, digits.format(payload.number()).as_bytes());
}

/// Adds a bound of a range in decimal: at most 40 digits. A bound that fits 64 bits is formatted as such.
fn push_bound<const ROOM: usize>(text: &mut ArrayVec<u8, ROOM>, bound: Bound)
    requires { length text.old.items + 40 ≤ ROOM }
    ensures digits { text.new.items ≡ text.old.items ++ decimal bound.0 }
    ensures few { length text.new.items ≤ length text.old.items + 40 }
{
    match u64::try_from(bound.number()) {
        Ok(number) => push_number(text, number),
        Err(_) => push_wide_number(text, bound.number()),
    }
}

/// Adds an integer in decimal, with a minus sign if it is negative: at most 40 bytes.
#[inline(always)]
fn push_whole<const ROOM: usize>(text: &mut ArrayVec<u8, ROOM>, number: i128)
    requires { length text.old.items + 40 ≤ ROOM }
    ensures digits { text.new.items ≡ text.old.items ++ signed_decimal number }
    ensures few { length text.new.items ≤ length text.old.items + 40 }
{
    match u64::try_from(number) {
        Ok(small) => push_number(text, small),
        Err(_) => {
            let mut digits = itoa::Buffer::new();
            push(text, digits.format(number).as_bytes());
        }
    }
}

/// Adds a number in decimal: at most 20 digits.
#[inline(always)]
#[tactic(auto, using(std::proofs::lemmas::Fmt::decimal_digit))]
pub(crate) fn push_number<const ROOM: usize>(text: &mut ArrayVec<u8, ROOM>, number: u64)
    requires { length text.old.items + 20 ≤ ROOM }
    ensures digits { text.new.items ≡ text.old.items ++ decimal number }
    ensures few { length text.new.items ≤ length text.old.items + 20 }
{
    if number < 10 {
        push(text, &[b'0' + number as u8]);
    } else {
        let mut digits = itoa::Buffer::new();
        push(text, digits.format(number).as_bytes());
    }
}

/// Adds a number of up to 128 bits in decimal: at most 40 digits.
fn push_wide_number<const ROOM: usize>(text: &mut ArrayVec<u8, ROOM>, number: u128)
    requires { length text.old.items + 40 ≤ ROOM }
    ensures digits { text.new.items ≡ text.old.items ++ decimal number }
    ensures few { length text.new.items ≤ length text.old.items + 40 }
{
    let mut digits = itoa::Buffer::new();
    push(text, digits.format(number).as_bytes());
}

/// Adds `bytes`, for which there must be room.
pub fn push<const ROOM: usize>(text: &mut ArrayVec<u8, ROOM>, bytes: &[u8])
    requires { length text.old.items + length bytes.now ≤ ROOM }
    ensures { text.new.items ≡ text.old.items ++ bytes.now }
{
    let _room = text.try_extend_from_slice(bytes);
}
