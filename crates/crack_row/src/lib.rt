//! The values that the crates of the cracked table share: numbers, ranges, commands, replies, refusals and layouts.
#![tactic(auto)]

pub mod command;
pub mod layout;
pub mod limit;
pub mod number;
pub mod range;
pub mod refusal;
pub mod rows;
pub mod watched;

pub use command::{Change, Command, Entry, Policy, Reply};
pub use layout::{Layout, PieceList, PieceSize};
pub use limit::{Limits, Upkeep};
pub use number::{BoundNumber, KeyNumber, PayloadNumber};
pub use range::KeyRange;
pub use refusal::Refusal;
pub use rows::RowList;
pub use watched::Watched;

/// The greatest key.
pub const GREATEST_KEY: KeyNumber = 18446744073709551615;

/// The greatest bound, one above the greatest key: the high end of the range of all keys.
pub const GREATEST_BOUND: BoundNumber = 18446744073709551616;

/// The least payload.
pub const LEAST_PAYLOAD: PayloadNumber = -9223372036854775808;

/// The greatest payload.
pub const GREATEST_PAYLOAD: PayloadNumber = 9223372036854775807;

/// The greatest limit on the number of entries in a partition's history.
pub const GREATEST_LIMIT: u64 = 1000000;

/// Stands in place of a limit on the number of entries in a partition's history that has none.
pub const NO_LIMIT: u64 = 18446744073709551615;

/// The greatest limit on the number of cells for a partition's rows.
pub const GREATEST_CELLS: u64 = 16777215;

/// The greatest limit on the number of commands that a partition accepts in total.
pub const GREATEST_LIFE: u64 = 1099511627776;

/// A row's key, by which ranges select rows: 0 to `GREATEST_KEY`.
#[derive(Clone, Copy, PartialEq, Eq, Debug)]
pub struct Key(KeyNumber);

/// The value of a row: a signed integer, `LEAST_PAYLOAD` to `GREATEST_PAYLOAD`.
#[derive(Clone, Copy, PartialEq, Eq, Debug)]
pub struct Payload(PayloadNumber);

/// Identifies a row within its partition: the number of insertions that the partition accepted before the row's
/// own. It is never reused.
#[derive(Clone, Copy, PartialEq, Eq, Debug)]
pub struct Serial(pub u64);

/// An end of a range. Keys with lesser numbers are below it, all others above it.
#[derive(Clone, Copy, PartialEq, Eq, PartialOrd, Ord, Debug)]
pub struct Bound(BoundNumber);

/// A bound between two keys: 1 to `GREATEST_KEY`. It is as wide as a key. A cracker index has only such bounds.
#[derive(Clone, Copy, PartialEq, Eq, Debug)]
pub struct InnerBound(KeyNumber);

/// A row's number: its partition, and its serial there.
#[derive(Clone, Copy, PartialEq, Eq, Debug)]
pub struct RowNo {
    pub part: u32,
    pub serial: Serial,
}

/// A row of a partition.
#[derive(Clone, Copy, PartialEq, Eq, Debug)]
pub struct Row {
    pub serial: Serial,
    pub key: Key,
    pub payload: Payload,
}
