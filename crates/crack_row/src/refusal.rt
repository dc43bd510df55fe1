//! Why a call was refused.
ghost use Rattle.std.specs.Prelude.{◌≡◌};
ghost use Rattle.crack_row.specs.Refusals.{code_of};

use std::alloc::{AllocError, AllocFailed};
use std::fmt;
use thiserror::Error;

/// Why a call was refused, with the numbers for that cause. Its text is the reply line without the line feed.
#[derive(Clone, Copy, PartialEq, Eq, Debug, Drop, Error)]
pub enum Refusal {
    /// The line isn't a statement.
    #[error("refused 1")]
    BadStatement,
    /// The ends of a range are out of order, or the high end is above `GREATEST_BOUND`.
    #[error("refused 2")]
    BadRange,
    /// The key of an insert or an update lies outside the partition.
    #[error("refused 4")]
    KeyOutside,
    /// There is no partition with this number.
    #[error("refused 5")]
    NoSuchPartition,
    /// The history has `length` entries, as many as its limit.
    #[error("refused 6 {length}")]
    HistoryFull { length: u64 },
    /// The gate, code of a program that is asked before each command of a worker, refused this command each time.
    #[error("refused 7")]
    GateGaveUp,
    /// An allocation was refused, or a thread couldn't be started.
    #[error("refused 8")]
    OutOfMemory,
    /// No cell is free for a row, and the number of cells has reached its limit.
    #[error("refused 9")]
    NoCell,
    /// The number of commands that were accepted in total has reached its limit.
    #[error("refused 10")]
    LifeOver,
    /// The splits aren't in strictly rising order, or one isn't between 1 and `GREATEST_KEY`.
    #[error("refused 11")]
    BadSplits,
    /// There are more splits than a table may have.
    #[error("refused 12")]
    TooManyPartitions,
    /// The number of workers isn't between 1 and the greatest that a table may have.
    #[error("refused 13")]
    BadWorkerCount,
    /// A limit isn't between 1 and the greatest of its kind.
    #[error("refused 14")]
    BadLimit,
    /// Workers of the table are missing from a gathering: `missing` has a bit for each missing number.
    #[error("refused 15{}", BitNumbers(*missing))]
    WorkersMissing { missing: u64 },
    /// One of three cases. Receipts don't cover a partition's entries: `position` is that of an entry, or one that a
    /// receipt names. A worker's number of replies from a partition isn't the number of its entries in the
    /// partition's history: `position` is that number of replies. A partition or a worker isn't the table's:
    /// `position` is the worker's number of replies from the partition, or 0.
    #[error("refused 16 {part} {position}")]
    StrangeReceipt { part: u32, position: u64 },
    /// The reader failed or exceeded its stated bound, or the port isn't available.
    #[error("refused 17")]
    ReadFault,
    /// The writer failed.
    #[error("refused 18")]
    WriteFault,
    /// A CSV record doesn't have exactly two fields, or one of them isn't a number in range. `number` counts
    /// records from 1, including a header.
    #[error("refused 19 {number}")]
    BadRecord { number: u64 },
}

/// Displays the numbers of the set bits in rising order, each after a space.
#[derive(Clone, Copy)]
struct BitNumbers(u64);

impl fmt::Display for BitNumbers {
    /// For each set bit, from the lowest on, writes a space and the number of the bit, counted from 0. Fails if the
    /// writer fails.
    fn fmt<W: fmt::Write>(&self, f: &mut fmt::Formatter<W>) -> fmt::Result {
        for number in 0..64u32 {
            if (self.0 >> number) & 1 == 1 {
                write!(f, " {number}")?;
            }
        }
        Ok(())
    }
}

impl Refusal {
    /// The refusal's number: the one that comes first in its text. O(1).
    pub fn code(&self) -> u32
        ensures { result ≡ code_of self.now }
    {
        match self {
            Refusal::BadStatement => 1,
            Refusal::BadRange => 2,
            Refusal::KeyOutside => 4,
            Refusal::NoSuchPartition => 5,
            Refusal::HistoryFull { length: _ } => 6,
            Refusal::GateGaveUp => 7,
            Refusal::OutOfMemory => 8,
            Refusal::NoCell => 9,
            Refusal::LifeOver => 10,
            Refusal::BadSplits => 11,
            Refusal::TooManyPartitions => 12,
            Refusal::BadWorkerCount => 13,
            Refusal::BadLimit => 14,
            Refusal::WorkersMissing { missing: _ } => 15,
            Refusal::StrangeReceipt {
                part: _,
                position: _,
            } => 16,
            Refusal::ReadFault => 17,
            Refusal::WriteFault => 18,
            Refusal::BadRecord { number: _ } => 19,
        }
    }
}

impl Refusal {
    /// The cause in words for a terminal or a log: one clause without a full stop or a line feed. O(1).
    pub fn cause(&self) -> &'static str {
        match self {
            Refusal::BadStatement => "the line is not a statement",
            Refusal::BadRange => "the ends of the range are out of order, or too high",
            Refusal::KeyOutside => "the key belongs to another partition",
            Refusal::NoSuchPartition => "there is no such partition",
            Refusal::HistoryFull { .. } => "the history is full and needs a checkpoint",
            Refusal::GateGaveUp => "the gate refused every time",
            Refusal::OutOfMemory => "out of memory, or a thread could not be started",
            Refusal::NoCell => "no cell is free for the row",
            Refusal::LifeOver => "the partition has accepted as many commands as it may",
            Refusal::BadSplits => "the splits are not in rising order, or one is not a key above 0",
            Refusal::TooManyPartitions => "there are too many splits",
            Refusal::BadWorkerCount => "the number of workers is out of range",
            Refusal::BadLimit => "a limit is out of range",
            Refusal::WorkersMissing { .. } => "workers are missing",
            Refusal::StrangeReceipt { .. } => "receipts and histories disagree",
            Refusal::ReadFault => "reading failed, or the port is not available",
            Refusal::WriteFault => "writing failed",
            Refusal::BadRecord { .. } => "the record is not a key and a payload",
        }
    }
}

impl From<AllocError> for Refusal {
    ghost use Rattle.crack_row.specs.declared.refusal.Refusal.TheVariants.{OutOfMemory};

    ghost from_gives = { λ _ e. e ≡ OutOfMemory };

    /// Always `OutOfMemory`.
    fn from(_error: AllocError) -> Refusal {
        Refusal::OutOfMemory
    }
}

impl<T: Drop> From<AllocFailed<T>> for Refusal {
    ghost use Rattle.crack_row.specs.declared.refusal.Refusal.TheVariants.{OutOfMemory};

    ghost from_gives = { λ _ e. e ≡ OutOfMemory };

    /// Always `OutOfMemory`. The value that wasn't stored is dropped.
    fn from(_error: AllocFailed<T>) -> Refusal {
        Refusal::OutOfMemory
    }
}
