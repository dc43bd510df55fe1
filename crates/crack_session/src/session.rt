//! How a session ended, and its counts.

use crack_row::{Policy, Refusal};

/// How a session ended.
#[derive(Clone, Copy, PartialEq, Eq, Debug)]
pub enum How {
    /// A line ended it: the statement `quit`, or a line of an HTTP request.
    Quit,
    /// The input ended.
    InputEnded,
}

/// The result of a session that ended normally.
///
/// An example, from a test:
///
/// ```
/// let mut reader = Watched::new(input);
/// let mut writer = Watched::new(Vec::new(alloc));
/// let mut desk = WorkerDesk::new(rt, &table, &OpenGate, worker);
/// let ended = serve(alloc, &mut desk, Policy::Complete, &mut reader, &mut writer);
/// ```
#[derive(Clone, Copy, PartialEq, Eq, Debug)]
pub struct SessionEnd {
    pub how: How,
    /// How many statements were answered.
    pub statements: u64,
    /// The number, from 1, of the first statement that was refused with `HistoryFull`, `OutOfMemory`, `NoCell` or
    /// `LifeOver`; `None` if none was.
    pub first_short: Option<u64>,
}

/// The result of a session that a fault cut off.
#[derive(Clone, Copy, PartialEq, Eq, Debug)]
pub struct Fault {
    /// `ReadFault` or `WriteFault`.
    pub refusal: Refusal,
    /// How many statements were answered: the desk has executed what they require, whether or not their texts were
    /// written.
    pub done: u64,
    /// The number, from 1, of the first statement that was refused with `HistoryFull`, `OutOfMemory`, `NoCell` or
    /// `LifeOver`; `None` if none was.
    pub first_short: Option<u64>,
}

/// The counts of a session, as in `SessionEnd`, and its current policy.
#[derive(Clone, Copy)]
pub(crate) struct SessionProgress {
    pub(crate) statements: u64,
    pub(crate) first_short: Option<u64>,
    pub(crate) policy: Policy,
}
