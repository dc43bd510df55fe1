//! The commands that a partition answers, and its replies.
ghost use Rattle.std.specs.Prelude.{◌≡◌, ◌↔◌, IfOk, IfErr, IsOk, IsTrue};
ghost use Rattle.crack_row.specs.Commands.{change_of, range_of, key_of};
ghost use Rattle.crack_row.specs.Replies.{IsFlat};

use crate::{Key, KeyRange, Payload, Refusal, Row, RowList, Serial};
use std::alloc::Global;

/// A worker's command to a partition.
#[derive(Clone, Copy, PartialEq, Eq, Debug)]
pub enum Command {
    /// Inserts a row.
    Insert {
        key: Key,
        payload: Payload,
    },
    /// Deletes a row.
    Delete {
        serial: Serial,
    },
    /// Replaces the key and the payload of a row. The row keeps its serial.
    Update {
        serial: Serial,
        key: Key,
        payload: Payload,
    },
    /// Counts the rows whose key is in the range.
    Count(KeyRange),
    /// Adds up the payloads of the rows whose key is in the range.
    Sum(KeyRange),
    /// Lists the rows whose key is in the range.
    Select(KeyRange),
}

/// The change that a command makes to the rows.
#[derive(Clone, Copy, Debug)]
pub enum Change {
    /// Inserts a row, which gets the next serial.
    Place {
        key: Key,
        payload: Payload,
    },
    /// Deletes the row with this serial, if there is one.
    Remove {
        serial: Serial,
    },
    /// Replaces the key and the payload of the row with this serial, if there is one.
    Rewrite {
        serial: Serial,
        key: Key,
        payload: Payload,
    },
}

impl Command {
    /// The change that the command makes to the rows; `None` for a count, a sum or a select. O(1).
    pub fn change(&self) -> Option<Change>
        ensures { result ≡ change_of self.now }
    {
        match *self {
            Command::Insert { key, payload } => Some(Change::Place { key, payload }),
            Command::Delete { serial } => Some(Change::Remove { serial }),
            Command::Update {
                serial,
                key,
                payload,
            } => Some(Change::Rewrite {
                serial,
                key,
                payload,
            }),
            Command::Count(_) | Command::Sum(_) | Command::Select(_) => None,
        }
    }

    /// The range that the command reads; `None` for an insert, a delete or an update. O(1).
    pub fn range(&self) -> Option<KeyRange>
        ensures { result ≡ range_of self.now }
    {
        match *self {
            Command::Insert { .. } | Command::Delete { .. } | Command::Update { .. } => None,
            Command::Count(range) | Command::Sum(range) | Command::Select(range) => Some(range),
        }
    }

    /// The key that an insert or an update gives its row; `None` for any other command. O(1).
    pub fn key(&self) -> Option<Key>
        ensures { result ≡ key_of self.now }
    {
        match self.change() {
            Some(Change::Place { key, .. }) | Some(Change::Rewrite { key, .. }) => Some(key),
            Some(Change::Remove { .. }) | None => None,
        }
    }
}

/// Which pending rows a range command merges into the column ("Updating a Cracked Database", SIGMOD 2007).
#[derive(Clone, Copy, PartialEq, Eq, Debug)]
pub enum Policy {
    /// All of them, if at least one lies in the range.
    Complete,
    /// Only those whose key is in the range.
    Gradual,
    /// Only those whose key is in the range. Room for them is made near the range: a row that is in the way just
    /// above it is evicted, and becomes a pending insertion again.
    Ripple,
    /// As `Ripple`; but first all of them, wherever they lie, if 64 times the pending insertions are at least the
    /// column's rows times its pieces.
    Auto,
}

/// The reply to a command.
#[derive(Drop, Debug)]
pub enum Reply {
    /// The serial of the inserted row.
    Placed(Serial),
    /// The deleted row, as it was.
    Gone(Row),
    /// The row was updated.
    Changed,
    /// There is no row with this serial.
    NoRow,
    /// The number of rows in the range.
    Counted(u64),
    /// The sum of the payloads in the range.
    Summed(i128),
    /// The rows in the range, by rising serial.
    Rows(RowList),
}

impl Reply {
    /// Copies the reply, for example for a receipt: O(rows in its list). Refused with `OutOfMemory` if no memory is
    /// found; a reply without a list takes none.
    pub fn copy(&self, alloc: Global) -> Result<Reply, Refusal>
        ensures ok { IfOk result (λ r. r ≡ self.now) }
        ensures err { IfErr result (λ e. e ≡ Refusal.OutOfMemory) }
        ensures flat { IsFlat self.now → IsOk result }
    {
        match self {
            Reply::Placed(serial) => Ok(Reply::Placed(*serial)),
            Reply::Gone(row) => Ok(Reply::Gone(*row)),
            Reply::Changed => Ok(Reply::Changed),
            Reply::NoRow => Ok(Reply::NoRow),
            Reply::Counted(count) => Ok(Reply::Counted(*count)),
            Reply::Summed(sum) => Ok(Reply::Summed(*sum)),
            Reply::Rows(rows) => {
                let copied = rows.copy(alloc)?;
                Ok(Reply::Rows(copied))
            }
        }
    }

    /// Whether this reply and `other` are equal: O(rows in their lists).
    pub fn is_same(&self, other: &Reply) -> bool
        ensures { IsTrue result ↔ (self.now ≡ other.now) }
    {
        match (self, other) {
            (Reply::Placed(one), Reply::Placed(two)) => *one == *two,
            (Reply::Gone(one), Reply::Gone(two)) => *one == *two,
            (Reply::Changed, Reply::Changed) => true,
            (Reply::NoRow, Reply::NoRow) => true,
            (Reply::Counted(one), Reply::Counted(two)) => *one == *two,
            (Reply::Summed(one), Reply::Summed(two)) => *one == *two,
            (Reply::Rows(one), Reply::Rows(two)) => same_rows(one.as_slice(), two.as_slice()),
            _ => false,
        }
    }
}

/// Whether two lists of rows are equal: O(rows).
fn same_rows(one: &[Row], two: &[Row]) -> bool
    ensures { IsTrue result ↔ (one.now ≡ two.now) }
{
    one == two
}

/// An entry of a history: a worker's number, its command, and the reply.
#[derive(Drop, Debug)]
pub struct Entry {
    pub worker: u32,
    pub command: Command,
    pub reply: Reply,
}
