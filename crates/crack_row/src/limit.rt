//! The limits of a partition.
ghost use Rattle.std.specs.Prelude.{◌≡◌, ◌↔◌, IsTrue};
ghost use Rattle.crack_row.specs.Limits.{AreLimits, are_limits, is_history_limit, is_limit, history_limit};
ghost use Rattle.crack_row.specs.Limits.{of_history};

use crate::{GREATEST_CELLS, GREATEST_LIFE, GREATEST_LIMIT, NO_LIMIT};

/// No history gets as long as `NO_LIMIT`: it has at most as many entries as the greatest life allows commands.
const _: () = prove!(GREATEST_LIFE < NO_LIMIT);

/// What a partition does once it reaches a limit.
#[derive(Clone, Copy, PartialEq, Eq, Debug)]
pub enum Upkeep {
    /// It refuses the command. Checkpoints are made only on request.
    OnRequest,
    /// It first makes a checkpoint if its history is full, and merges all pending rows if a cell is missing and
    /// deletions are pending; then it goes on with the command.
    Automatic,
}

/// The limits of a partition: how many entries its history may have (1 to `GREATEST_LIMIT`, or `NO_LIMIT`), how many
/// cells its rows may take (1 to `GREATEST_CELLS`), and how many commands it may accept in total (1 to
/// `GREATEST_LIFE`); and what it does once it reaches them.
#[derive(Clone, Copy, PartialEq, Eq, Debug)]
pub struct Limits {
    pub history: u64,
    pub cells: u64,
    pub life: u64,
    pub upkeep: Upkeep,
}

impl Limits {
    /// The limits with this history limit, which isn't checked, the greatest cell and life limits, and upkeep on
    /// request. O(1).
    pub fn of_history(history: u64) -> Limits
        ensures { result ≡ of_history history }
    {
        Limits {
            history,
            cells: GREATEST_CELLS,
            life: GREATEST_LIFE,
            upkeep: Upkeep::OnRequest,
        }
    }

    /// The limit of a history for the number that a user gave: `NO_LIMIT` if none was given. A number that is out of
    /// range becomes 0, which no opening accepts; so `NO_LIMIT` can't be given. O(1).
    pub fn history_limit(given: Option<u64>) -> u64
        ensures { result ≡ history_limit given }
    {
        match given {
            None => NO_LIMIT,
            Some(limit) if limit <= GREATEST_LIMIT => limit,
            Some(_) => 0,
        }
    }

    /// Whether each limit is at least 1 and at most the greatest of its kind, where the history may also have no
    /// limit. O(1).
    pub fn are_valid(self) -> bool
        ensures value { result ≡ are_limits self }
        ensures valid { IsTrue result ↔ AreLimits self }
    {
        is_history_limit(self.history)
            && is_limit(GREATEST_CELLS, self.cells)
            && is_limit(GREATEST_LIFE, self.life)
    }
}

/// Whether a history may have this limit, or has none.
fn is_history_limit(limit: u64) -> bool
    ensures { result ≡ is_history_limit limit }
{
    limit == NO_LIMIT || is_limit(GREATEST_LIMIT, limit)
}

/// Whether a limit is at least 1 and at most `greatest`.
fn is_limit(greatest: u64, limit: u64) -> bool
    ensures { result ≡ is_limit greatest limit }
{
    1 <= limit && limit <= greatest
}
