//! The texts of statistics, for monitoring. Each function appends to `text`, which must have room, and takes no
//! memory.
ghost use Rattle.std.specs.Prelude.{◌≡◌, ◌+◌, ◌≤◌, ◌++◌, length, codes, decimal};
ghost use Rattle.crack_commands.specs.Watching.{named_text, numbers_text, row_numbers, cell_numbers};
ghost use Rattle.crack_commands.specs.Watching.{traffic_text, client_numbers, time_numbers};
ghost use Rattle.crack_commands.specs.Texts.{line_text};

use crate::text::{LONGEST_TEXT, push, push_number};
use arrayvec::ArrayVec;
use crack_plain::Statistics;

/// The traffic of a server.
#[derive(Clone, Copy, PartialEq, Eq, Debug)]
pub struct Traffic {
    /// How many clients are connected.
    pub clients: u64,
    /// How many sessions have begun.
    pub sessions: u64,
    /// How many statements were answered a second, over the last minute.
    pub statements_per_second: u64,
    /// The longest time that the statements of one read took, over the last minute, in microseconds.
    pub longest_microseconds: u64,
    /// How many seconds ago the server started.
    pub uptime_seconds: u64,
}

/// Adds the line that says how many numbers follow, the lines of the statistics of a table or a partition, and
/// those of the server's traffic unless it is `None`.
pub fn push_numbers<const ROOM: usize>(
    text: &mut ArrayVec<u8, ROOM>,
    statistics: &Statistics,
    traffic: Option<Traffic>,
)
    requires { length text.old.items + LONGEST_TEXT ≤ ROOM }
    ensures { text.new.items ≡ text.old.items ++ numbers_text statistics.now traffic }
{
    match traffic {
        None => {
            push_count_of_numbers(text, 8);
            push_row_numbers(text, statistics);
            push_cell_numbers(text, statistics);
        }
        Some(traffic) => {
            push_count_of_numbers(text, 13);
            push_row_numbers(text, statistics);
            push_cell_numbers(text, statistics);
            push_traffic(text, &traffic);
        }
    }
}

/// Adds the line `stats N`, which says that `count` numbers follow.
fn push_count_of_numbers<const ROOM: usize>(text: &mut ArrayVec<u8, ROOM>, count: u64)
    requires room { length text.old.items + 60 ≤ ROOM }
    ensures value { text.new.items ≡ text.old.items ++ line_text (codes "stats ") (decimal count) }
    ensures few { length text.new.items ≤ length text.old.items + 60 }
{
    push(text, b"stats ");
    push_number(text, count);
    push(text, b"\n");
}

/// Adds the lines with the numbers of rows, pending insertions, pending deletions and pieces.
fn push_row_numbers<const ROOM: usize>(text: &mut ArrayVec<u8, ROOM>, statistics: &Statistics)
    requires room { length text.old.items + 240 ≤ ROOM }
    ensures value { text.new.items ≡ text.old.items ++ row_numbers statistics.now }
    ensures few { length text.new.items ≤ length text.old.items + 240 }
{
    push_named(text, b"rows ", statistics.rows);
    push_named(text, b"pending_insertions ", statistics.pending_insertions);
    push_named(text, b"pending_deletions ", statistics.pending_deletions);
    push_named(text, b"pieces ", statistics.pieces);
}

/// Adds the lines with the numbers of cells, free cells, commands accepted, and commands accepted since the last
/// checkpoint.
fn push_cell_numbers<const ROOM: usize>(text: &mut ArrayVec<u8, ROOM>, statistics: &Statistics)
    requires room { length text.old.items + 240 ≤ ROOM }
    ensures value { text.new.items ≡ text.old.items ++ cell_numbers statistics.now }
    ensures few { length text.new.items ≤ length text.old.items + 240 }
{
    push_named(text, b"cells ", statistics.cells);
    push_named(text, b"free_cells ", statistics.free_cells);
    push_named(text, b"commands_accepted ", statistics.commands_accepted);
    push_named(
        text,
        b"commands_since_checkpoint ",
        statistics.commands_since_checkpoint,
    );
}

/// Adds the five lines of a server's traffic.
fn push_traffic<const ROOM: usize>(text: &mut ArrayVec<u8, ROOM>, traffic: &Traffic)
    requires room { length text.old.items + 300 ≤ ROOM }
    ensures value { text.new.items ≡ text.old.items ++ traffic_text traffic.now }
{
    push_client_numbers(text, traffic);
    push_time_numbers(text, traffic);
}

/// Adds the lines with the numbers of connected clients and of sessions.
fn push_client_numbers<const ROOM: usize>(text: &mut ArrayVec<u8, ROOM>, traffic: &Traffic)
    requires room { length text.old.items + 120 ≤ ROOM }
    ensures value { text.new.items ≡ text.old.items ++ client_numbers traffic.now }
    ensures few { length text.new.items ≤ length text.old.items + 120 }
{
    push_named(text, b"clients ", traffic.clients);
    push_named(text, b"sessions ", traffic.sessions);
}

/// Adds the lines with the statements per second, the longest time in microseconds, and the seconds since the server's
/// start.
fn push_time_numbers<const ROOM: usize>(text: &mut ArrayVec<u8, ROOM>, traffic: &Traffic)
    requires room { length text.old.items + 180 ≤ ROOM }
    ensures value { text.new.items ≡ text.old.items ++ time_numbers traffic.now }
    ensures few { length text.new.items ≤ length text.old.items + 180 }
{
    push_named(
        text,
        b"statements_per_second ",
        traffic.statements_per_second,
    );
    push_named(text, b"longest_microseconds ", traffic.longest_microseconds);
    push_named(text, b"uptime_seconds ", traffic.uptime_seconds);
}

/// Adds the line of `name`, which ends with a space and has at most 30 bytes with it, and `number`.
fn push_named<const ROOM: usize>(text: &mut ArrayVec<u8, ROOM>, name: &[u8], number: u64)
    requires short { length name.now ≤ 30 }
    requires room { length text.old.items + 60 ≤ ROOM }
    ensures value { text.new.items ≡ text.old.items ++ named_text name.now number }
    ensures few { length text.new.items ≤ length text.old.items + 60 }
{
    push(text, name);
    push_number(text, number);
    push(text, b"\n");
}
