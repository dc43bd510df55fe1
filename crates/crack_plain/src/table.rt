//! A table that is a plain list of rows.
ghost use Rattle.std.specs.Prelude.{◌≡◌, ◌+◌, ◌<◌, ◌≤◌, ◌^◌, false, length, Err, IfOk, IfErr, IsOk, OnErr, OnOk};
ghost use Rattle.crack_row.specs.Layouts.{IsLayout};
ghost use Rattle.crack_row.specs.Replies.{IsFlat};
ghost use Rattle.crack_plain.specs.Plain.{PlainState, accepted_of, checkpointed_table, no_rows, answer, reply_to};
ghost use Rattle.crack_plain.specs.Plain.{changed, places_row, all_keys, whole_layout, IsNumbered, IsSmall};
ghost use Rattle.crack_plain.specs.Plain.{TakesNoMemory};
ghost use Rattle.crack_plain.specs.Watching.{plain_statistics};

use crate::MOST_ACCEPTED;
use crate::list::{count_in, replace, row_in, rows_in, sum_in, take_out};
use crate::statistics::Statistics;
use crack_row::{
    Bound, Change, Command, GREATEST_BOUND, Layout, PieceList, PieceSize, Refusal, Reply, Row,
    RowList, Serial,
};
use std::alloc::Global;
use std::marker::Model;

/// A slow table that is only a list of rows. Contracts see its plain state, how many commands it accepted before
/// its last checkpoint, and how many since.
#[derive(Drop)]
pub struct PlainTable {
    rows: Vec<Row>,
    next: u64,
    checkpointed: u64,
    since: u64,
}

impl Model for PlainTable {
    ghost use Rattle.std.specs.Prelude.{◌+◌, ◌≤◌, length};
    ghost use Rattle.crack_plain.specs.Plain.{PlainView, PlainState, IsNumbered};
    ghost use Rattle.crack_plain.specs.declared.TheConstants.{MOST_ACCEPTED};

    ghost Value = { PlainView };

    ghost view = { λ t. record {
      state = record { rows = t.rows.items; next = t.next };
      checkpointed = t.checkpointed;
      since = t.since;
    } };

    ghost invariant = { λ t. (let state : PlainState = record { rows = t.rows.items; next = t.next } in
        IsNumbered state) × (length t.rows.items ≤ t.checkpointed + t.since) × (t.next ≤ t.checkpointed + t.since) ×
        (t.checkpointed + t.since ≤ MOST_ACCEPTED) };
}

impl PlainTable {
    /// A table without rows. O(1), takes no memory.
    pub fn new(alloc: Global) -> PlainTable
        ensures state { result.state ≡ no_rows }
        ensures accepted { (result.checkpointed ≡ 0) × (result.since ≡ 0) }
    {
        PlainTable {
            rows: Vec::new(alloc),
            next: 0,
            checkpointed: 0,
            since: 0,
        }
    }

    /// The rows, by rising serial. O(1).
    pub fn rows(&self) -> &[Row]
        ensures value { result.now ≡ self.now.state.rows }
        ensures numbered { IsNumbered self.now.state }
        ensures bounded { length self.now.state.rows ≤ accepted_of self.now }
    {
        self.rows.as_slice()
    }

    /// The number of commands accepted since the table was made. Checkpoints don't reset it. O(1).
    pub fn accepted(&self) -> u64
        ensures value { result ≡ accepted_of self.now }
        ensures bounded { accepted_of self.now ≤ 4294967295 }
    {
        self.checkpointed + self.since
    }

    /// Makes a checkpoint: the number of commands accepted since the last checkpoint becomes 0. Returns that number
    /// as it was. Without an earlier checkpoint it counts from when the table was made. O(1). No row changes.
    pub fn checkpoint(&mut self) -> u64
        ensures since { result ≡ self.old.since }
        ensures checkpointed { self.new ≡ checkpointed_table self.old }
    {
        let since = self.since;
        self.checkpointed += since;
        self.since = 0;
        since
    }

    /// The layout of a column of one piece with the table's rows: each row has a cell, and none is pending. O(1).
    /// Refused with `OutOfMemory` if no memory is found.
    pub fn whole_layout(&self) -> Result<Layout, Refusal>
        ensures ok { IfOk result (λ layout. layout ≡ whole_layout self.now.state) }
        ensures equations { IfOk result (λ layout. IsLayout all_keys layout) }
        ensures err { IfErr result (λ e. e ≡ Refusal.OutOfMemory) }
    {
        let rows = self.rows.len() as u64;
        let mut pieces = Vec::new(*self.rows.allocator());
        pieces.push(PieceSize {
            low: Bound::from_number(0),
            high: Bound::from_number(GREATEST_BOUND),
            size: rows,
        })?;
        Ok(Layout {
            rows,
            column: rows,
            pending_out: 0,
            pending_in: 0,
            cells: rows,
            free: 0,
            pieces: PieceList::from_vec(pieces),
        })
    }

    /// The table's statistics, in which its rows are a column of one piece, each row has a cell, and nothing is
    /// pending or free. O(1).
    pub fn statistics(&self) -> Statistics
        ensures { result ≡ plain_statistics self.now }
    {
        let count = self.rows().len() as u64;
        Statistics {
            rows: count,
            pending_insertions: 0,
            pending_deletions: 0,
            pieces: 1,
            cells: count,
            free_cells: 0,
            commands_accepted: self.accepted(),
            commands_since_checkpoint: self.since,
        }
    }

    /// Answers one command: makes its change and returns its reply. An insert takes O(1), except for growth, and any
    /// other command O(rows). Refused with `HistoryFull` once `MOST_ACCEPTED` commands were accepted, and with
    /// `OutOfMemory` if an insert or a select finds no memory. A refusal changes nothing.
    pub fn apply(&mut self, command: &Command) -> Result<Reply, Refusal>
        ensures reply { IfOk result (λ reply. reply ≡ (answer self.old.state command.now).0) }
        ensures small { IfOk result IsSmall }
        ensures state { OnOk result (self.new.state ≡ (answer self.old.state command.now).1) }
        ensures accepted { OnOk result ((self.new.checkpointed ≡ self.old.checkpointed) × (self.new.since ≡
            self.old.since + 1)) }
        ensures err { OnErr result (self.new ≡ self.old) }
        ensures full { 4294967295 ≤ accepted_of self.old → result ≡ Err (Refusal.HistoryFull 4294967295) }
        ensures room { accepted_of self.old < 4294967295 → IfErr result (λ e. e ≡ Refusal.OutOfMemory) }
        ensures spare { TakesNoMemory self.old.state command.now → accepted_of self.old < 4294967295 → IsOk result }
    {
        if self.accepted() == MOST_ACCEPTED {
            return Err(Refusal::HistoryFull {
                length: MOST_ACCEPTED,
            });
        }
        let reply = self.reply_to(command)?;
        change_rows(&mut self.rows, &mut self.next, command.change())?;
        self.since += 1;
        Ok(reply)
    }

    /// The reply to the command, without making its change: O(rows). Refused with `OutOfMemory` if a select finds no
    /// memory.
    fn reply_to(&self, command: &Command) -> Result<Reply, Refusal>
        ensures reply { IfOk result (λ reply. reply ≡ reply_to self.now.state command.now) }
        ensures small { IfOk result IsSmall }
        ensures err { IfErr result (λ e. e ≡ Refusal.OutOfMemory) }
        ensures spare { IsFlat (reply_to self.now.state command.now) → IsOk result }
    {
        let rows = self.rows.as_slice();
        match *command {
            Command::Insert { .. } => Ok(Reply::Placed(Serial(self.next))),
            Command::Delete { serial } => Ok(match row_in(rows, serial) {
                Some(row) => Reply::Gone(row),
                None => Reply::NoRow,
            }),
            Command::Update { serial, .. } => Ok(match row_in(rows, serial) {
                Some(_) => Reply::Changed,
                None => Reply::NoRow,
            }),
            Command::Count(range) => Ok(Reply::Counted(count_in(rows, range))),
            Command::Sum(range) => Ok(Reply::Summed(sum_in(rows, range))),
            Command::Select(range) => {
                let listed = rows_in(*self.rows.allocator(), rows, range)?;
                Ok(Reply::Rows(RowList::from_vec(listed)))
            }
        }
    }
}

/// Makes the change to the rows; `None` changes nothing. An inserted row gets the serial `next`, which then rises by
/// one. Takes O(rows); an insertion takes O(1), except for growth. Refused with `OutOfMemory` if an insertion finds
/// no memory; then nothing has changed.
fn change_rows(rows: &mut Vec<Row>, next: &mut u64, change: Option<Change>) -> Result<(), Refusal>
    requires small { next.old + 1 < 2 ^ 64 }
    ensures changed { OnOk result (let old : PlainState = record { rows = rows.old.items; next = next.old } in
        let new : PlainState = record { rows = rows.new.items; next = next.new } in new ≡ changed old change) }
    ensures same { OnErr result ((rows.new.items ≡ rows.old.items) × (next.new ≡ next.old)) }
    ensures err { IfErr result (λ e. e ≡ Refusal.OutOfMemory) }
    ensures spare { places_row change ≡ false → IsOk result }
{
    match change {
        Some(Change::Place { key, payload }) => {
            let serial = Serial(*next);
            rows.push(Row {
                serial,
                key,
                payload,
            })?;
            *next += 1;
        }
        Some(Change::Remove { serial }) => take_out(rows, serial),
        Some(
            Change::Rewrite {
                serial,
                key,
                payload,
            },
        ) => replace(
            rows,
            Row {
                serial,
                key,
                payload,
            },
        ),
        None => {}
    }
    Ok(())
}
