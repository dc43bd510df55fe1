//! Desks over a plain table, which may refuse, and over one partition. They check that their replies are consistent.
ghost use Rattle.std.specs.Prelude.{◌≡◌, IfOk};
ghost use Rattle.crack_plain.specs.Plain.{IsSmall};

use crate::plain_desk::PlainDesk;
use crack_commands::Traffic;
use crack_part::Partition;
use crack_plain::Statistics;
use crack_row::{Bound, Command, Layout, Policy, Refusal, Reply};
use crack_session::Desk;
use std::alloc::Global;

/// Whether a deleted row has the serial in the command.
fn is_own(command: &Command, reply: &Reply) -> bool {
    match reply {
        Reply::Gone(row) => {
            let serial = row.serial;
            *command == Command::Delete { serial }
        }
        _ => true,
    }
}

/// A plain table that refuses some commands by their numbers, and, if there are any, all checkpoints, layouts and
/// statistics.
#[derive(Drop)]
pub struct Refusing {
    pub table: PlainDesk,
    refusal: Refusal,
    asked: u64,
    first: u64,
    last: u64,
    /// Whether each command with a reply was accepted, checkpoints weren't counted as commands, and deleted rows had
    /// the serials in the commands.
    pub is_right: bool,
}

impl Refusing {
    /// An empty table that refuses the commands from number `first` to `last`, counted from 1. If `last` is 0, it
    /// refuses nothing.
    pub fn new(alloc: Global, refusal: Refusal, first: u64, last: u64) -> Refusing {
        Refusing {
            table: PlainDesk::new(alloc),
            refusal,
            asked: 0,
            first,
            last,
            is_right: true,
        }
    }
}

impl Desk for Refusing {
    ghost use Rattle.crack_plain.specs.Plain.{accepted_of};
    ghost use Rattle.std.specs.Prelude.{None, []};
    ghost use Rattle.crack_session_tests.specs.Plains.{plain_bounds};

    ghost tables = { λ d. None };

    ghost bounds = { λ d. plain_bounds };

    ghost splits = { λ d. [] };

    ghost accepted = { λ d. accepted_of d.table.table };

    ghost leads = { λ d call e. Unit {0} };

    fn ask(&mut self, part: u32, command: Command, policy: Policy) -> Result<Reply, Refusal> {
        self.asked = self.asked.saturating_add(1);
        if self.first <= self.asked && self.asked <= self.last {
            return Err(self.refusal);
        }
        let before = self.table.accepted();
        match self.table.ask(part, command, policy) {
            Ok(reply) => {
                let is_accepted = self.table.accepted() == before + 1;
                self.is_right = self.is_right && is_accepted && is_own(&command, &reply);
                Ok(reply)
            }
            Err(refusal) => Err(refusal),
        }
    }

    fn checkpoint(&mut self, part: u32) -> Result<u64, Refusal> {
        if self.last != 0 {
            return Err(self.refusal);
        }
        let before = self.table.accepted();
        let since = self.table.checkpoint(part);
        self.is_right = self.is_right && self.table.accepted() == before;
        since
    }

    fn layout(&self, part: u32) -> Result<Layout, Refusal> {
        if self.last != 0 {
            return Err(self.refusal);
        }
        self.table.layout(part)
    }

    fn statistics(&self, part: u32) -> Result<Statistics, Refusal> {
        if self.last != 0 {
            return Err(self.refusal);
        }
        self.table.statistics(part)
    }

    fn service(&self) -> Option<Traffic> {
        None
    }

    fn splits(&self) -> &[Bound] {
        &[]
    }

    fn accepted(&self) -> u64 {
        self.table.accepted()
    }
}

/// A partition. If a command finds no memory, it is executed once more.
#[derive(Drop)]
pub struct Asking {
    pub partition: Partition,
    /// How many commands were answered, and how many rows there are according to the replies.
    asked: u64,
    rows: u64,
    /// Whether each reply had two copies and was counted once, refusals changed neither the counts nor the number of
    /// rows, and deleted rows had the serials in the commands.
    pub is_right: bool,
}

/// The layout of a partition. If it finds no memory, it is requested once more.
fn look(partition: &Partition) -> Result<Layout, Refusal> {
    match partition.layout() {
        Ok(layout) => Ok(layout),
        Err(_) => partition.layout(),
    }
}

/// How many commands a partition accepted, and how many since its last checkpoint.
pub fn counts(partition: &Partition) -> [u64; 2] {
    [partition.accepted(), partition.since()]
}

/// Whether a partition with these counts before a command counted it once.
fn is_counted(partition: &Partition, before: [u64; 2]) -> bool {
    let [accepted, since] = before;
    counts(partition) == [accepted.saturating_add(1), since.saturating_add(1)]
}

impl Asking {
    /// A partition without rows.
    pub fn new(partition: Partition) -> Asking {
        Asking {
            partition,
            asked: 0,
            rows: 0,
            is_right: true,
        }
    }

    /// Whether the partition has these counts, and as many rows as according to the replies.
    fn is_as_before(&self, before: [u64; 2]) -> bool {
        match look(&self.partition) {
            Ok(layout) => layout.rows == self.rows && counts(&self.partition) == before,
            Err(_) => false,
        }
    }

    /// Executes a command, and checks the copies of the reply. It has a small contract, so that no test carries the
    /// contract of `apply_copied`.
    fn apply(&mut self, command: &Command, policy: Policy) -> Result<Reply, Refusal>
        ensures small { IfOk result IsSmall }
        ensures asked { self.new.asked ≡ self.old.asked }
    {
        match self.partition.apply_copied(*command, policy) {
            Ok(copies) => {
                let is_copied = copies.reply.is_same(&copies.receipt);
                self.is_right = self.is_right && is_copied && copies.reply.is_same(&copies.kept);
                Ok(copies.reply)
            }
            Err(refusal) => Err(refusal),
        }
    }

    /// Executes a command, before which the partition has these counts.
    fn reply(
        &mut self,
        before: [u64; 2],
        command: &Command,
        policy: Policy,
    ) -> Result<Reply, Refusal>
        ensures small { IfOk result IsSmall }
        ensures asked { self.new.asked ≡ self.old.asked }
    {
        match self.apply(command, policy) {
            Ok(reply) => Ok(reply),
            Err(refusal) => {
                self.is_right = self.is_right && self.is_as_before(before);
                if refusal == Refusal::OutOfMemory {
                    self.apply(command, policy)
                } else {
                    Err(refusal)
                }
            }
        }
    }

    /// Checks a reply to a command, before which the partition had these counts, and counts its row.
    fn note(&mut self, before: [u64; 2], command: &Command, reply: &Reply)
        ensures asked { self.new.asked ≡ self.old.asked }
    {
        let is_counted = is_counted(&self.partition, before);
        self.is_right = self.is_right && is_counted && is_own(command, reply);
        self.rows = match reply {
            Reply::Placed(_) => self.rows.wrapping_add(1),
            Reply::Gone(_) => self.rows.wrapping_sub(1),
            _ => self.rows,
        };
    }
}

impl Desk for Asking {
    ghost use Rattle.std.specs.Prelude.{None, []};
    ghost use Rattle.crack_session_tests.specs.Plains.{plain_bounds};

    ghost tables = { λ d. None };

    ghost bounds = { λ d. plain_bounds };

    ghost splits = { λ d. [] };

    ghost accepted = { λ d. d.asked };

    ghost leads = { λ d call e. Unit {0} };

    fn ask(&mut self, _part: u32, command: Command, policy: Policy) -> Result<Reply, Refusal> {
        let Some(asked) = self.asked.checked_add(1) else {
            return Err(Refusal::LifeOver);
        };
        let before = counts(&self.partition);
        match self.reply(before, &command, policy) {
            Ok(reply) => {
                self.note(before, &command, &reply);
                self.asked = asked;
                Ok(reply)
            }
            Err(refusal) => Err(refusal),
        }
    }

    fn checkpoint(&mut self, _part: u32) -> Result<u64, Refusal> {
        Ok(self.partition.checkpoint())
    }

    fn layout(&self, _part: u32) -> Result<Layout, Refusal> {
        look(&self.partition)
    }

    fn statistics(&self, _part: u32) -> Result<Statistics, Refusal> {
        Ok(self.partition.statistics())
    }

    fn service(&self) -> Option<Traffic> {
        None
    }

    fn splits(&self) -> &[Bound] {
        &[]
    }

    fn accepted(&self) -> u64 {
        self.asked
    }
}
