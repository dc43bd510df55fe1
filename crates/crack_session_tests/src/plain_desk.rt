//! A plain table as a desk, beside which sessions over other desks are tested.

use crack_commands::Traffic;
use crack_plain::{PlainTable, Statistics};
use crack_row::{Bound, Command, Layout, Policy, Refusal, Reply};
use crack_session::Desk;
use std::alloc::Global;

/// A plain table as a desk. It has one partition, 0.
#[derive(Drop)]
pub struct PlainDesk {
    pub table: PlainTable,
}

impl PlainDesk {
    /// A desk over a plain table without rows.
    pub fn new(alloc: Global) -> PlainDesk {
        PlainDesk {
            table: PlainTable::new(alloc),
        }
    }
}

impl Desk for PlainDesk {
    ghost use Rattle.std.specs.Prelude.{None, []};
    ghost use Rattle.crack_plain.specs.Plain.{accepted_of};
    ghost use Rattle.crack_session_tests.specs.Plains.{plain_bounds};

    ghost tables = { λ d. None };

    ghost bounds = { λ d. plain_bounds };

    ghost splits = { λ d. [] };

    ghost accepted = { λ d. accepted_of d.table };

    ghost leads = { λ d call e. Unit {0} };

    fn ask(&mut self, part: u32, command: Command, _policy: Policy) -> Result<Reply, Refusal> {
        if part != 0 {
            return Err(Refusal::NoSuchPartition);
        }
        // A count is at most the number of rows, which is at most the number of accepted commands.
        let _rows = self.table.rows();
        let _accepted = self.table.accepted();
        self.table.apply(&command)
    }

    fn checkpoint(&mut self, part: u32) -> Result<u64, Refusal> {
        match part {
            0 => Ok(self.table.checkpoint()),
            _ => Err(Refusal::NoSuchPartition),
        }
    }

    fn layout(&self, part: u32) -> Result<Layout, Refusal> {
        match part {
            0 => self.table.whole_layout(),
            _ => Err(Refusal::NoSuchPartition),
        }
    }

    fn statistics(&self, part: u32) -> Result<Statistics, Refusal> {
        match part {
            0 => Ok(self.table.statistics()),
            _ => Err(Refusal::NoSuchPartition),
        }
    }

    fn service(&self) -> Option<Traffic> {
        None
    }

    fn splits(&self) -> &[Bound] {
        &[]
    }

    fn accepted(&self) -> u64 {
        self.table.accepted()
    }
}
