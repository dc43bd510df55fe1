//! Trials at new tables. A table's book gets its name here.
ghost use Rattle.std.specs.Prelude.{◌≡◌, ℕ, Some, slice_get};
ghost use Rattle.crack_witness.specs.Histories.{AreEmpty};
ghost use Rattle.crack_witness.specs.Witnesses.{WorkerState, AreNames};

use crate::values::bounds;
use crack_row::{BoundNumber, Limits, Refusal};
use crack_table::{Table, UnnamedTable};
use crack_witness::{Naming, Worker};
use std::alloc::Global;
use std::marker::Brand;
use std::process::Abort;
use std::sync::Wait;

/// What a table is opened with.
#[derive(Clone, Copy)]
pub(crate) struct Opening {
    pub(crate) splits: &'static [BoundNumber],
    pub(crate) limits: Limits,
    pub(crate) workers: u64,
}

/// What a test does at a new table.
pub(crate) trait Trial {
    /// Carries out the trial. The workers are all of the table's, and have asked nothing yet.
    fn run<J: Naming, R: Wait + Abort>(
        self,
        rt: &R,
        alloc: Global,
        table: Table<J>,
        workers: Vec<Worker<J>>,
    )
        requires { (place : ℕ) (w : WorkerState) → slice_get workers.items place ≡ Some w → AreEmpty w.seen };
}

/// The first step of an opening. It has no contract, so that no test carries that of `open`.
pub(crate) fn opened(
    rt: &impl Abort,
    alloc: Global,
    opening: Opening,
    is_audited: bool,
) -> Result<UnnamedTable, Refusal> {
    let Opening {
        splits,
        limits,
        workers,
    } = opening;
    let splits = bounds(rt, alloc, splits);
    UnnamedTable::open(alloc, &splits, limits, workers, is_audited)
}

/// Carries out a trial at a table without an audit, and then at one with an audit.
pub(crate) fn run_both<T: Trial + Copy, R: Wait + Abort>(
    rt: &R,
    alloc: Global,
    opening: Opening,
    trial: T,
) {
    'audits: for is_audited in [false, true] {
        assert!(rt; run_at(rt, alloc, opening, is_audited, trial).is_ok());
    }
}

/// Carries out a trial at a table. Refused as the table's opening is.
pub(crate) fn run_at<T: Trial + Copy, R: Wait + Abort>(
    rt: &R,
    alloc: Global,
    opening: Opening,
    is_audited: bool,
    trial: T,
) -> Result<(), Refusal> {
    let table = opened(rt, alloc, opening, is_audited)?;
    run_named::<Brand, T, R>(rt, alloc, table, trial)
}

/// Names the table's book `J`, opens the table, and carries out a trial at it.
fn run_named<J: Naming, T: Trial + Copy, R: Wait + Abort>(
    rt: &R,
    alloc: Global,
    table: UnnamedTable,
    trial: T,
) -> Result<(), Refusal>
    requires { AreNames J.book J.owner table.opened }
{
    let (table, workers) = table.named::<J>(alloc)?;
    trial.run(rt, alloc, table, workers);
    Ok(())
}
