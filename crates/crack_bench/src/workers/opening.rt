//! Opening the table of a run.
ghost use Rattle.crack_witness.specs.Witnesses.{AreNames};

use crate::report::{BenchHost, Outcome};
use crate::workers::measuring::{MeasuredRun, run_over};
use crate::workers::mix::splits;
use crack_row::{GREATEST_LIMIT, Limits};
use crack_table::UnnamedTable;
use crack_witness::Naming;
use std::marker::Brand;

/// Opens a table, with an audit if `is_audited`, and carries out the run.
pub fn run<R: BenchHost>(rt: &R, is_audited: bool, run: MeasuredRun) -> Outcome {
    let splits = splits(rt.alloc(), run.parts())?;
    let limits = Limits::of_history(GREATEST_LIMIT);
    let workers = u64::from(run.workers);
    let opened = UnnamedTable::open(rt.alloc(), splits.as_slice(), limits, workers, is_audited);
    drop(splits);
    match opened {
        Ok(table) => run_named::<Brand, R>(rt, table, run),
        Err(refusal) => Err(refusal.into()),
    }
}

/// Opens the table under the name `J`, which matters only to proofs, and carries out the run.
fn run_named<J: Naming + Send + Sync, R: BenchHost>(
    rt: &R,
    table: UnnamedTable,
    run: MeasuredRun,
) -> Outcome
    requires { AreNames J.book J.owner table.opened }
{
    match table.named::<J>(rt.alloc()) {
        Ok((table, workers)) => run_over(rt, table, workers, run),
        Err(refusal) => Err(refusal.into()),
    }
}
