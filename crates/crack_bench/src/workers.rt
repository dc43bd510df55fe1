//! Measures workers on threads, the cost of a worker's call beyond its partition's, and the gathering:
//! `crack_bench workers own|shared WORKERS ROWS STEPS`, `crack_bench workers ask|bare ROWS STEPS`,
//! or `crack_bench workers gathered|folded|loaded WORKERS ROWS`.
//!
//! ROWS is the number of rows of each partition; each worker has two partitions. A step has four statements. The
//! table has an audit, so its workers keep receipts, unless `unaudited` follows `workers`; `bare`, which has no
//! table, isn't accepted after it.

mod bare;
mod measuring;
mod mix;
mod opening;

use crate::arguments::numbers_of;
use crate::report::{BenchHost, Outcome, explained};
use crate::workers::measuring::{MeasuredRun, RunEnd, Sharing, Work};

/// The run with this name and these numbers, or `None` if there is none.
fn run_of(name: &str, numbers: &[u32]) -> Option<MeasuredRun> {
    let (workers, rows, sharing, work) = match (name, numbers) {
        ("ask", [rows, steps]) => (1, *rows, Sharing::Own, Work::Alone { steps: *steps }),
        ("own", [workers, rows, steps]) => (
            *workers,
            *rows,
            Sharing::Own,
            Work::Threads { steps: *steps },
        ),
        ("shared", [workers, rows, steps]) => (
            *workers,
            *rows,
            Sharing::Shared,
            Work::Threads { steps: *steps },
        ),
        ("gathered" | "loaded", [workers, rows]) => (
            *workers,
            *rows,
            Sharing::Shared,
            Work::Nothing,
        ),
        ("folded", [workers, rows]) => (*workers, *rows, Sharing::Shared, Work::Checkpoint),
        _ => return None,
    };
    let end = match name {
        "ask" | "loaded" => RunEnd::Leave,
        _ => RunEnd::Gather,
    };
    Some(MeasuredRun {
        workers,
        sharing,
        rows,
        work,
        end,
    })
}

/// Carries out the measurement with this name and these numbers, over a table with an audit if `is_audited`. `None` if
/// there is no such measurement, or if it takes another count of numbers.
fn measured<R: BenchHost>(
    rt: &R,
    is_audited: bool,
    name: &str,
    numbers: &[u32],
) -> Option<Outcome> {
    match (is_audited, name, numbers) {
        (true, "bare", [rows, steps]) => Some(bare::run(rt, *rows, *steps)),
        _ => Some(opening::run(rt, is_audited, run_of(name, numbers)?)),
    }
}

/// Carries out the measurement with this name, over a table with an audit if `is_audited`; `words` are its numbers. An
/// error if there is no such measurement, or if it fails.
pub fn run<R: BenchHost>(
    rt: &R,
    is_audited: bool,
    name: &str,
    words: &[&str],
) -> anyhow::Result<()> {
    let numbers = numbers_of(rt.alloc(), words)?;
    let outcome = measured(rt, is_audited, name, numbers.as_slice());
    drop(numbers);
    explained(outcome)
}
