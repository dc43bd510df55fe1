//! Prints the histories of a table of three partitions. Its workers, each on its own thread, ask seeded random
//! commands, and are then gathered:
//! `crack_bench histories SEED WORKERS STATEMENTS POLICY LIMIT CELLS LIFE`.
//!
//! STATEMENTS is the number of each worker's statements, LIMIT that of each history's entries; CELLS and LIFE are
//! the other limits of each partition.
//!
//! The run writes for each worker, after `worker W`, its commands and checkpoints with their outcomes, and after
//! `receipts W` its receipts; then for each partition, after `partition P`, the entries of its history since it was
//! opened, or after `partition P folded N` if its last checkpoint was after N of them; and the totals. A command is
//! written as a session's statement, after the partition's number; in a receipt after the partition's number, the
//! position and the worker; in an entry after the worker. The lines of the reply follow. If the gathering is
//! refused, the run ends with the refusal, in place of the histories.

mod draws;
mod gate;
mod recorder;
mod runs;
mod texts;

use crate::arguments::{numbers_of, policy_of};
use crate::histories::runs::{Plan, carry_out};
use crate::report::{BenchHost, explained};
use crack_row::{Limits, Policy, Upkeep, Watched};
use std::io;
use std::io::BufWriter;

/// Carries out a plan, and writes the replies and the histories to standard output. An error if the run is refused.
fn run_planned<R: BenchHost>(rt: &R, plan: Plan) -> anyhow::Result<()> {
    let mut writer = Watched::new(BufWriter::new(rt.alloc(), io::writer(rt))?);
    carry_out(rt, plan, &mut writer)?;
    Ok(())
}

/// Prints the histories for a policy and six numbers: SEED, WORKERS, STATEMENTS, LIMIT, CELLS and LIFE. An error if
/// the words aren't six numbers, or if the run is refused.
fn run_numbered<R: BenchHost>(rt: &R, policy: Policy, words: &[&str]) -> anyhow::Result<()> {
    let numbers = numbers_of(rt.alloc(), words)?;
    let plan = match numbers.as_slice() {
        [seed, workers, statements, history, cells, life] => Some(Plan {
            seed: *seed,
            workers: *workers,
            statements: *statements,
            policy,
            limits: Limits {
                history: *history,
                cells: *cells,
                life: *life,
                upkeep: Upkeep::OnRequest,
            },
        }),
        _ => None,
    };
    drop(numbers);
    match plan {
        Some(plan) => run_planned(rt, plan),
        None => explained(None),
    }
}

/// Prints the histories for the seven arguments of `histories`. An error if there are more or fewer, if one isn't
/// valid, or if the run is refused.
pub fn run<R: BenchHost>(rt: &R, words: &[&str]) -> anyhow::Result<()> {
    let [seed, workers, statements, policy, limit, cells, life] = words else {
        return explained(None);
    };
    let numbers = [*seed, *workers, *statements, *limit, *cells, *life];
    match policy_of(policy) {
        Some(policy) => run_numbered(rt, policy, &numbers),
        None => explained(None),
    }
}
