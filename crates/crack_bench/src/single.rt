//! Measurements on one thread, of the arena, of the cracker column, and of a partition that merges by a policy:
//! `crack_bench arena STEPS ROWS`, `crack_bench column ROWS`,
//! `crack_bench counts|sums|each|rising|narrow|cold|pass POLICY ROWS RANGES`,
//! `crack_bench updates|ageing|climb POLICY ROWS BATCHES SIZE`,
//! `crack_bench merge POLICY ROWS PIECES PENDING`, `crack_bench pulls POLICY ROWS PIECES DELETES`,
//! or `crack_bench fold POLICY ROWS CHANGES`.
//!
//! `cold`, `updates`, `ageing`, `merge` and `pulls` also write the counts of the merges to standard error.

mod arena;
mod column;
mod numbers;
mod partition;
mod steps;

use crate::arguments::numbers_of;
use crate::report::{BenchOutput, Outcome, explained};
use crate::single::partition::Sizes;
use crate::single::steps::kind_of;
use crack_row::Policy;

/// Carries out the measurement of a partition with this name, with this many rows and with these further numbers.
/// `None` if there is no such measurement, or if it takes another count of numbers.
fn measured_partition<R: BenchOutput>(
    rt: &R,
    name: &str,
    policy: Policy,
    rows: u32,
    numbers: &[u32],
) -> Option<Outcome> {
    let kind = kind_of(name)?;
    if kind.numbers != numbers.len() {
        return None;
    }
    let sizes = Sizes {
        rows,
        first: numbers.first().copied().unwrap_or(0),
        second: numbers.get(1).copied().unwrap_or(0),
    };
    Some(steps::measure(rt, kind, policy, sizes))
}

/// Carries out the measurement with this name, policy and numbers. `None` if there is no such measurement, or if it
/// takes other arguments.
fn measured<R: BenchOutput>(
    rt: &R,
    name: &str,
    policy: Option<Policy>,
    numbers: &[u32],
) -> Option<Outcome> {
    match (name, policy, numbers) {
        (_, Some(policy), [rows, rest @ ..]) => measured_partition(rt, name, policy, *rows, rest),
        ("arena", None, [steps, rows]) => Some(arena::measure(rt, u64::from(*steps), *rows)),
        ("column", None, [rows]) => Some(column::measure(rt, *rows)),
        _ => None,
    }
}

/// Carries out the measurement with this name and policy; `words` are its numbers. An error if there is no such
/// measurement, or if it fails.
pub fn run<R: BenchOutput>(
    rt: &R,
    name: &str,
    policy: Option<Policy>,
    words: &[&str],
) -> anyhow::Result<()> {
    let numbers = numbers_of(rt.alloc(), words)?;
    let outcome = measured(rt, name, policy, numbers.as_slice());
    drop(numbers);
    explained(outcome)
}
