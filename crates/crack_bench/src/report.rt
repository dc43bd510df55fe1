//! The handles of a measurement, its times, and why it ended early.

use crack_row::Refusal;
use std::alloc::Global;
use std::io;
use std::rt::Clock;
use std::sync::Wait;
use std::thread::Threads;
use std::time::Instant;

/// The handles that write results and times.
pub trait BenchOutput: Alloc<A = Global> + Print + Eprint + Clock {}

impl<R: Alloc<A = Global> + Print + Eprint + Clock> BenchOutput for R {}

/// The handles of `BenchOutput`, and those that start threads and wait for them.
pub trait BenchHost: BenchOutput + Threads + Wait + Sync {}

impl<R: BenchOutput + Threads + Wait + Sync> BenchHost for R {}

/// Why a measurement ended early.
#[derive(Drop)]
pub enum Failure {
    Refused(Refusal),
    /// A write failed, or the clock couldn't be read.
    Unwritten(io::Error),
}

/// How a measurement ended.
pub type Outcome = Result<(), Failure>;

impl From<Refusal> for Failure {
    /// Always `Failure::Refused`.
    fn from(refusal: Refusal) -> Failure {
        Failure::Refused(refusal)
    }
}

impl From<io::Error> for Failure {
    /// Always `Failure::Unwritten`.
    fn from(error: io::Error) -> Failure {
        Failure::Unwritten(error)
    }
}

/// Writes to standard error the name of a part of a measurement, and how many nanoseconds it took since `since`.
/// Returns the time at which the next part begins. An error if the clock can't be read or the write fails.
pub fn report<R: BenchOutput>(rt: &R, name: &str, since: Instant) -> io::Result<Instant> {
    let nanoseconds = since.elapsed(rt)?.as_nanos();
    eprintln!(rt; "{name} {nanoseconds}")?;
    Instant::now(rt)
}

/// Turns a measurement's outcome into the program's: a failure becomes an error. `None` means that the arguments name
/// no measurement, and becomes an error that lists the names.
pub fn explained(outcome: Option<Outcome>) -> anyhow::Result<()> {
    match outcome {
        Some(Ok(())) => Ok(()),
        Some(Err(Failure::Refused(refusal))) => Err(refusal.into()),
        Some(Err(Failure::Unwritten(error))) => Err(error.into()),
        None => Err(anyhow::anyhow!(
            "arena, column, counts, sums, each, rising, narrow, cold, pass, updates, ageing, climb, merge, pulls, \
            fold, workers, histories or all, with their words"
        )),
    }
}
