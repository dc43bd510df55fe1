//! Measures the table, layer by layer, and prints histories of its workers:
//!
//! - `crack_bench arena|column ..`: one layer on one thread;
//! - `crack_bench counts|sums|each|rising|narrow|cold|pass|updates|ageing|climb|merge|pulls|fold ..`: a partition;
//! - `crack_bench workers ..`: workers on threads;
//! - `crack_bench histories ..`: what workers on threads asked, and the answers;
//! - `crack_bench all`: small runs of these.
//!
//! Each module's comment says which arguments follow. The results of a measurement depend only on the arguments, and
//! go to standard output. Times go to standard error, in nanoseconds, one line `NAME NUMBER` each.
#![tactic(auto)]

mod arguments;
mod histories;
mod report;
mod single;
mod table_workers;
mod workers;

use arguments::policy_of;
use report::{BenchHost, explained};
use std::env;

/// The arguments of small runs whose results are always the same.
const ALL: &[&[&str]] = &[
    &["arena", "2000", "100"],
    &["column", "100"],
    &["counts", "complete", "100", "20"],
    &["sums", "gradual", "100", "20"],
    &["each", "gradual", "100", "20"],
    &["fold", "gradual", "100", "20"],
    &["rising", "auto", "100", "20"],
    &["narrow", "auto", "100", "20"],
    &["ageing", "auto", "100", "30", "2"],
    &["workers", "own", "2", "50", "20"],
    &["workers", "shared", "2", "50", "20"],
    &["workers", "gathered", "2", "50"],
    &["workers", "folded", "2", "50"],
    &["workers", "ask", "50", "20"],
    &["workers", "unaudited", "own", "2", "50", "20"],
    &["workers", "unaudited", "shared", "2", "50", "20"],
    &["workers", "unaudited", "gathered", "2", "50"],
    &["workers", "unaudited", "folded", "2", "50"],
    &["workers", "unaudited", "ask", "50", "20"],
    &["workers", "bare", "50", "20"],
    &[
        "histories",
        "107",
        "1",
        "24",
        "ripple",
        "7",
        "1048576",
        "1099511627776",
    ],
];

/// Runs the measurement that the arguments name, or prints histories. An error if the arguments name nothing, or if
/// the run fails.
fn run<R: BenchHost>(rt: &R, words: &[&str]) -> anyhow::Result<()> {
    match words {
        ["workers", "unaudited", name, rest @ ..] => workers::run(rt, false, name, rest),
        ["workers", name, rest @ ..] => workers::run(rt, true, name, rest),
        ["histories", rest @ ..] => histories::run(rt, rest),
        [name @ ("arena" | "column"), rest @ ..] => single::run(rt, name, None, rest),
        [name, policy, rest @ ..] => single::run(rt, name, policy_of(policy), rest),
        _ => explained(None),
    }
}

/// Carries out the runs of `ALL`, in order. Stops with the first error.
fn run_all<R: BenchHost>(rt: &R) -> anyhow::Result<()> {
    'runs: for words in ALL {
        run(rt, words)?;
    }
    Ok(())
}

/// Runs what the command line asks for: all of `ALL`, or one run. An error if a run fails.
fn main(rt: HostRuntime) -> anyhow::Result<()> {
    let words: Vec<String> = env::args(&rt)?.collect(rt.alloc())?;
    let mut texts = Vec::new(rt.alloc());
    'words: for word in words.iter().skip(1) {
        texts.push(word.as_str())?;
    }
    match texts.as_slice() {
        ["all"] => run_all(&rt),
        words => run(&rt, words),
    }
}
