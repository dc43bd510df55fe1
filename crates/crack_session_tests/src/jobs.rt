//! Steps and checkpoints that one thread makes one after the other, under small limits: their results, as texts.
use crate::scripts::{Lines, texts_of};
use crate::session::room;
use crate::texts::{add_checkpoint, add_refusal, add_reply};
use crack_commands::{Statement, parse_statement};
use crack_core::{Core, Done, Job, Step};
use crack_row::{
    Command, GREATEST_CELLS, GREATEST_LIFE, GREATEST_LIMIT, Limits, Policy, Refusal, Upkeep,
};
use std::alloc::Global;
use std::process::Abort;

/// The command of a statement, if it has one.
fn command_of(statement: Statement) -> Option<Command> {
    match statement {
        Statement::Insert { key, payload } => Some(Command::Insert { key, payload }),
        Statement::Delete(row) => Some(Command::Delete { serial: row.serial }),
        Statement::Update { row, key, payload } => Some(Command::Update {
            serial: row.serial,
            key,
            payload,
        }),
        Statement::Count(range) => Some(Command::Count(range)),
        Statement::Sum(range) => Some(Command::Sum(range)),
        Statement::Select(range) => Some(Command::Select(range)),
        _ => None,
    }
}

/// The job of a line: a step at partition 0 under the ripple policy, or a checkpoint.
fn job_of(rt: &impl Abort, line: &str) -> Job {
    let statement = parse_statement(line.as_bytes()).expect(rt, "a statement");
    if let Statement::Checkpoint(part) = statement {
        return Job::Checkpoint(part);
    }
    let command = command_of(statement).expect(rt, "a command");
    Job::Perform(Step {
        part: 0,
        command,
        policy: Policy::Ripple,
    })
}

/// The jobs of a script.
fn jobs_of(rt: &impl Abort, alloc: Global, script: Lines) -> Vec<Job> {
    let mut jobs = Vec::new(alloc);
    'script: for place in 0..script.len() {
        let (line, _) = script[place];
        assert!(rt; jobs.push(job_of(rt, line)).is_ok());
    }
    jobs
}

/// The texts of the results of jobs.
fn text_of(rt: &impl Abort, alloc: Global, done: &[Result<Done, Refusal>]) -> Vec<u8> {
    let mut text = room(rt, alloc);
    'done: for place in 0..done.len() {
        match &done[place] {
            Ok(Done::Replied(reply)) => {
                let reply = reply.copy(alloc).expect(rt, "memory");
                add_reply(rt, &mut text, 0, reply);
            }
            Ok(Done::CheckpointMade(count)) => add_checkpoint(rt, &mut text, *count),
            Err(refusal) => add_refusal(rt, &mut text, refusal),
        }
    }
    text
}

/// Runs jobs. It has no contract, so that no test carries the contract of `run_jobs`.
fn run(rt: &impl Abort, core: &mut Core, jobs: &[Job]) -> Vec<Result<Done, Refusal>> {
    core.run_jobs(jobs).expect(rt, "memory")
}

/// Jobs for a core with one partition and these limits, and the result of each job.
#[derive(Clone, Copy)]
struct Case {
    name: &'static str,
    /// The limits of the history, the cells and the life.
    limits: [u64; 3],
    script: Lines,
}

/// Asserts the results of the jobs of a case.
fn assert_jobs(rt: &impl Abort, alloc: Global, case: Case) {
    let Case {
        name,
        limits: [history, cells, life],
        script,
    } = case;
    let limits = Limits {
        history,
        cells,
        life,
        upkeep: Upkeep::OnRequest,
    };
    let mut core = Core::open_with(alloc, &[], limits).expect(rt, "a core");
    let jobs = jobs_of(rt, alloc, script);
    let done = run(rt, &mut core, &jobs);
    drop(core);
    let text = text_of(rt, alloc, &done);
    let (_, replies) = texts_of(rt, alloc, script);
    assert!(rt;
        done.len() == script.len() && text.as_slice() == replies.as_slice(),
        "{name}"
    );
}

const CASES: &[Case] = &[
    Case {
        name: "a checkpoint empties the history",
        limits: [2, GREATEST_CELLS, GREATEST_LIFE],
        script: &[
            ("insert 1 1", "row 0.0"),
            ("insert 2 2", "row 0.1"),
            ("count 0 18446744073709551616", "refused 6 2"),
            ("checkpoint 0", "folded 2"),
            ("count 0 18446744073709551616", "count 2"),
            ("insert 3 3", "row 0.2"),
            ("insert 4 4", "refused 6 2"),
            ("checkpoint 0", "folded 2"),
            ("checkpoint 0", "folded 0"),
            ("delete 0.0", "gone 1 1"),
            ("checkpoint 1", "refused 5"),
        ],
    },
    Case {
        name: "a row without a cell is refused",
        limits: [GREATEST_LIMIT, 2, GREATEST_LIFE],
        script: &[
            ("insert 1 1", "row 0.0"),
            ("insert 2 2", "row 0.1"),
            ("insert 3 3", "refused 9"),
            ("count 0 18446744073709551616", "count 2"),
            ("delete 0.0", "gone 1 1"),
            ("insert 3 3", "refused 9"),
            ("count 0 18446744073709551616", "count 1"),
            ("insert 3 3", "row 0.2"),
            ("update 0.1 2 9", "refused 9"),
            ("update 0.2 4 4", "changed"),
        ],
    },
    Case {
        name: "a life ends",
        limits: [GREATEST_LIMIT, GREATEST_CELLS, 3],
        script: &[
            ("insert 1 1", "row 0.0"),
            ("count 0 18446744073709551616", "count 1"),
            ("checkpoint 0", "folded 2"),
            ("count 0 18446744073709551616", "count 1"),
            ("count 0 18446744073709551616", "refused 10"),
        ],
    },
];

#[test]
fn jobs_are_done_or_refused(rt: HostRuntime) {
    'cases: for place in 0..CASES.len() {
        assert_jobs(&rt, rt.alloc(), CASES[place]);
    }
}
