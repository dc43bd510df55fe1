//! A session at a worker's desk, and the gathering of all workers after it.
ghost use Rattle.std.specs.Prelude.{◌≡◌, List, map};
ghost use Rattle.std.specs.List.{concat};
ghost use Rattle.crack_row.specs.declared.command.Policy.TheVariants.{Complete};
ghost use Rattle.crack_session.specs.Answers.{answer_text};
ghost use Rattle.crack_session.specs.Readings.{statements};
ghost use Rattle.crack_session.specs.declared.answer.Answer.{Answer};
ghost use Rattle.crack_worker_desk.specs.Histories.{AreOfHistories};

use crate::trials::{Opening, Trial, run_both};
use crate::values::{TEN, TWO, totals_in};
use crack_row::{Policy, Watched};
use crack_session::serve;
use crack_table::{Gathered, OpenGate, Table, gather};
use crack_witness::{Naming, Worker};
use crack_worker_desk::{WorkerDesk, lines_stand_in_histories};
use std::alloc::Global;
use std::process::Abort;
use std::sync::Wait;

/// Each kind of statement that is recorded, and lines that are in no history: refusals, a checkpoint and a policy.
const LINES: &[u8] =
    b"insert 7 5\ninsert 1000007 6\ncount 0 2000000\nx\npolicy gradual\nsum 7 8\ndelete 1.0\n\
delete 2.0\ncheckpoint 1\nupdate 0.0 9 4\nselect 0 2000000\nquit\n";

/// The replies to `LINES`.
const TEXT: &[u8] = b"row 0.0\nrow 1.0\ncount 2\nrefused 1\npolicy gradual\nsum 5\ngone 1000007 6\n\
refused 5\nfolded 3\nchanged\nrows 1\n0.0 9 4\nbye\n";

/// Serves a session at the desk of a worker, and then gathers the worker with the others. The output is the text of
/// answers that consist of replies in the histories of the gathered partitions.
fn serve_and_gather<J: Naming, R: Wait + Abort>(
    rt: &R,
    alloc: Global,
    table: Table<J>,
    worker: Worker<J>,
    mut others: Vec<Worker<J>>,
    input: &[u8],
) -> (Vec<u8>, Gathered<J>)
    ensures { (answers : List Answer) × AreOfHistories J.owner result.1.parts.items worker.worker table.splits Complete
        (statements input.now) answers × (result.0.items ≡ concat (map answer_text answers)) }
{
    let mut reader = Watched::new(input);
    let mut writer = Watched::new(Vec::new(alloc));
    let mut desk = WorkerDesk::new(rt, &table, &OpenGate, worker);
    let ended = serve(alloc, &mut desk, Policy::Complete, &mut reader, &mut writer);
    let _end = ended.expect(rt, "a whole session");
    lines_stand_in_histories(&desk);
    others.push(desk.into_worker()).expect(rt, "room");
    let gathered = gather(alloc, table, others).ok().expect(rt, "gathered");
    (writer.into_inner(), gathered)
}

/// The last worker of a table serves a session, and then all workers are gathered.
#[derive(Clone, Copy)]
struct Lines;

impl Trial for Lines {
    fn run<J: Naming, R: Wait + Abort>(
        self,
        rt: &R,
        alloc: Global,
        table: Table<J>,
        workers: Vec<Worker<J>>,
    ) {
        let mut workers = workers;
        let worker = workers.pop().expect(rt, "a worker");
        let (text, gathered) = serve_and_gather(rt, alloc, table, worker, workers, LINES);
        let totals = totals_in(&gathered);
        drop(gathered);
        assert_eq!(rt; text.as_slice(), TEXT);
        assert!(rt; totals == [9, 2, 1, 1]);
    }
}

#[test]
fn the_lines_of_a_session_stand_in_the_gathered_histories(rt: HostRuntime) {
    let opening = Opening {
        splits: TWO,
        limits: TEN,
        workers: 2,
    };
    run_both(&rt, rt.alloc(), opening, Lines);
}
