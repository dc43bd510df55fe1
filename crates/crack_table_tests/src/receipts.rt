//! What is kept of commands: with an audit a receipt and an entry of each answered one, and otherwise nothing.
use crate::script::command_of;
use crate::trials::{Opening, Trial, run_at};
use crate::values::{FOUR, TEN, ask, totals_in};
use crack_commands::parse_statement;
use crack_row::{Entry, Refusal};
use crack_table::{Gathered, OpenGate, Table, gather};
use crack_witness::{Naming, Receipt, Worker};
use std::alloc::Global;
use std::process::Abort;
use std::sync::Wait;

/// Commands, each as the index of its worker, the partition that is asked, the line, and the refusal, if it is
/// refused. There are commands of each kind, also such that find no row.
const ASKED: &[(usize, u32, &str, Option<Refusal>)] = &[
    (3, 2, "insert 207 70", None),
    (0, 2, "insert 208 71", None),
    (1, 0, "insert 5 1", None),
    (3, 2, "select 200 300", None),
    (0, 2, "update 2.1 209 9", None),
    (0, 2, "update 2.7 209 9", None),
    (3, 2, "insert 99 1", Some(Refusal::KeyOutside)),
    (1, 0, "sum 0 100", None),
    (3, 4, "sum 0 100", Some(Refusal::NoSuchPartition)),
    (2, 2, "count 200 300", None),
    (0, 2, "delete 2.0", None),
    (0, 2, "delete 2.0", None),
];

/// Whether a receipt is the expected one.
fn is_expected(receipt: &Receipt, expected: &Receipt) -> bool {
    let place = [u64::from(receipt.part), receipt.position];
    place == [u64::from(expected.part), expected.position]
        && receipt.worker == expected.worker
        && receipt.command == expected.command
        && receipt.reply.is_same(&expected.reply)
}

/// Whether an entry is the one of the expected receipt.
fn is_entry(entry: &Entry, expected: &Receipt) -> bool {
    entry.worker == expected.worker
        && entry.command == expected.command
        && entry.reply.is_same(&expected.reply)
}

/// How many of the expected receipts are of a partition.
fn number_in(expected: &Vec<Receipt>, part: u32) -> u64 {
    let mut number = 0u64;
    'receipts: for one in expected {
        number = number.saturating_add(u64::from(one.part == part));
    }
    number
}

/// Asserts that a worker has one reply and, with an audit, one receipt more than before: the expected one.
fn assert_receipt<J: Naming>(
    rt: &impl Abort,
    worker: &Worker<J>,
    before: [u64; 2],
    expected: &Receipt,
    is_audited: bool,
) {
    let [replies, receipts] = before;
    assert!(rt; worker.replies() == replies.saturating_add(1));
    let list = worker.receipts();
    if is_audited {
        assert!(rt; list.len() as u64 == receipts.saturating_add(1));
        assert!(rt; is_expected(list.last().expect(rt, "a receipt"), expected));
    } else {
        assert!(rt; list.is_empty());
    }
}

/// Has a worker ask a command, asserts that it is answered or refused, and adds the receipt that is expected for an
/// answer.
fn ask_one<J: Naming, R: Wait + Abort>(
    rt: &R,
    table: &Table<J>,
    worker: &mut Worker<J>,
    asked: (u32, &str, Option<Refusal>),
    expected: &mut Vec<Receipt>,
    is_audited: bool,
) {
    let (part, line, refusal) = asked;
    let statement = parse_statement(line.as_bytes()).expect(rt, "a statement");
    let command = command_of(statement).expect(rt, "a command");
    let before = [worker.replies(), worker.receipts().len() as u64];
    match ask(rt, worker, table, &OpenGate, part, command) {
        Ok(reply) => {
            let receipt = Receipt {
                part,
                position: number_in(expected, part),
                worker: worker.number(),
                command,
                reply,
            };
            assert_receipt(rt, worker, before, &receipt, is_audited);
            assert!(rt; refusal.is_none() && expected.push(receipt).is_ok());
        }
        Err(error) => {
            let after = [worker.replies(), worker.receipts().len() as u64];
            assert!(rt; refusal == Some(error) && after == before);
        }
    }
}

/// Has the workers ask all commands, and makes a checkpoint after each, which changes nothing that is kept.
fn ask_all<J: Naming, R: Wait + Abort>(
    rt: &R,
    table: &Table<J>,
    workers: &mut Vec<Worker<J>>,
    expected: &mut Vec<Receipt>,
    is_audited: bool,
) {
    'asked: for place in 0..ASKED.len() {
        let (number, part, line, refusal) = ASKED[place];
        let Some(worker) = workers.get_mut(number) else {
            panic!(rt; "no such worker");
        };
        ask_one(
            rt,
            table,
            worker,
            (part, line, refusal),
            expected,
            is_audited,
        );
        assert!(rt; table.checkpoint(rt, 2).is_ok());
    }
}

/// Asserts that a partition's list has the entries of the expected receipts, and no other, or that there is no list
/// without an audit.
fn assert_list<J: Naming>(
    rt: &impl Abort,
    gathered: &Gathered<J>,
    part: u32,
    expected: &Vec<Receipt>,
    is_audited: bool,
) {
    let witnessed = gathered.parts.get(part as usize).expect(rt, "a partition");
    let Some(list) = witnessed.entries() else {
        assert!(rt; !is_audited);
        return;
    };
    assert!(rt; is_audited && list.len() as u64 == number_in(expected, part));
    'receipts: for one in expected {
        if one.part == part {
            let entry = list.get(one.position as usize).expect(rt, "an entry");
            assert!(rt; is_entry(entry, one));
        }
    }
}

/// Four workers ask the commands, and are gathered.
#[derive(Clone, Copy)]
struct Keeping {
    is_audited: bool,
}

impl Trial for Keeping {
    fn run<J: Naming, R: Wait + Abort>(
        self,
        rt: &R,
        alloc: Global,
        table: Table<J>,
        workers: Vec<Worker<J>>,
    ) {
        let mut workers = workers;
        let mut expected = Vec::new(alloc);
        ask_all(rt, &table, &mut workers, &mut expected, self.is_audited);
        let gathered = gather(alloc, table, workers).ok().expect(rt, "gathered");
        'parts: for part in 0..4u32 {
            assert_list(rt, &gathered, part, &expected, self.is_audited);
        }
        let totals = totals_in(&gathered);
        drop(gathered);
        drop(expected);
        assert!(rt; totals == [10, 3, 1, 2]);
    }
}

#[test]
fn an_audit_keeps_a_receipt_and_an_entry_of_each_answer(rt: HostRuntime) {
    let opening = Opening {
        splits: FOUR,
        limits: TEN,
        workers: 4,
    };
    'audits: for is_audited in [false, true] {
        let ended = run_at(&rt, rt.alloc(), opening, is_audited, Keeping { is_audited });
        assert!(rt; ended.is_ok());
    }
}
