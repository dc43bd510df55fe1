//! Scripts: statements that workers ask a table, in order, each with its answer.
ghost use Rattle.std.specs.Prelude.{◌+◌, ◌≤◌, length};

use crate::values::ask;
use crack_commands::{
    LONGEST_TEXT, Statement, TEXT_BYTES, parse_statement, push_checkpoint, push_layout_head,
    push_piece, push_refusal,
};
use crack_row::{Command, Layout, Refusal, Reply};
use crack_session::rest::{append_reply, has_room};
use crack_session::{OUTPUT_BYTES, Output};
use crack_table::{Gate, Table};
use crack_witness::{Naming, Worker};
use std::process::Abort;
use std::sync::Wait;

/// Statements, each as the index of its worker, the partition that is asked, the line, and the answer without its
/// last line feed.
pub(crate) type Script = &'static [(usize, u32, &'static str, &'static str)];

/// The command of a statement, if it has one.
pub(crate) fn command_of(statement: Statement) -> Option<Command> {
    match statement {
        Statement::Insert { key, payload } => Some(Command::Insert { key, payload }),
        Statement::Delete(row) => Some(Command::Delete { serial: row.serial }),
        Statement::Update { row, key, payload } => Some(Command::Update {
            serial: row.serial,
            key,
            payload,
        }),
        Statement::Count(range) => Some(Command::Count(range)),
        Statement::Sum(range) => Some(Command::Sum(range)),
        Statement::Select(range) => Some(Command::Select(range)),
        _ => None,
    }
}

/// Appends the text of a reply, which must fit.
fn push_reply(rt: &impl Abort, part: u32, reply: Reply, out: &mut Output)
    requires { length out.old.items + LONGEST_TEXT ≤ OUTPUT_BYTES }
{
    let rest = append_reply(part, reply, out).append(out);
    assert!(rt; rest.is_nothing());
}

/// Appends the text of a layout, which must fit.
fn push_layout(rt: &impl Abort, part: u32, layout: &Layout, out: &mut Output)
    requires { length out.old.items + LONGEST_TEXT ≤ OUTPUT_BYTES }
{
    push_layout_head(out, part, layout);
    'pieces: for piece in layout.pieces.as_slice() {
        assert!(rt; has_room(out, TEXT_BYTES));
        push_piece(out, piece);
    }
}

/// Has a worker ask a statement, and returns the text of the answer unless it is a refusal.
fn answer<J: Naming, R: Wait + Abort, G: Gate>(
    rt: &R,
    worker: &mut Worker<J>,
    table: &Table<J>,
    gate: &G,
    part: u32,
    statement: Statement,
) -> Result<Output, Refusal> {
    let mut out = Output::new();
    match statement {
        Statement::Checkpoint(part) => push_checkpoint(&mut out, table.checkpoint(rt, part)?),
        Statement::Layout(part) => push_layout(rt, part, &table.layout(rt, part)?, &mut out),
        _ => {
            let command = command_of(statement).expect(rt, "a command");
            let reply = ask(rt, worker, table, gate, part, command)?;
            push_reply(rt, part, reply, &mut out);
        }
    }
    Ok(out)
}

/// The text of an answer or a refusal.
fn text_of(answer: Result<Output, Refusal>) -> Output {
    match answer {
        Ok(text) => text,
        Err(refusal) => {
            let mut text = Output::new();
            push_refusal(&mut text, &refusal);
            text
        }
    }
}

/// Asserts that a text is the wanted answer to a line of a test.
fn assert_text(rt: &impl Abort, text: &[u8], name: &str, line: &str, wanted: &str) {
    let found = match text.split_last() {
        Some((b'\n', found)) => found,
        _ => text,
    };
    assert!(rt; found == wanted.as_bytes(), "{name}: {line}");
}

/// Asserts that a worker gets the wanted answer to a line of a test.
pub(crate) fn assert_answer<J: Naming, R: Wait + Abort, G: Gate>(
    rt: &R,
    worker: &mut Worker<J>,
    table: &Table<J>,
    gate: &G,
    part: u32,
    name: &str,
    line: &str,
    wanted: &str,
) {
    let statement = parse_statement(line.as_bytes()).expect(rt, "a statement");
    let text = text_of(answer(rt, worker, table, gate, part, statement));
    assert_text(rt, text.as_slice(), name, line, wanted);
}

/// Asserts the answers that workers get with a gate.
pub(crate) fn assert_answers<J: Naming, R: Wait + Abort, G: Gate>(
    rt: &R,
    workers: &mut Vec<Worker<J>>,
    table: &Table<J>,
    gate: &G,
    name: &str,
    script: Script,
) {
    'script: for place in 0..script.len() {
        let (number, part, line, wanted) = script[place];
        let Some(worker) = workers.get_mut(number) else {
            panic!(rt; "no such worker");
        };
        assert_answer(rt, worker, table, gate, part, name, line, wanted);
    }
}
