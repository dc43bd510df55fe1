//! Texts of replies, checkpoints and refusals, as sessions append them.
use crack_commands::{push_checkpoint, push_refusal, push_row};
use crack_row::{Refusal, Reply, Row};
use crack_session::Output;
use crack_session::rest::append_reply;
use std::process::Abort;

/// Adds what was appended to the text.
pub fn add(rt: &impl Abort, text: &mut Vec<u8>, out: &Output) {
    assert!(rt; text.extend_from_slice(out.as_slice()).is_ok());
}

/// Adds the text of a reply, which must fit the output.
pub fn add_reply(rt: &impl Abort, text: &mut Vec<u8>, part: u32, reply: Reply) {
    let mut out = Output::new();
    let rest = append_reply(part, reply, &mut out).append(&mut out);
    assert!(rt; rest.is_nothing());
    add(rt, text, &out);
}

/// Adds the line of a checkpoint, with its number of commands.
pub fn add_checkpoint(rt: &impl Abort, text: &mut Vec<u8>, checkpointed: u64) {
    let mut out = Output::new();
    push_checkpoint(&mut out, checkpointed);
    add(rt, text, &out);
}

/// Adds the line of a refusal.
pub fn add_refusal(rt: &impl Abort, text: &mut Vec<u8>, refusal: &Refusal) {
    let mut out = Output::new();
    push_refusal(&mut out, refusal);
    add(rt, text, &out);
}

/// Adds the line of one row of a partition.
pub fn add_row(rt: &impl Abort, text: &mut Vec<u8>, part: u32, row: &Row) {
    let mut out = Output::new();
    push_row(&mut out, part, row);
    add(rt, text, &out);
}
