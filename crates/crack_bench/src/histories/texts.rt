//! Questions and answers as lines: a statement, and then the lines of its reply. Each function that writes is refused
//! with `WriteFault` if the writer fails.

use arrayvec::ArrayVec;
use crack_commands::{
    LONGEST_TEXT, push, push_checkpoint, push_count, push_gone, push_head, push_placed,
    push_refusal, push_row, push_sum, send,
};
use crack_part::Partition;
use crack_row::{Command, Key, KeyRange, Payload, Refusal, Reply, Row, Watched};
use crack_witness::Receipt;
use std::io;
use std::io::Write;

/// A text without rows, or the line of one row.
type Text = ArrayVec<u8, LONGEST_TEXT>;

/// Turns a failed write into the refusal `WriteFault`.
pub fn written(line: io::Result<()>) -> Result<(), Refusal> {
    match line {
        Ok(()) => Ok(()),
        Err(_) => Err(Refusal::WriteFault),
    }
}

/// Writes a command to partition `part` as a session's statement.
fn write_command<W: Write>(
    part: u32,
    command: &Command,
    writer: &mut Watched<W>,
) -> Result<(), Refusal> {
    match *command {
        Command::Insert { key, payload } => write_insert(key, payload, writer),
        Command::Delete { serial } => written(writeln!(writer, "delete {part}.{}", serial.0)),
        Command::Update {
            serial,
            key,
            payload,
        } => {
            send(writer, b"update ")?;
            let row = Row {
                serial,
                key,
                payload,
            };
            write_row(part, &row, writer)
        }
        Command::Count(range) => write_query("count", range, writer),
        Command::Sum(range) => write_query("sum", range, writer),
        Command::Select(range) => write_query("select", range, writer),
    }
}

/// Writes the statement that inserts a row with this key and payload.
fn write_insert<W: Write>(
    key: Key,
    payload: Payload,
    writer: &mut Watched<W>,
) -> Result<(), Refusal> {
    let (key, payload) = (key.number(), payload.number());
    written(writeln!(writer, "insert {key} {payload}"))
}

/// Writes the statement with this name, `count`, `sum` or `select`, over a range.
fn write_query<W: Write>(
    name: &str,
    range: KeyRange,
    writer: &mut Watched<W>,
) -> Result<(), Refusal> {
    let (low, high) = (range.low().number(), range.high().number());
    written(writeln!(writer, "{name} {low} {high}"))
}

/// Writes the line of a row of partition `part`.
fn write_row<W: Write>(part: u32, row: &Row, writer: &mut Watched<W>) -> Result<(), Refusal> {
    let mut text = Text::new();
    push_row(&mut text, part, row);
    send(writer, text.as_slice())
}

/// Writes a line with the number of rows, and then a line for each row of partition `part`.
fn write_rows<W: Write>(part: u32, rows: &[Row], writer: &mut Watched<W>) -> Result<(), Refusal> {
    let mut text = Text::new();
    push_head(&mut text, rows.len() as u64);
    send(writer, text.as_slice())?;
    'rows: for row in rows {
        write_row(part, row, writer)?;
    }
    Ok(())
}

/// Writes the lines of a reply of partition `part`.
fn write_reply<W: Write>(part: u32, reply: &Reply, writer: &mut Watched<W>) -> Result<(), Refusal> {
    let mut text = Text::new();
    match reply {
        Reply::Placed(serial) => push_placed(&mut text, part, *serial),
        Reply::Gone(row) => push_gone(&mut text, row),
        Reply::Changed => push(&mut text, b"changed\n"),
        Reply::NoRow => push(&mut text, b"none\n"),
        Reply::Counted(count) => push_count(&mut text, *count),
        Reply::Summed(sum) => push_sum(&mut text, *sum),
        Reply::Rows(rows) => return write_rows(part, rows.as_slice(), writer),
    }
    send(writer, text.as_slice())
}

/// Writes the line of a refusal.
fn write_refusal<W: Write>(refusal: &Refusal, writer: &mut Watched<W>) -> Result<(), Refusal> {
    let mut text = Text::new();
    push_refusal(&mut text, refusal);
    send(writer, text.as_slice())
}

/// Writes the line of a checkpoint of this many commands.
fn write_checkpoint_reply<W: Write>(
    checkpointed: u64,
    writer: &mut Watched<W>,
) -> Result<(), Refusal> {
    let mut text = Text::new();
    push_checkpoint(&mut text, checkpointed);
    send(writer, text.as_slice())
}

/// Writes a line with this number and a command to partition `part`, and then the lines of the answer.
pub fn write_answer<W: Write>(
    number: u32,
    part: u32,
    command: &Command,
    answer: Result<&Reply, &Refusal>,
    writer: &mut Watched<W>,
) -> Result<(), Refusal> {
    written(write!(writer, "{number} "))?;
    write_command(part, command, writer)?;
    match answer {
        Ok(reply) => write_reply(part, reply, writer),
        Err(refusal) => write_refusal(refusal, writer),
    }
}

/// Writes a line with the number of a partition and its statement `checkpoint`, and then the line of the outcome.
pub fn write_checkpoint<W: Write>(
    part: u32,
    outcome: &Result<u64, Refusal>,
    writer: &mut Watched<W>,
) -> Result<(), Refusal> {
    written(writeln!(writer, "{part} checkpoint {part}"))?;
    match outcome {
        Ok(checkpointed) => write_checkpoint_reply(*checkpointed, writer),
        Err(refusal) => write_refusal(refusal, writer),
    }
}

/// Writes the line `partition P`. If N of its commands are checkpointed, and N isn't 0, writes `partition P folded N`
/// instead.
pub fn write_part<W: Write>(
    part: u32,
    partition: &Partition,
    writer: &mut Watched<W>,
) -> Result<(), Refusal> {
    match partition.checkpointed() {
        0 => written(writeln!(writer, "partition {part}")),
        checkpointed => written(writeln!(writer, "partition {part} folded {checkpointed}")),
    }
}

/// Writes a receipt: a line with its partition, position and worker and the command, and then the lines of the reply.
pub fn write_receipt<W: Write>(receipt: &Receipt, writer: &mut Watched<W>) -> Result<(), Refusal> {
    let (part, position) = (receipt.part, receipt.position);
    written(write!(writer, "{part} {position} "))?;
    write_answer(
        receipt.worker,
        part,
        &receipt.command,
        Ok(&receipt.reply),
        writer,
    )
}
