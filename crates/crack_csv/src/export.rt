//! Exporting rows as CSV.
ghost use Rattle.std.specs.Prelude.{◌≡◌, ◌+◌, ◌≤◌, ◌<◌, ◌^◌, ◌++◌, [], List, Some, length, drop, IfOk, IfErr, OnOk};
ghost use Rattle.std.specs.List.{flat_map};
ghost use Rattle.crack_row.specs.Devices.{device, has_failed};
ghost use Rattle.crack_plain.specs.Plain.{PlainView};
ghost use Rattle.crack_core.specs.Steps.{tables_of};
ghost use Rattle.crack_commands.specs.Texts.{Writes};
ghost use Rattle.crack_core.specs.Listing.{rows_listed};
ghost use Rattle.crack_csv.specs.Exports.{record_text, rows_from, IsExported, IsExportCut};
ghost use Rattle.crack_csv.specs.Asked.{IsListed, IsListedFirst};
ghost use Rattle.crack_csv.specs.Inside.{IsPartExported, IsPartCut, AsksAndWrites, AsksAndCuts};

use crate::text::{HEADER, RECORD_BYTES, push_record};
use crack_commands::send;
use crack_core::{Core, keys_of_part};
use crack_row::{Command, Policy, Refusal, Reply, Row, Watched};
use crack_session::rest::has_room;
use crack_session::{Desk, Output};
use std::io::Write;

/// Writes the header `key,payload` and then a record for each row, and returns how many rows there were. Records end
/// with a line feed. Each partition is asked by one command under this policy, which counts like any other, to list
/// all its rows. The output is flushed at the end. The first refusal ends the export: `HistoryFull`, `GateGaveUp`,
/// `OutOfMemory` or `LifeOver` of a partition, or `WriteFault` if the writer fails. Takes memory for the rows of one
/// partition at a time. Costs what a select of each partition's rows does, and O(1) for each record.
pub fn export_csv<D: Desk, W: Write>(
    desk: &mut D,
    policy: Policy,
    writer: &mut Watched<W>,
) -> Result<u64, Refusal>
    ensures exported { IfOk result (λ count. (tables : List PlainView) → D.tables desk.old ≡ Some tables →
        IsExported (D.bounds desk.old) (D.splits desk.old) tables count (D.tables desk.new)
        (W.contents (device writer.old)) (W.contents (device writer.new))) }
    // On a refusal the first partitions were asked, and no row is changed. A prefix of their records is written, as
    // the cause implies.
    ensures cut { IfErr result (λ e. (tables : List PlainView) → D.tables desk.old ≡ Some tables →
        IsExportCut (D.bounds desk.old) (D.splits desk.old) tables e (D.accepted desk.old) (D.accepted desk.new)
        (has_failed writer.old) (has_failed writer.new) (D.tables desk.new) (W.contents (device writer.old))
        (W.contents (device writer.new))) }
    // Whether or not the rows are known: each partition lists its rows once, in order and under this policy, and the
    // header and a record for each listed row are written. On a refusal the last call may be the refused one.
    ensures asks { IfOk result (λ count.
        IsListed D.leads (D.splits desk.old) policy count desk.old desk.new (W.contents (device writer.old))
        (W.contents (device writer.new))) }
    ensures asks_in_part { IfErr result (λ e.
        IsListedFirst D.leads (D.splits desk.old) policy e desk.old desk.new (has_failed writer.old)
        (has_failed writer.new) (W.contents (device writer.old)) (W.contents (device writer.new))) }
    ensures unfailed { OnOk result (has_failed writer.new ≡ has_failed writer.old) }
    ensures accepted { OnOk result (D.accepted desk.new ≡ D.accepted desk.old + length (D.splits desk.old) + 1) }
    ensures splits { D.splits desk.new ≡ D.splits desk.old }
    ensures bounds { D.bounds desk.new ≡ D.bounds desk.old }
{
    let mut out = Output::new();
    if let Err(refusal) = send(writer, HEADER) {
        return Err(refusal);
    }
    let parts = desk.splits().len() as u32 + 1;
    let mut count = 0;
    'parts: for part in 0..parts {
        match export_part(desk, policy, part, writer, &mut out) {
            Ok(rows) => count += rows,
            Err(refusal) => return Err(refusal),
        }
    }
    match writer.flush() {
        Ok(()) => Ok(count),
        Err(_) => Err(Refusal::WriteFault),
    }
}

/// States that an export of a core leaves no row out, because its partitions hold only rows with keys of their own.
/// Does nothing.
pub fn leaves_no_row_out(core: &Core)
    ensures { rows_from core.now.splits 0 (tables_of core.now.parts) ≡
        flat_map (λ (table : PlainView). table.state.rows) (tables_of core.now.parts) }
{
    core.recall_invariant();
}

/// Lists all rows of the partition with this number, by one command under this policy, writes a record for each, and
/// returns how many there are. The buffer `out` is empty before and after. Refused as the desk refuses the command,
/// and with `WriteFault` if the writer fails.
fn export_part<D: Desk, W: Write>(
    desk: &mut D,
    policy: Policy,
    part: u32,
    writer: &mut Watched<W>,
    out: &mut Output,
) -> Result<u64, Refusal>
    requires there { part ≤ length (D.splits desk.old) }
    requires empty { out.old.items ≡ [] }
    ensures exported { IfOk result (λ count. (tables : List PlainView) → D.tables desk.old ≡ Some tables →
        IsPartExported (D.bounds desk.old) (D.splits desk.old) tables part count (D.tables desk.new)
        (W.contents (device writer.old)) (W.contents (device writer.new))) }
    ensures cut { IfErr result (λ e. (tables : List PlainView) → D.tables desk.old ≡ Some tables →
        IsPartCut (D.bounds desk.old) (D.splits desk.old) tables part e (D.accepted desk.old) (D.accepted desk.new)
        (has_failed writer.old) (has_failed writer.new) (D.tables desk.new) (W.contents (device writer.old))
        (W.contents (device writer.new))) }
    ensures asks { IfOk result (λ count. AsksAndWrites D.leads (D.splits desk.old) policy part count desk.old desk.new
        (W.contents (device writer.old)) (W.contents (device writer.new))) }
    ensures asks_in_part { IfErr result (λ e. AsksAndCuts D.leads (D.splits desk.old) policy part e desk.old desk.new
        (has_failed writer.old) (has_failed writer.new) (W.contents (device writer.old))
        (W.contents (device writer.new))) }
    ensures small { IfOk result (λ count. count < 2 ^ 32) }
    ensures unfailed { OnOk result (has_failed writer.new ≡ has_failed writer.old) }
    ensures accepted { OnOk result (D.accepted desk.new ≡ D.accepted desk.old + 1) }
    ensures splits { D.splits desk.new ≡ D.splits desk.old }
    ensures bounds { D.bounds desk.new ≡ D.bounds desk.old }
    ensures empty { out.new.items ≡ [] }
{
    let keys = keys_of_part(desk.splits(), part as usize);
    match desk.ask(part, Command::Select(keys), policy) {
        Ok(reply) => {
            let rows = listed(&reply);
            if let Err(refusal) = write_rows(rows, writer, out) {
                return Err(refusal);
            }
            Ok(rows.len() as u64)
        }
        Err(refusal) => Err(refusal),
    }
}

/// The rows in the reply to a select; none for any other reply.
fn listed(reply: &Reply) -> &[Row]
    ensures { result.now ≡ rows_listed reply.now }
{
    match reply {
        Reply::Rows(rows) => rows.as_slice(),
        _ => &[],
    }
}

/// Writes a record for each row: adds records to the buffer `out`, and writes the buffer each time it is full and at
/// the end. `out` is empty before and after. Refused with `WriteFault` if the writer fails.
fn write_rows<W: Write>(
    rows: &[Row],
    writer: &mut Watched<W>,
    out: &mut Output,
) -> Result<(), Refusal>
    requires empty { out.old.items ≡ [] }
    ensures writes { Writes W.contents (flat_map record_text rows.now) result writer.old writer.new }
    ensures empty { out.new.items ≡ [] }
{
    let mut done = 0;
    'batches: while done < rows.len() {
        done = push_rows(rows, done, out);
        if let Err(refusal) = send_all(writer, out) {
            return Err(refusal);
        }
    }
    Ok(())
}

/// Adds the records of the rows from index `at` on to the empty buffer `out`, as many as have room, and returns the
/// index of the first row whose record isn't added.
fn push_rows(rows: &[Row], at: usize, out: &mut Output) -> usize
    requires there { at < length rows.now }
    requires empty { out.old.items ≡ [] }
    ensures text { out.new.items ++ flat_map record_text (drop result rows.now) ≡
        flat_map record_text (drop at rows.now) }
    ensures some { at < result }
{
    push_record(out, &rows[at]);
    let mut next = at + 1;
    'rows: while next < rows.len() && has_room(out, RECORD_BYTES) {
        push_record(out, &rows[next]);
        next += 1;
    }
    next
}

/// Writes the buffer `out`, and empties it. Refused with `WriteFault` if the writer fails; the buffer is then empty
/// too.
fn send_all<W: Write>(writer: &mut Watched<W>, out: &mut Output) -> Result<(), Refusal>
    ensures writes { Writes W.contents out.old.items result writer.old writer.new }
    ensures empty { out.new.items ≡ [] }
{
    let sent = send(writer, out.as_slice());
    out.clear();
    sent
}
