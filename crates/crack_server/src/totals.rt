//! The end of a run: its workers are gathered, and its totals written.
ghost use Rattle.std.specs.Prelude.{◌≡◌, true, List, map, IfOk};
ghost use Rattle.crack_witness.specs.Receipts.{AreShares};
ghost use Rattle.crack_witness.specs.Witnesses.{WitnessedState};
ghost use Rattle.crack_table.specs.Audits.{histories_of, receipts_of};
ghost use Rattle.crack_table.specs.Cover.{Covers};
ghost use Rattle.crack_table.specs.Gather.{AreGathered, AreHistoryTotals};

use crack_row::Refusal;
use crack_table::{Gathered, Table, gather};
use crack_witness::{Naming, Worker};
use std::alloc::Global;
use std::io::Write;

/// The totals of a table and its workers: how many commands were accepted, how many rows were inserted, how many were
/// deleted, and how many rows the table holds.
#[derive(Clone, Copy, Drop)]
pub(crate) struct TableTotals {
    accepted: u64,
    inserted: u64,
    deleted: u64,
    held: u64,
}

/// Gathers the workers of a table, and returns the totals. Refused as `gather` is.
pub(crate) fn totals_of<J: Naming>(
    alloc: Global,
    table: Table<J>,
    workers: Vec<Worker<J>>,
) -> Result<TableTotals, Refusal>
    // The totals are those of the histories of partitions that agree with all workers. With an audit the receipts of
    // all workers also cover these histories, and the totals are those of the receipts.
    ensures gathered { IfOk result (λ totals. (parts : List WitnessedState) ×
        AreGathered J.owner table.splits table.limits table.workers workers.items parts ×
        AreHistoryTotals J.owner parts totals.accepted totals.inserted totals.deleted totals.held ×
        (table.audited ≡ true → Covers (histories_of J.owner parts) (receipts_of workers.items) ×
        AreShares (receipts_of workers.items) totals.accepted totals.inserted totals.deleted)) }
{
    let gathered = gathered(alloc, table, workers)?;
    let totals = totals_in(&gathered);
    drop(gathered);
    Ok(totals)
}

/// Gathers the workers of a table. Refused as `gather` is; then the table and the workers that it hands back are
/// dropped.
fn gathered<J: Naming>(
    alloc: Global,
    table: Table<J>,
    workers: Vec<Worker<J>>,
) -> Result<Gathered<J>, Refusal>
    ensures gathered { IfOk result (λ s. AreGathered J.owner table.splits table.limits table.workers workers.items
        s.parts.items) }
    ensures totals { IfOk result (λ s. AreHistoryTotals J.owner s.parts.items s.accepted s.inserted s.deleted s.held) }
    ensures covered { IfOk result (λ s. table.audited ≡ true → Covers (histories_of J.owner s.parts.items)
        (receipts_of workers.items)) }
    ensures shares { IfOk result (λ s. table.audited ≡ true → AreShares (receipts_of workers.items) s.accepted
        s.inserted s.deleted) }
{
    match gather(alloc, table, workers) {
        Ok(gathered) => Ok(gathered),
        Err(refused) => {
            let refusal = refused.refusal;
            drop(refused);
            Err(refusal)
        }
    }
}

/// The totals of gathered workers.
fn totals_in<J: Naming>(gathered: &Gathered<J>) -> TableTotals
    ensures { result ≡ record {
      accepted = gathered.now.accepted;
      inserted = gathered.now.inserted;
      deleted = gathered.now.deleted;
      held = gathered.now.held;
    } }
{
    TableTotals {
        accepted: gathered.accepted,
        inserted: gathered.inserted,
        deleted: gathered.deleted,
        held: gathered.held,
    }
}

impl TableTotals {
    /// Writes the totals as the last line of a run, and flushes the output. Refused with `WriteFault` if the writer
    /// fails.
    pub(crate) fn write<W: Write>(&self, writer: &mut W) -> Result<(), Refusal> {
        let TableTotals {
            accepted,
            inserted,
            deleted,
            held,
        } = self;
        let line = writeln!(
            writer,
            "accepted {accepted} inserted {inserted} deleted {deleted} held {held}"
        );
        if line.is_err() || writer.flush().is_err() {
            return Err(Refusal::WriteFault);
        }
        Ok(())
    }
}
