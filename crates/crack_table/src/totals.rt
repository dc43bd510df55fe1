//! The totals of witnessed partitions.
ghost use Rattle.std.specs.Prelude.{◌≡◌, ◌<◌, ◌≤◌, ◌^◌, length, sum_by, All};
ghost use Rattle.crack_plain.specs.Plain.{accepted_of};
ghost use Rattle.crack_state.specs.State.{live_rows};
ghost use Rattle.crack_part.specs.Parts.{IsSound, table_of};
ghost use Rattle.crack_witness.specs.Witnesses.{WitnessedState, IsWhole};
ghost use Rattle.crack_table.specs.Gather.{AreHistoryTotals};

use crack_witness::{Naming, Witnessed};

/// How many commands were accepted, and how many rows were inserted, deleted, and are live.
#[derive(Clone, Copy, Drop)]
pub(crate) struct HistoryTotals {
    pub(crate) accepted: u64,
    pub(crate) inserted: u64,
    pub(crate) deleted: u64,
    pub(crate) held: u64,
}

/// The totals of the partitions together: of the commands that they accepted, and of the rows that were inserted, were
/// deleted, and are live. O(partitions).
pub(crate) fn sums_of<J: Naming>(parts: &Vec<Witnessed<J>>) -> HistoryTotals
    requires whole { All (λ (w : WitnessedState). IsWhole J.owner w) parts.now.items }
    requires sound { All (λ (w : WitnessedState). IsSound w.held) parts.now.items }
    requires few { length parts.now.items ≤ 64 }
    ensures { AreHistoryTotals J.owner parts.now.items result.accepted result.inserted result.deleted result.held }
{
    let inserted = inserted_in(parts);
    let held = rows_in(parts);
    HistoryTotals {
        accepted: accepted_in(parts),
        inserted,
        deleted: inserted - held,
        held,
    }
}

/// How many commands all the partitions accepted together. O(partitions).
fn accepted_in<J: Naming>(parts: &Vec<Witnessed<J>>) -> u64
    requires { sum_by (λ (w : WitnessedState). accepted_of (table_of w.held)) parts.now.items < 2 ^ 64 }
    ensures { result ≡ sum_by (λ (w : WitnessedState). accepted_of (table_of w.held)) parts.now.items }
{
    parts.iter().map(|part| part.partition().accepted()).sum()
}

/// How many rows were inserted into all the partitions together. O(partitions).
fn inserted_in<J: Naming>(parts: &Vec<Witnessed<J>>) -> u64
    requires { sum_by (λ (w : WitnessedState). w.held.next) parts.now.items < 2 ^ 64 }
    ensures { result ≡ sum_by (λ (w : WitnessedState). w.held.next) parts.now.items }
{
    parts.iter().map(|part| part.partition().insertions()).sum()
}

/// How many live rows all the partitions have together. O(partitions).
fn rows_in<J: Naming>(parts: &Vec<Witnessed<J>>) -> u64
    requires { sum_by (λ (w : WitnessedState). length (live_rows w.held.store)) parts.now.items < 2 ^ 64 }
    ensures { result ≡ sum_by (λ (w : WitnessedState). length (live_rows w.held.store)) parts.now.items }
{
    parts.iter().map(|part| part.partition().rows()).sum()
}
