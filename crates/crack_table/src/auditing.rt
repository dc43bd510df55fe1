//! The audit of a table: compares the partitions' lists of entries with the receipts of all workers.
ghost use Rattle.std.specs.Prelude.{◌≡◌, ◌≤◌, true, is_some, length, map, All, IfOk, IfErr, OnOk};
ghost use Rattle.std.specs.List.{flat_map};
ghost use Rattle.crack_witness.specs.Witnesses.{WitnessedState};
ghost use Rattle.crack_table.specs.Cover.{Covers, MayNotCover};
ghost use Rattle.crack_table.specs.Audits.{history_in, histories_of, receipts_of};

use crate::covering::cover;
use crack_row::{Entry, Refusal};
use crack_witness::{Naming, Receipt, Witnessed, Worker};
use std::alloc::{AllocError, Global};

/// Checks, if there is an audit, that the receipts of all workers cover the lists of all partitions: exactly one
/// receipt names each entry, and holds it; none names another place; and one worker's receipts in one partition name
/// rising places. Refused with `StrangeReceipt` at the place that `cover` says if they don't, and with `OutOfMemory` if
/// no memory is found. Without an audit it does nothing, and isn't refused.
pub(crate) fn audit<J: Naming>(
    alloc: Global,
    is_audited: bool,
    parts: &Vec<Witnessed<J>>,
    workers: &Vec<Worker<J>>,
) -> Result<(), Refusal>
    requires few { length parts.now.items ≤ 64 }
    requires listed { All (λ (w : WitnessedState). is_some w.entries ≡ is_audited) parts.now.items }
    ensures covered { OnOk result (is_audited ≡ true → Covers (histories_of J.owner parts.now.items)
        (receipts_of workers.now.items)) }
    ensures fault { IfErr result (λ e. (is_audited ≡ true) × MayNotCover (histories_of J.owner parts.now.items)
        (receipts_of workers.now.items) e) }
{
    if is_audited {
        compare_lists(alloc, parts, workers)
    } else {
        Ok(())
    }
}

/// Checks that the receipts of all workers cover the lists of all partitions: each entry has exactly one receipt,
/// which holds it, there are no others, and one worker's receipts in one partition name rising places. Refused with
/// `StrangeReceipt` at the place that `cover` says if they don't, and with `OutOfMemory` if no memory is found.
fn compare_lists<J: Naming>(
    alloc: Global,
    parts: &Vec<Witnessed<J>>,
    workers: &Vec<Worker<J>>,
) -> Result<(), Refusal>
    requires few { length parts.now.items ≤ 64 }
    requires listed { All (λ (w : WitnessedState). is_some w.entries ≡ true) parts.now.items }
    ensures covered { OnOk result (Covers (histories_of J.owner parts.now.items)
        (receipts_of workers.now.items)) }
    ensures fault { IfErr result (MayNotCover (histories_of J.owner parts.now.items)
        (receipts_of workers.now.items)) }
{
    let lists = lists_in(alloc, parts)?;
    let receipts = receipts_in(alloc, workers)?;
    cover(alloc, lists.as_slice(), receipts.as_slice())
}

/// The partitions' lists of entries, one for each partition, in order. Each partition must keep a list. Refused if no
/// memory is found.
fn lists_in<'a, J: Naming>(
    alloc: Global,
    parts: &'a Vec<Witnessed<J>>,
) -> Result<Vec<&'a [Entry]>, AllocError>
    requires listed { All (λ (w : WitnessedState). is_some w.entries ≡ true) parts.now.items }
    ensures { IfOk result (λ v. map (λ l. l.now) v.items ≡ histories_of J.owner parts.now.items) }
{
    let mut lists = Vec::with_capacity(alloc, parts.len())?;
    'parts: for part in parts {
        lists.push(list_of(part))?;
    }
    Ok(lists)
}

/// A partition's list of entries since it was opened, which is its history.
fn list_of<J: Naming>(part: &Witnessed<J>) -> &[Entry]
    requires listed { is_some part.now.entries ≡ true }
    ensures { result.now ≡ history_in J.owner part.now }
{
    part.recall_invariant();
    match part.entries() {
        Some(list) => list,
        None => unreachable!(),
    }
}

/// Whether a partition keeps a list of its entries, as it does with an audit.
pub(crate) fn is_listed<J: Naming>(part: &Witnessed<J>) -> bool
    ensures { result ≡ is_some part.now.entries }
{
    match part.entries() {
        Some(_) => true,
        None => false,
    }
}

/// The receipts of the workers, one list for each worker. Refused if no memory is found.
fn receipts_in<'a, J: Naming>(
    alloc: Global,
    workers: &'a Vec<Worker<J>>,
) -> Result<Vec<&'a [Receipt]>, AllocError>
    ensures { IfOk result (λ v. flat_map (λ r. r.now) v.items ≡ receipts_of workers.now.items) }
{
    let mut receipts = Vec::with_capacity(alloc, workers.len())?;
    'workers: for worker in workers {
        receipts.push(worker.receipts())?;
    }
    Ok(receipts)
}
