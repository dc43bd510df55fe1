//! What an audit keeps: the list of a partition's entries, and the receipts of each worker.
ghost use Rattle.std.specs.Prelude.{◌≡◌, None, Err, IfOk, IfErr, IfSome, OnErr, OnOk};
ghost use Rattle.crack_plain.specs.Plain.{IsSmall, accepted_of, reply_to};
ghost use Rattle.crack_part.specs.Parts.{state_of, table_of, Serves, Spares};
ghost use Rattle.crack_part.specs.Refusals.{refusal_of};
ghost use Rattle.crack_part.specs.Upkeep.{answered};
ghost use Rattle.crack_witness.specs.Audits.{listed, empty_list, and_one};
ghost use Rattle.crack_witness.specs.Keeps.{HasRoomForOne};

use crate::receipt::Receipt;
use crack_part::Partition;
use crack_row::{Command, Entry, Policy, Refusal, Reply};
use std::alloc::{AllocError, Global};

/// How many items a list first has room for. A block of memory this large is mapped separately, so it grows without
/// being copied, and its unused part takes no memory.
const FIRST_ITEMS: usize = 2048;

/// An empty list if there is an audit, otherwise `None`. Takes no memory.
pub(crate) fn list_for<T: Drop>(alloc: Global, is_audited: bool) -> Option<Vec<T>>
    ensures { listed result ≡ empty_list is_audited }
{
    if is_audited {
        Some(Vec::new(alloc))
    } else {
        None
    }
}

/// Answers a command of a worker at partition `part` as `Partition::apply` does. Adds the entry to `entries`, the
/// partition's list, and the receipt to `receipts`, the worker's, if there are such lists: with an audit. Costs O(1),
/// amortised, beyond `apply`; with an audit also two copies of a select's list. Refused as `apply` is, and with
/// `OutOfMemory` also if no memory is found for the lists or the copies; then nothing is added to a list.
pub(crate) fn apply_listed(
    partition: &mut Partition,
    entries: &mut Option<Vec<Entry>>,
    receipts: &mut Option<Vec<Receipt>>,
    part: u32,
    worker: u32,
    command: Command,
    policy: Policy,
) -> Result<Reply, Refusal>
    ensures reply { IfOk result (λ reply. reply ≡ reply_to (state_of partition.old) command) }
    ensures small { IfOk result IsSmall }
    ensures table { OnOk result (table_of partition.new ≡ answered partition.old.limits (table_of partition.old)
        command) }
    ensures store { OnOk result (Serves policy partition.old command partition.new.store) }
    ensures opened { (partition.new.keys ≡ partition.old.keys) × (partition.new.limits ≡ partition.old.limits) }
    ensures entries { IfOk result (λ reply. listed entries.new ≡ and_one (listed entries.old) (record {
      worker = worker;
      command = command;
      reply = reply;
    })) }
    ensures receipts { IfOk result (λ reply. listed receipts.new ≡ and_one (listed receipts.old) (record {
      part = part;
      position = accepted_of (table_of partition.old);
      worker = worker;
      command = command;
      reply = reply;
    })) }

    ensures err { OnErr result (table_of partition.new ≡ table_of partition.old) }
    ensures unlisted { OnErr result ((listed entries.new ≡ listed entries.old) ×
        (listed receipts.new ≡ listed receipts.old)) }
    ensures spared { OnErr result (Spares policy partition.old command partition.new.store) }
    ensures refused { IfSome (refusal_of partition.old command) (λ e. (result ≡ Err e) ×
        (partition.new ≡ partition.old)) }
    ensures memory { refusal_of partition.old command ≡ None → IfErr result (λ e. e ≡ Refusal.OutOfMemory) }
{
    if entries.is_none() && receipts.is_none() {
        let asked = command;
        return partition.apply(asked, policy);
    }
    let position = make_room(partition, entries, receipts, &command)?;
    let copies = partition.apply_copied(command, policy)?;
    let entry = Entry {
        worker,
        command,
        reply: copies.kept,
    };
    let receipt = Receipt {
        part,
        position,
        worker,
        command,
        reply: copies.receipt,
    };
    add(entries, entry);
    add(receipts, receipt);
    Ok(copies.reply)
}

/// Makes room for one more entry and one more receipt, in the lists that there are, and returns how many commands the
/// partition has accepted so far. Refused if the partition would refuse the command, for the same cause; or with
/// `OutOfMemory` if no memory is found. No list gets an item.
fn make_room(
    partition: &Partition,
    entries: &mut Option<Vec<Entry>>,
    receipts: &mut Option<Vec<Receipt>>,
    command: &Command,
) -> Result<u64, Refusal>
    ensures position { IfOk result (λ n. n ≡ accepted_of (table_of partition.now)) }
    ensures entries { (listed entries.new ≡ listed entries.old) × OnOk result (HasRoomForOne entries.new) }
    ensures receipts { (listed receipts.new ≡ listed receipts.old) × OnOk result (HasRoomForOne receipts.new) }
    ensures goes_on { OnOk result (refusal_of partition.now command.now ≡ None) }
    ensures refused { IfSome (refusal_of partition.now command.now) (λ r. IfErr result (λ e. e ≡ r)) }
    ensures memory { refusal_of partition.now command.now ≡ None → IfErr result (λ e. e ≡ Refusal.OutOfMemory) }
{
    if let Some(refusal) = partition.refusal(command) {
        return Err(refusal);
    }
    reserve(entries)?;
    reserve(receipts)?;
    Ok(partition.accepted())
}

/// Makes room for one more item in a list, if there is a list. O(1), amortised. Refused if no memory is found.
pub(crate) fn reserve<T: Drop>(list: &mut Option<Vec<T>>) -> Result<(), AllocError>
    ensures same { listed list.new ≡ listed list.old }
    ensures room { OnOk result (HasRoomForOne list.new) }
{
    if let Some(items) = list {
        if items.len() == items.capacity() {
            items.reserve(items.len().max(FIRST_ITEMS))?;
        }
    }
    Ok(())
}

/// Adds an item to a list, which must have room; does nothing if there is no list.
fn add<T: Drop>(list: &mut Option<Vec<T>>, item: T)
    requires room { HasRoomForOne list.old }
    ensures { listed list.new ≡ and_one (listed list.old) item }
{
    if let Some(items) = list {
        items.push_reserved(item);
    }
}
