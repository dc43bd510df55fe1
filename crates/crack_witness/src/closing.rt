//! Comparing partitions with workers, when a table is closed.
ghost use Rattle.std.specs.Prelude.{◌≡◌, All, Any, IfNone, IfSome, IfErr, OnOk};
ghost use Rattle.crack_witness.specs.Witnesses.{WorkerState, WitnessedState, HasSeen, Differs, MayDiffer};
ghost use Rattle.crack_witness.specs.Witnesses.{replies_at};

use crate::opening::Naming;
use crate::witnessed::Witnessed;
use crate::worker::Worker;
use crack_row::Refusal;

/// Checks that each partition's history has exactly the entries of each worker for which the worker received replies.
/// What the worker has seen of that history is then a prefix of it. Takes no memory. O(partitions × workers), however
/// many entries there are.
///
/// Refused with `StrangeReceipt` at the first partition that differs from a worker: its history has another number of
/// the worker's entries than the worker received replies, or one doesn't know of the other. The refusal carries the
/// partition's number, and the number of replies that the first worker that differs received there.
pub fn compare<J: Naming>(
    workers: &Vec<Worker<J>>,
    parts: &mut Vec<Witnessed<J>>,
) -> Result<(), Refusal>
    ensures same { parts.new.items ≡ parts.old.items }
    ensures agree { OnOk result (All (λ (w : WitnessedState). All (λ (a : WorkerState). HasSeen J.owner a w)
        workers.now.items) parts.old.items) }
    ensures differs { IfErr result (MayDiffer J.owner workers.now.items parts.old.items) }
{
    'parts: for place in 0..parts.len() {
        if let Some(position) = first_difference(workers, &mut parts[place]) {
            let part = parts[place].part();
            return Err(Refusal::StrangeReceipt { part, position });
        }
    }
    Ok(())
}

/// Looks for the first worker whose number of replies from the partition isn't the number of the worker's entries in
/// the partition's history, or that the partition doesn't know, or that doesn't know the partition. Returns the number
/// of that worker's replies from the partition, or `None` if there is no such worker. O(workers).
fn first_difference<J: Naming>(workers: &Vec<Worker<J>>, part: &mut Witnessed<J>) -> Option<u64>
    ensures same { part.new ≡ part.old }
    ensures none { IfNone result (All (λ (a : WorkerState). HasSeen J.owner a part.old) workers.now.items) }
    ensures some { IfSome result (λ position. Any (λ (a : WorkerState). Differs J.owner a part.old ×
        (position ≡ replies_at a part.old.part)) workers.now.items) }
{
    'workers: for worker in workers {
        if !worker.agrees(part) {
            return Some(worker.replies_of(part.part()));
        }
    }
    None
}
