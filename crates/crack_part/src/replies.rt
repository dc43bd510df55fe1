//! Replies and their copies.
ghost use Rattle.std.specs.Prelude.{◌≡◌, IsOk, IfOk, IfErr};
ghost use Rattle.crack_row.specs.Replies.{IsFlat};
ghost use Rattle.crack_plain.specs.Plain.{IsSmall};
ghost use Rattle.crack_plain.specs.Inside.{gone, rewritten};

use crack_row::{Refusal, Reply, Row};
use std::alloc::Global;

/// A reply with its copies.
#[derive(Drop)]
pub struct Copies {
    /// For the asking worker.
    pub reply: Reply,
    /// For the worker's receipt.
    pub receipt: Reply,
    /// For the entry in the partition's list, which an audit keeps.
    pub kept: Reply,
}

/// The reply to a delete that found this row: `Gone` with the row, or `NoRow` if it found none.
pub(crate) fn gone(row: Option<Row>) -> Reply
    ensures is { result ≡ gone row }
    ensures flat { IsFlat result }
    ensures small { IsSmall result }
{
    match row {
        Some(row) => Reply::Gone(row),
        None => Reply::NoRow,
    }
}

/// The reply to an update that found this row: `Changed`, or `NoRow` if it found none.
pub(crate) fn rewritten(row: Option<Row>) -> Reply
    ensures is { result ≡ rewritten row }
    ensures flat { IsFlat result }
    ensures small { IsSmall result }
{
    match row {
        Some(_) => Reply::Changed,
        None => Reply::NoRow,
    }
}

/// Returns a reply with two copies of it. Refused with `OutOfMemory` if no memory is found for the copies of a list.
#[inline(always)]
pub(crate) fn copied(reply: Reply, alloc: Global) -> Result<Copies, Refusal>
    ensures ok { IfOk result (λ copies. (copies.reply ≡ reply) × (copies.receipt ≡ reply) × (copies.kept ≡ reply)) }
    ensures err { IfErr result (λ e. e ≡ Refusal.OutOfMemory) }
    ensures flat { IsFlat reply → IsOk result }
{
    let receipt = copy_of(&reply, alloc)?;
    let kept = copy_of(&reply, alloc)?;
    Ok(Copies {
        reply,
        receipt,
        kept,
    })
}

/// A copy of a reply; inlined for `Reply::Placed`, the most frequent one. Refused as `copied` is.
#[inline(always)]
fn copy_of(reply: &Reply, alloc: Global) -> Result<Reply, Refusal>
    ensures ok { IfOk result (λ copy. copy ≡ reply.now) }
    ensures err { IfErr result (λ e. e ≡ Refusal.OutOfMemory) }
    ensures flat { IsFlat reply.now → IsOk result }
{
    match reply {
        Reply::Placed(serial) => Ok(Reply::Placed(*serial)),
        _ => reply.copy(alloc),
    }
}
