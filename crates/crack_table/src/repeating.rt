//! One thread repeats the answers to gathered workers.
ghost use Rattle.std.specs.Prelude.{List};
ghost use Rattle.crack_row.specs.declared.Bound.{Bound};
ghost use Rattle.crack_row.specs.declared.limit.Limits.{Limits};
ghost use Rattle.crack_core.specs.Opening.{AreParts};
ghost use Rattle.crack_table.specs.Gather.{held_by};
ghost use Rattle.crack_table.specs.Repeats.{pasts_of, Repeats};

use crate::gathering::{Gathered, recall_invariant};
use crack_witness::Naming;

/// States that one thread can repeat the answers to a table's workers. Take a core with the same splits and limits,
/// whose partitions have the rows that the gathered ones had at their last checkpoint. Take any list of steps that
/// asks of each partition the commands that it answered since that checkpoint, in order. The core then gives the
/// replies in the partitions' histories, up to a refusal for lack of memory or of a cell. Does nothing: O(partitions).
pub fn one_thread_repeats<J: Naming>(gathered: &Gathered<J>)
    ensures { (splits : List Bound) (limits : Limits) → AreParts splits limits (held_by gathered.now.parts.items) →
        Repeats splits limits (pasts_of J.owner gathered.now.parts.items) }
{
    recall_invariant(&gathered.parts);
}
