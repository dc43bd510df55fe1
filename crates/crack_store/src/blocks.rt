//! Moves of blocks of rows in a column, for merges by piece.
ghost use Rattle.std.specs.Prelude.{◌≡◌, ◌-◌, ◌≤◌, length, min};
ghost use Rattle.crack_store.specs.Blocks.{ChangesSides, KeepsRows, Parts};

use crack_column::CrackerColumn;
use crack_pending::PendingOut;

/// Brings the rows at the indices `middle..to` before those at `from..middle`; both groups may get another order.
/// Returns how many pairs of rows were exchanged: as many as the smaller group has rows. Reads no row.
pub(crate) fn exchange_sides(
    column: &mut CrackerColumn,
    from: usize,
    middle: usize,
    to: usize,
) -> usize
    requires order { from ≤ middle }
    requires behind { middle ≤ to }
    requires within { to ≤ length column.old.handles }
    ensures sides { ChangesSides from middle to column.old.handles column.new.handles }
    ensures keeps { KeepsRows column.old column.new }
    ensures moved { result ≡ min (middle - from) (to - middle) }
{
    let count = (middle - from).min(to - middle);
    'rows: for i in 0..count {
        column.swap(from + i, to - count + i);
    }
    count
}

/// Divides the rows at the indices `from..to`: those that aren't doomed come first. Returns the index of the first
/// doomed one, or `to` if there is none. O(to - from); one exchange at most for each doomed row.
pub(crate) fn part_doomed(
    column: &mut CrackerColumn,
    from: usize,
    to: usize,
    pending_out: &PendingOut,
) -> usize
    requires order { from ≤ to }
    requires within { to ≤ length column.old.handles }
    ensures parts { Parts pending_out.now.handles from to column.old.handles column.new.handles result }
    ensures keeps { KeepsRows column.old column.new }
{
    let (mut live, mut end) = (from, to);
    'rows: while live < end {
        if pending_out.contains(column.slot_at(live)) {
            end -= 1;
            column.swap(live, end);
        } else {
            live += 1;
        }
    }
    live
}
