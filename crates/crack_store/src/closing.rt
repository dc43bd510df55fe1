//! Closes the pieces of a column over their doomed rows, from the lowest piece up. The doomed rows gather in a hole
//! before the next piece, which passes it: only as many of its rows move as the hole or the piece has.
//!
//! ```text
//! before      5 3 ×  |  12 × 17  |  21 25 28        three pieces; × is a doomed row
//! in between  5 3 | 12 17 (× ×)  |  21 25 28        the hole is before the last piece
//! after       5 3 | 12 17 | 28 21 25 (× ×)
//! ```
ghost use Rattle.std.specs.Prelude.{◌≤◌, [], length};
ghost use Rattle.crack_store.specs.Closings.{Closes, ClosesPieces, IsClosingReady};
ghost use Rattle.crack_store.specs.Keeps.{KeepsIntact};

use crate::blocks::{exchange_sides, part_doomed};
use crate::inside::Inside;
use crack_column::CrackerColumn;
use crack_index::{Mark, Placer};
use crack_pending::PendingOut;

/// A visitor of a walk over the bounds from the lowest up, which closes the pieces of a column over their doomed rows.
/// The next piece begins at the index `from`; the hole, with the doomed rows so far, is the `gap` rows before it.
#[derive(Drop)]
pub(crate) struct Closing<'a> {
    pub(crate) column: CrackerColumn,
    pub(crate) pending_out: &'a PendingOut,
    pub(crate) from: usize,
    pub(crate) gap: usize,
    /// The number of rows pulled, as in the store's tally.
    pub(crate) pulled: u64,
}

/// Closes the next piece, which ends at the index `to`: its rows that aren't doomed come before the hole, and the
/// others join the hole. Returns the index where the piece then ends. Moves as many rows as the hole before had, or as
/// many as stay if they are fewer, and exchanges at most one for each doomed row. O(to - from).
pub(crate) fn close_piece(closing: &mut Closing, to: usize) -> usize
    requires ready { IsClosingReady closing.old }
    requires order { closing.old.from ≤ to }
    requires within { to ≤ length closing.old.column.handles }
    ensures closes { Closes closing.old to result closing.new }
    ensures ready { IsClosingReady closing.new }
{
    let Closing { from, gap, .. } = *closing;
    let live = part_doomed(&mut closing.column, from, to, closing.pending_out);
    let start = from - gap;
    let moved = exchange_sides(&mut closing.column, start, from, live);
    let end = live - gap;
    closing.from = to;
    closing.gap = to - end;
    closing.pulled = closing.pulled.saturating_add(moved as u64);
    end
}

impl<'a> Placer for Closing<'a> {
    ghost use Rattle.crack_store.specs.Closings.{IsClosingReady, ClosesAt};

    ghost is_ready = { IsClosingReady };

    ghost places = { ClosesAt };

    /// Closes the piece that the bound ends, and returns the bound's new index. If the bound's index is before the next
    /// piece or past the column's end, returns it, and changes nothing.
    fn place(&mut self, mark: Mark) -> usize {
        let to = mark.position;
        if to < self.from || self.column.len() < to {
            return to;
        }
        close_piece(self, to)
    }
}

/// Closes all pieces of the column over the doomed rows, which come last. Each bound moves down to the end of its
/// piece. Returns the index where the doomed rows begin. O(rows + bounds); in each piece as many rows move as the lower
/// pieces have doomed ones, or as stay in it if they are fewer.
pub(crate) fn close_pieces(inside: &mut Inside) -> usize
    requires { KeepsIntact inside.old [] }
    ensures closes { ClosesPieces inside.old inside.new result }
{
    let mut closing = Closing {
        column: inside.column.take(),
        pending_out: &inside.pending_out,
        from: 0,
        gap: 0,
        pulled: inside.tally.pulled,
    };
    inside.index.place_each(&mut closing);
    let to = closing.column.len();
    let live = close_piece(&mut closing, to);
    let Closing { column, pulled, .. } = closing;
    inside.column = column;
    inside.tally.pulled = pulled;
    live
}
