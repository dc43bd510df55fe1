//! Opens the pieces of a column for arrivals, from the highest piece down. A hole behind the next piece has as many
//! rows as arrivals are left. The piece passes the hole, of which only as many rows move as the hole keeps or the piece
//! has, and gets its arrivals behind it.
//!
//! ```text
//! before      5 3 | 12 17 | 28 21 25 (· · ·)        arrivals 4, 14 and 29; · is any row
//! in between  5 3 | 12 17 (· ·) | 25 28 21 29       the hole is before the last piece
//! after       5 3 4 | 12 17 14 | 25 28 21 29
//! ```
ghost use Rattle.std.specs.Prelude.{◌≡◌, ◌-◌, ◌<◌, ◌≤◌, ◌++◌, ℕ, length, map, take, drop, slice_index_or};
ghost use Rattle.crack_store.specs.Openings.{AreSorted, IsOpenable, IsOpeningReady, KeepsPut, Opens, OpensPieces};
ghost use Rattle.crack_store.specs.Openings.{arrival_handle};
ghost use Rattle.crack_store.specs.declared.opening.Arrival.{Arrival};

use crate::blocks::exchange_sides;
use crate::inside::Inside;
use crack_arena::{Handle, Remembered};
use crack_column::CrackerColumn;
use crack_index::{Mark, Raiser};
use crack_row::{KeyNumber, Payload, Row};

/// A row that arrives in the column, with its key and payload.
#[derive(Clone, Copy)]
pub(crate) struct Arrival {
    pub(crate) key: KeyNumber,
    pub(crate) payload: Payload,
    pub(crate) handle: Handle<Row>,
}

/// A visitor of a walk over the bounds from the highest down, which opens the pieces of a column for arrivals. The next
/// piece ends at the index `end`, and the hole is the rows at `end..to`: one for each arrival that is still to be put
/// in, the first ones of `arrivals`.
#[derive(Drop)]
pub(crate) struct Opening<'a> {
    pub(crate) column: CrackerColumn,
    /// By rising key.
    pub(crate) arrivals: &'a [Arrival],
    pub(crate) end: usize,
    pub(crate) to: usize,
    /// The number of rows moved, as in the store's tally.
    pub(crate) moved: u64,
}

/// Opens the next piece, which begins at the index `from` and the bound `low`: it passes the hole, and the arrivals
/// that aren't below `low` come after it. Returns how many arrivals are left. Moves as many rows as that, or as the
/// piece has if they are fewer. O(arrivals put in + rows moved).
pub(crate) fn open_piece(opening: &mut Opening, from: usize, low: KeyNumber) -> usize
    requires ready { IsOpeningReady opening.old }
    requires order { from ≤ opening.old.end }
    ensures opens { Opens opening.old from low result opening.new }
    ensures ready { IsOpeningReady opening.new }
{
    let Opening { end, to, .. } = *opening;
    let left = to - end;
    let next = count_below(opening.arrivals, left, low);
    let middle = to - (left - next);
    let moved = exchange_sides(&mut opening.column, from, end, middle);
    put_arrivals(&mut opening.column, to, &opening.arrivals[next..left]);
    opening.end = from;
    opening.to = middle - (end - from);
    opening.moved = opening.moved.saturating_add(moved as u64);
    next
}

/// Opens all pieces of the column for the arrivals, and puts each into its piece. The column's last rows are the hole,
/// one for each arrival. Each bound moves up to the new end of its piece. O(arrivals + bounds); in each piece as many
/// rows move as arrivals are below it, or as the piece has if they are fewer.
pub(crate) fn open_pieces(inside: &mut Inside, arrivals: &[Arrival])
    requires { IsOpenable inside.old arrivals.now }
    ensures { OpensPieces inside.old inside.new arrivals.now }
{
    let to = inside.column.len();
    let left = arrivals.len();
    let mut opening = Opening {
        column: inside.column.take(),
        arrivals,
        end: to - left,
        to,
        moved: inside.tally.moved,
    };
    inside.index.raise_each(left, &mut opening);
    let Opening {
        mut column,
        arrivals,
        end,
        to,
        moved,
    } = opening;
    put_arrivals(&mut column, to, &arrivals[..to - end]);
    inside.column = column;
    inside.tally.moved = moved;
}

/// How many of the first `left` arrivals are below the bound. O(1) for each that isn't.
fn count_below(arrivals: &[Arrival], left: usize, bound: KeyNumber) -> usize
    requires within { left ≤ length arrivals.now }
    requires sorted { AreSorted arrivals.now }
    ensures few { result ≤ left }
    ensures below { (k : ℕ) (d : Arrival) → k < result → (slice_index_or arrivals.now k d).key < bound }
    ensures above { (k : ℕ) (d : Arrival) → result ≤ k → k < left → bound ≤ (slice_index_or arrivals.now k d).key }
{
    let mut next = left;
    'rows: while 0 < next {
        if arrivals[next - 1].key < bound {
            return next;
        }
        next -= 1;
    }
    0
}

/// Puts the arrivals in the places of the column's last rows before the index `to`, in order. O(arrivals).
fn put_arrivals(column: &mut CrackerColumn, to: usize, arrivals: &[Arrival])
    requires some { length arrivals.now ≤ to }
    requires within { to ≤ length column.old.handles }
    ensures handles { column.new.handles ≡ take (to - length arrivals.now) column.old.handles ++
        (map arrival_handle arrivals.now ++ drop to column.old.handles) }
    ensures keeps { KeepsPut arrivals.now column.old column.new }
{
    let count = arrivals.len();
    'rows: for i in 0..count {
        let Arrival {
            key,
            payload,
            handle,
        } = arrivals[i];
        let _ = column.swap_in_remembered(to - (count - i), handle, Remembered::new(key, payload));
    }
}

impl<'a> Raiser for Opening<'a> {
    ghost use Rattle.crack_store.specs.Openings.{IsOpeningReady, OpensAt};

    ghost is_ready = { IsOpeningReady };

    ghost rises = { OpensAt };

    /// Opens the piece that the bound begins, and returns how far the bound rises: by the number of arrivals that are
    /// left. If the bound's index is after the end of the next piece, returns 0, and changes nothing.
    fn rise(&mut self, mark: Mark) -> usize {
        let Mark { bound, position } = mark;
        if self.end < position {
            return 0;
        }
        open_piece(self, position, bound.number())
    }
}
