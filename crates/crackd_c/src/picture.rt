//! The layout of a partition, for C.
ghost use Rattle.std.specs.Prelude.{◌≡◌, ◌≤◌, length};
ghost use Rattle.crackd_c.specs.Calls.{totals_in, PiecesIn};

use crack_row::{Bound, GREATEST_KEY, Layout, PieceSize};

/// The numbers of a partition's rows, column places, pending deletions, pending insertions, cells, free cells and
/// pieces.
#[repr(C)]
#[derive(Clone, Copy)]
pub struct LayoutTotals {
    pub rows: u64,
    pub column: u64,
    pub pending_out: u64,
    pub pending_in: u64,
    pub cells: u64,
    pub free: u64,
    pub pieces: u64,
}

/// The totals of a layout, without its list of pieces. O(1).
pub fn totals_of(layout: &Layout) -> LayoutTotals
    ensures { result ≡ totals_in layout.now }
{
    LayoutTotals {
        rows: layout.rows,
        column: layout.column,
        pending_out: layout.pending_out,
        pending_in: layout.pending_in,
        cells: layout.cells,
        free: layout.free,
        pieces: layout.pieces.as_slice().len() as u64,
    }
}

/// Writes the least key and the size of each piece, as far as the two lists have room, which must have the same
/// length. A piece above all keys gets 0 as its least key. O(pieces).
pub fn list_pieces(pieces: &[PieceSize], lows: &mut [u64], sizes: &mut [u64])
    requires { length sizes.old ≡ length lows.old }
    ensures { PiecesIn pieces.now lows.new sizes.new }
{
    'pieces: for i in 0..pieces.len() {
        if i >= lows.len() {
            return;
        }
        let piece = pieces[i];
        lows[i] = least_in(piece.low);
        sizes[i] = piece.size;
    }
}

/// The least key at or above a bound, or 0 if there is none.
fn least_in(bound: Bound) -> u64
    ensures { bound.0 ≤ GREATEST_KEY → result ≡ bound.0 }
{
    match bound.least_key() {
        Some(key) => key.number(),
        None => 0,
    }
}
