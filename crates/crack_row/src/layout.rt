//! The layout of a partition in numbers.
ghost use Rattle.std.specs.Prelude.{◌≡◌};

use crate::Bound;
use std::marker::Model;

/// A piece of the cracker column: its bounds, and its number of rows.
#[derive(Clone, Copy, PartialEq, Eq, Debug)]
pub struct PieceSize {
    pub low: Bound,
    pub high: Bound,
    pub size: u64,
}

/// The pieces of a cracker column, in rising order. Contracts see a list.
#[derive(Drop, Debug)]
pub struct PieceList {
    pieces: Vec<PieceSize>,
}

impl Model for PieceList {
    ghost use Rattle.std.specs.Prelude.{List};
    ghost use Rattle.crack_row.specs.declared.layout.PieceSize.{PieceSize};

    ghost Value = { List PieceSize };

    ghost view = { λ l. l.pieces.items };
}

impl PieceList {
    /// Makes a list of these pieces. O(1), takes no memory.
    pub fn from_vec(pieces: Vec<PieceSize>) -> PieceList
        ensures { result ≡ pieces.items }
    {
        PieceList { pieces }
    }

    /// The pieces as a slice. O(1).
    pub fn as_slice(&self) -> &[PieceSize]
        ensures { result.now ≡ self.now }
    {
        self.pieces.as_slice()
    }
}

/// How many live rows, places in the cracker column, pending deletions, pending insertions, cells and free cells a
/// partition has, and its pieces.
#[derive(Drop, Debug)]
pub struct Layout {
    pub rows: u64,
    pub column: u64,
    pub pending_out: u64,
    pub pending_in: u64,
    pub cells: u64,
    pub free: u64,
    pub pieces: PieceList,
}
