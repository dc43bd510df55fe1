//! A bound of a cracked column, with its place.

use crack_row::InnerBound;

/// A bound, and the place at which it divides the column: the rows before this place are below the bound, and the
/// others aren't.
#[derive(Clone, Copy, PartialEq, Eq, Debug)]
pub struct Mark {
    pub bound: InnerBound,
    pub position: usize,
}
