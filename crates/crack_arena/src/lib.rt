//! Cells that store values, and handles, each of which reads a cell until it is freed.
//!
//! A freed cell is used again with the next generation, so older handles read nothing from then on. This is known
//! as a generational arena. The free list links each free cell to the one that was freed before it.
#![tactic(auto)]

mod arena;
mod cell_list;
mod cell_run;
mod cells;
mod handles;
mod page;
mod parts;
mod remembered;
mod rows;
mod words;

pub use arena::{Arena, PutRefused};
pub use cell_run::CellRun;
pub use handles::Handle;
pub use parts::{Generation, Slot};
pub use remembered::{Remembered, UNKNOWN_KEY};
pub use rows::{amount_of, key_of};

/// The greatest number of cells in an arena.
pub const MOST_CELLS: u64 = 16777216;

/// How often the cells of an arena may be freed in total.
pub const MOST_FREED: u64 = 1099511627775;
