//! Merges of pending rows into the cracker column, each row by a carry or a pull ("Updating a Cracked Database",
//! SIGMOD 2007). Both move one row of each piece on their way. The row that is being moved is the row in hand.
//!
//! A carry inserts a pending insertion. The row in hand takes the place where its own piece ends, and the row that
//! was there comes into the hand, and so on up the column, until the row in hand is appended to the column. If there
//! is a ceiling, a bound, a row at or above it isn't carried on but evicted: it becomes a pending insertion. A doomed
//! row, which has a pending deletion, is buried: it and its pending deletion are gone, and its cell is free.
//!
//! A pull deletes a doomed row. The row in hand is at first the column's last row, or a filler: a pending insertion
//! that takes the place of a deleted row. It takes the last place before its own piece, and the row that was there
//! comes into the hand, and so on down the column, until the doomed row is in hand and is buried.
#![tactic(auto)]

pub mod carries;
pub mod complete;
pub mod gradual;
pub mod pulls;
mod report;
pub mod ripple;

pub use carries::carry_range;
pub use complete::merge_complete;
pub use gradual::merge_gradual;
pub use pulls::pull_range;
pub use report::counted_between;
pub use ripple::{merge_ripple, ripple_in, ripple_out};
