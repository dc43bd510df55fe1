//! The cracker index: the bounds that divide a cracked column, each with its place ("Database Cracking", CIDR
//! 2007). Also the sums of the pieces into which bounds divide the keys.
#![tactic(auto)]

mod amounts;
pub mod index;
mod lowering;
pub mod mark;
pub mod pass;
mod raising;
pub mod source;
mod sum_tree;
pub mod sums;
mod tree;
pub mod visitor;
mod walk;

pub use index::{CrackerIndex, Piece};
pub use mark::Mark;
pub use pass::Pass;
pub use source::SumSource;
pub use sums::PieceSums;
pub use visitor::{Placer, Raiser, Visitor};
