//! A map from the serials of rows to their handles, in which no insertion takes long.
//!
//! A hash table that grows moves all its entries at once. So there are 64 maps of neighbouring serials, which grow
//! one at a time.
#![tactic(auto)]

pub mod serial_hash;
mod serials;
mod shares;

pub use serials::{Lead, Serials};
