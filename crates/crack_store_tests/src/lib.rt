//! Tests through the public calls of rows, cells, pending lists, the cracker column, its index and sums, the store
//! and the merges. They check what no contract states.
#![tactic(auto)]

#[cfg(test)]
mod alike;
#[cfg(test)]
mod arena;
#[cfg(test)]
mod bulk;
#[cfg(test)]
mod carried;
#[cfg(test)]
mod column;
#[cfg(test)]
mod filled;
#[cfg(test)]
mod index;
#[cfg(test)]
mod listed;
#[cfg(test)]
mod merge;
#[cfg(test)]
mod pending;
#[cfg(test)]
mod row;
#[cfg(test)]
mod runs;
#[cfg(test)]
mod script;
#[cfg(test)]
mod serials;
#[cfg(test)]
mod sorted_index;
#[cfg(test)]
mod spread;
#[cfg(test)]
mod store;
#[cfg(test)]
mod sums;
