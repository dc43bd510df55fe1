//! Tests of tables, of their workers, and of desks at which workers serve sessions and loads. They check what no
//! contract says.
#![tactic(auto)]

#[cfg(test)]
mod checkpoints;
#[cfg(test)]
mod covers;
#[cfg(test)]
mod desks;
#[cfg(test)]
mod gates;
#[cfg(test)]
mod gatherings;
#[cfg(test)]
mod lines;
#[cfg(test)]
mod loads;
#[cfg(test)]
mod locks;
#[cfg(test)]
mod memory;
#[cfg(test)]
mod receipts;
#[cfg(test)]
mod script;
#[cfg(test)]
mod tables;
#[cfg(test)]
mod threads;
#[cfg(test)]
mod trials;
#[cfg(test)]
mod values;
