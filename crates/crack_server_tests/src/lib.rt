//! Tests of batches and servers, for what no contract says.
#![tactic(auto)]

#[cfg(test)]
mod batches;
#[cfg(test)]
mod ends;
#[cfg(test)]
mod servers;
#[cfg(test)]
mod services;
#[cfg(test)]
mod sizes;
#[cfg(test)]
mod tables;
#[cfg(test)]
mod totals;
