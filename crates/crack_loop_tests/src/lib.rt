//! Tests of connections over loopback, for what no contract says.
#![tactic(auto)]

#[cfg(test)]
mod clients;
#[cfg(test)]
mod crowds;
#[cfg(test)]
mod hostile;
#[cfg(test)]
mod stops;
