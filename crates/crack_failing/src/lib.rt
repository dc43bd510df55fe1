//! A reader and a writer for tests, which fail at a call that the test names.
#![tactic(auto)]

pub mod sink;
pub mod source;

pub use sink::Sink;
pub use source::{ONE_BYTE, Source};
