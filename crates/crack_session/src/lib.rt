//! Sessions over a table: lines of statements in, lines of replies out.
#![tactic(auto)]

mod answer;
mod core_desk;
pub mod desk;
pub mod feeding;
mod input;
mod line;
mod output;
mod query;
pub mod rest;
pub mod serving;
pub mod session;
mod watching;

pub use desk::Desk;
pub use feeding::{Fed, Session, Why};
pub use rest::Output;
pub use serving::serve;
pub use session::{Fault, How, SessionEnd};

/// The greatest length of a statement's line, in bytes, without its line feed and one carriage return before it.
pub const LINE_BYTES: usize = 200;

/// The greatest number of reads that one session makes.
pub const MOST_READS: u64 = 1000000000;

/// How many bytes of text are collected before they are written to a device: enough for the replies to one read, if
/// none of them lists rows, pieces or statistics. The 4096 bytes of a read end at most one line that began before,
/// whose reply has at most 47 bytes, as for `gone` with the longest numbers, and hold at most 2048 more lines; a
/// line of 2 bytes gets the longest reply for its length, the 10 bytes of `refused 1`.
pub const OUTPUT_BYTES: usize = 24576;
