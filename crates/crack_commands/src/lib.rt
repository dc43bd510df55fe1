//! The statement language and its texts: parses a line into a statement, and appends the lines of replies and layouts.
#![tactic(auto)]

mod leading;
mod output;
pub mod statement;
pub mod text;
pub mod watching;
mod words;

pub use leading::{LeadingInsert, leading_insert};
pub use output::send;
pub use statement::{ClosingLine, Statement, parse_long, parse_statement};
pub use text::{
    LONGEST_TEXT, TEXT_BYTES, policy_line, push, push_checkpoint, push_count, push_gone, push_head,
    push_layout_head, push_piece, push_placed, push_refusal, push_row, push_sum,
};
pub use watching::{Traffic, push_numbers};
pub use words::{read_key, read_number_up_to, read_payload};
