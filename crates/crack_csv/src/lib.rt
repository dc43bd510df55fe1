//! Rows as CSV: loads records into a table, and exports a table's rows as records.
#![tactic(auto)]

mod begun;
pub mod export;
mod insertion;
pub mod load;
pub mod loader;
mod record;
mod text;

pub use export::{export_csv, leaves_no_row_out};
pub use load::{LoadFault, load_csv};
pub use loader::Loader;

/// The greatest number of records that one load inserts.
pub const MOST_RECORDS: u64 = 64000000;
