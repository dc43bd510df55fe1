//! The rows of records.
use crack_row::{Key, Payload};

/// The row of a record that is loaded.
#[derive(Clone, Copy, PartialEq, Eq, Debug)]
pub struct NewRow {
    pub key: Key,
    pub payload: Payload,
}
