//! A row's handle beside its key.
use crack_arena::Handle;
use crack_row::{KeyNumber, Row};

/// A handle, and the key of its row, or `UNKNOWN_KEY` if that isn't remembered. Takes 16 bytes.
#[derive(Clone, Copy)]
pub struct Label {
    pub key: KeyNumber,
    pub handle: Handle<Row>,
}
