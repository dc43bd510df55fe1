//! How much memory an audit takes for a command.
use crack_row::{Entry, Row};
use crack_witness::Receipt;

/// An entry in its partition's list takes 80 bytes, a receipt in its worker's list 96, and a listed row 24 more in
/// each.
#[test]
fn an_audit_keeps_176_bytes_a_command(rt: HostRuntime) {
    assert!(rt; size_of::<Entry>() == 80 && size_of::<Receipt>() == 96 && size_of::<Row>() == 24);
}
