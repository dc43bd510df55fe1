//! A server whose totals can't be written.
use crate::tables::{of_workers, serve, terms_of};
use crack_row::{Policy, Refusal};
use crack_service::Alone;
use crack_table::OpenGate;
use std::alloc::Global;
use std::net::TcpListener;
use std::test::Fail;

#[test]
fn a_writer_without_room_for_the_totals_refuses_the_server(rt: HostRuntime) -> Result<(), Fail> {
    let alloc: Global = rt.alloc();
    let listener = TcpListener::bind(&rt, "127.0.0.1:0")?;
    let mut room = [0u8; 5];
    let mut writer: &mut [u8] = &mut room;
    let mut input: &[u8] = b"";
    let ended = serve(
        &rt,
        alloc,
        &listener,
        of_workers(1, true),
        terms_of(Policy::Ripple, 0),
        &OpenGate,
        &Alone,
        &mut input,
        &mut writer,
    );
    assert!(rt; ended == Err(Refusal::WriteFault));
    Ok(())
}
