//! Limits and splits of tables, what workers ask, and the totals of gathered workers.
use crack_row::{
    Bound, BoundNumber, Command, GREATEST_CELLS, GREATEST_LIFE, GREATEST_LIMIT, Key, KeyNumber,
    Limits, Payload, Policy, Refusal, Reply, Upkeep,
};
use crack_table::{Gate, Gathered, Table, gather};
use crack_witness::{Naming, Worker};
use std::alloc::Global;
use std::process::Abort;
use std::sync::Wait;

/// No splits: one partition.
pub(crate) const ONE: &[BoundNumber] = &[];

/// Two partitions, which meet at key 1000000.
pub(crate) const TWO: &[BoundNumber] = &[1000000];

/// Two partitions, which meet at key 100.
pub(crate) const HUNDRED: &[BoundNumber] = &[100];

/// Four partitions, which meet at keys 100, 200 and 300.
pub(crate) const FOUR: &[BoundNumber] = &[100, 200, 300];

/// The greatest limits, with checkpoints on request.
pub(crate) const GREATEST: Limits = Limits {
    history: GREATEST_LIMIT,
    cells: GREATEST_CELLS,
    life: GREATEST_LIFE,
    upkeep: Upkeep::OnRequest,
};

/// The same, with at most ten entries in each history.
pub(crate) const TEN: Limits = Limits {
    history: 10,
    ..GREATEST
};

/// The bounds with these numbers.
pub(crate) fn bounds(rt: &impl Abort, alloc: Global, numbers: &[BoundNumber]) -> Vec<Bound> {
    let mut bounds = Vec::new(alloc);
    'numbers: for place in 0..numbers.len() {
        assert!(rt; bounds.push(Bound::from_number(numbers[place])).is_ok());
    }
    bounds
}

/// Adds a worker after the others.
pub(crate) fn give_back<J: Naming>(
    rt: &impl Abort,
    workers: &mut Vec<Worker<J>>,
    worker: Worker<J>,
) {
    assert!(rt; workers.push(worker).is_ok());
}

/// How many commands were accepted, and rows inserted, deleted and held.
pub(crate) fn totals_in<J: Naming>(gathered: &Gathered<J>) -> [u64; 4] {
    [
        gathered.accepted,
        gathered.inserted,
        gathered.deleted,
        gathered.held,
    ]
}

/// Gathers a table, and asserts how many commands were accepted, and rows inserted, deleted and held.
pub(crate) fn assert_totals<J: Naming>(
    rt: &impl Abort,
    alloc: Global,
    table: Table<J>,
    workers: Vec<Worker<J>>,
    wanted: [u64; 4],
) {
    let gathered = gather(alloc, table, workers).ok().expect(rt, "gathered");
    let found = totals_in(&gathered);
    drop(gathered);
    assert_eq!(rt; found, wanted);
}

/// An insert of a key.
pub(crate) fn insert(key: u32) -> Command {
    Command::Insert {
        key: Key::from_number(KeyNumber::from(key)),
        payload: Payload::from_number(1),
    }
}

/// The answer that a worker gets with a gate.
pub(crate) fn ask<J: Naming, R: Wait, G: Gate>(
    rt: &R,
    worker: &mut Worker<J>,
    table: &Table<J>,
    gate: &G,
    part: u32,
    command: Command,
) -> Result<Reply, Refusal> {
    table.ask(rt, gate, worker, part, command, Policy::Complete)
}
