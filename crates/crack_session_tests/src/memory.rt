//! Sessions that find no memory for a statement: a refused statement changes nothing.
//!
//! The tests `sweep_..` hold whichever of their allocations is refused, so they can be run with each of them refused
//! in turn.
use crate::desks::Refusing;
use crate::plain_desk::PlainDesk;
use crate::session::{assert_session, ended, joined, session, tell};
use crack_core::Core;
use crack_failing::Source;
use crack_row::{GREATEST_LIMIT, Layout, Policy, Refusal, Watched};
use std::alloc::Global;
use std::io::Write;
use std::process::Abort;

/// Statements of one command each: rows are inserted, updated, deleted and read, with pending rows in between.
static LINES: [&[u8]; 17] = [
    b"insert 10 10\n",
    b"insert 20 20\n",
    b"insert 30 30\n",
    b"insert 40 40\n",
    b"count 0 18446744073709551616\n",
    b"count 15 25\n",
    b"insert 17 0\n",
    b"insert 90 0\n",
    b"delete 0.2\n",
    b"update 0.0 12 60\n",
    b"update 0.5 11 1\n",
    b"count 15 25\n",
    b"delete 0.3\n",
    b"sum 0 15\n",
    b"select 0 18446744073709551616\n",
    b"delete 0.5\n",
    b"count 0 50\n",
];

/// The replies of a plain table that skips the line with this number, and refuses it.
fn replies_without(rt: &impl Abort, alloc: Global, place: u64) -> Vec<u8> {
    let mut plain = PlainDesk::new(alloc);
    let mut writer = Watched::new(Vec::new(alloc));
    let mut at = 0u64;
    for line in LINES {
        at = at.saturating_add(1);
        let is_written = if at == place {
            writer.write_all(b"refused 8\n").is_ok()
        } else {
            let mut reader = Watched::new(line);
            session(
                alloc,
                &mut plain,
                Policy::Complete,
                &mut reader,
                &mut writer,
            )
            .is_ok()
        };
        assert!(rt; is_written);
    }
    drop(plain);
    writer.into_inner()
}

/// After a command that finds no memory, a desk answers as if that command had never been sent.
#[test]
fn a_want_of_memory_stops_nothing(rt: HostRuntime) {
    let alloc: Global = rt.alloc();
    let input = joined(&rt, alloc, &LINES);
    'places: for before in 0..17u64 {
        let place = before + 1;
        let replies = replies_without(&rt, alloc, place);
        let mut desk = Refusing::new(alloc, Refusal::OutOfMemory, place, place);
        let end = ended(17, Some(place));
        assert_session(&rt, alloc, &mut desk, Source::new(&input), &replies, end);
        drop(desk);
    }
}

/// Asserts that each cell is used once, that the rows are those of the column without pending deletions and with
/// pending insertions, and that the pieces make up the column.
fn assert_layout(rt: &impl Abort, layout: &Layout) {
    let mut column = 0u64;
    for piece in layout.pieces.as_slice() {
        column = column.saturating_add(piece.size);
    }
    let placed = layout.column.saturating_add(layout.pending_in);
    let cells = placed.saturating_add(layout.free);
    let kept = layout.rows.saturating_add(layout.pending_out);
    assert_eq!(rt;
        [column, cells, kept],
        [layout.column, layout.cells, placed]
    );
}

/// Answers one line with a core, and with a plain table unless the core finds no memory. Returns whether it finds none.
fn answer_beside(
    rt: &impl Abort,
    alloc: Global,
    core: &mut Core,
    plain: &mut PlainDesk,
    policy: Policy,
    line: &[u8],
) -> bool {
    let short = Ok(ended(1, Some(1)));
    let (found, text) = tell(rt, alloc, core, policy, Source::new(line));
    if found == short {
        assert!(rt; text.as_slice() == b"refused 8\n".as_slice());
        let layout = core.layout(0).expect(rt, "a layout");
        assert_layout(rt, &layout);
        return true;
    }
    let (found, mut wanted) = tell(rt, alloc, plain, policy, Source::new(line));
    if found == short {
        wanted = tell(rt, alloc, plain, policy, Source::new(line)).1;
    }
    assert!(rt; text.as_slice() == wanted.as_slice());
    false
}

/// Answers all lines with a new core, if it can be opened, and asserts that at most one line is refused.
fn answer_all(rt: &impl Abort, alloc: Global, policy: Policy) {
    let Ok(mut core) = Core::open(alloc, &[], GREATEST_LIMIT) else {
        return;
    };
    let mut plain = PlainDesk::new(alloc);
    let mut refused = 0u64;
    for line in LINES {
        if answer_beside(rt, alloc, &mut core, &mut plain, policy, line) {
            refused = refused.saturating_add(1);
        }
    }
    drop(core);
    drop(plain);
    assert!(rt; refused <= 1);
}

#[test]
fn sweep_session(rt: HostRuntime) {
    for policy in [
        Policy::Complete,
        Policy::Gradual,
        Policy::Ripple,
        Policy::Auto,
    ] {
        answer_all(&rt, rt.alloc(), policy);
    }
}
