//! Receipts compared with the partitions' lists of entries. Each case says what must be covered, and the outcome.
use crack_row::{Command, Entry, Key, KeyRange, Payload, PayloadNumber, Refusal, Reply, Serial};
use crack_table::cover;
use crack_witness::Receipt;
use std::alloc::Global;
use std::process::Abort;

/// What a receipt says. Entries are those of such receipts.
#[derive(Clone, Copy)]
enum Said {
    /// Worker 3's count of all keys, which found none, in this partition at this position.
    Counted(u32, u64),
    /// Worker 5's insert, whose reply is that there was no row, at this position of partition 0.
    NoRow(u64),
    /// Worker 0's insert of this payload, which inserted row 0, at position 0 of partition 0.
    Inserted(PayloadNumber),
}

/// Receipts, and the lists that they should cover.
#[derive(Clone, Copy)]
struct Case {
    name: &'static str,
    /// How many partitions there are. The lists of all but the last two are empty.
    parts: usize,
    /// How many entries the last partition but one has, if there is one, and how many the last has.
    lengths: [usize; 2],
    /// What each entry says.
    entry: Said,
    /// The receipts, as one list or two.
    receipts: &'static [Said],
    more: Option<&'static [Said]>,
    /// The partition and the position in `StrangeReceipt`, if the receipts don't cover the lists.
    strange: Option<(u32, u64)>,
}

/// Worker 3's count of all keys, which found none.
const COUNTED: Said = Said::Counted(0, 0);

const CASES: &[Case] = &[
    Case {
        name: "receipts of all entries cover them",
        parts: 2,
        lengths: [2, 0],
        entry: COUNTED,
        receipts: &[Said::Counted(0, 0)],
        more: Some(&[Said::Counted(0, 1)]),
        strange: None,
    },
    Case {
        name: "a receipt without entries is strange",
        parts: 1,
        lengths: [0, 0],
        entry: COUNTED,
        receipts: &[Said::Counted(0, 0)],
        more: None,
        strange: Some((0, 0)),
    },
    Case {
        name: "a receipt given twice is strange",
        parts: 1,
        lengths: [0, 1],
        entry: COUNTED,
        receipts: &[Said::Counted(0, 0), Said::Counted(0, 0)],
        more: None,
        strange: Some((0, 0)),
    },
    Case {
        name: "an entry named by two workers is strange",
        parts: 1,
        lengths: [0, 1],
        entry: COUNTED,
        receipts: &[Said::Counted(0, 0)],
        more: Some(&[Said::NoRow(0)]),
        strange: Some((0, 0)),
    },
    Case {
        name: "an entry without receipt is strange",
        parts: 1,
        lengths: [0, 2],
        entry: COUNTED,
        receipts: &[Said::Counted(0, 0)],
        more: None,
        strange: Some((0, 1)),
    },
    Case {
        name: "an entry without receipt goes before a stranger",
        parts: 2,
        lengths: [0, 1],
        entry: COUNTED,
        receipts: &[Said::Counted(5, 7)],
        more: None,
        strange: Some((1, 0)),
    },
    Case {
        name: "an entry of an earlier partition goes first",
        parts: 2,
        lengths: [1, 2],
        entry: COUNTED,
        receipts: &[Said::Counted(1, 0)],
        more: None,
        strange: Some((0, 0)),
    },
    Case {
        name: "a receipt of another place is a stranger",
        parts: 1,
        lengths: [0, 1],
        entry: COUNTED,
        receipts: &[Said::Counted(0, 0), Said::Counted(5, 7)],
        more: None,
        strange: Some((5, 7)),
    },
    Case {
        name: "a receipt behind the last entry is a stranger",
        parts: 2,
        lengths: [1, 0],
        entry: COUNTED,
        receipts: &[Said::Counted(0, 0), Said::Counted(0, 1)],
        more: None,
        strange: Some((0, 1)),
    },
    Case {
        name: "receipts out of order are strange",
        parts: 1,
        lengths: [0, 2],
        entry: COUNTED,
        receipts: &[Said::Counted(0, 1), Said::Counted(0, 0)],
        more: None,
        strange: Some((0, 0)),
    },
    Case {
        name: "the order is that of all receipts before",
        parts: 1,
        lengths: [0, 3],
        entry: COUNTED,
        receipts: &[
            Said::Counted(0, 1),
            Said::Counted(0, 2),
            Said::Counted(0, 0),
        ],
        more: None,
        strange: Some((0, 0)),
    },
    // A partition's number has 32 bits, so there may be more partitions than a table has.
    Case {
        name: "more partitions than a table has are covered",
        parts: 101,
        lengths: [0, 1],
        entry: COUNTED,
        receipts: &[Said::Counted(100, 0)],
        more: None,
        strange: None,
    },
    Case {
        name: "an altered receipt is strange",
        parts: 1,
        lengths: [0, 1],
        entry: Said::Inserted(1),
        receipts: &[Said::Inserted(2)],
        more: None,
        strange: Some((0, 0)),
    },
];

/// An insert of key 1 with this payload.
fn insert(payload: PayloadNumber) -> Command {
    Command::Insert {
        key: Key::from_number(1),
        payload: Payload::from_number(payload),
    }
}

fn receipt(said: Said) -> Receipt {
    let (part, position, worker, command, reply) = match said {
        Said::Counted(part, position) => {
            let command = Command::Count(KeyRange::all());
            (part, position, 3, command, Reply::Counted(0))
        }
        Said::NoRow(position) => (0, position, 5, insert(1), Reply::NoRow),
        Said::Inserted(payload) => (0, 0, 0, insert(payload), Reply::Placed(Serial(0))),
    };
    Receipt {
        part,
        position,
        worker,
        command,
        reply,
    }
}

/// The entry of a receipt that says this.
fn entry(said: Said) -> Entry {
    let Receipt {
        worker,
        command,
        reply,
        ..
    } = receipt(said);
    Entry {
        worker,
        command,
        reply,
    }
}

fn receipts_of(rt: &impl Abort, alloc: Global, list: &[Said]) -> Vec<Receipt> {
    let mut receipts = Vec::new(alloc);
    'list: for place in 0..list.len() {
        assert!(rt; receipts.push(receipt(list[place])).is_ok());
    }
    receipts
}

/// Whether the receipts cover the lists of a case.
fn cover_case(
    rt: &impl Abort,
    alloc: Global,
    case: Case,
    receipts: &[&[Receipt]],
) -> Result<(), Refusal> {
    let entries = [entry(case.entry), entry(case.entry), entry(case.entry)];
    let [earlier, last] = case.lengths;
    assert!(rt; case.parts <= 101 && earlier <= 3 && last <= 3);
    let mut lists = [&entries[..0]; 101];
    lists[99] = &entries[..earlier];
    lists[100] = &entries[..last];
    cover(alloc, &lists[101 - case.parts..], receipts)
}

/// The outcome of a case.
fn end_of(rt: &impl Abort, alloc: Global, case: Case) -> Result<(), Refusal> {
    let receipts = receipts_of(rt, alloc, case.receipts);
    match case.more {
        Some(more) => {
            let more = receipts_of(rt, alloc, more);
            cover_case(rt, alloc, case, &[receipts.as_slice(), more.as_slice()])
        }
        None => cover_case(rt, alloc, case, &[receipts.as_slice()]),
    }
}

#[test]
fn receipts_cover_lists_or_are_strange(rt: HostRuntime) {
    'cases: for place in 0..CASES.len() {
        let case = CASES[place];
        let wanted = match case.strange {
            Some((part, position)) => Err(Refusal::StrangeReceipt { part, position }),
            None => Ok(()),
        };
        let ended = end_of(&rt, rt.alloc(), case);
        assert!(rt; ended == wanted, "{}", case.name);
    }
}
