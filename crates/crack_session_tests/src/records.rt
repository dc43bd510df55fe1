//! Loads and exports of CSV: the forms of records, texts that are cut off, and devices that fail.
use crate::session::core;
use crack_core::Core;
use crack_csv::{LoadFault, Loader, export_csv, load_csv};
use crack_failing::{ONE_BYTE, Sink, Source};
use crack_row::{BoundNumber, GREATEST_LIMIT, Policy, Refusal, Watched};
use std::alloc::Global;
use std::process::Abort;

/// A header and two records.
const TEXT: &[u8] = b"key,payload\n150,6\n50,5\n";

/// Loads a text. It has no contract, so that no test carries the contract of `load_csv`.
fn load(core: &mut Core, source: Source<'_>) -> Result<u64, LoadFault> {
    load_csv(core, Policy::Ripple, &mut Watched::new(source))
}

/// Exports a core. It has no contract either.
fn export(core: &mut Core, writer: &mut Watched<Sink>) -> Result<u64, Refusal> {
    export_csv(core, Policy::Ripple, writer)
}

/// Loads a reader's bytes into one partition.
fn end_of(rt: &impl Abort, alloc: Global, source: Source<'_>) -> Result<u64, LoadFault> {
    let mut desk = core(rt, alloc, &[], GREATEST_LIMIT);
    let ended = load(&mut desk, source);
    drop(desk);
    ended
}

/// The result of a load that a record cuts short.
fn bad_record(number: u64, loaded: u64) -> Result<u64, LoadFault> {
    let refusal = Refusal::BadRecord { number };
    Err(LoadFault { refusal, loaded })
}

/// The expected result if the first `bytes` bytes of the text are loaded.
fn end_of_cut(bytes: usize) -> Result<u64, LoadFault> {
    if bytes == 0 || bytes == 11 || bytes == 12 {
        Ok(0)
    } else if bytes <= 10 {
        bad_record(1, 0)
    } else if bytes <= 16 {
        bad_record(2, 0)
    } else if bytes <= 18 {
        Ok(1)
    } else if bytes <= 21 {
        bad_record(3, 1)
    } else {
        Ok(2)
    }
}

#[test]
fn a_text_is_cut_off_anywhere(rt: HostRuntime) {
    'cuts: for bytes in 0..TEXT.len() + 1 {
        let whole = end_of(&rt, rt.alloc(), Source::new(&TEXT[..bytes]));
        let dripping = Source::new(&TEXT[..bytes]).cut(ONE_BYTE);
        let by_bytes = end_of(&rt, rt.alloc(), dripping);
        let wanted = end_of_cut(bytes);
        assert!(rt; whole == wanted && by_bytes == wanted, "{bytes} bytes");
    }
}

/// Texts with a byte order mark, quotes and line ends of all kinds, and one that is refused.
const MARKED: &[&[u8]] = &[
    TEXT,
    b"\xEF\xBB\xBFkey,payload\r\n\r\n\"1\",\"-2\"\r3,4",
    b"\n1\"\"2,5\n\"6\"7,8",
    b"\xEF\xBB1,2\n",
];

/// Feeds a loader two pieces, and ends it.
fn end_of_pieces(
    loader: &mut Loader,
    desk: &mut Core,
    first: &[u8],
    second: &[u8],
) -> Result<u64, LoadFault> {
    loader.feed(desk, first)?;
    loader.feed(desk, second)?;
    loader.end(desk)
}

#[test]
fn pieces_are_loaded_as_the_whole(rt: HostRuntime) {
    'texts: for text in MARKED {
        let whole = end_of(&rt, rt.alloc(), Source::new(text));
        'cuts: for at in 0..text.len() + 1 {
            let mut desk = core(&rt, rt.alloc(), &[], GREATEST_LIMIT);
            let mut loader = Loader::new(Policy::Ripple);
            let ended = end_of_pieces(&mut loader, &mut desk, &text[..at], &text[at..]);
            drop(desk);
            assert!(rt; ended == whole, "cut at {at}");
        }
    }
}

/// Rows are inserted if the line feed of their record was read before the reader fails.
#[test]
fn a_reader_fails_behind_each_byte(rt: HostRuntime) {
    'cuts: for given in 0..24u64 {
        let loaded = u64::from(given >= 18) + u64::from(given >= 23);
        let source = Source::new(TEXT).cut(ONE_BYTE).failing_at(given + 1);
        let refusal = Refusal::ReadFault;
        let ended = end_of(&rt, rt.alloc(), source);
        assert!(rt;
            ended == Err(LoadFault { refusal, loaded }),
            "after {given} bytes"
        );
    }
}

/// Texts that are refused, each with the number of the refused record, and the number of rows before it.
const BAD: &[(&[u8], u64, u64)] = &[
    // only the first record can be a header
    (b"1,2\nkey,payload\n", 2, 1),
    (b"key,payload\nkey,payload\n", 2, 0),
    // fields are numbers in range
    (b"5,+6\n", 1, 0),
    (b"5, 6\n", 1, 0),
    (b"18446744073709551616,6\n", 1, 0),
    (b"5,9223372036854775808\n", 1, 0),
    (b"000000000000000000005,6\n", 1, 0),
    // a sign is directly before a payload's digits
    (b"-5,6\n", 1, 0),
    (b"5,6\n5,--6\n", 2, 1),
    (b"5,-\n", 1, 0),
    (b"5,- 6\n", 1, 0),
    (b"5,-9223372036854775809\n", 1, 0),
    // a record has two fields
    (b"5\n", 1, 0),
    (b"5,6\n7,8,9\n", 2, 1),
];

#[test]
fn bad_records_are_refused(rt: HostRuntime) {
    'texts: for place in 0..BAD.len() {
        let (text, number, loaded) = BAD[place];
        let ended = end_of(&rt, rt.alloc(), Source::new(text));
        assert!(rt; ended == bad_record(number, loaded), "text {place}");
    }
}

/// A text that is loaded into a core with these splits and this limit by a reader that returns `sizes` bytes and
/// fails at the read `read`, from 1, and is then exported to a writer that fails at the call `call`.
#[derive(Clone, Copy)]
struct Case {
    splits: &'static [BoundNumber],
    limit: u64,
    text: &'static [u8],
    sizes: &'static [usize],
    read: u64,
    loaded: Result<u64, LoadFault>,
    call: u64,
    exported: Result<u64, Refusal>,
    /// The bytes that the writer took.
    written: &'static [u8],
}

const CASES: &[Case] = &[
    // rows are exported partition by partition
    Case {
        splits: &[100],
        limit: GREATEST_LIMIT,
        text: TEXT,
        sizes: &[],
        read: u64::MAX,
        loaded: Ok(2),
        call: u64::MAX,
        exported: Ok(2),
        written: b"key,payload\n50,5\n150,6\n",
    },
    // an empty table is exported as a header
    Case {
        splits: &[],
        limit: GREATEST_LIMIT,
        text: b"",
        sizes: &[],
        read: u64::MAX,
        loaded: Ok(0),
        call: u64::MAX,
        exported: Ok(0),
        written: b"key,payload\n",
    },
    // a byte order mark, quotes, blank lines, a lone carriage return, and no line feed at the end
    Case {
        splits: &[],
        limit: GREATEST_LIMIT,
        text: b"\xEF\xBB\xBFkey,payload\r\n\r\n\"7\",\"70\"\r8,80\n\n00000000000000000009,9223372036854775807",
        sizes: &[],
        read: u64::MAX,
        loaded: Ok(3),
        call: u64::MAX,
        exported: Ok(3),
        written: b"key,payload\n7,70\n8,80\n9,9223372036854775807\n",
    },
    // the sign of a payload is read and written
    Case {
        splits: &[],
        limit: GREATEST_LIMIT,
        text: b"key,payload\n5,-6\n",
        sizes: &[],
        read: u64::MAX,
        loaded: Ok(1),
        call: u64::MAX,
        exported: Ok(1),
        written: b"key,payload\n5,-6\n",
    },
    Case {
        splits: &[],
        limit: GREATEST_LIMIT,
        text: b"18446744073709551615,-9223372036854775808\n4294967296,\"-1\"\n1,-0\n",
        sizes: &[],
        read: u64::MAX,
        loaded: Ok(3),
        call: u64::MAX,
        exported: Ok(3),
        written: b"key,payload\n18446744073709551615,-9223372036854775808\n4294967296,-1\n1,0\n",
    },
    // the reader fails after two records, at the read that would find the end
    Case {
        splits: &[],
        limit: GREATEST_LIMIT,
        text: TEXT,
        sizes: &[5],
        read: 6,
        loaded: Err(LoadFault {
            refusal: Refusal::ReadFault,
            loaded: 2,
        }),
        call: u64::MAX,
        exported: Ok(2),
        written: b"key,payload\n150,6\n50,5\n",
    },
    // the writer fails after the header, and at the flush
    Case {
        splits: &[],
        limit: GREATEST_LIMIT,
        text: TEXT,
        sizes: &[],
        read: u64::MAX,
        loaded: Ok(2),
        call: 2,
        exported: Err(Refusal::WriteFault),
        written: b"key,payload\n",
    },
    Case {
        splits: &[],
        limit: GREATEST_LIMIT,
        text: b"",
        sizes: &[],
        read: u64::MAX,
        loaded: Ok(0),
        call: 2,
        exported: Err(Refusal::WriteFault),
        written: b"key,payload\n",
    },
    // the history is full
    Case {
        splits: &[],
        limit: 1,
        text: TEXT,
        sizes: &[],
        read: u64::MAX,
        loaded: Err(LoadFault {
            refusal: Refusal::HistoryFull { length: 1 },
            loaded: 1,
        }),
        call: u64::MAX,
        exported: Err(Refusal::HistoryFull { length: 1 }),
        written: b"key,payload\n",
    },
];

/// Asserts the results of a load and an export.
fn assert_case(rt: &impl Abort, alloc: Global, case: Case) {
    let source = Source::new(case.text).cut(case.sizes);
    let sink = Sink::new(Vec::new(alloc)).failing_at(case.call);
    let mut desk = core(rt, alloc, case.splits, case.limit);
    let mut writer = Watched::new(sink);
    let loaded = load(&mut desk, source.failing_at(case.read));
    let exported = export(&mut desk, &mut writer);
    drop(desk);
    let written = writer.into_inner().into_bytes();
    assert_eq!(rt;
        (loaded, exported, written.as_slice()),
        (case.loaded, case.exported, case.written)
    );
}

#[test]
fn records_go_through(rt: HostRuntime) {
    'cases: for place in 0..CASES.len() {
        assert_case(&rt, rt.alloc(), CASES[place]);
    }
}
