//! Which sums a source is asked for and which it isn't, and sums that don't fit. Tests are lists of steps.

use crate::script::assert_at;
use crack_index::{PieceSums, SumSource};
use crack_row::{BoundNumber, GREATEST_BOUND, Key, KeyNumber, KeyRange};
use std::alloc::Global;
use std::cell::Cell;
use std::process::Abort;

/// A source with a row at each key, all with one payload. It counts how often it is asked, and returns no sum while
/// it is silent.
#[derive(Drop)]
struct Rows {
    payload: i128,
    is_silent: bool,
    asked: Cell<u32>,
}

impl SumSource for Rows {
    ghost use Rattle.std.specs.Prelude.{⊤};

    ghost says = { λ _ _ _ _. ⊤ };

    fn sum(&self, range: KeyRange) -> Option<i128> {
        self.asked.set(self.asked.get().saturating_add(1));
        if self.is_silent {
            return None;
        }
        let keys = range.high().number() - range.low().number();
        (keys as i128).checked_mul(self.payload)
    }

    fn prefers_rest(&self, part: KeyRange, whole: KeyRange) -> bool {
        keys_in(whole).saturating_sub(keys_in(part)) < keys_in(part)
    }
}

/// How many keys a range has.
fn keys_in(range: KeyRange) -> BoundNumber {
    range.high().number() - range.low().number()
}

/// A step of a test on the sums of rows.
#[derive(Clone, Copy)]
enum Step {
    /// Sums a range, which returns this; the source has then been asked this many times.
    Sum(BoundNumber, BoundNumber, Option<i128>, u32),
    /// Adjusts the known sums for a change by this much at a key.
    Adjust(KeyNumber, i128),
    /// Makes the source silent, or lets it return sums again.
    Silence(bool),
    /// Sets the payload of the source's rows, and its count of questions to 0.
    Rows(i128),
    /// Expects this many pieces.
    Pieces(usize),
    /// Forgets all pieces.
    Clear,
}

/// Named steps, with fresh sums over rows with payload 3.
#[derive(Clone, Copy)]
struct Script {
    name: &'static str,
    steps: &'static [Step],
}

const SCRIPTS: &[Script] = &[
    Script {
        name: "what is known is not asked",
        steps: &[
            Step::Sum(10, 20, Some(30), 1),
            Step::Sum(10, 20, Some(30), 1),
            Step::Sum(10, 15, Some(15), 2),
            Step::Sum(15, 20, Some(15), 2),
            Step::Sum(18, 20, Some(6), 3),
            // At the first key of a piece, at its last, and below all pieces.
            Step::Adjust(15, 100),
            Step::Adjust(17, 1000),
            Step::Adjust(9, 10000),
            Step::Sum(15, 18, Some(1109), 3),
            Step::Sum(10, 20, Some(1130), 3),
            Step::Pieces(4),
            Step::Clear,
            Step::Pieces(0),
            Step::Sum(0, GREATEST_BOUND, Some(55340232221128654848), 4),
        ],
    },
    Script {
        name: "the rest of a piece is asked if that is less",
        steps: &[
            Step::Sum(0, 100, Some(300), 1),
            Step::Sum(0, 90, Some(270), 2),
            Step::Sum(90, 100, Some(30), 2),
            Step::Sum(20, 90, Some(210), 3),
            Step::Sum(0, 20, Some(60), 3),
            // Both ends are in one piece, and its rest is two parts.
            Step::Sum(25, 80, Some(165), 5),
            Step::Sum(20, 90, Some(210), 5),
            Step::Sum(80, 90, Some(30), 5),
            // The part is asked for, if it is less than the rest.
            Step::Sum(40, 50, Some(30), 6),
            Step::Sum(25, 80, Some(165), 8),
        ],
    },
    Script {
        name: "a silent source gives no sum",
        steps: &[
            Step::Silence(true),
            Step::Sum(10, 20, None, 1),
            Step::Silence(false),
            Step::Sum(10, 20, Some(30), 2),
        ],
    },
    Script {
        name: "a sum that does not fit is not known",
        steps: &[
            Step::Sum(10, 20, Some(30), 1),
            Step::Adjust(12, i128::MAX),
            Step::Sum(10, 20, Some(30), 2),
            Step::Rows(i128::MAX),
            Step::Sum(20, 21, Some(i128::MAX), 1),
            Step::Sum(10, 21, None, 1),
        ],
    },
];

/// Makes a step, and returns whether it had the expected result.
fn make(sums: &mut PieceSums, rows: &mut Rows, step: Step) -> bool {
    match step {
        Step::Sum(low, high, sum, asked) => match KeyRange::new(low, high) {
            Ok(range) => low < high && (sums.sum(range, rows), rows.asked.get()) == (sum, asked),
            Err(_) => false,
        },
        Step::Adjust(key, change) => {
            sums.adjust(Key::from_number(key), change);
            true
        }
        Step::Silence(is_silent) => {
            rows.is_silent = is_silent;
            true
        }
        Step::Rows(payload) => {
            rows.payload = payload;
            rows.asked.set(0);
            true
        }
        Step::Pieces(count) => sums.len() == count && sums.is_empty() == (count == 0),
        Step::Clear => {
            sums.clear();
            true
        }
    }
}

/// Asserts the result of each step, with fresh sums over rows with payload 3.
fn assert_script(rt: &impl Abort, alloc: Global, script: Script) {
    let Script { name, steps } = script;
    let mut rows = Rows {
        payload: 3,
        is_silent: false,
        asked: Cell::new(0),
    };
    let mut sums = PieceSums::new(alloc);
    'steps: for place in 0..steps.len() {
        let is_right = make(&mut sums, &mut rows, steps[place]);
        assert_at(rt, is_right, name, place);
    }
    drop(sums);
}

#[test]
fn sums_of_pieces_are_asked_once(rt: HostRuntime) {
    let scripts = SCRIPTS;
    'scripts: for place in 0..scripts.len() {
        assert_script(&rt, rt.alloc(), scripts[place]);
    }
}
