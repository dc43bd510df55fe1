//! The measurements of a partition, as lists of steps.

use crate::report::{BenchOutput, Failure, Outcome, report};
use crate::single::numbers::mixed;
use crate::single::partition::{Ask, Keys, Measured, Sizes};
use crack_part::Partition;
use crack_row::{Policy, Row};
use std::time::Instant;

/// How many commands of one kind are measured before a checkpoint, and after it.
const NEXT: u32 = 1000;

/// How often a question is asked.
#[derive(Clone, Copy)]
enum Times {
    Once,
    /// `NEXT` times.
    Next,
    /// Once for each row.
    Rows,
    /// Half as often as `Rows`, rounded down.
    Half,
    /// Once for each row that `Half` leaves out.
    OtherHalf,
    /// Once for each bound between `Sizes::first` pieces.
    Bounds,
    /// `Sizes::first` times.
    First,
    /// `Sizes::second` times.
    Second,
    /// A tenth of `Sizes::first`.
    Tenth,
    /// `Sizes::first` less two tenths.
    EightTenths,
}

/// A step of a measurement of a partition.
#[derive(Clone, Copy)]
enum BenchStep {
    /// Asks this many times.
    Ask(Ask, Times),
    /// Asks this many times. Writes the time of each under this name.
    Each(Ask, Times, &'static str),
    /// Makes this many batches of updates, and after each asks for the sum of a range of this kind.
    Batches(Times, Keys),
    /// Lists the rows that updates and deletions choose from.
    List,
    /// Begins a part: its time, its checksum and its random numbers.
    Begin,
    /// Sets the random numbers back to those at which the part began.
    Again,
    /// Writes the time since the part began, or since the last written time.
    Time(&'static str),
    /// Writes the number in the last reply.
    Last(&'static str),
    /// Writes the checksum.
    Sum(&'static str),
    /// Counts all keys. Writes the checksum of the earlier replies, and the count.
    Next,
    /// Makes a checkpoint. Writes its time, how many commands it counted, and the number of rows with a checksum of
    /// them.
    Checkpoint(&'static str),
    /// Writes the counts of the merges.
    Tally,
}

/// A measurement of a partition.
#[derive(Clone, Copy)]
pub struct Kind {
    /// How many numbers it takes besides the rows.
    pub numbers: usize,
    /// How the rows are inserted.
    load: &'static [BenchStep],
    /// The steps after the rows are inserted.
    steps: &'static [BenchStep],
}

/// Inserts all rows, which stay pending.
const PENDING: &[BenchStep] = &[BenchStep::Ask(Ask::Insert, Times::Rows)];

/// Inserts all rows in the lower half, which stay pending.
const LOW: &[BenchStep] = &[BenchStep::Ask(Ask::InsertLow, Times::Rows)];

/// Inserts all rows, half of which stay pending.
const PARTLY: &[BenchStep] = &[
    BenchStep::Ask(Ask::Insert, Times::Half),
    BenchStep::Ask(Ask::Count(Keys::All), Times::Once),
    BenchStep::Ask(Ask::Insert, Times::OtherHalf),
];

/// Inserts all rows, and counts them.
const COUNTED: &[BenchStep] = &[
    BenchStep::Ask(Ask::Insert, Times::Rows),
    BenchStep::Time("load"),
    BenchStep::Ask(Ask::Count(Keys::All), Times::Once),
    BenchStep::Time("everything"),
    BenchStep::Last("rows"),
];

/// Sums while every row is pending.
const COLD: Kind = Kind {
    numbers: 1,
    load: PENDING,
    steps: &[
        BenchStep::Begin,
        BenchStep::Ask(Ask::Sum(Keys::Random), Times::First),
        BenchStep::Time("cold"),
        BenchStep::Sum("cold"),
        BenchStep::Tally,
    ],
};

/// Sums of ranges without rows, while every row is pending.
const PASS: Kind = Kind {
    numbers: 1,
    load: LOW,
    steps: &[
        BenchStep::Begin,
        BenchStep::Ask(Ask::Sum(Keys::RandomUpper), Times::First),
        BenchStep::Time("pass"),
        BenchStep::Sum("pass"),
    ],
};

/// Counts of random ranges.
const COUNTS: Kind = Kind {
    numbers: 1,
    load: COUNTED,
    steps: &[
        BenchStep::Begin,
        BenchStep::Ask(Ask::Count(Keys::Random), Times::First),
        BenchStep::Time("counts"),
        BenchStep::Sum("counts"),
    ],
};

/// Sums of random ranges, and the same sums again.
const SUMS: Kind = Kind {
    numbers: 1,
    load: COUNTED,
    steps: &[
        BenchStep::Begin,
        BenchStep::Ask(Ask::Sum(Keys::Random), Times::First),
        BenchStep::Time("sums"),
        BenchStep::Again,
        BenchStep::Ask(Ask::Sum(Keys::Random), Times::First),
        BenchStep::Time("again"),
        BenchStep::Sum("sums"),
    ],
};

/// Sums of random ranges, each with its time.
const EACH: Kind = Kind {
    numbers: 1,
    load: COUNTED,
    steps: &[
        BenchStep::Begin,
        BenchStep::Each(Ask::Sum(Keys::Random), Times::First, "sum"),
        BenchStep::Sum("each"),
    ],
};

/// Batches of updates, each with the sum of a random range.
const UPDATES: Kind = Kind {
    numbers: 2,
    load: COUNTED,
    steps: &[
        BenchStep::List,
        BenchStep::Begin,
        BenchStep::Batches(Times::First, Keys::Random),
        BenchStep::Time("updates"),
        BenchStep::Sum("updates"),
        BenchStep::Tally,
    ],
};

/// Batches of updates, each with the sum of a narrow range. Times the first tenth, the middle and the last tenth.
const AGEING: Kind = Kind {
    numbers: 2,
    load: COUNTED,
    steps: &[
        BenchStep::List,
        BenchStep::Begin,
        BenchStep::Batches(Times::Tenth, Keys::Narrow),
        BenchStep::Time("first"),
        BenchStep::Batches(Times::EightTenths, Keys::Narrow),
        BenchStep::Time("middle"),
        BenchStep::Batches(Times::Tenth, Keys::Narrow),
        BenchStep::Time("last"),
        BenchStep::Sum("ageing"),
        BenchStep::Tally,
    ],
};

/// Batches of updates, each with the sum of the next adjacent range, from the lowest up.
const CLIMB: Kind = Kind {
    numbers: 2,
    load: COUNTED,
    steps: &[
        BenchStep::List,
        BenchStep::Begin,
        BenchStep::Batches(Times::First, Keys::Rising),
        BenchStep::Time("climb"),
        BenchStep::Sum("climb"),
    ],
};

/// Sums of adjacent ranges, from the lowest up.
const RISING: Kind = Kind {
    numbers: 1,
    load: COUNTED,
    steps: &[
        BenchStep::Begin,
        BenchStep::Ask(Ask::Sum(Keys::Rising), Times::First),
        BenchStep::Time("rising"),
        BenchStep::Sum("rising"),
    ],
};

/// Sums of random narrow ranges.
const NARROW: Kind = Kind {
    numbers: 1,
    load: COUNTED,
    steps: &[
        BenchStep::Begin,
        BenchStep::Ask(Ask::Sum(Keys::Narrow), Times::First),
        BenchStep::Time("narrow"),
        BenchStep::Sum("narrow"),
    ],
};

/// A count of all keys that merges pending insertions into pieces.
const MERGE: Kind = Kind {
    numbers: 2,
    load: COUNTED,
    steps: &[
        BenchStep::Ask(Ask::Count(Keys::Below), Times::Bounds),
        BenchStep::Ask(Ask::Insert, Times::Second),
        BenchStep::Begin,
        BenchStep::Ask(Ask::Count(Keys::All), Times::Once),
        BenchStep::Time("merge"),
        BenchStep::Last("merge"),
        BenchStep::Tally,
    ],
};

/// A count of all keys that merges pending deletions out of pieces.
const PULLS: Kind = Kind {
    numbers: 2,
    load: COUNTED,
    steps: &[
        BenchStep::Ask(Ask::Count(Keys::Below), Times::Bounds),
        BenchStep::Ask(Ask::DeleteAny, Times::Second),
        BenchStep::Begin,
        BenchStep::Ask(Ask::Count(Keys::All), Times::Once),
        BenchStep::Time("pulls"),
        BenchStep::Last("pulls"),
        BenchStep::Tally,
    ],
};

/// A checkpoint after the insertions, and one after deletions and as many insertions, which reuse freed cells, with
/// nothing pending. Counts of one range, and insertions, are measured before and after the second one.
const FOLD: Kind = Kind {
    numbers: 1,
    load: PARTLY,
    steps: &[
        BenchStep::Checkpoint("fold"),
        BenchStep::List,
        BenchStep::Ask(Ask::Delete, Times::First),
        BenchStep::Ask(Ask::Count(Keys::All), Times::Once),
        BenchStep::Ask(Ask::Insert, Times::First),
        BenchStep::Ask(Ask::Count(Keys::All), Times::Once),
        BenchStep::Ask(Ask::Count(Keys::Upper), Times::Once),
        BenchStep::Begin,
        BenchStep::Ask(Ask::Count(Keys::Upper), Times::Next),
        BenchStep::Time("counts_before"),
        BenchStep::Ask(Ask::InsertLow, Times::Next),
        BenchStep::Time("inserts_before"),
        BenchStep::Next,
        BenchStep::Checkpoint("mixed_fold"),
        BenchStep::Begin,
        BenchStep::Ask(Ask::Count(Keys::Upper), Times::Next),
        BenchStep::Time("counts_after"),
        BenchStep::Ask(Ask::InsertLow, Times::Next),
        BenchStep::Time("inserts_after"),
        BenchStep::Next,
    ],
};

/// The measurement with this name, or `None` if there is none.
pub fn kind_of(name: &str) -> Option<Kind> {
    match name {
        "cold" => Some(COLD),
        "pass" => Some(PASS),
        "counts" => Some(COUNTS),
        "sums" => Some(SUMS),
        "each" => Some(EACH),
        "updates" => Some(UPDATES),
        "ageing" => Some(AGEING),
        "climb" => Some(CLIMB),
        "rising" => Some(RISING),
        "narrow" => Some(NARROW),
        "merge" => Some(MERGE),
        "pulls" => Some(PULLS),
        "fold" => Some(FOLD),
        _ => None,
    }
}

/// Carries out the measurement `kind` with these sizes, on a new partition that merges by this policy, and writes
/// results and times.
pub fn measure<R: BenchOutput>(rt: &R, kind: Kind, policy: Policy, sizes: Sizes) -> Outcome {
    let mut table = Measured::open(rt.alloc(), policy, sizes)?;
    let outcome = match take_all(rt, &mut table, kind.load) {
        Ok(()) => take_all(rt, &mut table, kind.steps),
        outcome => outcome,
    };
    drop(table);
    outcome
}

/// Takes the steps of a list, in order, until one fails.
fn take_all<R: BenchOutput>(rt: &R, table: &mut Measured, steps: &[BenchStep]) -> Outcome {
    let mut start = Instant::now(rt)?;
    'steps: for step in steps {
        start = take(rt, table, *step, start)?;
    }
    Ok(())
}

/// Takes a step of a part that began at `start`, or whose last time was written then. Returns from when the next
/// written time counts: from now after `Begin` and `Time`, else from `start`.
fn take<R: BenchOutput>(
    rt: &R,
    table: &mut Measured,
    step: BenchStep,
    start: Instant,
) -> Result<Instant, Failure> {
    match step {
        BenchStep::Begin => {
            table.begun = table.numbers;
            table.sum = 0;
            Ok(Instant::now(rt)?)
        }
        BenchStep::Time(name) => Ok(report(rt, name, start)?),
        _ => {
            carry_out(rt, table, step)?;
            Ok(start)
        }
    }
}

/// Takes a step. Does nothing if it is `Begin` or `Time`, which `take` takes itself.
fn carry_out<R: BenchOutput>(rt: &R, table: &mut Measured, step: BenchStep) -> Outcome {
    match step {
        BenchStep::Ask(ask, times) => Ok(table.repeat(ask, number_of(times, table.sizes))?),
        BenchStep::Each(ask, times, name) => measure_each(rt, table, ask, times, name),
        BenchStep::Batches(times, keys) => {
            Ok(table.update_in_batches(number_of(times, table.sizes), keys)?)
        }
        BenchStep::List => Ok(table.list_rows(rt.alloc())?),
        BenchStep::Again => {
            table.numbers = table.begun;
            Ok(())
        }
        BenchStep::Last(name) => write(rt, name, table.last),
        BenchStep::Sum(name) => write(rt, name, table.sum),
        BenchStep::Tally => write_tally(rt, &table.partition),
        BenchStep::Next => measure_next(rt, table),
        BenchStep::Checkpoint(name) => measure_checkpoint(rt, table, name),
        BenchStep::Begin | BenchStep::Time(_) => Ok(()),
    }
}

/// Asks the question `ask` as often as `times` says. Writes the time of each under this name.
fn measure_each<R: BenchOutput>(
    rt: &R,
    table: &mut Measured,
    ask: Ask,
    times: Times,
    name: &str,
) -> Outcome {
    let mut start = Instant::now(rt)?;
    'times: for _ in 0..number_of(times, table.sizes) {
        table.repeat(ask, 1)?;
        start = report(rt, name, start)?;
    }
    Ok(())
}

/// How often `times` means in a measurement of these sizes.
fn number_of(times: Times, sizes: Sizes) -> u32 {
    match times {
        Times::Once => 1,
        Times::Next => NEXT,
        Times::Rows => sizes.rows,
        Times::Half => sizes.rows / 2,
        Times::OtherHalf => sizes.rows - sizes.rows / 2,
        Times::Bounds => sizes.first.saturating_sub(1),
        Times::First => sizes.first,
        Times::Second => sizes.second,
        Times::Tenth => sizes.first / 10,
        Times::EightTenths => sizes.first - sizes.first / 10 * 2,
    }
}

/// Writes a result to standard output: its name and its number.
fn write<R: BenchOutput>(rt: &R, name: &str, number: u64) -> Outcome {
    println!(rt; "{name} {number}")?;
    Ok(())
}

/// Writes to standard error how many rows the partition's merges inserted (`put_in`), deleted (`taken_out`), evicted,
/// moved and pulled.
fn write_tally<R: BenchOutput>(rt: &R, partition: &Partition) -> Outcome {
    let did = partition.tally();
    let (insertions, deletions, evicted) = (did.insertions, did.deletions, did.evicted);
    eprintln!(rt; "put_in {insertions}\ntaken_out {deletions}\nevicted {evicted}")?;
    let (moved, pulled) = (did.moved, did.pulled);
    eprintln!(rt; "moved {moved}\npulled {pulled}")?;
    Ok(())
}

/// Counts all keys. Writes the checksum of the earlier counts and sums, and the count.
fn measure_next<R: BenchOutput>(rt: &R, table: &mut Measured) -> Outcome {
    let sum = table.sum;
    table.repeat(Ask::Count(Keys::All), 1)?;
    let everything = table.last;
    println!(rt; "next {sum} rows {everything}")?;
    Ok(())
}

/// Makes a checkpoint. Writes its time, how many commands the partition had accepted since the previous one, and the
/// number of rows with a checksum of them.
fn measure_checkpoint<R: BenchOutput>(rt: &R, table: &mut Measured, name: &str) -> Outcome {
    let start = Instant::now(rt)?;
    let entries = table.partition.checkpoint();
    report(rt, name, start)?;
    let rows = table.partition.rows_in_order()?;
    let len = rows.len();
    let sum = sum_of(rows.as_slice());
    drop(rows);
    print!(rt; "{name} {entries} ")?;
    println!(rt; "rows {len} sum {sum}")?;
    Ok(())
}

/// A checksum of rows, which depends on their order.
fn sum_of(rows: &[Row]) -> u64 {
    let mut sum = 0;
    'rows: for row in rows {
        sum = mixed(sum, row.serial.0);
        let payload = u64::try_from(row.payload.amount()).unwrap_or(0);
        sum = mixed(sum, row.key.number() << 32 | payload);
    }
    sum
}
