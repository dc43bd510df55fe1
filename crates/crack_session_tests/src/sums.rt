//! Sums of the same ranges, repeated between changes and checkpoints, and compared with a plain list of rows.
ghost use Rattle.std.specs.Prelude.{◌<◌, ◌≤◌, ◌^◌, ◌-◌};

use crack_part::Partition;
use crack_row::{
    Command, GREATEST_LIMIT, GREATEST_PAYLOAD, Key, KeyRange, LEAST_PAYLOAD, Payload,
    PayloadNumber, Policy, Refusal, Reply, Row, Serial,
};
use std::alloc::Global;
use std::process::Abort;

const POLICIES: [Policy; 4] = [
    Policy::Complete,
    Policy::Gradual,
    Policy::Ripple,
    Policy::Auto,
];

/// Payloads at both limits, next to them, and next to 0.
const PAYLOADS: [PayloadNumber; 7] = [
    LEAST_PAYLOAD,
    LEAST_PAYLOAD + 1,
    -1,
    0,
    1,
    GREATEST_PAYLOAD - 1,
    GREATEST_PAYLOAD,
];

/// Ranges that are nested, overlapping or adjacent, and one without keys.
const RANGES: [[u64; 2]; 8] = [
    [100, 300],
    [150, 200],
    [250, 500],
    [500, 700],
    [0, 100],
    [650, 651],
    [400, 400],
    [999, 1001],
];

/// Keys are below this number.
const KEYS: u64 = 1000;

/// The next pseudorandom number below `end`.
fn below(numbers: &mut u64, end: u64) -> u64
    requires { 1 ≤ end }
    ensures { result < end }
{
    *numbers = numbers
        .wrapping_mul(6364136223846793005)
        .wrapping_add(1442695040888963407);
    (*numbers >> 33) % end
}

/// A partition, and the row that each serial should have, if any.
#[derive(Drop)]
struct Session {
    partition: Partition,
    rows: Vec<Option<Row>>,
    policy: Policy,
}

impl Session {
    fn ask(&mut self, command: Command) -> Result<Reply, Refusal> {
        let reply = self.partition.apply(command, self.policy)?;
        Ok(reply)
    }

    /// How many rows are in a range, and the sum of their payloads.
    fn found(&self, range: KeyRange) -> (u64, i128) {
        let mut count = 0u64;
        let mut sum = 0i128;
        'rows: for row in &self.rows {
            if let Some(row) = row {
                if range.contains(row.key) {
                    count = count.wrapping_add(1);
                    sum = sum.wrapping_add(i128::from(row.payload.number()));
                }
            }
        }
        (count, sum)
    }

    /// Replaces a row, and returns the old one, or `None` if there was none.
    fn put_at(&mut self, serial: Serial, row: Option<Row>) -> Option<Row> {
        match self.rows.get_mut(serial.0 as usize) {
            Some(there) => {
                let before = *there;
                if before.is_some() {
                    *there = row;
                }
                before
            }
            None => None,
        }
    }

    /// Executes a command other than a select on the rows, and returns the expected reply.
    fn change(&mut self, rt: &impl Abort, command: &Command) -> Reply {
        match *command {
            Command::Insert { key, payload } => {
                let serial = Serial(self.rows.len() as u64);
                let row = Row {
                    serial,
                    key,
                    payload,
                };
                assert!(rt; self.rows.push(Some(row)).is_ok());
                Reply::Placed(serial)
            }
            Command::Delete { serial } => match self.put_at(serial, None) {
                Some(row) => Reply::Gone(row),
                None => Reply::NoRow,
            },
            Command::Update {
                serial,
                key,
                payload,
            } => {
                let row = Row {
                    serial,
                    key,
                    payload,
                };
                match self.put_at(serial, Some(row)) {
                    Some(_) => Reply::Changed,
                    None => Reply::NoRow,
                }
            }
            Command::Sum(range) => Reply::Summed(self.found(range).1),
            Command::Count(range) | Command::Select(range) => Reply::Counted(self.found(range).0),
        }
    }

    /// Executes a command, and asserts the reply.
    fn assert_answered(&mut self, rt: &impl Abort, command: Command) {
        let reply = self.ask(command).expect(rt, "an answer");
        let wanted = self.change(rt, &command);
        assert!(rt; reply.is_same(&wanted));
    }

    /// Asserts the sum of a range, twice, and its count.
    fn assert_read(&mut self, rt: &impl Abort, range: KeyRange) {
        self.assert_answered(rt, Command::Sum(range));
        self.assert_answered(rt, Command::Sum(range));
        self.assert_answered(rt, Command::Count(range));
    }

    /// Makes this many random changes, half of them inserts, some with a delete before.
    fn make_changes(&mut self, rt: &impl Abort, numbers: &mut u64, changes: u64) {
        'changes: for _ in 0..changes {
            let kind = below(numbers, 6);
            if kind == 2 {
                let delete = drawn(numbers, 0, self.rows.len() as u64);
                self.assert_answered(rt, delete);
            }
            let command = drawn(numbers, kind, self.rows.len() as u64);
            self.assert_answered(rt, command);
        }
    }

    /// Reads most of the ranges, and sometimes all keys.
    fn read(&mut self, rt: &impl Abort, numbers: &mut u64) {
        'ranges: for [low, high] in RANGES {
            if below(numbers, 3) != 0 {
                let range = KeyRange::new(u128::from(low), u128::from(high));
                self.assert_read(rt, range.expect(rt, "a range"));
            }
        }
        if below(numbers, 3) == 0 {
            self.assert_read(rt, KeyRange::all());
        }
    }

    /// Repeats a few changes and then reads. Sometimes there are so many inserts that the known sums are forgotten,
    /// or there is a checkpoint.
    fn run(&mut self, rt: &impl Abort, numbers: &mut u64) {
        'rounds: for _ in 0..60 {
            let most = if below(numbers, 8) == 0 { 1000 } else { 12 };
            let changes = below(numbers, most);
            self.make_changes(rt, numbers, changes);
            if below(numbers, 10) == 0 {
                let _since = self.partition.checkpoint();
            }
            self.read(rt, numbers);
        }
    }
}

/// A random command: a delete for kind 0, an update for 1 and 2, else an insert. Its serial is at most `last`, and
/// its payload often at a limit.
fn drawn(numbers: &mut u64, kind: u64, last: u64) -> Command
    requires { last < 2 ^ 64 - 1 }
{
    let serial = Serial(if kind < 3 {
        below(numbers, last + 1)
    } else {
        0
    });
    if kind == 0 {
        return Command::Delete { serial };
    }
    let key = Key::from_number(below(numbers, KEYS));
    let place = below(numbers, PAYLOADS.len() as u64) as usize;
    let payload = Payload::from_number(PAYLOADS[place]);
    if kind > 2 {
        return Command::Insert { key, payload };
    }
    Command::Update {
        serial,
        key,
        payload,
    }
}

fn run_session(rt: &impl Abort, alloc: Global, policy: Policy, seed: u64) {
    let mut numbers = seed;
    let opened = Partition::open(alloc, KeyRange::all(), GREATEST_LIMIT);
    let mut session = Session {
        partition: opened.expect(rt, "a partition"),
        rows: Vec::new(alloc),
        policy,
    };
    session.run(rt, &mut numbers);
    drop(session);
}

#[test]
fn sums_among_changes_are_those_of_the_rows(rt: HostRuntime) {
    'policies: for policy in POLICIES {
        'seeds: for seed in 0..10u64 {
            run_session(&rt, rt.alloc(), policy, seed);
        }
    }
}
