//! The next question of a worker, drawn from a seed.

use crack_row::{
    BoundNumber, Command, GREATEST_BOUND, GREATEST_PAYLOAD, Key, KeyNumber, KeyRange,
    LEAST_PAYLOAD, Payload, PayloadNumber, Refusal, Reply, Serial,
};

/// How many partitions there are.
pub const PARTS: usize = 3;

/// The least key of each partition. The last partition has the greatest 1000 keys that there are.
pub const FIRST_KEYS: [KeyNumber; PARTS] = [0, 9223372036854775808, 18446744073709550616];

/// How many keys of a partition may be drawn, from its least key up.
const DRAWN_KEYS: u32 = 1000;

/// Payloads near the least or the greatest one are less than this far from it.
const NEAR: u32 = 3;

/// The range of a query is narrower than this, unless it is of all keys.
const WIDEST: u32 = 64;

/// A deletion or an update takes one of this many serials, of which the greatest is that of the last row that the
/// worker inserted.
const BACK: u32 = 64;

/// What a worker asks a partition for.
#[derive(Clone, Copy)]
pub enum Asked {
    /// To answer a command.
    Command(Command),
    /// To make a checkpoint.
    Checkpoint,
}

/// What a worker asks, and of which partition.
#[derive(Clone, Copy)]
pub struct Question {
    pub part: u32,
    pub asked: Asked,
}

/// The questions of one worker. They depend on its seed, and on the serials in the replies.
#[derive(Clone, Copy)]
pub struct DrawnQuestions {
    state: u64,
    /// The serial of the last row that the worker inserted into each partition.
    last: [u64; PARTS],
}

impl DrawnQuestions {
    /// The questions of the worker with this number, in a run with this seed.
    pub fn new(seed: u64, worker: u32) -> DrawnQuestions {
        let mut draws = DrawnQuestions {
            state: seed.wrapping_mul(64).wrapping_add(u64::from(worker)),
            last: [0; PARTS],
        };
        draws.state = draws.number();
        draws
    }

    /// The next pseudorandom number (SplitMix64).
    fn number(&mut self) -> u64 {
        self.state = self.state.wrapping_add(11400714819323198485);
        let mixed = (self.state ^ (self.state >> 30)).wrapping_mul(13787848793156543929);
        let mixed = (mixed ^ (mixed >> 27)).wrapping_mul(10723151780598845931);
        mixed ^ (mixed >> 31)
    }

    /// The next random number below `most`, or 0 if `most` is 0.
    fn below(&mut self, most: u32) -> u32 {
        ((self.number() >> 32) as u32) % most.max(1)
    }

    /// The next question. One in 64 asks a partition that doesn't exist. One in 100 is a checkpoint, and the others
    /// are commands.
    pub fn next(&mut self) -> Question {
        let part = match self.below(64) {
            0 => PARTS as u32,
            _ => self.below(PARTS as u32),
        };
        let asked = match self.below(100) {
            99 => Asked::Checkpoint,
            number => Asked::Command(self.command(part, number)),
        };
        Question { part, asked }
    }

    /// A random command for partition `part`. Its kind depends on `number`, which is below 99.
    fn command(&mut self, part: u32, number: u32) -> Command {
        match number {
            0..28 => Command::Insert {
                key: self.key(part),
                payload: self.payload(),
            },
            28..56 => Command::Delete {
                serial: self.serial(part),
            },
            56..68 => Command::Update {
                serial: self.serial(part),
                key: self.key(part),
                payload: self.payload(),
            },
            68..80 => Command::Count(self.range(part)),
            80..90 => Command::Sum(self.range(part)),
            _ => Command::Select(self.range(part)),
        }
    }

    /// Records the serial of the row that was inserted into a partition, if this answer has one.
    pub fn learn(&mut self, part: u32, answer: &Result<Reply, Refusal>) {
        if let (Some(last), Ok(Reply::Placed(serial))) = (
            self.last.get_mut(part as usize),
            answer,
        ) {
            *last = serial.0;
        }
    }

    /// A random key of partition `part`, or, once in 32 times, of a random partition.
    fn key(&mut self, part: u32) -> Key {
        let part = match self.below(32) {
            0 => self.below(PARTS as u32),
            _ => part,
        };
        Key::from_number(self.key_of(part))
    }

    /// A random key of partition `part`, as a number; of the first partition if there is no such partition.
    fn key_of(&mut self, part: u32) -> KeyNumber {
        let first = FIRST_KEYS.get(part as usize).copied().unwrap_or(0);
        first.saturating_add(KeyNumber::from(self.below(DRAWN_KEYS)))
    }

    /// A random payload. One in four is near the least or the greatest payload; half of the others are negative.
    fn payload(&mut self) -> Payload {
        let near = PayloadNumber::from(self.below(NEAR));
        let number = PayloadNumber::from(self.below(u32::MAX));
        Payload::from_number(match self.below(8) {
            0 => LEAST_PAYLOAD + near,
            1 => GREATEST_PAYLOAD - near,
            2..5 => -number,
            _ => number,
        })
    }

    /// A serial up to that of the last row that the worker inserted into partition `part`, and less than `BACK` below
    /// it. The row may be deleted already.
    fn serial(&mut self, part: u32) -> Serial {
        let last = self.last.get(part as usize).copied().unwrap_or(0);
        Serial(last.saturating_sub(u64::from(self.below(BACK))))
    }

    /// A range narrower than `WIDEST` that begins in partition `part`, or, once in 32 times, the range of all keys.
    fn range(&mut self, part: u32) -> KeyRange {
        let low = BoundNumber::from(self.key_of(part));
        let wide = BoundNumber::from(self.below(WIDEST));
        let range = match self.below(32) {
            0 => Ok(KeyRange::all()),
            _ => KeyRange::new(low, (low + wide).min(GREATEST_BOUND)),
        };
        range.unwrap_or_default()
    }
}
