//! The commands of each worker (half are sums of a hundredth of a partition's keys, a quarter deletes, a quarter
//! inserts), and the keys of the partitions.

use crate::table_workers::{AnswersCommands, Questions, Works, number_of};
use crack_row::{
    Bound, BoundNumber, Command, Key, KeyNumber, KeyRange, Payload, PayloadNumber, Refusal, Serial,
};
use std::alloc::Global;

/// How many partitions there are for each worker.
pub const PARTS_EACH: u32 = 2;

/// How many keys a partition has.
pub const PART_WIDTH: u32 = 67108864;

/// How many keys the range of a sum has.
const RANGE_WIDTH: u32 = PART_WIDTH / 100;

/// Adjacent partitions: the number of the first, and how many there are.
#[derive(Clone, Copy)]
pub struct PartSpan {
    pub first: u32,
    pub count: u32,
}

/// A row that was inserted: its partition and its serial.
#[derive(Clone, Copy)]
struct InsertedRow {
    part: u32,
    serial: Serial,
}

/// The next commands of one worker, and the rows that it inserted.
#[derive(Drop)]
pub struct Mix {
    parts: PartSpan,
    rows: Vec<InsertedRow>,
    number: u32,
    /// The total of the sums in the last call of `ask_next`, or the first refusal of that call.
    pub sums: Result<u64, Refusal>,
}

impl Questions for Mix {
    /// Has the worker take `count` steps of four commands each, and keeps the total of the sums in `sums`.
    fn ask_next<A: Works>(&mut self, worker: &mut A, count: u64) {
        self.sums = self.steps(worker, count);
    }
}

impl Mix {
    /// The commands of a worker to these partitions, without rows yet. The random numbers depend on `number`.
    pub fn new(alloc: Global, parts: PartSpan, number: u32) -> Mix {
        Mix {
            parts,
            rows: Vec::new(alloc),
            number,
            sums: Ok(0),
        }
    }

    /// The next pseudorandom number (MurmurHash3's finalizer of a counter).
    fn next(&mut self) -> u32 {
        self.number = self.number.wrapping_add(1);
        let mixed = (self.number ^ (self.number >> 16)).wrapping_mul(2246822507);
        let mixed = (mixed ^ (mixed >> 13)).wrapping_mul(3266489909);
        mixed ^ (mixed >> 16)
    }

    /// The number of a random one of the partitions.
    fn next_part(&mut self) -> u32 {
        let place = self.next() % self.parts.count.max(1);
        self.parts.first.wrapping_add(place)
    }

    /// Inserts a row with a random key into a random one of the partitions. Returns its partition and serial, and
    /// doesn't add it to `rows`. Refused as the command is.
    fn insert<A: AnswersCommands>(&mut self, asked: &mut A) -> Result<InsertedRow, Refusal> {
        let part = self.next_part();
        let key = part
            .wrapping_mul(PART_WIDTH)
            .wrapping_add(self.next() % PART_WIDTH);
        let insert = Command::Insert {
            key: Key::from_number(KeyNumber::from(key)),
            payload: Payload::from_number(PayloadNumber::from(key)),
        };
        let reply = asked.ask(part, insert)?;
        Ok(InsertedRow {
            part,
            serial: Serial(number_of(&reply)),
        })
    }

    /// Asks for the sum of a random range in a random one of the partitions, and returns it. Refused as the command
    /// is.
    fn sum<A: AnswersCommands>(&mut self, asked: &mut A) -> Result<u64, Refusal> {
        let part = self.next_part();
        let low = part
            .wrapping_mul(PART_WIDTH)
            .wrapping_add(self.next() % (PART_WIDTH - RANGE_WIDTH));
        let low = BoundNumber::from(low);
        let range = KeyRange::new(low, low + BoundNumber::from(RANGE_WIDTH))?;
        let reply = asked.ask(part, Command::Sum(range))?;
        Ok(number_of(&reply))
    }

    /// Deletes a random row of `rows`, where it stays listed. Returns its index there. Does nothing and returns 0 if
    /// `rows` is empty. Refused as the command is.
    fn delete<A: AnswersCommands>(&mut self, asked: &mut A) -> Result<usize, Refusal> {
        let number = self.next() as usize;
        if self.rows.is_empty() {
            return Ok(0);
        }
        let at = number % self.rows.len();
        let InsertedRow { part, serial } = self.rows[at];
        asked.ask(part, Command::Delete { serial })?;
        Ok(at)
    }

    /// Inserts this many rows with random keys into random ones of the partitions, and adds them to `rows`. Refused as
    /// a command is, and with `OutOfMemory` if no memory is found.
    pub fn load<A: AnswersCommands>(&mut self, asked: &mut A, rows: u32) -> Result<(), Refusal> {
        'rows: for _ in 0..rows {
            let placed = self.insert(asked)?;
            self.rows.push(placed)?;
        }
        Ok(())
    }

    /// Asks for a sum, a delete, a sum and an insert. The inserted row replaces the deleted one in `rows`. Returns the
    /// total of both sums. Refused as the first refused command is.
    fn step<A: AnswersCommands>(&mut self, asked: &mut A) -> Result<u64, Refusal> {
        let first = self.sum(asked)?;
        let at = self.delete(asked)?;
        let second = self.sum(asked)?;
        let placed = self.insert(asked)?;
        if let Some(row) = self.rows.get_mut(at) {
            *row = placed;
        }
        Ok(first.wrapping_add(second))
    }

    /// Takes this many steps of four commands each. Returns the total of all sums. Refused as the first refused
    /// command is.
    pub fn steps<A: AnswersCommands>(&mut self, asked: &mut A, count: u64) -> Result<u64, Refusal> {
        let mut total = 0u64;
        'steps: for _ in 0..count {
            total = total.wrapping_add(self.step(asked)?);
        }
        Ok(total)
    }
}

/// Counts the rows of the first `parts` partitions. Refused as a command is.
pub fn count_all<A: AnswersCommands>(asked: &mut A, parts: u32) -> Result<u64, Refusal> {
    let mut total = 0u64;
    'parts: for part in 0..parts {
        let reply = asked.ask(part, Command::Count(KeyRange::all()))?;
        total = total.wrapping_add(number_of(&reply));
    }
    Ok(total)
}

/// The splits between `parts` partitions of `PART_WIDTH` keys each. Refused with `OutOfMemory` if no memory is found.
pub fn splits(alloc: Global, parts: u32) -> Result<Vec<Bound>, Refusal> {
    let mut splits = Vec::new(alloc);
    'parts: for part in 1..parts {
        splits.push(Bound::from_number(BoundNumber::from(part.wrapping_mul(PART_WIDTH))))?;
    }
    Ok(splits)
}
