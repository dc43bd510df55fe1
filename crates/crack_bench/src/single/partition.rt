//! A partition that is asked commands with random keys, rows and ranges.
ghost use Rattle.std.specs.Prelude.{◌<◌};

use crate::single::numbers::{Numbers, mixed};
use crate::table_workers::number_of;
use crack_part::Partition;
use crack_row::{
    BoundNumber, Command, GREATEST_BOUND, GREATEST_LIMIT, Key, KeyNumber, KeyRange, Payload,
    PayloadNumber, Policy, Refusal, Serial,
};
use std::alloc::Global;

/// The end of the random keys, which have 32 bits.
const KEYS_END: BoundNumber = 4294967296;

/// The width of a random range: a hundredth of the keys.
const WIDTH: BoundNumber = 42949672;

/// The width of a narrow range: a thousandth of the keys.
const NARROW_WIDTH: BoundNumber = 4294967;

/// What a partition is asked to do.
#[derive(Clone, Copy)]
pub enum Ask {
    /// To insert a row with a random key.
    Insert,
    /// To insert a row with a random key in the lower half.
    InsertLow,
    /// To delete a random row of the list.
    Delete,
    /// To delete a random one of the first rows, which may be deleted already.
    DeleteAny,
    /// To delete a random row of the list, and then to insert one in its place.
    Update,
    Count(Keys),
    Sum(Keys),
}

/// The range of a query.
#[derive(Clone, Copy)]
pub enum Keys {
    All,
    /// A random range.
    Random,
    /// A narrow range at a random place.
    Narrow,
    /// The next of `Sizes::first` adjacent ranges of equal width, from the lowest up.
    Rising,
    /// One fixed range in the upper half.
    Upper,
    /// A random range of half the width, in the upper half.
    RandomUpper,
    /// All keys below the end of the next of `Sizes::first` pieces of equal width.
    Below,
}

/// The numbers of a measurement. What they count depends on the measurement.
#[derive(Clone, Copy)]
pub struct Sizes {
    pub rows: u32,
    /// How many ranges, changes, batches or pieces there are.
    pub first: u32,
    /// How many updates a batch has, or how many rows are pending or deleted.
    pub second: u32,
}

/// A partition that merges by one policy, the random numbers for its questions, and its replies.
#[derive(Drop)]
pub struct Measured {
    pub partition: Partition,
    policy: Policy,
    pub sizes: Sizes,
    pub numbers: Numbers,
    /// The state of `numbers` when the last part began.
    pub begun: Numbers,
    /// The serials of the rows that may be deleted.
    rows: Vec<u64>,
    /// The number in the last reply, or 0 if it has none.
    pub last: u64,
    /// A checksum of the counts and sums in the replies.
    pub sum: u64,
}

impl Measured {
    /// A new partition of all keys that merges by this policy, with the first random numbers. Refused with
    /// `OutOfMemory` if no memory is found.
    pub fn open(alloc: Global, policy: Policy, sizes: Sizes) -> Result<Measured, Refusal> {
        let numbers = Numbers { state: 11 };
        Ok(Measured {
            partition: Partition::open(alloc, KeyRange::all(), GREATEST_LIMIT)?,
            policy,
            sizes,
            numbers,
            begun: numbers,
            rows: Vec::new(alloc),
            last: 0,
            sum: 0,
        })
    }

    /// Lists the serials of the first `Sizes::rows` rows as those that may be deleted. Refused with `OutOfMemory` if
    /// no memory is found.
    pub fn list_rows(&mut self, alloc: Global) -> Result<(), Refusal> {
        self.rows = (0..u64::from(self.sizes.rows)).collect(alloc)?;
        Ok(())
    }

    /// Applies a command, keeps the number in the reply, and mixes a count or a sum into the checksum. Refused as
    /// the partition refuses the command.
    fn apply(&mut self, command: Command) -> Result<(), Refusal> {
        self.last = number_of(&self.partition.apply(command, self.policy)?);
        if matches!(command, Command::Count(_) | Command::Sum(_)) {
            self.sum = mixed(self.sum, self.last);
        }
        Ok(())
    }

    /// The range that `keys` means for the query with the number `at` in a series. Refused with `BadRange` if its ends
    /// are out of order or too great.
    fn range(&mut self, keys: Keys, at: u32) -> Result<KeyRange, Refusal> {
        let (low, width) = match keys {
            Keys::All => (0, GREATEST_BOUND),
            Keys::Random => (self.place(), WIDTH),
            Keys::Narrow => (self.place(), NARROW_WIDTH),
            Keys::Rising => {
                let width = KEYS_END / BoundNumber::from(self.sizes.first.max(1));
                (width * BoundNumber::from(at), width)
            }
            Keys::Upper => (KEYS_END / 2, WIDTH),
            Keys::RandomUpper => (KEYS_END / 2 + self.place() / 2, WIDTH / 2),
            Keys::Below => {
                let width = KEYS_END / BoundNumber::from(self.sizes.first.max(1));
                (0, width * (BoundNumber::from(at) + 1))
            }
        };
        KeyRange::new(low, low.saturating_add(width))
    }

    /// A random low end for a range of up to `WIDTH` keys.
    fn place(&mut self) -> BoundNumber
        ensures { result < 4294967296 }
    {
        BoundNumber::from(self.numbers.word()) % (KEYS_END - WIDTH)
    }

    /// Removes a random serial from the list of rows that may be deleted, and returns it. `None` if the list is empty.
    fn take_row(&mut self) -> Option<Serial> {
        if self.rows.is_empty() {
            return None;
        }
        let at = self.numbers.below(self.rows.len() as u64) as usize;
        Some(Serial(self.rows.swap_remove(at)))
    }

    /// Deletes a random row of the list, inserts a row with a random key, and replaces the serial in the list by the
    /// new one. Does nothing if the list is empty. Refused as `apply` is.
    fn update(&mut self) -> Result<(), Refusal> {
        if self.rows.is_empty() {
            return Ok(());
        }
        let at = self.numbers.below(self.rows.len() as u64) as usize;
        let serial = Serial(self.rows[at]);
        self.apply(Command::Delete { serial })?;
        let key = self.numbers.word();
        self.apply(insertion(key, key))?;
        if let Some(row) = self.rows.get_mut(at) {
            *row = self.last;
        }
        Ok(())
    }

    /// Asks the question `ask`, which has the number `at` in a series of the same questions. `Ask::Delete` and
    /// `Ask::Update` do nothing if the list of rows is empty. Refused as `range` is, and as the partition refuses the
    /// command.
    fn ask(&mut self, ask: Ask, at: u32) -> Result<(), Refusal> {
        let command = match ask {
            Ask::Insert => insertion(self.numbers.word(), at),
            Ask::InsertLow => insertion(self.numbers.word() >> 1, at),
            Ask::Update => return self.update(),
            Ask::Delete => match self.take_row() {
                Some(serial) => Command::Delete { serial },
                None => return Ok(()),
            },
            Ask::DeleteAny => Command::Delete {
                serial: Serial(self.numbers.below(u64::from(self.sizes.rows.max(1)))),
            },
            Ask::Count(keys) => Command::Count(self.range(keys, at)?),
            Ask::Sum(keys) => Command::Sum(self.range(keys, at)?),
        };
        self.apply(command)
    }

    /// Asks the question `ask` this many times, numbered from 0. Refused as `ask` is.
    pub fn repeat(&mut self, ask: Ask, times: u32) -> Result<(), Refusal> {
        'times: for at in 0..times {
            self.ask(ask, at)?;
        }
        Ok(())
    }

    /// Makes this many batches: each asks `Ask::Update` `Sizes::second` times, so deletes a random row of the list and
    /// inserts another, and then asks for the sum of the range that `keys` means. No row is changed if the list is
    /// empty. Refused as `ask` is.
    pub fn update_in_batches(&mut self, batches: u32, keys: Keys) -> Result<(), Refusal> {
        'batches: for at in 0..batches {
            self.repeat(Ask::Update, self.sizes.second)?;
            self.ask(Ask::Sum(keys), at)?;
        }
        Ok(())
    }
}

/// A command that inserts a row with this key and payload.
fn insertion(key: u32, payload: u32) -> Command {
    Command::Insert {
        key: Key::from_number(KeyNumber::from(key)),
        payload: Payload::from_number(PayloadNumber::from(payload)),
    }
}
