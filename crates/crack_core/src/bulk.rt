//! Many calls in one. The caller provides the lists of their arguments and of their results.
ghost use Rattle.std.specs.Prelude.{◌≡◌, ◌<◌, ◌≤◌, ◌≤ℤ◌, ◌^◌, neg_ℤ, pos, ℕ, ◌+◌};
ghost use Rattle.std.specs.Prelude.{length, slice_index_or, IfOk, IfErr, Ok, Err};
ghost use Rattle.crack_core.specs.Asking.{Inserts, CountsRange, Sums};
ghost use Rattle.crack_core.specs.Bulk.{Went, InsertsAt, DeletesAt, UpdatesAt, CountsAt, SumsAt, OverKeys};
ghost use Rattle.crack_core.specs.Bulk.{Answered, of_halves, flag, key_in, payload_in, row_number};
ghost use Rattle.crack_core.specs.Inside.{IsKeptBelow};

use crate::Core;
use crate::runs::Run;
use crack_row::{
    BoundNumber, Key, KeyNumber, KeyRange, Payload, PayloadNumber, Policy, Refusal, RowNo, Serial,
};

/// How far a list of calls has come.
#[derive(Clone, Copy, Debug)]
pub struct BulkProgress {
    /// How many calls were answered, from the first on.
    pub done: u64,
    /// Why the next call was refused, which ended the list; `None` if all calls were answered.
    pub refusal: Option<Refusal>,
}

impl BulkProgress {
    /// The progress when all of `count` calls were answered.
    fn whole(count: usize) -> BulkProgress
        ensures { result ≡ record { done = count; refusal = None } }
    {
        BulkProgress {
            done: count as u64,
            refusal: None,
        }
    }

    /// The progress when `done` calls were answered, and the next one was refused.
    fn stopped(done: usize, refusal: Refusal) -> BulkProgress
        ensures { result ≡ record { done = done; refusal = Some refusal } }
    {
        BulkProgress {
            done: done as u64,
            refusal: Some(refusal),
        }
    }
}

/// 2^64: what 1 in the upper half of a sum counts.
const HIGH_UNIT: u128 = 18446744073709551616;

/// 2^102, which no sum exceeds in size.
const FARTHEST: i128 = 5070602400912917605986812821504;

/// 2^38: `FARTHEST` divided by 2^64.
const FARTHEST_HIGH: i64 = 274877906944;

impl Core {
    /// Counts the rows whose keys are `first` to `last`, both included, as `count` does. Refused with `BadRange` if
    /// `first` is above `last` + 1, else as `count` is. Costs what `count` does.
    pub fn count_keys(
        &mut self,
        first: KeyNumber,
        last: KeyNumber,
        policy: Policy,
    ) -> Result<u64, Refusal>
        ensures counts { OverKeys (CountsRange self.old.limits self.old.splits policy) first last result
            self.old.parts self.new.parts }
        ensures opened { (self.new.splits ≡ self.old.splits) × (self.new.limits ≡ self.old.limits) }
    {
        match KeyRange::new(first as BoundNumber, last as BoundNumber + 1) {
            Ok(range) => self.count(range, policy),
            Err(refusal) => Err(refusal),
        }
    }

    /// Sums the payloads of the rows whose keys are `first` to `last`, both included, as `sum` does. Refused as
    /// `count_keys` is. Costs what `sum` does.
    pub fn sum_keys(
        &mut self,
        first: KeyNumber,
        last: KeyNumber,
        policy: Policy,
    ) -> Result<i128, Refusal>
        ensures sums { OverKeys (Sums self.old.limits self.old.splits policy) first last result
            self.old.parts self.new.parts }
        ensures small { IfOk result (λ sum. (neg_ℤ (pos (2 ^ 102)) ≤ℤ sum) × (sum ≤ℤ pos (2 ^ 102))) }
        ensures opened { (self.new.splits ≡ self.old.splits) × (self.new.limits ≡ self.old.limits) }
    {
        match KeyRange::new(first as BoundNumber, last as BoundNumber + 1) {
            Ok(range) => self.sum(range, policy),
            Err(refusal) => Err(refusal),
        }
    }

    /// Inserts a row for each key and payload, in order, as `insert` does, and writes its partition to `parts` and its
    /// serial to `serials`, at the same index. All lists must have the same length. Stops at the first refusal, which
    /// the result has. Consecutive rows of one partition are inserted by one call, which costs less per row than
    /// `insert`.
    pub fn insert_many(
        &mut self,
        keys: &[KeyNumber],
        payloads: &[PayloadNumber],
        parts: &mut [u32],
        serials: &mut [u64],
    ) -> BulkProgress
        requires payloads { length payloads.now ≡ length keys.now }
        requires parts { length parts.old ≡ length keys.now }
        requires serials { length serials.old ≡ length keys.now }
        ensures inserts { Went (InsertsAt self.old.limits self.old.splits keys.now payloads.now parts.new serials.new)
            (length keys.now) self.old.parts result self.new.parts }
        ensures opened { (self.new.splits ≡ self.old.splits) × (self.new.limits ≡ self.old.limits) }
    {
        // A run inserts each row that it looks at, except one that ends it, so no row is looked at more than twice. If
        // no memory is found for a row, it ends the run, and the next run begins with it: if again none is found, the
        // list ends.
        let mut done = 0;
        'runs: while done < keys.len() {
            match self.insert_next(keys, payloads, parts, serials, done) {
                Ok(count) => done += count,
                Err(refusal) => return BulkProgress::stopped(done, refusal),
            }
        }
        BulkProgress::whole(keys.len())
    }

    /// Inserts the next rows, from index `from` on: as many as `insert_run` inserts or, if it inserts none, one by
    /// `insert`. Writes their row numbers to `parts` and `serials` at the same indexes, and returns how many rows it
    /// inserted. Refused as `insert` is; then none is inserted.
    fn insert_next(
        &mut self,
        keys: &[KeyNumber],
        payloads: &[PayloadNumber],
        parts: &mut [u32],
        serials: &mut [u64],
        from: usize,
    ) -> Result<usize, Refusal>
        requires within { from < length keys.now }
        requires payloads { length payloads.now ≡ length keys.now }
        requires parts { length parts.old ≡ length keys.now }
        requires serials { length serials.old ≡ length keys.now }
        ensures some { IfOk result (λ count. (0 < count) × (from + count ≤ length keys.now)) }
        ensures inserts { IfOk result (λ count. Answered (λ k. InsertsAt self.old.limits self.old.splits keys.now
            payloads.now parts.new serials.new (from + k)) self.old.parts count self.new.parts) }
        ensures refused { IfErr result (λ e. Inserts self.old.limits self.old.splits (key_in keys.now from)
            (payload_in payloads.now from) (Err e) self.old.parts self.new.parts) }
        ensures parts { IsKeptBelow from parts.old parts.new }
        ensures serials { IsKeptBelow from serials.old serials.new }
        ensures opened { (self.new.splits ≡ self.old.splits) × (self.new.limits ≡ self.old.limits) }
    {
        match self.insert_run(&keys[from..], &payloads[from..]) {
            Ok(run) => {
                if run.count == 0 {
                    return self.insert_one(keys[from], payloads[from], parts, serials, from);
                }
                number_rows(parts, serials, from, run);
                Ok(run.count)
            }
            Err(refusal) => Err(refusal),
        }
    }

    /// Inserts one row, as `insert` does, and writes its row number at index `i` of `parts` and `serials`. Returns 1.
    /// Refused as `insert` is.
    fn insert_one(
        &mut self,
        key: KeyNumber,
        payload: PayloadNumber,
        parts: &mut [u32],
        serials: &mut [u64],
        i: usize,
    ) -> Result<usize, Refusal>
        requires parts { i < length parts.old }
        requires serials { i < length serials.old }
        ensures one { IfOk result (λ count. count ≡ 1) }
        ensures inserts { IfOk result (λ _. Inserts self.old.limits self.old.splits (record { 0 = key })
            (record { 0 = payload }) (Ok (row_number (slice_index_or parts.new i 0) (slice_index_or serials.new i 0)))
            self.old.parts self.new.parts) }
        ensures refused { IfErr result (λ e. Inserts self.old.limits self.old.splits (record { 0 = key })
            (record { 0 = payload }) (Err e) self.old.parts self.new.parts) }
        ensures parts { IsKeptBelow i parts.old parts.new }
        ensures serials { IsKeptBelow i serials.old serials.new }
        ensures opened { (self.new.splits ≡ self.old.splits) × (self.new.limits ≡ self.old.limits) }
    {
        match self.insert(Key::from_number(key), Payload::from_number(payload)) {
            Ok(row) => {
                parts[i] = row.part;
                serials[i] = row.serial.0;
                Ok(1)
            }
            Err(refusal) => Err(refusal),
        }
    }

    /// Deletes the rows with these partitions and serials, in order, as `delete` does, and writes to `gone` 1 for each
    /// row that existed and 0 for each that didn't. All lists must have the same length. Stops at the first refusal,
    /// which the result has. Each row costs what `delete` does.
    pub fn delete_many(&mut self, parts: &[u32], serials: &[u64], gone: &mut [u8]) -> BulkProgress
        requires serials { length serials.now ≡ length parts.now }
        requires gone { length gone.old ≡ length parts.now }
        ensures deletes { Went (DeletesAt self.old.limits self.old.splits parts.now serials.now gone.new)
            (length parts.now) self.old.parts result self.new.parts }
        ensures opened { (self.new.splits ≡ self.old.splits) × (self.new.limits ≡ self.old.limits) }
    {
        let mut seen = 0;
        'rows: for i in 0..parts.len() {
            seen ^= self.look_ahead(parts, serials, i);
            let row = row_of(parts[i], serials[i]);
            match self.delete(row) {
                Ok(went) => gone[i] = flag(went.is_some()),
                Err(refusal) => return BulkProgress::stopped(i, refusal),
            }
        }
        self.keep_reads(seen);
        BulkProgress::whole(parts.len())
    }

    /// Replaces the keys and the payloads of the rows with these partitions and serials, in order, as `update` does,
    /// and writes to `found` 1 for each row that exists and 0 for each that doesn't. All lists must have the same
    /// length. Stops at the first refusal, which the result has. Each row costs what `update` does.
    pub fn update_many(
        &mut self,
        parts: &[u32],
        serials: &[u64],
        keys: &[KeyNumber],
        payloads: &[PayloadNumber],
        found: &mut [u8],
    ) -> BulkProgress
        requires serials { length serials.now ≡ length parts.now }
        requires keys { length keys.now ≡ length parts.now }
        requires payloads { length payloads.now ≡ length parts.now }
        requires found { length found.old ≡ length parts.now }
        ensures updates { Went (UpdatesAt self.old.limits self.old.splits parts.now serials.now keys.now payloads.now
            found.new) (length parts.now) self.old.parts result self.new.parts }
        ensures opened { (self.new.splits ≡ self.old.splits) × (self.new.limits ≡ self.old.limits) }
    {
        let mut seen = 0;
        'rows: for i in 0..parts.len() {
            seen ^= self.look_ahead(parts, serials, i);
            let row = row_of(parts[i], serials[i]);
            let key = Key::from_number(keys[i]);
            let payload = payloads[i];
            match self.update(row, key, Payload::from_number(payload)) {
                Ok(is_there) => found[i] = flag(is_there),
                Err(refusal) => return BulkProgress::stopped(i, refusal),
            }
        }
        self.keep_reads(seen);
        BulkProgress::whole(parts.len())
    }

    /// Counts the rows of each range, from its first key to its last, in order, as `count_keys` does, and writes the
    /// counts. All lists must have the same length. Stops at the first refusal, which the result has. Each range costs
    /// what `count` does.
    pub fn count_many(
        &mut self,
        firsts: &[KeyNumber],
        lasts: &[KeyNumber],
        policy: Policy,
        counts: &mut [u64],
    ) -> BulkProgress
        requires lasts { length lasts.now ≡ length firsts.now }
        requires counts { length counts.old ≡ length firsts.now }
        ensures counts { Went (CountsAt self.old.limits self.old.splits policy firsts.now lasts.now counts.new)
            (length firsts.now) self.old.parts result self.new.parts }
        ensures opened { (self.new.splits ≡ self.old.splits) × (self.new.limits ≡ self.old.limits) }
    {
        'each: for i in 0..firsts.len() {
            match self.count_keys(firsts[i], lasts[i], policy) {
                Ok(count) => counts[i] = count,
                Err(refusal) => return BulkProgress::stopped(i, refusal),
            }
        }
        BulkProgress::whole(firsts.len())
    }

    /// Sums the payloads of each range, from its first key to its last, in order, as `sum_keys` does. Writes the low
    /// 64 bits of each sum to `lows`, and the bits above them to `highs`. All lists must have the same length. Stops
    /// at the first refusal, which the result has. Each range costs what `sum` does.
    pub fn sum_many(
        &mut self,
        firsts: &[KeyNumber],
        lasts: &[KeyNumber],
        policy: Policy,
        lows: &mut [u64],
        highs: &mut [i64],
    ) -> BulkProgress
        requires lasts { length lasts.now ≡ length firsts.now }
        requires lows { length lows.old ≡ length firsts.now }
        requires highs { length highs.old ≡ length firsts.now }
        ensures sums { Went (SumsAt self.old.limits self.old.splits policy firsts.now lasts.now lows.new highs.new)
            (length firsts.now) self.old.parts result self.new.parts }
        ensures opened { (self.new.splits ≡ self.old.splits) × (self.new.limits ≡ self.old.limits) }
    {
        'each: for i in 0..firsts.len() {
            match self.sum_keys(firsts[i], lasts[i], policy) {
                Ok(sum) => {
                    let halves = halves(sum);
                    lows[i] = halves.0;
                    highs[i] = halves.1;
                }
                Err(refusal) => return BulkProgress::stopped(i, refusal),
            }
        }
        BulkProgress::whole(firsts.len())
    }
}

/// The low 64 bits of a sum, and the bits above them as a signed number. The sum must be from -2^102 to 2^102. O(1).
pub fn halves(sum: i128) -> (u64, i64)
    requires low { neg_ℤ (pos (2 ^ 102)) ≤ℤ sum }
    requires high { sum ≤ℤ pos (2 ^ 102) }
    ensures value { sum ≡ of_halves result.0 result.1 }
    ensures small { (neg_ℤ (pos (2 ^ 38)) ≤ℤ result.1) × (result.1 ≤ℤ pos (2 ^ 38)) }
{
    let lifted = (sum + FARTHEST) as u128;
    let low = (lifted % HIGH_UNIT) as u64;
    let high = (lifted / HIGH_UNIT) as i64;
    (low, high - FARTHEST_HIGH)
}

/// Writes the row numbers of a run from index `from` on: its partition to `parts`, and the serials of its rows, which
/// rise by 1, to `serials`. O(rows).
fn number_rows(parts: &mut [u32], serials: &mut [u64], from: usize, run: Run)
    requires parts { from + run.count ≤ length parts.old }
    requires serials { from + run.count ≤ length serials.old }
    requires last { run.first + run.count < 2 ^ 64 }
    ensures kept_parts { IsKeptBelow from parts.old parts.new }
    ensures kept_serials { IsKeptBelow from serials.old serials.new }
    ensures parts { (k : ℕ) → k < run.count → slice_index_or parts.new (from + k) 0 ≡ run.part }
    ensures serials { (k : ℕ) → k < run.count → slice_index_or serials.new (from + k) 0 ≡ run.first + k }
{
    'rows: for k in 0..run.count {
        parts[from + k] = run.part;
        serials[from + k] = run.first + k as u64;
    }
}

/// The row number with this partition and serial.
fn row_of(part: u32, serial: u64) -> RowNo
    ensures { result ≡ record { part = part; serial = record { 0 = serial } } }
{
    RowNo {
        part,
        serial: Serial(serial),
    }
}

/// 1 if `is`, else 0.
fn flag(is: bool) -> u8
    ensures { result ≡ flag is }
{
    is as u8
}
