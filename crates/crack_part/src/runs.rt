//! Runs of rows that are inserted by one call.
ghost use Rattle.std.specs.Prelude.{◌≡◌, ◌+◌, ◌<◌, ◌≤◌, ◌^◌, slice_index_or, length, ℕ, Err, IfOk, IfErr};
ghost use Rattle.crack_row.specs.Ranges.{IsIn};
ghost use Rattle.crack_plain.specs.Plain.{accepted_of};
ghost use Rattle.crack_part.specs.Parts.{IsSound, table_of};
ghost use Rattle.crack_part.specs.Runs.{InsertsInto, InsertsRun};

use crate::partition::Partition;
use crack_row::{Key, KeyNumber, KeyRange, PayloadNumber, Refusal, Serial};

impl Partition {
    /// Inserts rows, each as `apply` inserts it, and returns how many. Row k has the key `keys[k]` and the payload
    /// `payloads[k]`; the lists have the same length. Stops before the first row whose key isn't the partition's, and
    /// before the first for which a limit is reached: that of the commands since the last checkpoint, of the life, or
    /// of the cells. At such a limit `apply` would refuse the row, or need upkeep first. Returns 0 if that is the
    /// first row. Stops earlier only if no memory is found for the next row. Refused with `OutOfMemory` if no memory
    /// is found for the first row. O(rows inserted), except for growth.
    pub fn insert_run(
        &mut self,
        keys: &[KeyNumber],
        payloads: &[PayloadNumber],
    ) -> Result<usize, Refusal>
        requires { length payloads.now ≡ length keys.now }
        ensures few { IfOk result (λ count. count ≤ length keys.now) }
        ensures last { IfOk result (λ count. self.old.next + count < 2 ^ 64) }
        ensures inserts { IfOk result (λ count. InsertsRun keys.now payloads.now self.old count self.new) }
        ensures refused { IfErr result (λ e. InsertsInto keys.now payloads.now 0 (Err e) self.old self.new) }
    {
        let left = self.inserts_left();
        let count = keys_within(self.keys, keys, left);
        if count == 0 {
            return Ok(0);
        }
        let taken = self
            .store
            .insert_run(Serial(self.next), &keys[..count], &payloads[..count]);
        self.store.recall_invariant();
        if taken == 0 {
            return Err(Refusal::OutOfMemory);
        }
        self.next += taken as u64;
        self.since += taken as u64;
        Ok(taken)
    }

    /// How many rows can be inserted next before an insert needs upkeep, or is refused for a cause that is neither its
    /// key nor a lack of memory. O(1).
    fn inserts_left(&self) -> usize
        ensures history { self.now.since + result ≤ self.now.limits.history }
        ensures life { accepted_of (table_of self.now) + result ≤ self.now.limits.life }
        ensures cells { length self.now.store.cells + result ≤ self.now.limits.cells + length self.now.store.free }
    {
        let cells = self.limits.cells - self.store.cells() as u64 + self.store.free_cells() as u64;
        let history = self.limits.history - self.since;
        let life = self.limits.life - self.accepted();
        cells.min(history).min(life) as usize
    }
}

/// How many keys at the start of a list are in the range, before the first one that isn't; at most `most`. O(result).
fn keys_within(range: KeyRange, keys: &[KeyNumber], most: usize) -> usize
    ensures few { result ≤ length keys.now }
    ensures most { result ≤ most }
    ensures within { (k : ℕ) → k < result → IsIn range (slice_index_or keys.now k 0) }
{
    let end = keys.len().min(most);
    'keys: for i in 0..end {
        if !range.contains(Key::from_number(keys[i])) {
            return i;
        }
    }
    end
}
