//! The rows of a range, written into lists that the caller provides.
ghost use Rattle.std.specs.Prelude.{◌≡◌, ◌+◌, ◌<◌, ◌≤◌, ◌^◌, ℕ, List, ◌++◌, All, length, OnErr};
ghost use Rattle.crack_row.specs.declared.Row.{Row};
ghost use Rattle.crack_plain.specs.Plain.{IsSmall};
ghost use Rattle.crack_core.specs.Bulk.{OverKeys};
ghost use Rattle.crack_core.specs.Listing.{Selects, AreInLists, all_listed};
ghost use Rattle.crack_core.specs.Inside.{of_part};

use crate::{Core, PartReply, Query};
use crack_row::{BoundNumber, KeyNumber, KeyRange, PayloadNumber, Policy, Refusal, Row};

impl Core {
    /// Lists the rows whose keys are `first` to `last`, both included, under this policy, by partition and then by
    /// rising serial. Writes the partition, serial, key and payload of as many rows as the lists have room for, and
    /// returns how many rows the range has. All lists must have the same length. Refused as `count_keys` is; the lists
    /// are then unchanged. Takes memory for a reply of each partition that the range meets. Costs what a select in
    /// each of them does.
    pub fn select_keys(
        &mut self,
        first: KeyNumber,
        last: KeyNumber,
        policy: Policy,
        parts: &mut [u32],
        serials: &mut [u64],
        keys: &mut [KeyNumber],
        payloads: &mut [PayloadNumber],
    ) -> Result<u64, Refusal>
        requires serials { length serials.old ≡ length parts.old }
        requires keys { length keys.old ≡ length parts.old }
        requires payloads { length payloads.old ≡ length parts.old }
        ensures selects { OverKeys (Selects self.old.limits self.old.splits policy parts.new serials.new keys.new
            payloads.new) first last result self.old.parts self.new.parts }
        ensures unwritten { OnErr result ((parts.new ≡ parts.old) × (serials.new ≡ serials.old) ×
            (keys.new ≡ keys.old) × (payloads.new ≡ payloads.old)) }
        ensures opened { (self.new.splits ≡ self.old.splits) × (self.new.limits ≡ self.old.limits) }
    {
        match KeyRange::new(first as BoundNumber, last as BoundNumber + 1) {
            Ok(range) => self.select_range(range, policy, parts, serials, keys, payloads),
            Err(refusal) => Err(refusal),
        }
    }

    /// Lists the rows of a range, as `select_keys` does. Refused as `count` is; the lists are then unchanged.
    fn select_range(
        &mut self,
        range: KeyRange,
        policy: Policy,
        parts: &mut [u32],
        serials: &mut [u64],
        keys: &mut [KeyNumber],
        payloads: &mut [PayloadNumber],
    ) -> Result<u64, Refusal>
        requires serials { length serials.old ≡ length parts.old }
        requires keys { length keys.old ≡ length parts.old }
        requires payloads { length payloads.old ≡ length parts.old }
        ensures selects { Selects self.old.limits self.old.splits policy parts.new serials.new keys.new payloads.new
            range result self.old.parts self.new.parts }
        ensures unwritten { OnErr result ((parts.new ≡ parts.old) × (serials.new ≡ serials.old) ×
            (keys.new ≡ keys.old) × (payloads.new ≡ payloads.old)) }
        ensures opened { (self.new.splits ≡ self.old.splits) × (self.new.limits ≡ self.old.limits) }
    {
        match self.ask_range(Query::SelectRows, range, policy) {
            Ok(replies) => Ok(list_all(replies.as_slice(), parts, serials, keys, payloads)),
            Err(refusal) => Err(refusal),
        }
    }
}

/// Writes the rows of all replies into the lists, from index 0 on and in order, as far as there is room. Returns how
/// many rows the replies have, even if not all are written.
fn list_all(
    replies: &[PartReply],
    parts: &mut [u32],
    serials: &mut [u64],
    keys: &mut [KeyNumber],
    payloads: &mut [PayloadNumber],
) -> u64
    requires small { All (λ (r : PartReply). IsSmall r.reply) replies.now }
    requires few { length replies.now ≤ 64 }
    requires serials { length serials.old ≡ length parts.old }
    requires keys { length keys.old ≡ length parts.old }
    requires payloads { length payloads.old ≡ length parts.old }
    ensures found { result ≡ length (all_listed replies.now) }
    ensures stand { AreInLists (all_listed replies.now) parts.new serials.new keys.new payloads.new }
{
    let mut found = 0;
    'replies: for i in 0..replies.len() {
        let reply = &replies[i];
        let rows = reply.rows();
        list_rows(reply.part, rows, found, parts, serials, keys, payloads);
        found += rows.len();
    }
    found as u64
}

/// Writes these rows of the partition `part` into the lists from index `from` on, as far as there is room.
fn list_rows(
    part: u32,
    rows: &[Row],
    from: usize,
    parts: &mut [u32],
    serials: &mut [u64],
    keys: &mut [KeyNumber],
    payloads: &mut [PayloadNumber],
)
    requires few { from + length rows.now < 2 ^ 64 }
    requires serials { length serials.old ≡ length parts.old }
    requires keys { length keys.old ≡ length parts.old }
    requires payloads { length payloads.old ≡ length parts.old }
    ensures { (before : List (ℕ × Row)) → length before ≡ from →
        AreInLists before parts.old serials.old keys.old payloads.old →
        AreInLists (before ++ of_part part rows.now) parts.new serials.new keys.new payloads.new }
{
    'rows: for i in 0..rows.len() {
        let at = from + i;
        if at >= parts.len() {
            return;
        }
        let row = rows[i];
        parts[at] = part;
        serials[at] = row.serial.0;
        keys[at] = row.key.number();
        payloads[at] = row.payload.number();
    }
}
