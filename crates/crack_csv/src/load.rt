//! Loading rows from CSV: read, and feed a loader.
ghost use Rattle.std.specs.Prelude.{◌≡◌, ◌+◌, ◌≤◌, ℕ, List, Some, IfErr, IfOk, OnOk};
ghost use Rattle.crack_row.specs.Devices.{device, has_failed, reads_of};
ghost use Rattle.crack_plain.specs.Plain.{PlainView};
ghost use Rattle.crack_csv.specs.Asked.{AreBytesOf, IsAskedAll, IsAskedFirst, MayBeUnread};
ghost use Rattle.crack_csv.specs.Loads.{IsLoaded, IsCutShort};
ghost use Rattle.crack_csv.specs.Readers.{HasReadAll, HasReadFirst, begun_by};

use crate::MOST_RECORDS;
use crate::loader::Loader;
use crack_row::{Policy, Refusal, Watched};
use crack_session::Desk;
use std::io::Read;

/// The greatest number of bytes in one read.
const ROOM_BYTES: usize = 8192;

/// A load that was cut short. The rows that it inserted stay.
#[derive(Clone, Copy, PartialEq, Eq, Debug)]
pub struct LoadFault {
    /// `HistoryFull`, `GateGaveUp`, `OutOfMemory`, `NoCell`, `LifeOver`, `ReadFault` or `BadRecord`.
    pub refusal: Refusal,
    /// How many rows were inserted.
    pub loaded: u64,
}

/// Inserts the row of each record in a reader's bytes, in order, each into the partition of its key, under this
/// policy. Returns how many rows it inserted. Commas separate fields, which may be in double quotes. If the first
/// record has the fields `key` and `payload`, it is a header, and is skipped. A row is a record of two fields, a key
/// and a payload: numbers of 1 to 20 digits in their ranges, the payload with or without a minus sign. The first
/// refusal ends the load: with `BadRecord` if a record isn't a row; with `ReadFault` if the reader fails, or if there
/// are more records than `MOST_RECORDS`, not counting a header; or as the desk refuses an insert. Takes only the
/// memory that the desk takes. O(bytes), besides the inserts.
pub fn load_csv<D: Desk, R: Read>(
    desk: &mut D,
    policy: Policy,
    reader: &mut Watched<R>,
) -> Result<u64, LoadFault>
    // Whatever the reader does, the desk executed inserts of the rows of exactly the records in some bytes, in
    // order, each once and under this policy. If the reader's bytes are known, they are these bytes.
    ensures asks { IfOk result (λ count. (bytes : List ℕ) × AreBytesOf (R.remaining (device reader.old)) bytes
        × IsAskedAll D.leads (D.splits desk.old) policy bytes count desk.old desk.new) }
    // On a fault, the desk executed the first ones of these inserts, and the last call may be a refused one.
    ensures asks_in_part { IfErr result (λ fault. (bytes : List ℕ) × AreBytesOf (R.remaining (device reader.old)) bytes
        × IsAskedFirst D.leads (D.splits desk.old) policy bytes fault desk.old desk.new) }
    // If the rows are known, the rows of all records are added to them.
    ensures loaded { IfOk result (λ count. (tables : List PlainView) → D.tables desk.old ≡ Some tables →
        (bytes : List ℕ) × AreBytesOf (R.remaining (device reader.old)) bytes
        × IsLoaded (D.bounds desk.old) (D.splits desk.old) tables bytes count (D.tables desk.new)) }
    // On a fault, the rows of the first records are added to them, up to where the reader failed or a record was
    // refused.
    ensures cut_short { IfErr result (λ fault. (tables : List PlainView) → D.tables desk.old ≡ Some tables →
        (bytes : List ℕ) × AreBytesOf (R.remaining (device reader.old)) bytes
        × IsCutShort (D.bounds desk.old) (D.splits desk.old) tables bytes fault (D.tables desk.new)) }
    // The load is refused with `ReadFault` only by the reader, after `MOST_RECORDS` records, or by the desk.
    ensures causes { IfErr result (λ fault. MayBeUnread D.leads (D.splits desk.old) policy (has_failed reader.new)
        (reads_of reader.new) fault desk.new) }
    ensures few { IfOk result (λ count. count ≤ MOST_RECORDS) }
    ensures unfailed { OnOk result (has_failed reader.new ≡ has_failed reader.old) }
    ensures accepted { IfOk result (λ count. D.accepted desk.new ≡ D.accepted desk.old + count) }
    ensures accepted_of_fault { IfErr result (λ fault. D.accepted desk.new ≡ D.accepted desk.old + fault.loaded) }
    ensures splits { D.splits desk.new ≡ D.splits desk.old }
    ensures bounds { D.bounds desk.new ≡ D.bounds desk.old }
{
    let mut loader = Loader::new(policy);
    load_reads(desk, &mut loader, reader)
}

/// Feeds the bytes of a reader, up to the end of the input, to a loader that has taken no bytes, and returns how many
/// rows were inserted. Refused as `load_csv` is.
fn load_reads<D: Desk, R: Read>(
    desk: &mut D,
    loader: &mut Loader,
    reader: &mut Watched<R>,
) -> Result<u64, LoadFault>
    requires begins { loader.old ≡ begun_by loader.old.policy }
    ensures ends { IfOk result (λ count. HasReadAll D.bounds D.splits D.tables D.accepted D.leads loader.old.policy
        desk.old (R.remaining (device reader.old)) count desk.new) }
    ensures stops { IfErr result (λ fault. HasReadFirst D.bounds D.splits D.tables D.accepted D.leads loader.old.policy
        desk.old (R.remaining (device reader.old)) fault desk.new) }
    ensures causes { IfErr result (λ fault. MayBeUnread D.leads (D.splits desk.old) loader.old.policy
        (has_failed reader.new) (reads_of reader.new) fault desk.new) }
    ensures few { IfOk result (λ count. count ≤ MOST_RECORDS) }
    ensures unfailed { OnOk result (has_failed reader.new ≡ has_failed reader.old) }
{
    let mut room = [0u8; ROOM_BYTES];
    'reads: while reader.reads() < u64::MAX {
        match reader.read(&mut room) {
            Ok(count) if count > 0 => {
                if let Err(fault) = loader.feed(desk, &room[..count]) {
                    return Err(fault);
                }
            }
            Ok(_) => return loader.end(desk),
            Err(_) => return Err(unread(loader)),
        }
    }
    Err(unread(loader))
}

/// The fault of a load whose reader's bytes can't be read to their end: `ReadFault`, and how many rows were inserted.
fn unread(loader: &Loader) -> LoadFault
    ensures { result ≡ record { refusal = Refusal.ReadFault; loaded = loader.now.loaded } }
{
    LoadFault {
        refusal: Refusal::ReadFault,
        loaded: loader.loaded(),
    }
}
