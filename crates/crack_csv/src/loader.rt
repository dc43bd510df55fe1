//! Loaders, which are fed the bytes of a CSV text, whatever their source.
ghost use Rattle.std.specs.Prelude.{◌≡◌, ◌≤◌, ◌<◌, ◌+◌, ◌++◌, ◌∷◌, ◌==◌, ◌&&◌, [], ℕ, List, true, false, length, take};
ghost use Rattle.std.specs.Prelude.{IfErr, IfOk, OnErr, OnOk};
ghost use Rattle.csv.specs.Machine.{step, is_end, ends_at_end};
ghost use Rattle.csv.specs.Reading.{default_config, strip_bom};
ghost use Rattle.csv.specs.declared.parser.Action.TheVariants as act;
ghost use Rattle.csv.specs.declared.parser.State.TheVariants as st;
ghost use Rattle.crack_csv.specs.Begun.{kept_of_record, none_begun};
ghost use Rattle.crack_csv.specs.Loaders.{EndsWith, IsHead, StopsAtEnd, StopsBehind, Takes};
ghost use Rattle.crack_csv.specs.Loaders.{records_in, begun_in};
ghost use Rattle.crack_csv.specs.declared.load.LoadFault.{LoadFault};
ghost use Rattle.crack_csv.specs.Taking.{StopsAtRecord, TakesRecord, head_after, kept_by, kept_is_header, kept_row};
ghost use Rattle.crack_csv.specs.Taking.{kept_with};

use crate::MOST_RECORDS;
use crate::begun::BegunRecord;
use crate::insertion::insert_row;
use crate::load::LoadFault;
use crate::record::NewRow;
use crack_commands::{read_key, read_payload};
use crack_row::{Policy, Refusal};
use crack_session::Desk;
use std::marker::Model;

/// A load between two calls of `feed`: its policy, counts and unfinished record. `head` is how many bytes of a byte
/// order mark were taken, or 3 if no more can follow. `number` is how many records have ended, and `loaded` how many
/// rows were inserted. It takes no memory.
#[derive(Drop)]
pub struct Loader {
    policy: Policy,
    head: u8,
    begun: BegunRecord,
    number: u64,
    loaded: u64,
}

impl Model for Loader {
    ghost use Rattle.std.specs.Prelude.{◌≤◌, ◌+◌};
    ghost use Rattle.crack_csv.specs.Loaders.{LoaderState};
    ghost use Rattle.crack_csv.specs.declared.TheConstants.{MOST_RECORDS};

    ghost Value = { LoaderState };

    ghost view = { λ l. record {
      policy = l.policy;
      head = l.head;
      kept = l.begun;
      number = l.number;
      loaded = l.loaded;
    } };

    ghost invariant = { λ l. (l.number ≤ l.loaded + 1) × (l.loaded ≤ MOST_RECORDS) };
}

impl Loader {
    /// A loader that has taken no bytes, and inserts rows under this policy. O(1).
    pub fn new(policy: Policy) -> Loader
        ensures { result ≡ record {
          policy = policy;
          head = 0;
          kept = kept_of_record (none_begun st.StartRecord);
          number = 0;
          loaded = 0;
        } }
    {
        Loader {
            policy,
            head: 0,
            begun: BegunRecord::new(),
            number: 0,
            loaded: 0,
        }
    }

    /// How many rows were inserted. O(1).
    pub fn loaded(&self) -> u64
        ensures value { result ≡ self.now.loaded }
        ensures few { result ≤ MOST_RECORDS }
    {
        self.loaded
    }

    /// Takes the next bytes of the text, and inserts the row of each record that ends in them, in order. The first
    /// record that is refused ends the load: with `ReadFault` if `MOST_RECORDS` rows are already inserted, with
    /// `BadRecord` if it isn't a row, or as the desk refuses the insert. The loader must not be fed after that.
    /// O(bytes), besides the inserts.
    pub fn feed<D: Desk>(&mut self, desk: &mut D, bytes: &[u8]) -> Result<(), LoadFault>
        // Whatever bytes were taken before, the load goes on with these bytes.
        ensures goes_on { OnOk result (Takes D.bounds D.splits D.tables D.accepted D.leads self.old bytes.now desk.old
            desk.new self.new) }
        // On a fault, the last record that some of the bytes finish is refused.
        ensures stops { IfErr result (λ fault. (taken : ℕ) × (taken ≤ length bytes.now)
            × StopsBehind D.bounds D.splits D.tables D.accepted D.leads self.old (take taken bytes.now) desk.old
            desk.new fault) }
    {
        'bytes: for at in 0..bytes.len() {
            if let Err(refusal) = self.take_byte(desk, bytes[at]) {
                return Err(LoadFault {
                    refusal,
                    loaded: self.loaded(),
                });
            }
        }
        Ok(())
    }

    /// Takes the end of the text, and inserts the row of the record that it ends, if it ends one. Returns how many
    /// rows the load inserted. Refused as `feed` is, if that record is refused. O(1), besides the insert.
    pub fn end<D: Desk>(&mut self, desk: &mut D) -> Result<u64, LoadFault>
        // Whatever bytes were taken, the rows of all their records are inserted.
        ensures all { IfOk result (λ count. EndsWith D.bounds D.splits D.tables D.accepted D.leads self.old desk.old
            desk.new count) }
        // On a fault, the last record is refused.
        ensures stops { IfErr result (λ fault. StopsAtEnd D.bounds D.splits D.tables D.accepted D.leads self.old
            desk.old desk.new fault) }
        ensures few { IfOk result (λ count. count ≤ MOST_RECORDS) }
    {
        if !self.takes_last() {
            return Ok(self.loaded());
        }
        match self.finish(desk) {
            Ok(()) => Ok(self.loaded()),
            Err(refusal) => Err(LoadFault {
                refusal,
                loaded: self.loaded(),
            }),
        }
    }

    /// Takes the end of the text. If a record has begun, this ends the record: returns `true`. Otherwise returns
    /// `false`, and nothing changes.
    fn takes_last(&mut self) -> bool
        ensures ends { result ≡ ends_at_end self.old.kept.state }
        ensures last { result ≡ true → self.new ≡ record self.old { kept = kept_by act.EndRecord 0 self.old.kept } }
        ensures same { result ≡ false → self.new ≡ self.old }
    {
        self.begun.end()
    }

    /// Takes one more byte, and inserts the row of the record that it ends, if it ends one. Refused as `finish` is.
    #[inline(always)]
    fn take_byte<D: Desk>(&mut self, desk: &mut D, byte: u8) -> Result<(), Refusal>
        ensures goes_on { OnOk result (Takes D.bounds D.splits D.tables D.accepted D.leads self.old (byte ∷ []) desk.old
            desk.new self.new) }
        ensures stops { IfErr result (λ e. StopsBehind D.bounds D.splits D.tables D.accepted D.leads self.old
            (byte ∷ []) desk.old desk.new (record { refusal = e; loaded = self.new.loaded })) }
        ensures policy { self.new.policy ≡ self.old.policy }
    {
        if self.takes_mark(byte) {
            return Ok(());
        }
        if self.takes_end(byte) {
            return self.finish(desk);
        }
        Ok(())
    }

    /// Takes a byte, which may be any, and returns whether it is the last byte of a byte order mark that begins the
    /// text. If it is, drops what is kept of the record, which is the mark's first two bytes, and the caller doesn't
    /// add the byte to the record. If it isn't, the caller adds it; after a byte that doesn't begin or continue the
    /// mark, no mark can follow.
    #[inline(always)]
    fn takes_mark(&mut self, byte: u8) -> bool
        ensures marked { result ≡ true → (before : List ℕ) → IsHead self.old.head before →
            IsHead self.new.head (before ++ byte ∷ []) × (begun_in (before ++ byte ∷ []) ≡ none_begun st.StartRecord)
            × (records_in (before ++ byte ∷ []) ≡ records_in before) }
        ensures begins { result ≡ true → self.new.kept ≡ kept_of_record (none_begun st.StartRecord) }
        ensures plain { result ≡ false → (before : List ℕ) → IsHead self.old.head before →
            IsHead self.new.head (before ++ byte ∷ [])
            × (strip_bom (before ++ byte ∷ []) ≡ strip_bom before ++ byte ∷ []) }
        ensures kept { result ≡ false → self.new.kept ≡ self.old.kept }
        ensures policy { self.new.policy ≡ self.old.policy }
        ensures number { self.new.number ≡ self.old.number }
        ensures loaded { self.new.loaded ≡ self.old.loaded }
    {
        if self.head < 3 {
            self.takes_last_mark(byte)
        } else {
            false
        }
    }

    /// Does what `takes_mark` does, for a byte at which a byte order mark may still begin or continue; for any other
    /// byte, returns `false`, and nothing changes.
    #[inline(never)]
    fn takes_last_mark(&mut self, byte: u8) -> bool
        ensures marked { result ≡ true → (self.old.head ≡ 2) × (byte ≡ 0xBF) × (self.new.head ≡ 3) }
        ensures begins { result ≡ true → self.new.kept ≡ kept_of_record (none_begun st.StartRecord) }
        ensures plain { result ≡ false → (self.new.head ≡ head_after self.old.head byte)
            × (self.old.head ≡ 2 → (byte == 0xBF) ≡ false) }
        ensures kept { result ≡ false → self.new.kept ≡ self.old.kept }
        ensures policy { self.new.policy ≡ self.old.policy }
        ensures number { self.new.number ≡ self.old.number }
        ensures loaded { self.new.loaded ≡ self.old.loaded }
    {
        match (self.head, byte) {
            (0, 0xEF) => self.head = 1,
            (1, 0xBB) => self.head = 2,
            (2, 0xBF) => {
                self.head = 3;
                self.begun.restart();
                return true;
            }
            (0 | 1 | 2, _) => self.head = 3,
            _ => (),
        }
        false
    }

    /// Inserts the row of the record that has ended, unless it is a header, and begins another record. Refused with
    /// `ReadFault` if `MOST_RECORDS` rows are inserted, with `BadRecord` if the record isn't a row, and as the desk
    /// refuses the insert.
    fn finish<D: Desk>(&mut self, desk: &mut D) -> Result<(), Refusal>
        ensures goes_on { OnOk result (TakesRecord D.bounds D.splits D.tables D.accepted D.leads self.old desk.old
            desk.new self.new) }
        ensures stops { IfErr result (λ e. StopsAtRecord D.bounds D.splits D.tables D.accepted D.leads self.old desk.old
            desk.new (record { refusal = e; loaded = self.new.loaded })) }
        ensures begins { OnOk result (self.new.kept ≡ kept_of_record (none_begun self.old.kept.state)) }
        ensures policy { self.new.policy ≡ self.old.policy }
        ensures head { self.new.head ≡ self.old.head }
    {
        if self.is_at_header() {
            self.begin_next(0);
            return Ok(());
        }
        if self.is_full() {
            return Err(Refusal::ReadFault);
        }
        match self.next_row() {
            None => Err(Refusal::BadRecord {
                number: self.next_number(),
            }),
            Some(row) => match insert_row(desk, self.policy(), row) {
                Ok(()) => {
                    self.begin_next(1);
                    Ok(())
                }
                Err(refusal) => Err(refusal),
            },
        }
    }

    /// Whether the record that has ended is a header: the first record, with the fields `key` and `payload`.
    fn is_at_header(&self) -> bool
        ensures is { result ≡ (self.now.number + 1 == 1 && kept_is_header self.now.kept) }
        ensures first { result ≡ true → self.now.number ≡ 0 }
        ensures counts { (self.now.number ≤ self.now.loaded + 1) × (self.now.loaded ≤ MOST_RECORDS) }
    {
        self.number == 0 && is_header(&self.begun)
    }

    /// Whether `MOST_RECORDS` rows are inserted.
    fn is_full(&self) -> bool
        ensures full { result ≡ true → self.now.loaded ≡ MOST_RECORDS }
        ensures few { result ≡ false → self.now.loaded < MOST_RECORDS }
    {
        self.loaded == MOST_RECORDS
    }

    /// The number of the record that has ended, counted from 1; a header is counted too.
    fn next_number(&self) -> u64
        ensures { result ≡ self.now.number + 1 }
    {
        self.number + 1
    }

    /// The policy by which rows are inserted.
    fn policy(&self) -> Policy
        ensures { result ≡ self.now.policy }
    {
        self.policy
    }

    /// The row of the record that has ended, or `None` if the record isn't a row: two fields, a key and a payload in
    /// range.
    fn next_row(&self) -> Option<NewRow>
        ensures { result ≡ kept_row self.now.kept }
    {
        new_row(&self.begun)
    }

    /// Counts the record that has ended, and `rows`, the number of rows inserted for it, which is 1 or 0. Begins
    /// another record.
    fn begin_next(&mut self, rows: u64)
        requires few { self.old.loaded + rows ≤ MOST_RECORDS }
        requires numbered { self.old.number ≤ self.old.loaded + rows }
        ensures { self.new ≡ record self.old {
          kept = kept_of_record (none_begun self.old.kept.state);
          number = self.old.number + 1;
          loaded = self.old.loaded + rows;
        } }
    {
        self.number += 1;
        self.loaded += rows;
        self.begun.clear();
    }

    /// Takes one more byte of the unfinished record, and returns whether the byte ends the record.
    #[inline(always)]
    fn takes_end(&mut self, byte: u8) -> bool
        ensures ends { result ≡ is_end (step default_config self.old.kept.state byte).1 }
        ensures same { self.new ≡ record self.old { kept = kept_with self.old.kept byte } }
    {
        self.begun.take(byte)
    }
}

/// Whether a record is a header: its two fields are `key` and `payload`.
fn is_header(begun: &BegunRecord) -> bool
    ensures { result ≡ kept_is_header begun.now }
{
    match begun.fields() {
        Some((key, payload)) => key == b"key".as_slice() && payload == b"payload".as_slice(),
        None => false,
    }
}

/// The row of a record; `None` unless the record has exactly two fields, a key and a payload in range.
fn new_row(begun: &BegunRecord) -> Option<NewRow>
    ensures { result ≡ kept_row begun.now }
{
    let (key, payload) = begun.fields()?;
    let key = read_key(key)?;
    let payload = read_payload(payload)?;
    Some(NewRow { key, payload })
}
