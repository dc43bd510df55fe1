//! The unfinished record of a text whose bytes are taken one at a time.
ghost use Rattle.std.specs.Prelude.{◌≡◌, ◌≢◌, ◌++◌, ◌∷◌, [], ◌+◌, min, take, length, true, false, IfSome, IfNone};
ghost use Rattle.csv.specs.Machine.{step, is_end, ends_at_end};
ghost use Rattle.csv.specs.Reading.{default_config};
ghost use Rattle.csv.specs.declared.parser.State.TheVariants as st;
ghost use Rattle.csv.specs.declared.parser.Action.TheVariants as act;
ghost use Rattle.crack_csv.specs.Begun.{kept_of_record, none_begun, reader_state};
ghost use Rattle.crack_csv.specs.Taking.{kept_with, kept_by, action_of};

use arrayvec::ArrayVec;
use std::marker::Model;

/// How many bytes of a field are kept: one more than a number and its sign may have.
pub(crate) const FIELD_BYTES: usize = 22;

/// The place of the next byte in a text.
#[derive(Clone, Copy, PartialEq, Eq, Debug)]
pub(crate) enum Place {
    /// Before a record.
    StartRecord,
    /// At the start of a field, after a comma.
    StartField,
    /// In a field or after it, outside quotes.
    InField,
    /// Inside quotes.
    InQuoted,
    /// After a quote that may close the field, or be the first of two.
    AfterQuote,
    /// After a carriage return that ended a record.
    AfterReturn,
}

/// The effect of a byte on the unfinished record.
#[derive(Clone, Copy, PartialEq, Eq, Debug)]
enum Effect {
    /// The byte has no effect.
    Skip,
    /// The byte is added to the field.
    Copy,
    /// The byte ends the field.
    EndField,
    /// The byte ends the field and the record.
    EndRecord,
}

/// What is kept of the unfinished record: the place of the next byte, how many fields have ended (3 stands for any
/// greater number too), and the first bytes of the first two fields. It takes no memory.
#[derive(Drop)]
pub(crate) struct BegunRecord {
    place: Place,
    whole: u8,
    first: ArrayVec<u8, FIELD_BYTES>,
    second: ArrayVec<u8, FIELD_BYTES>,
}

impl Model for BegunRecord {
    ghost use Rattle.crack_csv.specs.Begun.{KeptRecord, reader_state};

    ghost Value = { KeptRecord };

    ghost view = { λ r. record {
      state = reader_state r.place;
      whole = r.whole;
      first = r.first.items;
      second = r.second.items;
    } };
}

impl BegunRecord {
    /// The record before the first byte of a text: nothing of it is kept yet.
    pub(crate) fn new() -> BegunRecord
        ensures { result ≡ kept_of_record (none_begun st.StartRecord) }
    {
        BegunRecord {
            place: Place::StartRecord,
            whole: 0,
            first: ArrayVec::new(),
            second: ArrayVec::new(),
        }
    }

    /// Takes one more byte, and returns whether the byte ends the record. If it does, the ended record's fields are
    /// kept until `clear`.
    #[inline(always)]
    pub(crate) fn take(&mut self, byte: u8) -> bool
        ensures kept { self.new ≡ kept_with self.old byte }
        ensures ends { result ≡ is_end (step default_config self.old.state byte).1 }
    {
        let (place, effect) = next_place(self.place, byte);
        self.place = place;
        match effect {
            Effect::Skip => false,
            Effect::Copy => {
                self.copy(byte);
                false
            }
            Effect::EndField => {
                self.end_field();
                false
            }
            Effect::EndRecord => {
                self.end_field();
                true
            }
        }
    }

    /// Takes the end of the input. If a record has begun, this ends its last field and the record, even inside quotes:
    /// returns `true`, and the record's fields are kept until `clear`. Otherwise returns `false`, and nothing changes.
    pub(crate) fn end(&mut self) -> bool
        ensures kept { result ≡ true → self.new ≡ kept_by act.EndRecord 0 self.old }
        ensures same { result ≡ false → self.new ≡ self.old }
        ensures ends { result ≡ ends_at_end self.old.state }
    {
        match self.place {
            Place::StartRecord | Place::AfterReturn => false,
            _ => {
                self.end_field();
                true
            }
        }
    }

    /// The first bytes of the first and second field, at most `FIELD_BYTES` of each; `None` unless exactly two fields
    /// have ended.
    pub(crate) fn fields(&self) -> Option<(&[u8], &[u8])>
        ensures some { IfSome result (λ pair. (self.now.whole ≡ 2) × (pair.0.now ≡ self.now.first)
            × (pair.1.now ≡ self.now.second)) }
        ensures none { IfNone result (self.now.whole ≢ 2) }
    {
        if self.whole == 2 {
            Some((self.first.as_slice(), self.second.as_slice()))
        } else {
            None
        }
    }

    /// Drops what is kept of the fields, so that another record can begin; the place of the next byte stays as it is.
    #[inline(always)]
    pub(crate) fn clear(&mut self)
        ensures { self.new ≡ kept_of_record (none_begun self.old.state) }
    {
        self.whole = 0;
        self.first.clear();
        self.second.clear();
    }

    /// Drops what is kept of the fields, and sets the place of the next byte to the start of a text.
    pub(crate) fn restart(&mut self)
        ensures { self.new ≡ kept_of_record (none_begun st.StartRecord) }
    {
        self.place = Place::StartRecord;
        self.clear();
    }

    /// Adds a byte to what is kept of the current field, if that is the first or second field and there is room.
    #[inline(always)]
    fn copy(&mut self, byte: u8)
        ensures { self.new ≡ kept_by act.Copy byte self.old }
    {
        match self.whole {
            0 => keep(&mut self.first, byte),
            1 => keep(&mut self.second, byte),
            _ => (),
        }
    }

    /// Counts the current field as ended; counts no further than 3.
    #[inline(always)]
    fn end_field(&mut self)
        ensures { self.new ≡ kept_by act.EndField 0 self.old }
    {
        self.whole = if self.whole < 2 { self.whole + 1 } else { 3 };
    }
}

/// Adds a byte to what is kept of a field, if that has fewer than `FIELD_BYTES` bytes.
#[inline(always)]
fn keep(field: &mut ArrayVec<u8, FIELD_BYTES>, byte: u8)
    ensures { field.new.items ≡ take FIELD_BYTES (field.old.items ++ byte ∷ []) }
{
    if field.len() < FIELD_BYTES {
        field.push(byte);
    }
}

/// The place that follows a byte at this place, and the byte's effect: what the `csv` crate's reader does with the
/// byte under default settings.
#[inline(always)]
fn next_place(place: Place, byte: u8) -> (Place, Effect)
    ensures place { reader_state result.0 ≡ (step default_config (reader_state place) byte).0 }
    ensures effect { action_of result.1 ≡ (step default_config (reader_state place) byte).1 }
{
    match (place, byte) {
        (Place::InQuoted, b'"') => (Place::AfterQuote, Effect::Skip),
        (Place::InQuoted, _) | (Place::AfterQuote, b'"') => (Place::InQuoted, Effect::Copy),
        (Place::StartRecord | Place::StartField | Place::AfterReturn, b'"') => {
            (Place::InQuoted, Effect::Skip)
        }
        (Place::StartRecord, b'\r' | b'\n') | (Place::AfterReturn, b'\r' | b'\n') => {
            (Place::StartRecord, Effect::Skip)
        }
        (_, b',') => (Place::StartField, Effect::EndField),
        (_, b'\r') => (Place::AfterReturn, Effect::EndRecord),
        (_, b'\n') => (Place::StartRecord, Effect::EndRecord),
        _ => (Place::InField, Effect::Copy),
    }
}
