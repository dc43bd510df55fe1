//! A 16-bit code for each key. A pass over codes reads a quarter of what a pass over keys would read. A spot is an
//! index into a list's vectors; `tags` has the keys of the rows, by spot, and `stands` says which spots have a row.
ghost use Rattle.std.specs.Prelude.{◌≡◌, ◌+◌, ◌<◌, ◌≤◌, [], length, take, vec_capacity, slice_set};
ghost use Rattle.crack_pending.specs.Ahead.{IsNext};
ghost use Rattle.crack_pending.specs.Codes.{AreCoded, key_code};

use crate::ahead::Ahead;
use crack_arena::{Arena, UNKNOWN_KEY};
use crack_row::{KeyNumber, Row};
use crack_tags::TagList;
use std::alloc::Global;
use std::marker::Model;

/// A key as passes compare it.
pub(crate) type StoredKey = KeyNumber;

/// The code of a hole. It is above all codes of keys.
pub(crate) const HOLE: u16 = 65535;

/// The code of all keys that are too high for a code of their own.
const GREATEST_CODE: u64 = 65534;

/// The greatest number of spots whose keys a pass reads instead of codes. Making codes for so few gains nothing.
const MOST_UNCODED: usize = 64;

/// The number of bits of a code.
const CODE_BITS: u32 = 16;

/// The rule by which keys are coded: subtract the base, and drop the low `shift` bits.
#[derive(Clone, Copy)]
struct Scale {
    base: StoredKey,
    shift: u32,
}

impl Scale {
    /// The code of a key, by this rule: at most `GREATEST_CODE`.
    fn code(self, key: StoredKey) -> u16
        requires { self.shift < 64 }
        ensures { result ≡ key_code self.base self.shift key }
    {
        (key.saturating_sub(self.base) >> self.shift).min(GREATEST_CODE) as u16
    }
}

/// The codes of the first spots, and the candidates that a pass found ahead of time. A higher key never has a lower
/// code, whatever the scale is. The scale is chosen by the keys that exist when the first row is coded.
#[derive(Drop)]
pub(crate) struct Codes {
    codes: Vec<u16>,
    scale: Scale,
    ahead: Ahead,
}

impl Model for Codes {
    ghost use Rattle.std.specs.Prelude.{◌<◌};
    ghost use Rattle.crack_pending.specs.Ahead.{IsAhead};
    ghost use Rattle.crack_pending.specs.Codes.{Coding};

    ghost Value = { Coding };

    ghost view = { λ c. record { codes = c.codes.items; base = c.scale.base; shift = c.scale.shift } };

    ghost invariant = { λ c. (c.scale.shift < 64) × IsAhead c.codes.items c.ahead };
}

impl Codes {
    /// Makes a list without codes. Takes no memory.
    pub(crate) fn new(alloc: Global) -> Codes
        ensures { result.codes ≡ [] }
    {
        Codes {
            codes: Vec::new(alloc),
            scale: Scale { base: 0, shift: 0 },
            ahead: Ahead::new(alloc),
        }
    }

    /// The number of spots that have a code.
    pub(crate) fn len(&self) -> usize
        ensures { result ≡ length self.now.codes }
    {
        self.codes.len()
    }

    /// The codes, by spot.
    pub(crate) fn list(&self) -> &[u16]
        ensures { result.now ≡ self.now.codes }
    {
        &self.codes
    }

    /// The code of a key, by the scale of this list.
    pub(crate) fn code(&self, key: StoredKey) -> u16
        ensures { result ≡ key_code self.now.base self.now.shift key }
    {
        self.scale.code(key)
    }

    /// Drops all codes and candidates, and keeps their memory.
    pub(crate) fn clear(&mut self)
        ensures { self.new.codes ≡ [] }
    {
        self.codes.clear();
        self.ahead.forget();
    }

    /// Drops all codes and candidates, and frees their memory.
    pub(crate) fn give_back(&mut self)
        ensures { self.new.codes ≡ [] }
    {
        self.codes.clear();
        self.codes.shrink_to(0);
        self.ahead.give_back();
    }

    /// Notes that the row at the spot was removed: the spot's code, if it has one, becomes `HOLE`. O(1).
    pub(crate) fn leave_hole(&mut self, spot: usize)
        ensures { self.new ≡ record self.old { codes = slice_set self.old.codes spot 65535 } }
    {
        if spot < self.codes.len() {
            self.codes[spot] = HOLE;
        }
    }

    /// Notes that the key remembered at the spot is now `key`: the spot's code, if it has one, becomes the code of
    /// `key`, and all candidates are dropped. O(1).
    pub(crate) fn recode(&mut self, spot: usize, key: StoredKey)
        ensures { self.new ≡ record self.old {
          codes = slice_set self.old.codes spot (key_code self.old.base
              self.old.shift key);
        } }
    {
        if spot < self.codes.len() {
            self.codes[spot] = self.code(key);
            self.ahead.forget();
        }
    }

    /// The next candidate at or after `start`: the first spot whose code is from `first` to `last`, or a spot before
    /// it that had such a code until its row was removed. If there is none, the spot where the search ended: the end
    /// of the codes, or an earlier spot if no memory is found to look ahead. Searches from rising spots take one pass
    /// over the codes in total.
    pub(crate) fn seek(&mut self, first: u16, last: u16, start: usize) -> usize
        requires order { first ≤ last }
        requires low { last < 65535 }
        requires within { start ≤ length self.old.codes }
        ensures same { self.new ≡ self.old }
        ensures next { IsNext self.old.codes first last start result }
    {
        self.ahead.seek(&self.codes, first, last, start)
    }

    /// Reads the cells of the candidates, so that they are in the cache. Contracts see no change.
    pub(crate) fn warm(&mut self, tags: &TagList, arena: &Arena<Row>)
        ensures { self.new ≡ self.old }
    {
        self.ahead.warm(tags, arena);
    }

    /// Makes a code for each spot that has none, if there are more than `MOST_UNCODED` such spots; otherwise does
    /// nothing. Makes none if no memory is found. Amortised O(1) for each spot.
    #[inline]
    pub(crate) fn catch_up_if_many(&mut self, tags: &TagList, stands: &[bool])
        requires beside { length stands.now ≡ length tags.now.remembered }
        requires coded { AreCoded tags.now.remembered stands.now self.old }
        ensures { AreCoded tags.now.remembered stands.now self.new }
    {
        if tags.len() - self.codes.len() <= MOST_UNCODED {
            return;
        }
        self.catch_up(tags, stands);
    }

    /// Makes a code for each spot that has none. O(1) for each of these. Makes none if no memory is found.
    #[inline(never)]
    fn catch_up(&mut self, tags: &TagList, stands: &[bool])
        requires beside { length stands.now ≡ length tags.now.remembered }
        requires coded { AreCoded tags.now.remembered stands.now self.old }
        ensures { AreCoded tags.now.remembered stands.now self.new }
    {
        if self.codes.reserve(tags.len() - self.codes.len()).is_err() {
            return;
        }
        if self.codes.is_empty() {
            self.scale = scale_of(tags);
        }
        append_codes(&mut self.codes, self.scale, tags, stands);
    }
}

/// Appends a code, by this scale, for each spot that has none: that of the key in `tags`, or `HOLE` if there is no
/// row. There must be room.
fn append_codes(codes: &mut Vec<u16>, scale: Scale, tags: &TagList, stands: &[bool])
    requires beside { length stands.now ≡ length tags.now.remembered }
    requires room { length tags.now.remembered ≤ vec_capacity codes.old }
    requires small { scale.shift < 64 }
    requires coded { AreCoded tags.now.remembered stands.now (record {
      codes = codes.old.items;
      base = scale.base;
      shift = scale.shift;
    }) }
    ensures coded { AreCoded tags.now.remembered stands.now (record {
      codes = codes.new.items;
      base = scale.base;
      shift = scale.shift;
    }) }
    ensures kept { take (length codes.old.items) codes.new.items ≡ codes.old.items }
{
    'spots: for spot in codes.len()..tags.len() {
        let code = if stands[spot] {
            scale.code(tags.key(spot))
        } else {
            HOLE
        };
        codes.push_reserved(code);
    }
}

/// The scale for the keys in `tags`: subtracts the least key, and drops as many low bits as the difference between the
/// greatest known key and the least has beyond 16. O(spots).
fn scale_of(tags: &TagList) -> Scale
    ensures { result.shift < 64 }
{
    let (least, greatest) = least_and_greatest(tags);
    let bits = 64 - greatest.saturating_sub(least).leading_zeros();
    Scale {
        base: least,
        shift: bits.saturating_sub(CODE_BITS),
    }
}

/// The least key in `tags`, and the greatest known one: `UNKNOWN_KEY` and 0 if none is known. Also reads the keys that
/// are kept at holes. O(spots).
fn least_and_greatest(tags: &TagList) -> (StoredKey, StoredKey) {
    let mut least = UNKNOWN_KEY;
    let mut greatest = 0;
    'keys: for i in 0..tags.len() {
        let key = tags.key(i);
        least = least.min(key);
        greatest = greatest.max(if key == UNKNOWN_KEY { 0 } else { key });
    }
    (least, greatest)
}
