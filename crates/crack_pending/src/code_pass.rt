//! Passes over the codes of pending rows. A spot is an index into a list's vectors; `stands` says which spots have
//! a row. The others are holes. `tags` has the handles and keys of the rows, by spot. A key that isn't remembered is
//! unknown, and is read from the arena. A function with a range and a window takes the window of that range.
ghost use Rattle.std.specs.Prelude.{◌≡◌, ◌+◌, ◌-◌, ◌<◌, ◌≤◌, ◌↔◌, ℕ, length, slice_index, slice_index_or, MatchOption};
ghost use Rattle.std.specs.Prelude.{IsTrue, IsFalse};
ghost use Rattle.std.specs.Bool.{OnFalse};
ghost use Rattle.crack_row.specs.Ranges.{IsIn};
ghost use Rattle.crack_arena.specs.Arena.{no_handle};
ghost use Rattle.crack_arena.specs.Rows.{key_at};
ghost use Rattle.crack_pending.specs.Keeps.{HasRow};
ghost use Rattle.crack_pending.specs.Codes.{AreCoded, IsWindow};
ghost use Rattle.crack_pending.specs.Inside.{Lies, KeysAreKnown, IsMissed, IsHit, KnowRows};

use crate::codes::Codes;
use crate::pass::Wanted;
use crack_arena::{Arena, UNKNOWN_KEY};
use crack_row::{KeyRange, Row};
use crack_tags::TagList;

/// How many codes are read at once, without a branch for each.
const BLOCK: usize = 32;

/// The number of codes that are read at a time while a pass finds no match.
const MANY: usize = 128;

/// The codes of a range's first and last key, and of an unknown key; and whether some keys are unknown.
#[derive(Clone, Copy)]
pub(crate) struct Window {
    pub(crate) first: u16,
    pub(crate) last: u16,
    beyond: u16,
    some_unknown: bool,
}

impl Window {
    /// Makes the window of the range, by the scale of these codes. `wanted` has the first and last key of the range,
    /// and whether some keys are unknown.
    pub(crate) fn of(wanted: Wanted, codes: &Codes, range: KeyRange) -> Window
        requires low { range.low ≡ wanted.low }
        requires last { range.high ≡ wanted.last + 1 }
        requires order { wanted.low ≤ wanted.last }
        ensures window { IsWindow codes.now.base codes.now.shift range result.first result.last result.beyond }
        ensures unknown { result.some_unknown ≡ wanted.some_unknown }
    {
        Window {
            first: codes.code(wanted.low),
            last: codes.code(wanted.last),
            beyond: codes.code(UNKNOWN_KEY),
            some_unknown: wanted.some_unknown,
        }
    }

    /// Whether a row with this code may have its key in the range: the code is from `first` to `last`, or it is that
    /// of unknown keys and some keys are unknown. A hole's code gives false.
    fn may_hold(self, code: u16) -> bool
        requires order { self.first ≤ self.last }
        requires last { self.last < 65535 }
        requires beyond { self.beyond < 65535 }
        ensures lies { IsFalse result → ¬ Lies self.first self.last code }
        ensures none_unknown { IsFalse result → IsTrue self.some_unknown → ¬ Lies self.beyond self.beyond code }
        ensures coded { IsTrue result → code < 65535 }
    {
        code.wrapping_sub(self.first) <= self.last - self.first
            || (self.some_unknown && code == self.beyond)
    }

    /// Whether the code alone proves that its row's key is in the window's range: it is strictly between `first` and
    /// `last`.
    fn is_inside(self, code: u16) -> bool
        ensures { IsTrue result ↔ ((self.first < code) × (code < self.last)) }
    {
        self.first < code && code < self.last
    }
}

/// Whether one of these 32 codes is from `low` to `last`. Compares each code once, without a branch.
#[inline(always)]
pub(crate) fn any_lies(codes: &[u16], low: u16, last: u16) -> bool
    requires block { length codes.now ≡ 32 }
    requires order { low ≤ last }
    ensures { OnFalse result ((k : ℕ) → k < 32 → ¬ Lies low last (slice_index codes.now k)) }
{
    let width = last - low;
    let mut any = 0u16;
    'codes: for i in 0..BLOCK {
        any |= (codes[i].wrapping_sub(low) <= width) as u16;
    }
    any != 0
}

/// Does what `any_lies` does, for 128 codes.
#[inline(always)]
fn any_of_many_lies(codes: &[u16], low: u16, last: u16) -> bool
    requires block { length codes.now ≡ 128 }
    requires order { low ≤ last }
    ensures { OnFalse result ((k : ℕ) → k < 128 → ¬ Lies low last (slice_index codes.now k)) }
{
    let width = last - low;
    let mut any = 0u16;
    'codes: for i in 0..MANY {
        any |= (codes[i].wrapping_sub(low) <= width) as u16;
    }
    any != 0
}

/// Whether one of the rows with these 32 codes may have its key in the window's range. Judges by the codes alone.
fn may_hit(codes: &[u16], window: Window) -> bool
    requires block { length codes.now ≡ 32 }
    requires order { window.first ≤ window.last }
    ensures lies { OnFalse result ((k : ℕ) → k < 32 → ¬ Lies window.first window.last (slice_index codes.now k)) }
    ensures none_unknown { OnFalse result (IsTrue window.some_unknown → (k : ℕ) → k < 32 →
        ¬ Lies window.beyond window.beyond (slice_index codes.now k)) }
{
    if any_lies(codes, window.first, window.last) {
        return true;
    }
    window.some_unknown && any_lies(codes, window.beyond, window.beyond)
}

/// Does what `may_hit` does, for 128 codes.
#[inline(always)]
fn many_may_hit(codes: &[u16], window: Window) -> bool
    requires block { length codes.now ≡ 128 }
    requires order { window.first ≤ window.last }
    ensures lies { OnFalse result ((k : ℕ) → k < 128 → ¬ Lies window.first window.last (slice_index codes.now k)) }
    ensures none_unknown { OnFalse result (IsTrue window.some_unknown → (k : ℕ) → k < 128 →
        ¬ Lies window.beyond window.beyond (slice_index codes.now k)) }
{
    if any_of_many_lies(codes, window.first, window.last) {
        return true;
    }
    window.some_unknown && any_of_many_lies(codes, window.beyond, window.beyond)
}

/// Whether the spot, which must have a code, has a row whose key is in the range. Reads the key only if the code is
/// that of an end of the range, or that of unknown keys. O(1).
#[inline(always)]
pub(crate) fn is_hit(
    tags: &TagList,
    stands: &[bool],
    codes: &Codes,
    spot: usize,
    range: KeyRange,
    window: Window,
    arena: &Arena<Row>,
) -> bool
    requires remembered_beside { length tags.now.remembered ≡ length tags.now.handles }
    requires stands { length stands.now ≡ length tags.now.handles }
    requires within { spot < length codes.now.codes }
    requires coded { AreCoded tags.now.remembered stands.now codes.now }
    requires window { IsWindow codes.now.base codes.now.shift range window.first window.last window.beyond }
    requires known { KnowRows arena.now.cells tags.now.handles tags.now.remembered stands.now }
    requires all_known { IsFalse window.some_unknown → KeysAreKnown tags.now.remembered stands.now }
    ensures stands { IsTrue result → HasRow stands.now spot }
    ensures holds { IsTrue result → IsIn range (key_at arena.now.cells (slice_index_or tags.now.handles spot
        no_handle)) }
    ensures missed { IsFalse result → HasRow stands.now spot → ¬ IsIn range (key_at arena.now.cells
        (slice_index_or tags.now.handles spot no_handle)) }
{
    let code = codes.list()[spot];
    if !window.may_hold(code) {
        return false;
    }
    if window.is_inside(code) {
        return true;
    }
    range.contains(tags.memory(spot).key_of(tags.handle(spot), arena))
}

/// The first spot in `from..to` whose row has its key in the range, if there is one. All these spots must have codes.
/// Looks at the code of each spot.
fn hit_between(
    tags: &TagList,
    stands: &[bool],
    codes: &Codes,
    from: usize,
    to: usize,
    range: KeyRange,
    window: Window,
    arena: &Arena<Row>,
) -> Option<usize>
    requires remembered_beside { length tags.now.remembered ≡ length tags.now.handles }
    requires stands { length stands.now ≡ length tags.now.handles }
    requires within { to ≤ length codes.now.codes }
    requires coded { AreCoded tags.now.remembered stands.now codes.now }
    requires window { IsWindow codes.now.base codes.now.shift range window.first window.last window.beyond }
    requires known { KnowRows arena.now.cells tags.now.handles tags.now.remembered stands.now }
    requires all_known { IsFalse window.some_unknown → KeysAreKnown tags.now.remembered stands.now }
    ensures { MatchOption result
        (IsMissed range arena.now.cells tags.now.handles stands.now from to)
        (λ spot. IsHit range arena.now.cells tags.now.handles stands.now from to spot) }
{
    'spots: for spot in from..to {
        if is_hit(tags, stands, codes, spot, range, window, arena) {
            return Some(spot);
        }
    }
    None
}

/// The first of the 32 spots from `from` on whose row has its key in the range, if there is one. All these spots must
/// have codes. Looks at single spots only if the codes don't rule out all of them.
fn hit_in_block(
    tags: &TagList,
    stands: &[bool],
    codes: &Codes,
    from: usize,
    range: KeyRange,
    window: Window,
    arena: &Arena<Row>,
) -> Option<usize>
    requires remembered_beside { length tags.now.remembered ≡ length tags.now.handles }
    requires stands { length stands.now ≡ length tags.now.handles }
    requires within { from + 32 ≤ length codes.now.codes }
    requires coded { AreCoded tags.now.remembered stands.now codes.now }
    requires window { IsWindow codes.now.base codes.now.shift range window.first window.last window.beyond }
    requires known { KnowRows arena.now.cells tags.now.handles tags.now.remembered stands.now }
    requires all_known { IsFalse window.some_unknown → KeysAreKnown tags.now.remembered stands.now }
    ensures { MatchOption result
        (IsMissed range arena.now.cells tags.now.handles stands.now from (from + 32))
        (λ spot. IsHit range arena.now.cells tags.now.handles stands.now from (from + 32) spot) }
{
    if !may_hit(&codes.list()[from..from + BLOCK], window) {
        return None;
    }
    hit_between(
        tags,
        stands,
        codes,
        from,
        from + BLOCK,
        range,
        window,
        arena,
    )
}

/// The first spot in `from..to` whose row has its key in the range, if there is one. All these spots must have codes.
/// Looks at 32 codes at a time. Looks at single spots only where the 32 codes don't rule them out, and at the end,
/// where fewer than 32 are left.
fn hit_in_blocks(
    tags: &TagList,
    stands: &[bool],
    codes: &Codes,
    from: usize,
    to: usize,
    range: KeyRange,
    window: Window,
    arena: &Arena<Row>,
) -> Option<usize>
    requires remembered_beside { length tags.now.remembered ≡ length tags.now.handles }
    requires stands { length stands.now ≡ length tags.now.handles }
    requires order { from ≤ to }
    requires within { to ≤ length codes.now.codes }
    requires coded { AreCoded tags.now.remembered stands.now codes.now }
    requires window { IsWindow codes.now.base codes.now.shift range window.first window.last window.beyond }
    requires known { KnowRows arena.now.cells tags.now.handles tags.now.remembered stands.now }
    requires all_known { IsFalse window.some_unknown → KeysAreKnown tags.now.remembered stands.now }
    ensures { MatchOption result
        (IsMissed range arena.now.cells tags.now.handles stands.now from to)
        (λ spot. IsHit range arena.now.cells tags.now.handles stands.now from to spot) }
{
    let mut spot = from;
    'far: while BLOCK <= to - spot {
        if let Some(hit) = hit_in_block(tags, stands, codes, spot, range, window, arena) {
            return Some(hit);
        }
        spot += BLOCK;
    }
    hit_between(tags, stands, codes, spot, to, range, window, arena)
}

/// The first spot at or after `from` that has a code and whose row has its key in the range, if there is one. The
/// range isn't empty. Looks at 128 codes at a time, and at smaller blocks only where these don't rule out all rows.
/// O(spots passed).
pub(crate) fn hit_in_codes(
    tags: &TagList,
    stands: &[bool],
    codes: &Codes,
    from: usize,
    range: KeyRange,
    window: Window,
    arena: &Arena<Row>,
) -> Option<usize>
    requires remembered_beside { length tags.now.remembered ≡ length tags.now.handles }
    requires stands { length stands.now ≡ length tags.now.handles }
    requires within { from ≤ length codes.now.codes }
    requires coded { AreCoded tags.now.remembered stands.now codes.now }
    requires window { IsWindow codes.now.base codes.now.shift range window.first window.last window.beyond }
    requires known { KnowRows arena.now.cells tags.now.handles tags.now.remembered stands.now }
    requires all_known { IsFalse window.some_unknown → KeysAreKnown tags.now.remembered stands.now }
    ensures { MatchOption result
        (IsMissed range arena.now.cells tags.now.handles stands.now from (length codes.now.codes))
        (λ spot. IsHit range arena.now.cells tags.now.handles stands.now from (length codes.now.codes) spot) }
{
    let mut spot = from;
    'far: while MANY <= codes.len() - spot {
        if !many_may_hit(&codes.list()[spot..spot + MANY], window) {
            spot += MANY;
            continue;
        }
        if let Some(hit) = hit_in_blocks(
            tags,
            stands,
            codes,
            spot,
            spot + MANY,
            range,
            window,
            arena,
        ) {
            return Some(hit);
        }
        spot += MANY;
    }
    hit_in_blocks(tags, stands, codes, spot, codes.len(), range, window, arena)
}
