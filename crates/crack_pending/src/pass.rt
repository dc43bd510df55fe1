//! Passes over the keys of pending rows. A spot is an index into a list's vectors; `stands` says which spots have
//! a row. The others are holes. `tags` has the handles and keys of the rows, by spot. A key that isn't remembered is
//! unknown, and is read from the arena. The block at `from` is the 16 spots from there on.
ghost use Rattle.std.specs.Prelude.{◌≡◌, ◌≢◌, ◌+◌, ◌^◌, ◌<◌, ◌≤◌, ℕ, length, slice_index_or, MatchOption, IsTrue};
ghost use Rattle.std.specs.Prelude.{IsFalse};
ghost use Rattle.std.specs.Bool.{OnFalse};
ghost use Rattle.crack_arena.specs.Rows.{unknown};
ghost use Rattle.crack_arena.specs.Memories.{nothing};
ghost use Rattle.crack_pending.specs.Codes.{AreCoded};
ghost use Rattle.crack_pending.specs.Inside.{Lies, KeysAreKnown, IsMissed, IsHit, KnowRows};

use crate::code_pass::{Window, hit_in_codes, is_hit};
use crate::codes::{Codes, StoredKey};
use crack_arena::{Arena, UNKNOWN_KEY};
use crack_row::{KeyRange, Row};
use crack_tags::TagList;

/// How many keys are read at once, without a branch for each.
const BLOCK: usize = 16;

/// What a pass looks for: a key from `low` to `last`; and whether some keys are unknown, so that the arena must be
/// asked.
#[derive(Clone, Copy)]
pub(crate) struct Wanted {
    pub(crate) low: StoredKey,
    pub(crate) last: StoredKey,
    pub(crate) some_unknown: bool,
}

/// Whether one of the keys remembered in the block at `from` is from `low` to `last`. Compares each key once, without
/// a branch.
fn any_lies(tags: &TagList, from: usize, low: StoredKey, last: StoredKey) -> bool
    requires block { from + 16 ≤ length tags.now.handles }
    requires few { length tags.now.handles ≤ 2 ^ 32 }
    requires order { low ≤ last }
    ensures { OnFalse result ((k : ℕ) → k < 16 → ¬ Lies low last (slice_index_or tags.now.remembered (from + k)
        nothing).key) }
{
    let width = last - low;
    let mut any = 0u32;
    'keys: for i in 0..BLOCK {
        any |= (tags.key(from + i).wrapping_sub(low) <= width) as u32;
    }
    any != 0
}

/// Whether a key of the block at `from` is unknown.
fn any_unknown(tags: &TagList, from: usize) -> bool
    requires block { from + 16 ≤ length tags.now.handles }
    requires few { length tags.now.handles ≤ 2 ^ 32 }
    ensures { OnFalse result ((k : ℕ) → k < 16 → (slice_index_or tags.now.remembered (from + k)
        nothing).key ≢ unknown) }
{
    let mut any = 0u32;
    'keys: for i in 0..BLOCK {
        any |= (tags.key(from + i) == UNKNOWN_KEY) as u32;
    }
    any != 0
}

/// Whether a row of the block at `from` may have a key that is wanted. Judges by the remembered keys alone.
fn may_hit(tags: &TagList, from: usize, wanted: Wanted) -> bool
    requires block { from + 16 ≤ length tags.now.handles }
    requires few { length tags.now.handles ≤ 2 ^ 32 }
    requires order { wanted.low ≤ wanted.last }
    ensures lies { OnFalse result ((k : ℕ) → k < 16 →
        ¬ Lies wanted.low wanted.last (slice_index_or tags.now.remembered (from + k) nothing).key) }
    ensures none_unknown { OnFalse result (IsTrue wanted.some_unknown → (k : ℕ) → k < 16 →
        (slice_index_or tags.now.remembered (from + k) nothing).key ≢ unknown) }
{
    if any_lies(tags, from, wanted.low, wanted.last) {
        return true;
    }
    wanted.some_unknown && any_unknown(tags, from)
}

/// The first spot in `from..to` whose row has its key in the range, if there is one. Looks at each spot.
fn hit_between(
    tags: &TagList,
    stands: &[bool],
    from: usize,
    to: usize,
    range: KeyRange,
    arena: &Arena<Row>,
) -> Option<usize>
    requires remembered_beside { length tags.now.remembered ≡ length tags.now.handles }
    requires stands { length stands.now ≡ length tags.now.handles }
    requires within { to ≤ length tags.now.handles }
    requires known { KnowRows arena.now.cells tags.now.handles tags.now.remembered stands.now }
    ensures { MatchOption result
        (IsMissed range arena.now.cells tags.now.handles stands.now from to)
        (λ spot. IsHit range arena.now.cells tags.now.handles stands.now from to spot) }
{
    'spots: for spot in from..to {
        if stands[spot] && range.contains(tags.memory(spot).key_of(tags.handle(spot), arena)) {
            return Some(spot);
        }
    }
    None
}

/// The first spot of the block at `from` whose row has its key in the range, if there is one. `wanted` has the range's
/// first and last key. Looks at each spot only if the remembered keys don't rule out the whole block.
fn hit_in_block(
    tags: &TagList,
    stands: &[bool],
    from: usize,
    range: KeyRange,
    wanted: Wanted,
    arena: &Arena<Row>,
) -> Option<usize>
    requires remembered_beside { length tags.now.remembered ≡ length tags.now.handles }
    requires stands { length stands.now ≡ length tags.now.handles }
    requires within { from + 16 ≤ length tags.now.handles }
    requires few { length tags.now.handles ≤ 2 ^ 32 }
    requires known { KnowRows arena.now.cells tags.now.handles tags.now.remembered stands.now }
    requires all_known { IsFalse wanted.some_unknown → KeysAreKnown tags.now.remembered stands.now }
    requires low { range.low ≡ wanted.low }
    requires last { range.high ≡ wanted.last + 1 }
    requires order { wanted.low ≤ wanted.last }
    ensures { MatchOption result
        (IsMissed range arena.now.cells tags.now.handles stands.now from (from + 16))
        (λ spot. IsHit range arena.now.cells tags.now.handles stands.now from (from + 16) spot) }
{
    if !may_hit(tags, from, wanted) {
        return None;
    }
    hit_between(tags, stands, from, from + BLOCK, range, arena)
}

/// The first spot at or after `from` whose row has its key in the range, or `None` if there is none. The range isn't
/// empty, and `wanted` has its first and last key. Compares the remembered keys block by block, and looks at single
/// spots only in a block that may have such a row, and in the last one if it isn't whole. O(spots passed).
fn hit_in_blocks(
    tags: &TagList,
    stands: &[bool],
    from: usize,
    range: KeyRange,
    wanted: Wanted,
    arena: &Arena<Row>,
) -> Option<usize>
    requires remembered_beside { length tags.now.remembered ≡ length tags.now.handles }
    requires stands { length stands.now ≡ length tags.now.handles }
    requires within { from ≤ length tags.now.handles }
    requires few { length tags.now.handles ≤ 2 ^ 32 }
    requires known { KnowRows arena.now.cells tags.now.handles tags.now.remembered stands.now }
    requires all_known { IsFalse wanted.some_unknown → KeysAreKnown tags.now.remembered stands.now }
    requires low { range.low ≡ wanted.low }
    requires last { range.high ≡ wanted.last + 1 }
    requires order { wanted.low ≤ wanted.last }
    ensures { MatchOption result
        (IsMissed range arena.now.cells tags.now.handles stands.now from (length tags.now.handles))
        (λ spot. IsHit range arena.now.cells tags.now.handles stands.now from (length tags.now.handles) spot) }
{
    let mut spot = from;
    'far: while BLOCK <= tags.len() - spot {
        if let Some(hit) = hit_in_block(tags, stands, spot, range, wanted, arena) {
            return Some(hit);
        }
        spot += BLOCK;
    }
    hit_between(tags, stands, spot, tags.len(), range, arena)
}

/// The first spot at or after `from` whose row has its key in the range, or `None` if there is none. Reads codes at
/// the spots that have one, and keys at the others. If `some_unknown` is false, all keys must be known, and none is
/// tested for being unknown. O(spots passed).
pub(crate) fn first_hit(
    tags: &TagList,
    stands: &[bool],
    codes: &Codes,
    from: usize,
    range: KeyRange,
    arena: &Arena<Row>,
    some_unknown: bool,
) -> Option<usize>
    requires remembered_beside { length tags.now.remembered ≡ length tags.now.handles }
    requires stands { length stands.now ≡ length tags.now.handles }
    requires within { from ≤ length tags.now.handles }
    requires few { length tags.now.handles ≤ 2 ^ 32 }
    requires coded { AreCoded tags.now.remembered stands.now codes.now }
    requires known { KnowRows arena.now.cells tags.now.handles tags.now.remembered stands.now }
    requires all_known { IsFalse some_unknown → KeysAreKnown tags.now.remembered stands.now }
    ensures { MatchOption result
        (IsMissed range arena.now.cells tags.now.handles stands.now from (length tags.now.handles))
        (λ spot. IsHit range arena.now.cells tags.now.handles stands.now from (length tags.now.handles) spot) }
{
    let Some((first, last)) = range.first_and_last() else {
        return None;
    };
    let wanted = Wanted {
        low: first.number(),
        last: last.number(),
        some_unknown,
    };
    let coded = codes.len();
    if coded <= from {
        return hit_in_blocks(tags, stands, from, range, wanted, arena);
    }
    let window = Window::of(wanted, codes, range);
    match hit_in_codes(tags, stands, codes, from, range, window, arena) {
        Some(hit) => Some(hit),
        None => hit_in_blocks(tags, stands, coded, range, wanted, arena),
    }
}

/// The first spot at or after `from` whose row has its key in the range, or `None` if there is none. If `some_unknown`
/// is true, does what `first_hit` does. If it is false, all keys must be known, and this looks ahead in the codes, so
/// that searches from rising spots take one pass in total.
pub(crate) fn next_hit(
    tags: &TagList,
    stands: &[bool],
    codes: &mut Codes,
    from: usize,
    range: KeyRange,
    arena: &Arena<Row>,
    some_unknown: bool,
) -> Option<usize>
    requires remembered_beside { length tags.now.remembered ≡ length tags.now.handles }
    requires stands { length stands.now ≡ length tags.now.handles }
    requires within { from ≤ length tags.now.handles }
    requires few { length tags.now.handles ≤ 2 ^ 32 }
    requires coded { AreCoded tags.now.remembered stands.now codes.old }
    requires known { KnowRows arena.now.cells tags.now.handles tags.now.remembered stands.now }
    requires all_known { IsFalse some_unknown → KeysAreKnown tags.now.remembered stands.now }
    ensures hit { MatchOption result
        (IsMissed range arena.now.cells tags.now.handles stands.now from (length tags.now.handles))
        (λ spot. IsHit range arena.now.cells tags.now.handles stands.now from (length tags.now.handles) spot) }
    ensures same { codes.new ≡ codes.old }
{
    let Some((first, last)) = range.first_and_last() else {
        return None;
    };
    if some_unknown || codes.len() <= from {
        return first_hit(tags, stands, codes, from, range, arena, some_unknown);
    }
    let wanted = Wanted {
        low: first.number(),
        last: last.number(),
        some_unknown,
    };
    let window = Window::of(wanted, codes, range);
    let near = codes.seek(window.first, window.last, from);
    if near < codes.len() && is_hit(tags, stands, codes, near, range, window, arena) {
        return Some(near);
    }
    first_hit(tags, stands, codes, near, range, arena, some_unknown)
}
