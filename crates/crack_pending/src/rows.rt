//! Counts of rows at spots. A spot is an index into the lists, where there is a row or, after its removal, a hole;
//! `stands` says which spots have a row. The place of a row is the number of rows before it.
ghost use Rattle.std.specs.Prelude.{◌≡◌, ◌+◌, ◌<◌, ◌≤◌, ◌∷◌, [], length, false, slice_set, slice_index_or};
ghost use Rattle.crack_arena.specs.Arena.{times};
ghost use Rattle.crack_arena.specs.Rows.{unknown};
ghost use Rattle.crack_arena.specs.Memories.{nothing};
ghost use Rattle.crack_pending.specs.Keeps.{place_at, HasRow};

use crack_arena::UNKNOWN_KEY;
use crack_tags::TagList;

/// The number of spots counted at a time, in 8 bits.
const BLOCK: usize = 64;

/// The number of rows at the spots of `stands`, which are fewer than 256.
fn rows_in_block(stands: &[bool]) -> u8
    requires { length stands.now < 256 }
    ensures { result ≡ place_at stands.now (length stands.now) }
{
    let mut rows = 0u8;
    'spots: for spot in 0..stands.len() {
        rows += stands[spot] as u8;
    }
    rows
}

/// The number of rows at the spots `from..to`.
pub(crate) fn rows_between(stands: &[bool], from: usize, to: usize) -> usize
    requires order { from ≤ to }
    requires within { to ≤ length stands.now }
    ensures { place_at stands.now to ≡ place_at stands.now from + result }
{
    let mut rows = 0;
    let mut spot = from;
    'far: while BLOCK < to - spot {
        rows += rows_in_block(&stands[spot..spot + BLOCK]) as usize;
        spot += BLOCK;
    }
    rows + rows_in_block(&stands[spot..to]) as usize
}

/// A spot fewer than 64 spots before the row at the place, and the number of rows before that spot. The search starts
/// at the spot `from`, which has `before` rows before it.
fn skip_blocks(stands: &[bool], before: usize, from: usize, place: usize) -> (usize, usize)
    requires before { before ≡ place_at stands.now from }
    requires order { before ≤ place }
    requires within { place < place_at stands.now (length stands.now) }
    ensures before { result.1 ≡ place_at stands.now result.0 }
    ensures order { result.1 ≤ place }
{
    let mut rows = before;
    let mut spot = from;
    'far: while spot < stands.len() && BLOCK < stands.len() - spot {
        let more = rows_in_block(&stands[spot..spot + BLOCK]) as usize;
        if place - rows < more {
            return (spot, rows);
        }
        rows += more;
        spot += BLOCK;
    }
    (spot, rows)
}

/// The spot of the row at the place. The search starts at the spot `from`, which has `before` rows before it.
fn spot_from(stands: &[bool], before: usize, from: usize, place: usize) -> usize
    requires before { before ≡ place_at stands.now from }
    requires order { before ≤ place }
    requires within { place < place_at stands.now (length stands.now) }
    ensures stands { HasRow stands.now result }
    ensures place { place_at stands.now result ≡ place }
{
    let (near, rows_before) = skip_blocks(stands, before, from, place);
    let mut spot = near;
    let mut rows = rows_before;
    'spots: loop {
        let here = stands[spot];
        if here && rows == place {
            return spot;
        }
        rows += here as usize;
        spot += 1;
    }
}

/// The spot of the row at the place. There are `rows` rows. O(1) if there are no holes; otherwise rows are counted
/// from the spot `from`, which has `before` rows before it, or from the first spot if the place is before `from`.
pub(crate) fn spot_of(
    stands: &[bool],
    rows: usize,
    before: usize,
    from: usize,
    place: usize,
) -> usize
    requires rows { rows ≡ place_at stands.now (length stands.now) }
    requires before { before ≡ place_at stands.now from }
    requires within { place < rows }
    ensures stands { HasRow stands.now result }
    ensures place { place_at stands.now result ≡ place }
{
    if rows == stands.len() {
        place
    } else if before == place && from < stands.len() && stands[from] {
        from
    } else if before <= place {
        spot_from(stands, before, from, place)
    } else {
        spot_from(stands, 0, 0, place)
    }
}

/// A spot with `place` rows before it, in a list of `rows` rows. The spot `from` has `before` rows before it. O(1) if
/// `from` or the spot after it has `place` rows before it: the result is then that spot. Otherwise it is the spot of
/// the row at the place, as `spot_of` finds it.
pub(crate) fn spot_before(
    stands: &[bool],
    rows: usize,
    before: usize,
    from: usize,
    place: usize,
) -> usize
    requires rows { rows ≡ place_at stands.now (length stands.now) }
    requires before { before ≡ place_at stands.now from }
    requires near { from ≤ length stands.now }
    requires within { place < rows }
    ensures place { place_at stands.now result ≡ place }
    ensures within { result ≤ length stands.now }
{
    if from < stands.len() && before + stands[from] as usize == place {
        return from + 1;
    }
    if before != place {
        return spot_of(stands, rows, before, from, place);
    }
    from
}

/// The place of the row at the spot, in a list of `rows` rows. O(1) if there are no holes, otherwise
/// O(spots before it).
pub(crate) fn place_of_spot(stands: &[bool], rows: usize, spot: usize) -> usize
    requires rows { rows ≡ place_at stands.now (length stands.now) }
    requires within { spot ≤ length stands.now }
    ensures { result ≡ place_at stands.now spot }
{
    if rows == stands.len() {
        spot
    } else {
        rows_between(stands, 0, spot)
    }
}

/// The number of rows before the spot `hint_spot` once the row at `spot` is removed. With that row, it is
/// `hint_place`.
pub(crate) fn hint_without(
    stands: &[bool],
    hint_place: usize,
    hint_spot: usize,
    spot: usize,
) -> usize
    requires hinted { hint_place ≡ place_at stands.now hint_spot }
    requires stands { HasRow stands.now spot }
    ensures { result ≡ place_at (slice_set stands.now spot false) hint_spot }
{
    if spot < hint_spot {
        hint_place - 1
    } else {
        hint_place
    }
}

/// The number of rows with unknown keys once the row at the spot is removed. With that row, it is `unknowns`. If
/// `unknowns` is 0, no key is read.
pub(crate) fn unknowns_without(tags: &TagList, unknowns: usize, spot: usize) -> usize
    requires within { spot < length tags.now.handles }
    requires counted { (slice_index_or tags.now.remembered spot nothing).key ≡ unknown → 0 < unknowns }
    ensures { result + times unknown ((slice_index_or tags.now.remembered spot nothing).key ∷ []) ≡ unknowns }
{
    if unknowns == 0 {
        return 0;
    }
    if tags.key(spot) == UNKNOWN_KEY {
        unknowns - 1
    } else {
        unknowns
    }
}
