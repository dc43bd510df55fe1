//! Removal of all rows in a range. `tags`, `stands` and `codes` are a list's: the handles of the rows with what is
//! remembered of them, which spots have a row, and the codes of the first spots.
ghost use Rattle.std.specs.Prelude.{◌≡◌, ◌+◌, ◌≤◌, ◌^◌, ◌++◌, ℕ, length, vec_len, vec_capacity};
ghost use Rattle.crack_arena.specs.Arena.{times};
ghost use Rattle.crack_arena.specs.Rows.{unknown};
ghost use Rattle.crack_arena.specs.Memories.{Memory, Remembers};
ghost use Rattle.crack_pending.specs.Ahead.{AreCandidates};
ghost use Rattle.crack_pending.specs.Codes.{AreCoded, IsWindow};
ghost use Rattle.crack_pending.specs.Inside.{IsMissed};
ghost use Rattle.crack_pending.specs.Keeps.{place_at, HasRow, keys_of};
ghost use Rattle.crack_pending.specs.Passed.{IsPassed};
ghost use Rattle.crack_pending.specs.Pending.{rows_inside, rows_outside};
ghost use Rattle.crack_pending.specs.Spots.{kept};

use crate::ahead::{MOST_AHEAD, gather};
use crate::code_pass::{Window, is_hit};
use crate::codes::Codes;
use crate::pass::{Wanted, next_hit};
use crate::rows::unknowns_without;
use crack_arena::{Arena, Handle, Remembered};
use crack_row::{KeyRange, Row};
use crack_tags::TagList;

/// The counts of a list after the rows in a range were taken.
#[derive(Clone, Copy)]
pub(crate) struct Left {
    /// The number of rows taken.
    pub(crate) taken: usize,
    /// The number of remaining rows whose keys are unknown.
    pub(crate) unknowns: usize,
}

/// Removes each row whose key is in the range: leaves a hole at its spot. Appends the handles of these rows to
/// `taken`, and what is remembered of them to `known`, in order; both must have room. `unknowns` is the number of all
/// rows whose keys are unknown. Returns how many rows were taken, and how many of the remaining rows have unknown
/// keys. One pass: no row's place is looked up.
pub(crate) fn take_hits(
    tags: &TagList,
    stands: &mut Vec<bool>,
    codes: &mut Codes,
    unknowns: usize,
    range: KeyRange,
    arena: &Arena<Row>,
    taken: &mut Vec<Handle<Row>>,
    known: &mut Vec<Remembered>,
) -> Left
    requires remembered_beside { length tags.now.remembered ≡ length tags.now.handles }
    requires stands { vec_len stands.old ≡ length tags.now.handles }
    requires few { length tags.now.handles ≤ 2 ^ 32 }
    requires coded { AreCoded tags.now.remembered stands.old.items codes.old }
    requires known { Remembers arena.now.cells (kept stands.old.items tags.now.handles)
        (kept stands.old.items tags.now.remembered) }
    requires unknowns { unknowns ≡ times unknown (keys_of (kept stands.old.items tags.now.remembered)) }
    requires room { vec_len taken.old + length (rows_inside arena.now.cells range
        (kept stands.old.items tags.now.handles)) ≤ vec_capacity taken.old }
    requires remembered { Remembers arena.now.cells taken.old.items known.old.items }
    requires known_room { vec_len known.old + length (rows_inside arena.now.cells range
        (kept stands.old.items tags.now.handles)) ≤ vec_capacity known.old }
    ensures taken { taken.new.items ≡ taken.old.items ++ rows_inside arena.now.cells range
        (kept stands.old.items tags.now.handles) }
    ensures left { kept stands.new.items tags.now.handles ≡ rows_outside arena.now.cells range
        (kept stands.old.items tags.now.handles) }
    ensures known { Remembers arena.now.cells (kept stands.new.items tags.now.handles)
        (kept stands.new.items tags.now.remembered) }
    ensures remembered { Remembers arena.now.cells taken.new.items known.new.items }
    ensures unknowns { result.unknowns ≡ times unknown (keys_of (kept stands.new.items tags.now.remembered)) }
    ensures coded { AreCoded tags.now.remembered stands.new.items codes.new }
    ensures stood { (spot : ℕ) → HasRow stands.new.items spot → HasRow stands.old.items spot }
    ensures long { length stands.new.items ≡ length stands.old.items }
    ensures capacity { vec_capacity stands.new ≡ vec_capacity stands.old }
    ensures counted { place_at stands.new.items (length stands.new.items) + result.taken ≡
        place_at stands.old.items (length stands.old.items) }
{
    let (mut start, count) = take_coded(tags, stands, codes, unknowns, range, arena, taken, known);
    let mut left = Left {
        taken: count,
        unknowns,
    };
    'hits: while let Some(spot) = next_hit(
        tags,
        stands,
        codes,
        start,
        range,
        arena,
        left.unknowns > 0,
    ) {
        stands[spot] = false;
        codes.leave_hole(spot);
        taken.push_reserved(tags.handle(spot));
        known.push_reserved(tags.memory(spot));
        left.unknowns = unknowns_without(tags, left.unknowns, spot);
        left.taken += 1;
        start = spot + 1;
    }
    left
}

/// Takes the rows in a range at the first spots, those that have a code, as `take_hits` does. Returns the spot up to
/// which it did so, and how many rows it took. Finds many candidates before it takes the first row, so that no row
/// waits for the memory of another. Takes none, and returns 0 and 0, if the range is empty, no spot has a code, a key
/// is unknown or no memory is found for candidates.
fn take_coded(
    tags: &TagList,
    stands: &mut Vec<bool>,
    codes: &mut Codes,
    unknowns: usize,
    range: KeyRange,
    arena: &Arena<Row>,
    taken: &mut Vec<Handle<Row>>,
    known: &mut Vec<Remembered>,
) -> (usize, usize)
    requires remembered_beside { length tags.now.remembered ≡ length tags.now.handles }
    requires stands { vec_len stands.old ≡ length tags.now.handles }
    requires few { length tags.now.handles ≤ 2 ^ 32 }
    requires coded { AreCoded tags.now.remembered stands.old.items codes.old }
    requires known { Remembers arena.now.cells (kept stands.old.items tags.now.handles)
        (kept stands.old.items tags.now.remembered) }
    requires unknowns { unknowns ≡ times unknown (keys_of (kept stands.old.items tags.now.remembered)) }
    requires room { vec_len taken.old + length (rows_inside arena.now.cells range
        (kept stands.old.items tags.now.handles)) ≤ vec_capacity taken.old }
    requires remembered { Remembers arena.now.cells taken.old.items known.old.items }
    requires known_room { vec_len known.old + length (rows_inside arena.now.cells range
        (kept stands.old.items tags.now.handles)) ≤ vec_capacity known.old }
    ensures passed { IsPassed arena.now.cells range tags.now.handles tags.now.remembered stands.old.items
        stands.new.items codes.new taken.old.items taken.new.items known.new.items result.0 result.1 unknowns }
    ensures capacity { vec_capacity stands.new ≡ vec_capacity stands.old }
    ensures room { vec_capacity taken.new ≡ vec_capacity taken.old }
    ensures known_room { vec_capacity known.new ≡ vec_capacity known.old }
{
    let Some((first, last)) = range.first_and_last() else {
        return (0, 0);
    };
    if unknowns > 0 || codes.len() == 0 {
        return (0, 0);
    }
    let wanted = Wanted {
        low: first.number(),
        last: last.number(),
        some_unknown: false,
    };
    let window = Window::of(wanted, codes, range);
    let Ok(mut candidates) = Vec::with_capacity(*taken.allocator(), MOST_AHEAD) else {
        return (0, 0);
    };
    take_blocks(
        tags,
        stands,
        codes,
        &mut candidates,
        range,
        window,
        arena,
        taken,
        known,
    )
}

/// Takes the rows in a range at the spots that have a code, one batch of candidates at a time; `candidates` holds a
/// batch. All keys must be known. Returns the spot up to which it did so, and how many rows it took.
fn take_blocks(
    tags: &TagList,
    stands: &mut Vec<bool>,
    codes: &mut Codes,
    candidates: &mut Vec<usize>,
    range: KeyRange,
    window: Window,
    arena: &Arena<Row>,
    taken: &mut Vec<Handle<Row>>,
    known: &mut Vec<Remembered>,
) -> (usize, usize)
    requires remembered_beside { length tags.now.remembered ≡ length tags.now.handles }
    requires stands { vec_len stands.old ≡ length tags.now.handles }
    requires few { length tags.now.handles ≤ 2 ^ 32 }
    requires coded { AreCoded tags.now.remembered stands.old.items codes.old }
    requires known { Remembers arena.now.cells (kept stands.old.items tags.now.handles)
        (kept stands.old.items tags.now.remembered) }
    requires all_known { times unknown (keys_of (kept stands.old.items tags.now.remembered)) ≡ 0 }
    requires list { 1024 ≤ vec_capacity candidates.old }
    requires window { IsWindow codes.old.base codes.old.shift range window.first window.last window.beyond }
    requires room { vec_len taken.old + length (rows_inside arena.now.cells range
        (kept stands.old.items tags.now.handles)) ≤ vec_capacity taken.old }
    requires remembered { Remembers arena.now.cells taken.old.items known.old.items }
    requires known_room { vec_len known.old + length (rows_inside arena.now.cells range
        (kept stands.old.items tags.now.handles)) ≤ vec_capacity known.old }
    ensures passed { IsPassed arena.now.cells range tags.now.handles tags.now.remembered stands.old.items
        stands.new.items codes.new taken.old.items taken.new.items known.new.items result.0 result.1 0 }
    ensures capacity { vec_capacity stands.new ≡ vec_capacity stands.old }
    ensures room { vec_capacity taken.new ≡ vec_capacity taken.old }
    ensures known_room { vec_capacity known.new ≡ vec_capacity known.old }
{
    let mut spot = 0;
    let mut count = 0;
    'batches: while spot < codes.len() {
        candidates.clear();
        let to = gather(candidates, codes.list(), window.first, window.last, spot);
        count += take_candidates(
            tags, stands, codes, candidates, spot, to, range, window, arena, taken, known,
        );
        if to == spot {
            return (spot, count);
        }
        spot = to;
    }
    (spot, count)
}

/// Takes those candidates whose rows are in the range. All rows of the range at the spots `from..to` must be among the
/// candidates. Returns how many rows it took.
fn take_candidates(
    tags: &TagList,
    stands: &mut Vec<bool>,
    codes: &mut Codes,
    candidates: &[usize],
    from: usize,
    to: usize,
    range: KeyRange,
    window: Window,
    arena: &Arena<Row>,
    taken: &mut Vec<Handle<Row>>,
    known: &mut Vec<Remembered>,
) -> usize
    requires remembered_beside { length tags.now.remembered ≡ length tags.now.handles }
    requires stands { vec_len stands.old ≡ length tags.now.handles }
    requires few { length tags.now.handles ≤ 2 ^ 32 }
    requires coded { AreCoded tags.now.remembered stands.old.items codes.old }
    requires known { Remembers arena.now.cells (kept stands.old.items tags.now.handles)
        (kept stands.old.items tags.now.remembered) }
    requires all_known { times unknown (keys_of (kept stands.old.items tags.now.remembered)) ≡ 0 }
    requires window { IsWindow codes.old.base codes.old.shift range window.first window.last window.beyond }
    requires ahead { AreCandidates codes.old.codes window.first window.last from to candidates.now 0 }
    requires missed { IsMissed range arena.now.cells tags.now.handles stands.old.items 0 from }
    requires room { vec_len taken.old + length (rows_inside arena.now.cells range
        (kept stands.old.items tags.now.handles)) ≤ vec_capacity taken.old }
    requires remembered { Remembers arena.now.cells taken.old.items known.old.items }
    requires known_room { vec_len known.old + length (rows_inside arena.now.cells range
        (kept stands.old.items tags.now.handles)) ≤ vec_capacity known.old }
    ensures passed { IsPassed arena.now.cells range tags.now.handles tags.now.remembered stands.old.items
        stands.new.items codes.new taken.old.items taken.new.items known.new.items to result 0 }
    ensures base { codes.new.base ≡ codes.old.base }
    ensures shift { codes.new.shift ≡ codes.old.shift }
    ensures long { length codes.new.codes ≡ length codes.old.codes }
    ensures capacity { vec_capacity stands.new ≡ vec_capacity stands.old }
    ensures room { vec_capacity taken.new ≡ vec_capacity taken.old }
    ensures known_room { vec_capacity known.new ≡ vec_capacity known.old }
{
    let mut count = 0;
    'candidates: for k in 0..candidates.len() {
        let candidate = candidates[k];
        if is_hit(tags, stands, codes, candidate, range, window, arena) {
            stands[candidate] = false;
            codes.leave_hole(candidate);
            taken.push_reserved(tags.handle(candidate));
            known.push_reserved(tags.memory(candidate));
            count += 1;
        }
    }
    count
}
