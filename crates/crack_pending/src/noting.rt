//! The spots of cells' handles, which are noted when a row's spot is first needed, and not at each push. A spot is
//! an index into a list's vectors; `stands` says which spots have a row.
ghost use Rattle.std.specs.Prelude.{◌≡◌, ◌≤◌, ◌^◌, length, vec_len, MatchOption};
ghost use Rattle.crack_pending.specs.Keeps.{LeadBack, StandApart, AreCovered};
ghost use Rattle.crack_pending.specs.Inside.{IsNowhere, IsNotBehind, IsSpotWith, IsUnnoted};

use crack_tags::TagList;

/// Notes in `spots`, by the number of its cell, the spot of each row. The first `noted` spots are noted already. O(1)
/// for each of the others.
fn note_spots(spots: &mut Vec<u32>, tags: &TagList, stands: &[bool], noted: usize)
    requires beside { length stands.now ≡ length tags.now.handles }
    requires few { length tags.now.handles ≤ 2 ^ 32 }
    requires near { noted ≤ length tags.now.handles }
    requires covered { AreCovered tags.now.handles stands.now (vec_len spots.old) }
    requires apart { StandApart tags.now.handles stands.now }
    requires led { LeadBack tags.now.handles stands.now spots.old.items noted }
    ensures led { LeadBack tags.now.handles stands.now spots.new.items (length tags.now.handles) }
    ensures covered { vec_len spots.new ≡ vec_len spots.old }
{
    'spots: for spot in noted..tags.len() {
        if stands[spot] {
            spots[tags.handle(spot).slot() as usize] = spot as u32;
        }
    }
}

/// The spot noted for the cell with this number, if the row there has a handle that names the cell. `None` otherwise,
/// or if no spot is noted for the cell. O(1).
fn spot_with(tags: &TagList, stands: &[bool], spots: &[u32], slot: u32) -> Option<usize>
    requires beside { length stands.now ≡ length tags.now.handles }
    ensures { MatchOption result (IsUnnoted tags.now.handles stands.now spots.now slot) (λ spot. IsSpotWith
        tags.now.handles stands.now slot spot) }
{
    if slot as usize >= spots.len() {
        return None;
    }
    let spot = spots[slot as usize] as usize;
    if spot < stands.len() && stands[spot] && tags.handle(spot).slot() == slot {
        Some(spot)
    } else {
        None
    }
}

/// The spot of the row whose handle names the cell with this number, or `None` if there is none. The first `noted`
/// spots are noted. First notes the others, and sets `noted` to the number of spots, so n look-ups after m pushes take
/// O(n + m) in total.
pub(crate) fn spot_noted(
    spots: &mut Vec<u32>,
    noted: &mut usize,
    tags: &TagList,
    stands: &[bool],
    slot: u32,
) -> Option<usize>
    requires beside { length stands.now ≡ length tags.now.handles }
    requires few { length tags.now.handles ≤ 2 ^ 32 }
    requires near { noted.old ≤ length tags.now.handles }
    requires covered { AreCovered tags.now.handles stands.now (vec_len spots.old) }
    requires apart { StandApart tags.now.handles stands.now }
    requires led { LeadBack tags.now.handles stands.now spots.old.items noted.old }
    ensures found { MatchOption result (IsNowhere tags.now.handles stands.now slot) (λ spot. IsSpotWith tags.now.handles
        stands.now slot spot) }
    ensures led { LeadBack tags.now.handles stands.now spots.new.items (length tags.now.handles) }
    ensures all { noted.new ≡ length tags.now.handles }
    ensures covered { vec_len spots.new ≡ vec_len spots.old }
{
    note_spots(spots, tags, stands, *noted);
    *noted = tags.len();
    spot_with(tags, stands, spots, slot)
}

/// The spot, at or after `from`, of the row whose handle names the cell with this number, or `None` if there is
/// none. O(1) for each spot from `from` on.
fn later_spot(tags: &TagList, stands: &[bool], from: usize, slot: u32) -> Option<usize>
    requires beside { length stands.now ≡ length tags.now.handles }
    ensures { MatchOption result (IsNotBehind tags.now.handles stands.now slot from) (λ spot. IsSpotWith
        tags.now.handles stands.now slot spot) }
{
    'spots: for spot in from..tags.len() {
        if stands[spot] && tags.handle(spot).slot() == slot {
            return Some(spot);
        }
    }
    None
}

/// The spot of the row whose handle names the cell with this number, or `None` if there is none. O(1) if the spot is
/// among the first `noted` ones, which are noted; otherwise searches the others, O(1) for each.
pub(crate) fn spot_sought(
    tags: &TagList,
    stands: &[bool],
    spots: &[u32],
    noted: usize,
    slot: u32,
) -> Option<usize>
    requires beside { length stands.now ≡ length tags.now.handles }
    requires led { LeadBack tags.now.handles stands.now spots.now noted }
    ensures { MatchOption result (IsNowhere tags.now.handles stands.now slot) (λ spot. IsSpotWith tags.now.handles
        stands.now slot spot) }
{
    match spot_with(tags, stands, spots, slot) {
        Some(spot) => Some(spot),
        None => later_spot(tags, stands, noted, slot),
    }
}
