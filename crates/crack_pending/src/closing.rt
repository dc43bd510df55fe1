//! Closing up of holes: the spots of removed rows.
ghost use Rattle.std.specs.Prelude.{◌≡◌, ◌≤◌, length, vec_len, vec_capacity};
ghost use Rattle.crack_pending.specs.Keeps.{place_at, IsClosed};
ghost use Rattle.crack_pending.specs.Spots.{kept};

use crack_tags::TagList;

/// Closes up all holes in `tags` and in `stands`, which says which spots have a row. The rows keep their order. `rows`
/// is the number of rows. The caller must note the rows' spots anew afterwards. O(spots), and O(1) if there are no
/// holes.
pub(crate) fn close_up(tags: &mut TagList, stands: &mut Vec<bool>, rows: usize)
    requires remembered { length tags.old.remembered ≡ length tags.old.handles }
    requires stands { vec_len stands.old ≡ length tags.old.handles }
    requires rows { rows ≡ place_at stands.old.items (vec_len stands.old) }
    ensures closed { IsClosed tags.old.handles tags.old.remembered stands.old.items rows
        tags.new.handles tags.new.remembered stands.new.items }
    ensures tag_capacity { tags.new.capacity ≡ tags.old.capacity }
    ensures stand_capacity { vec_capacity stands.new ≡ vec_capacity stands.old }
{
    if rows == stands.len() {
        return;
    }
    close_up_tags(tags, stands);
    close_up_stands(stands, rows);
}

/// Closes up the holes in `tags`: of the handles, and of what is remembered, keeps those at the spots with a row, in
/// order. `stands` says which spots have one.
fn close_up_tags(tags: &mut TagList, stands: &[bool])
    requires stands { length stands.now ≡ length tags.old.handles }
    requires remembered { length tags.old.remembered ≡ length tags.old.handles }
    ensures handles { tags.new.handles ≡ kept stands.now tags.old.handles }
    ensures remembered { tags.new.remembered ≡ kept stands.now tags.old.remembered }
    ensures capacity { tags.new.capacity ≡ tags.old.capacity }
{
    let mut low = 0;
    'spots: for spot in 0..stands.len() {
        if stands[spot] {
            tags.move_down(low, spot);
            low += 1;
        }
    }
    tags.truncate(low);
}

/// Closes up the holes in `stands`, which says whether a spot has a row: leaves `rows` spots, each with a row.
fn close_up_stands(stands: &mut Vec<bool>, rows: usize)
    requires { rows ≤ vec_len stands.old }
    ensures length { vec_len stands.new ≡ rows }
    ensures full { place_at stands.new.items rows ≡ rows }
    ensures capacity { vec_capacity stands.new ≡ vec_capacity stands.old }
{
    stands.truncate(rows);
    stands.fill(true);
}
