//! Takes the pending insertions of a range out of their list, all at once, and appends them to the column.
ghost use Rattle.std.specs.Prelude.{◌≡◌, ◌≤◌, ◌++◌, [], length, vec_capacity};
ghost use Rattle.crack_state.specs.Carried.{inside_of};
ghost use Rattle.crack_arena.specs.Memories.{Remembers};
ghost use Rattle.crack_column.specs.Sifts.{AreRead};
ghost use Rattle.crack_state.specs.Merge.{outside_of};

use crack_arena::{Arena, Handle, Remembered};
use crack_column::CrackerColumn;
use crack_pending::PendingIn;
use crack_row::{KeyRange, Row};

/// Takes the rows of a range out of the pending insertions `rows`, and appends them to the column, in order, each with
/// what is remembered of it. The column must have room. Their handles go to `taken`, and what is remembered of them to
/// `known`; both must be empty and have room. One pass over `rows`. Can't fail: takes memory only to search faster,
/// and does without it if there is none.
pub(crate) fn take_rows(
    rows: &mut PendingIn,
    column: &mut CrackerColumn,
    range: KeyRange,
    mut taken: Vec<Handle<Row>>,
    mut known: Vec<Remembered>,
    arena: &Arena<Row>,
)
    requires room { length (inside_of arena.now.cells range rows.old.handles) ≤ column.old.room }
    requires empty { taken.items ≡ [] }
    requires list { length (inside_of arena.now.cells range rows.old.handles) ≤ vec_capacity taken }
    requires none_known { known.items ≡ [] }
    requires known_list { length (inside_of arena.now.cells range rows.old.handles) ≤ vec_capacity known }
    requires keys { Remembers arena.now.cells rows.old.handles rows.old.remembered }
    requires remembered { Remembers arena.now.cells column.old.handles column.old.remembered }
    ensures handles { column.new.handles ≡ column.old.handles ++ inside_of arena.now.cells range rows.old.handles }
    ensures remembered { Remembers arena.now.cells column.new.handles column.new.remembered }
    ensures read { AreRead arena.now.cells (length column.old.handles) (length column.new.handles) column.new }
    ensures left { rows.new.handles ≡ outside_of arena.now.cells range rows.old.handles }
    ensures keys { Remembers arena.now.cells rows.new.handles rows.new.remembered }
    ensures room { rows.old.room ≤ rows.new.room }
    ensures covered { rows.new.covered ≡ rows.old.covered }
{
    rows.take_in(range, arena, &mut taken, &mut known);
    append_taken(column, &taken, &known, arena);
}

/// Appends these rows to the column, in order, each with what `known` remembers of it at the same index. A row of
/// which nothing is remembered is read. The column must have room.
fn append_taken(
    column: &mut CrackerColumn,
    rows: &[Handle<Row>],
    known: &[Remembered],
    arena: &Arena<Row>,
)
    requires room { length rows.now ≤ column.old.room }
    requires known { Remembers arena.now.cells rows.now known.now }
    requires remembered { Remembers arena.now.cells column.old.handles column.old.remembered }
    ensures handles { column.new.handles ≡ column.old.handles ++ rows.now }
    ensures remembered { Remembers arena.now.cells column.new.handles column.new.remembered }
    ensures read { AreRead arena.now.cells (length column.old.handles) (length column.new.handles) column.new }
{
    'rows: for i in 0..rows.len() {
        let handle = rows[i];
        column.append_remembered(handle, known[i].or_read(arena, handle));
    }
}
