//! Memory for pending rows: growth by half, closing up of holes, and freeing of memory that isn't needed.
ghost use Rattle.std.specs.Prelude.{◌≡◌, ◌+◌, ◌*◌, ◌<◌, ◌≤◌, ◌^◌, ◌↔◌, ℕ, length, IfErr, OnOk, OnErr, slice_index};
ghost use Rattle.std.specs.Prelude.{vec_len, vec_capacity};
ghost use Rattle.crack_pending.specs.Keeps.{Has};
ghost use Rattle.crack_pending.specs.Pending.{StillRemembersRows};

use crate::bits::BitSet;
use crate::closing::close_up;
use crate::list::PendingList;
use crack_row::Refusal;
use crack_tags::TagList;

/// A spot's number has 32 bits.
const MOST_SPOTS: usize = 4294967296;

/// The number of rows for which there is room at first, and the least by which the room grows. The allocator maps a
/// block of this size separately: the block grows without being copied, and its unused part takes no memory.
const FIRST_SPOTS: usize = 8192;

/// The least number of cells by which the places grow.
const MORE_PLACES: usize = 2048;

impl<Kind> PendingList<Kind> {
    /// The number of further spots that need no memory.
    fn room(&self) -> usize
        ensures { result ≡ self.now.room }
    {
        MOST_SPOTS
            .min(self.tags.capacity().min(self.stands.capacity()))
            .saturating_sub(self.tags.len())
    }

    /// Makes room for `additional` more pushes; with these the list must have at most 2^32 rows. Amortised O(1) for
    /// each push. Refused with `OutOfMemory` if no memory is found.
    #[inline(always)]
    pub fn reserve(&mut self, additional: usize) -> Result<(), Refusal>
        requires { length self.old.handles + additional ≤ 2 ^ 32 }
        ensures same { self.new ≡ record self.old { room = self.new.room } }
        ensures room { OnOk result (additional ≤ self.new.room) }
        ensures kept { self.old.room ≤ self.new.room }
        ensures full { OnErr result (self.old.room < additional) }
        ensures err { IfErr result (λ e. e ≡ Refusal.OutOfMemory) }
        ensures remembered { StillRemembersRows self.old self.new }
    {
        if additional <= self.room() {
            return Ok(());
        }
        self.make_room(additional)
    }

    /// Closes up all holes. Then makes room for the greatest of these numbers of pushes: `additional`, half the number
    /// of rows, and `FIRST_SPOTS`. So n pushes take O(n), however many rows are removed between them. Refused with
    /// `OutOfMemory` if no memory is found.
    #[inline(never)]
    fn make_room(&mut self, additional: usize) -> Result<(), Refusal>
        requires { length self.old.handles + additional ≤ 2 ^ 32 }
        ensures same { self.new ≡ record self.old { room = self.new.room } }
        ensures room { OnOk result (additional ≤ self.new.room) }
        ensures kept { self.old.room ≤ self.new.room }
        ensures err { IfErr result (λ e. e ≡ Refusal.OutOfMemory) }
        ensures remembered { StillRemembersRows self.old self.new }
    {
        close_up(&mut self.tags, &mut self.stands, self.rows);
        self.codes.clear();
        self.noted = 0;
        self.hint_place = 0;
        self.hint_spot = 0;
        let wanted = additional.max(self.rows / 2).max(FIRST_SPOTS);
        grow(&mut self.tags, &mut self.stands, wanted)
    }

    /// Closes up all holes, and frees memory that holds no row. Keeps room for the greatest of these numbers of
    /// pushes: `room`, for which there must be room already, half the number of rows, and 8,192. O(1) if there are no
    /// holes, otherwise O(len). Can't fail: memory that the allocator doesn't take back stays as room.
    #[inline(never)]
    pub fn shrink(&mut self, room: usize)
        requires { room ≤ self.old.room }
        ensures same { self.new ≡ record self.old { room = self.new.room } }
        ensures sure { room ≤ self.new.room }
        ensures remembered { StillRemembersRows self.old self.new }
    {
        close_up(&mut self.tags, &mut self.stands, self.rows);
        self.codes.give_back();
        self.noted = 0;
        self.hint_place = 0;
        self.hint_spot = 0;
        let wanted = room.max(self.rows / 2).max(FIRST_SPOTS);
        let spots = self.rows + wanted;
        self.tags.shrink_to(spots);
        self.stands.shrink_to(spots);
    }

    /// Does what `shrink` does if the list has no handles, so that an emptied list frees its memory; otherwise does
    /// nothing. O(1).
    #[inline(always)]
    pub fn shrink_if_empty(&mut self, room: usize)
        requires { room ≤ self.old.room }
        ensures same { self.new ≡ record self.old { room = self.new.room } }
        ensures sure { room ≤ self.new.room }
        ensures remembered { StillRemembersRows self.old self.new }
    {
        if self.is_empty() {
            self.shrink(room);
        }
    }

    /// Makes room for handles of the first `cells` cells. Amortised O(1) for each new cell. Refused with `OutOfMemory`
    /// if no memory is found; then the list is unchanged.
    #[inline(always)]
    pub fn make_places(&mut self, cells: usize) -> Result<(), Refusal>
        ensures same { self.new ≡ record self.old { covered = self.new.covered } }
        ensures covered { OnOk result (cells ≤ self.new.covered) }
        ensures kept { self.old.covered ≤ self.new.covered }
        ensures full { OnErr result (self.old.covered < cells) }
        ensures unchanged { OnErr result (self.new ≡ self.old) }
        ensures err { IfErr result (λ e. e ≡ Refusal.OutOfMemory) }
        ensures remembered { StillRemembersRows self.old self.new }
    {
        if cells <= self.spots.len() {
            return Ok(());
        }
        lengthen(&mut self.spots, &mut self.members, cells)
    }

    /// Closes up all holes, so that `at` takes O(1) at each place. O(rows + holes), and O(1) if there are no holes.
    pub fn close_up(&mut self)
        ensures same { self.new ≡ record self.old { room = self.new.room } }
        ensures kept { self.old.room ≤ self.new.room }
        ensures remembered { StillRemembersRows self.old self.new }
    {
        if self.rows == self.tags.len() {
            return;
        }
        close_up(&mut self.tags, &mut self.stands, self.rows);
        self.codes.clear();
        self.noted = 0;
        self.hint_place = 0;
        self.hint_spot = 0;
    }

    /// Closes up all holes if there are at least as many holes as rows. Amortised O(1) for each removed row.
    pub(crate) fn close_up_if_sparse(&mut self)
        ensures same { self.new ≡ record self.old { room = self.new.room } }
        ensures kept { self.old.room ≤ self.new.room }
    {
        if self.tags.len() - self.rows < self.rows {
            return;
        }
        self.close_up();
    }
}

/// Makes room for `additional` more spots. Refused with `OutOfMemory` if no memory is found; one of the two lists may
/// then have got room.
fn grow(tags: &mut TagList, stands: &mut Vec<bool>, additional: usize) -> Result<(), Refusal>
    ensures handles { tags.new.handles ≡ tags.old.handles }
    ensures remembered { tags.new.remembered ≡ tags.old.remembered }
    ensures stands { stands.new.items ≡ stands.old.items }
    ensures tag_room { OnOk result (length tags.old.handles + additional ≤ tags.new.capacity) }
    ensures stand_room { OnOk result (vec_len stands.old + additional ≤ vec_capacity stands.new) }
    ensures tag_kept { tags.old.capacity ≤ tags.new.capacity }
    ensures stand_kept { vec_capacity stands.old ≤ vec_capacity stands.new }
    ensures err { IfErr result (λ e. e ≡ Refusal.OutOfMemory) }
{
    tags.reserve(additional)?;
    stands.reserve(additional)?;
    Ok(())
}

/// Appends zeros until `spots` has at least `cells` numbers, and up to `MORE_PLACES` more for which there is memory.
/// Before that, makes room in `members` for a bit for each number. Refused with `OutOfMemory` if no memory is found;
/// then no zero is appended.
#[inline(never)]
fn lengthen(spots: &mut Vec<u32>, members: &mut BitSet, cells: usize) -> Result<(), Refusal>
    requires more { vec_len spots.old < cells }
    requires covered { vec_len spots.old ≤ 64 * length members.old }
    ensures same { (k : ℕ) → k < vec_len spots.old → slice_index spots.new.items k ≡ slice_index spots.old.items k }
    ensures long { OnOk result (cells ≤ vec_len spots.new) }
    ensures kept { vec_len spots.old ≤ vec_len spots.new }
    ensures unchanged { OnErr result (spots.new.items ≡ spots.old.items) }
    ensures err { IfErr result (λ e. e ≡ Refusal.OutOfMemory) }
    ensures members { (slot : ℕ) → Has members.new slot ↔ Has members.old slot }
    ensures covered { vec_len spots.new ≤ 64 * length members.new }
{
    spots.reserve((cells - spots.len()).max(MORE_PLACES))?;
    members.make_places(spots.capacity())?;
    let end = cells.saturating_add(MORE_PLACES).min(spots.capacity());
    'cells: while spots.len() < end {
        spots.push_reserved(0);
    }
    Ok(())
}
