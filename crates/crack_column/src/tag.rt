//! The tags of a cracker column, one at each place. Cracks read and exchange tags, and sums read them. A tag is
//! stored as a label and a payload, in two lists, so that a sum of known rows reads only payloads.
ghost use Rattle.std.specs.Prelude.{◌≡◌, ◌+◌, ◌<◌, ◌≤◌, ◌^◌, All, [], ◌∷◌, MatchOption, length, map, take, drop, ◌++◌};
ghost use Rattle.std.specs.Prelude.{cond, pos, neg_ℤ, ◌≤ℤ◌, ◌*◌};
ghost use Rattle.std.specs.List.Sorted.{IsPermutation};
ghost use Rattle.crack_arena.specs.Arena.{times, IsAbsent, IsFirstAt};
ghost use Rattle.crack_arena.specs.Rows.{amount_at, key_at, unknown};
ghost use Rattle.crack_row.specs.Rows.{amount, total_by, farthest_amount};
ghost use Rattle.crack_column.specs.declared.TheConstants.{MOST_PLACES};
ghost use Rattle.crack_column.specs.Column.{IsDividedAt};
ghost use Rattle.crack_column.specs.Keeps.{remembered_key, unread_in};
ghost use Rattle.crack_column.specs.Places.{memory_of, tag_handle};
ghost use Rattle.crack_column.specs.Labels.{tag_of, tags_of};
ghost use Rattle.crack_column.specs.Sifts.{below_bound, queued, made_way};
ghost use Rattle.crack_column.specs.Inside.{tag_for, label_of, label_handle, forgotten, shifted, turned};
ghost use Rattle.crack_column.specs.Inside.{KnowsRow, Read};

use crack_arena::{Arena, Handle, Remembered, UNKNOWN_KEY, amount_of, key_of};
use crack_row::{InnerBound, Key, KeyNumber, Payload, Row};
use crack_tags::Label;

/// The tag at a place: the row's handle, and its remembered key and payload. The key is `UNKNOWN_KEY` if the row
/// is unknown.
#[derive(Clone, Copy)]
pub(crate) struct Tag {
    pub(crate) key: KeyNumber,
    pub(crate) payload: Payload,
    pub(crate) handle: Handle<Row>,
}

/// The tag of this label and this payload.
#[inline(always)]
pub(crate) fn with_payload(label: Label, payload: Payload) -> Tag
    ensures { result ≡ tag_of label payload }
{
    Tag {
        key: label.key,
        payload,
        handle: label.handle,
    }
}

impl Tag {
    /// Makes the tag of a handle, and of what is remembered about the handle's row.
    pub(crate) fn new(handle: Handle<Row>, remembered: Remembered) -> Tag
        ensures { result ≡ tag_for handle remembered }
    {
        Tag {
            key: remembered.key(),
            payload: remembered.payload(),
            handle,
        }
    }

    /// The key and payload that the tag remembers of its row.
    pub(crate) fn remembered(&self) -> Remembered
        ensures { result ≡ memory_of self.now }
    {
        Remembered::new(self.key, self.payload)
    }

    /// The tag without its payload.
    #[inline(always)]
    pub(crate) fn label(&self) -> Label
        ensures { result ≡ label_of self.now }
    {
        Label {
            key: self.key,
            handle: self.handle,
        }
    }

    /// 1 if the row is unknown, otherwise 0.
    pub(crate) fn unread(&self) -> usize
        ensures { result ≡ times unknown (self.now.key ∷ []) }
    {
        self.remembered().unread()
    }

    /// The key of the row, read from the arena only if the row is unknown.
    pub(crate) fn key(&self, arena: &Arena<Row>) -> Key
        requires { KnowsRow arena.now.cells self.now }
        ensures { result.0 ≡ key_at arena.now.cells (tag_handle self.now) }
    {
        if self.key == UNKNOWN_KEY {
            return key_of(arena, self.handle);
        }
        Key::from_number(self.key)
    }

    /// The amount that the row adds to a sum: its payload. The arena is read only if the row is unknown.
    fn amount(&self, arena: &Arena<Row>) -> i128
        requires { KnowsRow arena.now.cells self.now }
        ensures value { result ≡ amount_at arena.now.cells (tag_handle self.now) }
        ensures least { neg_ℤ (pos farthest_amount) ≤ℤ result }
        ensures most { result ≤ℤ pos farthest_amount }
    {
        if self.key == UNKNOWN_KEY {
            return amount_of(arena, self.handle);
        }
        self.payload.amount()
    }
}

/// Reads the unknown rows of the tags from the arena, and moves the tags with keys below the bound to the front. The
/// tags are given by their labels and their payloads. `unread` is at least the number of unknown rows. Returns how
/// many tags have keys below the bound, and how many unknown rows became known. O(tags).
pub(crate) fn crack(
    labels: &mut [Label],
    payloads: &mut [Payload],
    unread: usize,
    bound: InnerBound,
    arena: &Arena<Row>,
) -> (usize, usize)
    requires beside { length payloads.old ≡ length labels.old }
    requires known { All (KnowsRow arena.now.cells) (tags_of labels.old payloads.old) }
    requires unread { unread_in (tags_of labels.old payloads.old) ≤ unread }
    ensures kept { IsPermutation (map forgotten (tags_of labels.old payloads.old)) (map forgotten
        (tags_of labels.new payloads.new)) }
    ensures read { All (Read arena.now.cells) (tags_of labels.new payloads.new) }
    ensures divided { IsDividedAt bound.0 (map remembered_key (tags_of labels.new payloads.new)) result.0 }
    ensures fewer { unread_in (tags_of labels.new payloads.new) + result.1 ≡
        unread_in (tags_of labels.old payloads.old) }
{
    if unread == 0 {
        return (divide(labels, payloads, bound.number()), 0);
    }
    let learned = learn(labels, payloads, arena);
    (divide(labels, payloads, bound.number()), learned)
}

/// Reads the unknown rows of the tags from the arena, and moves the tags with keys below `low` to the front, followed
/// by those below `high`. The tags are given by their labels and their payloads. `unread` is at least the number of
/// unknown rows. Returns how many tags have keys below `low`, how many have keys below `high`, and how many unknown
/// rows became known. O(tags).
pub(crate) fn crack_three(
    labels: &mut [Label],
    payloads: &mut [Payload],
    unread: usize,
    low: InnerBound,
    high: InnerBound,
    arena: &Arena<Row>,
) -> (usize, usize, usize)
    requires beside { length payloads.old ≡ length labels.old }
    requires bounds { low.0 ≤ high.0 }
    requires known { All (KnowsRow arena.now.cells) (tags_of labels.old payloads.old) }
    requires unread { unread_in (tags_of labels.old payloads.old) ≤ unread }
    ensures kept { IsPermutation (map forgotten (tags_of labels.old payloads.old)) (map forgotten
        (tags_of labels.new payloads.new)) }
    ensures read { All (Read arena.now.cells) (tags_of labels.new payloads.new) }
    ensures low { IsDividedAt low.0 (map remembered_key (tags_of labels.new payloads.new)) result.0 }
    ensures high { IsDividedAt high.0 (map remembered_key (tags_of labels.new payloads.new)) result.1 }
    ensures order { result.0 ≤ result.1 }
    ensures fewer { unread_in (tags_of labels.new payloads.new) + result.2 ≡
        unread_in (tags_of labels.old payloads.old) }
{
    if unread == 0 {
        let (middle, upper) = divide_three(labels, payloads, low.number(), high.number());
        return (middle, upper, 0);
    }
    let learned = learn(labels, payloads, arena);
    let (middle, upper) = divide_three(labels, payloads, low.number(), high.number());
    (middle, upper, learned)
}

/// Reads each unknown row of the tags from the arena, and remembers it. Returns how many rows became known: a row
/// with the greatest key stays unknown. O(tags).
fn learn(labels: &mut [Label], payloads: &mut [Payload], arena: &Arena<Row>) -> usize
    requires beside { length payloads.old ≡ length labels.old }
    requires known { All (KnowsRow arena.now.cells) (tags_of labels.old payloads.old) }
    ensures kept { map forgotten (tags_of labels.new payloads.new) ≡ map forgotten (tags_of labels.old payloads.old) }
    ensures read { All (Read arena.now.cells) (tags_of labels.new payloads.new) }
    ensures fewer { unread_in (tags_of labels.new payloads.new) + result ≡ unread_in (tags_of labels.old payloads.old) }
{
    let mut learned = 0;
    'tags: for i in 0..labels.len() {
        if labels[i].key == UNKNOWN_KEY {
            let read = Remembered::read(arena, labels[i].handle);
            labels[i] = Label {
                key: read.key(),
                ..labels[i]
            };
            payloads[i] = read.payload();
            learned += (read.key() != UNKNOWN_KEY) as usize;
        }
    }
    learned
}

/// Moves the tags with keys below the bound to the front, and returns their number. The first tag is copied, which
/// leaves a gap. Each step moves the first tag at or above the bound into the gap, and the next tag to the place that
/// this leaves free, so that no branch depends on a key. The gap is then one place further on. O(tags).
///
/// Exchanging the two tags instead takes a quarter more time. The key is read before its label: reading the whole
/// label first takes three times as long.
fn divide(labels: &mut [Label], payloads: &mut [Payload], bound: KeyNumber) -> usize
    requires beside { length payloads.old ≡ length labels.old }
    ensures kept { IsPermutation (tags_of labels.old payloads.old) (tags_of labels.new payloads.new) }
    ensures divided { IsDividedAt bound (map remembered_key (tags_of labels.new payloads.new)) result }
{
    let Some(last) = labels.len().checked_sub(1) else {
        return 0;
    };
    let (first, first_payload) = (labels[0], payloads[0]);
    let mut low = 0;
    'tags: for gap in 0..last {
        let below = labels[gap + 1].key < bound;
        let (next, payload) = (labels[gap + 1], payloads[gap + 1]);
        shift(labels, payloads, gap, low, next, payload);
        low += below as usize;
    }
    let below = first.key < bound;
    shift(labels, payloads, last, low, first, first_payload);
    low + below as usize
}

/// Sifts the tags from the place `from` on, in order, through the tags before them. The first one with a key below
/// the bound is exchanged with the tag at place 0, the second one with the tag at place 1, and so on; any other tag
/// stays. Returns how many of the sifted tags have keys below the bound, which then come first, and how many of the
/// exchanges were between two different places. O(tags from `from` on).
pub(crate) fn sift(
    labels: &mut [Label],
    payloads: &mut [Payload],
    from: usize,
    bound: KeyNumber,
) -> (usize, usize)
    requires beside { length payloads.old ≡ length labels.old }
    requires within { from ≤ length labels.old }
    ensures tags { tags_of labels.new payloads.new ≡ below_bound remembered_key bound
        (drop from (tags_of labels.old payloads.old))
        ++ queued remembered_key bound (drop from (tags_of labels.old payloads.old))
        (take from (tags_of labels.old payloads.old)) }
    ensures below { result.0 ≡ length (below_bound remembered_key bound (drop from (tags_of labels.old payloads.old))) }
    ensures moved { result.1 ≡ made_way remembered_key bound (drop from (tags_of labels.old payloads.old))
        (take from (tags_of labels.old payloads.old)) }
{
    let (mut low, mut moved) = (0, 0);
    'tags: for gap in from..labels.len() {
        if labels[gap].key < bound {
            let (label, payload) = (labels[gap], payloads[gap]);
            shift(labels, payloads, gap, low, label, payload);
            moved += (low < gap) as usize;
            low += 1;
        }
    }
    (low, moved)
}

/// Copies the tag at the place `low` to the place `gap`, and then stores the tag of this label and this payload at
/// `low`. Both labels are written before the payloads: otherwise the label passes through memory once more.
#[inline(always)]
fn shift(
    labels: &mut [Label],
    payloads: &mut [Payload],
    gap: usize,
    low: usize,
    label: Label,
    payload: Payload,
)
    requires beside { length payloads.old ≡ length labels.old }
    requires order { low ≤ gap }
    requires within { gap < length labels.old }
    ensures { tags_of labels.new payloads.new ≡ shifted (tags_of labels.old payloads.old) gap low
        (tag_of label payload) }
{
    labels[gap] = labels[low];
    labels[low] = label;
    payloads[gap] = payloads[low];
    payloads[low] = payload;
}

/// Moves the tags with keys below `low` to the front, followed by those below `high`. Returns how many have keys
/// below `low`, and how many below `high`. O(tags).
///
/// The first tag is copied, which leaves a gap, as in `divide`. Each step moves the first tag at or above `high`
/// into the gap. If the next tag is below `low`, the first tag at or above `low` moves to the place that this leaves
/// free. The next tag then moves to the place that was left free last. No branch depends on a key.
fn divide_three(
    labels: &mut [Label],
    payloads: &mut [Payload],
    low: KeyNumber,
    high: KeyNumber,
) -> (usize, usize)
    requires beside { length payloads.old ≡ length labels.old }
    requires bounds { low ≤ high }
    ensures kept { IsPermutation (tags_of labels.old payloads.old) (tags_of labels.new payloads.new) }
    ensures low { IsDividedAt low (map remembered_key (tags_of labels.new payloads.new)) result.0 }
    ensures high { IsDividedAt high (map remembered_key (tags_of labels.new payloads.new)) result.1 }
    ensures order { result.0 ≤ result.1 }
{
    let Some(last) = labels.len().checked_sub(1) else {
        return (0, 0);
    };
    let (first, first_payload) = (labels[0], payloads[0]);
    let (mut middle, mut upper) = (0, 0);
    'tags: for gap in 0..last {
        let key = labels[gap + 1].key;
        let (is_low, is_below) = (key < low, key < high);
        let (next, payload) = (labels[gap + 1], payloads[gap + 1]);
        let place = place_of(is_low, middle, upper);
        turn(labels, payloads, gap, upper, place, next, payload);
        middle += is_low as usize;
        upper += is_below as usize;
    }
    let key = first.key;
    let (is_low, is_below) = (key < low, key < high);
    let place = place_of(is_low, middle, upper);
    turn(labels, payloads, last, upper, place, first, first_payload);
    (middle + is_low as usize, upper + is_below as usize)
}

/// Copies the tag at the place `upper` to the place `gap`, then the tag at `place` to `upper`, and then stores the
/// tag of this label and this payload at `place`.
#[inline(always)]
fn turn(
    labels: &mut [Label],
    payloads: &mut [Payload],
    gap: usize,
    upper: usize,
    place: usize,
    label: Label,
    payload: Payload,
)
    requires beside { length payloads.old ≡ length labels.old }
    requires low { place ≤ upper }
    requires order { upper ≤ gap }
    requires within { gap < length labels.old }
    ensures { tags_of labels.new payloads.new ≡ turned (tags_of labels.old payloads.old) gap upper place
        (tag_of label payload) }
{
    labels[gap] = labels[upper];
    labels[upper] = labels[place];
    labels[place] = label;
    payloads[gap] = payloads[upper];
    payloads[upper] = payloads[place];
    payloads[place] = payload;
}

/// The place where a step of `divide_three` stores a tag: `middle`, where the keys at or above the low bound begin,
/// if the tag's key is below the low bound (`is_low`); otherwise `upper`, where the keys at or above the high bound
/// begin.
fn place_of(is_low: bool, middle: usize, upper: usize) -> usize
    ensures { result ≡ cond is_low middle upper }
{
    if is_low { middle } else { upper }
}

/// The sum of the payloads of the tags' rows. The tags are given by their labels and their payloads. `unread` is at
/// least the number of unknown rows, which are read from the arena. O(tags).
pub(crate) fn sum(labels: &[Label], payloads: &[Payload], unread: usize, arena: &Arena<Row>) -> i128
    requires beside { length payloads.now ≡ length labels.now }
    requires few { length labels.now ≤ MOST_PLACES }
    requires known { All (KnowsRow arena.now.cells) (tags_of labels.now payloads.now) }
    requires unread { unread_in (tags_of labels.now payloads.now) ≤ unread }
    ensures value { result ≡ total_by (λ t. amount_at arena.now.cells (tag_handle t))
        (tags_of labels.now payloads.now) }
    ensures least { neg_ℤ (pos (length labels.now * farthest_amount)) ≤ℤ result }
    ensures most { result ≤ℤ pos (length labels.now * farthest_amount) }
    ensures small { (neg_ℤ (pos (2 ^ 95)) ≤ℤ result) × (result ≤ℤ pos (2 ^ 95)) }
{
    if unread == 0 {
        sum_remembered(payloads)
    } else {
        sum_read(labels, payloads, arena)
    }
}

/// The sum of the payloads. Takes no branch that depends on them, and reads no cell. O(payloads).
fn sum_remembered(payloads: &[Payload]) -> i128
    requires few { length payloads.now ≤ MOST_PLACES }
    ensures value { result ≡ total_by amount payloads.now }
    ensures least { neg_ℤ (pos (length payloads.now * farthest_amount)) ≤ℤ result }
    ensures most { result ≤ℤ pos (length payloads.now * farthest_amount) }
{
    let mut sum = 0;
    'payloads: for i in 0..payloads.len() {
        sum += payloads[i].amount();
    }
    sum
}

/// The sum of the payloads of the tags' rows. Unknown rows are read from the arena. O(tags).
fn sum_read(labels: &[Label], payloads: &[Payload], arena: &Arena<Row>) -> i128
    requires beside { length payloads.now ≡ length labels.now }
    requires few { length labels.now ≤ MOST_PLACES }
    requires known { All (KnowsRow arena.now.cells) (tags_of labels.now payloads.now) }
    ensures value { result ≡ total_by (λ t. amount_at arena.now.cells (tag_handle t))
        (tags_of labels.now payloads.now) }
    ensures least { neg_ℤ (pos (length labels.now * farthest_amount)) ≤ℤ result }
    ensures most { result ≤ℤ pos (length labels.now * farthest_amount) }
{
    let mut sum = 0;
    'tags: for i in 0..labels.len() {
        sum += with_payload(labels[i], payloads[i]).amount(arena);
    }
    sum
}

/// The place of the first label with this handle, or `None` if there is none. O(labels).
pub(crate) fn find(labels: &[Label], handle: Handle<Row>) -> Option<usize>
    ensures { MatchOption result
        (IsAbsent (map label_handle labels.now) handle)
        (IsFirstAt (map label_handle labels.now) handle) }
{
    'tags: for i in 0..labels.len() {
        if labels[i].handle == handle {
            return Some(i);
        }
    }
    None
}
