//! The known sums of a partition's pieces.
ghost use Rattle.std.specs.Prelude.{◌≡◌, ℕ, ℤ, ◌<◌, ◌≤◌, ◌^◌, ◌↔◌, [], IsTrue, IfSome, IsSome, OnSome};
ghost use Rattle.std.specs.Map.{keys_of};
ghost use Rattle.crack_row.specs.Rows.{sum_of};
ghost use Rattle.crack_plain.specs.Plain.{PlainState, IsNumbered, row_in, rows_in, after};
ghost use Rattle.crack_index.specs.Sums.{AreRight, SumsAreKnown, IsEnd, distance_in, joined_below};
ghost use Rattle.crack_state.specs.Merge.{IsCracked, IsSettled};
ghost use Rattle.crack_part.specs.Parts.{IsFaithful};
ghost use Rattle.crack_part.specs.KnownSums.{KnowsSums, IsFresh, SettlesToo, SaysSettled, HasMost};
ghost use Rattle.crack_part.specs.KnownSums.{left_known, sum_before, with_row};

use crack_index::{PieceSums, SumSource};
use crack_row::{Command, InnerBound, KeyRange, Row, Serial};
use crack_store::Store;
use std::alloc::Global;
use std::marker::Model;

/// If more rows than this were inserted since the sums were last used, the sums are forgotten: looking up those
/// rows would take longer than summing again.
const MOST_PLACED: u64 = 256;

/// A part of a piece with at most this many rows is summed itself, even if the rest of the piece has fewer rows.
const FEW_ROWS: u64 = 512;

/// The known sums of pieces, over the rows inserted before the serial `since`. They are sums of plain rows by key,
/// so cracks and merges don't change them.
#[derive(Drop)]
pub(crate) struct KnownSums {
    pieces: PieceSums,
    since: u64,
}

impl Model for KnownSums {
    ghost use Rattle.crack_part.specs.KnownSums.{Known};

    ghost Value = { Known };

    ghost view = { λ k. record { pieces = k.pieces; since = k.since } };
}

impl KnownSums {
    /// No known sums. Takes no memory.
    pub(crate) fn new(alloc: Global) -> KnownSums
        ensures { result ≡ record { pieces = []; since = 0 } }
    {
        KnownSums {
            pieces: PieceSums::new(alloc),
            since: 0,
        }
    }

    /// Adjusts the known sums after the deletion of the row with this serial, or forgets them if more than
    /// `MOST_PLACED` rows were inserted since they were last used. `row` is the deleted row; if it is `None`, there
    /// was no such row, and nothing changes. `next` is the serial of the next inserted row. O(log pieces), amortised.
    pub(crate) fn remove(&mut self, serial: Serial, row: Option<Row>, next: u64)
        ensures knows { (plain : PlainState) → IsNumbered plain → row_in plain.rows serial ≡ row →
            KnowsSums self.old plain → KnowsSums self.new (after plain (Command.Delete serial)) }
        ensures stay { IsFresh next self.old → keys_of self.new.pieces ≡ keys_of self.old.pieces }
    {
        let Some(row) = row else {
            return;
        };
        self.forget_if_late(next);
        if serial.0 < self.since {
            self.pieces.adjust(row.key, -row.payload.amount());
        }
    }

    /// Adjusts the known sums after `row` replaced `before`, the row with the same serial, or forgets them if more
    /// than `MOST_PLACED` rows were inserted since they were last used. If `before` is `None`, there was no such row,
    /// and nothing changes. `next` is the serial of the next inserted row. O(log pieces), amortised.
    pub(crate) fn replace(&mut self, before: Option<Row>, row: Row, next: u64)
        ensures knows { (plain : PlainState) → IsNumbered plain → row_in plain.rows row.serial ≡ before →
            KnowsSums self.old plain →
            KnowsSums self.new (after plain (Command.Update row.serial row.key row.payload)) }
        ensures stay { IsFresh next self.old → keys_of self.new.pieces ≡ keys_of self.old.pieces }
    {
        let Some(before) = before else {
            return;
        };
        self.forget_if_late(next);
        if row.serial.0 < self.since {
            self.pieces.adjust(before.key, -before.payload.amount());
            self.pieces.adjust(row.key, row.payload.amount());
        }
    }

    /// Joins the two pieces beside `bound`, which was forgotten: the sum of the joined piece is known if both sums
    /// were known and their total fits into 128 bits. Does nothing if one of the two doesn't exist. O(log pieces).
    pub(crate) fn join(&mut self, bound: InnerBound)
        ensures knows { (plain : PlainState) → KnowsSums self.old plain → KnowsSums self.new plain }
        ensures joins { self.new ≡ record self.old { pieces = joined_below bound.0 self.old.pieces } }
    {
        self.pieces.join(bound.key());
    }

    /// The sum of the payloads of the rows in a range, for which the store must be settled: cracked at its ends, with
    /// no row in it pending. Parts whose sum isn't known are summed in the store, and are known afterwards. `next` is
    /// the serial of the next inserted row. `None` if no memory is found, or if 128 bits aren't enough. O(log pieces)
    /// once the sums of the pieces in the range are known.
    pub(crate) fn sum(&mut self, store: &Store, next: u64, range: KeyRange) -> Option<i128>
        requires filled { range.low < range.high }
        requires settled { IsSettled store.now range }
        ensures right { store.now.keys.low ≤ range.low → range.high ≤ store.now.keys.high → (plain : PlainState) →
            IsNumbered plain → IsFaithful store.now next plain → KnowsSums self.old plain →
            IfSome result (λ sum. sum ≡ sum_of (rows_in range plain.rows)) × KnowsSums self.new plain }
        ensures known { OnSome result (SumsAreKnown range self.new.pieces) }
        ensures ends { OnSome result (IsEnd range.low self.new.pieces × IsEnd range.high self.new.pieces) }
        ensures again { next ≡ self.old.since → IsEnd range.low self.old.pieces → IsEnd range.high self.old.pieces →
            SumsAreKnown range self.old.pieces → distance_in range self.old.pieces < 2 ^ 127 → IsSome result }
    {
        self.catch_up(store, next);
        self.pieces.sum(range, &Settled { store, range })
    }

    /// Adds the payloads of the rows that were inserted since the sums were last used to the known sums, or forgets
    /// the sums if more than `MOST_PLACED` rows were inserted. `next` is the serial of the next inserted row. O(log
    /// pieces) for each inserted row.
    fn catch_up(&mut self, store: &Store, next: u64)
        ensures knows { (plain : PlainState) → IsNumbered plain → IsFaithful store.now next plain →
            KnowsSums self.old plain → KnowsSums self.new plain × (self.new.since ≡ next) }
        ensures stay { IsFresh next self.old → keys_of self.new.pieces ≡ keys_of self.old.pieces }
        ensures same { next ≡ self.old.since → self.new ≡ self.old }
    {
        self.forget_if_late(next);
        if !self.pieces.is_empty() {
            take_in(&mut self.pieces, store, self.since, next);
        }
        self.since = next;
    }

    /// Forgets the sums if more than `MOST_PLACED` rows were inserted since they were last used; otherwise changes
    /// nothing. `next` is the serial of the next inserted row. A deletion or an update calls this before it adjusts
    /// the sums, because the next call of `sum` would forget them anyway.
    fn forget_if_late(&mut self, next: u64)
        ensures { self.new ≡ left_known next self.old }
    {
        if next.saturating_sub(self.since) > MOST_PLACED {
            self.pieces.clear();
        }
    }
}

/// Adds the payloads of the rows with serials from `from` up to but not including `next`, if they still exist, to
/// the known sums. O(serials · log pieces).
fn take_in(pieces: &mut PieceSums, store: &Store, from: u64, next: u64)
    ensures right { (plain : PlainState) → IsNumbered plain → IsFaithful store.now next plain → from ≤ next →
        AreRight (sum_before from plain.rows) pieces.old → AreRight (sum_before next plain.rows) pieces.new }
    ensures keys { keys_of pieces.new ≡ keys_of pieces.old }
    ensures same { next ≤ from → pieces.new ≡ pieces.old }
{
    store.recall_invariant();
    'serials: for serial in from..next {
        add(pieces, store.row_of(Serial(serial)));
    }
}

/// Adds the payload of a row, if there is one, to the known sum of its key's piece.
fn add(pieces: &mut PieceSums, row: Option<Row>)
    ensures right { (m : ℕ → ℕ → ℤ) → AreRight m pieces.old → AreRight (with_row row m) pieces.new }
    ensures keys { keys_of pieces.new ≡ keys_of pieces.old }
{
    if let Some(row) = row {
        pieces.adjust(row.key, row.payload.amount());
    }
}

/// A source of the sums of ranges: a store that is settled for `range`, that is, cracked at its ends, with no row in
/// it pending.
#[derive(Clone, Copy)]
struct Settled<'a> {
    store: &'a Store,
    range: KeyRange,
}

impl Settled<'_> {
    /// Whether the store is cracked at the ends of `range`, `range` lies within the store's keys, and no row in it is
    /// pending. If `range` is a part of the settled range, only the bounds are looked up; otherwise the pending rows
    /// are searched. O(log bounds), and in the second case a pass over the pending rows.
    #[inline]
    fn is_settled(&self, range: KeyRange) -> bool
        ensures cracked { IsTrue result → IsCracked self.now.store.now range }
        ensures settled { IsTrue result → SettlesToo self.now.store.now self.now.range range }
        ensures part { self.now.range.low ≤ range.low → range.high ≤ self.now.range.high →
            IsCracked self.now.store.now range → IsTrue result }
    {
        self.store.recall_invariant();
        let (low, high) = (range.low(), range.high());
        if !self.store.is_cracked(range) {
            return false;
        }
        if self.is_part(range) {
            return true;
        }
        let keys = self.store.keys();
        if low < keys.low() {
            return false;
        }
        if keys.high() < high {
            return false;
        }
        if self.store.first_in(range).is_some() {
            return false;
        }
        if self.store.first_out(range).is_some() {
            return false;
        }
        true
    }

    /// Whether `range` is a part of the settled range.
    #[inline]
    fn is_part(&self, range: KeyRange) -> bool
        ensures { IsTrue result ↔ (self.now.range.low ≤ range.low) × (range.high ≤ self.now.range.high) }
    {
        self.range.low() <= range.low() && range.high() <= self.range.high()
    }
}

impl SumSource for Settled<'_> {
    ghost use Rattle.crack_part.specs.KnownSums.{SaysSettled};

    ghost says = { λ s low high sum. SaysSettled s.store.now s.range low high sum };

    /// The sum of the payloads of the rows in `range`, read from the column. `None` unless the store is cracked at the
    /// ends of `range`, `range` lies within the store's keys, and no row in it is pending (`is_settled`).
    fn sum(&self, range: KeyRange) -> Option<i128>
        ensures says { IfSome result (λ sum. SaysSettled self.now.store.now self.now.range range.low range.high sum) }
        ensures found { self.now.range.low ≤ range.low → range.high ≤ self.now.range.high →
            IsCracked self.now.store.now range → IsSome result }
    {
        if !self.is_settled(range) {
            return None;
        }
        Some(self.store.sum_between(range))
    }

    /// Whether the store is cracked at the ends of `part` and settled for `whole`, and `part` has more than 512 rows
    /// and more than half of the rows of `whole`.
    fn prefers_rest(&self, part: KeyRange, whole: KeyRange) -> bool
        ensures { IsTrue result → HasMost self.now.store.now part whole }
    {
        if !self.store.is_cracked(part) {
            return false;
        }
        let rows = self.store.count_between(part);
        if rows <= FEW_ROWS {
            return false;
        }
        if !self.is_settled(whole) {
            return false;
        }
        self.store.count_between(whole) / 2 < rows
    }
}
