//! When bounds are forgotten: once they cost more than they save.
ghost use Rattle.std.specs.Prelude.{◌≡◌, None};
ghost use Rattle.crack_part.specs.Forgetting.{are_dear, are_many, due_after, moves_of};

use crack_row::Key;
use crack_store::Store;

/// With at most this many bounds none is forgotten.
const FEW_BOUNDS: usize = 64;

/// A pass over the bounds is due once merges have moved this many rows for each bound since the last pass.
const MOVES_OF_A_BOUND: u64 = 64;

/// There are never too many bounds if there are at most this many. If there are too many, a pass is due once merges
/// have moved any row, because a row that is carried past all bounds delays a read.
const MANY_BOUNDS: usize = 4096;

/// There are too many bounds only if there is more than one for every so many rows of the column. A pass leaves at
/// most half as many bounds as that allows, so most bounds that the next pass meets are new.
const ROWS_OF_A_BOUND: usize = 256;

/// How far the passes over the bounds of a partition have come.
#[derive(Clone, Copy)]
pub(crate) struct Passes {
    /// How many rows merges had moved and pulled when the last pass was made.
    counted: u64,
    /// The key above which the next pass continues, if the last one met as many bounds as a pass may.
    stopped: Option<Key>,
}

impl Passes {
    /// The record before the first pass.
    pub(crate) fn new() -> Passes
        ensures { result ≡ record { counted = 0; stopped = None } }
    {
        Passes {
            counted: 0,
            stopped: None,
        }
    }

    /// The key above which a pass over the store's bounds is due; `None` if no pass is due. With at most `FEW_BOUNDS`
    /// bounds none is due. With more, it is the key at which the last pass stopped; if that met fewer bounds than it
    /// might, or there was none, it is 0 once the bounds cost more than they save (`are_dear`). O(1).
    #[inline(always)]
    pub(crate) fn due(&self, store: &Store) -> Option<Key>
        ensures { result ≡ due_after self.now store.now }
    {
        if store.bounds() <= FEW_BOUNDS {
            return None;
        }
        if self.stopped.is_some() {
            return self.stopped;
        }
        let moves = moves_of(store).saturating_sub(self.counted);
        if are_dear(store, moves) {
            Some(Key::from_number(0))
        } else {
            None
        }
    }

    /// Records that a pass was made. `stopped` is the key at which it stopped because it had met as many bounds as it
    /// might; `None` if it met fewer. O(1).
    pub(crate) fn note(&mut self, store: &Store, stopped: Option<Key>)
        ensures { self.new ≡ record { counted = moves_of store.now; stopped = stopped } }
    {
        self.counted = moves_of(store);
        self.stopped = stopped;
    }
}

/// Whether the bounds cost more than they save, if merges moved `moves` rows since the last pass: there are too many
/// bounds (`are_many`) and any row was moved, or `MOVES_OF_A_BOUND` rows or more were moved for each bound. O(1).
#[inline(always)]
fn are_dear(store: &Store, moves: u64) -> bool
    ensures { result ≡ are_dear moves store.now }
{
    if are_many(store) {
        return 0 < moves;
    }
    moves / MOVES_OF_A_BOUND >= store.bounds() as u64
}

/// Whether there are too many bounds: more than `MANY_BOUNDS`, and more than one for every `ROWS_OF_A_BOUND` rows of
/// the column. O(1).
#[inline(always)]
fn are_many(store: &Store) -> bool
    ensures { result ≡ are_many store.now }
{
    let bounds = store.bounds();
    MANY_BOUNDS < bounds && store.column_len() / ROWS_OF_A_BOUND < bounds
}

/// The number of rows that merges have moved and pulled together; `u64::MAX` if it is greater. O(1).
#[inline(always)]
fn moves_of(store: &Store) -> u64
    ensures { result ≡ moves_of store.now }
{
    let tally = store.tally();
    tally.moved.saturating_add(tally.pulled)
}
