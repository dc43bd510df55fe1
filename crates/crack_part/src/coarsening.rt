//! Bounds that a partition forgets under `Policy::Auto`.
ghost use Rattle.std.specs.Prelude.{◌≡◌, length, Some};
ghost use Rattle.crack_plain.specs.Plain.{PlainState};
ghost use Rattle.crack_part.specs.Forgetting.{coarsened, due_by, known_after, most_met, noted};
ghost use Rattle.crack_part.specs.KnownSums.{KnowsSums};

use crate::known::KnownSums;
use crate::passes::Passes;
use crack_row::{Key, Policy};
use crack_store::Store;

/// A bound is forgotten if the two pieces beside it have at most this many rows together.
const FEW_ROWS: usize = 1024;

/// A pass meets one bound of this many. A read waits for the pass before it, and so do others that want the lock.
const BOUNDS_TO_ONE_MET: usize = 128;

/// A pass meets at least this many bounds, if so many are left. That takes about 10 microseconds.
const LEAST_MET: usize = 32;

/// Under `Policy::Auto`, makes a pass over the store's bounds if one is due (`Passes::due`): it forgets some of them,
/// and for each joins the known sums of the two pieces beside it. Does nothing under the other policies. Moves no row.
/// Takes no memory. O(1) without a pass, else O(log bounds) for each bound that it meets (`most_met`).
#[inline(always)]
pub(crate) fn coarsen(store: &mut Store, passes: &mut Passes, known: &mut KnownSums, policy: Policy)
    ensures coarse { store.new ≡ coarsened (due_by policy passes.old store.old) store.old }
    ensures noted { passes.new ≡ noted (due_by policy passes.old store.old) store.old passes.old }
    ensures joins { known.new ≡ known_after (due_by policy passes.old store.old) store.old known.old }
    ensures knows { (plain : PlainState) → KnowsSums known.old plain → KnowsSums known.new plain }
{
    match policy {
        Policy::Auto => {
            if let Some(key) = passes.due(store) {
                forget_after(store, passes, known, key);
            }
        }
        _ => {}
    }
}

/// Makes a pass over at most `most_met` of the bounds above `key`: forgets those whose two pieces have at most
/// `FEW_ROWS` rows together, joins the known sums of their pieces, and records in `passes` where it stopped.
#[inline(never)]
fn forget_after(store: &mut Store, passes: &mut Passes, known: &mut KnownSums, key: Key)
    ensures coarse { store.new ≡ coarsened (Some key) store.old }
    ensures noted { passes.new ≡ noted (Some key) store.old passes.old }
    ensures joins { known.new ≡ known_after (Some key) store.old known.old }
    ensures knows { (plain : PlainState) → KnowsSums known.old plain → KnowsSums known.new plain }
{
    let mut pass = store.pass_after(key, FEW_ROWS, most_met(store));
    'bounds: while let Some(bound) = store.forget_few(&mut pass) {
        known.join(bound);
    }
    passes.note(store, pass.stopped());
}

/// The most bounds that a pass over a store's bounds meets: one of `BOUNDS_TO_ONE_MET`, but at least `LEAST_MET`. O(1).
fn most_met(store: &Store) -> usize
    ensures { result ≡ most_met (length store.now.marks) }
{
    (store.bounds() / BOUNDS_TO_ONE_MET).max(LEAST_MET)
}
