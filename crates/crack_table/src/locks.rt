//! Putting witnessed partitions into locks, and taking them out.
ghost use Rattle.std.specs.Prelude.{◌≡◌, ◌≤◌, length, vec_len, vec_capacity};

use crack_witness::{Naming, Witnessed};
use std::sync::Mutex;

/// Moves the partitions out of their locks into `parts`, in order, and leaves `locks` empty. `parts` must be empty and
/// have room for them.
pub(crate) fn unlock<J: Naming>(locks: &mut Vec<Mutex<Witnessed<J>>>, parts: &mut Vec<Witnessed<J>>)
    requires empty { vec_len parts.old ≡ 0 }
    requires room { vec_len locks.old ≤ vec_capacity parts.old }
    ensures parts { length parts.new.items ≡ vec_len locks.old }
    ensures locks { (vec_len locks.new ≡ 0) × (vec_capacity locks.new ≡ vec_capacity locks.old) }
{
    'locks: while let Some(lock) = locks.pop() {
        parts.push_reserved(lock.into_inner());
    }
    parts.reverse();
}

/// Moves the partitions into new locks, in order, and leaves `parts` empty. `locks` must be empty and have room for
/// them, so this takes no memory.
pub(crate) fn lock<J: Naming>(parts: &mut Vec<Witnessed<J>>, locks: &mut Vec<Mutex<Witnessed<J>>>)
    requires empty { vec_len locks.old ≡ 0 }
    requires room { length parts.old.items ≤ vec_capacity locks.old }
    ensures { vec_len locks.new ≡ length parts.old.items }
{
    parts.reverse();
    'parts: while let Some(part) = parts.pop() {
        locks.push_reserved(Mutex::new(part));
    }
}
