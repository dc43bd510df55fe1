//! Ranges of keys between the bounds of a store.
ghost use Rattle.std.specs.Prelude.{◌≡◌, ◌≤◌};
ghost use Rattle.crack_state.specs.Merge.{beyond};

use crate::Store;
use crack_row::KeyRange;

impl Store {
    /// The partition's keys: the range of the keys that rows of the store may have. O(1).
    pub fn keys(&self) -> KeyRange
        ensures { result ≡ self.now.keys }
    {
        self.inside.keys
    }

    /// The keys from a range's high end up to the next bound above it, or to the partition's high end if there is
    /// none. The range must not end above the partition's keys. O(log bounds).
    pub fn keys_beyond(&self, range: KeyRange) -> KeyRange
        requires { range.high ≤ self.now.keys.high }
        ensures { result ≡ beyond self.now range }
    {
        self.recall_invariant();
        let _ = &self.inside;
        let _ = self.inside.keys.high();
        let low = range.high();
        let high = self.next_bound(low);
        match KeyRange::between(low, high) {
            Ok(keys) => keys,
            Err(_) => unreachable!(),
        }
    }
}
