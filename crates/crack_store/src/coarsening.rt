//! How a store forgets bounds.
ghost use Rattle.std.specs.Prelude.{◌≡◌, length, IfNone, IfSome};
ghost use Rattle.crack_index.specs.Marks.{HasBound, removed};
ghost use Rattle.crack_index.specs.Passes.{pass_above, next_few};

use crate::Store;
use crack_index::Pass;
use crack_row::{InnerBound, Key};

impl Store {
    /// A pass over at most `bounds` of the bounds above a key, the lowest first. It finds each bound whose two pieces,
    /// the one below it and the one above it, have at most `rows` rows together. O(log bounds).
    pub fn pass_after(&self, key: Key, rows: usize, bounds: usize) -> Pass
        ensures { result ≡ pass_above key.0 rows bounds self.now.marks }
    {
        self.inside.index.pass_after(key, rows, bounds)
    }

    /// Removes from the index the next bound that the pass finds, and returns it; `None`, with nothing removed, at the
    /// end of the pass. Moves no row. Takes no memory. O(log bounds + bounds that the pass meets).
    pub fn forget_few(&mut self, pass: &mut Pass) -> Option<InnerBound>
        ensures found { (result, pass.new) ≡ next_few (length self.old.column) pass.old self.old.marks }
        ensures there { IfSome result (λ b. HasBound self.old.marks b.0) }
        ensures forgotten { IfSome result (λ b. self.new ≡ record self.old { marks = removed b.0 self.old.marks }) }
        ensures none { IfNone result (self.new ≡ self.old) }
    {
        let len = self.inside.column.len();
        self.inside.index.remove_few(pass, len)
    }
}
