//! Visitors of walks over the bounds of an index.
ghost use Rattle.std.specs.Prelude.{ℕ, Bool};
ghost use Rattle.crack_index.specs.declared.mark.Mark.{Mark};

use crate::Mark;

/// The visitor of a walk over the bounds of an index. At each place that has bounds it does one step's work, and
/// returns whether the walk goes on. It has no access to the index. A walk calls it once for each place, and
/// inlines it in its loop: mark `visit` with `#[inline(always)]`.
pub trait Visitor {
    /// The states in which the visitor may be called.
    ghost is_ready: { Self → Type 0 };

    /// The effect of a visit: the state before, the place, the result, and the state after.
    ghost visits: { Self → ℕ → Bool → Self → Type 0 };

    /// Does the work at the place, and returns whether the walk goes on.
    fn visit(&mut self, place: usize) -> bool
        requires { is_ready self.old }
        ensures visits { visits self.old place result self.new }
        ensures ready { is_ready self.new };
}

/// The visitor of a walk over the bounds of an index, from the highest down, that returns how far each bound rises.
/// It has no access to the index.
pub trait Raiser {
    /// The states in which the visitor may be called.
    ghost is_ready: { Self → Type 0 };

    /// The effect of a visit: the state before, the mark, its rise, and the state after.
    ghost rises: { Self → Mark → ℕ → Self → Type 0 };

    /// Does the work at the bound, and returns by how many places the bound moves up.
    fn rise(&mut self, mark: Mark) -> usize
        requires { is_ready self.old }
        ensures rises { rises self.old mark result self.new }
        ensures ready { is_ready self.new };
}

/// The visitor of a walk over the bounds of an index, from the lowest up, that returns the new place of each bound.
/// It has no access to the index.
pub trait Placer {
    /// The states in which the visitor may be called.
    ghost is_ready: { Self → Type 0 };

    /// The effect of a visit: the state before, the mark, its new place, and the state after.
    ghost places: { Self → Mark → ℕ → Self → Type 0 };

    /// Does the work at the bound, and returns the bound's new place.
    fn place(&mut self, mark: Mark) -> usize
        requires { is_ready self.old }
        ensures places { places self.old mark result self.new }
        ensures ready { is_ready self.new };
}
