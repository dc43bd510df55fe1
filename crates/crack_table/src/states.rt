//! The state of each place of a partition.
ghost use Rattle.std.specs.Prelude.{◌≡◌, ◌<◌, ℕ, length, replicate, IfOk, slice_get, slice_set, Some, MatchOption};
ghost use Rattle.crack_table.specs.declared.states.PlaceState.{PlaceState};
ghost use Rattle.crack_table.specs.declared.states.PlaceState.TheVariants.{Unnamed, Met};
ghost use Rattle.crack_table.specs.Coverage.{IsOpenIn, next_state};

use std::alloc::{AllocError, Global};
use std::marker::Model;

/// How the receipts so far name a place.
#[derive(Clone, Copy, PartialEq, Eq, Debug, Drop)]
pub(crate) enum PlaceState {
    /// No receipt names the place.
    Unnamed,
    /// One receipt names it, and holds the entry there.
    Met,
    /// One names it with a wrong entry, or several name it.
    Failed,
}

/// The states of a partition's places. Contracts see the list.
#[derive(Drop)]
pub(crate) struct PlaceStates {
    states: Vec<PlaceState>,
}

impl Model for PlaceStates {
    ghost use Rattle.std.specs.Prelude.{List};
    ghost use Rattle.crack_table.specs.declared.states.PlaceState.{PlaceState};

    ghost Value = { List PlaceState };

    ghost view = { λ r. r.states.items };
}

impl PlaceStates {
    /// The states of `count` places that no receipt names. O(places). Refused if no memory is found.
    pub(crate) fn new(alloc: Global, count: usize) -> Result<PlaceStates, AllocError>
        ensures { IfOk result (λ r. r ≡ replicate count Unnamed) }
    {
        let states = vec![in alloc; PlaceState::Unnamed; count]?;
        Ok(PlaceStates { states })
    }

    /// Changes a place's state after one more receipt names the place: to `Met` if it was `Unnamed` and `right` is
    /// true, else to `Failed`. `right` is whether the receipt holds the entry there. O(1).
    pub(crate) fn update(&mut self, place: usize, right: bool)
        requires { place < length self.old }
        ensures { (m : PlaceState) → slice_get self.old place ≡ Some m → self.new ≡ slice_set self.old place
            (next_state m right) }
    {
        self.states[place] = match self.states[place] {
            PlaceState::Unnamed if right => PlaceState::Met,
            _ => PlaceState::Failed,
        };
    }

    /// The first place whose state isn't `Met`; `None` if all are. O(places).
    pub(crate) fn first_open(&self) -> Option<usize>
        ensures { MatchOption result ((n : ℕ) (m : PlaceState) → slice_get self.now n ≡ Some m → m ≡ Met)
            (IsOpenIn self.now) }
    {
        'places: for (place, state) in self.states.iter().enumerate() {
            if *state != PlaceState::Met {
                return Some(place);
            }
        }
        None
    }
}
