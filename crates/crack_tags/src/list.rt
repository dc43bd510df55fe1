//! Handles, with what is remembered of their rows, stored as labels and payloads in two lists.
ghost use Rattle.std.specs.Prelude.{◌≡◌, ◌+◌, ◌<◌, ◌≤◌, ◌++◌, ◌∷◌, [], OnOk, IfErr, length, take, min};
ghost use Rattle.std.specs.Prelude.{slice_index_or, slice_set};
ghost use Rattle.crack_arena.specs.Arena.{no_handle};
ghost use Rattle.crack_arena.specs.Memories.{nothing};
ghost use Rattle.crack_tags.specs.Tags.{handles_of, memories_of, moved_down};

use crate::Label;
use crack_arena::{Handle, Remembered};
use crack_row::{KeyNumber, Payload, Refusal, Row};
use std::alloc::Global;
use std::marker::Model;
use std::mem;

/// Handles, each with what is remembered of its row, stored as a cracker column stores them: so a column can take the
/// lists over as they are. Contracts see a list of handles and a list of memories, of the same length.
#[derive(Drop)]
pub struct TagList {
    labels: Vec<Label>,
    payloads: Vec<Payload>,
}

impl Model for TagList {
    ghost use Rattle.std.specs.Prelude.{◌≡◌, length, min, vec_capacity};
    ghost use Rattle.crack_tags.specs.Tags.{Tagged, handles_of, memories_of};

    ghost Value = { Tagged };

    ghost view = { λ t. record {
      handles = handles_of t.labels.items;
      remembered = memories_of t.labels.items t.payloads.items;
      capacity = min (vec_capacity t.labels) (vec_capacity t.payloads);
    } };

    ghost invariant = { λ t. length t.payloads.items ≡ length t.labels.items };
}

impl TagList {
    /// Makes an empty list. O(1), takes no memory.
    pub fn new(alloc: Global) -> TagList
        ensures { result ≡ record { handles = []; remembered = []; capacity = 0 } }
    {
        TagList {
            labels: Vec::new(alloc),
            payloads: Vec::new(alloc),
        }
    }

    /// Takes the list, and leaves an empty one in its place. O(1), takes no memory.
    pub fn take(&mut self) -> TagList
        ensures taken { result ≡ self.old }
        ensures left { self.new ≡ record { handles = []; remembered = []; capacity = 0 } }
    {
        let alloc = *self.labels.allocator();
        mem::replace(self, TagList::new(alloc))
    }

    /// The labels and the payloads, as two lists of the same length. O(1).
    pub fn into_lists(self) -> (Vec<Label>, Vec<Payload>)
        ensures handles { handles_of result.0.items ≡ self.handles }
        ensures remembered { memories_of result.0.items result.1.items ≡ self.remembered }
        ensures beside { length result.1.items ≡ length result.0.items }
    {
        (self.labels, self.payloads)
    }

    /// The number of handles. O(1).
    #[inline(always)]
    pub fn len(&self) -> usize
        ensures value { result ≡ length self.now.handles }
        ensures beside { length self.now.remembered ≡ length self.now.handles }
    {
        self.labels.len()
    }

    /// The number of handles that fit in the memory that was taken, including the list's handles. O(1).
    #[inline(always)]
    pub fn capacity(&self) -> usize
        ensures { result ≡ self.now.capacity }
    {
        self.labels.capacity().min(self.payloads.capacity())
    }

    /// The handle at the spot, counted from 0. O(1).
    #[inline(always)]
    pub fn handle(&self, spot: usize) -> Handle<Row>
        requires { spot < length self.now.handles }
        ensures { result ≡ slice_index_or self.now.handles spot no_handle }
    {
        self.labels[spot].handle
    }

    /// The key that is remembered of the row at the spot, or `UNKNOWN_KEY` if none is. O(1).
    #[inline(always)]
    pub fn key(&self, spot: usize) -> KeyNumber
        requires { spot < length self.now.handles }
        ensures { result ≡ (slice_index_or self.now.remembered spot nothing).key }
    {
        self.labels[spot].key
    }

    /// The key and payload that are remembered of the row at the spot. O(1).
    #[inline(always)]
    pub fn memory(&self, spot: usize) -> Remembered
        requires { spot < length self.now.handles }
        ensures { result ≡ slice_index_or self.now.remembered spot nothing }
    {
        Remembered::new(self.labels[spot].key, self.payloads[spot])
    }

    /// Replaces what is remembered of the row at the spot by `memory`. O(1).
    #[inline(always)]
    pub fn remember(&mut self, spot: usize, memory: Remembered)
        requires { spot < length self.old.handles }
        ensures { self.new ≡ record self.old { remembered = slice_set self.old.remembered spot memory } }
    {
        let handle = self.labels[spot].handle;
        self.labels[spot] = Label {
            key: memory.key(),
            handle,
        };
        self.payloads[spot] = memory.payload();
    }

    /// Copies the handle at `spot`, and what is remembered of its row, to the spot `low`. What was at `low` is
    /// dropped. O(1).
    #[inline(always)]
    pub fn move_down(&mut self, low: usize, spot: usize)
        requires low { low < length self.old.handles }
        requires spot { spot < length self.old.handles }
        ensures { self.new ≡ moved_down low spot self.old }
    {
        self.labels[low] = self.labels[spot];
        self.payloads[low] = self.payloads[spot];
    }

    /// Appends the handle, with what is remembered of its row. There must be room for it. O(1), takes no memory.
    #[inline(always)]
    pub fn push_reserved(&mut self, handle: Handle<Row>, memory: Remembered)
        requires { length self.old.handles < self.old.capacity }
        ensures { self.new ≡ record self.old {
          handles = self.old.handles ++ handle ∷ [];
          remembered = self.old.remembered ++ memory ∷ [];
        } }
    {
        self.labels.push_reserved(Label {
            key: memory.key(),
            handle,
        });
        self.payloads.push_reserved(memory.payload());
    }

    /// Removes the handles after the first `len`, if there are more. Frees no memory. O(1).
    pub fn truncate(&mut self, len: usize)
        ensures { self.new ≡ record self.old {
          handles = take len self.old.handles;
          remembered = take len self.old.remembered;
        } }
    {
        self.labels.truncate(len);
        self.payloads.truncate(len);
    }

    /// Makes room for this many more handles. O(1), except for growth. Refused with `OutOfMemory` if no memory is
    /// found; then the handles are unchanged.
    pub fn reserve(&mut self, additional: usize) -> Result<(), Refusal>
        ensures handles { self.new.handles ≡ self.old.handles }
        ensures remembered { self.new.remembered ≡ self.old.remembered }
        ensures ok { OnOk result (length self.new.handles + additional ≤ self.new.capacity) }
        ensures kept { self.old.capacity ≤ self.new.capacity }
        ensures err { IfErr result (λ e. e ≡ Refusal.OutOfMemory) }
    {
        self.labels.reserve(additional)?;
        self.payloads.reserve(additional)?;
        Ok(())
    }

    /// Frees memory that isn't needed for `len` handles, or for the list's handles if they are more. Memory that the
    /// allocator doesn't take back stays. O(handles).
    pub fn shrink_to(&mut self, len: usize)
        ensures handles { self.new.handles ≡ self.old.handles }
        ensures remembered { self.new.remembered ≡ self.old.remembered }
        ensures lower { min len self.old.capacity ≤ self.new.capacity }
    {
        self.labels.shrink_to(len);
        self.payloads.shrink_to(len);
    }
}
