//! A column that holds its row aside in a field.
ghost use Rattle.std.specs.Prelude.{◌≡◌, ◌<◌, length};
ghost use Rattle.crack_column.specs.Column.{first_aside, exchanged_aside};

use crate::CrackerColumn;
use crate::tag::Tag;
use crate::tags::Tags;
use crack_arena::Remembered;
use std::marker::Model;

/// A column that holds the tag of its row aside in a field, the hand, for a walk that exchanges it at place after
/// place: an exchange reads and writes only the place. Contracts see the column.
#[derive(Drop)]
pub struct HeldColumn {
    tags: Tags,
    len: usize,
    /// The number of tags whose rows are unknown, including the tag in hand.
    unread: usize,
    /// The tag of the row in hand. The tag stored after the last place isn't read.
    hand: Tag,
}

impl Model for HeldColumn {
    ghost use Rattle.std.specs.Prelude.{length};
    ghost use Rattle.crack_column.specs.Column.{Column};
    ghost use Rattle.crack_column.specs.Places.{handles_in, remembered_in, room_after, aside_in};
    ghost use Rattle.crack_column.specs.Keeps.{IsHeld};
    ghost use Rattle.crack_column.specs.Held.{tags_with};

    ghost Value = { Column };

    ghost view = { λ c. record {
      handles = handles_in (tags_with c.tags.items c.len c.hand) c.len;
      remembered = remembered_in (tags_with c.tags.items c.len c.hand) c.len;
      room = room_after (length c.tags.items) c.tags.capacity c.len;
      aside = aside_in (tags_with c.tags.items c.len c.hand) c.len;
    } };

    ghost invariant = { λ c. IsHeld c.tags.items c.len c.unread c.hand };
}

impl CrackerColumn {
    /// Takes the column, with its handle aside in hand, and leaves a column without handles in its place. A handle
    /// must be aside. O(1), takes no memory.
    pub fn hold(&mut self) -> HeldColumn
        requires { 0 < length self.old.aside }
        ensures { result ≡ self.old }
    {
        let CrackerColumn { tags, len, unread } = self.take();
        let hand = tags.get(len);
        HeldColumn {
            tags,
            len,
            unread: unread + hand.unread(),
            hand,
        }
    }
}

impl HeldColumn {
    /// Returns the column, with the handle in hand set aside. O(1).
    pub fn release(self) -> CrackerColumn
        ensures { result ≡ self }
    {
        let HeldColumn {
            mut tags,
            len,
            unread,
            hand,
        } = self;
        tags.set(len, hand);
        CrackerColumn {
            tags,
            len,
            unread: unread - hand.unread(),
        }
    }

    /// The number of handles, not counting the one in hand. O(1).
    #[inline(always)]
    pub fn len(&self) -> usize
        ensures { result ≡ length self.now.handles }
    {
        self.len
    }

    /// The slot, or cell number, of the handle in hand. O(1).
    #[inline(always)]
    pub fn slot(&self) -> u32
        ensures { result ≡ (first_aside self.now).handle.slot }
    {
        self.hand.handle.slot()
    }

    /// What is remembered about the row of the handle in hand. O(1).
    #[inline(always)]
    pub fn memory(&self) -> Remembered
        ensures { result ≡ (first_aside self.now).memory }
    {
        self.hand.remembered()
    }

    /// Exchanges the handle in hand with the one at the place, each with what is remembered about its row. O(1).
    /// Reads no row.
    #[inline(always)]
    pub fn exchange(&mut self, place: usize)
        requires { place < length self.old.handles }
        ensures { self.new ≡ exchanged_aside place self.old }
    {
        let there = self.tags.get(place);
        self.tags.set(place, self.hand);
        self.hand = there;
    }
}
