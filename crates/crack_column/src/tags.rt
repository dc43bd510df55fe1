//! The tags of a cracker column, stored as labels and payloads in two lists.
ghost use Rattle.std.specs.Prelude.{◌≡◌, ◌+◌, ◌-◌, ◌<◌, ◌≤◌, ◌^◌, ◌*◌, ◌++◌, ◌∷◌, [], All, MatchOption, OnOk, OnErr};
ghost use Rattle.std.specs.Prelude.{IfErr, length, map, pos, neg_ℤ, ◌≤ℤ◌, slice_index_or, slice_set};
ghost use Rattle.std.specs.List.{between};
ghost use Rattle.crack_arena.specs.Arena.{IsAbsent, IsFirstAt};
ghost use Rattle.crack_arena.specs.Rows.{amount_at};
ghost use Rattle.crack_row.specs.Rows.{total_by, farthest_amount};
ghost use Rattle.crack_column.specs.declared.TheConstants.{MOST_PLACES};
ghost use Rattle.crack_column.specs.Keeps.{unread_in};
ghost use Rattle.crack_column.specs.Places.{memory_of, tag_handle};
ghost use Rattle.crack_column.specs.Inside.{no_tag, label_of, tag_put_at, KnowsRow, TurnsTags, SiftsTags};

use crate::tag::{self, Tag, with_payload};
use crack_arena::{Arena, Handle};
use crack_row::{InnerBound, KeyNumber, Payload, Refusal, Row};
use crack_tags::{Label, TagList};
use std::alloc::Global;
use std::marker::Model;

/// Tags, stored in two vectors so that a sum reads only payloads. Contracts see a list of tags.
#[derive(Drop)]
pub(crate) struct Tags {
    labels: Vec<Label>,
    payloads: Vec<Payload>,
}

impl Model for Tags {
    ghost use Rattle.std.specs.Prelude.{◌≡◌, length, min, vec_capacity};
    ghost use Rattle.crack_column.specs.Labels.{TagVector, tags_of};

    ghost Value = { TagVector };

    ghost view = { λ t. record {
      items = tags_of t.labels.items t.payloads.items;
      capacity = min (vec_capacity t.labels) (vec_capacity t.payloads);
    } };

    ghost invariant = { λ t. length t.payloads.items ≡ length t.labels.items };
}

impl Tags {
    /// Makes an empty list. Takes no memory.
    pub(crate) fn new(alloc: Global) -> Tags
        ensures items { result.items ≡ [] }
        ensures capacity { result.capacity ≡ 0 }
    {
        Tags {
            labels: Vec::new(alloc),
            payloads: Vec::new(alloc),
        }
    }

    /// Takes over the labels and payloads of a list. O(1), takes no memory.
    pub(crate) fn of(rows: TagList) -> Tags
        ensures handles { map tag_handle result.items ≡ rows.handles }
        ensures remembered { map memory_of result.items ≡ rows.remembered }
    {
        let (labels, payloads) = rows.into_lists();
        Tags { labels, payloads }
    }

    /// The allocator of the list's memory.
    pub(crate) fn allocator(&self) -> Global {
        *self.labels.allocator()
    }

    /// The number of tags.
    #[inline(always)]
    pub(crate) fn len(&self) -> usize
        ensures value { result ≡ length self.now.items }
        ensures room { length self.now.items ≤ self.now.capacity }
    {
        self.labels.len()
    }

    /// The tag at the place. O(1).
    #[inline(always)]
    pub(crate) fn get(&self, place: usize) -> Tag
        requires { place < length self.now.items }
        ensures { result ≡ slice_index_or self.now.items place no_tag }
    {
        with_payload(self.labels[place], self.payloads[place])
    }

    /// The label at the place: its tag without the payload. O(1).
    #[inline(always)]
    pub(crate) fn label(&self, place: usize) -> Label
        requires { place < length self.now.items }
        ensures { result ≡ label_of (slice_index_or self.now.items place no_tag) }
    {
        self.labels[place]
    }

    /// Replaces the tag at the place. O(1).
    #[inline(always)]
    pub(crate) fn set(&mut self, place: usize, tag: Tag)
        requires { place < length self.old.items }
        ensures { self.new ≡ record self.old { items = slice_set self.old.items place tag } }
    {
        self.labels[place] = tag.label();
        self.payloads[place] = tag.payload;
    }

    /// Makes room for this many more tags. O(1), except for growth. Refused with `OutOfMemory` if no memory is found;
    /// then memory that this call took is freed.
    pub(crate) fn reserve(&mut self, additional: usize) -> Result<(), Refusal>
        ensures items { self.new.items ≡ self.old.items }
        ensures ok { OnOk result (length self.new.items + additional ≤ self.new.capacity) }
        ensures kept { self.old.capacity ≤ self.new.capacity }
        ensures full { OnErr result (self.old.capacity < length self.old.items + additional) }
        ensures err { IfErr result (λ e. e ≡ Refusal.OutOfMemory) }
    {
        let before = self.labels.capacity();
        self.labels.reserve(additional)?;
        if let Err(refused) = self.payloads.reserve(additional) {
            self.labels.shrink_to(before);
            return Err(Refusal::from(refused));
        }
        Ok(())
    }

    /// Appends the tag. There must be room. O(1).
    pub(crate) fn push_reserved(&mut self, tag: Tag)
        requires { length self.old.items < self.old.capacity }
        ensures { self.new ≡ record self.old { items = self.old.items ++ tag ∷ [] } }
    {
        self.labels.push_reserved(tag.label());
        self.payloads.push_reserved(tag.payload);
    }

    /// Replaces the tag at the place, or appends the tag if the place is `len()`. There must be room to append it.
    /// O(1).
    pub(crate) fn put(&mut self, place: usize, tag: Tag)
        requires within { place ≤ length self.old.items }
        requires room { place ≡ length self.old.items → place < self.old.capacity }
        ensures { self.new ≡ record self.old { items = tag_put_at self.old.items place tag } }
    {
        if place < self.len() {
            self.set(place, tag);
        } else {
            self.push_reserved(tag);
        }
    }

    /// Reads the unknown rows of the tags at the places `from..to` from the arena, and reorders these tags so that
    /// those with keys below the bound come first. `unread` is at least the number of unknown rows. Returns the place
    /// of the first tag that isn't below the bound, or `to` if there is none, and how many unknown rows became known.
    /// O(to - from).
    pub(crate) fn crack_between(
        &mut self,
        from: usize,
        to: usize,
        unread: usize,
        bound: InnerBound,
        arena: &Arena<Row>,
    ) -> (usize, usize)
        requires order { from ≤ to }
        requires within { to ≤ length self.old.items }
        requires known { All (KnowsRow arena.now.cells) (between from to self.old.items) }
        requires unread { unread_in (between from to self.old.items) ≤ unread }
        ensures turned { TurnsTags arena.now.cells bound.0 from to self.old.items self.new.items
            result.0 result.1 }
        ensures capacity { self.new.capacity ≡ self.old.capacity }
    {
        let (place, learned) = tag::crack(
            &mut self.labels[from..to],
            &mut self.payloads[from..to],
            unread,
            bound,
            arena,
        );
        (from + place, learned)
    }

    /// Reads the unknown rows of the tags at the places `from..to` from the arena, and reorders these tags so that
    /// those with keys below `low` come first, then those below `high`, and then the others. `unread` is at least the
    /// number of unknown rows. Returns the places where the second and the third part begin, and how many unknown
    /// rows became known. O(to - from).
    pub(crate) fn crack_between_three(
        &mut self,
        from: usize,
        to: usize,
        unread: usize,
        low: InnerBound,
        high: InnerBound,
        arena: &Arena<Row>,
    ) -> ((usize, usize), usize)
        requires order { from ≤ to }
        requires within { to ≤ length self.old.items }
        requires bounds { low.0 ≤ high.0 }
        requires known { All (KnowsRow arena.now.cells) (between from to self.old.items) }
        requires unread { unread_in (between from to self.old.items) ≤ unread }
        ensures low { TurnsTags arena.now.cells low.0 from to self.old.items self.new.items
            result.0.0 result.1 }
        ensures high { TurnsTags arena.now.cells high.0 from to self.old.items self.new.items
            result.0.1 result.1 }
        ensures order { result.0.0 ≤ result.0.1 }
        ensures capacity { self.new.capacity ≡ self.old.capacity }
    {
        let (middle, upper, learned) = tag::crack_three(
            &mut self.labels[from..to],
            &mut self.payloads[from..to],
            unread,
            low,
            high,
            arena,
        );
        ((from + middle, from + upper), learned)
    }

    /// Sifts the tags at the places `from..to` through the tags at the places `start..from`, as `CrackerColumn::sift`
    /// does. Returns how many of the sifted tags have keys below the bound, and how often one of the other tags
    /// moved. O(to - from).
    pub(crate) fn sift_between(
        &mut self,
        start: usize,
        from: usize,
        to: usize,
        bound: KeyNumber,
    ) -> (usize, usize)
        requires order { start ≤ from }
        requires behind { from ≤ to }
        requires within { to ≤ length self.old.items }
        ensures sifts { SiftsTags bound start from to self.old.items self.new.items result.0 result.1 }
        ensures capacity { self.new.capacity ≡ self.old.capacity }
    {
        tag::sift(
            &mut self.labels[start..to],
            &mut self.payloads[start..to],
            from - start,
            bound,
        )
    }

    /// The sum of the payloads of the rows at the places `from..to`. `unread` is at least the number of unknown rows
    /// among them, which are read from the arena. O(to - from).
    pub(crate) fn sum_between(
        &self,
        from: usize,
        to: usize,
        unread: usize,
        arena: &Arena<Row>,
    ) -> i128
        requires order { from ≤ to }
        requires within { to ≤ length self.now.items }
        requires few { to - from ≤ MOST_PLACES }
        requires known { All (KnowsRow arena.now.cells) (between from to self.now.items) }
        requires unread { unread_in (between from to self.now.items) ≤ unread }
        ensures value { result ≡ total_by (λ t. amount_at arena.now.cells (tag_handle t))
            (between from to self.now.items) }
        ensures least { neg_ℤ (pos ((to - from) * farthest_amount)) ≤ℤ result }
        ensures most { result ≤ℤ pos ((to - from) * farthest_amount) }
        ensures small { (neg_ℤ (pos (2 ^ 95)) ≤ℤ result) × (result ≤ℤ pos (2 ^ 95)) }
    {
        tag::sum(
            &self.labels[from..to],
            &self.payloads[from..to],
            unread,
            arena,
        )
    }

    /// The first place of the handle in `from..to`, counted from `from`, or `None` if it isn't there. O(to - from).
    pub(crate) fn find_between(&self, from: usize, to: usize, handle: Handle<Row>) -> Option<usize>
        requires order { from ≤ to }
        requires within { to ≤ length self.now.items }
        ensures { MatchOption result
            (IsAbsent (map tag_handle (between from to self.now.items)) handle)
            (IsFirstAt (map tag_handle (between from to self.now.items)) handle) }
    {
        tag::find(&self.labels[from..to], handle)
    }
}
