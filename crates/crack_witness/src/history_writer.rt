//! A history writer adds the entries of one partition to the book. The events that a worker has seen are a
//! prefix of the book.
ghost use Rattle.std.specs.Prelude.{◌≡◌, [], ◌∷◌, ◌++◌, true};
ghost use mathlib.Core.List.{IsPrefix};
ghost use Rattle.logbook.specs.Pages.{may_write};
ghost use Rattle.crack_plain.specs.Plain.{AreReplies, no_rows};
ghost use Rattle.crack_witness.specs.Histories.{history_of, AreHistories, AreEmpty};
ghost use Rattle.crack_witness.specs.Keeps.{HasWord, IsOwnerAt};

use crate::event::{Add, Event, Head, Look, Make, Nothing, Open, Token, Update};
use crate::opening::{Naming, Owner};
use crack_row::{Command, Reply};
use logbook::{Pen, Plain};
use std::marker::{Model, PhantomData};

/// The events of the book that its holder, a worker, has seen: a prefix of the book. It has no bytes. Contracts see
/// the events.
#[derive(Drop)]
pub struct SeenEvents<J: Naming> {
    seen: Token,
    of: PhantomData<J>,
}

impl<J: Naming> Model for SeenEvents<J> {
    ghost use Rattle.std.specs.Prelude.{◌≡◌, List};
    ghost use Rattle.crack_witness.specs.declared.event.Event.{Event};
    ghost use Rattle.crack_witness.specs.Histories.{AreHistories};

    ghost Value = { List Event };

    ghost view = { λ f. f.seen.log };

    ghost invariant = { λ f. (f.seen.book ≡ J.book) × AreHistories f.seen.log };
}

impl<J: Naming> SeenEvents<J> {
    /// The events that a token has seen.
    pub(crate) fn new(seen: Token) -> SeenEvents<J>
        requires book { seen.book ≡ J.book }
        requires legal { AreHistories seen.log }
        ensures { result ≡ seen.log }
    {
        SeenEvents {
            seen,
            of: PhantomData,
        }
    }

    /// A copy: the same events. O(1), and takes no memory.
    pub fn copy(&self) -> SeenEvents<J>
        ensures { result ≡ self.now }
    {
        SeenEvents {
            seen: self.seen.again(),
            of: PhantomData,
        }
    }
}

/// An entry that is to be added to the book, and the pen for the partition's entry after it.
#[derive(Drop)]
pub(crate) struct NewEntry<'a, J: Naming> {
    part: u32,
    worker: u32,
    command: &'a Command,
    reply: &'a Reply,
    next: &'a Pen,
    word: &'a Head,
    of: PhantomData<J>,
}

impl<'a, J: Naming> Plain<NewEntry<'a, J>, Event, u64> for Add {
    ghost use Rattle.std.specs.Prelude.{None, Some};

    ghost ask = { λ a. record {
      owner = J.owner a.part;
      next = a.next.now.nib.key;
      word = a.word.now.key;
      entry = Some (record { worker = a.worker; command = a.command.now; reply = a.reply.now });
    } };

    ghost state = { λ a. None };
}

/// A history writer, which adds the entries of one partition to the book. Its pen is the right to add the next
/// one. Contracts see the partition's number, and the events that the history writer has seen.
#[derive(Drop)]
pub(crate) struct HistoryWriter<J: Naming> {
    part: u32,
    word: Head,
    pen: Pen,
    seen: Token,
    of: PhantomData<J>,
}

impl<J: Naming> Model for HistoryWriter<J> {
    ghost use Rattle.crack_witness.specs.Histories.{AreHistories};
    ghost use Rattle.crack_witness.specs.Rules.{HistoryWriterState};
    ghost use Rattle.crack_witness.specs.Keeps.{IsHistoryWriter};

    ghost Value = { HistoryWriterState };

    ghost view = { λ s. record { part = s.part; log = s.seen.log } };

    ghost invariant = { λ s. IsHistoryWriter J.book (J.owner s.part) s.word s.pen.book s.pen.nib.key s.pen.nib.right
        s.seen.book s.seen.log × AreHistories s.seen.log };
}

impl<J: Naming> HistoryWriter<J> {
    /// The history writer of partition `part`, which has no entries, made of the partition's owner.
    pub(crate) fn new(part: u32, owner: Owner) -> HistoryWriter<J>
        requires { IsOwnerAt J.book J.owner part owner }
        ensures part { result.part ≡ part }
        ensures empty { history_of (J.owner part) result.log ≡ [] }
    {
        let Owner { word, pen, seen } = owner;
        HistoryWriter {
            part,
            word,
            pen,
            seen,
            of: PhantomData,
        }
    }

    /// The number of the history writer's partition.
    pub(crate) fn part(&self) -> u32
        ensures part { result ≡ self.now.part }
        ensures legal { AreHistories self.now.log }
    {
        self.part
    }

    /// Adds an entry to the book: a worker's number, its command and the reply. The entry follows all events that the
    /// history writer has seen and those of `me`, which the worker has seen; afterwards the history writer and the
    /// worker have both seen it. O(1): two steps on the partition's word.
    pub(crate) fn write(
        &mut self,
        me: &mut SeenEvents<J>,
        worker: u32,
        command: &Command,
        reply: &Reply,
    )
        requires { AreReplies no_rows (history_of (J.owner self.old.part) self.old.log ++ record {
          worker = worker;
          command = command.now;
          reply = reply.now;
        } ∷ []) }
        ensures part { self.new.part ≡ self.old.part }
        ensures seen { me.new ≡ self.new.log }
        ensures begins { IsPrefix self.old.log self.new.log × IsPrefix me.old self.new.log }
        ensures history { history_of (J.owner self.old.part) self.new.log ≡ history_of (J.owner self.old.part)
            self.old.log ++ record { worker = worker; command = command.now; reply = reply.now } ∷ [] }
        ensures before { IsPrefix (history_of (J.owner self.old.part) me.old) (history_of (J.owner self.old.part)
            self.old.log) }
        ensures legal { AreHistories self.new.log }
    {
        let next = fresh(&self.word, &self.seen);
        let mut token = self.seen.again();
        token.learn(&me.seen);
        let asked = NewEntry::<J> {
            part: self.part,
            worker,
            command,
            reply,
            next: &next,
            word: &self.word,
            of: PhantomData,
        };
        let mut offer: Update = token.plain::<Nothing, NewEntry<J>, Add>(&asked);
        self.word
            .compare_exchange::<Add, Nothing>(0, 0, &mut token, &mut offer, &mut self.pen);
        self.pen = next;
        self.seen = token.again();
        me.seen = token;
    }

    /// States that the partition's entries in `seen_events` are a prefix of its history, as the history writer has
    /// written it. Changes nothing. O(1): a step on the partition's word.
    pub(crate) fn covers(&mut self, seen_events: &SeenEvents<J>)
        ensures same { self.new ≡ self.old }
        ensures begins { IsPrefix (history_of (J.owner self.old.part) seen_events.now) (history_of (J.owner
            self.old.part) self.old.log) }
    {
        let mut token = self.seen.again();
        token.learn(&seen_events.seen);
        let mut offer: Update = token.plain::<Nothing, Head, Open>(&self.word);
        self.word
            .compare_exchange::<Look, Nothing>(0, 0, &mut token, &mut offer, &mut self.pen);
    }
}

/// Makes a pen, the right to add one more entry, by one step on the partition's word. `seen`, the events that the
/// caller has seen, must have one with that word. O(1).
fn fresh(word: &Head, seen: &Token) -> Pen
    requires { (word.now.tracked ≡ true) × (seen.now.book ≡ word.now.book) × HasWord word.now.key seen.now.log }
    ensures { (result.book ≡ word.now.book) × (result.nib.right ≡ may_write) }
{
    let mut token = seen.again();
    let mut offer: Update = token.plain::<Nothing, Head, Open>(word);
    let mut pen = token.no_pen();
    word.compare_exchange::<Make, Nothing>(0, 0, &mut token, &mut offer, &mut pen);
    let _spare = Head::tracked(0, &mut pen);
    pen
}
