//! Opening the book of a table, with an owner for each partition: a number that stands for the partition in the book.
ghost use Rattle.std.specs.Prelude.{◌≡◌, ◌+◌, ◌<◌, ◌≤◌, ◌^◌, [], length, map, All, true, IfOk, vec_len};
ghost use mathlib.Core.List.{IsPrefix};
ghost use Rattle.crack_part.specs.Parts.{Part, table_of};
ghost use Rattle.crack_witness.specs.Histories.{history_of, AreEmpty, IsPastOf};
ghost use Rattle.crack_witness.specs.Witnesses.{AreDistinct, AreNames, OwnersDiffer, AreNewFrom};
ghost use Rattle.crack_witness.specs.Rules.{row, NoneOf};
ghost use Rattle.crack_witness.specs.Keeps.{HasWord, HasOwner, IsNew, AreOwners};

use crate::event::{FirstEvents, Head, Law, Nothing, Open, Token, Update};
use crate::history_writer::SeenEvents;
use crate::witnessed::Witnessed;
use crack_part::Partition;
use logbook::{Pen, Pens, Start};
use std::alloc::{AllocError, Global};
use std::marker::{Brand, Model};

/// The name of a book, which exists only in proofs: which book it is, and the number of each partition's owner in it.
/// A program names a book once, after opening it. The name is a type `J`, the parameter of all that belongs to this
/// book.
pub trait Naming {
    ghost use Rattle.std.specs.Prelude.{ℕ};
    ghost use Rattle.logbook.specs.Pages.{Book};

    ghost book: { Book };

    ghost owner: { ℕ → ℕ };
}

impl Naming for Brand {
    ghost book = { record { number = 0; log_name = 0; cells_name = 0 } };

    ghost owner = { λ part. 0 };
}

/// An owner in a book: what its history writer is made of, for one partition without entries.
#[derive(Drop)]
pub(crate) struct Owner {
    pub(crate) word: Head,
    pub(crate) pen: Pen,
    pub(crate) seen: Token,
}

impl Model for Owner {
    ghost use Rattle.crack_witness.specs.Histories.{AreHistories};
    ghost use Rattle.crack_witness.specs.Rules.{OwnerState};
    ghost use Rattle.crack_witness.specs.Keeps.{IsHistoryWriter};

    ghost Value = { OwnerState };

    ghost view = { λ o. record { book = o.seen.book; id = o.pen.nib.key; log = o.seen.log } };

    ghost invariant = { λ o. IsHistoryWriter o.seen.book o.pen.nib.key o.word o.pen.book o.pen.nib.key o.pen.nib.right
        o.seen.book o.seen.log × AreHistories o.seen.log };
}

impl Owner {
    /// Makes an owner with this word, by one step on the word, which adds the owner's first event to the book. `seen`
    /// has this event afterwards; no event that it had before is the owner's. O(1).
    fn open(word: Head, seen: &mut Token) -> Owner
        requires { (word.tracked ≡ true) × (seen.old.book ≡ word.book) × HasWord word.key seen.old.log }
        ensures book { (result.book ≡ seen.old.book) × (seen.new.book ≡ seen.old.book) }
        ensures empty { history_of result.id result.log ≡ [] }
        ensures fresh { NoneOf result.id seen.old.log }
        ensures known { HasOwner result.id seen.new.log }
        ensures grows { IsPrefix seen.old.log seen.new.log }
    {
        let mut token = seen.again();
        let mut offer: Update = token.plain::<Nothing, Head, Open>(&word);
        let mut pen = token.no_pen();
        word.compare_exchange::<Open, Nothing>(0, 0, &mut token, &mut offer, &mut pen);
        let _spare = Head::tracked(0, &mut pen);
        *seen = token.again();
        Owner {
            word,
            pen,
            seen: token,
        }
    }
}

/// A new book with its owners, which has no name yet. Contracts see the book, and the owners' numbers in it, which
/// exist only in proofs.
#[derive(Drop)]
pub struct Opened {
    seen: Token,
    owners: Vec<Owner>,
}

impl Model for Opened {
    ghost use Rattle.std.specs.Prelude.{◌≡◌, ◌<◌, ◌^◌, length, map, All};
    ghost use Rattle.crack_witness.specs.Histories.{AreEmpty};
    ghost use Rattle.crack_witness.specs.Witnesses.{OpenedState, AreDistinct};
    ghost use Rattle.crack_witness.specs.Rules.{OwnerState};
    ghost use Rattle.crack_witness.specs.Keeps.{IsNew};

    ghost Value = { OpenedState };

    ghost view = { λ o. record {
      book = o.seen.book;
      ids = map (λ (w : OwnerState). w.id) o.owners.items;
    } };

    ghost invariant = { λ o. AreEmpty o.seen.log × All (IsNew o.seen.book) o.owners.items ×
        AreDistinct (map (λ (w : OwnerState). w.id) o.owners.items) × (length o.owners.items < 2 ^ 32) };
}

impl Opened {
    /// Opens a new book with this many owners, one for each partition. Refused if no memory is found. O(owners).
    pub fn new(alloc: Global, count: u32) -> Result<Opened, AllocError>
        ensures count { IfOk result (λ o. length o.ids ≡ count) }
        ensures distinct { IfOk result (λ o. AreDistinct o.ids) }
    {
        let (seen, mut pens) = Token::open_row::<u64, FirstEvents>(
            &0,
            Start::alone(),
            count as usize,
        );
        let mut latest = seen.again();
        let mut owners = Vec::with_capacity(alloc, count as usize)?;
        'owners: for number in 0..count {
            let _ = number;
            owners.push(next_owner(&mut pens, &mut latest))?;
        }
        Ok(Opened { seen, owners })
    }

    /// Gives the book its name `J`. Returns the events that a worker begins with, and the partitions with their
    /// history writers, in order; the partitions must have accepted no command. Each partition counts the entries of
    /// this many workers, and with an audit keeps a list of all its entries. Refused if no memory is found.
    /// O(partitions × workers).
    pub fn witness<J: Naming>(
        self,
        alloc: Global,
        partitions: Vec<Partition>,
        workers: u32,
        is_audited: bool,
    ) -> Result<(SeenEvents<J>, Vec<Witnessed<J>>), AllocError>
        requires names { AreNames J.book J.owner self }
        requires new { All (λ (part : Part). IsPastOf [] (table_of part)) partitions.items }
        requires count { length partitions.items ≡ length self.ids }
        ensures seen_events { IfOk result (λ r. AreEmpty r.0) }
        ensures parts { IfOk result (λ r. AreNewFrom J.owner workers is_audited 0 partitions.items r.1.items) }
        ensures apart { OwnersDiffer J.owner (length partitions.items) }
    {
        let (seen_events, mut owners) = self.named::<J>();
        let mut partitions = partitions;
        let witnessed = witness_each(alloc, &mut owners, &mut partitions, workers, is_audited)?;
        Ok((seen_events, witnessed))
    }

    /// Gives the book its name `J`. Returns the events that a worker begins with, and the owners, in order.
    fn named<J: Naming>(self) -> (SeenEvents<J>, Vec<Owner>)
        requires { AreNames J.book J.owner self }
        ensures owners { AreOwners J.book J.owner result.1.items }
        ensures count { (length result.1.items ≡ length self.ids) × (length result.1.items < 2 ^ 32) }
        ensures seen_events { AreEmpty result.0 }
        ensures apart { OwnersDiffer J.owner (length self.ids) }
    {
        let Opened { seen, owners } = self;
        (SeenEvents::new(seen), owners)
    }
}

/// Makes the next word of a new book, and an owner with it, whose first event `seen` then has. `pens` are the rights
/// to make the book's words, in order, and lose the first.
fn next_owner(pens: &mut Pens, seen: &mut Token) -> Owner
    requires { (0 < pens.old.left) × (pens.old.book ≡ seen.old.book) × IsPrefix (row (pens.old.next + pens.old.left))
        seen.old.log }
    ensures owner { IsNew seen.old.book result }
    ensures rest { (pens.new.book ≡ pens.old.book) × (pens.new.next ≡ pens.old.next + 1) ×
        (pens.new.left + 1 ≡ pens.old.left) }
    ensures book { seen.new.book ≡ seen.old.book }
    ensures fresh { NoneOf result.id seen.old.log }
    ensures known { HasOwner result.id seen.new.log }
    ensures grows { IsPrefix seen.old.log seen.new.log }
{
    let mut pen = pens.take();
    let word = Head::tracked(0, &mut pen);
    Owner::open(word, seen)
}

/// Joins each partition with the history writer of its owner, the one at the same index, and returns them in order.
/// Each partition counts the entries of this many workers, and with an audit keeps a list of its entries. Both lists
/// are emptied. Refused if no memory is found; the lists may then have lost items.
fn witness_each<J: Naming>(
    alloc: Global,
    owners: &mut Vec<Owner>,
    partitions: &mut Vec<Partition>,
    workers: u32,
    is_audited: bool,
) -> Result<Vec<Witnessed<J>>, AllocError>
    requires owners { AreOwners J.book J.owner owners.old.items }
    requires new { All (λ (part : Part). IsPastOf [] (table_of part)) partitions.old.items }
    requires count { (length partitions.old.items ≡ length owners.old.items) × (length owners.old.items < 2 ^ 32) }
    ensures { IfOk result (λ ws. AreNewFrom J.owner workers is_audited 0 partitions.old.items ws.items) }
{
    let mut witnessed = Vec::with_capacity(alloc, owners.len())?;
    'partitions: while let Some(partition) = partitions.pop() {
        let Some(owner) = owners.pop() else {
            unreachable!();
        };
        let number = owners.len() as u32;
        match Witnessed::new(alloc, partition, number, owner, workers, is_audited) {
            Ok(one) => witnessed.push_reserved(one),
            Err(error) => {
                drop(witnessed);
                return Err(error);
            }
        }
    }
    witnessed.reverse();
    Ok(witnessed)
}
