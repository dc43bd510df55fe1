//! The book of a table: the list of all its events, which only grows, which all threads share and which exists only
//! in proofs. This module has the events, the rule that they keep, and the steps that add events. Only a word of 8
//! bytes for each partition exists at run time.
ghost use Rattle.std.specs.Prelude.{◌≡◌};

use crack_row::Entry;
use logbook::{Gain, Offer, Opening, Plain, Play, Rule, Seen, Word};

/// An event of a book: a partition's entry, or its first event, which has none. `owner` is the partition's number in
/// the book, and `word` the key of its word. A book also has cells, which aren't an arena's, each with a flag. `next`
/// is the key of the cell whose flag the partition's next event sets; until then the cell shows that this event is the
/// partition's last one. An event exists only in proofs.
pub struct Event {
    pub owner: u64,
    pub next: u64,
    pub word: u64,
    pub entry: Option<Entry>,
}

/// The rule of the book: what holds of its events and cells between any two steps.
pub struct Law;

impl Rule<Event, u64> for Law {
    ghost use Rattle.std.specs.Prelude.{[]};
    ghost use base.Fml.{ftrue};
    ghost use Rattle.crack_witness.specs.Rules.{IsBookKept};

    ghost holds = { λ cells log. IsBookKept cells log };

    ghost first = { [] };

    ghost hinted = { λ n log. Unit {0} };

    ghost shows = { λ log. [] };

    ghost keeps = { λ names log. ftrue };

    ghost moves = { λ ask before after answer. Unit {0} };
}

/// What a caller gains by a step, besides what it has then seen: nothing.
pub struct Nothing;

impl Gain<Event, u64> for Nothing {
    ghost use base.Fml.{ftrue};

    ghost after = { λ names about answer. ftrue };
}

/// A token: the events of the book that its holder has seen. It has no bytes.
pub(crate) type Token = Seen<Event, u64, Law>;

/// The word of a partition, 8 bytes that always hold 0. A step is an atomic access to a word, which may add an event.
pub(crate) type Head = Word<Event, u64, Law>;

/// An update of the book that runs inside one step.
pub(crate) type Update = Offer<Event, u64, Law, Nothing>;

/// The first events of a new book, one for each word.
pub struct FirstEvents;

impl Opening<u64, Event> for FirstEvents {
    ghost use Rattle.crack_witness.specs.Rules.{row};

    ghost log = { λ count x. row count };
}

/// A step that makes a pen: the right to set the flag of one cell, and so to add the next event of one partition. A
/// pen has no bytes.
pub struct Make;

impl Play<Event, u64> for Make {
    ghost use Rattle.crack_witness.specs.Rules.{Makes};

    ghost then = { Makes };
}

/// A step that makes a pen, and adds the first event of a new owner: of a partition that had no event.
pub struct Open;

impl Play<Event, u64> for Open {
    ghost use Rattle.crack_witness.specs.Rules.{Opens};

    ghost then = { Opens };
}

impl Plain<Head, Event, u64> for Open {
    ghost use Rattle.std.specs.Prelude.{None};
    ghost use Rattle.crack_witness.specs.Rules.{place};

    ghost ask = { λ word. place word.key };

    ghost state = { λ word. None };
}

/// A step that adds an event with an entry.
pub struct Add;

impl Play<Event, u64> for Add {
    ghost use Rattle.crack_witness.specs.Rules.{Adds};

    ghost then = { Adds };
}

/// A step that adds nothing: it shows that an owner has no event after the last one that was seen.
pub struct Look;

impl Play<Event, u64> for Look {
    ghost use Rattle.crack_witness.specs.Rules.{Looks};

    ghost then = { Looks };
}
