//! What a lock holds: a partition, and the history writer of its history.
ghost use Rattle.std.specs.Prelude.{◌≡◌, ◌⊎◌, ◌+◌, ◌<◌, ◌≤◌, [], ◌∷◌, ◌++◌, length, vec_len, IfOk, IfErr, IfSome};
ghost use Rattle.std.specs.Prelude.{IsTrue, OnErr, OnOk, Err, None, ◌≢◌, ◌↔◌, ◌^◌, slice_index_or};
ghost use mathlib.Core.List.{IsPrefix};
ghost use Rattle.crack_plain.specs.Past.{checkpointed_past, no_past, state_after, with_entry};
ghost use Rattle.std.specs.Prelude.{MatchOption, Some};
ghost use Rattle.crack_plain.specs.Plain.{IsSmall, accepted_of, reply_to};
ghost use Rattle.crack_part.specs.Parts.{IsSound, IsFaithful, state_of, table_of, checkpointed_part, Serves, Spares};
ghost use Rattle.crack_part.specs.Refusals.{refusal_of};
ghost use Rattle.crack_part.specs.Upkeep.{answered};
ghost use Rattle.crack_witness.specs.Audits.{listed, and_one};
ghost use Rattle.crack_witness.specs.Histories.{history_of, calls_by, AreHistories, IsPastOf, upkept_past};
ghost use Rattle.crack_witness.specs.Witnesses.{IsWhole, IsNewAt, IsInStep, MayRefuseIt, HasTotals, past_of};
ghost use Rattle.crack_witness.specs.Keeps.{IsOwnerAt};

use crate::history_writer::{HistoryWriter, SeenEvents};
use crate::listing::{apply_listed, list_for};
use crate::opening::{Naming, Owner};
use crate::receipt::Receipt;
use crack_part::Partition;
use crack_row::{Command, Entry, Policy, Refusal, Reply};
use std::alloc::{AllocError, Global};
use std::marker::Model;

/// A partition, the history writer of its history since it was opened, and the number of each worker's
/// entries there. The history has no bytes, except the list of an audit, which grows by 80 bytes for each entry.
/// Contracts see the partition, its number, the events that the history writer has seen, and that list.
pub struct Witnessed<J: Naming> {
    partition: Partition,
    history_writer: HistoryWriter<J>,
    answered: Vec<u64>,
    entries: Option<Vec<Entry>>,
}

// Written out so that the crates above call this function and prove nothing about the fields.
impl<J: Naming> Drop for Witnessed<J> {
    /// Drops each field.
    fn drop(self) {
        let Witnessed {
            partition,
            history_writer,
            answered,
            entries,
        } = self;
        drop(partition);
        drop(history_writer);
        drop(answered);
        drop(entries);
    }
}

impl<J: Naming> Model for Witnessed<J> {
    ghost use Rattle.std.specs.Prelude.{◌≡◌, ◌<◌, length, All, IfSome};
    ghost use Rattle.crack_row.specs.declared.command.Entry.{Entry};
    ghost use Rattle.crack_part.specs.Parts.{table_of};
    ghost use Rattle.crack_witness.specs.Audits.{listed};
    ghost use Rattle.crack_witness.specs.Histories.{history_of, IsPastOf};
    ghost use Rattle.crack_witness.specs.Witnesses.{WitnessedState};
    ghost use Rattle.crack_witness.specs.Keeps.{AreCounts, AreWithin};

    ghost Value = { WitnessedState };

    ghost view = { λ w. record {
      part = w.history_writer.part;
      log = w.history_writer.log;
      held = w.partition;
      workers = length w.answered.items;
      entries = listed w.entries;
    } };

    ghost invariant = { λ w. IsPastOf (history_of (J.owner w.history_writer.part) w.history_writer.log) (table_of
        w.partition) × AreCounts w.answered.items (history_of (J.owner w.history_writer.part) w.history_writer.log) ×
        All (λ (e : Entry). e.worker < length w.answered.items) (history_of (J.owner w.history_writer.part)
        w.history_writer.log) × IfSome (listed w.entries) (λ entries. entries ≡ history_of (J.owner
        w.history_writer.part) w.history_writer.log) × AreWithin w.partition.keys (history_of (J.owner
        w.history_writer.part) w.history_writer.log) };
}

impl<J: Naming> Witnessed<J> {
    /// The partition with number `part`, which has accepted no command, with its history writer, made of its owner,
    /// and a count of entries for each worker; with an audit also an empty list of its entries. Refused if no memory
    /// is found.
    pub(crate) fn new(
        alloc: Global,
        partition: Partition,
        part: u32,
        owner: Owner,
        workers: u32,
        is_audited: bool,
    ) -> Result<Witnessed<J>, AllocError>
        requires owner { IsOwnerAt J.book J.owner part owner }
        requires new { IsPastOf [] (table_of partition) }
        ensures { IfOk result (IsNewAt J.owner workers is_audited part partition) }
    {
        match vec![in alloc; 0u64; workers as usize] {
            Ok(answered) => Ok(Witnessed {
                partition,
                history_writer: HistoryWriter::new(part, owner),
                answered,
                entries: list_for(alloc, is_audited),
            }),
            Err(error) => {
                drop(owner);
                drop(partition);
                Err(error)
            }
        }
    }

    /// The partition's number. O(1).
    pub fn part(&self) -> u32
        ensures { result ≡ self.now.part }
    {
        self.history_writer.part()
    }

    /// The partition itself, to be read. O(1).
    pub fn partition(&self) -> &Partition
        ensures { result.now ≡ self.now.held }
    {
        &self.partition
    }

    /// The number of workers whose entries are counted. O(1).
    pub fn workers(&self) -> usize
        ensures { result ≡ self.now.workers }
    {
        self.answered.len()
    }

    /// The list of the partition's entries since it was opened; `None` without an audit. O(1).
    pub fn entries(&self) -> Option<&[Entry]>
        ensures { MatchOption result (self.now.entries ≡ None) (λ list. self.now.entries ≡ Some list.now) }
    {
        match &self.entries {
            Some(entries) => Some(entries.as_slice()),
            None => None,
        }
    }

    /// States the invariants of every witnessed partition, and does nothing: each reply in its history is that of the
    /// plain rows after the entries before it, its plain rows are those after the history, it has accepted as many
    /// commands as the history has entries, each entry is by a worker that it counts, the list of an audit is the
    /// history, and the past obeys the keys and the limits. The live rows of the store are the plain rows after the
    /// past, which is empty if the history is.
    pub fn recall_invariant(&self)
        ensures whole { IsWhole J.owner self.now }
        ensures sound { IsSound self.now.held }
        ensures faithful { IsFaithful self.now.held.store self.now.held.next (state_after (past_of J.owner self.now)) }
        ensures fresh { history_of (J.owner self.now.part) self.now.log ≡ [] → past_of J.owner self.now ≡ no_past }
        ensures divided { state_after (past_of J.owner self.now) ≡ state_of self.now.held }
        ensures totals { HasTotals (past_of J.owner self.now) self.now.held }
    {
        let _part = self.history_writer.part();
        self.partition.recall_invariant();
    }

    /// How many of a worker's entries the history has; `None` if the table has no worker with this number. O(1).
    pub fn answered(&self, worker: u32) -> Option<u64>
        ensures some { IfSome result (λ n. (worker < self.now.workers) ×
            (n ≡ length (calls_by worker (history_of (J.owner self.now.part) self.now.log)))) }
        ensures none { worker < self.now.workers → result ≢ None }
    {
        count_at(self.answered.as_slice(), worker)
    }

    /// Answers a command of a worker that has received `count` replies from this partition so far, and adds the entry
    /// to the history. `me` are the events that the worker has seen; afterwards they end with this entry. `receipts`
    /// is the worker's list of receipts, if there is an audit. Costs O(1) beyond `Partition::apply` and takes no
    /// memory; with an audit it adds the entry to the partition's list, and the receipt to the worker's.
    ///
    /// Refused with `StrangeReceipt`, which carries the partition's number and `count`, if the history has another
    /// number of the worker's entries, or the table has no worker with this number: then nothing has changed.
    /// Otherwise refused as `Partition::apply` is, and with `OutOfMemory` also if no memory is found for an audit's
    /// lists: then no entry and no receipt is added.
    pub fn ask(
        &mut self,
        me: &mut SeenEvents<J>,
        receipts: &mut Option<Vec<Receipt>>,
        worker: u32,
        count: u64,
        command: Command,
        policy: Policy,
    ) -> Result<Reply, Refusal>
        ensures reply { IfOk result (λ reply. reply ≡ reply_to (state_of self.old.held) command) }
        ensures small { IfOk result IsSmall }
        ensures written { IfOk result (λ reply. history_of (J.owner self.old.part) self.new.log ≡
            history_of (J.owner self.old.part) self.old.log ++ record {
              worker = worker;
              command = command;
              reply = reply;
            } ∷ []) }
        ensures receipts { IfOk result (λ reply. listed receipts.new ≡ and_one (listed receipts.old) (record {
          part = self.old.part;
          position = accepted_of (table_of self.old.held);
          worker = worker;
          command = command;
          reply = reply;
        })) }
        ensures entries { IfOk result (λ reply. self.new.entries ≡ and_one self.old.entries (record {
          worker = worker;
          command = command;
          reply = reply;
        })) }
        ensures divides { IfOk result (λ reply. past_of J.owner self.new ≡ with_entry (upkept_past
            self.old.held.limits (past_of J.owner self.old)) (record {
              worker = worker;
              command = command;
              reply = reply;
            })) }
        ensures table { OnOk result (table_of self.new.held ≡ answered self.old.held.limits (table_of self.old.held)
            command) }
        ensures store { OnOk result (Serves policy self.old.held command self.new.held.store) }
        ensures opened { (self.new.held.keys ≡ self.old.held.keys) × (self.new.held.limits ≡ self.old.held.limits) }
        ensures part { (self.new.part ≡ self.old.part) × (self.new.workers ≡ self.old.workers) }
        ensures seen { OnOk result ((me.new ≡ self.new.log) × AreHistories me.new) }
        ensures before { OnOk result (IsPrefix (history_of (J.owner self.old.part) me.old)
            (history_of (J.owner self.old.part) self.old.log)) }
        ensures begins { IsPrefix me.old me.new × IsPrefix self.old.log self.new.log }
        ensures in_step { OnOk result (IsInStep J.owner self.old worker count) }
        ensures few { OnOk result (count < 2 ^ 41) }

        ensures strange { (IsInStep J.owner self.old worker count → ⊥) →
            (result ≡ Err (Refusal.StrangeReceipt self.old.part count)) × (self.new ≡ self.old) }
        ensures err { OnErr result ((self.new.log ≡ self.old.log) × (table_of self.new.held ≡ table_of self.old.held) ×
            (me.new ≡ me.old)) }
        ensures unlisted { OnErr result ((self.new.entries ≡ self.old.entries) ×
            (listed receipts.new ≡ listed receipts.old)) }
        ensures spared { OnErr result (Spares policy self.old.held command self.new.held.store) }
        ensures refused { IsInStep J.owner self.old worker count → IfSome (refusal_of self.old.held command) (λ e.
            (result ≡ Err e) × (self.new ≡ self.old)) }
        ensures causes { IfErr result (MayRefuseIt J.owner self.old worker count command) }
        ensures memory { IsInStep J.owner self.old worker count → refusal_of self.old.held command ≡ None →
            IfErr result (λ e. e ≡ Refusal.OutOfMemory) }
    {
        let part = self.history_writer.part();
        self.partition.recall_invariant();
        if !is_at(self.answered.as_slice(), worker, count) {
            return Err(Refusal::StrangeReceipt {
                part,
                position: count,
            });
        }
        let asked = command;
        let reply = apply_listed(
            &mut self.partition,
            &mut self.entries,
            receipts,
            part,
            worker,
            command,
            policy,
        )?;
        self.history_writer.write(me, worker, &asked, &reply);
        self.answered[worker as usize] = count + 1;
        Ok(reply)
    }

    /// Makes a checkpoint as `Partition::checkpoint` does, at the same cost, and returns how many commands were
    /// answered since the last one. No row changes. The history keeps all its entries, but all of them now belong to
    /// the base. Can't fail.
    pub fn checkpoint(&mut self) -> u64
        ensures since { result ≡ self.old.held.since }
        ensures checkpointed { self.new.held ≡ checkpointed_part self.old.held }
        ensures witness { (self.new.part ≡ self.old.part) × (self.new.log ≡ self.old.log) ×
            (self.new.workers ≡ self.old.workers) × (self.new.entries ≡ self.old.entries) }
        ensures divides { past_of J.owner self.new ≡ checkpointed_past (past_of J.owner self.old) }
    {
        self.partition.checkpoint()
    }

    /// States that the partition's entries in `seen_events`, the events that a worker has seen, are a prefix of its
    /// history. O(1).
    pub fn covers(&mut self, seen_events: &SeenEvents<J>)
        ensures same { self.new ≡ self.old }
        ensures begins { IsPrefix (history_of (J.owner self.old.part) seen_events.now) (history_of (J.owner
            self.old.part) self.old.log) }
    {
        self.history_writer.covers(seen_events);
    }
}

/// The count at the index `place`; `None` if there is no such index. O(1).
pub(crate) fn count_at(counts: &[u64], place: u32) -> Option<u64>
    ensures some { IfSome result (λ n. (place < length counts.now) × (n ≡ slice_index_or counts.now place 0)) }
    ensures none { place < length counts.now → result ≢ None }
{
    if (place as usize) < counts.len() {
        Some(counts[place as usize])
    } else {
        None
    }
}

/// Whether there is a count at the index `place`, and it is `count`.
fn is_at(counts: &[u64], place: u32, count: u64) -> bool
    ensures { IsTrue result ↔ ((place < length counts.now) × (slice_index_or counts.now place 0 ≡ count)) }
{
    (place as usize) < counts.len() && counts[place as usize] == count
}
