//! Workers that ask witnessed partitions.
ghost use Rattle.std.specs.Prelude.{◌≡◌, ◌⊎◌, ◌+◌, ◌<◌, ◌≤◌, ◌++◌, ◌∷◌, [], length, sum_by, ℕ, ◌^◌, Some, IfOk, IfErr};
ghost use Rattle.std.specs.Prelude.{OnErr, OnOk, Err, None, IfSome, IsTrue, List, slice_index_or, slice_set};
ghost use mathlib.Core.List.{IsPrefix};
ghost use Rattle.crack_row.specs.declared.command.Entry.{Entry};
ghost use Rattle.crack_plain.specs.Past.{with_entry};
ghost use Rattle.crack_plain.specs.Plain.{IsSmall, accepted_of, reply_to};
ghost use Rattle.crack_part.specs.Parts.{state_of, table_of, Serves, Spares};
ghost use Rattle.crack_part.specs.Refusals.{refusal_of};
ghost use Rattle.crack_part.specs.Upkeep.{answered};
ghost use Rattle.crack_witness.specs.Audits.{and_one};
ghost use Rattle.crack_witness.specs.Histories.{history_of, calls_at, upkept_past, AreHistories, AreEmpty};
ghost use Rattle.crack_witness.specs.Witnesses.{IsInStep, IsGiven, HasJustItsOwn, IsNewWorker};
ghost use Rattle.crack_witness.specs.Witnesses.{KnowsHistory, MayRefuseAt};
ghost use Rattle.crack_witness.specs.Witnesses.{past_of, receipts_in, replies_at, replies_to};

use crate::history_writer::SeenEvents;
use crate::listing::{list_for, reserve};
use crate::opening::Naming;
use crate::receipt::Receipt;
use crate::witnessed::{Witnessed, count_at};
use crack_row::{Command, Policy, Refusal, Reply};
use std::alloc::{AllocError, Global};
use std::marker::Model;

/// A worker of a table: its number, the events of the table's book that it has seen, and the number of its replies
/// from each partition, 8 bytes each; with an audit also its receipts, 96 bytes each. Contracts see the number, the
/// events that it has seen, those that it had seen after its last reply from each partition, the numbers of replies
/// and the receipts.
pub struct Worker<J: Naming> {
    number: u32,
    seen_events: SeenEvents<J>,
    seen_by_part: Vec<SeenEvents<J>>,
    counts: Vec<u64>,
    receipts: Option<Vec<Receipt>>,
}

// Written out so that the crates above call this function and prove nothing about the fields.
impl<J: Naming> Drop for Worker<J> {
    /// Drops each field; the number needs nothing.
    fn drop(self) {
        let Worker {
            number: _,
            seen_events,
            seen_by_part,
            counts,
            receipts,
        } = self;
        drop(seen_events);
        drop(seen_by_part);
        drop(counts);
        drop(receipts);
    }
}

impl<J: Naming> Model for Worker<J> {
    ghost use Rattle.crack_witness.specs.Audits.{listed};
    ghost use Rattle.crack_witness.specs.Witnesses.{WorkerState};
    ghost use Rattle.crack_witness.specs.Keeps.{IsWorker};

    ghost Value = { WorkerState };

    ghost view = { λ w. record {
      worker = w.number;
      seen = w.seen_events;
      seen_by_part = w.seen_by_part.items;
      counts = w.counts.items;
      receipts = listed w.receipts;
    } };

    ghost invariant = { λ w. IsWorker J.owner w.number w.seen_events w.seen_by_part.items w.counts.items (listed
        w.receipts) };
}

impl<J: Naming> Worker<J> {
    /// A worker that has asked nothing yet, with this number, for `parts` partitions. It has seen these events, and
    /// keeps receipts if there is an audit. Refused if no memory is found. O(partitions).
    pub fn new(
        alloc: Global,
        number: u32,
        seen_events: SeenEvents<J>,
        parts: usize,
        is_audited: bool,
    ) -> Result<Worker<J>, AllocError>
        requires empty { AreEmpty seen_events }
        requires few { parts ≤ 64 }
        ensures seen { IfOk result (λ w. w.seen ≡ seen_events) }
        ensures new { IfOk result (IsNewWorker number parts is_audited) }
        ensures none { IfOk result (λ w. replies_to w ≡ 0) }
    {
        let counts = vec![in alloc; 0u64; parts]?;
        let mut seen_by_part = Vec::with_capacity(alloc, parts)?;
        'seen_by_part: for part in 0..parts {
            let _ = part;
            if let Err(e) = seen_by_part.push(seen_events.copy()) {
                return Err(e.into());
            }
        }
        Ok(Worker {
            number,
            seen_events,
            seen_by_part,
            counts,
            receipts: list_for(alloc, is_audited),
        })
    }

    /// The worker's number. O(1).
    pub fn number(&self) -> u32
        ensures { result ≡ self.now.worker }
    {
        self.number
    }

    /// The number of the worker's replies from all partitions. With an audit it has as many receipts.
    /// O(partitions).
    pub fn replies(&self) -> u64
        ensures all { result ≡ replies_to self.now }
        ensures receipts { IfSome self.now.receipts (λ receipts. length receipts ≡ result) }
    {
        sum_of(self.counts.as_slice())
    }

    /// The worker's receipts, in the order in which it asked; empty without an audit. O(1).
    pub fn receipts(&self) -> &[Receipt]
        ensures { result.now ≡ receipts_in self.now }
    {
        match &self.receipts {
            Some(receipts) => receipts.as_slice(),
            None => &[],
        }
    }

    /// Makes room for one receipt if there is an audit. O(1), amortised. Refused if no memory is found.
    pub fn reserve(&mut self) -> Result<(), AllocError>
        ensures { self.new ≡ self.old }
    {
        reserve(&mut self.receipts)
    }

    /// The events of the table's book that the worker has seen. O(1).
    pub fn seen_events(&self) -> &SeenEvents<J>
        ensures { result.now ≡ self.now.seen }
    {
        &self.seen_events
    }

    /// Has a partition, whose number must be `part`, execute a command, and returns the reply. The entry is added to
    /// the partition's history, and the worker has then seen it. Costs O(1) beyond `Partition::apply` and takes no
    /// memory; with an audit it adds the entry to the partition's list, and the receipt to the worker's.
    ///
    /// Refused with `NoSuchPartition` if the worker knows of no partition with this number. Refused with
    /// `StrangeReceipt`, which carries `part` and the number of the worker's replies there, if the partition has
    /// another number, or its history has another number of the worker's entries. Otherwise refused as
    /// `Partition::apply` is, and with `OutOfMemory` also if no memory is found for an audit's lists. After a refusal
    /// the worker has seen no more events, and no entry and no receipt is added.
    pub fn ask(
        &mut self,
        witnessed: &mut Witnessed<J>,
        part: u32,
        command: Command,
        policy: Policy,
    ) -> Result<Reply, Refusal>
        ensures reply { IfOk result (λ reply. reply ≡ reply_to (state_of witnessed.old.held) command) }
        ensures small { IfOk result IsSmall }
        ensures written { IfOk result (λ reply. history_of (J.owner part) witnessed.new.log ≡
            history_of (J.owner part) witnessed.old.log ++ record {
              worker = self.old.worker;
              command = command;
              reply = reply;
            } ∷ []) }
        ensures divides { IfOk result (λ reply. past_of J.owner witnessed.new ≡ with_entry (upkept_past
            witnessed.old.held.limits (past_of J.owner witnessed.old)) (record {
              worker = self.old.worker;
              command = command;
              reply = reply;
            })) }
        ensures given { IfOk result (λ reply. IsGiven J.owner part (record {
          worker = self.old.worker;
          command = command;
          reply = reply;
        }) self.old.seen self.new.seen) }
        ensures mine { IfOk result (λ reply. calls_at J.owner part self.old.worker self.new.seen ≡
            calls_at J.owner part self.old.worker (slice_index_or self.old.seen_by_part part []) ++
            record { worker = self.old.worker; command = command; reply = reply } ∷ []) }
        ensures receipts { IfOk result (λ reply. self.new.receipts ≡ and_one self.old.receipts (record {
          part = part;
          position = accepted_of (table_of witnessed.old.held);
          worker = self.old.worker;
          command = command;
          reply = reply;
        })) }
        ensures entries { IfOk result (λ reply. witnessed.new.entries ≡ and_one witnessed.old.entries (record {
          worker = self.old.worker;
          command = command;
          reply = reply;
        })) }
        ensures count { OnOk result (replies_to self.new ≡ replies_to self.old + 1) }
        ensures seen_by_part { OnOk result (self.new.seen_by_part ≡ slice_set self.old.seen_by_part part
            self.new.seen) }
        ensures legal { OnOk result (AreHistories self.new.seen) }
        ensures whole { OnOk result ((witnessed.old.part ≡ part) × (self.new.seen ≡ witnessed.new.log)) }
        ensures table { OnOk result (table_of witnessed.new.held ≡ answered witnessed.old.held.limits
            (table_of witnessed.old.held) command) }
        ensures store { OnOk result (Serves policy witnessed.old.held command witnessed.new.held.store) }
        ensures opened { (witnessed.new.held.keys ≡ witnessed.old.held.keys) × (witnessed.new.held.limits ≡
            witnessed.old.held.limits) × (witnessed.new.part ≡ witnessed.old.part) }
        ensures seen { IsPrefix self.old.seen self.new.seen × IsPrefix witnessed.old.log witnessed.new.log }
        ensures worker { self.new.worker ≡ self.old.worker }
        ensures nowhere { length self.old.seen_by_part ≤ part → result ≡ Err Refusal.NoSuchPartition }
        ensures strange { part < length self.old.seen_by_part → (KnowsHistory J.owner self.old part witnessed.old → ⊥) →
            (result ≡ Err (Refusal.StrangeReceipt part (replies_at self.old part))) × (witnessed.new ≡ witnessed.old) }
        ensures refused { part < length self.old.seen_by_part → KnowsHistory J.owner self.old part witnessed.old →
            IfSome (refusal_of witnessed.old.held command) (λ e. (result ≡ Err e) ×
            (witnessed.new ≡ witnessed.old)) }
        ensures memory { part < length self.old.seen_by_part → KnowsHistory J.owner self.old part witnessed.old →
            refusal_of witnessed.old.held command ≡ None → IfErr result (λ e. e ≡ Refusal.OutOfMemory) }
        ensures causes { IfErr result (MayRefuseAt J.owner witnessed.old part command self.old) }
        ensures spared { OnErr result (Spares policy witnessed.old.held command witnessed.new.held.store) }
        ensures err { OnErr result ((self.new ≡ self.old) × (witnessed.new.log ≡ witnessed.old.log) ×
            (table_of witnessed.new.held ≡ table_of witnessed.old.held)) }
        ensures unlisted { OnErr result (witnessed.new.entries ≡ witnessed.old.entries) }
    {
        let Some(count) = count_at(self.counts.as_slice(), part) else {
            return Err(Refusal::NoSuchPartition);
        };
        if witnessed.part() != part {
            return Err(Refusal::StrangeReceipt {
                part,
                position: count,
            });
        }
        let reply = witnessed.ask(
            &mut self.seen_events,
            &mut self.receipts,
            self.number,
            count,
            command,
            policy,
        )?;
        self.counts[part as usize] = count + 1;
        self.seen_by_part[part as usize] = self.seen_events.copy();
        Ok(reply)
    }

    /// Whether a partition's history has exactly the entries of this worker for which it received replies; false if
    /// the partition doesn't count this worker's entries, or the worker knows of no partition with this number. States
    /// that what the worker has seen of that history is a prefix of it. O(1).
    pub fn agrees(&self, witnessed: &mut Witnessed<J>) -> bool
        ensures same { witnessed.new ≡ witnessed.old }
        ensures covered { IsPrefix (history_of (J.owner witnessed.old.part) self.now.seen)
            (history_of (J.owner witnessed.old.part) witnessed.old.log) }
        ensures mine { IsTrue result → HasJustItsOwn J.owner self.now witnessed.old }
        ensures others { witnessed.old.part < length self.now.seen_by_part → self.now.worker < witnessed.old.workers →
            HasJustItsOwn J.owner self.now witnessed.old → IsTrue result }
    {
        witnessed.covers(&self.seen_events);
        self.counts_agree(witnessed)
    }

    /// The number of the worker's replies from a partition, or 0 if it knows of no such partition. O(1).
    pub(crate) fn replies_of(&self, part: u32) -> u64
        ensures { result ≡ replies_at self.now part }
    {
        count_at(self.counts.as_slice(), part).unwrap_or(0)
    }

    /// Whether the worker received as many replies from a partition as the partition's history has entries of the
    /// worker; false if one doesn't know of the other. What the worker has seen of that history must be a prefix of
    /// it. O(1).
    fn counts_agree(&self, witnessed: &Witnessed<J>) -> bool
        requires covered { IsPrefix (history_of (J.owner witnessed.now.part) self.now.seen)
            (history_of (J.owner witnessed.now.part) witnessed.now.log) }
        ensures mine { IsTrue result → HasJustItsOwn J.owner self.now witnessed.now }
        ensures others { witnessed.now.part < length self.now.seen_by_part → self.now.worker < witnessed.now.workers →
            HasJustItsOwn J.owner self.now witnessed.now → IsTrue result }
    {
        let number = witnessed.part();
        match (
            count_at(self.counts.as_slice(), number),
            witnessed.answered(self.number),
        ) {
            (Some(mine), Some(theirs)) => mine == theirs,
            _ => false,
        }
    }
}

/// The sum of the counts. O(counts).
fn sum_of(counts: &[u64]) -> u64
    requires { sum_by (λ (n : ℕ). n) counts.now < 2 ^ 64 }
    ensures { result ≡ sum_by (λ (n : ℕ). n) counts.now }
{
    counts.iter().map(|count| *count).sum()
}
