//! A partition: its commands and their replies.
ghost use Rattle.std.specs.Prelude.{◌≡◌, ◌⊎◌, ℕ, None, Some, ◌+◌, ◌<◌, ◌^◌, [], length, nat_le, if◌then◌else◌};
ghost use Rattle.std.specs.Prelude.{true, false, IsFalse, IsOk, IfOk, IfErr, IfSome, OnErr, OnOk, Err};
ghost use Rattle.crack_row.specs.Commands.{change_of, key_of, range_of};
ghost use Rattle.crack_row.specs.Replies.{IsFlat};
ghost use Rattle.crack_row.specs.Layouts.{IsLayout};
ghost use Rattle.crack_row.specs.Limits.{IsLimit, AreLimits, of_history};
ghost use Rattle.crack_row.specs.declared.TheConstants.{NO_LIMIT};
ghost use Rattle.crack_plain.specs.Plain.{PlainState, IsNumbered, reply_to, after, IsSmall};
ghost use Rattle.crack_state.specs.State.{State, IsIntact};
ghost use Rattle.crack_state.specs.Steps.{SameButRoom};
ghost use Rattle.crack_state.specs.Merge.{IsSettled};
ghost use Rattle.crack_state.specs.Points.{row_by};
ghost use Rattle.crack_store.specs.Inside.{no_cells, IsLayoutOf};
ghost use Rattle.crack_part.specs.Parts.{state_of, table_of, checkpointed_part, IsSound, IsFaithful};
ghost use Rattle.crack_part.specs.Parts.{CracksAndMerges, StopsAt};
ghost use Rattle.crack_part.specs.Parts.{Serves, ServesCleared, Spares, SparesCleared, Prepares, Performs};
ghost use Rattle.crack_part.specs.Forgetting.{PreparesBy, SparesBy, ServesBy, StopsBy};
ghost use Rattle.crack_part.specs.Refusals.{is_key_in, refusal_of};
ghost use Rattle.crack_part.specs.KnownSums.{KnowsSums, KnowsThen};
ghost use Rattle.crack_part.specs.Cells.{takes_cell, lacks_cell, may_clear};
ghost use Rattle.crack_part.specs.Upkeep.{is_automatic, is_full, is_due, answered};
ghost use Rattle.crack_part.specs.Inside.{AreCommon, MayPerform, early_refusal_of, Frees, FreesNone};
ghost use Rattle.crack_part.specs.Outcomes.{Applies};

use crate::changes::{insert, remove, rewrite};
use crate::known::KnownSums;
use crate::passes::Passes;
use crate::reads::{count, select, sum};
use crate::replies::{Copies, copied};
use crate::settling::{crack_and_merge, settle};
use crack_row::{
    Command, GREATEST_LIMIT, KeyRange, Layout, Limits, Policy, Refusal, Reply, Row, RowList,
    Serial, Upkeep,
};
use crack_store::{MergeReport, Store};
use std::alloc::Global;
use std::marker::Model;

/// The rows whose keys lie in one range, and the counts of the commands that the partition accepted. Contracts see
/// the layout of its store, and the plain table that it represents: the live rows by rising serial, and the counts.
pub struct Partition {
    alloc: Global,
    pub(crate) keys: KeyRange,
    pub(crate) limits: Limits,
    pub(crate) next: u64,
    pub(crate) checkpointed: u64,
    pub(crate) since: u64,
    pub(crate) store: Store,
    passes: Passes,
    known: KnownSums,
}

// Written out, so that crates that use this one call this function, and prove nothing about the fields.
impl Drop for Partition {
    /// Drops each field that holds memory.
    fn drop(self) {
        let Partition {
            alloc: _,
            keys: _,
            limits: _,
            next: _,
            checkpointed: _,
            since: _,
            store,
            passes: _,
            known,
        } = self;
        drop(store);
        drop(known);
    }
}

impl Model for Partition {
    ghost use Rattle.crack_part.specs.Parts.{Part};
    ghost use Rattle.crack_part.specs.KnownSums.{KnowsPart};

    ghost Value = { Part };

    ghost view = { λ p. record {
      keys = p.keys;
      limits = p.limits;
      next = p.next;
      checkpointed = p.checkpointed;
      since = p.since;
      store = p.store;
    } };

    ghost invariant = { λ p. let part : Part = record {
      keys = p.keys;
      limits = p.limits;
      next = p.next;
      checkpointed = p.checkpointed;
      since = p.since;
      store = p.store;
    } in KnowsPart p.known part };
}

impl Partition {
    /// Opens a partition without rows, for these keys, that accepts at most `limit` commands between two checkpoints.
    /// Its other limits are those of `Limits::of_history`. Takes no memory. O(1). Refused with `BadLimit` if the limit
    /// is 0 or above `GREATEST_LIMIT`.
    pub fn open(alloc: Global, keys: KeyRange, limit: u64) -> Result<Partition, Refusal>
        ensures ok { IfOk result (λ p. (p.keys ≡ keys) × (p.limits ≡ of_history limit)) }
        ensures new { IfOk result (λ p. (p.next ≡ 0) × (p.checkpointed ≡ 0) × (p.since ≡ 0)) }
        ensures empty { IfOk result (λ p. p.store ≡ no_cells keys p.store.column_room p.store.in_room) }
        ensures opens { IsLimit limit → IsOk result }
        ensures bad_limit { (IsLimit limit → ⊥) → result ≡ Err Refusal.BadLimit }
    {
        if limit < 1 || limit > GREATEST_LIMIT {
            return Err(Refusal::BadLimit);
        }
        Partition::open_with(alloc, keys, Limits::of_history(limit))
    }

    /// Opens a partition without rows, for these keys and with these limits. Takes no memory. O(1). Refused with
    /// `BadLimit` if one of the limits is 0 or above the greatest of its kind.
    pub fn open_with(alloc: Global, keys: KeyRange, limits: Limits) -> Result<Partition, Refusal>
        ensures ok { IfOk result (λ p. (p.keys ≡ keys) × (p.limits ≡ limits)) }
        ensures new { IfOk result (λ p. (p.next ≡ 0) × (p.checkpointed ≡ 0) × (p.since ≡ 0)) }
        ensures empty { IfOk result (λ p. p.store ≡ no_cells keys p.store.column_room p.store.in_room) }
        ensures opens { AreLimits limits → IsOk result }
        ensures bad_limit { (AreLimits limits → ⊥) → result ≡ Err Refusal.BadLimit }
    {
        if !limits.are_valid() {
            return Err(Refusal::BadLimit);
        }
        let store = Store::new(alloc, keys);
        store.recall_invariant();
        Ok(Partition {
            alloc,
            keys,
            limits,
            next: 0,
            checkpointed: 0,
            since: 0,
            store,
            passes: Passes::new(),
            known: KnownSums::new(alloc),
        })
    }

    /// States the invariant of every partition, and does nothing.
    pub fn recall_invariant(&self)
        ensures { IsSound self.now }
    {
        let _ = &self.store;
    }

    /// The rows, by rising serial. Cracks and merges nothing. O(cells); O(n log n) more to sort the n rows if their
    /// serials don't rise with the numbers of their cells. Refused with `OutOfMemory` if no memory is found.
    pub fn rows_in_order(&self) -> Result<Vec<Row>, Refusal>
        ensures ok { IfOk result (λ rows. rows.items ≡ (state_of self.now).rows) }
        ensures err { IfErr result (λ e. e ≡ Refusal.OutOfMemory) }
    {
        self.store.live_rows()
    }

    /// Makes a checkpoint, and returns how many commands were accepted since the last one. That number is added to the
    /// count of commands up to the last checkpoint, and the count of commands since then becomes 0. Cracks and merges
    /// nothing, changes no row and no later reply, and can't fail. Frees the pending lists' unused memory. O(1) if
    /// these lists have no holes, else O(pending rows).
    pub fn checkpoint(&mut self) -> u64
        ensures since { result ≡ self.old.since }
        ensures checkpointed { self.new ≡ checkpointed_part self.old }
    {
        let since = self.since;
        self.store.shrink_pending();
        self.checkpointed += since;
        self.since = 0;
        since
    }

    /// What merges have counted since the partition was opened. Takes no memory. O(1).
    pub fn tally(&self) -> MergeReport
        ensures { result ≡ self.now.store.tally }
    {
        self.store.tally()
    }

    /// The partition's layout: its numbers of rows, pending rows and cells, and the pieces of its column. Cracks and
    /// merges nothing, and isn't counted as a command. Refused with `OutOfMemory` if no memory is found. O(pieces).
    pub fn layout(&self) -> Result<Layout, Refusal>
        ensures ok { IfOk result (λ layout. IsLayoutOf self.now.store layout) }
        ensures equations { IfOk result (λ layout. IsLayout self.now.keys layout) }
        ensures rows { IfOk result (λ layout. layout.rows ≡ length (state_of self.now).rows) }
        ensures err { IfErr result (λ e. e ≡ Refusal.OutOfMemory) }
    {
        self.store.layout()
    }

    /// Why `apply` would refuse the command even if memory is found; `None` if it wouldn't refuse it then. It is never
    /// `HistoryFull` if the history has no limit. O(1).
    pub fn refusal(&self, command: &Command) -> Option<Refusal>
        ensures value { result ≡ refusal_of self.now command.now }
        ensures unlimited { self.now.limits.history ≡ NO_LIMIT → (length : ℕ) →
            result ≡ Some (Refusal.HistoryFull length) → ⊥ }
    {
        self.recall_invariant();
        if let Err(refusal) = self.may_keep(command) {
            return Some(refusal);
        }
        if self.wants_cell(command) && !self.may_clear() {
            return Some(Refusal::NoCell);
        }
        None
    }

    /// The row with this serial; `None` if there is none. Cracks and merges nothing, and isn't counted as a command.
    /// O(1).
    #[inline(always)]
    pub fn row_of(&self, serial: Serial) -> Option<Row>
        ensures { result ≡ row_by self.now.store serial.0 }
    {
        self.store.row_of(serial)
    }

    /// Whether a checkpoint is made before the next command that is answered: upkeep is automatic, and as many
    /// commands as the limit were accepted since the last checkpoint. Never if the history has no limit. O(1).
    pub fn is_due(&self) -> bool
        ensures value { result ≡ is_due self.now.limits self.now.since }
        ensures unlimited { self.now.limits.history ≡ NO_LIMIT → result ≡ false }
    {
        self.is_at_limit() && is_automatic(self.limits.upkeep)
    }

    /// Answers one command, and counts it. `policy` says how pending rows are merged if the command reads a range.
    ///
    /// If upkeep is automatic, two things may come first. If as many commands as the limit were accepted since the
    /// last checkpoint, a checkpoint is made, as `checkpoint` does. If the command lacks a cell and deletions are
    /// pending, all pending rows are merged, as a count of all keys does under `Policy::Complete`, which frees cells.
    /// An insert takes a cell, and so does an update of a row of the column; they lack one if no cell is free and
    /// there are as many cells as the limit.
    ///
    /// Refused, in this order: with `KeyOutside` if the command has a key that isn't the partition's, with
    /// `HistoryFull` if as many commands as the limit were accepted since the last checkpoint and upkeep is on
    /// request, with `LifeOver` if as many were accepted as the life allows, with `NoCell` if the command lacks a cell
    /// and upkeep frees none, with `OutOfMemory` if no memory is found. Only `OutOfMemory` may leave a change: no
    /// checkpoint is made, but the merge that frees cells may be made in part or as a whole. A command that reads a
    /// range may also have cracked and merged for it, in part or as a whole, and forgotten bounds under
    /// `Policy::Auto`.
    ///
    /// Without upkeep, an insert is O(1), amortised, and a delete or an update O(log pieces). A command that reads a
    /// range cracks the pieces in which its ends fall, and merges what the range needs by the policy. A count is then
    /// O(log pieces). So is a sum, with a step for each row of the pieces whose sum isn't known. A select is O(m log
    /// m) for m rows in the range. If there are at most 8 cells for each of these rows, and the serials of k of them,
    /// at most a quarter, are out of the order of the cells' numbers, it is O(m + k log k).
    #[inline(always)]
    pub fn apply(&mut self, command: Command, policy: Policy) -> Result<Reply, Refusal>
        ensures reply { IfOk result (λ reply. reply ≡ reply_to (state_of self.old) command) }
        ensures small { IfOk result IsSmall }
        ensures table { OnOk result (table_of self.new ≡ answered self.old.limits (table_of self.old) command) }
        ensures state { OnOk result (state_of self.new ≡ after (state_of self.old) command) }
        ensures store { OnOk result (Serves policy self.old command self.new.store) }
        ensures opened { (self.new.keys ≡ self.old.keys) × (self.new.limits ≡ self.old.limits) }

        ensures err { OnErr result (table_of self.new ≡ table_of self.old) }
        ensures spared { OnErr result (Spares policy self.old command self.new.store) }
        ensures refused { IfSome (refusal_of self.old command) (λ e. (result ≡ Err e) × (self.new ≡ self.old)) }
        ensures memory { refusal_of self.old command ≡ None → IfErr result (λ e. e ≡ Refusal.OutOfMemory) }
    {
        if self.may_need_upkeep(&command) {
            let asked = command;
            return self.apply_apart(asked, policy);
        }
        self.apply_with_cell(command, policy)
    }

    /// Answers one command, as `apply` does, and returns the reply with two copies. The copies of a select's list take
    /// memory and O(rows). Refused as `apply` is, and with `OutOfMemory` also if no memory is found for these copies;
    /// then the command isn't counted.
    #[inline(always)]
    pub fn apply_copied(&mut self, command: Command, policy: Policy) -> Result<Copies, Refusal>
        ensures reply { IfOk result (λ copies. copies.reply ≡ reply_to (state_of self.old) command) }
        ensures receipt { IfOk result (λ copies. copies.receipt ≡ reply_to (state_of self.old) command) }
        ensures kept { IfOk result (λ copies. copies.kept ≡ reply_to (state_of self.old) command) }
        ensures small { IfOk result (λ copies. IsSmall copies.reply) }
        ensures table { OnOk result (table_of self.new ≡ answered self.old.limits (table_of self.old) command) }
        ensures state { OnOk result (state_of self.new ≡ after (state_of self.old) command) }
        ensures store { OnOk result (Serves policy self.old command self.new.store) }
        ensures opened { (self.new.keys ≡ self.old.keys) × (self.new.limits ≡ self.old.limits) }

        ensures err { OnErr result (table_of self.new ≡ table_of self.old) }
        ensures spared { OnErr result (Spares policy self.old command self.new.store) }
        ensures refused { IfSome (refusal_of self.old command) (λ e. (result ≡ Err e) × (self.new ≡ self.old)) }
        ensures memory { refusal_of self.old command ≡ None → IfErr result (λ e. e ≡ Refusal.OutOfMemory) }
    {
        let (checkpointed, since) = (self.checkpointed, self.since);
        let reply = self.apply(command, policy)?;
        match copied(reply, self.alloc) {
            Ok(copies) => Ok(copies),
            Err(refusal) => {
                // Only the copy of a list can find no memory, and a command whose reply is a list changes no row.
                self.checkpointed = checkpointed;
                self.since = since;
                Err(refusal)
            }
        }
    }

    /// Answers a command as `apply` does, but frees no cells first: the command must not lack a cell. Refused as
    /// `apply` is, but never with `NoCell`.
    #[inline(always)]
    fn apply_with_cell(&mut self, command: Command, policy: Policy) -> Result<Reply, Refusal>
        requires cell { lacks_cell self.old.limits.cells self.old.store (change_of command) ≡ false }
        ensures reply { IfOk result (λ reply. reply ≡ reply_to (state_of self.old) command) }
        ensures small { IfOk result IsSmall }
        ensures table { OnOk result (table_of self.new ≡ answered self.old.limits (table_of self.old) command) }
        ensures state { OnOk result (state_of self.new ≡ after (state_of self.old) command) }
        ensures store { OnOk result (ServesCleared policy self.old.keys self.old.next command self.old.store
            self.new.store) }
        ensures opened { (self.new.keys ≡ self.old.keys) × (self.new.limits ≡ self.old.limits) }

        ensures err { OnErr result (table_of self.new ≡ table_of self.old) }
        ensures spared { OnErr result (SparesCleared policy self.old.keys (range_of command) self.old.store
            self.new.store) }
        ensures refused { IfSome (early_refusal_of self.old command) (λ e. (result ≡ Err e) × (self.new ≡ self.old)) }
        ensures memory { early_refusal_of self.old command ≡ None → IfErr result (λ e. e ≡ Refusal.OutOfMemory) }
    {
        self.may_keep(&command)?;
        let reply = answer(
            &mut self.store,
            &mut self.passes,
            &mut self.known,
            &mut self.next,
            self.alloc,
            self.keys,
            &command,
            policy,
        )?;
        count_command(&mut self.checkpointed, &mut self.since, self.limits);
        Ok(reply)
    }

    /// Answers a command that may need upkeep, as `apply_with_upkeep` does. The outcome is stored here, so that
    /// `apply` doesn't clear memory for it on entry.
    #[inline(always)]
    fn apply_apart(&mut self, command: Command, policy: Policy) -> Result<Reply, Refusal>
        ensures applies { Applies policy command self.old result self.new }
    {
        handed_on(self.apply_with_upkeep(command, policy))
    }

    /// Answers a command as `apply` does. First frees cells if the command lacks one, and the pending lists' unused
    /// memory if a checkpoint is due (`is_due`).
    #[inline(never)]
    fn apply_with_upkeep(&mut self, command: Command, policy: Policy) -> Result<Reply, Refusal>
        ensures applies { Applies policy command self.old result self.new }
    {
        self.may_keep(&command)?;
        self.make_cell(&command)?;
        self.shrink_if_due();
        self.apply_with_cell(command, policy)
    }

    /// Frees the pending lists' unused memory if a checkpoint is due (`is_due`); otherwise does nothing. Contracts see
    /// no change.
    fn shrink_if_due(&mut self)
        ensures { self.new ≡ self.old }
    {
        if self.is_due() {
            self.store.shrink_pending();
        }
    }

    /// Whether as many commands as the limit were accepted since the last checkpoint, or the command lacks a cell.
    /// O(1).
    #[inline(always)]
    fn may_need_upkeep(&self, command: &Command) -> bool
        ensures { IsFalse result → lacks_cell self.now.limits.cells self.now.store (change_of command.now) ≡ false }
    {
        self.is_at_limit() || self.wants_cell(command)
    }

    /// Whether as many commands as the limit were accepted since the last checkpoint.
    #[inline(always)]
    fn is_at_limit(&self) -> bool
        ensures { result ≡ nat_le self.now.limits.history self.now.since }
    {
        self.since >= self.limits.history
    }

    /// Whether a command takes a cell, as `takes_cell` says, while no cell is free and there are as many cells as the
    /// limit allows. O(1).
    #[inline(always)]
    fn wants_cell(&self, command: &Command) -> bool
        ensures { result ≡ lacks_cell self.now.limits.cells self.now.store (change_of command.now) }
    {
        lacks_cell(&self.store, self.limits.cells, command)
    }

    /// Whether upkeep may free cells: it is automatic, and deletions are pending. O(1).
    fn may_clear(&self) -> bool
        ensures { result ≡ may_clear self.now.limits self.now.store }
    {
        is_automatic(self.limits.upkeep) && self.store.pending_out() != 0
    }

    /// Frees cells if the command lacks one: merges all pending rows, which frees the cells of the doomed rows. Does
    /// nothing if the command lacks none. Refused with `NoCell` if upkeep is on request or no deletion is pending, and
    /// with `OutOfMemory` if no memory is found.
    fn make_cell(&mut self, command: &Command) -> Result<(), Refusal>
        ensures frees { OnOk result (Frees self.old command.now self.new) }
        ensures err { IfErr result (λ e. FreesNone self.old command.now e self.new) }
        ensures same { self.new ≡ record self.old { store = self.new.store } }
    {
        if !self.wants_cell(command) {
            return Ok(());
        }
        if !self.may_clear() {
            return Err(Refusal::NoCell);
        }
        self.clear()
    }

    /// Merges all pending rows, which frees the cells of the doomed rows; at least one deletion must be pending.
    /// Refused with `OutOfMemory` if no memory is found; the merge may then be made in part.
    fn clear(&mut self) -> Result<(), Refusal>
        requires waits { 0 < length self.old.store.pending_out }
        ensures cleared { OnOk result (CracksAndMerges Policy.Complete self.old.store self.new.store
            self.old.store.keys) }
        ensures free { OnOk result (0 < length self.new.store.free) }
        ensures stopped { OnErr result (StopsAt Policy.Complete self.old.store self.new.store self.old.store.keys) }
        ensures err { IfErr result (λ e. e ≡ Refusal.OutOfMemory) }
        ensures same { self.new ≡ record self.old { store = self.new.store } }
    {
        crack_and_merge(
            &mut self.store,
            self.alloc,
            self.keys,
            self.keys,
            Policy::Complete,
        )
    }

    /// Whether as many commands as the limit were accepted since the last checkpoint, and upkeep is on request.
    #[inline(always)]
    fn is_full(&self) -> bool
        ensures { result ≡ is_full self.now.limits self.now.since }
    {
        self.is_at_limit() && !is_automatic(self.limits.upkeep)
    }

    /// Refuses a command for the first of these causes that holds: `KeyOutside`, `HistoryFull`, `LifeOver`. `Ok` if
    /// none holds. O(1). Changes nothing.
    #[inline(always)]
    fn may_keep(&self, command: &Command) -> Result<(), Refusal>
        ensures ok { OnOk result (early_refusal_of self.now command.now ≡ None) }
        ensures err { IfErr result (λ e. early_refusal_of self.now command.now ≡ Some e) }
    {
        if !allows(self.keys, command) {
            return Err(Refusal::KeyOutside);
        }
        if self.is_full() {
            return Err(Refusal::HistoryFull {
                length: self.limits.history,
            });
        }
        if self.accepted() >= self.limits.life {
            return Err(Refusal::LifeOver);
        }
        Ok(())
    }
}

/// Whether upkeep is automatic: a partition makes checkpoints and frees cells by itself when a command needs it.
#[inline(always)]
fn is_automatic(upkeep: Upkeep) -> bool
    ensures { result ≡ is_automatic upkeep }
{
    match upkeep {
        Upkeep::OnRequest => false,
        Upkeep::Automatic => true,
    }
}

/// Whether a command takes a cell while no cell is free and there are at least `most` cells. O(1).
#[inline(always)]
fn lacks_cell(store: &Store, most: u64, command: &Command) -> bool
    ensures { result ≡ lacks_cell most store.now (change_of command.now) }
{
    store.cells() as u64 >= most && store.free_cells() == 0 && takes_cell(store, command)
}

/// Whether a command takes one more cell: an insert does, and an update of a row that is in the column, not pending.
/// O(1).
#[inline(always)]
fn takes_cell(store: &Store, command: &Command) -> bool
    ensures { result ≡ takes_cell store.now (change_of command.now) }
{
    match *command {
        Command::Insert { .. } => true,
        Command::Update { serial, .. } => matches!(store.is_pending(serial), Some(false)),
        _ => false,
    }
}

/// Whether a partition with these keys takes the command: the command has no key of its own, or its key is one of
/// them.
#[inline(always)]
fn allows(keys: KeyRange, command: &Command) -> bool
    ensures { result ≡ is_key_in keys (key_of command.now) }
{
    match *command {
        Command::Insert { key, .. } | Command::Update { key, .. } => keys.contains(key),
        _ => true,
    }
}

/// Answers a command: settles the store for its range, if it has one, replies, and makes its change. Settled means
/// cracked at the range's ends, with no row in the range pending. `keys` are the partition's keys. An inserted row
/// gets the serial `next`, which then rises by one. Refused with `OutOfMemory` if no memory is found; then the change
/// isn't made, but the store may be settled in part or as a whole.
#[inline(always)]
fn answer(
    store: &mut Store,
    passes: &mut Passes,
    known: &mut KnownSums,
    next: &mut u64,
    alloc: Global,
    keys: KeyRange,
    command: &Command,
    policy: Policy,
) -> Result<Reply, Refusal>
    requires ends { store.old.keys ≡ keys }
    requires intact { IsIntact store.old [] }
    requires insertable { (ready : State) → Prepares policy keys (range_of command.now) store.old ready →
        MayPerform next.old (change_of command.now) ready }
    requires small { next.old + 1 < 2 ^ 64 }
    ensures replies { IfOk result (λ reply. (plain : PlainState) → IsNumbered plain → IsFaithful store.old next.old
        plain → KnowsSums known.old plain → reply ≡ reply_to plain command.now) }
    ensures small { IfOk result (λ reply. (plain : PlainState) → IsNumbered plain → IsFaithful store.old next.old plain
        → length plain.rows < 2 ^ 32 → IsSmall reply) }
    ensures lists { IfOk result (λ reply. (Prepares policy keys (range_of command.now) store.old store.new ×
        (next.new ≡ next.old) × (change_of command.now ≡ None)) ⊎ IsFlat reply) }
    ensures knows { (plain : PlainState) → IsNumbered plain → IsFaithful store.old next.old plain →
        KnowsSums known.old plain → KnowsThen known.new plain command.now result }
    ensures served { OnOk result (ServesCleared policy keys next.old command.now store.old store.new) }
    ensures passed { OnOk result (ServesBy policy keys next.old command.now passes.old store.old passes.new store.new) }
    ensures faithful { OnOk result ((plain : PlainState) → IsFaithful store.old next.old plain →
        IsFaithful store.new next.new (after plain command.now)) }
    ensures intact { OnOk result (IsIntact store.new []) }
    ensures spared { OnErr result (SparesCleared policy keys (range_of command.now) store.old store.new ×
        (next.new ≡ next.old)) }
    ensures stopped { OnErr result (StopsBy policy keys command.now passes.old store.old passes.new store.new) }
    ensures err { IfErr result (λ e. e ≡ Refusal.OutOfMemory) }
{
    let common = prepare(store, passes, known, alloc, keys, command.range(), policy)?;
    carry_out(store, known, next, alloc, command, common)
}

/// Settles the store for the intersection of the command's range with `keys`, the partition's keys, and returns the
/// intersection. Cracks and merges nothing, and returns `None`, if the intersection is empty or there is no range.
/// Refused as `settle` is.
#[inline(always)]
fn prepare(
    store: &mut Store,
    passes: &mut Passes,
    known: &mut KnownSums,
    alloc: Global,
    keys: KeyRange,
    range: Option<KeyRange>,
    policy: Policy,
) -> Result<Option<KeyRange>, Refusal>
    requires ends { store.old.keys ≡ keys }
    ensures prepared { OnOk result (Prepares policy keys range store.old store.new) }
    ensures passed { OnOk result (PreparesBy policy keys range passes.old store.old passes.new store.new) }
    ensures common { IfOk result (λ common. AreCommon range keys common) }
    ensures settled { IfOk result (λ common. IfSome common (λ r. IsSettled store.new r)) }
    ensures knows { (plain : PlainState) → KnowsSums known.old plain → KnowsSums known.new plain }
    ensures spared { OnErr result (SparesCleared policy keys range store.old store.new) }
    ensures stopped { OnErr result (SparesBy policy keys range passes.old store.old passes.new store.new) }
    ensures err { IfErr result (λ e. e ≡ Refusal.OutOfMemory) }
{
    match range {
        Some(range) => {
            let common = range.clip(keys);
            if common.is_empty() {
                return Ok(None);
            }
            settle(store, passes, known, alloc, keys, common, policy)?;
            Ok(Some(common))
        }
        None => Ok(None),
    }
}

/// Replies to a command, and makes its change. The store is settled for `common`, the intersection of the command's
/// range with the keys; `None` if that is empty or there is no range. An inserted row gets the serial `next`, which
/// then rises by one. Refused with `OutOfMemory` if no memory is found for a list, or for a row that is inserted,
/// deleted or updated; then no row has changed.
#[inline(always)]
fn carry_out(
    store: &mut Store,
    known: &mut KnownSums,
    next: &mut u64,
    alloc: Global,
    command: &Command,
    common: Option<KeyRange>,
) -> Result<Reply, Refusal>
    requires common { AreCommon (range_of command.now) store.old.keys common }
    requires settled { IfSome common (λ r. IsSettled store.old r) }
    requires intact { IsIntact store.old [] }
    requires insertable { MayPerform next.old (change_of command.now) store.old }
    requires small { next.old + 1 < 2 ^ 64 }
    ensures reply { IfOk result (λ reply. (plain : PlainState) → IsNumbered plain → IsFaithful store.old next.old plain
        → KnowsSums known.old plain → reply ≡ reply_to plain command.now) }
    ensures flat { IfOk result (λ reply. (change_of command.now ≡ None) ⊎ IsFlat reply) }
    ensures small { IfOk result (λ reply. (plain : PlainState) → IsNumbered plain → IsFaithful store.old next.old plain
        → length plain.rows < 2 ^ 32 → IsSmall reply) }
    ensures knows { (plain : PlainState) → IsNumbered plain → IsFaithful store.old next.old plain →
        KnowsSums known.old plain → KnowsThen known.new plain command.now result }
    ensures performed { OnOk result (Performs next.old (change_of command.now) store.old store.new) }
    ensures faithful { OnOk result ((plain : PlainState) → IsFaithful store.old next.old plain →
        IsFaithful store.new next.new (after plain command.now)) }
    ensures intact { OnOk result (IsIntact store.new []) }
    ensures none { change_of command.now ≡ None → (store.new ≡ store.old) × (next.new ≡ next.old) }
    ensures same { OnErr result (SameButRoom store.old store.new × (next.new ≡ next.old)) }
    ensures err { IfErr result (λ e. e ≡ Refusal.OutOfMemory) }
{
    match *command {
        Command::Insert { key, payload } => insert(store, next, key, payload),
        Command::Delete { serial } => remove(store, known, *next, serial),
        Command::Update {
            serial,
            key,
            payload,
        } => rewrite(
            store,
            known,
            *next,
            Row {
                serial,
                key,
                payload,
            },
        ),
        Command::Count(_) => Ok(Reply::Counted(count(store, common))),
        Command::Sum(_) => Ok(Reply::Summed(sum(store, known, *next, common))),
        Command::Select(_) => {
            let rows = select(store, alloc, common)?;
            Ok(Reply::Rows(RowList::from_vec(rows)))
        }
    }
}

/// Adds one command to `since`, the count of commands since the last checkpoint. If `since` has reached the history's
/// limit and upkeep is automatic, a checkpoint is made first: `since` is added to `checkpointed`, and becomes 0.
#[inline(always)]
fn count_command(checkpointed: &mut u64, since: &mut u64, limits: Limits)
    requires { checkpointed.old + since.old + 1 < 2 ^ 64 }
    ensures checkpointed { checkpointed.new ≡ (if is_due limits since.old then checkpointed.old + since.old else
        checkpointed.old) }
    ensures since { since.new ≡ (if is_due limits since.old then 0 else since.old) + 1 }
{
    if *since >= limits.history && is_automatic(limits.upkeep) {
        *checkpointed += *since;
        *since = 0;
    }
    *since += 1;
}

/// Returns the outcome, rebuilt variant by variant, so that a part that isn't used isn't stored in memory.
#[inline(always)]
fn handed_on(answered: Result<Reply, Refusal>) -> Result<Reply, Refusal>
    ensures { result ≡ answered }
{
    match answered {
        Ok(reply) => Ok(reply),
        Err(refusal) => Err(refusal),
    }
}
