//! The rows of a store by their serials: look-up, removal and replacement.
ghost use Rattle.std.specs.Prelude.{◌≡◌, ◌+◌, ◌-◌, ◌<◌, ◌∷◌, map, Some, None, IsSome, IfSome, IfOk, IfErr};
ghost use Rattle.std.specs.Prelude.{OnOk, OnErr, IsOk, IfNone, true, false};
ghost use Rattle.std.specs.List.Sorted.{IsPermutation};
ghost use Rattle.crack_row.specs.Ranges.{IsIn};
ghost use Rattle.crack_row.specs.Rows.{row_with, replaced};
ghost use Rattle.crack_arena.specs.Arena.{read, freed, freed_at};
ghost use Rattle.crack_arena.specs.declared.TheConstants.{MOST_FREED};
ghost use Rattle.crack_serials.specs.Serials.{IsLead, handle_of};
ghost use Rattle.crack_state.specs.State.{live_rows, freed_of};
ghost use Rattle.crack_state.specs.Steps.{SameButRoom};
ghost use Rattle.crack_state.specs.Points.{row_by, pending_by, handle_by, MayFree, IsRenewable, IsRewritable};
ghost use Rattle.crack_state.specs.Points.{Cancels, Dooms, Removes, Renews, Rewrites, overwritten};

use crate::Store;
use crack_arena::{Arena, Handle, Remembered};
use crack_row::{Key, Payload, Refusal, Row, Serial};
use crack_serials::Lead;

impl Store {
    /// The row with this serial that isn't doomed; `None` if there is none. O(1).
    pub fn row_of(&self, serial: Serial) -> Option<Row>
        ensures value { result ≡ row_by self.now serial.0 }
        ensures none { IfNone result (handle_of self.now.serials serial.0 ≡ None) }
    {
        match self.inside.serials.get(serial) {
            Some(handle) => Some(row_at(&self.inside.arena, handle)),
            None => None,
        }
    }

    /// How many times cells were freed since the store was made. O(1).
    pub fn freed(&self) -> u64
        ensures { result ≡ freed_of self.now.cells }
    {
        self.inside.arena.freed()
    }

    /// Removes the row with this serial, and returns it; `None` if there is no such row. A pending insertion is
    /// cancelled: its cell is freed. A row of the column is doomed: it becomes a pending deletion. The serial is
    /// looked up once. Amortised O(1). Refused with `OutOfMemory` if no memory is found to doom a row; then nothing
    /// has changed.
    pub fn remove(&mut self, serial: Serial) -> Result<Option<Row>, Refusal>
        requires { MayFree self.old }
        ensures row { IfOk result (λ row. row ≡ row_by self.old serial.0) }
        ensures after { OnOk result (Removes (pending_by self.old serial.0) serial.0 self.old self.new) }
        ensures live { IfOk result (λ row. IfSome row (λ r. IsPermutation (r ∷ live_rows self.new)
            (live_rows self.old))) }
        ensures none { IfOk result (λ row. IfNone row (handle_of self.old.serials serial.0 ≡ None)) }
        ensures spare { (pending_by self.old serial.0 ≡ Some false → ⊥) → IsOk result }
        ensures same { OnErr result (SameButRoom self.old self.new) }
        ensures err { IfErr result (λ e. e ≡ Refusal.OutOfMemory) }
    {
        let Some(lead) = self.inside.serials.find(serial) else {
            return Ok(None);
        };
        if self.inside.pending_in.contains(lead.handle.slot()) {
            return Ok(Some(self.cancel_at(lead)));
        }
        let row = self.doom_at(lead)?;
        Ok(Some(row))
    }

    /// Removes the pending insertion with this serial, which must exist, and returns its row. Its cell is then free.
    /// Takes no memory. Amortised O(1).
    pub fn cancel(&mut self, serial: Serial) -> Row
        requires pending { pending_by self.old serial.0 ≡ Some true }
        requires few { MayFree self.old }
        ensures row { row_by self.old serial.0 ≡ Some result }
        ensures after { Cancels serial.0 self.old self.new }
        ensures live { IsPermutation (result ∷ live_rows self.new) (live_rows self.old) }
    {
        let lead = self.inside.serials.lead_of(serial);
        self.cancel_at(lead)
    }

    /// Dooms the row with this serial, which is in the column, and returns it: it stays there as a pending
    /// deletion. O(1), except for growth. Refused with `OutOfMemory` if no memory is found; then nothing has
    /// changed.
    pub fn doom(&mut self, serial: Serial) -> Result<Row, Refusal>
        requires column { pending_by self.old serial.0 ≡ Some false }
        requires few { MayFree self.old }
        ensures row { IfOk result (λ row. row_by self.old serial.0 ≡ Some row) }
        ensures after { OnOk result (Dooms serial.0 self.old self.new) }
        ensures live { IfOk result (λ row. IsPermutation (row ∷ live_rows self.new) (live_rows self.old)) }
        ensures same { OnErr result (SameButRoom self.old self.new) }
        ensures err { IfErr result (λ e. e ≡ Refusal.OutOfMemory) }
    {
        let lead = self.inside.serials.lead_of(serial);
        self.doom_at(lead)
    }

    /// Removes a pending insertion, whose serial's entry is `lead`, and returns its row. Takes no memory. Amortised
    /// O(1).
    fn cancel_at(&mut self, lead: Lead) -> Row
        requires entry { IsLead lead self.old.serials }
        requires found { handle_of self.old.serials lead.serial.0 ≡ Some lead.handle }
        requires pending { pending_by self.old lead.serial.0 ≡ Some true }
        requires few { MayFree self.old }
        ensures row { row_by self.old lead.serial.0 ≡ Some result }
        ensures after { Cancels lead.serial.0 self.old self.new }
        ensures live { IsPermutation (result ∷ live_rows self.new) (live_rows self.old) }
    {
        let handle = lead.handle;
        self.inside.serials.forget_at(lead);
        self.inside.pending_in.strike(handle);
        free(&mut self.inside.arena, handle)
    }

    /// Dooms a row of the column, whose serial's entry is `lead`, and returns it. O(1), except for growth. Refused
    /// with `OutOfMemory` if no memory is found; then nothing has changed.
    fn doom_at(&mut self, lead: Lead) -> Result<Row, Refusal>
        requires entry { IsLead lead self.old.serials }
        requires found { handle_of self.old.serials lead.serial.0 ≡ Some lead.handle }
        requires column { pending_by self.old lead.serial.0 ≡ Some false }
        requires few { MayFree self.old }
        ensures row { IfOk result (λ row. row_by self.old lead.serial.0 ≡ Some row) }
        ensures after { OnOk result (Dooms lead.serial.0 self.old self.new) }
        ensures live { IfOk result (λ row. IsPermutation (row ∷ live_rows self.new) (live_rows self.old)) }
        ensures same { OnErr result (SameButRoom self.old self.new) }
        ensures err { IfErr result (λ e. e ≡ Refusal.OutOfMemory) }
    {
        self.inside.pending_out.reserve(1)?;
        self.inside
            .pending_out
            .make_places(self.inside.arena.cells())?;
        self.inside.notes.make_places(self.inside.arena.cells())?;
        let handle = lead.handle;
        self.inside.serials.forget_at(lead);
        let row = row_at(&self.inside.arena, handle);
        self.inside
            .pending_out
            .push_remembered(handle, Remembered::of(row));
        Ok(row)
    }

    /// Replaces the row with the same serial, if there is one, as `rewrite` does. Returns the row as it was; `None` if
    /// there is no such row. The serial is looked up once. O(1), except for growth. Refused with `OutOfMemory` if no
    /// memory is found to replace a row of the column; then nothing has changed.
    pub fn replace(&mut self, row: Row) -> Result<Option<Row>, Refusal>
        requires within { IsIn self.old.keys row.key.0 }
        requires anew { pending_by self.old row.serial.0 ≡ Some false → IsRenewable self.old }
        ensures row { IfOk result (λ before. before ≡ row_by self.old row.serial.0) }
        ensures after { OnOk result (Rewrites (pending_by self.old row.serial.0) row self.old self.new) }
        ensures live { IfOk result (λ before. IfSome before (λ _. IsPermutation (map (replaced row)
            (live_rows self.old)) (live_rows self.new))) }
        ensures none { IfOk result (λ before. IfNone before (handle_of self.old.serials row.serial.0 ≡ None)) }
        ensures spare { (pending_by self.old row.serial.0 ≡ Some false → ⊥) → IsOk result }
        ensures same { OnErr result (SameButRoom self.old self.new) }
        ensures err { IfErr result (λ e. e ≡ Refusal.OutOfMemory) }
    {
        let Some(lead) = self.inside.serials.find(row.serial) else {
            return Ok(None);
        };
        let waits = self.inside.pending_in.contains(lead.handle.slot());
        if waits {
            return Ok(Some(self.write_over(lead.handle, row)));
        }
        let before = self.renew(lead, row)?;
        Ok(Some(before))
    }

    /// Replaces the key and the payload of the row with this serial. A pending insertion is overwritten in its
    /// cell, which takes no memory and always succeeds. A row of the column becomes a pending deletion, and the new
    /// row becomes the last pending insertion. O(1), except for growth. Refused with `OutOfMemory` if no memory is
    /// found; then nothing has changed.
    pub fn rewrite(&mut self, serial: Serial, key: Key, payload: Payload) -> Result<(), Refusal>
        requires { IsRewritable (row_with serial key payload) self.old }
        ensures after { OnOk result (Rewrites (pending_by self.old serial.0) (row_with serial key payload)
            self.old self.new) }
        ensures live { OnOk result (IsPermutation (map (replaced (row_with serial key payload)) (live_rows self.old))
            (live_rows self.new)) }
        ensures spare { pending_by self.old serial.0 ≡ Some true → IsOk result }
        ensures same { OnErr result (SameButRoom self.old self.new) }
        ensures err { IfErr result (λ e. e ≡ Refusal.OutOfMemory) }
    {
        let row = Row {
            serial,
            key,
            payload,
        };
        self.replace(row)?;
        Ok(())
    }

    /// Overwrites the pending insertion that the handle reads with this row, which has the same serial. Returns the
    /// row as it was. O(1); takes no memory.
    fn write_over(&mut self, handle: Handle<Row>, row: Row) -> Row
        requires found { handle_of self.old.serials row.serial.0 ≡ Some handle }
        requires pending { pending_by self.old row.serial.0 ≡ Some true }
        requires within { IsIn self.old.keys row.key.0 }
        ensures row { row_by self.old row.serial.0 ≡ Some result }
        ensures after { self.new ≡ overwritten row (handle_by self.old row.serial.0) self.old }
        ensures live { IsPermutation (map (replaced row) (live_rows self.old)) (live_rows self.new) }
    {
        let before = row_at(&self.inside.arena, handle);
        let _ = self.inside.arena.set(handle, row);
        self.inside.pending_in.remember(handle, Remembered::of(row));
        before
    }

    /// Dooms a row of the column, whose serial's entry is `lead`, and adds the new row, with the same serial, in
    /// another cell as the last pending insertion. Returns the row as it was. O(1), except for growth. Refused with
    /// `OutOfMemory` if no memory is found; then nothing has changed.
    fn renew(&mut self, lead: Lead, row: Row) -> Result<Row, Refusal>
        requires serial { lead.serial ≡ row.serial }
        requires entry { IsLead lead self.old.serials }
        requires found { handle_of self.old.serials row.serial.0 ≡ Some lead.handle }
        requires column { pending_by self.old row.serial.0 ≡ Some false }
        requires within { IsIn self.old.keys row.key.0 }
        requires few { IsRenewable self.old }
        ensures row { IfOk result (λ before. row_by self.old row.serial.0 ≡ Some before) }
        ensures after { OnOk result (Renews row self.old self.new) }
        ensures live { OnOk result (IsPermutation (map (replaced row) (live_rows self.old)) (live_rows self.new)) }
        ensures same { OnErr result (SameButRoom self.old self.new) }
        ensures err { IfErr result (λ e. e ≡ Refusal.OutOfMemory) }
    {
        self.inside.pending_out.reserve(1)?;
        self.inside.pending_in.reserve(1)?;
        self.inside.arena.reserve(1)?;
        self.inside
            .pending_out
            .make_places(self.inside.arena.cells())?;
        self.inside.notes.make_places(self.inside.arena.cells())?;
        let new_cells = (self.inside.arena.free_cells() == 0) as usize;
        self.inside
            .pending_in
            .make_places(self.inside.arena.cells() + new_cells)?;
        let doomed = lead.handle;
        let before = row_at(&self.inside.arena, doomed);
        let handle = self.inside.arena.put_reserved(row);
        self.inside.serials.lead_to(lead, handle);
        self.inside
            .pending_out
            .push_remembered(doomed, Remembered::of(before));
        self.inside
            .pending_in
            .push_remembered(handle, Remembered::of(row));
        self.inside.in_room = 0;
        Ok(before)
    }
}

/// The row that the handle reads. O(1).
pub(crate) fn row_at(arena: &Arena<Row>, handle: Handle<Row>) -> Row
    requires { IsSome (read arena.now.cells handle) }
    ensures { read arena.now.cells handle ≡ Some result }
{
    match arena.get(handle) {
        Some(row) => *row,
        None => unreachable!(),
    }
}

/// Frees the cell that the handle reads, and returns its row. O(1).
fn free(arena: &mut Arena<Row>, handle: Handle<Row>) -> Row
    requires reads { IsSome (read arena.old.cells handle) }
    requires few { freed arena.old < MOST_FREED }
    ensures row { read arena.old.cells handle ≡ Some result }
    ensures after { arena.new ≡ freed_at handle arena.old }
{
    match arena.free(handle) {
        Some(row) => row,
        None => unreachable!(),
    }
}
