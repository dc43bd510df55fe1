//! The search for a doomed row in the column.
ghost use Rattle.std.specs.Prelude.{◌≡◌, ◌≤◌, length, MatchOption, IfSome};
ghost use Rattle.crack_arena.specs.Arena.{IsFirstAt, IsAbsent};

use crate::Carrying;
use crate::notes::Notes;
use crack_arena::{Handle, key_of};
use crack_column::CrackerColumn;
use crack_index::Piece;
use crack_pending::PendingOut;
use crack_row::Row;

/// How many places of a piece are checked together.
const BLOCK: usize = 64;

/// At most this many doomed rows are searched for one by one, in a piece of any length.
const FEW: usize = 16;

/// In a piece with at most this many rows, a row is searched for by itself if there are at most as many doomed rows
/// as bounds, because it is likely to be the only doomed row there.
const SHORT: usize = 4096;

impl Carrying {
    /// The place of a doomed row in the column; `None` if it isn't there, as when it is in hand. O(1) if the place was
    /// noted, else O(rows of its piece + log bounds).
    ///
    /// If the row is likely to be the only doomed row of its piece, the piece is searched for it alone, at a fifth of
    /// the cost of a pass that notes every doomed row there. Otherwise that pass is made: its notes serve all doomed
    /// rows of a long piece, until a crack moves them. Steps that move a doomed row note its new place.
    pub fn find(&mut self, handle: Handle<Row>) -> Option<usize>
        ensures value { MatchOption result (IsAbsent self.old.store.column handle)
            (IsFirstAt self.old.store.column handle) }
        ensures same { self.new ≡ self.old }
    {
        let _ = &self.inside;
        if self.inside.column.aside_slot() == handle.slot() {
            return None;
        }
        if let Some(place) = self.noted(handle) {
            return Some(place);
        }
        self.note(handle);
        match self.noted(handle) {
            Some(place) => Some(place),
            None => self.place_of(handle),
        }
    }

    /// The place noted for the row; `None` if there is no note, or the row isn't there any more. O(1).
    fn noted(&self, handle: Handle<Row>) -> Option<usize>
        ensures { IfSome result (IsFirstAt self.now.store.column handle) }
    {
        let place = self.inside.notes.get(handle.slot());
        if place < self.inside.column.len() && self.inside.column.at(place) == handle {
            return Some(place);
        }
        None
    }

    /// Notes the place of a doomed row: of it alone if it is likely to be the only doomed row of its piece
    /// (`is_likely_alone`), otherwise of each doomed row there. O(rows of the piece + log bounds).
    fn note(&mut self, handle: Handle<Row>)
        ensures { self.new ≡ self.old }
    {
        let key = key_of(&self.inside.arena, handle);
        let piece = self.inside.index.piece_of(key, self.inside.column.len());
        if self.is_likely_alone(piece) {
            note_row(&self.inside.column, piece, handle, &mut self.inside.notes);
        } else {
            note_doomed(
                &self.inside.column,
                piece,
                &self.inside.pending_out,
                &mut self.inside.notes,
            );
        }
    }

    /// Whether a doomed row of this piece is searched for alone: at most 16 rows are doomed, or the piece has at most
    /// 4,096 rows and there are at most as many doomed rows as bounds. O(1).
    fn is_likely_alone(&self, piece: Piece) -> bool {
        let doomed = self.inside.pending_out.len();
        let is_short = piece.to <= piece.from.saturating_add(SHORT);
        doomed <= FEW || is_short && doomed <= self.inside.index.len()
    }
}

/// Notes the place of this row, if it is in this piece, and of no other. O(rows of the piece).
fn note_row(column: &CrackerColumn, piece: Piece, handle: Handle<Row>, notes: &mut Notes) {
    let to = piece.to.min(column.len());
    let from = piece.from.min(to);
    if let Some(place) = column.place_between(from, to, handle) {
        notes.put(handle.slot(), place);
    }
}

/// Notes the place of each doomed row of a piece. O(rows of the piece): those of a block are looked at one by one only
/// if one of them is doomed.
fn note_doomed(column: &CrackerColumn, piece: Piece, pending_out: &PendingOut, notes: &mut Notes) {
    let to = piece.to.min(column.len());
    let mut place = piece.from;
    'parts: while place < to {
        let end = place + BLOCK.min(to - place);
        if has_doomed(column, place, end, pending_out) {
            note_each(column, place, end, pending_out, notes);
        }
        place = end;
    }
}

/// Whether a row from the place `from` up to `to` is doomed. O(places); no branch depends on a row.
fn has_doomed(column: &CrackerColumn, from: usize, to: usize, pending_out: &PendingOut) -> bool
    requires { to ≤ length column.now.handles }
{
    let mut any = false;
    'places: for place in from..to {
        any |= pending_out.contains(column.slot_at(place));
    }
    any
}

/// Notes the place of each doomed row from the place `from` up to `to`. O(places).
fn note_each(
    column: &CrackerColumn,
    from: usize,
    to: usize,
    pending_out: &PendingOut,
    notes: &mut Notes,
)
    requires { to ≤ length column.now.handles }
{
    'places: for place in from..to {
        note_if_doomed(notes, pending_out, column.slot_at(place), place);
    }
}

/// Notes this place for the row of the cell `slot`, which goes there, if the row is doomed. O(1).
pub(crate) fn note_if_doomed(notes: &mut Notes, pending_out: &PendingOut, slot: u32, place: usize) {
    if pending_out.contains(slot) {
        notes.put(slot, place);
    }
}
