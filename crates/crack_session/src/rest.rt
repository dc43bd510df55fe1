//! Appending the texts of answers to the output as far as there is room.
ghost use Rattle.std.specs.Prelude.{◌≡◌, ◌+◌, ◌<◌, ◌≤◌, ◌++◌, ◌↔◌, IsTrue, false, length, drop};
ghost use Rattle.std.specs.List.{flat_map};
ghost use Rattle.crack_commands.specs.Texts.{row_text, piece_text, reply_text};
ghost use Rattle.crack_session.specs.Answers.{answer_text};
ghost use Rattle.crack_session.specs.Feeding.{rest_text, lists_from, is_nothing};

use crate::OUTPUT_BYTES;
use crate::answer::Answer;
use crate::query::ReplyList;
use arrayvec::ArrayVec;
use crack_commands::{
    LONGEST_TEXT, TEXT_BYTES, policy_line, push, push_checkpoint, push_count, push_gone, push_head,
    push_layout_head, push_numbers, push_piece, push_placed, push_refusal, push_row, push_sum,
};
use crack_core::PartReply;
use crack_row::{Layout, PieceSize, Reply, Row, RowList};

/// A buffer of fixed size for texts that are to be written to a device.
pub type Output = ArrayVec<u8, OUTPUT_BYTES>;

/// The rest of an answer's text: the lines of rows or pieces that aren't appended yet.
#[derive(Drop)]
pub enum Rest {
    /// Nothing is left.
    Nothing,
    /// The rows of one partition, from index `at` on.
    Rows {
        part: u32,
        rows: RowList,
        at: usize,
    },
    /// The rows of several partitions, from the row `at` of the list `list` on.
    Lists {
        lists: ReplyList,
        list: usize,
        at: usize,
    },
    /// The pieces of a layout, from index `at` on.
    Pieces {
        layout: Layout,
        at: usize,
    },
}

/// Whether there is room in `out` for `count` more bytes. O(1).
#[inline(always)]
pub fn has_room(out: &Output, count: usize) -> bool
    requires { count ≤ OUTPUT_BYTES }
    ensures { IsTrue result ↔ (length out.now.items + count ≤ OUTPUT_BYTES) }
{
    out.len() <= OUTPUT_BYTES - count
}

impl Rest {
    /// Whether nothing is left of the text.
    #[inline(always)]
    pub fn is_nothing(&self) -> bool
        ensures { result ≡ is_nothing self.now }
    {
        matches!(self, Rest::Nothing)
    }

    /// Appends as many lines of this rest as there is room for, and returns the lines that are left. O(bytes
    /// appended), no memory.
    pub fn append(self, out: &mut Output) -> Rest
        ensures text { out.new.items ++ rest_text result ≡ out.old.items ++ rest_text self }
        ensures grows { length out.old.items ≤ length out.new.items }
        ensures full { is_nothing result ≡ false → OUTPUT_BYTES < length out.new.items + TEXT_BYTES }
    {
        match self {
            Rest::Nothing => Rest::Nothing,
            Rest::Rows { part, rows, at } => append_rows(part, rows, at, out),
            Rest::Lists { lists, list, at } => append_lists(lists, list, at, out),
            Rest::Pieces { layout, at } => append_pieces(layout, at, out),
        }
    }
}

/// Appends the lines of rows of partition `part`, from index `at` on, as many as there is room for, and returns the
/// rest.
fn append_rows(part: u32, rows: RowList, at: usize, out: &mut Output) -> Rest
    ensures text { out.new.items ++ rest_text result ≡ out.old.items ++ flat_map (row_text part) (drop at rows) }
    ensures grows { length out.old.items ≤ length out.new.items }
    ensures full { is_nothing result ≡ false → OUTPUT_BYTES < length out.new.items + TEXT_BYTES }
{
    let at = push_rows(part, rows.as_slice(), at, out);
    if at < rows.as_slice().len() {
        Rest::Rows { part, rows, at }
    } else {
        Rest::Nothing
    }
}

/// Appends the lines of several partitions' rows, from the row `at` of the list `list` on, as many as there is room
/// for, and returns the rest.
fn append_lists(lists: ReplyList, list: usize, at: usize, out: &mut Output) -> Rest
    ensures text { out.new.items ++ rest_text result ≡ out.old.items ++ lists_from (drop list lists) at }
    ensures grows { length out.old.items ≤ length out.new.items }
    ensures full { is_nothing result ≡ false → OUTPUT_BYTES < length out.new.items + TEXT_BYTES }
{
    let (list, at) = push_lists(lists.as_slice(), list, at, out);
    if list < lists.as_slice().len() {
        Rest::Lists { lists, list, at }
    } else {
        Rest::Nothing
    }
}

/// Appends the lines of a layout's pieces, from index `at` on, as many as there is room for, and returns the rest.
fn append_pieces(layout: Layout, at: usize, out: &mut Output) -> Rest
    ensures text { out.new.items ++ rest_text result ≡ out.old.items ++ flat_map piece_text (drop at layout.pieces) }
    ensures grows { length out.old.items ≤ length out.new.items }
    ensures full { is_nothing result ≡ false → OUTPUT_BYTES < length out.new.items + TEXT_BYTES }
{
    let at = push_pieces(layout.pieces.as_slice(), at, out);
    if at < layout.pieces.as_slice().len() {
        Rest::Pieces { layout, at }
    } else {
        Rest::Nothing
    }
}

/// Appends the lines of rows of partition `part`, from index `at` on, as many as there is room for. Returns the index
/// of the first row that isn't appended, which is the number of rows if all are.
fn push_rows(part: u32, rows: &[Row], at: usize, out: &mut Output) -> usize
    ensures text { out.new.items ++ flat_map (row_text part) (drop result rows.now) ≡
        out.old.items ++ flat_map (row_text part) (drop at rows.now) }
    ensures grows { length out.old.items ≤ length out.new.items }
    ensures full { result < length rows.now → OUTPUT_BYTES < length out.new.items + TEXT_BYTES }
{
    let mut next = at;
    'rows: while next < rows.len() && has_room(out, TEXT_BYTES) {
        push_row(out, part, &rows[next]);
        next += 1;
    }
    next
}

/// Appends the lines of several partitions' rows, from the row `at` of the list `list` on, as many as there is room
/// for. Returns where the first row is that isn't appended: the index of its list, and its index there. If all are
/// appended, the first index is the number of lists.
fn push_lists(lists: &[PartReply], list: usize, at: usize, out: &mut Output) -> (usize, usize)
    ensures text { out.new.items ++ lists_from (drop result.0 lists.now) result.1 ≡
        out.old.items ++ lists_from (drop list lists.now) at }
    ensures grows { length out.old.items ≤ length out.new.items }
    ensures full { result.0 < length lists.now → OUTPUT_BYTES < length out.new.items + TEXT_BYTES }
{
    let mut list = list;
    let mut at = at;
    'lists: while list < lists.len() {
        let one = &lists[list];
        at = push_rows(one.part, one.rows(), at, out);
        if at < one.rows().len() {
            return (list, at);
        }
        list += 1;
        at = 0;
    }
    (list, at)
}

/// Appends the lines of pieces, from index `at` on, as many as there is room for. Returns the index of the first piece
/// that isn't appended, which is the number of pieces if all are.
fn push_pieces(pieces: &[PieceSize], at: usize, out: &mut Output) -> usize
    ensures text { out.new.items ++ flat_map piece_text (drop result pieces.now) ≡
        out.old.items ++ flat_map piece_text (drop at pieces.now) }
    ensures grows { length out.old.items ≤ length out.new.items }
    ensures full { result < length pieces.now → OUTPUT_BYTES < length out.new.items + TEXT_BYTES }
{
    let mut next = at;
    'pieces: while next < pieces.len() && has_room(out, TEXT_BYTES) {
        push_piece(out, &pieces[next]);
        next += 1;
    }
    next
}

/// Appends the beginning of an answer's text, and returns the rest: the lines of its rows or pieces, if it has any.
/// O(bytes appended), no memory.
#[tactic(auto, unfolding(crate::specs::Answers::answer_text))]
pub fn append_answer(answer: Answer, out: &mut Output) -> Rest
    requires { length out.old.items + LONGEST_TEXT ≤ OUTPUT_BYTES }
    ensures text { out.new.items ++ rest_text result ≡ out.old.items ++ answer_text answer }
    ensures grows { length out.old.items ≤ length out.new.items }
{
    match answer {
        Answer::Replied { part, reply } => return append_reply(part, reply, out),
        Answer::Listed { total, lists } => {
            push_head(out, total);
            let (list, at) = (0, 0);
            return Rest::Lists { lists, list, at };
        }
        Answer::Laid { part, layout } => {
            push_layout_head(out, part, &layout);
            return Rest::Pieces { layout, at: 0 };
        }
        Answer::Counted(total) => push_count(out, total),
        Answer::Summed(total) => push_sum(out, total),
        Answer::CheckpointMade(count) => push_checkpoint(out, count),
        Answer::Numbers {
            statistics,
            traffic,
        } => push_numbers(out, &statistics, traffic),
        Answer::Set(policy) => {
            push(out, policy_line(policy));
            push(out, b"\n");
        }
        Answer::Pong => push(out, b"pong\n"),
        Answer::Refused(refusal) => push_refusal(out, &refusal),
        Answer::Bye => push(out, b"bye\n"),
    }
    Rest::Nothing
}

/// Appends the beginning of the text of a reply of partition `part`, and returns the rest: the lines of its rows, if
/// it has any. O(bytes appended), no memory.
#[inline(always)]
pub fn append_reply(part: u32, reply: Reply, out: &mut Output) -> Rest
    requires { length out.old.items + LONGEST_TEXT ≤ OUTPUT_BYTES }
    ensures text { out.new.items ++ rest_text result ≡ out.old.items ++ reply_text part reply }
    ensures grows { length out.old.items ≤ length out.new.items }
{
    match reply {
        Reply::Placed(serial) => push_placed(out, part, serial),
        Reply::Gone(row) => push_gone(out, &row),
        Reply::Changed => push(out, b"changed\n"),
        Reply::NoRow => push(out, b"none\n"),
        Reply::Counted(count) => push_count(out, count),
        Reply::Summed(sum) => push_sum(out, sum),
        Reply::Rows(rows) => {
            push_head(out, rows.as_slice().len() as u64);
            return Rest::Rows { part, rows, at: 0 };
        }
    }
    Rest::Nothing
}
