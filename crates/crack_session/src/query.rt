//! The joint reply of several partitions to a query over a range.
ghost use Rattle.std.specs.Prelude.{◌≡◌, ◌≤◌, All, length};
ghost use Rattle.crack_plain.specs.Plain.{IsSmall};
ghost use Rattle.crack_session.specs.Queries.{joint_answer};

use crate::answer::Answer;
use crack_core::{PartReply, Query, total_rows, total_sum};
use std::marker::Model;

/// The replies of several partitions to one query, in the order in which they were asked. Contracts see a list.
#[derive(Drop)]
pub struct ReplyList {
    replies: Vec<PartReply>,
}

impl Model for ReplyList {
    ghost use Rattle.std.specs.Prelude.{List};
    ghost use Rattle.crack_core.specs.declared.turns.PartReply.{PartReply};

    ghost Value = { List PartReply };

    ghost view = { λ l. l.replies.items };
}

impl ReplyList {
    /// Wraps a vector of replies. Takes no memory.
    pub fn from_vec(replies: Vec<PartReply>) -> ReplyList
        ensures { result ≡ replies.items }
    {
        ReplyList { replies }
    }

    /// The replies as a slice.
    pub fn as_slice(&self) -> &[PartReply]
        ensures { result.now ≡ self.now }
    {
        self.replies.as_slice()
    }
}

/// Joins the replies of several partitions to a query: counts and sums are added, and rows are listed one partition
/// after another. O(replies), no memory.
pub fn joined(query: Query, replies: Vec<PartReply>) -> Answer
    requires small { All (λ (r : PartReply). IsSmall r.reply) replies.items }
    requires few { length replies.items ≤ 64 }
    ensures { result ≡ joint_answer query replies.items }
{
    match query {
        Query::CountRows => Answer::Counted(total_rows(replies.as_slice())),
        Query::SumPayloads => Answer::Summed(total_sum(replies.as_slice())),
        Query::SelectRows => {
            let total = total_rows(replies.as_slice());
            let lists = ReplyList::from_vec(replies);
            Answer::Listed { total, lists }
        }
    }
}
