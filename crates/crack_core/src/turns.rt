//! Partitions asked in order, each for its part of a range.
ghost use Rattle.std.specs.Prelude.{◌≡◌, ◌⊎◌, ◌<◌, ◌≤◌, ◌≤ℤ◌, ◌^◌, neg_ℤ, pos, [], All, length, vec_capacity};
ghost use Rattle.std.specs.Prelude.{Ok, Err, IfOk, IfErr};
ghost use Rattle.std.specs.Result.{result_and};
ghost use Rattle.crack_plain.specs.Plain.{IsSmall};
ghost use Rattle.crack_core.specs.Asking.{AsksEach, asking, counted, summed, total_rows, total_sum};
ghost use Rattle.crack_core.specs.Listing.{rows_listed};

use crate::Query;
use crack_row::{Command, KeyRange, Policy, Refusal, Reply, Row};
use std::alloc::Global;

/// Numbered partitions, which answer one command at a time.
pub trait AskPart {
    ghost use Rattle.std.specs.Prelude.{ℕ, Result};
    ghost use Rattle.crack_row.specs.declared.command.Command.{Command};
    ghost use Rattle.crack_row.specs.declared.command.Policy.{Policy};
    ghost use Rattle.crack_row.specs.declared.command.Reply.{Reply};
    ghost use Rattle.crack_row.specs.declared.refusal.Refusal.{Refusal};

    /// The effect of asking a partition: relates the state before, the partition's number, the command, the policy,
    /// the outcome and the state after.
    ghost asks: { Self → ℕ → Command → Policy → Result Reply Refusal → Self → Type 0 };

    /// Asks the partition with this number one command under this policy, and returns its reply, or why it refuses.
    fn ask_part(&mut self, part: u32, command: Command, policy: Policy) -> Result<Reply, Refusal>
        ensures asks { asks self.old part command policy result self.new }
        ensures small { IfOk result IsSmall };
}

/// The reply of one partition, with the partition's number.
#[derive(Drop)]
pub struct PartReply {
    pub part: u32,
    pub reply: Reply,
}

impl PartReply {
    /// How many rows the reply to a count or a select has; 0 for any other reply.
    pub(crate) fn counted(&self) -> u64
        ensures { result ≡ counted self.now.reply }
    {
        match &self.reply {
            Reply::Counted(count) => *count,
            Reply::Rows(rows) => rows.as_slice().len() as u64,
            _ => 0,
        }
    }

    /// The sum in the reply to a sum; 0 for any other reply.
    pub(crate) fn summed(&self) -> i128
        ensures { result ≡ summed self.now.reply }
    {
        match &self.reply {
            Reply::Summed(sum) => *sum,
            _ => 0,
        }
    }

    /// The rows that the reply lists: none if it isn't the reply to a select. O(1).
    pub fn rows(&self) -> &[Row]
        ensures { result.now ≡ rows_listed self.now.reply }
    {
        match &self.reply {
            Reply::Rows(rows) => rows.as_slice(),
            _ => &[],
        }
    }
}

/// Asks these partitions a query, in order, each about its own part of a range, and returns their replies. Stops at
/// the first refusal, and returns it. Refused with `OutOfMemory`, before any partition is asked, if no memory is found
/// for the list of the replies. Costs what the partitions' commands do.
pub fn ask_parts<A: AskPart>(
    alloc: Global,
    partitions: &mut A,
    policy: Policy,
    query: Query,
    parts: &[(u32, KeyRange)],
) -> Result<Vec<PartReply>, Refusal>
    ensures ok { IfOk result (λ replies. AsksEach A.asks policy (λ range. asking query range) partitions.old parts.now
        (Ok replies.items) partitions.new) }
    ensures err { IfErr result (λ e. AsksEach A.asks policy (λ range. asking query range) partitions.old parts.now
        (Err e) partitions.new ⊎ ((e ≡ Refusal.OutOfMemory) × (partitions.new ≡ partitions.old))) }
    ensures small { IfOk result (λ replies. All (λ (r : PartReply). IsSmall r.reply) replies.items) }
    ensures few { IfOk result (λ replies. length replies.items ≤ length parts.now) }
{
    match Vec::with_capacity(alloc, parts.len()) {
        Ok(mut replies) => match ask_each(partitions, policy, query, parts, &mut replies) {
            Ok(()) => Ok(replies),
            Err(refusal) => Err(refusal),
        },
        Err(_) => Err(Refusal::OutOfMemory),
    }
}

/// Asks these partitions a query, in order, each about its own part of a range, and adds their replies to `replies`,
/// which must be empty and have room for all of them. Stops at the first refusal, and returns it.
#[inline(never)]
fn ask_each<A: AskPart>(
    partitions: &mut A,
    policy: Policy,
    query: Query,
    parts: &[(u32, KeyRange)],
    replies: &mut Vec<PartReply>,
) -> Result<(), Refusal>
    requires none { replies.old.items ≡ [] }
    requires room { length parts.now ≤ vec_capacity replies.old }
    ensures asks { AsksEach A.asks policy (λ range. asking query range) partitions.old parts.now
        (result_and result (Ok replies.new.items)) partitions.new }
    ensures small { All (λ (r : PartReply). IsSmall r.reply) replies.new.items }
    ensures few { length replies.new.items ≤ length parts.now }
{
    'parts: for part in parts {
        match partitions.ask_part(part.0, query.over(part.1), policy) {
            Ok(reply) => replies.push_reserved(PartReply {
                part: part.0,
                reply,
            }),
            Err(refusal) => return Err(refusal),
        }
    }
    Ok(())
}

/// How many rows these replies count or list in total, which must be less than 2^64. O(replies).
pub fn total_rows(replies: &[PartReply]) -> u64
    requires { total_rows replies.now < 2 ^ 64 }
    ensures { result ≡ total_rows replies.now }
{
    let mut total = 0;
    'replies: for reply in replies {
        total += reply.counted();
    }
    total
}

/// The total of the sums in these replies, at most 64 of them. It is from -2^102 to 2^102. O(replies).
pub fn total_sum(replies: &[PartReply]) -> i128
    requires small { All (λ (r : PartReply). IsSmall r.reply) replies.now }
    requires few { length replies.now ≤ 64 }
    ensures value { result ≡ total_sum replies.now }
    ensures small { (neg_ℤ (pos (2 ^ 102)) ≤ℤ result) × (result ≤ℤ pos (2 ^ 102)) }
{
    let mut total = 0;
    'replies: for reply in replies {
        total += reply.summed();
    }
    total
}
