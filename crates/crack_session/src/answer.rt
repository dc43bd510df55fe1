//! Answers to statements.
ghost use Rattle.std.specs.Prelude.{◌≡◌, ◌≤◌, ℕ, [], ◌∷◌, Result, length};
ghost use Rattle.crack_row.specs.declared.layout.Layout.{Layout};
ghost use Rattle.crack_row.specs.declared.refusal.Refusal.{Refusal};
ghost use Rattle.crack_core.specs.Asking.{asking};
ghost use Rattle.crack_core.specs.Routes.{route, parts_of};
ghost use Rattle.crack_session.specs.AskingDesks.{AsksSeveral, AsksDesk};
ghost use Rattle.crack_session.specs.Answers.{IsAnswerTo, IsAsked, AsksParts, IsLaidOut};
ghost use Rattle.crack_session.specs.Answers.{IsCheckpointAnswer, is_short_answer, answer_from, farewell};
ghost use Rattle.crack_session.specs.Calls.{Checkpointed, Looked, IsOneAsked, AreSeveralAsked};
ghost use Rattle.crack_session.specs.Calls.{ArePartsAsked, IsMadeOf};
ghost use Rattle.crack_session.specs.Queries.{joint_answer};

use crate::desk::Desk;
use crate::query::{ReplyList, joined};
use crate::watching::{watch, watch_part};
use crack_commands::{ClosingLine, Statement, Traffic};
use crack_core::{AskPart, PartReply, Query, ask_parts, only_part, parts_of, route};
use crack_plain::Statistics;
use crack_row::{Command, Key, KeyRange, Layout, Policy, Refusal, Reply};
use std::alloc::Global;

/// The answer to a statement, before its text is written.
#[derive(Drop)]
pub enum Answer {
    /// The reply of one partition.
    Replied {
        part: u32,
        reply: Reply,
    },
    /// How many rows several partitions counted in total.
    Counted(u64),
    /// The total of the payloads that several partitions added up.
    Summed(i128),
    /// The rows that several partitions listed, and their total number.
    Listed {
        total: u64,
        lists: ReplyList,
    },
    /// The layout of this partition.
    Laid {
        part: u32,
        layout: Layout,
    },
    /// A checkpoint was made: how many commands the partition had accepted since its previous one.
    CheckpointMade(u64),
    /// The statistics of one partition, or those of the table with the traffic of its server, if there is a server.
    Numbers {
        statistics: Statistics,
        traffic: Option<Traffic>,
    },
    /// The session uses this policy from now on.
    Set(Policy),
    /// The answer to `ping`.
    Pong,
    /// The line or its command was refused.
    Refused(Refusal),
    /// The answer to `quit`.
    Bye,
}

impl Answer {
    /// Whether the answer is a refusal for lack of room: `HistoryFull`, `OutOfMemory`, `NoCell` or `LifeOver`.
    pub fn is_short(&self) -> bool
        ensures { result ≡ is_short_answer self.now }
    {
        matches!(
            self,
            Answer::Refused(
                Refusal::HistoryFull { length: _ }
                    | Refusal::OutOfMemory
                    | Refusal::NoCell
                    | Refusal::LifeOver
            )
        )
    }
}

/// Executes what a statement requires at the desk, with this policy, and returns the answer. An insert goes to the
/// partition of its key, a delete or an update to the partition in its row number, and a count, sum or select to each
/// partition that holds a part of the range. A refusal is the answer `Refused`. Takes no memory but the desk's, except
/// for a query of several partitions.
pub fn answer_statement<D: Desk>(
    alloc: Global,
    desk: &mut D,
    policy: Policy,
    statement: Statement,
) -> Answer
    ensures { AsksDesk D.bounds D.splits D.tables D.leads (λ bounds splits tables. IsAnswerTo bounds splits tables
        statement result) (λ splits calls. IsMadeOf splits policy statement result calls) desk.old desk.new }
{
    let (part, command) = match statement {
        Statement::Insert { key, payload } => {
            (part_with_key(desk, key), Command::Insert { key, payload })
        }
        Statement::Delete(row) => {
            let serial = row.serial;
            (row.part, Command::Delete { serial })
        }
        Statement::Update { row, key, payload } => {
            let serial = row.serial;
            let command = Command::Update {
                serial,
                key,
                payload,
            };
            (row.part, command)
        }
        Statement::Count(range) => return ask_range(alloc, desk, policy, Query::CountRows, range),
        Statement::Sum(range) => return ask_range(alloc, desk, policy, Query::SumPayloads, range),
        Statement::Select(range) => return ask_range(alloc, desk, policy, Query::SelectRows, range),
        Statement::Layout(part) => return lay_out(desk, part),
        Statement::Checkpoint(part) => return checkpoint_part(desk, part),
        Statement::Watch => return watch(desk),
        Statement::WatchPart(part) => return watch_part(desk, part),
        Statement::Policy(next) => return Answer::Set(next),
        Statement::Ping => return Answer::Pong,
        Statement::End(ending) => return farewell(ending),
    };
    ask_part(desk, policy, part, command)
}

/// The answer to a line that ends a session: `Bye` to `quit`, and the refusal `BadStatement` to a line of an HTTP
/// request.
#[inline(always)]
fn farewell(ending: ClosingLine) -> Answer
    ensures { result ≡ farewell ending }
{
    match ending {
        ClosingLine::Quit => Answer::Bye,
        ClosingLine::Http => Answer::Refused(Refusal::BadStatement),
    }
}

/// The number of the partition of the desk's table that holds a key. O(log partitions), no memory.
#[inline(always)]
pub fn part_with_key<D: Desk>(desk: &D, key: Key) -> u32
    ensures { result ≡ route (D.splits desk.now) key.0 }
{
    route(desk.splits(), key)
}

/// Executes a command on one partition, and answers with its reply, or with the refusal of the desk.
#[inline(never)]
fn ask_part<D: Desk>(desk: &mut D, policy: Policy, part: u32, command: Command) -> Answer
    ensures { AsksDesk D.bounds D.splits D.tables D.leads (λ bounds splits tables. IsAsked bounds splits tables part
        command result) (λ splits calls. IsOneAsked policy part command result calls) desk.old desk.new }
{
    match desk.ask(part, command, policy) {
        Ok(reply) => Answer::Replied { part, reply },
        Err(refusal) => Answer::Refused(refusal),
    }
}

/// Executes a query on each partition that holds a part of the range, and answers with the joint reply, or with the
/// first refusal. If only one partition holds a part, takes no memory but the desk's.
fn ask_range<D: Desk>(
    alloc: Global,
    desk: &mut D,
    policy: Policy,
    query: Query,
    range: KeyRange,
) -> Answer
    ensures { AsksDesk D.bounds D.splits D.tables D.leads (λ bounds splits tables. AsksParts bounds splits tables query
        (parts_of splits range) result) (λ splits calls. ArePartsAsked policy (λ range. asking query range)
        (λ replies. joint_answer query replies) (parts_of splits range) result calls) desk.old desk.new }
{
    if let Some(part) = only_part(desk.splits(), range) {
        return ask_part(desk, policy, part, query.over(range));
    }
    match parts_of(alloc, desk.splits(), range) {
        Ok(parts) => ask_several(alloc, desk, policy, query, parts.as_slice()),
        Err(refusal) => Answer::Refused(refusal),
    }
}

/// A borrowed desk, whose partitions `ask_parts` can ask in turn.
#[derive(Drop)]
struct Lent<'a, D> {
    desk: &'a mut D,
}

impl<'a, D: Desk> AskPart for Lent<'a, D> {
    ghost use Rattle.std.specs.Prelude.{◌≡◌};
    ghost use Rattle.crack_session.specs.AskingDesks.{AsksOnce};

    ghost asks = { λ old part command policy outcome new. (new.desk.ghost_name ≡ old.desk.ghost_name) ×
        AsksOnce ⟦<D as Desk>⟧.bounds ⟦<D as Desk>⟧.splits ⟦<D as Desk>⟧.tables ⟦<D as Desk>⟧.leads part command
        policy outcome old.desk.now new.desk.now };

    /// Executes a command on partition `part` of the desk. Refused as the desk refuses it.
    fn ask_part(&mut self, part: u32, command: Command, policy: Policy) -> Result<Reply, Refusal> {
        self.desk.ask(part, command, policy)
    }
}

/// Executes a query on several partitions in turn: `parts` has the number of each and its part of the range. Answers
/// with the joint reply, or with the first refusal. If no memory is found for the replies, answers `OutOfMemory` and
/// executes nothing.
fn ask_several<D: Desk>(
    alloc: Global,
    desk: &mut D,
    policy: Policy,
    query: Query,
    parts: &[(u32, KeyRange)],
) -> Answer
    requires { length parts.now ≤ 64 }
    ensures { AsksDesk D.bounds D.splits D.tables D.leads (λ bounds splits tables. AsksSeveral bounds splits tables
        query parts.now result) (λ splits calls. AreSeveralAsked policy (λ range. asking query range)
        (λ replies. joint_answer query replies) parts.now result calls) desk.old desk.new }
{
    let mut lent = Lent { desk };
    ask_lent(alloc, &mut lent, policy, query, parts)
}

/// Does what `ask_several` does, at the desk that `lent` borrows.
fn ask_lent<D: Desk>(
    alloc: Global,
    lent: &mut Lent<'_, D>,
    policy: Policy,
    query: Query,
    parts: &[(u32, KeyRange)],
) -> Answer
    requires { length parts.now ≤ 64 }
    ensures asks { AsksDesk D.bounds D.splits D.tables D.leads (λ bounds splits tables. AsksSeveral bounds splits
        tables query parts.now result) (λ splits calls. AreSeveralAsked policy (λ range. asking query range)
        (λ replies. joint_answer query replies) parts.now result calls) lent.old.desk.now lent.new.desk.now }
    ensures lent { lent.new.desk.ghost_name ≡ lent.old.desk.ghost_name }
{
    match ask_parts(alloc, lent, policy, query, parts) {
        Ok(replies) => joined(query, replies),
        Err(refusal) => Answer::Refused(refusal),
    }
}

/// Answers with the layout of one partition, or with the refusal of the desk.
fn lay_out<D: Desk>(desk: &D, part: u32) -> Answer
    ensures { AsksDesk D.bounds D.splits D.tables D.leads (λ bounds splits tables new. IsLaidOut splits tables part
        result × (new ≡ tables)) (λ splits calls. (outcome : Result Layout Refusal) × (calls ≡ Looked part outcome ∷
        []) × (result ≡ answer_from (Answer.Laid part) outcome)) desk.now desk.now }
{
    match desk.layout(part) {
        Ok(layout) => Answer::Laid { part, layout },
        Err(refusal) => Answer::Refused(refusal),
    }
}

/// Makes a checkpoint of one partition, and answers with the number of commands that it had accepted since its
/// previous one, or with the refusal of the desk.
fn checkpoint_part<D: Desk>(desk: &mut D, part: u32) -> Answer
    ensures { AsksDesk D.bounds D.splits D.tables D.leads (λ bounds splits tables. IsCheckpointAnswer tables
        part result) (λ splits calls. (outcome : Result ℕ Refusal) × (calls ≡ Checkpointed part outcome ∷ []) ×
        (result ≡ answer_from Answer.CheckpointMade outcome)) desk.old desk.new }
{
    match desk.checkpoint(part) {
        Ok(count) => Answer::CheckpointMade(count),
        Err(refusal) => Answer::Refused(refusal),
    }
}
