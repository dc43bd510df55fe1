//! Commands to one partition, and queries over a range of all partitions.
ghost use Rattle.std.specs.Prelude.{◌≡◌, ◌⊎◌, ◌≤◌, ◌≤ℤ◌, ◌^◌, neg_ℤ, pos, All, length, Ok, Err, IfOk, IfErr};
ghost use Rattle.std.specs.Prelude.{if◌then◌else◌};
ghost use Rattle.std.specs.Option.{option_map_or};
ghost use Rattle.crack_row.specs.declared.Key.{Key};
ghost use Rattle.crack_row.specs.declared.Payload.{Payload};
ghost use Rattle.crack_row.specs.declared.Serial.{Serial};
ghost use Rattle.crack_row.specs.declared.command.Command.TheVariants.{Insert, Delete, Update};
ghost use Rattle.crack_plain.specs.Plain.{PlainState, IsSmall, reply_to};
ghost use Rattle.crack_core.specs.Asking.{Inserts, Deletes, Updates, CountsRange, Sums, asking, AsksInTurn};
ghost use Rattle.crack_core.specs.Routes.{parts_of};

use crate::turns::{AskPart, PartReply, ask_parts, total_rows, total_sum};
use crate::{Core, Step, only_part};
use crack_row::{Command, Key, KeyRange, Payload, Policy, Refusal, Reply, Row, RowNo, Serial};

/// A query about the rows of a range.
#[derive(Clone, Copy, Debug)]
pub enum Query {
    /// How many rows there are.
    CountRows,
    /// The sum of the rows' payloads.
    SumPayloads,
    /// The rows themselves.
    SelectRows,
}

impl Query {
    /// The command by which one partition is asked this query about this range.
    pub fn over(self, range: KeyRange) -> Command
        ensures { result ≡ asking self range }
    {
        match self {
            Query::CountRows => Command::Count(range),
            Query::SumPayloads => Command::Sum(range),
            Query::SelectRows => Command::Select(range),
        }
    }
}

impl Core {
    /// Inserts a row into the partition of its key, and returns its row number. Refused as `step` is, with
    /// `HistoryFull`, `LifeOver`, `NoCell` or `OutOfMemory`. Costs what the step does, and O(log splits).
    pub fn insert(&mut self, key: Key, payload: Payload) -> Result<RowNo, Refusal>
        ensures inserts { Inserts self.old.limits self.old.splits key payload result self.old.parts
            self.new.parts }
        ensures opened { (self.new.splits ≡ self.old.splits) × (self.new.limits ≡ self.old.limits) }
    {
        let part = self.route(key);
        let command = Command::Insert { key, payload };
        match self.ask_part(part, command, Policy::Gradual) {
            Ok(reply) => Ok(RowNo {
                part,
                serial: serial_in(&reply),
            }),
            Err(refusal) => Err(refusal),
        }
    }

    /// Deletes the row with this number, and returns it as it was, or `None` if it didn't exist. Refused as `step` is,
    /// with `NoSuchPartition`, `HistoryFull`, `LifeOver` or `OutOfMemory`. Costs what the step does.
    pub fn delete(&mut self, row: RowNo) -> Result<Option<Row>, Refusal>
        ensures deletes { Deletes self.old.limits self.old.splits row result self.old.parts self.new.parts }
        ensures opened { (self.new.splits ≡ self.old.splits) × (self.new.limits ≡ self.old.limits) }
    {
        let command = Command::Delete { serial: row.serial };
        match self.ask_part(row.part, command, Policy::Gradual) {
            Ok(reply) => Ok(gone_in(&reply)),
            Err(refusal) => Err(refusal),
        }
    }

    /// Replaces the key and the payload of the row with this number, which keeps its row number. Returns whether the
    /// row exists; if it doesn't, no row changes. Refused as `step` is, and so with `KeyOutside` if the new key
    /// belongs to another partition. Costs what the step does.
    pub fn update(&mut self, row: RowNo, key: Key, payload: Payload) -> Result<bool, Refusal>
        ensures updates { Updates self.old.limits self.old.splits row key payload result self.old.parts
            self.new.parts }
        ensures opened { (self.new.splits ≡ self.old.splits) × (self.new.limits ≡ self.old.limits) }
    {
        let command = Command::Update {
            serial: row.serial,
            key,
            payload,
        };
        match self.ask_part(row.part, command, Policy::Gradual) {
            Ok(reply) => Ok(is_changed(&reply)),
            Err(refusal) => Err(refusal),
        }
    }

    /// Counts the rows whose keys are in a range: asks each partition that has a part of the range, in order, by a
    /// step under this policy. Refused with `HistoryFull`, `LifeOver` or `OutOfMemory` as `step` is; partitions asked
    /// before the one that refuses have then answered. If several partitions are asked, takes memory for a reply of
    /// each. Costs what the steps do.
    pub fn count(&mut self, range: KeyRange, policy: Policy) -> Result<u64, Refusal>
        ensures counts { CountsRange self.old.limits self.old.splits policy range result self.old.parts self.new.parts }
        ensures opened { (self.new.splits ≡ self.old.splits) × (self.new.limits ≡ self.old.limits) }
    {
        if let Some(part) = only_part(self.splits(), range) {
            return match self.ask_part(part, Command::Count(range), policy) {
                Ok(reply) => Ok(PartReply { part, reply }.counted()),
                Err(refusal) => Err(refusal),
            };
        }
        match self.ask_range(Query::CountRows, range, policy) {
            Ok(replies) => Ok(total_rows(replies.as_slice())),
            Err(refusal) => Err(refusal),
        }
    }

    /// Sums the payloads of the rows whose keys are in a range: asks the partitions as `count` does. Refused as
    /// `count` is. Costs what the steps do.
    pub fn sum(&mut self, range: KeyRange, policy: Policy) -> Result<i128, Refusal>
        ensures sums { Sums self.old.limits self.old.splits policy range result self.old.parts self.new.parts }
        ensures small { IfOk result (λ sum. (neg_ℤ (pos (2 ^ 102)) ≤ℤ sum) × (sum ≤ℤ pos (2 ^ 102))) }
        ensures opened { (self.new.splits ≡ self.old.splits) × (self.new.limits ≡ self.old.limits) }
    {
        if let Some(part) = only_part(self.splits(), range) {
            return match self.ask_part(part, Command::Sum(range), policy) {
                Ok(reply) => Ok(PartReply { part, reply }.summed()),
                Err(refusal) => Err(refusal),
            };
        }
        match self.ask_range(Query::SumPayloads, range, policy) {
            Ok(replies) => Ok(total_sum(replies.as_slice())),
            Err(refusal) => Err(refusal),
        }
    }

    /// Asks each partition that has a part of the range this query, in order, by a step under this policy. Returns
    /// their replies, in the same order. Refused as `count` is.
    pub(crate) fn ask_range(
        &mut self,
        query: Query,
        range: KeyRange,
        policy: Policy,
    ) -> Result<Vec<PartReply>, Refusal>
        ensures ok { IfOk result (λ replies. AsksInTurn self.old.limits self.old.splits policy (λ range. asking query
            range) self.old.parts (parts_of self.old.splits range) (Ok replies.items) self.new.parts) }
        ensures err { IfErr result (λ e. AsksInTurn self.old.limits self.old.splits policy (λ range. asking query
            range) self.old.parts (parts_of self.old.splits range) (Err e) self.new.parts
            ⊎ ((e ≡ Refusal.OutOfMemory) × (self.new.parts ≡ self.old.parts))) }
        ensures small { IfOk result (λ replies. All (λ (r : PartReply). IsSmall r.reply) replies.items) }
        ensures few { IfOk result (λ replies. length replies.items ≤ 64) }
        ensures opened { (self.new.splits ≡ self.old.splits) × (self.new.limits ≡ self.old.limits) }
    {
        self.recall_invariant();
        match self.parts_of(range) {
            Ok(parts) => ask_parts(*parts.allocator(), self, policy, query, parts.as_slice()),
            Err(refusal) => Err(refusal),
        }
    }
}

impl AskPart for Core {
    ghost use Rattle.crack_core.specs.Asking.{AsksCore};

    ghost asks = { AsksCore };

    /// Asks the partition by one `step`. Refused as `step` is.
    fn ask_part(&mut self, part: u32, command: Command, policy: Policy) -> Result<Reply, Refusal> {
        let answered = self.step(Step {
            part,
            command,
            policy,
        });
        self.recall_invariant();
        answered
    }
}

/// The serial of the inserted row in the reply to an insert; 0 for any other reply.
fn serial_in(reply: &Reply) -> Serial
    ensures { (s : PlainState) (key : Key) (payload : Payload) → reply.now ≡ reply_to s (Insert key payload) →
        reply.now ≡ Reply.Placed result }
{
    match reply {
        Reply::Placed(serial) => *serial,
        _ => Serial(0),
    }
}

/// The deleted row in the reply to a delete; `None` if there was no such row.
fn gone_in(reply: &Reply) -> Option<Row>
    ensures { (s : PlainState) (serial : Serial) → reply.now ≡ reply_to s (Delete serial) →
        reply.now ≡ option_map_or Reply.Gone result Reply.NoRow }
{
    match reply {
        Reply::Gone(row) => Some(*row),
        _ => None,
    }
}

/// Whether the reply to an update says that the row exists; false for any other reply.
fn is_changed(reply: &Reply) -> bool
    ensures { (s : PlainState) (serial : Serial) (key : Key) (payload : Payload) →
        reply.now ≡ reply_to s (Update serial key payload) →
        reply.now ≡ (if result then Reply.Changed else Reply.NoRow) }
{
    matches!(reply, Reply::Changed)
}
