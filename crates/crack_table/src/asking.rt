//! A worker's command under a partition's lock: the gate is asked first, and then the partition.
ghost use Rattle.std.specs.Prelude.{◌≡◌, ◌⊎◌, ℕ, ◌+◌, ◌<◌, ◌≤◌, [], ◌∷◌, ◌++◌, length, Err, IfOk, IfErr, OnErr, OnOk};
ghost use Rattle.std.specs.Prelude.{Ok, None, IfSome, MatchResult, slice_index_or, slice_set};
ghost use mathlib.Core.List.{IsPrefix};
ghost use Rattle.crack_plain.specs.Plain.{IsSmall, accepted_of, reply_to};
ghost use Rattle.crack_part.specs.Parts.{state_of, table_of, Serves, Spares};
ghost use Rattle.crack_part.specs.Refusals.{refusal_of};
ghost use Rattle.crack_part.specs.Upkeep.{answered};
ghost use Rattle.crack_table.specs.Tables.{with_limit};
ghost use Rattle.crack_table.specs.declared.TheConstants.{GATE_TURNS};
ghost use Rattle.crack_witness.specs.Audits.{and_one};
ghost use Rattle.crack_witness.specs.Histories.{calls_at, AreHistories};
ghost use Rattle.crack_witness.specs.Witnesses.{IsGiven, KnowsHistory, MayRefuseAt, replies_at, replies_to};

use crate::gate::{Gate, pass};
use crack_row::{Command, Policy, Refusal, Reply};
use crack_witness::{Naming, Witnessed, Worker};

/// Asks the gate until it consents, and then asks partition `part` for the worker. The partition stays borrowed from
/// the first call of the gate to the reply, so its lock can't be released in between. Returns the outcome of
/// `Worker::ask`, which may be a refusal. Sets `checkpointed` to how many commands a checkpoint added to the base, if
/// one was made first because the history was full; otherwise to 0. Refused with `GateGaveUp` if the gate refuses
/// `GATE_TURNS` times: then worker and partition are unchanged.
pub(crate) fn ask_gated<J: Naming, G: Gate>(
    gate: &G,
    worker: &mut Worker<J>,
    part: u32,
    witnessed: &mut Witnessed<J>,
    command: Command,
    policy: Policy,
    checkpointed: &mut u64,
) -> Result<Result<Reply, Refusal>, Refusal>
    ensures cause { IfErr result (λ e. e ≡ Refusal.GateGaveUp) }
    ensures turns { OnErr result ((turn : ℕ) → turn < GATE_TURNS → G.may_refuse gate.now part turn) }
    ensures kept_out { OnErr result ((worker.new ≡ worker.old) × (witnessed.new ≡ witnessed.old)) }

    ensures reply { IfOk result (λ answered. IfOk answered (λ reply. reply ≡
        reply_to (state_of witnessed.old.held) command)) }
    ensures small { IfOk result (λ answered. IfOk answered IsSmall) }
    ensures given { IfOk result (λ answered. IfOk answered (λ reply. IsGiven J.owner part
        (record { worker = worker.old.worker; command = command; reply = reply }) worker.old.seen worker.new.seen)) }
    ensures mine { IfOk result (λ answered. IfOk answered (λ reply. calls_at J.owner part worker.old.worker
        worker.new.seen ≡ calls_at J.owner part worker.old.worker (slice_index_or worker.old.seen_by_part part []) ++
        record { worker = worker.old.worker; command = command; reply = reply } ∷ [])) }
    ensures receipts { IfOk result (λ answered. IfOk answered (λ reply. worker.new.receipts ≡
        and_one worker.old.receipts (record {
          part = part;
          position = accepted_of (table_of witnessed.old.held);
          worker = worker.old.worker;
          command = command;
          reply = reply;
        }))) }
    ensures count { IfOk result (λ answered. OnOk answered (replies_to worker.new ≡ replies_to worker.old + 1)) }
    ensures seen_by_part { IfOk result (λ answered. OnOk answered (worker.new.seen_by_part ≡ slice_set
        worker.old.seen_by_part part worker.new.seen)) }
    ensures legal { IfOk result (λ answered. OnOk answered (AreHistories worker.new.seen)) }
    ensures whole { IfOk result (λ answered. OnOk answered ((witnessed.old.part ≡ part) ×
        (worker.new.seen ≡ witnessed.new.log))) }
    ensures table { IfOk result (λ outcome. OnOk outcome (table_of witnessed.new.held ≡
        answered witnessed.old.held.limits (table_of witnessed.old.held) command)) }
    ensures store { IfOk result (λ answered. OnOk answered (Serves policy witnessed.old.held command
        witnessed.new.held.store)) }
    ensures checkpoints { OnOk result (witnessed.new.held.checkpointed ≡ witnessed.old.held.checkpointed +
        checkpointed.new) }
    ensures opened { (witnessed.new.held.keys ≡ witnessed.old.held.keys) × (witnessed.new.held.limits ≡
        witnessed.old.held.limits) × (witnessed.new.part ≡ witnessed.old.part) }
    ensures seen { IsPrefix worker.old.seen worker.new.seen × IsPrefix witnessed.old.log witnessed.new.log }
    ensures worker { worker.new.worker ≡ worker.old.worker }

    ensures strange { IfOk result (λ answered. part < length worker.old.seen_by_part →
        (KnowsHistory J.owner worker.old part witnessed.old → ⊥) →
        (answered ≡ Err (Refusal.StrangeReceipt part (replies_at worker.old part))) × (witnessed.new ≡ witnessed.old)) }
    ensures refused { IfOk result (λ answered. part < length worker.old.seen_by_part →
        KnowsHistory J.owner worker.old part witnessed.old → IfSome (refusal_of witnessed.old.held command) (λ e.
        (answered ≡ Err e) × (witnessed.new ≡ witnessed.old))) }
    ensures memory { IfOk result (λ answered. part < length worker.old.seen_by_part →
        KnowsHistory J.owner worker.old part witnessed.old → refusal_of witnessed.old.held command ≡ None →
        IfErr answered (λ e. e ≡ Refusal.OutOfMemory)) }
    ensures spared { IfOk result (λ answered. OnErr answered (Spares policy witnessed.old.held command
        witnessed.new.held.store)) }
    ensures causes { IfOk result (λ answered. IfErr answered (MayRefuseAt J.owner witnessed.old part
        command worker.old)) }
    ensures err { IfOk result (λ answered. OnErr answered ((worker.new ≡ worker.old) ×
        (witnessed.new.log ≡ witnessed.old.log) × (table_of witnessed.new.held ≡ table_of witnessed.old.held))) }
{
    pass(gate, part)?;
    let before = witnessed.partition().checkpointed();
    let answered = worker.ask(witnessed, part, command, policy);
    *checkpointed = witnessed.partition().checkpointed() - before;
    Ok(answered)
}

/// The same outcome, except that a refusal with `HistoryFull` carries `limit`, the table's limit: outside the lock no
/// contract knows the partition's own limit.
pub(crate) fn with_table_limit(
    answered: Result<Reply, Refusal>,
    limit: u64,
) -> Result<Reply, Refusal>
    ensures { MatchResult answered (λ reply. result ≡ Ok reply) (λ e. result ≡ Err (with_limit limit e)) }
{
    match answered {
        Ok(reply) => Ok(reply),
        Err(refusal) => Err(with_limit(refusal, limit)),
    }
}

/// The same refusal, except that `HistoryFull` carries `limit`.
fn with_limit(refusal: Refusal, limit: u64) -> Refusal
    ensures { result ≡ with_limit limit refusal }
{
    match refusal {
        Refusal::HistoryFull { .. } => Refusal::HistoryFull { length: limit },
        other => other,
    }
}
