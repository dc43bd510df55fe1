//! Gates: code of a program that may delay or refuse a command under a partition's lock, and is notified of
//! checkpoints that were due.
ghost use Rattle.std.specs.Prelude.{◌≡◌, ◌<◌, ℕ, IfErr};
ghost use Rattle.std.specs.Bool.{OnFalse};
ghost use Rattle.crack_table.specs.declared.TheConstants.{GATE_TURNS};

use crate::GATE_TURNS;
use crack_row::Refusal;

/// A gate decides, while a partition's lock is held, whether a worker's command is executed. Each of its calls for a
/// command is a turn: after a refusal it is called again, at most `GATE_TURNS` times. A program or a test can wait
/// here.
///
/// An example, from a test:
///
/// ```
/// fn inside(&self, _part: u32, _turn: u32) -> bool {
///     true
/// }
///
/// fn note_checkpoint(&self, part: u32, _entries: u64) {
///     if let Ok(layout) = self.table.layout(self.rt, part) {
///         self.rows.fetch_add(layout.rows, Ordering::SeqCst);
///     }
/// }
/// ```
pub trait Gate {
    /// Whether the gate may refuse at this partition, at this turn.
    ghost may_refuse: { Self → ℕ → ℕ → Type 0 };

    /// Whether a command at partition `part` may be executed. Called under the partition's lock, with turn 0, 1, ..
    /// until it returns true, at most `GATE_TURNS` times for one command.
    fn inside(&self, part: u32, turn: u32) -> bool
        ensures { OnFalse result (may_refuse self.now part turn) };

    /// Notes that partition `part` made a checkpoint because one was due; `entries` is how many commands the partition
    /// had answered since the previous checkpoint. The worker whose command found the history full calls this once for
    /// each such checkpoint, after it has released the lock. Does nothing unless a gate defines it.
    fn note_checkpoint(&self, part: u32, entries: u64) {
        let _ = (part, entries);
    }
}

/// A gate that always consents.
#[derive(Clone, Copy, Drop, Debug)]
pub struct OpenGate;

impl Gate for OpenGate {
    ghost may_refuse = { λ gate part turn. ⊥ };

    /// Always true.
    fn inside(&self, _part: u32, _turn: u32) -> bool {
        true
    }
}

/// Asks a gate, for a command at partition `part`, until it consents. Refused with `GateGaveUp` if it refuses
/// `GATE_TURNS` times.
pub(crate) fn pass<G: Gate>(gate: &G, part: u32) -> Result<(), Refusal>
    ensures cause { IfErr result (λ e. e ≡ Refusal.GateGaveUp) }
    ensures turns { IfErr result (λ _. (turn : ℕ) → turn < GATE_TURNS → G.may_refuse gate.now part turn) }
{
    'turns: for turn in 0..GATE_TURNS {
        if gate.inside(part, turn) {
            return Ok(());
        }
    }
    Err(Refusal::GateGaveUp)
}

/// Notifies the gate that partition `part` made a checkpoint of `checkpointed` commands because one was due. Does
/// nothing if `checkpointed` is 0: then no checkpoint was made.
#[inline(always)]
pub(crate) fn note_due_checkpoint<G: Gate>(gate: &G, part: u32, checkpointed: u64) {
    if checkpointed > 0 {
        gate.note_checkpoint(part, checkpointed);
    }
}
