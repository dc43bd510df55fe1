//! `Desk` for a core, which executes commands as worker 0.
ghost use Rattle.std.specs.Prelude.{◌≡◌, ◌+◌, is_ok, IfOk, OnOk, slice_get, if◌then◌else◌};
ghost use Rattle.crack_plain.specs.Plain.{IsSmall, checkpointed_table};
ghost use Rattle.crack_core.specs.Steps.{bounds_from, IsOutcomeAt, IsCheckpointOutcome, tables_of, tables_after};
ghost use Rattle.crack_core.specs.Steps.{changed_at, expected_checkpoint, accepted_by};
ghost use Rattle.crack_core.specs.Jobs.{IsCheckpointedAt};
ghost use Rattle.crack_session.specs.Calls.{Asked, Checkpointed};
ghost use Rattle.crack_session.specs.Leads.{core_leads};

use crate::desk::Desk;
use crack_commands::Traffic;
use crack_core::{Core, Step};
use crack_plain::Statistics;
use crack_row::{Bound, Command, Layout, Policy, Refusal, Reply};

impl Desk for Core {
    ghost use Rattle.std.specs.Prelude.{Some};
    ghost use Rattle.crack_core.specs.Steps.{bounds_from, tables_of, accepted_by};
    ghost use Rattle.crack_session.specs.Leads.{core_leads};

    ghost tables = { λ c. Some (tables_of c.parts) };

    ghost bounds = { λ c. bounds_from c.limits };

    ghost splits = { λ c. c.splits };

    ghost accepted = { λ c. accepted_by c.parts };

    ghost leads = { λ c call d. core_leads c call d };

    /// Executes the command, or refuses it, as `Core::step` does.
    #[inline(always)]
    fn ask(&mut self, part: u32, command: Command, policy: Policy) -> Result<Reply, Refusal>
        ensures outcome { IsOutcomeAt (bounds_from self.old.limits) self.old.splits (tables_of self.old.parts) part
            command result }
        ensures after { tables_of self.new.parts ≡ tables_after (bounds_from self.old.limits) (tables_of self.old.parts)
            part command result }
        ensures small { IfOk result IsSmall }
        ensures opened { (self.new.splits ≡ self.old.splits) × (self.new.limits ≡ self.old.limits) }
        ensures accepted { accepted_by self.new.parts ≡ (if is_ok result then accepted_by self.old.parts + 1 else
            accepted_by self.old.parts) }
        ensures leads { core_leads self.old (Asked part command policy result) self.new }
    {
        self.step(Step {
            part,
            command,
            policy,
        })
    }

    /// Makes a checkpoint as `Core::checkpoint` does.
    fn checkpoint(&mut self, part: u32) -> Result<u64, Refusal>
        ensures outcome { IsCheckpointOutcome (slice_get (tables_of self.old.parts) part) result }
        // It takes no memory, so `NoSuchPartition` is the only refusal.
        ensures expected { result ≡ expected_checkpoint (slice_get (tables_of self.old.parts) part) }
        ensures after { tables_of self.new.parts ≡ changed_at checkpointed_table (tables_of self.old.parts)
            part result }
        // The named partition is checkpointed, and nothing else is changed.
        ensures checkpoints { OnOk result (IsCheckpointedAt part self.old.parts self.new.parts) }
        ensures opened { (self.new.splits ≡ self.old.splits) × (self.new.limits ≡ self.old.limits) }
        ensures accepted { accepted_by self.new.parts ≡ accepted_by self.old.parts }
        ensures leads { core_leads self.old (Checkpointed part result) self.new }
    {
        Core::checkpoint(self, part)
    }

    /// The layout of a partition, as `Core::layout` returns it.
    fn layout(&self, part: u32) -> Result<Layout, Refusal> {
        Core::layout(self, part)
    }

    /// The statistics of a partition, as `Core::statistics` returns them.
    fn statistics(&self, part: u32) -> Result<Statistics, Refusal> {
        Core::statistics(self, part)
    }

    /// `None`: a core belongs to no server.
    fn service(&self) -> Option<Traffic> {
        None
    }

    /// The core's splits.
    fn splits(&self) -> &[Bound] {
        Core::splits(self)
    }

    /// How many commands the core accepted.
    fn accepted(&self) -> u64 {
        Core::accepted(self)
    }
}
