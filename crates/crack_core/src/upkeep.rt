//! The effect of automatic upkeep.
ghost use Rattle.std.specs.Prelude.{ℕ, List, Result};
ghost use Rattle.crack_row.specs.declared.refusal.Refusal.{Refusal};
ghost use Rattle.crack_plain.specs.Plain.{PlainView};
ghost use Rattle.crack_core.specs.Upkeep.{IsKeptUp};
ghost use Rattle.crack_core.specs.declared.step.Job.{Job};
ghost use Rattle.crack_core.specs.declared.step.Done.{Done};

use crate::Core;

/// States that automatic upkeep has the effect of requested checkpoints, and does nothing. The statement: after any
/// jobs under automatic upkeep, a partition has the same plain table as under upkeep on request, if each checkpoint
/// that automatic upkeep made is requested as a job right before the step for which it was made.
pub fn upkeep_is_checkpoints(core: &Core)
    ensures { (part : ℕ) (jobs : List Job) (results : List (Result Done Refusal)) (table : PlainView) →
        IsKeptUp core.now.limits part jobs results table }
{
    core.recall_invariant();
}
