//! The report of a merge.
ghost use Rattle.std.specs.Prelude.{◌≡◌};
ghost use Rattle.crack_state.specs.Merge.{counted_between};

use crack_store::MergeReport;

/// The difference of two reports, counter by counter: `after` minus `before`, or 0 where `after` is lower. O(1).
pub fn counted_between(before: MergeReport, after: MergeReport) -> MergeReport
    ensures { result ≡ counted_between before after }
{
    MergeReport {
        insertions: after.insertions.saturating_sub(before.insertions),
        deletions: after.deletions.saturating_sub(before.deletions),
        evicted: after.evicted.saturating_sub(before.evicted),
        moved: after.moved.saturating_sub(before.moved),
        pulled: after.pulled.saturating_sub(before.pulled),
    }
}
