//! The statistics of a table, for monitoring.
ghost use Rattle.std.specs.Prelude.{◌≡◌, ◌+◌, List, length, [], ◌∷◌, Some, None, Ok, Result};
ghost use Rattle.crack_row.specs.declared.refusal.Refusal.{Refusal};
ghost use Rattle.crack_plain.specs.Plain.{PlainView};
ghost use Rattle.crack_plain.specs.Watching.{no_statistics};
ghost use Rattle.crack_plain.specs.declared.statistics.Statistics.{Statistics};
ghost use Rattle.crack_session.specs.Answers.{AreNumbersOfEach, AreWatched, IsWatched, added_up, answer_from};
ghost use Rattle.crack_session.specs.Calls.{Call, Calls, AreAllMeasured, AreMeasured, Measured};
ghost use Rattle.crack_session.specs.AskingDesks.{AsksDesk};

use crate::answer::Answer;
use crate::desk::Desk;
use crack_plain::Statistics;
use crack_row::Refusal;

/// Answers with the statistics of one partition, or with the refusal of the desk if there is no such partition. Takes
/// no memory.
pub fn watch_part<D: Desk>(desk: &D, part: u32) -> Answer
    ensures { AsksDesk D.bounds D.splits D.tables D.leads (λ bounds splits tables new. IsWatched tables part result ×
        (new ≡ tables)) (λ splits calls. (outcome : Result Statistics Refusal) × (calls ≡ Measured part outcome ∷ []) ×
        (result ≡ answer_from (λ statistics. Answer.Numbers statistics None) outcome)) desk.now desk.now }
{
    match desk.statistics(part) {
        Ok(statistics) => Answer::Numbers {
            statistics,
            traffic: None,
        },
        Err(refusal) => Answer::Refused(refusal),
    }
}

/// Answers with the sum of the statistics of all partitions, and the traffic of the server, if there is one; or with
/// the first refusal of the desk. One call for each partition, and no memory.
pub fn watch<D: Desk>(desk: &D) -> Answer
    ensures { AsksDesk D.bounds D.splits D.tables D.leads (λ bounds splits tables new. AreWatched tables result ×
        (new ≡ tables)) (λ splits calls. AreAllMeasured splits result calls) desk.now desk.now }
{
    match add_up(desk) {
        Ok(statistics) => Answer::Numbers {
            statistics,
            traffic: desk.service(),
        },
        Err(refusal) => Answer::Refused(refusal),
    }
}

/// Adds up the statistics of all partitions, from partition 0 on. If the desk refuses those of one, returns this
/// refusal.
fn add_up<D: Desk>(desk: &D) -> Result<Statistics, Refusal>
    ensures are { (known : List PlainView) → D.tables desk.now ≡ Some known → (each : List Statistics) ×
        AreNumbersOfEach known each × (result ≡ Ok (added_up no_statistics each)) }
    ensures were { (calls : List Call) × Calls D.leads desk.now calls desk.now ×
        AreMeasured (length (D.splits desk.now) + 1) result calls }
{
    let last = desk.splits().len() as u32;
    let mut sum = Statistics::none();
    'parts: for number in 0..last + 1 {
        match desk.statistics(number) {
            Ok(one) => sum = sum.plus(one),
            Err(refusal) => return Err(refusal),
        }
    }
    Ok(sum)
}
