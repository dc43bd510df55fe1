//! Partitions that are asked directly, without locks and receipts.

use crate::report::{BenchHost, Outcome};
use crate::table_workers::AnswersCommands;
use crate::workers::measuring::POLICY;
use crate::workers::mix::{Mix, PART_WIDTH, PARTS_EACH, PartSpan, count_all};
use crack_part::Partition;
use crack_row::{BoundNumber, Command, GREATEST_LIMIT, KeyRange, Refusal, Reply};
use std::alloc::Global;

impl AnswersCommands for Vec<Partition> {
    /// Executes the command on partition `part`, as `Partition::apply` does.
    fn ask(&mut self, part: u32, command: Command) -> Result<Reply, Refusal> {
        match self.get_mut(part as usize) {
            Some(partition) => partition.apply(command, POLICY),
            None => Err(Refusal::NoSuchPartition),
        }
    }
}

/// Runs the commands of one worker on partitions that are asked directly, without a table's locks and receipts: inserts
/// `rows` rows for each partition and counts all rows, takes `steps` steps of a `Mix`, and writes the count and the
/// total of the sums.
pub fn run<R: BenchHost>(rt: &R, rows: u32, steps: u32) -> Outcome {
    let mut partitions = opened(rt.alloc())?;
    let parts = PartSpan {
        first: 0,
        count: PARTS_EACH,
    };
    let mut mix = Mix::new(rt.alloc(), parts, 0);
    let asked = ask(&mut mix, &mut partitions, rows, steps);
    drop(mix);
    drop(partitions);
    let (everything, sums) = asked?;
    println!(rt; "rows {everything} sums {sums}")?;
    Ok(())
}

/// Opens the partitions of one worker, without rows. Refused with `OutOfMemory` if no memory is found.
fn opened(alloc: Global) -> Result<Vec<Partition>, Refusal> {
    let mut partitions = Vec::new(alloc);
    'parts: for part in 0..PARTS_EACH {
        let low = BoundNumber::from(part.wrapping_mul(PART_WIDTH));
        let keys = KeyRange::new(low, low + BoundNumber::from(PART_WIDTH))?;
        partitions.push(Partition::open(alloc, keys, GREATEST_LIMIT)?)?;
    }
    Ok(partitions)
}

/// Inserts `rows` rows for each partition, counts all rows, and takes `steps` steps of the mix. Returns the count, and
/// the total of the sums. Refused as a partition refuses a command.
fn ask(
    mix: &mut Mix,
    partitions: &mut Vec<Partition>,
    rows: u32,
    steps: u32,
) -> Result<(u64, u64), Refusal> {
    mix.load(partitions, rows.saturating_mul(PARTS_EACH))?;
    let everything = count_all(partitions, PARTS_EACH)?;
    let sums = mix.steps(partitions, u64::from(steps))?;
    Ok((everything, sums))
}
