//! Steps and jobs: a step is a command to a partition, a job is a step or a checkpoint.

use crack_row::{Command, Policy, Reply};

/// A command to a partition, and the policy by which pending rows are merged for it.
#[derive(Clone, Copy, Debug)]
pub struct Step {
    pub part: u32,
    pub command: Command,
    pub policy: Policy,
}

/// A call of a core: a step, or a checkpoint of a partition.
///
/// An example, from a test:
///
/// ```
/// if let Statement::Checkpoint(part) = statement {
///     return Job::Checkpoint(part);
/// }
/// let command = command_of(statement).expect(rt, "a command");
/// Job::Perform(Step {
///     part: 0,
///     command,
///     policy: Policy::Ripple,
/// })
/// // ..
/// core.run_jobs(jobs).expect(rt, "memory")
/// ```
#[derive(Clone, Copy, Debug)]
pub enum Job {
    /// Perform a step.
    Perform(Step),
    /// Make a checkpoint of the partition with this number.
    Checkpoint(u32),
}

/// What a job that wasn't refused has done.
///
/// An example, from a test:
///
/// ```
/// match &done[place] {
///     Ok(Done::Replied(reply)) => {
///         let reply = reply.copy(alloc).expect(rt, "memory");
///         add_reply(rt, &mut text, 0, reply);
///     }
///     Ok(Done::CheckpointMade(count)) => add_checkpoint(rt, &mut text, *count),
///     Err(refusal) => add_refusal(rt, &mut text, refusal),
/// }
/// ```
#[derive(Drop, Debug)]
pub enum Done {
    /// A step was performed, with this reply.
    Replied(Reply),
    /// A checkpoint was made: how many commands the partition had accepted since its previous checkpoint.
    CheckpointMade(u64),
}
