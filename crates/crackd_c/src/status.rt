//! The numbers that calls return.
ghost use Rattle.std.specs.Prelude.{◌≡◌};
ghost use Rattle.crack_core.specs.Bulk.{flag};
ghost use Rattle.crackd_c.specs.Calls.{policy_at, status_of};

use crack_core::BulkProgress;
use crack_row::{Policy, Refusal};

/// The return value of a call that was answered.
pub const ANSWERED: u32 = 0;

/// The status of a call on a handle that holds no table.
pub const CLOSED: u32 = 101;

/// The status of an opening in a handle that already holds a table.
pub const ALREADY_OPEN: u32 = 102;

/// The status of a call whose lists differ in length.
pub const LENGTHS_DIFFER: u32 = 103;

/// The status of a call with a number that is no policy's.
pub const NO_SUCH_POLICY: u32 = 104;

/// The policy with this number: 0 is complete, 1 gradual, 2 ripple, 3 auto. `None` for any other number.
pub fn policy_of(number: u32) -> Option<Policy>
    ensures { result ≡ policy_at number }
{
    match number {
        0 => Some(Policy::Complete),
        1 => Some(Policy::Gradual),
        2 => Some(Policy::Ripple),
        3 => Some(Policy::Auto),
        _ => None,
    }
}

/// Writes to `done` how many calls of a list were answered, and returns the status: the number of the refusal that
/// ended the list, or `ANSWERED` if there is none.
pub fn close_list(progress: BulkProgress, done: &mut u64) -> u32
    ensures done { done.new ≡ progress.done }
    ensures status { result ≡ status_of progress.refusal }
{
    *done = progress.done;
    match progress.refusal {
        Some(refusal) => refusal.code(),
        None => ANSWERED,
    }
}

/// 1 if `is`, else 0.
pub fn flag(is: bool) -> u8
    ensures { result ≡ flag is }
{
    is as u8
}
