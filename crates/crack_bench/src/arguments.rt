//! The arguments of the command line.

use crack_row::Policy;
use std::alloc::Global;
use std::num::ParseIntError;
use std::str::FromStr;

/// The policy with this name, or `None` if there is none.
pub fn policy_of(name: &str) -> Option<Policy> {
    match name {
        "complete" => Some(Policy::Complete),
        "gradual" => Some(Policy::Gradual),
        "ripple" => Some(Policy::Ripple),
        "auto" => Some(Policy::Auto),
        _ => None,
    }
}

/// Parses each word as a number. An error if a word isn't a number of the type `N`, or if no memory is found.
pub fn numbers_of<N: FromStr<Err = ParseIntError> + Drop>(
    alloc: Global,
    words: &[&str],
) -> anyhow::Result<Vec<N>> {
    let mut numbers = Vec::new(alloc);
    'words: for word in words {
        numbers.push(word.parse()?)?;
    }
    Ok(numbers)
}
