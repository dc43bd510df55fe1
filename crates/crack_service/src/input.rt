//! The input of a batch: read whole, checked, and divided among the workers.
ghost use Rattle.std.specs.Prelude.{◌≡◌, ◌<◌, length, vec_len, IfOk};

use crate::{Complaint, MOST_INPUT_BYTES};
use crack_commands::read_number_up_to;
use crack_row::{Refusal, Watched};
use memchr::memchr;
use std::alloc::{AllocError, Global};
use std::io::Read;

/// Reads the whole input: O(bytes). Refused with `ReadFault` if the reader fails or has more than `MOST_INPUT_BYTES`,
/// and with `OutOfMemory` if no memory is found.
pub fn read_input<R: Read>(alloc: Global, reader: &mut R) -> Result<Vec<u8>, Refusal> {
    let mut bytes = Vec::new(alloc);
    let mut watched = Watched::new(reader);
    let read = (&mut watched)
        .take(MOST_INPUT_BYTES + 1)
        .read_to_end(&mut bytes);
    match read {
        Ok(count) if count as u64 <= MOST_INPUT_BYTES => Ok(bytes),
        Err(_) if !watched.failed() => Err(Refusal::OutOfMemory),
        _ => Err(Refusal::ReadFault),
    }
}

/// Divides an input into a list of statements for each worker, in order, each statement with a line feed. A line is a
/// number, a space and a statement; the number modulo the number of workers is the number of the worker that gets the
/// statement. Blank lines are skipped. Refused with `BadLine` and the number of the first line that isn't blank and
/// doesn't begin with a number of 32 bits and a space, and with `OutOfMemory` if no memory is found.
/// O(bytes + workers).
pub fn divide(alloc: Global, input: &[u8], workers: usize) -> Result<Vec<Vec<u8>>, Complaint>
    requires { 0 < workers }
{
    let mut shares = empty_shares(alloc, workers)?;
    let mut rest = input;
    let mut number = 0u64;
    'lines: while !rest.is_empty() {
        let (line, after) = first_line(rest);
        rest = after;
        number = number.saturating_add(1);
        if !is_blank(line) {
            let Some((worker, statement)) = numbered(line) else {
                return Err(Complaint::BadLine { number });
            };
            deal(&mut shares, worker, statement)?;
        }
    }
    Ok(shares)
}

/// Makes an empty share of the input for each of this many workers. Refused if no memory is found.
fn empty_shares(alloc: Global, workers: usize) -> Result<Vec<Vec<u8>>, AllocError>
    ensures { IfOk result (λ shares. vec_len shares ≡ workers) }
{
    let mut shares = Vec::new(alloc);
    'workers: for _ in 0..workers {
        shares.push(Vec::new(alloc))?;
    }
    Ok(shares)
}

/// The first line, without its line feed, and the bytes after the line feed. Without a line feed all bytes are the
/// first line, and none are after it.
fn first_line(bytes: &[u8]) -> (&[u8], &[u8])
    requires { 0 < length bytes.now }
    ensures { length result.1.now < length bytes.now }
{
    match memchr(b'\n', bytes) {
        Some(end) => (&bytes[..end], &bytes[end + 1..]),
        None => (bytes, &[]),
    }
}

/// Whether a line has only spaces, apart from one carriage return at its end.
fn is_blank(line: &[u8]) -> bool {
    line.strip_suffix(b"\r")
        .unwrap_or(line)
        .iter()
        .all(|byte| *byte == b' ')
}

/// Appends a statement and a line feed to the share of one worker: `number` modulo the number of shares. Refused if no
/// memory is found; then the share may have the statement without the line feed.
fn deal(shares: &mut Vec<Vec<u8>>, number: u32, statement: &[u8]) -> Result<(), AllocError>
    requires { 0 < vec_len shares.old }
    ensures { vec_len shares.new ≡ vec_len shares.old }
{
    let worker = number as usize % shares.len();
    let share = &mut shares[worker];
    share.extend_from_slice(statement)?;
    share.push(b'\n')?;
    Ok(())
}

/// The number at the beginning of a line, and the bytes after the space that follows it. `None` if the line doesn't
/// begin with a number of 32 bits and a space.
fn numbered(line: &[u8]) -> Option<(u32, &[u8])> {
    let space = memchr(b' ', line)?;
    let number = read_number_up_to(u32::MAX, &line[..space])?;
    Some((number, &line[space + 1..]))
}
