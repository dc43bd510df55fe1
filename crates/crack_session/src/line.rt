//! Parsing a line.
ghost use Rattle.std.specs.Prelude.{◌≡◌, ◌==◌};
ghost use Rattle.std.specs.List.{list_all};
ghost use Rattle.crack_session.specs.Lines.{without_return};
ghost use Rattle.crack_session.specs.Readings.{reading_of, is_last};

use crate::LINE_BYTES;
use crack_commands::{Statement, parse_long, parse_statement};
use crack_row::Refusal;

/// Parses a line, without its line feed: returns its statement, or why it isn't one, or `None` if it is blank. Refused
/// with `BadRange` if the low end of a range is above the high end, or the high end is above `GREATEST_BOUND`, and
/// else with `BadStatement`. If the line is longer than `LINE_BYTES`, its first `LINE_BYTES` bytes decide: it ends the
/// session if it belongs to an HTTP request, and otherwise it is refused. O(bytes parsed), no memory.
#[tactic(auto, unfolding(crate::specs::Readings::reading_of))]
#[inline(always)]
pub fn read_line(line: &[u8]) -> Option<Result<Statement, Refusal>>
    ensures { result ≡ reading_of line.now }
{
    let line = without_return(line);
    if line.len() > LINE_BYTES {
        return Some(parse_long(&line[..LINE_BYTES]));
    }
    if is_blank(line) {
        return None;
    }
    Some(parse_statement(line))
}

/// Whether a parsed line ends the session: it is `quit`, or belongs to an HTTP request.
#[inline(always)]
pub fn is_last(reading: &Result<Statement, Refusal>) -> bool
    ensures { result ≡ is_last reading.now }
{
    matches!(reading, Ok(Statement::End(_)))
}

/// The line without the carriage return at its end, if it has one.
fn without_return(line: &[u8]) -> &[u8]
    ensures { result.now ≡ without_return line.now }
{
    let len = line.len();
    if len > 0 && line[len - 1] == b'\r' {
        &line[..len - 1]
    } else {
        line
    }
}

/// Whether a line is empty or has only spaces.
fn is_blank(line: &[u8]) -> bool
    ensures { result ≡ list_all (λ b. b == 32) line.now }
{
    line.iter().all(|b| *b == b' ')
}
