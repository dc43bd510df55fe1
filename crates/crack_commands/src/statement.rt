//! The statement language.
ghost use Rattle.std.specs.Prelude.{◌≡◌, Some};
ghost use Rattle.std.specs.List.{list_all};
ghost use Rattle.crack_commands.specs.Grammar.{statement_of, words, statement_named, number_of, two_of};
ghost use Rattle.crack_commands.specs.Grammar.{over, policy_named};
ghost use Rattle.crack_commands.specs.Grammar.{long_of, unnamed, is_http, is_method, has_header, is_name_byte};
ghost use Rattle.crack_commands.specs.Inside.{insert_of, delete_of, update_of, update_from, range_from, layout_of};
ghost use Rattle.crack_commands.specs.Inside.{checkpoint_of, watch_of, policy_of, ping_of, quit_of};
ghost use Rattle.crack_commands.specs.declared.statement.Statement.TheVariants.{Count, Sum, Select};

use crate::words::{
    key_and_payload, next_word, only_word, place_of, read_part, read_row_number, two_numbers,
};
use crack_row::{Key, KeyRange, Payload, Policy, Refusal, RowNo};

/// A parsed statement.
#[derive(Clone, Copy, Debug)]
pub enum Statement {
    /// Insert a row.
    Insert {
        key: Key,
        payload: Payload,
    },
    /// Delete a row.
    Delete(RowNo),
    /// Update a row to another key and payload.
    Update {
        row: RowNo,
        key: Key,
        payload: Payload,
    },
    /// Count the rows of a range.
    Count(KeyRange),
    /// Add up the payloads of the rows of a range.
    Sum(KeyRange),
    /// List the rows of a range.
    Select(KeyRange),
    /// Report the layout of the partition with this number.
    Layout(u32),
    /// Make a checkpoint of the partition with this number.
    Checkpoint(u32),
    /// Report the statistics of the table.
    Watch,
    /// Report the statistics of the partition with this number.
    WatchPart(u32),
    /// Merge pending rows by this policy in the session's later statements.
    Policy(Policy),
    /// Report that the session is alive.
    Ping,
    /// End the session.
    End(ClosingLine),
}

/// A line that ends a session.
#[derive(Clone, Copy, Debug)]
pub enum ClosingLine {
    /// The line is the statement `quit`.
    Quit,
    /// The line belongs to an HTTP request, which a web page that is open on the same machine can send.
    Http,
}

/// Parses a line, without its line feed, as a statement. A line of an HTTP request is `End(Http)`. Refused with
/// `BadRange` if the low end of a range is above the high end, or the high end is above `GREATEST_BOUND`. Refused with
/// `BadStatement` if the line isn't a statement for another reason or has no word. O(bytes of the line), no memory.
#[inline(always)]
pub fn parse_statement(line: &[u8]) -> Result<Statement, Refusal>
    ensures { result ≡ statement_of line.now }
{
    let (name, rest) = next_word(line);
    parse_named(name, rest)
}

/// Parses a line that is too long to be a statement, by its first bytes, `front`. Returns `End(Http)` if the line
/// belongs to an HTTP request; otherwise it is refused with `BadStatement`. O(bytes of `front`), no memory.
#[tactic(auto, unfolding(crate::specs::Grammar::long_of))]
#[cold]
#[inline(never)]
pub fn parse_long(front: &[u8]) -> Result<Statement, Refusal>
    ensures { result ≡ long_of front.now }
{
    let (word, _) = next_word(front);
    parse_unnamed(word)
}

/// Parses the statement with this name, whose arguments are in `rest`. Refused as `parse_statement` is.
#[inline(never)]
fn parse_named(name: &[u8], rest: &[u8]) -> Result<Statement, Refusal>
    ensures { result ≡ statement_named name.now (words rest.now) }
{
    if name == b"delete".as_slice() {
        parse_delete(rest)
    } else if name == b"update".as_slice() {
        parse_update(rest)
    } else if name == b"count".as_slice() {
        parse_count(rest)
    } else if name == b"sum".as_slice() {
        parse_sum(rest)
    } else if name == b"select".as_slice() {
        parse_select(rest)
    } else if name == b"layout".as_slice() {
        parse_layout(rest)
    } else if name == b"checkpoint".as_slice() {
        parse_checkpoint(rest)
    } else if name == b"stats".as_slice() {
        parse_stats(rest)
    } else if name == b"policy".as_slice() {
        parse_policy(rest)
    } else if name == b"ping".as_slice() {
        parse_ping(rest)
    } else if name == b"quit".as_slice() {
        parse_quit(rest)
    } else if name == b"insert".as_slice() {
        parse_insert(rest)
    } else {
        parse_unnamed(name)
    }
}

/// Parses a line by its first word, which isn't the name of a statement: `End(Http)` if the line belongs to an HTTP
/// request. Refused with `BadStatement` otherwise.
#[cold]
#[inline(never)]
fn parse_unnamed(word: &[u8]) -> Result<Statement, Refusal>
    ensures { result ≡ unnamed word.now }
{
    if is_http(word) {
        Ok(Statement::End(ClosingLine::Http))
    } else {
        Err(Refusal::BadStatement)
    }
}

/// Whether a line with this first word belongs to an HTTP request: the word is one of nine HTTP methods in capitals
/// (`is_method`), or begins with one or more letters, digits and hyphens and a colon, as any header does.
fn is_http(word: &[u8]) -> bool
    ensures { result ≡ is_http word.now }
{
    is_method(word) || has_header(word)
}

/// Whether a word begins with the name of an HTTP header, which is one or more letters, digits and hyphens, and a
/// colon.
fn has_header(word: &[u8]) -> bool
    ensures { result ≡ has_header word.now }
{
    let colon = place_of(b':', word);
    0 < colon && colon < word.len() && is_name(&word[..colon])
}

/// Whether the bytes are only letters, digits and hyphens.
fn is_name(bytes: &[u8]) -> bool
    ensures { result ≡ list_all is_name_byte bytes.now }
{
    bytes.iter().all(|b| is_name_byte(*b))
}

/// Whether a byte is a letter, a digit or a hyphen.
fn is_name_byte(b: u8) -> bool
    ensures { result ≡ is_name_byte b }
{
    matches!(b, b'0'..=b'9' | b'A'..=b'Z' | b'a'..=b'z' | b'-')
}

/// Whether a word is one of the HTTP methods GET, POST, HEAD, PUT, DELETE, OPTIONS, CONNECT, TRACE and PATCH.
fn is_method(word: &[u8]) -> bool
    ensures { result ≡ is_method word.now }
{
    word == b"GET".as_slice()
        || word == b"POST".as_slice()
        || word == b"HEAD".as_slice()
        || word == b"PUT".as_slice()
        || word == b"DELETE".as_slice()
        || word == b"OPTIONS".as_slice()
        || word == b"CONNECT".as_slice()
        || word == b"TRACE".as_slice()
        || word == b"PATCH".as_slice()
}

/// Parses what follows `insert`. Refused with `BadStatement` if it isn't a key and a payload.
#[inline(always)]
fn parse_insert(rest: &[u8]) -> Result<Statement, Refusal>
    ensures { result ≡ insert_of (words rest.now) }
{
    match key_and_payload(rest) {
        Some((key, payload)) => Ok(Statement::Insert { key, payload }),
        None => Err(Refusal::BadStatement),
    }
}

/// Parses what follows `delete`. Refused with `BadStatement` if it isn't one row number.
fn parse_delete(rest: &[u8]) -> Result<Statement, Refusal>
    ensures { result ≡ delete_of (words rest.now) }
{
    match read_row_number(only_word(rest)) {
        Some(row) => Ok(Statement::Delete(row)),
        None => Err(Refusal::BadStatement),
    }
}

/// Parses what follows `update`. Refused with `BadStatement` if it isn't a row number, a key and a payload.
fn parse_update(rest: &[u8]) -> Result<Statement, Refusal>
    ensures { result ≡ update_of (words rest.now) }
{
    let (word, rest) = next_word(rest);
    match read_row_number(word) {
        Some(row) => update_from(row, key_and_payload(rest)),
        None => Err(Refusal::BadStatement),
    }
}

/// Makes an update of the row to this key and payload. Refused with `BadStatement` if `pair` is `None`.
fn update_from(row: RowNo, pair: Option<(Key, Payload)>) -> Result<Statement, Refusal>
    ensures { result ≡ update_from (Some row) pair }
{
    match pair {
        Some((key, payload)) => Ok(Statement::Update { row, key, payload }),
        None => Err(Refusal::BadStatement),
    }
}

/// Parses what follows `count`. Refused as `parse_range` is.
#[tactic(auto, using(crate::proofs::Statements::over_ok, crate::proofs::Statements::over_err))]
fn parse_count(rest: &[u8]) -> Result<Statement, Refusal>
    ensures { result ≡ over Count (two_of number_of number_of (words rest.now)) }
{
    match parse_range(rest) {
        Ok(range) => Ok(Statement::Count(range)),
        Err(refusal) => Err(refusal),
    }
}

/// Parses what follows `sum`. Refused as `parse_range` is.
#[tactic(auto, using(crate::proofs::Statements::over_ok, crate::proofs::Statements::over_err))]
fn parse_sum(rest: &[u8]) -> Result<Statement, Refusal>
    ensures { result ≡ over Sum (two_of number_of number_of (words rest.now)) }
{
    match parse_range(rest) {
        Ok(range) => Ok(Statement::Sum(range)),
        Err(refusal) => Err(refusal),
    }
}

/// Parses what follows `select`. Refused as `parse_range` is.
#[tactic(auto, using(crate::proofs::Statements::over_ok, crate::proofs::Statements::over_err))]
fn parse_select(rest: &[u8]) -> Result<Statement, Refusal>
    ensures { result ≡ over Select (two_of number_of number_of (words rest.now)) }
{
    match parse_range(rest) {
        Ok(range) => Ok(Statement::Select(range)),
        Err(refusal) => Err(refusal),
    }
}

/// Parses two numbers as the low and the high end of a range. Refused with `BadRange` if the low end is above the high
/// end, or the high end is above `GREATEST_BOUND`, and with `BadStatement` if there aren't exactly two numbers.
fn parse_range(rest: &[u8]) -> Result<KeyRange, Refusal>
    ensures { result ≡ range_from (two_of number_of number_of (words rest.now)) }
{
    match two_numbers(rest) {
        Some((low, high)) => KeyRange::new(low, high),
        None => Err(Refusal::BadStatement),
    }
}

/// Parses what follows `layout`. Refused with `BadStatement` if it isn't one partition number.
fn parse_layout(rest: &[u8]) -> Result<Statement, Refusal>
    ensures { result ≡ layout_of (words rest.now) }
{
    match read_part(only_word(rest)) {
        Some(part) => Ok(Statement::Layout(part)),
        None => Err(Refusal::BadStatement),
    }
}

/// Parses what follows `checkpoint`. Refused with `BadStatement` if it isn't one partition number.
fn parse_checkpoint(rest: &[u8]) -> Result<Statement, Refusal>
    ensures { result ≡ checkpoint_of (words rest.now) }
{
    match read_part(only_word(rest)) {
        Some(part) => Ok(Statement::Checkpoint(part)),
        None => Err(Refusal::BadStatement),
    }
}

/// Parses what follows `stats`: the number of a partition, or no word for the whole table. Refused with
/// `BadStatement` if it is anything else.
fn parse_stats(rest: &[u8]) -> Result<Statement, Refusal>
    ensures { result ≡ watch_of (words rest.now) }
{
    let (word, _) = next_word(rest);
    if word.is_empty() {
        return Ok(Statement::Watch);
    }
    match read_part(only_word(rest)) {
        Some(part) => Ok(Statement::WatchPart(part)),
        None => Err(Refusal::BadStatement),
    }
}

/// Parses what follows `policy`. Refused with `BadStatement` if it isn't the name of one policy.
fn parse_policy(rest: &[u8]) -> Result<Statement, Refusal>
    ensures { result ≡ policy_of (words rest.now) }
{
    match policy_named(only_word(rest)) {
        Some(policy) => Ok(Statement::Policy(policy)),
        None => Err(Refusal::BadStatement),
    }
}

/// The policy with this name, or `None` if there is none.
fn policy_named(name: &[u8]) -> Option<Policy>
    ensures { result ≡ policy_named name.now }
{
    if name == b"complete".as_slice() {
        Some(Policy::Complete)
    } else if name == b"gradual".as_slice() {
        Some(Policy::Gradual)
    } else if name == b"ripple".as_slice() {
        Some(Policy::Ripple)
    } else if name == b"auto".as_slice() {
        Some(Policy::Auto)
    } else {
        None
    }
}

/// Parses what follows `ping`. Refused with `BadStatement` if there is a word.
fn parse_ping(rest: &[u8]) -> Result<Statement, Refusal>
    ensures { result ≡ ping_of (words rest.now) }
{
    let (word, _) = next_word(rest);
    if word.is_empty() {
        Ok(Statement::Ping)
    } else {
        Err(Refusal::BadStatement)
    }
}

/// Parses what follows `quit`. Refused with `BadStatement` if there is a word.
fn parse_quit(rest: &[u8]) -> Result<Statement, Refusal>
    ensures { result ≡ quit_of (words rest.now) }
{
    let (word, _) = next_word(rest);
    if word.is_empty() {
        Ok(Statement::End(ClosingLine::Quit))
    } else {
        Err(Refusal::BadStatement)
    }
}
