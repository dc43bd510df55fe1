//! The command line of `crackd`: parses words into a request.
#![tactic(auto)]

ghost use Rattle.std.specs.Prelude.{◌≡◌, ◌≤◌, IfOk};

mod help;

use clap::error::ErrorKind;
use clap::{Arg, ArgAction, ArgMatches, Command, value_parser};
use crack_row::{
    Bound, BoundNumber, GREATEST_CELLS, GREATEST_LIFE, Limits, Policy, Refusal, Upkeep,
};
use std::alloc::{AllocError, Global};
use thiserror::Error;

/// The version of the program, as `--version` prints it.
pub const VERSION: &str = "0.1.0";

/// The request of a command line.
#[derive(Drop)]
pub enum Request {
    /// Print this text: the help or the version.
    Help(String),
    /// Answer the statements of standard input over a new table.
    Script(TableOptions),
    /// Let workers serve the lines of standard input.
    Batch(BatchOptions),
    /// Let workers serve connections over TCP.
    Serve(ServeOptions),
    /// Load CSV from standard input, and export it to standard output.
    Csv(TableOptions),
}

/// The options with which a table is opened. The opening refuses numbers out of range.
#[derive(Drop)]
pub struct TableOptions {
    /// The splits: any numbers of 64 bits, in the order of the command line.
    pub splits: Vec<Bound>,
    /// The limits of a partition: by default none of its history, the greatest of the other limits, and upkeep on
    /// request.
    pub limits: Limits,
    /// How pending rows are merged: by default `Policy::Auto`.
    pub policy: Policy,
}

/// The options of a table with workers. The opening refuses a number of workers out of range.
#[derive(Drop)]
pub struct BatchOptions {
    pub opening: TableOptions,
    pub workers: u64,
    /// Whether the workers keep receipts of their replies, which are compared with partitions' entries at the end.
    pub is_audited: bool,
}

/// The options of a server.
#[derive(Drop)]
pub struct ServeOptions {
    pub opening: TableOptions,
    /// The number of workers, or `None` for as many as there are processors. The opening refuses a number out of range.
    pub workers: Option<u64>,
    /// The port of 127.0.0.1 to listen on, or 0 for one that is free.
    pub port: u16,
    /// How many connections are served, or `None` to serve until the input ends.
    pub sessions: Option<u64>,
    /// How many seconds a connection may wait for its client, at least 1, or `None` for any time.
    pub idle: Option<u32>,
    /// How many clients may be connected at once, 1 to `MOST_CLIENTS`.
    pub clients: u64,
    /// How many seconds the server waits for busy connections once its input has ended.
    pub drain: u32,
    /// Whether only refusals are written to standard error.
    pub is_quiet: bool,
    /// Whether standard input and output carry a session before the port is opened, and one after the last connection.
    pub is_supervised: bool,
    /// Whether the workers keep receipts of their replies, which are compared with partitions' entries at the end.
    pub is_audited: bool,
}

/// The names of the policies.
static POLICIES: [&str; 4] = ["complete", "gradual", "ripple", "auto"];

/// Why a command line isn't a request. Its text, one line, is written to standard error.
#[derive(Drop, Debug, Error)]
pub enum ArgumentsError {
    /// A word isn't text.
    #[error("bad arguments: a word is not text in UTF-8")]
    NotText,
    /// The parser's own reason: a word or an option is unknown, an option is missing or given twice, a value isn't a
    /// number of 64 bits, or a policy is unknown.
    #[error("bad arguments: {0}")]
    Unparsed(String),
    /// The number `given` for an option isn't between `least` and `most`.
    #[error("bad arguments: --{option} must be {least} to {most}, not {given}")]
    OutOfRange {
        option: &'static str,
        least: u64,
        most: u64,
        given: u64,
    },
    /// What the options don't agree on, or what is missing.
    #[error("bad arguments: {0}")]
    Unclear(&'static str),
    /// No memory was found to parse the command line.
    #[error("{0}")]
    Refused(Refusal),
}

impl From<AllocError> for ArgumentsError {
    /// The error that no memory was found.
    fn from(error: AllocError) -> ArgumentsError {
        ArgumentsError::Refused(Refusal::from(error))
    }
}

/// The value of an option.
enum Value {
    /// The option has no value.
    Flag,
    /// A number, which the help calls by this word.
    Number(&'static str),
    /// A number, which the help calls by this word, of an option that must be given.
    Required(&'static str),
}

/// An option: its name, its value and its help.
struct Choice(&'static str, Value, &'static str);

/// The number of clients that may be connected at once without `--clients`.
const DEFAULT_CLIENTS: u64 = 10000;

/// The greatest number for `--clients`.
const MOST_CLIENTS: u64 = 1000000;

/// The greatest port.
const MOST_PORT: u64 = 65535;

/// The greatest number of seconds.
const MOST_SECONDS: u64 = 4294967295;

/// How many seconds a server waits at its end for busy connections without `--drain`.
const DEFAULT_DRAIN: u64 = 10;

/// The option `--workers` of a batch.
const WORKERS: Choice = Choice(
    "workers",
    Value::Required("W"),
    "How many workers, each on its own thread: 1 to 64",
);

/// The options of an opening, except its policy.
static OPENING_CHOICES: [Choice; 4] = [
    Choice(
        "limit",
        Value::Number("N"),
        "Length of a history, 1 to 1000000 [default: none]",
    ),
    Choice(
        "cells",
        Value::Number("N"),
        "Cells of a partition, 1 to 16777215 [default: 16777215]",
    ),
    Choice(
        "life",
        Value::Number("N"),
        "Commands of a partition, 1 to 2^40 [default: 2^40]",
    ),
    Choice(
        "auto-checkpoint",
        Value::Flag,
        "Checkpoints a full history; merges if no cell is free",
    ),
];

/// The option `--audit` of a batch and of a server.
const AUDIT: Choice = Choice(
    "audit",
    Value::Flag,
    "Keeps a receipt of each reply, compared at the end",
);

/// The options of a batch besides those of its opening.
static BATCH_CHOICES: [Choice; 2] = [WORKERS, AUDIT];

/// The options of a server besides those of its opening.
static SERVER_CHOICES: [Choice; 10] = [
    Choice(
        "port",
        Value::Required("N"),
        "Port of 127.0.0.1, 0 to 65535; 0 takes a free one",
    ),
    Choice(
        "workers",
        Value::Number("W"),
        "Threads that serve, 1 to 64 [default: one a processor]",
    ),
    Choice(
        "clients",
        Value::Number("N"),
        "Connections at a time, 1 to 1000000 [default: 10000]",
    ),
    Choice(
        "sessions",
        Value::Number("N"),
        "How many connections are served before it ends",
    ),
    Choice(
        "until-eof",
        Value::Flag,
        "Serves until its input ends, instead of --sessions",
    ),
    Choice(
        "idle",
        Value::Number("N"),
        "Ends a session that waits N seconds for its client",
    ),
    Choice(
        "drain",
        Value::Number("N"),
        "Waits N seconds at its end for clients [default: 10]",
    ),
    Choice(
        "quiet",
        Value::Flag,
        "Writes only a refusal to standard error",
    ),
    Choice(
        "supervised",
        Value::Flag,
        "Has a session on standard input, first and last",
    ),
    AUDIT,
];

/// The option `--words` of the program, which older versions needed to explain errors. No help lists it.
static WORDS: Choice = Choice(
    "words",
    Value::Flag,
    "Has no effect: errors are always explained",
);

/// The parser's option for a choice: a flag, or an option with a number, which may be required.
fn option_of<'a>(alloc: Global, choice: &Choice) -> Arg<'a> {
    let Choice(name, value, help) = choice;
    let option = Arg::new(alloc, name).long(name).help(help);
    match value {
        Value::Flag => option.action(ArgAction::SetTrue),
        Value::Number(word) => number_option(option, word),
        Value::Required(word) => number_option(option, word).required(true),
    }
}

/// Gives an option a value: a number of 64 bits, which the help calls `word`.
fn number_option<'a>(option: Arg<'a>, word: &'a str) -> Arg<'a> {
    option.value_name(word).value_parser(value_parser!(u64))
}

/// A command that is built, or the error that no memory was found for it.
type Built<'a> = Result<Command<'a>, AllocError>;

/// Adds an option to a command that is being built. An error if `built` is one, or if no memory is found.
fn with_option<'a>(built: Built<'a>, option: Arg<'a>) -> Built<'a> {
    match built {
        Ok(command) => command.arg(option),
        Err(error) => {
            drop(option);
            Err(error)
        }
    }
}

/// Adds the options for these choices to a command that is being built. An error if `built` is one, or if no memory is
/// found.
fn with_options<'a>(alloc: Global, built: Built<'a>, choices: &[Choice]) -> Built<'a> {
    let mut built = built;
    'choices: for choice in choices {
        built = with_option(built, option_of(alloc, choice));
    }
    built
}

/// Adds a subcommand to a command that is being built. An error if `built` or `subcommand` is one, or if no memory is
/// found.
fn with_subcommand<'a>(built: Built<'a>, subcommand: Built<'a>) -> Built<'a> {
    match built {
        Ok(command) => joined(command, subcommand),
        Err(error) => {
            drop(subcommand);
            Err(error)
        }
    }
}

/// Adds a subcommand that is being built to a command. An error if `subcommand` is one, or if no memory is found.
fn joined<'a>(command: Command<'a>, subcommand: Built<'a>) -> Built<'a> {
    match subcommand {
        Ok(subcommand) => command.subcommand(subcommand),
        Err(error) => {
            drop(command);
            Err(error)
        }
    }
}

/// The option `--policy`, whose value is one of `POLICIES`.
fn policy_option<'a>(alloc: Global) -> Arg<'a> {
    Arg::new(alloc, "policy")
        .long("policy")
        .value_name("NAME")
        .value_parser(POLICIES.as_slice())
        .hide_possible_values(true)
        .help("complete, gradual, ripple or auto [default: auto]")
}

/// The values that belong to no option: the splits, any number of numbers of 64 bits.
fn split_values<'a>(alloc: Global) -> Arg<'a> {
    Arg::new(alloc, "splits")
        .value_name("SPLIT")
        .action(ArgAction::Append)
        .num_args(0..)
        .value_parser(value_parser!(u64))
        .help("First keys of partitions: rising, 1 to 2^64 - 1; 63 at most")
}

/// A subcommand with the options and splits with which a table is opened. Its help ends with the text `after_help`.
fn opening_command<'a>(
    alloc: Global,
    name: &'a str,
    about: &'a str,
    after_help: &'a str,
) -> Built<'a> {
    let bare = Command::new(alloc, name)
        .about(about)
        .after_help(after_help);
    let limited = with_options(alloc, Ok(bare), OPENING_CHOICES.as_slice());
    let merging = with_option(limited, policy_option(alloc));
    with_option(merging, split_values(alloc))
}

/// The subcommand `script`.
fn script_command<'a>(alloc: Global) -> Built<'a> {
    opening_command(
        alloc,
        "script",
        "Answers the statements of standard input on standard output",
        help::OF_SCRIPT,
    )
}

/// The subcommand `batch`, with the options of an opening and of a batch.
fn batch_command<'a>(alloc: Global) -> Built<'a> {
    let opening = opening_command(
        alloc,
        "batch",
        "Answers numbered lines with workers that run in parallel",
        help::OF_BATCH,
    );
    with_options(alloc, opening, BATCH_CHOICES.as_slice())
}

/// The subcommand `serve`, with the options of an opening and of a server.
fn serve_command<'a>(alloc: Global) -> Built<'a> {
    let opening = opening_command(
        alloc,
        "serve",
        "Serves connections to a port, many at a time on each worker",
        help::OF_SERVE,
    );
    with_options(alloc, opening, SERVER_CHOICES.as_slice())
}

/// The subcommand `csv`.
fn csv_command<'a>(alloc: Global) -> Built<'a> {
    opening_command(
        alloc,
        "csv",
        "Loads CSV from standard input, writes the rows to standard output",
        help::OF_CSV,
    )
}

/// The program's own command for the parser, without its subcommands.
fn program<'a>(alloc: Global) -> Built<'a> {
    Command::new(alloc, "crackd")
        .about("An in-memory table that sorts itself as it is queried")
        .version(VERSION)
        .after_help(help::OF_PROGRAM)
        .subcommand_required(true)
        .arg(option_of(alloc, &WORDS).global(true).hide(true))
}

/// The program's own command for the parser, with its subcommands.
fn command_line<'a>(alloc: Global) -> Built<'a> {
    let with_script = with_subcommand(program(alloc), script_command(alloc));
    let with_batch = with_subcommand(with_script, batch_command(alloc));
    let with_serve = with_subcommand(with_batch, serve_command(alloc));
    with_subcommand(with_serve, csv_command(alloc))
}

/// The policy on the command line, or `Auto` if there is none.
fn policy_of(matches: &ArgMatches<'_>) -> Policy {
    match matches.get_str("policy") {
        Some("complete") => Policy::Complete,
        Some("gradual") => Policy::Gradual,
        Some("ripple") => Policy::Ripple,
        _ => Policy::Auto,
    }
}

/// The splits on the command line, in order. An error if one isn't a number of 64 bits, or if no memory is found.
fn splits_of(alloc: Global, matches: &ArgMatches<'_>) -> Result<Vec<Bound>, ArgumentsError> {
    let mut splits = Vec::new(alloc);
    if let Some(found) = matches.get_many::<u64>("splits") {
        'splits: for split in found {
            let Ok(split) = split else {
                return Err(ArgumentsError::Unclear("a split is not a number"));
            };
            let split = Bound::from_number(BoundNumber::from(split));
            if splits.push(split).is_err() {
                return Err(ArgumentsError::Refused(Refusal::OutOfMemory));
            }
        }
    }
    Ok(splits)
}

/// The limits on the command line; the opening checks their sizes. Where one isn't given, the history has none, there
/// are `GREATEST_CELLS` cells, or the life is `GREATEST_LIFE` commands. Upkeep is `Automatic` with
/// `--auto-checkpoint`, else `OnRequest`.
fn limits_of(matches: &ArgMatches<'_>) -> Limits {
    Limits {
        history: Limits::history_limit(matches.get_one::<u64>("limit")),
        cells: matches.get_one::<u64>("cells").unwrap_or(GREATEST_CELLS),
        life: matches.get_one::<u64>("life").unwrap_or(GREATEST_LIFE),
        upkeep: upkeep_of(matches),
    }
}

/// The upkeep on the command line: automatic with `--auto-checkpoint`, else on request.
fn upkeep_of(matches: &ArgMatches<'_>) -> Upkeep {
    if matches.get_flag("auto-checkpoint") {
        Upkeep::Automatic
    } else {
        Upkeep::OnRequest
    }
}

/// The options of an opening. An error if a split isn't a number of 64 bits, or if no memory is found.
fn opening_of(alloc: Global, matches: &ArgMatches<'_>) -> Result<TableOptions, ArgumentsError> {
    Ok(TableOptions {
        splits: splits_of(alloc, matches)?,
        limits: limits_of(matches),
        policy: policy_of(matches),
    })
}

/// The number of the required option `name`. An error if it is missing or isn't a number of 64 bits.
fn number_of(matches: &ArgMatches<'_>, name: &'static str) -> Result<u64, ArgumentsError> {
    matches
        .get_one::<u64>(name)
        .ok_or(ArgumentsError::Unclear("a number is missing"))
}

/// The number `given` for an option. An error unless it is between `least` and `most`.
fn within(option: &'static str, least: u64, most: u64, given: u64) -> Result<u64, ArgumentsError>
    ensures { IfOk result (λ number. (number ≡ given) × (least ≤ number) × (number ≤ most)) }
{
    if least <= given && given <= most {
        return Ok(given);
    }
    Err(ArgumentsError::OutOfRange {
        option,
        least,
        most,
        given,
    })
}

/// The port on the command line, or 0 for one that is free. An error unless it is at most 65535.
fn port_of(matches: &ArgMatches<'_>) -> Result<u16, ArgumentsError> {
    let port = within("port", 0, MOST_PORT, number_of(matches, "port")?)?;
    Ok(port as u16)
}

/// The options of a batch. An error if the number of workers is missing, or as `opening_of` says.
fn batch_options_of(
    alloc: Global,
    matches: &ArgMatches<'_>,
) -> Result<BatchOptions, ArgumentsError> {
    Ok(BatchOptions {
        workers: number_of(matches, "workers")?,
        is_audited: matches.get_flag("audit"),
        opening: opening_of(alloc, matches)?,
    })
}

/// The number of sessions, or `None` to serve until the input ends. An error unless exactly one of `--sessions` and
/// `--until-eof` is given.
fn sessions_of(matches: &ArgMatches<'_>) -> Result<Option<u64>, ArgumentsError> {
    match (
        matches.get_one::<u64>("sessions"),
        matches.get_flag("until-eof"),
    ) {
        (None, false) => Err(ArgumentsError::Unclear(
            "one of --sessions and --until-eof must be given",
        )),
        (Some(_), true) => Err(ArgumentsError::Unclear(
            "--sessions and --until-eof cannot be given together",
        )),
        (sessions, _) => Ok(sessions),
    }
}

/// The number of clients that may be connected at once, `DEFAULT_CLIENTS` by default. An error unless it is 1 to
/// `MOST_CLIENTS`.
fn clients_of(matches: &ArgMatches<'_>) -> Result<u64, ArgumentsError> {
    let clients = matches.get_one::<u64>("clients").unwrap_or(DEFAULT_CLIENTS);
    within("clients", 1, MOST_CLIENTS, clients)
}

/// How many seconds a server waits at its end for busy connections, `DEFAULT_DRAIN` by default. An error if it is
/// above 2^32 - 1.
fn drain_of(matches: &ArgMatches<'_>) -> Result<u32, ArgumentsError> {
    let seconds = matches.get_one::<u64>("drain").unwrap_or(DEFAULT_DRAIN);
    Ok(within("drain", 0, MOST_SECONDS, seconds)? as u32)
}

/// How many seconds a connection may wait for its client, or `None` for any time. An error unless it is 1 to 2^32 - 1.
fn idle_of(matches: &ArgMatches<'_>) -> Result<Option<u32>, ArgumentsError> {
    let Some(seconds) = matches.get_one::<u64>("idle") else {
        return Ok(None);
    };
    Ok(Some(within("idle", 1, MOST_SECONDS, seconds)? as u32))
}

/// The options of a server. An error if the port is missing, if not exactly one of `--sessions` and `--until-eof` is
/// given, if the port, `--clients`, `--idle` or `--drain` is out of range, or as `opening_of` says.
fn service_of(alloc: Global, matches: &ArgMatches<'_>) -> Result<ServeOptions, ArgumentsError> {
    Ok(ServeOptions {
        port: port_of(matches)?,
        sessions: sessions_of(matches)?,
        idle: idle_of(matches)?,
        is_quiet: matches.get_flag("quiet"),
        is_supervised: matches.get_flag("supervised"),
        is_audited: matches.get_flag("audit"),
        clients: clients_of(matches)?,
        drain: drain_of(matches)?,
        workers: matches.get_one::<u64>("workers"),
        opening: opening_of(alloc, matches)?,
    })
}

/// The request of the subcommand `script`. An error as `opening_of` says.
fn script_of(alloc: Global, matches: &ArgMatches<'_>) -> Result<Request, ArgumentsError> {
    Ok(Request::Script(opening_of(alloc, matches)?))
}

/// The request of the subcommand `batch`. An error as `batch_options_of` says.
fn batch_of(alloc: Global, matches: &ArgMatches<'_>) -> Result<Request, ArgumentsError> {
    Ok(Request::Batch(batch_options_of(alloc, matches)?))
}

/// The request of the subcommand `serve`. An error as `service_of` says.
fn serve_of(alloc: Global, matches: &ArgMatches<'_>) -> Result<Request, ArgumentsError> {
    Ok(Request::Serve(service_of(alloc, matches)?))
}

/// The request of the subcommand `csv`. An error as `opening_of` says.
fn csv_of(alloc: Global, matches: &ArgMatches<'_>) -> Result<Request, ArgumentsError> {
    Ok(Request::Csv(opening_of(alloc, matches)?))
}

/// The request of a command line that the parser accepted. An error if a value is missing or out of range, or if no
/// memory is found.
fn request_of(alloc: Global, matches: &ArgMatches<'_>) -> Result<Request, ArgumentsError> {
    let Some((name, found)) = matches.subcommand() else {
        return Err(ArgumentsError::Unclear("a command is missing"));
    };
    match name {
        "script" => script_of(alloc, found),
        "batch" => batch_of(alloc, found),
        "serve" => serve_of(alloc, found),
        "csv" => csv_of(alloc, found),
        _ => Err(ArgumentsError::Unclear("there is no such command")),
    }
}

/// The outcome of a command line for which the parser returned this error: the text of the help or of the version, if
/// it was requested; `Refused` if no memory was found; else `Unparsed`.
fn unmatched(alloc: Global, error: &clap::Error) -> Result<Request, ArgumentsError> {
    match error.kind() {
        ErrorKind::DisplayHelp | ErrorKind::DisplayVersion => {
            Ok(Request::Help(error.to_string(alloc)?))
        }
        ErrorKind::OutOfMemory => Err(ArgumentsError::Refused(Refusal::OutOfMemory)),
        _ => Err(unparsed(alloc, error)?),
    }
}

/// The error `Unparsed` with the first paragraph of the parser's own text, which names the argument, as one line. An
/// error if no memory is found.
fn unparsed(alloc: Global, error: &clap::Error) -> Result<ArgumentsError, AllocError> {
    let text = error.to_string(alloc)?;
    let reason = first_paragraph(alloc, text.as_str())?;
    drop(text);
    Ok(ArgumentsError::Unparsed(reason))
}

/// The lines of a text up to the first blank one, each without white space at its ends, joined by spaces, and without
/// the word `error: ` at the start. An error if no memory is found.
fn first_paragraph(alloc: Global, text: &str) -> Result<String, AllocError> {
    let said = text.strip_prefix("error: ").unwrap_or(text);
    let mut paragraph = String::new(alloc);
    'lines: for line in said.lines() {
        let line = line.trim();
        if line.is_empty() {
            break;
        }
        if !paragraph.is_empty() {
            paragraph.push(' ')?;
        }
        paragraph.push_str(line)?;
    }
    Ok(paragraph)
}

/// Parses the words of a command line, the first of which is the program's name, and returns its request. An error if
/// the words aren't a valid command line, or if no memory is found. Takes memory for the parser, which is freed, and
/// for the request.
pub fn read(alloc: Global, words: &[String]) -> Result<Request, ArgumentsError> {
    match command_line(alloc)?.try_get_matches_from(words) {
        Ok(matches) => {
            let request = request_of(alloc, &matches);
            drop(matches);
            request
        }
        Err(error) => {
            let request = unmatched(alloc, &error);
            drop(error);
            request
        }
    }
}
