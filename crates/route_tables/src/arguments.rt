//! The command line of the program, which `clap` parses.

pub mod help;
mod reading;

use crate::access::Precedence;
use crate::arguments::help::{ABOUT, COMMANDS, DETAILS, Topic, VERSION};
use crate::arguments::reading::{read_invocation, read_lists};
use crate::commands::validations::Verdicts;
use crate::formats::{FORMAT_NAMES, Lists};
use crate::load::Reading;
use crate::lookup::Relation;
use crate::matching::{Selected, Selection, Which};
use crate::questions::Mapped;
use clap::builder::ValueParser;
use clap::error::ErrorKind;
use clap::{Arg, ArgAction, ArgMatches, Command, Error};
use std::alloc::{AllocError, Global};

// The names of options, as `clap` knows them.
const CLEAR_HOST_BITS: &str = "clear-host-bits";

const SKIP_BAD: &str = "skip-bad";

const JSON: &str = "json";

const QUIET: &str = "quiet";

const NO_MAPPED: &str = "no-mapped";

const ALL: &str = "all";

const EXACT: &str = "exact";

const LONGER: &str = "longer";

const DENY_FIRST: &str = "deny-first";

const INVERT: &str = "invert";

const FIRST: &str = "first";

const COUNT: &str = "count";

const FORMAT: &str = "format";

const NAME: &str = "name";

// The names of arguments.
const TABLES: &str = "tables";

const RIGHT: &str = "right";

const WORDS: &str = "words";

const LAST: &str = "last";

const LENGTH: &str = "length";

// The options that all commands share. They may also come before the command.
const SHARED_FLAGS: &[(&str, &str)] = &[
    (
        CLEAR_HOST_BITS,
        "Clear the bits of an address after the length; they are an error otherwise",
    ),
    (
        SKIP_BAD,
        "Skip bad lines with a warning; they are an error otherwise",
    ),
    (JSON, "Print a JSON object a line"),
    (QUIET, "Show no warnings and no progress"),
];

// Where help lists them: after the options of one command.
const SHARED_ORDER: usize = 100;

const NO_MAPPED_HELP: &str = "Do not read ::ffff:10.1.2.3 as 10.1.2.3";

/// What the program is to do, with which files and words, and how.
#[derive(Drop)]
pub struct Invocation<'a> {
    /// What the program is to do.
    pub task: Task,
    /// The files of the table, or the two tables of a comparison.
    pub tables: Vec<&'a str>,
    /// The networks, addresses or files after them.
    pub words: Vec<&'a str>,
    /// The lists in which it prints networks, if it does.
    pub lists: Option<Lists>,
    /// How it does it.
    pub options: Options,
}

/// What the program is to do.
#[derive(Clone, Copy, Debug, PartialEq, Eq)]
pub enum Task {
    /// Print a report on a table.
    Report(Report),
    /// Print the addresses of files.
    Addresses(AddressReport),
    /// Compare two tables.
    Compare(Comparison),
    /// Print a table, or what these networks contain of it.
    List,
    /// Print the networks of a table that are related to addresses or networks.
    Lookup(Relation),
    /// Print whether an access list allows addresses.
    Check(Precedence),
    /// Print the lines of files that have an address of a table.
    Match(Selection),
    /// Print the validation states of routes.
    Validate(Verdicts),
    /// Print the first network of this length that shares no address with those of a table.
    Free(u8),
}

/// What a report on a table shows.
#[derive(Clone, Copy, Debug, PartialEq, Eq)]
pub enum Report {
    /// The table without the networks that change no lookup.
    Minimise,
    /// The fewest networks with the same lookups of addresses.
    Aggregate,
    /// Counts, memory, and lengths.
    Stats,
}

/// How a set of addresses is shown.
#[derive(Clone, Copy, Debug, PartialEq, Eq)]
pub enum AddressReport {
    /// As the fewest networks.
    Networks,
    /// As ranges.
    Ranges,
    /// By the number of addresses.
    Count,
}

/// How two tables are compared.
#[derive(Clone, Copy, Debug, PartialEq, Eq)]
pub enum Comparison {
    /// By network: what changes from the first table to the second.
    Diff,
    /// By address: what both tables cover.
    Intersect,
    /// By address: what the first table covers and the second does not.
    Subtract,
    /// By address: the networks of the first table that the second covers.
    Covered,
}

/// How the program does what it is to do.
#[derive(Clone, Copy, Debug, Default, PartialEq, Eq)]
pub struct Options {
    /// How tables are read.
    pub reading: Reading,
    /// How IPv4-mapped addresses are read that a table is asked for.
    pub mapped: Mapped,
    /// What the output is like.
    pub format: Format,
    /// No warnings and no progress are shown.
    pub is_quiet: bool,
}

/// What the output is like.
#[derive(Clone, Copy, Debug, Default, PartialEq, Eq)]
pub enum Format {
    /// Lines of words.
    #[default]
    Text,
    /// A JSON object for each line.
    Json,
}

/// Reads the words of a command line after the name of the program.
///
/// # Errors
///
/// Returns what `clap` says: which word is wrong, or the help or the version that the words ask for.
///
/// # Examples
///
/// ```rust
/// parse(&["union", "a.txt", "-"], alloc)?.task;                                     // Addresses(Networks)
/// parse(&["lookup", "a.txt", "b.txt", "--", "::1"], alloc)?.tables.as_slice();      // ["a.txt", "b.txt"]
/// parse(&["lookup", "a.txt", "b.txt", "--", "::1"], alloc)?.words.as_slice();       // ["::1"]
/// parse(&["list"], alloc).is_err();                                                 // true
/// ```
pub fn parse<'a>(words: &'a [&'a str], alloc: Global) -> Result<Invocation<'a>, Error> {
    let mut program = program(alloc)?;
    let matches = program.try_get_matches_from_mut(words)?;
    match chosen(&matches) {
        Some((topic, matches)) => match read_lists(matches) {
            Ok(lists) => Ok(read_invocation(topic.task, lists, matches, words, alloc)?),
            Err(error) => Err(program.error(ErrorKind::ValueValidation, error.as_str())?),
        },
        None => Err(program.error(ErrorKind::MissingSubcommand, "there is no command")?),
    }
}

// Returns the command that is named, and its arguments.
fn chosen<'m, 'a>(matches: &'m ArgMatches<'a>) -> Option<(&'static Topic, &'m ArgMatches<'a>)> {
    let (name, matches) = matches.subcommand()?;
    let topic = COMMANDS.iter().find(|topic| topic.name == name)?;
    Some((topic, matches))
}

// Returns the program with its commands.
fn program<'a>(alloc: Global) -> Result<Command<'a>, AllocError> {
    let mut program = Command::new(alloc, "routes")
        .version(VERSION)
        .about(ABOUT)
        .after_help(DETAILS)
        .no_binary_name(true)
        .bin_name("routes")?
        .subcommand_required(true);
    for (name, help) in SHARED_FLAGS {
        program = program.arg(
            flag(alloc, name, help)?
                .global(true)
                .display_order(SHARED_ORDER),
        )?;
    }
    for topic in COMMANDS {
        program = program.subcommand(command(alloc, topic)?)?;
    }
    Ok(program)
}

// Returns one command with its arguments.
fn command<'a>(alloc: Global, topic: &Topic) -> Result<Command<'a>, AllocError> {
    let mut command = Command::new(alloc, topic.name)
        .about(topic.about)
        .after_help(topic.details);
    for (name, help) in flags_of(topic.task) {
        command = command.arg(flag(alloc, name, help)?)?;
    }
    if prints_networks(topic.task) {
        command = command
            .arg(format_option(alloc)?)?
            .arg(name_option(alloc)?)?;
    }
    match topic.task {
        Task::Report(_) | Task::Addresses(_) => command.arg(several(
            alloc,
            TABLES,
            "TABLE",
            "The files of the table",
        ).required(true)),
        Task::Compare(Comparison::Diff) => pair(command, alloc, "OLD", "NEW"),
        Task::Compare(_) => pair(command, alloc, "LEFT", "RIGHT"),
        Task::List => table_and_words(
            command,
            alloc,
            "NETWORK",
            "Networks whose parts of the table are printed",
        ),
        Task::Lookup(_) => table_and_words(
            command,
            alloc,
            "QUESTION",
            "Addresses or networks to look up",
        ),
        Task::Check(_) => table_and_words(command, alloc, "ADDRESS", "Addresses to check"),
        Task::Match(_) => table_and_words(command, alloc, "FILE", "Files to search"),
        Task::Validate(_) => table_and_words(
            command,
            alloc,
            "ROUTES",
            "Files of routes to validate",
        ),
        Task::Free(_) => table_and_length(command, alloc),
    }
}

// Adds a table, a length and a network.
fn table_and_length(command: Command<'_>, alloc: Global) -> Result<Command<'_>, AllocError> {
    command
        .arg(one(alloc, TABLES, "TABLE", "The file of the table"))?
        .arg(one(alloc, LENGTH, "LENGTH", "The length of the network").value_parser(
            ValueParser::Unsigned(0, 128),
        ))?
        .arg(
            Arg::new(alloc, WORDS)
                .value_name("WITHIN")
                .help("The network that it lies within"),
        )
}

// Returns whether a command prints networks, which lists can have.
fn prints_networks(task: Task) -> bool {
    match task {
        Task::List => true,
        Task::Report(report) => report != Report::Stats,
        Task::Addresses(report) => report == AddressReport::Networks,
        Task::Compare(comparison) => comparison != Comparison::Diff,
        Task::Lookup(_) | Task::Check(_) | Task::Match(_) | Task::Validate(_) | Task::Free(_) =>
            false,
    }
}

// Returns the option for the format of lists.
fn format_option<'a>(alloc: Global) -> Result<Arg<'a>, AllocError> {
    Arg::new(alloc, FORMAT)
        .long(FORMAT)
        .value_name("FORMAT")
        .help("Print lists of networks for a firewall or a router")
        .action(ArgAction::Set)
        .value_parser(FORMAT_NAMES)
        .conflicts_with(JSON)
}

// Returns the option for the name of lists.
fn name_option<'a>(alloc: Global) -> Result<Arg<'a>, AllocError> {
    Arg::new(alloc, NAME)
        .long(NAME)
        .value_name("NAME")
        .help("What the names of the lists begin with; _v4 and _v6 follow [default: routes]")
        .action(ArgAction::Set)
        .requires_arg(FORMAT)
}

// Adds two tables with these names.
fn pair<'a>(
    command: Command<'a>,
    alloc: Global,
    left: &'a str,
    right: &'a str,
) -> Result<Command<'a>, AllocError> {
    command
        .arg(one(alloc, TABLES, left, "The file of the first table"))?
        .arg(one(alloc, RIGHT, right, "The file of the second table"))
}

// Adds a table and words with this name. After `--` there are words alone, and all before it are tables.
fn table_and_words<'a>(
    command: Command<'a>,
    alloc: Global,
    name: &'a str,
    help: &'a str,
) -> Result<Command<'a>, AllocError> {
    command
        .arg(one(alloc, TABLES, "TABLE", "The file of the table"))?
        .arg(several(alloc, WORDS, name, help))?
        .arg(several(
            alloc,
            LAST,
            name,
            "The same, if several files come before `--`",
        )
        .last(true))
}

// Returns an option without a value.
fn flag<'a>(alloc: Global, name: &'a str, help: &'a str) -> Result<Arg<'a>, AllocError> {
    let flag = Arg::new(alloc, name)
        .long(name)
        .help(help)
        .action(ArgAction::SetTrue);
    match name {
        QUIET => Ok(flag.short('q')),
        INVERT => Ok(flag.short('v')),
        ALL => flag
            .visible_alias("shorter")?
            .conflicts_with_all(&[EXACT, LONGER]),
        EXACT => flag.conflicts_with(LONGER),
        _ => Ok(flag),
    }
}

// Returns an argument that is required.
fn one<'a>(alloc: Global, id: &'a str, name: &'a str, help: &'a str) -> Arg<'a> {
    Arg::new(alloc, id)
        .value_name(name)
        .help(help)
        .required(true)
}

// Returns an argument for any number of words.
fn several<'a>(alloc: Global, id: &'a str, name: &'a str, help: &'a str) -> Arg<'a> {
    Arg::new(alloc, id)
        .value_name(name)
        .help(help)
        .num_args(..)
        .action(ArgAction::Append)
}

// Returns the options of a command that other commands do not have, with their help.
fn flags_of(task: Task) -> &'static [(&'static str, &'static str)] {
    match task {
        Task::Lookup(_) => &[
            (
                ALL,
                "Print every network that contains the address or network, shortest first",
            ),
            (EXACT, "Print the network itself"),
            (
                LONGER,
                "Print every network that the network contains, in order",
            ),
            (NO_MAPPED, NO_MAPPED_HELP),
        ],
        Task::Check(_) => &[
            (
                DENY_FIRST,
                "Deny an address if any network with deny contains it",
            ),
            (NO_MAPPED, NO_MAPPED_HELP),
        ],
        Task::Match(_) => &[
            (
                INVERT,
                "Print the other lines, also those without an address",
            ),
            (FIRST, "Look at the first address of a line alone"),
            (NO_MAPPED, NO_MAPPED_HELP),
        ],
        Task::Validate(_) => &[(COUNT, "Print only how many routes have each state")],
        Task::Report(_) | Task::Addresses(_) | Task::Compare(_) | Task::List | Task::Free(_) => &[],
    }
}
