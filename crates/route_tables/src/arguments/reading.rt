//! What `clap` found on the command line.

use crate::access::Precedence;
use crate::arguments::{
    ALL, CLEAR_HOST_BITS, COUNT, DENY_FIRST, EXACT, FIRST, FORMAT, Format, INVERT, Invocation,
    JSON, LAST, LENGTH, LONGER, NAME, NO_MAPPED, Options, QUIET, RIGHT, SKIP_BAD, TABLES, Task,
    WORDS,
};
use crate::commands::validations::Verdicts;
use crate::formats::{ListFormat, ListName, ListNameError, Lists};
use crate::load::{BadLines, Reading, TableKind};
use crate::lookup::Relation;
use crate::matching::{Selected, Selection, Which};
use crate::network::HostBits;
use crate::questions::Mapped;
use clap::ArgMatches;
use std::alloc::{AllocError, Global};

/// Returns what the arguments of a command say.
pub(crate) fn read_invocation<'a>(
    task: Task,
    lists: Option<Lists>,
    matches: &ArgMatches<'a>,
    words: &[&str],
    alloc: Global,
) -> Result<Invocation<'a>, AllocError> {
    let (mut tables, mut asked) = (Vec::new(alloc), Vec::new(alloc));
    add_values(&mut tables, matches, TABLES)?;
    add_values(&mut tables, matches, RIGHT)?;
    if words.contains(&"--") {
        add_values(&mut tables, matches, WORDS)?;
        add_values(&mut asked, matches, LAST)?;
    } else {
        add_values(&mut asked, matches, WORDS)?;
    }
    Ok(Invocation {
        task: task_of(task, matches),
        tables,
        words: asked,
        lists,
        options: read_options(matches),
    })
}

/// Returns the lists in which networks are printed, if they are, or why their name is none.
pub(crate) fn read_lists(matches: &ArgMatches<'_>) -> Result<Option<Lists>, ListNameError> {
    let Some(format) = matches.get_one::<ListFormat>(FORMAT) else {
        return Ok(None);
    };
    let name = matches
        .get_str(NAME)
        .unwrap_or("routes")
        .parse::<ListName>()?;
    Ok(Some(Lists::new(format, name)))
}

// Adds the values of an argument, if it is there.
fn add_values<'a>(
    words: &mut Vec<&'a str>,
    matches: &ArgMatches<'a>,
    id: &str,
) -> Result<(), AllocError> {
    match matches.get_strs(id) {
        Some(values) => words.extend_from_slice(values),
        None => Ok(()),
    }
}

// Returns a task with what the options of its command say.
fn task_of(task: Task, matches: &ArgMatches<'_>) -> Task {
    match task {
        Task::Lookup(_) => Task::Lookup(relation(matches)),
        Task::Check(_) if matches.get_flag(DENY_FIRST) => Task::Check(Precedence::DenyFirst),
        Task::Match(_) => Task::Match(selection(matches)),
        Task::Validate(_) if matches.get_flag(COUNT) => Task::Validate(Verdicts::Counts),
        Task::Free(_) => Task::Free(matches.get_one::<u8>(LENGTH).unwrap_or_default()),
        _ => task,
    }
}

// Returns which networks a lookup prints.
fn relation(matches: &ArgMatches<'_>) -> Relation {
    if matches.get_flag(ALL) {
        Relation::Covering
    } else if matches.get_flag(EXACT) {
        Relation::Exact
    } else if matches.get_flag(LONGER) {
        Relation::Contained
    } else {
        Relation::Longest
    }
}

// Returns which lines are printed.
fn selection(matches: &ArgMatches<'_>) -> Selection {
    Selection {
        selected: if matches.get_flag(INVERT) {
            Selected::Others
        } else {
            Selected::Matching
        },
        which: if matches.get_flag(FIRST) {
            Which::First
        } else {
            Which::Any
        },
        mapped: mapped(matches),
    }
}

// Returns how IPv4-mapped addresses are read.
fn mapped(matches: &ArgMatches<'_>) -> Mapped {
    if matches.get_flag(NO_MAPPED) {
        Mapped::Kept
    } else {
        Mapped::AsIpv4
    }
}

// Returns what the options that several commands have say.
fn read_options(matches: &ArgMatches<'_>) -> Options {
    Options {
        reading: Reading {
            host_bits: if matches.get_flag(CLEAR_HOST_BITS) {
                HostBits::Cleared
            } else {
                HostBits::Refused
            },
            bad_lines: if matches.get_flag(SKIP_BAD) {
                BadLines::Skipped
            } else {
                BadLines::Refused
            },
            kind: TableKind::AnyValues,
        },
        mapped: mapped(matches),
        format: if matches.get_flag(JSON) {
            Format::Json
        } else {
            Format::Text
        },
        is_quiet: matches.get_flag(QUIET),
    }
}
