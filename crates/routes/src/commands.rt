//! Carrying out commands: which files they read, and what they print.
ghost use Rattle.std.specs.Prelude.{◌≡◌, ◌↔◌, MatchBool, OnOk, nat_lt};
ghost use Rattle.std.specs.Io.KnownBytes.{Appends};
ghost use Rattle.route_tables.specs.Printed.{changes_text};

mod asking;

use crate::failure::Failure;
use crate::session::{Input, Session, Values};
use crate::status::Status;
use address_ranges::JointAddressSet;
use asking::{check, look_up};
use origin_validation::Vrps;
use prefix_trie_joint::IpPrefix;
use route_tables::arguments::{AddressReport, Comparison, Invocation, Report, Task};
use route_tables::commands::printer::Printer;
use route_tables::commands::questions::Seen;
use route_tables::commands::validations::{Validated, Validating, Verdicts, validate_lines};
use route_tables::commands::{
    list, list_within, print_addresses, print_covered, print_diff, print_fewest, print_report,
};
use route_tables::free::{all_addresses, first_free};
use route_tables::matching::{Searched, Selection, print_lines};
use route_tables::messages::NetworkMessage;
use route_tables::network::parse_network_with;
use route_tables::table::Table;
use std::alloc::Global;
use std::io::{self, Write};

/// Carries out a command, and sets the status of what it finds.
pub fn carry_out<W: Write + Drop>(
    session: Session<'_>,
    invocation: &Invocation<'_>,
    out: &mut Printer<W>,
    status: &mut Status,
) -> Result<(), Failure> {
    let tables = invocation.tables.as_slice();
    let words = invocation.words.as_slice();
    refuse_input_twice(session, invocation)?;
    match invocation.task {
        Task::Report(report) => report_on(session, report, tables, out),
        Task::Addresses(report) => {
            let set = session.read_addresses(tables)?;
            Ok(print_addresses(&set, report, session.alloc(), out)?)
        }
        Task::Compare(comparison) => compare(session, comparison, tables, out, status),
        Task::List => list_words(session, tables, words, out),
        Task::Lookup(relation) => look_up(session, relation, tables, words, out),
        Task::Check(precedence) => check(session, precedence, tables, words, out, status),
        Task::Match(selection) => search(session, selection, tables, words, out, status),
        Task::Validate(verdicts) => validate(session, verdicts, tables, words, out, status),
        Task::Free(len) => free(session, len, tables, words, out, status),
    }
}

// Returns an error if standard input is to be read twice.
fn refuse_input_twice(session: Session<'_>, invocation: &Invocation<'_>) -> Result<(), Failure> {
    let words = invocation.words.as_slice();
    let reads_input = match invocation.task {
        Task::Lookup(_) | Task::Check(_) => words.is_empty(),
        Task::Match(_) | Task::Validate(_) => words.is_empty() || words.contains(&"-"),
        Task::Report(_) | Task::Addresses(_) | Task::Compare(_) | Task::List | Task::Free(_) =>
            false,
    };
    let tables = invocation
        .tables
        .iter()
        .filter(|path| **path == "-")
        .count();
    if tables + usize::from(reads_input) > 1 {
        return Err(session.report("-", &"standard input cannot be read twice"));
    }
    Ok(())
}

// Prints a report on the table of files.
fn report_on<'a, W: Write + Drop>(
    session: Session<'a>,
    report: Report,
    files: &[&'a str],
    out: &mut Printer<W>,
) -> Result<(), Failure> {
    if let (Report::Aggregate, [file]) = (report, files) {
        return aggregate_file(session, file, out);
    }
    let mut table = session.read_tables(files, Values::Used)?;
    Ok(print_report(&mut table, report, session.alloc(), out)?)
}

// Prints the fewest networks of a file. If it has no values, this needs no table.
fn aggregate_file<'a, W: Write + Drop>(
    session: Session<'a>,
    file: &'a str,
    out: &mut Printer<W>,
) -> Result<(), Failure> {
    let text = session.read_file(file)?;
    if let Some(fewest) = session.read_plain(file, text.as_slice())? {
        return Ok(print_fewest(fewest, out)?);
    }
    let mut table = session.table_of(file, text.as_slice())?;
    Ok(print_report(&mut table, Report::Aggregate, session.alloc(), out)?)
}

// Compares two files.
fn compare<'a, W: Write + Drop>(
    session: Session<'a>,
    comparison: Comparison,
    files: &[&'a str],
    out: &mut Printer<W>,
    status: &mut Status,
) -> Result<(), Failure> {
    let [left, right] = files else {
        return Ok(());
    };
    match comparison {
        Comparison::Diff => diff(session, left, right, out, status),
        Comparison::Covered => {
            let table = session.read_tables(&[*left], Values::Used)?;
            let set = session.read_addresses(&[*right])?;
            Ok(print_covered(&table, &set, session.alloc(), out)?)
        }
        Comparison::Intersect | Comparison::Subtract => {
            let set = combined(session, comparison, left, right)?;
            Ok(print_addresses(&set, AddressReport::Networks, session.alloc(), out)?)
        }
    }
}

// Prints what changes from one file to another, and sets the status if something does.
fn diff<'a, W: Write + Drop>(
    session: Session<'a>,
    old: &'a str,
    new: &'a str,
    out: &mut Printer<W>,
    status: &mut Status,
) -> Result<(), Failure> {
    let old = session.read_tables(&[old], Values::Used)?;
    let new = session.read_tables(&[new], Values::Used)?;
    Ok(diff_tables(&old, &new, session.alloc(), out, status)?)
}

// Prints what changes from one table to another. The status is `Good` if nothing does.
fn diff_tables<W: Write + Drop>(
    old: &Table,
    new: &Table,
    alloc: Global,
    out: &mut Printer<W>,
    status: &mut Status,
) -> io::Result<()>
    ensures lines { OnOk result (Appends out.old out.new
        (changes_text old.now.ipv4.entries new.now.ipv4.entries old.now.ipv6.entries
        new.now.ipv6.entries)) }
    ensures status { OnOk result ((status.new ≡ Status.Good)
        ↔ ((old.now.ipv4.entries ≡ new.now.ipv4.entries)
        × (old.now.ipv6.entries ≡ new.now.ipv6.entries))) }
{
    let mut is_same = true;
    let printed = print_diff(old, new, alloc, out, &mut is_same);
    *status = Status::of(is_same);
    printed
}

// Returns the addresses that both files have, or that the first has and the second does not.
fn combined<'a>(
    session: Session<'a>,
    comparison: Comparison,
    left: &'a str,
    right: &'a str,
) -> Result<JointAddressSet<Global>, Failure> {
    let left = session.read_addresses(&[left])?;
    let right = session.read_addresses(&[right])?;
    Ok(match comparison {
        Comparison::Intersect => left.intersection(&right, session.alloc())?,
        _ => left.difference(&right, session.alloc())?,
    })
}

// Prints a table, or what these networks contain of it.
fn list_words<'a, W: Write + Drop>(
    session: Session<'a>,
    files: &[&'a str],
    words: &[&str],
    out: &mut Printer<W>,
) -> Result<(), Failure> {
    let table = session.read_tables(files, Values::Used)?;
    if words.is_empty() {
        return Ok(list(&table, out)?);
    }
    if out.prints_lists() {
        return list_once(session, &table, words, out);
    }
    for word in words {
        list_within(&table, read_network(session, word)?, out)?;
    }
    Ok(())
}

// Prints what networks contain of a table, in listing order and each network once, as lists have to be.
fn list_once<W: Write + Drop>(
    session: Session<'_>,
    table: &Table,
    words: &[&str],
    out: &mut Printer<W>,
) -> Result<(), Failure> {
    let mut networks = Vec::new(session.alloc());
    for word in words {
        let network = read_network(session, word)?.trunc();
        if networks.push(network).is_err() {
            return Err(Failure::Memory);
        }
    }
    networks.sort()?;
    let mut last: Option<IpPrefix> = None;
    for network in networks {
        if !last.is_some_and(|last| last.contains(&network)) {
            list_within(table, network, out)?;
            last = Some(network);
        }
    }
    Ok(())
}

// Reads a network of the command line.
fn read_network(session: Session<'_>, word: &str) -> Result<IpPrefix, Failure> {
    match parse_network_with(word, session.options.reading.host_bits) {
        Ok(network) => Ok(network),
        Err(error) => Err(session.report(word, &NetworkMessage { text: word, error })),
    }
}

// Prints the first network of a length that a table leaves free, and sets the status if there is none.
fn free<'a, W: Write + Drop>(
    session: Session<'a>,
    len: u8,
    files: &[&'a str],
    words: &[&str],
    out: &mut Printer<W>,
    status: &mut Status,
) -> Result<(), Failure> {
    let within = match words {
        [word, ..] => read_network(session, word)?,
        [] => all_addresses(len),
    };
    let set = session.read_addresses(files)?;
    match first_free(&set, len, within) {
        Ok(found) => {
            if found.is_none() {
                *status = Status::Bad;
            }
            Ok(out.free(found)?)
        }
        Err(error) => Err(session.report(words.first().copied().unwrap_or_default(), &error)),
    }
}

// Prints the lines of files that are selected, and sets the status if there are none. A file that cannot be read is reported, and the
// others are searched.
fn search<'a, W: Write + Drop>(
    session: Session<'a>,
    selection: Selection,
    files: &[&'a str],
    texts: &[&'a str],
    out: &mut Printer<W>,
    status: &mut Status,
) -> Result<(), Failure> {
    let table = session.read_tables(files, Values::Ignored)?;
    let texts = if texts.is_empty() { &["-"] } else { texts };
    let mut is_reported = false;
    *status = Status::Bad;
    for text in texts {
        match search_text(session, &table, selection, text, out, status) {
            Err(Failure::Reported) => is_reported = true,
            done => done?,
        }
    }
    if is_reported {
        return Err(Failure::Reported);
    }
    Ok(())
}

// Prints the selected lines of one file, piece by piece, and sets the status if there is one.
fn search_text<'a, W: Write + Drop>(
    session: Session<'a>,
    table: &Table,
    selection: Selection,
    path: &'a str,
    out: &mut Printer<W>,
    status: &mut Status,
) -> Result<(), Failure> {
    let mut pieces = session.pieces(path, Input::Lines)?;
    let mut searched = Searched::default();
    for _ in 0..u64::MAX {
        let Some(piece) = session.next_piece(path, &mut pieces)? else {
            break;
        };
        let printed = print_lines(table, piece, selection, &mut searched, out);
        if searched.is_any {
            *status = Status::Good;
        }
        printed?;
        out.flush()?;
    }
    Ok(())
}

// Prints the states of the routes of files, and sets the status if a route is invalid.
fn validate<'a, W: Write + Drop>(
    session: Session<'a>,
    verdicts: Verdicts,
    files: &[&'a str],
    texts: &[&'a str],
    out: &mut Printer<W>,
    status: &mut Status,
) -> Result<(), Failure> {
    let vrps = session.read_vrps(files)?;
    let reading = session.options.reading;
    let validating = Validating {
        host_bits: reading.host_bits,
        bad_routes: reading.bad_lines,
        verdicts,
    };
    let texts = if texts.is_empty() { &["-"] } else { texts };
    let mut validated = Validated::new();
    let done = validate_texts(session, &vrps, validating, texts, &mut validated, out);
    *status = status_of(&validated);
    done?;
    if verdicts == Verdicts::Counts {
        out.state_counts(&validated.counts)?;
    }
    Ok(())
}

// Returns the status of routes: `Bad` if one is invalid.
fn status_of(validated: &Validated) -> Status
    ensures { MatchBool (nat_lt 0 validated.now.counts.invalid) (result ≡ Status.Bad)
        (result ≡ Status.Good) }
{
    Status::of(validated.counts.invalid == 0)
}

// Prints the states of the routes of files, up to the first that cannot be read.
fn validate_texts<'a, W: Write + Drop>(
    session: Session<'a>,
    vrps: &Vrps<Global>,
    validating: Validating,
    texts: &[&'a str],
    validated: &mut Validated,
    out: &mut Printer<W>,
) -> Result<(), Failure> {
    for text in texts {
        validate_text(session, vrps, validating, text, validated, out)?;
    }
    Ok(())
}

// Prints the states of the routes of one file, piece by piece, and warns of lines that are skipped.
fn validate_text<'a, W: Write + Drop>(
    session: Session<'a>,
    vrps: &Vrps<Global>,
    validating: Validating,
    path: &'a str,
    validated: &mut Validated,
    out: &mut Printer<W>,
) -> Result<(), Failure> {
    let mut pieces = session.pieces(path, Input::Routes)?;
    validated.seen = Seen::new();
    for _ in 0..u64::MAX {
        let Some(piece) = session.next_piece(path, &mut pieces)? else {
            break;
        };
        if let Err(error) = validate_lines(vrps, piece, validating, validated, out) {
            return Err(session.report_routes(path, error));
        }
        out.flush()?;
    }
    session.warn_of_skipped_routes(path, &validated.seen.skipped);
    Ok(())
}
