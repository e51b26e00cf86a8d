//! Asking a table or an access list, by words of the command line or by lines of standard input.

use crate::failure::Failure;
use crate::session::{Input, Session, Values};
use crate::status::Status;
use route_tables::access::{AccessList, Precedence};
use route_tables::commands::checks::{Checked, Checking, check_lines, check_words};
use route_tables::commands::lookups::{Looking, look_up_lines, look_up_words};
use route_tables::commands::printer::Printer;
use route_tables::commands::questions::{QuestionsError, Seen};
use route_tables::lookup::Relation;
use route_tables::questions::{Asked, Asking};
use route_tables::table::Table;
use std::io::Write;

// What is asked of a table or an access list, and what the questions so far show.
#[derive(Drop)]
enum Asker<'t> {
    Lookup(&'t Table, Looking, Seen),
    Check(&'t AccessList, Checking, Checked),
}

impl Asker<'_> {
    // Answers the lines of a text.
    fn ask_lines<'a, W: Write + Drop>(
        &mut self,
        text: &'a [u8],
        out: &mut Printer<W>,
    ) -> Result<(), QuestionsError<'a>> {
        match self {
            Asker::Lookup(table, looking, seen) => look_up_lines(table, text, *looking, seen, out),
            Asker::Check(list, checking, checked) => check_lines(
                list, text, *checking, checked, out,
            ),
        }
    }

    // Answers words.
    fn ask_words<'a, W: Write + Drop>(
        &mut self,
        words: &[&'a str],
        out: &mut Printer<W>,
    ) -> Result<(), QuestionsError<'a>> {
        match self {
            Asker::Lookup(table, looking, seen) => look_up_words(table, words, *looking, seen, out),
            Asker::Check(list, checking, checked) => check_words(
                list, words, *checking, checked, out,
            ),
        }
    }

    // Returns false if an access list was asked, and something that was read is not an address that it allows.
    fn is_good(&self) -> bool {
        match self {
            Asker::Lookup(..) => true,
            Asker::Check(_, _, checked) => checked.are_all_allowed,
        }
    }

    // Returns what a question is.
    fn wanted(&self) -> &'static str {
        match self {
            Asker::Lookup(..) => "an address or a network",
            Asker::Check(..) => "an address",
        }
    }

    // Returns what was read.
    fn seen(&self) -> &Seen {
        match self {
            Asker::Lookup(_, _, seen) => seen,
            Asker::Check(_, _, checked) => &checked.seen,
        }
    }
}

// Answers words, or the lines of standard input if there are none.
fn ask<W: Write + Drop>(
    session: Session<'_>,
    words: &[&str],
    asker: &mut Asker<'_>,
    out: &mut Printer<W>,
) -> Result<(), Failure> {
    let done = if words.is_empty() {
        ask_input(session, asker, out)
    } else {
        match asker.ask_words(words, out) {
            Ok(()) => Ok(()),
            Err(error) => Err(session.report_questions(words, error)),
        }
    };
    session.warn_of_skipped(asker.wanted(), words, &asker.seen().skipped);
    done
}

// Answers the lines of standard input, piece by piece.
fn ask_input<W: Write + Drop>(
    session: Session<'_>,
    asker: &mut Asker<'_>,
    out: &mut Printer<W>,
) -> Result<(), Failure> {
    let mut pieces = session.pieces("-", Input::Questions)?;
    for _ in 0..u64::MAX {
        let Some(piece) = session.next_piece("-", &mut pieces)? else {
            break;
        };
        if let Err(error) = asker.ask_lines(piece, out) {
            return Err(session.report_questions(&[], error));
        }
        out.flush()?;
    }
    Ok(())
}

/// Looks up words, or the lines of standard input if there are none.
pub fn look_up<'a, W: Write + Drop>(
    session: Session<'a>,
    relation: Relation,
    files: &[&'a str],
    words: &[&str],
    out: &mut Printer<W>,
) -> Result<(), Failure> {
    let table = session.read_tables(files, Values::Used)?;
    let reading = session.options.reading;
    let looking = Looking {
        relation,
        asking: Asking {
            asked: Asked::Networks(reading.host_bits),
            mapped: session.options.mapped,
        },
        bad_questions: reading.bad_lines,
    };
    ask(
        session,
        words,
        &mut Asker::Lookup(&table, looking, Seen::new()),
        out,
    )
}

/// Checks words, or the lines of standard input if there are none, and sets the status if one is not allowed.
pub fn check<'a, W: Write + Drop>(
    session: Session<'a>,
    precedence: Precedence,
    files: &[&'a str],
    words: &[&str],
    out: &mut Printer<W>,
    status: &mut Status,
) -> Result<(), Failure> {
    let list = session.read_access_list(files)?;
    session.warn_of_idle(&list, precedence, words.is_empty())?;
    let checking = Checking {
        precedence,
        bad_questions: session.options.reading.bad_lines,
        mapped: session.options.mapped,
    };
    let mut asker = Asker::Check(&list, checking, Checked::new());
    let done = ask(session, words, &mut asker, out);
    *status = Status::of(asker.is_good());
    done
}
