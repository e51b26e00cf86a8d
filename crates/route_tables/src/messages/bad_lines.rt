//! All bad lines of a text that is refused.
ghost use Rattle.std.specs.Prelude.{◌≡◌, ◌<◌, ◌+◌, [], ◌∷◌, ◌++◌, if◌then◌else◌, nat_lt, IfOk, List, MatchOption, OnOk};
ghost use Rattle.route_tables.specs.BadLines.{AreBadLines, AreFirstOf, FindsLine};
ghost use Rattle.route_tables.specs.Lines.{table_lines};
ghost use Rattle.route_tables.specs.Reasons.{IsReason};
ghost use Rattle.route_tables.specs.Routes.{IsBad, IsGood};
ghost use Rattle.route_tables.specs.declared.load.BadLine.{BadLine};

use crate::line::{LineError, ReadError, read_line};
use crate::lines::{skip_mark, split_line};
use crate::load::{BadLine, Reading};
use std::alloc::{AllocError, Global};

/// The most bad lines that are named.
pub const MOST_NAMED: usize = 20;

/// The bad lines of a text: the first ones, and how many there are.
#[derive(Drop)]
pub struct FoundBadLines<'a> {
    /// The first twenty, or all if there are fewer, in order.
    pub first: Vec<BadLine<'a>>,
    /// How many there are.
    pub count: usize,
}

/// Returns the lines of a text that are not lines of a table, or of an access list if `reading` says so.
///
/// # Errors
///
/// Returns the allocator's error if an allocation fails.
///
/// # Examples
///
/// ```rust
/// let found = find_bad_lines(b"10.0.0.0/8\nten\n10.0.0.0/33\n", Reading::default(), alloc)?;
/// found.first.iter().map(|line| line.number);       // [2, 3]
/// found.count;                                      // 2
/// ```
pub fn find_bad_lines(
    text: &[u8],
    reading: Reading,
    alloc: Global,
) -> Result<FoundBadLines<'_>, AllocError>
    ensures { IfOk result (λ found. (all : List BadLine)
        × AreBadLines reading 0 (table_lines text.now) all × AreFirstOf found all) }
{
    let mut found = FoundBadLines {
        first: Vec::new(alloc),
        count: 0,
    };
    let mut number = 0;
    let mut rest = skip_mark(text);
    while !rest.is_empty() {
        let (line, later) = split_line(rest);
        number += 1;
        rest = later;
        find_in_line(line, number, reading, &mut found, alloc)?;
    }
    Ok(found)
}

// Adds a line if it is bad.
fn find_in_line<'a>(
    line: &'a [u8],
    number: usize,
    reading: Reading,
    found: &mut FoundBadLines<'a>,
    alloc: Global,
) -> Result<(), AllocError>
    requires { found.old.count < number }
    ensures { OnOk result (FindsLine reading number line.now found.old found.new) }
{
    match line_error(line, reading, alloc)? {
        None => Ok(()),
        Some(error) => {
            let text = line;
            let bad = BadLine {
                number,
                text,
                error,
            };
            add_bad_line(bad, found)
        }
    }
}

// Adds a bad line.
fn add_bad_line<'a>(bad: BadLine<'a>, found: &mut FoundBadLines<'a>) -> Result<(), AllocError>
    requires { found.old.count < bad.number }
    ensures count { OnOk result (found.new.count ≡ found.old.count + 1) }
    ensures first { OnOk result (found.new.first.items ≡ (if nat_lt found.old.count 20
        then found.old.first.items ++ bad.entry ∷ [] else found.old.first.items)) }
{
    let is_named = found.count < MOST_NAMED;
    found.count += 1;
    if is_named {
        found.first.push(bad)?;
    }
    Ok(())
}

// Returns why a line is bad, or `None` if it is not.
#[tactic(auto, using(crate::proofs::Reading::FoundLines::good_of_read))]
fn line_error(line: &[u8], reading: Reading, alloc: Global) -> Result<Option<LineError>, AllocError>
    ensures { IfOk result
        (λ found. MatchOption found (IsGood reading line.now)
        (λ error. IsBad reading line.now × IsReason reading line.now (ReadError.Line error))) }
{
    match read_line(line, reading, alloc) {
        Ok(_) => Ok(None),
        Err(ReadError::Line(error)) => Ok(Some(error)),
        Err(ReadError::Memory) => Err(AllocError),
    }
}
