//! Warnings of lines: the first ten, and how many more there are.

use crate::access::Rule;
use crate::load::Replaced;
use crate::messages::bad_lines::MOST_NAMED;
use crate::messages::excerpt::{Excerpt, Shown};
use arrayvec::ArrayVec;
use std::fmt::Display;
use std::io::{self, Write};

// The most lines that are named.
const MOST: usize = 10;

/// The numbers of lines: the first ten, and how many there are.
#[derive(Debug, Drop)]
pub struct LineNumbers {
    first: ArrayVec<usize, MOST>,
    count: usize,
}

impl LineNumbers {
    /// Returns no numbers.
    pub fn new() -> LineNumbers {
        LineNumbers {
            first: ArrayVec::new(),
            count: 0,
        }
    }

    /// Adds a number. It is kept if fewer than ten are.
    pub fn push(&mut self, number: usize) {
        let _ = self.first.try_push(number);
        self.count = self.count.saturating_add(1);
    }

    /// Returns the first ten numbers, or all if there are fewer.
    pub fn first(&self) -> &[usize] {
        self.first.as_slice()
    }

    /// Returns how many numbers were added, or `usize::MAX` if there are more.
    pub fn count(&self) -> usize {
        self.count
    }
}

/// Writes the first ten lines that replace a value by another, and the number of the others.
///
/// `name` is the name of the file.
pub fn write_replaced<W: Write>(name: &str, lines: &[Replaced], out: &mut W) -> io::Result<()> {
    let name = Shown(name);
    for Replaced { line, network } in lines.iter().take(MOST) {
        writeln!(
            out,
            "routes: {name}: line {line}: replaces the value of {network}"
        )?;
    }
    write_rest(&name, lines.len().saturating_sub(MOST), out)
}

/// Writes the first ten lines of a file that are skipped, and the number of the others.
///
/// `name` is the name of the file.
pub fn write_bad_lines<L: Display, W: Write>(
    name: &str,
    lines: &[L],
    out: &mut W,
) -> io::Result<()> {
    let name = Shown(name);
    for line in lines.iter().take(MOST) {
        writeln!(out, "routes: {name}: skipped {line}")?;
    }
    write_rest(&name, lines.len().saturating_sub(MOST), out)
}

/// Writes the first twenty of the bad lines of a file that is refused, and the number of the others.
///
/// `name` is the name of the file, and `count` is how many bad lines it has.
pub fn write_refused<L: Display, W: Write>(
    name: &str,
    first: &[L],
    count: usize,
    out: &mut W,
) -> io::Result<()> {
    let name = Shown(name);
    for line in first.iter().take(MOST_NAMED) {
        writeln!(out, "routes: {name}: {line}")?;
    }
    write_rest(&name, count.saturating_sub(MOST_NAMED), out)
}

/// Writes the numbers of the first ten lines of a file that are skipped, and the number of the others.
///
/// `name` is the name of the file, and `wanted` is what the lines are not.
pub fn write_skipped_lines<W: Write>(
    name: &str,
    wanted: &str,
    skipped: &LineNumbers,
    out: &mut W,
) -> io::Result<()> {
    let (name, first) = (Shown(name), skipped.first());
    for line in first {
        writeln!(
            out,
            "routes: {name}: line {line}: not {wanted}, so it is skipped"
        )?;
    }
    write_rest(&name, skipped.count().saturating_sub(first.len()), out)
}

/// Writes the first ten words that are skipped, and the number of the others. The numbers are those of the words.
///
/// `wanted` is what they are not.
pub fn write_skipped_words<W: Write>(
    wanted: &str,
    words: &[&str],
    skipped: &LineNumbers,
    out: &mut W,
) -> io::Result<()> {
    let first = skipped.first();
    for number in first {
        if let Some(word) = words.get(number.saturating_sub(1)) {
            let word = Excerpt(word);
            writeln!(out, "routes: {word}: not {wanted}, so it is skipped")?;
        }
    }
    write_more("words", skipped.count().saturating_sub(first.len()), out)
}

/// Writes the first ten rules that decide no address, or all of them.
pub fn write_idle<W: Write>(rules: &[Rule], are_all_named: bool, out: &mut W) -> io::Result<()> {
    let most = if are_all_named { rules.len() } else { MOST };
    for rule in rules.iter().take(most) {
        writeln!(out, "routes: {rule}: this rule decides no address")?;
    }
    write_more("rules", rules.len().saturating_sub(most), out)
}

// Writes the number of lines of a file that are not named, if there are any.
fn write_rest<W: Write>(name: &Shown<'_>, more: usize, out: &mut W) -> io::Result<()> {
    if more == 0 {
        return Ok(());
    }
    writeln!(out, "routes: {name}: {more} more such lines")
}

// Writes the number of things that are not named, if there are any.
fn write_more<W: Write>(things: &str, more: usize, out: &mut W) -> io::Result<()> {
    if more == 0 {
        return Ok(());
    }
    writeln!(out, "routes: {more} more such {things}")
}
