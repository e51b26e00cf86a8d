//! The start of a text that was read, for messages.

use crate::line::is_hidden;
use std::fmt::{self, Display, Formatter, Write};

/// Prints at most 60 characters of a text.
///
/// It prints `?` in place of each control character, of white space except U+0020, and of each character that is not visible or
/// changes the direction of text.
#[derive(Clone, Copy, Debug, PartialEq, Eq)]
pub struct Excerpt<'a>(pub &'a str);

/// Prints a whole text as `Excerpt` prints its start.
#[derive(Clone, Copy, Debug, PartialEq, Eq)]
pub struct Shown<'a>(pub &'a str);

/// Prints bytes as `Excerpt` prints a text, with `?` in place of each sequence that is not UTF-8.
#[derive(Clone, Copy, Debug, PartialEq, Eq)]
pub struct ByteExcerpt<'a>(pub &'a [u8]);

// The most characters that are printed.
const MOST: usize = 60;

impl Display for Excerpt<'_> {
    fn fmt<W: Write>(&self, f: &mut Formatter<W>) -> fmt::Result {
        match write_start(self.0, MOST, f)? {
            Some(_) => Ok(()),
            None => f.write_str("..."),
        }
    }
}

impl Display for Shown<'_> {
    fn fmt<W: Write>(&self, f: &mut Formatter<W>) -> fmt::Result {
        write_start(self.0, usize::MAX, f)?;
        Ok(())
    }
}

impl Display for ByteExcerpt<'_> {
    fn fmt<W: Write>(&self, f: &mut Formatter<W>) -> fmt::Result {
        let mut left = MOST;
        for chunk in self.0.utf8_chunks() {
            let sequence = if chunk.invalid().is_empty() { "" } else { "?" };
            for text in [chunk.valid(), sequence] {
                match write_start(text, left, f)? {
                    Some(fewer) => left = fewer,
                    None => return f.write_str("..."),
                }
            }
        }
        Ok(())
    }
}

// Writes at most `left` characters of a text. Returns how many are left then, or `None` if the text has more.
fn write_start<W: Write>(
    text: &str,
    left: usize,
    f: &mut Formatter<W>,
) -> Result<Option<usize>, fmt::Error> {
    let mut left = left;
    for c in text.chars() {
        if left == 0 {
            return Ok(None);
        }
        f.write_char(if c != ' ' && is_hidden(c) { '?' } else { c })?;
        left -= 1;
    }
    Ok(Some(left))
}
