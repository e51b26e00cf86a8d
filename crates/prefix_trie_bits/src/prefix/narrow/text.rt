//! The text of numbers of any width: what `Display` writes, and what `parse` reads.
ghost use Rattle.std.specs.Fmt.{padded, styled_decimal};
ghost use Rattle.std.specs.Prelude.{Some, decimal};
ghost use Rattle.prefix_trie_bits.specs.Keys.{narrow_width};
ghost use Rattle.prefix_trie_bits.specs.Texts.{ParsesNarrow, parse_narrow_error_text};

use super::Narrow;
use crate::prefix::Key;
use crate::prefix::decimal::read_decimal;
use std::error::Error;
use std::fmt::{self, Debug, Display, Formatter, Write};
use std::str::FromStr;

/// A text that is no number of the width.
///
/// It has something other than decimal digits, a leading zero, or a number of `2^width` or more.
#[derive(Clone, Copy, Debug, PartialEq, Eq)]
pub struct ParseNarrowError;

impl Display for ParseNarrowError {
    ghost output = { λ _. Some parse_narrow_error_text };

    ghost styled_output = { λ _ spec. Some (padded spec parse_narrow_error_text) };

    fn fmt<F: Write>(&self, f: &mut Formatter<F>) -> fmt::Result {
        f.pad("not a plain decimal number within the width")
    }
}

impl Error for ParseNarrowError {}

impl<const W: u32> Display for Narrow<W> {
    ghost output = { λ key. Some (decimal key) };

    ghost styled_output = { λ key spec. Some (styled_decimal spec key) };

    fn fmt<F: Write>(&self, f: &mut Formatter<F>) -> fmt::Result {
        Display::fmt(&self.value, f)
    }
}

impl<const W: u32> FromStr for Narrow<W> {
    type Err = ParseNarrowError;

    ghost from_str_gives = { ParsesNarrow (narrow_width W) };

    fn from_str(text: &str) -> Result<Self, ParseNarrowError> {
        let most = (1 << Self::width()) - 1;
        let Some(value) = read_decimal(text, most) else {
            return Err(ParseNarrowError);
        };
        Ok(Narrow { value })
    }
}
