//! Reading AS numbers, and other decimal numbers.
ghost use Rattle.std.specs.Prelude.{◌≡◌, ℕ, MatchOption};
ghost use Rattle.route_tables.specs.AsNumbers.{IsAsNumber, IsDecimal, without_as};

use std::str;

/// Reads an AS number: decimal digits, with or without `AS` before them.
pub(crate) fn parse_as_number(text: &[u8]) -> Option<u32>
    ensures { MatchOption result ((n : ℕ) → ¬ (IsAsNumber text.now n)) (IsAsNumber text.now) }
{
    parse_digits(without_as(text))
}

// Returns a text without the `AS` that it begins with, if it does.
fn without_as(text: &[u8]) -> &[u8]
    ensures { result.now ≡ without_as text.now }
{
    text.strip_prefix(b"AS").unwrap_or(text)
}

/// Reads a number of decimal digits alone.
pub(crate) fn parse_digits(text: &[u8]) -> Option<u32>
    ensures { MatchOption result ((n : ℕ) → ¬ (IsDecimal text.now n)) (IsDecimal text.now) }
{
    // `parse` reads a plus too
    if text.first() == Some(&b'+') {
        return None;
    }
    match str::from_utf8(text) {
        Ok(text) => text.parse().ok(),
        Err(_) => None,
    }
}
