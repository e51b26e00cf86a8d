//! The lines of a text, and the fields of a line.
ghost use Rattle.std.specs.Prelude.{◌≡◌, ◌==◌, [], ◌∷◌, ◌<◌, ◌≤◌, length, MatchOption};
ghost use Rattle.std.specs.Char.{is_ascii_whitespace};
ghost use Rattle.std.specs.List.{position, position_or_len};
ghost use Rattle.route_tables.specs.Lines.{after_mark, fields, has_bare_return, lines, words};

use memchr::memchr;

// Returns the number of bytes before the first line feed, or of all bytes.
#[tactic(auto, using(crate::proofs::FirstBytes::first_or_length))]
fn line_len(text: &[u8]) -> usize
    ensures { result ≡ position_or_len (λ b. b == 10) text.now }
{
    memchr(b'\n', text).unwrap_or(text.len())
}

// Returns the number of bytes before the first white space, or of all bytes.
#[tactic(auto, using(crate::proofs::Reading::LineTexts::or_length))]
fn word_len(text: &[u8]) -> usize
    ensures value { result ≡ position_or_len is_ascii_whitespace text.now }
    ensures within { result ≤ length text.now }
{
    word_end(text).unwrap_or(text.len())
}

// Returns the index of the first white space.
// It is apart from `word_len` so that tactics prove both.
fn word_end(text: &[u8]) -> Option<usize>
    ensures { result ≡ position is_ascii_whitespace text.now }
{
    text.iter().position(|byte| byte.is_ascii_whitespace())
}

/// Returns a text without its byte order mark, if it begins with one.
///
/// # Examples
///
/// ```rust
/// skip_mark(b"\xef\xbb\xbfone").len();        // 3
/// skip_mark(b"one").len();                    // 3
/// ```
pub fn skip_mark(text: &[u8]) -> &[u8]
    ensures { result.now ≡ after_mark text.now }
{
    text.strip_prefix(b"\xef\xbb\xbf").unwrap_or(text)
}

/// Splits off the first line of a text. The line feed that ends it belongs to neither part.
///
/// # Examples
///
/// ```rust
/// split_line(b"one\ntwo\n") == (b"one", b"two\n");     // true
/// split_line(b"one") == (b"one", b"");                 // true
/// ```
pub fn split_line(text: &[u8]) -> (&[u8], &[u8])
    requires { 0 < length text.now }
    ensures first { lines text.now ≡ result.0.now ∷ lines result.1.now }
    ensures shorter { length result.1.now < length text.now }
{
    let end = line_len(text);
    if end < text.len() {
        (&text[..end], &text[end + 1..])
    } else {
        (text, &[])
    }
}

/// Splits off the first word, and returns it and the rest, or `None` if there is no word.
pub(crate) fn split_word(text: &[u8]) -> Option<(&[u8], &[u8])>
    ensures { MatchOption result (words text.now ≡ [])
        (λ parts. words text.now ≡ parts.0.now ∷ words parts.1.now) }
{
    let text = text.trim_ascii_start();
    if text.is_empty() {
        return None;
    }
    Some(text.split_at(word_len(text)))
}

/// Splits off the first field, a word before the comment, or returns `None` if there is none.
///
/// # Examples
///
/// ```rust
/// split_field(b" core # edge") == Some((b"core", b" # edge"));        // true
/// split_field(b" # edge").is_none();                                  // true
/// ```
pub fn split_field(text: &[u8]) -> Option<(&[u8], &[u8])>
    ensures { MatchOption result (fields text.now ≡ [])
        (λ parts. fields text.now ≡ parts.0.now ∷ fields parts.1.now) }
{
    let (word, rest) = split_word(text)?;
    if word.first() == Some(&b'#') {
        return None;
    }
    Some((word, rest))
}

/// Returns whether a carriage return is before the last byte of a line.
///
/// A line feed follows only one at the end.
#[tactic(auto, using(crate::proofs::FirstBytes::first_is_some))]
pub fn has_bare_return(line: &[u8]) -> bool
    ensures { result ≡ has_bare_return line.now }
{
    memchr(b'\r', &line[..line.len().saturating_sub(1)]).is_some()
}
