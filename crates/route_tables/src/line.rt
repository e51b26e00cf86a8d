//! Reading one line of a table.
ghost use Rattle.std.specs.Prelude.{◌≡◌, ◌⊎◌, [], ◌∷◌, ◌↔◌, List, ℕ, codes, IfErr, IfOk, IsTrue, MatchOption, MatchResult};
ghost use Rattle.std.specs.Net.Grammar.{IsIpText};
ghost use Rattle.std.specs.Str.{IsUtf8};
ghost use Rattle.std.specs.declared.net.ip_addr.IpAddr.{IpAddr as Ip};
ghost use Rattle.prefix_trie_joint.specs.declared.prefix.IpPrefix.{IpPrefix};
ghost use Rattle.route_tables.specs.Lines.{fields, has_bare_return, has_hidden, has_separator, is_direction, is_hidden, is_zero_width};
ghost use Rattle.route_tables.specs.Networks.{AreOfEnds, AreOfText, all_networks};
ghost use Rattle.route_tables.specs.Reasons.{AreEndsReason, AreNoEndsAndValue, AreNoNetworksAndValue, IsFieldReason, IsFieldsReason, IsReason, IsRuleInOtherCase, IsValueReason, IsValueTextReason};
ghost use Rattle.route_tables.specs.Routes.{AreEndsAndValue, AreFieldsOf, AreNetworksAndValue, IfLine, IsBad, IsBlank, IsRoute, IsRule, IsValue, IsValueText};

use crate::lines::{has_bare_return, split_field};
use crate::load::{Reading, TableKind};
use crate::messages::OUT_OF_MEMORY;
use crate::network::{HostBits, NetworkError};
use crate::range::{Networks, parse_network_or_range, parse_range};
use crate::rule::{is_rule, is_rule_in_other_case};
use std::alloc::{AllocError, Global};
use std::error::Error;
use std::fmt::{self, Display, Formatter, Write};
use std::net::IpAddr;
use std::str;

/// Why a line is not a line of a table.
#[derive(Clone, Copy, Debug, PartialEq, Eq)]
pub enum LineError {
    /// A carriage return is not at the end of the line.
    BareReturn,
    /// A field is not UTF-8.
    NotUtf8,
    /// The first field has no hyphen, and is neither a network nor an address.
    Network(NetworkError),
    /// The text before a hyphen is not an address, or the text after it is not.
    RangeEnds,
    /// One end of a range is an IPv4 address, and the other an IPv6 address.
    RangeFamilies,
    /// The first address of a range is after its last.
    RangeOrder,
    /// The value has a control character, white space, or a character that is not visible or changes the direction of text.
    HiddenCharacter,
    /// The value is an address.
    AddressAsValue,
    /// A field follows the value.
    ExtraField,
    /// The value of an access list is neither `allow` nor `deny`.
    OtherValue,
    /// The value of an access list is `allow` or `deny` with capital letters.
    CapitalLetters,
}

impl Display for LineError {
    fn fmt<W: Write>(&self, f: &mut Formatter<W>) -> fmt::Result {
        f.write_str(match self {
            LineError::BareReturn => "carriage return without a line feed",
            LineError::NotUtf8 => "not UTF-8",
            LineError::Network(NetworkError::Address) => {
                "expected a network, an address or a range"
            }
            LineError::Network(error) => return Display::fmt(error, f),
            LineError::RangeEnds => "expected an address before and after the hyphen",
            LineError::RangeFamilies => "range from one address family to the other",
            LineError::RangeOrder => "first address of the range is after its last",
            LineError::HiddenCharacter => "white space, hidden or control character in the value",
            LineError::AddressAsValue => {
                "the value is an address; for example, use 10.0.0.0/8 or 10.0.0.0-10.255.255.255"
            }
            LineError::ExtraField => "more than a network and a value",
            LineError::OtherValue => "the value is neither allow nor deny",
            LineError::CapitalLetters => "allow and deny are in lower case",
        })
    }
}

impl Error for LineError {}

/// Why a line is not read.
#[derive(Clone, Copy, Debug, PartialEq, Eq)]
pub enum ReadError {
    /// It is not a line of a table.
    Line(LineError),
    /// An allocation failed.
    Memory,
}

impl Display for ReadError {
    fn fmt<W: Write>(&self, f: &mut Formatter<W>) -> fmt::Result {
        match self {
            ReadError::Line(error) => Display::fmt(error, f),
            ReadError::Memory => f.write_str(OUT_OF_MEMORY),
        }
    }
}

impl Error for ReadError {}

impl From<LineError> for ReadError {
    ghost use Rattle.route_tables.specs.declared.line.ReadError.TheVariants.{Line};

    ghost from_gives = { λ error read. read ≡ Line error };

    fn from(error: LineError) -> ReadError {
        ReadError::Line(error)
    }
}

impl From<AllocError> for ReadError {
    ghost use Rattle.route_tables.specs.declared.line.ReadError.TheVariants.{Memory};

    ghost from_gives = { λ _ error. error ≡ Memory };

    fn from(_error: AllocError) -> ReadError {
        ReadError::Memory
    }
}

/// Reads a line: networks and their value, or nothing if the line is blank or a comment.
///
/// The networks are the first field: a network, an address or a range. The hyphen of a range may be a field between those of
/// its two addresses. The value is the field after the networks, and is empty if there is none. In an access list, it is
/// `allow` or `deny`.
///
/// # Errors
///
/// Returns the first reason why the line is neither. Returns `Memory` if an allocation fails. Only a range needs one.
///
/// # Examples
///
/// ```rust
/// let reading = Reading::default();
/// read_line(b"10.0.0.0/8 core # why", reading, alloc);      // Ok(Some((One(V4(10.0.0.0/8)), "core")))
/// read_line(b"10.0.0.1", reading, alloc);                   // Ok(Some((One(V4(10.0.0.1/32)), "")))
/// read_line(b"# a comment", reading, alloc);                // Ok(None)
/// read_line(b"10.0.0.1/8 core", reading, alloc);            // Err(Line(Network(HostBits)))
/// read_line(b"10.0.0.0 255.0.0.0", reading, alloc);         // Err(Line(AddressAsValue))
/// ```
#[inline(always)]
pub fn read_line(
    line: &[u8],
    reading: Reading,
    alloc: Global,
) -> Result<Option<(Networks, &str)>, ReadError>
    ensures read { IfOk result
        (λ found. MatchOption found (IsBlank line.now)
        (λ route. IsRoute reading line.now (all_networks route.0) route.1.now)) }
    ensures bad { IfErr result (IfLine (IsBad reading line.now)) }
    ensures reason { IfErr result (IsReason reading line.now) }
{
    if has_bare_return(line) {
        return Err(ReadError::Line(LineError::BareReturn));
    }
    let Some((first, rest)) = split_field(line) else {
        return Ok(None);
    };
    match read_fields(first, rest, reading, alloc) {
        Ok(route) => Ok(Some(route)),
        Err(error) => Err(error),
    }
}

// Reads the first field of a line and what follows it.
fn read_fields<'a>(
    first: &[u8],
    rest: &'a [u8],
    reading: Reading,
    alloc: Global,
) -> Result<(Networks, &'a str), ReadError>
    ensures read { IfOk result (λ route. AreFieldsOf reading first.now (fields rest.now)
        (all_networks route.0) route.1.now) }
    ensures none { IfErr result (IfLine ((networks : List IpPrefix) (value : List ℕ)
        → ¬ (AreFieldsOf reading first.now (fields rest.now) networks value))) }
    ensures reason { IfErr result (IsFieldsReason reading first.now (fields rest.now)) }
{
    match split_field(rest) {
        None => read_alone(first, reading, alloc),
        Some((second, rest)) => read_pair(first, second, rest, reading, alloc),
    }
}

// Reads the only field of a line.
fn read_alone(
    first: &[u8],
    reading: Reading,
    alloc: Global,
) -> Result<(Networks, &'static str), ReadError>
    ensures read { IfOk result (λ route. AreNetworksAndValue reading first.now []
        (all_networks route.0) route.1.now) }
    ensures none { IfErr result (IfLine ((networks : List IpPrefix) (value : List ℕ)
        → ¬ (AreNetworksAndValue reading first.now [] networks value))) }
    ensures reason { IfErr result (AreNoNetworksAndValue reading first.now []) }
{
    let networks = read_networks(first, reading.host_bits, alloc)?;
    let value = no_value(reading.kind)?;
    Ok((networks, value))
}

// Reads the first two fields of a line and what follows them.
fn read_pair<'a>(
    first: &[u8],
    second: &'a [u8],
    rest: &'a [u8],
    reading: Reading,
    alloc: Global,
) -> Result<(Networks, &'a str), ReadError>
    ensures read { IfOk result (λ route. AreFieldsOf reading first.now
        (second.now ∷ fields rest.now) (all_networks route.0) route.1.now) }
    ensures none { IfErr result (IfLine ((networks : List IpPrefix) (value : List ℕ)
        → ¬ (AreFieldsOf reading first.now (second.now ∷ fields rest.now) networks value))) }
    ensures reason { IfErr result
        (IsFieldsReason reading first.now (second.now ∷ fields rest.now)) }
{
    match split_end(second, rest) {
        None => read_valued(first, second, rest, reading, alloc),
        Some((last, rest)) => read_spaced(first, last, rest, reading, alloc),
    }
}

// Splits off the field after a hyphen.
fn split_end<'a>(second: &[u8], rest: &'a [u8]) -> Option<(&'a [u8], &'a [u8])>
    ensures { MatchOption result ((last : List ℕ) (later : List (List ℕ))
        → ¬ (second.now ∷ fields rest.now ≡ codes "-" ∷ last ∷ later))
        (λ parts. second.now ∷ fields rest.now
        ≡ codes "-" ∷ parts.0.now ∷ fields parts.1.now) }
{
    if second == b"-".as_slice() {
        split_field(rest)
    } else {
        None
    }
}

// Reads the fields of networks and their value, and what follows them.
fn read_valued<'a>(
    first: &[u8],
    second: &'a [u8],
    rest: &[u8],
    reading: Reading,
    alloc: Global,
) -> Result<(Networks, &'a str), ReadError>
    ensures read { IfOk result (λ route. AreNetworksAndValue reading first.now
        (second.now ∷ fields rest.now) (all_networks route.0) route.1.now) }
    ensures none { IfErr result (IfLine ((networks : List IpPrefix) (value : List ℕ)
        → ¬ (AreNetworksAndValue reading first.now (second.now ∷ fields rest.now)
        networks value))) }
    ensures reason { IfErr result
        (AreNoNetworksAndValue reading first.now (second.now ∷ fields rest.now)) }
{
    let networks = read_networks(first, reading.host_bits, alloc)?;
    let value = read_last(second, rest, reading.kind)?;
    Ok((networks, value))
}

// Reads the two ends of a range, and what follows them.
fn read_spaced<'a>(
    first: &[u8],
    last: &[u8],
    rest: &'a [u8],
    reading: Reading,
    alloc: Global,
) -> Result<(Networks, &'a str), ReadError>
    ensures read { IfOk result (λ route. AreEndsAndValue reading first.now last.now
        (fields rest.now) (all_networks route.0) route.1.now) }
    ensures none { IfErr result (IfLine ((networks : List IpPrefix) (value : List ℕ)
        → ¬ (AreEndsAndValue reading first.now last.now (fields rest.now) networks value))) }
    ensures reason { IfErr result
        (AreNoEndsAndValue reading first.now last.now (fields rest.now)) }
{
    let networks = read_ends(first, last, alloc)?;
    let value = read_rest(rest, reading.kind)?;
    Ok((networks, value))
}

// Reads the field of a network, an address or a range.
fn read_networks(field: &[u8], host_bits: HostBits, alloc: Global) -> Result<Networks, ReadError>
    ensures read { IfOk result
        (λ networks. IsUtf8 field.now × AreOfText host_bits field.now (all_networks networks)) }
    ensures none { IfErr result (IfLine (IsUtf8 field.now → (networks : List IpPrefix)
        → ¬ (AreOfText host_bits field.now networks))) }
    ensures reason { IfErr result (IsFieldReason host_bits field.now) }
{
    let Ok(text) = str::from_utf8(field) else {
        return Err(ReadError::Line(LineError::NotUtf8));
    };
    parse_network_or_range(text, host_bits, alloc)
}

// Reads the fields of the first and the last address of a range.
fn read_ends(first: &[u8], last: &[u8], alloc: Global) -> Result<Networks, ReadError>
    ensures read { IfOk result (λ networks. IsUtf8 first.now × IsUtf8 last.now
        × AreOfEnds first.now last.now (all_networks networks)) }
    ensures none { IfErr result (IfLine (IsUtf8 first.now → IsUtf8 last.now
        → (networks : List IpPrefix) → ¬ (AreOfEnds first.now last.now networks))) }
    ensures reason { IfErr result (AreEndsReason first.now last.now) }
{
    let (Ok(first), Ok(last)) = (str::from_utf8(first), str::from_utf8(last)) else {
        return Err(ReadError::Line(LineError::NotUtf8));
    };
    parse_range(first, last, alloc)
}

// Reads what follows the networks of a line: a value or nothing.
fn read_rest(rest: &[u8], kind: TableKind) -> Result<&str, LineError>
    ensures value { MatchResult result (λ value. IsValue kind (fields rest.now) value.now)
        (λ _. (value : List ℕ) → ¬ (IsValue kind (fields rest.now) value)) }
    ensures reason { IfErr result (IsValueReason kind (fields rest.now)) }
{
    match split_field(rest) {
        None => no_value(kind),
        Some((field, rest)) => read_last(field, rest, kind),
    }
}

// Returns the empty value of a line without one.
fn no_value(kind: TableKind) -> Result<&'static str, LineError>
    ensures value { MatchResult result (λ value. IsValue kind [] value.now)
        (λ _. (value : List ℕ) → ¬ (IsValue kind [] value)) }
    ensures reason { IfErr result (IsValueReason kind []) }
{
    match kind {
        TableKind::AnyValues => Ok(""),
        TableKind::AccessList => Err(LineError::OtherValue),
    }
}

// Reads a value, which no field follows.
fn read_last<'a>(field: &'a [u8], rest: &[u8], kind: TableKind) -> Result<&'a str, LineError>
    ensures value { MatchResult result
        (λ value. IsValue kind (field.now ∷ fields rest.now) value.now)
        (λ _. (value : List ℕ) → ¬ (IsValue kind (field.now ∷ fields rest.now) value)) }
    ensures reason { IfErr result (IsValueReason kind (field.now ∷ fields rest.now)) }
{
    let value = read_value(field, kind)?;
    if split_field(rest).is_some() {
        return Err(LineError::ExtraField);
    }
    Ok(value)
}

// Reads a value.
fn read_value(field: &[u8], kind: TableKind) -> Result<&str, LineError>
    ensures value { MatchResult result
        (λ value. (value.now ≡ field.now) × IsValueText kind field.now)
        (λ _. ¬ (IsValueText kind field.now)) }
    ensures reason { IfErr result (IsValueTextReason kind field.now) }
{
    let Ok(text) = str::from_utf8(field) else {
        return Err(LineError::NotUtf8);
    };
    if has_hidden(text) {
        return Err(LineError::HiddenCharacter);
    }
    if is_address(text) {
        return Err(LineError::AddressAsValue);
    }
    match kind {
        TableKind::AnyValues => Ok(text),
        TableKind::AccessList => read_rule(text),
    }
}

// Returns a value back if it is a rule.
fn read_rule(value: &str) -> Result<&str, LineError>
    ensures rule { MatchResult result (λ same. (same.now ≡ value.now) × IsRule value.now)
        (λ _. ¬ (IsRule value.now)) }
    ensures reason { IfErr result (λ error.
        ((error ≡ LineError.CapitalLetters) × ¬ (IsRule value.now) × IsRuleInOtherCase value.now)
        ⊎ ((error ≡ LineError.OtherValue) × ¬ (IsRule value.now)
        × ¬ (IsRuleInOtherCase value.now))) }
{
    if is_rule(value) {
        Ok(value)
    } else if is_rule_in_other_case(value) {
        Err(LineError::CapitalLetters)
    } else {
        Err(LineError::OtherValue)
    }
}

// Returns whether a text is an address.
pub(crate) fn is_address(text: &str) -> bool
    ensures { IsTrue result ↔ ((address : Ip) × IsIpText text.now address) }
{
    // Most values have no byte of an address, and a search of bytes finds that sooner than `parse`.
    has_separator(text) && text.parse::<IpAddr>().is_ok()
}

// Returns whether a text has a dot or a colon.
fn has_separator(text: &str) -> bool
    ensures { result ≡ has_separator text.now }
{
    text.as_bytes()
        .iter()
        .any(|byte| *byte == b'.' || *byte == b':')
}

// Returns whether a text has a character that can hide or change what a reader sees.
pub(crate) fn has_hidden(text: &str) -> bool
    ensures { result ≡ has_hidden text.now }
{
    text.chars().any(|c| is_hidden(c))
}

// Returns whether a character is a control character or white space, is not visible, or changes the direction of the text
// after it.
pub(crate) fn is_hidden(c: char) -> bool
    ensures { result ≡ is_hidden c }
{
    c.is_control() || c.is_whitespace() || is_zero_width(c) || is_direction(c)
}

// Returns whether a character has no width.
fn is_zero_width(c: char) -> bool
    ensures { result ≡ is_zero_width c }
{
    matches!(c, '\u{200b}'..='\u{200d}' | '\u{2060}' | '\u{feff}')
}

// Returns whether a character changes the direction of the text after it.
fn is_direction(c: char) -> bool
    ensures { result ≡ is_direction c }
{
    matches!(c, '\u{61c}' | '\u{200e}'..='\u{200f}' | '\u{202a}'..='\u{202e}' | '\u{2066}'..='\u{2069}')
}
