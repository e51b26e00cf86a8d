//! Reading routes: a prefix and the path of ASs through which it is announced.
ghost use Rattle.std.specs.Prelude.{◌≡◌, ◌∷◌, ℕ, MatchResult, Option};
ghost use Rattle.std.specs.List.{list_all, list_any};
ghost use Rattle.std.specs.Str.{IsUtf8};
ghost use Rattle.route_tables.specs.Announcements.{AreFieldsOfRoute, EndsPath, IsHop, IsPath, IsPathError, IsRoutePrefixError, IsRouteFieldsError, ReadsRoute, is_brace, is_of_set, is_set_byte};
ghost use Rattle.route_tables.specs.Lines.{fields};
ghost use Rattle.route_tables.specs.Networks.{IsNetworkText};
ghost use Rattle.route_tables.specs.declared.announcements.Announcement.{Announcement};

use crate::as_numbers::parse_as_number;
use crate::lines::{has_bare_return, split_field};
use crate::network::{HostBits, parse_network_with};
use crate::questions::QuestionError;
use prefix_trie_joint::IpPrefix;
use std::str;

/// A route: a prefix and the AS that announces it.
#[derive(Clone, Copy, Debug, PartialEq, Eq)]
pub struct Announcement {
    /// The prefix.
    pub prefix: IpPrefix,
    /// The last AS of the path, or `None` if the path ends in a set of ASs.
    pub origin: Option<u32>,
}

/// Reads the route of a line, or nothing if the line is blank or a comment.
///
/// A prefix comes first, and then one AS number or more, with or without `AS`. The last one is the origin. A set of ASs has
/// braces around it, as `{64500,64501}` or `{64500 64501}`.
///
/// # Errors
///
/// Returns why the line has no route: the reason of the prefix, or else of the path.
///
/// # Examples
///
/// ```rust
/// read_announcement(b"10.0.0.0/8 64499 AS64500", HostBits::Refused);     // Ok(Some(Announcement { prefix: V4(10.0.0.0/8), origin: Some(64500) }))
/// read_announcement(b"10.0.0.0/8 64499 {1,2}", HostBits::Refused);       // Ok(Some(Announcement { prefix: V4(10.0.0.0/8), origin: None }))
/// read_announcement(b"10.0.0.0/8", HostBits::Refused);                   // Err(NoOrigin)
/// ```
pub fn read_announcement(
    line: &[u8],
    host_bits: HostBits,
) -> Result<Option<Announcement>, QuestionError>
    ensures { ReadsRoute host_bits line.now result }
{
    if has_bare_return(line) {
        return Err(QuestionError::BareReturn);
    }
    let Some((first, rest)) = split_field(line) else {
        return Ok(None);
    };
    match read_fields(first, rest, host_bits) {
        Ok(route) => Ok(Some(route)),
        Err(error) => Err(error),
    }
}

// Reads the first field of a line and the path after it.
fn read_fields(
    first: &[u8],
    rest: &[u8],
    host_bits: HostBits,
) -> Result<Announcement, QuestionError>
    ensures { MatchResult result (AreFieldsOfRoute host_bits first.now (fields rest.now))
        (λ error. IsRouteFieldsError host_bits first.now (fields rest.now) error
        × ((route : Announcement)
        → ¬ (AreFieldsOfRoute host_bits first.now (fields rest.now) route))) }
{
    let prefix = read_prefix(first, host_bits)?;
    let origin = read_path(rest)?;
    Ok(Announcement { prefix, origin })
}

// Reads the prefix of a route.
fn read_prefix(field: &[u8], host_bits: HostBits) -> Result<IpPrefix, QuestionError>
    ensures { MatchResult result
        (λ prefix. IsUtf8 field.now × IsNetworkText host_bits field.now prefix)
        (IsRoutePrefixError host_bits field.now) }
{
    match str::from_utf8(field) {
        Ok(text) => parse_prefix(text, host_bits),
        Err(_) => Err(QuestionError::NotUtf8),
    }
}

// Reads the text of the prefix of a route.
fn parse_prefix(text: &str, host_bits: HostBits) -> Result<IpPrefix, QuestionError>
    ensures { MatchResult result (IsNetworkText host_bits text.now)
        (IsRoutePrefixError host_bits text.now) }
{
    match parse_network_with(text, host_bits) {
        Ok(prefix) => Ok(prefix),
        Err(error) => Err(QuestionError::Network(error)),
    }
}

// Returns the origin of a path: its last AS, or `None` if it ends in a set.
fn read_path(path: &[u8]) -> Result<Option<u32>, QuestionError>
    ensures { MatchResult result (IsPath (fields path.now))
        (λ error. IsPathError (fields path.now) error
        × ((origin : Option ℕ) → ¬ (IsPath (fields path.now) origin))) }
{
    match split_field(path) {
        None => Err(QuestionError::NoOrigin),
        Some((first, rest)) => read_hops(first, rest),
    }
}

// Returns the origin of a path with this first field.
fn read_hops(first: &[u8], rest: &[u8]) -> Result<Option<u32>, QuestionError>
    ensures { MatchResult result (IsPath (first.now ∷ fields rest.now))
        (λ error. (error ≡ QuestionError.AsNumber)
        × ((origin : Option ℕ) → ¬ (IsPath (first.now ∷ fields rest.now) origin))) }
{
    let hop = read_hop(first)?;
    read_rest(hop, rest)
}

// Returns the origin of a path with this hop before its other fields.
fn read_rest(hop: Option<u32>, path: &[u8]) -> Result<Option<u32>, QuestionError>
    ensures { MatchResult result (EndsPath hop (fields path.now))
        (λ error. (error ≡ QuestionError.AsNumber)
        × ((origin : Option ℕ) → ¬ (EndsPath hop (fields path.now) origin))) }
{
    let mut last = hop;
    let mut rest = path;
    while let Some((field, later)) = split_field(rest) {
        last = read_hop(field)?;
        rest = later;
    }
    Ok(last)
}

// Reads one field of a path: an AS, or `None` if it is a set or a part of one.
fn read_hop(field: &[u8]) -> Result<Option<u32>, QuestionError>
    ensures { MatchResult result (IsHop field.now) (λ error. (error ≡ QuestionError.AsNumber)
        × ((hop : Option ℕ) → ¬ (IsHop field.now hop))) }
{
    if is_of_set(field) {
        return Ok(None);
    }
    match parse_as_number(field) {
        Some(origin) => Ok(Some(origin)),
        None => Err(QuestionError::AsNumber),
    }
}

// Returns whether a field has a brace, and otherwise only digits and commas.
fn is_of_set(field: &[u8]) -> bool
    ensures { result ≡ is_of_set field.now }
{
    has_brace(field) && has_set_bytes(field)
}

// Returns whether a field has a brace.
fn has_brace(field: &[u8]) -> bool
    ensures { result ≡ list_any is_brace field.now }
{
    field.iter().any(|byte| *byte == b'{' || *byte == b'}')
}

// Returns whether a field has only digits, braces and commas.
fn has_set_bytes(field: &[u8]) -> bool
    ensures { result ≡ list_all is_set_byte field.now }
{
    field.iter().all(|byte| byte.is_ascii_digit()
        || *byte == b'{'
        || *byte == b'}'
        || *byte == b',')
}
