//! Messages that name what is wrong in a text.

pub mod bad_lines;
pub mod excerpt;
pub mod warnings;

use crate::line::LineError;
use crate::lines::split_field;
use crate::messages::excerpt::Excerpt;
use crate::network::{HostBits, NetworkError, parse_network_with};
use crate::questions::QuestionError;
use crate::vrp_lines::{VrpError, second_field};
use prefix_trie::ParseNetworkError;
use std::fmt::{self, Display, Formatter, Write};
use std::str;

/// The message for a failed allocation.
pub const OUT_OF_MEMORY: &str = "out of memory";

/// Prints why a text is not a network, with the length that is wrong, or with the network without host bits.
#[derive(Clone, Copy, Debug, PartialEq, Eq)]
pub struct NetworkMessage<'a> {
    /// The text that was read.
    pub text: &'a str,
    /// Why it is not a network.
    pub error: NetworkError,
}

/// Prints why a line is not a line of a table, as `NetworkMessage` does if its network is wrong.
#[derive(Clone, Copy, Debug, PartialEq, Eq)]
pub struct LineMessage<'a> {
    /// The line that was read.
    pub line: &'a [u8],
    /// Why it is not a line of a table.
    pub error: LineError,
}

/// Prints why a text is no question, as `NetworkMessage` does if its network is wrong.
#[derive(Clone, Copy, Debug, PartialEq, Eq)]
pub struct QuestionMessage<'a> {
    /// The line or word that was read.
    pub text: &'a [u8],
    /// Why it is no question.
    pub error: QuestionError,
}

/// Prints why a line has no VRP, as `NetworkMessage` does if its network is wrong.
#[derive(Clone, Copy, Debug, PartialEq, Eq)]
pub struct VrpMessage<'a> {
    /// The line that was read.
    pub line: &'a [u8],
    /// Why it has no VRP.
    pub error: VrpError,
}

impl Display for NetworkMessage<'_> {
    fn fmt<W: Write>(&self, f: &mut Formatter<W>) -> fmt::Result {
        match self.error {
            NetworkError::Text(ParseNetworkError::Length) => write_length(self.text, f),
            NetworkError::HostBits => write_host_bits(self.text, f),
            error => Display::fmt(&error, f),
        }
    }
}

impl Display for LineMessage<'_> {
    fn fmt<W: Write>(&self, f: &mut Formatter<W>) -> fmt::Result {
        match self.error {
            LineError::Network(error) if error != NetworkError::Address => {
                let text = first_field(self.line);
                Display::fmt(&NetworkMessage { text, error }, f)
            }
            error => Display::fmt(&error, f),
        }
    }
}

impl Display for QuestionMessage<'_> {
    fn fmt<W: Write>(&self, f: &mut Formatter<W>) -> fmt::Result {
        match self.error {
            QuestionError::Network(error) => {
                let text = first_field(self.text);
                Display::fmt(&NetworkMessage { text, error }, f)
            }
            error => Display::fmt(&error, f),
        }
    }
}

impl Display for VrpMessage<'_> {
    fn fmt<W: Write>(&self, f: &mut Formatter<W>) -> fmt::Result {
        match self.error {
            VrpError::Network(error) => {
                let text = str::from_utf8(second_field(self.line)).unwrap_or("");
                Display::fmt(&NetworkMessage { text, error }, f)
            }
            error => Display::fmt(&error, f),
        }
    }
}

// Returns the first field of a line, or the empty text if it has none.
fn first_field(line: &[u8]) -> &str {
    match split_field(line) {
        Some((field, _)) => str::from_utf8(field).unwrap_or(""),
        None => "",
    }
}

// Writes what is wrong with the length of a network.
fn write_length<W: Write>(text: &str, f: &mut Formatter<W>) -> fmt::Result {
    let (address, len) = text.split_once('/').unwrap_or((text, ""));
    let most = if address.contains(':') { 128 } else { 32 };
    match len.parse::<u64>() {
        Ok(len) if len > most => write!(f, "length {len} is above {most}"),
        _ => write!(f, "\"{}\" is not a length from 0 to {most}", Excerpt(len)),
    }
}

// Writes the network without host bits.
fn write_host_bits<W: Write>(text: &str, f: &mut Formatter<W>) -> fmt::Result {
    Display::fmt(&NetworkError::HostBits, f)?;
    match parse_network_with(text, HostBits::Cleared) {
        Ok(network) => write!(f, "; use {network} or --clear-host-bits"),
        Err(_) => Ok(()),
    }
}
