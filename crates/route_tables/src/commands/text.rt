//! Printing networks and routes.
ghost use Rattle.std.specs.Prelude.{[], ◌∷◌, ◌++◌, codes, OnOk};
ghost use Rattle.std.specs.Option.{option_map};
ghost use Rattle.std.specs.Io.KnownBytes.{Appends};
ghost use Rattle.prefix_trie.specs.Terms.{lent_item};
ghost use Rattle.prefix_trie_joint.specs.Texts.{ip_network_text};
ghost use Rattle.route_tables.specs.Printed.{answer_line, found_line, route_line};

use crate::lookup::Found;
use prefix_trie_joint::IpPrefix;
use std::io::{self, Write};

/// Prints an address with the longest network that contains it and its value, or with `none`.
///
/// # Errors
///
/// Returns the writer's error.
pub fn print_answer<W: Write>(address: &str, found: &Found<'_>, out: &mut W) -> io::Result<()>
    ensures { OnOk result (Appends (W.contents out.old) (W.contents out.new)
        (answer_line address.now (option_map lent_item found.now))) }
{
    print_word(address, out)?;
    print_found(found, out)
}

// Prints a word and a space.
fn print_word<W: Write>(word: &str, out: &mut W) -> io::Result<()>
    ensures { OnOk result (Appends (W.contents out.old) (W.contents out.new)
        (word.now ++ codes " ")) }
{
    out.write_all(word.as_bytes())?;
    out.write_all(b" ")
}

// Prints what is found for an address.
fn print_found<W: Write>(found: &Found<'_>, out: &mut W) -> io::Result<()>
    ensures { OnOk result (Appends (W.contents out.old) (W.contents out.new)
        (found_line (option_map lent_item found.now))) }
{
    match found {
        Some((network, value)) => print_route(network, value.as_str(), out),
        None => out.write_all(b"none\n"),
    }
}

/// Prints a line with a network and its value. A network without a value is alone on its line.
///
/// # Errors
///
/// Returns the writer's error.
pub fn print_route<W: Write>(network: &IpPrefix, value: &str, out: &mut W) -> io::Result<()>
    ensures { OnOk result (Appends (W.contents out.old) (W.contents out.new)
        (route_line network.now value.now)) }
{
    if value.is_empty() {
        print_network(network, b'\n', out)
    } else {
        print_network(network, b' ', out)?;
        out.write_all(value.as_bytes())?;
        out.write_all(b"\n")
    }
}

/// Prints the text of a network, and a byte after it.
///
/// # Errors
///
/// Returns the writer's error.
pub fn print_network<W: Write>(network: &IpPrefix, end: u8, out: &mut W) -> io::Result<()>
    ensures { OnOk result (Appends (W.contents out.old) (W.contents out.new)
        (ip_network_text network.now ++ end ∷ [])) }
{
    write!(out, "{network}")?;
    out.write_all(&[end])
}
