//! Printing what commands find: a line of words, or a JSON object, for each.
ghost use Rattle.std.specs.Prelude.{◌≡◌, ◌++◌, IfSome, OnOk, Some, codes};
ghost use Rattle.std.specs.Io.KnownBytes.{Appends, Keeps};
ghost use Rattle.std.specs.Net.Text.{ip_text};
ghost use Rattle.std.specs.Option.{option_map};
ghost use Rattle.prefix_trie.specs.Terms.{lent_item};
ghost use Rattle.prefix_trie_ops.specs.Merging.{lent_values};
ghost use Rattle.route_tables.specs.Printed.{answer_line, change_line, changed_line, decision_line, network_line, route_line, spaced};
ghost use Rattle.route_tables.specs.Validations.{count_lines, verdict_line};

use crate::access::Decision;
use crate::announcements::Announcement;
use crate::arguments::Format;
use crate::commands::json::{self, Text};
use crate::commands::statistics::print_counts;
use crate::commands::text::{print_answer, print_network, print_route};
use crate::commands::validations::StateCounts;
use crate::commands::verdicts::{print_state_counts, print_verdict};
use crate::diff::Values;
use crate::formats::Lists;
use crate::lookup::Found;
use crate::stats::Counts;
use origin_validation::Validity;
use prefix_trie_joint::IpPrefix;
use prefix_trie_ops::map::Side;
use serde::Serialize;
use std::alloc::Global;
use std::io::{self, Write};
use std::marker::Model;
use std::net::IpAddr;

/// A writer of lines, in one of the formats.
///
/// Each call returns the writer's error, or an error if an allocation fails. Only JSON needs one.
///
/// Contracts see the bytes that the writer holds, if it is known which, and the printer prints lines of words. After an error,
/// any part of a line may be written.
#[derive(Drop)]
pub struct Printer<W: Write + Drop> {
    style: Style,
    alloc: Global,
    out: W,
}

// How a printer prints: lines of words, JSON objects, or networks in lists.
#[derive(Clone, Copy)]
enum Style {
    Words,
    Json,
    Lists(Lists),
}

impl<W: Write + Drop> Model for Printer<W> {
    ghost use Rattle.std.specs.Prelude.{ℕ, List, Option};
    ghost use Rattle.route_tables.specs.Printed.{printed};

    ghost Value = { Option (List ℕ) };

    ghost view = { λ printer. printed printer.style (W.contents printer.out) };
}

impl<W: Write + Drop> Printer<W> {
    /// Prints in a format.
    pub fn new(format: Format, alloc: Global, out: W) -> Printer<W>
        ensures { format ≡ Format.Text → result ≡ W.contents out }
    {
        let style = match format {
            Format::Text => Style::Words,
            Format::Json => Style::Json,
        };
        Printer { style, alloc, out }
    }

    /// Prints networks in lists from now on. `finish` prints where the lists end.
    pub fn print_lists(&mut self, lists: Lists) {
        self.style = Style::Lists(lists);
    }

    /// Returns whether networks are printed in lists, those of IPv4 before those of IPv6.
    pub fn prints_lists(&self) -> bool {
        matches!(self.style, Style::Lists(_))
    }

    /// Prints the ends of the lists, if networks are printed in lists.
    pub fn finish(&mut self) -> io::Result<()> {
        match &mut self.style {
            Style::Lists(lists) => lists.finish(&mut self.out),
            Style::Words | Style::Json => Ok(()),
        }
    }

    /// Returns the writer.
    pub fn into_inner(self) -> W
        ensures { IfSome self (λ bytes. W.contents result ≡ Some bytes) }
    {
        self.out
    }

    /// Writes what is buffered.
    pub fn flush(&mut self) -> io::Result<()>
        ensures { Keeps self.old self.new }
    {
        self.out.flush()
    }

    // Prints an object.
    fn object<T: Serialize>(&mut self, value: &T) -> io::Result<()> {
        json::print(value, self.alloc, &mut self.out)
    }

    /// Prints a network and its value.
    pub fn route(&mut self, network: &IpPrefix, value: &str) -> io::Result<()>
        ensures { OnOk result (Appends self.old self.new (route_line network.now value.now)) }
    {
        match &mut self.style {
            Style::Words => print_route(network, value, &mut self.out),
            Style::Json => {
                let network = Text(*network);
                self.object(&json::Route { network, value })
            }
            Style::Lists(lists) => lists.add(network, value, &mut self.out),
        }
    }

    /// Prints a network alone.
    pub fn network(&mut self, network: &IpPrefix) -> io::Result<()>
        ensures { OnOk result (Appends self.old self.new (network_line network.now)) }
    {
        match &mut self.style {
            Style::Words => print_network(network, b'\n', &mut self.out),
            Style::Json => {
                let network = Text(*network);
                self.object(&json::Network { network })
            }
            Style::Lists(lists) => lists.add(network, "", &mut self.out),
        }
    }

    /// Prints a network that is free, or that there is none.
    pub fn free(&mut self, network: Option<IpPrefix>) -> io::Result<()> {
        match (self.style, network) {
            (Style::Json, network) => self.object(&json::Free::new(network)),
            (_, Some(network)) => print_network(&network, b'\n', &mut self.out),
            (_, None) => self.out.write_all(b"none\n"),
        }
    }

    /// Prints a question, and a network and its value that are found for it, or that there is none.
    pub fn answer(&mut self, question: &str, found: &Found<'_>) -> io::Result<()>
        ensures { OnOk result (Appends self.old self.new
            (answer_line question.now (option_map lent_item found.now))) }
    {
        match self.style {
            Style::Words | Style::Lists(_) => print_answer(question, found, &mut self.out),
            Style::Json => self.object(&json::Answer::new(question, found)),
        }
    }

    /// Prints what an access list says of an address.
    pub fn decision(&mut self, address: &str, decision: Decision) -> io::Result<()>
        ensures { OnOk result (Appends self.old self.new (decision_line address.now decision)) }
    {
        match self.style {
            Style::Words | Style::Lists(_) => print_decision(address, decision, &mut self.out),
            Style::Json => self.object(&json::Decided::new(address, decision)),
        }
    }

    /// Prints a route, its state, and the VRP that decides.
    pub fn verdict(&mut self, route: &Announcement, validity: Validity) -> io::Result<()>
        ensures { OnOk result (Appends self.old self.new (verdict_line route.now validity)) }
    {
        match self.style {
            Style::Words | Style::Lists(_) => print_verdict(route, validity, &mut self.out),
            Style::Json => self.object(&json::Verdict::new(route, validity)),
        }
    }

    /// Prints how many routes have each state.
    pub fn state_counts(&mut self, counts: &StateCounts) -> io::Result<()>
        ensures { OnOk result (Appends self.old self.new (count_lines counts.now)) }
    {
        match self.style {
            Style::Words | Style::Lists(_) => print_state_counts(counts, &mut self.out),
            Style::Json => self.object(&json::States::new(counts)),
        }
    }

    /// Prints a network at which two tables differ: `-` and the old value, `+` and the new one, or `~` and both.
    pub fn change(&mut self, network: &IpPrefix, values: &Values<'_>) -> io::Result<()>
        ensures { OnOk result (Appends self.old self.new
            (change_line network.now (lent_values values.now))) }
    {
        match self.style {
            Style::Words | Style::Lists(_) => print_change(network, values, &mut self.out),
            Style::Json => self.object(&json::Change::new(network, values)),
        }
    }

    /// Prints the first and the last address of a range.
    pub fn range(&mut self, first: IpAddr, last: IpAddr) -> io::Result<()>
        ensures { OnOk result (Appends self.old self.new
            (ip_text first ++ codes "-" ++ ip_text last ++ codes "\n")) }
    {
        match self.style {
            Style::Words | Style::Lists(_) => writeln!(self.out, "{first}-{last}"),
            Style::Json => {
                let (first, last) = (Text(first), Text(last));
                self.object(&json::Range { first, last })
            }
        }
    }

    /// Prints a number of addresses of a family.
    pub fn count(&mut self, family: &str, addresses: &str) -> io::Result<()> {
        match self.style {
            Style::Words | Style::Lists(_) => writeln!(self.out, "{family} {addresses}"),
            Style::Json => self.object(&json::Count { family, addresses }),
        }
    }

    /// Prints the counts of a family.
    pub fn counts(&mut self, family: &str, counts: &Counts) -> io::Result<()> {
        match self.style {
            Style::Words | Style::Lists(_) => print_counts(family, counts, &mut self.out),
            Style::Json => self.object(&json::Statistics::new(family, counts)),
        }
    }

    /// Prints a line of a text, which has this number. The line has no line feed.
    pub fn line(&mut self, number: usize, line: &[u8]) -> io::Result<()> {
        match self.style {
            Style::Words | Style::Lists(_) => {
                self.out.write_all(line)?;
                self.out.write_all(b"\n")
            }
            Style::Json => json::print_line(number, line, self.alloc, &mut self.out),
        }
    }
}

// Prints an address, `allowed` or `denied`, and the network that decides, or `none`.
fn print_decision<W: Write>(address: &str, decision: Decision, out: &mut W) -> io::Result<()>
    ensures { OnOk result (Appends (W.contents out.old) (W.contents out.new)
        (decision_line address.now decision)) }
{
    match decision {
        Decision::Allowed(network) => writeln!(out, "{address} allowed {network}"),
        Decision::Denied(network) => writeln!(out, "{address} denied {network}"),
        Decision::Unlisted => writeln!(out, "{address} denied none"),
    }
}

// Prints a mark and a network with its value, or with both values.
fn print_change<W: Write>(network: &IpPrefix, values: &Values<'_>, out: &mut W) -> io::Result<()>
    ensures { OnOk result (Appends (W.contents out.old) (W.contents out.new)
        (change_line network.now (lent_values values.now))) }
{
    match values {
        Side::Left(old) => {
            out.write_all(b"- ")?;
            print_route(network, old.as_str(), out)
        }
        Side::Right(new) => {
            out.write_all(b"+ ")?;
            print_route(network, new.as_str(), out)
        }
        Side::Both(old, new) => print_changed(network, old.as_str(), new.as_str(), out),
    }
}

// Prints a network with an old and a new value. An empty one leaves nothing.
fn print_changed<W: Write>(network: &IpPrefix, old: &str, new: &str, out: &mut W) -> io::Result<()>
    ensures { OnOk result (Appends (W.contents out.old) (W.contents out.new)
        (changed_line network.now old.now new.now)) }
{
    write!(out, "~ {network}")?;
    print_spaced(old, out)?;
    out.write_all(b" ->")?;
    print_spaced(new, out)?;
    out.write_all(b"\n")
}

// Prints a space and a word, or nothing if the word is empty.
fn print_spaced<W: Write>(word: &str, out: &mut W) -> io::Result<()>
    ensures { OnOk result (Appends (W.contents out.old) (W.contents out.new) (spaced word.now)) }
{
    if word.is_empty() {
        return Ok(());
    }
    write!(out, " {word}")
}
