//! Printing the states of routes as text.
ghost use Rattle.std.specs.Prelude.{◌++◌, codes, OnOk};
ghost use Rattle.std.specs.Io.KnownBytes.{Appends};
ghost use Rattle.route_tables.specs.Validations.{count_lines, origin_text, state_text, verdict_line, vrp_text};

use crate::announcements::Announcement;
use crate::commands::text::print_network;
use crate::commands::validations::StateCounts;
use origin_validation::{Validity, Vrp};
use std::io::{self, Write};

/// Prints a route, its origin, its state, and the VRP that decides, or `none`.
///
/// # Errors
///
/// Returns the writer's error.
pub fn print_verdict<W: Write>(
    route: &Announcement,
    validity: Validity,
    out: &mut W,
) -> io::Result<()>
    ensures { OnOk result (Appends (W.contents out.old) (W.contents out.new)
        (verdict_line route.now validity)) }
{
    print_network(&route.prefix, b' ', out)?;
    print_origin(route.origin, out)?;
    print_state(validity, out)
}

// Prints an AS, or `none`, and a space.
fn print_origin<W: Write>(origin: Option<u32>, out: &mut W) -> io::Result<()>
    ensures { OnOk result (Appends (W.contents out.old) (W.contents out.new)
        (origin_text origin ++ codes " ")) }
{
    match origin {
        Some(origin) => write!(out, "AS{origin} "),
        None => out.write_all(b"none "),
    }
}

// Prints a state and the VRP that decides, or `none`, and the end of the line.
fn print_state<W: Write>(validity: Validity, out: &mut W) -> io::Result<()>
    ensures { OnOk result (Appends (W.contents out.old) (W.contents out.new)
        (state_text validity ++ codes "\n")) }
{
    match validity {
        Validity::Valid(vrp) => print_state_by("valid", &vrp, out),
        Validity::Invalid(vrp) => print_state_by("invalid", &vrp, out),
        Validity::NotFound => out.write_all(b"not-found none\n"),
    }
}

// Prints the name of a state and the VRP that decides.
fn print_state_by<W: Write>(name: &str, vrp: &Vrp, out: &mut W) -> io::Result<()>
    ensures { OnOk result (Appends (W.contents out.old) (W.contents out.new)
        (name.now ++ codes " " ++ vrp_text vrp.now ++ codes "\n")) }
{
    let (prefix, max_len, origin) = (vrp.prefix, vrp.max_len, vrp.origin);
    writeln!(out, "{name} {prefix}-{max_len} AS{origin}")
}

/// Prints how many routes have each state, a line for each state.
///
/// # Errors
///
/// Returns the writer's error.
pub fn print_state_counts<W: Write>(counts: &StateCounts, out: &mut W) -> io::Result<()>
    ensures { OnOk result (Appends (W.contents out.old) (W.contents out.new)
        (count_lines counts.now)) }
{
    let (valid, invalid, not_found) = (counts.valid, counts.invalid, counts.not_found);
    writeln!(
        out,
        "valid {valid}\ninvalid {invalid}\nnot-found {not_found}"
    )
}
