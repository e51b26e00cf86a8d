//! The lines of a text that have an address of a table.

mod addresses;

use crate::commands::printer::Printer;
use crate::lines::split_line;
use crate::questions::Mapped;
use crate::table::Table;
pub use addresses::{Addresses, addresses_in};
use prefix_trie_joint::IpPrefix;
use std::io::{self, Write};
use std::net::IpAddr;

/// Which lines of a text are printed.
#[derive(Clone, Copy, Debug, Default, PartialEq, Eq)]
pub enum Selected {
    /// Those that match: an address of the line is in the table.
    #[default]
    Matching,
    /// The others, also those without an address.
    Others,
}

/// Which addresses of a line are looked up.
#[derive(Clone, Copy, Debug, Default, PartialEq, Eq)]
pub enum Which {
    /// Each of them. The line matches if the table has any.
    #[default]
    Any,
    /// The first.
    First,
}

/// Which lines of a text are printed, and how their addresses are looked up.
#[derive(Clone, Copy, Debug, Default, PartialEq, Eq)]
pub struct Selection {
    /// Which lines are printed.
    pub selected: Selected,
    /// Which addresses are looked up.
    pub which: Which,
    /// What is done with IPv6 addresses of IPv4 addresses.
    pub mapped: Mapped,
}

/// How far a text is searched.
#[derive(Clone, Copy, Debug, Default, PartialEq, Eq)]
pub struct Searched {
    /// The number of lines that were read.
    pub lines: usize,
    /// Whether a line was printed.
    pub is_any: bool,
}

/// Prints the selected lines of a piece of a text, which ends with a line.
///
/// `searched` says what was read and printed before, and then also of this piece.
///
/// # Errors
///
/// Returns the printer's error.
pub fn print_lines<W: Write + Drop>(
    table: &Table,
    text: &[u8],
    selection: Selection,
    searched: &mut Searched,
    out: &mut Printer<W>,
) -> io::Result<()> {
    let mut rest = text;
    while !rest.is_empty() {
        let (line, later) = split_line(rest);
        rest = later;
        searched.lines = searched.lines.saturating_add(1);
        if is_selected(table, line, selection) {
            searched.is_any = true;
            out.line(searched.lines, line)?;
        }
    }
    Ok(())
}

/// Returns whether a line is printed.
///
/// # Examples
///
/// ```rust
/// let table = load(b"10.0.0.0/8\n", alloc)?.table;
/// is_selected(&table, b"from 192.0.2.1 to 10.0.0.1", Default::default());        // true
/// is_selected(&table, b"from ::ffff:10.0.0.1", Default::default());              // true
/// is_selected(&table, b"from 192.0.2.1", Default::default());                    // false
/// ```
pub fn is_selected(table: &Table, line: &[u8], selection: Selection) -> bool {
    let is_match = match selection.which {
        Which::Any => has_any(table, line, selection.mapped),
        Which::First => has_first(table, line, selection.mapped),
    };
    is_match == (selection.selected == Selected::Matching)
}

// Returns whether a table has an address of a line.
fn has_any(table: &Table, line: &[u8], mapped: Mapped) -> bool {
    for address in addresses_in(line) {
        if is_in(table, address, mapped) {
            return true;
        }
    }
    false
}

// Returns whether a table has the first address of a line.
fn has_first(table: &Table, line: &[u8], mapped: Mapped) -> bool {
    match addresses_in(line).next() {
        Some(address) => is_in(table, address, mapped),
        None => false,
    }
}

// Returns whether a network of a table has an address.
fn is_in(table: &Table, address: IpAddr, mapped: Mapped) -> bool {
    let address = match mapped {
        Mapped::AsIpv4 => address.to_canonical(),
        Mapped::Kept => address,
    };
    table.is_covered(&IpPrefix::host(address))
}
