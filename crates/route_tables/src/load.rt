//! Reading tables from text.
//!
//! Each line is blank, or has networks and their value. The networks are a network, an address, which is the network
//! that has all its bits, or a range of addresses, which is the fewest networks that cover it. The value is any text
//! without white space and control characters. A line with networks alone has the empty value.
//!
//! A field that begins with `#` begins a comment. White space separates fields. Both ends of a line may have white
//! space, so lines may end with CR LF. A CR elsewhere is an error. A byte order mark at the start of a text is skipped.
//!
//! A `Reading` says what is done with networks that have host bits, and with bad lines.
ghost use Rattle.std.specs.Prelude.{◌≡◌, ◌⊎◌, ℕ, ◌+◌, ◌-◌, ◌*◌, ◌^◌, ◌<◌, [], ◌∷◌, ◌++◌, List, length, slice_index_or, take, IfErr, IfOk, OnErr, OnOk};
ghost use Rattle.std.specs.FinMap.{get};
ghost use Rattle.prefix_trie.specs.Terms.{no_entries, with_entry};
ghost use Rattle.prefix_trie_joint.specs.Changes.{maps_of};
ghost use Rattle.prefix_trie_joint.specs.Joined.{entries_of};
ghost use Rattle.prefix_trie_joint.specs.Networks.{ip_path};
ghost use Rattle.route_tables.specs.Allocations.{LineMayAllocate, MayAllocate, SomeMayAllocate};
ghost use Rattle.route_tables.specs.BadLines.{AreBadLines};
ghost use Rattle.route_tables.specs.Lines.{table_lines};
ghost use Rattle.route_tables.specs.Loads.{AddsFirst, AddsLine, AddsSlots, EndsAt, EndsAtLine, IfLineError, ListsLine, MayExceed, NamesFirstBad, strict, with_routes};
ghost use Rattle.route_tables.specs.Networks.{all_networks};
ghost use Rattle.route_tables.specs.Replaced.{ReplacesValues, is_other, replaced_by, replaced_one};
ghost use Rattle.route_tables.specs.Routes.{Gives, HasRoutes, IsLineValue, Route, routes_to};

use crate::line::{LineError, ReadError, read_line};
use crate::lines::{skip_mark, split_line};
use crate::messages::excerpt::ByteExcerpt;
use crate::messages::{LineMessage, OUT_OF_MEMORY};
use crate::network::HostBits;
use crate::range::Networks;
use crate::table::Table;
use crate::value::Value;
use prefix_trie::Refusal;
use prefix_trie_joint::{IpPrefix, JointPrefixMap};
use std::alloc::{AllocError, Global};
use std::error::Error;
use std::fmt::{self, Display, Formatter, Write};

/// What is done with bad lines: lines that are not lines of a table.
#[derive(Clone, Copy, Debug, Default, PartialEq, Eq)]
pub enum BadLines {
    /// The first one is an error.
    #[default]
    Refused,
    /// They are skipped, and listed.
    Skipped,
}

/// Which values the lines of a table may have.
#[derive(Clone, Copy, Debug, Default, PartialEq, Eq)]
pub enum TableKind {
    /// Any values.
    #[default]
    AnyValues,
    /// The rules of an access list, which are `allow` and `deny`.
    AccessList,
}

/// How the lines of a text are read.
#[derive(Clone, Copy, Debug, Default, PartialEq, Eq)]
pub struct Reading {
    /// What is done with networks that have host bits.
    pub host_bits: HostBits,
    /// What is done with lines that are not lines of a table.
    pub bad_lines: BadLines,
    /// Which values the lines may have.
    pub kind: TableKind,
}

/// A line that is not a line of a table.
#[derive(Clone, Copy, Debug, PartialEq, Eq)]
pub struct BadLine<'a> {
    /// The number of the line, from 1 on.
    pub number: usize,
    /// The bytes of the line.
    pub text: &'a [u8],
    /// The first reason why it is not a line of a table.
    pub error: LineError,
}

impl Display for BadLine<'_> {
    fn fmt<W: Write>(&self, f: &mut Formatter<W>) -> fmt::Result {
        let (number, text) = (self.number, ByteExcerpt(self.text.trim_ascii()));
        let message = LineMessage {
            line: self.text,
            error: self.error,
        };
        write!(f, "line {number}: {message}: \"{text}\"")
    }
}

/// A line that replaces the value of a network by another.
#[derive(Clone, Copy, Debug, PartialEq, Eq)]
pub struct Replaced {
    /// The number of the line, from 1 on.
    pub line: usize,
    /// The network, to which an earlier line gives another value.
    pub network: IpPrefix,
}

/// The lines of a text that a user may want to know of.
#[derive(Drop)]
pub struct Warnings<'a> {
    /// The networks whose value a line replaces by another one, in the order of the lines.
    pub replaced: Vec<Replaced>,
    /// The lines that are skipped, in order.
    pub skipped: Vec<BadLine<'a>>,
}

/// The table of a text, and warnings.
#[derive(Drop)]
pub struct Loaded<'a> {
    /// The table.
    pub table: Table,
    /// The warnings.
    pub warnings: Warnings<'a>,
}

/// Why a text is not read.
#[derive(Clone, Copy, Debug, PartialEq, Eq)]
pub enum LoadError<'a> {
    /// The line is the first that is not a line of a table.
    Line(BadLine<'a>),
    /// An allocation failed, or a table is full.
    Refused(Refusal),
}

impl Display for LoadError<'_> {
    fn fmt<W: Write>(&self, f: &mut Formatter<W>) -> fmt::Result {
        match self {
            LoadError::Line(line) => Display::fmt(line, f),
            LoadError::Refused(Refusal::Memory) => f.write_str(OUT_OF_MEMORY),
            LoadError::Refused(Refusal::IndexRange) => f.write_str("the table is full"),
        }
    }
}

impl Error for LoadError<'_> {}

impl From<Refusal> for LoadError<'_> {
    ghost use Rattle.route_tables.specs.declared.load.LoadError.TheVariants.{Refused};

    ghost from_gives = { λ cause error. error ≡ Refused cause };

    fn from(cause: Refusal) -> Self {
        LoadError::Refused(cause)
    }
}

impl From<AllocError> for LoadError<'_> {
    ghost use Rattle.prefix_trie_bits.specs.declared.prefix.Refusal.TheVariants.{Memory};
    ghost use Rattle.route_tables.specs.declared.load.LoadError.TheVariants.{Refused};

    ghost from_gives = { λ _ error. error ≡ Refused Memory };

    fn from(_error: AllocError) -> Self {
        LoadError::Refused(Refusal::Memory)
    }
}

/// Reads the table of a text. If two lines have the same network, the later one counts.
///
/// Host bits and bad lines are refused.
///
/// # Errors
///
/// Returns the first line that is not a line of a table, with the reason. Returns a refusal if an allocation fails or a
/// table is full.
///
/// # Examples
///
/// ```rust
/// let loaded = load(b"10.0.0.0/8 core\n10.1.0.0/16 edge\n10.0.0.0/8 edge\n", alloc)?;
/// loaded.table.keys();                                               // [V4(10.0.0.0/8), V4(10.1.0.0/16)]
/// loaded.warnings.replaced.iter().map(|replaced| replaced.line);     // [3]
/// load(b"ten core", alloc).is_err();                                 // true
/// ```
pub fn load(text: &[u8], alloc: Global) -> Result<Loaded<'_>, LoadError<'_>>
    ensures table { IfOk result (λ loaded. (routes : List Route)
        × HasRoutes strict (table_lines text.now) routes
        × (entries_of loaded.table ≡ with_routes routes no_entries)) }
    ensures skipped { IfOk result (λ loaded. loaded.warnings.skipped.items ≡ []) }
    ensures replaced { IfOk result (λ loaded. ReplacesValues strict 0 (table_lines text.now)
        no_entries (entries_of loaded.table) loaded.warnings.replaced.items) }
    ensures first_bad { IfErr result (NamesFirstBad strict (table_lines text.now)) }

    // `IndexRange` comes only if 56 slots for each route of the first lines would exceed the limit.
    ensures full { IfErr result (λ error. error ≡ LoadError.Refused Refusal.IndexRange
        → (index : ℕ) × (routes : List Route)
        × HasRoutes strict (take index (table_lines text.now)) routes
        × (2 ^ 32 - 1 < 1 + 56 * length routes)) }
{
    let reading = Reading {
        host_bits: HostBits::Refused,
        bad_lines: BadLines::Refused,
        kind: TableKind::AnyValues,
    };
    let mut table: Table = JointPrefixMap::new(alloc)?;
    let warnings = load_into(&mut table, text, reading, alloc)?;
    Ok(Loaded { table, warnings })
}

/// Reads the table of a text into a table. A line replaces the value that its network has.
///
/// So several texts are read into one table one after another, and the last line of a network counts.
///
/// # Errors
///
/// Returns the first line that is not a line of a table, with the reason, if bad lines are refused. The table has the
/// routes of the lines before it then. Returns a refusal if an allocation fails or a table is full. The table has the
/// routes of the lines before some line then, and may have some of the routes of that line.
///
/// A line needs no allocation if its network is in the table with its value, which has at most 16 bytes.
///
/// # Examples
///
/// ```rust
/// let reading = Reading { host_bits: HostBits::Cleared, bad_lines: BadLines::Skipped, ..Reading::default() };
/// let mut table = JointPrefixMap::new(alloc)?;
/// load_into(&mut table, b"10.0.0.1/8 core\n", reading, alloc)?;
/// let warnings = load_into(&mut table, b"ten\n10.0.0.0/8 edge\n", reading, alloc)?;
/// table.keys();                                               // [V4(10.0.0.0/8)]
/// warnings.skipped.iter().map(|line| line.number);            // [1]
/// warnings.replaced.iter().map(|replaced| replaced.line);     // [2]
/// ```
pub fn load_into<'a>(
    table: &mut Table,
    text: &'a [u8],
    reading: Reading,
    alloc: Global,
) -> Result<Warnings<'a>, LoadError<'a>>
    ensures added { OnOk result ((routes : List Route)
        × HasRoutes reading (table_lines text.now) routes
        × (entries_of table.new ≡ with_routes routes (entries_of table.old))) }
    ensures skipped { IfOk result (λ warnings. AreBadLines reading 0
        (table_lines text.now) warnings.skipped.items) }
    ensures replaced { IfOk result (λ warnings. ReplacesValues reading 0 (table_lines text.now)
        (entries_of table.old) (entries_of table.new) warnings.replaced.items) }
    ensures ends { IfErr result (EndsAt reading (table_lines text.now) (entries_of table.old)
        (entries_of table.new)) }

    // The slots that the routes make, and `IndexRange` if those of the first lines may exceed the limit.
    ensures slots { OnOk result ((routes : List Route)
        × HasRoutes reading (table_lines text.now) routes
        × AddsSlots (length routes) (maps_of table.old) (maps_of table.new)) }
    ensures full { IfErr result (λ error. error ≡ LoadError.Refused Refusal.IndexRange
        → (index : ℕ) × (routes : List Route)
        × HasRoutes reading (take index (table_lines text.now)) routes
        × MayExceed (length routes) (maps_of table.old)) }

    // `Memory` comes only at a line that may need an allocation.
    ensures memory { IfErr result (λ error. error ≡ LoadError.Refused Refusal.Memory
        → (index : ℕ) × (routes : List Route)
        × HasRoutes reading (take index (table_lines text.now)) routes
        × LineMayAllocate reading (slice_index_or (table_lines text.now) index [])
        (with_routes routes (entries_of table.old))) }
{
    let mut warnings = Warnings {
        replaced: Vec::new(alloc),
        skipped: Vec::new(alloc),
    };
    let mut number = 0;
    let mut rest = skip_mark(text);
    while !rest.is_empty() {
        let (line, later) = split_line(rest);
        number += 1;
        rest = later;
        add_line(table, line, number, reading, &mut warnings, alloc)?;
    }
    Ok(warnings)
}

// Adds the routes of the line with this number, or lists it if it is bad and skipped.
fn add_line<'a>(
    table: &mut Table,
    line: &'a [u8],
    number: usize,
    reading: Reading,
    warnings: &mut Warnings<'a>,
    alloc: Global,
) -> Result<(), LoadError<'a>>
    ensures added { OnOk result (AddsLine reading number line.now table.old table.new
        warnings.old.replaced.items warnings.new.replaced.items) }
    ensures listed { OnOk result
        (ListsLine reading number line.now warnings.old.skipped.items warnings.new.skipped.items) }
    ensures ends { IfErr result
        (EndsAtLine reading number line.now (entries_of table.old) (entries_of table.new)) }
    ensures full { IfErr result (λ error. error ≡ LoadError.Refused Refusal.IndexRange
        → (routes : List Route) × Gives reading line.now routes
        × MayExceed (length routes) (maps_of table.old)) }
    ensures memory { IfErr result (λ error. error ≡ LoadError.Refused Refusal.Memory
        → LineMayAllocate reading line.now (entries_of table.old)) }
{
    match read_line(line, reading, alloc) {
        Ok(None) => Ok(()),
        Ok(Some(route)) => Ok(add_read(table, route, number, &mut warnings.replaced, alloc)?),
        Err(ReadError::Line(error)) => {
            let text = line;
            let bad = BadLine {
                number,
                text,
                error,
            };
            skip_line(bad, reading.bad_lines, &mut warnings.skipped)
        }
        Err(ReadError::Memory) => Err(LoadError::Refused(Refusal::Memory)),
    }
}

/// Lists a bad line, or returns it as an error.
pub(crate) fn skip_line<'a>(
    bad: BadLine<'a>,
    bad_lines: BadLines,
    skipped: &mut Vec<BadLine<'a>>,
) -> Result<(), LoadError<'a>>
    ensures listed { OnOk result ((bad_lines ≡ BadLines.Skipped)
        × (skipped.new.items ≡ skipped.old.items ++ bad.entry ∷ [])) }
    ensures refused { IfErr result (IfLineError (λ named. (named ≡ bad.entry)
        × (bad_lines ≡ BadLines.Refused))) }
    ensures never_full { IfErr result (λ error. ¬ (error ≡ LoadError.Refused Refusal.IndexRange)) }
    ensures skipped { IfErr result (λ error. error ≡ LoadError.Refused Refusal.Memory
        → bad_lines ≡ BadLines.Skipped) }
{
    match bad_lines {
        BadLines::Refused => Err(LoadError::Line(bad)),
        BadLines::Skipped => match skipped.push(bad) {
            Ok(()) => Ok(()),
            Err(_) => Err(LoadError::Refused(Refusal::Memory)),
        },
    }
}

// Adds the routes that were read from a line, and lists those of networks that have another value.
fn add_read(
    table: &mut Table,
    route: (Networks, &str),
    number: usize,
    replaced: &mut Vec<Replaced>,
    alloc: Global,
) -> Result<(), Refusal>
    requires { IsLineValue route.1.now }
    ensures added { OnOk result (entries_of table.new
        ≡ with_routes (routes_to route.entry.1.now (all_networks route.entry.0))
        (entries_of table.old)) }
    ensures replaced { OnOk result (replaced.new.items ≡ replaced.old.items
        ++ replaced_by number (routes_to route.entry.1.now (all_networks route.entry.0))
        (entries_of table.old)) }
    ensures slots { OnOk result (AddsSlots (length (all_networks route.entry.0))
        (maps_of table.old) (maps_of table.new)) }
    ensures some { OnErr result (AddsFirst
        (routes_to route.entry.1.now (all_networks route.entry.0))
        (entries_of table.old) (entries_of table.new)) }
    ensures full { IfErr result (λ cause. cause ≡ Refusal.IndexRange
        → MayExceed (length (all_networks route.entry.0)) (maps_of table.old)) }
    ensures memory { IfErr result (λ cause. cause ≡ Refusal.Memory → SomeMayAllocate
        (entries_of table.old) (all_networks route.entry.0) route.entry.1.now) }
{
    let (networks, value) = route;
    add_routes(table, networks.as_slice(), value, number, replaced, alloc)
}

// Gives networks a value, and lists those that have another one.
fn add_routes(
    table: &mut Table,
    networks: &[IpPrefix],
    value: &str,
    number: usize,
    replaced: &mut Vec<Replaced>,
    alloc: Global,
) -> Result<(), Refusal>
    requires { IsLineValue value.now }
    ensures added { OnOk result (entries_of table.new
        ≡ with_routes (routes_to value.now networks.now) (entries_of table.old)) }
    ensures replaced { OnOk result (replaced.new.items ≡ replaced.old.items
        ++ replaced_by number (routes_to value.now networks.now) (entries_of table.old)) }
    ensures slots { OnOk result (AddsSlots (length networks.now)
        (maps_of table.old) (maps_of table.new)) }
    ensures some { OnErr result (AddsFirst (routes_to value.now networks.now)
        (entries_of table.old) (entries_of table.new)) }
    ensures full { IfErr result (λ cause. cause ≡ Refusal.IndexRange
        → MayExceed (length networks.now) (maps_of table.old)) }
    ensures memory { IfErr result (λ cause. cause ≡ Refusal.Memory
        → SomeMayAllocate (entries_of table.old) networks.now value.now) }
{
    for network in networks {
        add_route(table, *network, value, number, replaced, alloc)?;
    }
    Ok(())
}

// Gives a network a value, and lists it if it has another one.
fn add_route(
    table: &mut Table,
    network: IpPrefix,
    value: &str,
    line: usize,
    replaced: &mut Vec<Replaced>,
    alloc: Global,
) -> Result<(), Refusal>
    requires { IsLineValue value.now }
    ensures added { OnOk result (entries_of table.new
        ≡ with_entry (entries_of table.old) (ip_path network) value.now) }
    ensures replaced { OnOk result (replaced.new.items ≡ replaced.old.items
        ++ replaced_one line (network, value.now) (entries_of table.old)) }
    ensures slots { OnOk result (AddsSlots 1 (maps_of table.old) (maps_of table.new)) }
    ensures some { OnErr result ((entries_of table.new ≡ entries_of table.old)
        ⊎ (entries_of table.new ≡ with_entry (entries_of table.old) (ip_path network) value.now)) }
    ensures full { IfErr result (λ cause. cause ≡ Refusal.IndexRange
        → MayExceed 1 (maps_of table.old)) }
    ensures memory { IfErr result (λ cause. cause ≡ Refusal.Memory
        → MayAllocate (entries_of table.old) network value.now) }
{
    if !set_value(table, network, value, alloc)? {
        return Ok(());
    }
    match replaced.push(Replaced { line, network }) {
        Ok(()) => Ok(()),
        Err(_) => Err(Refusal::Memory),
    }
}

// Gives a network a value. Returns whether it has another one.
fn set_value(
    table: &mut Table,
    network: IpPrefix,
    value: &str,
    alloc: Global,
) -> Result<bool, Refusal>
    requires { IsLineValue value.now }
    ensures added { OnOk result (entries_of table.new
        ≡ with_entry (entries_of table.old) (ip_path network) value.now) }
    ensures other { IfOk result (λ other. other
        ≡ is_other (get (entries_of table.old) (ip_path network)) value.now) }
    ensures slots { OnOk result (AddsSlots 1 (maps_of table.old) (maps_of table.new)) }
    ensures unchanged { OnErr result (entries_of table.new ≡ entries_of table.old) }
    ensures full { IfErr result (λ cause. cause ≡ Refusal.IndexRange
        → MayExceed 1 (maps_of table.old)) }
    ensures memory { IfErr result (λ cause. cause ≡ Refusal.Memory
        → MayAllocate (entries_of table.old) network value.now) }
{
    // The proof learns from `len` that the table is valid.
    let _ = table.len();
    let added = Value::of_line(value, alloc)?;
    let previous = table.insert(network, added)?;
    Ok(match previous {
        Some(previous) => previous.as_str() != value,
        None => false,
    })
}
