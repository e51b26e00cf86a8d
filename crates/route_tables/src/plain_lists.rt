//! Lists of networks without values, which are read without a table.
ghost use Rattle.std.specs.Prelude.{◌≡◌, IfErr, IfOk, IfSome};
ghost use Rattle.prefix_trie_bits.specs.declared.prefix.Refusal.TheVariants.{IndexRange};
ghost use Rattle.route_tables.specs.BadLines.{AreBadLines};
ghost use Rattle.route_tables.specs.Lines.{table_lines};
ghost use Rattle.route_tables.specs.Loads.{NamesFirstBad};
ghost use Rattle.route_tables.specs.PlainLists.{AreFewestOfLines};

use crate::address_list::AddressList;
use crate::load::{BadLine, LoadError, Reading};
use crate::value::Value;
use prefix_trie::laws::{listing_laws, lookup_laws, match_laws};
use prefix_trie::{Ipv4Prefix, Ipv6Prefix};
use std::alloc::Global;

/// The fewest networks that cover the addresses of a text.
#[derive(Drop)]
pub struct FewestNetworks<'a> {
    /// The IPv4 networks, in order.
    pub ipv4: Vec<Ipv4Prefix>,
    /// The IPv6 networks, in order.
    pub ipv6: Vec<Ipv6Prefix>,
    /// The lines that are skipped, in order.
    pub skipped: Vec<BadLine<'a>>,
}

/// Reads a text whose networks have no values, and returns the fewest networks that cover their addresses.
///
/// So they are the fewest that give each address the value that it has in the table of the text. Returns `None` if a line
/// has a value.
///
/// # Errors
///
/// Returns the first line that is not a line of a table, with the reason, if bad lines are refused. Returns `Memory` if an
/// allocation fails.
///
/// # Examples
///
/// ```rust
/// let reading = Reading::default();
/// let fewest = fewest_of_plain(b"10.128.0.0/9\n10.1.0.0/16\n10.0.0.0/9\n", reading, alloc)?;
/// fewest.map(|fewest| fewest.ipv4.len());                                 // Some(1)
/// fewest_of_plain(b"10.0.0.0/9 core\n", reading, alloc)?.is_none();       // true
/// ```
pub fn fewest_of_plain(
    text: &[u8],
    reading: Reading,
    alloc: Global,
) -> Result<Option<FewestNetworks<'_>>, LoadError<'_>>
    ensures fewest { IfOk result
        (λ found. IfSome found (AreFewestOfLines reading (table_lines text.now))) }
    ensures skipped { IfOk result (λ found. IfSome found
        (λ fewest. AreBadLines reading 0 (table_lines text.now) fewest.skipped.items)) }
    ensures first_bad { IfErr result (NamesFirstBad reading (table_lines text.now)) }
    ensures never_full { IfErr result (λ error. ¬ (error ≡ LoadError.Refused IndexRange)) }
{
    lookup_laws::<Ipv4Prefix, Value>();
    match_laws::<Value>();
    listing_laws::<Value>();
    let mut list = AddressList::new(alloc)?;
    let skipped = list.add(text, reading, alloc)?;
    if list.has_values {
        return Ok(None);
    }
    let set = list.finish()?;
    Ok(Some(FewestNetworks {
        ipv4: set.ipv4.collect_networks(alloc)?,
        ipv6: set.ipv6.collect_networks(alloc)?,
        skipped,
    }))
}
