//! A forwarding table that is read from lines such as `10.0.0.0/8 7`, and printed as such lines.
ghost use Rattle.std.specs.Prelude.{◌≡◌, ℕ, List, ◌++◌, IfOk, OnOk, OnErr, codes, decimal, flat_map, string_bytes};
ghost use Rattle.std.specs.Option.{option_map};
ghost use Rattle.std.specs.Net.Addr.{ipv4_bits};
ghost use Rattle.std.specs.Str.Parse.{digits_value, without_leading_plus};
ghost use Rattle.prefix_trie.specs.Terms.{ipv4_address, ipv4_back, ipv4_network_text, ipv4_path, listing, longest_match, prefix_pairs, with_entry, IsIpv4NetworkText};

use prefix_trie::laws::network_laws;
use prefix_trie::{Ipv4Prefix, ParseNetworkError, PrefixMap, Refusal};
use std::alloc::{AllocError, Allocator};
use std::net::Ipv4Addr;

/// Routes, each with the number of its next hop.
type Routes<A> = PrefixMap<Ipv4Prefix, u32, A>;

/// The reason why a line was not added.
#[derive(Clone, Copy, PartialEq, Eq, Debug)]
pub enum LineError {
    /// The line has no space.
    MissingSpace,
    /// The text before the first space is not a network.
    Network(ParseNetworkError),
    /// The text after the first space is not a number of 32 bits.
    Hop,
    /// The table refused the route.
    Refused(Refusal),
}

/// Reads a line: a network, a space and the number of the next hop.
pub fn read_route(line: &str) -> Result<(Ipv4Prefix, u32), LineError>
    ensures { IfOk result
        (λ route. (network hop : List ℕ) × (line.now ≡ network ++ (codes " " ++ hop))
        × IsIpv4NetworkText network route.0
        × (digits_value 10 (without_leading_plus hop) ≡ route.1)) }
{
    let Some((network, hop)) = line.split_once(' ') else {
        return Err(LineError::MissingSpace);
    };
    let network = match network.parse::<Ipv4Prefix>() {
        Ok(network) => network,
        Err(error) => return Err(LineError::Network(error)),
    };
    let Ok(hop) = hop.parse::<u32>() else {
        return Err(LineError::Hop);
    };
    Ok((network, hop))
}

/// Adds the route of a line, or changes its next hop if the table has the route.
///
/// # Errors
///
/// Returns the reason if the line is not a route or the table refuses it. The table is unchanged then.
pub fn add_line<A: Allocator>(table: &mut Routes<A>, line: &str) -> Result<(), LineError>
    ensures added { OnOk result
        ((route : (ℕ × ℕ) × ℕ)
        × ((network hop : List ℕ) × (line.now ≡ network ++ (codes " " ++ hop))
        × IsIpv4NetworkText network route.0
        × (digits_value 10 (without_leading_plus hop) ≡ route.1))
        × (table.new.entries ≡ with_entry table.old.entries (ipv4_path route.0) route.1)) }
    ensures unchanged { OnErr result (table.new.entries ≡ table.old.entries) }
{
    let (network, hop) = read_route(line)?;
    match table.insert(network, hop) {
        Ok(_) => Ok(()),
        Err(refused) => Err(LineError::Refused(refused.cause)),
    }
}

/// Returns the next hop of an address: the hop of the longest route that contains it, if there is one.
pub fn next_hop<A: Allocator>(table: &Routes<A>, address: Ipv4Addr) -> Option<u32>
    ensures { result
        ≡ option_map (λ route. route.1)
        (longest_match table.now.entries (ipv4_address (ipv4_bits address))) }
{
    network_laws();
    table.get_lpm_value(&Ipv4Prefix::from(address)).copied()
}

/// Prints the table in listing order, with one line for each route.
pub fn print<A: Allocator, B: Allocator>(
    table: &Routes<A>,
    alloc: B,
) -> Result<String<B>, AllocError>
    ensures { IfOk result (λ text. string_bytes text
        ≡ flat_map (λ route. ipv4_network_text route.0
        ++ (codes " " ++ (decimal route.1 ++ codes "\n")))
        (prefix_pairs ipv4_back (listing table.now.entries))) }
{
    let mut text = String::new(alloc);
    for (network, hop) in table {
        writeln!(text, "{network} {hop}")?;
    }
    Ok(text)
}
