//! The fewest networks that give each address the value of its longest match.
ghost use Rattle.std.specs.Prelude.{◌≡◌, ◌+◌, ◌-◌, ◌*◌, ◌^◌, ◌<◌, ◌≤◌, [], ◌∷◌, IfErr, IfOk, IfSome, OnOk, map};
ghost use Rattle.std.specs.FinMap.{len};
ghost use Rattle.prefix_trie.specs.Terms.{lent_item};
ghost use Rattle.prefix_trie_bits.specs.Model.Space.{MayPassLimit};
ghost use Rattle.prefix_trie_map.specs.Collected.{Puts};
ghost use Rattle.route_tables.specs.Fewest.{HasOnly, HasRanks, IsFewest, Ranks, named_pairs, text_at, texts_of};

use crate::table::FamilyTable;
use crate::value::Value;
use indexmap::IndexSet;
use prefix_trie::laws::{listing_laws, lookup_laws, match_laws, put_laws};
use prefix_trie::{Prefix, PrefixMap, Refusal};
use prefix_trie_ops::addresses::addresses_of;
use prefix_trie_ops::map::aggregate;
use std::alloc::{AllocError, Global};

/// Returns the fewest networks, each with its value, that give each address the value of its longest match in a table.
///
/// They are in listing order. An address that no network of the table contains is in none of them.
///
/// # Errors
///
/// Returns `Memory` if an allocation fails, and `IndexRange` if a map with the ranks of the values would be too large. This
/// needs many networks: each makes at most 56 slots of an array.
///
/// # Examples
///
/// ```rust
/// let table = load(b"10.0.0.0/9 core\n10.128.0.0/9 core\n10.1.0.0/16 edge\n", alloc)?.table;
/// fewest_networks(&table.ipv4, alloc)?.iter();        // [(10.0.0.0/8, "core"), (10.1.0.0/16, "edge")]
/// ```
pub fn fewest_networks<P: Prefix>(
    table: &FamilyTable<P>,
    alloc: Global,
) -> Result<Vec<(P, &str)>, Refusal>
    ensures fewest { IfOk result
        (λ networks. IsFewest P.R.bit_width P.back table.now.entries
        (map lent_item networks.items)) }

    // `IndexRange` comes only if 56 slots for each network would exceed the limit.
    ensures full { IfErr result (λ cause. cause ≡ Refusal.IndexRange
        → 2 ^ 32 - 1 < 1 + 56 * len table.now.entries) }
{
    match only_value(table) {
        Some(value) => Ok(fewest_with(table, value, alloc)?),
        None => fewest_by_ranks(table, alloc),
    }
}

// Returns the value that all networks of a table have, or `None` if there is no network or two values differ.
fn only_value<P: Prefix>(table: &FamilyTable<P>) -> Option<&str>
    ensures { IfSome result (λ value. HasOnly value.now table.now.entries) }
{
    listing_laws::<Value>();
    let mut values = table.values();
    let first = values.next()?.as_str();
    for value in values {
        if value.as_str() != first {
            return None;
        }
    }
    Some(first)
}

// Returns the fewest networks of a table in which all networks have this value.
fn fewest_with<'a, P: Prefix>(
    table: &FamilyTable<P>,
    value: &'a str,
    alloc: Global,
) -> Result<Vec<(P, &'a str)>, AllocError>
    requires { HasOnly value.now table.now.entries }
    ensures { IfOk result
        (λ networks. IsFewest P.R.bit_width P.back table.now.entries
        (map lent_item networks.items)) }
{
    lookup_laws::<P, Value>();
    match_laws::<Value>();
    listing_laws::<Value>();
    let networks = addresses_of(table, alloc)?.collect_networks(alloc)?;
    each_with(networks, value, alloc)
}

// Returns the networks, each with this value.
fn each_with<P: Prefix>(
    networks: Vec<P, Global>,
    value: &str,
    alloc: Global,
) -> Result<Vec<(P, &str)>, AllocError>
    ensures { IfOk result (λ pairs. pairs.items ≡ map (λ p. (p, value.entry)) networks.items) }
{
    networks
        .into_iter()
        .map(move |network| (network, value))
        .collect(alloc)
}

// Returns the fewest networks by the ranks of their values.
#[tactic(auto, using(crate::proofs::Ranks::fewest_by_ranks))]
fn fewest_by_ranks<P: Prefix>(
    table: &FamilyTable<P>,
    alloc: Global,
) -> Result<Vec<(P, &str)>, Refusal>
    ensures fewest { IfOk result
        (λ networks. IsFewest P.R.bit_width P.back table.now.entries
        (map lent_item networks.items)) }

    // `IndexRange` comes only if 56 slots for each network would exceed the limit.
    ensures full { IfErr result (λ cause. cause ≡ Refusal.IndexRange
        → 2 ^ 32 - 1 < 1 + 56 * len table.now.entries) }
{
    lookup_laws::<P, usize>();
    let mut ranked = rank_values(table, alloc)?;
    aggregate(&mut ranked.ranks, alloc)?;
    Ok(named(&ranked.ranks, ranked.texts.as_slice(), alloc)?)
}

/// The rank of each network's value, and the values in the order of their ranks.
#[derive(Drop)]
struct Ranked<'a, P: Prefix> {
    ranks: PrefixMap<P, usize, Global>,
    texts: IndexSet<&'a str>,
}

// Numbers the values of a table in the order in which they are listed first.
fn rank_values<P: Prefix>(table: &FamilyTable<P>, alloc: Global) -> Result<Ranked<'_, P>, Refusal>
    ensures ranks { IfOk result
        (λ made. HasRanks (texts_of made.texts.keys) made.ranks.entries table.now.entries) }
    ensures few { IfOk result (λ made. (made.ranks.space.limit ≡ 2 ^ 32 - 1)
        × (len made.ranks.entries ≤ len table.now.entries)) }
    ensures full { IfErr result (λ cause. cause ≡ Refusal.IndexRange
        → 2 ^ 32 - 1 < 1 + 56 * len table.now.entries) }
{
    put_laws::<P, Value>();
    let mut ranks = PrefixMap::new(alloc)?;
    let mut texts = IndexSet::new(alloc);
    for (network, value) in table {
        let rank = rank_of(&mut texts, value.as_str())?;
        set_rank(&mut ranks, network, rank)?;
    }
    Ok(Ranked { ranks, texts })
}

// Sets the rank of a network.
fn set_rank<P: Prefix>(
    ranks: &mut PrefixMap<P, usize, Global>,
    network: P,
    rank: usize,
) -> Result<(), Refusal>
    requires { P.IsFitting network }
    ensures puts { OnOk result (Puts P.path ranks.old ((network, rank) ∷ []) ranks.new) }
    ensures full { IfErr result (λ cause. cause ≡ Refusal.IndexRange
        → MayPassLimit ranks.old.space) }
{
    // The proof learns from `len` that the map is valid.
    let _ = ranks.len();
    ranks.insert(network, rank)?;
    Ok(())
}

// Returns the rank of a text. A new text gets the next one.
fn rank_of<'a>(texts: &mut IndexSet<&'a str>, text: &'a str) -> Result<usize, AllocError>
    ensures { IfOk result
        (λ rank. Ranks (texts_of texts.old.keys) (texts_of texts.new.keys) text.now rank) }
{
    let (rank, _) = texts.insert_full(text)?;
    Ok(rank)
}

// Returns the networks in listing order, each with the text of its rank.
fn named<'a, P: Prefix>(
    ranks: &PrefixMap<P, usize, Global>,
    texts: &[&'a str],
    alloc: Global,
) -> Result<Vec<(P, &'a str)>, AllocError>
    ensures { IfOk result
        (λ networks. map lent_item networks.items
        ≡ named_pairs P.back (texts_of texts.now) ranks.now.entries) }
{
    let mut networks = Vec::new(alloc);
    for (network, rank) in ranks {
        networks.push((network, text_of(texts, *rank)))?;
    }
    Ok(networks)
}

// Returns the text of a rank, or an empty one if no text has this rank.
#[tactic(auto, using(crate::proofs::Ranking::text_read, crate::proofs::Ranking::text_past))]
fn text_of<'a>(texts: &[&'a str], rank: usize) -> &'a str
    ensures { result.now ≡ text_at (texts_of texts.now) rank }
{
    if rank < texts.len() { texts[rank] } else { "" }
}
