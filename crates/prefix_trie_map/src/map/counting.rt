//! Counting the nodes, and the addresses that the entries cover.
ghost use Rattle.std.specs.Prelude.{◌≡◌, IfSome};
ghost use Rattle.std.specs.Option.{option_map};
ghost use Rattle.std.specs.FinMap.{len};
ghost use Rattle.prefix_trie_bits.specs.Model.Bits.{number};
ghost use Rattle.prefix_trie_bits.specs.Model.Addresses.{address_total};
ghost use Rattle.prefix_trie_bits.specs.Model.Entries.{Entries};
ghost use Rattle.prefix_trie_bits.specs.Model.Selections.{listing};
ghost use Rattle.prefix_trie_map.specs.Whole.{IsWhole};

use crate::map::{PrefixMap, Visits};
use prefix_trie_bits::prefix::{Key, Prefix};
use prefix_trie_table::allocator::nodes::VisitCounter;
use prefix_trie_table::table::Walk;
use std::alloc::Allocator;

impl<P: Prefix, T: Drop, A: Allocator> PrefixMap<P, T, A> {
    /// Returns the number of nodes, including the root: a new map has 1.
    ///
    /// The number is not stored. Each call reads every slot of the array of nodes once, free slots too.
    ///
    /// # Examples
    ///
    /// ```rust
    /// // map = {0.0.0.0/32: 1}
    /// map.node_count();       // 7: the root, and a node for each five bits
    /// ```
    #[inline]
    pub fn node_count(&self) -> usize
        ensures count { result ≡ len self.now.nodes }
        ensures whole { IsWhole P.R.bit_width self.now }
    {
        self.known_valid();
        self.table.node_count(&mut Visits::new())
    }

    /// Returns the number of addresses that the stored prefixes contain, each counted once.
    ///
    /// An address is a number of the full width. The result is `None` exactly if all addresses are covered, since their
    /// number does not fit. A prefix within another stored one adds nothing, and the nodes under a stored prefix are
    /// not read.
    ///
    /// # Examples
    ///
    /// ```rust
    /// // map = {192.0.2.0/24: 1, 192.0.2.128/25: 2, 198.51.100.0/24: 3}
    /// map.address_count();                        // Some(512)
    /// map.insert("0.0.0.0/0".parse()?, 4)?;
    /// map.address_count();                        // None: 2^32 is no u32
    /// ```
    #[inline]
    pub fn address_count(&self) -> Option<P::R>
        ensures key { IfSome result (λ r. P.R.IsKey r) }
        ensures count { option_map (λ r. number (P.R.bits r)) result
            ≡ address_total P.R.bit_width self.now.entries }
        ensures whole { IsWhole P.R.bit_width self.now }
    {
        self.known_valid();
        let mut visits = Visits::new();
        let mut walk = self.table.walk(&mut visits);
        addresses_of(&mut walk, &mut visits)
    }
}

/// Returns how many addresses the entries to come cover, or `None` if they cover all.
fn addresses_of<K: Key, T: Drop, A: Allocator, V: VisitCounter>(
    walk: &mut Walk<'_, K, T, A, V>,
    counter: &mut V,
) -> Option<K>
    ensures key { IfSome result (λ r. K.IsKey r) }
    ensures count { (m : Entries T) → walk.old ≡ listing m
        → option_map (λ r. number (K.bits r)) result ≡ address_total K.bit_width m }
{
    let mut total = K::zero();
    while let Some((_, len)) = walk.next_outermost(counter) {
        if len == 0 {
            return None;
        }
        total = total.plus(K::power(K::width() - len))?;
    }
    Some(total)
}
