//! Sets from the prefixes of an iterator.
ghost use Rattle.std.specs.Prelude.{◌≡◌, List, ◌+◌, ◌-◌, ◌*◌, ◌^◌, ◌<◌, length, map, All, IfOk, IfErr};
ghost use Rattle.std.specs.Iterator.{IsFinite, HoldsAlong, Yields, Drains};
ghost use Rattle.prefix_trie_bits.specs.declared.prefix.Refusal.TheVariants.{IndexRange};
ghost use Rattle.prefix_trie_bits.specs.Model.Entries.{no_entries};
ghost use Rattle.prefix_trie_bits.specs.Calls.Entries.{put_all};
ghost use Rattle.prefix_trie_bits.specs.Model.Nodes.{IsTidy};
ghost use Rattle.prefix_trie.specs.Sets.{as_item};

use crate::set::PrefixSet;
use prefix_trie_bits::prefix::{Prefix, Refusal};
use prefix_trie_map::map::PrefixMap;
use std::alloc::Allocator;
use std::iter::IntoIterator;

impl<P: Prefix, A: Allocator + Clone> PrefixSet<P, A> {
    /// Creates a set from the prefixes of an iterator, inserted in order, with the slot limit of `new`.
    ///
    /// Requires that the iterator ends and that each of its prefixes fits.
    ///
    /// # Errors
    ///
    /// Returns the errors of `insert`. `IndexRange` needs very many prefixes: each makes at most 56 slots of an array.
    /// No set exists then, and the prefixes taken are dropped.
    ///
    /// # Examples
    ///
    /// ```rust
    /// let networks = vec![in alloc; "10.1.0.0/16".parse::<Ipv4Prefix>()?, "10.1.255.255/16".parse()?]?;
    /// PrefixSet::from_iter(alloc, networks)?.len();       // 1: both have one path
    /// ```
    pub fn from_iter<I: IntoIterator<Item = P> + Drop>(alloc: A, items: I) -> Result<Self, Refusal>
        requires ends { (it : I.IntoIter) → I.into_iter_gives items it
            → I.IntoIter.can_next it × IsFinite (I.IntoIter.remaining it) }
        requires fit { (it : I.IntoIter) → I.into_iter_gives items it
            → HoldsAlong I.IntoIter.next_gives it (All P.IsFitting) }
        ensures entries { IfOk result
            (λ set. (it : I.IntoIter) × (xs : List P) × I.into_iter_gives items it
            × Drains I.IntoIter.next_gives it xs
            × (set.entries ≡ put_all P.path (map as_item xs) no_entries)) }
        ensures tidy { IfOk result (λ set. IsTidy set.entries set.nodes) }
        ensures limit { IfOk result (λ set. set.space.limit ≡ 2 ^ 32 - 1) }

        // `IndexRange` comes only if 56 slots for each prefix taken would exceed the limit.
        ensures range { IfErr result
            (λ cause. cause ≡ IndexRange
            → (it : I.IntoIter) × (xs : List P) × (rest : I.IntoIter) × I.into_iter_gives items it
            × Yields I.IntoIter.next_gives it xs rest × (2 ^ 32 - 1 < 1 + 56 * length xs)) }
    {
        let units = items.into_iter().map(|prefix| (prefix, ()));
        let map = PrefixMap::from_iter(alloc, units)?;
        Ok(PrefixSet { map })
    }
}
