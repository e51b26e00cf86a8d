//! Maps from the items of an iterator.
ghost use Rattle.std.specs.Prelude.{◌≡◌, List, [], ◌∷◌, ◌++◌, ◌+◌, ◌-◌, ◌*◌, ◌^◌, ◌<◌, length, All, IfOk, OnOk, IfErr};
ghost use Rattle.std.specs.Iterator.{IsFinite, HoldsAlong, Yields, Drains};
ghost use Rattle.prefix_trie_bits.specs.declared.prefix.Refusal.TheVariants.{Memory, IndexRange};
ghost use Rattle.prefix_trie_bits.specs.Model.Entries.{no_entries};
ghost use Rattle.prefix_trie_bits.specs.Calls.Entries.{put_all};
ghost use Rattle.prefix_trie_bits.specs.Model.Insertion.{MissingFitsLimit};
ghost use Rattle.prefix_trie_bits.specs.Model.Nodes.{IsTidy};
ghost use Rattle.prefix_trie_bits.specs.Model.Space.{MayPassLimit};
ghost use Rattle.prefix_trie_map.specs.Collected.{Puts, ManyMayPassLimit};

use crate::map::PrefixMap;
use prefix_trie_bits::prefix::{Prefix, Refusal};
use std::alloc::Allocator;
use std::iter::IntoIterator;

impl<P: Prefix, T: Drop, A: Allocator + Clone> PrefixMap<P, T, A> {
    /// Creates a map from the items of an iterator, inserted in order.
    ///
    /// If two items have the same path, the map has the later value. The slot limit is that of `new`. Requires that the
    /// iterator ends and that each of its prefixes fits.
    ///
    /// # Errors
    ///
    /// Returns `Memory` or `IndexRange` as `insert` does. `IndexRange` needs very many items: each makes at most 56
    /// slots of an array. No map exists then, and the items taken are dropped.
    ///
    /// # Examples
    ///
    /// ```rust
    /// let routes = vec![in alloc; ("10.1.0.0/16".parse::<Ipv4Prefix>()?, 1), ("10.1.255.255/16".parse()?, 2)]?;
    /// PrefixMap::from_iter(alloc, routes)?.iter();        // [(10.1.0.0/16, 2)]: both have one path
    /// ```
    pub fn from_iter<I: IntoIterator<Item = (P, T)> + Drop>(
        alloc: A,
        items: I,
    ) -> Result<Self, Refusal>
        requires ends { (it : I.IntoIter) → I.into_iter_gives items it
            → I.IntoIter.can_next it × IsFinite (I.IntoIter.remaining it) }
        requires fit { (it : I.IntoIter) → I.into_iter_gives items it
            → HoldsAlong I.IntoIter.next_gives it (All (λ item. P.IsFitting item.0)) }
        ensures entries { IfOk result
            (λ map. (it : I.IntoIter) × (xs : List (P × T)) × I.into_iter_gives items it
            × Drains I.IntoIter.next_gives it xs × (map.entries ≡ put_all P.path xs no_entries)) }
        ensures tidy { IfOk result (λ map. IsTidy map.entries map.nodes) }
        ensures limit { IfOk result (λ map. map.space.limit ≡ 2 ^ 32 - 1) }

        // `IndexRange` comes only if 56 slots for each item taken would exceed the limit.
        ensures range { IfErr result
            (λ cause. cause ≡ IndexRange
            → (it : I.IntoIter) × (xs : List (P × T)) × (rest : I.IntoIter)
            × I.into_iter_gives items it × Yields I.IntoIter.next_gives it xs rest
            × (2 ^ 32 - 1 < 1 + 56 * length xs)) }
    {
        let mut map = Self::new(alloc)?;
        fill(&mut map, items)?;
        Ok(map)
    }
}

/// Inserts the items in order, and stops at the first that fails.
fn fill<P: Prefix, T: Drop, A: Allocator, I: IntoIterator<Item = (P, T)> + Drop>(
    map: &mut PrefixMap<P, T, A>,
    items: I,
) -> Result<(), Refusal>
    requires ends { (it : I.IntoIter) → I.into_iter_gives items it
        → I.IntoIter.can_next it × IsFinite (I.IntoIter.remaining it) }
    requires fit { (it : I.IntoIter) → I.into_iter_gives items it
        → HoldsAlong I.IntoIter.next_gives it (All (λ item. P.IsFitting item.0)) }
    ensures ok { OnOk result
        ((it : I.IntoIter) × (xs : List (P × T)) × I.into_iter_gives items it
        × Drains I.IntoIter.next_gives it xs × Puts P.path map.old xs map.new) }
    ensures range { IfErr result
        (λ cause. cause ≡ IndexRange
        → (it : I.IntoIter) × (xs : List (P × T)) × (rest : I.IntoIter) × I.into_iter_gives items it
        × Yields I.IntoIter.next_gives it xs rest × ManyMayPassLimit map.old.space (length xs)) }

    // `Memory` comes only if a block that the last item taken needs is still missing and would fit the limit.
    ensures memory { IfErr result
        (λ cause. cause ≡ Memory
        → (it : I.IntoIter) × (xs : List (P × T)) × (last : P × T) × (rest : I.IntoIter)
        × I.into_iter_gives items it
        × Yields I.IntoIter.next_gives it (xs ++ last ∷ []) rest
        × MissingFitsLimit map.new.entries map.new.nodes map.new.space map.new.layout
        (P.path last.0)) }
{
    for (prefix, value) in items {
        put(map, prefix, value)?;
    }
    Ok(())
}

/// Inserts one item. The previous value is dropped, or the new one if the insertion fails.
fn put<P: Prefix, T: Drop, A: Allocator>(
    map: &mut PrefixMap<P, T, A>,
    prefix: P,
    value: T,
) -> Result<(), Refusal>
    requires { P.IsFitting prefix }
    ensures ok { OnOk result (Puts P.path map.old ((prefix, value) ∷ []) map.new) }
    ensures range { IfErr result (λ cause. cause ≡ IndexRange → MayPassLimit map.old.space) }
    ensures memory { IfErr result
        (λ cause. cause ≡ Memory
        → MissingFitsLimit map.new.entries map.new.nodes map.new.space map.new.layout
        (P.path prefix)) }
{
    map.known_valid();
    map.insert(prefix, value)?;
    Ok(())
}
