//! Maps from the items of an iterator.
ghost use Rattle.std.specs.Prelude.{◌≡◌, ℕ, ◌+◌, ◌-◌, ◌*◌, ◌^◌, ◌<◌, List, length, IfErr, IfOk, OnOk};
ghost use Rattle.std.specs.Iterator.{Drains, IsFinite, Yields};
ghost use Rattle.prefix_trie.specs.Terms.{IsTidy, no_entries, put_all, with_entry};
ghost use Rattle.prefix_trie_bits.specs.declared.prefix.Refusal.TheVariants.{IndexRange};
ghost use Rattle.prefix_trie_joint.specs.Changes.{maps_of};
ghost use Rattle.prefix_trie_joint.specs.Collected.{AreAfter};
ghost use Rattle.prefix_trie_joint.specs.Joined.{entries_of};
ghost use Rattle.prefix_trie_joint.specs.Networks.{ip_path};

use crate::map::JointPrefixMap;
use crate::prefix::IpPrefix;
use prefix_trie::Refusal;
use std::alloc::Allocator;
use std::iter::IntoIterator;

impl<T: Drop, A: Allocator + Clone> JointPrefixMap<T, A> {
    /// Creates a map from the items of an iterator, inserted in order.
    ///
    /// If two items have the same path and family, the map has the later value. The slot limits are
    /// those of `new`. Requires that the iterator ends.
    ///
    /// # Errors
    ///
    /// Returns `Memory` or `IndexRange` as `insert` does. `IndexRange` needs very many items: each makes at
    /// most 56 slots of an array. No map exists then, and the items taken are dropped.
    ///
    /// # Examples
    ///
    /// ```rust
    /// let routes = vec![in alloc; ("::/0".parse::<IpPrefix>()?, 1), ("10.0.0.0/8".parse()?, 2), ("::1/0".parse()?, 3)]?;
    /// JointPrefixMap::from_iter(alloc, routes)?.values();     // [2, 3]: the first and the last have one path
    /// ```
    pub fn from_iter<I: IntoIterator<Item = (IpPrefix, T)> + Drop>(
        alloc: A,
        items: I,
    ) -> Result<Self, Refusal>
        requires { (it : I.IntoIter) → I.into_iter_gives items it
            → I.IntoIter.can_next it × IsFinite (I.IntoIter.remaining it) }
        ensures entries { IfOk result
            (λ map. (it : I.IntoIter) × (xs : List (IpPrefix × T)) × I.into_iter_gives items it
            × Drains I.IntoIter.next_gives it xs
            × (entries_of map ≡ put_all ip_path xs no_entries)) }
        ensures tidy { IfOk result (λ map. IsTidy map.ipv4.entries map.ipv4.nodes
            × IsTidy map.ipv6.entries map.ipv6.nodes) }
        ensures limit { IfOk result (λ map. (map.ipv4.space.limit ≡ 2 ^ 32 - 1)
            × (map.ipv6.space.limit ≡ 2 ^ 32 - 1)) }

        // `IndexRange` comes only if 56 slots for each item taken would exceed the limit.
        ensures range { IfErr result
            (λ cause. cause ≡ IndexRange
            → (it : I.IntoIter) × (xs : List (IpPrefix × T)) × (rest : I.IntoIter)
            × I.into_iter_gives items it × Yields I.IntoIter.next_gives it xs rest
            × (2 ^ 32 - 1 < 1 + 56 * length xs)) }
    {
        let mut map = Self::new(alloc)?;
        fill(&mut map, items)?;
        Ok(map)
    }
}

/// Inserts the items in order into a new map, and stops at the first that fails.
fn fill<T: Drop, A: Allocator, I: IntoIterator<Item = (IpPrefix, T)> + Drop>(
    map: &mut JointPrefixMap<T, A>,
    items: I,
) -> Result<(), Refusal>
    requires ends { (it : I.IntoIter) → I.into_iter_gives items it
        → I.IntoIter.can_next it × IsFinite (I.IntoIter.remaining it) }
    requires new { AreAfter 0 (maps_of map.old) }
    ensures ok { OnOk result
        ((it : I.IntoIter) × (xs : List (IpPrefix × T)) × I.into_iter_gives items it
        × Drains I.IntoIter.next_gives it xs
        × (entries_of map.new ≡ put_all ip_path xs (entries_of map.old))
        × AreAfter (length xs) (maps_of map.new)) }
    ensures range { IfErr result
        (λ cause. cause ≡ IndexRange
        → (it : I.IntoIter) × (xs : List (IpPrefix × T)) × (rest : I.IntoIter)
        × I.into_iter_gives items it × Yields I.IntoIter.next_gives it xs rest
        × (2 ^ 32 - 1 < 1 + 56 * length xs)) }
{
    for (prefix, value) in items {
        put(map, prefix, value)?;
    }
    Ok(())
}

/// Inserts one item. The previous value is dropped, or the new one if the insertion fails.
fn put<T: Drop, A: Allocator>(
    map: &mut JointPrefixMap<T, A>,
    prefix: IpPrefix,
    value: T,
) -> Result<(), Refusal>
    ensures entries { OnOk result
        (entries_of map.new ≡ with_entry (entries_of map.old) (ip_path prefix) value) }
    ensures after { OnOk result ((count : ℕ) → AreAfter count (maps_of map.old)
        → AreAfter (count + 1) (maps_of map.new)) }
    ensures range { IfErr result (λ cause. cause ≡ IndexRange
        → (count : ℕ) → AreAfter count (maps_of map.old) → 2 ^ 32 - 1 < 1 + 56 * (count + 1)) }
{
    // The proof learns from `len` that the map is valid.
    let _ = map.len();
    map.insert(prefix, value)?;
    Ok(())
}
