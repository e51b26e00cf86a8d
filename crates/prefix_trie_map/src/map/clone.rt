//! Copying a map.
ghost use Rattle.std.specs.Prelude.{◌≡◌, IfOk};
ghost use Rattle.prefix_trie_table.specs.Copies.{AreCloned};

use crate::map::PrefixMap;
use prefix_trie_bits::prefix::Prefix;
use std::alloc::{AllocError, Allocator};
use std::marker::PhantomData;

impl<P: Prefix, T: Clone, A: Allocator + Clone> PrefixMap<P, T, A> {
    /// Creates a map with the same keys and nodes, whose values are clones, in memory of its own.
    ///
    /// Slots are copied one by one, free ones too: both arrays have the same length, blocks and limit as in this map.
    /// Each value is cloned once. All memory for the arrays is allocated before the first clone.
    ///
    /// # Errors
    ///
    /// Returns an error if an allocation fails, for the arrays or in the clone of a value. No copy exists then.
    ///
    /// # Examples
    ///
    /// ```rust
    /// // map = {10.1.0.0/16: 1}
    /// let mut copy = map.clone()?;
    /// copy.insert("10.1.0.0/16".parse()?, 2)?;    // Some(1)
    /// map.get(&"10.1.0.0/16".parse()?);           // Some(1): the two share nothing
    /// ```
    pub fn clone(&self) -> Result<Self, AllocError>
        ensures entries { IfOk result (λ copy. AreCloned T.is_clone self.now.entries copy.entries) }
        ensures nodes { IfOk result (λ copy. copy.nodes ≡ self.now.nodes) }
        ensures space { IfOk result (λ copy. copy.space ≡ self.now.space) }
        ensures layout { IfOk result (λ copy. copy.layout ≡ self.now.layout) }

        // If a clone of a value equals it, contracts see the same map.
        ensures same { IfOk result
            (λ copy. ((x y : T) → T.is_clone x y → y ≡ x) → copy ≡ self.now) }
    {
        let table = self.table.clone()?;
        Ok(PrefixMap {
            table,
            marker: PhantomData,
        })
    }
}
