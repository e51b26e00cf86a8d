//! Copies of tables, and their equality.
ghost use Rattle.std.specs.Prelude.{◌≡◌, ◌&&◌, IfOk, nat_eq};
ghost use Rattle.std.specs.Cmp.{and_equiv, and_per, nat_eq_equiv, on_equiv, on_per, partial_equiv_from_equiv};
ghost use Rattle.std.specs.Cmp.Lexicographic.{lists_equiv, lists_per, pointwise};
ghost use Rattle.prefix_trie_bits.specs.Model.Selections.{listing, prefix_pairs};

use crate::table::ForwardingTable;
use prefix_trie_bits::prefix::Prefix;
use std::alloc::{AllocError, Allocator};

impl<P: Prefix, A: Allocator + Clone> ForwardingTable<P, A> {
    /// Copies the table, in memory of its own.
    ///
    /// # Errors
    ///
    /// Returns an error if an allocation fails. No copy exists then.
    ///
    /// # Examples
    ///
    /// ```rust
    /// // table = {10.1.0.0/16: 1}
    /// let mut copy = table.clone()?;
    /// copy.remove(&"10.1.0.0/16".parse()?);   // Some(1)
    /// table.lookup(0x0a010203);               // Some(1): the two share nothing
    /// ```
    pub fn clone(&self) -> Result<Self, AllocError>
        ensures map { IfOk result (λ copy. copy.map ≡ self.now.map) }
        ensures root { IfOk result (λ copy. copy.slots.root_bits ≡ self.now.slots.root_bits) }
    {
        let map = self.map.clone()?;
        let slots = self.slots.clone()?;
        Ok(ForwardingTable { map, slots })
    }
}

/// Compares the networks and hops of two tables, as `==` of their maps does. The bits of their roots do not count.
///
/// # Examples
///
/// ```rust
/// // table = {10.1.0.0/16: 1}
/// let copy = table.clone()?;
/// copy == table;  // true
/// ```
impl<P: Prefix + PartialEq, A: Allocator> PartialEq for ForwardingTable<P, A> {
    ghost eq = { λ a b. pointwise
        (λ x y. P.PartialEq.eq x.0 y.0 && nat_eq x.1.number y.1.number)
        (prefix_pairs P.back (listing a.map.entries))
        (prefix_pairs P.back (listing b.map.entries)) };

    ghost laws = { on_per
        (λ t. prefix_pairs P.back (listing t.map.entries))
        (lists_per (and_per (on_per (λ e. e.0) P.PartialEq.laws)
        (on_per (λ e. e.1.number) (partial_equiv_from_equiv nat_eq_equiv)))) };

    fn eq(&self, other: &Self) -> bool {
        self.map == other.map
    }
}

impl<P: Prefix + Eq, A: Allocator> Eq for ForwardingTable<P, A> {
    ghost laws = { on_equiv
        (λ t. prefix_pairs P.back (listing t.map.entries))
        (lists_equiv (and_equiv (on_equiv (λ e. e.0) P.Eq.laws)
        (on_equiv (λ e. e.1.number) nat_eq_equiv))) };
}
