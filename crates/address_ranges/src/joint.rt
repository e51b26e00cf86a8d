//! Sets of addresses of both families.
ghost use Rattle.std.specs.Prelude.{◌≡◌, ◌↔◌, ℕ, ◌^◌, ◌<◌, ◌&&◌, ◌||◌, [], IfOk, IsTrue, not};
ghost use Rattle.address_ranges.specs.Counts.{count_below, count_of};
ghost use Rattle.address_ranges.specs.Breaks.{has_address};
ghost use Rattle.address_ranges.specs.Builders.{gathered};
ghost use Rattle.address_ranges.specs.Joint.{IsDisjoint, IsSubset, Keeps, keeps_one};

use crate::builder::AddressSetBuilder;
use crate::count::AddressCount;
use crate::set::AddressSet;
use prefix_trie_bits::prefix::{Ipv4Prefix, Ipv6Prefix};
use std::alloc::{AllocError, Allocator};

/// A set of IPv4 addresses and a set of IPv6 addresses.
///
/// An operation treats each family by itself.
///
/// # Examples
///
/// ```rust
/// let mut set = JointAddressSet::new(alloc)?;
/// set.ipv4.insert_range(0x0a000000, 0x0a0000ff)?;
/// set.ipv6.insert_range(0, u128::MAX)?;
/// set.address_counts();       // (Number(256), AllIpv6)
/// ```
#[derive(Drop)]
pub struct JointAddressSet<A: Allocator> {
    /// The IPv4 addresses.
    pub ipv4: AddressSet<Ipv4Prefix, A>,
    /// The IPv6 addresses.
    pub ipv6: AddressSet<Ipv6Prefix, A>,
}

impl<A: Allocator + Clone> JointAddressSet<A> {
    /// Creates an empty set.
    ///
    /// # Errors
    ///
    /// Returns an error if the allocator cannot be cloned.
    pub fn new(alloc: A) -> Result<Self, AllocError>
        ensures { IfOk result (λ set. (set.ipv4 ≡ []) × (set.ipv6 ≡ [])) }
    {
        let other = alloc.clone()?;
        Ok(JointAddressSet {
            ipv4: AddressSet::new(alloc),
            ipv6: AddressSet::new(other),
        })
    }

    /// Creates a set with the same addresses, in memory of its own.
    ///
    /// # Errors
    ///
    /// Returns an error if an allocation fails. No copy exists then.
    pub fn clone(&self) -> Result<Self, AllocError>
        ensures { IfOk result
            (λ copy. (copy.ipv4 ≡ self.now.ipv4) × (copy.ipv6 ≡ self.now.ipv6)) }
    {
        Ok(JointAddressSet {
            ipv4: self.ipv4.clone()?,
            ipv6: self.ipv6.clone()?,
        })
    }
}

impl<A: Allocator> JointAddressSet<A> {
    /// Returns whether the set has no address.
    pub fn is_empty(&self) -> bool
        ensures { IsTrue result ↔ ((self.now.ipv4 ≡ []) × (self.now.ipv6 ≡ [])) }
    {
        self.ipv4.is_empty() && self.ipv6.is_empty()
    }

    /// Returns the number of IPv4 addresses and the number of IPv6 addresses.
    pub fn address_counts(&self) -> (AddressCount, AddressCount)
        ensures ipv4 { count_of result.0 ≡ count_below (has_address self.now.ipv4) (2 ^ 32) }
        ensures ipv6 { count_of result.1 ≡ count_below (has_address self.now.ipv6) (2 ^ 128) }
    {
        (self.ipv4.address_count(), self.ipv6.address_count())
    }

    /// Returns the set of the addresses that either set has.
    ///
    /// # Errors
    ///
    /// Returns an error if an allocation fails.
    pub fn union<B: Allocator, C: Allocator + Clone>(
        &self,
        other: &JointAddressSet<B>,
        alloc: C,
    ) -> Result<JointAddressSet<C>, AllocError>
        ensures ipv4 { IfOk result
            (λ set. Keeps (λ a b. a || b) self.now.ipv4 other.now.ipv4 set.ipv4) }
        ensures ipv6 { IfOk result
            (λ set. Keeps (λ a b. a || b) self.now.ipv6 other.now.ipv6 set.ipv6) }
    {
        Ok(JointAddressSet {
            ipv4: self.ipv4.union(&other.ipv4, alloc.clone()?)?,
            ipv6: self.ipv6.union(&other.ipv6, alloc)?,
        })
    }

    /// Returns the set of the addresses that both sets have.
    ///
    /// # Errors
    ///
    /// Returns an error if an allocation fails.
    pub fn intersection<B: Allocator, C: Allocator + Clone>(
        &self,
        other: &JointAddressSet<B>,
        alloc: C,
    ) -> Result<JointAddressSet<C>, AllocError>
        ensures ipv4 { IfOk result
            (λ set. Keeps (λ a b. a && b) self.now.ipv4 other.now.ipv4 set.ipv4) }
        ensures ipv6 { IfOk result
            (λ set. Keeps (λ a b. a && b) self.now.ipv6 other.now.ipv6 set.ipv6) }
    {
        Ok(JointAddressSet {
            ipv4: self.ipv4.intersection(&other.ipv4, alloc.clone()?)?,
            ipv6: self.ipv6.intersection(&other.ipv6, alloc)?,
        })
    }

    /// Returns the set of the addresses of this set that the other one does not have.
    ///
    /// # Errors
    ///
    /// Returns an error if an allocation fails.
    pub fn difference<B: Allocator, C: Allocator + Clone>(
        &self,
        other: &JointAddressSet<B>,
        alloc: C,
    ) -> Result<JointAddressSet<C>, AllocError>
        ensures ipv4 { IfOk result
            (λ set. Keeps (λ a b. a && not b) self.now.ipv4 other.now.ipv4 set.ipv4) }
        ensures ipv6 { IfOk result
            (λ set. Keeps (λ a b. a && not b) self.now.ipv6 other.now.ipv6 set.ipv6) }
    {
        Ok(JointAddressSet {
            ipv4: self.ipv4.difference(&other.ipv4, alloc.clone()?)?,
            ipv6: self.ipv6.difference(&other.ipv6, alloc)?,
        })
    }

    /// Returns the set of the addresses that exactly one of the sets has.
    ///
    /// # Errors
    ///
    /// Returns an error if an allocation fails.
    pub fn symmetric_difference<B: Allocator, C: Allocator + Clone>(
        &self,
        other: &JointAddressSet<B>,
        alloc: C,
    ) -> Result<JointAddressSet<C>, AllocError>
        ensures ipv4 { IfOk result
            (λ set. Keeps keeps_one self.now.ipv4 other.now.ipv4 set.ipv4) }
        ensures ipv6 { IfOk result
            (λ set. Keeps keeps_one self.now.ipv6 other.now.ipv6 set.ipv6) }
    {
        Ok(JointAddressSet {
            ipv4: self.ipv4.symmetric_difference(&other.ipv4, alloc.clone()?)?,
            ipv6: self.ipv6.symmetric_difference(&other.ipv6, alloc)?,
        })
    }

    /// Returns whether the other set has each address of this one.
    pub fn is_subset<B: Allocator>(&self, other: &JointAddressSet<B>) -> bool
        ensures { IsTrue result ↔ (IsSubset 32 self.now.ipv4 other.now.ipv4
            × IsSubset 128 self.now.ipv6 other.now.ipv6) }
    {
        self.ipv4.is_subset(&other.ipv4) && self.ipv6.is_subset(&other.ipv6)
    }

    /// Returns whether no address is in both sets.
    pub fn is_disjoint<B: Allocator>(&self, other: &JointAddressSet<B>) -> bool
        ensures { IsTrue result ↔ (IsDisjoint 32 self.now.ipv4 other.now.ipv4
            × IsDisjoint 128 self.now.ipv6 other.now.ipv6) }
    {
        self.ipv4.is_disjoint(&other.ipv4) && self.ipv6.is_disjoint(&other.ipv6)
    }
}

/// Builds a set of addresses of both families, of ranges and networks that come in any order.
#[derive(Drop)]
pub struct JointAddressSetBuilder<A: Allocator> {
    /// Builds the set of the IPv4 addresses.
    pub ipv4: AddressSetBuilder<Ipv4Prefix, A>,
    /// Builds the set of the IPv6 addresses.
    pub ipv6: AddressSetBuilder<Ipv6Prefix, A>,
}

impl<A: Allocator + Clone> JointAddressSetBuilder<A> {
    /// Creates a builder without addresses.
    ///
    /// # Errors
    ///
    /// Returns an error if the allocator cannot be cloned.
    pub fn new(alloc: A) -> Result<Self, AllocError>
        ensures { IfOk result
            (λ builder. (builder.ipv4 ≡ ([], [])) × (builder.ipv6 ≡ ([], []))) }
    {
        let other = alloc.clone()?;
        Ok(JointAddressSetBuilder {
            ipv4: AddressSetBuilder::new(alloc)?,
            ipv6: AddressSetBuilder::new(other)?,
        })
    }

    /// Returns the set of the addresses.
    ///
    /// # Errors
    ///
    /// Returns an error if an allocation fails.
    pub fn finish(self) -> Result<JointAddressSet<A>, AllocError>
        ensures ipv4 { IfOk result
            (λ set. (n : ℕ) → n < 2 ^ 32 → has_address set.ipv4 n ≡ gathered self.ipv4 n) }
        ensures ipv6 { IfOk result
            (λ set. (n : ℕ) → n < 2 ^ 128 → has_address set.ipv6 n ≡ gathered self.ipv6 n) }
    {
        Ok(JointAddressSet {
            ipv4: self.ipv4.finish()?,
            ipv6: self.ipv6.finish()?,
        })
    }
}
