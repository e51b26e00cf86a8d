//! Sets from ranges, from networks and from other sets.
ghost use Rattle.std.specs.Prelude.{◌≡◌, ℕ, ◌^◌, ◌<◌, ◌||◌, List, All, IfOk, OnOk};
ghost use Rattle.std.specs.Iterator.{IsFinite, HoldsAlong, Drains};
ghost use Rattle.std.specs.List.{list_any};
ghost use Rattle.address_ranges.specs.Breaks.{has_address};
ghost use Rattle.address_ranges.specs.Builders.{gathered, is_in_network, is_in_range};

use crate::builder::AddressSetBuilder;
use crate::set::AddressSet;
use prefix_trie_bits::prefix::Prefix;
use std::alloc::{AllocError, Allocator};
use std::iter::IntoIterator;

impl<P: Prefix, A: Allocator + Clone> AddressSet<P, A> {
    /// Creates a set with the same addresses, in memory of its own.
    ///
    /// # Errors
    ///
    /// Returns an error if an allocation fails. No copy exists then.
    ///
    /// # Examples
    ///
    /// ```rust
    /// // set = {10.0.0.0/8}
    /// let mut copy = set.clone()?;
    /// copy.insert_range(0, 0)?;
    /// (set.len(), copy.len());        // (1, 2)
    /// ```
    pub fn clone(&self) -> Result<Self, AllocError>
        ensures { IfOk result (λ copy. copy ≡ self.now) }
    {
        let alloc = self.breaks.allocator().clone()?;
        Ok(AddressSet::of_breaks(Vec::from_slice(alloc, &self.breaks)?))
    }

    /// Creates the set of the addresses of ranges, each given by its first and its last address.
    ///
    /// The ranges come in any order. They are sorted once, and not at all if they come in order. A range has no address
    /// if its last address is before its first one. Requires that the iterator ends.
    ///
    /// # Errors
    ///
    /// Returns an error if an allocation fails. No set exists then.
    ///
    /// # Examples
    ///
    /// ```rust
    /// let ranges = vec![in alloc; (512, 767), (0, 255), (256, 511)]?;
    /// let set: AddressSet<Ipv4Prefix, Global> = AddressSet::from_ranges(alloc, ranges)?;
    /// set.ranges();       // [(0, 767)]
    /// ```
    pub fn from_ranges<I: IntoIterator<Item = (P::R, P::R)> + Drop>(
        alloc: A,
        ranges: I,
    ) -> Result<Self, AllocError>
        requires { (it : I.IntoIter) → I.into_iter_gives ranges it
            → I.IntoIter.can_next it × IsFinite (I.IntoIter.remaining it) }
        ensures { IfOk result
            (λ set. (it : I.IntoIter) × (xs : List (P.R × P.R)) × I.into_iter_gives ranges it
            × Drains I.IntoIter.next_gives it xs
            × ((n : ℕ) → n < 2 ^ P.R.bit_width
            → has_address set n ≡ list_any (is_in_range P.R.bits n) xs)) }
    {
        let mut builder = AddressSetBuilder::new(alloc)?;
        add_ranges(&mut builder, ranges)?;
        builder.finish()
    }

    /// Creates the set of the addresses of networks.
    ///
    /// The networks come in any order. They are sorted once, and not at all if they come in order. Requires that the
    /// iterator ends and that each of its networks fits.
    ///
    /// # Errors
    ///
    /// Returns an error if an allocation fails. No set exists then.
    ///
    /// # Examples
    ///
    /// ```rust
    /// let networks = vec![in alloc; "10.128.0.0/9".parse::<Ipv4Prefix>()?, "10.0.0.0/9".parse()?]?;
    /// let set = AddressSet::from_networks(alloc, networks)?;
    /// set.networks();     // [10.0.0.0/8]
    /// ```
    pub fn from_networks<I: IntoIterator<Item = P> + Drop>(
        alloc: A,
        networks: I,
    ) -> Result<Self, AllocError>
        requires ends { (it : I.IntoIter) → I.into_iter_gives networks it
            → I.IntoIter.can_next it × IsFinite (I.IntoIter.remaining it) }
        requires fit { (it : I.IntoIter) → I.into_iter_gives networks it
            → HoldsAlong I.IntoIter.next_gives it (All P.IsFitting) }
        ensures { IfOk result
            (λ set. (it : I.IntoIter) × (xs : List P) × I.into_iter_gives networks it
            × Drains I.IntoIter.next_gives it xs
            × ((n : ℕ) → n < 2 ^ P.R.bit_width
            → has_address set n ≡ list_any (is_in_network P.R.bit_width P.path n) xs)) }
    {
        let mut builder = AddressSetBuilder::new(alloc)?;
        add_networks(&mut builder, networks)?;
        builder.finish()
    }
}

/// Adds the ranges of an iterator.
fn add_ranges<P: Prefix, A: Allocator + Clone, I: IntoIterator<Item = (P::R, P::R)> + Drop>(
    builder: &mut AddressSetBuilder<P, A>,
    ranges: I,
) -> Result<(), AllocError>
    requires { (it : I.IntoIter) → I.into_iter_gives ranges it
        → I.IntoIter.can_next it × IsFinite (I.IntoIter.remaining it) }
    ensures { OnOk result
        ((it : I.IntoIter) × (xs : List (P.R × P.R)) × I.into_iter_gives ranges it
        × Drains I.IntoIter.next_gives it xs
        × ((n : ℕ) → n < 2 ^ P.R.bit_width → gathered builder.new n
        ≡ (gathered builder.old n || list_any (is_in_range P.R.bits n) xs))) }
{
    for (first, last) in ranges {
        builder.add_range(first, last)?;
    }
    Ok(())
}

/// Adds the networks of an iterator.
fn add_networks<P: Prefix, A: Allocator + Clone, I: IntoIterator<Item = P> + Drop>(
    builder: &mut AddressSetBuilder<P, A>,
    networks: I,
) -> Result<(), AllocError>
    requires ends { (it : I.IntoIter) → I.into_iter_gives networks it
        → I.IntoIter.can_next it × IsFinite (I.IntoIter.remaining it) }
    requires fit { (it : I.IntoIter) → I.into_iter_gives networks it
        → HoldsAlong I.IntoIter.next_gives it (All P.IsFitting) }
    ensures { OnOk result
        ((it : I.IntoIter) × (xs : List P) × I.into_iter_gives networks it
        × Drains I.IntoIter.next_gives it xs
        × ((n : ℕ) → n < 2 ^ P.R.bit_width → gathered builder.new n
        ≡ (gathered builder.old n || list_any (is_in_network P.R.bit_width P.path n) xs))) }
{
    for network in networks {
        builder.add_network(&network)?;
    }
    Ok(())
}
