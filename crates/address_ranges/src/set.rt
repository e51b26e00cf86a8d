//! Sets of addresses.
//!
//! A set is stored as breakpoints: the addresses at which membership changes, in order.
ghost use Rattle.std.specs.Prelude.{◌≡◌, ◌↔◌, ℕ, ◌||◌, ◌&&◌, ◌+◌, ◌/◌, ◌<◌, ◌≤◌, ◌^◌, [], All, Bool, IfOk, IsTrue, List, MatchOption, OnErr, OnOk, bytes_eq, false, length, map, not, true};
ghost use Rattle.prefix_trie_bits.specs.Model.Bits.{number};
ghost use Rattle.address_ranges.specs.Appends.{end_of, is_inside};
ghost use Rattle.address_ranges.specs.Breaks.{AreBreaks, has_address, numbers};
ghost use Rattle.address_ranges.specs.Counts.{count_below, count_of};
ghost use Rattle.address_ranges.specs.Networks.{AreFewest, IsFree, IsInside, first_address, is_between};
ghost use Rattle.address_ranges.specs.Ranges.{ranges_of};
ghost use Rattle.address_ranges.specs.Walks.{IsBare};

mod collecting;
mod free;

use crate::append::{push_range, start_by};
use crate::builder::{after, ends_of};
use crate::count::{AddressCount, address_count};
use crate::covers::has_all;
use crate::laws::network_laws;
use crate::left::Left;
use crate::networks::{Networks, NetworksOfLength};
use crate::operation::{Difference, Intersection, Operation, SymmetricDifference, Union};
use crate::order::order;
use crate::ranges::Ranges;
use crate::rank::rank;
use crate::same::are_same;
use crate::sweep::{combined, keeps_any};
use crate::toggle::toggled;
use prefix_trie_bits::prefix::{Key, Prefix};
use std::alloc::{AllocError, Allocator};
use std::fmt::{self, Debug, Formatter, Write};
use std::marker::{Model, PhantomData};

/// A set of addresses of one family, as sorted ranges.
///
/// No two ranges touch, so each set of addresses has exactly one form, and `==` compares addresses. A range takes two
/// numbers. An operation on two sets reads each of them once.
///
/// # Examples
///
/// ```rust
/// // set = {10.128.0.0/9, 10.0.0.0/9}
/// set.len();              // 1: one range
/// set.networks();         // [10.0.0.0/8]
/// ```
#[derive(Drop)]
pub struct AddressSet<P: Prefix, A: Allocator> {
    breaks: Vec<P::R, A>,
    marker: PhantomData<P>,
}

// Contracts see the breakpoints as numbers.
impl<P: Prefix, A: Allocator> Model for AddressSet<P, A> {
    ghost use Rattle.std.specs.Prelude.{List, ℕ};
    ghost use Rattle.address_ranges.specs.Breaks.{AreBreaks, numbers};

    ghost Value = { List ℕ };

    ghost view = { λ set. numbers P.R.bits set.breaks.items };

    ghost invariant = { λ set. AreBreaks P.R.bit_width (numbers P.R.bits set.breaks.items) };
}

impl<P: Prefix, A: Allocator> PartialEq for AddressSet<P, A> {
    ghost eq = { λ a b. bytes_eq a b };

    ghost use Rattle.std.proofs.Common.{rules};
    ghost use Rattle.std.specs.Cmp.Rules.{comparing};

    ghost laws = { Prim.search (comparing, rules) };

    /// Returns whether the sets have the same addresses.
    fn eq(&self, other: &Self) -> bool {
        are_same(&self.breaks, &other.breaks)
    }
}

impl<P: Prefix, A: Allocator> Debug for AddressSet<P, A> {
    /// Writes the ranges in order: the first and the last address of each.
    fn fmt<W: Write>(&self, f: &mut Formatter<W>) -> fmt::Result {
        f.debug_set().entries(self.ranges()).finish()
    }
}

impl<P: Prefix, A: Allocator> AddressSet<P, A> {
    /// Creates an empty set.
    ///
    /// # Examples
    ///
    /// ```rust
    /// let set: AddressSet<Ipv4Prefix, Global> = AddressSet::new(alloc);
    /// set.is_empty();     // true
    /// ```
    pub fn new(alloc: A) -> Self
        ensures { result ≡ [] }
    {
        AddressSet {
            breaks: Vec::new(alloc),
            marker: PhantomData,
        }
    }

    /// Returns the set with these breakpoints.
    pub(crate) fn of_breaks(breaks: Vec<P::R, A>) -> Self
        requires { AreBreaks P.R.bit_width (numbers P.R.bits breaks.items) }
        ensures { result ≡ numbers P.R.bits breaks.items }
    {
        AddressSet {
            breaks,
            marker: PhantomData,
        }
    }

    /// Returns the number of ranges.
    ///
    /// # Examples
    ///
    /// ```rust
    /// // set = {10.0.0.0/9, 10.128.0.0/9, 192.0.2.0/24}
    /// set.len();      // 2: the first two networks touch
    /// ```
    pub fn len(&self) -> usize
        ensures { result ≡ (length self.now + 1) / 2 }
    {
        self.breaks.len().div_ceil(2)
    }

    /// Returns the number of addresses.
    ///
    /// It reads each range once.
    ///
    /// # Examples
    ///
    /// ```rust
    /// // set = {192.0.2.0/24, 192.0.2.128/25}
    /// set.address_count();        // Number(256)
    /// ```
    pub fn address_count(&self) -> AddressCount
        ensures { count_of result ≡ count_below (has_address self.now) (2 ^ P.R.bit_width) }
    {
        address_count(&self.breaks)
    }

    /// Returns whether the set has no address.
    ///
    /// # Examples
    ///
    /// ```rust
    /// // set = {10.0.0.0/8}
    /// set.is_empty();     // false
    /// ```
    pub fn is_empty(&self) -> bool
        ensures { IsTrue result ↔ (self.now ≡ []) }
    {
        self.breaks.is_empty()
    }

    /// Returns whether the set has an address.
    ///
    /// It is a binary search.
    ///
    /// # Examples
    ///
    /// ```rust
    /// // set = {10.0.0.0/8}
    /// set.contains(0x0a000001);       // true: 10.0.0.1
    /// set.contains(0x0b000000);       // false: 11.0.0.0
    /// ```
    pub fn contains(&self, address: P::R) -> bool
        ensures { result ≡ has_address self.now (number (P.R.bits address)) }
    {
        rank(&self.breaks, address) % 2 == 1
    }

    /// Returns whether the set has each address of a network.
    ///
    /// Requires that the network fits.
    ///
    /// # Examples
    ///
    /// ```rust
    /// // set = {10.0.0.0/9, 10.128.0.0/9}
    /// set.covers(&"10.0.0.0/8".parse()?);     // true
    /// set.covers(&"10.0.0.0/7".parse()?);     // false
    /// ```
    pub fn covers(&self, network: &P) -> bool
        requires { P.IsFitting network.now }
        ensures { IsTrue result
            ↔ IsInside P.R.bit_width (has_address self.now) (P.path network.now) }
    {
        let (first, past) = ends_of(network);
        has_all(&self.breaks, first, past)
    }

    /// Adds the addresses from `first` to `last`. There are none if `last` is before `first`.
    ///
    /// A range that begins at the last range of the set or after it is added in constant time. Another one makes a new
    /// list.
    ///
    /// # Errors
    ///
    /// Returns an error if an allocation fails. The set is unchanged then.
    ///
    /// # Examples
    ///
    /// ```rust
    /// // set = {10.0.0.0/24}
    /// set.insert_range(0x0a000100, 0x0a0001ff)?;
    /// set.networks();     // [10.0.0.0/23]
    /// ```
    pub fn insert_range(&mut self, first: P::R, last: P::R) -> Result<(), AllocError>
    where
        A: Clone,
        ensures added { OnOk result ((n : ℕ) → n < 2 ^ P.R.bit_width → has_address self.new n
            ≡ (has_address self.old n
            || is_between (number (P.R.bits first)) (number (P.R.bits last)) n)) }
        ensures unchanged { OnErr result (self.new ≡ self.old) }
    {
        if order(last, first).is_lt() {
            return Ok(());
        }
        let past = after(last);
        if start_by(&self.breaks, first) {
            return push_range(&mut self.breaks, first, past);
        }
        let alloc = self.breaks.allocator().clone()?;
        let range = range_of(first, past, self.breaks.allocator().clone()?)?;
        self.breaks = combined::<Union, P::R, A>(&self.breaks, &range, alloc)?;
        Ok(())
    }

    /// Returns the set of the addresses that either set has.
    ///
    /// # Errors
    ///
    /// Returns an error if an allocation fails.
    ///
    /// # Examples
    ///
    /// ```rust
    /// // set = {10.0.0.0/9}
    /// // other = {10.128.0.0/9}
    /// set.union(&other, alloc)?.collect_networks(alloc)?;      // [10.0.0.0/8]
    /// ```
    pub fn union<B: Allocator, C: Allocator>(
        &self,
        other: &AddressSet<P, B>,
        alloc: C,
    ) -> Result<AddressSet<P, C>, AllocError>
        ensures { IfOk result (λ set. (n : ℕ) → has_address set n
            ≡ (has_address self.now n || has_address other.now n)) }
    {
        combination::<Union, P, A, B, C>(self, other, alloc)
    }

    /// Returns the set of the addresses that both sets have.
    ///
    /// # Errors
    ///
    /// Returns an error if an allocation fails.
    ///
    /// # Examples
    ///
    /// ```rust
    /// // set = {10.0.0.0/8}
    /// // other = {10.1.0.0/16, 11.0.0.0/8}
    /// set.intersection(&other, alloc)?.collect_networks(alloc)?;       // [10.1.0.0/16]
    /// ```
    pub fn intersection<B: Allocator, C: Allocator>(
        &self,
        other: &AddressSet<P, B>,
        alloc: C,
    ) -> Result<AddressSet<P, C>, AllocError>
        ensures { IfOk result (λ set. (n : ℕ) → has_address set n
            ≡ (has_address self.now n && has_address other.now n)) }
    {
        combination::<Intersection, P, A, B, C>(self, other, alloc)
    }

    /// Returns the set of the addresses of this set that the other one does not have.
    ///
    /// # Errors
    ///
    /// Returns an error if an allocation fails.
    ///
    /// # Examples
    ///
    /// ```rust
    /// // set = {10.0.0.0/8}
    /// // other = {10.0.0.0/9}
    /// set.difference(&other, alloc)?.collect_networks(alloc)?;     // [10.128.0.0/9]
    /// ```
    pub fn difference<B: Allocator, C: Allocator>(
        &self,
        other: &AddressSet<P, B>,
        alloc: C,
    ) -> Result<AddressSet<P, C>, AllocError>
        ensures { IfOk result (λ set. (n : ℕ) → has_address set n
            ≡ (has_address self.now n && not (has_address other.now n))) }
    {
        combination::<Difference, P, A, B, C>(self, other, alloc)
    }

    /// Returns the set of the addresses that exactly one of the sets has.
    ///
    /// # Errors
    ///
    /// Returns an error if an allocation fails.
    ///
    /// # Examples
    ///
    /// ```rust
    /// // set = {10.0.0.0/8}
    /// // other = {10.0.0.0/9, 11.0.0.0/8}
    /// set.symmetric_difference(&other, alloc)?.collect_networks(alloc)?;       // [10.128.0.0/9, 11.0.0.0/8]
    /// ```
    pub fn symmetric_difference<B: Allocator, C: Allocator>(
        &self,
        other: &AddressSet<P, B>,
        alloc: C,
    ) -> Result<AddressSet<P, C>, AllocError>
        ensures { IfOk result (λ set. (n : ℕ) → has_address set n
            ≡ ((has_address self.now n && not (has_address other.now n))
            || (not (has_address self.now n) && has_address other.now n))) }
    {
        combination::<SymmetricDifference, P, A, B, C>(self, other, alloc)
    }

    /// Returns the set of the addresses that this one does not have.
    ///
    /// # Errors
    ///
    /// Returns an error if an allocation fails.
    ///
    /// # Examples
    ///
    /// ```rust
    /// // set = {128.0.0.0/1}
    /// set.complement(alloc)?.collect_networks(alloc)?;     // [0.0.0.0/1]
    /// ```
    pub fn complement<B: Allocator>(&self, alloc: B) -> Result<AddressSet<P, B>, AllocError>
        ensures { IfOk result (λ set. (n : ℕ) → has_address set n
            ≡ not (has_address self.now n)) }
    {
        Ok(AddressSet::of_breaks(toggled(&self.breaks, alloc)?))
    }

    /// Returns the ranges in order: the first and the last address of each.
    ///
    /// # Examples
    ///
    /// ```rust
    /// // set = {0.0.0.0/24, 0.0.2.0/24}
    /// set.ranges();       // [(0, 255), (512, 767)]
    /// ```
    pub fn ranges(&self) -> Ranges<'_, P::R>
        ensures { result ≡ ranges_of P.R.bit_width self.now }
    {
        Ranges::new(&self.breaks)
    }

    /// Returns the fewest networks that cover the addresses of the set, in order.
    ///
    /// They cover no other address, and no two of them cover the same one. The walk does not allocate. `network_laws`
    /// says what all its networks are.
    ///
    /// # Examples
    ///
    /// ```rust
    /// // set = {10.0.0.0/9, 10.128.0.0/10}
    /// set.networks();     // [10.0.0.0/9, 10.128.0.0/10]
    /// ```
    pub fn networks(&self) -> Networks<'_, P>
        ensures { result ≡ self.now }
    {
        Networks::new(&self.breaks)
    }

    /// Returns a list of the fewest networks that cover the addresses of the set, in order.
    ///
    /// None has host bits.
    ///
    /// # Errors
    ///
    /// Returns an error if an allocation fails.
    ///
    /// # Examples
    ///
    /// ```rust
    /// // set = {10.0.0.0/9, 10.128.0.0/9}
    /// set.collect_networks(alloc)?;       // [10.0.0.0/8]
    /// ```
    pub fn collect_networks<B: Allocator>(&self, alloc: B) -> Result<Vec<P, B>, AllocError>
        ensures fit { IfOk result (λ networks. All P.IsFitting networks.items) }
        ensures bare { IfOk result (λ networks. All (λ p. P.back (P.path p) ≡ p) networks.items) }
        ensures fewest { IfOk result (λ networks. AreFewest P.R.bit_width
            (has_address self.now) (map P.path networks.items)) }
    {
        network_laws::<P>();
        self.networks().collect(alloc)
    }

    /// Returns the networks of a length whose addresses are all in the set, in order.
    ///
    /// The walk does not allocate. `network_laws` says what all its networks are. Requires that the length is at most
    /// the width.
    ///
    /// # Examples
    ///
    /// ```rust
    /// // set = {10.0.0.0/22, 10.0.4.0/24}
    /// set.networks_of_length(23);     // [10.0.0.0/23, 10.0.2.0/23]
    /// ```
    pub fn networks_of_length(&self, len: u8) -> NetworksOfLength<'_, P>
        requires { len ≤ P.R.bit_width }
        ensures { result ≡ (len, self.now) }
    {
        NetworksOfLength::new(Left::of_set(&self.breaks), len)
    }

    /// Returns the first network of a length that has no address of the set, or `None` if there is none.
    ///
    /// It has no host bits. The call reads the ranges up to that network. Requires that the length is at most the width.
    ///
    /// # Examples
    ///
    /// ```rust
    /// // set = {0.0.0.0/1, 128.0.0.0/8}
    /// set.first_free(8);      // Some(129.0.0.0/8)
    /// set.first_free(1);      // None
    /// ```
    pub fn first_free(&self, len: u8) -> Option<P>
        requires { len ≤ P.R.bit_width }
        ensures { MatchOption result
            ((t : List Bool) → length t ≡ len → IsFree P.R.bit_width self.now t → ⊥)
            (λ p. IsBare P.IsFitting P.back P.path p × (length (P.path p) ≡ len)
            × IsFree P.R.bit_width self.now (P.path p)
            × ((t : List Bool) → length t ≡ len → IsFree P.R.bit_width self.now t
            → first_address P.R.bit_width (P.path p) ≤ first_address P.R.bit_width t)) }
    {
        NetworksOfLength::new(Left::of_complement(&self.breaks), len).next()
    }

    /// Returns whether the other set has each address of this one.
    ///
    /// It does not allocate, and stops at the first address that the other set does not have.
    ///
    /// # Examples
    ///
    /// ```rust
    /// // set = {10.0.0.0/9}
    /// // other = {10.0.0.0/8}
    /// set.is_subset(&other);      // true
    /// ```
    pub fn is_subset<B: Allocator>(&self, other: &AddressSet<P, B>) -> bool
        ensures { IsTrue result ↔ ((n : ℕ) → n < 2 ^ P.R.bit_width
            → has_address self.now n ≡ true → has_address other.now n ≡ true) }
    {
        !keeps_any::<Difference, P::R>(&self.breaks, &other.breaks)
    }

    /// Returns whether no address is in both sets.
    ///
    /// It does not allocate, and stops at the first address that both have.
    ///
    /// # Examples
    ///
    /// ```rust
    /// // set = {10.0.0.0/9}
    /// // other = {10.128.0.0/9}
    /// set.is_disjoint(&other);        // true
    /// ```
    pub fn is_disjoint<B: Allocator>(&self, other: &AddressSet<P, B>) -> bool
        ensures { IsTrue result ↔ ((n : ℕ) → n < 2 ^ P.R.bit_width
            → has_address self.now n ≡ true → has_address other.now n ≡ false) }
    {
        !keeps_any::<Intersection, P::R>(&self.breaks, &other.breaks)
    }
}

/// Returns the set of the addresses that an operation keeps.
fn combination<O: Operation, P: Prefix, A: Allocator, B: Allocator, C: Allocator>(
    left: &AddressSet<P, A>,
    right: &AddressSet<P, B>,
    alloc: C,
) -> Result<AddressSet<P, C>, AllocError>
    ensures { IfOk result (λ set. (n : ℕ) → has_address set n
        ≡ O.keeps (has_address left.now n) (has_address right.now n)) }
{
    Ok(AddressSet::of_breaks(combined::<O, P::R, C>(&left.breaks, &right.breaks, alloc)?))
}

/// Returns the breakpoints of a range.
fn range_of<K: Key, A: Allocator>(
    first: K,
    past: Option<K>,
    alloc: A,
) -> Result<Vec<K, A>, AllocError>
    requires { number (K.bits first) < end_of K.bit_width K.bits past }
    ensures breaks { IfOk result (λ out. AreBreaks K.bit_width (numbers K.bits out.items)) }
    ensures has { IfOk result (λ out. (n : ℕ) → n < 2 ^ K.bit_width
        → has_address (numbers K.bits out.items) n
        ≡ is_inside (number (K.bits first)) (end_of K.bit_width K.bits past) n) }
{
    let mut out = Vec::new(alloc);
    push_range(&mut out, first, past)?;
    Ok(out)
}

/// Returns the fewest networks that cover the addresses from `first` to `last`, in order.
///
/// They cover no other address, and no two of them cover the same one. None has host bits. The list is empty if `last`
/// is before `first`.
///
/// # Errors
///
/// Returns an error if an allocation fails.
///
/// # Examples
///
/// ```rust
/// networks_of::<Ipv4Prefix, Global>(0x0a000001, 0x0a000004, alloc)?;      // [10.0.0.1/32, 10.0.0.2/31, 10.0.0.4/32]
/// ```
pub fn networks_of<P: Prefix, A: Allocator + Clone>(
    first: P::R,
    last: P::R,
    alloc: A,
) -> Result<Vec<P, A>, AllocError>
    ensures fit { IfOk result (λ networks. All P.IsFitting networks.items) }
    ensures bare { IfOk result (λ networks. All (λ p. P.back (P.path p) ≡ p) networks.items) }
    ensures fewest { IfOk result (λ networks. AreFewest P.R.bit_width
        (is_between (number (P.R.bits first)) (number (P.R.bits last)))
        (map P.path networks.items)) }
{
    let mut range = AddressSet::new(alloc.clone()?);
    range.insert_range(first, last)?;
    range.collect_networks(alloc)
}
