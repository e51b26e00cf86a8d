//! Sets of ranges and networks that come in any order.
ghost use Rattle.std.specs.Prelude.{◌≡◌, ℕ, ◌^◌, ◌<◌, ◌||◌, [], IfOk, OnErr, OnOk};
ghost use Rattle.prefix_trie_bits.specs.Model.Bits.{number};
ghost use Rattle.address_ranges.specs.Breaks.{has_address};
ghost use Rattle.address_ranges.specs.Builders.{gathered};
ghost use Rattle.address_ranges.specs.Appends.{end_of, is_inside};
ghost use Rattle.address_ranges.specs.Networks.{first_address, is_between, past_address};

mod ends;
mod sorted;

use crate::append::{push_range, start_by};
use crate::operation::Union;
use crate::order::order;
use crate::set::AddressSet;
use crate::sweep::combined;
pub(crate) use ends::{after, ends_of};
use prefix_trie_bits::prefix::Prefix;
use sorted::sorted_breaks;
use std::alloc::{AllocError, Allocator};
use std::marker::{Model, PhantomData};

/// Builds a set of ranges and networks that come in any order.
///
/// A range that begins at the last range of the set or after it is added at once, in constant time. The other ranges
/// are kept, and `finish` sorts them once.
///
/// # Examples
///
/// ```rust
/// let mut builder = AddressSetBuilder::new(alloc)?;
/// builder.add_network(&"10.128.0.0/9".parse::<Ipv4Prefix>()?)?;
/// builder.add_range(0x0a000000, 0x0a7fffff)?;
/// builder.finish()?.collect_networks(alloc)?;     // [10.0.0.0/8]
/// ```
#[derive(Drop)]
pub struct AddressSetBuilder<P: Prefix, A: Allocator> {
    breaks: Vec<P::R, A>,
    later: Vec<(P::R, Option<P::R>), A>,
    marker: PhantomData<P>,
}

// Contracts see the breakpoints, and the ranges that are kept.
impl<P: Prefix, A: Allocator> Model for AddressSetBuilder<P, A> {
    ghost use Rattle.std.specs.Prelude.{List, ℕ};
    ghost use Rattle.address_ranges.specs.Breaks.{AreBreaks, numbers};
    ghost use Rattle.address_ranges.specs.Builders.{AreSome, ranges_as_numbers};

    ghost Value = { List ℕ × List (ℕ × ℕ) };

    ghost view = { λ builder. (
      numbers P.R.bits builder.breaks.items,
      ranges_as_numbers P.R.bit_width P.R.bits builder.later.items,
    ) };

    ghost invariant = { λ builder. AreBreaks P.R.bit_width (numbers P.R.bits builder.breaks.items)
        × AreSome (ranges_as_numbers P.R.bit_width P.R.bits builder.later.items) };
}

impl<P: Prefix, A: Allocator + Clone> AddressSetBuilder<P, A> {
    /// Creates a builder without addresses.
    ///
    /// # Errors
    ///
    /// Returns an error if the allocator cannot be cloned.
    pub fn new(alloc: A) -> Result<Self, AllocError>
        ensures { IfOk result (λ builder. builder ≡ ([], [])) }
    {
        let other = alloc.clone()?;
        Ok(AddressSetBuilder {
            breaks: Vec::new(alloc),
            later: Vec::new(other),
            marker: PhantomData,
        })
    }

    /// Adds the addresses from `first` to `last`. There are none if `last` is before `first`.
    ///
    /// # Errors
    ///
    /// Returns an error if an allocation fails. The addresses are unchanged then.
    pub fn add_range(&mut self, first: P::R, last: P::R) -> Result<(), AllocError>
        ensures added { OnOk result ((n : ℕ) → n < 2 ^ P.R.bit_width → gathered self.new n
            ≡ (gathered self.old n
            || is_between (number (P.R.bits first)) (number (P.R.bits last)) n)) }
        ensures unchanged { OnErr result (self.new ≡ self.old) }
    {
        if order(last, first).is_lt() {
            return Ok(());
        }
        self.add(first, after(last))
    }

    /// Adds the addresses of a network.
    ///
    /// Requires that the network fits.
    ///
    /// # Errors
    ///
    /// Returns an error if an allocation fails. The addresses are unchanged then.
    pub fn add_network(&mut self, network: &P) -> Result<(), AllocError>
        requires { P.IsFitting network.now }
        ensures added { OnOk result ((n : ℕ) → n < 2 ^ P.R.bit_width → gathered self.new n
            ≡ (gathered self.old n
            || is_inside (first_address P.R.bit_width (P.path network.now))
            (past_address P.R.bit_width (P.path network.now)) n)) }
        ensures unchanged { OnErr result (self.new ≡ self.old) }
    {
        let (first, past) = ends_of(network);
        self.add(first, past)
    }

    /// Adds the addresses from `first` on and before `past`. `None` is the end of all addresses.
    fn add(&mut self, first: P::R, past: Option<P::R>) -> Result<(), AllocError>
        requires { number (P.R.bits first) < end_of P.R.bit_width P.R.bits past }
        ensures added { OnOk result ((n : ℕ) → n < 2 ^ P.R.bit_width → gathered self.new n
            ≡ (gathered self.old n
            || is_inside (number (P.R.bits first)) (end_of P.R.bit_width P.R.bits past) n)) }
        ensures unchanged { OnErr result (self.new ≡ self.old) }
    {
        if start_by(&self.breaks, first) {
            push_range(&mut self.breaks, first, past)
        } else {
            self.later.push((first, past))?;
            Ok(())
        }
    }

    /// Returns the set of the addresses.
    ///
    /// # Errors
    ///
    /// Returns an error if an allocation fails.
    pub fn finish(self) -> Result<AddressSet<P, A>, AllocError>
        ensures { IfOk result (λ set. (n : ℕ) → n < 2 ^ P.R.bit_width
            → has_address set n ≡ gathered self n) }
    {
        let AddressSetBuilder {
            breaks,
            mut later,
            marker: _,
        } = self;
        if later.is_empty() {
            return Ok(AddressSet::of_breaks(breaks));
        }
        let alloc = later.allocator().clone()?;
        let other = later.allocator().clone()?;
        let sorted = sorted_breaks(&mut later, alloc)?;
        Ok(AddressSet::of_breaks(combined::<Union, P::R, A>(&breaks, &sorted, other)?))
    }
}
