//! The first networks that have no address of a set.
ghost use Rattle.std.specs.Prelude.{◌≡◌, ◌≤◌, Bool, List, MatchOption, length, true};
ghost use Rattle.prefix_trie_bits.specs.Model.Bits.{begins};
ghost use Rattle.address_ranges.specs.Networks.{IsFree, first_address};
ghost use Rattle.address_ranges.specs.Walks.{IsBare};

use crate::builder::ends_of;
use crate::left::Left;
use crate::networks::NetworksOfLength;
use crate::set::AddressSet;
use prefix_trie_bits::prefix::{Key, Prefix};
use std::alloc::Allocator;

impl<P: Prefix, A: Allocator> AddressSet<P, A> {
    /// Returns the first network of a length that lies within a network and has no address of the set, or `None` if there is
    /// none.
    ///
    /// It has no host bits. The call finds the place of the network by a binary search, and reads the ranges from there up to
    /// the result. It does not allocate. Requires that the network fits, and that the length is at most the width.
    ///
    /// # Examples
    ///
    /// ```rust
    /// // set = {10.0.0.0/24, 10.0.2.0/24}
    /// set.first_free_within(24, &"10.0.0.0/8".parse()?);      // Some(10.0.1.0/24)
    /// set.first_free_within(23, &"10.0.0.0/8".parse()?);      // Some(10.0.4.0/23)
    /// set.first_free_within(23, &"10.0.0.0/22".parse()?);     // None
    /// ```
    pub fn first_free_within(&self, len: u8, within: &P) -> Option<P>
        requires short { len ≤ P.R.bit_width }
        requires fits { P.IsFitting within.now }
        ensures { MatchOption result
            ((t : List Bool) → length t ≡ len → begins (P.path within.now) t ≡ true
            → IsFree P.R.bit_width self.now t → ⊥)
            (λ p. IsBare P.IsFitting P.back P.path p × (length (P.path p) ≡ len)
            × (begins (P.path within.now) (P.path p) ≡ true)
            × IsFree P.R.bit_width self.now (P.path p)
            × ((t : List Bool) → length t ≡ len → begins (P.path within.now) t ≡ true
            → IsFree P.R.bit_width self.now t
            → first_address P.R.bit_width (P.path p) ≤ first_address P.R.bit_width t)) }
    {
        let (first, _) = ends_of(within);
        let left = Left::of_complement_from(&self.breaks, first);
        let free = NetworksOfLength::new(left, len).next()?;
        if within.contains(&free) {
            Some(free)
        } else {
            None
        }
    }
}
