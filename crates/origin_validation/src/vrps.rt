//! Tables of VRPs.
ghost use Rattle.std.specs.Prelude.{◌≡◌, ◌+◌, ◌-◌, ◌*◌, ◌^◌, ◌<◌, IfErr, IfOk, length};
ghost use Rattle.prefix_trie_bits.specs.declared.prefix.Refusal.TheVariants.{IndexRange};
ghost use Rattle.origin_validation.specs.Validation.{IsValidity};

use crate::chains::{append, matching, none};
use crate::validity::Validity;
use crate::vrp::Vrp;
use prefix_trie::Refusal;
use prefix_trie::laws::match_laws;
use prefix_trie_joint::{IpPrefix, JointPrefixMap};
use std::alloc::Allocator;
use std::marker::Model;

/// A table of VRPs, in memory of the allocator `A`.
///
/// Several VRPs may have one prefix. Contracts see the list of the VRPs, in the order in which they were given.
#[derive(Drop)]
pub struct Vrps<A: Allocator> {
    vrps: Vec<Vrp, A>,
    /// For each VRP the index of the last one before it that has the same prefix.
    older: Vec<Option<u32>, A>,
    /// For each prefix the index of its last VRP.
    latest: JointPrefixMap<u32, A>,
}

impl<A: Allocator> Model for Vrps<A> {
    ghost use Rattle.std.specs.Prelude.{List, length};
    ghost use Rattle.prefix_trie_joint.specs.Joined.{entries_of};
    ghost use Rattle.origin_validation.specs.Chains.{AreIndexed};
    ghost use Rattle.origin_validation.specs.declared.vrp.Vrp.{Vrp};

    ghost Value = { List Vrp };

    ghost view = { λ table. table.vrps.items };

    ghost invariant = { λ table. AreIndexed (length table.vrps.items) table.vrps.items table.older.items (entries_of table.latest) };
}

impl<A: Allocator + Clone> Vrps<A> {
    /// Creates a table of these VRPs, with clones of the allocator for what finds them.
    ///
    /// # Errors
    ///
    /// Returns `Memory` if an allocation fails, and `IndexRange` if there are too many VRPs: each makes at most 56 slots of an
    /// array of `u32::MAX` slots. No table exists then, and the VRPs are dropped.
    ///
    /// # Examples
    ///
    /// ```rust
    /// let vrp = Vrp { prefix: "10.0.0.0/8".parse()?, max_len: 16, origin: 64500 };
    /// Vrps::new(vec![in alloc; vrp, vrp]?, alloc)?.vrps().len();      // 2
    /// ```
    pub fn new(vrps: Vec<Vrp, A>, alloc: A) -> Result<Self, Refusal>
        ensures vrps { IfOk result (λ table. table ≡ vrps.items) }
        ensures range { IfErr result (λ cause. cause ≡ IndexRange
            → 2 ^ 32 - 1 < 1 + 56 * length vrps.items) }
    {
        let Ok(count) = u32::try_from(vrps.len()) else {
            return Err(Refusal::IndexRange);
        };
        let Ok(second) = alloc.clone() else {
            return Err(Refusal::Memory);
        };
        let mut older = Vec::new(second);
        let mut latest = none(alloc)?;
        for index in 0..count {
            let before = append(&mut latest, vrps[index as usize].prefix, index)?;
            let Ok(()) = older.push(before) else {
                return Err(Refusal::Memory);
            };
        }
        Ok(Vrps {
            vrps,
            older,
            latest,
        })
    }
}

impl<A: Allocator> Vrps<A> {
    /// Returns the VRPs, in the order in which they were given.
    ///
    /// # Examples
    ///
    /// ```rust
    /// let vrp = Vrp { prefix: "10.0.0.0/8".parse()?, max_len: 16, origin: 64500 };
    /// Vrps::new(vec![in alloc; vrp]?, alloc)?.vrps() == [vrp].as_slice();     // true
    /// ```
    #[inline]
    pub fn vrps(&self) -> &[Vrp]
        ensures { result.now ≡ self.now }
    {
        &self.vrps
    }

    /// Returns the validation state of a route, with a VRP that decides.
    ///
    /// The origin is `None` if the route's path ends in a set of ASs, and then no VRP matches the route. The walk over the
    /// covering prefixes has at most 129 steps, and a prefix costs one step for each of its VRPs.
    ///
    /// # Examples
    ///
    /// ```rust
    /// let wide = Vrp { prefix: "10.0.0.0/8".parse()?, max_len: 16, origin: 64500 };
    /// let narrow = Vrp { prefix: "10.1.0.0/16".parse()?, max_len: 16, origin: 64501 };
    /// let vrps = Vrps::new(vec![in alloc; wide, narrow]?, alloc)?;
    /// vrps.validate(&"10.1.0.0/16".parse()?, Some(64500)) == Validity::Valid(wide);       // true
    /// vrps.validate(&"10.1.0.0/16".parse()?, Some(64502)) == Validity::Invalid(narrow);   // true
    /// vrps.validate(&"10.1.0.0/16".parse()?, None) == Validity::Invalid(narrow);          // true
    /// vrps.validate(&"0.0.0.0/0".parse()?, Some(64500));                                  // NotFound
    /// ```
    pub fn validate(&self, route: &IpPrefix, origin: Option<u32>) -> Validity
        ensures { IsValidity self.now route.now origin result }
    {
        match_laws::<u32>();
        let mut longest = None;
        for latest in self.latest.cover_values(route) {
            if let Some(vrp) = matching(&self.vrps, &self.older, *latest, route, origin) {
                return Validity::Valid(vrp);
            }
            longest = Some(*latest);
        }
        match longest {
            Some(latest) => Validity::Invalid(self.vrps[latest as usize]),
            None => Validity::NotFound,
        }
    }
}
