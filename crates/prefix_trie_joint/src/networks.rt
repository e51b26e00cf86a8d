//! Walks over networks of both families, without values.
ghost use Rattle.std.specs.Prelude.{◌≡◌, IfOk, length};
ghost use Rattle.std.specs.Iterator.{at_most};
ghost use Rattle.std.specs.Map.Iter.{TakesFirst};
ghost use Rattle.prefix_trie_joint.specs.Joined.{both_networks};

use crate::prefix::IpPrefix;
use prefix_trie::map::{IntoIter, Iter, Keyed, KeysOf};
use prefix_trie::{Ipv4Prefix, Ipv6Prefix};
use std::alloc::{AllocError, Allocator};
use std::marker::Model;

/// The networks of a walk of each family: IPv4 networks first, then IPv6 networks.
///
/// Contracts see the list of the networks still to come.
#[derive(Drop)]
pub struct Networks<I: Keyed<Key = Ipv4Prefix>, J: Keyed<Key = Ipv6Prefix>> {
    ipv4: KeysOf<I>,
    ipv6: KeysOf<J>,
}

impl<I: Keyed<Key = Ipv4Prefix>, J: Keyed<Key = Ipv6Prefix>> Model for Networks<I, J> {
    ghost use Rattle.std.specs.Prelude.{List};
    ghost use Rattle.prefix_trie_joint.specs.Joined.{both_networks};
    ghost use Rattle.prefix_trie_joint.specs.declared.prefix.IpPrefix.{IpPrefix};

    ghost Value = { List IpPrefix };

    ghost view = { λ it. both_networks it.ipv4 it.ipv6 };
}

impl<I: Keyed<Key = Ipv4Prefix>, J: Keyed<Key = Ipv6Prefix>> Networks<I, J> {
    /// Returns a walk over the networks that a walk of each family has still to give.
    #[inline]
    pub fn new(ipv4: KeysOf<I>, ipv6: KeysOf<J>) -> Self
        ensures { result ≡ both_networks ipv4 ipv6 }
    {
        Networks { ipv4, ipv6 }
    }
}

impl<'a, T: Drop, A: Allocator> Networks<Iter<'a, Ipv4Prefix, T, A>, Iter<'a, Ipv6Prefix, T, A>> {
    /// Returns a walk with the same networks to come.
    #[inline]
    pub fn clone(&self) -> Self
        ensures { result ≡ self.now }
    {
        Networks::new(self.ipv4.clone(), self.ipv6.clone())
    }
}

impl<T: Clone, A: Allocator + Clone> Networks<
    IntoIter<Ipv4Prefix, T, A>,
    IntoIter<Ipv6Prefix, T, A>,
> {
    /// Creates a walk with the same networks to come. It clones the values that are still there.
    ///
    /// # Errors
    ///
    /// Returns the same errors as `map::IntoIter::clone`.
    pub fn clone(&self) -> Result<Self, AllocError>
        ensures { IfOk result (λ copy. copy ≡ self.now) }
    {
        let ipv4 = self.ipv4.clone()?;
        let ipv6 = self.ipv6.clone()?;
        Ok(Networks::new(ipv4, ipv6))
    }
}

impl<I: Keyed<Key = Ipv4Prefix>, J: Keyed<Key = Ipv6Prefix>> Iterator for Networks<I, J> {
    type Item = IpPrefix;

    ghost next_gives = { TakesFirst (λ p. p) };

    ghost remaining = { λ items. at_most (length items) };

    #[inline]
    fn next(&mut self) -> Option<IpPrefix> {
        if let Some(network) = self.ipv4.next() {
            return Some(IpPrefix::V4(network));
        }
        let Some(network) = self.ipv6.next() else {
            return None;
        };
        Some(IpPrefix::V6(network))
    }
}
