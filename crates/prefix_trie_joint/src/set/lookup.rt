//! Lookups in a set by exact network, by longest match and by shortest match, and the number of covered addresses.
ghost use Rattle.std.specs.Prelude.{◌≡◌};
ghost use Rattle.std.specs.FinMap.{contains_key, get};
ghost use Rattle.std.specs.Option.{is_some, option_map};
ghost use Rattle.prefix_trie.specs.Terms.{address_total, longest_match, shortest_match};
ghost use Rattle.prefix_trie_joint.specs.Joined.{keys_of};
ghost use Rattle.prefix_trie_joint.specs.Networks.{ip_back, ip_path};

use crate::prefix::IpPrefix;
use crate::set::JointPrefixSet;
use prefix_trie::laws::network_laws;
use std::alloc::Allocator;

impl<A: Allocator> JointPrefixSet<A> {
    /// Returns whether exactly this network is in the set. Host bits are ignored.
    ///
    /// # Examples
    ///
    /// ```rust
    /// // set = {2001:db8::/32}
    /// set.contains(&"2001:db8::1/32".parse()?);       // true
    /// set.contains(&"0.0.0.0/0".parse()?);            // false
    /// ```
    #[inline(always)]
    #[tactic(auto, using(crate::proofs::Joined::get_ipv4, crate::proofs::Joined::get_ipv6))]
    pub fn contains(&self, prefix: &IpPrefix) -> bool
        ensures { result ≡ contains_key (keys_of self.now) (ip_path prefix.now) }
    {
        prefix.known_fitting();
        match prefix {
            IpPrefix::V4(network) => self.ipv4.contains(network),
            IpPrefix::V6(network) => self.ipv6.contains(network),
        }
    }

    /// Returns whether a network of the set contains this one. A stored network contains itself.
    ///
    /// # Examples
    ///
    /// ```rust
    /// // set = {10.0.0.0/8}
    /// set.is_covered(&"10.1.2.3/32".parse()?);        // true
    /// set.is_covered(&"2001:db8::/32".parse()?);      // false
    /// ```
    #[inline(always)]
    #[tactic(auto, using(crate::proofs::Matches::covered_ipv4, crate::proofs::Matches::covered_ipv6))]
    pub fn is_covered(&self, prefix: &IpPrefix) -> bool
        ensures { result ≡ is_some (shortest_match (keys_of self.now) (ip_path prefix.now)) }
    {
        prefix.known_fitting();
        match prefix {
            IpPrefix::V4(network) => self.ipv4.is_covered(network),
            IpPrefix::V6(network) => self.ipv6.is_covered(network),
        }
    }

    /// Returns this network without its host bits, if exactly it is in the set.
    ///
    /// # Examples
    ///
    /// ```rust
    /// // set = {10.1.0.0/16}
    /// set.get(&"10.1.2.3/16".parse()?);       // Some(V4(10.1.0.0/16))
    /// set.get(&"10.1.2.3/24".parse()?);       // None
    /// ```
    #[inline(always)]
    #[tactic(auto, using(crate::proofs::Matches::stored_network_ipv4, crate::proofs::Matches::stored_network_ipv6, crate::proofs::Joined::get_ipv4, crate::proofs::Joined::get_ipv6))]
    pub fn get(&self, prefix: &IpPrefix) -> Option<IpPrefix>
        ensures { result
            ≡ option_map (λ _. ip_back (ip_path prefix.now))
            (get (keys_of self.now) (ip_path prefix.now)) }
    {
        prefix.known_fitting();
        match prefix {
            IpPrefix::V4(network) => self.ipv4.get(network).map(IpPrefix::V4),
            IpPrefix::V6(network) => self.ipv6.get(network).map(IpPrefix::V6),
        }
    }

    /// Returns the longest network of the set that contains this one, without its host bits.
    ///
    /// # Examples
    ///
    /// ```rust
    /// // set = {10.0.0.0/8, 10.1.0.0/16}
    /// set.get_lpm(&"10.1.2.3/32".parse()?);       // Some(V4(10.1.0.0/16))
    /// set.get_lpm(&"2001:db8::/32".parse()?);     // None
    /// ```
    #[inline(always)]
    #[tactic(auto, using(crate::proofs::Matches::longest_prefix))]
    pub fn get_lpm(&self, prefix: &IpPrefix) -> Option<IpPrefix>
        ensures { result
            ≡ option_map (λ found. ip_back found.0)
            (longest_match (keys_of self.now) (ip_path prefix.now)) }
    {
        prefix.known_fitting();
        match prefix {
            IpPrefix::V4(network) => self.ipv4.get_lpm(network).map(IpPrefix::V4),
            IpPrefix::V6(network) => self.ipv6.get_lpm(network).map(IpPrefix::V6),
        }
    }

    /// Returns the shortest network of the set that contains this one, without its host bits.
    ///
    /// # Examples
    ///
    /// ```rust
    /// // set = {10.0.0.0/8, 10.1.0.0/16}
    /// set.get_spm(&"10.1.2.3/32".parse()?);       // Some(V4(10.0.0.0/8))
    /// set.get_spm(&"2001:db8::/32".parse()?);     // None
    /// ```
    #[inline(always)]
    #[tactic(auto, using(crate::proofs::Matches::shortest_prefix))]
    pub fn get_spm(&self, prefix: &IpPrefix) -> Option<IpPrefix>
        ensures { result
            ≡ option_map (λ found. ip_back found.0)
            (shortest_match (keys_of self.now) (ip_path prefix.now)) }
    {
        prefix.known_fitting();
        match prefix {
            IpPrefix::V4(network) => self.ipv4.get_spm(network).map(IpPrefix::V4),
            IpPrefix::V6(network) => self.ipv6.get_spm(network).map(IpPrefix::V6),
        }
    }

    /// Returns the number of IPv4 addresses and the number of IPv6 addresses that the networks contain.
    ///
    /// Each address is counted once. A number is `None` exactly if all addresses of the family are
    /// covered, since it does not fit then.
    ///
    /// # Examples
    ///
    /// ```rust
    /// // set = {192.0.2.0/24, 192.0.2.128/25, 2001:db8::/126}
    /// set.address_count();                    // (Some(256), Some(4))
    /// set.insert("::/0".parse()?)?;
    /// set.address_count();                    // (Some(256), None): 2^128 is no u128
    /// ```
    #[inline]
    pub fn address_count(&self) -> (Option<u32>, Option<u128>)
        ensures ipv4 { result.0 ≡ address_total 32 self.now.ipv4.entries }
        ensures ipv6 { result.1 ≡ address_total 128 self.now.ipv6.entries }
    {
        network_laws();
        (self.ipv4.address_count(), self.ipv6.address_count())
    }
}
