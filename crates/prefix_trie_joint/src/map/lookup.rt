//! Lookups by exact network, by longest match and by shortest match, also for writing, and the number of covered addresses.
//!
//! A network of one family never matches one of the other.
ghost use Rattle.std.specs.Prelude.{◌≡◌};
ghost use Rattle.std.specs.FinMap.{contains_key, get};
ghost use Rattle.std.specs.Option.{is_some, option_copied, option_copied_mut, option_map};
ghost use Rattle.std.specs.Borrow.{sem};
ghost use Rattle.prefix_trie_map.specs.Walks.{lent_item_mut};
ghost use Rattle.prefix_trie.specs.Terms.{address_total, lent_item, longest_match, prefix_pair, shortest_match};
ghost use Rattle.prefix_trie_joint.specs.Joined.{entries_of};
ghost use Rattle.prefix_trie_joint.specs.Networks.{ip_back, ip_path};
ghost use Rattle.prefix_trie_joint.specs.Lending.{lends_longest_if, lends_value_if};

use crate::map::JointPrefixMap;
use crate::prefix::IpPrefix;
use crate::prefix::family::Family;
use prefix_trie::laws::network_laws;
use std::alloc::Allocator;

impl<T: Drop, A: Allocator> JointPrefixMap<T, A> {
    /// Returns the value stored for exactly this network. Host bits are ignored.
    ///
    /// # Examples
    ///
    /// ```rust
    /// // map = {10.1.0.0/16: 1, 2001:db8::/32: 2}
    /// map.get(&"10.1.2.3/16".parse()?);       // Some(1): host bits do not count
    /// map.get(&"2001:db8::/32".parse()?);     // Some(2)
    /// map.get(&"2001:db8::/33".parse()?);     // None
    /// ```
    #[inline(always)]
    #[tactic(auto, using(crate::proofs::Joined::get_ipv4, crate::proofs::Joined::get_ipv6))]
    pub fn get(&self, prefix: &IpPrefix) -> Option<&T>
        ensures { option_copied result ≡ get (entries_of self.now) (ip_path prefix.now) }
    {
        prefix.known_fitting();
        match prefix {
            IpPrefix::V4(network) => self.ipv4.get(network),
            IpPrefix::V6(network) => self.ipv6.get(network),
        }
    }

    /// Returns whether a value is stored for exactly this network. Host bits are ignored.
    ///
    /// # Examples
    ///
    /// ```rust
    /// // map = {2001:db8::/32: 1}
    /// map.contains_key(&"2001:db8::1/32".parse()?);   // true
    /// map.contains_key(&"0.0.0.0/0".parse()?);        // false
    /// ```
    #[inline(always)]
    #[tactic(auto, using(crate::proofs::Joined::get_ipv4, crate::proofs::Joined::get_ipv6))]
    pub fn contains_key(&self, prefix: &IpPrefix) -> bool
        ensures { result ≡ contains_key (entries_of self.now) (ip_path prefix.now) }
    {
        prefix.known_fitting();
        match prefix {
            IpPrefix::V4(network) => self.ipv4.contains_key(network),
            IpPrefix::V6(network) => self.ipv6.contains_key(network),
        }
    }

    /// Returns this network without its host bits, and the value stored for exactly this network.
    ///
    /// # Examples
    ///
    /// ```rust
    /// // map = {10.1.0.0/16: 1}
    /// map.get_key_value(&"10.1.2.3/16".parse()?);     // Some((V4(10.1.0.0/16), 1))
    /// ```
    #[inline(always)]
    pub fn get_key_value(&self, prefix: &IpPrefix) -> Option<(IpPrefix, &T)>
        ensures { option_map lent_item result
            ≡ option_map (λ value. (ip_back (ip_path prefix.now), value))
            (get (entries_of self.now) (ip_path prefix.now)) }
    {
        prefix.known_fitting();
        match prefix {
            IpPrefix::V4(network) => of_either(&self.ipv4.get_key_value(network)),
            IpPrefix::V6(network) => of_either(&self.ipv6.get_key_value(network)),
        }
    }

    /// Returns the longest stored network that contains this one, and its value.
    ///
    /// The network is returned without host bits. A stored network contains itself.
    ///
    /// # Examples
    ///
    /// ```rust
    /// // map = {10.0.0.0/8: 1, 10.1.0.0/16: 2, ::/0: 3}
    /// map.get_lpm(&"10.1.2.3/32".parse()?);       // Some((V4(10.1.0.0/16), 2))
    /// map.get_lpm(&"11.0.0.0/8".parse()?);        // None: ::/0 is of the other family
    /// ```
    #[inline(always)]
    #[tactic(auto, using(crate::proofs::Matches::longest_pair))]
    pub fn get_lpm(&self, prefix: &IpPrefix) -> Option<(IpPrefix, &T)>
        ensures { option_map lent_item result
            ≡ prefix_pair ip_back (longest_match (entries_of self.now) (ip_path prefix.now)) }
    {
        prefix.known_fitting();
        match prefix {
            IpPrefix::V4(network) => of_either(&self.ipv4.get_lpm(network)),
            IpPrefix::V6(network) => of_either(&self.ipv6.get_lpm(network)),
        }
    }

    /// Returns the value of the longest stored network that contains this one.
    ///
    /// Unlike `get_lpm`, it does not rebuild the network.
    ///
    /// # Examples
    ///
    /// ```rust
    /// // map = {10.0.0.0/8: 1, 2001:db8::/32: 2}
    /// map.get_lpm_value(&"2001:db8::1/128".parse()?);     // Some(2)
    /// map.get_lpm_value(&"11.0.0.0/8".parse()?);          // None
    /// ```
    #[inline(always)]
    #[tactic(auto, using(crate::proofs::Matches::longest_value))]
    pub fn get_lpm_value(&self, prefix: &IpPrefix) -> Option<&T>
        ensures { option_copied result
            ≡ option_map (λ found. found.1)
            (longest_match (entries_of self.now) (ip_path prefix.now)) }
    {
        prefix.known_fitting();
        match prefix {
            IpPrefix::V4(network) => self.ipv4.get_lpm_value(network),
            IpPrefix::V6(network) => self.ipv6.get_lpm_value(network),
        }
    }

    /// Returns the longest stored network that contains this one, without its host bits.
    ///
    /// # Examples
    ///
    /// ```rust
    /// // map = {10.0.0.0/8: 1, 10.1.0.0/16: 2}
    /// map.get_lpm_prefix(&"10.1.2.3/32".parse()?);        // Some(V4(10.1.0.0/16))
    /// map.get_lpm_prefix(&"2001:db8::/32".parse()?);      // None
    /// ```
    #[inline(always)]
    #[tactic(auto, using(crate::proofs::Matches::longest_prefix))]
    pub fn get_lpm_prefix(&self, prefix: &IpPrefix) -> Option<IpPrefix>
        ensures { result
            ≡ option_map (λ found. ip_back found.0)
            (longest_match (entries_of self.now) (ip_path prefix.now)) }
    {
        prefix.known_fitting();
        match prefix {
            IpPrefix::V4(network) => self.ipv4.get_lpm_prefix(network).map(IpPrefix::V4),
            IpPrefix::V6(network) => self.ipv6.get_lpm_prefix(network).map(IpPrefix::V6),
        }
    }

    /// Returns the shortest stored network that contains this one, and its value.
    ///
    /// The network is returned without host bits. A stored network contains itself.
    ///
    /// # Examples
    ///
    /// ```rust
    /// // map = {10.0.0.0/8: 1, 10.1.0.0/16: 2}
    /// map.get_spm(&"10.1.2.3/32".parse()?);       // Some((V4(10.0.0.0/8), 1))
    /// map.get_spm(&"11.0.0.0/8".parse()?);        // None
    /// ```
    #[inline(always)]
    #[tactic(auto, using(crate::proofs::Matches::shortest_pair))]
    pub fn get_spm(&self, prefix: &IpPrefix) -> Option<(IpPrefix, &T)>
        ensures { option_map lent_item result
            ≡ prefix_pair ip_back (shortest_match (entries_of self.now) (ip_path prefix.now)) }
    {
        prefix.known_fitting();
        match prefix {
            IpPrefix::V4(network) => of_either(&self.ipv4.get_spm(network)),
            IpPrefix::V6(network) => of_either(&self.ipv6.get_spm(network)),
        }
    }

    /// Returns the shortest stored network that contains this one, without its host bits.
    ///
    /// # Examples
    ///
    /// ```rust
    /// // map = {10.0.0.0/8: 1, 10.1.0.0/16: 2}
    /// map.get_spm_prefix(&"10.1.2.3/32".parse()?);        // Some(V4(10.0.0.0/8))
    /// map.get_spm_prefix(&"2001:db8::/32".parse()?);      // None
    /// ```
    #[inline(always)]
    #[tactic(auto, using(crate::proofs::Matches::shortest_prefix))]
    pub fn get_spm_prefix(&self, prefix: &IpPrefix) -> Option<IpPrefix>
        ensures { result
            ≡ option_map (λ found. ip_back found.0)
            (shortest_match (entries_of self.now) (ip_path prefix.now)) }
    {
        prefix.known_fitting();
        match prefix {
            IpPrefix::V4(network) => self.ipv4.get_spm_prefix(network).map(IpPrefix::V4),
            IpPrefix::V6(network) => self.ipv6.get_spm_prefix(network).map(IpPrefix::V6),
        }
    }

    /// Returns whether a stored network contains this one. A stored network contains itself.
    ///
    /// # Examples
    ///
    /// ```rust
    /// // map = {10.0.0.0/8: 1}
    /// map.is_covered(&"10.1.2.3/32".parse()?);        // true
    /// map.is_covered(&"2001:db8::/32".parse()?);      // false
    /// ```
    #[inline(always)]
    #[tactic(auto, using(crate::proofs::Matches::covered_ipv4, crate::proofs::Matches::covered_ipv6))]
    pub fn is_covered(&self, prefix: &IpPrefix) -> bool
        ensures { result ≡ is_some (shortest_match (entries_of self.now) (ip_path prefix.now)) }
    {
        prefix.known_fitting();
        match prefix {
            IpPrefix::V4(network) => self.ipv4.is_covered(network),
            IpPrefix::V6(network) => self.ipv6.is_covered(network),
        }
    }

    /// Returns the number of IPv4 addresses and the number of IPv6 addresses that the stored networks contain.
    ///
    /// Each address is counted once. A number is `None` exactly if all addresses of the family are
    /// covered, since it does not fit then.
    ///
    /// # Examples
    ///
    /// ```rust
    /// // map = {192.0.2.0/24: 1, 192.0.2.128/25: 2, 2001:db8::/126: 3}
    /// map.address_count();                    // (Some(256), Some(4))
    /// map.insert("::/0".parse()?, 4)?;
    /// map.address_count();                    // (Some(256), None): 2^128 is no u128
    /// ```
    #[inline]
    pub fn address_count(&self) -> (Option<u32>, Option<u128>)
        ensures ipv4 { result.0 ≡ address_total 32 self.now.ipv4.entries }
        ensures ipv6 { result.1 ≡ address_total 128 self.now.ipv6.entries }
    {
        network_laws();
        (self.ipv4.address_count(), self.ipv6.address_count())
    }

    /// Returns the value stored for exactly this network, for writing.
    ///
    /// What is written through it becomes the stored value, and nothing else changes.
    ///
    /// # Examples
    ///
    /// ```rust
    /// // map = {2001:db8::/32: 1}
    /// if let Some(value) = map.get_mut(&"2001:db8::/32".parse()?) { *value = 2; }
    /// map.get(&"2001:db8::/32".parse()?);     // Some(2)
    /// ```
    #[inline]
    #[tactic(auto, using(crate::proofs::Joined::get_ipv4, crate::proofs::Joined::get_ipv6))]
    pub fn get_mut(&mut self, prefix: &IpPrefix) -> Option<&mut T>
        ensures* writes_back { sem 𝓛
            (lends_value_if T.row A.row A.Allocator self.entry prefix.now result) }
        ensures value { option_copied_mut result ≡ get (entries_of self.old) (ip_path prefix.now) }
    {
        match prefix.copy() {
            IpPrefix::V4(network) => self.ipv4.get_mut(&network),
            IpPrefix::V6(network) => self.ipv6.get_mut(&network),
        }
    }

    /// Returns the value of the longest stored network that contains this one, for writing.
    ///
    /// What is written through it becomes the stored value, and nothing else changes. It does
    /// not rebuild the network.
    ///
    /// # Examples
    ///
    /// ```rust
    /// // map = {10.0.0.0/8: 1, ::/0: 2}
    /// if let Some(value) = map.get_lpm_value_mut(&"10.2.0.0/16".parse()?) { *value = 3; }
    /// map.values();       // [3, 2]
    /// ```
    #[inline]
    #[tactic(auto, using(crate::proofs::Matches::longest_value))]
    pub fn get_lpm_value_mut(&mut self, prefix: &IpPrefix) -> Option<&mut T>
        ensures* writes_back { sem 𝓛
            (lends_longest_if T.row A.row A.Allocator self.entry prefix.now result) }
        ensures value { option_copied_mut result
            ≡ option_map (λ found. found.1)
            (longest_match (entries_of self.old) (ip_path prefix.now)) }
    {
        match prefix.copy() {
            IpPrefix::V4(network) => self.ipv4.get_lpm_value_mut(&network),
            IpPrefix::V6(network) => self.ipv6.get_lpm_value_mut(&network),
        }
    }

    /// Returns the longest stored network that contains this one, and its value for writing.
    ///
    /// The network is returned without host bits. A stored network contains itself. What is written
    /// becomes the stored value, and nothing else changes. Only the contract of `get_lpm_value_mut`
    /// tells a caller's proof what was written.
    ///
    /// # Examples
    ///
    /// ```rust
    /// // map = {10.0.0.0/8: 1, ::/0: 2}
    /// if let Some((_network, value)) = map.get_lpm_mut(&"10.2.0.0/16".parse()?) { *value = 3; }
    /// map.values();       // [3, 2]
    /// ```
    #[inline]
    #[tactic(auto, using(crate::proofs::Matches::longest_pair))]
    pub fn get_lpm_mut(&mut self, prefix: &IpPrefix) -> Option<(IpPrefix, &mut T)>
        ensures { option_map lent_item_mut result
            ≡ prefix_pair ip_back (longest_match (entries_of self.old) (ip_path prefix.now)) }
    {
        match prefix.copy() {
            IpPrefix::V4(network) => {
                let Some((found, value)) = self.ipv4.get_lpm_mut(&network) else {
                    return None;
                };
                Some((IpPrefix::V4(found), value))
            }
            IpPrefix::V6(network) => {
                let Some((found, value)) = self.ipv6.get_lpm_mut(&network) else {
                    return None;
                };
                Some((IpPrefix::V6(found), value))
            }
        }
    }
}

// Returns a match of one family as one of either.
#[inline(always)]
fn of_either<'a, P: Family, T>(found: &Option<(P, &'a T)>) -> Option<(IpPrefix, &'a T)>
    ensures { option_map lent_item result
        ≡ option_map (λ e. (P.as_ip e.0, e.1)) (option_map lent_item found.now) }
{
    match found {
        Some((network, value)) => Some((network.to_ip(), *value)),
        None => None,
    }
}
