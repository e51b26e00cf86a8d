//! Lookups in a set by exact prefix, by longest match and by shortest match.
ghost use Rattle.std.specs.Prelude.{◌≡◌};
ghost use Rattle.std.specs.Option.{option_map, is_some};
ghost use Rattle.std.specs.FinMap.{get, contains_key};
ghost use Rattle.prefix_trie_bits.specs.Model.Matches.{longest_match, shortest_match};

use crate::set::PrefixSet;
use prefix_trie_bits::prefix::Prefix;
use std::alloc::Allocator;

impl<P: Prefix, A: Allocator> PrefixSet<P, A> {
    /// Returns whether exactly this prefix is in the set. Host bits are ignored.
    ///
    /// # Examples
    ///
    /// ```rust
    /// // set = {10.1.0.0/16}
    /// set.contains(&"10.1.0.0/16".parse()?);      // true
    /// set.contains(&"10.1.2.3/16".parse()?);      // true: only the first 16 bits count
    /// set.contains(&"10.1.0.0/17".parse()?);      // false
    /// ```
    #[inline]
    pub fn contains(&self, prefix: &P) -> bool
        requires { P.IsFitting prefix.now }
        ensures { result ≡ contains_key self.now.entries (P.path prefix.now) }
    {
        self.map.contains_key(prefix)
    }

    /// Returns whether a stored prefix contains this one. A stored prefix contains itself.
    ///
    /// # Examples
    ///
    /// ```rust
    /// // set = {10.0.0.0/8}
    /// set.is_covered(&"10.1.2.3/32".parse()?);    // true
    /// set.is_covered(&"11.0.0.0/8".parse()?);     // false
    /// ```
    #[inline]
    pub fn is_covered(&self, prefix: &P) -> bool
        requires { P.IsFitting prefix.now }
        ensures { result ≡ is_some (shortest_match self.now.entries (P.path prefix.now)) }
    {
        self.map.is_covered(prefix)
    }

    /// Returns this prefix without its host bits, if exactly it is in the set.
    ///
    /// # Examples
    ///
    /// ```rust
    /// // set = {10.1.0.0/16}
    /// set.get(&"10.1.2.3/16".parse()?);       // Some(10.1.0.0/16)
    /// ```
    #[inline]
    pub fn get(&self, prefix: &P) -> Option<P>
        requires { P.IsFitting prefix.now }
        ensures { result
            ≡ option_map (λ _. P.back (P.path prefix.now))
            (get self.now.entries (P.path prefix.now)) }
    {
        match self.map.get_key_value(prefix) {
            Some((stored, _)) => Some(stored),
            None => None,
        }
    }

    /// Returns the longest stored prefix that contains this one, without host bits.
    ///
    /// A stored prefix contains itself.
    ///
    /// # Examples
    ///
    /// ```rust
    /// // set = {10.0.0.0/8, 10.1.0.0/16}
    /// set.get_lpm(&"10.1.2.3/32".parse()?);       // Some(10.1.0.0/16)
    /// set.get_lpm(&"10.2.0.0/16".parse()?);       // Some(10.0.0.0/8)
    /// set.get_lpm(&"11.0.0.0/8".parse()?);        // None
    /// ```
    #[inline]
    pub fn get_lpm(&self, prefix: &P) -> Option<P>
        requires { P.IsFitting prefix.now }
        ensures { result
            ≡ option_map (λ found. P.back found.0)
            (longest_match self.now.entries (P.path prefix.now)) }
    {
        self.map.get_lpm_prefix(prefix)
    }

    /// Returns the shortest stored prefix that contains this one, without host bits.
    ///
    /// A stored prefix contains itself. `get_lpm` has an example of both.
    ///
    /// # Examples
    ///
    /// ```rust
    /// // set = {10.0.0.0/8, 10.1.0.0/16}
    /// set.get_spm(&"10.1.2.3/32".parse()?);       // Some(10.0.0.0/8)
    /// set.get_spm(&"11.0.0.0/8".parse()?);        // None
    /// ```
    #[inline]
    pub fn get_spm(&self, prefix: &P) -> Option<P>
        requires { P.IsFitting prefix.now }
        ensures { result
            ≡ option_map (λ found. P.back found.0)
            (shortest_match self.now.entries (P.path prefix.now)) }
    {
        self.map.get_spm_prefix(prefix)
    }
}
