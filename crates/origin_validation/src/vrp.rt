//! Validated ROA payloads.
ghost use Rattle.std.specs.Prelude.{◌↔◌, IsTrue};
ghost use Rattle.origin_validation.specs.Validation.{Covers, Matches};

use prefix_trie_joint::IpPrefix;

/// A validated ROA payload: an AS may announce the networks of a prefix up to a maximum length.
///
/// # Examples
///
/// ```rust
/// let vrp = Vrp { prefix: "10.0.0.0/8".parse()?, max_len: 16, origin: 64500 };
/// vrp.matches(&"10.1.0.0/16".parse()?, Some(64500));      // true
/// vrp.matches(&"10.1.2.0/24".parse()?, Some(64500));      // false: longer than 16
/// vrp.covers(&"10.1.2.0/24".parse()?);                    // true
/// ```
#[derive(Clone, Copy, Debug, PartialEq, Eq)]
pub struct Vrp {
    /// The prefix. Host bits are ignored.
    pub prefix: IpPrefix,
    /// The length of the longest network that may be announced. If it is below the prefix's length, no route matches.
    pub max_len: u8,
    /// The AS that may announce the networks. If it is 0, no route matches.
    pub origin: u32,
}

impl Vrp {
    /// Returns whether the prefix contains a route's prefix. Equal prefixes contain each other.
    ///
    /// # Examples
    ///
    /// ```rust
    /// let vrp = Vrp { prefix: "10.0.0.0/8".parse()?, max_len: 16, origin: 64500 };
    /// vrp.covers(&"10.0.0.0/8".parse()?);     // true
    /// vrp.covers(&"0.0.0.0/0".parse()?);      // false
    /// ```
    #[inline]
    pub fn covers(&self, route: &IpPrefix) -> bool
        ensures { IsTrue result ↔ Covers self.now route.now }
    {
        self.prefix.contains(route)
    }

    /// Returns whether this VRP allows a route to have this origin.
    ///
    /// The origin is `None` if the route's path ends in a set of ASs, and then no VRP matches.
    ///
    /// # Examples
    ///
    /// ```rust
    /// let vrp = Vrp { prefix: "10.0.0.0/8".parse()?, max_len: 8, origin: 0 };
    /// vrp.matches(&"10.0.0.0/8".parse()?, Some(0));       // false: AS 0 never matches
    /// ```
    #[inline]
    pub fn matches(&self, route: &IpPrefix, origin: Option<u32>) -> bool
        ensures { IsTrue result ↔ Matches self.now route.now origin }
    {
        self.covers(route)
            && route.prefix_len() <= self.max_len
            && self.origin != 0
            && origin == Some(self.origin)
    }
}
