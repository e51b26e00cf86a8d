//! Rules that decide no address, for warnings.

use super::{AccessList, Decision, Precedence};
use crate::rule::{ALLOW, DENY};
use prefix_trie::{Ipv4Prefix, Ipv6Prefix};
use prefix_trie_joint::IpPrefix;
use std::alloc::{AllocError, Global};
use std::fmt::{self, Display, Formatter, Write};
use std::net::IpAddr;

// The most networks within a rule that are looked at. A rule with more of them counts as one that decides.
const MOST_STEPS: u32 = 1 << 20;

/// A rule of an access list. Its text is the network, and `allow` or `deny`.
#[derive(Clone, Copy, Debug, PartialEq, Eq)]
pub struct Rule {
    /// The network.
    pub network: IpPrefix,
    /// Whether its addresses are allowed.
    pub allows: bool,
}

impl Display for Rule {
    fn fmt<W: Write>(&self, f: &mut Formatter<W>) -> fmt::Result {
        let (network, rule) = (self.network, if self.allows { ALLOW } else { DENY });
        write!(f, "{network} {rule}")
    }
}

/// Returns the rules of a list that decide no address, in listing order.
///
/// They are for warnings: no clause says which they are, and tests do.
///
/// # Errors
///
/// Returns the allocator's error if an allocation fails.
///
/// # Examples
///
/// ```rust
/// let text = b"10.0.0.0/8 deny\n10.0.0.0/9 allow\n10.128.0.0/9 allow\n";
/// let (list, _) = AccessList::new(alloc)?.add(text, HostBits::Refused, alloc)?;
/// idle_rules(&list, Precedence::Longest, alloc)?.iter().map(|rule| rule.network);         // [V4(10.0.0.0/8)]
/// idle_rules(&list, Precedence::DenyFirst, alloc)?.iter().map(|rule| rule.network);       // [V4(10.0.0.0/9), V4(10.128.0.0/9)]
/// ```
pub fn idle_rules(
    list: &AccessList,
    precedence: Precedence,
    alloc: Global,
) -> Result<Vec<Rule>, AllocError> {
    let mut idle = Vec::new(alloc);
    for (network, value) in list.table() {
        if !decides(list, &network, precedence) {
            let allows = value.as_str() == ALLOW;
            idle.push(Rule { network, allows })?;
        }
    }
    Ok(idle)
}

// Returns whether a network of a list decides some address.
//
// If another network decides an address, this one decides no address of that network. So the next one to look at is the
// address after it.
fn decides(list: &AccessList, network: &IpPrefix, precedence: Precedence) -> bool {
    let mut address = IpPrefix::host(network.network());
    for _ in 0..MOST_STEPS {
        if !network.contains(&address) {
            return false;
        }
        let decider = match list.decide(&address, precedence) {
            Decision::Allowed(decider) | Decision::Denied(decider) => decider,
            Decision::Unlisted => return false,
        };
        if decider == *network {
            return true;
        }
        match address_after(&decider) {
            Some(next) => address = next,
            None => return false,
        }
    }
    true
}

// Returns the address after the last one of a network, if there is one.
fn address_after(network: &IpPrefix) -> Option<IpPrefix> {
    match network.last() {
        IpAddr::V4(last) => match last.to_bits().checked_add(1) {
            Some(bits) => Some(IpPrefix::V4(Ipv4Prefix::host(bits))),
            None => None,
        },
        IpAddr::V6(last) => match last.to_bits().checked_add(1) {
            Some(bits) => Some(IpPrefix::V6(Ipv6Prefix::host(bits))),
            None => None,
        },
    }
}
