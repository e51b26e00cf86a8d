//! Maps and sets of IPv4 and IPv6 networks together.
//!
//! A joint map is two maps of `prefix_trie`, one for each family, which may be used directly. Its
//! contracts see one finite map, whose keys begin with a bit for the family: 0 for IPv4 and 1 for
//! IPv6. So each clause reads like the one of `PrefixMap`. An `IpPrefix` always fits, so only the
//! `retain` calls have a `requires`, on their test. Walks list IPv4 networks first, and then IPv6 networks.
#![tactic(auto)]

pub mod laws;
pub mod map;
mod networks;
pub mod prefix;
pub mod set;

pub use map::JointPrefixMap;
pub use networks::Networks;
pub use prefix::{IpPrefix, IpSubnets};
pub use set::JointPrefixSet;
