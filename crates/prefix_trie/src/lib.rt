//! Maps and sets of fixed-width prefixes, such as IP networks, with longest-prefix match.
//!
//! A prefix is a number and a length. Its first `length` bits are its path, and only the path
//! counts. The maps are tries whose nodes span five bits each. Memory comes from an allocator that
//! is passed in; if an allocation fails, the call returns an error and the map keeps its entries.
//! What each call does is proved: its contract states what it returns and how it changes the map.
#![tactic(auto)]

pub mod laws;
pub mod map;
pub mod replay;
pub mod set;

pub use prefix_trie_bits::prefix::{
    Ipv4Prefix, Ipv4Subnets, Ipv6Prefix, Ipv6Subnets, Key, Narrow, ParseNarrowError,
    ParseNetworkError, Prefix, Refusal, Refused,
};
pub use prefix_trie_map::map::{BlockCount, PrefixMap, Visits};
pub use set::PrefixSet;
