//! Longest-prefix match of addresses in a table that changes while it is asked.
//!
//! `ForwardingTable` holds a map from networks to next hops, and slots in which a lookup finds the longest match of an
//! address. The slots are proved: an answer is read by one slot a level, a change writes the answers of a network's addresses, and
//! groups of slots are made, linked and given back.
#![tactic(auto)]

mod answers;
mod hop;
pub mod laws;
mod slots;
mod table;

pub use hop::Hop;
pub use table::ForwardingTable;
