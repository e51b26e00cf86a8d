//! Operations on whole maps and sets of prefixes.
//!
//! Union, intersection and difference are walks. Aggregation removes entries that change no lookup. `map` has the
//! operations on maps, `set` the operations on sets, `addresses` turns a map into a set of addresses, and `laws` has what
//! follows from their contracts.
#![tactic(auto)]

pub mod addresses;
pub mod laws;
pub mod map;
pub mod order;
pub mod select;
pub mod set;
