//! Maps from prefixes to values, over a table of bit strings.
#![tactic(auto)]

mod fmt;
pub mod laws;
pub mod map;
