//! Keys and prefixes as strings of bits, the model of a map from such strings to values, and the places of one node.
#![tactic(auto)]

mod digits;
pub mod laws;
pub mod node;
pub mod prefix;
mod wide_digits;
