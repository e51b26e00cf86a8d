//! Longest-prefix match of addresses in a table that does not change.
#![tactic(auto)]

mod compact;
mod copies;
mod fib;
mod index;
mod indexed;
pub mod laws;
mod ranges;

pub use fib::{Fib, Ranges};
