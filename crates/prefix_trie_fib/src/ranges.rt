//! Ranges of addresses: where the longest match of a map can change, and the value of each range.
//!
//! A map is compiled by one walk in the order of addresses (`sweep`), which merges neighbours with one value (`merge`).
//! `Fib::ranges` walks over the ranges that have a value.

mod ends;
mod line;
mod marks;
mod merge;
mod of_map;
mod search;
mod sweep;

pub(crate) use ends::is_within;
pub(crate) use line::Line;
pub(crate) use of_map::{ranges_of, some_value};
pub(crate) use search::is_at_most;
