//! The tests of all crates, and example programs over `prefix_trie` as users write them.
//!
//! Most tests are tables of cases, which `trials` runs. The others are code.
#![tactic(auto)]

#[cfg(test)]
mod any_map;
pub mod cases;
#[cfg(test)]
mod clones;
#[cfg(test)]
mod collecting;
pub mod contents;
#[cfg(test)]
mod drops;
#[cfg(test)]
mod entry_callers;
#[cfg(test)]
mod examples;
pub mod networks;
#[cfg(test)]
mod on_new;
#[cfg(test)]
mod prefix;
pub mod refusing;
pub mod retain;
#[cfg(test)]
mod runs;
#[cfg(test)]
mod sets;
#[cfg(test)]
mod sizes;
#[cfg(test)]
mod splitting;
pub mod tables;
#[cfg(test)]
mod texts;
pub mod trials;
#[cfg(test)]
mod walks;
