//! The tests of `prefix_trie_ops`, and programs over it as a user writes them.
#![tactic(auto)]

#[cfg(test)]
mod aggregation;
#[cfg(test)]
mod examples;
#[cfg(test)]
mod refusals;
#[cfg(test)]
mod runs;
