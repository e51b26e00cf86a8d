//! The tests of `prefix_trie_joint` and `prefix_trie_joint_ops`: tables of calls on joint maps, with each allocation
//! failing once.
#![tactic(auto)]

#[cfg(test)]
mod examples;
#[cfg(test)]
mod one_family;
#[cfg(test)]
mod ops;
#[cfg(test)]
mod retain;
#[cfg(test)]
mod tables;
#[cfg(test)]
mod texts;
#[cfg(test)]
mod trials;
