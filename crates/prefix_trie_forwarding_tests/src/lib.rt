//! The tests of `prefix_trie_forwarding`, and an example of its use.
#![tactic(auto)]

#[cfg(test)]
mod agreement;
#[cfg(test)]
mod cases;
#[cfg(test)]
mod copies;
#[cfg(test)]
mod every_order;
pub mod examples;
#[cfg(test)]
mod networks;
#[cfg(test)]
mod runs;
#[cfg(test)]
mod tables;
