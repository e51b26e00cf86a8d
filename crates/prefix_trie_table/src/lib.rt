//! A prefix trie in two arrays, of nodes and of values, and the table that it makes: values by bit strings.
#![tactic(auto)]

pub mod allocator;
pub mod table;
