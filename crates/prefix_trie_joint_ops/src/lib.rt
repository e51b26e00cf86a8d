//! Operations on whole maps and sets of both families.
//!
//! They are the operations of `prefix_trie_ops`, family by family: what they do to IPv4 networks depends on IPv4 networks
//! alone. Their contracts see the entries of both families as one finite map, as those of `prefix_trie_joint` do. `map`
//! has the operations on maps, and `set` the operations on sets. `prefix_trie_ops::laws::combining_laws` holds for joint
//! entries too.
#![tactic(auto)]

pub mod map;
pub mod set;
