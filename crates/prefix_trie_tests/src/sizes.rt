//! Sizes that no contract states.
use prefix_trie::Visits;
use prefix_trie_table::allocator::node::Node;
use std::mem::size_of;

#[test]
fn a_node_has_20_bytes(rt: HostRuntime) {
    assert!(rt; size_of::<Node>() == 20);
}

#[test]
fn a_counter_has_no_bytes(rt: HostRuntime) {
    assert!(rt; size_of::<Visits>() == 0);
}
