//! Callers of `retain`, with any test that may always be called.
use prefix_trie::{Prefix, PrefixMap, PrefixSet};
use std::alloc::Allocator;

/// Keeps the entries for which a test returns `true`. It has no `ensures`, because each caller would have to read it.
#[tactic(auto, using(prefix_trie::proofs::Always::may_ask_of_map))]
pub fn keep_where<P: Prefix, A: Allocator, F: FnMut(&P, &u64) -> bool + Drop>(
    map: &mut PrefixMap<P, u64, A>,
    test: F,
)
    requires { F.IsAlwaysCallable test }
{
    map.retain(test);
}

/// Keeps the keys for which a test returns `true`.
#[tactic(auto, using(prefix_trie::proofs::Always::may_ask_of_set))]
pub fn keep_keys_where<P: Prefix, A: Allocator, F: FnMut(&P) -> bool + Drop>(
    set: &mut PrefixSet<P, A>,
    test: F,
)
    requires { F.IsAlwaysCallable test }
{
    set.retain(test);
}

/// Keeps the entries whose keys have at least this many bits.
pub fn retain_long<P: Prefix, A: Allocator>(map: &mut PrefixMap<P, u64, A>, len: u8) {
    keep_where(map, move |prefix, _| len <= prefix.prefix_len());
}

/// Keeps the keys with at least this many bits.
pub fn retain_long_keys<P: Prefix, A: Allocator>(set: &mut PrefixSet<P, A>, len: u8) {
    keep_keys_where(set, move |prefix| len <= prefix.prefix_len());
}
