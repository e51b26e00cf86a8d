//! An access list without the networks that it does not need.
ghost use Rattle.std.specs.Prelude.{◌≡◌, true, List, Bool, IfOk, IfErr};
ghost use Rattle.std.specs.Option.{is_some};
ghost use Rattle.std.specs.FinMap.{contains_key};
ghost use Rattle.prefix_trie.specs.Terms.{begins, shortest_match};

use prefix_trie::{Ipv4Prefix, PrefixSet, Refusal};
use prefix_trie_ops::laws::aggregation_laws;
use prefix_trie_ops::set::aggregate_consistent;
use std::alloc::Allocator;

/// Removes the networks that another network of the list contains. The list allows the same addresses as before.
pub fn reduce<A: Allocator, B: Allocator>(
    list: &mut PrefixSet<Ipv4Prefix, A>,
    alloc: B,
) -> Result<(), Refusal>
    ensures same { IfOk result
        (λ _. (q : List Bool)
        → is_some (shortest_match list.new.entries q)
        ≡ is_some (shortest_match list.old.entries q)) }
    ensures apart { IfOk result
        (λ _. (s t : List Bool) → contains_key list.new.entries s ≡ true
        → contains_key list.new.entries t ≡ true → begins s t ≡ true → s ≡ t) }
    ensures unchanged { IfErr result (λ _. list.new ≡ list.old) }
{
    aggregation_laws::<()>();
    aggregate_consistent(list, alloc)
}
