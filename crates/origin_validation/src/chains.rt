//! Chains of the VRPs of one prefix, from the last to the first.
ghost use Rattle.std.specs.Prelude.{◌≡◌, ◌+◌, ◌-◌, ◌*◌, ◌^◌, ◌<◌, ℕ, Bool, Contains, IfErr, IfOk, List, MatchOption, OnOk, Some, length, slice_get};
ghost use Rattle.std.specs.FinMap.{get};
ghost use Rattle.prefix_trie_bits.specs.declared.prefix.Refusal.TheVariants.{IndexRange, Memory};
ghost use Rattle.prefix_trie_joint.specs.Changes.{maps_of};
ghost use Rattle.prefix_trie_joint.specs.Collected.{AreAfter};
ghost use Rattle.prefix_trie_joint.specs.Joined.{entries_of};
ghost use Rattle.prefix_trie_joint.specs.Networks.{ip_path};
ghost use Rattle.prefix_trie_joint.specs.Texts.{IsIp};
ghost use Rattle.origin_validation.specs.Chains.{AreChained, AreLatest, IsLatest, NoneMatchesFrom, paths_of};
ghost use Rattle.origin_validation.specs.Validation.{Matches};

use crate::vrp::Vrp;
use prefix_trie::Refusal;
use prefix_trie::laws::stored_laws;
use prefix_trie_joint::{IpPrefix, JointPrefixMap};
use std::alloc::Allocator;

/// Returns a VRP that matches a route, among the one at an index and the earlier ones of its prefix.
pub(crate) fn matching(
    vrps: &[Vrp],
    older: &[Option<u32>],
    latest: u32,
    route: &IpPrefix,
    origin: Option<u32>,
) -> Option<Vrp>
    requires chained { AreChained (paths_of vrps.now) older.now }
    requires counted { length older.now ≡ length vrps.now }
    requires within { latest < length vrps.now }
    ensures { (q : List Bool) → IsLatest (paths_of vrps.now) (length vrps.now) q (Some latest)
        → MatchOption result (NoneMatchesFrom 0 vrps.now q route.now origin)
        (λ vrp. Contains vrps.now vrp × Matches vrp route.now origin) }
{
    let mut next = Some(latest);
    while let Some(index) = next {
        let vrp = vrps[index as usize];
        if vrp.matches(route, origin) {
            return Some(vrp);
        }
        next = older[index as usize];
    }
    None
}

/// Creates the chains of no VRPs.
pub(crate) fn none<A: Allocator + Clone>(alloc: A) -> Result<JointPrefixMap<u32, A>, Refusal>
    ensures latest { IfOk result (λ latest. (paths : List (List Bool))
        → AreLatest paths 0 (entries_of latest)) }
    ensures after { IfOk result (λ latest. AreAfter 0 (maps_of latest)) }
    ensures only_memory { IfErr result (λ cause. cause ≡ Memory) }
{
    stored_laws::<u32>();
    JointPrefixMap::new(alloc)
}

/// Appends the next VRP to the chain of its prefix, and returns the VRP before it in the chain.
pub(crate) fn append<A: Allocator>(
    latest: &mut JointPrefixMap<u32, A>,
    prefix: IpPrefix,
    index: u32,
) -> Result<Option<u32>, Refusal>
    ensures before { IfOk result
        (λ before. before ≡ get (entries_of latest.old) (ip_path prefix)) }
    ensures chained { OnOk result ((paths : List (List Bool))
        → slice_get paths index ≡ Some (ip_path prefix)
        → AreLatest paths index (entries_of latest.old)
        → AreLatest paths (index + 1) (entries_of latest.new)) }
    ensures fitting { IsIp prefix }
    ensures after { OnOk result ((count : ℕ) → AreAfter count (maps_of latest.old)
        → AreAfter (count + 1) (maps_of latest.new)) }
    ensures range { IfErr result (λ cause. cause ≡ IndexRange
        → (count : ℕ) → AreAfter count (maps_of latest.old) → 2 ^ 32 - 1 < 1 + 56 * (count + 1)) }
{
    // The proof learns from these calls that the map is valid, that the prefix fits its family, and what an insertion changes.
    let _ = latest.len();
    let _ = prefix.address();
    stored_laws::<u32>();
    Ok(latest.insert(prefix, index)?)
}
