//! Inserting a value for a network that is not stored, and lending a stored value.
ghost use Rattle.std.specs.Prelude.{◌≡◌, IfErr, None, OnErr, OnOk, Some, true};
ghost use Rattle.std.specs.Borrow.{sem, MutBor};
ghost use Rattle.std.specs.FinMap.{contains_key, get};
ghost use Rattle.std.specs.Option.{unwrap_or, UnwrapsOrElse};
ghost use Rattle.prefix_trie_joint.specs.Entry.{Fills, FillsAt, Modifies, RefusesAt, RefusesToFill};
ghost use Rattle.prefix_trie_joint.specs.Joined.{entries_of};
ghost use Rattle.prefix_trie_joint.specs.Lending.{lends_value};
ghost use Rattle.prefix_trie_joint.specs.Networks.{ip_path};

use crate::map::JointPrefixMap;
use crate::prefix::IpPrefix;
use prefix_trie::{Prefix, PrefixMap, Refusal, Refused};
use std::alloc::Allocator;

// Returns the value of a stored network for writing.
#[inline]
pub(super) fn lend_stored<'a, T: Drop, A: Allocator>(
    map: &'a mut JointPrefixMap<T, A>,
    key: &IpPrefix,
) -> &'a mut T
    requires { contains_key (entries_of map.old) (ip_path key.now) ≡ true }
    ensures* writes_back { sem 𝓛
        (lends_value T.row A.row A.Allocator map.entry key.now result) }
    ensures value { get (entries_of map.old) (ip_path key.now) ≡ Some result.now }
{
    match map.get_mut(key) {
        Some(value) => value,
        None => unreachable!(),
    }
}

// Calls a closure with the value if the network is stored.
#[inline]
pub(super) fn modify<T: Drop, A: Allocator, F: FnOnce(&mut T) + Drop>(
    map: &mut JointPrefixMap<T, A>,
    key: &IpPrefix,
    f: F,
)
    requires { (x : MutBor T) → get (entries_of map.old) (ip_path key.now) ≡ Some x.now
        → F.pre f x }
    ensures { Modifies F.FnOnce f map.old key.now map.new }
{
    match map.get_mut(key) {
        Some(value) => f(value),
        None => {}
    }
}

// Inserts a value if the network is not stored.
#[inline]
#[tactic(auto, using(crate::proofs::Joined::get_ipv4, crate::proofs::Joined::get_ipv6))]
pub(super) fn fill<T: Drop, A: Allocator>(
    map: &mut JointPrefixMap<T, A>,
    key: &IpPrefix,
    value: T,
) -> Result<(), Refused<T>>
    ensures filled { OnOk result
        ((x : T) × (x ≡ unwrap_or (get (entries_of map.old) (ip_path key.now)) value)
        × Fills key.now map.old map.new x) }
    ensures refused { IfErr result (λ e. RefusesToFill key.now e.cause map.old map.new) }
    ensures absent { OnErr result (get (entries_of map.old) (ip_path key.now) ≡ None) }
    ensures returned { IfErr result (λ refused. refused.value ≡ value) }
{
    match key.copy() {
        IpPrefix::V4(network) => fill_one(&mut map.ipv4, network, value),
        IpPrefix::V6(network) => fill_one(&mut map.ipv6, network, value),
    }
}

// The same of a map of one family.
#[inline]
fn fill_one<P: Prefix, T: Drop, A: Allocator>(
    map: &mut PrefixMap<P, T, A>,
    prefix: P,
    value: T,
) -> Result<(), Refused<T>>
    requires fits { P.IsFitting prefix }
    ensures filled { OnOk result
        ((x : T) × (x ≡ unwrap_or (get map.old.entries (P.path prefix)) value)
        × FillsAt P.R.bit_width (P.path prefix) map.old map.new x) }
    ensures refused { IfErr result
        (λ e. RefusesAt P.R.bit_width (P.path prefix) e.cause map.old map.new) }
    ensures absent { OnErr result (get map.old.entries (P.path prefix) ≡ None) }
    ensures returned { IfErr result (λ refused. refused.value ≡ value) }
{
    match map.entry(prefix).or_insert(value) {
        Ok(stored) => {
            // Binding the value ends its loan here, so the proof knows the map.
            let _ = stored;
            Ok(())
        }
        Err(refused) => Err(refused),
    }
}

// Inserts what a closure returns if the network is not stored.
#[inline]
#[tactic(auto, using(crate::proofs::Joined::get_ipv4, crate::proofs::Joined::get_ipv6))]
pub(super) fn fill_with<T: Drop, A: Allocator, F: FnOnce() -> T + Drop>(
    map: &mut JointPrefixMap<T, A>,
    key: &IpPrefix,
    f: F,
) -> Result<(), Refusal>
    requires { get (entries_of map.old) (ip_path key.now) ≡ None → F.pre f }
    ensures filled { OnOk result
        ((x : T) × UnwrapsOrElse (get (entries_of map.old) (ip_path key.now)) (F.post f) x
        × Fills key.now map.old map.new x) }
    ensures refused { IfErr result (λ cause. RefusesToFill key.now cause map.old map.new) }
    ensures absent { OnErr result (get (entries_of map.old) (ip_path key.now) ≡ None) }
{
    match key.copy() {
        IpPrefix::V4(network) => fill_one_with(&mut map.ipv4, network, f),
        IpPrefix::V6(network) => fill_one_with(&mut map.ipv6, network, f),
    }
}

// The same of a map of one family.
#[inline]
fn fill_one_with<P: Prefix, T: Drop, A: Allocator, F: FnOnce() -> T + Drop>(
    map: &mut PrefixMap<P, T, A>,
    prefix: P,
    f: F,
) -> Result<(), Refusal>
    requires fits { P.IsFitting prefix }
    requires may_call { get map.old.entries (P.path prefix) ≡ None → F.pre f }
    ensures filled { OnOk result
        ((x : T) × UnwrapsOrElse (get map.old.entries (P.path prefix)) (F.post f) x
        × FillsAt P.R.bit_width (P.path prefix) map.old map.new x) }
    ensures refused { IfErr result
        (λ cause. RefusesAt P.R.bit_width (P.path prefix) cause map.old map.new) }
    ensures absent { OnErr result (get map.old.entries (P.path prefix) ≡ None) }
{
    match map.entry(prefix).or_insert_with(f) {
        Ok(_) => Ok(()),
        Err(cause) => Err(cause),
    }
}
