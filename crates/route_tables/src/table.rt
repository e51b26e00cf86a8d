//! Tables: networks, each with a value.
ghost use Rattle.std.specs.Prelude.{◌≡◌, Bool, List, true};
ghost use Rattle.std.specs.FinMap.{contains_key};
ghost use Rattle.prefix_trie_joint.specs.Joined.{entries_of};
ghost use Rattle.prefix_trie_joint.specs.Networks.{ip_back, ip_path};

use crate::value::Value;
use prefix_trie::laws::path_laws;
use prefix_trie::{Ipv4Prefix, Ipv6Prefix, PrefixMap};
use prefix_trie_joint::JointPrefixMap;
use prefix_trie_joint::laws::family_laws;
use std::alloc::Global;

/// The networks of both families, each with a value.
pub type Table = JointPrefixMap<Value, Global>;

/// The networks of one family, each with a value.
pub type FamilyTable<P> = PrefixMap<P, Value, Global>;

/// Brings into the caller's proof that each stored network has the path that it is stored at.
///
/// The compiler removes it.
#[inline]
pub fn stored_paths(table: &Table)
    ensures { (s : List Bool) → contains_key (entries_of table.now) s ≡ true
        → ip_path (ip_back s) ≡ s }
{
    path_laws::<Ipv4Prefix>();
    path_laws::<Ipv6Prefix>();
    family_laws::<Value, Global>();
    let _ = table.ipv4.len();
    let _ = table.ipv6.len();
}
