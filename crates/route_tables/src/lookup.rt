//! The networks that are related to an address or a network.
ghost use Rattle.std.specs.Prelude.{◌≡◌, MatchOption};
ghost use Rattle.std.specs.Option.{option_map};
ghost use Rattle.prefix_trie.specs.Terms.{lent_item, longest_match, prefix_pair, IsLongestMatch, IsUncovered};
ghost use Rattle.prefix_trie_joint.specs.Joined.{entries_of};
ghost use Rattle.prefix_trie_joint.specs.Networks.{ip_back, ip_path};

use crate::table::{Table, stored_paths};
use crate::value::Value;
use prefix_trie::laws::lookup_laws;
use prefix_trie_joint::IpPrefix;

/// Which networks are looked for, for an address or a network.
#[derive(Clone, Copy, Debug, Default, PartialEq, Eq)]
pub enum Relation {
    /// The longest network that contains it.
    #[default]
    Longest,
    /// All networks that contain it, shortest first.
    Covering,
    /// The network itself.
    Exact,
    /// All networks that it contains, in listing order.
    Contained,
}

/// What a lookup finds: a network and its value.
pub type Found<'a> = Option<(IpPrefix, &'a Value)>;

/// Returns the longest network of a table that contains an address, and its value, or `None` if there is none.
///
/// # Examples
///
/// ```rust
/// let table = load(b"10.0.0.0/8 core\n10.1.0.0/16 edge\n", alloc)?.table;
/// longest(&table, &"10.1.2.3/32".parse()?).map(|found| found.1.as_str());     // Some("edge")
/// longest(&table, &"11.0.0.0/32".parse()?).is_none();                         // true
/// ```
pub fn longest<'a>(table: &'a Table, address: &IpPrefix) -> Found<'a>
    ensures value { option_map lent_item result
        ≡ prefix_pair ip_back (longest_match (entries_of table.now) (ip_path address.now)) }
    ensures longest { MatchOption result
        (IsUncovered (entries_of table.now) (ip_path address.now))
        (λ found. IsLongestMatch (entries_of table.now) (ip_path address.now)
        (ip_path found.0, found.1.now)) }
{
    lookup_laws::<IpPrefix, Value>();
    stored_paths(table);
    table.get_lpm(address)
}
