//! What a table of rules says of an address.
ghost use Rattle.std.specs.Prelude.{◌≡◌, Bool, List, MatchOption, bytes_eq, codes};
ghost use Rattle.prefix_trie.specs.Terms.{IsLongestMatch, IsMatch};
ghost use Rattle.prefix_trie_joint.specs.Joined.{entries_of};
ghost use Rattle.prefix_trie_joint.specs.Networks.{ip_path};
ghost use Rattle.route_tables.specs.Access.{IsCoveredBy, decision_of, IsDenyFirstDecision, IsLongestDecision, deny_first_decision, longest_decision, shortest_with};
ghost use Rattle.route_tables.specs.Routes.{IsRule};
ghost use Rattle.route_tables.specs.Rules.{HasRules};
ghost use Rattle.route_tables.specs.Tables.{Values};

use super::Decision;
use crate::lookup::longest;
use crate::rule::{ALLOW, DENY};
use crate::table::{Table, stored_paths};
use crate::value::Value;
use prefix_trie::laws::match_laws;
use prefix_trie_joint::IpPrefix;

// Returns what the longest network that contains an address says of it.
pub(super) fn longest_decision(table: &Table, address: &IpPrefix) -> Decision
    requires { HasRules (entries_of table.now) }
    ensures value { result ≡ longest_decision (entries_of table.now) (ip_path address.now) }
    ensures in_words { IsLongestDecision (entries_of table.now) (ip_path address.now) result }
{
    match longest(table, address) {
        Some((network, value)) => rule_decision(network, value),
        None => Decision::Unlisted,
    }
}

// Returns the decision of a network with a rule.
fn rule_decision(network: IpPrefix, rule: &Value) -> Decision
    requires { IsRule rule.now }
    ensures value { result ≡ decision_of network rule.now }
    ensures in_words { (m : Values) (address : List Bool)
        → IsLongestMatch m address (ip_path network, rule.now)
        → IsLongestDecision m address result }
{
    if is_allow(rule) {
        Decision::Allowed(network)
    } else {
        Decision::Denied(network)
    }
}

// Returns whether a rule is `allow`.
fn is_allow(rule: &Value) -> bool
    ensures { result ≡ bytes_eq rule.now (codes "allow") }
{
    rule.as_str() == ALLOW
}

// Returns what the shortest network with `deny` that contains an address says of it, or the shortest with `allow` if there is
// none.
pub(super) fn deny_first_decision(table: &Table, address: &IpPrefix) -> Decision
    ensures value { result ≡ deny_first_decision (entries_of table.now) (ip_path address.now) }
    ensures in_words { IsDenyFirstDecision (entries_of table.now) (ip_path address.now) result }
{
    if let Some(network) = first_cover(table, address, DENY) {
        return Decision::Denied(network);
    }
    match first_cover(table, address, ALLOW) {
        Some(network) => Decision::Allowed(network),
        None => Decision::Unlisted,
    }
}

// Returns the shortest network with this value that contains an address.
#[tactic(auto, using(crate::proofs::Decisions::shortest_is))]
fn first_cover(table: &Table, address: &IpPrefix, rule: &str) -> Option<IpPrefix>
    ensures shortest { result
        ≡ shortest_with (entries_of table.now) (ip_path address.now) rule.now }
    ensures in_words { MatchOption result
        (¬ (IsCoveredBy (entries_of table.now) (ip_path address.now) rule.now))
        (λ network. IsMatch (entries_of table.now) (ip_path address.now)
        (ip_path network, rule.now)) }
{
    match_laws::<Value>();
    stored_paths(table);
    first_with(table, address, rule)
}

// Returns the first network with this value in the walk over all that contain an address.
fn first_with(table: &Table, address: &IpPrefix, rule: &str) -> Option<IpPrefix>
    ensures { result ≡ shortest_with (entries_of table.now) (ip_path address.now) rule.now }
{
    for (network, value) in table.cover(address) {
        if rule == value.as_str() {
            return Some(network);
        }
    }
    None
}
