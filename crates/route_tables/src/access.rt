//! Access lists: networks with the rules `allow` and `deny`.
ghost use Rattle.std.specs.Prelude.{◌≡◌, ◌↔◌, All, IfErr, IfOk, IsTrue, List};
ghost use Rattle.prefix_trie.specs.Terms.{no_entries};
ghost use Rattle.prefix_trie_joint.specs.Joined.{entries_of};
ghost use Rattle.prefix_trie_joint.specs.Networks.{ip_path};
ghost use Rattle.route_tables.specs.Access.{IsAllowed, IsAllowing, IsDenyFirstDecision, IsLongestDecision, access_reading, decision};
ghost use Rattle.route_tables.specs.Lines.{table_lines};
ghost use Rattle.route_tables.specs.Loads.{NamesFirstBad, with_routes};
ghost use Rattle.route_tables.specs.Replaced.{ReplacesValues};
ghost use Rattle.route_tables.specs.Routes.{HasRoutes, IsRule, Route};
ghost use Rattle.route_tables.specs.Rules.{HasRules};

mod decisions;
mod idle;

use crate::load::{BadLines, LoadError, Reading, Replaced, TableKind, Warnings, load_into};
use crate::network::HostBits;
pub use crate::rule::{ALLOW, DENY};
use crate::table::Table;
use crate::value::Value;
use decisions::{deny_first_decision, longest_decision};
pub use idle::{Rule, idle_rules};
use prefix_trie::Refusal;
use prefix_trie::laws::match_laws;
use prefix_trie_joint::{IpPrefix, JointPrefixMap};
use std::alloc::Global;
use std::marker::Model;

/// Which of the networks that contain an address decides.
#[derive(Clone, Copy, Debug, Default, PartialEq, Eq)]
pub enum Precedence {
    /// The longest.
    #[default]
    Longest,
    /// The shortest with `deny`, or the shortest with `allow` if none has `deny`.
    DenyFirst,
}

/// What an access list says of an address, with the network that decides.
#[derive(Clone, Copy, Debug, PartialEq, Eq)]
pub enum Decision {
    /// This network decides, and it has the rule `allow`.
    Allowed(IpPrefix),
    /// This network decides, and it has the rule `deny`.
    Denied(IpPrefix),
    /// No network contains the address.
    Unlisted,
}

impl Decision {
    /// Returns whether the address is allowed.
    pub fn is_allowed(&self) -> bool
        ensures { IsTrue result ↔ IsAllowing self.now }
    {
        match self {
            Decision::Allowed(_) => true,
            Decision::Denied(_) => false,
            Decision::Unlisted => false,
        }
    }
}

/// Networks, each with the rule `allow` or `deny`. Contracts see them as the entries of a table.
///
/// A list is made of whole texts. `add` reads each line of a text, or takes the list away. So no rule is ever skipped.
///
/// # Examples
///
/// ```rust
/// let text = b"10.0.0.0/8 allow\n10.1.0.0/16 deny\n10.1.2.0/24 allow\n";
/// let (list, _) = AccessList::new(alloc)?.add(text, HostBits::Refused, alloc)?;
/// list.decide(&"10.1.0.0/32".parse()?, Precedence::Longest);         // Denied(V4(10.1.0.0/16))
/// list.decide(&"10.1.2.0/32".parse()?, Precedence::Longest);         // Allowed(V4(10.1.2.0/24))
/// list.decide(&"10.1.2.0/32".parse()?, Precedence::DenyFirst);       // Denied(V4(10.1.0.0/16))
/// list.decide(&"11.0.0.0/32".parse()?, Precedence::Longest);         // Unlisted
/// ```
#[derive(Drop)]
pub struct AccessList {
    table: Table,
}

impl Model for AccessList {
    ghost use Rattle.prefix_trie_joint.specs.Joined.{entries_of};
    ghost use Rattle.route_tables.specs.Rules.{HasRules};
    ghost use Rattle.route_tables.specs.Tables.{Values, values_code};

    ghost Value = { Values };

    ghost coded = { values_code };

    ghost view = { λ list. entries_of list.table };

    ghost invariant = { λ list. HasRules (entries_of list.table) };
}

impl AccessList {
    /// Returns a list without rules.
    ///
    /// # Errors
    ///
    /// Returns a refusal if an allocation fails.
    pub fn new(alloc: Global) -> Result<AccessList, Refusal>
        ensures { IfOk result (λ list. list ≡ no_entries) }
    {
        let table = JointPrefixMap::new(alloc)?;
        Ok(AccessList { table })
    }

    /// Adds the rules of a text, and returns the list and the networks whose rule a line replaces by another.
    ///
    /// # Errors
    ///
    /// Returns the first line that is not a line of a table or whose value is neither `allow` nor `deny`, with the reason.
    /// Returns a refusal if an allocation fails or a table is full.
    pub fn add<'a>(
        self,
        text: &'a [u8],
        host_bits: HostBits,
        alloc: Global,
    ) -> Result<(AccessList, Vec<Replaced>), LoadError<'a>>
        // Each line is blank, a comment, or networks and their rule, and each network gets its rule.
        ensures whole { IfOk result (λ added. (routes : List Route)
            × HasRoutes (access_reading host_bits) (table_lines text.now) routes
            × All (λ route. IsRule route.1) routes
            × (added.0 ≡ with_routes routes self)) }
        ensures replaced { IfOk result (λ added. ReplacesValues (access_reading host_bits) 0
            (table_lines text.now) self added.0 added.1.items) }
        ensures first_bad { IfErr result
            (NamesFirstBad (access_reading host_bits) (table_lines text.now)) }
    {
        let AccessList { mut table } = self;
        let reading = Reading {
            host_bits,
            bad_lines: BadLines::Refused,
            kind: TableKind::AccessList,
        };
        let warnings = load_into(&mut table, text, reading, alloc)?;
        let Warnings {
            replaced,
            skipped: _,
        } = warnings;
        Ok((AccessList { table }, replaced))
    }

    /// Returns what the list says of an address.
    ///
    /// By default, the longest network that contains the address decides. With `DenyFirst`, a network with `deny` decides
    /// before any with `allow`. Of several networks with the rule that decides, the shortest is named.
    pub fn decide(&self, address: &IpPrefix, precedence: Precedence) -> Decision
        ensures value { result ≡ decision precedence self.now (ip_path address.now) }
        ensures longest { precedence ≡ Precedence.Longest
            → IsLongestDecision self.now (ip_path address.now) result }
        ensures deny_first { precedence ≡ Precedence.DenyFirst
            → IsDenyFirstDecision self.now (ip_path address.now) result }
        ensures allowed { IsAllowing result ↔ IsAllowed precedence self.now (ip_path address.now) }
    {
        match_laws::<Value>();
        match precedence {
            Precedence::Longest => longest_decision(&self.table, address),
            Precedence::DenyFirst => deny_first_decision(&self.table, address),
        }
    }

    /// Returns whether the list allows an address.
    ///
    /// # Examples
    ///
    /// ```rust
    /// let text = b"10.0.0.0/8 allow\n10.1.0.0/16 deny\n";
    /// let (list, _) = AccessList::new(alloc)?.add(text, HostBits::Refused, alloc)?;
    /// list.is_allowed(&"10.2.0.0/32".parse()?, Precedence::Longest);      // true
    /// list.is_allowed(&"10.1.0.0/32".parse()?, Precedence::Longest);      // false: 10.1.0.0/16 denies it
    /// list.is_allowed(&"11.0.0.0/32".parse()?, Precedence::Longest);      // false
    /// ```
    pub fn is_allowed(&self, address: &IpPrefix, precedence: Precedence) -> bool
        ensures { IsTrue result ↔ IsAllowed precedence self.now (ip_path address.now) }
    {
        self.decide(address, precedence).is_allowed()
    }

    // Returns the networks and their rules.
    fn table(&self) -> &Table {
        &self.table
    }
}
