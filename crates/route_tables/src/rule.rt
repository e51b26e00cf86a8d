//! The rules of access lists: the values `allow` and `deny`.
ghost use Rattle.std.specs.Prelude.{IsTrue, ◌↔◌};
ghost use Rattle.route_tables.specs.Reasons.{IsRuleInOtherCase};
ghost use Rattle.route_tables.specs.Routes.{IsRule};

/// The value of networks whose addresses are allowed.
pub const ALLOW: &str = "allow";

/// The value of networks whose addresses are denied.
pub const DENY: &str = "deny";

// Returns whether a value is `allow` or `deny`.
pub(crate) fn is_rule(value: &str) -> bool
    ensures { IsTrue result ↔ IsRule value.now }
{
    value == ALLOW || value == DENY
}

// Returns whether a value is a rule except for the case of its letters.
pub(crate) fn is_rule_in_other_case(value: &str) -> bool
    ensures { IsTrue result ↔ IsRuleInOtherCase value.now }
{
    value.eq_ignore_ascii_case(ALLOW) || value.eq_ignore_ascii_case(DENY)
}
