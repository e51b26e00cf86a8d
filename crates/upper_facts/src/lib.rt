//! Facts that pin definitions of the crates above the maps.
//!
//! For each definition there is a smallest example that meets it, and one that does not. CI proves this crate, and no other
//! crate uses it. Each function does nothing at run time; its contract is what is proved.
#![tactic(auto)]

ghost use Rattle.upper_facts.specs.Routes.{RoutesHold};
ghost use Rattle.upper_facts.specs.Smallest.{SmallestHold};

/// Proves facts on smallest maps, smallest sets and shortest lists of networks.
#[tactic(auto, using(crate::proofs::Smallest::smallest_hold))]
pub fn worked_smallest()
    ensures { SmallestHold }
{}

/// Proves facts on route tables: fewest networks, networks of a range, covered entries, decisions and hidden
/// characters.
#[tactic(auto, using(crate::proofs::Routes::routes_hold))]
pub fn worked_routes()
    ensures { RoutesHold }
{}
