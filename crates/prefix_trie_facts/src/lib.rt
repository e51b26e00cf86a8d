//! Worked rows and facts of the model: what shows that its definitions are right.
//!
//! CI proves this crate, and no other crate uses it. Each function does nothing at run time; its contract is what is proved.
#![tactic(auto)]

ghost use Rattle.prefix_trie_facts.specs.Facts.Blocks.{BlocksHold};
ghost use Rattle.prefix_trie_facts.specs.Facts.Insertions.{InsertionsHold};
ghost use Rattle.prefix_trie_facts.specs.Facts.Steps.{StepsHold};
ghost use Rattle.prefix_trie_facts.specs.Facts.{FactsHold};
ghost use Rattle.prefix_trie_facts.specs.Rows.Addresses.{AddressesHold};
ghost use Rattle.prefix_trie_facts.specs.Rows.Limits.{LimitsHold};
ghost use Rattle.prefix_trie_facts.specs.Rows.Lookups.{LookupsHold};
ghost use Rattle.prefix_trie_facts.specs.Rows.Removals.{RemovalsHold};
ghost use Rattle.prefix_trie_facts.specs.Rows.Walks.{WalksHold};
ghost use Rattle.prefix_trie_facts.specs.Rows.Widths.{WidthsHold};

/// Proves the worked rows on exact lookups and on longest and shortest matches.
#[tactic(auto, using(crate::proofs::Rows::lookups_hold))]
pub fn worked_lookups()
    ensures { LookupsHold }
{}

/// Proves the worked rows on listings, cursors and children.
#[tactic(auto, using(crate::proofs::Rows::walks_hold))]
pub fn worked_walks()
    ensures { WalksHold }
{}

/// Proves the worked rows on what removals leave of the entries and the nodes.
#[tactic(auto, using(crate::proofs::Rows::removals_hold))]
pub fn worked_removals()
    ensures { RemovalsHold }
{}

/// Proves the worked rows on full maps and on new keys refused with `IndexRange`.
#[tactic(auto, using(crate::proofs::Rows::limits_hold))]
pub fn worked_limits()
    ensures { LimitsHold }
{}

/// Proves the worked rows on each width and its last node.
#[tactic(auto, using(crate::proofs::Rows::widths_hold))]
pub fn worked_widths()
    ensures { WidthsHold }
{}

/// Proves the worked rows on the number of covered addresses.
#[tactic(auto, using(crate::proofs::Rows::addresses_hold))]
pub fn worked_addresses()
    ensures { AddressesHold }
{}

/// Proves worked facts that no reply contains.
///
/// They are about visits, holders and parents, block sizes, tilings, calls of a test, a writing walk and a split.
#[tactic(auto, using(crate::proofs::Examples::facts_hold))]
pub fn worked_facts()
    ensures { FactsHold }
{}

/// Proves worked facts on blocks.
///
/// They say which block holds a list, which it needs, how blocks step down, how arrays grow and how blocks tile them.
/// Each has an example that the definition excludes.
#[tactic(auto, using(crate::proofs::Blocks::blocks_hold))]
pub fn worked_blocks()
    ensures { BlocksHold }
{}

/// Proves worked facts on insertions.
///
/// They are about the blocks that an insertion needs, the missing slots and the limit, and which keys a node holds.
#[tactic(auto, using(crate::proofs::Insertions::insertions_hold))]
pub fn worked_insertions()
    ensures { InsertionsHold }
{}

/// Proves worked facts on storages that no step leaves.
///
/// Blocks are lost, moved without need or left over, arrays are too long or too short, or a refusal
/// has no cause.
#[tactic(auto, using(crate::proofs::Steps::steps_hold))]
pub fn worked_storages()
    ensures { StepsHold }
{}
