//! Facts that show what the fewest networks are, at addresses of one bit.
ghost use Rattle.address_ranges_tests.specs.Facts.{FewestFacts};

/// Proves the facts. It does nothing at run time.
#[tactic(auto, using(crate::proofs::FewestFacts::fewest_facts))]
pub fn fewest_facts()
    ensures { FewestFacts }
{}
