//! The tests of `address_ranges`, and facts that show what its definitions say.
#![tactic(auto)]

#[cfg(test)]
mod every_set;
pub mod facts;
#[cfg(test)]
mod families;
#[cfg(test)]
mod refusals;
