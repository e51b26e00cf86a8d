//! The tests of `route_tables`.
#![tactic(auto)]

#[cfg(test)]
mod address_sets;
#[cfg(test)]
mod json;
#[cfg(test)]
mod matching;
#[cfg(test)]
mod pieces;
#[cfg(test)]
mod plain_lists;
#[cfg(test)]
mod printing;
#[cfg(test)]
mod reading;
#[cfg(test)]
mod round_trip;
#[cfg(test)]
mod validating;
